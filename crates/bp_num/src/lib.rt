//! The number forms of bin_prot: natural numbers and integers, read in every form and written in
//! the shortest.
//!
//! The forms are those of the "Binary protocol specification": a first byte below `80` is the
//! number itself; else it is a code, and the number follows in one, two, four or eight bytes,
//! little-endian. Nothing here takes memory.
#![tactic(auto)]

mod number;
mod reading;
mod writing;

pub use number::{IntKind, NumRead, Why};
pub use reading::{read_int, read_nat0};
pub use writing::{int_len, nat0_len, write_int, write_nat0};

#[cfg(test)]
mod tests;
