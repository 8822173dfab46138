//! An end of a connection, whether it calls or answers: what both have in common.
//!
//! [`End`] takes the bytes of the other end in pieces of any size and gives their messages one by
//! one; it keeps the bytes that are to go out, sends heartbeats, and closes once, with one cause.
//! What a message means is told by the crates above.
#![tactic(auto)]

mod end;
mod output;
mod places;
mod reading;
#[cfg(test)]
mod tests;

pub use end::{End, Got, Next};
