//! Values to and from their bytes in bin_prot.
//!
//! Which bytes spell which value of a shape is the grammar of bin_prot's "Binary protocol
//! specification". A value may have several spellings, since a number may be written longer than it
//! need be: [`decode`] reads each of them, [`encode`] writes the shortest one, and [`size`] answers
//! its length.
//!
//! Who reads or writes values of a fixed shape part by part finds what these calls are made of in
//! [`heads`], [`numbers`] and [`encoding`].
//!
//! The shape has to be checked, and a value that is written has to fit it, within some limit on
//! lengths of at most 2^30: [`Shape::check`] and [`fits`] are the tests.
//!
//! [`Shape::check`]: bp_value::Shape::check
//! [`fits`]: bp_value::fits
#![tactic(auto)]

mod contents;
mod decoding;
pub mod encoding;
mod error;
pub mod heads;
mod held;
mod leaves;
mod levels;
pub mod numbers;
mod open;
mod plan;
mod reader;
mod run;
mod sexps;
mod sizing;
pub mod stop;
mod taking;

pub use decoding::{Decoded, decode};
pub use encoding::encode;
pub use error::{EncodeError, PutError};
pub use reader::Reader;
pub use sizing::size;

#[cfg(test)]
mod tests;
