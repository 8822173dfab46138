//! Texts of what is reported: the lines of a dispatch, the errors of responses, the faults of
//! bodies, and the causes of closes. Each call appends one text; only those of a dispatch's lines
//! append a line's end.
#![tactic(auto)]

mod causes;
mod dispatches;
mod errors;
mod faults;
mod parts;
#[cfg(test)]
mod tests;

pub use causes::put_cause;
pub use dispatches::{put_ending, put_head, put_part};
pub use errors::put_error;
pub use faults::put_fault;
