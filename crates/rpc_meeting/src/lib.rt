//! Two ends that talk over two wires: the world that they make, its step for each event of a
//! schedule, and why each dispatch receives what its own query's handler sent.
//!
//! It has definitions (`specs/`) and proofs (`proofs/`), and of code the words of its answers
//! alone. It knows logs of messages and counts of bytes: no decoder, no table, no inbox.
#![tactic(auto)]

mod answer;

pub use answer::{Refusal, StepAnswer};
