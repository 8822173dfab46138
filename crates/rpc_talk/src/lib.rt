//! What the two ends of a connection say to each other: what the answers to a call make of it,
//! which message a client takes, what a client's stream has at fault, and what the acts of a
//! handler say.
//!
//! It has definitions (`specs/`) and proofs (`proofs/`) alone, and no code of its own, so that no
//! edit of an end checks them again.
#![tactic(auto)]
