//! The messages of a stream of bytes: what its bodies read as, up to the first that reads as none,
//! and the responses to a query among them.
//!
//! It has definitions (`specs/`) and proofs (`proofs/`) alone, and no code of its own, so that no
//! edit of a reader or of an end checks them again.
#![tactic(auto)]
