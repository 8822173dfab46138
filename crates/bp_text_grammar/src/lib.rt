//! The grammar of texts: which bytes are which token, and which tokens are texts of which value or
//! shape.
//!
//! It has definitions (`specs/`) and proofs (`proofs/`) alone, and no code of its own, so that no
//! edit of a reader of texts checks the grammar again.
#![tactic(auto)]
