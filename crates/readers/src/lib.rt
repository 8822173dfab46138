//! The theory of readers: when a function that reads the front of some symbols is right about a
//! language.
//!
//! It has definitions (`specs/`) and proofs (`proofs/`) alone, and no code of its own. A symbol is
//! a byte for the codec and for lines of a fixed form, and a token for the texts.
#![tactic(auto)]
