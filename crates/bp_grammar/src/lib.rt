//! The grammar of values: which bytes spell which value of a shape, the reading of them, proved
//! right, and the shortest spelling, proved shortest.
//!
//! It has definitions (`specs/`) and proofs (`proofs/`) alone, and no code of its own, so that no
//! edit of the codec checks the grammar again. The forms are those of bin_prot's "Binary protocol
//! specification".
#![tactic(auto)]
