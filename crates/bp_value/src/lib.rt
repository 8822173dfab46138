//! Shapes of bin_prot values, the values themselves, and the tags of polymorphic variants.
//!
//! A [`Shape`] is a type of data, a [`Value`] a value without its type. [`Shape::check`] says
//! whether a shape is good, [`fits`] whether a value is of a good shape, and [`poly_tag`] by
//! which number a case of a polymorphic variant is known. Bytes are a [`Blob`], a list is a
//! [`Listed`], one value on the heap is a [`Boxed`]: contracts see the bytes, the items and the
//! value.
//!
//! # Depth
//!
//! A good shape is at most 64 nodes deep, and a value that fits it at most 64 and, below these,
//! an S-expression of 128. `check` looks one node deeper at most, and `fits` no deeper than a
//! good shape and such an S-expression, so their stack is bounded whatever they are given.
//! `copy`, `is_same`, `Debug` and dropping go as deep as the shape or the value does, and that
//! may be any depth where it was neither checked nor read under a limit. No proof speaks of the
//! stack: a program that builds values of great depth by itself can run out of it.
//!
//! # Memory
//!
//! What takes memory is passed the allocator and answers [`OutOfMemory`] where there is none
//! left; it leaves what was lent to it as it was, and drops what was moved into it.
#![tactic(auto)]

mod blob;
mod boxed;
mod checking;
mod comparing;
mod copying;
mod fault;
mod fitting;
mod listed;
mod memory;
mod naming;
mod shape;
mod tagging;
#[cfg(test)]
mod tests;
mod value;

pub use blob::Blob;
pub use boxed::Boxed;
pub use fault::ShapeFault;
pub use fitting::fits;
pub use listed::Listed;
pub use memory::OutOfMemory;
pub use shape::{Case, Field, PolyCase, Shape};
pub use tagging::poly_tag;
pub use value::{Sexp, Value};
