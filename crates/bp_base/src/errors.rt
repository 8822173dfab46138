// What this crate's calls refuse with.
ghost use Rattle.std.specs.Prelude.{◌≡◌};

use std::alloc::{AllocError, AllocFailed};
use thiserror::Error;

/// No memory was left. Whatever was lent to the call is as it was.
#[derive(Clone, Copy, Debug, PartialEq, Eq, Error)]
#[error("out of memory")]
pub struct OutOfMemory;

impl From<AllocError> for OutOfMemory {
    fn from(_: AllocError) -> Self {
        OutOfMemory
    }
}

impl<T: Drop> From<AllocFailed<T>> for OutOfMemory {
    fn from(_: AllocFailed<T>) -> Self {
        OutOfMemory
    }
}

/// Why a source was not read to its end. The bytes that were read are lost.
#[derive(Clone, Copy, Debug, PartialEq, Eq, Error)]
pub enum ReadAllError {
    /// A read failed: the source had a fault, which it counted.
    #[error("a read failed")]
    ReadFault,
    /// More than so many bytes came.
    #[error("more than {max} bytes")]
    TooLong { max: usize },
    /// No memory was left for the bytes.
    #[error("out of memory")]
    OutOfMemory,
}

impl From<AllocError> for ReadAllError {
    ghost use Rattle.bp_base.specs.declared.errors.ReadAllError.TheVariants as error;

    ghost from_gives = { λ _ e. e ≡ error.OutOfMemory };

    fn from(_: AllocError) -> Self {
        ReadAllError::OutOfMemory
    }
}

/// A write failed after so many bytes of the piece.
#[derive(Clone, Copy, Debug, PartialEq, Eq, Error)]
#[error("a write failed after {written} bytes")]
pub struct WriteFault {
    /// How many bytes of the piece the sink took.
    pub written: usize,
}
