ghost use Rattle.std.specs.Prelude.{◌≡◌};

use bp_value::OutOfMemory;
use std::alloc::{AllocError, AllocFailed};
use thiserror::Error;

/// Why a text is no schema. Lines are counted from 1, and places in a line in bytes from 0.
#[derive(Debug, Clone, Copy, PartialEq, Eq, Error)]
pub enum SchemaError {
    /// The token of the line that begins at `at` cannot stand there, or does not suit. Where the
    /// line ends too early, `at` is its length.
    #[error("line {line} is refused at {at}")]
    BadLine { line: u64, at: usize },
    /// The line has the name and the version of an earlier one.
    #[error("line {line} has the name and the version of an earlier one")]
    Twice { line: u64 },
    #[error("out of memory")]
    OutOfMemory,
}

impl From<OutOfMemory> for SchemaError {
    ghost use Rattle.rpc_schema.specs.declared.error.SchemaError.TheVariants as error;

    ghost from_gives = { λ _ e. e ≡ error.OutOfMemory };

    fn from(_: OutOfMemory) -> SchemaError {
        SchemaError::OutOfMemory
    }
}

impl From<AllocError> for SchemaError {
    ghost use Rattle.rpc_schema.specs.declared.error.SchemaError.TheVariants as error;

    ghost from_gives = { λ _ e. e ≡ error.OutOfMemory };

    fn from(_: AllocError) -> SchemaError {
        SchemaError::OutOfMemory
    }
}

impl<T: Drop> From<AllocFailed<T>> for SchemaError {
    ghost use Rattle.rpc_schema.specs.declared.error.SchemaError.TheVariants as error;

    ghost from_gives = { λ _ e. e ≡ error.OutOfMemory };

    fn from(_: AllocFailed<T>) -> SchemaError {
        SchemaError::OutOfMemory
    }
}
