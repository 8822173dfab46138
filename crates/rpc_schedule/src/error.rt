ghost use Rattle.std.specs.Prelude.{◌≡◌};

use bp_value::OutOfMemory;
use rpc_schema::SchemaError;
use std::alloc::{AllocError, AllocFailed};
use thiserror::Error;

/// Why a text is no schedule. Lines are counted from 1 over the whole text, and places in a line in
/// bytes from 0.
#[derive(Debug, Clone, Copy, PartialEq, Eq, Error)]
pub enum ScheduleError {
    /// The token of the line that begins at `at` cannot stand there, or does not suit. Where the
    /// line ends too early, `at` is its length. Where `--` is missing, it is the place 0 of the
    /// line after the last.
    #[error("line {line} is refused at {at}")]
    BadLine { line: u64, at: usize },
    /// The line of the schema has the name and the version of an earlier one.
    #[error("line {line} has the name and the version of an earlier one")]
    Twice { line: u64 },
    #[error("out of memory")]
    OutOfMemory,
}

impl From<SchemaError> for ScheduleError {
    ghost use Rattle.rpc_schedule.specs.Reading.{of_schema};

    ghost from_gives = { λ s e. e ≡ of_schema s };

    fn from(error: SchemaError) -> ScheduleError {
        match error {
            SchemaError::BadLine { line, at } => ScheduleError::BadLine { line, at },
            SchemaError::Twice { line } => ScheduleError::Twice { line },
            SchemaError::OutOfMemory => ScheduleError::OutOfMemory,
        }
    }
}

impl From<OutOfMemory> for ScheduleError {
    ghost use Rattle.rpc_schedule.specs.declared.error.ScheduleError.TheVariants as error;

    ghost from_gives = { λ _ e. e ≡ error.OutOfMemory };

    fn from(_: OutOfMemory) -> ScheduleError {
        ScheduleError::OutOfMemory
    }
}

impl From<AllocError> for ScheduleError {
    ghost use Rattle.rpc_schedule.specs.declared.error.ScheduleError.TheVariants as error;

    ghost from_gives = { λ _ e. e ≡ error.OutOfMemory };

    fn from(_: AllocError) -> ScheduleError {
        ScheduleError::OutOfMemory
    }
}

impl<T: Drop> From<AllocFailed<T>> for ScheduleError {
    ghost use Rattle.rpc_schedule.specs.declared.error.ScheduleError.TheVariants as error;

    ghost from_gives = { λ _ e. e ≡ error.OutOfMemory };

    fn from(_: AllocFailed<T>) -> ScheduleError {
        ScheduleError::OutOfMemory
    }
}
