ghost use Rattle.std.specs.Prelude.{length};
ghost use Rattle.bp_codec.specs.Puts.{KeepsBound};

use std::alloc::{AllocError, AllocFailed};
use thiserror::Error;

/// Why a value was not encoded. The list that it was to be appended to is as it was.
#[derive(Clone, Copy, Debug, PartialEq, Eq, Error)]
pub enum EncodeError {
    /// The shortest spelling has more than `max` bytes.
    #[error("more than {max} bytes")]
    TooLong { max: u64 },
    /// Memory ran out. No contract says when.
    #[error("out of memory")]
    OutOfMemory,
}

impl From<AllocError> for EncodeError {
    ghost use Rattle.std.specs.Prelude.{◌≡◌};
    ghost use Rattle.bp_codec.specs.declared.error.EncodeError.TheVariants as error;

    ghost from_gives = { λ _ e. e ≡ error.OutOfMemory };

    fn from(_: AllocError) -> EncodeError {
        EncodeError::OutOfMemory
    }
}

impl<T: Drop> From<AllocFailed<T>> for EncodeError {
    ghost use Rattle.std.specs.Prelude.{◌≡◌};
    ghost use Rattle.bp_codec.specs.declared.error.EncodeError.TheVariants as error;

    ghost from_gives = { λ _ e. e ≡ error.OutOfMemory };

    fn from(_: AllocFailed<T>) -> EncodeError {
        EncodeError::OutOfMemory
    }
}

/// Why the writing of a part stopped. Some bytes of it may stand in the list.
#[derive(Clone, Copy, Debug, PartialEq, Eq)]
pub enum PutError {
    /// The list would have more bytes than its bound.
    TooLong,
    /// Memory ran out. No contract says when.
    OutOfMemory,
}

impl From<AllocError> for PutError {
    ghost use Rattle.std.specs.Prelude.{◌≡◌};
    ghost use Rattle.bp_codec.specs.declared.error.PutError.TheVariants as error;

    ghost from_gives = { λ _ e. e ≡ error.OutOfMemory };

    fn from(_: AllocError) -> PutError {
        PutError::OutOfMemory
    }
}

impl<T: Drop> From<AllocFailed<T>> for PutError {
    ghost use Rattle.std.specs.Prelude.{◌≡◌};
    ghost use Rattle.bp_codec.specs.declared.error.PutError.TheVariants as error;

    ghost from_gives = { λ _ e. e ≡ error.OutOfMemory };

    fn from(_: AllocFailed<T>) -> PutError {
        PutError::OutOfMemory
    }
}

/// Whether the list has kept a bound on its length.
#[inline(always)]
pub(crate) fn within(bound: u64, out: &Vec<u8>) -> Result<(), PutError>
    ensures { KeepsBound bound (length out.now.items) result }
{
    if out.len() as u64 > bound {
        return Err(PutError::TooLong);
    }
    Ok(())
}
