//! Why a reading stops before its value is whole.
ghost use Rattle.std.specs.Prelude.{◌≡◌};

use bp_num::Why;
use bp_value::OutOfMemory;
use std::alloc::{AllocError, AllocFailed};

/// Why a reading stops. Where it stops at a byte, the cursor stands there.
#[derive(Clone, Copy, Debug, PartialEq, Eq)]
pub enum Stop {
    /// The bytes end before the value does.
    More,
    /// The byte at the cursor is at fault.
    Bad(Why),
    /// Memory ran out. No contract says when.
    OutOfMemory,
}

impl From<OutOfMemory> for Stop {
    ghost use Rattle.bp_codec.specs.declared.stop.Stop.TheVariants as stop;

    ghost from_gives = { λ _ e. e ≡ stop.OutOfMemory };

    fn from(_: OutOfMemory) -> Self {
        Stop::OutOfMemory
    }
}

impl From<AllocError> for Stop {
    ghost use Rattle.bp_codec.specs.declared.stop.Stop.TheVariants as stop;

    ghost from_gives = { λ _ e. e ≡ stop.OutOfMemory };

    fn from(_: AllocError) -> Self {
        Stop::OutOfMemory
    }
}

impl<T: Drop> From<AllocFailed<T>> for Stop {
    ghost use Rattle.bp_codec.specs.declared.stop.Stop.TheVariants as stop;

    ghost from_gives = { λ _ e. e ≡ stop.OutOfMemory };

    fn from(_: AllocFailed<T>) -> Self {
        Stop::OutOfMemory
    }
}
