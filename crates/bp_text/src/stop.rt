// Why a reading stops within quotes.
ghost use Rattle.std.specs.Prelude.{◌≡◌};

use bp_value::OutOfMemory;
use std::alloc::{AllocError, AllocFailed};

/// Why the reading of what stands in quotes stops.
#[derive(Clone, Copy, Debug, PartialEq, Eq)]
pub enum Stop {
    /// The bytes end before the last quote.
    More,
    /// The byte at the cursor cannot stand there.
    Bad,
    OutOfMemory,
}

impl From<OutOfMemory> for Stop {
    ghost use Rattle.bp_text.specs.declared.stop.Stop.TheVariants as stop;

    ghost from_gives = { λ _ e. e ≡ stop.OutOfMemory };

    fn from(_: OutOfMemory) -> Self {
        Stop::OutOfMemory
    }
}

impl From<AllocError> for Stop {
    ghost use Rattle.bp_text.specs.declared.stop.Stop.TheVariants as stop;

    ghost from_gives = { λ _ e. e ≡ stop.OutOfMemory };

    fn from(_: AllocError) -> Self {
        Stop::OutOfMemory
    }
}

impl<T: Drop> From<AllocFailed<T>> for Stop {
    ghost use Rattle.bp_text.specs.declared.stop.Stop.TheVariants as stop;

    ghost from_gives = { λ _ e. e ≡ stop.OutOfMemory };

    fn from(_: AllocFailed<T>) -> Self {
        Stop::OutOfMemory
    }
}
