// Why a reading of tokens stops.
ghost use Rattle.std.specs.Prelude.{◌≡◌};

use bp_value::OutOfMemory;
use std::alloc::{AllocError, AllocFailed};

/// Why a reading of tokens stops.
#[derive(Clone, Copy, Debug, PartialEq, Eq)]
pub enum Halt {
    /// The tokens end too early.
    More,
    /// The first token that is left cannot stand there.
    Bad,
    /// It is the word `float` where a base of a shape may stand.
    Float,
    OutOfMemory,
}

impl From<OutOfMemory> for Halt {
    ghost use Rattle.bp_text.specs.declared.halt.Halt.TheVariants as halt;

    ghost from_gives = { λ _ e. e ≡ halt.OutOfMemory };

    fn from(_: OutOfMemory) -> Self {
        Halt::OutOfMemory
    }
}

impl From<AllocError> for Halt {
    ghost use Rattle.bp_text.specs.declared.halt.Halt.TheVariants as halt;

    ghost from_gives = { λ _ e. e ≡ halt.OutOfMemory };

    fn from(_: AllocError) -> Self {
        Halt::OutOfMemory
    }
}

impl<T: Drop> From<AllocFailed<T>> for Halt {
    ghost use Rattle.bp_text.specs.declared.halt.Halt.TheVariants as halt;

    ghost from_gives = { λ _ e. e ≡ halt.OutOfMemory };

    fn from(_: AllocFailed<T>) -> Self {
        Halt::OutOfMemory
    }
}
