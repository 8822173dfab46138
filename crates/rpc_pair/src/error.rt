use bp_value::OutOfMemory;

/// Why a pair could not go on. It is not used again.
#[derive(Clone, Copy, Debug, PartialEq, Eq)]
pub enum PairError {
    /// A wire had a fault, which it counted.
    WireFault,
    OutOfMemory,
}

impl From<OutOfMemory> for PairError {
    ghost use Rattle.std.specs.Prelude.{◌≡◌};
    ghost use Rattle.rpc_pair.specs.declared.error.PairError.TheVariants as error;

    ghost from_gives = { λ _ e. e ≡ error.OutOfMemory };

    fn from(_: OutOfMemory) -> PairError {
        PairError::OutOfMemory
    }
}
