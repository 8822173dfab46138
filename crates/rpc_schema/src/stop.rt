// Why the reading of a line stops.
ghost use Rattle.std.specs.Prelude.{◌≡◌};

use bp_value::OutOfMemory;

/// Why the reading of a line stops.
#[derive(Debug, Clone, Copy, PartialEq, Eq)]
pub enum Stop {
    /// The line is refused at the first byte that is left.
    Refused,
    OutOfMemory,
}

impl From<OutOfMemory> for Stop {
    ghost use Rattle.rpc_schema.specs.declared.stop.Stop.TheVariants as stop;

    ghost from_gives = { λ _ e. e ≡ stop.OutOfMemory };

    fn from(_: OutOfMemory) -> Stop {
        Stop::OutOfMemory
    }
}
