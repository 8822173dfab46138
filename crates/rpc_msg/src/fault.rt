use bp_num::Why;
use bp_value::OutOfMemory;

/// Why a body is no spelling of one value. Places count in the body, from 0.
#[derive(Clone, Copy, Debug, PartialEq, Eq)]
pub enum MsgFault {
    /// The byte at this place is the first that no spelling goes on with.
    Bad { at: u64, why: Why },
    /// The body ends here, before a spelling does.
    Cut { at: u64 },
    /// A spelling ends here, before the body does.
    Trailing { at: u64 },
}

/// Why a body was not read.
#[derive(Clone, Copy, Debug, PartialEq, Eq)]
pub enum MsgError {
    Fault(MsgFault),
    /// Memory ran out. No contract says when.
    OutOfMemory,
}

impl From<OutOfMemory> for MsgError {
    ghost use Rattle.std.specs.Prelude.{◌≡◌};
    ghost use Rattle.rpc_msg.specs.declared.fault.MsgError.TheVariants as error;

    ghost from_gives = { λ _ e. e ≡ error.OutOfMemory };

    fn from(_: OutOfMemory) -> Self {
        MsgError::OutOfMemory
    }
}
