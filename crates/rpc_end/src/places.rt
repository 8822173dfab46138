// Places in a stream: they stay at the last value of a `u64`.
ghost use Rattle.std.specs.Prelude.{◌≡◌};
ghost use Rattle.rpc_talk.specs.Causes.{placed};

use rpc_msg::MsgFault;

/// The fault of a body that begins behind so many bytes of a stream.
pub fn placed(fault: MsgFault, start: u64) -> MsgFault
    ensures { result ≡ placed start fault }
{
    match fault {
        MsgFault::Bad { at, why } => MsgFault::Bad {
            at: start.saturating_add(at),
            why,
        },
        MsgFault::Cut { at } => MsgFault::Cut {
            at: start.saturating_add(at),
        },
        MsgFault::Trailing { at } => MsgFault::Trailing {
            at: start.saturating_add(at),
        },
    }
}
