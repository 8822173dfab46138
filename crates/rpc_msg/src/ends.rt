// Where the reading of a body has to end: with its last byte.
ghost use Rattle.std.specs.Prelude.{◌≡◌, length};
ghost use Rattle.rpc_msg.specs.Taken.{ended_at};

use crate::fault::{MsgError, MsgFault};
use bp_codec::stop::Stop;

/// What was read of a body, of which these bytes are left.
pub fn ended<T: Drop>(read: Result<T, Stop>, body: &[u8], rest: &[u8]) -> Result<T, MsgError>
    ensures { result ≡ ended_at (length body.now) (length rest.now) read }
{
    let count = body.len() as u64;
    let at = count.saturating_sub(rest.len() as u64);
    let fault = match read {
        Ok(value) if rest.is_empty() => return Ok(value),
        Ok(_) => MsgFault::Trailing { at },
        Err(Stop::More) => MsgFault::Cut { at: count },
        Err(Stop::Bad(why)) => MsgFault::Bad { at, why },
        Err(Stop::OutOfMemory) => return Err(MsgError::OutOfMemory),
    };
    Err(MsgError::Fault(fault))
}
