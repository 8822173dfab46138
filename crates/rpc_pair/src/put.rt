// Bytes of an end on their way out to a wire.
ghost use Rattle.std.specs.Prelude.{◌≡◌, ◌≤◌, length, OnOk, IfOk, IsErrOf};
ghost use Rattle.bp_base.specs.Faults.{GoesOn};
ghost use Rattle.bp_base.specs.Told.{Gains};
ghost use Rattle.rpc_pair.specs.declared.error.PairError.TheVariants as error;

use crate::error::PairError;
use crate::party::Party;
use bp_base::{PutDone, Wire};

/// Puts all bytes that are to go out to the wire, and says how many.
pub fn put_out<E: Party, W: Wire>(
    end: &mut E,
    wire: &mut W,
    buffer: &mut [u8],
) -> Result<u64, PairError>
    requires { 1 ≤ length buffer.old }
    ensures given { W.given wire.new ≡ W.given wire.old }
    ensures wire { GoesOn W.faults W.honest wire.old wire.new (IsErrOf result error.WireFault) }
    ensures sent { OnOk result (Gains W.sent wire.old wire.new (E.output end.old)) }
    ensures count { IfOk result (λ n. n ≡ length (E.output end.old)) }
    ensures out { OnOk result (end.new ≡ E.without end.old (length (E.output end.old))) }
    ensures room { length buffer.new ≡ length buffer.old }
    ensures keeps { E.keeps end.old end.new }
{
    let mut total: u64 = 0;
    'pieces: loop {
        let count = end.take_out(buffer);
        if count == 0 {
            return Ok(total);
        }
        put(wire, &buffer[..count])?;
        total = total
            .checked_add(count as u64)
            .ok_or(PairError::OutOfMemory)?;
    }
}

/// Puts a whole piece to a wire.
fn put<W: Wire>(wire: &mut W, piece: &[u8]) -> Result<(), PairError>
    ensures sent { OnOk result (Gains W.sent wire.old wire.new piece.now) }
    ensures given { W.given wire.new ≡ W.given wire.old }
    ensures wire { GoesOn W.faults W.honest wire.old wire.new (IsErrOf result error.WireFault) }
{
    match wire.put(piece) {
        PutDone::Done => Ok(()),
        PutDone::Failed => Err(PairError::WireFault),
        PutDone::OutOfMemory => Err(PairError::OutOfMemory),
    }
}
