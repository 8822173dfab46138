// Bytes on their way through a wire to an end.
ghost use Rattle.std.specs.Prelude.{◌≡◌, ◌≤◌, length, drop, OnOk, IfOk, IsErrOf};
ghost use Rattle.bp_base.specs.Faults.{GoesOn};
ghost use Rattle.rpc_pair.specs.Moving.{IsCarried, IsMoved, TakesPiece};
ghost use Rattle.rpc_pair.specs.declared.error.PairError.TheVariants as error;

use crate::error::PairError;
use crate::party::Party;
use bp_base::{Got, Wire};
use rpc_msg::FeedError;

/// Moves at most `count` bytes from the wire to the end, in pieces of at most `by` bytes, and says
/// how many. To an end that is closed, or that closes on the way, nothing more moves; and a piece
/// that comes short ends the movement.
pub fn carry<E: Party, W: Wire>(
    end: &mut E,
    wire: &mut W,
    buffer: &mut [u8],
    count: u64,
    by: u64,
    now: u64,
) -> Result<u64, PairError>
    requires some { 1 ≤ by }
    requires room { by ≤ length buffer.old }
    ensures sent { W.sent wire.new ≡ W.sent wire.old }
    ensures wire { GoesOn W.faults W.honest wire.old wire.new (IsErrOf result error.WireFault) }
    ensures moved { IfOk result (λ n. IsCarried W.honest W.sent W.given wire.old wire.new n
        (λ bytes short. IsMoved E.closed (TakesPiece (E.takes now) (E.closes now)) count by
        end.old bytes short end.new)) }
    ensures room { length buffer.new ≡ length buffer.old }
    ensures keeps { E.keeps end.old end.new }
{
    let mut left = count;
    'pieces: while left > 0 && !end.is_closed() {
        let size = by.min(left) as usize;
        let piece = &mut buffer[..size];
        match wire.get(piece) {
            Got::Exact => {
                take_piece(end, piece, now)?;
                left -= size as u64;
            }
            Got::Less(less) => {
                take_piece(end, &piece[..less], now)?;
                return Ok(count - left + less as u64);
            }
            Got::Failed => return Err(PairError::WireFault),
        }
    }
    Ok(count - left)
}

/// Feeds an end a piece, up to where it closes.
fn take_piece<E: Party>(end: &mut E, piece: &[u8], now: u64) -> Result<(), PairError>
    ensures took { OnOk result
        (TakesPiece (E.takes now) (E.closes now) end.old piece.now end.new) }
    ensures err { IsErrOf result error.WireFault → ⊥ }
    ensures keeps { E.keeps end.old end.new }
{
    let mut left = piece;
    'feeds: while !left.is_empty() {
        match end.feed(left, now) {
            Ok(count) => left = behind(left, count),
            Err(FeedError::Closed(_)) => return Ok(()),
            Err(FeedError::OutOfMemory) => return Err(PairError::OutOfMemory),
        }
    }
    Ok(())
}

/// What stands behind so many bytes of a piece.
fn behind(piece: &[u8], count: usize) -> &[u8]
    ensures { result.now ≡ drop count piece.now }
{
    if count < piece.len() {
        &piece[count..]
    } else {
        &[]
    }
}
