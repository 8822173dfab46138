// The bytes that a reader holds until those that follow them come.
ghost use Rattle.std.specs.Prelude.{◌≡◌, ◌++◌, ℕ, List, MatchOption, OnOk, IfOk};
ghost use Rattle.bp_codec.specs.Held.{IsHeld};
ghost use Rattle.bp_codec.specs.Keeping.{LeavesSome};

use bp_value::OutOfMemory;
use std::alloc::Global;

/// Puts a piece behind the bytes that are held; where none are, it stays where it is.
pub fn hold(held: &mut Vec<u8>, piece: &[u8]) -> Result<(), OutOfMemory>
    ensures { OnOk result (IsHeld held.old.items piece.now held.new.items) }
{
    if !held.is_empty() {
        held.extend_from_slice(piece)?;
    }
    Ok(())
}

/// The bytes that were held, and the piece behind them.
pub fn joined<'a>(held: &'a [u8], piece: &'a [u8]) -> &'a [u8]
    ensures { (before : List ℕ) → IsHeld before piece.now held.now
        → result.now ≡ before ++ piece.now }
{
    if held.is_empty() { piece } else { held }
}

/// What is left of the bytes that were joined, to be held from now on. Where it is what is held
/// already, nothing is copied.
pub fn copied(
    alloc: Global,
    held: &[u8],
    piece: &[u8],
    rest: &[u8],
) -> Result<Option<Vec<u8>>, OutOfMemory>
    ensures { (before : List ℕ) → IsHeld before piece.now held.now
        → LeavesSome (before ++ piece.now) rest.now → IfOk result (λ copy.
        MatchOption copy (held.now ≡ rest.now) (λ copy. copy.items ≡ rest.now)) }
{
    if rest.len() == held.len() {
        return Ok(None);
    }
    Ok(Some(rest.to_vec(alloc)?))
}
