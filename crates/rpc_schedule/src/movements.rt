// Numbers: how many bytes move and in which pieces, and moments.
ghost use Rattle.std.specs.Prelude.{ℕ, Option, MatchOption};
ghost use Rattle.rpc_schema.specs.LineParts.{Lacks};
ghost use Rattle.rpc_schema.specs.LineAnswers.{TakesOne};
ghost use Rattle.rpc_schedule.specs.EventParts.{SpellsCount, SpellsPiece, IsCount, IsPiece, IsBy, IsByPart, ByPartRefused, ArePieces, PiecesRefused, IsMovementPart, MovementRefused, IsMoment, Last, LastRefused};

use rpc_schema::{Line, Stop, read_number};

/// The most bytes that a movement names, and the greatest moment.
const MAX_COUNT: u64 = (1 << 62) - 1;

/// The most bytes of a piece.
const MAX_PIECE: u64 = 65536;

/// How many bytes move, or all, and the most bytes of a piece.
#[derive(Clone, Copy)]
pub struct Movement {
    pub count: Option<u64>,
    pub by: u64,
}

/// Takes `N` or `all`, and `by M` if it stands there, to the end of the line.
pub fn take_movement(line: &mut Line) -> Result<Movement, Stop>
    ensures { TakesOne IsMovementPart MovementRefused line.old line.new result }
{
    let count = take_count(line)?;
    let by = take_pieces(line)?;
    Ok(Movement { count, by })
}

fn take_count(line: &mut Line) -> Result<Option<u64>, Stop>
    ensures { TakesOne IsCount (Lacks IsCount) line.old line.new result }
{
    let count = count_named(line.word());
    line.take_word(count)
}

fn count_named(word: &[u8]) -> Option<Option<u64>>
    ensures { MatchOption result ((count : Option ℕ) → SpellsCount count word.now → ⊥)
        (λ count. SpellsCount count word.now) }
{
    if word == b"all".as_slice() {
        return Some(None);
    }
    match read_number(word, MAX_COUNT) {
        Some(n) => Some(Some(n)),
        None => None,
    }
}

// Nothing, or `by M`.
fn take_pieces(line: &mut Line) -> Result<u64, Stop>
    ensures { TakesOne ArePieces PiecesRefused line.old line.new result }
{
    if line.is_ended() {
        line.skip_all();
        return Ok(MAX_PIECE);
    }
    take_by_part(line)
}

// `by M`
fn take_by_part(line: &mut Line) -> Result<u64, Stop>
    ensures { TakesOne IsByPart ByPartRefused line.old line.new result }
{
    take_by(line)?;
    take_last_piece(line)
}

fn take_by(line: &mut Line) -> Result<(), Stop>
    ensures { TakesOne IsBy (Lacks IsBy) line.old line.new result }
{
    let is_by = line.word() == b"by".as_slice();
    line.take_word(is_by.then_some(()))
}

fn take_last_piece(line: &mut Line) -> Result<u64, Stop>
    ensures { TakesOne (Last IsPiece) (LastRefused IsPiece (Lacks IsPiece))
        line.old line.new result }
{
    let len = take_piece(line)?;
    line.end()?;
    Ok(len)
}

fn take_piece(line: &mut Line) -> Result<u64, Stop>
    ensures { TakesOne IsPiece (Lacks IsPiece) line.old line.new result }
{
    let len = piece_named(line.word());
    line.take_word(len)
}

fn piece_named(word: &[u8]) -> Option<u64>
    ensures { MatchOption result ((n : ℕ) → SpellsPiece n word.now → ⊥)
        (λ n. SpellsPiece n word.now) }
{
    let len = read_number(word, MAX_PIECE)?;
    if len == 0 {
        return None;
    }
    Some(len)
}

/// Takes a moment in milliseconds, to the end of the line.
pub fn take_last_moment(line: &mut Line) -> Result<u64, Stop>
    ensures { TakesOne (Last IsMoment) (LastRefused IsMoment (Lacks IsMoment))
        line.old line.new result }
{
    let now = take_moment(line)?;
    line.end()?;
    Ok(now)
}

fn take_moment(line: &mut Line) -> Result<u64, Stop>
    ensures { TakesOne IsMoment (Lacks IsMoment) line.old line.new result }
{
    let now = read_number(line.word(), MAX_COUNT);
    line.take_word(now)
}
