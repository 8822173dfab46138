// A shape in front of a longer text.
ghost use Rattle.std.specs.Prelude.{◌≡◌, ◌+◌, ◌-◌, ◌≤◌, ◌<◌, ◌^◌, ℕ, IfOk, IfErr, length};
ghost use Rattle.bp_value.specs.declared.shape.Shape.{Shape};
ghost use Rattle.bp_value.specs.Form.{form_of};
ghost use Rattle.bp_value.specs.Faults.{IsGood};
ghost use Rattle.bp_text.specs.TextAnswers.{moved_by, IsFrontReadAs, IsGiven, IsPlaceWithin, IsShapeIf, RefusesFront, StandsIn};

use crate::cursor::Cursor;
use crate::error::TextError;
use crate::halt::Halt;
use crate::shape_texts::{refusal, spelled_shape};
use crate::shapes::shape;
use bp_value::{OutOfMemory, Shape};
use std::alloc::Global;

#[cfg(test)]
mod tests;

/// The good shape that stands in the text from `from` on, and the place after its last token.
///
/// Tokens are taken as long as those that were taken begin the text of some shape. Where the taken
/// ones are no whole text the first fault is told as [`crate::read_shape`] tells it, with the place
/// in the whole text. Time is linear in the text.
pub fn read_shape_front(
    alloc: Global,
    text: &[u8],
    from: usize,
) -> Result<(Shape, usize), TextError>
    requires { from ≤ length text.now }
    ensures spelled { IfOk result (λ read. StandsIn text.now from read.0 read.1) }
    ensures good { IfOk result (λ read. IsGood (form_of read.0)) }
    ensures only { (shape : Shape) (end : ℕ) → StandsIn text.now from shape end
        → IsGood (form_of shape) → IsGiven (shape, end) result }
    ensures refused { IfErr result (RefusesFront text.now from) }
{
    match spelled_front(alloc, &text[from..]) {
        Ok((shape, used)) => match shape.check() {
            Ok(()) => Ok((shape, from + used)),
            Err(fault) => Err(TextError::NotGood(fault)),
        },
        Err(error) => Err(moved(error, from, text.len() - from)),
    }
}

// The shape in front of a text, good or not, and how many bytes it takes.
fn spelled_front(alloc: Global, text: &[u8]) -> Result<(Shape, usize), TextError>
    ensures { IsFrontReadAs text.now result }
{
    let mut tokens = Cursor::new(alloc, text)?;
    let halt = match shape(&mut tokens, alloc) {
        Ok(shape) => return Ok((shape, bytes_taken(text, &tokens))),
        Err(halt) => halt,
    };
    match halt {
        Halt::More => Err(TextError::BadText { at: text.len() }),
        Halt::OutOfMemory => Err(TextError::OutOfMemory),
        Halt::Bad | Halt::Float => {
            let used = bytes_taken(text, &tokens);
            match shape_of(alloc, &text[..used])? {
                Some(shape) => Ok((shape, used)),
                None => Err(refusal(halt, text.len(), tokens.left())),
            }
        }
    }
}

// How many bytes there are to the end of the token taken last.
fn bytes_taken(text: &[u8], tokens: &Cursor) -> usize
    ensures { result ≡ length text.now - length tokens.now.rest }
{
    text.len().saturating_sub(tokens.rest().len())
}

// The shape whose text this is, if it is one.
fn shape_of(alloc: Global, text: &[u8]) -> Result<Option<Shape>, OutOfMemory>
    ensures { IfOk result (IsShapeIf text.now) }
{
    let error = match spelled_shape(alloc, text) {
        Ok(shape) => return Ok(Some(shape)),
        Err(error) => error,
    };
    match error {
        TextError::OutOfMemory => Err(OutOfMemory),
        _ => Ok(None),
    }
}

// The refusal, with a place of the text that begins at `from`, of which `len` bytes are left.
fn moved(error: TextError, from: usize, len: usize) -> TextError
    requires within { IsPlaceWithin len error }
    requires fits { from + len < 2 ^ 64 }
    ensures { result ≡ moved_by from error }
{
    match error {
        TextError::BadText { at } => TextError::BadText { at: from + at },
        TextError::Float { at } => TextError::Float { at: from + at },
        TextError::NotGood(fault) => TextError::NotGood(fault),
        TextError::OutOfMemory => TextError::OutOfMemory,
    }
}
