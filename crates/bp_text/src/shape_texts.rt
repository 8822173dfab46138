// Texts of shapes, from their bytes on.
ghost use Rattle.std.specs.Prelude.{◌≡◌, IfOk, IfErr, length};
ghost use Rattle.bp_value.specs.declared.shape.Shape.{Shape};
ghost use Rattle.bp_value.specs.Form.{form_of};
ghost use Rattle.bp_value.specs.Faults.{IsGood};
ghost use Rattle.bp_text_grammar.specs.ShapeTexts.{whole_shape_at, IsShapeFault, IsShapeTokens};
ghost use Rattle.bp_text_grammar.specs.WholeTexts.{IsShapeText};
ghost use Rattle.bp_text.specs.TextAnswers.{error_of, IsGiven, IsReadAs, RefusesShape};
ghost use Rattle.bp_text.specs.Unread.{ReadsFrom};

use crate::cursor::Cursor;
use crate::error::TextError;
use crate::halt::Halt;
use crate::shapes::shape;
use bp_value::Shape;
use std::alloc::Global;

#[cfg(test)]
mod tests;

/// The good shape whose text this is.
///
/// A text that the grammar refuses is refused there, whatever its shape would be. Time is linear
/// in the text but for the check of its shape, and the stack is bounded.
pub fn read_shape(alloc: Global, text: &[u8]) -> Result<Shape, TextError>
    ensures spelled { IfOk result (λ shape. IsShapeText shape text.now) }
    ensures good { IfOk result (λ shape. IsGood (form_of shape)) }
    ensures only { (shape : Shape) → IsShapeText shape text.now → IsGood (form_of shape)
        → IsGiven shape result }
    ensures refused { IfErr result (RefusesShape text.now) }
{
    let shape = spelled_shape(alloc, text)?;
    match shape.check() {
        Ok(()) => Ok(shape),
        Err(fault) => Err(TextError::NotGood(fault)),
    }
}

/// The shape whose text this is, good or not.
pub fn spelled_shape(alloc: Global, text: &[u8]) -> Result<Shape, TextError>
    ensures { IsReadAs IsShapeTokens IsShapeFault text.now result }
{
    let mut tokens = Cursor::new(alloc, text)?;
    match only_shape(&mut tokens, alloc) {
        Ok(_) if tokens.is_open() => Err(TextError::BadText { at: text.len() }),
        Ok(shape) => Ok(shape),
        Err(halt) => Err(refusal(halt, text.len(), tokens.left())),
    }
}

// A shape, and nothing after it.
fn only_shape(tokens: &mut Cursor, alloc: Global) -> Result<Shape, Halt>
    ensures { ReadsFrom whole_shape_at tokens.old tokens.new result }
{
    let shape = shape(tokens, alloc)?;
    match tokens.first() {
        None => Ok(shape),
        Some(_) => Err(Halt::Bad),
    }
}

/// The refusal where a reading stops, with `left` bytes left of `len`, which are never more.
pub fn refusal(halt: Halt, len: usize, left: usize) -> TextError
    ensures { result ≡ error_of halt len left }
{
    match halt {
        Halt::More => TextError::BadText { at: len },
        Halt::Bad => TextError::BadText {
            at: len.saturating_sub(left),
        },
        Halt::Float => TextError::Float {
            at: len.saturating_sub(left),
        },
        Halt::OutOfMemory => TextError::OutOfMemory,
    }
}
