// Whole texts of values.
ghost use Rattle.std.specs.Prelude.{◌≡◌, IfErr, IfOk, length};
ghost use Rattle.bp_value.specs.declared.value.Value.{Value};
ghost use Rattle.bp_value.specs.Faults.{IsGood};
ghost use Rattle.bp_value.specs.Fits.{Fits};
ghost use Rattle.bp_value.specs.Form.{form_of};
ghost use Rattle.bp_text_grammar.specs.ValueTexts.{whole_value_at};
ghost use Rattle.bp_text_grammar.specs.WholeTexts.{IsValueText};
ghost use Rattle.bp_text.specs.Unread.{ReadsFrom};
ghost use Rattle.bp_text.specs.ValueAnswers.{refused_by, GivesValue, RefusesValue};

use crate::cursor::Cursor;
use crate::error::TextError;
use crate::halt::Halt;
use crate::values::value;
use bp_value::{Shape, Value};
use std::alloc::Global;

#[cfg(test)]
mod tests;

/// Reads the text of a value of the shape. Blanks may stand between its tokens and at both ends.
///
/// The time is linear in the text, and in the cases of a variant for each of its values. It takes
/// stack for each level of the shape, and of an S-expression.
pub fn read_value(alloc: Global, shape: &Shape, text: &[u8]) -> Result<Value, TextError>
    requires { IsGood (form_of shape.now) }
    ensures good { IfOk result (λ v. IsValueText (form_of shape.now) v text.now) }
    ensures fits { IfOk result (λ v. Fits (length text.now) (form_of shape.now) v) }
    ensures only { (v : Value) → IsValueText (form_of shape.now) v text.now → GivesValue v result }
    ensures refused { IfErr result (RefusesValue (form_of shape.now) text.now) }
{
    let mut cursor = Cursor::new(alloc, text)?;
    match whole_value(shape, &mut cursor) {
        Ok(_) if cursor.is_open() => Err(TextError::BadText { at: text.len() }),
        Ok(value) => Ok(value),
        Err(halt) => Err(refusal(halt, text.len(), cursor.left())),
    }
}

// Nothing but a value.
fn whole_value(shape: &Shape, cursor: &mut Cursor) -> Result<Value, Halt>
    requires { IsGood (form_of shape.now) }
    ensures { ReadsFrom (whole_value_at (form_of shape.now)) cursor.old cursor.new result }
{
    let value = value(shape, cursor)?;
    match cursor.first() {
        None => Ok(value),
        Some(_) => Err(Halt::Bad),
    }
}

// Where a text of so many bytes is refused, of which so many are left.
fn refusal(halt: Halt, len: usize, left: usize) -> TextError
    ensures { result ≡ refused_by halt len left }
{
    match halt {
        Halt::More => TextError::BadText { at: len },
        Halt::Bad => TextError::BadText {
            at: len.saturating_sub(left),
        },
        Halt::Float => TextError::Float {
            at: len.saturating_sub(left),
        },
        Halt::OutOfMemory => TextError::OutOfMemory,
    }
}
