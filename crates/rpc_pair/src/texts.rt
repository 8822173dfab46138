// The values that the texts of events stand for.
ghost use Rattle.std.specs.Prelude.{◌≡◌, IfOk, MatchOption};
ghost use Rattle.bp_value.specs.Fits.{Fits};
ghost use Rattle.bp_value.specs.Form.{form_of};
ghost use Rattle.bp_value.specs.Faults.{IsGood};
ghost use Rattle.rpc_pair.specs.Texts.{IsValueWithin};

use bp_text::{TextError, read_value};
use bp_value::{OutOfMemory, Shape, Value, fits};
use std::alloc::Global;

/// The value of the shape that a text is, if it is one within the limit.
pub fn value_of(
    alloc: Global,
    shape: &Shape,
    text: &[u8],
    max_len: u64,
) -> Result<Option<Value>, OutOfMemory>
    requires { IsGood (form_of shape.now) }
    ensures { IfOk result (IsValueWithin max_len (form_of shape.now) text.now) }
{
    match read_value(alloc, shape, text) {
        Ok(value) => Ok(within(shape, value, max_len)),
        Err(TextError::BadText { .. }) => Ok(None),
        Err(TextError::Float { .. }) => Ok(None),
        Err(TextError::NotGood(_)) => Ok(None),
        Err(TextError::OutOfMemory) => Err(OutOfMemory),
    }
}

// A value that is none longer than may be.
fn within(shape: &Shape, value: Value, max_len: u64) -> Option<Value>
    requires { IsGood (form_of shape.now) }
    ensures { MatchOption result (Fits max_len (form_of shape.now) value → ⊥)
        (λ kept. (kept ≡ value) × Fits max_len (form_of shape.now) value) }
{
    if fits(shape, &value, max_len) {
        Some(value)
    } else {
        None
    }
}
