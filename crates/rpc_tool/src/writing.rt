// The command `write`.
ghost use Rattle.std.specs.Prelude.{◌≡◌, ◌≤◌, IfOk, length};
ghost use Rattle.bp_codec.specs.Fitting.{IsFitting};
ghost use Rattle.bp_grammar.specs.Written.{written};
ghost use Rattle.bp_value.specs.Form.{form_of};
ghost use Rattle.bp_value.specs.Faults.{IsGood};
ghost use Rattle.hex.specs.Hex.{encode_lower};
ghost use Rattle.rpc_tool.specs.Lines.{line};
ghost use Rattle.rpc_tool.specs.Answers.{Answers};
ghost use Rattle.rpc_tool.specs.Limits.{most_input};
ghost use Rattle.rpc_tool.specs.ValueCommands.{value_refused, without_line_end, IsWriteRefusal, IsWrittenOut};

use crate::answers::Answer;
use crate::hexes::put_hex;
use bp_codec::encode;
use bp_text::{TextError, put_natural, read_value};
use bp_value::{OutOfMemory, Shape, Value};
use std::alloc::Global;

/// Writes the hex of the shortest spelling of the value of a text. The time is linear in the text,
/// and in the cases of a variant for each of its values.
pub fn write(alloc: Global, shape: &Shape, input: &[u8]) -> Result<Answer, OutOfMemory>
    requires good { IsGood (form_of shape.now) }
    requires short { length input.now ≤ most_input }
    ensures { IfOk result (Answers (IsWrittenOut (form_of shape.now) input.now)
        (IsWriteRefusal (form_of shape.now) input.now)) }
{
    match read_value(alloc, shape, without_line_end(input)) {
        Ok(value) => Ok(Answer::Done(spelling(alloc, shape, &value)?)),
        Err(TextError::BadText { at }) => Ok(Answer::Refused(refusal(alloc, at)?)),
        Err(TextError::OutOfMemory) => Err(OutOfMemory),
        Err(TextError::Float { .. } | TextError::NotGood(_)) => unreachable!(),
    }
}

fn without_line_end(input: &[u8]) -> &[u8]
    ensures { result.now ≡ without_line_end input.now }
{
    let [text @ .., last] = input else {
        return input;
    };
    if *last == b'\n' { text } else { input }
}

// The line of hex of the shortest spelling.
fn spelling(alloc: Global, shape: &Shape, value: &Value) -> Result<Vec<u8>, OutOfMemory>
    requires good { IsGood (form_of shape.now) }
    requires fits { IsFitting (form_of shape.now) value.now }
    ensures { IfOk result (λ text.
        text.items ≡ line (encode_lower (written (form_of shape.now) value.now))) }
{
    let mut bytes = Vec::new(alloc);
    match encode(shape, value, u64::MAX, &mut bytes) {
        Ok(()) => {}
        // No list has more than `u64::MAX` bytes, so memory ran out.
        Err(_) => return Err(OutOfMemory),
    }
    let mut text = Vec::new(alloc);
    put_hex(alloc, bytes.as_slice(), &mut text)?;
    text.push(b'\n')?;
    Ok(text)
}

// The line about a text that is refused at this place.
fn refusal(alloc: Global, at: usize) -> Result<Vec<u8>, OutOfMemory>
    ensures { IfOk result (λ text. text.items ≡ value_refused at) }
{
    let mut text = Vec::new(alloc);
    text.extend_from_slice(b"value: bad text at ")?;
    put_natural(at as u64, &mut text)?;
    text.push(b'\n')?;
    Ok(text)
}
