// The command `show`.
ghost use Rattle.std.specs.Prelude.{◌≡◌, IfOk};
ghost use Rattle.bp_value.specs.Form.{form_of};
ghost use Rattle.bp_value.specs.Faults.{IsGood};
ghost use Rattle.bp_text.specs.Printing.{IsOf};
ghost use Rattle.rpc_tool.specs.Answers.{Answers};
ghost use Rattle.rpc_tool.specs.ValueCommands.{shown_text, IsShown, IsShowRefusal};

use crate::answers::Answer;
use crate::spelled::{Spelled, read_spelled};
use bp_text::{put_natural, put_value};
use bp_value::{OutOfMemory, Shape, Value};
use std::alloc::Global;

#[cfg(test)]
mod tests;

/// Shows the value that the bytes of a hex text spell.
pub fn show(alloc: Global, shape: &Shape, input: &[u8]) -> Result<Answer, OutOfMemory>
    requires { IsGood (form_of shape.now) }
    ensures { IfOk result (Answers (IsShown (form_of shape.now) input.now)
        (IsShowRefusal (form_of shape.now) input.now)) }
{
    match read_spelled(alloc, shape, input)? {
        Spelled::Value { value, count } => Ok(Answer::Done(shown(alloc, shape, &value, count)?)),
        Spelled::Refused(line) => Ok(Answer::Refused(line)),
    }
}

// The value's text, and how many bytes spell it.
fn shown(alloc: Global, shape: &Shape, value: &Value, count: usize) -> Result<Vec<u8>, OutOfMemory>
    requires { IsOf (form_of shape.now) value.now }
    ensures { IfOk result (λ text.
        text.items ≡ shown_text (form_of shape.now) value.now count) }
{
    let mut text = Vec::new(alloc);
    put_value(shape, value, &mut text)?;
    text.push(b'\n')?;
    put_natural(count as u64, &mut text)?;
    text.extend_from_slice(b" bytes\n")?;
    Ok(text)
}
