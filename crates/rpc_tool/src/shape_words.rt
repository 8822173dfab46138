// The line about a word for a shape that is refused.
ghost use Rattle.std.specs.Prelude.{◌≡◌, ◌++◌, OnErr, OnOk};
ghost use Rattle.bp_text.specs.Printing.{Appends};
ghost use Rattle.rpc_tool.specs.ShapeRefusals.{with_number, shape_fault_text, shape_refused, text_error_text};

use bp_text::{TextError, put_natural};
use bp_value::{OutOfMemory, ShapeFault};

#[cfg(test)]
mod tests;

/// Appends the line about a word for a shape that is refused.
pub fn put_shape_refusal(error: &TextError, out: &mut Vec<u8>) -> Result<(), OutOfMemory>
    ensures ok { OnOk result (out.new.items ≡ out.old.items ++ shape_refused error.now) }
    ensures err { OnErr result (out.new.items ≡ out.old.items) }
{
    let start = out.len();
    match append_refusal(*error, out) {
        Ok(()) => Ok(()),
        Err(error) => {
            out.truncate(start);
            Err(error)
        }
    }
}

// Appends the line, or a front of it where memory runs out.
fn append_refusal(error: TextError, out: &mut Vec<u8>) -> Result<(), OutOfMemory>
    ensures { Appends (shape_refused error) out.old.items out.new.items result }
{
    append_bytes(b"shape: ", out)?;
    append_error(error, out)?;
    append_bytes(b"\n", out)
}

fn append_error(error: TextError, out: &mut Vec<u8>) -> Result<(), OutOfMemory>
    ensures { Appends (text_error_text error) out.old.items out.new.items result }
{
    match error {
        TextError::BadText { at } => append_numbered(b"bad text at", at, out),
        TextError::Float { at } => append_numbered(b"float at", at, out),
        TextError::NotGood(fault) => {
            append_bytes(b"not good: ", out)?;
            append_fault(fault, out)
        }
        TextError::OutOfMemory => Ok(()),
    }
}

fn append_fault(fault: ShapeFault, out: &mut Vec<u8>) -> Result<(), OutOfMemory>
    ensures { Appends (shape_fault_text fault) out.old.items out.new.items result }
{
    match fault {
        ShapeFault::TooDeep { depth } => append_numbered(b"too deep", depth, out),
        ShapeFault::EmptySum => append_bytes(b"empty sum", out),
        ShapeFault::ShortTuple { parts } => append_numbered(b"short tuple", parts, out),
        ShapeFault::EmptyFields => append_bytes(b"empty fields", out),
        ShapeFault::TooMany { count } => append_numbered(b"too many", count, out),
        ShapeFault::BadName { place } => append_numbered(b"bad name", place, out),
        ShapeFault::SameName { first, second } => append_pair(b"same name", first, second, out),
        ShapeFault::TagClash { first, second } => append_pair(b"tag clash", first, second, out),
    }
}

// A word, and two numbers.
fn append_pair(
    word: &[u8],
    first: usize,
    second: usize,
    out: &mut Vec<u8>,
) -> Result<(), OutOfMemory>
    ensures { Appends (with_number (with_number word.now first) second)
        out.old.items out.new.items result }
{
    append_numbered(word, first, out)?;
    append_numbered(b"", second, out)
}

// A word, and a number.
fn append_numbered(word: &[u8], number: usize, out: &mut Vec<u8>) -> Result<(), OutOfMemory>
    ensures { Appends (with_number word.now number) out.old.items out.new.items result }
{
    append_bytes(word, out)?;
    append_bytes(b" ", out)?;
    put_natural(number as u64, out)
}

fn append_bytes(bytes: &[u8], out: &mut Vec<u8>) -> Result<(), OutOfMemory>
    ensures { Appends bytes.now out.old.items out.new.items result }
{
    out.extend_from_slice(bytes)?;
    Ok(())
}
