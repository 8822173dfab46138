// Labels, and what stands after a label.
ghost use Rattle.std.specs.Prelude.{◌≡◌, ◌↔◌, IfOk, IsTrue};
ghost use Rattle.readers.specs.Reader.{Each, Is};
ghost use Rattle.bp_value.specs.Names.{IsNameStart, IsShapeName};
ghost use Rattle.bp_text_grammar.specs.Lexing.{in_name};
ghost use Rattle.rpc_schema.specs.LineParts.{Lacks};
ghost use Rattle.rpc_schema.specs.LineAnswers.{TakesOne};
ghost use Rattle.rpc_schedule.specs.EventParts.{IsLabel, IsRest, IsWorded, IsQuoted, QuotedRefused, Last, LastRefused};
ghost use Rattle.rpc_schedule.specs.Reading.{IsTextValue};
ghost use Rattle.bp_value.specs.declared.value.Value.TheVariants as val;

use bp_text::{TextError, read_value};
use bp_value::{Blob, OutOfMemory, Shape, Value};
use rpc_schema::{Line, Stop};
use std::alloc::Global;

/// The most bytes of a label.
const MAX_LABEL: usize = 64;

/// A label, and the text of a value.
#[derive(Drop)]
pub struct Worded {
    pub label: Blob,
    pub text: Blob,
}

/// Takes a label.
pub fn take_label(line: &mut Line, alloc: Global) -> Result<Blob, Stop>
    ensures { TakesOne IsLabel (Lacks IsLabel) line.old line.new result }
{
    let word = line.word();
    if !is_label(word) {
        line.skip_blanks();
        return Err(Stop::Refused);
    }
    line.pass_word();
    Ok(Blob::from_slice(alloc, word)?)
}

// Whether a run of name bytes is a name.
fn is_label(word: &[u8]) -> bool
    requires { Each (Is in_name) word.now }
    ensures { IsTrue result ↔ IsShapeName word.now }
{
    match word {
        [] => false,
        [first, ..] => starts_name(*first) && word.len() <= MAX_LABEL,
    }
}

fn starts_name(byte: u8) -> bool
    ensures { IsTrue result ↔ IsNameStart byte }
{
    byte.is_ascii_alphabetic() || byte == b'_'
}

/// Takes a label, to the end of the line.
pub fn take_last_label(line: &mut Line, alloc: Global) -> Result<Blob, Stop>
    ensures { TakesOne (Last IsLabel) (LastRefused IsLabel (Lacks IsLabel))
        line.old line.new result }
{
    let label = take_label(line, alloc)?;
    line.end()?;
    Ok(label)
}

/// Takes all that is left, but the blanks in front.
pub fn take_rest(line: &mut Line, alloc: Global) -> Result<Blob, OutOfMemory>
    ensures { IfOk result (λ text. IsRest text line.old line.new) }
{
    line.skip_blanks();
    let text = Blob::from_slice(alloc, line.rest())?;
    line.skip_all();
    Ok(text)
}

/// Takes a label and the text of a value.
pub fn take_worded(line: &mut Line, alloc: Global) -> Result<Worded, Stop>
    ensures { TakesOne IsWorded (Lacks IsLabel) line.old line.new result }
{
    let label = take_label(line, alloc)?;
    let text = take_rest(line, alloc)?;
    Ok(Worded { label, text })
}

/// Takes a text in quotes, to the end of the line.
pub fn take_quoted(line: &mut Line, alloc: Global) -> Result<Blob, Stop>
    ensures { TakesOne IsQuoted QuotedRefused line.old line.new result }
{
    match read_value(alloc, &Shape::Text, line.rest()) {
        Ok(value) => {
            line.skip_all();
            Ok(text_of(value))
        }
        Err(TextError::BadText { at }) => {
            line.skip(at);
            Err(Stop::Refused)
        }
        Err(TextError::OutOfMemory) => Err(Stop::OutOfMemory),
        Err(TextError::Float { .. } | TextError::NotGood(_)) => unreachable!(),
    }
}

// The bytes of a value that is a text.
fn text_of(value: Value) -> Blob
    requires { IsTextValue value }
    ensures { value ≡ val.Text result }
{
    let Value::Text(text) = value else {
        unreachable!();
    };
    text
}
