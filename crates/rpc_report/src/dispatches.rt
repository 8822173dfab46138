// The lines of a dispatch.

ghost use Rattle.std.specs.Prelude.{◌≡◌, ◌++◌, OnErr, OnOk};
ghost use Rattle.bp_value.specs.Form.{form_of};
ghost use Rattle.bp_text.specs.Printing.{Appends, IsOf};
ghost use Rattle.bp_text_grammar.specs.PrintedTexts.{value_text};
ghost use Rattle.rpc_report.specs.Dispatches.{ending_text, ending_words, head_text, part_text, part_words, IsEndingOf, IsPartOf};

use crate::errors::append_error;
use crate::faults::append_fault;
use crate::parts::{append_id, append_word};
use bp_text::put_value;
use bp_value::{OutOfMemory, Shape, Value};
use rpc_msg::{Ending, Part};
use rpc_schema::RpcDesc;

#[cfg(test)]
mod tests;

/// Appends the line of a dispatch that stands above its parts and its ending.
pub fn put_head(
    label: &[u8],
    id: i64,
    name: &[u8],
    version: i64,
    out: &mut Vec<u8>,
) -> Result<(), OutOfMemory>
    ensures ok { OnOk result (out.new.items
        ≡ out.old.items ++ head_text label.now id name.now version) }
    ensures err { OnErr result (out.new.items ≡ out.old.items) }
{
    let start = out.len();
    match append_head(label, id, name, version, out) {
        Ok(()) => Ok(()),
        Err(error) => {
            out.truncate(start);
            Err(error)
        }
    }
}

fn append_head(
    label: &[u8],
    id: i64,
    name: &[u8],
    version: i64,
    out: &mut Vec<u8>,
) -> Result<(), OutOfMemory>
    ensures { Appends (head_text label.now id name.now version)
        out.old.items out.new.items result }
{
    append_word(label, out)?;
    append_id(b" id ", id, out)?;
    append_word(b" ", out)?;
    append_word(name, out)?;
    append_id(b" ", version, out)?;
    append_word(b"\n", out)
}

/// Appends the line of the part. Its value is printed by the shape that the procedure has for it.
pub fn put_part(desc: &RpcDesc, part: &Part, out: &mut Vec<u8>) -> Result<(), OutOfMemory>
    requires { IsPartOf desc.now part.now }
    ensures ok { OnOk result (out.new.items ≡ out.old.items ++ part_text desc.now part.now) }
    ensures err { OnErr result (out.new.items ≡ out.old.items) }
{
    let start = out.len();
    match append_part(desc, part, out) {
        Ok(()) => Ok(()),
        Err(error) => {
            out.truncate(start);
            Err(error)
        }
    }
}

fn append_part(desc: &RpcDesc, part: &Part, out: &mut Vec<u8>) -> Result<(), OutOfMemory>
    requires { IsPartOf desc.now part.now }
    ensures { Appends (part_text desc.now part.now) out.old.items out.new.items result }
{
    append_word(b"  ", out)?;
    append_part_words(desc, part, out)?;
    append_word(b"\n", out)
}

fn append_part_words(desc: &RpcDesc, part: &Part, out: &mut Vec<u8>) -> Result<(), OutOfMemory>
    requires { IsPartOf desc.now part.now }
    ensures { Appends (part_words desc.now part.now) out.old.items out.new.items result }
{
    match part {
        Part::First(value) => append_shown(b"first ", &desc.first, value, out),
        Part::Item(value) => append_shown(b"item ", &desc.item, value, out),
    }
}

/// Appends the line of the ending. A reply is printed by the shape of the first answer, and what a
/// stream is declined with by that of its error.
pub fn put_ending(desc: &RpcDesc, ending: &Ending, out: &mut Vec<u8>) -> Result<(), OutOfMemory>
    requires { IsEndingOf desc.now ending.now }
    ensures ok { OnOk result (out.new.items ≡ out.old.items ++ ending_text desc.now ending.now) }
    ensures err { OnErr result (out.new.items ≡ out.old.items) }
{
    let start = out.len();
    match append_ending(desc, ending, out) {
        Ok(()) => Ok(()),
        Err(error) => {
            out.truncate(start);
            Err(error)
        }
    }
}

fn append_ending(desc: &RpcDesc, ending: &Ending, out: &mut Vec<u8>) -> Result<(), OutOfMemory>
    requires { IsEndingOf desc.now ending.now }
    ensures { Appends (ending_text desc.now ending.now) out.old.items out.new.items result }
{
    append_word(b"  ", out)?;
    append_ending_words(desc, ending, out)?;
    append_word(b"\n", out)
}

fn append_ending_words(
    desc: &RpcDesc,
    ending: &Ending,
    out: &mut Vec<u8>,
) -> Result<(), OutOfMemory>
    requires { IsEndingOf desc.now ending.now }
    ensures { Appends (ending_words desc.now ending.now) out.old.items out.new.items result }
{
    match ending {
        Ending::Reply(value) => append_shown(b"reply ", &desc.first, value, out),
        Ending::Failed(error) => {
            append_word(b"failed ", out)?;
            append_error(error, out)
        }
        Ending::BadReply(fault) => {
            append_word(b"bad reply ", out)?;
            append_fault(*fault, out)
        }
        Ending::Declined(value) => append_shown(b"declined ", &desc.error, value, out),
        Ending::Eof => append_word(b"eof", out),
        Ending::Aborted => append_word(b"aborted", out),
        Ending::Sent => append_word(b"sent", out),
        Ending::Closed => append_word(b"closed", out),
    }
}

// A word, and a value as its shape prints it.
fn append_shown(
    word: &[u8],
    shape: &Shape,
    value: &Value,
    out: &mut Vec<u8>,
) -> Result<(), OutOfMemory>
    requires { IsOf (form_of shape.now) value.now }
    ensures { Appends (word.now ++ value_text (form_of shape.now) value.now)
        out.old.items out.new.items result }
{
    append_word(word, out)?;
    put_value(shape, value, out)
}
