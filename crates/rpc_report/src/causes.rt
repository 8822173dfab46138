// The texts of the causes of closes.

ghost use Rattle.std.specs.Prelude.{◌≡◌, ◌++◌, codes, OnErr, OnOk};
ghost use Rattle.bp_text.specs.Printing.{Appends};
ghost use Rattle.rpc_report.specs.Texts.{cause_text, fault_text, late_text, stream_text};

use crate::faults::append_fault;
use crate::parts::{append_count, append_id, append_word};
use bp_value::OutOfMemory;
use rpc_msg::{CloseCause, MsgFault};

/// Appends the text of the cause.
pub fn put_cause(cause: &CloseCause, out: &mut Vec<u8>) -> Result<(), OutOfMemory>
    ensures ok { OnOk result (out.new.items ≡ out.old.items ++ cause_text cause.now) }
    ensures err { OnErr result (out.new.items ≡ out.old.items) }
{
    let start = out.len();
    match append_cause(cause, out) {
        Ok(()) => Ok(()),
        Err(error) => {
            out.truncate(start);
            Err(error)
        }
    }
}

fn append_cause(cause: &CloseCause, out: &mut Vec<u8>) -> Result<(), OutOfMemory>
    ensures { Appends (cause_text cause.now) out.old.items out.new.items result }
{
    match cause {
        CloseCause::BadFrame { at } => append_count(b"frame too long at ", *at, out),
        CloseCause::BadHeader(fault) => append_refused(b"header ", *fault, out),
        CloseCause::NoCommonProtocol => append_word(b"no common protocol", out),
        CloseCause::BadMessage(fault) => append_refused(b"message ", *fault, out),
        CloseCause::UnknownId { id } => append_id(b"unknown id ", *id, out),
        CloseCause::BadStreamData { id, fault } => append_stream(*id, *fault, out),
        CloseCause::DuplicateQuery { id } => append_id(b"duplicate query ", *id, out),
        CloseCause::TooManyOpen { count } => append_count(
            b"too many open ",
            u64::from(*count),
            out,
        ),
        CloseCause::Late { last, now } => append_late(*last, *now, out),
        CloseCause::EndOfInput => append_word(b"end of input", out),
        CloseCause::ClosedHere => append_word(b"closed here", out),
        CloseCause::LinkFault => append_word(b"link fault", out),
        CloseCause::JournalFull { got } => append_count(b"journal full ", *got, out),
        CloseCause::OutOfMemory => append_word(b"out of memory", out),
    }
}

// A word, and why what it names was not read.
fn append_refused(word: &[u8], fault: MsgFault, out: &mut Vec<u8>) -> Result<(), OutOfMemory>
    ensures { Appends (word.now ++ fault_text fault) out.old.items out.new.items result }
{
    append_word(word, out)?;
    append_fault(fault, out)
}

fn append_stream(id: i64, fault: MsgFault, out: &mut Vec<u8>) -> Result<(), OutOfMemory>
    ensures { Appends (stream_text id fault) out.old.items out.new.items result }
{
    append_id(b"stream ", id, out)?;
    append_refused(b" ", fault, out)
}

// The moments when the other end was last heard, and when it was late.
fn append_late(last: u64, now: u64, out: &mut Vec<u8>) -> Result<(), OutOfMemory>
    ensures { Appends (late_text last now) out.old.items out.new.items result }
{
    append_count(b"late ", last, out)?;
    append_count(b" ", now, out)
}
