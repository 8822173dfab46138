// The texts of the faults of bodies.

ghost use Rattle.std.specs.Prelude.{◌≡◌, ◌++◌, codes, OnErr, OnOk};
ghost use Rattle.bp_text.specs.Printing.{Appends};
ghost use Rattle.rpc_report.specs.Texts.{fault_text, why_word};

use crate::parts::{append_count, append_word};
use bp_num::Why;
use bp_value::OutOfMemory;
use rpc_msg::MsgFault;

/// Appends the text of the fault.
pub fn put_fault(fault: &MsgFault, out: &mut Vec<u8>) -> Result<(), OutOfMemory>
    ensures ok { OnOk result (out.new.items ≡ out.old.items ++ fault_text fault.now) }
    ensures err { OnErr result (out.new.items ≡ out.old.items) }
{
    let start = out.len();
    match append_fault(*fault, out) {
        Ok(()) => Ok(()),
        Err(error) => {
            out.truncate(start);
            Err(error)
        }
    }
}

/// Appends the text of the fault, or a front of it where memory runs out.
pub fn append_fault(fault: MsgFault, out: &mut Vec<u8>) -> Result<(), OutOfMemory>
    ensures { Appends (fault_text fault) out.old.items out.new.items result }
{
    match fault {
        MsgFault::Bad { at, why } => {
            append_count(b"refused at ", at, out)?;
            append_word(b": ", out)?;
            append_word(word_of(why), out)
        }
        MsgFault::Cut { at } => append_count(b"cut at ", at, out),
        MsgFault::Trailing { at } => append_count(b"trailing at ", at, out),
    }
}

fn word_of(why: Why) -> &'static [u8]
    ensures { result.now ≡ why_word why }
{
    match why {
        Why::Code => b"code",
        Why::Sign => b"sign",
        Why::Range => b"range",
        Why::Length => b"length",
        Why::Byte => b"byte",
        Why::Case => b"case",
        Why::Tag => b"tag",
    }
}
