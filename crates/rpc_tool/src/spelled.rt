// The value that the bytes of a hex text spell.
ghost use Rattle.std.specs.Prelude.{◌≡◌, ℕ, IfOk};
ghost use Rattle.readers.specs.Reader.{Stands};
ghost use Rattle.bp_value.specs.Form.{form_of, Form};
ghost use Rattle.bp_value.specs.Faults.{IsGood};
ghost use Rattle.bp_grammar.specs.Spells.{Spells};
ghost use Rattle.rpc_msg.specs.Bodies.{IsBodyRead};
ghost use Rattle.rpc_report.specs.Texts.{fault_text};
ghost use Rattle.rpc_tool.specs.Lines.{line};
ghost use Rattle.rpc_tool.specs.Spelled.{IsSpelled};
ghost use Rattle.rpc_tool.specs.ValueCommands.{hex_refused, longest_shown};

use crate::hexes::{HexError, read_hex};
use bp_codec::{Decoded, Reader};
use bp_text::put_natural;
use bp_value::{OutOfMemory, Shape, Value};
use rpc_msg::{MsgError, MsgFault};
use rpc_report::put_fault;
use std::alloc::Global;

/// The most bytes of a text, and items of a list, in a value that is read.
const LONGEST_SHOWN: u64 = 104_857_600;

/// How many bytes are decoded at once.
const PIECE: usize = 4096;

/// What the bytes of a hex text spell.
#[derive(Debug, Drop)]
pub enum Spelled {
    /// A value, in so many bytes.
    Value { value: Value, count: usize },
    /// Nothing: this is the line about it.
    Refused(Vec<u8>),
}

/// The value of a shape that the bytes of a hex text spell, or the line about why they spell none.
pub fn read_spelled(alloc: Global, shape: &Shape, input: &[u8]) -> Result<Spelled, OutOfMemory>
    requires { IsGood (form_of shape.now) }
    ensures { IfOk result (IsSpelled (form_of shape.now) input.now) }
{
    let bytes = match read_hex(alloc, input) {
        Ok(bytes) => bytes,
        Err(HexError::BadHex { at }) => return Ok(Spelled::Refused(hex_line(alloc, at)?)),
        Err(HexError::OutOfMemory) => return Err(OutOfMemory),
    };
    match decoded(alloc, shape, bytes.as_slice()) {
        Ok(value) => Ok(Spelled::Value {
            value,
            count: bytes.len(),
        }),
        Err(MsgError::Fault(fault)) => Ok(Spelled::Refused(fault_line(alloc, fault)?)),
        Err(MsgError::OutOfMemory) => Err(OutOfMemory),
    }
}

/// The value that the bytes spell. They are decoded piece by piece, as a stream of them would be.
fn decoded(alloc: Global, shape: &Shape, bytes: &[u8]) -> Result<Value, MsgError>
    requires { IsGood (form_of shape.now) }
    ensures { IsBodyRead (λ v. v) longest_shown (form_of shape.now) bytes.now result }
{
    let mut reader = Reader::new(alloc, shape, LONGEST_SHOWN)?;
    let mut start = 0;
    'pieces: while start < bytes.len() {
        let end = start + PIECE.min(bytes.len() - start);
        match reader.feed(&bytes[start..end]) {
            Ok(Decoded::More) => start = end,
            Ok(Decoded::Whole { value, used }) => return whole(value, start + used, bytes),
            Ok(Decoded::Bad { at, why }) => {
                return Err(MsgError::Fault(MsgFault::Bad { at: at as u64, why }));
            }
            Err(error) => return Err(error.into()),
        }
    }
    Err(MsgError::Fault(MsgFault::Cut {
        at: bytes.len() as u64,
    }))
}

// A value whose spelling ends at a place has to end all bytes.
fn whole(value: Value, end: usize, bytes: &[u8]) -> Result<Value, MsgError>
    ensures { (m : ℕ) (f : Form) → Stands (Spells m f) bytes.now value end
        → IsBodyRead (λ v. v) m f bytes.now result }
{
    if end < bytes.len() {
        return Err(MsgError::Fault(MsgFault::Trailing { at: end as u64 }));
    }
    Ok(value)
}

/// The line about a text that is no hex.
pub fn hex_line(alloc: Global, at: usize) -> Result<Vec<u8>, OutOfMemory>
    ensures { IfOk result (λ text. text.items ≡ hex_refused at) }
{
    let mut text = Vec::new(alloc);
    text.extend_from_slice(b"input: bad hex at ")?;
    put_natural(at as u64, &mut text)?;
    text.push(b'\n')?;
    Ok(text)
}

fn fault_line(alloc: Global, fault: MsgFault) -> Result<Vec<u8>, OutOfMemory>
    ensures { IfOk result (λ text. text.items ≡ line (fault_text fault)) }
{
    let mut text = Vec::new(alloc);
    put_fault(&fault, &mut text)?;
    text.push(b'\n')?;
    Ok(text)
}
