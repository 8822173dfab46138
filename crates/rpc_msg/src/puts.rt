// The parts of bodies onto the end of a list of bytes, which may be of any length. Where memory
// runs out, some bytes of a part may stand in the list.
ghost use Rattle.std.specs.Prelude.{◌∷◌, []};
ghost use Rattle.bp_grammar.specs.Written.{written_bytes, written_sexp};
ghost use Rattle.bp_num.specs.Forms.{little_endian, written_int};
ghost use Rattle.rpc_msg.specs.Adds.{Adds, EndsAlike};

use bp_codec::PutError;
use bp_codec::encoding::{put_bytes, put_sexp};
use bp_codec::numbers::{put_int, put_word};
use bp_value::{OutOfMemory, Sexp};

/// One byte.
pub fn add_byte(byte: u8, out: &mut Vec<u8>) -> Result<(), OutOfMemory>
    ensures { Adds (byte ∷ []) out.old.items out.new.items result }
{
    out.push(byte)?;
    Ok(())
}

/// A length, and the bytes.
pub fn add_bytes(bytes: &[u8], out: &mut Vec<u8>) -> Result<(), OutOfMemory>
    ensures { Adds (written_bytes bytes.now) out.old.items out.new.items result }
{
    unbounded(put_bytes(bytes, u64::MAX, out))
}

/// An int of any kind.
pub fn add_int(number: i64, out: &mut Vec<u8>) -> Result<(), OutOfMemory>
    ensures { Adds (written_int number) out.old.items out.new.items result }
{
    unbounded(put_int(number, u64::MAX, out))
}

/// The four bytes of a tag.
pub fn add_tag(tag: u32, out: &mut Vec<u8>) -> Result<(), OutOfMemory>
    ensures { Adds (little_endian 4 tag) out.old.items out.new.items result }
{
    unbounded(put_word(tag, u64::MAX, out))
}

/// An S-expression.
pub fn add_sexp(sexp: &Sexp, out: &mut Vec<u8>) -> Result<(), OutOfMemory>
    ensures { Adds (written_sexp sexp.now) out.old.items out.new.items result }
{
    unbounded(put_sexp(sexp, u64::MAX, out))
}

// No list has more bytes than the bound here, so that a part which was not put wanted memory.
fn unbounded(put: Result<(), PutError>) -> Result<(), OutOfMemory>
    ensures { EndsAlike put result }
{
    match put {
        Ok(()) => Ok(()),
        Err(_) => Err(OutOfMemory),
    }
}
