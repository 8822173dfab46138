// The texts of the errors that responses tell.

ghost use Rattle.std.specs.Prelude.{◌≡◌, ◌++◌, codes, OnErr, OnOk};
ghost use Rattle.bp_text.specs.Printing.{Appends};
ghost use Rattle.rpc_report.specs.Texts.{error_text, told_text, unimplemented_text};

use crate::parts::{append_id, append_word};
use bp_text::{put_quoted, put_sexp};
use bp_value::{OutOfMemory, Sexp};
use rpc_msg::RpcError;

/// Appends the text of the error.
pub fn put_error(error: &RpcError, out: &mut Vec<u8>) -> Result<(), OutOfMemory>
    ensures ok { OnOk result (out.new.items ≡ out.old.items ++ error_text error.now) }
    ensures err { OnErr result (out.new.items ≡ out.old.items) }
{
    let start = out.len();
    match append_error(error, out) {
        Ok(()) => Ok(()),
        Err(error) => {
            out.truncate(start);
            Err(error)
        }
    }
}

/// Appends the text of the error, or a front of it where memory runs out.
pub fn append_error(error: &RpcError, out: &mut Vec<u8>) -> Result<(), OutOfMemory>
    ensures { Appends (error_text error.now) out.old.items out.new.items result }
{
    match error {
        RpcError::BinIo(sexp) => append_told(b"bin_io ", sexp, out),
        RpcError::ConnectionClosed => append_word(b"connection_closed", out),
        RpcError::WriteError(sexp) => append_told(b"write_error ", sexp, out),
        RpcError::Uncaught(sexp) => append_told(b"uncaught ", sexp, out),
        RpcError::Unimplemented { tag, version } => {
            append_unimplemented(tag.as_slice(), *version, out)
        }
        RpcError::UnknownId(id) => append_id(b"unknown_id ", *id, out),
    }
}

// A word, and what the error tells.
fn append_told(word: &[u8], sexp: &Sexp, out: &mut Vec<u8>) -> Result<(), OutOfMemory>
    ensures { Appends (word.now ++ told_text sexp.now) out.old.items out.new.items result }
{
    append_word(word, out)?;
    put_sexp(sexp, out)
}

// The name and the version that no procedure has.
fn append_unimplemented(tag: &[u8], version: i64, out: &mut Vec<u8>) -> Result<(), OutOfMemory>
    ensures { Appends (unimplemented_text tag.now version) out.old.items out.new.items result }
{
    append_word(b"unimplemented ", out)?;
    put_quoted(tag, out)?;
    append_id(b" ", version, out)
}
