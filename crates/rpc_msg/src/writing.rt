// Messages as frames. The room of a frame's length is left first, and the length put into it once
// the body stands, so that the bytes of a body are put down once.
ghost use Rattle.std.specs.Prelude.{◌≡◌, ℕ, ◌+◌, ◌^◌, ◌≤◌, ◌++◌, ◌∷◌, take, drop, length, OnErr, OnOk};
ghost use Rattle.bp_grammar.specs.Spells.{Spells};
ghost use Rattle.bp_grammar.specs.Written.{written, written_parts, written_sexp};
ghost use Rattle.bp_value.specs.Fits.{Fits};
ghost use Rattle.rpc_frame.specs.Frames.{frame};
ghost use Rattle.rpc_msg.specs.Adds.{Adds};
ghost use Rattle.rpc_msg.specs.Forms.{answer_form, error_form, message_form, query_form, response_form, unimplemented_parts};
ghost use Rattle.rpc_msg.specs.Values.{answer_value, error_value, message_value, query_value, response_value, unimplemented_values};

use crate::message::{Answer, Message, Query, Response, RpcError};
use crate::puts::{add_byte, add_bytes, add_int, add_sexp, add_tag};
use crate::tags::VERSION;
use bp_value::{OutOfMemory, Sexp};

/// The bytes of a frame's length.
const HEAD: usize = 8;

/// Appends the frame of a message, with each number and each length in its shortest form.
pub fn write_message(message: &Message, out: &mut Vec<u8>) -> Result<(), OutOfMemory>
    ensures ok { let body = written message_form (message_value message.now) in
        OnOk result (out.new.items ≡ out.old.items ++ frame body) }
    ensures err { OnErr result (out.new.items ≡ out.old.items) }

    ensures spelled { let v = message_value message.now in (m : ℕ) → m ≤ 2 ^ 30
        → Fits m message_form v → Spells m message_form v (written message_form v) }
{
    let start = out.len();
    match add_frame(message, out) {
        Ok(()) => Ok(()),
        Err(error) => {
            out.truncate(start);
            Err(error)
        }
    }
}

fn add_frame(message: &Message, out: &mut Vec<u8>) -> Result<(), OutOfMemory>
    ensures { let body = written message_form (message_value message.now) in
        Adds (frame body) out.old.items out.new.items result }
{
    let start = out.len();
    out.extend_from_slice(&[0; HEAD])?;
    add_message(message, out)?;
    put_length(start, out);
    Ok(())
}

// How many bytes stand behind the eight at a place, into these eight.
fn put_length(start: usize, out: &mut Vec<u8>)
    requires { start + 8 ≤ length out.old.items }
    ensures { let body = drop (start + 8) out.old.items in
        out.new.items ≡ take start out.old.items ++ frame body }
{
    let end = start + HEAD;
    let count = (out.len() - end) as u64;
    out[start..end].copy_from_slice(&count.to_le_bytes());
}

fn add_message(message: &Message, out: &mut Vec<u8>) -> Result<(), OutOfMemory>
    ensures { Adds (written message_form (message_value message.now))
        out.old.items out.new.items result }
{
    match message {
        Message::Heartbeat => add_byte(0, out),
        Message::Query(query) => {
            add_byte(1, out)?;
            add_query(query, out)
        }
        Message::Response(response) => {
            add_byte(2, out)?;
            add_response(response, out)
        }
    }
}

fn add_query(query: &Query, out: &mut Vec<u8>) -> Result<(), OutOfMemory>
    ensures { Adds (written query_form (query_value query.now))
        out.old.items out.new.items result }
{
    add_bytes(query.tag.as_slice(), out)?;
    add_int(query.version, out)?;
    add_int(query.id, out)?;
    add_bytes(query.body.as_slice(), out)
}

fn add_response(response: &Response, out: &mut Vec<u8>) -> Result<(), OutOfMemory>
    ensures { Adds (written response_form (response_value response.now))
        out.old.items out.new.items result }
{
    add_int(response.id, out)?;
    add_answer(&response.result, out)
}

fn add_answer(answer: &Answer, out: &mut Vec<u8>) -> Result<(), OutOfMemory>
    ensures { Adds (written answer_form (answer_value answer.now))
        out.old.items out.new.items result }
{
    match answer {
        Answer::Ok(body) => {
            add_byte(0, out)?;
            add_bytes(body.as_slice(), out)
        }
        Answer::Error(error) => {
            add_byte(1, out)?;
            add_error(error, out)
        }
    }
}

fn add_error(error: &RpcError, out: &mut Vec<u8>) -> Result<(), OutOfMemory>
    ensures { Adds (written error_form (error_value error.now))
        out.old.items out.new.items result }
{
    match error {
        RpcError::BinIo(sexp) => add_told(0, sexp, out),
        RpcError::ConnectionClosed => add_byte(1, out),
        RpcError::WriteError(sexp) => add_told(2, sexp, out),
        RpcError::Uncaught(sexp) => add_told(3, sexp, out),
        RpcError::Unimplemented { tag, version } => {
            add_byte(4, out)?;
            add_unimplemented(tag.as_slice(), *version, out)
        }
        RpcError::UnknownId(id) => {
            add_byte(5, out)?;
            add_int(*id, out)
        }
    }
}

// The case of an error, and what it tells.
fn add_told(case: u8, sexp: &Sexp, out: &mut Vec<u8>) -> Result<(), OutOfMemory>
    ensures { Adds (case ∷ written_sexp sexp.now) out.old.items out.new.items result }
{
    add_byte(case, out)?;
    add_sexp(sexp, out)
}

// The name and the version that no procedure has.
fn add_unimplemented(tag: &[u8], version: i64, out: &mut Vec<u8>) -> Result<(), OutOfMemory>
    ensures { Adds (written_parts unimplemented_parts (unimplemented_values (tag.now, version)))
        out.old.items out.new.items result }
{
    add_bytes(tag, out)?;
    add_tag(VERSION, out)?;
    add_int(version, out)
}
