// What an end answers by itself.
ghost use Rattle.std.specs.Prelude.{◌≡◌, ◌≤◌, ◌^◌, ℤ, true, IfOk};
ghost use Rattle.rpc_talk.specs.Acts.{cannot_read, failed_with, fitting, is_short, response};

use bp_value::{Blob, OutOfMemory, Sexp};
use rpc_msg::{Answer, Message, Response, RpcError, write_message};
use std::alloc::Global;

/// The bytes of a frame in front of its body.
const HEAD: u64 = 8;

/// The most bytes of a message beside the data of its answer: two cases, an id and a length.
const BESIDE: u64 = 20;

/// An answer to the query of an id; where its message would be too long, that it is.
pub fn fitting(alloc: Global, max: u64, id: i64, answer: Answer) -> Result<Message, OutOfMemory>
    requires { max ≤ 2 ^ 30 }
    ensures { IfOk result (λ message. message ≡ response id (fitting max id answer)) }
{
    let message = response(id, answer);
    if is_short(alloc, max, &message)? {
        Ok(message)
    } else {
        Ok(response(id, failed_with(alloc, b"answer too long")?))
    }
}

/// Whether the body of a message has at most so many bytes. It is written to see it, unless its
/// data leaves room for all else.
pub fn is_short(alloc: Global, max: u64, message: &Message) -> Result<bool, OutOfMemory>
    requires { max ≤ 2 ^ 30 }
    ensures { IfOk result (λ short. short ≡ is_short max message.now) }
{
    if has_room(message, max) {
        return Ok(true);
    }
    let mut frame = Vec::new(alloc);
    write_message(message, &mut frame)?;
    Ok(frame.len() as u64 <= max + HEAD)
}

fn has_room(message: &Message, max: u64) -> bool
    requires { max ≤ 2 ^ 30 }
    ensures { result ≡ true → is_short max message.now ≡ true }
{
    match message {
        Message::Response(response) => leaves_room(&response.result, max),
        _ => false,
    }
}

fn leaves_room(answer: &Answer, max: u64) -> bool
    requires { max ≤ 2 ^ 30 }
    ensures { (id : ℤ) → result ≡ true → is_short max (response id answer.now) ≡ true }
{
    match answer {
        Answer::Ok(data) => (data.len() as u64).saturating_add(BESIDE) <= max,
        Answer::Error(_) => false,
    }
}

/// The answer to the query of an id.
pub fn response(id: i64, answer: Answer) -> Message
    ensures { result ≡ response id answer }
{
    Message::Response(Response { id, result: answer })
}

/// The error of a handler that fails with a text.
pub fn failed_with(alloc: Global, text: &[u8]) -> Result<Answer, OutOfMemory>
    ensures { IfOk result (λ answer. answer ≡ failed_with text.now) }
{
    let text = Blob::from_slice(alloc, text)?;
    Ok(Answer::Error(RpcError::Uncaught(Sexp::Atom(text))))
}

/// That the data of a query cannot be read.
pub fn unreadable(alloc: Global) -> Result<Answer, OutOfMemory>
    ensures { IfOk result (λ answer. answer ≡ cannot_read) }
{
    let text = Blob::from_slice(alloc, b"unreadable query")?;
    Ok(Answer::Error(RpcError::BinIo(Sexp::Atom(text))))
}
