// Headers and messages from the bytes of a frame's body. A message is read part by part, straight
// from the body, so that only its texts are copied.
ghost use Rattle.std.specs.Prelude.{◌^◌, ◌<◌, ◌≤◌};
ghost use Rattle.bp_grammar.specs.Reading.{read};
ghost use Rattle.rpc_msg.specs.Bodies.{IsBodyRead};
ghost use Rattle.rpc_msg.specs.Taken.{TakesAs};
ghost use Rattle.rpc_msg.specs.Forms.{answer_form, message_form, query_form, response_form};
ghost use Rattle.rpc_msg.specs.Values.{answer_value, message_value, query_value, response_value};

use crate::ends::ended;
use crate::errors::error_at;
use crate::fault::MsgError;
use crate::message::{Answer, Message, Query, Response};
use bp_codec::heads::{number_at, place_at, text_at};
use bp_codec::stop::Stop;
use bp_num::IntKind;
use std::alloc::Global;

/// Reads the message that a frame's body is (`protocol.ml`, `Message.t`). No text in it is longer
/// than `max_len`.
pub fn read_message(alloc: Global, body: &[u8], max_len: u64) -> Result<Message, MsgError>
    requires { max_len ≤ 2 ^ 30 }
    ensures { IsBodyRead message_value max_len message_form body.now result }
{
    let mut rest = body;
    let read = message_at(&mut rest, alloc, max_len);
    ended(read, body, rest)
}

fn message_at(rest: &mut &[u8], alloc: Global, max_len: u64) -> Result<Message, Stop>
    requires { max_len ≤ 2 ^ 30 }
    ensures { TakesAs message_value (read max_len message_form) rest.old.now rest.new.now result }
{
    match place_at(rest, 3)? {
        0 => Ok(Message::Heartbeat),
        1 => Ok(Message::Query(query_at(rest, alloc, max_len)?)),
        _ => Ok(Message::Response(response_at(rest, alloc, max_len)?)),
    }
}

fn query_at(rest: &mut &[u8], alloc: Global, max_len: u64) -> Result<Query, Stop>
    requires { max_len ≤ 2 ^ 30 }
    ensures { TakesAs query_value (read max_len query_form) rest.old.now rest.new.now result }
{
    let tag = text_at(rest, alloc, max_len)?;
    let version = number_at(rest, IntKind::Int63)?;
    let id = number_at(rest, IntKind::Int63)?;
    let body = text_at(rest, alloc, max_len)?;
    Ok(Query {
        tag,
        version,
        id,
        body,
    })
}

fn response_at(rest: &mut &[u8], alloc: Global, max_len: u64) -> Result<Response, Stop>
    requires { max_len ≤ 2 ^ 30 }
    ensures { TakesAs response_value (read max_len response_form) rest.old.now rest.new.now result }
{
    let id = number_at(rest, IntKind::Int63)?;
    let result = answer_at(rest, alloc, max_len)?;
    Ok(Response { id, result })
}

fn answer_at(rest: &mut &[u8], alloc: Global, max_len: u64) -> Result<Answer, Stop>
    requires { max_len ≤ 2 ^ 30 }
    ensures { TakesAs answer_value (read max_len answer_form) rest.old.now rest.new.now result }
{
    match place_at(rest, 2)? {
        0 => Ok(Answer::Ok(text_at(rest, alloc, max_len)?)),
        _ => Ok(Answer::Error(error_at(rest, alloc, max_len)?)),
    }
}
