// The queries of a client, and what it answers to a query.
ghost use Rattle.std.specs.Prelude.{◌≡◌, ◌^◌, ◌≤◌, ◌++◌, IfErr, IfOk};
ghost use Rattle.bp_value.specs.Faults.{IsGood};
ghost use Rattle.bp_value.specs.Form.{form_of};
ghost use Rattle.bp_grammar.specs.Written.{written};
ghost use Rattle.bp_codec.specs.Fitting.{IsFitting};
ghost use Rattle.rpc_talk.specs.Parts.{is_stream};
ghost use Rattle.rpc_talk.specs.Acts.{fitting, is_short, response, unimplemented};
ghost use Rattle.rpc_client.specs.declared.error.DispatchError.TheVariants as refused;
ghost use Rattle.rpc_client.specs.Clients.{no_procedure};
ghost use Rattle.rpc_client.specs.Tables.{abort_data, call_query, query_data};
ghost use Rattle.rpc_client.specs.Data.{query_head, text_length, IsDataRefused, IsQuery};

use crate::error::DispatchError;
use bp_codec::numbers::{nat_len, put_nat, put_word};
use bp_codec::{encode, size};
use bp_num::int_len;
use bp_value::{Blob, OutOfMemory, Sexp, Shape, Value};
use rpc_msg::{Answer, Message, Query, Response, RpcError};
use rpc_schema::{Kind, RpcDesc};
use std::alloc::Global;

/// The tag of a stream's query.
const QUERY: u32 = 0xE22F_F5D1;

/// What aborts a stream: a tag, and nothing else.
const ABORT: [u8; 4] = [0x21, 0x77, 0x4E, 0x5C];

/// The data of a query, if its spelling has at most `max` bytes.
pub fn query_data(
    alloc: Global,
    desc: &RpcDesc,
    query: &Value,
    max: u64,
) -> Result<Blob, DispatchError>
    requires good { IsGood (form_of desc.now.query) }
    requires fits { IsFitting (form_of desc.now.query) query.now }
    ensures ok { IfOk result (λ body. body ≡ query_data desc.now query.now) }
    ensures err { IfErr result (IsDataRefused max desc.now query.now) }
{
    let Some(count) = size(&desc.query, query, max) else {
        return Err(DispatchError::TooLong { max });
    };
    if !is_stream(desc.kind) {
        return spelled(Vec::new(alloc), &desc.query, query);
    }
    spelled(query_head(alloc, count)?, &desc.query, query)
}

// The spelling of a value behind these bytes.
fn spelled(head: Vec<u8>, shape: &Shape, value: &Value) -> Result<Blob, DispatchError>
    requires good { IsGood (form_of shape.now) }
    requires fits { IsFitting (form_of shape.now) value.now }
    ensures ok { let bytes = written (form_of shape.now) value.now in
        IfOk result (λ body. body ≡ head.items ++ bytes) }
    ensures err { IfErr result (λ e. e ≡ refused.OutOfMemory) }
{
    let mut bytes = head;
    match encode(shape, value, u64::MAX, &mut bytes) {
        Ok(()) => Ok(Blob::from_vec(bytes)),
        Err(_) => Err(DispatchError::OutOfMemory),
    }
}

// The tag and the length in front of the query of a stream.
fn query_head(alloc: Global, count: u64) -> Result<Vec<u8>, OutOfMemory>
    ensures { IfOk result (λ head. head.items ≡ query_head count) }
{
    let mut head = Vec::new(alloc);
    if put_word(QUERY, u64::MAX, &mut head).is_err() {
        return Err(OutOfMemory);
    }
    match put_nat(count, u64::MAX, &mut head) {
        Ok(()) => Ok(head),
        Err(_) => Err(OutOfMemory),
    }
}

/// The data that aborts a stream.
pub fn abort_data(alloc: Global) -> Result<Blob, OutOfMemory>
    ensures { IfOk result (λ body. body ≡ abort_data) }
{
    Blob::from_slice(alloc, &ABORT)
}

/// Whether the message of a query has at most `max` bytes.
pub fn is_short_query(message: &Message, max: u64) -> bool
    requires query { IsQuery message.now }
    requires limit { max ≤ 2 ^ 30 }
    ensures { result ≡ is_short max message.now }
{
    let Message::Query(query) = message else {
        unreachable!();
    };
    let numbers = (int_len(query.version) + int_len(query.id)) as u64;
    let texts = text_len(query.tag.as_slice()).saturating_add(text_len(query.body.as_slice()));
    texts.saturating_add(1 + numbers) <= max
}

// How many bytes a text is written in: a length, and the text.
fn text_len(text: &[u8]) -> u64
    ensures { result ≡ text_length text.now }
{
    let count = text.len() as u64;
    nat_len(count).saturating_add(count)
}

/// What a client answers to a query: it has no procedure.
pub fn no_procedure(alloc: Global, query: Query, max: u64) -> Result<Message, OutOfMemory>
    requires { max ≤ 2 ^ 30 }
    ensures { IfOk result (λ a. a ≡ no_procedure max query) }
{
    let id = query.id;
    let result = if is_short_refusal(&query, max) {
        Answer::Error(RpcError::Unimplemented {
            tag: query.tag,
            version: query.version,
        })
    } else {
        let text = Blob::from_slice(alloc, b"answer too long")?;
        Answer::Error(RpcError::Uncaught(Sexp::Atom(text)))
    };
    Ok(Message::Response(Response { id, result }))
}

// Whether that has at most `max` bytes.
fn is_short_refusal(query: &Query, max: u64) -> bool
    requires { max ≤ 2 ^ 30 }
    ensures { let q = query.now in
        result ≡ is_short max (response q.id (unimplemented q.tag q.version)) }
{
    let numbers = (int_len(query.version) + int_len(query.id)) as u64;
    let texts = text_len(query.tag.as_slice()).saturating_add(7);
    texts.saturating_add(numbers) <= max
}

/// Whether a procedure gives parts.
pub fn is_stream(kind: Kind) -> bool
    ensures { result ≡ is_stream kind }
{
    match kind {
        Kind::Plain | Kind::OneWay => false,
        Kind::Pipe | Kind::State => true,
    }
}

/// A query of a procedure, with an id and a body.
pub fn call_query(
    alloc: Global,
    desc: &RpcDesc,
    id: i64,
    body: Blob,
) -> Result<Message, OutOfMemory>
    ensures { IfOk result (λ a. a ≡ call_query desc.now id body) }
{
    Ok(Message::Query(Query {
        tag: desc.name.copy(alloc)?,
        version: desc.version,
        id,
        body,
    }))
}
