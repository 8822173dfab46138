// What the data of queries asks.
ghost use Rattle.std.specs.Prelude.{◌≡◌, ◌≤◌, ◌^◌, true, IfOk};
ghost use Rattle.bp_value.specs.Faults.{IsGood};
ghost use Rattle.bp_value.specs.Form.{form_of};
ghost use Rattle.rpc_talk.specs.Asks.{asks_in, is_abort, asks_menu, plain_asks, stream_asks};
ghost use Rattle.rpc_talk.specs.Parts.{is_stream};
ghost use Rattle.rpc_server.specs.Asking.{asks_of, is_end};

use crate::reading::{stream_data, value_in};
use bp_value::{OutOfMemory, Shape, Value};
use rpc_msg::StreamQuery;
use rpc_schema::{Kind, RpcDesc};
use std::alloc::Global;

/// What the data of a query asks.
#[derive(Drop)]
pub enum Asked {
    /// A call with this query.
    Calls(Value),
    /// The end of a stream.
    Aborts,
    /// It cannot be read.
    Unclear,
}

/// What a query to a procedure asks.
pub fn asks_in(alloc: Global, max: u64, desc: &RpcDesc, body: &[u8]) -> Result<Asked, OutOfMemory>
    requires good { IsGood (form_of desc.now.query) }
    requires limit { max ≤ 2 ^ 30 }
    ensures { IfOk result (λ asked. asks_of asked ≡ asks_in max desc.now body.now) }
{
    match desc.kind {
        Kind::Plain | Kind::OneWay => plain_asks(alloc, max, &desc.query, body),
        Kind::Pipe | Kind::State => stream_asks(alloc, max, &desc.query, body),
    }
}

/// Whether the menu is asked for.
pub fn asks_menu(alloc: Global, max: u64, body: &[u8]) -> Result<Asked, OutOfMemory>
    requires { max ≤ 2 ^ 30 }
    ensures { IfOk result (λ asked. asks_of asked ≡ asks_menu max body.now) }
{
    plain_asks(alloc, max, &Shape::Unit, body)
}

/// Whether the data of a query to a stream is an abort.
pub fn is_abort(alloc: Global, max: u64, desc: &RpcDesc, body: &[u8]) -> Result<bool, OutOfMemory>
    requires limit { max ≤ 2 ^ 30 }
    requires stream { is_stream desc.now.kind ≡ true }
    ensures { IfOk result (λ aborts. aborts ≡ is_abort (asks_in max desc.now body.now)) }
{
    let query = stream_data(alloc, max, body)?;
    Ok(is_end(&query))
}

fn is_end(query: &Option<StreamQuery>) -> bool
    ensures { result ≡ is_end query.now }
{
    matches!(query, Some(StreamQuery::Abort))
}

fn plain_asks(alloc: Global, max: u64, query: &Shape, body: &[u8]) -> Result<Asked, OutOfMemory>
    requires good { IsGood (form_of query.now) }
    requires limit { max ≤ 2 ^ 30 }
    ensures { IfOk result (λ asked. asks_of asked ≡ plain_asks max (form_of query.now) body.now) }
{
    match value_in(alloc, max, query, body)? {
        Some(value) => Ok(Asked::Calls(value)),
        None => Ok(Asked::Unclear),
    }
}

fn stream_asks(alloc: Global, max: u64, query: &Shape, body: &[u8]) -> Result<Asked, OutOfMemory>
    requires good { IsGood (form_of query.now) }
    requires limit { max ≤ 2 ^ 30 }
    ensures { IfOk result (λ asked. asks_of asked ≡ stream_asks max (form_of query.now) body.now) }
{
    match stream_data(alloc, max, body)? {
        Some(StreamQuery::Query(text)) => plain_asks(alloc, max, query, text.as_slice()),
        Some(StreamQuery::Abort) => Ok(Asked::Aborts),
        None => Ok(Asked::Unclear),
    }
}
