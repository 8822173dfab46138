// What the data of a query reads as.
ghost use Rattle.std.specs.Prelude.{◌≡◌, ◌≤◌, ◌^◌, IfOk};
ghost use Rattle.std.specs.Option.{option_map};
ghost use Rattle.bp_value.specs.Faults.{IsGood};
ghost use Rattle.bp_value.specs.Form.{form_of};
ghost use Rattle.rpc_log.specs.Readings.{value_in};
ghost use Rattle.rpc_msg.specs.Forms.{stream_query_form};
ghost use Rattle.rpc_msg.specs.Values.{stream_query_value};

use bp_value::{OutOfMemory, Shape, Value};
use rpc_msg::{MsgError, StreamQuery, read_stream_query, read_whole};
use std::alloc::Global;

/// The value that the whole of a body spells.
pub fn value_in(
    alloc: Global,
    max: u64,
    shape: &Shape,
    body: &[u8],
) -> Result<Option<Value>, OutOfMemory>
    requires good { IsGood (form_of shape.now) }
    requires limit { max ≤ 2 ^ 30 }
    ensures { IfOk result (λ value. value ≡ value_in max (form_of shape.now) body.now) }
{
    match read_whole(alloc, shape, body, max) {
        Ok(value) => Ok(Some(value)),
        Err(MsgError::Fault(_)) => Ok(None),
        Err(MsgError::OutOfMemory) => Err(OutOfMemory),
    }
}

/// The data of a stream's query that the whole of a body spells.
pub fn stream_data(alloc: Global, max: u64, body: &[u8]) -> Result<Option<StreamQuery>, OutOfMemory>
    requires { max ≤ 2 ^ 30 }
    ensures { IfOk result (λ query. option_map stream_query_value query
        ≡ value_in max stream_query_form body.now) }
{
    match read_stream_query(alloc, body, max) {
        Ok(data) => Ok(Some(data)),
        Err(MsgError::Fault(_)) => Ok(None),
        Err(MsgError::OutOfMemory) => Err(OutOfMemory),
    }
}
