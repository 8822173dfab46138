// What an answer says, its data read by the shapes of its procedure.
ghost use Rattle.std.specs.Prelude.{◌≡◌, ◌^◌, ◌≤◌, IfOk};
ghost use Rattle.bp_value.specs.Faults.{IsGood};
ghost use Rattle.bp_value.specs.Form.{form_of};
ghost use Rattle.rpc_talk.specs.Said.{first_said, part_said, plain_said};
ghost use Rattle.rpc_client.specs.Rows.{said_of};

use bp_value::{OutOfMemory, Shape, Value};
use rpc_msg::{First, MsgError, MsgFault, RpcError, StreamPart, read_first, read_part, read_whole};
use std::alloc::Global;

/// What an answer says.
#[derive(Debug, Drop)]
pub enum Saying {
    Reply(Value),
    Begun(Value),
    Declined(Value),
    Item(Value),
    Eof,
    Unreadable(MsgFault),
    Failed(RpcError),
}

/// The answer of a plain procedure.
pub fn plain(alloc: Global, first: &Shape, body: &[u8], max: u64) -> Result<Saying, OutOfMemory>
    requires good { IsGood (form_of first.now) }
    requires limit { max ≤ 2 ^ 30 }
    ensures { IfOk result (λ s. said_of s ≡ plain_said max (form_of first.now) body.now) }
{
    match read_whole(alloc, first, body, max) {
        Ok(value) => Ok(Saying::Reply(value)),
        Err(MsgError::Fault(fault)) => Ok(Saying::Unreadable(fault)),
        Err(MsgError::OutOfMemory) => Err(OutOfMemory),
    }
}

/// The first answer of a stream.
pub fn beginning(
    alloc: Global,
    first: &Shape,
    error: &Shape,
    body: &[u8],
    max: u64,
) -> Result<Saying, OutOfMemory>
    requires good_first { IsGood (form_of first.now) }
    requires good_error { IsGood (form_of error.now) }
    requires limit { max ≤ 2 ^ 30 }
    ensures { let begun = form_of first.now in let declined = form_of error.now in
        IfOk result (λ s. said_of s ≡ first_said max begun declined body.now) }
{
    match read_first(alloc, first, error, body, max) {
        Ok(First::Begun(value)) => Ok(Saying::Begun(value)),
        Ok(First::Declined(value)) => Ok(Saying::Declined(value)),
        Err(MsgError::Fault(fault)) => Ok(Saying::Unreadable(fault)),
        Err(MsgError::OutOfMemory) => Err(OutOfMemory),
    }
}

/// A later answer of a stream.
pub fn later(alloc: Global, item: &Shape, body: &[u8], max: u64) -> Result<Saying, OutOfMemory>
    requires good { IsGood (form_of item.now) }
    requires limit { max ≤ 2 ^ 30 }
    ensures { IfOk result (λ s. said_of s ≡ part_said max (form_of item.now) body.now) }
{
    match read_part(alloc, item, body, max) {
        Ok(StreamPart::Item(value)) => Ok(Saying::Item(value)),
        Ok(StreamPart::Eof) => Ok(Saying::Eof),
        Err(MsgError::Fault(fault)) => Ok(Saying::Unreadable(fault)),
        Err(MsgError::OutOfMemory) => Err(OutOfMemory),
    }
}
