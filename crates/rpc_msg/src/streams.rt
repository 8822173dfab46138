// The data of streams, which stands within messages. It is read from the outside in: first the
// variant, over all of the data, and then what its text spells.
ghost use Rattle.std.specs.Prelude.{◌≡◌, ◌^◌, ◌<◌, ◌≤◌, ◌+◌};
ghost use Rattle.bp_grammar.specs.Reading.{read};
ghost use Rattle.bp_value.specs.Faults.{IsGood};
ghost use Rattle.bp_value.specs.Form.{form_of};
ghost use Rattle.rpc_msg.specs.Bodies.{behind, place_of_fault, IsBody, IsBodyRead, IsFirst, IsMsgFault, IsStreamPart, IsPartFault};
ghost use Rattle.rpc_msg.specs.Forms.{first_form, part_form, stream_query_form};
ghost use Rattle.rpc_msg.specs.Taken.{TakesAs, TakesPart};
ghost use Rattle.rpc_msg.specs.Values.{stream_query_value, unused_first};

use crate::data::{First, StreamPart, StreamQuery};
use crate::ends::ended;
use crate::fault::{MsgError, MsgFault};
use crate::tags::{ABORT, EOF, OK, QUERY};
use crate::values::{read_whole, value_at};
use bp_codec::heads::{length_at, number_at, place_at, tag_at, text_at};
use bp_codec::stop::Stop;
use bp_num::IntKind;
use bp_value::Shape;
use std::alloc::Global;

/// Reads the data of a stream's query.
pub fn read_stream_query(alloc: Global, body: &[u8], max_len: u64) -> Result<StreamQuery, MsgError>
    requires { max_len ≤ 2 ^ 30 }
    ensures { IsBodyRead stream_query_value max_len stream_query_form body.now result }
{
    let mut rest = body;
    let read = stream_query_at(&mut rest, alloc, max_len);
    ended(read, body, rest)
}

fn stream_query_at(rest: &mut &[u8], alloc: Global, max_len: u64) -> Result<StreamQuery, Stop>
    requires { max_len ≤ 2 ^ 30 }
    ensures { TakesAs stream_query_value (read max_len stream_query_form)
        rest.old.now rest.new.now result }
{
    match tag_at(rest, &[QUERY, ABORT])? {
        0 => Ok(StreamQuery::Query(text_at(rest, alloc, max_len)?)),
        _ => Ok(StreamQuery::Abort),
    }
}

/// Reads the data of a stream's first answer: what begins the stream is of the shape `first`, and
/// what declines it of the shape `error`. The number in it is not used, and any is read.
pub fn read_first(
    alloc: Global,
    first: &Shape,
    error: &Shape,
    body: &[u8],
    max_len: u64,
) -> Result<First, MsgError>
    requires good_first { IsGood (form_of first.now) }
    requires good_error { IsGood (form_of error.now) }
    requires limit { max_len ≤ 2 ^ 30 }
    ensures { let begun = form_of first.now in let declined = form_of error.now in
        IsBody (IsFirst max_len begun declined) (IsMsgFault max_len (first_form begun declined))
        body.now result }
{
    let mut rest = body;
    let read = first_at(&mut rest, alloc, first, error, max_len);
    let (_, first) = ended(read, body, rest)?;
    Ok(first)
}

// The number that is not used, and what begins the stream or declines it.
fn first_at(
    rest: &mut &[u8],
    alloc: Global,
    first: &Shape,
    error: &Shape,
    max_len: u64,
) -> Result<(i64, First), Stop>
    requires good_first { IsGood (form_of first.now) }
    requires good_error { IsGood (form_of error.now) }
    requires limit { max_len ≤ 2 ^ 30 }
    ensures { let f = first_form (form_of first.now) (form_of error.now) in
        TakesAs unused_first (read max_len f) rest.old.now rest.new.now result }
{
    let unused = number_at(rest, IntKind::Int63)?;
    match place_at(rest, 2)? {
        0 => Ok((unused, First::Begun(value_at(rest, alloc, first, max_len)?))),
        _ => Ok((
            unused,
            First::Declined(value_at(rest, alloc, error, max_len)?),
        )),
    }
}

/// Reads the data of a stream's later answer, whose item is of the shape `item`.
pub fn read_part(
    alloc: Global,
    item: &Shape,
    body: &[u8],
    max_len: u64,
) -> Result<StreamPart, MsgError>
    requires good { IsGood (form_of item.now) }
    requires limit { max_len ≤ 2 ^ 30 }
    ensures { let f = form_of item.now in
        IsBody (IsStreamPart max_len f) (IsPartFault max_len f) body.now result }
{
    let mut rest = body;
    let read = part_at(&mut rest, max_len);
    let Some(size) = ended(read, body, rest)? else {
        return Ok(StreamPart::Eof);
    };
    let front = body.len() - size;
    match read_whole(alloc, item, &body[front..], max_len) {
        Ok(value) => Ok(StreamPart::Item(value)),
        Err(MsgError::Fault(fault)) => Err(MsgError::Fault(fault.behind(front as u64))),
        Err(MsgError::OutOfMemory) => Err(MsgError::OutOfMemory),
    }
}

// A part: an item, whose text has so many bytes, or the end of the stream.
fn part_at(rest: &mut &[u8], max_len: u64) -> Result<Option<usize>, Stop>
    requires { max_len ≤ 2 ^ 30 }
    ensures { TakesPart (read max_len part_form) rest.old.now rest.new.now result }
{
    if tag_at(rest, &[OK, EOF])? == 1 {
        return Ok(None);
    }
    let size = length_at(rest, max_len)?;
    if rest.len() < size {
        return Err(Stop::More);
    }
    *rest = &rest[size..];
    Ok(Some(size))
}

impl MsgFault {
    /// The fault of data that stands behind so many bytes.
    pub fn behind(self, front: u64) -> MsgFault
        requires { place_of_fault self + front < 2 ^ 64 }
        ensures { result ≡ behind front self }
    {
        match self {
            MsgFault::Bad { at, why } => MsgFault::Bad {
                at: front + at,
                why,
            },
            MsgFault::Cut { at } => MsgFault::Cut { at: front + at },
            MsgFault::Trailing { at } => MsgFault::Trailing { at: front + at },
        }
    }
}
