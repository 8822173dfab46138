ghost use Rattle.std.specs.Prelude.{◌≡◌, IfOk};
ghost use Rattle.rpc_client.specs.Rows.{IsCallable};

use super::*;
use bp_num::Why;
use bp_value::{Blob, OutOfMemory, Shape, Value};
use rpc_frame::put_frame;
use rpc_msg::{CloseCause, Ending, FeedError, Limits, MsgFault, Received, Ticket};
use rpc_schema::{Kind, RpcDesc};
use std::alloc::Global;
use std::test::Fail;

mod gateway;

/// The frame of the header of an end that speaks version 1.
const HEADER: [u8; 10] = [2, 0, 0, 0, 0, 0, 0, 0, 1, 1];

/// A procedure from a text to a text.
fn echo(alloc: Global, kind: Kind) -> Result<RpcDesc, Fail>
    ensures { IfOk result IsCallable }
{
    let text = Shape::Text;
    let unit = Shape::Unit;
    let version = 1;
    if text.check().is_err() || unit.check().is_err() {
        return Err(Fail::new("a shape is at fault"));
    }
    Ok(RpcDesc {
        name: Blob::from_slice(alloc, b"echo")?,
        version,
        kind,
        query: text,
        first: Shape::Text,
        item: unit,
        error: Shape::Unit,
    })
}

fn hi(alloc: Global) -> Result<Value, OutOfMemory> {
    Ok(Value::Text(Blob::from_slice(alloc, b"hi")?))
}

/// A client that may have so many calls open, and has read a header.
fn open(alloc: Global, max_open: u32) -> Result<Client, Fail> {
    let mut limits = Limits::usual();
    limits.max_open = max_open;
    if !limits.ok() {
        return Err(Fail::new("the limits are out of range"));
    }
    let mut client = Client::new(alloc, limits, 0)?;
    if client.feed(&HEADER, 0).is_err() || !client.is_open() {
        return Err(Fail::new("the header was not taken"));
    }
    Ok(client)
}

/// Feeds the frame of a body.
fn answer(client: &mut Client, body: &[u8]) -> Result<(), FeedError> {
    let mut frame = [0; 64];
    let end = 8 + body.len().min(56);
    frame[0] = body.len().min(56) as u8;
    frame[8..end].copy_from_slice(&body[..end - 8]);
    client.feed(&frame[..end], 0)?;
    Ok(())
}

/// The bytes that go out, up to so many.
fn output(client: &mut Client, into: &mut [u8; 64]) -> usize {
    client.take_out(into)
}

/// How many parts are shown, if the ending was not taken.
fn shown(client: &Client, ticket: &Ticket) -> Option<usize> {
    match client.received(ticket) {
        Some(Received { parts, ending: _ }) => Some(parts.len()),
        None => None,
    }
}

#[test]
fn counts_what_waits_for_an_answer(rt: HostRuntime) -> Result<(), Fail> {
    let alloc = rt.alloc();
    let mut client = open(alloc, 1)?;
    let plain = echo(alloc, Kind::Plain)?;
    let one_way = echo(alloc, Kind::OneWay)?;
    let query = hi(alloc)?;
    assert_eq!(rt; client.dispatch(&plain, &query), Ok(Ticket { id: 0 }));
    let full = Err(DispatchError::TooManyOpen { count: 1 });
    assert_eq!(rt; client.dispatch(&plain, &query), full);
    let sent = Ticket { id: 1 };
    assert_eq!(rt; client.dispatch(&one_way, &query), Ok(sent));
    assert!(rt; matches!(client.take(&sent), Took::Ended(Ending::Sent)));
    assert!(rt; matches!(client.take(&sent), Took::Ended(Ending::Sent)));
    Ok(())
}

#[test]
fn takes_each_ending_once(rt: HostRuntime) -> Result<(), Fail> {
    let alloc = rt.alloc();
    let mut client = open(alloc, 8)?;
    let plain = echo(alloc, Kind::Plain)?;
    let query = hi(alloc)?;
    let ticket = Ticket { id: 0 };
    assert!(rt; matches!(client.take(&ticket), Took::Stranger));
    assert_eq!(rt; client.dispatch(&plain, &query), Ok(ticket));
    assert!(rt; matches!(client.take(&ticket), Took::NotYet));
    assert_eq!(rt; answer(&mut client, &[2, 0, 0, 3, 2, 0x68, 0x69]), Ok(()));
    let Took::Ended(Ending::Reply(Value::Text(text))) = client.take(&ticket) else {
        return Err(Fail::new("no reply"));
    };
    assert_eq!(rt; text.as_slice(), b"hi".as_slice());
    assert!(rt; matches!(client.take(&ticket), Took::Over));
    assert_eq!(rt; shown(&client, &ticket), None);
    Ok(())
}

#[test]
fn refuses_a_reply_to_a_one_way_call(rt: HostRuntime) -> Result<(), Fail> {
    let alloc = rt.alloc();
    let mut client = open(alloc, 8)?;
    let one_way = echo(alloc, Kind::OneWay)?;
    let query = hi(alloc)?;
    assert_eq!(rt; client.dispatch(&one_way, &query), Ok(Ticket { id: 1 }));
    assert_eq!(rt; answer(&mut client, &[2, 1, 1, 1]), Ok(()));
    let cause = CloseCause::UnknownId { id: 1 };
    let closed = Err(FeedError::Closed(cause));
    assert_eq!(rt; answer(&mut client, &[2, 1, 0, 1, 0]), closed);
    assert_eq!(rt; answer(&mut client, &[0]), closed);
    assert_eq!(rt;
        client.dispatch(&one_way, &query),
        Err(DispatchError::Closed)
    );
    Ok(())
}

/// Why the reply of a call could not be read.
fn bad_reply(client: &mut Client, ticket: &Ticket) -> Option<MsgFault> {
    match client.take(ticket) {
        Took::Ended(Ending::BadReply(fault)) => Some(fault),
        _ => None,
    }
}

#[test]
fn stays_open_at_a_reply_that_cannot_be_read(rt: HostRuntime) -> Result<(), Fail> {
    let alloc = rt.alloc();
    let mut client = open(alloc, 8)?;
    let plain = echo(alloc, Kind::Plain)?;
    let query = hi(alloc)?;
    let ticket = Ticket { id: 0 };
    assert_eq!(rt; client.dispatch(&plain, &query), Ok(ticket));
    assert_eq!(rt; answer(&mut client, &[2, 0, 0, 1, 0x80]), Ok(()));
    let fault = MsgFault::Bad {
        at: 0,
        why: Why::Code,
    };
    assert_eq!(rt; bad_reply(&mut client, &ticket), Some(fault));
    assert!(rt; client.is_open());
    Ok(())
}

/// The answer that no procedure is called `nope` and has version 7, in its frame.
const NOPE: [u8; 22] = [
    14, 0, 0, 0, 0, 0, 0, 0, 2, 0, 1, 4, 4, 0x6E, 0x6F, 0x70, 0x65, 0xF1, 0x1D, 0x86, 0x94, 7,
];

#[test]
fn has_no_procedure_of_its_own(rt: HostRuntime) -> Result<(), Fail> {
    let alloc = rt.alloc();
    let mut client = open(alloc, 8)?;
    let mut bytes = [0; 64];
    assert_eq!(rt; output(&mut client, &mut bytes), 10);
    assert_eq!(rt; bytes[..10], HEADER[..]);
    let query = [1, 4, 0x6E, 0x6F, 0x70, 0x65, 7, 0, 0];
    assert_eq!(rt; answer(&mut client, &query), Ok(()));
    assert_eq!(rt; output(&mut client, &mut bytes), 22);
    assert_eq!(rt; bytes[..22], NOPE[..]);
    Ok(())
}

/// The frame of a query of 1024 bytes, whose name would stand in the answer to it.
fn long_query(alloc: Global) -> Result<Vec<u8>, OutOfMemory> {
    let mut body = Vec::new(alloc);
    body.extend_from_slice(&[1, 0xFE, 0xF9, 3])?;
    for _ in 0..1017 {
        body.push(b'n')?;
    }
    body.extend_from_slice(&[0, 0, 0])?;
    let mut frame = Vec::new(alloc);
    put_frame(&body, &mut frame)?;
    Ok(frame)
}

/// The error `answer too long` in its frame.
const TOO_LONG: [u8; 29] = [
    21, 0, 0, 0, 0, 0, 0, 0, 2, 0, 1, 3, 0, 15, 0x61, 0x6E, 0x73, 0x77, 0x65, 0x72, 0x20, 0x74,
    0x6F, 0x6F, 0x20, 0x6C, 0x6F, 0x6E, 0x67,
];

/// A client whose messages have at most 1024 bytes, and that has read a header.
fn open_small(alloc: Global) -> Result<Client, Fail> {
    let limits = Limits {
        max_message: 1024,
        max_open: 1,
        beat_every: 1,
        beat_timeout: 10,
    };
    let mut client = Client::new(alloc, limits, 0)?;
    if !feed(&mut client, &HEADER) {
        return Err(Fail::new("the header was not taken"));
    }
    Ok(client)
}

/// Whether just these bytes go out.
fn says(client: &mut Client, want: &[u8]) -> bool {
    let mut bytes = [0; 64];
    let count = client.take_out(&mut bytes);
    &bytes[..count] == want
}

#[test]
fn says_that_its_answer_is_too_long(rt: HostRuntime) -> Result<(), Fail> {
    let alloc = rt.alloc();
    let mut client = open_small(alloc)?;
    let query = long_query(alloc)?;
    assert!(rt; says(&mut client, &HEADER));
    assert!(rt; feed(&mut client, &query));
    assert!(rt; says(&mut client, &TOO_LONG));
    Ok(())
}

/// Whether a whole piece is taken.
fn feed(client: &mut Client, piece: &[u8]) -> bool {
    matches!(client.feed(piece, 0), Ok(used) if used == piece.len())
}

/// Why the frame of a body closes a new client that has read a header.
fn closed_by(alloc: Global, body: &[u8]) -> Result<Option<CloseCause>, Fail> {
    let mut client = open(alloc, 8)?;
    match answer(&mut client, body) {
        Err(FeedError::Closed(cause)) => Ok(Some(cause)),
        _ => Ok(None),
    }
}

#[test]
fn is_closed_by_what_is_no_message(rt: HostRuntime) -> Result<(), Fail> {
    let alloc = rt.alloc();
    let fault = MsgFault::Bad {
        at: 18,
        why: Why::Case,
    };
    assert_eq!(rt;
        closed_by(alloc, &[3])?,
        Some(CloseCause::BadMessage(fault))
    );
    let fault = MsgFault::Cut { at: 18 };
    assert_eq!(rt; closed_by(alloc, &[])?, Some(CloseCause::BadMessage(fault)));
    let stranger = Some(CloseCause::UnknownId { id: 0 });
    assert_eq!(rt; closed_by(alloc, &[2, 0, 0, 1, 0])?, stranger);
    Ok(())
}
