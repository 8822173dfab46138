ghost use Rattle.std.specs.Prelude.{◌≡◌, IfOk};
ghost use Rattle.rpc_client.specs.Rows.{IsCallable};

use super::*;
use bp_value::{Blob, OutOfMemory, Shape, Value};
use rpc_client::Took;
use rpc_frame::put_frame;
use rpc_msg::{CloseCause, Ending, FeedError, Limits, Received, Ticked, Ticket};
use rpc_schema::{Kind, RpcDesc};
use std::alloc::Global;
use std::test::Fail;

/// The frame of the header of an end that speaks version 1.
const HEADER: [u8; 10] = [2, 0, 0, 0, 0, 0, 0, 0, 1, 1];

/// A reply of "hi" to the first call.
const REPLY: [u8; 7] = [2, 0, 0, 3, 2, 0x68, 0x69];

/// The beginning of a pipe, an item 1, and its end.
const BEGUN: [u8; 7] = [2, 0, 0, 3, 0, 0, 0];

const ITEM: [u8; 10] = [2, 0, 0, 6, 0x79, 0x8A, 0, 0, 1, 1];

const EOF: [u8; 8] = [2, 0, 0, 4, 0x39, 0x79, 0x69, 0];

/// A procedure from a text to a text.
fn echo(alloc: Global) -> Result<RpcDesc, Fail>
    ensures { IfOk result IsCallable }
{
    let text = Shape::Text;
    let unit = Shape::Unit;
    let version = 1;
    if text.check().is_err() || unit.check().is_err() {
        return Err(Fail::new("a shape is at fault"));
    }
    Ok(RpcDesc {
        name: Blob::from_slice(alloc, b"echo")?,
        version,
        kind: Kind::Plain,
        query: text,
        first: Shape::Text,
        item: unit,
        error: Shape::Unit,
    })
}

/// A pipe from a text to integers.
fn pipe(alloc: Global) -> Result<RpcDesc, Fail>
    ensures { IfOk result IsCallable }
{
    let text = Shape::Text;
    let int = Shape::Int;
    let unit = Shape::Unit;
    let version = 1;
    if text.check().is_err() || int.check().is_err() || unit.check().is_err() {
        return Err(Fail::new("a shape is at fault"));
    }
    Ok(RpcDesc {
        name: Blob::from_slice(alloc, b"echo")?,
        version,
        kind: Kind::Pipe,
        query: text,
        first: unit,
        item: int,
        error: Shape::Unit,
    })
}

/// A book that has read a header, byte by byte.
fn open(alloc: Global) -> Result<Book, Fail> {
    let limits = Limits::usual();
    if !limits.ok() {
        return Err(Fail::new("the limits are out of range"));
    }
    let mut book = Book::new(alloc, limits, 0)?;
    feed_bytes(&mut book, &HEADER)?;
    if !book.is_open() {
        return Err(Fail::new("the header was not taken"));
    }
    Ok(book)
}

/// Feeds some bytes, one by one.
fn feed_bytes(book: &mut Book, bytes: &[u8]) -> Result<(), Fail> {
    for byte in bytes {
        if book.feed(&[*byte], 0).is_err() {
            return Err(Fail::new("a byte was not taken"));
        }
    }
    Ok(())
}

/// Feeds the frame of a body, byte by byte.
fn answer(alloc: Global, book: &mut Book, body: &[u8]) -> Result<(), Fail> {
    let mut frame = Vec::new(alloc);
    put_frame(body, &mut frame)?;
    feed_bytes(book, &frame)
}

/// Calls a procedure with "hi".
fn call(alloc: Global, book: &mut Book, desc: &RpcDesc) -> Result<Ticket, Fail>
    requires { IsCallable desc.now }
{
    let query = Value::Text(Blob::from_slice(alloc, b"hi")?);
    let label = Blob::from_slice(alloc, b"a")?;
    match book.dispatch(label, desc, &query) {
        Ok(ticket) => Ok(ticket),
        Err(_) => Err(Fail::new("not dispatched")),
    }
}

/// How many parts are shown, and whether the dispatch was aborted.
fn shown(book: &Book, ticket: &Ticket) -> Option<(usize, bool)> {
    match book.received(ticket) {
        Some(Received { parts, ending }) => {
            Some((parts.len(), matches!(ending, Some(Ending::Aborted))))
        }
        None => None,
    }
}

#[test]
fn takes_a_reply_that_came_byte_by_byte(rt: HostRuntime) -> Result<(), Fail> {
    let alloc = rt.alloc();
    let mut book = open(alloc)?;
    let desc = echo(alloc)?;
    let ticket = call(alloc, &mut book, &desc)?;
    assert!(rt; matches!(book.take(&ticket), Took::NotYet));
    answer(alloc, &mut book, &REPLY)?;
    assert_eq!(rt; book.got().len(), 25);
    let Took::Ended(Ending::Reply(Value::Text(text))) = book.take(&ticket) else {
        return Err(Fail::new("no reply"));
    };
    assert_eq!(rt; text.as_slice(), b"hi".as_slice());
    assert!(rt; matches!(book.take(&ticket), Took::Over));
    Ok(())
}

/// A pipe that has begun, and whose beginning was taken.
fn begun(alloc: Global, book: &mut Book) -> Result<Ticket, Fail> {
    let desc = pipe(alloc)?;
    let ticket = call(alloc, book, &desc)?;
    answer(alloc, book, &BEGUN)?;
    match book.take(&ticket) {
        Took::Part(_) => Ok(ticket),
        _ => Err(Fail::new("no beginning")),
    }
}

/// Aborts a dispatch, behind which an item and its end come.
fn abort(alloc: Global, book: &mut Book, ticket: &Ticket) -> Result<(), Fail> {
    if book.abort(ticket).is_err() {
        return Err(Fail::new("not aborted"));
    }
    answer(alloc, book, &ITEM)?;
    answer(alloc, book, &EOF)
}

#[test]
fn shows_no_item_that_came_after_an_abort(rt: HostRuntime) -> Result<(), Fail> {
    let alloc = rt.alloc();
    let mut book = open(alloc)?;
    let ticket = begun(alloc, &mut book)?;
    answer(alloc, &mut book, &ITEM)?;
    abort(alloc, &mut book, &ticket)?;
    assert_eq!(rt; shown(&book, &ticket), Some((1, true)));
    Ok(())
}

/// The id, cut and number of parts taken of the first dispatch, if its label is "a".
fn first_made(book: &Book) -> Option<(i64, Option<u64>, u64)> {
    let one = book.made().first()?;
    if one.label.as_slice() == b"a".as_slice() {
        Some((one.id, one.cut, one.taken))
    } else {
        None
    }
}

#[test]
fn keeps_what_was_dispatched(rt: HostRuntime) -> Result<(), Fail> {
    let alloc = rt.alloc();
    let mut book = open(alloc)?;
    let ticket = begun(alloc, &mut book)?;
    assert_eq!(rt; first_made(&book), Some((0, None, 1)));
    assert_eq!(rt; book.abort(&ticket), Ok(()));
    assert_eq!(rt; first_made(&book), Some((0, Some(1), 1)));
    Ok(())
}

#[test]
fn closes_for_one_cause(rt: HostRuntime) -> Result<(), Fail> {
    let alloc = rt.alloc();
    let mut book = open(alloc)?;
    assert_eq!(rt; book.wants(), 8);
    assert_eq!(rt; book.tick(10_000), Ok(Ticked::Sent));
    assert_eq!(rt; book.take_out(&mut [0; 64]), 19);
    book.close();
    book.end_of_input();
    book.shut(CloseCause::LinkFault);
    assert_eq!(rt; book.cause(), Some(&CloseCause::ClosedHere));
    let closed = Err(FeedError::Closed(CloseCause::ClosedHere));
    assert_eq!(rt; book.feed(&HEADER, 10_000), closed);
    Ok(())
}
