use super::*;
use bp_num::Why;
use bp_value::{Blob, Listed, OutOfMemory, Sexp, Shape, Value};
use std::alloc::Global;
use std::test::Fail;

/// The bodies of a call of `echo` with "hi", and of its answer.
const QUERY: [u8; 12] = [1, 4, 0x65, 0x63, 0x68, 0x6F, 1, 0, 3, 2, 0x68, 0x69];

const ANSWER: [u8; 7] = [2, 0, 0, 3, 2, 0x68, 0x69];

/// The answer that no procedure is called `nope` and has version 7.
const NOPE: [u8; 14] = [
    2, 0, 1, 4, 4, 0x6E, 0x6F, 0x70, 0x65, 0xF1, 0x1D, 0x86, 0x94, 7,
];

/// The answer that the data was not read, which tells `("a" ())`.
const UNREAD: [u8; 11] = [2, 0, 1, 0, 1, 2, 0, 1, 0x61, 1, 0];

fn blob(alloc: Global, bytes: &[u8]) -> Result<Blob, OutOfMemory> {
    Blob::from_slice(alloc, bytes)
}

fn query(alloc: Global) -> Result<Message, OutOfMemory> {
    let tag = blob(alloc, b"echo")?;
    let body = blob(alloc, b"\x02hi")?;
    Ok(Message::Query(Query {
        tag,
        version: 1,
        id: 0,
        body,
    }))
}

fn response(answer: Answer) -> Message {
    Message::Response(Response {
        id: 0,
        result: answer,
    })
}

fn answer(alloc: Global) -> Result<Message, OutOfMemory> {
    Ok(response(Answer::Ok(blob(alloc, b"\x02hi")?)))
}

fn nope(alloc: Global) -> Result<Message, OutOfMemory> {
    let tag = blob(alloc, b"nope")?;
    let error = RpcError::Unimplemented { tag, version: 7 };
    Ok(response(Answer::Error(error)))
}

fn unread(alloc: Global) -> Result<Message, OutOfMemory> {
    let atom = Sexp::Atom(blob(alloc, b"a")?);
    let empty = Sexp::List(Listed::from_vec(Vec::new(alloc)));
    let items = Vec::from_array(alloc, [atom, empty])?;
    let error = RpcError::BinIo(Sexp::List(Listed::from_vec(items)));
    Ok(response(Answer::Error(error)))
}

/// Whether the message is written as the frame of this body, behind a byte.
fn writes(
    alloc: Global,
    message: Result<Message, OutOfMemory>,
    body: &[u8],
) -> Result<bool, OutOfMemory> {
    let message = message?;
    let mut out = Vec::new(alloc);
    out.push(9)?;
    write_message(&message, &mut out)?;
    let mut want = Vec::new(alloc);
    want.push(9)?;
    want.extend_from_slice(&(body.len() as u64).to_le_bytes())?;
    want.extend_from_slice(body)?;
    Ok(out.as_slice() == want.as_slice())
}

#[test]
fn a_message_is_written_as_a_frame(rt: HostRuntime) -> Result<(), Fail> {
    let alloc = rt.alloc();
    assert!(rt; writes(alloc, Ok(Message::Heartbeat), &[0])?);
    assert!(rt; writes(alloc, query(alloc), &QUERY)?);
    assert!(rt; writes(alloc, answer(alloc), &ANSWER)?);
    assert!(rt; writes(alloc, nope(alloc), &NOPE)?);
    assert!(rt; writes(alloc, unread(alloc), &UNREAD)?);
    Ok(())
}

fn is_query(read: &Result<Message, MsgError>) -> bool {
    match read {
        Ok(Message::Query(query)) => {
            query.tag.as_slice() == b"echo".as_slice()
                && query.version == 1
                && query.id == 0
                && query.body.as_slice() == b"\x02hi".as_slice()
        }
        _ => false,
    }
}

fn is_answer(read: &Result<Message, MsgError>) -> bool {
    match read {
        Ok(
            Message::Response(
                Response {
                    id,
                    result: Answer::Ok(body),
                },
            ),
        ) => { *id == 0 && body.as_slice() == b"\x02hi".as_slice() }
        _ => false,
    }
}

fn is_nope(read: &Result<Message, MsgError>) -> bool {
    match read {
        Ok(
            Message::Response(
                Response {
                    id,
                    result: Answer::Error(RpcError::Unimplemented { tag, version }),
                },
            ),
        ) => *id == 0 && tag.as_slice() == b"nope".as_slice() && *version == 7,
        _ => false,
    }
}

/// Whether a body was refused for this fault.
fn is_refused<T>(read: &Result<T, MsgError>, want: MsgFault) -> bool {
    match read {
        Err(MsgError::Fault(fault)) => *fault == want,
        _ => false,
    }
}

#[test]
fn a_body_is_read_as_its_message(rt: HostRuntime) -> Result<(), Fail> {
    let alloc = rt.alloc();
    assert!(rt; matches!(read_message(alloc, &[0], 100), Ok(Message::Heartbeat)));
    assert!(rt; is_query(&read_message(alloc, &QUERY, 100)));
    assert!(rt; is_answer(&read_message(alloc, &ANSWER, 100)));
    assert!(rt; is_nope(&read_message(alloc, &NOPE, 100)));
    Ok(())
}

#[test]
fn a_body_that_is_no_message_is_refused_at_its_place(rt: HostRuntime) -> Result<(), Fail> {
    let alloc = rt.alloc();
    let none = read_message(alloc, &[], 100);
    assert!(rt; is_refused(&none, MsgFault::Cut { at: 0 }));
    let cut = read_message(alloc, &QUERY[..11], 100);
    assert!(rt; is_refused(&cut, MsgFault::Cut { at: 11 }));
    let two = read_message(alloc, &[0, 0], 100);
    assert!(rt; is_refused(&two, MsgFault::Trailing { at: 1 }));
    let unknown = read_message(alloc, &[3], 100);
    let why = Why::Case;
    assert!(rt; is_refused(&unknown, MsgFault::Bad { at: 0, why }));
    Ok(())
}

/// Whether the body is a header, and whether it then has version 1.
fn header(alloc: Global, body: &[u8]) -> Option<bool> {
    match read_header(alloc, body, 100) {
        Ok(header) => Some(header.has_one()),
        Err(_) => None,
    }
}

#[test]
fn a_header_tells_its_versions(rt: HostRuntime) -> Result<(), Fail> {
    let alloc = rt.alloc();
    assert!(rt; header(alloc, &[1, 1]) == Some(true));
    assert!(rt; header(alloc, &[2, 1, 7]) == Some(true));
    assert!(rt; header(alloc, &[2, 2, 3]) == Some(false));
    assert!(rt; header(alloc, &[2, 1]) == None);
    Ok(())
}

/// What is read of the data of a later answer, in a stream of ints.
fn part(alloc: Global, body: &[u8]) -> Result<Result<StreamPart, MsgError>, Fail> {
    let item = Shape::Int;
    item.check()?;
    Ok(read_part(alloc, &item, body, 100))
}

/// What is read of the data of a first answer, where a unit begins the stream or declines it.
fn first(alloc: Global, body: &[u8]) -> Result<Result<First, MsgError>, Fail> {
    let unit = Shape::Unit;
    unit.check()?;
    Ok(read_first(alloc, &unit, &unit, body, 100))
}

fn is_item(read: &Result<StreamPart, MsgError>, number: i64) -> bool {
    match read {
        Ok(StreamPart::Item(Value::Num(item))) => *item == number,
        _ => false,
    }
}

#[test]
fn a_stream_begins_goes_on_and_ends(rt: HostRuntime) -> Result<(), Fail> {
    let alloc = rt.alloc();
    assert!(rt; matches!(first(alloc, &[0, 0, 0])?, Ok(First::Begun(Value::Unit))));
    assert!(rt; matches!(first(alloc, &[0, 1, 0])?, Ok(First::Declined(Value::Unit))));
    assert!(rt; is_item(&part(alloc, &[0x79, 0x8A, 0, 0, 1, 1])?, 1));
    assert!(rt; matches!(part(alloc, &[0x39, 0x79, 0x69, 0])?, Ok(StreamPart::Eof)));
    Ok(())
}

#[test]
fn a_place_within_an_item_counts_from_the_start_of_the_data(rt: HostRuntime) -> Result<(), Fail> {
    let alloc = rt.alloc();
    let cut = part(alloc, &[0x79, 0x8A, 0, 0, 2, 0xFE, 5])?;
    assert!(rt; is_refused(&cut, MsgFault::Cut { at: 7 }));
    let bad = part(alloc, &[0x79, 0x8A, 0, 0, 1, 0x80])?;
    let why = Why::Code;
    assert!(rt; is_refused(&bad, MsgFault::Bad { at: 5, why }));
    Ok(())
}

fn is_stream_query(read: &Result<StreamQuery, MsgError>, bytes: &[u8]) -> bool {
    match read {
        Ok(StreamQuery::Query(body)) => body.as_slice() == bytes,
        _ => false,
    }
}

#[test]
fn a_stream_is_asked_for_and_aborted(rt: HostRuntime) -> Result<(), Fail> {
    let alloc = rt.alloc();
    let asked = read_stream_query(alloc, &[0xD1, 0xF5, 0x2F, 0xE2, 3, 2, 1, 2], 100);
    assert!(rt; is_stream_query(&asked, &[2, 1, 2]));
    let abort = read_stream_query(alloc, &[0x21, 0x77, 0x4E, 0x5C], 100);
    assert!(rt; matches!(abort, Ok(StreamQuery::Abort)));
    Ok(())
}

#[test]
fn a_beat_is_due_once_per_span_until_the_other_end_is_late(rt: HostRuntime) -> Result<(), Fail> {
    let mut beat = Beat::new(10000, 30000, 0);
    assert!(rt; beat.tick(9999, true) == BeatAct::Quiet);
    assert!(rt; beat.tick(10000, true) == BeatAct::Send);
    assert!(rt; beat.tick(30000, true) == BeatAct::Send);
    let now = 30001;
    assert!(rt; beat.tick(30001, true) == BeatAct::Late { last: 0, now });
    Ok(())
}
