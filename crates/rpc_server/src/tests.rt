ghost use Rattle.rpc_msg.specs.Limits.{AreLimits};

use super::*;
use bp_num::Why;
use bp_value::{Blob, OutOfMemory, Value};
use rpc_frame::put_frame;
use rpc_msg::{CloseCause, FeedError, Limits, MsgFault};
use rpc_schema::Schema;
use std::alloc::Global;
use std::test::Fail;

mod gateway;
mod limits;

const SCHEMA: &str = "plain echo 1 both = string -> string\n\
    pipe each 1 both = int list -> int ! unit\n\
    oneway log 1 both = string\n\
    state book 1 caller = unit -> string list, string ! string";

const HEADER: [u8; 10] = [2, 0, 0, 0, 0, 0, 0, 0, 1, 1];

/// A call of `echo` with "hi".
const ECHO: [u8; 12] = [1, 4, 0x65, 0x63, 0x68, 0x6F, 1, 0, 3, 2, 0x68, 0x69];

/// A call of `each` with [1; 2], and its abort.
const EACH: [u8; 17] = [
    1, 4, 0x65, 0x61, 0x63, 0x68, 1, 0, 8, 0xD1, 0xF5, 0x2F, 0xE2, 3, 2, 1, 2,
];

const ABORT: [u8; 13] = [
    1, 4, 0x65, 0x61, 0x63, 0x68, 1, 0, 4, 0x21, 0x77, 0x4E, 0x5C,
];

const ABORTED: [&[u8]; 3] = [
    &[2, 0, 0, 3, 0, 0, 0],
    &[2, 0, 0, 6, 0x79, 0x8A, 0, 0, 1, 1],
    &[2, 0, 0, 4, 0x39, 0x79, 0x69, 0],
];

const REPLY: &[u8] = b"\x02\x00\x00\x03\x02hi";

const BOOM: &[u8] = b"\x02\x00\x01\x03\x00\x04boom";

const ASK_MENU: &[u8] = b"\x01\x14__Versioned_rpc.Menu\x01\x00\x01\x00";

const MENU: &[u8] = b"\x02\x00\x00\x12\x03\x04each\x01\x04echo\x01\x03log\x01";

const NOPE: &[u8] = b"\x02\x00\x01\x04\x04nope\xF1\x1D\x86\x94\x07";

const UNREAD: &[u8] = b"\x02\x00\x01\x00\x00\x10unreadable query";

/// A server that is open, whose own header was taken.
fn open(alloc: Global, limits: Limits) -> Result<Server, Fail>
    requires { AreLimits limits }
{
    let schema = Schema::read(alloc, SCHEMA.as_bytes())?;
    let mut server = Server::new(alloc, schema, limits, 0)?;
    server.take_out(&mut [0; 10]);
    match server.feed(&HEADER, 0) {
        Ok(_) => Ok(server),
        Err(_) => Err(Fail::new("no header")),
    }
}

/// What a handler does to a query.
#[derive(Clone, Copy)]
enum Do<'a> {
    /// It replies with a text.
    Reply(&'a [u8]),
    ReplyUnit,
    Fail(&'a [u8]),
    BeginUnit,
    Item(i64),
    End,
}

/// What is told of a frame that comes.
#[derive(Clone, Copy, PartialEq)]
enum Told {
    Nothing,
    Asked { id: i64, place: usize },
    Noted { id: i64, place: usize },
    Stopped { id: i64 },
    Closed(CloseCause),
    OutOfMemory,
}

/// A turn of a conversation, and what has to come of it.
#[derive(Clone, Copy)]
enum Turn<'a> {
    /// The frame of this body comes.
    Comes(&'a [u8], Told),
    /// A handler acts on the query of this id.
    Acts(i64, Do<'a>, Result<(), ActError>),
    /// Just the frames of these bodies go out.
    Says(&'a [&'a [u8]]),
}

fn as_told(fed: Result<ServerFed, FeedError>) -> Told {
    match fed {
        Ok(fed) => match fed.arrival {
            None => Told::Nothing,
            Some(Arrival::Asked { id, place, .. }) => Told::Asked { id, place },
            Some(Arrival::Noted { id, place, .. }) => Told::Noted { id, place },
            Some(Arrival::Stopped { id }) => Told::Stopped { id },
        },
        Err(FeedError::Closed(cause)) => Told::Closed(cause),
        Err(FeedError::OutOfMemory) => Told::OutOfMemory,
    }
}

fn comes(alloc: Global, server: &mut Server, body: &[u8]) -> Result<Told, OutOfMemory> {
    let mut frame = Vec::new(alloc);
    put_frame(body, &mut frame)?;
    Ok(as_told(server.feed(&frame, 0)))
}

fn acts(
    alloc: Global,
    server: &mut Server,
    id: i64,
    what: Do<'_>,
) -> Result<Result<(), ActError>, OutOfMemory> {
    let acted = match what {
        Do::Reply(text) => server.reply(id, &Value::Text(Blob::from_slice(alloc, text)?)),
        Do::ReplyUnit => server.reply(id, &Value::Unit),
        Do::Fail(text) => server.fail(id, text),
        Do::BeginUnit => server.begin(id, &Value::Unit),
        Do::Item(number) => server.item(id, &Value::Num(number)),
        Do::End => server.end(id),
    };
    Ok(acted)
}

/// Whether the frames of these bodies go out, and nothing else.
fn says(alloc: Global, server: &mut Server, bodies: &[&[u8]]) -> Result<bool, OutOfMemory> {
    let mut want = Vec::new(alloc);
    for body in bodies {
        put_frame(body, &mut want)?;
    }
    let mut out = [0; 200];
    let count = server.take_out(&mut out);
    Ok(&out[..count] == want.as_slice())
}

/// The place of the first turn of which something else came.
fn first_odd(
    alloc: Global,
    server: &mut Server,
    turns: &[Turn<'_>],
) -> Result<Option<usize>, OutOfMemory> {
    for (at, turn) in turns.iter().enumerate() {
        let goes = match turn {
            Turn::Comes(body, want) => comes(alloc, server, body)? == *want,
            Turn::Acts(id, what, want) => acts(alloc, server, *id, *what)? == *want,
            Turn::Says(bodies) => says(alloc, server, bodies)?,
        };
        if !goes {
            return Ok(Some(at));
        }
    }
    Ok(None)
}

const ASKED: Told = Told::Asked { id: 0, place: 0 };

#[test]
fn a_query_is_asked_and_answered(rt: HostRuntime) -> Result<(), Fail> {
    let alloc = rt.alloc();
    let mut server = open(alloc, Limits::usual())?;
    let turns = [
        Turn::Comes(&ECHO, ASKED),
        Turn::Acts(2, Do::Reply(b"hi"), Err(ActError::NoSuch)),
        Turn::Acts(0, Do::BeginUnit, Err(ActError::WrongKind)),
        Turn::Acts(0, Do::ReplyUnit, Err(ActError::BadValue)),
        Turn::Acts(0, Do::Reply(b"hi"), Ok(())),
        Turn::Acts(0, Do::Reply(b"hi"), Err(ActError::NoSuch)),
        Turn::Says(&[REPLY]),
        Turn::Comes(&ECHO, ASKED),
        Turn::Acts(0, Do::Fail(b"boom"), Ok(())),
        Turn::Says(&[BOOM]),
    ];
    assert_eq!(rt; first_odd(alloc, &mut server, &turns)?, None);
    Ok(())
}

#[test]
fn an_abort_stops_a_stream_that_has_begun(rt: HostRuntime) -> Result<(), Fail> {
    let alloc = rt.alloc();
    let mut server = open(alloc, Limits::usual())?;
    let turns = [
        Turn::Comes(&EACH, Told::Asked { id: 0, place: 1 }),
        Turn::Comes(&ABORT, Told::Nothing),
        Turn::Acts(0, Do::Item(1), Err(ActError::NotBegun)),
        Turn::Acts(0, Do::BeginUnit, Ok(())),
        Turn::Acts(0, Do::BeginUnit, Err(ActError::AlreadyBegun)),
        Turn::Acts(0, Do::Item(1), Ok(())),
        Turn::Comes(&ABORT, Told::Stopped { id: 0 }),
        Turn::Acts(0, Do::Item(2), Err(ActError::Stopped)),
        Turn::Acts(0, Do::End, Err(ActError::NoSuch)),
        Turn::Says(&ABORTED),
    ];
    assert_eq!(rt; first_odd(alloc, &mut server, &turns)?, None);
    Ok(())
}

#[test]
fn it_answers_by_itself(rt: HostRuntime) -> Result<(), Fail> {
    let alloc = rt.alloc();
    let mut server = open(alloc, Limits::usual())?;
    let turns = [
        Turn::Comes(ASK_MENU, Told::Nothing),
        Turn::Says(&[MENU]),
        Turn::Comes(b"\x01\x04nope\x07\x00\x00", Told::Nothing),
        Turn::Says(&[NOPE]),
        Turn::Comes(b"\x01\x04echo\x01\x00\x01\x05", Told::Nothing),
        Turn::Says(&[UNREAD]),
        Turn::Comes(
            b"\x01\x03log\x01\x01\x02\x01n",
            Told::Noted { id: 1, place: 2 },
        ),
        Turn::Comes(b"\x01\x03log\x01\x01\x00", Told::Nothing),
        Turn::Says(&[]),
    ];
    assert_eq!(rt; first_odd(alloc, &mut server, &turns)?, None);
    Ok(())
}

/// Bodies that close a server, and why.
const HOSTILE: [(&[u8], CloseCause); 3] = [
    (&[2, 0, 0, 1, 0], CloseCause::UnknownId { id: 0 }),
    (
        &[3],
        CloseCause::BadMessage(MsgFault::Bad {
            at: 18,
            why: Why::Case,
        }),
    ),
    (&[], CloseCause::BadMessage(MsgFault::Cut { at: 18 })),
];

#[test]
fn a_hostile_caller_closes_it(rt: HostRuntime) -> Result<(), Fail> {
    let alloc = rt.alloc();
    for (body, cause) in &HOSTILE {
        let mut server = open(alloc, Limits::usual())?;
        let turns = [
            Turn::Comes(body, Told::Closed(*cause)),
            Turn::Comes(&ECHO, Told::Closed(*cause)),
            Turn::Acts(0, Do::End, Err(ActError::Closed)),
            Turn::Says(&[]),
        ];
        assert_eq!(rt; first_odd(alloc, &mut server, &turns)?, None);
    }
    Ok(())
}

#[test]
fn an_id_is_open_once(rt: HostRuntime) -> Result<(), Fail> {
    let alloc = rt.alloc();
    let mut server = open(alloc, Limits::usual())?;
    let turns = [
        Turn::Comes(&ECHO, ASKED),
        Turn::Comes(&ECHO, Told::Closed(CloseCause::DuplicateQuery { id: 0 })),
    ];
    assert_eq!(rt; first_odd(alloc, &mut server, &turns)?, None);
    Ok(())
}
