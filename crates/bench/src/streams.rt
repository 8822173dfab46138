// A stream of small messages, and how long reading it takes.

use crate::failure::Failure;
use crate::making::letters;
use crate::numbers::Numbers;
use bp_value::{Blob, OutOfMemory};
use rpc_frame::{FrameReader, put_frame};
use rpc_msg::{
    Answer, Message, Query, Response, RpcError, read_header, read_message, write_message,
};
use std::alloc::Global;
use std::time::{Clock, Duration, Instant};

/// How many messages the stream has.
const MESSAGES: i64 = 100_000;

/// The most bytes of a body, and of a text in it.
const MAX_MESSAGE: u64 = 104_857_600;

/// The bytes of the stream: a header, and messages.
pub fn stream(alloc: Global) -> Result<Vec<u8>, Failure> {
    let mut out = Vec::new(alloc);
    put_frame(&[1, 1], &mut out)?;
    let mut numbers = Numbers::new();
    for id in 0..MESSAGES {
        write_message(&message(alloc, id, &mut numbers)?, &mut out)?;
    }
    Ok(out)
}

/// A heartbeat, an error, or a query or a response with up to 15 letters.
fn message(alloc: Global, id: i64, numbers: &mut Numbers) -> Result<Message, OutOfMemory> {
    let result = match numbers.between(0, 8) {
        0 => return Ok(Message::Heartbeat),
        1 => Answer::Error(RpcError::UnknownId(id)),
        2..=4 => {
            return Ok(Message::Query(Query {
                tag: Blob::from_slice(alloc, b"echo")?,
                version: 1,
                id,
                body: letters(alloc, numbers)?,
            }));
        }
        _ => Answer::Ok(letters(alloc, numbers)?),
    };
    Ok(Message::Response(Response { id, result }))
}

/// How long it took to read the stream so many times, and to drop each message.
pub fn read_time(
    clock: &impl Clock,
    alloc: Global,
    stream: &[u8],
    count: u32,
) -> Result<Duration, Failure> {
    let mut took = Duration::ZERO;
    for _ in 0..count {
        let start = Instant::now(clock)?;
        read(alloc, stream)?;
        took = took.saturating_add(start.elapsed(clock)?);
    }
    Ok(took)
}

/// Reads the header and the messages of a stream.
fn read(alloc: Global, stream: &[u8]) -> Result<(), Failure> {
    let mut reader = FrameReader::new(alloc, MAX_MESSAGE);
    let mut rest = stream;
    let header = next_body(&mut reader, &mut rest)?;
    read_header(alloc, header.as_slice(), MAX_MESSAGE)?;
    for _ in 0..rest.len() {
        if rest.is_empty() {
            return Ok(());
        }
        let body = next_body(&mut reader, &mut rest)?;
        drop(read_message(alloc, body.as_slice(), MAX_MESSAGE)?);
    }
    Ok(())
}

/// Takes the body of the frame in front.
fn next_body(reader: &mut FrameReader, rest: &mut &[u8]) -> Result<Blob, Failure> {
    let piece = *rest;
    let fed = reader.feed(piece)?;
    *rest = &piece[fed.used..];
    fed.frame.ok_or(Failure::BadStream)
}
