// One side's stream, frame by frame: a header, and then messages.
ghost use Rattle.std.specs.Prelude.{◌≡◌};
ghost use Rattle.rpc_tool.specs.StreamReads.{stopped_by, HasNoFrame, IsBefore, IsHeader, IsMessage, IsThis, NoHeader, NoMessage, GivesNext};

use bp_value::{Blob, OutOfMemory};
use rpc_frame::{FrameError, FrameReader};
use rpc_msg::{CloseCause, Header, Message, MsgError, read_header, read_message};
use std::alloc::Global;

/// The most bytes of a body and of a text in it, and the most versions of a header.
pub const LONGEST: u64 = 104_857_600;

/// How many bytes of a frame stand before its body.
const LENGTH_BYTES: u64 = 8;

/// Why no more of a stream is read. Places count in the stream.
#[derive(Clone, Copy, Debug, PartialEq, Eq)]
pub enum Stop {
    /// An end that is given the stream closes, for this cause.
    Closed(CloseCause),
    /// The stream ends here, before its header does or within a frame.
    Cut { at: u64 },
}

/// Why the next frame was not read.
#[derive(Clone, Copy, Debug, PartialEq, Eq)]
pub enum StreamError {
    Stopped(Stop),
    OutOfMemory,
}

impl From<OutOfMemory> for StreamError {
    ghost use Rattle.rpc_tool.specs.declared.stream_reading.StreamError.TheVariants as error;

    ghost from_gives = { λ _ e. e ≡ error.OutOfMemory };

    fn from(_: OutOfMemory) -> StreamError {
        StreamError::OutOfMemory
    }
}

impl From<FrameError> for StreamError {
    ghost from_gives = { λ frame e. e ≡ stopped_by frame };

    fn from(error: FrameError) -> StreamError {
        match error {
            FrameError::Failed { at } | FrameError::TooLong { at } => {
                StreamError::Stopped(Stop::Closed(CloseCause::BadFrame { at }))
            }
            FrameError::OutOfMemory => StreamError::OutOfMemory,
        }
    }
}

/// Takes the header from the front of the rest of a stream.
pub fn next_header(
    alloc: Global,
    reader: &mut FrameReader,
    rest: &mut &[u8],
) -> Result<Header, StreamError>
    requires { IsBefore rest.old.now reader.old }
    ensures { GivesNext IsHeader NoHeader reader.old rest.old.now result reader.new rest.new.now }
{
    let place = reader.place();
    let body = next_body(reader, rest)?;
    match read_header(alloc, body.as_slice(), LONGEST) {
        Ok(header) => Ok(header),
        Err(MsgError::Fault(fault)) => {
            let cause = CloseCause::BadHeader(fault.behind(place + LENGTH_BYTES));
            Err(StreamError::Stopped(Stop::Closed(cause)))
        }
        Err(MsgError::OutOfMemory) => Err(StreamError::OutOfMemory),
    }
}

/// Takes the next message from the front of the rest of a stream.
pub fn next_message(
    alloc: Global,
    reader: &mut FrameReader,
    rest: &mut &[u8],
) -> Result<Message, StreamError>
    requires { IsBefore rest.old.now reader.old }
    ensures { GivesNext IsMessage NoMessage reader.old rest.old.now result reader.new rest.new.now }
{
    let place = reader.place();
    let body = next_body(reader, rest)?;
    match read_message(alloc, body.as_slice(), LONGEST) {
        Ok(message) => Ok(message),
        Err(MsgError::Fault(fault)) => {
            let cause = CloseCause::BadMessage(fault.behind(place + LENGTH_BYTES));
            Err(StreamError::Stopped(Stop::Closed(cause)))
        }
        Err(MsgError::OutOfMemory) => Err(StreamError::OutOfMemory),
    }
}

// Takes the body of the frame in front.
fn next_body(reader: &mut FrameReader, rest: &mut &[u8]) -> Result<Blob, StreamError>
    requires { IsBefore rest.old.now reader.old }
    ensures { GivesNext IsThis HasNoFrame reader.old rest.old.now result reader.new rest.new.now }
{
    let piece = *rest;
    let fed = reader.feed(piece)?;
    *rest = &piece[fed.used..];
    match fed.frame {
        Some(body) => Ok(body),
        None => Err(StreamError::Stopped(Stop::Cut { at: reader.place() })),
    }
}
