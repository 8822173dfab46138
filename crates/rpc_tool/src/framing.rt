// The command `frames`.
ghost use Rattle.std.specs.Prelude.{IfOk};
ghost use Rattle.rpc_tool.specs.Answers.{Answers};
ghost use Rattle.rpc_tool.specs.StreamReads.{AppendsLines, AreFramesRefused, AreFramesTold};

use crate::answers::Answer;
use crate::hexes::{HexError, read_hex};
use crate::spelled::hex_line;
use crate::stream_lines::{put_header_line, put_message_line, put_stop_line};
use crate::stream_reading::{LONGEST, Stop, StreamError, next_header, next_message};
use bp_value::OutOfMemory;
use rpc_frame::FrameReader;
use rpc_msg::CloseCause;
use std::alloc::Global;

/// Writes a line for each message of the stream that a hex text spells. The time is linear in the
/// text; the bodies are copied one at a time.
pub fn frames(alloc: Global, input: &[u8]) -> Result<Answer, OutOfMemory>
    ensures { IfOk result (Answers (AreFramesTold input.now) (AreFramesRefused input.now)) }
{
    let stream = match read_hex(alloc, input) {
        Ok(stream) => stream,
        Err(HexError::BadHex { at }) => return Ok(Answer::Refused(hex_line(alloc, at)?)),
        Err(HexError::OutOfMemory) => return Err(OutOfMemory),
    };
    let mut text = Vec::new(alloc);
    match put_lines(alloc, stream.as_slice(), &mut text) {
        Ok(()) => Ok(Answer::Done(text)),
        Err(StreamError::Stopped(stop)) => {
            put_stop_line(stop, &mut text)?;
            Ok(Answer::Refused(text))
        }
        Err(StreamError::OutOfMemory) => Err(OutOfMemory),
    }
}

// Appends the lines of a stream, up to its end or to what stops it.
fn put_lines(alloc: Global, stream: &[u8], out: &mut Vec<u8>) -> Result<(), StreamError>
    ensures { AppendsLines stream.now out.old.items out.new.items result }
{
    let mut reader = FrameReader::new(alloc, LONGEST);
    let mut rest = stream;
    let header = next_header(alloc, &mut reader, &mut rest)?;
    put_header_line(&header, out)?;
    if !header.has_one() {
        return Err(StreamError::Stopped(Stop::Closed(CloseCause::NoCommonProtocol)));
    }
    'messages: while !rest.is_empty() {
        match next_message(alloc, &mut reader, &mut rest) {
            Ok(message) => put_message_line(alloc, message, out)?,
            Err(error) => return Err(error),
        }
    }
    Ok(())
}
