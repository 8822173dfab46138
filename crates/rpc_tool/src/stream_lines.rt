// The lines that are written about a stream. Where memory runs out a front of one may have been
// appended.
ghost use Rattle.std.specs.Prelude.{◌≡◌, ◌++◌, codes, OnOk};
ghost use Rattle.bp_text_grammar.specs.Printed.{decimal_text};
ghost use Rattle.bp_text.specs.Printing.{lead};
ghost use Rattle.rpc_tool.specs.StreamLines.{answer_text, header_line, message_line, message_text, query_text, stop_line};

use crate::hexes::put_hex;
use crate::stream_reading::Stop;
use bp_text::{put_decimal, put_natural, put_quoted};
use bp_value::OutOfMemory;
use rpc_msg::{Answer, Header, Message, Query, Response};
use rpc_report::{put_cause, put_error};
use std::alloc::Global;

/// Appends the line of a header: its versions, as the text of a list.
pub fn put_header_line(header: &Header, out: &mut Vec<u8>) -> Result<(), OutOfMemory>
    ensures { OnOk result (out.new.items ≡ out.old.items ++ header_line header.now) }
{
    out.extend_from_slice(b"versions [")?;
    for (place, version) in header.versions.as_slice().iter().enumerate() {
        put_version(place, *version, out)?;
    }
    out.extend_from_slice(b"]\n")?;
    Ok(())
}

// The version at a place of the list, behind what separates it from the one before it.
fn put_version(place: usize, version: i64, out: &mut Vec<u8>) -> Result<(), OutOfMemory>
    ensures { OnOk result (out.new.items
        ≡ out.old.items ++ (lead (codes "; ") place ++ decimal_text version)) }
{
    if place > 0 {
        out.extend_from_slice(b"; ")?;
    }
    put_decimal(version, out)
}

/// Appends the line of a message, and drops the message.
pub fn put_message_line(
    alloc: Global,
    message: Message,
    out: &mut Vec<u8>,
) -> Result<(), OutOfMemory>
    ensures { OnOk result (out.new.items ≡ out.old.items ++ message_line message) }
{
    match message {
        Message::Heartbeat => out.extend_from_slice(b"heartbeat")?,
        Message::Query(query) => put_query(alloc, &query, out)?,
        Message::Response(response) => put_response(alloc, &response, out)?,
    }
    out.push(b'\n')?;
    Ok(())
}

// A query with its data.
fn put_query(alloc: Global, query: &Query, out: &mut Vec<u8>) -> Result<(), OutOfMemory>
    ensures { OnOk result (out.new.items ≡ out.old.items ++ query_text query.now) }
{
    out.extend_from_slice(b"query ")?;
    put_quoted(query.tag.as_slice(), out)?;
    put_number(query.version, out)?;
    put_number(query.id, out)?;
    out.push(b' ')?;
    put_hex(alloc, query.body.as_slice(), out)?;
    Ok(())
}

// A blank, and a number.
fn put_number(number: i64, out: &mut Vec<u8>) -> Result<(), OutOfMemory>
    ensures { OnOk result (out.new.items ≡ out.old.items ++ (codes " " ++ decimal_text number)) }
{
    out.push(b' ')?;
    put_decimal(number, out)
}

// A response with its data, or its error.
fn put_response(alloc: Global, response: &Response, out: &mut Vec<u8>) -> Result<(), OutOfMemory>
    ensures { OnOk result (out.new.items
        ≡ out.old.items ++ message_text (Message.Response response.now)) }
{
    out.extend_from_slice(b"response ")?;
    put_decimal(response.id, out)?;
    out.push(b' ')?;
    match &response.result {
        Answer::Ok(body) => {
            out.extend_from_slice(b"ok ")?;
            put_hex(alloc, body.as_slice(), out)
        }
        Answer::Error(error) => {
            out.extend_from_slice(b"error ")?;
            put_error(error, out)
        }
    }
}

/// Appends the line that says why no more is read.
pub fn put_stop_line(stop: Stop, out: &mut Vec<u8>) -> Result<(), OutOfMemory>
    ensures { OnOk result (out.new.items ≡ out.old.items ++ stop_line stop) }
{
    match stop {
        Stop::Closed(cause) => put_cause(&cause, out)?,
        Stop::Cut { at } => {
            out.extend_from_slice(b"frame cut at ")?;
            put_natural(at, out)?;
        }
    }
    out.push(b'\n')?;
    Ok(())
}
