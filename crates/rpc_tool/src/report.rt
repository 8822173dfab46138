// The text of a replay. Where memory runs out a front of a line may have been appended.
ghost use Rattle.std.specs.Prelude.{Option, ◌≡◌, ◌++◌, codes, OnOk, option_copied};
ghost use Rattle.std.specs.Fmt.{decimal};
ghost use Rattle.rpc_tool.specs.Lines.{line_about, line_place};
ghost use Rattle.rpc_tool.specs.Reports.{answer_text, closing_text, condition_text, end_line, moved_line, refusal_text, shown_text};
ghost use Rattle.rpc_tool.specs.ScheduleRefusals.{schedule_refused, IsFault};
ghost use Rattle.rpc_pair.specs.Sights.{condition, pair_sight};

use crate::dispatch_lines::{put_dispatch, put_dispatches};
use bp_text::put_natural;
use bp_value::OutOfMemory;
use rpc_msg::CloseCause;
use rpc_pair::{Event, Lined, Pair, Refusal, ScheduleError, StepAnswer};
use rpc_report::put_cause;

/// Appends what is written of an event that was answered so: a line where it was refused, and the
/// lines of the dispatch that it shows.
pub fn put_answer(
    pair: &Pair,
    lined: &Lined,
    answer: StepAnswer,
    out: &mut Vec<u8>,
) -> Result<(), OutOfMemory>
    ensures { OnOk result (out.new.items
        ≡ out.old.items ++ answer_text lined.now answer (pair_sight pair.now)) }
{
    match answer {
        StepAnswer::Done => Ok(()),
        StepAnswer::Refused(refusal) => put_line_about(lined.line, refusal_text(refusal), out),
        StepAnswer::Shown => put_shown(pair, &lined.event, out),
    }
}

/// Appends a line about a line of the input.
pub fn put_line_about(number: u64, text: &[u8], out: &mut Vec<u8>) -> Result<(), OutOfMemory>
    ensures { OnOk result (out.new.items ≡ out.old.items ++ line_about number text.now) }
{
    put_place(number, out)?;
    out.extend_from_slice(text)?;
    out.push(b'\n')?;
    Ok(())
}

// The number of a line of the input.
fn put_place(number: u64, out: &mut Vec<u8>) -> Result<(), OutOfMemory>
    ensures { OnOk result (out.new.items ≡ out.old.items ++ line_place number) }
{
    out.extend_from_slice(b"line ")?;
    put_natural(number, out)?;
    out.extend_from_slice(b": ")?;
    Ok(())
}

/// Appends the line about a schedule that is refused. There is none where memory ran out as it was
/// read.
pub fn put_schedule_refusal(error: ScheduleError, out: &mut Vec<u8>) -> Result<(), OutOfMemory>
    ensures { OnOk result (IsFault error
        × (out.new.items ≡ out.old.items ++ schedule_refused error)) }
{
    match error {
        ScheduleError::BadLine { line, at } => put_bad_line(line, at, out),
        ScheduleError::Twice { line } => put_line_about(line, b"twice", out),
        ScheduleError::OutOfMemory => Err(OutOfMemory),
    }
}

// A line of the input is refused at a byte.
fn put_bad_line(number: u64, at: usize, out: &mut Vec<u8>) -> Result<(), OutOfMemory>
    ensures { OnOk result (out.new.items
        ≡ out.old.items ++ line_about number (codes "refused at " ++ decimal at)) }
{
    put_place(number, out)?;
    out.extend_from_slice(b"refused at ")?;
    put_natural(at as u64, out)?;
    out.push(b'\n')?;
    Ok(())
}

// The lines of the dispatch that an event shows.
fn put_shown(pair: &Pair, event: &Event, out: &mut Vec<u8>) -> Result<(), OutOfMemory>
    ensures { OnOk result (out.new.items
        ≡ out.old.items ++ shown_text event.now (pair_sight pair.now)) }
{
    let Event::Show { label } = event else {
        return Ok(());
    };
    match pair.made(label.as_slice()) {
        Some(made) => put_dispatch(pair.book(), made, out),
        None => Ok(()),
    }
}

/// Appends the closing lines: the dispatches, both ends, and the bytes that moved.
pub fn put_closing(pair: &Pair, out: &mut Vec<u8>) -> Result<(), OutOfMemory>
    ensures { OnOk result (out.new.items ≡ out.old.items ++ closing_text (pair_sight pair.now)) }
{
    let book = pair.book();
    let server = pair.server();
    let moved = pair.moved();
    put_dispatches(book, out)?;
    put_end(b"client ", book.cause(), book.is_open(), out)?;
    put_end(b"server ", server.cause(), server.is_open(), out)?;
    put_moved(b"up ", moved.up, moved.up_put, out)?;
    put_moved(b"down ", moved.down, moved.down_put, out)
}

// How an end stands: its name, and why it is closed, or else whether it is open.
fn put_end(
    name: &[u8],
    cause: Option<&CloseCause>,
    is_open: bool,
    out: &mut Vec<u8>,
) -> Result<(), OutOfMemory>
    ensures { OnOk result (out.new.items
        ≡ out.old.items ++ end_line name.now (condition (option_copied cause.entry) is_open)) }
{
    out.extend_from_slice(name)?;
    match cause {
        Some(cause) => {
            out.extend_from_slice(b"closed: ")?;
            put_cause(cause, out)?;
        }
        None => out.extend_from_slice(if is_open { b"open" } else { b"opening" })?,
    }
    out.push(b'\n')?;
    Ok(())
}

// The bytes that moved one way, of those that were put.
fn put_moved(way: &[u8], moved: u64, put: u64, out: &mut Vec<u8>) -> Result<(), OutOfMemory>
    ensures { OnOk result (out.new.items ≡ out.old.items ++ moved_line way.now moved put) }
{
    out.extend_from_slice(way)?;
    put_natural(moved, out)?;
    out.extend_from_slice(b" of ")?;
    put_natural(put, out)?;
    out.push(b'\n')?;
    Ok(())
}

fn refusal_text(refusal: Refusal) -> &'static [u8]
    ensures { result.now ≡ refusal_text refusal }
{
    match refusal {
        Refusal::LabelTaken => b"label taken",
        Refusal::NoSuchRpc => b"no such rpc",
        Refusal::NoMenu => b"no menu",
        Refusal::NoVersion => b"no version",
        Refusal::BadValue => b"bad value",
        Refusal::Closed => b"closed",
        Refusal::NotOpen => b"not open",
        Refusal::TooLong => b"too long",
        Refusal::TooManyOpen => b"too many open",
        Refusal::IdsSpent => b"ids spent",
        Refusal::NoSuchLabel => b"no such label",
        Refusal::AlreadyEnded => b"already ended",
        Refusal::NotStream => b"not stream",
        Refusal::NotBegun => b"not begun",
        Refusal::WrongKind => b"wrong kind",
        Refusal::NoSuch => b"no such",
        Refusal::Stopped => b"stopped",
        Refusal::AlreadyBegun => b"already begun",
    }
}
