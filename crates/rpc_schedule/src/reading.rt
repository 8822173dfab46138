// Reading the lines of a schedule.
ghost use Rattle.std.specs.Prelude.{◌≤◌, ◌+◌, ◌^◌, [], length, IfOk, IfErr, MatchOption};
ghost use Rattle.std.specs.List.{AllZip};
ghost use Rattle.rpc_schema.specs.TextLines.{lines_kept};
ghost use Rattle.rpc_schema.specs.Reading.{slices};
ghost use Rattle.rpc_schedule.specs.EventLines.{IsLineOfEvent};
ghost use Rattle.rpc_schedule.specs.Schedules.{NoMark, IsCut, IsLinedEvent, AreScheduleLines, RefusesSchedule};
ghost use Rattle.rpc_schedule.specs.Reading.{FollowsEventLine, RefusesEvent, RefusesEvents, RefusesNextEvent};

use crate::error::ScheduleError;
use crate::event::{Event, Lined};
use crate::event_lines::take_event;
use crate::schedule::Schedule;
use bp_value::Listed;
use rpc_schema::{Line, Schema, Stop, is_skipped};
use std::alloc::Global;

/// What stands between the schema and the events, as a line of its own.
const MARK: &[u8] = b"--";

/// Reads the lines of a schedule, in order.
pub fn read_schedule(alloc: Global, lines: &[&[u8]]) -> Result<Schedule, ScheduleError>
    ensures spelled { IfOk result (λ schedule. AreScheduleLines schedule (slices lines.now)) }
    ensures refused { IfErr result (RefusesSchedule (slices lines.now)) }
{
    let Some((heads, behind)) = cut_at_mark(lines) else {
        return Err(without_mark(alloc, lines));
    };
    let schema = Schema::read_lines(alloc, heads)?;
    let events = read_events(alloc, behind, heads.len() as u64 + 2)?;
    Ok(Schedule {
        schema,
        events: Listed::from_vec(events),
    })
}

// The lines before the mark, and those after it.
fn cut_at_mark<'a>(lines: &'a [&'a [u8]]) -> Option<(&'a [&'a [u8]], &'a [&'a [u8]])>
    ensures { MatchOption result (NoMark (slices lines.now))
        (λ cut. IsCut (slices lines.now) (slices cut.0.now) (slices cut.1.now)) }
{
    let place = lines.iter().position(|line| *line == MARK)?;
    let (heads, rest) = lines.split_at(place);
    let (_, behind) = rest.split_at(1);
    Some((heads, behind))
}

// Why lines without a mark are no schedule.
fn without_mark(alloc: Global, lines: &[&[u8]]) -> ScheduleError
    requires { NoMark (slices lines.now) }
    ensures { RefusesSchedule (slices lines.now) result }
{
    match Schema::read_lines(alloc, lines) {
        Ok(_) => ScheduleError::BadLine {
            line: lines.len() as u64 + 1,
            at: 0,
        },
        Err(error) => error.into(),
    }
}

// Reads the lines of events, of which the first has this number.
fn read_events(alloc: Global, lines: &[&[u8]], first: u64) -> Result<Vec<Lined>, ScheduleError>
    requires { first + length lines.now ≤ 2 ^ 64 }
    ensures spelled { IfOk result (λ events.
        AllZip IsLinedEvent events.items (lines_kept first (slices lines.now))) }
    ensures refused { IfErr result (RefusesEvents (lines_kept first (slices lines.now))) }
{
    let mut events = Vec::new(alloc);
    for (index, line) in lines.iter().enumerate() {
        read_line(alloc, &mut events, first + index as u64, line)?;
    }
    Ok(events)
}

// Adds the event of a line, if it says something.
fn read_line(
    alloc: Global,
    events: &mut Vec<Lined>,
    number: u64,
    bytes: &[u8],
) -> Result<(), ScheduleError>
    ensures added { IfOk result (λ done.
        FollowsEventLine number bytes.now events.old.items events.new.items) }
    ensures refused { IfErr result (RefusesNextEvent number bytes.now) }
{
    if is_skipped(bytes) {
        return Ok(());
    }
    let event = read_event(alloc, number, bytes)?;
    events.push(Lined {
        line: number,
        event,
    })?;
    Ok(())
}

// The event of a line.
fn read_event(alloc: Global, number: u64, bytes: &[u8]) -> Result<Event, ScheduleError>
    ensures spelled { IfOk result (λ event. IsLineOfEvent event bytes.now []) }
    ensures refused { IfErr result (RefusesEvent number bytes.now) }
{
    let mut line = Line::new(bytes);
    match take_event(&mut line, alloc) {
        Ok(event) => Ok(event),
        Err(Stop::Refused) => Err(ScheduleError::BadLine {
            line: number,
            at: bytes.len().saturating_sub(line.rest().len()),
        }),
        Err(Stop::OutOfMemory) => Err(ScheduleError::OutOfMemory),
    }
}
