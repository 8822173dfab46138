// The top call of the program `rpc`.
ghost use Rattle.std.specs.Prelude.{Ok, ◌≡◌, ◌≢◌, ◌≤◌, ◌⊎◌, true, [], length};
ghost use Rattle.bp_base.specs.Faults.{Counts, BothGoOn};
ghost use Rattle.bp_base.specs.Told.{Gains};
ghost use Rattle.rpc_tool.specs.declared.command.Command.TheVariants as command;
ghost use Rattle.rpc_tool.specs.declared.status.Status.{Status};
ghost use Rattle.rpc_tool.specs.declared.status.Status.TheVariants as outcome;
ghost use Rattle.rpc_tool.specs.Replayed.{FreshOver, HonestOver, ReportedOver, ReplayedOver};
ghost use Rattle.rpc_tool.specs.Commands.{IsOfGoodShape};
ghost use Rattle.rpc_tool.specs.Limits.{most_input};
ghost use Rattle.rpc_tool.specs.ScheduleRefusals.{schedule_refused, IsFault};
ghost use Rattle.rpc_tool.specs.ShapeRefusals.{shape_refused};
ghost use Rattle.rpc_tool.specs.Means.{code_of, ReportsOver, MeansFor, MeansOf, IsReplayDone, IsSaid, IsAnswered, WasGiven, IsReadThrough, IsReportOfInput};

use crate::answers::Answer;
use crate::command::{Command, Misuse, command_of};
use crate::framing::frames;
use crate::menus::menu;
use crate::replay::replay;
use crate::report::put_schedule_refusal;
use crate::shape_words::put_shape_refusal;
use crate::showing::show;
use crate::status::Status;
use crate::writing::write;
use bp_base::{Finished, ReadAllError, Sink, Source, Wire, read_all, write_all};
use bp_text::TextError;
use bp_value::OutOfMemory;
use rpc_pair::{PairError, Schedule, ScheduleError};
use std::alloc::Global;

/// How many bytes of input a command takes.
const MAX_INPUT: usize = 1 << 26;

const USAGE: &[u8] =
    b"usage: rpc show SHAPE | write SHAPE | frames | menu NAME VERSIONS | replay | gen N\n";

/// Runs the command that the words name, and answers the exit status of the program.
pub fn run<I: Source, O: Sink, W: Wire>(
    alloc: Global,
    words: &[String],
    input: &mut I,
    out: &mut O,
    up: &mut W,
    down: &mut W,
) -> u8
    // A fault is answered exactly where the count of the object that failed rose in this call.
    ensures read { Counts I.faults input.old input.new (result ≡ code_of outcome.ReadFault) }
    ensures write { Counts O.faults out.old out.new (result ≡ code_of outcome.WriteFault) }
    ensures wires { BothGoOn W.faults W.honest up.old up.new down.old down.new
        (result ≡ code_of outcome.WireFault) }

    // What the code means, of the words, the bytes of input that came and what was written. A
    // result is written, and an input refused, only once the input was read to its end.
    ensures means { MeansFor (ReportsOver W.honest W.sent W.given up.old up.new down.old down.new)
        I.given I.left I.ended input.old input.new (Gains O.put out.old out.new)
        words.now result }

    // Of a replay: over fresh wires that tell their bytes, honest or not, a report shows what they
    // gave.
    ensures reported { IsReplayDone words.now result → FreshOver W.sent W.given up.old down.old
        → IsReportOfInput (ReportedOver W.sent W.given up.new down.new) (I.left input.old)
        (Gains O.put out.old out.new) }

    // Over honest ones it is the text of the replay, however cut, and they tell its last world.
    ensures replayed { IsReplayDone words.now result
        → HonestOver W.honest W.sent W.given up.old down.old
        → IsReportOfInput (ReplayedOver W.sent W.given up.new down.new) (I.left input.old)
        (Gains O.put out.old out.new) }
{
    match command_of(alloc, words) {
        Ok(command) => obey(alloc, &command, input, out, up, down).code(),
        Err(Misuse::Usage) => answer(out, USAGE, Status::Usage).code(),
        Err(Misuse::BadShape(error)) => refuse_shape(alloc, &error, out).code(),
        Err(Misuse::OutOfMemory) => Status::OutOfMemory.code(),
    }
}

/// Does what a command asks for, by what the input says.
fn obey<I: Source, O: Sink, W: Wire>(
    alloc: Global,
    command: &Command,
    input: &mut I,
    out: &mut O,
    up: &mut W,
    down: &mut W,
) -> Status
    requires { IsOfGoodShape command.now }
    ensures read { Counts I.faults input.old input.new (result ≡ outcome.ReadFault) }
    ensures write { Counts O.faults out.old out.new (result ≡ outcome.WriteFault) }
    ensures wires { BothGoOn W.faults W.honest up.old up.new down.old down.new
        (result ≡ outcome.WireFault) }
    ensures means { MeansOf (ReportsOver W.honest W.sent W.given up.old up.new down.old down.new)
        I.given I.left I.ended input.old input.new (Gains O.put out.old out.new)
        command.now result }
{
    match read_all(alloc, input, MAX_INPUT) {
        Ok(text) => perform(alloc, command, &text, out, up, down),
        Err(ReadAllError::ReadFault) => Status::ReadFault,
        Err(ReadAllError::TooLong { .. }) => Status::TooLong,
        Err(ReadAllError::OutOfMemory) => Status::OutOfMemory,
    }
}

/// Does what a command asks for, by a text that is not too long.
fn perform<O: Sink, W: Wire>(
    alloc: Global,
    command: &Command,
    text: &[u8],
    out: &mut O,
    up: &mut W,
    down: &mut W,
) -> Status
    requires good { IsOfGoodShape command.now }
    requires short { length text.now ≤ most_input }
    ensures write { Counts O.faults out.old out.new (result ≡ outcome.WriteFault) }
    ensures wires { BothGoOn W.faults W.honest up.old up.new down.old down.new
        (result ≡ outcome.WireFault) }
    ensures through { IsReadThrough result }
    ensures said { IsSaid (ReportsOver W.honest W.sent W.given up.old up.new down.old down.new)
        (Ok command.now) text.now (Gains O.put out.old out.new) result }
{
    match command {
        Command::Show(shape) => give(show(alloc, shape, text), out),
        Command::Write(shape) => give(write(alloc, shape, text), out),
        Command::Frames => give(frames(alloc, text), out),
        Command::Menu(wanted) => give(menu(alloc, wanted, text), out),
        Command::Replay => replay_text(alloc, text, out, up, down),
    }
}

/// Writes what a command that uses no wires has made.
fn give<O: Sink>(made: Result<Answer, OutOfMemory>, out: &mut O) -> Status
    ensures write { Counts O.faults out.old out.new (result ≡ outcome.WriteFault) }
    ensures given { WasGiven made (Gains O.put out.old out.new) result }
{
    match made {
        Ok(Answer::Done(text)) => answer(out, &text, Status::Done),
        Ok(Answer::Refused(text)) => answer(out, &text, Status::Refused),
        Err(OutOfMemory) => Status::OutOfMemory,
    }
}

/// Replays the schedule that a text spells.
fn replay_text<O: Sink, W: Wire>(
    alloc: Global,
    text: &[u8],
    out: &mut O,
    up: &mut W,
    down: &mut W,
) -> Status
    ensures write { Counts O.faults out.old out.new (result ≡ outcome.WriteFault) }
    ensures wires { BothGoOn W.faults W.honest up.old up.new down.old down.new
        (result ≡ outcome.WireFault) }
    ensures through { IsReadThrough result }
    ensures said { IsSaid (ReportsOver W.honest W.sent W.given up.old up.new down.old down.new)
        (Ok command.Replay) text.now (Gains O.put out.old out.new) result }
{
    match Schedule::read(alloc, text) {
        Ok(schedule) => match replay(alloc, schedule, up, down) {
            Ok(report) => answer(out, &report, Status::Done),
            Err(PairError::WireFault) => Status::WireFault,
            Err(PairError::OutOfMemory) => Status::OutOfMemory,
        },
        Err(error) => refuse_schedule(alloc, error, out),
    }
}

/// Writes which line of a schedule is refused, and why.
fn refuse_schedule<O: Sink>(alloc: Global, error: ScheduleError, out: &mut O) -> Status
    ensures write { Counts O.faults out.old out.new (result ≡ outcome.WriteFault) }
    ensures answered { IsFault error × IsAnswered outcome.Refused (schedule_refused error)
        (Gains O.put out.old out.new) result
        ⊎ ((result ≡ outcome.OutOfMemory) × Gains O.put out.old out.new []) }
{
    let mut line = Vec::new(alloc);
    match put_schedule_refusal(error, &mut line) {
        Ok(()) => answer(out, &line, Status::Refused),
        Err(OutOfMemory) => Status::OutOfMemory,
    }
}

/// Writes why the word for a shape is refused.
fn refuse_shape<O: Sink>(alloc: Global, error: &TextError, out: &mut O) -> Status
    ensures write { Counts O.faults out.old out.new (result ≡ outcome.WriteFault) }
    ensures answered { IsAnswered outcome.BadShape (shape_refused error.now)
        (Gains O.put out.old out.new) result
        ⊎ ((result ≡ outcome.OutOfMemory) × Gains O.put out.old out.new []) }
{
    if matches!(error, TextError::OutOfMemory) {
        return Status::OutOfMemory;
    }
    let mut line = Vec::new(alloc);
    match put_shape_refusal(error, &mut line) {
        Ok(()) => answer(out, &line, Status::BadShape),
        Err(OutOfMemory) => Status::OutOfMemory,
    }
}

/// Writes an answer and flushes it. Where that fails the status says so instead.
fn answer<O: Sink>(out: &mut O, text: &[u8], status: Status) -> Status
    requires { status ≢ outcome.WriteFault }
    ensures write { Counts O.faults out.old out.new (result ≡ outcome.WriteFault) }
    ensures answered { IsAnswered status text.now (Gains O.put out.old out.new) result }
{
    let Ok(()) = write_all(out, text) else {
        return Status::WriteFault;
    };
    match out.finish() {
        Finished::Done => status,
        Finished::Failed => Status::WriteFault,
    }
}
