// The schedule of a generated run.
ghost use Rattle.std.specs.Prelude.{◌≡◌, ◌≤◌, IfOk};
ghost use Rattle.rpc_schema.specs.SchemaTexts.{AreEntryLines};
ghost use Rattle.rpc_schema.specs.TextLines.{lines_kept};
ghost use Rattle.rpc_schedule.specs.Schedules.{AreGoodEvents};
ghost use Rattle.rpc_pair.specs.Generated.{generated, generated_entries, generated_lines};

mod blocks;
mod calling;
mod events;
mod rounds;
#[cfg(test)]
mod tests;
mod texts;

use crate::generating::events::Events;
use bp_value::OutOfMemory;
use rpc_schedule::Schedule;
use rpc_schema::{Schema, SchemaError};
use std::alloc::Global;

/// The lines of the schema.
const LINES: [&[u8]; 4] = [
    b"plain echo 1 both = string -> string",
    b"oneway log 1 both = string",
    b"pipe each 1 both = int list -> int ! unit",
    b"state book 1 both = unit -> string list, string ! unit",
];

/// The most bytes of a piece before the first round.
const FIRST_PIECE: u64 = 65536;

/// The most bytes of a piece after the last round.
const LAST_PIECE: u64 = 7;

/// The schedule of a run of 4000 dispatches, in blocks of ten, each answered at its end. How many
/// bytes move in a round, and how long a text is, is drawn from the number on.
///
/// It takes about as much time and memory for every number.
pub fn generate(alloc: Global, n: u64) -> Result<Schedule, OutOfMemory>
    requires { n ≤ 999999 }
    ensures made { IfOk result (λ schedule. schedule ≡ generated n) }
    ensures spelled { IfOk result (λ schedule.
        AreEntryLines schedule.schema (lines_kept 1 generated_lines)) }
    ensures formed { IfOk result (λ schedule. AreGoodEvents schedule.events) }
{
    let schema = schema(alloc)?;
    let mut events = Events::new(alloc);
    events.add_moves(FIRST_PIECE)?;
    events.add_rounds(alloc, n)?;
    events.add_moves(LAST_PIECE)?;
    Ok(Schedule {
        schema,
        events: events.into_listed(),
    })
}

fn schema(alloc: Global) -> Result<Schema, OutOfMemory>
    ensures { IfOk result (λ schema. schema ≡ generated_entries) }
{
    match Schema::read_lines(alloc, &LINES) {
        Ok(schema) => Ok(schema),
        Err(SchemaError::OutOfMemory) => Err(OutOfMemory),
        Err(SchemaError::BadLine { .. }) => unreachable!(),
        Err(SchemaError::Twice { .. }) => unreachable!(),
    }
}
