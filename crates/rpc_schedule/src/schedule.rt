ghost use Rattle.std.specs.Prelude.{IfOk, IfErr};
ghost use Rattle.rpc_schema.specs.TextLines.{text_lines};
ghost use Rattle.rpc_schedule.specs.declared.schedule.Schedule.{Schedule};
ghost use Rattle.rpc_schedule.specs.Schedules.{AreGoodEvents, IsScheduleText, GivesSchedule, RefusesSchedule};

use crate::error::ScheduleError;
use crate::event::Lined;
use crate::reading::read_schedule;
use bp_value::Listed;
use rpc_schema::{Schema, parts_of, without_last_empty};
use std::alloc::Global;

/// What a replay does: the events, in the order of their lines, on two ends that agree on the
/// schema.
#[derive(Debug, Drop)]
pub struct Schedule {
    pub schema: Schema,
    pub events: Listed<Lined>,
}

impl Schedule {
    /// Reads the text of a schedule: the lines of a schema, the line `--`, and a line for each
    /// event. Empty lines and lines that begin with `#` say nothing. The first line at fault is
    /// told, and a missing `--` as the line after the last, at 0.
    ///
    /// The time is linear in the text, and n log n in the lines of the schema.
    pub fn read(alloc: Global, text: &[u8]) -> Result<Schedule, ScheduleError>
        ensures spelled { IfOk result (λ schedule. IsScheduleText schedule text.now) }
        ensures formed { IfOk result (λ schedule. AreGoodEvents schedule.events) }
        ensures only { (schedule : Schedule) → IsScheduleText schedule text.now
            → GivesSchedule schedule result }
        ensures refused { IfErr result (RefusesSchedule (text_lines text.now)) }
    {
        let parts = parts_of(alloc, text)?;
        read_schedule(alloc, without_last_empty(&parts))
    }
}
