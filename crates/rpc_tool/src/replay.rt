// The replay of a schedule over two wires.
ghost use Rattle.std.specs.Prelude.{[], List, IfOk, IsErrOf, OnOk};
ghost use Rattle.bp_base.specs.Faults.{BothGoOn};
ghost use Rattle.rpc_schema.specs.Entries.{AreEntries};
ghost use Rattle.rpc_schema.specs.declared.desc.Entry.{Entry};
ghost use Rattle.rpc_schedule.specs.Schedules.{AreGoodEvents};
ghost use Rattle.rpc_pair.specs.declared.error.PairError.TheVariants as error;
ghost use Rattle.rpc_tool.specs.Playing.{PlayedOver, SteppedOver};
ghost use Rattle.rpc_tool.specs.Replayed.{FreshOver, HonestOver, ReplayedOver, ReportedOver};

use crate::report::{put_answer, put_closing};
use bp_base::Wire;
use rpc_msg::Limits;
use rpc_pair::{Lined, Pair, PairError, Schedule};
use rpc_schema::Schema;
use std::alloc::Global;

/// Steps both ends through the events of a schedule, over two wires, and gives the report.
pub fn replay<W: Wire>(
    alloc: Global,
    schedule: Schedule,
    up: &mut W,
    down: &mut W,
) -> Result<Vec<u8>, PairError>
    requires lines { AreEntries schedule.schema }
    requires events { AreGoodEvents schedule.events }
    ensures wires { BothGoOn W.faults W.honest up.old up.new down.old down.new
        (IsErrOf result error.WireFault) }

    // Over fresh wires that tell their bytes, honest or not.
    ensures reported { FreshOver W.sent W.given up.old down.old → IfOk result
        (λ report. ReportedOver W.sent W.given up.new down.new schedule report.items) }

    // Over fresh honest wires that tell their bytes.
    ensures replayed { HonestOver W.honest W.sent W.given up.old down.old → IfOk result
        (λ report. ReplayedOver W.sent W.given up.new down.new schedule report.items) }
{
    let Schedule { schema, events } = schedule;
    let mut pair = start(alloc, schema, up, down)?;
    let mut report = Vec::new(alloc);
    play(&mut pair, events.as_slice(), up, down, &mut report)?;
    put_closing(&pair, &mut report)?;
    Ok(report)
}

// A pair whose headers were put.
fn start<W: Wire>(
    alloc: Global,
    schema: Schema,
    up: &mut W,
    down: &mut W,
) -> Result<Pair, PairError>
    requires { AreEntries schema }
    ensures wires { BothGoOn W.faults W.honest up.old up.new down.old down.new
        (IsErrOf result error.WireFault) }
    ensures played { FreshOver W.sent W.given up.old down.old → IfOk result
        (λ pair. PlayedOver W.sent W.given schema [] [] pair up.new down.new) }
    ensures stepped { HonestOver W.honest W.sent W.given up.old down.old → IfOk result
        (λ pair. SteppedOver W.sent W.given schema [] [] pair up.new down.new) }
{
    let mut pair = Pair::new(alloc, schema, Limits::usual())?;
    pair.start(up, down)?;
    Ok(pair)
}

// Steps a pair through some events, and appends what is written of each.
fn play<W: Wire>(
    pair: &mut Pair,
    events: &[Lined],
    up: &mut W,
    down: &mut W,
    report: &mut Vec<u8>,
) -> Result<(), PairError>
    requires { AreGoodEvents events.now }
    ensures wires { BothGoOn W.faults W.honest up.old up.new down.old down.new
        (IsErrOf result error.WireFault) }
    ensures played { (entries : List Entry)
        → PlayedOver W.sent W.given entries [] report.old.items pair.old up.old down.old
        → OnOk result (PlayedOver W.sent W.given
        entries events.now report.new.items pair.new up.new down.new) }
    ensures stepped { (entries : List Entry) → W.honest up.old → W.honest down.old
        → SteppedOver W.sent W.given entries [] report.old.items pair.old up.old down.old
        → OnOk result (SteppedOver W.sent W.given
        entries events.now report.new.items pair.new up.new down.new) }
{
    'events: for lined in events {
        let answer = pair.step(&lined.event, up, down)?;
        put_answer(pair, lined, answer, report)?;
    }
    Ok(())
}
