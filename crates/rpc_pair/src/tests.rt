use super::*;
use bp_base::SteadyWire;
use bp_value::Value;
use rpc_msg::{Ending, Limits, Received};
use std::alloc::Global;
use std::test::Fail;

/// A call whose query and answer come in pieces of one byte.
const CALL: &[u8] = b"plain echo 1 both = string -> string
--
up all
down all
ask a echo 1 \"hi\"
up 20 by 1
reply a \"hi\"
down 15 by 1
";

/// A stream whose end is on the way while it is aborted.
const STREAM: &[u8] = b"pipe each 1 both = int list -> int ! unit
--
up all
down all
ask p each 1 [1; 2]
up all
begin p ()
item p 1
down all
end p
abort p
up all
down all
";

/// A stream on which a handler acts while its abort comes.
const STOPPED: &[u8] = b"pipe each 1 both = int list -> int ! unit
--
up all
down all
ask p each 1 [1; 2]
up all
begin p ()
item p 1
down all
item p 2
abort p
up all
item p 3
end p
down all
";

/// A pair behind the events of a schedule, and what came of each.
#[derive(Drop)]
struct Played {
    pair: Pair,
    answers: Vec<StepAnswer>,
}

fn play(alloc: Global, text: &[u8]) -> Result<Played, Fail> {
    let limits = Limits::usual();
    if !limits.ok() {
        return Err(Fail::new("the limits are out of range"));
    }
    let Ok(Schedule { schema, events }) = Schedule::read(alloc, text) else {
        return Err(Fail::new("the schedule is refused"));
    };
    let mut up = SteadyWire::new(alloc);
    let mut down = SteadyWire::new(alloc);
    let mut pair = Pair::new(alloc, schema, limits)?;
    if pair.start(&mut up, &mut down).is_err() {
        return Err(Fail::new("the headers were not put"));
    }
    let mut answers = Vec::new(alloc);
    'events: for lined in events.as_slice() {
        match pair.step(&lined.event, &mut up, &mut down) {
            Ok(answer) => answers.push(answer)?,
            Err(_) => return Err(Fail::new("a wire failed, or memory ran out")),
        }
    }
    Ok(Played { pair, answers })
}

/// Whether no event was refused.
fn are_done(answers: &[StepAnswer]) -> bool {
    for answer in answers {
        if let StepAnswer::Refused(_) = answer {
            return false;
        }
    }
    true
}

/// Whether the dispatch has so many parts and was aborted.
fn is_aborted(pair: &Pair, label: &[u8], count: usize) -> bool {
    match pair.received(label) {
        Some(
            Received {
                parts,
                ending: Some(Ending::Aborted),
            },
        ) => parts.len() == count,
        Some(
            Received {
                parts: _,
                ending: _,
            },
        ) => false,
        None => false,
    }
}

/// Whether the reply is this text.
fn is_reply(pair: &Pair, label: &[u8], text: &[u8]) -> bool {
    match pair.received(label) {
        Some(
            Received {
                parts: _,
                ending: Some(Ending::Reply(Value::Text(reply))),
            },
        ) => reply.as_slice() == text,
        Some(
            Received {
                parts: _,
                ending: _,
            },
        ) => false,
        None => false,
    }
}

#[test]
fn a_call_is_answered_over_pieces_of_one_byte(rt: HostRuntime) -> Result<(), Fail> {
    let alloc = rt.alloc();
    let Played { pair, answers } = play(alloc, CALL)?;
    assert_eq!(rt; answers.len(), 6);
    assert!(rt; are_done(&answers));
    assert!(rt; is_reply(&pair, b"a", b"hi"));
    assert_eq!(rt;
        pair.moved(),
        Moved {
            up: 30,
            up_put: 30,
            down: 25,
            down_put: 25
        }
    );
    Ok(())
}

#[test]
fn an_abort_meets_the_end_of_its_stream(rt: HostRuntime) -> Result<(), Fail> {
    let alloc = rt.alloc();
    let Played { pair, answers } = play(alloc, STREAM)?;
    assert!(rt; are_done(&answers));
    assert!(rt; is_aborted(&pair, b"p", 2));
    assert_eq!(rt;
        pair.moved(),
        Moved {
            up: 56,
            up_put: 56,
            down: 59,
            down_put: 59
        }
    );
    Ok(())
}

#[test]
fn an_act_on_a_stopped_stream_is_told_once(rt: HostRuntime) -> Result<(), Fail> {
    let alloc = rt.alloc();
    let Played { pair, answers } = play(alloc, STOPPED)?;
    assert_eq!(rt;
        answers.get(10).copied(),
        Some(StepAnswer::Refused(Refusal::Stopped))
    );
    assert_eq!(rt;
        answers.get(11).copied(),
        Some(StepAnswer::Refused(Refusal::NoSuch))
    );
    assert!(rt; is_aborted(&pair, b"p", 2));
    assert_eq!(rt;
        pair.moved(),
        Moved {
            up: 56,
            up_put: 56,
            down: 77,
            down_put: 77
        }
    );
    Ok(())
}
