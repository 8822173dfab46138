// The lines of events.
ghost use Rattle.std.specs.Prelude.{◌≡◌};
ghost use Rattle.rpc_schema.specs.LineParts.{Lacks};
ghost use Rattle.rpc_schema.specs.LineAnswers.{TakesOne};
ghost use Rattle.rpc_schedule.specs.EventParts.{IsAskPart, IsAskOf, IsAskUnder, AskRefused, AskUnderRefused, IsBestPart, IsBestUnder, BestRefused, IsFailurePart, FailureRefused, IsParty, Last, LastRefused};
ghost use Rattle.rpc_schedule.specs.EventLines as grammar;
ghost use Rattle.rpc_schedule.specs.EventLines.{IsEventOf, EventOfRefused, IsLineOfEvent, EventLineRefused};
ghost use Rattle.rpc_schema.specs.SchemaLines.{IsNamePart, IsVersionPart};

use crate::event::Event;
use crate::labels::{Worded, take_label, take_last_label, take_quoted, take_rest, take_worded};
use crate::movements::{Movement, take_last_moment, take_movement};
use crate::words::{OfLabel, OfParty, OfValue, Party, Verb, Way, take_party, take_verb};
use bp_value::Blob;
use rpc_schema::{Line, Stop, take_name, take_version};
use std::alloc::Global;

/// Takes the line of an event.
pub fn take_event(line: &mut Line, alloc: Global) -> Result<Event, Stop>
    ensures { TakesOne IsLineOfEvent EventLineRefused line.old line.new result }
{
    let verb = take_verb(line)?;
    take_event_of(line, verb, alloc)
}

// What stands after the first word.
fn take_event_of(line: &mut Line, verb: Verb, alloc: Global) -> Result<Event, Stop>
    ensures { TakesOne (IsEventOf verb) (EventOfRefused verb) line.old line.new result }
{
    match verb {
        Verb::Ask => take_ask(line, alloc),
        Verb::Best => take_best(line, alloc),
        Verb::Fail => take_failure(line, alloc),
        Verb::At => Ok(Event::At {
            now: take_last_moment(line)?,
        }),
        Verb::OfLabel(verb) => Ok(label_event(verb, take_last_label(line, alloc)?)),
        Verb::OfValue(verb) => Ok(value_event(verb, take_worded(line, alloc)?)),
        Verb::Move(way) => Ok(move_event(way, take_movement(line)?)),
        Verb::OfParty(verb) => Ok(party_event(verb, take_last_party(line)?)),
    }
}

// `LABEL NAME VERSION VALUE`
fn take_ask(line: &mut Line, alloc: Global) -> Result<Event, Stop>
    ensures { TakesOne IsAskPart AskRefused line.old line.new result }
{
    let label = take_label(line, alloc)?;
    take_ask_under(line, label, alloc)
}

// `NAME VERSION VALUE`
fn take_ask_under(line: &mut Line, label: Blob, alloc: Global) -> Result<Event, Stop>
    ensures { TakesOne (IsAskUnder label) AskUnderRefused line.old line.new result }
{
    let name = take_name(line, alloc)?;
    take_ask_of(line, label, name, alloc)
}

// `VERSION VALUE`
fn take_ask_of(line: &mut Line, label: Blob, name: Blob, alloc: Global) -> Result<Event, Stop>
    ensures { TakesOne (IsAskOf label name) (Lacks IsVersionPart) line.old line.new result }
{
    let version = take_version(line)?;
    let text = take_rest(line, alloc)?;
    Ok(Event::Ask {
        label,
        name,
        version,
        text,
    })
}

// `LABEL NAME VALUE`
fn take_best(line: &mut Line, alloc: Global) -> Result<Event, Stop>
    ensures { TakesOne IsBestPart BestRefused line.old line.new result }
{
    let label = take_label(line, alloc)?;
    take_best_under(line, label, alloc)
}

// `NAME VALUE`
fn take_best_under(line: &mut Line, label: Blob, alloc: Global) -> Result<Event, Stop>
    ensures { TakesOne (IsBestUnder label) (Lacks IsNamePart) line.old line.new result }
{
    let name = take_name(line, alloc)?;
    let text = take_rest(line, alloc)?;
    Ok(Event::Best { label, name, text })
}

// `LABEL "TEXT"`
fn take_failure(line: &mut Line, alloc: Global) -> Result<Event, Stop>
    ensures { TakesOne IsFailurePart FailureRefused line.old line.new result }
{
    let label = take_label(line, alloc)?;
    let text = take_quoted(line, alloc)?;
    Ok(Event::Fail { label, text })
}

// An end, and nothing after it.
fn take_last_party(line: &mut Line) -> Result<Party, Stop>
    ensures { TakesOne (Last IsParty) (LastRefused IsParty (Lacks IsParty))
        line.old line.new result }
{
    let party = take_party(line)?;
    line.end()?;
    Ok(party)
}

fn label_event(verb: OfLabel, label: Blob) -> Event
    ensures { result ≡ grammar.label_event verb label }
{
    match verb {
        OfLabel::Menu => Event::Menu { label },
        OfLabel::Abort => Event::Abort { label },
        OfLabel::End => Event::End { label },
        OfLabel::Show => Event::Show { label },
    }
}

fn value_event(verb: OfValue, worded: Worded) -> Event
    ensures { result ≡ grammar.value_event verb worded }
{
    let Worded { label, text } = worded;
    match verb {
        OfValue::Reply => Event::Reply { label, text },
        OfValue::Begin => Event::Begin { label, text },
        OfValue::Decline => Event::Decline { label, text },
        OfValue::Item => Event::Item { label, text },
    }
}

fn move_event(way: Way, movement: Movement) -> Event
    ensures { result ≡ grammar.move_event way movement }
{
    let Movement { count, by } = movement;
    match way {
        Way::Up => Event::Up { count, by },
        Way::Down => Event::Down { count, by },
    }
}

fn party_event(verb: OfParty, party: Party) -> Event
    ensures { result ≡ grammar.party_event verb party }
{
    match (verb, party) {
        (OfParty::Close, Party::Client) => Event::CloseClient,
        (OfParty::Close, Party::Server) => Event::CloseServer,
        (OfParty::Eof, Party::Client) => Event::EofClient,
        (OfParty::Eof, Party::Server) => Event::EofServer,
    }
}
