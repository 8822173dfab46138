// The events of a round.
ghost use Rattle.std.specs.Prelude.{◌≡◌, [], ◌∷◌, ◌++◌, IfOk};
ghost use Rattle.rpc_pair.specs.declared.generating.rounds.Called.TheVariants.{Echo, Each, Book};
ghost use Rattle.rpc_pair.specs.Generated as run;

use crate::generating::events::Events;
use crate::generating::rounds::{Called, Round};
use crate::generating::texts::{each_text, echo_text, number_text, round_label};
use bp_value::{Blob, OutOfMemory};
use rpc_schedule::Event;
use std::alloc::Global;

/// How many items a stream gives that does not end.
const NEWS: u64 = 3;

impl Events {
    /// A round calls, and some bytes go up.
    pub fn add_round(&mut self, alloc: Global, round: Round) -> Result<(), OutOfMemory>
        ensures { IfOk result (λ done. self.new ≡ self.old ++ run.round_events round) }
    {
        self.add(call(alloc, round)?)?;
        self.add(Event::Up {
            count: Some(round.random() % 64),
            by: round.piece(),
        })
    }

    /// The call of a round is answered.
    pub fn add_answers(&mut self, alloc: Global, round: Round) -> Result<(), OutOfMemory>
        ensures { IfOk result (λ done. self.new ≡ self.old ++ run.answers round) }
    {
        match round.called() {
            Called::Echo => self.add_reply(alloc, round),
            Called::Log => Ok(()),
            Called::Each => self.add_elements(alloc, round),
            Called::Book => self.add_news(alloc, round),
        }
    }

    /// If the stream of a round goes on, an item is given, and it is aborted.
    pub fn add_late(&mut self, alloc: Global, round: Round) -> Result<(), OutOfMemory>
        ensures { IfOk result (λ done. self.new ≡ self.old ++ run.late round) }
    {
        if !matches!(round.called(), Called::Book) {
            return Ok(());
        }
        let text = Blob::from_slice(alloc, b"\"v\"")?;
        self.add_item(alloc, round, text)?;
        self.add(Event::Abort {
            label: round_label(alloc, round)?,
        })
    }

    fn add_reply(&mut self, alloc: Global, round: Round) -> Result<(), OutOfMemory>
        ensures { IfOk result (λ done.
            self.new ≡ self.old ++ run.answers_as Echo round) }
    {
        self.add(Event::Reply {
            label: round_label(alloc, round)?,
            text: echo_text(alloc, round)?,
        })
    }

    // A stream of the elements of the list.
    fn add_elements(&mut self, alloc: Global, round: Round) -> Result<(), OutOfMemory>
        ensures { IfOk result (λ done.
            self.new ≡ self.old ++ run.answers_as Each round) }
    {
        self.add_begin(alloc, round, b"()")?;
        for element in 0..round.element_count() {
            let text = number_text(alloc, element)?;
            self.add_item(alloc, round, text)?;
        }
        self.add(Event::End {
            label: round_label(alloc, round)?,
        })
    }

    // A stream that gives items and does not end.
    fn add_news(&mut self, alloc: Global, round: Round) -> Result<(), OutOfMemory>
        ensures { IfOk result (λ done.
            self.new ≡ self.old ++ run.answers_as Book round) }
    {
        self.add_begin(alloc, round, b"[]")?;
        for _ in 0..NEWS {
            let text = Blob::from_slice(alloc, b"\"u\"")?;
            self.add_item(alloc, round, text)?;
        }
        Ok(())
    }

    fn add_begin(&mut self, alloc: Global, round: Round, text: &[u8]) -> Result<(), OutOfMemory>
        ensures { IfOk result (λ done.
            self.new ≡ self.old ++ run.begins_with round text.now ∷ []) }
    {
        self.add(Event::Begin {
            label: round_label(alloc, round)?,
            text: Blob::from_slice(alloc, text)?,
        })
    }

    fn add_item(&mut self, alloc: Global, round: Round, text: Blob) -> Result<(), OutOfMemory>
        ensures { IfOk result (λ done. self.new ≡ self.old ++ run.gives round text ∷ []) }
    {
        self.add(Event::Item {
            label: round_label(alloc, round)?,
            text,
        })
    }
}

// The call of a round.
fn call(alloc: Global, round: Round) -> Result<Event, OutOfMemory>
    ensures { IfOk result (λ event. event ≡ run.calls_as (run.called round) round) }
{
    match round.called() {
        Called::Echo => call_with(alloc, round, b"echo", echo_text(alloc, round)?),
        Called::Log => call_with(alloc, round, b"log", Blob::from_slice(alloc, b"\"n\"")?),
        Called::Each => call_with(alloc, round, b"each", each_text(alloc, round)?),
        Called::Book => call_with(alloc, round, b"book", Blob::from_slice(alloc, b"()")?),
    }
}

fn call_with(alloc: Global, round: Round, name: &[u8], text: Blob) -> Result<Event, OutOfMemory>
    ensures { IfOk result (λ event. event ≡ run.calls_with round name.now text) }
{
    Ok(Event::Ask {
        label: round_label(alloc, round)?,
        name: Blob::from_slice(alloc, name)?,
        version: 1,
        text,
    })
}
