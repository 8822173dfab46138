// Events in the order of their lines.
ghost use Rattle.std.specs.Prelude.{◌≡◌, [], ◌∷◌, ◌++◌, IfOk};
ghost use Rattle.rpc_pair.specs.Generated.{with_lines};

use bp_value::{Listed, OutOfMemory};
use rpc_schedule::{Event, Lined};
use std::alloc::Global;
use std::marker::Model;

/// The line of the first event: four lines of a schema and the line `--` stand before it.
const FIRST_LINE: u64 = 6;

/// The events of a schedule so far. Contracts see them without the numbers of their lines.
#[derive(Drop)]
pub struct Events {
    lined: Vec<Lined>,
}

impl Model for Events {
    ghost use Rattle.std.specs.Prelude.{◌≡◌, List, map};
    ghost use Rattle.rpc_schedule.specs.declared.event.Event.{Event};
    ghost use Rattle.rpc_pair.specs.Generated.{with_lines};
    ghost use Rattle.std.specs.Coded.{codes};

    ghost Value = { List Event };

    ghost coded = { Prim.hlevel codes };

    ghost view = { λ events. map (λ lined. lined.event) events.lined.items };

    ghost invariant = { λ events.
        events.lined.items ≡ with_lines (map (λ lined. lined.event) events.lined.items) };
}

impl Events {
    /// No events.
    pub fn new(alloc: Global) -> Events
        ensures { result ≡ [] }
    {
        Events {
            lined: Vec::new(alloc),
        }
    }

    /// Adds an event, on the line after the last.
    pub fn add(&mut self, event: Event) -> Result<(), OutOfMemory>
        ensures { IfOk result (λ done. self.new ≡ self.old ++ event ∷ []) }
    {
        let line = FIRST_LINE + self.lined.len() as u64;
        self.lined.push(Lined { line, event })?;
        Ok(())
    }

    /// The events with their lines.
    pub fn into_listed(self) -> Listed<Lined>
        ensures { result ≡ with_lines self }
    {
        let Events { lined } = self;
        Listed::from_vec(lined)
    }
}
