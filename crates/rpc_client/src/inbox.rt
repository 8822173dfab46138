// The parts of a call that were not taken yet.
ghost use Rattle.std.specs.Prelude.{◌≡◌, ◌++◌, ◌∷◌, [], length, OnErr, OnOk};
ghost use Rattle.rpc_client.specs.Rows.{IsFrontTaken};

use bp_value::{OutOfMemory, Value};
use rpc_msg::Part;
use std::alloc::Global;
use std::marker::Model;
use std::mem;

/// Parts in the order in which they came. Those that were taken leave an empty place in front
/// until all are taken, so that none is moved when one is.
#[derive(Drop)]
pub struct Inbox {
    parts: Vec<Part>,
    front: usize,
}

impl Model for Inbox {
    ghost use Rattle.std.specs.Prelude.{List, drop, length, ◌≤◌};
    ghost use Rattle.rpc_msg.specs.declared.shared.Part.{Part};
    ghost use Rattle.bp_value.specs.contracts.value.Value as value;
    ghost use Rattle.std.specs.Coded.{codes};

    ghost Value = { List Part };

    ghost coded = { Prim.hlevel (codes, value.the_row.coded) };

    ghost view = { λ inbox. drop inbox.front inbox.parts.items };

    ghost invariant = { λ inbox. inbox.front ≤ length inbox.parts.items };
}

impl Inbox {
    /// No parts.
    pub fn new(alloc: Global) -> Inbox
        ensures { result ≡ [] }
    {
        Inbox {
            parts: Vec::new(alloc),
            front: 0,
        }
    }

    /// Adds one at the end.
    pub fn push(&mut self, part: Part) -> Result<(), OutOfMemory>
        ensures ok { OnOk result (self.new ≡ self.old ++ part ∷ []) }
        ensures err { OnErr result (self.new ≡ self.old) }
    {
        self.parts.push(part)?;
        Ok(())
    }

    /// Takes the oldest.
    pub fn take(&mut self) -> Option<Part>
        ensures { IsFrontTaken self.old result self.new }
    {
        if self.front == self.parts.len() {
            return None;
        }
        let part = mem::replace(&mut self.parts[self.front], Part::Item(Value::Unit));
        self.front += 1;
        if self.front == self.parts.len() {
            self.parts.clear();
            self.front = 0;
        }
        Some(part)
    }

    /// The parts, in order.
    pub fn as_slice(&self) -> &[Part]
        ensures { result.now ≡ self.now }
    {
        &self.parts[self.front..]
    }

    /// How many there are.
    pub fn len(&self) -> usize
        ensures { result ≡ length self.now }
    {
        self.parts.len() - self.front
    }
}
