// Copies.
ghost use Rattle.std.specs.Prelude.{◌≡◌, IfOk};

use crate::desc::{Behaviour, Entry, RpcDesc};
use bp_value::OutOfMemory;
use std::alloc::Global;

/// Copies some entries, into one block of exactly their number.
pub fn entries_copy(alloc: Global, entries: &[Entry]) -> Result<Vec<Entry>, OutOfMemory>
    ensures { IfOk result (λ copies. copies.items ≡ entries.now) }
{
    let mut copies = Vec::with_capacity(alloc, entries.len())?;
    for entry in entries {
        copies.push(entry.copy(alloc)?)?;
    }
    Ok(copies)
}

impl RpcDesc {
    /// Copies it with its shapes. It takes stack for each level of a shape.
    pub fn copy(&self, alloc: Global) -> Result<RpcDesc, OutOfMemory>
        ensures { IfOk result (λ copy. copy ≡ self.now) }
    {
        Ok(RpcDesc {
            name: self.name.copy(alloc)?,
            version: self.version,
            kind: self.kind,
            query: self.query.copy(alloc)?,
            first: self.first.copy(alloc)?,
            item: self.item.copy(alloc)?,
            error: self.error.copy(alloc)?,
        })
    }
}

impl Entry {
    fn copy(&self, alloc: Global) -> Result<Entry, OutOfMemory>
        ensures { IfOk result (λ copy. copy ≡ self.now) }
    {
        let behaviour = match &self.behaviour {
            None => None,
            Some(behaviour) => Some(behaviour.copy(alloc)?),
        };
        Ok(Entry {
            desc: self.desc.copy(alloc)?,
            side: self.side,
            behaviour,
            line: self.line,
        })
    }
}

impl Behaviour {
    fn copy(&self, alloc: Global) -> Result<Behaviour, OutOfMemory>
        ensures { IfOk result (λ copy. copy ≡ self.now) }
    {
        Ok(match self {
            Behaviour::Echo => Behaviour::Echo,
            Behaviour::Const(value) => Behaviour::Const(value.copy(alloc)?),
            Behaviour::Each => Behaviour::Each,
            Behaviour::Note => Behaviour::Note,
            Behaviour::Notes => Behaviour::Notes,
            Behaviour::Follow => Behaviour::Follow,
        })
    }
}
