// Where the dispatches of labels stand.
ghost use Rattle.std.specs.Prelude.{◌≡◌, List, Option, Some, None, ℕ, OnOk, OnErr};
ghost use Rattle.rpc_pair.specs.Labels.{place_in, Sets};

use bp_value::OutOfMemory;
use std::alloc::Global;
use std::collections::BTreeMap;

/// The places of dispatches by their labels.
#[derive(Drop)]
pub struct Labels {
    places: BTreeMap<Vec<u8>, usize>,
}

impl Labels {
    /// No label has a place.
    pub fn new(alloc: Global) -> Labels
        ensures { (label : List ℕ) → place_in result label ≡ None }
    {
        Labels {
            places: BTreeMap::new(alloc),
        }
    }

    /// The place of a label. No memory.
    pub fn place(&self, label: &[u8]) -> Option<usize>
        ensures { result ≡ place_in self.now label.now }
    {
        self.places.get(label).copied()
    }

    /// Gives a place to a label.
    pub fn set(&mut self, alloc: Global, label: &[u8], place: usize) -> Result<(), OutOfMemory>
        ensures set { OnOk result (Sets self.old label.now (Some place) self.new) }
        ensures err { OnErr result
            ((label : List ℕ) → place_in self.new label ≡ place_in self.old label) }
    {
        self.places.insert(Vec::from_slice(alloc, label)?, place)?;
        Ok(())
    }

    /// Takes the place of a label away.
    pub fn unset(&mut self, label: &[u8])
        ensures { Sets self.old label.now None self.new }
    {
        self.places.remove(label);
    }
}
