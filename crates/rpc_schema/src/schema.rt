ghost use Rattle.std.specs.Prelude.{◌≡◌, ◌≢◌, ◌↔◌, ℕ, List, [], ◌∷◌, ◌++◌, IfOk, IfErr, IsTrue, MatchOption};
ghost use Rattle.rpc_schema.specs.declared.desc.Side.TheVariants.{Both};
ghost use Rattle.rpc_schema.specs.Entries.{listing_of, AreEntries};
ghost use Rattle.rpc_schema.specs.declared.desc.Entry.{Entry};
ghost use Rattle.rpc_schema.specs.SchemaTexts.{AreEntryLines, IsSchemaText, GivesSchema, RefusesLines, RefusesSchema};
ghost use Rattle.rpc_schema.specs.TextLines.{lines_kept};
ghost use Rattle.rpc_schema.specs.Reading.{slices};
ghost use Rattle.rpc_schema.specs.Choice.{is_offered, offered, IsMenuOf, IsSought, StandsAt};

use crate::copying::entries_copy;
use crate::desc::{Entry, Listing, Menu, Side};
use crate::error::SchemaError;
use crate::lines::{parts_of, without_last_empty};
use crate::reading::read_entries;
use bp_value::{Listed, OutOfMemory};
use std::alloc::Global;
use std::marker::Model;

/// What two ends agree on: the procedures that they may call, each with its shapes. Contracts see
/// the list of its entries, in the order of their lines.
#[derive(Debug, Drop)]
pub struct Schema {
    entries: Vec<Entry>,
}

impl Model for Schema {
    ghost use Rattle.std.specs.Prelude.{List};
    ghost use Rattle.rpc_schema.specs.declared.desc.Entry.{Entry};
    ghost use Rattle.rpc_schema.specs.Entries.{AreEntries};
    ghost use Rattle.bp_value.specs.contracts.shape.Shape as shape;
    ghost use Rattle.bp_value.specs.contracts.value.Value as value;
    ghost use Rattle.std.specs.Coded.{codes};

    ghost Value = { List Entry };

    ghost coded = { Prim.hlevel (codes, shape.the_row.coded, value.the_row.coded) };

    ghost view = { λ schema. schema.entries.items };

    ghost invariant = { λ schema. AreEntries schema.entries.items };
}

impl Schema {
    /// Reads the text of a schema. A line is one entry, in the grammar of the crate's README; an
    /// empty line and one that begins with `#` say nothing. The first line at fault is told.
    ///
    /// The time is linear in the text, and n log n in its lines.
    pub fn read(alloc: Global, text: &[u8]) -> Result<Schema, SchemaError>
        ensures spelled { IfOk result (λ schema. IsSchemaText schema text.now) }
        ensures only { (es : List Entry) → IsSchemaText es text.now → GivesSchema es result }
        ensures refused { IfErr result (RefusesSchema text.now) }
    {
        let parts = parts_of(alloc, text)?;
        Schema::read_lines(alloc, without_last_empty(&parts))
    }

    /// Reads the lines of a schema, as the front of another text has them. They are counted from 1.
    ///
    /// The time is that of `read`.
    pub fn read_lines(alloc: Global, lines: &[&[u8]]) -> Result<Schema, SchemaError>
        ensures spelled { IfOk result (λ schema.
            AreEntryLines schema (lines_kept 1 (slices lines.now))) }
        ensures only { (es : List Entry) → AreEntryLines es (lines_kept 1 (slices lines.now))
            → GivesSchema es result }
        ensures refused { IfErr result (RefusesLines (lines_kept 1 (slices lines.now))) }
    {
        Ok(Schema {
            entries: read_entries(alloc, lines)?,
        })
    }

    /// The entries, in the order of their lines.
    pub fn entries(&self) -> &[Entry]
        ensures entries { result.now ≡ self.now }
        ensures each { AreEntries self.now }
    {
        self.entries.as_slice()
    }

    /// The place of the entry of this name and version that the end of this side has. No memory.
    ///
    /// The time is linear in the entries.
    pub fn find(&self, name: &[u8], version: i64, side: Side) -> Option<usize>
        requires { side ≢ Both }
        ensures { let Stands = StandsAt self.now name.now version side in
            MatchOption result ((place : ℕ) → Stands place → ⊥) Stands }
    {
        for (place, entry) in self.entries.iter().enumerate() {
            if entry.is_sought(name, version, side) {
                return Some(place);
            }
        }
        None
    }

    /// What the end that answers offers: the entries that it has, sorted by the bytes of the name,
    /// and then by the version.
    pub fn menu_of(&self, alloc: Global) -> Result<Menu, OutOfMemory>
        ensures { IfOk result (λ menu. IsMenuOf self.now menu.entries) }
    {
        let mut listings = self.offered(alloc)?;
        listings.sort_unstable();
        Ok(Menu {
            entries: Listed::from_vec(listings),
        })
    }

    /// Copies it, into blocks without spare room. It takes stack for each level of a shape and of a
    /// value.
    pub fn copy(&self, alloc: Global) -> Result<Schema, OutOfMemory>
        ensures { IfOk result (λ copy. copy ≡ self.now) }
    {
        Ok(Schema {
            entries: entries_copy(alloc, self.entries.as_slice())?,
        })
    }

    // The entries that are offered, in the order of their lines.
    fn offered(&self, alloc: Global) -> Result<Vec<Listing>, OutOfMemory>
        ensures { IfOk result (λ listings. listings.items ≡ offered self.now) }
    {
        let mut listings = Vec::new(alloc);
        for entry in self.entries.as_slice() {
            entry.offer(&mut listings, alloc)?;
        }
        Ok(listings)
    }
}

impl Entry {
    // Whether it is of this name and version, and the end of this side has it.
    fn is_sought(&self, name: &[u8], version: i64, side: Side) -> bool
        ensures { IsTrue result ↔ IsSought name.now version side self.now }
    {
        self.desc.name.as_slice() == name
            && self.desc.version == version
            && (self.side == side || self.side == Side::Both)
    }

    // Adds its name and version, if it is offered.
    fn offer(&self, listings: &mut Vec<Listing>, alloc: Global) -> Result<(), OutOfMemory>
        ensures { IfOk result (λ done. listings.new.items
            ≡ listings.old.items ++ offered (self.now ∷ [])) }
    {
        if self.side.is_offered() {
            listings.push(self.listing(alloc)?)?;
        }
        Ok(())
    }

    // Its name and version.
    pub(crate) fn listing(&self, alloc: Global) -> Result<Listing, OutOfMemory>
        ensures { IfOk result (λ listing. listing ≡ listing_of self.now) }
    {
        Ok(Listing {
            name: self.desc.name.copy(alloc)?,
            version: self.desc.version,
        })
    }
}

impl Side {
    // Whether the end that answers has what is of this side.
    fn is_offered(self) -> bool
        ensures { result ≡ is_offered self }
    {
        matches!(self, Side::Both | Side::Callee)
    }
}
