// The queries that came and are not forgotten, by id.
ghost use Rattle.std.specs.Prelude.{◌≡◌, ◌≢◌, ℕ, ℤ, [], OnErr, OnOk};
ghost use Rattle.std.specs.List.{position};
ghost use Rattle.rpc_server.specs.declared.table.Standing.TheVariants.{Nowhere};
ghost use Rattle.rpc_server.specs.Tables.{forgotten, is_query, is_to_answer, standing, unfinished, IsPut};

use bp_value::OutOfMemory;
use std::alloc::Global;
use std::marker::Model;

/// How the last query of an id stands.
#[derive(Clone, Copy, Debug, PartialEq, Eq)]
pub enum Standing {
    /// None came, or it is over.
    Nowhere,
    /// It is to be answered by the entry at this place of the schema. A stream may have begun.
    Open { place: usize, begun: bool },
    /// An abort ended its stream, and no act on it was tried since.
    Stopped,
}

/// A query that is kept.
#[derive(Clone, Copy, Drop)]
pub struct Tracked {
    pub id: i64,
    pub standing: Standing,
}

/// The queries that are open or stopped. Each id is in it once.
///
/// It is searched from its front: each call takes time linear in the queries that are kept.
#[derive(Drop)]
pub struct Table {
    queries: Vec<Tracked>,
}

impl Model for Table {
    ghost use Rattle.std.specs.Prelude.{List};
    ghost use Rattle.rpc_server.specs.declared.table.Tracked.{Tracked};
    ghost use Rattle.rpc_server.specs.Tables.{HaveApartIds};

    ghost Value = { List Tracked };

    ghost view = { λ table. table.queries.items };

    ghost invariant = { λ table. HaveApartIds table.queries.items };
}

impl Table {
    /// No queries.
    pub fn new(alloc: Global) -> Table
        ensures { result ≡ [] }
    {
        Table {
            queries: Vec::new(alloc),
        }
    }

    /// How the query of an id stands.
    pub fn standing(&self, id: i64) -> Standing
        ensures { result ≡ standing self.now id }
    {
        match place_of(&self.queries, id) {
            Some(place) => self.queries[place].standing,
            None => Standing::Nowhere,
        }
    }

    /// How many queries are open.
    pub fn unfinished(&self) -> usize
        ensures { result ≡ unfinished self.now }
    {
        let mut count = 0;
        for query in &self.queries {
            if query.standing.is_open() {
                count += 1;
            }
        }
        count
    }

    /// Has a query stand so from now on.
    pub fn put(&mut self, id: i64, to: Standing) -> Result<(), OutOfMemory>
        ensures ok { OnOk result (IsPut self.old id to self.new) }
        ensures err { OnErr result (self.new ≡ self.old) }
    {
        match place_of(&self.queries, id) {
            Some(place) => self.queries[place] = Tracked { id, standing: to },
            None => self.queries.push(Tracked { id, standing: to })?,
        }
        Ok(())
    }

    /// Has a query that is kept stand so from now on.
    pub fn set(&mut self, id: i64, to: Standing)
        requires { standing self.old id ≢ Nowhere }
        ensures { IsPut self.old id to self.new }
    {
        match place_of(&self.queries, id) {
            Some(place) => self.queries[place] = Tracked { id, standing: to },
            None => unreachable!(),
        }
    }

    /// Has a query that is kept stand so from now on, or forgets it.
    pub fn settle(&mut self, id: i64, to: Standing)
        requires { standing self.old id ≢ Nowhere }
        ensures { IsPut self.old id to self.new }
    {
        match to {
            Standing::Nowhere => self.forget(id),
            _ => self.set(id, to),
        }
    }

    /// Forgets a query that is stopped.
    pub fn pass(&mut self, id: i64)
        ensures { IsPut self.old id (forgotten (standing self.old id)) self.new }
    {
        match self.standing(id) {
            Standing::Stopped => self.forget(id),
            _ => {}
        }
    }

    /// Forgets a query.
    pub fn forget(&mut self, id: i64)
        ensures { IsPut self.old id Nowhere self.new }
    {
        match place_of(&self.queries, id) {
            Some(place) => {
                self.queries.remove(place);
            }
            None => {}
        }
    }
}

impl Standing {
    /// Whether acts on it are awaited.
    pub fn is_open(self) -> bool
        ensures { result ≡ is_to_answer self }
    {
        matches!(self, Standing::Open { .. })
    }
}

/// Where the query of an id is.
fn place_of(queries: &[Tracked], id: i64) -> Option<usize>
    ensures { result ≡ position (is_query id) queries.now }
{
    queries.iter().position(|query| query.id == id)
}
