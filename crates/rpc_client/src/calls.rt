// The calls of a client, in the order in which they were made.
ghost use Rattle.std.specs.Prelude.{◌≡◌, ◌++◌, ◌∷◌, ◌^◌, ◌≤◌, [], IfOk, OnErr, OnOk, MatchOption};
ghost use Rattle.std.specs.List.{count_by, find, position};
ghost use Rattle.rpc_msg.specs.declared.shared.Ending.TheVariants.{Closed};
ghost use Rattle.rpc_talk.specs.Parts.{unless_closed};
ghost use Rattle.rpc_end.specs.Ends.{said};
ghost use Rattle.rpc_client.specs.Rows.{new_row, Becomes, IsCallable};
ghost use Rattle.rpc_client.specs.Tables.{find_row, has_row_id, is_waited_for, next_call_id, next_number, rows_heard, AbortsIn, ShownOf, TakesRow};

use crate::asking::abort_data;
use crate::entry::{Entry, Took};
use crate::error::AbortError;
use bp_value::OutOfMemory;
use rpc_end::End;
use rpc_msg::{CloseCause, Ending, Message, Received, Response};
use rpc_schema::{Kind, RpcDesc};
use std::alloc::Global;
use std::marker::Model;

/// The calls that were made. They are found by their ids: the list is searched.
#[derive(Drop)]
pub struct Calls {
    entries: Vec<Entry>,
    /// How many are not one-way, and how many are.
    tracked: u64,
    one_way: u64,
    alloc: Global,
}

impl Model for Calls {
    ghost use Rattle.std.specs.Prelude.{List};
    ghost use Rattle.rpc_client.specs.Rows.{Row};
    ghost use Rattle.rpc_client.specs.Tables.{AreCounted};
    ghost use Rattle.bp_value.specs.contracts.shape.Shape as shape;
    ghost use Rattle.bp_value.specs.contracts.value.Sexp as sexp;
    ghost use Rattle.bp_value.specs.contracts.value.Value as value;
    ghost use Rattle.std.specs.Coded.{codes};

    ghost Value = { List Row };

    ghost coded = { Prim.hlevel
        (codes, shape.the_row.coded, value.the_row.coded, sexp.the_row.coded) };

    ghost view = { λ calls. calls.entries.items };

    ghost invariant = { λ calls. AreCounted calls.entries.items calls.tracked calls.one_way };
}

impl Calls {
    /// No calls.
    pub fn new(alloc: Global) -> Calls
        ensures { result ≡ [] }
    {
        Calls {
            entries: Vec::new(alloc),
            tracked: 0,
            one_way: 0,
            alloc,
        }
    }

    /// The id of the next call of the kind: even ones are answered, odd ones are not.
    pub fn next_id(&self, kind: Kind) -> i64
        ensures { result ≡ next_call_id kind self.now }
    {
        if kind == Kind::OneWay {
            return 2 * self.one_way as i64 + 1;
        }
        2 * self.tracked as i64
    }

    /// How many calls wait for an answer.
    pub fn waited_for(&self) -> usize
        ensures { result ≡ count_by is_waited_for self.now }
    {
        count_of(self.entries.as_slice())
    }

    /// Takes a response to the call with its id, or tells why the client has to close.
    pub fn hear(&mut self, response: Response, max: u64) -> Result<Option<CloseCause>, OutOfMemory>
        requires { max ≤ 2 ^ 30 }
        ensures ok { let to = rows_heard max self.old response.id response.result in
            IfOk result (λ why. Becomes to self.old why self.new) }
        ensures err { OnErr result (self.new ≡ self.old) }
    {
        let Some(at) = place_of(self.entries.as_slice(), response.id) else {
            return Ok(Some(CloseCause::UnknownId { id: response.id }));
        };
        self.entries[at].hear(self.alloc, response.result, max)
    }

    /// Takes the next part or the ending of the call with this id.
    pub fn take(&mut self, id: i64, closed: bool) -> Took
        ensures { TakesRow closed self.old id result self.new }
    {
        let Some(at) = place_of(self.entries.as_slice(), id) else {
            return Took::Stranger;
        };
        self.entries[at].take(closed)
    }

    /// What the call with this id has received; `last` is how a call ends whose client is closed.
    pub fn received<'a>(&'a self, id: i64, closed: bool, last: &'a Ending) -> Option<Received<'a>>
        requires { last.now ≡ Closed }
        ensures { ShownOf (unless_closed closed) (find_row id self.now) result }
    {
        match place_of(self.entries.as_slice(), id) {
            Some(at) => self.entries[at].received(closed, last),
            None => None,
        }
    }

    /// One more call, whose query goes out.
    pub fn add(
        &mut self,
        id: i64,
        desc: RpcDesc,
        query: &Message,
        link: &mut End,
    ) -> Result<(), OutOfMemory>
        requires callable { IsCallable desc }
        requires few { next_number desc.kind self.old ≤ 2 ^ 61 }
        ensures ok { OnOk result (self.new ≡ self.old ++ new_row id desc ∷ []) }
        ensures said { OnOk result (link.new ≡ said link.old query.now) }
        ensures err { OnErr result ((self.new ≡ self.old) × (link.new ≡ link.old)) }
    {
        self.entries.reserve(1)?;
        link.say(query)?;
        let is_one_way = desc.kind == Kind::OneWay;
        self.entries.push_reserved(Entry::new(self.alloc, id, desc));
        if is_one_way {
            self.one_way += 1;
        } else {
            self.tracked += 1;
        }
        Ok(())
    }

    /// Aborts the stream with this id: what comes of it from now on is dropped.
    pub fn abort(&mut self, id: i64, link: &mut End) -> Result<(), AbortError>
        ensures { AbortsIn self.old link.old id result self.new link.new }
    {
        let Some(at) = place_of(self.entries.as_slice(), id) else {
            return Err(AbortError::Stranger);
        };
        let entry = &mut self.entries[at];
        if let Some(error) = entry.abort_refusal() {
            return Err(error);
        }
        let query = entry.query(self.alloc, abort_data(self.alloc)?)?;
        link.say(&query)?;
        entry.abort();
        Ok(())
    }
}

// The place of the call with an id.
fn place_of(entries: &[Entry], id: i64) -> Option<usize>
    ensures { result ≡ position (has_row_id id) entries.now }
{
    entries.iter().position(|entry| entry.id() == id)
}

// How many of these calls wait for an answer.
fn count_of(entries: &[Entry]) -> usize
    ensures { result ≡ count_by is_waited_for entries.now }
{
    let mut count = 0;
    for at in 0..entries.len() {
        if entries[at].is_unfinished() {
            count += 1;
        }
    }
    count
}
