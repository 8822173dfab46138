// What a server does with a query, before it does it.
ghost use Rattle.std.specs.Prelude.{◌≡◌, ◌≤◌, ◌^◌, IfOk, Some, slice_get};
ghost use Rattle.rpc_msg.specs.declared.message.Answer.TheVariants as answer;
ghost use Rattle.rpc_schema.specs.Entries.{IsEntry};
ghost use Rattle.rpc_talk.specs.Acts.{cannot_read, unimplemented};
ghost use Rattle.rpc_talk.specs.Asks.{asks_menu};
ghost use Rattle.rpc_server.specs.Asking.{asks_of};

use crate::asking::{Asked, asks_in, asks_menu, is_abort};
use crate::kinds::{is_menu, is_of, is_stream, is_tracked, served_at};
use crate::own::{fitting, unreadable};
use crate::table::Standing;
use bp_value::{Blob, OutOfMemory, Value};
use rpc_msg::{Answer, CloseCause, Limits, Message, Query, RpcError};
use rpc_schema::{Entry, Schema};
use std::alloc::Global;
use std::marker::Model;

/// What a server has from its start on.
#[derive(Drop)]
pub struct Rules {
    pub limits: Limits,
    pub schema: Schema,
    /// The data of the answer to who asks for the menu.
    pub menu: Blob,
    pub alloc: Global,
}

/// What is to be done with a query.
#[derive(Drop)]
pub enum Heard {
    /// Nothing.
    Ignored,
    /// The server answers by itself.
    Answered(Message),
    /// It is to be answered by the entry at the place.
    Asked { place: usize, query: Value },
    /// It is not to be answered.
    Noted { place: usize, query: Value },
    /// It stops the stream of its id, which has begun.
    Stopped,
    /// It closes the server.
    Faulty(CloseCause),
}

impl Model for Rules {
    ghost use Rattle.bp_value.specs.contracts.shape.Shape as shape;
    ghost use Rattle.bp_value.specs.contracts.value.Value as value;
    ghost use Rattle.std.specs.Coded.{codes};
    ghost use Rattle.rpc_server.specs.Rules.{Rules as RulesState, AreRules};

    ghost Value = { RulesState };

    ghost coded = { Prim.hlevel (codes, shape.the_row.coded, value.the_row.coded) };

    ghost view = { λ r. record { limits = r.limits; entries = r.schema; menu = r.menu } };

    ghost invariant = { λ r. AreRules r.limits r.schema r.menu };
}

impl Rules {
    ghost use Rattle.rpc_server.specs.Hearing.{aborts_some, heard_asks, heard_by, heard_call, heard_menu, heard_new, heard_open, heard_query, heard_some, by_itself};

    /// What is done with a query, by how the last one of its id stands, and how many are open.
    pub fn hear(
        &self,
        standing: Standing,
        count: usize,
        query: &Query,
    ) -> Result<Heard, OutOfMemory>
        ensures { IfOk result (λ heard. heard ≡ heard_query self.now standing count query.now) }
    {
        match standing {
            Standing::Open { place, begun } => self.hear_open(place, begun, query),
            Standing::Nowhere | Standing::Stopped => self.hear_new(count, query),
        }
    }

    /// The schema.
    pub fn schema(&self) -> &Schema
        ensures { result.now ≡ self.now.entries }
    {
        &self.schema
    }

    /// The most bytes of a message.
    pub fn max_message(&self) -> u64
        ensures most { result ≡ self.now.limits.max_message }
        ensures limit { result ≤ 2 ^ 30 }
    {
        self.limits.max_message
    }

    // A query whose id is open.
    fn hear_open(&self, place: usize, begun: bool, query: &Query) -> Result<Heard, OutOfMemory>
        ensures { let m = self.now.limits.max_message in
            let aborts = aborts_some m query.now (slice_get self.now.entries place) in
            IfOk result (λ heard. heard ≡ heard_open aborts begun query.now.id) }
    {
        if !self.is_stop(place, query)? {
            return Ok(Heard::Faulty(CloseCause::DuplicateQuery { id: query.id }));
        }
        if begun {
            Ok(Heard::Stopped)
        } else {
            Ok(Heard::Ignored)
        }
    }

    // Whether it is an abort of the stream of the entry at the place.
    fn is_stop(&self, place: usize, query: &Query) -> Result<bool, OutOfMemory>
        ensures { let m = self.now.limits.max_message in
            let aborts = aborts_some m query.now (slice_get self.now.entries place) in
            IfOk result (λ stops. stops ≡ aborts) }
    {
        let Some(entry) = self.schema.entries().get(place) else {
            return Ok(false);
        };
        if !(is_stream(entry.desc.kind) && is_of(query, entry)) {
            return Ok(false);
        }
        is_abort(
            self.alloc,
            self.limits.max_message,
            &entry.desc,
            query.body.as_slice(),
        )
    }

    // A query whose id is not open.
    fn hear_new(&self, count: usize, query: &Query) -> Result<Heard, OutOfMemory>
        ensures { IfOk result (λ heard. heard ≡ heard_new self.now count query.now) }
    {
        if is_menu(query) {
            return self.hear_menu(query);
        }
        match served_at(self.schema.entries(), query) {
            Some(place) => self.hear_at(count, place, query),
            None => self.refuse(query),
        }
    }

    fn hear_menu(&self, query: &Query) -> Result<Heard, OutOfMemory>
        ensures { let asks = asks_menu self.now.limits.max_message query.now.body in
            IfOk result (λ heard. heard ≡ heard_menu self.now query.now.id asks) }
    {
        match asks_menu(self.alloc, self.limits.max_message, query.body.as_slice())? {
            Asked::Calls(_) => self.tell_menu(query.id),
            Asked::Aborts => self.refuse_data(query.id),
            Asked::Unclear => self.refuse_data(query.id),
        }
    }

    fn tell_menu(&self, id: i64) -> Result<Heard, OutOfMemory>
        ensures { IfOk result (λ heard. heard ≡ by_itself self.now id (answer.Ok self.now.menu)) }
    {
        let menu = self.menu.copy(self.alloc)?;
        self.say(id, Answer::Ok(menu))
    }

    // The data of a query cannot be read.
    fn refuse_data(&self, id: i64) -> Result<Heard, OutOfMemory>
        ensures { IfOk result (λ heard. heard ≡ by_itself self.now id cannot_read) }
    {
        let answer = unreadable(self.alloc)?;
        self.say(id, answer)
    }

    // A query to the entry at the place.
    fn hear_at(&self, count: usize, place: usize, query: &Query) -> Result<Heard, OutOfMemory>
        ensures { IfOk result (λ heard. heard
            ≡ heard_some self.now count query.now place (slice_get self.now.entries place)) }
    {
        match self.schema.entries().get(place) {
            Some(entry) => self.hear_entry(count, place, entry, query),
            None => self.refuse(query),
        }
    }

    fn hear_entry(
        &self,
        count: usize,
        place: usize,
        entry: &Entry,
        query: &Query,
    ) -> Result<Heard, OutOfMemory>
        requires { IsEntry entry.now }
        ensures { IfOk result (λ heard. heard
            ≡ heard_some self.now count query.now place (Some entry.now)) }
    {
        let max = self.limits.max_message;
        let asked = asks_in(self.alloc, max, &entry.desc, query.body.as_slice())?;
        let tracked = is_tracked(entry.desc.kind);
        self.hear_asked(tracked, count, place, query.id, asked)
    }

    fn hear_asked(
        &self,
        tracked: bool,
        count: usize,
        place: usize,
        id: i64,
        asked: Asked,
    ) -> Result<Heard, OutOfMemory>
        ensures { IfOk result (λ heard. heard
            ≡ heard_asks tracked self.now count id place (asks_of asked)) }
    {
        match asked {
            Asked::Aborts => Ok(Heard::Ignored),
            Asked::Calls(query) if tracked => Ok(self.call(count, place, query)),
            Asked::Calls(query) => Ok(Heard::Noted { place, query }),
            Asked::Unclear if tracked => self.refuse_data(id),
            Asked::Unclear => Ok(Heard::Ignored),
        }
    }

    // One more query that is to be answered.
    fn call(&self, count: usize, place: usize, query: Value) -> Heard
        ensures { result ≡ heard_call self.now count place query }
    {
        let most = self.limits.max_open;
        if most as usize <= count {
            Heard::Faulty(CloseCause::TooManyOpen { count: most })
        } else {
            Heard::Asked { place, query }
        }
    }

    // No entry is called.
    fn refuse(&self, query: &Query) -> Result<Heard, OutOfMemory>
        ensures { let q = query.now in
            IfOk result (λ heard. heard ≡ by_itself self.now q.id (unimplemented q.tag q.version)) }
    {
        let error = RpcError::Unimplemented {
            tag: query.tag.copy(self.alloc)?,
            version: query.version,
        };
        self.say(query.id, Answer::Error(error))
    }

    fn say(&self, id: i64, answer: Answer) -> Result<Heard, OutOfMemory>
        ensures { IfOk result (λ heard. heard ≡ by_itself self.now id answer) }
    {
        let message = fitting(self.alloc, self.limits.max_message, id, answer)?;
        Ok(Heard::Answered(message))
    }
}
