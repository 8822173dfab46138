ghost use Rattle.std.specs.Prelude.{◌≡◌, ◌++◌, length, take, drop, None, Some, IfOk, MatchOption, OnErr};
ghost use Rattle.rpc_end.specs.Ends.{after_tick, is_link_open, out_count, shut, taken_out, tick_answer, wanted_of, WouldTakeOf};
ghost use Rattle.rpc_end.specs.Taking.{TakesSome};
ghost use Rattle.rpc_msg.specs.Limits.{AreLimits};
ghost use Rattle.rpc_msg.specs.declared.shared.CloseCause.TheVariants as close;
ghost use Rattle.rpc_msg.specs.declared.message.Message.TheVariants as message;
ghost use Rattle.rpc_talk.specs.Acts as act;

use crate::arrival::{Arrival, ServerFed};
use crate::data::eof_data;
use crate::doing::{follow, send};
use crate::error::ActError;
use crate::hearing::{Heard, Rules};
use crate::menus::menu_data;
use crate::own::failed_with;
use crate::steps::{Step, Telling};
use crate::table::{Standing, Table};
use bp_value::{OutOfMemory, Value};
use rpc_end::{End, Got, Next};
use rpc_msg::{Answer, CloseCause, FeedError, Limits, Message, Query, Ticked};
use rpc_schema::Schema;
use std::alloc::Global;
use std::marker::Model;

/// The answering end of a connection. It takes the bytes of its caller, tells what came for
/// handlers, and has the bytes that are to go out.
#[derive(Drop)]
pub struct Server {
    rules: Rules,
    table: Table,
    link: End,
    alloc: Global,
}

impl Model for Server {
    ghost use Rattle.bp_value.specs.contracts.shape.Shape as shape;
    ghost use Rattle.bp_value.specs.contracts.value.Value as value;
    ghost use Rattle.std.specs.Coded.{codes};
    ghost use Rattle.rpc_server.specs.Servers.{ServerState, IsServer};

    ghost Value = { ServerState };

    ghost coded = { Prim.hlevel (codes, shape.the_row.coded, value.the_row.coded) };

    ghost view = { λ s. record { rules = s.rules; table = s.table; link = s.link } };

    ghost invariant = { λ s. IsServer s.rules s.table s.link };
}

impl Server {
    ghost use Rattle.rpc_talk.specs.Acts.{Act};
    ghost use Rattle.rpc_server.specs.Acting.{IsActed, IsActRefused};
    ghost use Rattle.rpc_server.specs.Doing.{Admits, AnswersAt, Deals, IsPlaceOf};
    ghost use Rattle.rpc_server.specs.Servers.{with_end, IsServerFed, IsNew};
    ghost use Rattle.rpc_server.specs.Steps.{step_of, told_act};

    /// A server of the entries that the end which answers has. It opens with its header, and its
    /// spans begin now.
    pub fn new(
        alloc: Global,
        schema: Schema,
        limits: Limits,
        now: u64,
    ) -> Result<Server, OutOfMemory>
        requires { AreLimits limits }
        ensures { IfOk result (λ server. IsNew schema limits now server) }
    {
        let link = End::new(alloc, limits, now)?;
        let menu = menu_data(alloc, &schema)?;
        Ok(Server {
            rules: Rules {
                limits,
                schema,
                menu,
                alloc,
            },
            table: Table::new(alloc),
            link,
            alloc,
        })
    }

    /// Takes bytes up to the end of the first whole frame, or all of the piece, and deals with the
    /// message of that frame. It answers the menu, and queries that nobody answers or that cannot
    /// be read, by itself.
    pub fn feed(&mut self, piece: &[u8], now: u64) -> Result<ServerFed, FeedError>
        ensures fed { IsServerFed self.old piece.now now result self.new }
        ensures some { IfOk result (λ fed. TakesSome piece.now fed.used) }
    {
        let got = match self.link.next(piece, now) {
            Ok(Next::Message(got)) => got,
            Ok(Next::Part { used }) => {
                return Ok(ServerFed {
                    used,
                    arrival: None,
                });
            }
            Err(error) => return Err(error),
        };
        match self.hear(&got.message) {
            Ok(arrival) => {
                let used = used_by(got);
                self.link.heard(now);
                Ok(ServerFed { used, arrival })
            }
            Err(FeedError::Closed(cause)) => {
                used_by(got);
                self.link.heard(now);
                self.link.shut(cause);
                Err(FeedError::Closed(cause))
            }
            Err(FeedError::OutOfMemory) => {
                self.link.undo(got);
                Err(FeedError::OutOfMemory)
            }
        }
    }

    /// Answers a query to a plain procedure.
    pub fn reply(&mut self, id: i64, value: &Value) -> Result<(), ActError>
        ensures { IsActed self.old id (act.Reply value.now) result self.new }
    {
        self.tell(id, Telling::Reply, value)
    }

    /// Answers a query with the error of a handler: a text.
    pub fn fail(&mut self, id: i64, text: &[u8]) -> Result<(), ActError>
        ensures { IsActed self.old id (act.Fail text.now) result self.new }
    {
        match self.admit(id, Step::Fail) {
            Ok(place) => self.fail_at(id, place, text),
            Err(error) => Err(self.refuse(id, error)),
        }
    }

    /// Begins a stream: that of a state RPC tells the state, and that of a pipe the unit.
    pub fn begin(&mut self, id: i64, value: &Value) -> Result<(), ActError>
        ensures { IsActed self.old id (act.Begin value.now) result self.new }
    {
        self.tell(id, Telling::Begin, value)
    }

    /// Declines a stream before it has begun.
    pub fn decline(&mut self, id: i64, error: &Value) -> Result<(), ActError>
        ensures { IsActed self.old id (act.Decline error.now) result self.new }
    {
        self.tell(id, Telling::Decline, error)
    }

    /// Gives an item of a stream that has begun.
    pub fn item(&mut self, id: i64, value: &Value) -> Result<(), ActError>
        ensures { IsActed self.old id (act.Give value.now) result self.new }
    {
        self.tell(id, Telling::Item, value)
    }

    /// Ends a stream that has begun.
    pub fn end(&mut self, id: i64) -> Result<(), ActError>
        ensures { IsActed self.old id act.End result self.new }
    {
        match self.admit(id, Step::End) {
            Ok(place) => self.end_at(id, place),
            Err(error) => Err(self.refuse(id, error)),
        }
    }

    /// What is due at a moment: a heartbeat, which only an open server sends, or the close of a
    /// server whose caller was silent for too long.
    pub fn tick(&mut self, now: u64) -> Result<Ticked, OutOfMemory>
        ensures ok { let link = self.old.link in
            IfOk result (λ t. (t ≡ tick_answer link now)
            × (self.new ≡ with_end self.old (after_tick link now))) }
        ensures err { OnErr result (self.new ≡ self.old) }
    {
        self.link.tick(now)
    }

    /// Moves the oldest bytes that are to go out into a buffer, as many as it has room for. No
    /// memory.
    pub fn take_out(&mut self, into: &mut [u8]) -> usize
        ensures count { result ≡ out_count (length into.old) self.old.link.output }
        ensures moved { into.new ≡ take result self.old.link.output ++ drop result into.old }
        ensures left { self.new ≡ with_end self.old (taken_out self.old.link result) }
    {
        self.link.take_out(into)
    }

    /// Its caller's stream ended: it closes, if it is not closed. No memory.
    pub fn end_of_input(&mut self)
        ensures { self.new ≡ with_end self.old (shut self.old.link close.EndOfInput) }
    {
        self.link.shut(CloseCause::EndOfInput);
    }

    /// Closes it, if it is not closed. No memory.
    pub fn close(&mut self)
        ensures { self.new ≡ with_end self.old (shut self.old.link close.ClosedHere) }
    {
        self.link.shut(CloseCause::ClosedHere);
    }

    /// Closes it for a cause, if it is not closed. No memory.
    pub fn shut(&mut self, cause: CloseCause)
        ensures { self.new ≡ with_end self.old (shut self.old.link cause) }
    {
        self.link.shut(cause);
    }

    /// The schema by which it answers. No memory.
    pub fn schema(&self) -> &Schema
        ensures { result.now ≡ self.now.rules.entries }
    {
        self.rules.schema()
    }

    /// Why it is closed. No memory.
    pub fn cause(&self) -> Option<&CloseCause>
        ensures { let why = self.now.link.cause in
            MatchOption result (why ≡ None) (λ kept. why ≡ Some kept.now) }
    {
        self.link.cause()
    }

    /// Whether it has read a header, and is not closed. No memory.
    pub fn is_open(&self) -> bool
        ensures { result ≡ is_link_open self.now.link }
    {
        self.link.is_open()
    }

    /// How many bytes are missing to the end of a length or of a frame; none once it is closed. No
    /// memory.
    pub fn wants(&self) -> u64
        ensures { result ≡ wanted_of self.now.link }
    {
        self.link.wants()
    }

    /// How many bytes a feed of this piece takes, if memory does not run out. No memory.
    pub fn would_take(&self, piece: &[u8]) -> usize
        ensures { WouldTakeOf self.now.link piece.now self.now.link.cause result }
    {
        self.link.would_take(piece)
    }

    // Does what a message asks for, and tells what came, or why the server closes.
    fn hear(&mut self, message: &Message) -> Result<Option<Arrival>, FeedError>
        ensures { Deals self.old message.now result self.new }
    {
        match message {
            Message::Heartbeat => Ok(None),
            Message::Query(query) => self.hear_query(query),
            Message::Response(response) => {
                let id = response.id;
                Err(FeedError::Closed(CloseCause::UnknownId { id }))
            }
        }
    }

    fn hear_query(&mut self, query: &Query) -> Result<Option<Arrival>, FeedError>
        ensures { Deals self.old (message.Query query.now) result self.new }
    {
        let standing = self.table.standing(query.id);
        let count = self.table.unfinished();
        match self.rules.hear(standing, count, query) {
            Ok(heard) => follow(self.alloc, &mut self.table, &mut self.link, query.id, heard),
            Err(OutOfMemory) => Err(FeedError::OutOfMemory),
        }
    }

    fn tell(&mut self, id: i64, telling: Telling, value: &Value) -> Result<(), ActError>
        ensures { IsActed self.old id (told_act telling value.now) result self.new }
    {
        match self.admit(id, Step::Tells(telling)) {
            Ok(place) => self.tell_at(id, place, telling, value),
            Err(error) => Err(self.refuse(id, error)),
        }
    }

    // The place of the entry that is called, where an act may be done.
    fn admit(&self, id: i64, step: Step) -> Result<usize, ActError>
        ensures { (what : Act) → step_of what ≡ step → Admits self.now id what result }
    {
        if self.link.cause().is_some() {
            return Err(ActError::Closed);
        }
        self.rules.admit(step, self.table.standing(id))
    }

    // A refusal that an abort is told by is told once.
    fn refuse(&mut self, id: i64, error: ActError) -> ActError
        ensures error { result ≡ error }
        ensures state { IsActRefused self.old id error self.new }
    {
        if let ActError::Stopped = error {
            self.table.forget(id);
        }
        error
    }

    fn tell_at(
        &mut self,
        id: i64,
        place: usize,
        telling: Telling,
        value: &Value,
    ) -> Result<(), ActError>
        requires { IsPlaceOf self.old id place (told_act telling value.now) }
        ensures { AnswersAt self.old place id (told_act telling value.now) result self.new }
    {
        let bytes = match self.rules.tell(telling, place, value) {
            Ok(bytes) => bytes,
            Err(error) => return Err(error),
        };
        let after = telling.after(place);
        let max = self.rules.max_message();
        let answer = Answer::Ok(bytes);
        send(
            self.alloc,
            max,
            &mut self.table,
            &mut self.link,
            id,
            answer,
            after,
        )
    }

    fn fail_at(&mut self, id: i64, place: usize, text: &[u8]) -> Result<(), ActError>
        requires { IsPlaceOf self.old id place (act.Fail text.now) }
        ensures { AnswersAt self.old place id (act.Fail text.now) result self.new }
    {
        let answer = failed_with(self.alloc, text)?;
        let max = self.rules.max_message();
        let over = Standing::Nowhere;
        send(
            self.alloc,
            max,
            &mut self.table,
            &mut self.link,
            id,
            answer,
            over,
        )
    }

    fn end_at(&mut self, id: i64, place: usize) -> Result<(), ActError>
        requires { IsPlaceOf self.old id place act.End }
        ensures { AnswersAt self.old place id act.End result self.new }
    {
        let answer = Answer::Ok(eof_data(self.alloc)?);
        let max = self.rules.max_message();
        let after = Standing::Nowhere;
        send(
            self.alloc,
            max,
            &mut self.table,
            &mut self.link,
            id,
            answer,
            after,
        )
    }
}

// How many bytes of a piece a message took.
fn used_by(got: Got) -> usize
    ensures { result ≡ got.used }
{
    got.used
}
