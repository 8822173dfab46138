// The calling end.
ghost use Rattle.std.specs.Prelude.{◌≡◌, [], ◌++◌, ◌≤◌, ◌^◌, length, take, drop, true, IfErr, IfOk, MatchOption, None, OnErr, OnOk, Some};
ghost use Rattle.rpc_msg.specs.declared.shared.CloseCause.TheVariants as cause;
ghost use Rattle.rpc_msg.specs.Limits.{AreLimits};
ghost use Rattle.rpc_talk.specs.Acts.{is_short};
ghost use Rattle.rpc_end.specs.Ends.{after_tick, is_closed, is_link_open, out_count, shut, taken_out, tick_answer, wanted_of, WouldTakeOf};
ghost use Rattle.rpc_end.specs.Taking.{CanPutBack, TakesSome};
ghost use Rattle.rpc_client.specs.Rows.{IsCallable};
ghost use Rattle.rpc_client.specs.Tables.{next_call_id, next_number};
ghost use Rattle.rpc_client.specs.Kept.{FeedsGot, HasGot, KeepsGot, TakesHeld, ReceivesHeld};
ghost use Rattle.rpc_client.specs.Clients.{closed_for, fed, first_client, hearing, next_query, with_call, with_hearing, with_link, CanAsk, IsAborted, IsDispatched, IsClientFed, IsLong, ShowsCall, IsRoom, TakesCall, TakesIn};

use crate::asking::{call_query, is_short_query, no_procedure, query_data};
use crate::calls::Calls;
use crate::entry::Took;
use crate::error::{AbortError, DispatchError};
use bp_value::{OutOfMemory, Value, fits};
use rpc_end::{End, Got, Next};
use rpc_msg::{CloseCause, Ending, FeedError, Limits, Message, Received, Ticked, Ticket};
use rpc_schema::{Kind, RpcDesc};
use std::alloc::Global;
use std::marker::Model;

/// The greatest id of a call.
const LAST_ID: i64 = 1 << 61;

/// The calling end of a connection.
///
/// It owns no socket, clock or thread: bytes of the other end are fed to it, in pieces of any size,
/// and those that are to go out are taken out of it.
#[derive(Drop)]
pub struct Client {
    limits: Limits,
    calls: Calls,
    link: End,
    /// How a call ends when its client is closed.
    closed: Ending,
    alloc: Global,
}

impl Model for Client {
    ghost use Rattle.std.specs.Prelude.{◌≡◌};
    ghost use Rattle.rpc_msg.specs.declared.shared.Ending.TheVariants as ending;
    ghost use Rattle.rpc_client.specs.Clients.{ClientState, IsClient};
    ghost use Rattle.bp_value.specs.contracts.shape.Shape as shape;
    ghost use Rattle.bp_value.specs.contracts.value.Sexp as sexp;
    ghost use Rattle.bp_value.specs.contracts.value.Value as value;
    ghost use Rattle.std.specs.Coded.{codes};

    ghost Value = { ClientState };

    ghost coded = { Prim.hlevel
        (codes, shape.the_row.coded, value.the_row.coded, sexp.the_row.coded) };

    ghost view = { λ c. record { limits = c.limits; rows = c.calls; link = c.link } };

    ghost invariant = { λ c. IsClient c.limits c.calls c.link × (c.closed ≡ ending.Closed) };
}

impl Client {
    /// A new client, whose header is the first that goes out. Its spans begin now.
    pub fn new(alloc: Global, limits: Limits, now: u64) -> Result<Client, OutOfMemory>
        requires { AreLimits limits }
        ensures new { IfOk result (λ client. client ≡ first_client limits now) }
        ensures got { IfOk result (λ client. HasGot client []) }
    {
        let link = End::new(alloc, limits, now)?;
        Ok(Client {
            limits,
            calls: Calls::new(alloc),
            link,
            closed: Ending::Closed,
            alloc,
        })
    }

    /// Calls a procedure: its query goes out.
    pub fn dispatch(&mut self, desc: &RpcDesc, query: &Value) -> Result<Ticket, DispatchError>
        requires { IsCallable desc.now }
        ensures did { IsDispatched self.old desc.now query.now result self.new }
        ensures got { KeepsGot self.old self.new }
    {
        self.call(desc, query)
    }

    // The same, whatever bytes came.
    fn call(&mut self, desc: &RpcDesc, query: &Value) -> Result<Ticket, DispatchError>
        requires { IsCallable desc.now }
        ensures { IsDispatched self.old desc.now query.now result self.new }
    {
        if self.link.cause().is_some() {
            return Err(DispatchError::Closed);
        }
        if !self.link.is_open() {
            return Err(DispatchError::NotOpen);
        }
        if !fits(&desc.query, query, self.limits.max_message) {
            return Err(DispatchError::BadValue);
        }
        let message = self.ask(desc, query)?;
        self.check(desc)?;
        Ok(self.send(desc, &message)?)
    }

    /// Takes bytes of the other end, up to the end of the first whole frame, or all of the piece,
    /// and does what the message in it asks for.
    pub fn feed(&mut self, piece: &[u8], now: u64) -> Result<usize, FeedError>
        ensures did { IsClientFed self.old piece.now now result self.new }
        ensures got { FeedsGot self.old piece.now result self.new }
        ensures some { IfOk result (TakesSome piece.now) }
    {
        self.step(piece, now)
    }

    // The same, whatever bytes came before.
    fn step(&mut self, piece: &[u8], now: u64) -> Result<usize, FeedError>
        ensures did { IsClientFed self.old piece.now now result self.new }
        ensures some { IfOk result (TakesSome piece.now) }
    {
        match self.link.next(piece, now) {
            Ok(Next::Part { used }) => Ok(used),
            Ok(Next::Message(got)) => self.take_in(got, now),
            Err(error) => Err(error),
        }
    }

    // The message of the next call.
    fn ask(&self, desc: &RpcDesc, query: &Value) -> Result<Message, DispatchError>
        requires callable { IsCallable desc.now }
        requires asked { CanAsk self.now desc.now query.now }
        ensures ok { IfOk result (λ a. (a ≡ next_query self.now desc.now query.now)
            × (is_short self.now.limits.max_message a ≡ true)) }
        ensures err { IfErr result (IsLong self.now desc.now query.now) }
    {
        let max = self.limits.max_message;
        let data = query_data(self.alloc, desc, query, max)?;
        let message = call_query(self.alloc, desc, self.calls.next_id(desc.kind), data)?;
        if !is_short_query(&message, max) {
            return Err(DispatchError::TooLong { max });
        }
        Ok(message)
    }

    // Whether there is room for one more call, and an id.
    fn check(&self, desc: &RpcDesc) -> Result<(), DispatchError>
        ensures { IsRoom self.now desc.now result }
    {
        let limit = self.limits.max_open;
        if desc.kind != Kind::OneWay && self.calls.waited_for() >= limit as usize {
            return Err(DispatchError::TooManyOpen { count: limit });
        }
        let next = self.calls.next_id(desc.kind);
        if next > LAST_ID {
            return Err(DispatchError::IdsSpent { next });
        }
        Ok(())
    }

    // Has the query of a call go out, and keeps the call.
    fn send(&mut self, desc: &RpcDesc, query: &Message) -> Result<Ticket, OutOfMemory>
        requires callable { IsCallable desc.now }
        requires few { next_number desc.now.kind self.old.rows ≤ 2 ^ 61 }
        ensures ok { IfOk result (λ ticket. (ticket.id ≡ next_call_id desc.now.kind self.old.rows)
            × (self.new ≡ with_call self.old desc.now query.now)) }
        ensures err { OnErr result (self.new ≡ self.old) }
    {
        let id = self.calls.next_id(desc.kind);
        let desc = desc.copy(self.alloc)?;
        self.calls.add(id, desc, query, &mut self.link)?;
        Ok(Ticket { id })
    }

    // Does what a message that came asks for.
    fn take_in(&mut self, got: Got, now: u64) -> Result<usize, FeedError>
        requires back { CanPutBack self.old.link got.body got.used }
        requires greeted { self.old.link.greeted ≡ true }
        ensures { TakesIn self.old got now result self.new }
    {
        let Got {
            used,
            place,
            body,
            message,
        } = got;
        match self.hear(message) {
            Ok(cause) => {
                self.link.heard(now);
                self.settle(cause, used)
            }
            Err(OutOfMemory) => {
                self.link.undo(Got {
                    used,
                    place,
                    body,
                    message: Message::Heartbeat,
                });
                Err(FeedError::OutOfMemory)
            }
        }
    }

    // Closes it, if a message was at fault.
    fn settle(&mut self, cause: Option<CloseCause>, used: usize) -> Result<usize, FeedError>
        ensures answer { result ≡ fed used cause }
        ensures state { self.new ≡ with_link self.old (closed_for self.old.link cause) }
    {
        match cause {
            Some(cause) => {
                self.link.shut(cause);
                Err(FeedError::Closed(cause))
            }
            None => Ok(used),
        }
    }

    // What a message does to the calls, and why it closes the client, if it does.
    fn hear(&mut self, message: Message) -> Result<Option<CloseCause>, OutOfMemory>
        ensures ok { let h = hearing self.old.limits.max_message self.old.rows message in
            IfOk result (λ why. (why ≡ h.cause) × (self.new ≡ with_hearing self.old h)) }
        ensures err { OnErr result (self.new ≡ self.old) }
    {
        let max = self.limits.max_message;
        match message {
            Message::Heartbeat => Ok(None),
            Message::Query(query) => {
                let answer = no_procedure(self.alloc, query, max)?;
                self.link.say(&answer)?;
                Ok(None)
            }
            Message::Response(response) => self.calls.hear(response, max),
        }
    }

    /// How many bytes of a piece a feed would take, if memory does not run out; none of a client
    /// that is closed.
    pub fn would_take(&self, piece: &[u8]) -> usize
        ensures { WouldTakeOf self.now.link piece.now self.now.link.cause result }
    {
        self.link.would_take(piece)
    }

    /// How many bytes are missing to the end of a length or of a frame; none of a client that is
    /// closed.
    pub fn wants(&self) -> u64
        ensures { result ≡ wanted_of self.now.link }
    {
        self.link.wants()
    }

    /// Takes the next part of a call or, behind the last, its ending.
    pub fn take(&mut self, ticket: &Ticket) -> Took
        ensures did { TakesCall self.old ticket.now.id result self.new }
        ensures held { TakesHeld self.old ticket.now.id result }
        ensures got { KeepsGot self.old self.new }
    {
        let closed = self.link.cause().is_some();
        self.calls.take(ticket.id, closed)
    }

    /// What a call has received and not yet handed out.
    pub fn received(&self, ticket: &Ticket) -> Option<Received<'_>>
        ensures did { ShowsCall self.now ticket.now.id result }
        ensures held { ReceivesHeld self.now ticket.now.id result }
    {
        let closed = self.link.cause().is_some();
        self.calls.received(ticket.id, closed, &self.closed)
    }

    /// Aborts a stream that has begun: nothing more of it is kept.
    pub fn abort(&mut self, ticket: &Ticket) -> Result<(), AbortError>
        ensures did { IsAborted self.old ticket.now.id result self.new }
        ensures got { KeepsGot self.old self.new }
    {
        self.cut(ticket.id)
    }

    // The same, whatever bytes came.
    fn cut(&mut self, id: i64) -> Result<(), AbortError>
        ensures { IsAborted self.old id result self.new }
    {
        if self.link.cause().is_some() {
            return Err(AbortError::Closed);
        }
        self.calls.abort(id, &mut self.link)
    }

    /// What is due at a moment: a heartbeat, which only an open client sends, or the close of a
    /// client whose other end was silent for too long.
    pub fn tick(&mut self, now: u64) -> Result<Ticked, OutOfMemory>
        ensures ok { IfOk result (λ t. (t ≡ tick_answer self.old.link now)
            × (self.new ≡ with_link self.old (after_tick self.old.link now))) }
        ensures err { OnErr result (self.new ≡ self.old) }
        ensures got { KeepsGot self.old self.new }
    {
        self.link.tick(now)
    }

    /// Moves the oldest bytes that are to go out into a buffer, as many as it has room for.
    pub fn take_out(&mut self, into: &mut [u8]) -> usize
        ensures count { result ≡ out_count (length into.old) self.old.link.output }
        ensures moved { into.new ≡ take result self.old.link.output ++ drop result into.old }
        ensures left { self.new ≡ with_link self.old (taken_out self.old.link result) }
        ensures got { KeepsGot self.old self.new }
    {
        self.link.take_out(into)
    }

    /// Closes it, since the other end's stream ended, if it is not closed.
    pub fn end_of_input(&mut self)
        ensures did { self.new ≡ with_link self.old (shut self.old.link cause.EndOfInput) }
        ensures got { KeepsGot self.old self.new }
    {
        self.link.shut(CloseCause::EndOfInput);
    }

    /// Closes it, if it is not closed.
    pub fn close(&mut self)
        ensures did { self.new ≡ with_link self.old (shut self.old.link cause.ClosedHere) }
        ensures got { KeepsGot self.old self.new }
    {
        self.link.shut(CloseCause::ClosedHere);
    }

    /// Closes it for a given cause, if it is not closed.
    pub fn shut(&mut self, cause: CloseCause)
        ensures did { self.new ≡ with_link self.old (shut self.old.link cause) }
        ensures got { KeepsGot self.old self.new }
    {
        self.link.shut(cause);
    }

    /// Why it is closed.
    pub fn cause(&self) -> Option<&CloseCause>
        ensures { let cause = self.now.link.cause in
            MatchOption result (cause ≡ None) (λ why. cause ≡ Some why.now) }
    {
        self.link.cause()
    }

    /// Whether it has read the other end's header, and is not closed.
    pub fn is_open(&self) -> bool
        ensures { result ≡ is_link_open self.now.link }
    {
        self.link.is_open()
    }
}
