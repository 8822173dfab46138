// A client with its history.
ghost use Rattle.std.specs.Prelude.{◌≡◌, ◌+◌, ◌++◌, ◌≤◌, map, length, take, drop, IfOk, MatchOption, None, OnErr, Some, vec_capacity, vec_len};
ghost use Rattle.rpc_msg.specs.declared.shared.CloseCause.TheVariants as cause;
ghost use Rattle.rpc_msg.specs.Limits.{AreLimits};
ghost use Rattle.rpc_end.specs.Ends.{after_tick, is_link_open, out_count, shut, taken_out, tick_answer, wanted_of, WouldTakeOf};
ghost use Rattle.rpc_end.specs.Taking.{TakesSome};
ghost use Rattle.rpc_client.specs.Clients.{IsClientFed};
ghost use Rattle.rpc_client.specs.Kept.{FeedsGot};
ghost use Rattle.rpc_client.specs.Rows.{IsCallable};
ghost use Rattle.rpc_client.specs.Tables.{find_row};
ghost use Rattle.rpc_book.specs.Books.{first_book, with_connection, IsSound};
ghost use Rattle.rpc_book.specs.Calls.{IsAbortedAt, IsBooked, IsReceived, IsTakenOf};
ghost use Rattle.rpc_book.specs.Feeds.{IsBookFed, SaysByItself};
ghost use Rattle.rpc_book.specs.Inside.{kept_behind, IsWaiting};

use crate::made::{Made, count_taken, cut, prepare};
use bp_value::{Blob, OutOfMemory, Value};
use rpc_client::{AbortError, Client, DispatchError, Took};
use rpc_msg::{CloseCause, FeedError, Limits, Received, Ticked, Ticket};
use rpc_schema::RpcDesc;
use std::alloc::Global;
use std::marker::Model;

/// The most bytes that a book keeps.
const JOURNAL_LIMIT: usize = 1 << 30;

/// A client, its dispatches, and the bytes that it got.
///
/// What each dispatch has received follows from the bytes and the dispatches. A call that is
/// refused leaves the book as it was.
#[derive(Drop)]
pub struct Book {
    client: Client,
    made: Vec<Made>,
    got: Vec<u8>,
    alloc: Global,
}

impl Model for Book {
    ghost use Rattle.rpc_book.specs.Books.{BookState};
    ghost use Rattle.rpc_book.specs.Inside.{book_of, IsBook};
    ghost use Rattle.bp_value.specs.contracts.shape.Shape as shape;
    ghost use Rattle.bp_value.specs.contracts.value.Sexp as sexp;
    ghost use Rattle.bp_value.specs.contracts.value.Value as value;
    ghost use Rattle.std.specs.Coded.{codes};

    ghost Value = { BookState };

    ghost coded = { Prim.hlevel
        (codes, shape.the_row.coded, value.the_row.coded, sexp.the_row.coded) };

    ghost view = { λ b. book_of b.client b.made.items b.got.items };

    ghost invariant = { λ b. IsBook b.client b.made.items b.got.items };
}

impl Book {
    /// A new book, whose client's header is the first that goes out. Its spans begin now.
    pub fn new(alloc: Global, limits: Limits, now: u64) -> Result<Book, OutOfMemory>
        requires { AreLimits limits }
        ensures { IfOk result (λ book. book ≡ first_book limits now) }
    {
        Ok(Book {
            client: Client::new(alloc, limits, now)?,
            made: Vec::new(alloc),
            got: Vec::new(alloc),
            alloc,
        })
    }

    /// Calls a procedure: its query goes out, and the dispatch is kept under the label. Where it is
    /// refused the label is let go.
    pub fn dispatch(
        &mut self,
        label: Blob,
        desc: &RpcDesc,
        query: &Value,
    ) -> Result<Ticket, DispatchError>
        requires { IsCallable desc.now }
        ensures { IsBooked self.old label desc.now query.now result self.new }
    {
        if self.client.cause().is_some() {
            return Err(DispatchError::Closed);
        }
        if !self.client.is_open() {
            return Err(DispatchError::NotOpen);
        }
        let copy = prepare(&mut self.made, self.alloc, desc)?;
        let ticket = self.client.dispatch(desc, query)?;
        self.made.push_reserved(Made {
            label,
            id: ticket.id,
            desc: copy,
            cut: None,
            taken: 0,
        });
        Ok(ticket)
    }

    /// Takes bytes of the other end, up to the end of the first whole frame, or all of the piece,
    /// and does what the message in it asks for. Where the bytes would be more than 2^30 with those
    /// that came before, none is taken, and the book closes with `JournalFull`.
    pub fn feed(&mut self, piece: &[u8], now: u64) -> Result<usize, FeedError>
        ensures did { IsBookFed self.old piece.now now result self.new }
        ensures some { IfOk result (TakesSome piece.now) }
        ensures says { SaysByItself self.old.link self.new.link }
    {
        if let Some(cause) = self.client.cause() {
            return Err(FeedError::Closed(*cause));
        }
        let count = self.client.would_take(piece);
        if count > JOURNAL_LIMIT - self.got.len() {
            let got = self.got.len() as u64;
            let full = CloseCause::JournalFull { got };
            self.client.shut(full);
            return Err(FeedError::Closed(full));
        }
        if self.got.reserve(count).is_err() {
            return Err(FeedError::OutOfMemory);
        }
        feed_kept(&mut self.client, &mut self.got, piece, now, count)
    }

    /// Takes the next part of a dispatch or, behind the last, its ending.
    pub fn take(&mut self, ticket: &Ticket) -> Took
        ensures { IsTakenOf self.old ticket.now.id result self.new }
    {
        let took = self.client.take(ticket);
        count_taken(&mut self.made, ticket.id, &took);
        took
    }

    /// What a dispatch has received and not yet handed out.
    pub fn received(&self, ticket: &Ticket) -> Option<Received<'_>>
        ensures { IsReceived self.now ticket.now.id result }
    {
        self.client.received(ticket)
    }

    /// Aborts a stream that has begun: what it has received stays, and no more of it counts.
    pub fn abort(&mut self, ticket: &Ticket) -> Result<(), AbortError>
        ensures { IsAbortedAt self.old ticket.now.id result self.new }
    {
        let waiting = count_waiting(&self.client, ticket);
        self.client.abort(ticket)?;
        cut(&mut self.made, ticket.id, waiting);
        Ok(())
    }

    /// What is due at a moment: a heartbeat, which only an open book sends, or the close of a
    /// book whose other end was silent for too long.
    pub fn tick(&mut self, now: u64) -> Result<Ticked, OutOfMemory>
        ensures ok { IfOk result (λ t. (t ≡ tick_answer self.old.link now)
            × (self.new ≡ with_connection self.old (after_tick self.old.link now))) }
        ensures err { OnErr result (self.new ≡ self.old) }
        ensures says { SaysByItself self.old.link self.new.link }
    {
        self.client.tick(now)
    }

    /// Moves the oldest bytes that are to go out into a buffer, as many as it has room for.
    pub fn take_out(&mut self, into: &mut [u8]) -> usize
        ensures count { result ≡ out_count (length into.old) self.old.link.output }
        ensures moved { into.new ≡ take result self.old.link.output ++ drop result into.old }
        ensures left { self.new ≡ with_connection self.old (taken_out self.old.link result) }
    {
        self.client.take_out(into)
    }

    /// Closes it, since the other end's stream ended, if it is not closed.
    pub fn end_of_input(&mut self)
        ensures { self.new ≡ with_connection self.old (shut self.old.link cause.EndOfInput) }
    {
        self.client.end_of_input();
    }

    /// Closes it, if it is not closed.
    pub fn close(&mut self)
        ensures { self.new ≡ with_connection self.old (shut self.old.link cause.ClosedHere) }
    {
        self.client.close();
    }

    /// Closes it for a given cause, if it is not closed.
    pub fn shut(&mut self, cause: CloseCause)
        ensures { self.new ≡ with_connection self.old (shut self.old.link cause) }
    {
        self.client.shut(cause);
    }

    /// Why it is closed.
    pub fn cause(&self) -> Option<&CloseCause>
        ensures why { let cause = self.now.link.cause in
            MatchOption result (cause ≡ None) (λ why. cause ≡ Some why.now) }
        ensures sound { IsSound self.now }
    {
        self.client.cause()
    }

    /// Whether it has read the other end's header, and is not closed.
    pub fn is_open(&self) -> bool
        ensures { result ≡ is_link_open self.now.link }
    {
        self.client.is_open()
    }

    /// How many bytes are missing to the end of a length or of a frame; none of a book that is
    /// closed.
    pub fn wants(&self) -> u64
        ensures { result ≡ wanted_of self.now.link }
    {
        self.client.wants()
    }

    /// The dispatches, in the order in which they were made.
    pub fn made(&self) -> &[Made]
        ensures made { result.now ≡ map (λ d. d.made) self.now.made }
        ensures sound { IsSound self.now }
    {
        self.made.as_slice()
    }

    /// The bytes that came.
    pub fn got(&self) -> &[u8]
        ensures got { result.now ≡ self.now.got }
        ensures sound { IsSound self.now }
    {
        self.got.as_slice()
    }
}

// Feeds a client that would take so many bytes of the piece, and keeps those that it took.
fn feed_kept(
    client: &mut Client,
    got: &mut Vec<u8>,
    piece: &[u8],
    now: u64,
    count: usize,
) -> Result<usize, FeedError>
    requires within { count ≤ length piece.now }
    requires room { vec_len got.old + count ≤ vec_capacity got.old }
    ensures did { IsClientFed client.old piece.now now result client.new }
    ensures got { FeedsGot client.old piece.now result client.new }
    ensures kept { got.new.items ≡ kept_behind got.old.items (take count piece.now) result }
    ensures some { IfOk result (TakesSome piece.now) }
{
    let fed = client.feed(piece, now);
    if let Err(FeedError::OutOfMemory) = fed {
        return fed;
    }
    let _ = got.extend_from_slice(&piece[..count]);
    fed
}

// How many parts of a dispatch were not handed out.
fn count_waiting(client: &Client, ticket: &Ticket) -> usize
    ensures { IsWaiting (find_row ticket.now.id client.now.rows) result }
{
    match client.received(ticket) {
        Some(Received { parts, ending: _ }) => parts.len(),
        None => 0,
    }
}
