// A book whose dispatches are found by their labels.
ghost use Rattle.std.specs.Prelude.{◌≡◌, ◌++◌, find, length, map, take, drop, None, Some, IfOk, IfSome, MatchOption, OnErr, OnOk};
ghost use Rattle.readers.specs.Reader.{Each};
ghost use Rattle.rpc_end.specs.Ends.{after_tick, is_closed, out_count, shut, taken_out};
ghost use Rattle.rpc_end.specs.Taking.{TakesSome};
ghost use Rattle.rpc_meeting.specs.Deeds.{find_label};
ghost use Rattle.rpc_msg.specs.Limits.{AreLimits};
ghost use Rattle.rpc_msg.specs.declared.shared.CloseCause.TheVariants as cause;
ghost use Rattle.rpc_book.specs.Books.{first_book, IsSound, with_connection};
ghost use Rattle.rpc_book.specs.Calls.{IsAbortedAt, IsBooked};
ghost use Rattle.rpc_book.specs.Feeds.{IsBookFed};
ghost use Rattle.rpc_client.specs.Rows.{IsCallable};
ghost use Rattle.rpc_pair.specs.Kept.{IsKept, IsOwn};
ghost use Rattle.rpc_pair.specs.Made.{dispatches_of, has_label, made_dispatch};

use crate::labels::Labels;
use bp_value::{Blob, OutOfMemory, Value};
use rpc_book::{Book, Made};
use rpc_client::{AbortError, DispatchError};
use rpc_msg::{FeedError, Limits, Ticket};
use rpc_schema::RpcDesc;
use std::alloc::Global;
use std::marker::Model;

/// A book whose dispatches are found by their labels, without a walk over all of them.
#[derive(Drop)]
pub struct LabelledBook {
    book: Book,
    labels: Labels,
    alloc: Global,
}

impl Model for LabelledBook {
    ghost use Rattle.rpc_book.specs.Books.{BookState};
    ghost use Rattle.rpc_pair.specs.Labels.{AreLabels};
    ghost use Rattle.bp_value.specs.contracts.shape.Shape as shape;
    ghost use Rattle.bp_value.specs.contracts.value.Sexp as sexp;
    ghost use Rattle.bp_value.specs.contracts.value.Value as value;
    ghost use Rattle.std.specs.Coded.{codes};

    ghost Value = { BookState };

    ghost coded = { Prim.hlevel
        (codes, shape.the_row.coded, value.the_row.coded, sexp.the_row.coded) };

    ghost view = { λ b. b.book };

    ghost invariant = { λ b. AreLabels b.labels b.book.made };
}

impl LabelledBook {
    /// A new book. Its spans begin now.
    pub fn new(alloc: Global, limits: Limits, now: u64) -> Result<LabelledBook, OutOfMemory>
        requires { AreLimits limits }
        ensures { IfOk result (λ book. book ≡ first_book limits now) }
    {
        Ok(LabelledBook {
            book: Book::new(alloc, limits, now)?,
            labels: Labels::new(alloc),
            alloc,
        })
    }

    /// The book itself.
    pub fn as_book(&self) -> &Book
        ensures { result.now ≡ self.now }
    {
        &self.book
    }

    /// The dispatch that has the label.
    pub fn under(&self, label: &[u8]) -> Option<&Made>
        ensures found { let found = find_label label.now (dispatches_of self.now) in
            MatchOption result (found ≡ None) (λ d. found ≡ Some (made_dispatch d.now)) }
        ensures row { let found = find (has_label label.now) (map (λ d. d.made) self.now.made) in
            MatchOption result (found ≡ None) (λ d. found ≡ Some d.now) }
        ensures own { Each IsKept self.now.made → IfSome result (λ d. IsOwn d.now.desc) }
        ensures sound { IsSound self.now }
    {
        let made = self.book.made();
        let place = self.labels.place(label)?;
        made.get(place)
    }

    /// Calls a procedure under a label that no dispatch has.
    pub fn dispatch(
        &mut self,
        label: &Blob,
        desc: &RpcDesc,
        query: &Value,
    ) -> Result<Ticket, DispatchError>
        requires callable { IsCallable desc.now }
        requires free { find_label label.now (dispatches_of self.old) ≡ None }
        ensures { IsBooked self.old label.now desc.now query.now result self.new }
    {
        let copy = label.copy(self.alloc)?;
        let place = self.book.made().len();
        self.labels.set(self.alloc, label.as_slice(), place)?;
        let booked = self.book.dispatch(copy, desc, query);
        if booked.is_err() {
            self.labels.unset(label.as_slice());
        }
        booked
    }

    /// Aborts a stream that has begun.
    pub fn abort(&mut self, ticket: &Ticket) -> Result<(), AbortError>
        ensures { IsAbortedAt self.old ticket.now.id result self.new }
    {
        self.book.abort(ticket)
    }

    /// What is due at a moment.
    pub fn tick(&mut self, now: u64) -> Result<(), OutOfMemory>
        ensures ok { OnOk result
            (self.new ≡ with_connection self.old (after_tick self.old.link now)) }
        ensures err { OnErr result (self.new ≡ self.old) }
    {
        self.book.tick(now)?;
        Ok(())
    }

    /// Closes it, since the other end's stream ended, if it is not closed.
    pub fn end_of_input(&mut self)
        ensures { self.new ≡ with_connection self.old (shut self.old.link cause.EndOfInput) }
    {
        self.book.end_of_input();
    }

    /// Closes it, if it is not closed.
    pub fn close(&mut self)
        ensures { self.new ≡ with_connection self.old (shut self.old.link cause.ClosedHere) }
    {
        self.book.close();
    }

    /// Whether it is closed.
    pub fn is_closed(&self) -> bool
        ensures { result ≡ is_closed self.now.link }
    {
        self.book.cause().is_some()
    }

    /// Takes bytes of the other end, up to the end of the first whole frame.
    pub fn feed(&mut self, piece: &[u8], now: u64) -> Result<usize, FeedError>
        ensures did { IsBookFed self.old piece.now now result self.new }
        ensures some { IfOk result (TakesSome piece.now) }
    {
        self.book.feed(piece, now)
    }

    /// Moves the oldest bytes that are to go out into a buffer, as many as it has room for.
    pub fn take_out(&mut self, into: &mut [u8]) -> usize
        ensures count { result ≡ out_count (length into.old) self.old.link.output }
        ensures moved { into.new ≡ take result self.old.link.output ++ drop result into.old }
        ensures left { self.new ≡ with_connection self.old (taken_out self.old.link result) }
    {
        self.book.take_out(into)
    }
}
