// An end of a connection: bytes in, bytes out, moments, and its close.
ghost use Rattle.std.specs.Prelude.{◌≡◌, ℕ, ◌++◌, length, take, drop, true, false, IfOk, OnErr, OnOk, Some, None, MatchOption};
ghost use Rattle.rpc_end.specs.Ends.{first_end, heard, is_link_open, out_count, said, shut, closed_by};
ghost use Rattle.rpc_end.specs.Ends.{after_tick, taken_out, tick_answer, wanted_of, WouldTakeOf};
ghost use Rattle.rpc_end.specs.Taking.{next_used, put_back, taken_back, CanPutBack, IsNextOf, IsReadNext, TakesBytes, TakesSome};
ghost use Rattle.rpc_msg.specs.Limits.{AreLimits};

use crate::output::Output;
use crate::places::placed;
use crate::reading::{has_one, header_in, message_in};
use bp_value::{Blob, OutOfMemory};
use rpc_frame::{Fed, FrameError, FrameReader};
use rpc_msg::{Beat, BeatAct, CloseCause, FeedError, Limits, Message, MsgError, Ticked};
use std::alloc::Global;
use std::marker::Model;

/// The bytes of a frame in front of its body.
const HEAD: u64 = 8;

/// The versions of the protocol that an end speaks, as the body of its header: 1 alone.
const HEADER: [u8; 2] = [1, 1];

/// An end of a connection, as far as it does not matter whether it calls or answers.
#[derive(Drop)]
pub struct End {
    max: u64,
    reader: FrameReader,
    start: u64,
    greeted: bool,
    beat: Beat,
    cause: Option<CloseCause>,
    output: Output,
    alloc: Global,
}

impl Model for End {
    ghost use Rattle.std.specs.Prelude.{◌≡◌};
    ghost use Rattle.rpc_end.specs.Ends.{EndState, IsEnd};

    ghost Value = { EndState };

    ghost view = { λ e. record {
      max = e.reader.max;
      held = e.reader.held;
      place = e.reader.place;
      start = e.start;
      greeted = e.greeted;
      beat = e.beat;
      cause = e.cause;
      output = e.output;
    } };

    ghost invariant = { λ e. (e.max ≡ e.reader.max)
        × IsEnd e.reader.max e.reader.held e.start e.greeted e.cause e.reader.failed };
}

/// A message that came, and what it takes to give its bytes back.
#[derive(Debug, Drop)]
pub struct Got {
    /// How many bytes of the piece were taken.
    pub used: usize,
    /// The place in the stream before them.
    pub place: u64,
    /// The bytes of its body.
    pub body: Blob,
    pub message: Message,
}

/// What an end took of a piece.
#[derive(Debug, Drop)]
pub enum Next {
    /// So many bytes: all of the piece, in which no frame ended, or those of the header.
    Part { used: usize },
    /// The bytes up to the end of a message.
    Message(Got),
}

impl End {
    /// A new end, which opens with its header. Its spans begin now.
    pub fn new(alloc: Global, limits: Limits, now: u64) -> Result<End, OutOfMemory>
        requires { AreLimits limits }
        ensures { IfOk result (λ e. e ≡ first_end limits now) }
    {
        let mut output = Output::new(alloc);
        output.put(&HEADER)?;
        Ok(End {
            max: limits.max_message,
            reader: FrameReader::new(alloc, limits.max_message),
            start: 0,
            greeted: false,
            beat: Beat::new(limits.beat_every, limits.beat_timeout, now),
            cause: None,
            output,
            alloc,
        })
    }

    /// Takes bytes up to the end of the first whole frame, or all of the piece, and reads the
    /// frame: the header first, and then a message. The end is not moved behind a message before
    /// [`heard`](End::heard) is called for it.
    pub fn next(&mut self, piece: &[u8], now: u64) -> Result<Next, FeedError>
        ensures took { IsNextOf self.old piece.now now result self.new }
        ensures some { IfOk result (λ next. TakesSome piece.now (next_used next)) }
    {
        if let Some(cause) = self.cause {
            return Err(FeedError::Closed(cause));
        }
        let place = self.reader.place();
        let fed = match self.take(piece) {
            Ok(fed) => fed,
            Err(error) => return Err(error),
        };
        let used = fed.used;
        match fed.frame {
            None => Ok(Next::Part { used }),
            Some(body) => self.read(body, used, place, now),
        }
    }

    /// A message that came was dealt with.
    pub fn heard(&mut self, now: u64)
        requires { self.old.greeted ≡ true }
        ensures { self.new ≡ heard self.old now }
    {
        self.start = self.reader.place();
        self.beat.heard(now);
    }

    /// Gives the bytes of a message back, which are taken again when they are fed again.
    pub fn undo(&mut self, got: Got)
        requires { CanPutBack self.old got.body got.used }
        ensures { self.new ≡ taken_back self.old got }
    {
        self.put_back(got.body, got.used, got.place);
    }

    /// Has the frame of a message go out.
    pub fn say(&mut self, message: &Message) -> Result<(), OutOfMemory>
        ensures ok { OnOk result (self.new ≡ said self.old message.now) }
        ensures err { OnErr result (self.new ≡ self.old) }
    {
        self.output.say(message)
    }

    /// Moves the oldest bytes that are to go out into a buffer, as many as it has room for.
    pub fn take_out(&mut self, into: &mut [u8]) -> usize
        ensures count { result ≡ out_count (length into.old) self.old.output }
        ensures moved { into.new ≡ take result self.old.output ++ drop result into.old }
        ensures left { self.new ≡ taken_out self.old result }
    {
        self.output.take_out(into)
    }

    /// Closes it, if it is not closed.
    pub fn shut(&mut self, cause: CloseCause)
        ensures { self.new ≡ shut self.old cause }
    {
        if self.cause.is_none() {
            self.cause = Some(cause);
        }
    }

    /// Why it is closed.
    pub fn cause(&self) -> Option<&CloseCause>
        ensures { MatchOption result
            (self.now.cause ≡ None)
            (λ why. self.now.cause ≡ Some why.now) }
    {
        self.cause.as_ref()
    }

    /// Whether it has read a header, and is not closed.
    pub fn is_open(&self) -> bool
        ensures { result ≡ is_link_open self.now }
    {
        self.greeted && self.cause.is_none()
    }

    /// What is due at a moment: a heartbeat, which only an open end sends, or the close of an end
    /// whose other end was silent for too long.
    pub fn tick(&mut self, now: u64) -> Result<Ticked, OutOfMemory>
        ensures ok { IfOk result (λ t.
            (t ≡ tick_answer self.old now) × (self.new ≡ after_tick self.old now)) }
        ensures err { OnErr result (self.new ≡ self.old) }
    {
        if self.cause.is_some() {
            return Ok(Ticked::Closed);
        }
        let open = self.is_open();
        match self.beat.due(now, open) {
            BeatAct::Quiet => {
                self.beat.tick(now, open);
                Ok(Ticked::Quiet)
            }
            BeatAct::Send => {
                self.output.say(&Message::Heartbeat)?;
                self.beat.tick(now, open);
                Ok(Ticked::Sent)
            }
            BeatAct::Late { last, now: at } => {
                self.beat.tick(now, open);
                self.cause = Some(CloseCause::Late { last, now: at });
                Ok(Ticked::Late { last, now: at })
            }
        }
    }

    /// How many bytes are missing to the end of a length or of a frame; none once it is closed.
    pub fn wants(&self) -> u64
        ensures { result ≡ wanted_of self.now }
    {
        if self.cause.is_some() {
            return 0;
        }
        self.reader.wants()
    }

    /// How many bytes of a piece would be taken, if memory does not run out.
    pub fn would_take(&self, piece: &[u8]) -> usize
        ensures { WouldTakeOf self.now piece.now self.now.cause result }
    {
        if self.cause.is_some() {
            return 0;
        }
        self.reader.would_take(piece)
    }

    // Takes bytes of a piece, and closes it where they make a length too long.
    fn take(&mut self, piece: &[u8]) -> Result<Fed, FeedError>
        requires { self.old.cause ≡ None }
        ensures { TakesBytes self.old piece.now result self.new }
    {
        match self.reader.feed(piece) {
            Ok(fed) => Ok(fed),
            Err(FrameError::TooLong { at }) => {
                let cause = CloseCause::BadFrame { at };
                self.cause = Some(cause);
                Err(FeedError::Closed(cause))
            }
            Err(FrameError::OutOfMemory) => Err(FeedError::OutOfMemory),
            Err(FrameError::Failed { .. }) => unreachable!(),
        }
    }

    fn close(&mut self, cause: CloseCause) -> FeedError
        ensures state { self.new ≡ closed_by self.old cause }
        ensures error { result ≡ FeedError.Closed cause }
    {
        self.cause = Some(cause);
        FeedError::Closed(cause)
    }

    fn put_back(&mut self, body: Blob, used: usize, place: u64)
        requires { CanPutBack self.old body used }
        ensures { self.new ≡ put_back self.old body used place }
    {
        self.reader.undo(body, used, place);
    }

    // Reads the body of a frame.
    fn read(&mut self, body: Blob, used: usize, place: u64, now: u64) -> Result<Next, FeedError>
        requires { CanPutBack self.old body used }
        ensures { IsReadNext self.old body used place now result self.new }
    {
        if self.greeted {
            self.message(body, used, place)
        } else {
            self.greet(body, used, place, now)
        }
    }

    // Reads the body of the first frame.
    fn greet(&mut self, body: Blob, used: usize, place: u64, now: u64) -> Result<Next, FeedError>
        requires back { CanPutBack self.old body used }
        requires first { self.old.greeted ≡ false }
        ensures { IsReadNext self.old body used place now result self.new }
    {
        match header_in(self.alloc, body.as_slice(), self.max) {
            Ok(header) => {
                if !has_one(&header) {
                    return Err(self.close(CloseCause::NoCommonProtocol));
                }
                self.greeted = true;
                self.heard(now);
                Ok(Next::Part { used })
            }
            Err(MsgError::Fault(fault)) => {
                Err(self.close(CloseCause::BadHeader(placed(fault, HEAD))))
            }
            Err(MsgError::OutOfMemory) => {
                self.put_back(body, used, place);
                Err(FeedError::OutOfMemory)
            }
        }
    }

    // Reads the body of a later frame.
    fn message(&mut self, body: Blob, used: usize, place: u64) -> Result<Next, FeedError>
        requires back { CanPutBack self.old body used }
        requires later { self.old.greeted ≡ true }
        ensures { (now : ℕ) → IsReadNext self.old body used place now result self.new }
    {
        match message_in(self.alloc, body.as_slice(), self.max) {
            Ok(message) => Ok(Next::Message(Got {
                used,
                place,
                body,
                message,
            })),
            Err(MsgError::Fault(fault)) => {
                let start = self.start.saturating_add(HEAD);
                Err(self.close(CloseCause::BadMessage(placed(fault, start))))
            }
            Err(MsgError::OutOfMemory) => {
                self.put_back(body, used, place);
                Err(FeedError::OutOfMemory)
            }
        }
    }
}
