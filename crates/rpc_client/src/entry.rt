// A call that was made: what came of it, and what was taken of that.
ghost use Rattle.std.specs.Prelude.{◌≡◌, ◌^◌, ◌≤◌, ◌++◌, ◌∷◌, [], false, IfOk, OnErr, OnOk};
ghost use Rattle.rpc_msg.specs.declared.shared.Ending.TheVariants.{Closed};
ghost use Rattle.rpc_talk.specs.Parts.{is_stream, unless_closed};
ghost use Rattle.rpc_client.specs.Tables.{call_query};
ghost use Rattle.rpc_client.specs.Rows.{abort_refusal, row_aborted, after_take, answer_taken, row_answered, ending_left, finished, is_sent, is_row_open, new_row, next_said, said_of, row_taken, row_told, took_of, with_part, with_waiting, Becomes, IsCallable, ShowsRow};

use crate::asking::{call_query, is_stream};
use crate::error::AbortError;
use crate::inbox::Inbox;
use crate::reading::{Saying, beginning, later, plain};
use bp_value::{Blob, OutOfMemory};
use rpc_msg::{Answer, CloseCause, Ending, Message, Part, Received};
use rpc_schema::{Kind, RpcDesc};
use std::alloc::Global;
use std::marker::Model;

/// How far the answers to a call have come.
#[derive(Clone, Copy, Debug, PartialEq, Eq)]
pub enum Phase {
    /// None was read.
    First,
    /// A stream has begun.
    Begun,
    /// The last was read.
    Done,
}

/// What is taken of a call.
#[derive(Debug, Drop)]
pub enum Took {
    Part(Part),
    /// No part is there, and the call goes on.
    NotYet,
    Ended(Ending),
    /// Its ending was taken.
    Over,
    /// No call has the ticket's id.
    Stranger,
}

/// A call that was made.
#[derive(Drop)]
pub struct Entry {
    id: i64,
    desc: RpcDesc,
    cut: Option<u64>,
    taken: u64,
    handed: bool,
    inbox: Inbox,
    ending: Option<Ending>,
    phase: Phase,
}

impl Model for Entry {
    ghost use Rattle.std.specs.Prelude.{length, ◌+◌, ◌^◌, ◌<◌};
    ghost use Rattle.rpc_client.specs.Rows.{Row, IsCallable};
    ghost use Rattle.bp_value.specs.contracts.shape.Shape as shape;
    ghost use Rattle.bp_value.specs.contracts.value.Sexp as sexp;
    ghost use Rattle.bp_value.specs.contracts.value.Value as value;
    ghost use Rattle.std.specs.Coded.{codes};

    ghost Value = { Row };

    ghost coded = { Prim.hlevel
        (codes, shape.the_row.coded, value.the_row.coded, sexp.the_row.coded) };

    ghost view = { λ e. record {
      id = e.id;
      desc = e.desc;
      cut = e.cut;
      taken = e.taken;
      handed = e.handed;
      waiting = e.inbox;
      ending = e.ending;
      phase = e.phase;
    } };

    ghost invariant = { λ e. IsCallable e.desc × (e.taken + length e.inbox < 2 ^ 64) };
}

impl Entry {
    /// A call that was just dispatched.
    pub fn new(alloc: Global, id: i64, desc: RpcDesc) -> Entry
        requires { IsCallable desc }
        ensures { result ≡ new_row id desc }
    {
        let ending = if desc.kind == Kind::OneWay {
            Some(Ending::Sent)
        } else {
            None
        };
        Entry {
            id,
            desc,
            cut: None,
            taken: 0,
            handed: false,
            inbox: Inbox::new(alloc),
            ending,
            phase: Phase::First,
        }
    }

    /// The id of its query and of each answer to it.
    pub fn id(&self) -> i64
        ensures { result ≡ self.now.id }
    {
        self.id
    }

    /// Whether an answer to it is waited for.
    pub fn is_unfinished(&self) -> bool
        ensures { result ≡ is_row_open self.now }
    {
        self.desc.kind != Kind::OneWay && self.phase != Phase::Done
    }

    /// Takes an answer, or tells why the client has to close.
    pub fn hear(
        &mut self,
        alloc: Global,
        answer: Answer,
        max: u64,
    ) -> Result<Option<CloseCause>, OutOfMemory>
        requires { max ≤ 2 ^ 30 }
        ensures ok { let to = row_answered max self.old answer in
            IfOk result (λ why. Becomes to self.old why self.new) }
        ensures err { OnErr result (self.new ≡ self.old) }
    {
        let stranger = CloseCause::UnknownId { id: self.id };
        if self.desc.kind == Kind::OneWay {
            return Ok(match answer {
                Answer::Ok(_) => Some(stranger),
                Answer::Error(_) => None,
            });
        }
        if self.phase == Phase::Done {
            return Ok(Some(stranger));
        }
        let saying = self.read(alloc, answer, max)?;
        self.learn(saying)
    }

    // What the next answer says.
    fn read(&self, alloc: Global, answer: Answer, max: u64) -> Result<Saying, OutOfMemory>
        requires { max ≤ 2 ^ 30 }
        ensures { IfOk result (λ s. said_of s ≡ next_said max self.now answer) }
    {
        let body = match answer {
            Answer::Ok(body) => body,
            Answer::Error(error) => return Ok(Saying::Failed(error)),
        };
        let (desc, body) = (&self.desc, body.as_slice());
        match desc.kind {
            Kind::Plain | Kind::OneWay => plain(alloc, &desc.first, body, max),
            Kind::Pipe | Kind::State => match self.phase {
                Phase::First => beginning(alloc, &desc.first, &desc.error, body, max),
                Phase::Begun | Phase::Done => later(alloc, &desc.item, body, max),
            },
        }
    }

    // Takes what an answer says.
    fn learn(&mut self, saying: Saying) -> Result<Option<CloseCause>, OutOfMemory>
        ensures ok { let to = row_told self.old (said_of saying) in
            IfOk result (λ why. Becomes to self.old why self.new) }
        ensures err { OnErr result (self.new ≡ self.old) }
    {
        let ending = match saying {
            Saying::Begun(value) => return self.add(Part::First(value)),
            Saying::Item(value) => return self.add(Part::Item(value)),
            Saying::Reply(value) => Ending::Reply(value),
            Saying::Declined(value) => Ending::Declined(value),
            Saying::Eof => Ending::Eof,
            Saying::Failed(error) => Ending::Failed(error),
            Saying::Unreadable(fault) => {
                if self.desc.kind != Kind::Plain {
                    return Ok(Some(CloseCause::BadStreamData { id: self.id, fault }));
                }
                Ending::BadReply(fault)
            }
        };
        self.finish(ending);
        Ok(None)
    }

    // A part came: it counts, unless the call was aborted.
    fn add(&mut self, part: Part) -> Result<Option<CloseCause>, OutOfMemory>
        ensures ok { IfOk result (λ why. (why ≡ None) × (self.new ≡ with_part self.old part)) }
        ensures err { OnErr result (self.new ≡ self.old) }
    {
        if self.cut.is_none() {
            self.keep(part)?;
        }
        self.phase = Phase::Begun;
        Ok(None)
    }

    // The count of parts is one number of 64 bits: no memory has room for more.
    fn keep(&mut self, part: Part) -> Result<(), OutOfMemory>
        ensures ok { let waiting = self.old.waiting ++ part ∷ [] in
            OnOk result (self.new ≡ with_waiting self.old waiting) }
        ensures err { OnErr result (self.new ≡ self.old) }
    {
        if self.inbox.len() as u64 >= u64::MAX - self.taken {
            return Err(OutOfMemory);
        }
        self.inbox.push(part)
    }

    // It is over: the ending counts, unless the call was aborted.
    fn finish(&mut self, ending: Ending)
        ensures { self.new ≡ finished self.old ending }
    {
        if self.cut.is_none() {
            self.ending = Some(ending);
        }
        self.phase = Phase::Done;
    }

    /// Takes the next part or, behind the last, the ending. That a one-way call was sent is told
    /// each time.
    pub fn take(&mut self, closed: bool) -> Took
        ensures took { result ≡ answer_taken closed self.old }
        ensures row { self.new ≡ after_take closed self.old }
    {
        if let Some(part) = self.inbox.take() {
            self.taken += 1;
            return Took::Part(part);
        }
        if self.handed {
            return Took::Over;
        }
        self.hand_out(closed)
    }

    // Hands out the ending, if there is one.
    fn hand_out(&mut self, closed: bool) -> Took
        ensures took { result ≡ took_of [] (ending_left self.old.ending closed) false }
        ensures row { self.new ≡ row_taken self.old [] (ending_left self.old.ending closed) false }
    {
        let Some(ending) = self.ending.take() else {
            if !closed {
                return Took::NotYet;
            }
            self.handed = true;
            return Took::Ended(Ending::Closed);
        };
        if is_sent(&ending) {
            self.ending = Some(Ending::Sent);
        } else {
            self.handed = true;
        }
        Took::Ended(ending)
    }

    /// What was not taken yet, unless the ending was. A call without one has that of a call whose
    /// client is closed, if it is.
    pub fn received<'a>(&'a self, closed: bool, last: &'a Ending) -> Option<Received<'a>>
        requires { last.now ≡ Closed }
        ensures { ShowsRow self.now (unless_closed closed) result }
    {
        if self.handed {
            return None;
        }
        let ending = match &self.ending {
            Some(ending) => Some(ending),
            None if closed => Some(last),
            None => None,
        };
        Some(Received {
            parts: self.inbox.as_slice(),
            ending,
        })
    }

    /// Why it cannot be aborted, if it cannot.
    pub fn abort_refusal(&self) -> Option<AbortError>
        ensures { result ≡ abort_refusal self.now }
    {
        if self.handed || self.ending.is_some() {
            return Some(AbortError::AlreadyEnded);
        }
        if !is_stream(self.desc.kind) {
            return Some(AbortError::NotStream);
        }
        if self.phase == Phase::First {
            return Some(AbortError::NotBegun);
        }
        None
    }

    /// A query of the same procedure and id, with this body.
    pub fn query(&self, alloc: Global, body: Blob) -> Result<Message, OutOfMemory>
        ensures { IfOk result (λ a. a ≡ call_query self.now.desc self.now.id body) }
    {
        call_query(alloc, &self.desc, self.id, body)
    }

    /// Drops what comes from now on.
    pub fn abort(&mut self)
        ensures { self.new ≡ row_aborted self.old }
    {
        self.cut = Some(self.taken + self.inbox.len() as u64);
        self.ending = Some(Ending::Aborted);
    }
}

// Whether it is that a one-way call was sent.
fn is_sent(ending: &Ending) -> bool
    ensures { result ≡ is_sent ending.now }
{
    matches!(ending, Ending::Sent)
}
