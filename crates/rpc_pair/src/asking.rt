// What the client does: it calls and aborts.
ghost use Rattle.std.specs.Prelude.{◌≡◌, IfOk, None};
ghost use Rattle.bp_value.specs.Form.{form_of};
ghost use Rattle.rpc_book.specs.Calls.{IsAbortedAt, IsBooked};
ghost use Rattle.rpc_meeting.specs.Deeds.{find_label};
ghost use Rattle.rpc_pair.specs.Callers.{aborted_as, dispatched_as};
ghost use Rattle.rpc_pair.specs.Pairs.{Answers};
ghost use Rattle.rpc_pair.specs.Asked.{BookAsks};
ghost use Rattle.rpc_pair.specs.Kept.{BookKeeps, IsOwn};
ghost use Rattle.rpc_pair.specs.Made.{dispatches_of};

use crate::labelled::LabelledBook;
use crate::texts::value_of;
use bp_value::{Blob, OutOfMemory, Value};
use rpc_client::{AbortError, DispatchError};
use rpc_meeting::{Refusal, StepAnswer};
use rpc_msg::Ticket;
use rpc_schema::RpcDesc;
use std::alloc::Global;

/// Calls a procedure with the value that a text is, under a label that no dispatch has.
pub fn call_text(
    book: &mut LabelledBook,
    alloc: Global,
    max_message: u64,
    label: &Blob,
    desc: &RpcDesc,
    text: &Blob,
) -> Result<StepAnswer, OutOfMemory>
    requires own { IsOwn desc.now }
    requires free { find_label label.now (dispatches_of book.old) ≡ None }
    ensures did { IfOk result (λ answer.
        BookAsks book.old max_message label.now desc.now text.now answer book.new) }
    ensures keeps { BookKeeps book.old book.new }
{
    match value_of(alloc, &desc.query, text.as_slice(), max_message)? {
        Some(value) => call(book, label, desc, &value),
        None => Ok(StepAnswer::Refused(Refusal::BadValue)),
    }
}

/// Calls a procedure under a label that no dispatch has.
#[tactic(auto, using(crate::proofs::Keeping::booked_keeps))]
pub fn call(
    book: &mut LabelledBook,
    label: &Blob,
    desc: &RpcDesc,
    query: &Value,
) -> Result<StepAnswer, OutOfMemory>
    requires own { IsOwn desc.now }
    requires free { find_label label.now (dispatches_of book.old) ≡ None }
    ensures did { IfOk result (λ answer. Answers (IsBooked book.old label.now desc.now query.now)
        dispatched_as answer book.new) }
    ensures keeps { BookKeeps book.old book.new }
{
    match book.dispatch(label, desc, query) {
        Ok(_) => Ok(StepAnswer::Done),
        Err(DispatchError::Closed) => Ok(StepAnswer::Refused(Refusal::Closed)),
        Err(DispatchError::NotOpen) => Ok(StepAnswer::Refused(Refusal::NotOpen)),
        Err(DispatchError::BadValue) => Ok(StepAnswer::Refused(Refusal::BadValue)),
        Err(DispatchError::TooLong { .. }) => Ok(StepAnswer::Refused(Refusal::TooLong)),
        Err(DispatchError::TooManyOpen { .. }) => Ok(StepAnswer::Refused(Refusal::TooManyOpen)),
        Err(DispatchError::IdsSpent { .. }) => Ok(StepAnswer::Refused(Refusal::IdsSpent)),
        Err(DispatchError::OutOfMemory) => Err(OutOfMemory),
    }
}

/// Aborts a dispatch.
#[tactic(auto, using(crate::proofs::Keeping::aborted_keeps))]
pub fn abort(book: &mut LabelledBook, id: i64) -> Result<StepAnswer, OutOfMemory>
    ensures did { IfOk result (λ answer.
        Answers (IsAbortedAt book.old id) aborted_as answer book.new) }
    ensures keeps { BookKeeps book.old book.new }
{
    match book.abort(&Ticket { id }) {
        Ok(()) => Ok(StepAnswer::Done),
        Err(AbortError::Closed) => Ok(StepAnswer::Refused(Refusal::Closed)),
        Err(AbortError::Stranger) => Ok(StepAnswer::Refused(Refusal::NoSuchLabel)),
        Err(AbortError::AlreadyEnded) => Ok(StepAnswer::Refused(Refusal::AlreadyEnded)),
        Err(AbortError::NotStream) => Ok(StepAnswer::Refused(Refusal::NotStream)),
        Err(AbortError::NotBegun) => Ok(StepAnswer::Refused(Refusal::NotBegun)),
        Err(AbortError::OutOfMemory) => Err(OutOfMemory),
    }
}
