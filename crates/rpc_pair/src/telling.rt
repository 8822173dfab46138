// What a handler does with a query.
ghost use Rattle.std.specs.Prelude.{◌≡◌, IfOk, Some};
ghost use Rattle.bp_value.specs.Form.{form_of};
ghost use Rattle.bp_value.specs.Faults.{IsGood};
ghost use Rattle.rpc_server.specs.Acting.{IsActed};
ghost use Rattle.rpc_talk.specs.Acts as act;
ghost use Rattle.rpc_talk.specs.Parts.{is_stream, is_tracked};
ghost use Rattle.rpc_client.specs.Rows.{IsCallable};
ghost use Rattle.rpc_meeting.specs.declared.answer.StepAnswer.{StepAnswer};
ghost use Rattle.rpc_pair.specs.Asked.{ServerTells};
ghost use Rattle.rpc_pair.specs.Pairs.{Answers};
ghost use Rattle.rpc_pair.specs.Stands.{answer_as};
ghost use Rattle.rpc_pair.specs.Tellings.{act_told, told_form, is_told_of};

use crate::texts::value_of;
use bp_value::{Blob, OutOfMemory, Shape, Value};
use rpc_meeting::{Refusal, StepAnswer};
use rpc_schema::{Kind, RpcDesc};
use rpc_server::{ActError, Server};
use std::alloc::Global;

/// An act by which a handler tells a value.
#[derive(Clone, Copy, Debug, PartialEq, Eq)]
pub enum Telling {
    Reply,
    Begin,
    Decline,
    Item,
}

impl Telling {
    /// Whether it is an act on queries of this kind.
    pub fn is_of(self, kind: Kind) -> bool
        ensures { result ≡ is_told_of self kind }
    {
        match self {
            Telling::Reply => matches!(kind, Kind::Plain),
            Telling::Begin | Telling::Decline | Telling::Item => is_stream(kind),
        }
    }

    /// The shape of its value.
    pub fn shape(self, desc: &RpcDesc) -> &Shape
        requires { IsCallable desc.now }
        ensures form { form_of result.now ≡ told_form self desc.now }
        ensures good { IsGood (form_of result.now) }
    {
        match self {
            Telling::Reply | Telling::Begin => &desc.first,
            Telling::Decline => &desc.error,
            Telling::Item => &desc.item,
        }
    }

    fn tell(self, server: &mut Server, id: i64, value: &Value) -> Result<(), ActError>
        ensures did { IsActed server.old id (act_told self value.now) result server.new }
    {
        match self {
            Telling::Reply => server.reply(id, value),
            Telling::Begin => server.begin(id, value),
            Telling::Decline => server.decline(id, value),
            Telling::Item => server.item(id, value),
        }
    }
}

/// Items may follow.
pub fn is_stream(kind: Kind) -> bool
    ensures { result ≡ is_stream kind }
{
    matches!(kind, Kind::Pipe | Kind::State)
}

/// An answer is due.
pub fn is_tracked(kind: Kind) -> bool
    ensures { result ≡ is_tracked kind }
{
    !matches!(kind, Kind::OneWay)
}

/// Tells the value that a text is.
#[tactic(auto, using(crate::proofs::Keeping::acted_rules))]
pub fn tell_text(
    server: &mut Server,
    alloc: Global,
    max_message: u64,
    telling: Telling,
    id: i64,
    desc: &RpcDesc,
    text: &Blob,
) -> Result<StepAnswer, OutOfMemory>
    requires { IsCallable desc.now }
    ensures did { IfOk result (λ answer. ServerTells server.old max_message id
        (told_form telling desc.now) (act_told telling) text.now answer server.new) }
    ensures keeps { server.new.rules ≡ server.old.rules }
{
    match value_of(alloc, telling.shape(desc), text.as_slice(), max_message)? {
        Some(value) => answered(telling.tell(server, id, &value)),
        None => Ok(StepAnswer::Refused(Refusal::BadValue)),
    }
}

/// The handler fails.
#[tactic(auto, using(crate::proofs::Keeping::acted_rules))]
pub fn fail(server: &mut Server, id: i64, text: &Blob) -> Result<StepAnswer, OutOfMemory>
    ensures did { IfOk result (λ answer.
        Answers (IsActed server.old id (act.Fail text.now)) answer_as answer server.new) }
    ensures keeps { server.new.rules ≡ server.old.rules }
{
    answered(server.fail(id, text.as_slice()))
}

/// The handler ends its stream.
#[tactic(auto, using(crate::proofs::Keeping::acted_rules))]
pub fn end(server: &mut Server, id: i64) -> Result<StepAnswer, OutOfMemory>
    ensures did { IfOk result (λ answer.
        Answers (IsActed server.old id act.End) answer_as answer server.new) }
    ensures keeps { server.new.rules ≡ server.old.rules }
{
    answered(server.end(id))
}

// What came of an act.
fn answered(acted: Result<(), ActError>) -> Result<StepAnswer, OutOfMemory>
    ensures { IfOk result (λ answer. answer_as acted ≡ Some answer) }
{
    match acted {
        Ok(()) => Ok(StepAnswer::Done),
        Err(ActError::Closed) => Ok(StepAnswer::Refused(Refusal::Closed)),
        Err(ActError::NoSuch) => Ok(StepAnswer::Refused(Refusal::NoSuch)),
        Err(ActError::Stopped) => Ok(StepAnswer::Refused(Refusal::Stopped)),
        Err(ActError::WrongKind) => Ok(StepAnswer::Refused(Refusal::WrongKind)),
        Err(ActError::AlreadyBegun) => Ok(StepAnswer::Refused(Refusal::AlreadyBegun)),
        Err(ActError::NotBegun) => Ok(StepAnswer::Refused(Refusal::NotBegun)),
        Err(ActError::BadValue) => Ok(StepAnswer::Refused(Refusal::BadValue)),
        Err(ActError::TooLong { .. }) => Ok(StepAnswer::Refused(Refusal::TooLong)),
        Err(ActError::OutOfMemory) => Err(OutOfMemory),
    }
}
