// What handlers do, without the values.
ghost use Rattle.std.specs.Prelude.{◌≡◌};

use crate::error::ActError;
use crate::kinds::{is_stream, is_tracked, takes_reply};
use crate::table::Standing;
use rpc_schema::Kind;

/// An act that tells a value.
#[derive(Clone, Copy, Drop)]
pub enum Telling {
    Reply,
    Begin,
    Decline,
    Item,
}

/// Any act.
#[derive(Clone, Copy, Drop)]
pub enum Step {
    Tells(Telling),
    Fail,
    End,
}

impl Telling {
    ghost use Rattle.rpc_server.specs.Steps.{telling_after, telling_refusal, telling_suits};

    fn suits(self, kind: Kind) -> bool
        ensures { result ≡ telling_suits self kind }
    {
        match self {
            Telling::Reply => takes_reply(kind),
            Telling::Begin | Telling::Decline | Telling::Item => is_stream(kind),
        }
    }

    fn refusal(self, begun: bool) -> Option<ActError>
        ensures { result ≡ telling_refusal self begun }
    {
        match self {
            Telling::Begin | Telling::Decline if begun => Some(ActError::AlreadyBegun),
            Telling::Item if !begun => Some(ActError::NotBegun),
            _ => None,
        }
    }

    /// How a query to the entry at the place stands behind it.
    pub fn after(self, place: usize) -> Standing
        ensures { result ≡ telling_after self place }
    {
        match self {
            Telling::Reply | Telling::Decline => Standing::Nowhere,
            Telling::Begin | Telling::Item => Standing::Open { place, begun: true },
        }
    }
}

impl Step {
    ghost use Rattle.rpc_server.specs.Steps.{step_refusal, step_suits};

    fn suits(self, kind: Kind) -> bool
        ensures { result ≡ step_suits self kind }
    {
        match self {
            Step::Tells(telling) => telling.suits(kind),
            Step::Fail => is_tracked(kind),
            Step::End => is_stream(kind),
        }
    }

    /// Why it may not be done with an open query to a procedure of this kind.
    pub fn refusal(self, kind: Kind, begun: bool) -> Option<ActError>
        ensures { result ≡ step_refusal self kind begun }
    {
        if !self.suits(kind) {
            return Some(ActError::WrongKind);
        }
        match self {
            Step::Tells(telling) => telling.refusal(begun),
            Step::End if !begun => Some(ActError::NotBegun),
            _ => None,
        }
    }
}
