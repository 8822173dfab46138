// Words that stand for one thing each: the first of a line, and the ends.
ghost use Rattle.std.specs.Prelude.{◌≡◌, ◌≢◌, MatchOption};
ghost use Rattle.rpc_schema.specs.LineParts.{Lacks};
ghost use Rattle.rpc_schema.specs.LineAnswers.{TakesOne};
ghost use Rattle.rpc_schedule.specs.EventParts.{party_word, IsParty};
ghost use Rattle.rpc_schedule.specs.EventLines.{verb_word, IsVerb};
ghost use Rattle.rpc_schedule.specs.declared.words.Verb.{Verb};
ghost use Rattle.rpc_schedule.specs.declared.words.Party.{Party};

use rpc_schema::{Line, Stop};

/// The first word of an event's line, by what stands after it.
#[derive(Clone, Copy)]
pub enum Verb {
    Ask,
    Best,
    Fail,
    At,
    OfLabel(OfLabel),
    OfValue(OfValue),
    Move(Way),
    OfParty(OfParty),
}

/// A word that a label alone stands after.
#[derive(Clone, Copy)]
pub enum OfLabel {
    Menu,
    Abort,
    End,
    Show,
}

/// A word that a label and a value stand after.
#[derive(Clone, Copy)]
pub enum OfValue {
    Reply,
    Begin,
    Decline,
    Item,
}

/// Which way bytes move.
#[derive(Clone, Copy)]
pub enum Way {
    Up,
    Down,
}

/// A word that an end stands after.
#[derive(Clone, Copy)]
pub enum OfParty {
    Close,
    Eof,
}

/// One of the two ends.
#[derive(Clone, Copy)]
pub enum Party {
    Client,
    Server,
}

/// Takes the first word of an event's line.
pub fn take_verb(line: &mut Line) -> Result<Verb, Stop>
    ensures { TakesOne IsVerb (Lacks IsVerb) line.old line.new result }
{
    let verb = verb_named(line.word());
    line.take_word(verb)
}

fn verb_named(word: &[u8]) -> Option<Verb>
    ensures { MatchOption result ((verb : Verb) → word.now ≢ verb_word verb)
        (λ verb. word.now ≡ verb_word verb) }
{
    match word {
        b"ask" => Some(Verb::Ask),
        b"best" => Some(Verb::Best),
        b"fail" => Some(Verb::Fail),
        b"at" => Some(Verb::At),
        b"menu" => Some(Verb::OfLabel(OfLabel::Menu)),
        b"abort" => Some(Verb::OfLabel(OfLabel::Abort)),
        b"end" => Some(Verb::OfLabel(OfLabel::End)),
        b"show" => Some(Verb::OfLabel(OfLabel::Show)),
        b"reply" => Some(Verb::OfValue(OfValue::Reply)),
        b"begin" => Some(Verb::OfValue(OfValue::Begin)),
        b"decline" => Some(Verb::OfValue(OfValue::Decline)),
        b"item" => Some(Verb::OfValue(OfValue::Item)),
        b"up" => Some(Verb::Move(Way::Up)),
        b"down" => Some(Verb::Move(Way::Down)),
        b"close" => Some(Verb::OfParty(OfParty::Close)),
        b"eof" => Some(Verb::OfParty(OfParty::Eof)),
        _ => None,
    }
}

/// Takes the word of an end.
pub fn take_party(line: &mut Line) -> Result<Party, Stop>
    ensures { TakesOne IsParty (Lacks IsParty) line.old line.new result }
{
    let party = party_named(line.word());
    line.take_word(party)
}

fn party_named(word: &[u8]) -> Option<Party>
    ensures { MatchOption result ((party : Party) → word.now ≢ party_word party)
        (λ party. word.now ≡ party_word party) }
{
    match word {
        b"client" => Some(Party::Client),
        b"server" => Some(Party::Server),
        _ => None,
    }
}
