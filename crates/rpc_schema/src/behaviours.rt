// What stands after the shapes of a line: nothing, or what the built-in service does.
ghost use Rattle.std.specs.Prelude.{◌≡◌, ◌≢◌, ◌↔◌, codes, List, ℕ, IfOk, IfSome, IsTrue, MatchOption};
ghost use Rattle.bp_value.specs.declared.shape.Shape.TheVariants as shp;
ghost use Rattle.bp_value.specs.Form.{form_of};
ghost use Rattle.bp_value.specs.Faults.{IsGood};
ghost use Rattle.rpc_schema.specs.declared.desc.Behaviour.{Behaviour};
ghost use Rattle.rpc_schema.specs.declared.desc.Kind.TheVariants.{Plain};
ghost use Rattle.rpc_schema.specs.Entries.{text_list, Suits};
ghost use Rattle.rpc_schema.specs.LineParts.{front_word, Lacks};
ghost use Rattle.rpc_schema.specs.LineAnswers.{TakesOne};
ghost use Rattle.rpc_schema.specs.SchemaLines.{ActPartRefused, BehaviourRefused, ConstPartRefused, DoingRefused, IsAct, IsActPart, IsBehaviour, IsConstPart, IsConstant, IsDo, IsDoing, IsTail, SpellsAct, TailRefused};

use crate::desc::{Behaviour, Kind, RpcDesc};
use crate::line::Line;
use crate::stop::Stop;
use bp_text::{TextError, read_value};
use bp_value::Shape;
use std::alloc::Global;

/// Takes the rest of a line: nothing, or `do` and a behaviour that suits.
pub fn tail(line: &mut Line, desc: &RpcDesc, alloc: Global) -> Result<Option<Behaviour>, Stop>
    requires { IsGood (form_of desc.now.first) }
    ensures takes { TakesOne (IsTail desc.now) (TailRefused desc.now) line.old line.new result }
    ensures suits { IfOk result (λ behaviour. IfSome behaviour (Suits desc.now)) }
{
    if line.is_ended() {
        line.skip_all();
        return Ok(None);
    }
    Ok(Some(doing(line, desc, alloc)?))
}

// `do` and a behaviour.
fn doing(line: &mut Line, desc: &RpcDesc, alloc: Global) -> Result<Behaviour, Stop>
    requires { IsGood (form_of desc.now.first) }
    ensures takes { TakesOne (IsDoing desc.now) (DoingRefused desc.now) line.old line.new result }
    ensures suits { IfOk result (Suits desc.now) }
{
    take_do(line)?;
    behaviour(line, desc, alloc)
}

fn take_do(line: &mut Line) -> Result<(), Stop>
    ensures { TakesOne IsDo (Lacks IsDo) line.old line.new result }
{
    let is_do = line.word() == b"do".as_slice();
    line.take_word(is_do.then_some(()))
}

fn behaviour(line: &mut Line, desc: &RpcDesc, alloc: Global) -> Result<Behaviour, Stop>
    requires { IsGood (form_of desc.now.first) }
    ensures takes { TakesOne (IsBehaviour desc.now) (BehaviourRefused desc.now)
        line.old line.new result }
    ensures suits { IfOk result (Suits desc.now) }
{
    if is_const(line.word(), desc) {
        constant_part(line, desc, alloc)
    } else {
        act_part(line, desc)
    }
}

// Whether the word is `const`, and there is an answer.
fn is_const(word: &[u8], desc: &RpcDesc) -> bool
    ensures { IsTrue result ↔ ((word.now ≡ codes "const") × (desc.now.kind ≡ Plain)) }
{
    word == b"const".as_slice() && desc.kind == Kind::Plain
}

// `const` and a value.
fn constant_part(line: &mut Line, desc: &RpcDesc, alloc: Global) -> Result<Behaviour, Stop>
    requires good { IsGood (form_of desc.now.first) }
    requires word { front_word line.old ≡ codes "const" }
    requires plain { desc.now.kind ≡ Plain }
    ensures takes { TakesOne (IsConstPart desc.now) (ConstPartRefused desc.now)
        line.old line.new result }
    ensures suits { IfOk result (Suits desc.now) }
{
    line.pass_word();
    constant(line, desc, alloc)
}

// A behaviour that has no value, to the end of the line.
fn act_part(line: &mut Line, desc: &RpcDesc) -> Result<Behaviour, Stop>
    ensures takes { TakesOne (IsActPart desc.now) (ActPartRefused desc.now)
        line.old line.new result }
    ensures suits { IfOk result (Suits desc.now) }
{
    let act = act(line, desc)?;
    line.end()?;
    Ok(act)
}

// The value that is always answered, to the end of the line.
fn constant(line: &mut Line, desc: &RpcDesc, alloc: Global) -> Result<Behaviour, Stop>
    requires good { IsGood (form_of desc.now.first) }
    requires plain { desc.now.kind ≡ Plain }
    ensures takes { TakesOne (IsConstant desc.now) (Lacks (IsConstant desc.now))
        line.old line.new result }
    ensures suits { IfOk result (Suits desc.now) }
{
    match read_value(alloc, &desc.first, line.rest()) {
        Ok(value) => {
            line.skip_all();
            Ok(Behaviour::Const(value))
        }
        Err(TextError::OutOfMemory) => Err(Stop::OutOfMemory),
        Err(TextError::BadText { .. }) => {
            line.skip_blanks();
            Err(Stop::Refused)
        }
        Err(TextError::Float { .. } | TextError::NotGood(_)) => unreachable!(),
    }
}

// A behaviour that has no value.
fn act(line: &mut Line, desc: &RpcDesc) -> Result<Behaviour, Stop>
    ensures takes { TakesOne (IsAct desc.now) (Lacks (IsAct desc.now)) line.old line.new result }
    ensures suits { IfOk result (Suits desc.now) }
{
    let act = suiting(line.word(), desc);
    line.take_word(act)
}

// The behaviour of this word, if it suits.
fn suiting(word: &[u8], desc: &RpcDesc) -> Option<Behaviour>
    ensures { MatchOption result
        ((act : Behaviour) → SpellsAct act word.now × Suits desc.now act → ⊥)
        (λ act. SpellsAct act word.now × Suits desc.now act) }
{
    match act_named(word) {
        Some(act) if suits(desc, &act) => Some(act),
        _ => None,
    }
}

fn act_named(word: &[u8]) -> Option<Behaviour>
    ensures { MatchOption result ((act : Behaviour) → SpellsAct act word.now → ⊥)
        (λ act. SpellsAct act word.now) }
{
    match word {
        b"echo" => Some(Behaviour::Echo),
        b"notes" => Some(Behaviour::Notes),
        b"note" => Some(Behaviour::Note),
        b"each" => Some(Behaviour::Each),
        b"follow" => Some(Behaviour::Follow),
        _ => None,
    }
}

// Whether a behaviour that has no value suits.
fn suits(desc: &RpcDesc, act: &Behaviour) -> bool
    ensures { (word : List ℕ) → SpellsAct act.now word → IsTrue result ↔ Suits desc.now act.now }
{
    match act {
        Behaviour::Echo => desc.kind == Kind::Plain && desc.first.is_same(&desc.query),
        Behaviour::Notes => {
            desc.kind == Kind::Plain && is_unit(&desc.query) && is_texts(&desc.first)
        }
        Behaviour::Note => desc.kind == Kind::OneWay && is_text(&desc.query),
        Behaviour::Each => desc.kind == Kind::Pipe && is_list_of(&desc.query, &desc.item),
        Behaviour::Follow => {
            desc.kind == Kind::State
                && is_unit(&desc.query)
                && is_texts(&desc.first)
                && is_text(&desc.item)
        }
        Behaviour::Const(_) => false,
    }
}

fn is_unit(shape: &Shape) -> bool
    ensures { IsTrue result ↔ (shape.now ≡ shp.Unit) }
{
    matches!(shape, Shape::Unit)
}

fn is_text(shape: &Shape) -> bool
    ensures { IsTrue result ↔ (shape.now ≡ shp.Text) }
{
    matches!(shape, Shape::Text)
}

fn is_texts(shape: &Shape) -> bool
    ensures { IsTrue result ↔ (shape.now ≡ text_list) }
{
    is_list_of(shape, &Shape::Text)
}

fn is_list_of(shape: &Shape, item: &Shape) -> bool
    ensures { IsTrue result ↔ (shape.now ≡ shp.List item.now) }
{
    match shape {
        Shape::List(part) => part.get().is_same(item),
        _ => false,
    }
}
