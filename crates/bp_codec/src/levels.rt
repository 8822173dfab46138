// What is open while a value is read: a level for each value that has others in it.

ghost use Rattle.std.specs.Prelude.{◌≡◌, ◌^◌, ◌<◌, map, IfOk, IfErr, OnOk};
ghost use Rattle.bp_codec.specs.Levels.{advanced, last_of, made, next_of, reach_of, sexp_of, FillsOne};

use crate::stop::Stop;
use bp_value::{Blob, Boxed, Listed, Sexp, Value};
use std::alloc::Global;

/// What a level still reads before it makes its value.
#[derive(Clone, Copy)]
pub enum Left {
    /// So many values of one node.
    Items { node: usize, count: usize },
    /// The values of so many nodes that stand side by side.
    Parts { first: usize, count: usize },
    /// So many S-expressions, each at most so deep.
    Sexps { depth: u32, count: usize },
}

/// What a level makes of its values.
#[derive(Clone, Copy)]
pub enum Makes {
    /// The one value itself.
    Alone,
    /// The value of an option.
    Present,
    Items,
    Parts,
    /// The case at a place.
    Case(u32),
    /// A list of S-expressions.
    Sexp,
}

/// What a level reads next.
#[derive(Clone, Copy)]
pub enum Next {
    Nothing,
    /// A value of a node.
    Node(usize),
    /// An S-expression that is at most so deep.
    Sexp(u32),
}

/// A value that has others in it, while they are read.
#[derive(Drop)]
pub struct Level {
    pub left: Left,
    pub makes: Makes,
    pub values: Vec<Value>,
}

impl Left {
    /// What is read next.
    pub fn next(self) -> Next
        ensures { result ≡ next_of self }
    {
        match self {
            Left::Items { count: 0, .. }
            | Left::Parts { count: 0, .. }
            | Left::Sexps { count: 0, .. } => Next::Nothing,
            Left::Items { node, .. } => Next::Node(node),
            Left::Parts { first, .. } => Next::Node(first),
            Left::Sexps { depth, .. } => Next::Sexp(depth),
        }
    }

    /// What is left after the next.
    pub fn after_next(self) -> Left
        requires { reach_of self < 2 ^ 64 }
        ensures { result ≡ advanced self }
    {
        match self {
            Left::Items { node, count } => Left::Items {
                node,
                count: count.saturating_sub(1),
            },
            Left::Parts { count: 0, .. } => self,
            Left::Parts { first, count } => Left::Parts {
                first: first + 1,
                count: count - 1,
            },
            Left::Sexps { depth, count } => Left::Sexps {
                depth,
                count: count.saturating_sub(1),
            },
        }
    }
}

impl Level {
    /// Takes the value that comes next.
    pub fn put(&mut self, value: Value) -> Result<(), Stop>
        requires { reach_of self.old.left < 2 ^ 64 }
        ensures ok { OnOk result (FillsOne self.old value self.new) }
        ensures only { IfErr result (λ error. error ≡ Stop.OutOfMemory) }
    {
        self.values.push(value)?;
        self.left = self.left.after_next();
        Ok(())
    }
}

impl Makes {
    /// The value that is made of all values of a level.
    pub fn value(self, alloc: Global, values: Vec<Value>) -> Result<Value, Stop>
        ensures ok { IfOk result (λ value. value ≡ made self values.items) }
        ensures only { IfErr result (λ error. error ≡ Stop.OutOfMemory) }
    {
        match self {
            Makes::Alone => Ok(alone(values)),
            Makes::Present => Ok(Value::Present(Boxed::new(alloc, alone(values))?)),
            Makes::Items => Ok(Value::Items(Listed::from_vec(values))),
            Makes::Parts => Ok(Value::Parts(Listed::from_vec(values))),
            Makes::Case(place) => Ok(Value::Case {
                place,
                args: Listed::from_vec(values),
            }),
            Makes::Sexp => Ok(Value::Sexp(Sexp::List(Listed::from_vec(sexps(alloc, values)?)))),
        }
    }
}

// The last value, which is the only one where a level has one.
fn alone(mut values: Vec<Value>) -> Value
    ensures { result ≡ last_of values.items }
{
    match values.pop() {
        Some(value) => value,
        None => Value::Unit,
    }
}

// The S-expressions of values.
fn sexps(alloc: Global, values: Vec<Value>) -> Result<Vec<Sexp>, Stop>
    ensures ok { IfOk result (λ all. all.items ≡ map sexp_of values.items) }
    ensures only { IfErr result (λ error. error ≡ Stop.OutOfMemory) }
{
    let mut all = Vec::with_capacity(alloc, values.len())?;
    for value in values {
        let sexp = sexp_of_value(alloc, value);
        all.push(sexp)?;
    }
    Ok(all)
}

// The S-expression of a value; an empty atom where it has none.
fn sexp_of_value(alloc: Global, value: Value) -> Sexp
    ensures { result ≡ sexp_of value }
{
    match value {
        Value::Sexp(sexp) => sexp,
        _ => Sexp::Atom(Blob::from_vec(Vec::new(alloc))),
    }
}
