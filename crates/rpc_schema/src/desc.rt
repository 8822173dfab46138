use bp_value::{Blob, Listed, Shape, Value};

/// How a procedure is called, and what it answers.
#[derive(Clone, Copy, Debug, PartialEq, Eq)]
pub enum Kind {
    /// One query, one answer.
    Plain,
    /// One query, and no answer.
    OneWay,
    /// One query, and then items until the end.
    Pipe,
    /// One query, a state, and then items until the end.
    State,
}

/// What is known of a remote procedure: all that a call of it needs.
#[derive(Debug, Drop)]
pub struct RpcDesc {
    pub name: Blob,
    pub version: i64,
    pub kind: Kind,
    pub query: Shape,
    /// The answer of a plain procedure, the state of a state RPC, and `Unit` elsewhere.
    pub first: Shape,
    /// What a pipe or a state RPC gives after its beginning. `Unit` elsewhere.
    pub item: Shape,
    /// What a pipe or a state RPC is declined with. `Unit` elsewhere.
    pub error: Shape,
}

/// Which of the two ends has a procedure.
#[derive(Clone, Copy, Debug, PartialEq, Eq)]
pub enum Side {
    Both,
    /// The end that calls it.
    Caller,
    /// The end that answers it.
    Callee,
}

/// A line of a schema.
#[derive(Debug, Drop)]
pub struct Entry {
    pub desc: RpcDesc,
    pub side: Side,
    /// What the built-in service does on a call.
    pub behaviour: Option<Behaviour>,
    /// The line's number in the text, from 1.
    pub line: u64,
}

/// What the built-in service does on a call.
#[derive(Debug, Drop)]
pub enum Behaviour {
    /// It answers with the query.
    Echo,
    /// It always answers with this value.
    Const(Value),
    /// It gives each element of the query.
    Each,
    /// It notes the query.
    Note,
    /// It answers with the notes so far.
    Notes,
    /// It gives the notes so far, and then each later one.
    Follow,
}

/// What an end offers to be called.
#[derive(Debug, Drop)]
pub struct Menu {
    pub entries: Listed<Listing>,
}

/// A procedure in a menu.
#[derive(Debug, Drop)]
pub struct Listing {
    pub name: Blob,
    pub version: i64,
}
