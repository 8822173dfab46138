use bp_value::{Blob, Value};

/// The data of a stream's query.
#[derive(Debug, Drop)]
pub enum StreamQuery {
    /// The query, spelled by its shape.
    Query(Blob),
    /// The caller wants no more of the stream.
    Abort,
}

/// The data of a stream's first answer.
#[derive(Debug, Drop)]
pub enum First {
    /// The stream begins; a state RPC tells its state.
    Begun(Value),
    Declined(Value),
}

/// The data of a stream's later answers.
#[derive(Debug, Drop)]
pub enum StreamPart {
    Item(Value),
    Eof,
}
