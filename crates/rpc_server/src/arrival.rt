use bp_value::Value;

/// What came for a handler.
#[derive(Debug, Drop)]
pub enum Arrival {
    /// A query that is to be answered by acts on its id. `place` is that of its entry in the
    /// schema.
    Asked { id: i64, place: usize, query: Value },
    /// A one-way query.
    Noted { id: i64, place: usize, query: Value },
    /// The caller aborted the stream of this query, and was told its end.
    Stopped { id: i64 },
}

/// What a piece gave.
#[derive(Debug, Drop)]
pub struct ServerFed {
    /// How many bytes of the piece were taken.
    pub used: usize,
    pub arrival: Option<Arrival>,
}
