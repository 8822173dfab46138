/// What a command that uses no wires writes.
#[derive(Debug, Drop)]
pub enum Answer {
    /// It is done, and this is its result.
    Done(Vec<u8>),
    /// It refuses its input, for this reason.
    Refused(Vec<u8>),
}
