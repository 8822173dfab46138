/// How many bytes were put to each wire, and how many of them moved to the other end.
#[derive(Clone, Copy, Debug, PartialEq, Eq)]
pub struct Moved {
    /// To the server.
    pub up: u64,
    /// By the client.
    pub up_put: u64,
    /// To the client.
    pub down: u64,
    /// By the server.
    pub down_put: u64,
}
