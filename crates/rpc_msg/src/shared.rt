// What both ends of a connection and those who watch them have in common.
ghost use Rattle.std.specs.Prelude.{◌≡◌, ◌↔◌, IsTrue};
ghost use Rattle.rpc_msg.specs.Limits.{usual_limits, AreLimits};

use crate::fault::MsgFault;
use crate::message::RpcError;
use bp_value::Value;

/// What an end allows. Spans are in milliseconds.
#[derive(Clone, Copy, Debug, PartialEq, Eq)]
pub struct Limits {
    /// The most bytes of a message: 1024 to 2^30.
    pub max_message: u64,
    /// The most calls that are open at once: 1 to 2^20.
    pub max_open: u32,
    /// How long after a heartbeat the next one is due: 1 to 2^40.
    pub beat_every: u64,
    /// How long the other end may be silent: 1 to 2^40.
    pub beat_timeout: u64,
}

impl Limits {
    /// 100 MB, 65536 calls, a heartbeat every 10 seconds, and 30 seconds of silence.
    pub fn usual() -> Limits
        ensures { result ≡ usual_limits }
    {
        Limits {
            max_message: 104_857_600,
            max_open: 65536,
            beat_every: 10_000,
            beat_timeout: 30_000,
        }
    }

    /// Whether each limit is in its range.
    pub fn ok(&self) -> bool
        ensures { IsTrue result ↔ AreLimits self.now }
    {
        let span = 1..=1 << 40;
        (1024..=1 << 30).contains(&self.max_message)
            && (1..=1 << 20).contains(&self.max_open)
            && span.contains(&self.beat_every)
            && span.contains(&self.beat_timeout)
    }
}

/// A dispatched call: the id of its query.
#[derive(Clone, Copy, Debug, PartialEq, Eq)]
pub struct Ticket {
    pub id: i64,
}

/// What a stream gives before it ends.
#[derive(Debug, Drop)]
pub enum Part {
    /// What begins it: the unit of a pipe, or the state of a state RPC.
    First(Value),
    Item(Value),
}

/// How a call ends.
#[derive(Debug, Drop)]
pub enum Ending {
    /// The answer of a plain RPC.
    Reply(Value),
    Failed(RpcError),
    /// The answer of a plain RPC, which is no spelling of its shape.
    BadReply(MsgFault),
    /// A stream was refused before it began.
    Declined(Value),
    /// A stream came to its end.
    Eof,
    /// The caller aborted the stream.
    Aborted,
    /// A one-way call, which has no answer.
    Sent,
    /// The connection was closed before the call ended.
    Closed,
}

/// What a call has received and not yet handed out.
pub struct Received<'a> {
    pub parts: &'a [Part],
    pub ending: Option<&'a Ending>,
}

/// Why an end closed. Places count in the whole stream, but in `BadStreamData` in the data of the
/// response.
#[derive(Clone, Copy, Debug, PartialEq, Eq)]
pub enum CloseCause {
    /// The length byte at this place makes a frame too long.
    BadFrame { at: u64 },
    /// The first frame is no header.
    BadHeader(MsgFault),
    /// The header has no version 1.
    NoCommonProtocol,
    /// A frame after the header is no message.
    BadMessage(MsgFault),
    /// A response has the id of no call.
    UnknownId { id: i64 },
    /// A stream's answer is no spelling of what it has to be.
    BadStreamData { id: i64, fault: MsgFault },
    /// A query has the id of one that is open.
    DuplicateQuery { id: i64 },
    /// So many queries are open, and one more came.
    TooManyOpen { count: u32 },
    /// The other end was last heard at `last`, too long before `now`.
    Late { last: u64, now: u64 },
    /// The other end's stream ended.
    EndOfInput,
    /// This end was told to close.
    ClosedHere,
    /// The link failed.
    LinkFault,
    /// So many bytes were got, and more would be kept than the limit.
    JournalFull { got: u64 },
    /// Memory ran out.
    OutOfMemory,
}

/// Why an end took no bytes, or stopped at some.
#[derive(Clone, Copy, Debug, PartialEq, Eq)]
pub enum FeedError {
    /// It is closed, for this cause.
    Closed(CloseCause),
    /// Memory ran out, and nothing was taken. No contract says when.
    OutOfMemory,
}

/// What a moment did to an end.
#[derive(Clone, Copy, Debug, PartialEq, Eq)]
pub enum Ticked {
    /// Nothing.
    Quiet,
    /// A heartbeat was sent.
    Sent,
    /// It closed: the other end was last heard at `last`, too long before `now`.
    Late { last: u64, now: u64 },
    /// It was closed already.
    Closed,
}
