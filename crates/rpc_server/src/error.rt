ghost use Rattle.std.specs.Prelude.{◌≡◌};

use bp_value::OutOfMemory;
use thiserror::Error;

/// Why an act on a query was refused. They are tested in this order.
#[derive(Debug, Clone, Copy, PartialEq, Eq, Error)]
pub enum ActError {
    /// The server is closed.
    #[error("closed")]
    Closed,
    /// No query with this id is to be answered.
    #[error("no such query")]
    NoSuch,
    /// The caller aborted the stream. This is told once: the next act finds no such query.
    #[error("stopped by the caller")]
    Stopped,
    /// The procedure is of a kind whose handlers do not do this.
    #[error("not an act of this kind of procedure")]
    WrongKind,
    /// The stream has begun.
    #[error("the stream has begun")]
    AlreadyBegun,
    /// The stream has not begun.
    #[error("the stream has not begun")]
    NotBegun,
    /// The value is not one of its shape.
    #[error("not a value of the shape")]
    BadValue,
    /// The message would have more than `max` bytes.
    #[error("more than {max} bytes")]
    TooLong { max: u64 },
    /// Memory ran out. No contract says when.
    #[error("out of memory")]
    OutOfMemory,
}

impl From<OutOfMemory> for ActError {
    ghost use Rattle.rpc_server.specs.declared.error.ActError.TheVariants as refused;

    ghost from_gives = { λ _ e. e ≡ refused.OutOfMemory };

    fn from(_: OutOfMemory) -> ActError {
        ActError::OutOfMemory
    }
}
