ghost use Rattle.std.specs.Prelude.{◌≡◌};

use bp_value::OutOfMemory;
use thiserror::Error;

/// Why a call was not dispatched. The client is as it was.
#[derive(Clone, Copy, Debug, PartialEq, Eq, Error)]
pub enum DispatchError {
    /// The client is closed.
    #[error("the connection is closed")]
    Closed,
    /// The other end's header was not read yet.
    #[error("the connection is not open yet")]
    NotOpen,
    /// The query does not fit its shape, or has a text or list that is longer than a message.
    #[error("the query does not fit its shape")]
    BadValue,
    /// The message has more than `max` bytes.
    #[error("more than {max} bytes")]
    TooLong { max: u64 },
    /// As many calls are unfinished as may be.
    #[error("{count} calls are unfinished")]
    TooManyOpen { count: u32 },
    /// No ids are left: the next one is too great.
    #[error("the next id would be {next}")]
    IdsSpent { next: i64 },
    /// Memory ran out. No contract says when.
    #[error("out of memory")]
    OutOfMemory,
}

/// Why a call was not aborted. The client is as it was.
#[derive(Clone, Copy, Debug, PartialEq, Eq, Error)]
pub enum AbortError {
    /// The client is closed.
    #[error("the connection is closed")]
    Closed,
    /// No call has the ticket's id.
    #[error("no call has this id")]
    Stranger,
    /// The call has its ending, be it taken or not.
    #[error("the call has its ending")]
    AlreadyEnded,
    /// The call is neither a pipe nor a state RPC.
    #[error("the call is no stream")]
    NotStream,
    /// The stream has not begun.
    #[error("the stream has not begun")]
    NotBegun,
    /// Memory ran out. No contract says when.
    #[error("out of memory")]
    OutOfMemory,
}

impl From<OutOfMemory> for DispatchError {
    ghost use Rattle.rpc_client.specs.declared.error.DispatchError.TheVariants as error;

    ghost from_gives = { λ _ e. e ≡ error.OutOfMemory };

    fn from(_: OutOfMemory) -> DispatchError {
        DispatchError::OutOfMemory
    }
}

impl From<OutOfMemory> for AbortError {
    ghost use Rattle.rpc_client.specs.declared.error.AbortError.TheVariants as error;

    ghost from_gives = { λ _ e. e ≡ error.OutOfMemory };

    fn from(_: OutOfMemory) -> AbortError {
        AbortError::OutOfMemory
    }
}
