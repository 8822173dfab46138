use std::alloc::AllocError;
use thiserror::Error;

/// Why a piece was not taken whole. Places count from the first byte of the stream, and stay at the
/// last value of a `u64`.
#[derive(Clone, Copy, Debug, PartialEq, Eq, Error)]
pub enum FrameError {
    /// An earlier piece had a length that is too long, at this place.
    #[error("a frame was too long at {at}")]
    Failed { at: u64 },
    /// The byte at this place makes the low bytes of a length, as a number, pass the limit.
    #[error("frame too long at {at}")]
    TooLong { at: u64 },
    /// Memory ran out, and the reader is as it was. No contract says when.
    #[error("out of memory")]
    OutOfMemory,
}

impl From<AllocError> for FrameError {
    ghost use Rattle.std.specs.Prelude.{◌≡◌};
    ghost use Rattle.rpc_frame.specs.declared.error.FrameError.TheVariants as error;

    ghost from_gives = { λ _ e. e ≡ error.OutOfMemory };

    fn from(_: AllocError) -> FrameError {
        FrameError::OutOfMemory
    }
}
