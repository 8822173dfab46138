use bp_base::{ReadAllError, WriteFault};
use bp_codec::EncodeError;
use rpc_frame::FrameError;
use rpc_msg::MsgError;
use std::alloc::{AllocError, AllocFailed};
use std::io;
use thiserror::Error;

/// Why a run ended without its answer.
#[derive(Clone, Copy, Debug, PartialEq, Eq, Error)]
pub enum Failure {
    #[error("usage: bench once decode|encode SET K | once frames|echo K | make SET | make frames")]
    Usage,
    #[error("the input is no value of the set: its byte {at}, counted from 0, is at fault")]
    BadByte { at: usize },
    #[error("the input is no value of the set: it ends within one")]
    Cut,
    #[error("the input is no value of the set: it goes on after one")]
    Longer,
    #[error("the input is no stream of messages")]
    BadStream,
    /// A shape or a value of the program's own is refused. It never comes to that.
    #[error("the set is no list of values of its shape")]
    Unfit,
    #[error("reading the input failed")]
    ReadFault,
    #[error("writing failed")]
    WriteFault,
    #[error("the clock failed")]
    ClockFault,
    #[error("out of memory")]
    OutOfMemory,
    #[error("more than {max} bytes of input")]
    TooLong { max: usize },
}

impl Failure {
    /// The exit status: as those of the program `rpc`, and 8 where the clock failed.
    pub fn code(self) -> u8 {
        match self {
            Failure::BadByte { .. }
            | Failure::Cut
            | Failure::Longer
            | Failure::BadStream
            | Failure::Unfit => 1,
            Failure::Usage => 2,
            Failure::ReadFault => 3,
            Failure::WriteFault => 4,
            Failure::OutOfMemory => 6,
            Failure::TooLong { .. } => 7,
            Failure::ClockFault => 8,
        }
    }
}

impl From<AllocError> for Failure {
    fn from(_: AllocError) -> Failure {
        Failure::OutOfMemory
    }
}

impl<T: Drop> From<AllocFailed<T>> for Failure {
    fn from(_: AllocFailed<T>) -> Failure {
        Failure::OutOfMemory
    }
}

impl From<bp_value::OutOfMemory> for Failure {
    fn from(_: bp_value::OutOfMemory) -> Failure {
        Failure::OutOfMemory
    }
}

impl From<ReadAllError> for Failure {
    fn from(error: ReadAllError) -> Failure {
        match error {
            ReadAllError::ReadFault => Failure::ReadFault,
            ReadAllError::TooLong { max } => Failure::TooLong { max },
            ReadAllError::OutOfMemory => Failure::OutOfMemory,
        }
    }
}

impl From<WriteFault> for Failure {
    fn from(_: WriteFault) -> Failure {
        Failure::WriteFault
    }
}

impl From<EncodeError> for Failure {
    fn from(error: EncodeError) -> Failure {
        match error {
            EncodeError::TooLong { .. } => Failure::Unfit,
            EncodeError::OutOfMemory => Failure::OutOfMemory,
        }
    }
}

impl From<FrameError> for Failure {
    fn from(error: FrameError) -> Failure {
        match error {
            FrameError::Failed { .. } | FrameError::TooLong { .. } => Failure::BadStream,
            FrameError::OutOfMemory => Failure::OutOfMemory,
        }
    }
}

impl From<MsgError> for Failure {
    fn from(error: MsgError) -> Failure {
        match error {
            MsgError::Fault(_) => Failure::BadStream,
            MsgError::OutOfMemory => Failure::OutOfMemory,
        }
    }
}

impl From<io::Error> for Failure {
    fn from(_: io::Error) -> Failure {
        Failure::ClockFault
    }
}
