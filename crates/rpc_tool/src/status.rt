// How a run ended.
ghost use Rattle.std.specs.Prelude.{◌≡◌, ◌↔◌, IsSome};
ghost use Rattle.rpc_tool.specs.Means.{code_of, IsTroubleCode};

/// How a run ended. Its code is the exit status of the program.
#[derive(Clone, Copy, Debug, PartialEq, Eq)]
pub enum Status {
    /// The command was done, and its report written.
    Done,
    /// The input is refused.
    Refused,
    /// The word for a shape is refused.
    BadShape,
    /// The words are no command.
    Usage,
    /// Reading the input failed.
    ReadFault,
    /// Writing the output failed.
    WriteFault,
    /// A call of a wire failed.
    WireFault,
    /// No memory was left.
    OutOfMemory,
    /// More bytes of input came than a command takes.
    TooLong,
}

impl Status {
    /// The exit status.
    pub fn code(self) -> u8
        ensures { result ≡ code_of self }
    {
        match self {
            Status::Done => 0,
            Status::Refused | Status::BadShape => 1,
            Status::Usage => 2,
            Status::ReadFault => 3,
            Status::WriteFault => 4,
            Status::WireFault => 5,
            Status::OutOfMemory => 6,
            Status::TooLong => 7,
        }
    }
}

/// What the program says on standard error at an exit status, beside what it writes, if anything:
/// that reading or writing failed, that memory ran out, or that too much input came.
pub fn trouble(code: u8) -> Option<&'static str>
    ensures { IsSome result ↔ IsTroubleCode code }
{
    if code == Status::ReadFault.code() {
        Some("reading the input failed")
    } else if code == Status::WriteFault.code() {
        Some("writing failed")
    } else if code == Status::OutOfMemory.code() {
        Some("out of memory")
    } else if code == Status::TooLong.code() {
        Some("more than 67108864 bytes of input")
    } else {
        None
    }
}
