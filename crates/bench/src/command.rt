// What the words of a run ask for.

use crate::set::Set;
use std::fmt;

/// What is timed.
#[derive(Clone, Copy, Debug, PartialEq, Eq)]
pub enum Operation {
    /// Reading a value from its bytes, and dropping it.
    Decode,
    /// Writing a value to the end of a list that grows.
    Encode,
}

/// A command of the program.
#[derive(Clone, Copy, Debug, PartialEq, Eq)]
pub enum Command {
    /// Times so many operations on a set that the input spells.
    Once {
        operation: Operation,
        set: Set,
        count: u32,
    },
    /// Times so many readings of the stream that the input is.
    Frames {
        count: u32,
    },
    /// Times so many calls, with a short text and with a long one.
    Calls {
        count: u32,
    },
    /// Writes the bytes of a set.
    Make(Set),
    /// Writes the bytes of a stream.
    MakeFrames,
}

/// The command that the words name, if they name one.
pub fn command_of(words: &[String]) -> Option<Command> {
    match words {
        [make, set] if make.as_str() == "make" && set.as_str() == "frames" => {
            Some(Command::MakeFrames)
        }
        [make, set] if make.as_str() == "make" => Some(Command::Make(Set::named(set.as_str())?)),
        [once, frames, count] if once.as_str() == "once" && frames.as_str() == "frames" => {
            Some(Command::Frames {
                count: count.as_str().parse().ok()?,
            })
        }
        [once, echo, count] if once.as_str() == "once" && echo.as_str() == "echo" => {
            Some(Command::Calls {
                count: count.as_str().parse().ok()?,
            })
        }
        [once, operation, set, count] if once.as_str() == "once" => Some(Command::Once {
            operation: Operation::named(operation.as_str())?,
            set: Set::named(set.as_str())?,
            count: count.as_str().parse().ok()?,
        }),
        _ => None,
    }
}

impl Operation {
    fn named(name: &str) -> Option<Operation> {
        match name {
            "decode" => Some(Operation::Decode),
            "encode" => Some(Operation::Encode),
            _ => None,
        }
    }
}

impl fmt::Display for Operation {
    fn fmt<W: fmt::Write>(&self, f: &mut fmt::Formatter<W>) -> fmt::Result {
        f.write_str(match self {
            Operation::Decode => "decode",
            Operation::Encode => "encode",
        })
    }
}
