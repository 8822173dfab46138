// The kinds of integers, and what reading a number answers.

/// A kind of integer, by its range.
#[derive(Clone, Copy, Debug, PartialEq, Eq)]
pub enum IntKind {
    /// OCaml's int: -2^62 to 2^62 - 1.
    Int63,
    /// -2^31 to 2^31 - 1. It has no form of eight bytes.
    Int32,
    /// -2^63 to 2^63 - 1.
    Int64,
}

/// What stands in front of some bytes.
#[derive(Clone, Copy, Debug, PartialEq, Eq)]
pub enum NumRead {
    /// A number, in its first `used` bytes.
    Done { value: i64, used: usize },
    /// The front of a number that goes on.
    More,
    /// No number: the first faulty byte is at `at`.
    Bad { at: usize, why: Why },
}

/// Why a byte is at fault.
#[derive(Clone, Copy, Debug, PartialEq, Eq)]
pub enum Why {
    /// It begins no number of the kind.
    Code,
    /// It stands after `FF`, and is no negative number.
    Sign,
    /// It puts an eight-byte number out of the kind's range. It is the last of the eight.
    Range,
    /// It makes the low bytes of a length so far pass the limit.
    Length,
    /// It is no byte of a unit, a bool or an option.
    Byte,
    /// It is no place of a case.
    Case,
    /// With the tag bytes before it, it begins no tag of a case.
    Tag,
}
