/// What came of an event.
#[derive(Clone, Copy, Debug, PartialEq, Eq)]
pub enum StepAnswer {
    Done,
    /// Nothing was done, but for [`Refusal::Stopped`], which is said once.
    Refused(Refusal),
    /// What the dispatch has received is to be shown.
    Shown,
}

/// Why an event was refused, in the order of the tests of its kind.
#[derive(Clone, Copy, Debug, PartialEq, Eq)]
pub enum Refusal {
    /// A dispatch has the label.
    LabelTaken,
    /// The client has no procedure of this name and version.
    NoSuchRpc,
    /// No menu was received.
    NoMenu,
    /// The menu and the client have no version of this name in common.
    NoVersion,
    /// The text is of no value of the procedure's shape, or of one that is too long.
    BadValue,
    /// The end is closed.
    Closed,
    /// The client has read no header.
    NotOpen,
    /// The message is longer than may be.
    TooLong,
    /// As many dispatches are open as may be.
    TooManyOpen,
    /// No id is left.
    IdsSpent,
    /// No dispatch has the label.
    NoSuchLabel,
    /// The dispatch has its ending.
    AlreadyEnded,
    /// The dispatch is of no stream.
    NotStream,
    /// The stream has not begun.
    NotBegun,
    /// The procedure's kind has no such act.
    WrongKind,
    /// No such query is open at the server.
    NoSuch,
    /// An abort has stopped the query. This is said once, and `NoSuch` from then on.
    Stopped,
    /// The stream has begun.
    AlreadyBegun,
}
