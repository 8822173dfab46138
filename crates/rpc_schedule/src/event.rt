use bp_value::Blob;

/// What happens next in a replay. A label names a dispatch. The `text` of an event is that of a
/// value: all of the line that stands after the blanks behind the word before it. It is not looked
/// at while the schedule is read, and may be empty.
#[derive(Debug, Drop)]
pub enum Event {
    /// The client dispatches the procedure of this name and version, with the value as its query.
    Ask {
        label: Blob,
        name: Blob,
        version: i64,
        text: Blob,
    },
    /// The client asks for the menu.
    Menu {
        label: Blob,
    },
    /// The client dispatches the best version of the procedure of this name.
    Best {
        label: Blob,
        name: Blob,
        text: Blob,
    },
    /// The client aborts the dispatch.
    Abort {
        label: Blob,
    },
    /// The handler answers the dispatch's query.
    Reply {
        label: Blob,
        text: Blob,
    },
    /// The handler begins its stream.
    Begin {
        label: Blob,
        text: Blob,
    },
    /// The handler declines to begin its stream.
    Decline {
        label: Blob,
        text: Blob,
    },
    /// The handler gives an item of its stream.
    Item {
        label: Blob,
        text: Blob,
    },
    /// The handler fails. `text` is the bytes that stood in quotes.
    Fail {
        label: Blob,
        text: Blob,
    },
    /// The handler ends its stream.
    End {
        label: Blob,
    },
    /// At most `count` of the bytes in flight move to the server, or all of them, in pieces of at
    /// most `by` bytes: 1 to 65536, and 65536 where the line has none.
    Up {
        count: Option<u64>,
        by: u64,
    },
    /// The same from the server to the client.
    Down {
        count: Option<u64>,
        by: u64,
    },
    /// The moment becomes this number of milliseconds, and both ends look at it.
    At {
        now: u64,
    },
    /// The client closes.
    CloseClient,
    /// The server closes.
    CloseServer,
    /// The client is told that its input has ended.
    EofClient,
    /// The server is told that its input has ended.
    EofServer,
    /// The lines of the dispatch are written.
    Show {
        label: Blob,
    },
}

/// An event with the number of its line, counted from 1 over the whole text.
#[derive(Debug, Drop)]
pub struct Lined {
    pub line: u64,
    pub event: Event,
}
