// Kinds of procedures, and which of them a query calls.
ghost use Rattle.std.specs.Prelude.{◌≡◌};
ghost use Rattle.std.specs.List.{position};
ghost use Rattle.rpc_schema.specs.Choice.{is_offered};
ghost use Rattle.rpc_talk.specs.Acts.{is_menu, is_served};
ghost use Rattle.rpc_talk.specs.Parts.{takes_reply, is_stream, is_tracked};
ghost use Rattle.rpc_server.specs.Hearing.{is_named_by};

use rpc_msg::Query;
use rpc_schema::{Entry, Kind, Side};

/// The name of the procedure that answers the menu.
const MENU_NAME: &[u8] = b"__Versioned_rpc.Menu";

/// One answer is due.
pub fn takes_reply(kind: Kind) -> bool
    ensures { result ≡ takes_reply kind }
{
    matches!(kind, Kind::Plain)
}

/// Items may follow.
pub fn is_stream(kind: Kind) -> bool
    ensures { result ≡ is_stream kind }
{
    matches!(kind, Kind::Pipe | Kind::State)
}

/// An answer is due.
pub fn is_tracked(kind: Kind) -> bool
    ensures { result ≡ is_tracked kind }
{
    !matches!(kind, Kind::OneWay)
}

/// Whether the entry has the name and version of the query.
pub fn is_of(query: &Query, entry: &Entry) -> bool
    ensures { result ≡ is_named_by query.now entry.now }
{
    entry.desc.name.as_slice() == query.tag.as_slice() && entry.desc.version == query.version
}

/// Whether the menu is asked.
pub fn is_menu(query: &Query) -> bool
    ensures { result ≡ is_menu query.now.tag query.now.version }
{
    query.tag.as_slice() == MENU_NAME && query.version == 1
}

/// The place of the entry that the query calls, if the end that answers has one.
pub fn served_at(entries: &[Entry], query: &Query) -> Option<usize>
    ensures { result ≡ position (is_served query.now.tag query.now.version) entries.now }
{
    entries
        .iter()
        .position(|entry| is_of(query, entry) && is_offered(entry.side))
}

/// Whether the end that answers has what is of this side.
fn is_offered(side: Side) -> bool
    ensures { result ≡ is_offered side }
{
    matches!(side, Side::Both | Side::Callee)
}
