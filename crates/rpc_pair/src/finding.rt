// What an event names: lines of the schema, by the name and the version.
ghost use Rattle.std.specs.Prelude.{◌≡◌, None, Some, IfOk, MatchOption};
ghost use Rattle.rpc_meeting.specs.Menus.{called_versions, is_called};
ghost use Rattle.rpc_meeting.specs.Talks.{line_named};

use bp_value::OutOfMemory;
use rpc_schema::{Entry, Side};
use std::alloc::Global;

/// The line of this name and version.
pub fn line<'a>(entries: &'a [Entry], name: &[u8], version: i64) -> Option<&'a Entry>
    ensures { let found = line_named entries.now name.now version in
        MatchOption result (found ≡ None) (λ e. found ≡ Some e.now) }
{
    'entries: for entry in entries {
        if entry.desc.name.as_slice() == name && entry.desc.version == version {
            return Some(entry);
        }
    }
    None
}

/// Whether the end that calls has what is of this side.
pub fn is_called(side: Side) -> bool
    ensures { result ≡ is_called side }
{
    matches!(side, Side::Both | Side::Caller)
}

/// The versions of a name that the end which calls has.
pub fn called_versions(
    alloc: Global,
    entries: &[Entry],
    name: &[u8],
) -> Result<Vec<i64>, OutOfMemory>
    ensures { IfOk result (λ versions. versions.items ≡ called_versions entries.now name.now) }
{
    let mut versions = Vec::new(alloc);
    'entries: for entry in entries {
        if is_called(entry.side) && entry.desc.name.as_slice() == name {
            versions.push(entry.desc.version)?;
        }
    }
    Ok(versions)
}
