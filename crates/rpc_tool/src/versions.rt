// What the words of `menu` ask for.
ghost use Rattle.std.specs.Prelude.{◌≡◌, nat_eq, IfOk, MatchOption};
ghost use Rattle.std.specs.List.{slice_split};
ghost use Rattle.rpc_schema.specs.Reading.{slices};
ghost use Rattle.rpc_tool.specs.Wanted.{IsNoVersions, IsWantedBy};
ghost use Rattle.rpc_tool.specs.MenuCommands.{AreVersions};

use bp_value::{Blob, Listed, OutOfMemory};
use rpc_schema::read_version;
use std::alloc::{AllocError, Global};

/// What the words of `menu` ask for.
#[derive(Debug, Drop)]
pub struct Wanted {
    /// The name of a procedure.
    pub name: Blob,
    /// The program's own versions of it.
    pub own: Listed<i64>,
}

/// What a name and a word for versions ask for, if the word is of versions.
pub fn read_wanted(alloc: Global, name: &[u8], word: &[u8]) -> Result<Option<Wanted>, OutOfMemory>
    ensures { IfOk result (λ wanted. MatchOption wanted (IsNoVersions word.now)
        (λ wanted. IsWantedBy wanted name.now word.now)) }
{
    let Some(own) = read_versions(alloc, word)? else {
        return Ok(None);
    };
    Ok(Some(Wanted {
        name: Blob::from_slice(alloc, name)?,
        own: Listed::from_vec(own),
    }))
}

// The versions of a word, if it is of versions.
fn read_versions(alloc: Global, word: &[u8]) -> Result<Option<Vec<i64>>, OutOfMemory>
    ensures { IfOk result (λ own. MatchOption own (IsNoVersions word.now)
        (λ own. AreVersions own.items word.now)) }
{
    let parts = parts_of(alloc, word, b',')?;
    let mut own = Vec::with_capacity(alloc, parts.len())?;
    for part in parts.as_slice() {
        match read_version(part) {
            Some(version) => own.push(version)?,
            None => return Ok(None),
        }
    }
    Ok(Some(own))
}

// What stands before, between and after the separators.
fn parts_of(alloc: Global, word: &[u8], separator: u8) -> Result<Vec<&[u8]>, AllocError>
    ensures { IfOk result (λ parts. slices parts.items
        ≡ slice_split (λ byte. nat_eq byte separator) word.now) }
{
    word.split(|byte| *byte == separator).collect(alloc)
}
