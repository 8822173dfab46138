// What stands before the shapes of a line: how a procedure is called, its name and version, and who
// has it.
ghost use Rattle.std.specs.Prelude.{◌≡◌, ◌≢◌, ◌↔◌, ℕ, ◌≤◌, ℤ, IsTrue, MatchOption};
ghost use Rattle.std.specs.Fmt.{decimal};
ghost use Rattle.readers.specs.Reader.{Each, Is};
ghost use Rattle.rpc_schema.specs.Entries.{is_visible, IsRpcName};
ghost use Rattle.rpc_schema.specs.LineParts.{Lacks};
ghost use Rattle.rpc_schema.specs.LineAnswers.{TakesOne};
ghost use Rattle.rpc_schema.specs.SchemaLines.{kind_word, side_word, IsKind, IsSide, IsNamePart, IsVersionPart, IsSided, SidedRefused, IsVersioned, VersionedRefused, IsNamedHead, NamedRefused, IsLineHead, HeadRefused, SpellsVersion};
ghost use Rattle.rpc_schema.specs.declared.desc.Kind.{Kind};
ghost use Rattle.rpc_schema.specs.declared.desc.Side.{Side};

use crate::desc::{Kind, Side};
use crate::line::Line;
use crate::menu::MENU_NAME;
use crate::stop::Stop;
use bp_value::Blob;
use itoa::Buffer;
use std::alloc::Global;
use std::str;

/// The greatest version.
const MAX_VERSION: u64 = (1 << 62) - 1;

/// The most bytes of a procedure's name.
const MAX_NAME: usize = 255;

/// What stands before the shapes.
#[derive(Debug, Drop)]
pub struct Head {
    pub kind: Kind,
    pub name: Blob,
    pub version: i64,
    pub side: Side,
}

/// Takes `KIND NAME VERSION SIDE =`.
pub fn take_head(line: &mut Line, alloc: Global) -> Result<Head, Stop>
    ensures { TakesOne IsLineHead HeadRefused line.old line.new result }
{
    let kind = kind(line)?;
    named(line, kind, alloc)
}

// `NAME VERSION SIDE =`
fn named(line: &mut Line, kind: Kind, alloc: Global) -> Result<Head, Stop>
    ensures { TakesOne (IsNamedHead kind) NamedRefused line.old line.new result }
{
    let name = take_name(line, alloc)?;
    versioned(line, kind, name)
}

// `VERSION SIDE =`
fn versioned(line: &mut Line, kind: Kind, name: Blob) -> Result<Head, Stop>
    ensures { TakesOne (IsVersioned kind name) VersionedRefused line.old line.new result }
{
    let version = take_version(line)?;
    let side = sided(line)?;
    Ok(Head {
        kind,
        name,
        version,
        side,
    })
}

// `SIDE =`
fn sided(line: &mut Line) -> Result<Side, Stop>
    ensures { TakesOne IsSided SidedRefused line.old line.new result }
{
    let side = side(line)?;
    line.take_mark(b"=")?;
    Ok(side)
}

fn kind(line: &mut Line) -> Result<Kind, Stop>
    ensures { TakesOne IsKind (Lacks IsKind) line.old line.new result }
{
    let kind = kind_named(line.word());
    line.take_word(kind)
}

fn kind_named(word: &[u8]) -> Option<Kind>
    ensures { MatchOption result ((kind : Kind) → word.now ≢ kind_word kind)
        (λ kind. word.now ≡ kind_word kind) }
{
    match word {
        b"plain" => Some(Kind::Plain),
        b"oneway" => Some(Kind::OneWay),
        b"pipe" => Some(Kind::Pipe),
        b"state" => Some(Kind::State),
        _ => None,
    }
}

fn side(line: &mut Line) -> Result<Side, Stop>
    ensures { TakesOne IsSide (Lacks IsSide) line.old line.new result }
{
    let side = side_named(line.word());
    line.take_word(side)
}

fn side_named(word: &[u8]) -> Option<Side>
    ensures { MatchOption result ((side : Side) → word.now ≢ side_word side)
        (λ side. word.now ≡ side_word side) }
{
    match word {
        b"both" => Some(Side::Both),
        b"caller" => Some(Side::Caller),
        b"callee" => Some(Side::Callee),
        _ => None,
    }
}

/// Takes a version.
pub fn take_version(line: &mut Line) -> Result<i64, Stop>
    ensures { TakesOne IsVersionPart (Lacks IsVersionPart) line.old line.new result }
{
    let version = read_version(line.word());
    line.take_word(version)
}

/// The version that a word spells: a decimal below 2^62 without sign and without zeros in front.
pub fn read_version(word: &[u8]) -> Option<i64>
    ensures { MatchOption result ((version : ℤ) → SpellsVersion version word.now → ⊥)
        (λ version. SpellsVersion version word.now) }
{
    match read_number(word, MAX_VERSION) {
        Some(n) => Some(n as i64),
        None => None,
    }
}

/// The number of at most `max` that a word spells: a decimal without sign and without zeros in
/// front.
pub fn read_number(word: &[u8], max: u64) -> Option<u64>
    ensures { MatchOption result ((n : ℕ) → n ≤ max → word.now ≢ decimal n)
        (λ n. (n ≤ max) × (word.now ≡ decimal n)) }
{
    let Ok(text) = str::from_utf8(word) else {
        return None;
    };
    let Ok(n) = text.parse::<u64>() else {
        return None;
    };
    if n <= max && Buffer::new().format(n) == text {
        Some(n)
    } else {
        None
    }
}

/// Takes a procedure's name, after at least one blank: the longest run of bytes from `!` to `~`.
pub fn take_name(line: &mut Line, alloc: Global) -> Result<Blob, Stop>
    ensures { TakesOne IsNamePart (Lacks IsNamePart) line.old line.new result }
{
    let mut behind = Line::new(line.rest());
    behind.skip_blanks();
    let name = behind.take_visible();
    if !line.starts_blank() || !is_rpc_name(name) {
        line.skip_blanks();
        return Err(Stop::Refused);
    }
    *line = behind;
    Ok(Blob::from_slice(alloc, name)?)
}

// Whether a run of visible bytes is a procedure's name.
fn is_rpc_name(name: &[u8]) -> bool
    requires { Each (Is is_visible) name.now }
    ensures { IsTrue result ↔ IsRpcName name.now }
{
    !name.is_empty() && name.len() <= MAX_NAME && name != MENU_NAME
}
