// Reading the lines of a schema.
ghost use Rattle.std.specs.Prelude.{◌≡◌, [], IfOk, IfErr};
ghost use Rattle.rpc_schema.specs.Entries.{AreEntries, IsEntry};
ghost use Rattle.rpc_schema.specs.LineAnswers.{TakesOne};
ghost use Rattle.rpc_schema.specs.SchemaLines.{desc_of, DescribedRefused, IsDescribed, IsLineOf, SchemaLineRefused};
ghost use Rattle.rpc_schema.specs.SchemaTexts.{AreEntryLines, RefusesLines};
ghost use Rattle.rpc_schema.specs.Reading.{slices, IsHeadGood, Marks, AddsEntry, FollowsLine, RefusesLine, RefusesEntry, RefusesNext};
ghost use Rattle.rpc_schema.specs.TextLines.{lines_kept};

use crate::behaviours::tail;
use crate::desc::{Entry, Listing, RpcDesc};
use crate::error::SchemaError;
use crate::heads::{Head, take_head};
use crate::line::Line;
use crate::lines::is_skipped;
use crate::shapes::{Shapes, take_shapes};
use crate::stop::Stop;
use std::alloc::Global;
use std::collections::BTreeSet;

/// Reads the lines of a schema, in order.
pub fn read_entries(alloc: Global, lines: &[&[u8]]) -> Result<Vec<Entry>, SchemaError>
    ensures spelled { IfOk result (λ entries.
        AreEntryLines entries.items (lines_kept 1 (slices lines.now))) }
    ensures good { IfOk result (λ entries. AreEntries entries.items) }
    ensures refused { IfErr result (RefusesLines (lines_kept 1 (slices lines.now))) }
{
    let mut entries = Vec::new(alloc);
    let mut seen = BTreeSet::new(alloc);
    for (index, line) in lines.iter().enumerate() {
        read_line(alloc, &mut entries, &mut seen, index as u64 + 1, line)?;
    }
    Ok(entries)
}

// Adds the entry of a line, if it says something.
fn read_line(
    alloc: Global,
    entries: &mut Vec<Entry>,
    seen: &mut BTreeSet<Listing>,
    number: u64,
    bytes: &[u8],
) -> Result<(), SchemaError>
    requires { Marks seen.old entries.old.items }
    ensures marks { IfOk result (λ done. Marks seen.new entries.new.items) }
    ensures added { IfOk result (λ done.
        FollowsLine number bytes.now entries.old.items entries.new.items) }
    ensures refused { IfErr result (λ e. RefusesNext number bytes.now entries.old.items e) }
{
    if is_skipped(bytes) {
        return Ok(());
    }
    add(alloc, entries, seen, number, bytes)
}

// Adds the entry of a line, unless an earlier one has its name and version.
fn add(
    alloc: Global,
    entries: &mut Vec<Entry>,
    seen: &mut BTreeSet<Listing>,
    number: u64,
    bytes: &[u8],
) -> Result<(), SchemaError>
    requires { Marks seen.old entries.old.items }
    ensures marks { IfOk result (λ done. Marks seen.new entries.new.items) }
    ensures added { IfOk result (λ done.
        AddsEntry number bytes.now entries.old.items entries.new.items) }
    ensures refused { IfErr result (RefusesEntry number bytes.now entries.old.items) }
{
    let entry = read_entry(alloc, number, bytes)?;
    if !seen.insert(entry.listing(alloc)?)? {
        return Err(SchemaError::Twice { line: number });
    }
    entries.push(entry)?;
    Ok(())
}

// The entry of a line.
fn read_entry(alloc: Global, number: u64, bytes: &[u8]) -> Result<Entry, SchemaError>
    ensures spelled { IfOk result (λ entry. IsLineOf number entry bytes.now []) }
    ensures good { IfOk result (λ entry. IsEntry entry) }
    ensures refused { IfErr result (RefusesLine number bytes.now) }
{
    let mut line = Line::new(bytes);
    match entry_at(&mut line, number, alloc) {
        Ok(entry) => Ok(entry),
        Err(Stop::Refused) => Err(SchemaError::BadLine {
            line: number,
            at: bytes.len().saturating_sub(line.rest().len()),
        }),
        Err(Stop::OutOfMemory) => Err(SchemaError::OutOfMemory),
    }
}

fn entry_at(line: &mut Line, number: u64, alloc: Global) -> Result<Entry, Stop>
    ensures takes { TakesOne (IsLineOf number) SchemaLineRefused line.old line.new result }
    ensures good { IfOk result (λ entry. IsEntry entry) }
{
    let head = take_head(line, alloc)?;
    described(line, number, head, alloc)
}

// What stands after the head of a line.
fn described(line: &mut Line, number: u64, head: Head, alloc: Global) -> Result<Entry, Stop>
    requires { IsHeadGood head }
    ensures takes { TakesOne (IsDescribed number head) (DescribedRefused head)
        line.old line.new result }
    ensures good { IfOk result (λ entry. IsEntry entry) }
{
    let shapes = take_shapes(line, head.kind, alloc)?;
    let side = head.side;
    let desc = desc_of(head, shapes);
    let behaviour = tail(line, &desc, alloc)?;
    Ok(Entry {
        desc,
        side,
        behaviour,
        line: number,
    })
}

fn desc_of(head: Head, shapes: Shapes) -> RpcDesc
    ensures { result ≡ desc_of head shapes }
{
    RpcDesc {
        name: head.name,
        version: head.version,
        kind: head.kind,
        query: shapes.query,
        first: shapes.first,
        item: shapes.item,
        error: shapes.error,
    }
}
