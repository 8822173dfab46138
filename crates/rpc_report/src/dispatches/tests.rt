ghost use Rattle.std.specs.Prelude.{IsTrue};
ghost use Rattle.bp_value.specs.Form.{form_of};
ghost use Rattle.bp_text.specs.Printing.{IsOf};
ghost use Rattle.rpc_report.specs.Dispatches.{IsEndingOf, IsPartOf};

use crate::{put_ending, put_head, put_part};
use bp_value::{Blob, OutOfMemory, Sexp, Shape, Value, fits};
use rpc_msg::{Ending, MsgFault, Part, RpcError};
use rpc_schema::{Kind, RpcDesc};
use std::alloc::Global;
use std::process::Abort;
use std::test::Fail;

fn is_of(shape: &Shape, value: &Value) -> bool
    ensures { IsTrue result → IsOf (form_of shape.now) value.now }
{
    shape.check().is_ok() && fits(shape, value, 1024)
}

fn is_part_of(desc: &RpcDesc, part: &Part) -> bool
    ensures { IsTrue result → IsPartOf desc.now part.now }
{
    match part {
        Part::First(value) => is_of(&desc.first, value),
        Part::Item(value) => is_of(&desc.item, value),
    }
}

fn is_ending_of(desc: &RpcDesc, ending: &Ending) -> bool
    ensures { IsTrue result → IsEndingOf desc.now ending.now }
{
    match ending {
        Ending::Reply(value) => is_of(&desc.first, value),
        Ending::Declined(value) => is_of(&desc.error, value),
        Ending::Failed(_) => true,
        Ending::BadReply(_) => true,
        Ending::Eof => true,
        Ending::Aborted => true,
        Ending::Sent => true,
        Ending::Closed => true,
    }
}

/// A procedure whose three answers have three shapes.
fn book(alloc: Global) -> Result<RpcDesc, OutOfMemory> {
    Ok(RpcDesc {
        name: Blob::from_slice(alloc, b"book")?,
        version: 1,
        kind: Kind::State,
        query: Shape::Unit,
        first: Shape::Text,
        item: Shape::Int,
        error: Shape::Bool,
    })
}

fn text(alloc: Global, bytes: &[u8]) -> Result<Value, OutOfMemory> {
    Ok(Value::Text(Blob::from_slice(alloc, bytes)?))
}

/// Each ending has this line.
fn check_endings(
    rt: &impl Abort,
    alloc: Global,
    rows: &[(Ending, &[u8])],
) -> Result<(), OutOfMemory> {
    let desc = book(alloc)?;
    for (ending, want) in rows {
        let mut out = Vec::new(alloc);
        if is_ending_of(&desc, ending) {
            put_ending(&desc, ending, &mut out)?;
        }
        assert!(rt; out.as_slice() == *want);
    }
    Ok(())
}

#[test]
fn heads_have_their_lines(rt: HostRuntime) -> Result<(), Fail> {
    let mut out = Vec::new(rt.alloc());
    put_head(b"a", 0, b"echo", 1, &mut out)?;
    put_head(b"log'", 1, b"log", 4_611_686_018_427_387_903, &mut out)?;
    assert!(rt; out.as_slice() == b"a id 0 echo 1\nlog' id 1 log 4611686018427387903\n".as_slice());
    Ok(())
}

#[test]
fn parts_have_their_lines(rt: HostRuntime) -> Result<(), Fail> {
    let alloc = rt.alloc();
    let desc = book(alloc)?;
    let parts = [Part::First(text(alloc, b"n1")?), Part::Item(Value::Num(-1))];
    let mut out = Vec::new(alloc);
    for part in &parts {
        if is_part_of(&desc, part) {
            put_part(&desc, part, &mut out)?;
        }
    }
    assert!(rt; out.as_slice() == b"  first \"n1\"\n  item -1\n".as_slice());
    Ok(())
}

#[test]
fn endings_have_their_lines(rt: HostRuntime) -> Result<(), Fail> {
    let alloc = rt.alloc();
    let boom = Sexp::Atom(Blob::from_slice(alloc, b"boom")?);
    let tag = Blob::from_slice(alloc, b"nope")?;
    let rows: [(Ending, &[u8]); 9] = [
        (Ending::Reply(text(alloc, b"hi")?), b"  reply \"hi\"\n"),
        (
            Ending::Failed(RpcError::Uncaught(boom)),
            b"  failed uncaught \"boom\"\n",
        ),
        (
            Ending::Failed(RpcError::Unimplemented { tag, version: 7 }),
            b"  failed unimplemented \"nope\" 7\n",
        ),
        (
            Ending::BadReply(MsgFault::Trailing { at: 3 }),
            b"  bad reply trailing at 3\n",
        ),
        (Ending::Declined(Value::Bool(false)), b"  declined false\n"),
        (Ending::Eof, b"  eof\n"),
        (Ending::Aborted, b"  aborted\n"),
        (Ending::Sent, b"  sent\n"),
        (Ending::Closed, b"  closed\n"),
    ];
    check_endings(&rt, alloc, &rows)?;
    Ok(())
}
