ghost use Rattle.std.specs.Prelude.{◌≤◌, ◌^◌};

use super::*;
use bp_value::{OutOfMemory, Shape};
use building::{list_of, pair_option, poly, record, sum_of_pair};
use std::alloc::Global;
use std::process::Abort;
use std::test::Fail;

pub mod building;

/// What stands in front of the bytes, where the shape is good.
fn shown(alloc: Global, shape: &Shape, bytes: &[u8], max_len: u64) -> Result<String, Fail>
    requires { max_len ≤ 2 ^ 30 }
{
    shape.check()?;
    Ok(format!(in alloc; "{:?}", decode(alloc, shape, bytes, max_len)?)?)
}

/// Each of the bytes has this in front. The shape is made by the caller, so that none is left to be
/// dropped there.
fn check(
    rt: &impl Abort,
    alloc: Global,
    shape: Result<Shape, OutOfMemory>,
    max_len: u64,
    rows: &[(&[u8], &str)],
) -> Result<(), Fail>
    requires { max_len ≤ 2 ^ 30 }
{
    let shape = shape?;
    for (bytes, want) in rows {
        assert_eq!(rt; shown(alloc, &shape, bytes, max_len)?.as_str(), *want);
    }
    Ok(())
}

#[test]
fn leaves_are_read(rt: HostRuntime) -> Result<(), Fail> {
    let alloc = rt.alloc();
    let ints: [(&[u8], &str); 6] = [
        (b"\xFE\x05\x00", "Whole { value: Num(5), used: 3 }"),
        (b"\x05\x05", "Whole { value: Num(5), used: 1 }"),
        (
            b"\xFC\x00\x00\x00\x00\x00\x00\x00\x40",
            "Bad { at: 8, why: Range }",
        ),
        (b"\xFF\x05", "Bad { at: 1, why: Sign }"),
        (b"\x80", "Bad { at: 0, why: Code }"),
        (b"", "More"),
    ];
    check(&rt, alloc, Ok(Shape::Int), 0, &ints)?;
    let bools: [(&[u8], &str); 1] = [(b"\x02", "Bad { at: 0, why: Byte }")];
    check(&rt, alloc, Ok(Shape::Bool), 0, &bools)?;
    let texts: [(&[u8], &str); 2] = [
        (b"\x00", "Whole { value: Text(\"\"), used: 1 }"),
        (b"\x05a", "More"),
    ];
    check(&rt, alloc, Ok(Shape::Text), 100, &texts)?;
    let sexps: [(&[u8], &str); 1] = [(
        b"\x01\x02\x00\x01a\x01\x00",
        "Whole { value: Sexp(List([Atom(\"a\"), List([])])), used: 7 }",
    )];
    check(&rt, alloc, Ok(Shape::Sexp), 100, &sexps)
}

#[test]
fn values_with_parts_are_read(rt: HostRuntime) -> Result<(), Fail> {
    let alloc = rt.alloc();
    let ints: [(&[u8], &str); 1] = [(b"\x03\x01\x02", "Bad { at: 0, why: Length }")];
    check(&rt, alloc, list_of(alloc, Shape::Int), 2, &ints)?;
    let ints: [(&[u8], &str); 1] = [(b"\x03\x01\x02", "More")];
    check(&rt, alloc, list_of(alloc, Shape::Int), 3, &ints)?;
    let polys: [(&[u8], &str); 2] = [
        (
            b"\x79\x8A\x00\x00\x07",
            "Whole { value: Case { place: 0, args: [Num(7)] }, used: 5 }",
        ),
        (b"\x79\x8B", "Bad { at: 1, why: Tag }"),
    ];
    check(&rt, alloc, poly(alloc), 0, &polys)?;
    let sums: [(&[u8], &str); 2] = [
        (
            b"\x01\x03\x00",
            "Whole { value: Case { place: 1, args: [Num(3), Bool(false)] }, used: 3 }",
        ),
        (b"\x02", "Bad { at: 0, why: Case }"),
    ];
    check(&rt, alloc, sum_of_pair(alloc), 0, &sums)?;
    let records: [(&[u8], &str); 1] = [(
        b"\x05\x02\x01x\x00",
        "Whole { value: Parts([Num(5), Items([Text(\"x\"), Text(\"\")])]), used: 5 }",
    )];
    check(&rt, alloc, record(alloc), 2, &records)?;
    let options: [(&[u8], &str); 1] = [(
        b"\x01\x07\x01",
        "Whole { value: Present(Parts([Num(7), Bool(true)])), used: 3 }",
    )];
    check(&rt, alloc, pair_option(alloc), 0, &options)
}
