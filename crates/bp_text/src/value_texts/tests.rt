use crate::{read_shape, read_value};
use std::alloc::Global;
use std::process::Abort;
use std::test::Fail;

/// What the text gives, read as a value of the shape that is given as a text.
fn shown(alloc: Global, shape: &[u8], text: &[u8]) -> Result<String, Fail> {
    match read_shape(alloc, shape) {
        Ok(shape) => Ok(format!(in alloc; "{:?}", read_value(alloc, &shape, text))?),
        Err(error) => Ok(format!(in alloc; "shape: {error:?}")?),
    }
}

/// Each text of a shape gives this value, or this refusal.
fn check(rt: &impl Abort, alloc: Global, rows: &[(&[u8], &[u8], &str)]) -> Result<(), Fail> {
    for (shape, text, want) in rows {
        assert_eq!(rt; shown(alloc, shape, text)?.as_str(), *want);
    }
    Ok(())
}

#[test]
fn values_are_read(rt: HostRuntime) -> Result<(), Fail> {
    check(
        &rt,
        rt.alloc(),
        &[
            (b"unit", b" ( ) ", "Ok(Unit)"),
            (b"bool", b"true", "Ok(Bool(true))"),
            (b"char", br"'\x41'", "Ok(Char(65))"),
            (b"int", b"-7", "Ok(Num(-7))"),
            (b"int", b"007", "Err(BadText { at: 0 })"),
            (b"int", b"", "Err(BadText { at: 0 })"),
            (b"string", br#""a""#, "Ok(Text(\"a\"))"),
            (b"string", br#" "ab"#, "Err(BadText { at: 4 })"),
            (
                b"sexp",
                br#"("a" ())"#,
                "Ok(Sexp(List([Atom(\"a\"), List([])])))",
            ),
            (
                b"int option list",
                b"[some 1; none]",
                "Ok(Items([Present(Num(1)), Absent]))",
            ),
            (
                b"{a: int * bool; list: unit}",
                b"{a = (1, true); list = ()}",
                "Ok(Parts([Parts([Num(1), Bool(true)]), Unit]))",
            ),
            (
                b"[A | B of int * int]",
                b"A",
                "Ok(Case { place: 0, args: [] })",
            ),
            (
                b"[A | B of int * int]",
                b"B (1, 2)",
                "Ok(Case { place: 1, args: [Num(1), Num(2)] })",
            ),
            (
                b"[`On | `At of int]",
                b"`At(5)",
                "Ok(Case { place: 1, args: [Num(5)] })",
            ),
            (b"[`On | `At of int]", b"`Off", "Err(BadText { at: 1 })"),
        ],
    )
}
