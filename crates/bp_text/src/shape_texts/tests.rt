use super::read_shape;
use std::alloc::Global;
use std::process::Abort;
use std::test::Fail;

/// Each text has this shape, or this refusal.
fn check(rt: &impl Abort, alloc: Global, rows: &[(&[u8], &str)]) -> Result<(), Fail> {
    for (text, want) in rows {
        let answer = match read_shape(alloc, text) {
            Ok(shape) => format!(in alloc; "{shape:?}")?,
            Err(error) => format!(in alloc; "{error:?}")?,
        };
        assert_eq!(rt; answer.as_str(), *want);
    }
    Ok(())
}

#[test]
fn a_text_has_one_shape(rt: HostRuntime) -> Result<(), Fail> {
    check(
        &rt,
        rt.alloc(),
        &[
            (b"unit", "Unit"),
            (b"int list option", "Opt(List(Int))"),
            (b"(int)", "Int"),
            (b"int * char list*bool", "Tuple([Int, List(Char), Bool])"),
            (b"(int * bool) list", "List(Tuple([Int, Bool]))"),
            (
                b"{a:string;b':int64}",
                r#"Fields([Field { name: "a", shape: Text }, Field { name: "b'", shape: Int64 }])"#,
            ),
            (
                b"[ A | B of int * sexp ]",
                r#"Sum([Case { name: "A", args: [] }, Case { name: "B", args: [Int, Sexp] }])"#,
            ),
            (
                b"[`a of int32]",
                r#"Poly([PolyCase { name: "a", arg: Some(Int32) }])"#,
            ),
            (b"(int", "BadText { at: 4 }"),
            (b"int * float list", "Float { at: 6 }"),
            (
                b"[`azdwbie | `c7diagq]",
                "NotGood(TagClash { first: 0, second: 1 })",
            ),
        ],
    )
}
