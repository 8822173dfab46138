use crate::{
    TextError, print_shape, print_value, put_decimal, put_natural, put_quoted, put_sexp, put_value,
    read_shape, read_value,
};
use bp_value::{Blob, OutOfMemory, Sexp, Shape, Value, fits};
use std::alloc::Global;
use std::process::Abort;
use std::test::Fail;

/// Whether the value fits the shape, and prints so, also after other bytes.
fn prints(alloc: Global, shape: &Shape, value: &Value, want: &[u8]) -> Result<bool, OutOfMemory> {
    if shape.check().is_err() || !fits(shape, value, 1 << 20) {
        return Ok(false);
    }
    let mut out = vec![in alloc; b'#']?;
    put_value(shape, value, &mut out)?;
    let text = print_value(alloc, shape, value)?;
    Ok(text.as_slice() == want && out.first() == Some(&b'#') && out.get(1..) == Some(want))
}

/// Whether the shape and the value of these texts print as these texts.
fn print_again(alloc: Global, shape: &[u8], value: &[u8]) -> Result<bool, TextError> {
    let read = read_shape(alloc, shape)?;
    let again = print_shape(alloc, &read)?.as_slice() == shape;
    let value_read = read_value(alloc, &read, value)?;
    Ok(again && prints(alloc, &read, &value_read, value)?)
}

fn check(rt: &impl Abort, alloc: Global, rows: &[(&[u8], &[u8])]) {
    for (shape, value) in rows {
        assert_eq!(rt; print_again(alloc, shape, value), Ok(true));
    }
}

#[test]
fn shapes_and_values(rt: HostRuntime) {
    check(
        &rt,
        rt.alloc(),
        &[
            (b"unit", b"()"),
            (b"bool", b"true"),
            (b"char", br#"'\"'"#),
            (b"int", b"0"),
            (b"int32", b"-100"),
            (b"int64", b"-9223372036854775808"),
            (b"int64", b"9223372036854775807"),
            (b"string", br#""a\"\'\\\x0A~\x7F\xFF""#),
            (b"sexp", br#"("a" ())"#),
            (b"bool option option", b"some none"),
            (b"(int * bool) list", b"[(7, true); (-5, false)]"),
            (b"(int * bool) option", b"none"),
            (b"(int * bool) * char", b"((0, true), 'a')"),
            (b"{a: int; b: string list}", br#"{a = 5; b = ["x"; ""]}"#),
            (b"[A | B of int * bool]", b"A"),
            (b"[A | B of int * bool]", b"B(3, false)"),
            (b"[A of (int * bool) * char]", b"A((3, false), 'b')"),
            (b"[`Ok of int * bool | `Eof]", b"`Ok((-5, true))"),
            (b"[`Ok of int * bool | `Eof]", b"`Eof"),
        ],
    );
}

#[test]
fn leaves_are_appended(rt: HostRuntime) -> Result<(), Fail> {
    let mut out = Vec::new(rt.alloc());
    put_decimal(-7, &mut out)?;
    put_natural(u64::MAX, &mut out)?;
    put_quoted(b"'", &mut out)?;
    put_sexp(&Sexp::Atom(Blob::from_slice(rt.alloc(), b"a")?), &mut out)?;
    assert!(rt; out.as_slice() == br#"-718446744073709551615"\'""a""#.as_slice());
    Ok(())
}
