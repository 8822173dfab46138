use super::read_shape_front;
use std::alloc::Global;
use std::process::Abort;
use std::test::Fail;

/// From each place on each text has this shape up to the next place, or this refusal.
fn check(rt: &impl Abort, alloc: Global, rows: &[(&[u8], usize, &str)]) -> Result<(), Fail> {
    for (text, from, want) in rows {
        let from = (*from).min(text.len());
        let answer = match read_shape_front(alloc, text, from) {
            Ok((shape, end)) => format!(in alloc; "{shape:?} {end}")?,
            Err(error) => format!(in alloc; "{error:?}")?,
        };
        assert_eq!(rt; answer.as_str(), *want);
    }
    Ok(())
}

#[test]
fn a_shape_ends_before_what_goes_on_none(rt: HostRuntime) -> Result<(), Fail> {
    check(
        &rt,
        rt.alloc(),
        &[
            (b"int list -> x", 0, "List(Int) 8"),
            (b"a:  int  !", 2, "Int 7"),
            (b"x (int", 1, "BadText { at: 6 }"),
        ],
    )
}
