use super::show;
use crate::answers::Answer;
use bp_text::read_shape;
use std::alloc::Global;
use std::process::Abort;
use std::test::Fail;

/// Whether the input is a value of the shape that is shown so.
fn shows(alloc: Global, shape: &[u8], input: &[u8], wanted: &[u8]) -> Result<bool, Fail> {
    let shape = read_shape(alloc, shape)?;
    match show(alloc, &shape, input)? {
        Answer::Done(text) => Ok(text.as_slice() == wanted),
        Answer::Refused(_) => Ok(false),
    }
}

/// Whether the input is refused so.
fn refuses(alloc: Global, shape: &[u8], input: &[u8], wanted: &[u8]) -> Result<bool, Fail> {
    let shape = read_shape(alloc, shape)?;
    match show(alloc, &shape, input)? {
        Answer::Done(_) => Ok(false),
        Answer::Refused(text) => Ok(text.as_slice() == wanted),
    }
}

/// A head, a part `count` times, and an end.
fn repeated(
    alloc: Global,
    head: &[u8],
    part: &[u8],
    count: usize,
    end: &[u8],
) -> Result<Vec<u8>, Fail> {
    let mut text = head.to_vec(alloc)?;
    for _ in 0..count {
        text.extend_from_slice(part)?;
    }
    text.extend_from_slice(end)?;
    Ok(text)
}

#[test]
fn places_count_in_all_pieces(rt: HostRuntime) -> Result<(), Fail> {
    let alloc = rt.alloc();
    // The head has three bytes, and announces 8997.
    let input = repeated(alloc, b"fe2523", b"61", 8997, b"")?;
    let text = repeated(alloc, b"\"", b"a", 8997, b"\"\n9000 bytes\n")?;
    assert!(rt; shows(alloc, b"string", input.as_slice(), text.as_slice())?);
    let input = repeated(alloc, b"fe2523", b"61", 8997, b"61")?;
    assert!(rt; refuses(alloc, b"string", input.as_slice(), b"trailing at 9000\n")?);
    let input = repeated(alloc, b"fe2523", b"61", 8996, b"")?;
    assert!(rt; refuses(alloc, b"string", input.as_slice(), b"cut at 8999\n")?);
    let input = repeated(alloc, b"fe2523", b"01", 8996, b"02")?;
    assert!(rt;
        refuses(
            alloc,
            b"bool list",
            input.as_slice(),
            b"refused at 8999: byte\n"
        )?
    );
    Ok(())
}
