use crate::tests::building::{list_of, pair_option, poly, record, sum_of_pair};
use crate::{Decoded, EncodeError, decode, encode, size};
use bp_value::{OutOfMemory, Shape, Value, fits};
use std::alloc::Global;
use std::process::Abort;
use std::test::Fail;

/// Whether the shape is good, the value fits it, and both calls answer so: the bytes are appended,
/// and those before them stay.
fn gives(
    alloc: Global,
    shape: &Shape,
    value: &Value,
    max: u64,
    want: Result<&[u8], EncodeError>,
) -> Result<bool, OutOfMemory> {
    if shape.check().is_err() || !fits(shape, value, 1 << 20) {
        return Ok(false);
    }
    let mut out = vec![in alloc; 0xAA]?;
    let result = encode(shape, value, max, &mut out);
    let count = size(shape, value, max);
    Ok(match want {
        Ok(bytes) => {
            result == Ok(())
                && count == Some(bytes.len() as u64)
                && out.first() == Some(&0xAA)
                && out.get(1..) == Some(bytes)
        }
        Err(error) => result == Err(error)
            && count.is_none()
            && out.as_slice() == [0xAA].as_slice(),
    })
}

/// The same of the value that stands in the bytes.
fn gives_read(
    alloc: Global,
    shape: &Shape,
    bytes: &[u8],
    max: u64,
    want: Result<&[u8], EncodeError>,
) -> Result<bool, Fail> {
    shape.check()?;
    match decode(alloc, shape, bytes, 1000)? {
        Decoded::Whole { value, .. } => Ok(gives(alloc, shape, &value, max, want)?),
        _ => Ok(false),
    }
}

/// The value in each of the bytes is spelled as these bytes.
fn check(
    rt: &impl Abort,
    alloc: Global,
    shape: Result<Shape, OutOfMemory>,
    rows: &[&[u8]],
) -> Result<(), Fail> {
    let shape = shape?;
    for bytes in rows {
        assert!(rt; gives_read(alloc, &shape, bytes, 9, Ok(bytes))?);
    }
    Ok(())
}

#[test]
fn values_are_spelled(rt: HostRuntime) -> Result<(), Fail> {
    let alloc = rt.alloc();
    check(&rt, alloc, Ok(Shape::Int), &[b"\x64", b"\xFF\x9C"])?;
    check(
        &rt,
        alloc,
        list_of(alloc, Shape::Int),
        &[b"\x03\x01\x02\xFE\x2C\x01"],
    )?;
    check(&rt, alloc, record(alloc), &[b"\x05\x02\x01x\x00"])?;
    check(&rt, alloc, pair_option(alloc), &[b"\x01\x07\x01", b"\x00"])?;
    check(&rt, alloc, sum_of_pair(alloc), &[b"\x01\x03\x00"])?;
    check(
        &rt,
        alloc,
        poly(alloc),
        &[b"\x79\x8A\x00\x00\x07", b"\x39\x79\x69\x00"],
    )?;
    check(&rt, alloc, Ok(Shape::Sexp), &[b"\x01\x02\x00\x01a\x01\x00"])
}

#[test]
fn a_long_text_is_refused_or_spelled(rt: HostRuntime) -> Result<(), Fail> {
    let alloc = rt.alloc();
    let mut whole = [b'q'; 203];
    whole[0] = 0xFE;
    whole[1] = 0xC8;
    whole[2] = 0x00;
    let long = EncodeError::TooLong { max: 201 };
    assert!(rt; gives_read(alloc, &Shape::Text, &whole, 201, Err(long))?);
    assert!(rt; gives_read(alloc, &Shape::Text, &whole, 203, Ok(&whole))?);
    Ok(())
}

#[test]
fn refusals_say_why(rt: HostRuntime) -> Result<(), Fail> {
    let alloc = rt.alloc();
    let long = format!(in alloc; "{}", EncodeError::TooLong { max: 9 })?;
    assert_eq!(rt; long.as_str(), "more than 9 bytes");
    let memory = format!(in alloc; "{}", EncodeError::OutOfMemory)?;
    assert_eq!(rt; memory.as_str(), "out of memory");
    Ok(())
}
