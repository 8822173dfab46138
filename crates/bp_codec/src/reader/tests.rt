use super::*;
use crate::tests::building::list_of;
use bp_value::Value;
use std::test::Fail;

/// The answer for the next piece, where none before it was the last.
fn fed(reader: &mut Reader, piece: &[u8]) -> Result<Option<Decoded>, OutOfMemory> {
    if reader.is_done() {
        return Ok(None);
    }
    Ok(Some(reader.feed(piece)?))
}

/// That answer as a text, and whether it was the last.
fn shown(alloc: Global, reader: &mut Reader, piece: &[u8]) -> Result<String, Fail> {
    let answer = fed(reader, piece)?;
    Ok(format!(in alloc; "{answer:?} {}", reader.is_done())?)
}

#[test]
fn a_text_in_three_pieces(rt: HostRuntime) -> Result<(), Fail> {
    let alloc = rt.alloc();
    Shape::Text.check()?;
    let mut reader = Reader::new(alloc, &Shape::Text, 100)?;
    let rows: [(&[u8], &str); 3] = [
        (b"\x02", "Some(More) false"),
        (b"h", "Some(More) false"),
        (
            b"i\xFF",
            "Some(Whole { value: Text(\"hi\"), used: 1 }) true",
        ),
    ];
    for (piece, want) in rows {
        assert_eq!(rt; shown(alloc, &mut reader, piece)?.as_str(), want);
    }
    Ok(())
}

/// 400,000 as a length, and so many bytes behind it.
fn long(alloc: Global, byte: u8) -> Result<Vec<u8>, OutOfMemory> {
    let mut bytes = Vec::from_slice(alloc, &[0xFD, 0x80, 0x1A, 0x06, 0x00])?;
    bytes.resize(5 + 400_000, byte)?;
    Ok(bytes)
}

/// The last answer for bytes that come one by one.
fn fed_singly(alloc: Global, shape: &Shape, bytes: &[u8]) -> Result<Option<Decoded>, Fail> {
    shape.check()?;
    let mut reader = Reader::new(alloc, shape, 1_000_000)?;
    let mut last = None;
    for byte in bytes {
        last = fed(&mut reader, &[*byte])?;
    }
    Ok(last)
}

/// How many items or bytes the value has that its last byte ends.
fn count(answer: Option<Decoded>) -> Option<usize> {
    match answer {
        Some(
            Decoded::Whole {
                value: Value::Items(items),
                used: 1,
            },
        ) => Some(items.len()),
        Some(
            Decoded::Whole {
                value: Value::Text(text),
                used: 1,
            },
        ) => Some(text.len()),
        _ => None,
    }
}

/// The number of items or bytes of such a long value, fed byte by byte.
fn long_count(
    alloc: Global,
    shape: Result<Shape, OutOfMemory>,
    byte: u8,
) -> Result<Option<usize>, Fail> {
    let shape = shape?;
    let bytes = long(alloc, byte)?;
    Ok(count(fed_singly(alloc, &shape, &bytes)?))
}

/// A reader that began again at each piece would take hours.
#[test]
fn a_long_list_and_a_long_text_byte_by_byte(rt: HostRuntime) -> Result<(), Fail> {
    let alloc = rt.alloc();
    assert_eq!(rt;
        long_count(alloc, list_of(alloc, Shape::Int), 0x05)?,
        Some(400_000)
    );
    assert_eq!(rt; long_count(alloc, Ok(Shape::Text), 0x61)?, Some(400_000));
    Ok(())
}
