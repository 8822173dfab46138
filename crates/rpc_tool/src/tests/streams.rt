use super::{Faults, run_with};
use std::test::Fail;

/// A stream's hex, the status, and what is written.
type Row = (&'static str, u8, &'static str);

const STREAMS: [Row; 10] = [
    (
        "0200000000000000 0101 0100000000000000 00 \
        0C00000000000000 01 046563686F 01 00 03026869",
        0,
        "versions [1]\nheartbeat\nquery \"echo\" 1 0 026869\n",
    ),
    (
        "0300000000000000 020107 0700000000000000 02 00 00 03026869 \
        0500000000000000 02 02 00 00",
        1,
        "versions [1; 7]\nresponse 0 ok 026869\nframe cut at 38\n",
    ),
    (
        "0200000000000000 0101 0E00000000000000 02000104 046E6F7065 F11D8694 07 \
        0400000000000000 02020000",
        0,
        "versions [1]\nresponse 0 error unimplemented \"nope\" 7\nresponse 2 ok \n",
    ),
    (
        "0300000000000000 020203",
        1,
        "versions [2; 3]\nno common protocol\n",
    ),
    (
        "0200000000000000 0102 FF",
        1,
        "versions [2]\nno common protocol\n",
    ),
    (
        "0200000000000000 0101 0000000000000000",
        1,
        "versions [1]\nmessage cut at 18\n",
    ),
    (
        "0200000000000000 0101 0200000000000000 0000",
        1,
        "versions [1]\nmessage trailing at 19\n",
    ),
    ("0200000000000000 01", 1, "frame cut at 9\n"),
    ("", 1, "frame cut at 0\n"),
    ("FFFFFFFFFFFFFFFF", 1, "frame too long at 3\n"),
];

#[test]
fn each_stream_has_its_lines(rt: HostRuntime) -> Result<(), Fail> {
    let alloc = rt.alloc();
    for (hex, wanted, text) in STREAMS {
        let faults = Faults::none(alloc);
        let (status, written) = run_with(alloc, &["frames"], hex.as_bytes(), faults)?;
        assert_eq!(rt; status, wanted);
        assert_eq!(rt; written.as_slice(), text.as_bytes());
    }
    let faults = Faults {
        source: [0].to_vec(alloc)?,
        ..Faults::none(alloc)
    };
    let (status, written) = run_with(alloc, &["frames"], b"", faults)?;
    assert_eq!(rt; (status, written.len()), (3, 0));
    Ok(())
}
