use super::{Faults, run_with};
use std::alloc::Global;
use std::test::Fail;

/// The status of a command on an input, and what it writes.
fn obeyed(alloc: Global, command: &str, shape: &str, input: &[u8]) -> Result<(u8, Vec<u8>), Fail> {
    run_with(alloc, &[command, shape], input, Faults::none(alloc))
}

/// A shape, an input, the status, and what is written.
type Row<'a> = (&'a str, &'a [u8], u8, &'a str);

#[test]
fn values_are_shown(rt: HostRuntime) -> Result<(), Fail> {
    let alloc = rt.alloc();
    let rows: [Row; 12] = [
        ("int", b"fe0500", 0, "5\n3 bytes\n"),
        ("string", b"00", 0, "\"\"\n1 bytes\n"),
        (
            "[`Ok of int | `Eof]",
            b"798A 0000\r\n07\n",
            0,
            "`Ok(7)\n5 bytes\n",
        ),
        (
            "(int * bool) option",
            b"010701",
            0,
            "some (7, true)\n3 bytes\n",
        ),
        ("int", b"fc0000000000000040", 1, "refused at 8: range\n"),
        ("int", b"ff05", 1, "refused at 1: sign\n"),
        ("int", b"80", 1, "refused at 0: code\n"),
        ("int", b"", 1, "cut at 0\n"),
        ("int", b"0505", 1, "trailing at 1\n"),
        ("string", b"0561", 1, "cut at 2\n"),
        ("[A | B]", b"02", 1, "refused at 0: case\n"),
        ("[`Ok of int | `Eof]", b"798b", 1, "refused at 1: tag\n"),
    ];
    for (shape, input, wanted, text) in rows {
        let (status, written) = obeyed(alloc, "show", shape, input)?;
        assert_eq!(rt; status, wanted);
        assert_eq!(rt; written.as_slice(), text.as_bytes());
    }
    Ok(())
}

#[test]
fn hex_is_refused_at_its_place_among_blanks(rt: HostRuntime) -> Result<(), Fail> {
    let alloc = rt.alloc();
    let rows: [Row; 4] = [
        ("int", b"05 0g", 1, "input: bad hex at 4\n"),
        ("int", b"0 5", 1, "input: bad hex at 1\n"),
        ("int", b" 0", 1, "input: bad hex at 2\n"),
        ("int", b"05\t", 1, "input: bad hex at 2\n"),
    ];
    for (shape, input, wanted, text) in rows {
        let (status, written) = obeyed(alloc, "show", shape, input)?;
        assert_eq!(rt; status, wanted);
        assert_eq!(rt; written.as_slice(), text.as_bytes());
    }
    Ok(())
}

#[test]
fn values_are_written(rt: HostRuntime) -> Result<(), Fail> {
    let alloc = rt.alloc();
    let rows: [Row; 8] = [
        (
            "{a: int; b: string list}",
            b"{a = 5; b = [\"x\"; \"\"]}",
            0,
            "0502017800\n",
        ),
        ("[A | B of int * bool]", b"B(3, false)\n", 0, "010300\n"),
        ("sexp", b"(\"a\" ())", 0, "01020001610100\n"),
        ("int", b"-100", 0, "ff9c\n"),
        ("int", b"100", 0, "64\n"),
        ("int", b"007", 1, "value: bad text at 0\n"),
        ("int", b"7\n\n", 1, "value: bad text at 1\n"),
        ("string", b"\"abc\n", 1, "value: bad text at 4\n"),
    ];
    for (shape, input, wanted, text) in rows {
        let (status, written) = obeyed(alloc, "write", shape, input)?;
        assert_eq!(rt; status, wanted);
        assert_eq!(rt; written.as_slice(), text.as_bytes());
    }
    Ok(())
}

/// So many round brackets, what stands in them, and as many closing ones.
fn nested(alloc: Global, depth: usize, inside: &[u8]) -> Result<Vec<u8>, Fail> {
    let mut text = Vec::new(alloc);
    for _ in 0..depth {
        text.push(b'(')?;
    }
    text.extend_from_slice(inside)?;
    for _ in 0..depth {
        text.push(b')')?;
    }
    Ok(text)
}

#[test]
fn an_s_expression_is_at_most_128_deep(rt: HostRuntime) -> Result<(), Fail> {
    let alloc = rt.alloc();
    let (status, written) = obeyed(alloc, "write", "sexp", nested(alloc, 128, b"")?.as_slice())?;
    let mut wanted = Vec::new(alloc);
    for _ in 0..127 {
        wanted.extend_from_slice(b"0101")?;
    }
    wanted.extend_from_slice(b"0100\n")?;
    assert_eq!(rt; status, 0);
    assert_eq!(rt; written.as_slice(), wanted.as_slice());
    let deep = nested(alloc, 128, b"\"a\"")?;
    let (status, written) = obeyed(alloc, "write", "sexp", deep.as_slice())?;
    assert_eq!(rt; status, 1);
    assert_eq!(rt; written.as_slice(), b"value: bad text at 128\n".as_slice());
    Ok(())
}

#[test]
fn a_shape_is_refused_before_the_input_is_read(rt: HostRuntime) -> Result<(), Fail> {
    let alloc = rt.alloc();
    let rows = [
        ("float", "shape: float at 0\n"),
        ("(int", "shape: bad text at 4\n"),
        ("[`azdwbie | `c7diagq]", "shape: not good: tag clash 0 1\n"),
    ];
    for (shape, text) in rows {
        // The first read would fail.
        let faults = Faults {
            source: [0].to_vec(alloc)?,
            ..Faults::none(alloc)
        };
        let (status, written) = run_with(alloc, &["show", shape], b"00", faults)?;
        assert_eq!(rt; status, 1);
        assert_eq!(rt; written.as_slice(), text.as_bytes());
        // Where writing fails, the status is that of it.
        let faults = Faults {
            sink: [0].to_vec(alloc)?,
            ..Faults::none(alloc)
        };
        let (status, written) = run_with(alloc, &["show", shape], b"00", faults)?;
        assert_eq!(rt; (status, written.len()), (4, 0));
    }
    Ok(())
}
