use super::{HexError, put_hex, read_hex};
use std::test::Fail;

#[test]
fn bytes_are_read(rt: HostRuntime) -> Result<(), Fail> {
    let bytes = read_hex(rt.alloc(), b" 05\n0aFf\r ")?;
    assert_eq!(rt; bytes.as_slice(), b"\x05\x0A\xFF".as_slice());
    Ok(())
}

#[test]
fn a_bad_byte_is_found_among_the_blanks(rt: HostRuntime) {
    let rows: [(&[u8], usize); 4] = [(b"05 0g", 4), (b"05 0", 4), (b"0 5", 1), (b"05\t", 2)];
    for (text, at) in rows {
        assert!(rt; read_hex(rt.alloc(), text) == Err(HexError::BadHex { at }));
    }
}

#[test]
fn bytes_are_put_in_lower_case(rt: HostRuntime) -> Result<(), Fail> {
    let alloc = rt.alloc();
    let mut out = Vec::new(alloc);
    put_hex(alloc, b"\x05\xFA", &mut out)?;
    assert_eq!(rt; out.as_slice(), b"05fa".as_slice());
    Ok(())
}
