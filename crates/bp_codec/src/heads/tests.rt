use super::*;
use std::test::Fail;

#[test]
fn a_head_moves_the_cursor_behind_it(rt: HostRuntime) -> Result<(), Fail> {
    let mut rest: &[u8] = &[
        0x05, 0xFE, 0x80, 0x00, 0xFF, 0x80, 0x00, 0x01, 0x41, 0x02, 0x02, 0x68, 0x69, 0x01, 0x02,
        0x03, 0x04, 0x5A,
    ];
    assert_eq!(rt; length_at(&mut rest, 1000), Ok(5));
    assert_eq!(rt; length_at(&mut rest, 1000), Ok(128));
    assert_eq!(rt; number_at(&mut rest, IntKind::Int63), Ok(-128));
    assert_eq!(rt; unit_at(&mut rest), Ok(()));
    assert_eq!(rt; flag_at(&mut rest, Why::Byte), Ok(true));
    assert_eq!(rt; char_at(&mut rest), Ok(0x41));
    assert_eq!(rt; place_at(&mut rest, 3), Ok(2));
    let text = text_at(&mut rest, rt.alloc(), 1000)?;
    assert_eq!(rt; text.as_slice(), b"hi".as_slice());
    assert_eq!(rt; tag_at(&mut rest, &[5, 0x0403_0201]), Ok(1));
    assert_eq!(rt; rest, [0x5A].as_slice());
    Ok(())
}
