use super::*;

fn done(value: i64, used: usize) -> NumRead {
    NumRead::Done { value, used }
}

fn bad(at: usize, why: Why) -> NumRead {
    NumRead::Bad { at, why }
}

#[test]
fn a_nat0_is_written_in_its_shortest_form(rt: HostRuntime) {
    let rows: [(u64, &[u8]); 6] = [
        (0, &[0x00]),
        (127, &[0x7F]),
        (128, &[0xFE, 0x80, 0x00]),
        (65535, &[0xFE, 0xFF, 0xFF]),
        (65536, &[0xFD, 0x00, 0x00, 0x01, 0x00]),
        (
            4294967296,
            &[0xFC, 0x00, 0x00, 0x00, 0x00, 0x01, 0x00, 0x00, 0x00],
        ),
    ];
    for (n, want) in rows {
        assert!(rt; n < 1 << 62);
        let mut into = [0xAA; 9];
        let length = write_nat0(n, &mut into);
        assert!(rt; length <= 9);
        assert_eq!(rt; &into[..length], want);
        assert_eq!(rt; nat0_len(n), length);
        assert_eq!(rt; read_nat0(want, n), done(n as i64, length));
    }
}

#[test]
fn an_int_is_written_in_its_shortest_form(rt: HostRuntime) {
    let rows: [(i64, &[u8]); 13] = [
        (0, &[0x00]),
        (127, &[0x7F]),
        (128, &[0xFE, 0x80, 0x00]),
        (32767, &[0xFE, 0xFF, 0x7F]),
        (32768, &[0xFD, 0x00, 0x80, 0x00, 0x00]),
        (2147483647, &[0xFD, 0xFF, 0xFF, 0xFF, 0x7F]),
        (
            2147483648,
            &[0xFC, 0x00, 0x00, 0x00, 0x80, 0x00, 0x00, 0x00, 0x00],
        ),
        (-1, &[0xFF, 0xFF]),
        (-128, &[0xFF, 0x80]),
        (-129, &[0xFE, 0x7F, 0xFF]),
        (-32768, &[0xFE, 0x00, 0x80]),
        (-32769, &[0xFD, 0xFF, 0x7F, 0xFF, 0xFF]),
        (
            -2147483649,
            &[0xFC, 0xFF, 0xFF, 0xFF, 0x7F, 0xFF, 0xFF, 0xFF, 0xFF],
        ),
    ];
    for (n, want) in rows {
        let mut into = [0xAA; 9];
        let length = write_int(n, &mut into);
        assert!(rt; length <= 9);
        assert_eq!(rt; &into[..length], want);
        assert_eq!(rt; int_len(n), length);
        assert_eq!(rt; read_int(IntKind::Int64, want), done(n, length));
    }
}

#[test]
fn an_int_is_read_or_refused_at_its_first_faulty_byte(rt: HostRuntime) {
    let rows: [(IntKind, &[u8], NumRead); 9] = [
        (IntKind::Int63, &[0xFE, 0x05, 0x00], done(5, 3)),
        (
            IntKind::Int63,
            &[0xFC, 0x00, 0x00, 0x00, 0x00, 0x00, 0x00, 0x00, 0x40],
            bad(8, Why::Range),
        ),
        (
            IntKind::Int64,
            &[0xFC, 0x00, 0x00, 0x00, 0x00, 0x00, 0x00, 0x00, 0x40],
            done(1 << 62, 9),
        ),
        (
            IntKind::Int63,
            &[0xFC, 0x00, 0x00, 0x00, 0x00, 0x00, 0x00, 0x00, 0xC0, 0x07],
            done(-(1 << 62), 9),
        ),
        (IntKind::Int63, &[0xFF, 0x05], bad(1, Why::Sign)),
        (IntKind::Int63, &[0x80], bad(0, Why::Code)),
        (IntKind::Int32, &[0xFC], bad(0, Why::Code)),
        (IntKind::Int63, &[0xFD, 0x00, 0x00, 0x00], NumRead::More),
        (IntKind::Int63, &[], NumRead::More),
    ];
    for (kind, bytes, want) in rows {
        assert_eq!(rt; read_int(kind, bytes), want);
    }
}

#[test]
fn a_nat0_is_read_within_its_limit(rt: HostRuntime) {
    let rows: [(u64, &[u8], NumRead); 6] = [
        (1000, &[0xFF], bad(0, Why::Code)),
        (100, &[0xFE, 0x65], bad(1, Why::Length)),
        (100, &[0xFE, 0x64], NumRead::More),
        (100, &[0xFE, 0x64, 0x00, 0x7F], done(100, 3)),
        (100, &[0x65], bad(0, Why::Length)),
        (70000, &[0xFC, 0x70, 0x11, 0x02, 0x00], bad(3, Why::Length)),
    ];
    for (max, bytes, want) in rows {
        assert!(rt; max < 1 << 62);
        assert_eq!(rt; read_nat0(bytes, max), want);
    }
}
