use super::*;
use bp_value::Blob;
use std::test::Fail;

/// The frame of the body `01 01`: what each end of a connection sends first.
const HEADER: [u8; 10] = [2, 0, 0, 0, 0, 0, 0, 0, 1, 1];

/// Whether a piece gave this body, of which its first `used` bytes were the last.
fn gave(fed: &Result<Fed, FrameError>, body: &[u8], used: usize) -> bool {
    match fed {
        Ok(
            Fed {
                used: taken,
                frame: Some(frame),
            },
        ) => *taken == used && frame.as_slice() == body,
        _ => false,
    }
}

/// Whether all of a piece was taken, and gave nothing.
fn gave_none(fed: &Result<Fed, FrameError>, used: usize) -> bool {
    match fed {
        Ok(
            Fed {
                used: taken,
                frame: None,
            },
        ) => *taken == used,
        _ => false,
    }
}

#[test]
fn a_header_is_written(rt: HostRuntime) -> Result<(), Fail> {
    let mut out = Vec::new(rt.alloc());
    put_frame(&[1, 1], &mut out)?;
    assert!(rt; out.as_slice() == &HEADER[..]);
    Ok(())
}

#[test]
fn a_header_in_two_pieces(rt: HostRuntime) -> Result<(), Fail> {
    let mut reader = FrameReader::new(rt.alloc(), 100);
    assert!(rt; reader.wants() == 8);
    assert!(rt; gave_none(&reader.feed(&HEADER[..7]), 7));
    assert!(rt; reader.wants() == 1);
    let fed = reader.feed(&HEADER[7..]);
    assert!(rt; gave(&fed, &[1, 1], 3));
    assert!(rt; reader.place() == 10 && reader.wants() == 8);
    Ok(())
}

#[test]
fn a_feed_is_taken_back(rt: HostRuntime) -> Result<(), Fail> {
    let mut reader = FrameReader::new(rt.alloc(), 100);
    assert!(rt; gave_none(&reader.feed(&HEADER[..8]), 8));
    assert!(rt; reader.wants() == 2);
    let mut reader = FrameReader::new(rt.alloc(), 100);
    let fed = reader.feed(&HEADER);
    let Ok(
        Fed {
            used: 10,
            frame: Some(_),
        },
    ) = fed
    else {
        panic!(rt; "no frame");
    };
    reader.undo(Blob::from_slice(rt.alloc(), &[1, 1])?, 3, 7);
    assert!(rt; reader.place() == 7 && reader.wants() == 1);
    assert!(rt; reader.would_take(&[0, 1, 1, 5]) == 3);
    assert!(rt; gave(&reader.feed(&[0, 1, 1, 5]), &[1, 1], 3));
    Ok(())
}

#[test]
fn a_length_past_the_limit(rt: HostRuntime) {
    let mut reader = FrameReader::new(rt.alloc(), 104_857_600);
    assert!(rt; matches!(reader.feed(&[0xFF; 8]), Err(FrameError::TooLong { at: 3 })));
    assert!(rt; matches!(reader.feed(&[0xFF; 8]), Err(FrameError::Failed { at: 3 })));
    let mut reader = FrameReader::new(rt.alloc(), 300);
    // 256 + 45 is one too many: the second byte of the length is at fault.
    assert!(rt; gave_none(&reader.feed(&[45]), 1));
    assert!(rt; reader.would_take(&[1, 0]) == 1);
    assert!(rt; matches!(reader.feed(&[1, 0]), Err(FrameError::TooLong { at: 1 })));
    assert!(rt; reader.place() == 2 && reader.wants() == 0 && reader.would_take(&[0]) == 0);
    assert!(rt; matches!(reader.feed(&[0]), Err(FrameError::Failed { at: 1 })));
    let mut reader = FrameReader::new(rt.alloc(), 300);
    assert!(rt; gave_none(&reader.feed(&[44, 1, 0, 0, 0, 0, 0, 0, 7]), 9));
    assert!(rt; reader.wants() == 299);
}
