ghost use Rattle.std.specs.Prelude.{◌≡◌, true, IfOk};
ghost use Rattle.rpc_end.specs.Taking.{CanPutBack};

use super::*;
use bp_value::OutOfMemory;
use rpc_msg::{CloseCause, FeedError, Limits, Message, Ticked};
use std::alloc::Global;
use std::test::Fail;

/// The frame of a header that tells version 1, and that of a heartbeat.
const HEADER: [u8; 10] = [2, 0, 0, 0, 0, 0, 0, 0, 1, 1];

const BEAT: [u8; 9] = [1, 0, 0, 0, 0, 0, 0, 0, 0];

fn new(alloc: Global) -> Result<End, OutOfMemory> {
    End::new(alloc, Limits::usual(), 0)
}

/// An end that has read a header.
fn open(alloc: Global) -> Result<End, Fail> {
    let mut end = new(alloc)?;
    match end.next(&HEADER, 0) {
        Ok(Next::Part { used: 10 }) if end.is_open() => Ok(end),
        _ => Err(Fail::new("the header was not taken")),
    }
}

/// The message whose frame ends at the end of the piece.
fn got(end: &mut End, piece: &[u8]) -> Result<Got, Fail>
    ensures back { IfOk result (λ got. CanPutBack end.new got.body got.used) }
    ensures greeted { IfOk result (λ got. end.new.greeted ≡ true) }
{
    match end.next(piece, 5) {
        Ok(Next::Message(got)) => Ok(got),
        _ => Err(Fail::new("no message came")),
    }
}

#[test]
fn opens_with_its_header_and_says_messages(rt: HostRuntime) -> Result<(), Fail> {
    let mut end = open(rt.alloc())?;
    end.say(&Message::Heartbeat)?;
    let mut out = [0xEE; 16];
    assert_eq!(rt; end.take_out(&mut out), 16);
    assert_eq!(rt; out[..10], HEADER[..]);
    assert_eq!(rt; end.take_out(&mut out), 3);
    assert_eq!(rt; out[..3], BEAT[6..]);
    assert_eq!(rt; end.take_out(&mut out), 0);
    Ok(())
}

#[test]
fn takes_a_message_that_it_gave_back(rt: HostRuntime) -> Result<(), Fail> {
    let mut end = open(rt.alloc())?;
    assert_eq!(rt; end.would_take(&BEAT[..4]), 4);
    assert!(rt; matches!(end.next(&BEAT[..4], 1), Ok(Next::Part { used: 4 })));
    assert_eq!(rt; end.wants(), 4);
    let first = got(&mut end, &BEAT[4..])?;
    assert_eq!(rt; first.used, 5);
    end.undo(first);
    assert_eq!(rt; end.wants(), 4);
    let again = got(&mut end, &BEAT[4..])?;
    assert!(rt; matches!(again.message, Message::Heartbeat));
    end.heard(6);
    assert_eq!(rt; end.wants(), 8);
    Ok(())
}

#[test]
fn sends_heartbeats_and_closes_once(rt: HostRuntime) -> Result<(), Fail> {
    let mut end = open(rt.alloc())?;
    assert_eq!(rt; end.tick(9_999)?, Ticked::Quiet);
    assert_eq!(rt; end.tick(10_000)?, Ticked::Sent);
    let late = CloseCause::Late {
        last: 0,
        now: 30_001,
    };
    assert_eq!(rt;
        end.tick(30_001)?,
        Ticked::Late {
            last: 0,
            now: 30_001
        }
    );
    end.shut(CloseCause::ClosedHere);
    assert_eq!(rt; end.cause(), Some(&late));
    assert_eq!(rt; end.tick(30_002)?, Ticked::Closed);
    assert!(rt; matches!(end.next(&BEAT, 7), Err(FeedError::Closed(_))));
    Ok(())
}

#[test]
fn names_what_is_at_fault_at_its_place(rt: HostRuntime) -> Result<(), Fail> {
    let mut long = new(rt.alloc())?;
    assert!(rt; long.next(&[0, 0, 0, 0, 1], 0).is_err());
    assert_eq!(rt; long.cause(), Some(&CloseCause::BadFrame { at: 4 }));
    let mut other = new(rt.alloc())?;
    assert!(rt; other.next(&[2, 0, 0, 0, 0, 0, 0, 0, 1, 2], 0).is_err());
    assert_eq!(rt; other.cause(), Some(&CloseCause::NoCommonProtocol));
    Ok(())
}

fn moves_to_a_thread<T: Send + Drop>(_value: T) {}

#[test]
fn an_end_moves_to_a_thread(rt: HostRuntime) -> Result<(), Fail> {
    moves_to_a_thread(new(rt.alloc())?);
    Ok(())
}
