//! The limits of a server: how long messages are, and how many queries are open.
ghost use Rattle.std.specs.Prelude.{IfOk};
ghost use Rattle.rpc_msg.specs.Limits.{AreLimits};

use super::*;

/// At most so many bytes for a message, and one open query.
fn small() -> Limits
    ensures { AreLimits result }
{
    Limits {
        max_message: 1024,
        max_open: 1,
        beat_every: 1,
        beat_timeout: 10,
    }
}

/// So many letters.
fn letters(alloc: Global, count: usize) -> Result<Vec<u8>, OutOfMemory> {
    let mut text = Vec::new(alloc);
    for _ in 0..count {
        text.push(b'n')?;
    }
    Ok(text)
}

#[test]
fn no_message_is_longer_than_the_limit(rt: HostRuntime) -> Result<(), Fail> {
    let alloc = rt.alloc();
    let mut server = open(alloc, small())?;
    let long = letters(alloc, 1020)?;
    let too_long = Err(ActError::TooLong { max: 1024 });
    let turns = [
        Turn::Comes(&ECHO, ASKED),
        Turn::Acts(0, Do::Reply(&long), too_long),
        Turn::Acts(0, Do::Fail(&long), too_long),
        Turn::Says(&[]),
    ];
    assert_eq!(rt; first_odd(alloc, &mut server, &turns)?, None);
    Ok(())
}

/// A query with another id than that of `ECHO`.
const SECOND: &[u8] = b"\x01\x04echo\x01\x02\x01\x00";

#[test]
fn a_query_too_many_closes_it(rt: HostRuntime) -> Result<(), Fail> {
    let alloc = rt.alloc();
    let mut server = open(alloc, small())?;
    let turns = [
        Turn::Comes(&ECHO, ASKED),
        Turn::Comes(SECOND, Told::Closed(CloseCause::TooManyOpen { count: 1 })),
    ];
    assert_eq!(rt; first_odd(alloc, &mut server, &turns)?, None);
    Ok(())
}

/// The error `answer too long` to the query 0.
const TOO_LONG: &[u8] = b"\x02\x00\x01\x03\x00\x0Fanswer too long";

/// A query of 1024 bytes to nobody, whose name would stand in the answer to it.
fn long_query(alloc: Global) -> Result<Vec<u8>, OutOfMemory> {
    let mut body = Vec::new(alloc);
    body.extend_from_slice(&[1, 0xFE, 0xF9, 3])?;
    body.extend_from_slice(&letters(alloc, 1017)?)?;
    body.extend_from_slice(&[0, 0, 0])?;
    Ok(body)
}

#[test]
fn an_own_answer_may_be_too_long(rt: HostRuntime) -> Result<(), Fail> {
    let alloc = rt.alloc();
    let mut server = open(alloc, small())?;
    let query = long_query(alloc)?;
    let turns = [Turn::Comes(&query, Told::Nothing), Turn::Says(&[TOO_LONG])];
    assert_eq!(rt; first_odd(alloc, &mut server, &turns)?, None);
    Ok(())
}
