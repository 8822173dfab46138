//! The loop of the crate's first page, over a socket in memory.
use super::*;

/// What a socket gives, piece by piece, and what was written to it.
#[derive(Drop)]
struct Socket<'a> {
    pieces: &'a [&'a [u8]],
    written: Vec<u8>,
}

/// The handler of `echo` answers with its own query, at once.
fn handle(server: &mut Server, arrival: Arrival) -> Result<(), ActError> {
    match arrival {
        Arrival::Asked { id, query, .. } => server.reply(id, &query),
        _ => Ok(()),
    }
}

/// Takes a piece message by message, and has each arrival handled.
fn feed_all(server: &mut Server, piece: &[u8], now: u64) -> Result<(), Fail> {
    let mut rest = piece;
    for _ in 0..piece.len() {
        let fed = server.feed(rest, now)?;
        rest = rest.get(fed.used..).unwrap_or_default();
        if let Some(arrival) = fed.arrival {
            handle(server, arrival)?;
        }
    }
    Ok(())
}

/// Writes what stands, as much as there is room for.
fn write_out(server: &mut Server, written: &mut Vec<u8>) -> Result<(), OutOfMemory> {
    let mut buffer = [0; 64];
    let count = server.take_out(&mut buffer);
    Ok(written.extend_from_slice(&buffer[..count])?)
}

fn drive(server: &mut Server, socket: &mut Socket<'_>) -> Result<(), Fail> {
    for (now, piece) in socket.pieces.iter().enumerate() {
        feed_all(server, piece, now as u64)?;
        server.tick(now as u64)?;
        write_out(server, &mut socket.written)?;
    }
    Ok(())
}

/// The header of the caller and its call of `echo` with "hi", cut anywhere.
const PIECES: [&[u8]; 4] = [
    &[2, 0, 0, 0, 0, 0, 0],
    &[0, 1, 1, 12, 0, 0, 0, 0, 0, 0, 0, 1, 4, 0x65],
    &[0x63, 0x68, 0x6F, 1, 0, 3],
    &[2, 0x68, 0x69],
];

/// The frames of its own header and of its reply.
const WRITTEN: [u8; 25] = [
    2, 0, 0, 0, 0, 0, 0, 0, 1, 1, 7, 0, 0, 0, 0, 0, 0, 0, 2, 0, 0, 3, 2, 0x68, 0x69,
];

#[test]
fn a_gateway_serves_over_its_socket(rt: HostRuntime) -> Result<(), Fail> {
    let alloc = rt.alloc();
    let schema = Schema::read(alloc, SCHEMA.as_bytes())?;
    let mut server = Server::new(alloc, schema, Limits::usual(), 0)?;
    let mut socket = Socket {
        pieces: &PIECES,
        written: Vec::new(alloc),
    };
    drive(&mut server, &mut socket)?;
    assert_eq!(rt; socket.written.as_slice(), WRITTEN.as_slice());
    Ok(())
}
