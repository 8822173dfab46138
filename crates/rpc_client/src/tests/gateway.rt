//! The loop of the crate's first page, over a socket in memory.
ghost use Rattle.rpc_client.specs.Rows.{IsCallable};

use super::*;

/// What a socket gives, piece by piece, and what was written to it.
#[derive(Drop)]
struct Socket<'a> {
    pieces: &'a [&'a [u8]],
    written: Vec<u8>,
}

/// Asks once the client is open. The ticket, where it asked.
fn ask(client: &mut Client, desc: &RpcDesc, query: &Value) -> Option<Ticket>
    requires { IsCallable desc.now }
{
    match client.dispatch(desc, query) {
        Ok(ticket) => Some(ticket),
        Err(_) => None,
    }
}

/// Writes what stands, as much as there is room for.
fn write_out(client: &mut Client, written: &mut Vec<u8>) -> Result<(), OutOfMemory> {
    let mut buffer = [0; 64];
    let count = client.take_out(&mut buffer);
    Ok(written.extend_from_slice(&buffer[..count])?)
}

/// Takes a piece message by message, until it is taken or closes the client.
fn feed_all(client: &mut Client, piece: &[u8], now: u64) -> Result<(), FeedError> {
    let mut rest = piece;
    for _ in 0..piece.len() {
        let used = client.feed(rest, now)?;
        rest = rest.get(used..).unwrap_or_default();
    }
    Ok(())
}

fn drive(
    client: &mut Client,
    socket: &mut Socket<'_>,
    desc: &RpcDesc,
    query: &Value,
) -> Result<Option<Ticket>, Fail>
    requires { IsCallable desc.now }
{
    let mut asked = None;
    for (now, piece) in socket.pieces.iter().enumerate() {
        client.tick(now as u64)?;
        if asked.is_none() {
            asked = ask(client, desc, query);
        }
        write_out(client, &mut socket.written)?;
        feed_all(client, piece, now as u64)?;
    }
    Ok(asked)
}

/// The header of the other end and its reply "hi", cut anywhere.
const PIECES: [&[u8]; 5] = [
    &[2, 0, 0, 0],
    &[0, 0, 0, 0, 1, 1],
    &[7, 0, 0, 0, 0, 0, 0, 0, 2, 0],
    &[0, 3, 2, 0x68],
    &[0x69],
];

/// The frames of its own header and of the call of `echo` with "hi".
const WRITTEN: [u8; 30] = [
    2, 0, 0, 0, 0, 0, 0, 0, 1, 1, 12, 0, 0, 0, 0, 0, 0, 0, 1, 4, 0x65, 0x63, 0x68, 0x6F, 1, 0, 3,
    2, 0x68, 0x69,
];

fn ask_echo(
    alloc: Global,
    client: &mut Client,
    socket: &mut Socket<'_>,
) -> Result<Option<Ticket>, Fail> {
    let plain = echo(alloc, Kind::Plain)?;
    let query = hi(alloc)?;
    drive(client, socket, &plain, &query)
}

/// Whether a text came as the reply.
fn is_replied(client: &mut Client, asked: Option<Ticket>) -> bool {
    match asked {
        Some(ticket) => matches!(
            client.take(&ticket),
            Took::Ended(Ending::Reply(Value::Text(_)))
        ),
        None => false,
    }
}

#[test]
fn a_gateway_calls_over_its_socket(rt: HostRuntime) -> Result<(), Fail> {
    let alloc = rt.alloc();
    let mut client = Client::new(alloc, Limits::usual(), 0)?;
    let mut socket = Socket {
        pieces: &PIECES,
        written: Vec::new(alloc),
    };
    let asked = ask_echo(alloc, &mut client, &mut socket)?;
    assert!(rt; socket.written.as_slice() == WRITTEN.as_slice());
    assert!(rt; is_replied(&mut client, asked));
    Ok(())
}
