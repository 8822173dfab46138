// Calls between a client and a server in memory, and how long they take.
ghost use Rattle.std.specs.Prelude.{◌≡◌, IfOk};
ghost use Rattle.rpc_client.specs.Rows.{IsCallable};

use crate::failure::Failure;
use bp_value::{Blob, Shape, Value};
use rpc_client::{Client, Took};
use rpc_msg::{Ending, Limits};
use rpc_schema::{Kind, RpcDesc, Schema};
use rpc_server::{Arrival, Server};
use std::alloc::Global;
use std::time::{Clock, Duration, Instant};

/// The most bytes that move at a time.
const PIECE: usize = 4096;

/// A procedure that is answered with its text.
const SCHEMA: &[u8] = b"plain echo 1 both = string -> string";

/// How long so many calls took, one after the other, each with a text of so many letters that is
/// answered with itself.
pub fn calls_time(
    clock: &impl Clock,
    alloc: Global,
    letters: usize,
    count: u32,
) -> Result<Duration, Failure> {
    let schema = Schema::read(alloc, SCHEMA).map_err(|_| Failure::Unfit)?;
    let mut client = Client::new(alloc, Limits::usual(), 0)?;
    let mut server = Server::new(alloc, schema, Limits::usual(), 0)?;
    up(&mut client, &mut server)?;
    down(&mut server, &mut client)?;
    let desc = echo(alloc)?;
    let query = Value::Text(Blob::from_vec(vec![in alloc; b'a'; letters]?));
    let mut took = Duration::ZERO;
    for _ in 0..count {
        let start = Instant::now(clock)?;
        call(&mut client, &mut server, &desc, &query)?;
        took = took.saturating_add(start.elapsed(clock)?);
    }
    Ok(took)
}

/// The procedure, as the client has it.
fn echo(alloc: Global) -> Result<RpcDesc, Failure>
    ensures { IfOk result IsCallable }
{
    let text = Shape::Text;
    let unit = Shape::Unit;
    if text.check().is_err() || unit.check().is_err() {
        return Err(Failure::Unfit);
    }
    Ok(RpcDesc {
        name: Blob::from_slice(alloc, b"echo")?,
        version: 1,
        kind: Kind::Plain,
        query: text,
        first: Shape::Text,
        item: unit,
        error: Shape::Unit,
    })
}

/// One call: its query goes up, its reply comes down and is taken.
fn call(
    client: &mut Client,
    server: &mut Server,
    desc: &RpcDesc,
    query: &Value,
) -> Result<(), Failure>
    requires { IsCallable desc.now }
{
    let ticket = client.dispatch(desc, query).map_err(|_| Failure::Unfit)?;
    up(client, server)?;
    down(server, client)?;
    match client.take(&ticket) {
        Took::Ended(Ending::Reply(_)) => Ok(()),
        _ => Err(Failure::Unfit),
    }
}

/// Moves what goes up. Each query that comes is answered with itself.
fn up(client: &mut Client, server: &mut Server) -> Result<(), Failure> {
    let mut piece = [0; PIECE];
    let count = client.take_out(&mut piece);
    let mut rest = &piece[..count];
    for _ in 0..count {
        if rest.is_empty() {
            return Ok(());
        }
        let fed = server.feed(rest, 0).map_err(|_| Failure::Unfit)?;
        rest = rest.get(fed.used..).unwrap_or_default();
        answer(server, fed.arrival)?;
    }
    Ok(())
}

/// Answers a query with itself.
fn answer(server: &mut Server, arrival: Option<Arrival>) -> Result<(), Failure> {
    match arrival {
        Some(
            Arrival::Asked {
                id,
                place: _place,
                query,
            },
        ) => server.reply(id, &query).map_err(|_| Failure::Unfit),
        Some(_other) => Ok(()),
        None => Ok(()),
    }
}

/// Moves what comes down.
fn down(server: &mut Server, client: &mut Client) -> Result<(), Failure> {
    let mut piece = [0; PIECE];
    let count = server.take_out(&mut piece);
    let mut rest = &piece[..count];
    for _ in 0..count {
        if rest.is_empty() {
            return Ok(());
        }
        let used = client.feed(rest, 0).map_err(|_| Failure::Unfit)?;
        rest = rest.get(used..).unwrap_or_default();
    }
    Ok(())
}
