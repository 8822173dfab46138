// What is done to the queries that are kept, and to the link.
ghost use Rattle.std.specs.Prelude.{◌≡◌, ◌≢◌, ◌≤◌, ◌^◌};
ghost use Rattle.rpc_end.specs.Ends.{EndState};
ghost use Rattle.rpc_server.specs.Doing.{DoesAsHeard, Sends};
ghost use Rattle.rpc_server.specs.Tables.{standing};
ghost use Rattle.rpc_server.specs.declared.hearing.Heard.TheVariants as does;
ghost use Rattle.rpc_server.specs.declared.table.Standing.TheVariants.{Nowhere};

use crate::arrival::Arrival;
use crate::data::eof_data;
use crate::error::ActError;
use crate::hearing::Heard;
use crate::own::{is_short, response};
use crate::table::{Standing, Table};
use bp_value::{OutOfMemory, Value};
use rpc_end::End;
use rpc_msg::{Answer, FeedError, Message};
use std::alloc::Global;

/// Does what is to be done with a query, and tells what came of it. What may want memory comes
/// first.
pub fn follow(
    alloc: Global,
    table: &mut Table,
    link: &mut End,
    id: i64,
    heard: Heard,
) -> Result<Option<Arrival>, FeedError>
    requires { heard ≡ does.Stopped → standing table.old id ≢ Nowhere }
    ensures { DoesAsHeard table.old link.old id heard result table.new link.new }
{
    match heard {
        Heard::Ignored => {
            table.pass(id);
            Ok(None)
        }
        Heard::Answered(message) => say(table, link, id, &message),
        Heard::Asked { place, query } => ask(table, id, place, query),
        Heard::Noted { place, query } => {
            table.pass(id);
            Ok(Some(Arrival::Noted { id, place, query }))
        }
        Heard::Stopped => stop(alloc, table, link, id),
        Heard::Faulty(cause) => Err(FeedError::Closed(cause)),
    }
}

// A query is to be answered.
fn ask(table: &mut Table, id: i64, place: usize, query: Value) -> Result<Option<Arrival>, FeedError>
    ensures { (link : EndState) → DoesAsHeard table.old link id (does.Asked place query) result
        table.new link }
{
    let standing = Standing::Open {
        place,
        begun: false,
    };
    match table.put(id, standing) {
        Ok(()) => Ok(Some(Arrival::Asked { id, place, query })),
        Err(OutOfMemory) => Err(FeedError::OutOfMemory),
    }
}

// The server answers by itself.
fn say(
    table: &mut Table,
    link: &mut End,
    id: i64,
    message: &Message,
) -> Result<Option<Arrival>, FeedError>
    ensures { DoesAsHeard table.old link.old id (does.Answered message.now) result
        table.new link.new }
{
    match link.say(message) {
        Ok(()) => {
            table.pass(id);
            Ok(None)
        }
        Err(OutOfMemory) => Err(FeedError::OutOfMemory),
    }
}

// A stream is stopped, and its end told.
fn stop(
    alloc: Global,
    table: &mut Table,
    link: &mut End,
    id: i64,
) -> Result<Option<Arrival>, FeedError>
    requires { standing table.old id ≢ Nowhere }
    ensures { DoesAsHeard table.old link.old id does.Stopped result table.new link.new }
{
    let Ok(bytes) = eof_data(alloc) else {
        return Err(FeedError::OutOfMemory);
    };
    let eof = response(id, Answer::Ok(bytes));
    match link.say(&eof) {
        Ok(()) => {
            table.set(id, Standing::Stopped);
            Ok(Some(Arrival::Stopped { id }))
        }
        Err(OutOfMemory) => Err(FeedError::OutOfMemory),
    }
}

/// Has an answer to an open query go out, if it is short enough, and the query stand so from then
/// on.
pub fn send(
    alloc: Global,
    max: u64,
    table: &mut Table,
    link: &mut End,
    id: i64,
    answer: Answer,
    after: Standing,
) -> Result<(), ActError>
    requires kept { standing table.old id ≢ Nowhere }
    requires limit { max ≤ 2 ^ 30 }
    ensures { Sends max table.old link.old id answer after result table.new link.new }
{
    let message = response(id, answer);
    if !is_short(alloc, max, &message)? {
        return Err(ActError::TooLong { max });
    }
    link.say(&message)?;
    table.settle(id, after);
    Ok(())
}
