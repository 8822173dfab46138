// Values of any shape within bodies.
ghost use Rattle.std.specs.Prelude.{◌^◌, ◌<◌, ◌≤◌};
ghost use Rattle.bp_grammar.specs.Reading.{read};
ghost use Rattle.bp_value.specs.Faults.{IsGood};
ghost use Rattle.bp_value.specs.Form.{form_of};
ghost use Rattle.rpc_msg.specs.Bodies.{IsBodyRead};
ghost use Rattle.rpc_msg.specs.Taken.{TakesAs};

use crate::ends::ended;
use crate::fault::MsgError;
use bp_codec::heads::known;
use bp_codec::stop::Stop;
use bp_codec::{Decoded, decode};
use bp_value::{Shape, Value};
use std::alloc::Global;

/// Reads the value of a shape that a body is. No text or list in it is longer than `max_len`.
pub fn read_whole(
    alloc: Global,
    shape: &Shape,
    body: &[u8],
    max_len: u64,
) -> Result<Value, MsgError>
    requires good { IsGood (form_of shape.now) }
    requires limit { max_len ≤ 2 ^ 30 }
    ensures { IsBodyRead (λ v. v) max_len (form_of shape.now) body.now result }
{
    let mut rest = body;
    let read = value_at(&mut rest, alloc, shape, max_len);
    ended(read, body, rest)
}

/// The value in front.
pub fn value_at(rest: &mut &[u8], alloc: Global, shape: &Shape, max_len: u64) -> Result<Value, Stop>
    requires good { IsGood (form_of shape.now) }
    requires limit { max_len ≤ 2 ^ 30 }
    ensures { TakesAs (λ v. v) (read max_len (form_of shape.now)) rest.old.now rest.new.now result }
{
    let bytes = *rest;
    known(bytes);
    match decode(alloc, shape, bytes, max_len)? {
        Decoded::Whole { value, used } => {
            *rest = &bytes[used..];
            Ok(value)
        }
        Decoded::More => Err(Stop::More),
        Decoded::Bad { at, why } => {
            *rest = &bytes[at..];
            Err(Stop::Bad(why))
        }
    }
}
