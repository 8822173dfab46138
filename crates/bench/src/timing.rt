// Operations on a value, and how long they took.
ghost use Rattle.std.specs.Prelude.{◌≡◌, IfOk};
ghost use Rattle.bp_value.specs.Form.{form_of};
ghost use Rattle.bp_value.specs.Faults.{IsGood};
ghost use Rattle.bp_grammar.specs.Written.{written};
ghost use Rattle.bp_codec.specs.Fitting.{IsFitting};

use crate::failure::Failure;
use bp_codec::{Decoded, decode, encode};
use bp_value::{Shape, Value, fits};
use std::alloc::Global;
use std::time::{Clock, Duration, Instant};

/// The most bytes of a text, and the most items of a list.
const MAX_LENGTH: u64 = 1 << 30;

/// How long it took to read the value so many times, and to drop it each time.
pub fn decode_time(
    clock: &impl Clock,
    alloc: Global,
    shape: &Shape,
    bytes: &[u8],
    count: u32,
) -> Result<Duration, Failure>
    requires { IsGood (form_of shape.now) }
{
    let mut took = Duration::ZERO;
    for _ in 0..count {
        let start = Instant::now(clock)?;
        drop(whole(alloc, shape, bytes)?);
        took = took.saturating_add(start.elapsed(clock)?);
    }
    Ok(took)
}

/// How long it took to write the value so many times, each time into a new list that grows.
pub fn encode_time(
    clock: &impl Clock,
    alloc: Global,
    shape: &Shape,
    value: &Value,
    count: u32,
) -> Result<Duration, Failure>
    requires good { IsGood (form_of shape.now) }
    requires fits { IsFitting (form_of shape.now) value.now }
{
    let mut took = Duration::ZERO;
    for _ in 0..count {
        let start = Instant::now(clock)?;
        drop(written(alloc, shape, value)?);
        took = took.saturating_add(start.elapsed(clock)?);
    }
    Ok(took)
}

/// The value that the bytes spell, which can be written.
pub fn fitting(alloc: Global, shape: &Shape, bytes: &[u8]) -> Result<Value, Failure>
    requires { IsGood (form_of shape.now) }
    ensures { IfOk result (IsFitting (form_of shape.now)) }
{
    let value = whole(alloc, shape, bytes)?;
    if !fits(shape, &value, MAX_LENGTH) {
        return Err(Failure::Unfit);
    }
    Ok(value)
}

/// The value that the bytes spell.
fn whole(alloc: Global, shape: &Shape, bytes: &[u8]) -> Result<Value, Failure>
    requires { IsGood (form_of shape.now) }
{
    match decode(alloc, shape, bytes, MAX_LENGTH)? {
        Decoded::Whole { value, used } => {
            if used < bytes.len() {
                return Err(Failure::Longer);
            }
            Ok(value)
        }
        Decoded::More => Err(Failure::Cut),
        Decoded::Bad { at, .. } => Err(Failure::BadByte { at }),
    }
}

/// The bytes of the value.
pub fn written(alloc: Global, shape: &Shape, value: &Value) -> Result<Vec<u8>, Failure>
    requires good { IsGood (form_of shape.now) }
    requires fits { IsFitting (form_of shape.now) value.now }
    ensures { IfOk result (λ out. out.items ≡ written (form_of shape.now) value.now) }
{
    let mut out = Vec::new(alloc);
    encode(shape, value, u64::MAX, &mut out)?;
    Ok(out)
}
