// The data of answers, each value in its shortest spelling.
ghost use Rattle.std.specs.Prelude.{◌≡◌, ◌++◌, pos, IfOk};
ghost use Rattle.bp_codec.specs.Fitting.{IsFitting};
ghost use Rattle.bp_grammar.specs.Written.{written};
ghost use Rattle.bp_value.specs.Faults.{IsGood};
ghost use Rattle.bp_value.specs.Form.{Form, form_of};
ghost use Rattle.rpc_msg.specs.Forms.{first_form, part_form};
ghost use Rattle.rpc_msg.specs.Values.{eof_value, first_value, item_value};
ghost use Rattle.rpc_msg.specs.declared.data.First.TheVariants as first;
ghost use Rattle.rpc_server.specs.Giving.{GivesBytes};

use bp_codec::encoding::put_bytes;
use bp_codec::{EncodeError, encode};
use bp_value::{Blob, OutOfMemory, Shape, Value};
use std::alloc::Global;

/// The number in a first answer that is not used, and the case of what begins a stream.
const BEGUN: [u8; 2] = [0, 0];

/// The same, with the case of what declines it.
const DECLINED: [u8; 2] = [0, 1];

/// The tags of the parts of a stream (bin_prot, "Polymorphic variants").
const OK: [u8; 4] = [0x79, 0x8A, 0, 0];

const EOF: [u8; 4] = [0x39, 0x79, 0x69, 0];

/// The data of a plain answer.
pub fn reply_data(
    alloc: Global,
    shape: &Shape,
    value: &Value,
    max: u64,
) -> Result<Blob, EncodeError>
    requires good { IsGood (form_of shape.now) }
    requires fits { IsFitting (form_of shape.now) value.now }
    ensures { GivesBytes max (written (form_of shape.now) value.now) result }
{
    spelled_behind(alloc, &[], shape, value, max)
}

/// The data of an answer that begins a stream.
pub fn begun_data(
    alloc: Global,
    shape: &Shape,
    value: &Value,
    max: u64,
) -> Result<Blob, EncodeError>
    requires good { IsGood (form_of shape.now) }
    requires fits { IsFitting (form_of shape.now) value.now }
    ensures { (error : Form) → let f = first_form (form_of shape.now) error in
        GivesBytes max (written f (first_value (pos 0) (first.Begun value.now))) result }
{
    spelled_behind(alloc, &BEGUN, shape, value, max)
}

/// The data of an answer that declines a stream.
pub fn declined_data(
    alloc: Global,
    shape: &Shape,
    value: &Value,
    max: u64,
) -> Result<Blob, EncodeError>
    requires good { IsGood (form_of shape.now) }
    requires fits { IsFitting (form_of shape.now) value.now }
    ensures { (begun : Form) → let f = first_form begun (form_of shape.now) in
        GivesBytes max (written f (first_value (pos 0) (first.Declined value.now))) result }
{
    spelled_behind(alloc, &DECLINED, shape, value, max)
}

/// The data of a stream's item.
pub fn item_data(alloc: Global, shape: &Shape, value: &Value, max: u64) -> Result<Blob, EncodeError>
    requires good { IsGood (form_of shape.now) }
    requires fits { IsFitting (form_of shape.now) value.now }
    ensures { let item = item_value (written (form_of shape.now) value.now) in
        GivesBytes max (written part_form item) result }
{
    let item = match spelled_behind(alloc, &[], shape, value, max) {
        Ok(item) => item,
        Err(error) => return Err(error),
    };
    match part_data(alloc, item.as_slice()) {
        Ok(data) => Ok(data),
        Err(OutOfMemory) => Err(EncodeError::OutOfMemory),
    }
}

// The data of an item that is spelled so.
fn part_data(alloc: Global, item: &[u8]) -> Result<Blob, OutOfMemory>
    ensures { IfOk result (λ blob. blob ≡ written part_form (item_value item.now)) }
{
    let mut data = Vec::from_slice(alloc, &OK)?;
    match put_bytes(item, u64::MAX, &mut data) {
        Ok(()) => Ok(Blob::from_vec(data)),
        Err(_) => Err(OutOfMemory),
    }
}

/// The data of the end of a stream.
pub fn eof_data(alloc: Global) -> Result<Blob, OutOfMemory>
    ensures { IfOk result (λ blob. blob ≡ written part_form eof_value) }
{
    Blob::from_slice(alloc, &EOF)
}

// Some bytes, and behind them the shortest spelling of a value.
fn spelled_behind(
    alloc: Global,
    front: &[u8],
    shape: &Shape,
    value: &Value,
    max: u64,
) -> Result<Blob, EncodeError>
    requires good { IsGood (form_of shape.now) }
    requires fits { IsFitting (form_of shape.now) value.now }
    ensures { GivesBytes max (front.now ++ written (form_of shape.now) value.now) result }
{
    let mut data = Vec::from_slice(alloc, front)?;
    match encode(shape, value, max, &mut data) {
        Ok(()) => Ok(Blob::from_vec(data)),
        Err(error) => Err(error),
    }
}
