// The values of the sets, and their bytes.

use crate::failure::Failure;
use crate::numbers::Numbers;
use crate::set::Set;
use crate::timing::written;
use bp_value::{Blob, Listed, OutOfMemory, Value, fits};
use std::alloc::Global;

/// The most letters of a text.
const MAX_LETTERS: usize = 15;

/// The most ints of a record.
const MAX_INTS: u64 = 7;

/// The bytes of a set.
pub fn bytes_of(alloc: Global, set: Set) -> Result<Vec<u8>, Failure> {
    let value = value_of(alloc, set)?;
    let shape = set.shape(alloc)?;
    if shape.check().is_err() || !fits(&shape, &value, 1 << 30) {
        return Err(Failure::Unfit);
    }
    written(alloc, &shape, &value)
}

fn value_of(alloc: Global, set: Set) -> Result<Value, OutOfMemory> {
    let count: usize = match set {
        Set::Strings => 100_000,
        Set::Ints => 1_000_000,
        Set::Records => 100_000,
    };
    let mut numbers = Numbers::new();
    let mut items = Vec::with_capacity(alloc, count)?;
    for _ in 0..count {
        items.push(item(alloc, set, &mut numbers)?)?;
    }
    Ok(Value::Items(Listed::from_vec(items)))
}

fn item(alloc: Global, set: Set, numbers: &mut Numbers) -> Result<Value, OutOfMemory> {
    match set {
        Set::Strings => text(alloc, numbers),
        Set::Ints => Ok(int(numbers)),
        Set::Records => record(alloc, numbers),
    }
}

fn text(alloc: Global, numbers: &mut Numbers) -> Result<Value, OutOfMemory> {
    Ok(Value::Text(letters(alloc, numbers)?))
}

/// 0 to 15 letters.
pub fn letters(alloc: Global, numbers: &mut Numbers) -> Result<Blob, OutOfMemory> {
    let mut letters = [0; MAX_LETTERS];
    let length = numbers.between(0, MAX_LETTERS as u64 + 1) as usize;
    for letter in letters[..length].iter_mut() {
        *letter = numbers.between(u64::from(b'a'), u64::from(b'z') + 1) as u8;
    }
    Blob::from_slice(alloc, &letters[..length])
}

/// An int: half of them are spelled by one byte, and the others by three, five or nine bytes, as
/// many below zero as above.
fn int(numbers: &mut Numbers) -> Value {
    let number = match numbers.between(0, 6) {
        0 => numbers.between(1 << 7, 1 << 15),
        1 => numbers.between(1 << 15, 1 << 31),
        2 => numbers.between(1 << 31, 1 << 62),
        _ => return Value::Num(numbers.between(0, 1 << 7) as i64),
    };
    if numbers.between(0, 2) == 0 {
        Value::Num(number as i64)
    } else {
        Value::Num(-1 - number as i64)
    }
}

/// An int, a text, and a list of 0 to 7 ints.
fn record(alloc: Global, numbers: &mut Numbers) -> Result<Value, OutOfMemory> {
    let mut parts = Vec::with_capacity(alloc, 3)?;
    parts.push(int(numbers))?;
    parts.push(text(alloc, numbers)?)?;
    let count = numbers.between(0, MAX_INTS + 1);
    let mut ints = Vec::with_capacity(alloc, count as usize)?;
    for _ in 0..count {
        ints.push(int(numbers))?;
    }
    parts.push(Value::Items(Listed::from_vec(ints)))?;
    Ok(Value::Parts(Listed::from_vec(parts)))
}
