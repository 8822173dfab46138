//! Heads of values from the bytes at a cursor, which moves behind what was read (bin_prot, "Binary
//! protocol specification"): for who reads values of a fixed shape without making them first. A
//! head that is cut leaves the cursor where it was.

ghost use Rattle.std.specs.Prelude.{◌≡◌, ℕ, ◌^◌, ◌<◌, ◌≤◌, ◌↔◌, take, drop, length, FitsSigned, IfOk, IsTrue};
ghost use Rattle.std.specs.Int.{w64};
ghost use Rattle.std.specs.Result.{result_map_both};
ghost use Rattle.readers.specs.Reader.{Each, Front, IsByte, one, whole};
ghost use Rattle.readers.specs.Keys.{Keyed, key_at};
ghost use Rattle.bp_num.specs.NumberAt.{int_at, nat_at};
ghost use Rattle.bp_grammar.specs.Reading.{sized_at};
ghost use Rattle.bp_grammar.specs.Spells.{char_of, flag_of, place_of, unit_of};
ghost use Rattle.bp_codec.specs.Heads.{IsWholeTag};
ghost use Rattle.bp_codec.specs.Keeping.{Gives};
ghost use Rattle.bp_codec.specs.Plan.{keys_in};

use crate::stop::Stop;
use bp_num::{IntKind, NumRead, Why, read_int, read_nat0};
use bp_value::{Blob, Value};
use std::alloc::Global;

/// The length of a text or a list, a nat0 of at most `max`.
pub fn length_at(rest: &mut &[u8], max: u64) -> Result<usize, Stop>
    requires { max < 2 ^ 62 }
    ensures { Gives (nat_at max) rest.old.now rest.new.now result }
{
    if let [first, later @ ..] = *rest
        && *first < 0x80
        && u64::from(*first) <= max
    {
        *rest = later;
        return Ok(usize::from(*first));
    }
    long_length(rest, max)
}

// A length in any form. It stands apart, so that a short one costs no call.
#[inline(never)]
fn long_length(rest: &mut &[u8], max: u64) -> Result<usize, Stop>
    requires { max < 2 ^ 62 }
    ensures { Gives (nat_at max) rest.old.now rest.new.now result }
{
    let bytes = *rest;
    known(bytes);
    match read_nat0(bytes, max) {
        NumRead::Done { value, used } => {
            *rest = &bytes[used..];
            Ok(value as usize)
        }
        NumRead::More => Err(Stop::More),
        NumRead::Bad { at, why } => {
            *rest = &bytes[at..];
            Err(Stop::Bad(why))
        }
    }
}

/// An int of a kind, in any form that the kind allows.
pub fn number_at(rest: &mut &[u8], kind: IntKind) -> Result<i64, Stop>
    ensures gives { Gives (int_at kind) rest.old.now rest.new.now result }
    ensures fits { IfOk result (λ number. FitsSigned w64 number) }
{
    if let [first, later @ ..] = *rest
        && *first < 0x80
    {
        *rest = later;
        return Ok(i64::from(*first));
    }
    let bytes = *rest;
    known(bytes);
    match read_int(kind, bytes) {
        NumRead::Done { value, used } => {
            *rest = &bytes[used..];
            Ok(value)
        }
        NumRead::More => Err(Stop::More),
        NumRead::Bad { at, why } => {
            *rest = &bytes[at..];
            Err(Stop::Bad(why))
        }
    }
}

/// The byte 0 of a unit.
pub fn unit_at(rest: &mut &[u8]) -> Result<(), Stop>
    ensures { Gives (one unit_of Why.Byte) rest.old.now rest.new.now
        (result_map_both (λ u. Value.Unit) (λ e. e) result) }
{
    match *rest {
        [] => Err(Stop::More),
        [0, later @ ..] => {
            *rest = later;
            Ok(())
        }
        _ => Err(Stop::Bad(Why::Byte)),
    }
}

/// A bool, or the flag before what an option or an S-expression holds: the byte 0 or 1.
///
/// Any other byte is at fault for the reason `why`.
pub fn flag_at(rest: &mut &[u8], why: Why) -> Result<bool, Stop>
    ensures { Gives (one flag_of why) rest.old.now rest.new.now result }
{
    match *rest {
        [] => Err(Stop::More),
        [0, later @ ..] => {
            *rest = later;
            Ok(false)
        }
        [1, later @ ..] => {
            *rest = later;
            Ok(true)
        }
        _ => Err(Stop::Bad(why)),
    }
}

/// The byte of a char, which may be any.
pub fn char_at(rest: &mut &[u8]) -> Result<u8, Stop>
    ensures { Gives (one char_of Why.Byte) rest.old.now rest.new.now
        (result_map_both (λ b. Value.Char b) (λ e. e) result) }
{
    match *rest {
        [] => Err(Stop::More),
        [byte, later @ ..] => {
            *rest = later;
            Ok(*byte)
        }
    }
}

/// The place of one of `count` cases, a byte.
pub fn place_at(rest: &mut &[u8], count: usize) -> Result<u32, Stop>
    ensures { Gives (one (place_of count) Why.Case) rest.old.now rest.new.now result }
{
    match *rest {
        [] => Err(Stop::More),
        [byte, later @ ..] if usize::from(*byte) < count => {
            *rest = later;
            Ok(u32::from(*byte))
        }
        _ => Err(Stop::Bad(Why::Case)),
    }
}

/// A text of at most `max` bytes, in one block of exactly their number.
///
/// Memory is asked for only once all its bytes are there. Where some are missing, the cursor
/// stays before the length. Where memory runs out, it stands behind the length.
pub fn text_at(rest: &mut &[u8], alloc: Global, max: u64) -> Result<Blob, Stop>
    requires { max < 2 ^ 62 }
    ensures { Gives (sized_at max) rest.old.now rest.new.now result }
{
    let before = *rest;
    let length = length_at(rest, max)?;
    let after = *rest;
    if after.len() < length {
        *rest = before;
        return Err(Stop::More);
    }
    let text = Blob::from_slice(alloc, &after[..length])?;
    *rest = &after[length..];
    Ok(text)
}

/// The place of the first of the tags that stands at the cursor, its lowest byte first.
///
/// Where none does, the first faulty byte is the one behind the longest front of a tag.
pub fn tag_at(rest: &mut &[u8], tags: &[u32]) -> Result<usize, Stop>
    ensures { Gives (key_at Why.Tag 4 (keys_in 0 tags.now)) rest.old.now rest.new.now result }
{
    let bytes = *rest;
    match whole_tag(bytes, tags) {
        Some(place) => {
            *rest = &bytes[4..];
            Ok(place)
        }
        None => Err(no_tag(rest, tags)),
    }
}

// The place of the first tag that stands whole in front.
fn whole_tag(bytes: &[u8], tags: &[u32]) -> Option<usize>
    ensures { IsWholeTag Why.Tag (keys_in 0 tags.now) bytes.now result }
{
    let [a, b, c, d, ..] = bytes else {
        return None;
    };
    let word = u32::from_le_bytes([*a, *b, *c, *d]);
    tags.iter().position(|tag| *tag == word)
}

// Why no tag is read: the bytes end within one, or the first byte that goes on none is at fault.
#[cold]
#[inline(never)]
fn no_tag(rest: &mut &[u8], tags: &[u32]) -> Stop
    requires { (place : ℕ) → Keyed (keys_in 0 tags.now) place (take 4 rest.old.now) → ⊥ }
    ensures { Gives (key_at Why.Tag 4 (keys_in 0 tags.now)) rest.old.now rest.new.now (Err result) }
{
    let bytes = *rest;
    for shared in 0..bytes.len() {
        if !begins_tag(&bytes[..=shared], tags) {
            *rest = &bytes[shared..];
            return Stop::Bad(Why::Tag);
        }
    }
    Stop::More
}

// Whether a tag begins with these bytes.
fn begins_tag(front: &[u8], tags: &[u32]) -> bool
    ensures { IsTrue result ↔ Front (Keyed (keys_in 0 tags.now)) front.now }
{
    tags.iter().any(|tag| tag.to_le_bytes().starts_with(front))
}

/// What the type of bytes says of them, for the proofs of a call behind a reference to a slice. It
/// does nothing.
pub fn known(bytes: &[u8])
    ensures { Each IsByte bytes.now }
{}

#[cfg(test)]
mod tests;
