// Numbers from bytes, in every form.

ghost use Rattle.std.specs.Prelude.{◌≡◌, ℕ, pos, ◌+◌, ◌%◌, ◌^◌, ◌<◌, ◌≤◌, length, suc};
ghost use Rattle.readers.specs.Reader.{first, mapped};
ghost use Rattle.bp_num.specs.declared.number.NumRead.{NumRead};
ghost use Rattle.bp_num.specs.declared.number.IntKind.TheVariants.{Int63};
ghost use Rattle.bp_num.specs.NumberAt.{answer, eight_at, minus_at, payload_at, signed_at};
ghost use Rattle.bp_num.specs.Reads.{IsIntRead, IsNatRead};

use crate::{IntKind, NumRead, Why};
use byteorder::{ByteOrder, LittleEndian};

/// Reads a nat0 of at most `max` from the front of `bytes`.
///
/// Each form is taken, also one that is longer than the shortest.
pub fn read_nat0(bytes: &[u8], max: u64) -> NumRead
    requires { max < 2 ^ 62 }
    ensures told { IsNatRead max bytes.now result }
    ensures only { (r : NumRead) → IsNatRead max bytes.now r → r ≡ result }
{
    match bytes {
        [] => NumRead::More,
        [first, payload @ ..] => match *first {
            0..=0x7F if u64::from(*first) <= max => NumRead::Done {
                value: i64::from(*first),
                used: 1,
            },
            0..=0x7F => NumRead::Bad {
                at: 0,
                why: Why::Length,
            },
            0xFE => read_payload(payload, 2, max),
            0xFD => read_payload(payload, 4, max),
            0xFC => read_payload(payload, 8, max),
            _ => NumRead::Bad {
                at: 0,
                why: Why::Code,
            },
        },
    }
}

/// Reads an int of a kind from the front of `bytes`.
///
/// Each form that the kind allows is taken, also one that is longer than the shortest.
pub fn read_int(kind: IntKind, bytes: &[u8]) -> NumRead
    ensures told { IsIntRead kind bytes.now result }
    ensures only { (r : NumRead) → IsIntRead kind bytes.now r → r ≡ result }
{
    match bytes {
        [] => NumRead::More,
        [first, payload @ ..] => match *first {
            0..=0x7F => NumRead::Done {
                value: i64::from(*first),
                used: 1,
            },
            0xFF => read_negative(payload),
            0xFE => read_two(payload),
            0xFD => read_four(payload),
            0xFC => read_eight(kind, payload),
            _ => NumRead::Bad {
                at: 0,
                why: Why::Code,
            },
        },
    }
}

// In each of the following a code stands before the payload, and places are counted from it on.

// A number of `width` bytes, at most `max`. It is inlined, so that each width is read as one word.
#[inline(always)]
fn read_payload(payload: &[u8], width: usize, max: u64) -> NumRead
    requires some { 1 ≤ width }
    requires most { width ≤ 8 }
    requires limit { max < 2 ^ 62 }
    ensures { result
        ≡ answer (suc (length payload.now)) (mapped pos (payload_at width max payload.now)) }
{
    if payload.len() < width {
        return read_cut(payload, max);
    }
    let low = LittleEndian::read_uint(payload, width);
    if low > max {
        NumRead::Bad {
            at: 1 + passing_place(low, max),
            why: Why::Length,
        }
    } else {
        NumRead::Done {
            value: low as i64,
            used: 1 + width,
        }
    }
}

// A number of which bytes are missing, however many.
fn read_cut(payload: &[u8], max: u64) -> NumRead
    requires { length payload.now < 8 }
    ensures { (width : ℕ) → length payload.now < width → result
        ≡ answer (suc (length payload.now)) (mapped pos (payload_at width max payload.now)) }
{
    if payload.is_empty() {
        return NumRead::More;
    }
    let low = LittleEndian::read_uint(payload, payload.len());
    if low > max {
        NumRead::Bad {
            at: 1 + passing_place(low, max),
            why: Why::Length,
        }
    } else {
        NumRead::More
    }
}

// The place of the byte of `low`, counted from the lowest, that makes the bytes so far pass `max`.
fn passing_place(low: u64, max: u64) -> usize
    requires { max < low }
    ensures below { low % 256 ^ result ≤ max }
    ensures above { max < low % 256 ^ (result + 1) }
    ensures within { result < 8 }
{
    for place in 0..7u32 {
        if low % 256u64.pow(place + 1) > max {
            return place as usize;
        }
    }
    7
}

// The byte after `FF`.
fn read_negative(payload: &[u8]) -> NumRead
    ensures { result ≡ answer (suc (length payload.now)) (first minus_at payload.now) }
{
    match payload {
        [] => NumRead::More,
        [byte, ..] if *byte < 0x80 => NumRead::Bad {
            at: 1,
            why: Why::Sign,
        },
        [byte, ..] => NumRead::Done {
            value: i64::from(byte.cast_signed()),
            used: 2,
        },
    }
}

// Two bytes, which are in the range of each kind.
fn read_two(payload: &[u8]) -> NumRead
    ensures { result ≡ answer (suc (length payload.now)) (signed_at 2 payload.now) }
{
    if payload.len() < 2 {
        return NumRead::More;
    }
    NumRead::Done {
        value: i64::from(LittleEndian::read_i16(payload)),
        used: 3,
    }
}

// Four bytes, which are in the range of each kind.
fn read_four(payload: &[u8]) -> NumRead
    ensures { result ≡ answer (suc (length payload.now)) (signed_at 4 payload.now) }
{
    if payload.len() < 4 {
        return NumRead::More;
    }
    NumRead::Done {
        value: i64::from(LittleEndian::read_i32(payload)),
        used: 5,
    }
}

// Eight bytes, of a kind that allows them.
fn read_eight(kind: IntKind, payload: &[u8]) -> NumRead
    ensures { result ≡ answer (suc (length payload.now)) (eight_at kind payload.now) }
{
    match kind {
        IntKind::Int63 => read_63_bits(payload),
        IntKind::Int32 => NumRead::Bad {
            at: 0,
            why: Why::Code,
        },
        IntKind::Int64 => read_64_bits(payload),
    }
}

fn read_63_bits(payload: &[u8]) -> NumRead
    ensures { result ≡ answer (suc (length payload.now)) (eight_at Int63 payload.now) }
{
    if payload.len() < 8 {
        return NumRead::More;
    }
    let value = LittleEndian::read_i64(payload);
    if -(1 << 62) <= value && value < 1 << 62 {
        NumRead::Done { value, used: 9 }
    } else {
        NumRead::Bad {
            at: 8,
            why: Why::Range,
        }
    }
}

fn read_64_bits(payload: &[u8]) -> NumRead
    ensures { result ≡ answer (suc (length payload.now)) (signed_at 8 payload.now) }
{
    if payload.len() < 8 {
        return NumRead::More;
    }
    NumRead::Done {
        value: LittleEndian::read_i64(payload),
        used: 9,
    }
}
