//! Numbers onto the end of a list of bytes, in their shortest forms. Room for the longest form is
//! made first, so that the bytes are put down one by one without a test.
ghost use Rattle.std.specs.Prelude.{◌≡◌, ◌+◌, ◌≤◌, ◌∷◌, ◌++◌, length, vec_len, vec_capacity};
ghost use Rattle.bp_num.specs.Forms.{little_endian, written_int, written_nat};
ghost use Rattle.bp_codec.specs.Puts.{Puts};
ghost use Rattle.bp_codec.specs.Wide.{IsWideInt, IsWideNat};

use crate::error::{PutError, within};

/// The most bytes of a number.
const LONGEST: usize = 9;

/// The bytes of a word.
const WORD: usize = 4;

/// Appends the shortest form of a length.
#[inline(always)]
pub fn put_nat(number: u64, bound: u64, out: &mut Vec<u8>) -> Result<(), PutError>
    ensures { Puts bound (written_nat number) out.old.items out.new.items result }
{
    out.reserve(LONGEST)?;
    if number < 0x80 {
        out.push_reserved(number as u8);
    } else {
        push_wide_nat(number, out);
    }
    within(bound, out)
}

// A length of more than one byte. It stands apart, so that a short one costs no call.
#[inline(never)]
fn push_wide_nat(number: u64, out: &mut Vec<u8>)
    requires wide { IsWideNat number }
    requires room { vec_len out.old + 9 ≤ vec_capacity out.old }
    ensures { out.new.items ≡ out.old.items ++ written_nat number }
{
    match number {
        0..=0xFFFF => push_two(number as u16, out),
        0x1_0000..=0xFFFF_FFFF => push_four(number as u32, out),
        _ => push_eight(number, out),
    }
}

/// How many bytes `put_nat` appends.
pub fn nat_len(number: u64) -> u64
    ensures { result ≡ length (written_nat number) }
{
    match number {
        0..=0x7F => 1,
        0x80..=0xFFFF => 3,
        0x1_0000..=0xFFFF_FFFF => 5,
        _ => 9,
    }
}

/// Appends the shortest form of an int of any kind.
#[inline(always)]
pub fn put_int(number: i64, bound: u64, out: &mut Vec<u8>) -> Result<(), PutError>
    ensures { Puts bound (written_int number) out.old.items out.new.items result }
{
    out.reserve(LONGEST)?;
    if (0..0x80).contains(&number) {
        out.push_reserved(number as u8);
    } else {
        push_wide_int(number, out);
    }
    within(bound, out)
}

// An int of more than one byte.
#[inline(never)]
fn push_wide_int(number: i64, out: &mut Vec<u8>)
    requires wide { IsWideInt number }
    requires room { vec_len out.old + 9 ≤ vec_capacity out.old }
    ensures { out.new.items ≡ out.old.items ++ written_int number }
{
    if (-0x8000..0x8000).contains(&number) {
        push_short(number as i16, out);
    } else if (-0x8000_0000..0x8000_0000).contains(&number) {
        push_four((number as i32).cast_unsigned(), out);
    } else {
        push_eight(number.cast_unsigned(), out);
    }
}

// A negative byte behind its code, or two bytes.
#[inline(always)]
fn push_short(number: i16, out: &mut Vec<u8>)
    requires wide { IsWideInt number }
    requires room { vec_len out.old + 3 ≤ vec_capacity out.old }
    ensures { out.new.items ≡ out.old.items ++ written_int number }
{
    if (-0x80..0).contains(&number) {
        out.push_reserved(0xFF);
        out.push_reserved((number as i8).cast_unsigned());
    } else {
        push_two(number.cast_unsigned(), out);
    }
}

/// Appends the four bytes of a word, the lowest first.
#[inline(always)]
pub fn put_word(word: u32, bound: u64, out: &mut Vec<u8>) -> Result<(), PutError>
    ensures { Puts bound (little_endian 4 word) out.old.items out.new.items result }
{
    out.reserve(WORD)?;
    push_word(word, out);
    within(bound, out)
}

// The code of two bytes, and a word.
#[inline(always)]
fn push_two(word: u16, out: &mut Vec<u8>)
    requires { vec_len out.old + 3 ≤ vec_capacity out.old }
    ensures { out.new.items ≡ out.old.items ++ 254 ∷ little_endian 2 word }
{
    let [first, second] = word.to_le_bytes();
    out.push_reserved(0xFE);
    out.push_reserved(first);
    out.push_reserved(second);
}

// The code of four bytes, and a word.
#[inline(always)]
fn push_four(word: u32, out: &mut Vec<u8>)
    requires { vec_len out.old + 5 ≤ vec_capacity out.old }
    ensures { out.new.items ≡ out.old.items ++ 253 ∷ little_endian 4 word }
{
    out.push_reserved(0xFD);
    push_word(word, out);
}

// A word, its lowest byte first.
#[inline(always)]
fn push_word(word: u32, out: &mut Vec<u8>)
    requires { vec_len out.old + 4 ≤ vec_capacity out.old }
    ensures { out.new.items ≡ out.old.items ++ little_endian 4 word }
{
    let [first, second, third, fourth] = word.to_le_bytes();
    out.push_reserved(first);
    out.push_reserved(second);
    out.push_reserved(third);
    out.push_reserved(fourth);
}

// The code of eight bytes, and a word.
#[inline(always)]
fn push_eight(word: u64, out: &mut Vec<u8>)
    requires { vec_len out.old + 9 ≤ vec_capacity out.old }
    ensures { out.new.items ≡ out.old.items ++ 252 ∷ little_endian 8 word }
{
    let [b0, b1, b2, b3, b4, b5, b6, b7] = word.to_le_bytes();
    out.push_reserved(0xFC);
    out.push_reserved(b0);
    out.push_reserved(b1);
    out.push_reserved(b2);
    out.push_reserved(b3);
    out.push_reserved(b4);
    out.push_reserved(b5);
    out.push_reserved(b6);
    out.push_reserved(b7);
}
