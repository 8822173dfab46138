// Numbers into bytes, in their shortest forms.

ghost use Rattle.std.specs.Prelude.{◌≡◌, ℕ, ◌^◌, ◌<◌, ◌≤◌, ◌++◌, ◌∷◌, List, length, drop};
ghost use Rattle.bp_num.specs.declared.number.IntKind.{IntKind};
ghost use Rattle.bp_num.specs.Forms.{extent, IsInt, IsNat, limit_of, little_endian, written_int, written_nat};

use byteorder::{ByteOrder, LittleEndian};

/// Writes the shortest form of `n` to the front of `into`, and answers its length: 1, 3, 5 or 9.
///
/// A nat0 is at most 2^62 - 1, since a peer keeps it in OCaml's int.
pub fn write_nat0(n: u64, into: &mut [u8; 9]) -> usize
    requires { n < 2 ^ 62 }
    ensures written { into.new ≡ written_nat n ++ drop result into.old }
    ensures length { result ≡ length (written_nat n) }
    ensures form { (max : ℕ) → n ≤ max → IsNat max n (written_nat n) }
    ensures shortest { (max : ℕ) (s : List ℕ) → IsNat max n s → result ≤ length s }
{
    match n {
        0..=0x7F => {
            into[0] = n as u8;
            1
        }
        0x80..=0xFFFF => put_two(n as u16, into),
        0x1_0000..=0xFFFF_FFFF => put_four(n as u32, into),
        _ => put_eight(n, into),
    }
}

/// The length of the shortest form of `n`: 1, 3, 5 or 9.
pub fn nat0_len(n: u64) -> usize
    requires { n < 2 ^ 62 }
    ensures { result ≡ length (written_nat n) }
{
    match n {
        0..=0x7F => 1,
        0x80..=0xFFFF => 3,
        0x1_0000..=0xFFFF_FFFF => 5,
        _ => 9,
    }
}

/// Writes the shortest form of `n` to the front of `into`, and answers its length: 1, 2, 3, 5 or 9.
///
/// It is a form of each kind whose range holds `n`.
pub fn write_int(n: i64, into: &mut [u8; 9]) -> usize
    ensures written { into.new ≡ written_int n ++ drop result into.old }
    ensures length { result ≡ length (written_int n) }
    ensures form { (kind : IntKind) → extent n < limit_of kind → IsInt kind n (written_int n) }
    ensures shortest { (kind : IntKind) (s : List ℕ) → IsInt kind n s → result ≤ length s }
{
    match n {
        -0x80..=-1 => {
            into[0] = 0xFF;
            into[1] = (n as i8).cast_unsigned();
            2
        }
        0..=0x7F => {
            into[0] = n as u8;
            1
        }
        -0x8000..=0x7FFF => put_two((n as i16).cast_unsigned(), into),
        -0x8000_0000..=0x7FFF_FFFF => put_four((n as i32).cast_unsigned(), into),
        _ => put_eight(n.cast_unsigned(), into),
    }
}

/// The length of the shortest form of `n`: 1, 2, 3, 5 or 9.
pub fn int_len(n: i64) -> usize
    ensures { result ≡ length (written_int n) }
{
    match n {
        0..=0x7F => 1,
        -0x80..=-1 => 2,
        -0x8000..=0x7FFF => 3,
        -0x8000_0000..=0x7FFF_FFFF => 5,
        _ => 9,
    }
}

// The code of two bytes, and a word.
fn put_two(word: u16, into: &mut [u8; 9]) -> usize
    ensures bytes { into.new ≡ 254 ∷ little_endian 2 word ++ drop 3 into.old }
    ensures length { result ≡ 3 }
{
    into[0] = 0xFE;
    LittleEndian::write_u16(&mut into[1..], word);
    3
}

// The code of four bytes, and a word.
fn put_four(word: u32, into: &mut [u8; 9]) -> usize
    ensures bytes { into.new ≡ 253 ∷ little_endian 4 word ++ drop 5 into.old }
    ensures length { result ≡ 5 }
{
    into[0] = 0xFD;
    LittleEndian::write_u32(&mut into[1..], word);
    5
}

// The code of eight bytes, and a word.
fn put_eight(word: u64, into: &mut [u8; 9]) -> usize
    ensures bytes { into.new ≡ 252 ∷ little_endian 8 word ++ drop 9 into.old }
    ensures length { result ≡ 9 }
{
    into[0] = 0xFC;
    LittleEndian::write_u64(&mut into[1..], word);
    9
}
