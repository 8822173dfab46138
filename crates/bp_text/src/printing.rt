// The leaves of printed texts, onto the end of a list of bytes. Where memory runs out, a front of
// the text may have been appended.

ghost use Rattle.std.specs.Prelude.{◌≡◌, ◌<◌, ◌∷◌, ◌++◌, [], true, OnOk, OnErr};
ghost use Rattle.std.specs.Fmt.{decimal, digit_glyph};
ghost use Rattle.bp_text_grammar.specs.Printed.{decimal_text, escaped, quoted_char, quoted_text};
ghost use Rattle.bp_text.specs.Printing.{lead, Appends};

use bp_value::OutOfMemory;

#[cfg(test)]
mod tests;

/// Appends the bytes as a text in quotes: the quotes and the backslash after a backslash, other
/// printable ASCII as itself, and each other byte as `\x` and two upper-case hex digits.
pub fn put_quoted(bytes: &[u8], out: &mut Vec<u8>) -> Result<(), OutOfMemory>
    ensures ok { OnOk result (out.new.items ≡ out.old.items ++ quoted_text bytes.now) }
    ensures err { OnErr result (out.new.items ≡ out.old.items) }
{
    let start = out.len();
    match append_quoted(bytes, out) {
        Ok(()) => Ok(()),
        Err(error) => {
            out.truncate(start);
            Err(error)
        }
    }
}

/// Appends the number in decimal.
pub fn put_decimal(number: i64, out: &mut Vec<u8>) -> Result<(), OutOfMemory>
    ensures ok { OnOk result (out.new.items ≡ out.old.items ++ decimal_text number) }
    ensures err { OnErr result (out.new.items ≡ out.old.items) }
{
    let start = out.len();
    match append_decimal(number, out) {
        Ok(()) => Ok(()),
        Err(error) => {
            out.truncate(start);
            Err(error)
        }
    }
}

/// Appends the number, which has no sign, in decimal.
pub fn put_natural(number: u64, out: &mut Vec<u8>) -> Result<(), OutOfMemory>
    ensures ok { OnOk result (out.new.items ≡ out.old.items ++ decimal number) }
    ensures err { OnErr result (out.new.items ≡ out.old.items) }
{
    let start = out.len();
    match append_digits(number, out) {
        Ok(()) => Ok(()),
        Err(error) => {
            out.truncate(start);
            Err(error)
        }
    }
}

pub(crate) fn append_byte(byte: u8, out: &mut Vec<u8>) -> Result<(), OutOfMemory>
    ensures { Appends (byte ∷ []) out.old.items out.new.items result }
{
    out.push(byte)?;
    Ok(())
}

pub(crate) fn append_bytes(bytes: &[u8], out: &mut Vec<u8>) -> Result<(), OutOfMemory>
    ensures { Appends bytes.now out.old.items out.new.items result }
{
    out.extend_from_slice(bytes)?;
    Ok(())
}

// What separates the member at a place from the one before it.
pub(crate) fn append_lead(
    separator: &[u8],
    place: usize,
    out: &mut Vec<u8>,
) -> Result<(), OutOfMemory>
    ensures { Appends (lead separator.now place) out.old.items out.new.items result }
{
    if place == 0 {
        return Ok(());
    }
    append_bytes(separator, out)
}

pub(crate) fn append_quoted(bytes: &[u8], out: &mut Vec<u8>) -> Result<(), OutOfMemory>
    ensures { Appends (quoted_text bytes.now) out.old.items out.new.items result }
{
    append_byte(b'"', out)?;
    for byte in bytes {
        append_escaped(*byte, out)?;
    }
    append_byte(b'"', out)
}

pub(crate) fn append_char(byte: u8, out: &mut Vec<u8>) -> Result<(), OutOfMemory>
    ensures { Appends (quoted_char byte) out.old.items out.new.items result }
{
    append_byte(b'\'', out)?;
    append_escaped(byte, out)?;
    append_byte(b'\'', out)
}

// A byte within quotes.
fn append_escaped(byte: u8, out: &mut Vec<u8>) -> Result<(), OutOfMemory>
    ensures { Appends (escaped byte) out.old.items out.new.items result }
{
    match byte {
        b'"' | b'\'' | b'\\' => append_bytes(&[b'\\', byte], out),
        b' '..=b'~' => append_byte(byte, out),
        _ => append_bytes(
            &[b'\\', b'x', hex_digit(byte / 16), hex_digit(byte % 16)],
            out,
        ),
    }
}

fn hex_digit(digit: u8) -> u8
    requires { digit < 16 }
    ensures { result ≡ digit_glyph true digit }
{
    if digit < 10 {
        b'0' + digit
    } else {
        b'A' + (digit - 10)
    }
}

pub(crate) fn append_decimal(number: i64, out: &mut Vec<u8>) -> Result<(), OutOfMemory>
    ensures { Appends (decimal_text number) out.old.items out.new.items result }
{
    if number < 0 {
        append_byte(b'-', out)?;
    }
    append_digits(number.unsigned_abs(), out)
}

// The digits of a number, at most 20 of them.
fn append_digits(number: u64, out: &mut Vec<u8>) -> Result<(), OutOfMemory>
    ensures { Appends (decimal number) out.old.items out.new.items result }
{
    if number >= 10 {
        append_digits(number / 10, out)?;
    }
    append_byte(b'0' + (number % 10) as u8, out)
}
