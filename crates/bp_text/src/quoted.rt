// What stands in quotes, from the bytes at a cursor, which moves behind what was read. Where a byte
// cannot stand, the cursor stays at it.

ghost use Rattle.std.specs.Prelude.{◌≡◌, ℕ, ◌<◌, IfOk, IfSome};
ghost use Rattle.readers.specs.Reader.{one};
ghost use Rattle.bp_text_grammar.specs.Lexing.{hex_digit, is_itself};
ghost use Rattle.bp_text_grammar.specs.Scanning as scanning;
ghost use Rattle.bp_text.specs.Given.{ReadsTo};

use crate::stop::Stop;
use bp_value::Blob;
use std::alloc::Global;

/// The bytes of a text, and its last quote.
pub fn text_rest(rest: &mut &[u8], alloc: Global) -> Result<Blob, Stop>
    ensures { ReadsTo scanning.text_rest rest.old.now rest.new.now result }
{
    let mut bytes = Vec::new(alloc);
    'bytes: loop {
        match *rest {
            [] => return Err(Stop::More),
            [b'"', later @ ..] => {
                *rest = later;
                return Ok(Blob::from_vec(bytes));
            }
            _ => match quoted_at(rest, b'"') {
                Ok(byte) => bytes.push(byte)?,
                Err(stop) => return Err(stop),
            },
        }
    }
}

/// The byte of a char, and its last quote.
pub fn char_rest(rest: &mut &[u8]) -> Result<u8, Stop>
    ensures { ReadsTo scanning.char_rest rest.old.now rest.new.now result }
{
    let byte = quoted_at(rest, b'\'')?;
    match *rest {
        [] => Err(Stop::More),
        [b'\'', later @ ..] => {
            *rest = later;
            Ok(byte)
        }
        _ => Err(Stop::Bad),
    }
}

// A byte in the quotes `quote`.
fn quoted_at(rest: &mut &[u8], quote: u8) -> Result<u8, Stop>
    ensures { ReadsTo (scanning.quoted_at quote) rest.old.now rest.new.now result }
{
    match *rest {
        [] => Err(Stop::More),
        [b'\\', later @ ..] => {
            *rest = later;
            escaped_at(rest)
        }
        [byte, later @ ..] if is_itself(*byte, quote) => {
            *rest = later;
            Ok(*byte)
        }
        _ => Err(Stop::Bad),
    }
}

// The byte that stands for itself in the quotes `quote`.
fn is_itself(byte: u8, quote: u8) -> bool
    ensures { result ≡ is_itself quote byte }
{
    matches!(byte, b' '..=b'~') && byte != quote && byte != b'\\'
}

// What follows a backslash.
fn escaped_at(rest: &mut &[u8]) -> Result<u8, Stop>
    ensures { ReadsTo scanning.escaped_at rest.old.now rest.new.now result }
{
    match *rest {
        [] => Err(Stop::More),
        [b'x', later @ ..] => {
            *rest = later;
            hex_at(rest)
        }
        [byte @ (b'"' | b'\'' | b'\\'), later @ ..] => {
            *rest = later;
            Ok(*byte)
        }
        _ => Err(Stop::Bad),
    }
}

// Two hex digits.
fn hex_at(rest: &mut &[u8]) -> Result<u8, Stop>
    ensures { ReadsTo scanning.hex_at rest.old.now rest.new.now result }
{
    let high = digit_at(rest)?;
    let low = digit_at(rest)?;
    Ok(16 * high + low)
}

// A hex digit.
fn digit_at(rest: &mut &[u8]) -> Result<u8, Stop>
    ensures gives { ReadsTo (one hex_digit tt) rest.old.now rest.new.now result }
    ensures small { IfOk result (λ digit. digit < 16) }
{
    let [byte, later @ ..] = *rest else {
        return Err(Stop::More);
    };
    match hex_value(*byte) {
        Some(digit) => {
            *rest = later;
            Ok(digit)
        }
        None => Err(Stop::Bad),
    }
}

// The number of a hex digit, of either case.
fn hex_value(byte: u8) -> Option<u8>
    ensures is { result ≡ hex_digit byte }
    ensures small { IfSome result (λ digit. digit < 16) }
{
    match byte {
        b'0'..=b'9' => Some(byte - b'0'),
        b'A'..=b'F' => Some(byte - b'A' + 10),
        b'a'..=b'f' => Some(byte - b'a' + 10),
        _ => None,
    }
}
