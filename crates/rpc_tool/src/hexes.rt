// Hex input and output.
ghost use Rattle.std.specs.Prelude.{◌≡◌, ◌++◌, ℕ, List, Err, Ok, IfOk, OnErr, OnOk, is_some};
ghost use Rattle.bp_text_grammar.specs.Lexing.{hex_digit};
ghost use Rattle.hex.specs.Hex.{decode_of, encode_lower};
ghost use Rattle.rpc_tool.specs.HexTexts.{is_hex_blank, IsBadHex, IsHexText};

use bp_value::OutOfMemory;
use hex::FromHexError;
use std::alloc::{AllocError, AllocFailed, Global};

#[cfg(test)]
mod tests;

/// Why a text is no hex.
#[derive(Clone, Copy, Debug, PartialEq, Eq)]
pub enum HexError {
    /// The byte at this place is no digit or blank, or ends a single digit; or the text ends here.
    BadHex { at: usize },
    OutOfMemory,
}

impl From<AllocError> for HexError {
    ghost use Rattle.rpc_tool.specs.declared.hexes.HexError.TheVariants as hex_error;

    ghost from_gives = { λ _ e. e ≡ hex_error.OutOfMemory };

    fn from(_: AllocError) -> HexError {
        HexError::OutOfMemory
    }
}

impl<T: Drop> From<AllocFailed<T>> for HexError {
    ghost use Rattle.rpc_tool.specs.declared.hexes.HexError.TheVariants as hex_error;

    ghost from_gives = { λ _ e. e ≡ hex_error.OutOfMemory };

    fn from(_: AllocFailed<T>) -> HexError {
        HexError::OutOfMemory
    }
}

/// The bytes of a hex text. The time is linear in the text.
pub fn read_hex(alloc: Global, text: &[u8]) -> Result<Vec<u8>, HexError>
    ensures ok { IfOk result (λ bytes. IsHexText bytes.items text.now) }
    ensures bad { (at : ℕ) → result ≡ Err (HexError.BadHex at) → IsBadHex text.now at }
{
    let digits = digits_of(alloc, text)?;
    match hex::decode(alloc, digits.as_slice()) {
        Ok(bytes) => Ok(bytes),
        Err(FromHexError::OutOfMemory) => Err(HexError::OutOfMemory),
        Err(_) => unreachable!(),
    }
}

// The digits of a hex text without its blanks.
fn digits_of(alloc: Global, text: &[u8]) -> Result<Vec<u8>, HexError>
    ensures ok { IfOk result (λ digits. (bytes : List ℕ) × IsHexText bytes text.now
        × (decode_of digits.items ≡ Ok bytes)) }
    ensures bad { (at : ℕ) → result ≡ Err (HexError.BadHex at) → IsBadHex text.now at }
{
    let mut digits = Vec::with_capacity(alloc, text.len())?;
    'bytes: for (at, byte) in text.iter().enumerate() {
        if is_digit(*byte) {
            digits.push(*byte)?;
        } else if digits.len() % 2 != 0 || !is_blank(*byte) {
            return Err(HexError::BadHex { at });
        }
    }
    if digits.len() % 2 != 0 {
        return Err(HexError::BadHex { at: text.len() });
    }
    Ok(digits)
}

fn is_digit(byte: u8) -> bool
    ensures { result ≡ is_some (hex_digit byte) }
{
    matches!(byte, b'0'..=b'9' | b'A'..=b'F' | b'a'..=b'f')
}

fn is_blank(byte: u8) -> bool
    ensures { result ≡ is_hex_blank byte }
{
    matches!(byte, b' ' | b'\n' | b'\r')
}

/// Appends the digits of the bytes, in lower case.
pub fn put_hex(alloc: Global, bytes: &[u8], out: &mut Vec<u8>) -> Result<(), OutOfMemory>
    ensures ok { OnOk result (out.new.items ≡ out.old.items ++ encode_lower bytes.now) }
    ensures err { OnErr result (out.new.items ≡ out.old.items) }
{
    let digits = hex::encode(alloc, bytes)?;
    out.extend_from_slice(digits.as_bytes())?;
    Ok(())
}
