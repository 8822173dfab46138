// The tokens of a text.

ghost use Rattle.std.specs.Prelude.{◌≡◌, ◌≤◌, ◌∷◌, ℕ, ℤ, List, IfOk, length};
ghost use Rattle.std.specs.Char.{is_ascii_digit};
ghost use Rattle.bp_text_grammar.specs.Tokens.{Char, OpenChar, OpenText, Text, Wrong};
ghost use Rattle.bp_text_grammar.specs.Lexing.{in_name, is_bracket, is_punctuation, is_separator, minus, starts_name, IsNumber};
ghost use Rattle.bp_text_grammar.specs.Scanning as scanning;
ghost use Rattle.bp_text_grammar.specs.Scanning.{is_plain, natural_found, negative_found, number_of, quoted_found, span, stuck, word_found};
ghost use Rattle.bp_text.specs.Given.{is_negative, token_of, IsScanned, IsRun};

use crate::quoted::{char_rest, text_rest};
use crate::stop::Stop;
use crate::token::Token;
use bp_value::OutOfMemory;
use std::alloc::Global;

/// What stands after the blanks in front.
pub fn after_blanks(bytes: &[u8]) -> &[u8]
    ensures { result.now ≡ scanning.after_blanks bytes.now }
{
    let mut rest = bytes;
    'blanks: while let [b' ', later @ ..] = rest {
        rest = later;
    }
    rest
}

/// The token in front. One that says that none stands there takes all the rest.
pub fn next_token<'a>(rest: &mut &'a [u8], alloc: Global) -> Result<Token<'a>, OutOfMemory>
    ensures { IfOk result (λ token. IsScanned (scanning.scan rest.old.now) token rest.new.now) }
{
    let [first, later @ ..] = *rest else {
        return Ok(wrong(rest));
    };
    match *first {
        b'-' => Ok(negative(rest)),
        b'"' => {
            *rest = later;
            text(rest, alloc)
        }
        b'\'' => {
            *rest = later;
            char(rest)
        }
        byte if byte.is_ascii_digit() => Ok(natural(rest)),
        byte if starts_name(byte) => Ok(word(rest)),
        byte if is_punctuation(byte) => {
            *rest = later;
            Ok(Token::Mark(byte))
        }
        _ => Ok(wrong(rest)),
    }
}

// No token stands in front, so all the rest is wrong.
fn wrong<'a>(rest: &mut &'a [u8]) -> Token<'a>
    ensures { IsScanned (stuck Wrong) result rest.new.now }
{
    *rest = &[];
    Token::Wrong
}

// The longest run of name bytes.
fn word<'a>(rest: &mut &'a [u8]) -> Token<'a>
    ensures { IsScanned (word_found (span in_name rest.old.now)) result rest.new.now }
{
    let bytes = *rest;
    let (name, later) = bytes.split_at(name_len(bytes));
    *rest = later;
    Token::Word(name)
}

// The number of the digits in front. A zero stands alone.
fn natural<'a>(rest: &mut &'a [u8]) -> Token<'a>
    ensures { IsScanned (natural_found (span is_ascii_digit rest.old.now)) result rest.new.now }
{
    let bytes = *rest;
    let (digits, later) = bytes.split_at(digits_len(bytes));
    if !is_plain(digits) {
        return wrong(rest);
    }
    *rest = later;
    number(digits)
}

// The number of a minus and the digits after it, of which the first is no zero.
fn negative<'a>(rest: &mut &'a [u8]) -> Token<'a>
    requires { 1 ≤ length rest.old.now }
    ensures { (s : List ℕ) → rest.old.now ≡ minus ∷ s
        → IsScanned (negative_found (span is_ascii_digit s)) result rest.new.now }
{
    let bytes = *rest;
    let (signed, later) = bytes.split_at(1 + digits_len(&bytes[1..]));
    if !is_negative(signed) {
        return wrong(rest);
    }
    *rest = later;
    number(signed)
}

// Whether some digits stand here, and no zero before others.
fn is_plain(digits: &[u8]) -> bool
    ensures { result ≡ is_plain digits.now }
{
    match digits {
        [] => false,
        [_] => true,
        [first, ..] => *first != b'0',
    }
}

// Whether the first digit, after the sign, is no zero.
fn is_negative(signed: &[u8]) -> bool
    ensures { result ≡ is_negative signed.now }
{
    match signed {
        [_, first, ..] => matches!(*first, b'1'..=b'9'),
        _ => false,
    }
}

// The number whose digits, and sign, these are.
fn number<'a>(text: &[u8]) -> Token<'a>
    ensures { (n : ℤ) → IsNumber n text.now → token_of result ≡ number_of n }
{
    let Ok(text) = std::str::from_utf8(text) else {
        return Token::Big;
    };
    match text.parse::<i64>() {
        Ok(number) => Token::Number(number),
        Err(_) => Token::Big,
    }
}

// A text, after its first quote.
fn text<'a>(rest: &mut &'a [u8], alloc: Global) -> Result<Token<'a>, OutOfMemory>
    ensures { IfOk result (λ token.
        IsScanned (quoted_found Text OpenText (scanning.text_rest rest.old.now))
        token rest.new.now) }
{
    match text_rest(rest, alloc) {
        Ok(text) => Ok(Token::Text(text)),
        Err(Stop::More) => {
            *rest = &[];
            Ok(Token::OpenText)
        }
        Err(Stop::Bad) => Ok(wrong(rest)),
        Err(Stop::OutOfMemory) => Err(OutOfMemory),
    }
}

// A char, after its first quote.
fn char<'a>(rest: &mut &'a [u8]) -> Result<Token<'a>, OutOfMemory>
    ensures { IfOk result (λ token.
        IsScanned (quoted_found Char OpenChar (scanning.char_rest rest.old.now))
        token rest.new.now) }
{
    match char_rest(rest) {
        Ok(byte) => Ok(Token::Char(byte)),
        Err(Stop::More) => {
            *rest = &[];
            Ok(Token::OpenChar)
        }
        Err(Stop::Bad) => Ok(wrong(rest)),
        Err(Stop::OutOfMemory) => Err(OutOfMemory),
    }
}

// How many name bytes stand in front.
fn name_len(bytes: &[u8]) -> usize
    ensures { IsRun in_name bytes.now result }
{
    let end = bytes.iter().position(|byte| !is_in_name(*byte));
    end.unwrap_or(bytes.len())
}

// How many digits stand in front.
fn digits_len(bytes: &[u8]) -> usize
    ensures { IsRun is_ascii_digit bytes.now result }
{
    let end = bytes.iter().position(|byte| !byte.is_ascii_digit());
    end.unwrap_or(bytes.len())
}

// Whether names begin with this byte.
fn starts_name(byte: u8) -> bool
    ensures { result ≡ starts_name byte }
{
    byte.is_ascii_alphabetic() || byte == b'_'
}

// Whether this byte stands within names.
fn is_in_name(byte: u8) -> bool
    ensures { result ≡ in_name byte }
{
    starts_name(byte) || byte.is_ascii_digit() || byte == b'\''
}

// Whether this byte is a mark.
fn is_punctuation(byte: u8) -> bool
    ensures { result ≡ is_punctuation byte }
{
    is_bracket(byte) || is_separator(byte)
}

fn is_bracket(byte: u8) -> bool
    ensures { result ≡ is_bracket byte }
{
    matches!(byte, b'(' | b')' | b'[' | b']' | b'{' | b'}')
}

fn is_separator(byte: u8) -> bool
    ensures { result ≡ is_separator byte }
{
    matches!(byte, b'!' | b'*' | b',' | b':' | b';' | b'=' | b'`' | b'|')
}
