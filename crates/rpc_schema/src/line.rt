// A line of text, taken from its front part by part.
ghost use Rattle.std.specs.Prelude.{◌≡◌, ◌≢◌, ◌≤◌, ◌↔◌, List, [], ◌++◌, ℕ, length, drop, IsTrue, MatchOption};
ghost use Rattle.bp_text_grammar.specs.Lexing as lexing;
ghost use Rattle.bp_text_grammar.specs.Lexing.{blank};
ghost use Rattle.bp_text_grammar.specs.Scanning.{after_blanks, span};
ghost use Rattle.rpc_schema.specs.Entries as entries;
ghost use Rattle.rpc_schema.specs.LineParts as parts;
ghost use Rattle.rpc_schema.specs.LineParts.{Mark, End, HasRun, Lacks};
ghost use Rattle.rpc_schema.specs.LineAnswers.{TakesOne, TakesWord};

use crate::stop::Stop;
use std::marker::Model;

/// What of a line is not yet taken. Contracts see its bytes.
#[derive(Drop)]
pub struct Line<'a> {
    rest: &'a [u8],
}

impl<'a> Model for Line<'a> {
    ghost use Rattle.std.specs.Prelude.{ℕ, List};

    ghost Value = { List ℕ };

    ghost view = { λ line. line.rest.now };
}

impl<'a> Line<'a> {
    /// A line of which nothing is taken.
    pub fn new(bytes: &'a [u8]) -> Line<'a>
        ensures { result ≡ bytes.now }
    {
        Line { rest: bytes }
    }

    /// The bytes that are left.
    pub fn rest(&self) -> &'a [u8]
        ensures { result.now ≡ self.now }
    {
        self.rest
    }

    /// Takes so many bytes.
    pub fn skip(&mut self, len: usize)
        requires { len ≤ length self.old }
        ensures { self.new ≡ drop len self.old }
    {
        let (_, rest) = self.rest.split_at(len);
        self.rest = rest;
    }

    /// Takes all that is left.
    pub fn skip_all(&mut self)
        ensures { self.new ≡ [] }
    {
        self.rest = &[];
    }

    /// Takes the blanks in front.
    pub fn skip_blanks(&mut self)
        ensures { self.new ≡ after_blanks self.old }
    {
        self.rest = after_blanks(self.rest);
    }

    /// Whether a blank stands in front.
    pub fn starts_blank(&self) -> bool
        ensures { result ≡ parts.starts_blank self.now }
    {
        match self.rest {
            [byte, ..] => *byte == b' ',
            [] => false,
        }
    }

    /// The word in front: the longest run of letters, digits, `_` and `'` after the blanks.
    pub fn word(&self) -> &'a [u8]
        ensures { result.now ≡ parts.front_word self.now }
    {
        let bytes = after_blanks(self.rest);
        let (word, _) = bytes.split_at(word_len(bytes));
        word
    }

    /// Takes the word in front, where it has a value.
    pub fn take_word<T: Drop>(&mut self, value: Option<T>) -> Result<T, Stop>
        ensures { TakesWord value self.old self.new result }
    {
        match value {
            Some(value) => {
                self.pass_word();
                Ok(value)
            }
            None => {
                self.skip_blanks();
                Err(Stop::Refused)
            }
        }
    }

    /// Takes the word in front.
    pub fn pass_word(&mut self)
        ensures { self.new ≡ parts.behind_word self.old }
    {
        let bytes = after_blanks(self.rest);
        let (_, rest) = bytes.split_at(word_len(bytes));
        self.rest = rest;
    }

    /// Takes the longest run of bytes from `!` to `~`.
    pub fn take_visible(&mut self) -> &'a [u8]
        ensures run { result.now ≡ (span entries.is_visible self.old).0 }
        ensures rest { self.new ≡ (span entries.is_visible self.old).1 }
    {
        let (run, rest) = self.rest.split_at(visible_len(self.rest));
        self.rest = rest;
        run
    }

    /// Takes these bytes.
    pub fn take_mark(&mut self, mark: &[u8]) -> Result<(), Stop>
        ensures { TakesOne (Mark mark.now) (Lacks (Mark mark.now)) self.old self.new result }
    {
        match behind_mark(self.rest, mark) {
            Some(rest) => {
                self.rest = rest;
                Ok(())
            }
            None => {
                self.skip_blanks();
                Err(Stop::Refused)
            }
        }
    }

    /// Takes the end of the line.
    pub fn end(&mut self) -> Result<(), Stop>
        ensures { TakesOne End (Lacks End) self.old self.new result }
    {
        self.skip_blanks();
        match self.rest {
            [] => Ok(()),
            _ => Err(Stop::Refused),
        }
    }

    /// Whether nothing but blanks is left.
    pub fn is_ended(&self) -> bool
        ensures { IsTrue result ↔ (after_blanks self.now ≡ []) }
    {
        after_blanks(self.rest).is_empty()
    }
}

// What stands after the blanks in front.
fn after_blanks(bytes: &[u8]) -> &[u8]
    ensures { result.now ≡ after_blanks bytes.now }
{
    let mut rest = bytes;
    'blanks: while let [b' ', later @ ..] = rest {
        rest = later;
    }
    rest
}

// What stands after these bytes, if they stand after the blanks in front.
fn behind_mark<'a>(bytes: &'a [u8], mark: &[u8]) -> Option<&'a [u8]>
    ensures { MatchOption result ((rest : List ℕ) → after_blanks bytes.now ≢ mark.now ++ rest)
        (λ rest. after_blanks bytes.now ≡ mark.now ++ rest.now) }
{
    after_blanks(bytes).strip_prefix(mark)
}

// How many name bytes stand in front.
fn word_len(bytes: &[u8]) -> usize
    ensures { HasRun lexing.in_name bytes.now result }
{
    let end = bytes.iter().position(|byte| !in_name(*byte));
    end.unwrap_or(bytes.len())
}

// How many visible bytes stand in front.
fn visible_len(bytes: &[u8]) -> usize
    ensures { HasRun entries.is_visible bytes.now result }
{
    let end = bytes.iter().position(|byte| !is_visible(*byte));
    end.unwrap_or(bytes.len())
}

fn in_name(byte: u8) -> bool
    ensures { result ≡ lexing.in_name byte }
{
    byte.is_ascii_alphabetic() || byte == b'_' || byte.is_ascii_digit() || byte == b'\''
}

fn is_visible(byte: u8) -> bool
    ensures { result ≡ entries.is_visible byte }
{
    matches!(byte, b'!'..=b'~')
}
