// The tokens of a text, each cut when it is the next one.
ghost use Rattle.std.specs.Prelude.{◌≡◌, Some, IfOk, []};
ghost use Rattle.bp_text_grammar.specs.Scanning.{lex};
ghost use Rattle.readers.specs.Reader.{one};
ghost use Rattle.bp_text_grammar.specs.Texts.{BadText, is_mark, is_word, mark_at, word_at};
ghost use Rattle.bp_text_grammar.specs.WholeTexts as texts;
ghost use Rattle.bp_text.specs.Given.{token_of};
ghost use Rattle.bp_text.specs.Unread.{ahead, is_first, left_of, taken_at, IsFirstToken, IsAhead, ReadsFrom, TakesFirst};

use crate::halt::Halt;
use crate::scanning::{after_blanks, next_token};
use crate::token::Token;
use bp_value::{Blob, OutOfMemory};
use std::alloc::Global;
use std::marker::Model;
use std::mem;

/// The tokens of a text that are not yet taken, one of which is held. Each is cut when the one
/// before it is taken, so that there is never a list of them.
///
/// A text or a char that the end leaves open is taken for one that it ends, so that a fault of the
/// grammar before it is found first: at the end [`Cursor::is_open`] tells.
#[derive(Drop)]
pub struct Cursor<'a> {
    // What stands after the token taken last.
    after: &'a [u8],
    next: Option<Ahead<'a>>,
    // Whether one of the tokens that were taken is left open.
    opened: bool,
    alloc: Global,
}

// The token in front of some bytes.
#[derive(Drop)]
struct Ahead<'a> {
    token: Token<'a>,
    // How many bytes there are from its first one on.
    left: usize,
    // What stands after it.
    rest: &'a [u8],
    // Whether the end leaves it open.
    opened: bool,
}

impl<'a> Model for Cursor<'a> {
    ghost use Rattle.bp_text.specs.Unread.{Unread};

    ghost Value = { Unread };

    ghost use Rattle.std.specs.Prelude.{◌||◌};
    ghost use Rattle.bp_text_grammar.specs.Scanning.{lex};
    ghost use Rattle.bp_text_grammar.specs.WholeTexts.{has_open};
    ghost use Rattle.bp_text.specs.Unread.{IsAhead};

    ghost view = { λ c. record {
      rest = c.after.now;
      opens = c.opened || has_open (lex c.after.now);
    } };

    ghost invariant = { λ c. IsAhead c.after.now c.next };
}

impl<'a> Cursor<'a> {
    /// A cursor before the first token of a text.
    pub fn new(alloc: Global, text: &'a [u8]) -> Result<Cursor<'a>, OutOfMemory>
        ensures text { IfOk result (λ cursor. cursor.rest ≡ text.now) }
        ensures opens { IfOk result (λ cursor. cursor.opens ≡ texts.has_open (lex text.now)) }
    {
        Ok(Cursor {
            after: text,
            next: look(text, alloc)?,
            opened: false,
            alloc,
        })
    }

    /// How many bytes of the text there are from the first token on: none where none is left.
    pub fn left(&self) -> usize
        ensures { result ≡ left_of (lex self.now.rest) }
    {
        match &self.next {
            Some(ahead) => ahead.left,
            None => 0,
        }
    }

    /// What stands after the token taken last, with the blanks before the next one.
    pub fn rest(&self) -> &'a [u8]
        ensures { result.now ≡ self.now.rest }
    {
        self.after
    }

    /// Where values are made.
    pub fn alloc(&self) -> Global {
        self.alloc
    }

    /// Whether the text leaves a text or a char open, where no token is left.
    pub fn is_open(&self) -> bool
        ensures { lex self.now.rest ≡ [] → result ≡ self.now.opens }
    {
        self.opened
    }

    /// The first token that is left.
    pub fn first(&self) -> Option<&Token<'a>>
        ensures { IsFirstToken (ahead self.now) result }
    {
        match &self.next {
            Some(ahead) => Some(&ahead.token),
            None => None,
        }
    }

    /// Whether the first token is this mark.
    pub fn is_mark(&self, mark: u8) -> bool
        ensures { result ≡ is_first (is_mark mark) (ahead self.now) }
    {
        match self.first() {
            Some(Token::Mark(byte)) => *byte == mark,
            _ => false,
        }
    }

    /// Whether the first token is this word.
    pub fn is_word(&self, word: &[u8]) -> bool
        ensures { result ≡ is_first (is_word word.now) (ahead self.now) }
    {
        match self.first() {
            Some(Token::Word(bytes)) => *bytes == word,
            _ => false,
        }
    }

    /// Takes the first token.
    pub fn take(&mut self) -> Result<Token<'a>, Halt>
        ensures { TakesFirst self.old self.new result }
    {
        let Some(ahead) = &self.next else {
            return Err(Halt::More);
        };
        let (rest, opened) = (ahead.rest, ahead.opened);
        let next = look(rest, self.alloc)?;
        self.after = rest;
        self.opened |= opened;
        match mem::replace(&mut self.next, next) {
            Some(ahead) => Ok(ahead.token),
            None => Err(Halt::More),
        }
    }

    /// Takes the first token where it has a value: else it is at fault.
    pub fn take_as<T: Drop>(&mut self, value: Option<T>) -> Result<T, Halt>
        ensures reads { ReadsFrom (one (λ t. value) BadText) self.old self.new result }
        ensures value { IfOk result (λ a. value ≡ Some a) }
    {
        if let Some(value) = value {
            self.take()?;
            return Ok(value);
        }
        match self.first() {
            Some(_) => Err(Halt::Bad),
            None => Err(Halt::More),
        }
    }

    /// Takes the first token if `takes`: else it is at fault.
    pub fn pass(&mut self, takes: bool) -> Result<(), Halt>
        ensures { ReadsFrom (taken_at takes) self.old self.new result }
    {
        self.take_as(takes.then_some(()))
    }

    /// Takes this mark.
    pub fn pass_mark(&mut self, mark: u8) -> Result<(), Halt>
        ensures { ReadsFrom (mark_at mark) self.old self.new result }
    {
        let is_there = self.is_mark(mark);
        self.pass(is_there)
    }

    /// Takes this word.
    pub fn pass_word(&mut self, word: &[u8]) -> Result<(), Halt>
        ensures { ReadsFrom (word_at word.now) self.old self.new result }
    {
        let is_there = self.is_word(word);
        self.pass(is_there)
    }
}

// The token in front of the bytes, if they have one.
fn look<'a>(bytes: &'a [u8], alloc: Global) -> Result<Option<Ahead<'a>>, OutOfMemory>
    ensures { IfOk result (λ next. IsAhead bytes.now next) }
{
    let mut rest = after_blanks(bytes);
    let left = rest.len();
    if left == 0 {
        return Ok(None);
    }
    let token = next_token(&mut rest, alloc)?;
    let opened = token.is_open();
    Ok(Some(Ahead {
        token: closed(token, alloc),
        left,
        rest,
        opened,
    }))
}

// The token, as if the end closed it.
fn closed<'a>(token: Token<'a>, alloc: Global) -> Token<'a>
    ensures { token_of result ≡ texts.seen (token_of token.entry) }
{
    match token {
        Token::OpenText => Token::Text(Blob::from_vec(Vec::new(alloc))),
        Token::OpenChar => Token::Char(0),
        token => token,
    }
}
