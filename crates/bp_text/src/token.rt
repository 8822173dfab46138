ghost use Rattle.std.specs.Prelude.{◌≡◌};
ghost use Rattle.bp_text_grammar.specs.WholeTexts.{is_open};
ghost use Rattle.bp_text.specs.Given.{token_of};

use bp_value::Blob;

/// A token of a text.
#[derive(Debug, Drop)]
pub enum Token<'a> {
    /// The longest run of name bytes from a letter or `_` on. It may be longer than a name is.
    Word(&'a [u8]),
    Number(i64),
    /// A decimal beyond the range of `i64`.
    Big,
    /// The bytes that stand in double quotes.
    Text(Blob),
    /// The byte that stands in single quotes.
    Char(u8),
    /// A byte of punctuation.
    Mark(u8),
    /// All that is left, where no token stands.
    Wrong,
    /// All that is left, from the quote of a text on that has no other.
    OpenText,
    /// All that is left, from the quote of a char on that has no other.
    OpenChar,
}

impl<'a> Token<'a> {
    /// Whether the end of a text leaves it open.
    pub fn is_open(&self) -> bool
        ensures { result ≡ is_open (token_of self.now) }
    {
        matches!(self, Token::OpenText | Token::OpenChar)
    }
}
