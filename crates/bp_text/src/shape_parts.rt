// The parts of shapes that hold no other shape.
ghost use Rattle.std.specs.Prelude.{◌≡◌};
ghost use Rattle.readers.specs.Reader.{one};
ghost use Rattle.bp_text_grammar.specs.Texts.{same, BadText};
ghost use Rattle.bp_text_grammar.specs.ShapeTexts as grammar;
ghost use Rattle.bp_text_grammar.specs.Tokens.{Word};
ghost use Rattle.bp_text.specs.Items.{closing, halt_of, posted_at};
ghost use Rattle.bp_text.specs.Unread.{ahead, is_first, ReadsFrom};

use crate::cursor::Cursor;
use crate::halt::Halt;
use crate::token::Token;
use bp_value::{Blob, Boxed, Listed, Shape};
use std::alloc::Global;

/// The most bytes of the name of a field or a case.
const MAX_NAME: usize = 64;

/// The most words `list` and `option` after a base.
const MAX_POSTS: usize = 64;

/// The name of a field or a case.
pub fn name(tokens: &mut Cursor, alloc: Global) -> Result<Blob, Halt>
    ensures { ReadsFrom (one grammar.name_of BadText) tokens.old tokens.new result }
{
    let name = match tokens.first() {
        None => return Err(Halt::More),
        Some(Token::Word(word)) if word.len() <= MAX_NAME => Blob::from_slice(alloc, word)?,
        Some(_) => return Err(Halt::Bad),
    };
    tokens.take()?;
    Ok(name)
}

/// A base of one word. Of the words that are none, `float` alone has a reason of its own.
pub fn base_word(tokens: &mut Cursor) -> Result<Shape, Halt>
    ensures { ReadsFrom grammar.base_word_at tokens.old tokens.new result }
{
    let word = match tokens.first() {
        None => return Err(Halt::More),
        Some(Token::Word(word)) => *word,
        Some(_) => return Err(Halt::Bad),
    };
    let Some(base) = base_named(word) else {
        return Err(no_base(word));
    };
    tokens.take()?;
    Ok(base)
}

// The base of this name.
fn base_named(word: &[u8]) -> Option<Shape>
    ensures { result ≡ grammar.base_named grammar.base_words word.now }
{
    if is_same(word, b"unit") {
        Some(Shape::Unit)
    } else if is_same(word, b"bool") {
        Some(Shape::Bool)
    } else if is_same(word, b"char") {
        Some(Shape::Char)
    } else if is_same(word, b"int") {
        Some(Shape::Int)
    } else if is_same(word, b"int32") {
        Some(Shape::Int32)
    } else if is_same(word, b"int64") {
        Some(Shape::Int64)
    } else if is_same(word, b"string") {
        Some(Shape::Text)
    } else if is_same(word, b"sexp") {
        Some(Shape::Sexp)
    } else {
        None
    }
}

// Why this word is at fault where a base may stand.
fn no_base(word: &[u8]) -> Halt
    ensures { result ≡ halt_of (grammar.base_why (Word word.now)) }
{
    if is_same(word, b"float") {
        Halt::Float
    } else {
        Halt::Bad
    }
}

fn is_same(word: &[u8], other: &[u8]) -> bool
    ensures { result ≡ same word.now other.now }
{
    word == other
}

/// The words `list` and `option` after a base, which make lists and options of it.
pub fn posted(tokens: &mut Cursor, base: Shape, alloc: Global) -> Result<Shape, Halt>
    ensures { ReadsFrom (posted_at base) tokens.old tokens.new result }
{
    let mut shape = base;
    let mut count = 0;
    'posts: while is_post(tokens) {
        if count == MAX_POSTS {
            return Err(Halt::Bad);
        }
        let is_list = tokens.is_word(b"list");
        tokens.take()?;
        let inner = Boxed::new(alloc, shape)?;
        shape = if is_list {
            Shape::List(inner)
        } else {
            Shape::Opt(inner)
        };
        count += 1;
    }
    Ok(shape)
}

fn is_post(tokens: &Cursor) -> bool
    ensures { result ≡ is_first grammar.is_post (ahead tokens.now) }
{
    tokens.is_word(b"list") || tokens.is_word(b"option")
}

/// Whether the mark after an item closes its list, or goes on with it.
pub fn closes(tokens: &mut Cursor, separator: u8, close: u8) -> Result<bool, Halt>
    ensures { ReadsFrom (one (closing separator close) BadText) tokens.old tokens.new result }
{
    if tokens.is_mark(close) {
        tokens.take()?;
        return Ok(true);
    }
    tokens.pass_mark(separator)?;
    Ok(false)
}

/// One factor is itself, two or more are a tuple.
pub fn tupled(factors: Listed<Shape>) -> Shape
    ensures { result ≡ grammar.tupled factors }
{
    let mut shapes = factors.into_vec();
    if shapes.len() == 1 {
        return shapes.swap_remove(0);
    }
    Shape::Tuple(Listed::from_vec(shapes))
}
