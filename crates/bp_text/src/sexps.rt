// Texts and S-expressions at a cursor.
ghost use Rattle.std.specs.Prelude.{◌≡◌, ◌<◌, ◌≤◌, ◌-◌, ◌∷◌, [], ℕ, Option, Some, None, length, IfOk, IfSome};
ghost use Rattle.readers.specs.Reader.{after, mapped, one};
ghost use Rattle.bp_text_grammar.specs.Texts.{BadText};
ghost use Rattle.bp_text_grammar.specs.ValueTexts.{inside_at, sexp_at};
ghost use Rattle.bp_text.specs.Unread.{ahead, ReadsFrom};
ghost use Rattle.bp_text.specs.Leaves.{quoted_bytes_of, next_sexp_at};

use crate::cursor::Cursor;
use crate::halt::Halt;
use crate::token::Token;
use bp_value::{Blob, Listed, Sexp};

/// Takes a text.
pub fn text(cursor: &mut Cursor) -> Result<Blob, Halt>
    ensures { ReadsFrom (one quoted_bytes_of BadText) cursor.old cursor.new result }
{
    match cursor.first() {
        None => Err(Halt::More),
        Some(Token::Text(_)) => match cursor.take() {
            Ok(Token::Text(bytes)) => Ok(bytes),
            Ok(_) => Err(Halt::Bad),
            Err(halt) => Err(halt),
        },
        Some(_) => Err(Halt::Bad),
    }
}

/// Reads an S-expression of depth at most `depth`.
#[cycle(sexps)]
pub fn sexp(depth: u32, cursor: &mut Cursor) -> Result<Sexp, Halt>
    requires { 0 < depth }
    ensures reads { ReadsFrom (sexp_at depth) cursor.old cursor.new result }
    ensures fewer { IfOk result (λ s. length (ahead cursor.new) < length (ahead cursor.old)) }
{
    if !cursor.is_mark(b'(') {
        return Ok(Sexp::Atom(text(cursor)?));
    }
    cursor.pass(true)?;
    Ok(Sexp::List(inside(depth - 1, cursor)?))
}

// The items of a list after its `(`, each of depth at most `depth`, and its `)`.
#[cycle(sexps)]
fn inside(depth: u32, cursor: &mut Cursor) -> Result<Listed<Sexp>, Halt>
    ensures { ReadsFrom (inside_at depth (sexp_at depth)) cursor.old cursor.new result }
{
    let mut items = Vec::new(cursor.alloc());
    'items: while depth > 0 && !cursor.is_mark(b')') {
        match sexp(depth, cursor) {
            Ok(item) => items.push(item)?,
            Err(halt) => return Err(halt),
        }
    }
    cursor.pass_mark(b')')?;
    Ok(Listed::from_vec(items))
}
