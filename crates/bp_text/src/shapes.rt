// Shapes, by recursion on the brackets that may still be opened.
ghost use Rattle.readers.specs.Reader.{one};
ghost use Rattle.bp_text_grammar.specs.Texts.{bar, curly_close, semicolon, square_close};
ghost use Rattle.bp_text_grammar.specs.ShapeTexts as grammar;
ghost use Rattle.bp_text_grammar.specs.ShapeTexts.{base_at, ends_case};
ghost use Rattle.bp_text.specs.Items.{ReadsUpTo};
ghost use Rattle.bp_text.specs.Unread.{ReadsFrom};

use crate::cursor::Cursor;
use crate::halt::Halt;
use crate::shape_parts::{base_word, closes, name, posted, tupled};
use bp_value::{Boxed, Case, Field, Listed, PolyCase, Shape};
use std::alloc::Global;

/// The most brackets that are open at once.
const MAX_BRACKETS: u32 = 64;

/// A shape, as far as the tokens go on with one.
pub fn shape(tokens: &mut Cursor, alloc: Global) -> Result<Shape, Halt>
    ensures { ReadsFrom grammar.shape_at tokens.old tokens.new result }
{
    product(tokens, MAX_BRACKETS, alloc)
}

#[cycle(shapes)]
fn product(tokens: &mut Cursor, room: u32, alloc: Global) -> Result<Shape, Halt>
    ensures { ReadsFrom (grammar.product_at (base_at room)) tokens.old tokens.new result }
{
    let factors = factors(tokens, room, alloc)?;
    Ok(tupled(factors))
}

// Parts with `*` between them.
#[cycle(shapes)]
fn factors(tokens: &mut Cursor, room: u32, alloc: Global) -> Result<Listed<Shape>, Halt>
    ensures { ReadsFrom (grammar.factors_at (base_at room)) tokens.old tokens.new result }
{
    let mut factors = Vec::new(alloc);
    'factors: loop {
        match part(tokens, room, alloc) {
            Ok(part) => factors.push(part)?,
            Err(halt) => return Err(halt),
        }
        if !tokens.is_mark(b'*') {
            return Ok(Listed::from_vec(factors));
        }
        tokens.take()?;
    }
}

// A base, and the words that make lists and options of it.
#[cycle(shapes)]
fn part(tokens: &mut Cursor, room: u32, alloc: Global) -> Result<Shape, Halt>
    ensures { ReadsFrom (grammar.part_at (base_at room)) tokens.old tokens.new result }
{
    let base = base(tokens, room, alloc)?;
    posted(tokens, base, alloc)
}

// A word, or what stands in brackets.
#[cycle(shapes)]
fn base(tokens: &mut Cursor, room: u32, alloc: Global) -> Result<Shape, Halt>
    ensures { ReadsFrom (base_at room) tokens.old tokens.new result }
{
    if room == 0 {
        return base_word(tokens);
    }
    if tokens.is_mark(b'(') {
        return round(tokens, room - 1, alloc);
    }
    if tokens.is_mark(b'{') {
        return record(tokens, room - 1, alloc);
    }
    if tokens.is_mark(b'[') {
        return variant(tokens, room - 1, alloc);
    }
    base_word(tokens)
}

// A shape in round brackets.
#[cycle(shapes)]
fn round(tokens: &mut Cursor, room: u32, alloc: Global) -> Result<Shape, Halt>
    ensures { ReadsFrom (grammar.round_at (base_at room)) tokens.old tokens.new result }
{
    tokens.pass_mark(b'(')?;
    let shape = product(tokens, room, alloc)?;
    tokens.pass_mark(b')')?;
    Ok(shape)
}

#[cycle(shapes)]
fn record(tokens: &mut Cursor, room: u32, alloc: Global) -> Result<Shape, Halt>
    ensures { ReadsFrom (grammar.curly_at (base_at room)) tokens.old tokens.new result }
{
    tokens.pass_mark(b'{')?;
    let fields = fields(tokens, room, alloc)?;
    Ok(Shape::Fields(fields))
}

#[cycle(shapes)]
fn fields(tokens: &mut Cursor, room: u32, alloc: Global) -> Result<Listed<Field>, Halt>
    ensures { let reads = grammar.field_at (base_at room) in
        ReadsFrom (grammar.some_at semicolon curly_close reads) tokens.old tokens.new result }
{
    let mut fields = Vec::new(alloc);
    'fields: loop {
        match field(tokens, room, alloc) {
            Ok(field) => fields.push(field)?,
            Err(halt) => return Err(halt),
        }
        match closes(tokens, b';', b'}') {
            Ok(false) => {}
            Ok(true) => return Ok(Listed::from_vec(fields)),
            Err(halt) => return Err(halt),
        }
    }
}

#[cycle(shapes)]
fn field(tokens: &mut Cursor, room: u32, alloc: Global) -> Result<Field, Halt>
    ensures { ReadsFrom (grammar.field_at (base_at room)) tokens.old tokens.new result }
{
    let name = name(tokens, alloc)?;
    tokens.pass_mark(b':')?;
    let shape = product(tokens, room, alloc)?;
    Ok(Field { name, shape })
}

// A variant, of the kind that its first case is of.
#[cycle(shapes)]
fn variant(tokens: &mut Cursor, room: u32, alloc: Global) -> Result<Shape, Halt>
    ensures { ReadsFrom (grammar.square_at (base_at room)) tokens.old tokens.new result }
{
    tokens.pass_mark(b'[')?;
    if tokens.is_mark(b'`') {
        let cases = poly_cases(tokens, room, alloc)?;
        return Ok(Shape::Poly(cases));
    }
    let cases = cases(tokens, room, alloc)?;
    Ok(Shape::Sum(cases))
}

#[cycle(shapes)]
fn cases(tokens: &mut Cursor, room: u32, alloc: Global) -> Result<Listed<Case>, Halt>
    ensures { let reads = grammar.sum_case_at (base_at room) in
        ReadsFrom (grammar.some_at bar square_close reads) tokens.old tokens.new result }
{
    let mut cases = Vec::new(alloc);
    'cases: loop {
        match case(tokens, room, alloc) {
            Ok(case) => cases.push(case)?,
            Err(halt) => return Err(halt),
        }
        match closes(tokens, b'|', b']') {
            Ok(false) => {}
            Ok(true) => return Ok(Listed::from_vec(cases)),
            Err(halt) => return Err(halt),
        }
    }
}

#[cycle(shapes)]
fn case(tokens: &mut Cursor, room: u32, alloc: Global) -> Result<Case, Halt>
    ensures { let reads = grammar.sum_case_at (base_at room) in
        ReadsUpTo ends_case reads tokens.old tokens.new result }
{
    let name = name(tokens, alloc)?;
    if !tokens.is_word(b"of") {
        let args = Listed::from_vec(Vec::new(alloc));
        return Ok(Case { name, args });
    }
    tokens.take()?;
    let args = factors(tokens, room, alloc)?;
    Ok(Case { name, args })
}

#[cycle(shapes)]
fn poly_cases(tokens: &mut Cursor, room: u32, alloc: Global) -> Result<Listed<PolyCase>, Halt>
    ensures { let reads = grammar.poly_case_at (base_at room) in
        ReadsFrom (grammar.some_at bar square_close reads) tokens.old tokens.new result }
{
    let mut cases = Vec::new(alloc);
    'cases: loop {
        match poly_case(tokens, room, alloc) {
            Ok(case) => cases.push(case)?,
            Err(halt) => return Err(halt),
        }
        match closes(tokens, b'|', b']') {
            Ok(false) => {}
            Ok(true) => return Ok(Listed::from_vec(cases)),
            Err(halt) => return Err(halt),
        }
    }
}

#[cycle(shapes)]
fn poly_case(tokens: &mut Cursor, room: u32, alloc: Global) -> Result<PolyCase, Halt>
    ensures { let reads = grammar.poly_case_at (base_at room) in
        ReadsUpTo ends_case reads tokens.old tokens.new result }
{
    tokens.pass_mark(b'`')?;
    let name = name(tokens, alloc)?;
    if !tokens.is_word(b"of") {
        return Ok(PolyCase { name, arg: None });
    }
    tokens.take()?;
    let shape = product(tokens, room, alloc)?;
    Ok(PolyCase {
        name,
        arg: Some(Boxed::new(alloc, shape)?),
    })
}
