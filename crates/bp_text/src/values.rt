// The value of a shape whose text stands at a cursor, which moves behind it. Where a token is at
// fault, the cursor stays at it.
ghost use Rattle.std.specs.Prelude.{◌≡◌, ◌<◌, ◌≤◌, ◌∷◌, [], ℕ, Option, Some, None, codes, length, map, IfOk, IfSome};
ghost use Rattle.readers.specs.Reader.{after, mapped, one};
ghost use Rattle.bp_value.specs.declared.value.Value.TheVariants as val;
ghost use Rattle.bp_value.specs.Form.{form_of, field_form, case_form, poly_form, parts, named_parts, cases, argument};
ghost use Rattle.bp_value.specs.Form as form;
ghost use Rattle.bp_text_grammar.specs.Texts.{BadText, comma, semicolon, mark_at};
ghost use Rattle.bp_text_grammar.specs.ValueTexts as texts;
ghost use Rattle.bp_text_grammar.specs.ValueTexts.{arguments_at, fields_at, items_at, parts_at, value_at};
ghost use Rattle.bp_text.specs.Unread.{ahead, ReadsFrom};
ghost use Rattle.bp_text.specs.Printing.{AreGoodInside, IsGoodInside};
ghost use Rattle.bp_text.specs.Leaves.{byte_of, labelled_at, next_item_at, number_in, of_first, after_separator, separator_at};

use crate::cursor::Cursor;
use crate::halt::Halt;
use crate::sexps::{sexp, text};
use crate::token::Token;
use bp_value::{Boxed, Case, Field, Listed, PolyCase, Shape, Value};

/// Reads the value of a text of the shape.
#[cycle(values)]
pub fn value(shape: &Shape, cursor: &mut Cursor) -> Result<Value, Halt>
    requires { IsGoodInside (form_of shape.now) }
    ensures { ReadsFrom (value_at (form_of shape.now)) cursor.old cursor.new result }
{
    match shape {
        Shape::Unit => unit(cursor),
        Shape::Bool => boolean(cursor),
        Shape::Char => char(cursor),
        Shape::Int => number(62, cursor),
        Shape::Int32 => number(31, cursor),
        Shape::Int64 => number(63, cursor),
        Shape::Text => Ok(Value::Text(text(cursor)?)),
        Shape::Opt(item) => option(item.get(), cursor),
        Shape::List(item) => list(item.get(), cursor),
        Shape::Tuple(parts) => tuple(parts.as_slice(), cursor),
        Shape::Fields(fields) => record(fields.as_slice(), cursor),
        Shape::Sum(cases) => sum(cases.as_slice(), cursor),
        Shape::Poly(cases) => poly(cases.as_slice(), cursor),
        Shape::Sexp => Ok(Value::Sexp(sexp(128, cursor)?)),
    }
}

fn unit(cursor: &mut Cursor) -> Result<Value, Halt>
    ensures { ReadsFrom (value_at form.unit) cursor.old cursor.new result }
{
    cursor.pass_mark(b'(')?;
    cursor.pass_mark(b')')?;
    Ok(Value::Unit)
}

fn boolean(cursor: &mut Cursor) -> Result<Value, Halt>
    ensures { ReadsFrom (value_at form.bool) cursor.old cursor.new result }
{
    if cursor.is_word(b"true") {
        cursor.pass(true)?;
        return Ok(Value::Bool(true));
    }
    cursor.pass_word(b"false")?;
    Ok(Value::Bool(false))
}

fn char(cursor: &mut Cursor) -> Result<Value, Halt>
    ensures { ReadsFrom (value_at form.char) cursor.old cursor.new result }
{
    let byte = first_byte(cursor);
    Ok(Value::Char(cursor.take_as(byte)?))
}

// A number of so many bits and a sign.
fn number(bits: u32, cursor: &mut Cursor) -> Result<Value, Halt>
    requires { bits < 64 }
    ensures { ReadsFrom (one (texts.number_of bits) BadText) cursor.old cursor.new result }
{
    let number = first_number(bits, cursor);
    Ok(Value::Num(cursor.take_as(number)?))
}

// The byte of the first token.
fn first_byte(cursor: &Cursor) -> Option<u8>
    ensures { result ≡ of_first byte_of (ahead cursor.now) }
{
    match cursor.first() {
        Some(Token::Char(byte)) => Some(*byte),
        _ => None,
    }
}

// The number of the first token, within the range of so many bits and a sign.
fn first_number(bits: u32, cursor: &Cursor) -> Option<i64>
    requires { bits < 64 }
    ensures { result ≡ of_first (number_in bits) (ahead cursor.now) }
{
    match cursor.first() {
        Some(Token::Number(number)) if is_in_range(*number, bits) => Some(*number),
        _ => None,
    }
}

fn is_in_range(number: i64, bits: u32) -> bool
    requires { bits < 64 }
    ensures { result ≡ texts.in_range bits number }
{
    let bound = 1i128 << bits;
    -bound <= i128::from(number) && i128::from(number) < bound
}

// `none`, or `some` and a value.
#[cycle(values)]
fn option(item: &Shape, cursor: &mut Cursor) -> Result<Value, Halt>
    requires { IsGoodInside (form_of item.now) }
    ensures { ReadsFrom (value_at (form.opt (form_of item.now))) cursor.old cursor.new result }
{
    if cursor.is_word(b"none") {
        cursor.pass(true)?;
        return Ok(Value::Absent);
    }
    cursor.pass_word(b"some")?;
    let inner = value(item, cursor)?;
    Ok(Value::Present(Boxed::new(cursor.alloc(), inner)?))
}

#[cycle(values)]
fn list(item: &Shape, cursor: &mut Cursor) -> Result<Value, Halt>
    requires { IsGoodInside (form_of item.now) }
    ensures { ReadsFrom (value_at (form.listed (form_of item.now))) cursor.old cursor.new result }
{
    cursor.pass_mark(b'[')?;
    Ok(Value::Items(items(item, cursor)?))
}

// The items of a list after its `[`, and its `]`.
#[cycle(values)]
fn items(item: &Shape, cursor: &mut Cursor) -> Result<Listed<Value>, Halt>
    requires { IsGoodInside (form_of item.now) }
    ensures { ReadsFrom (items_at (value_at (form_of item.now))) cursor.old cursor.new result }
{
    let mut items = Vec::new(cursor.alloc());
    if cursor.is_mark(b']') {
        cursor.pass(true)?;
        return Ok(Listed::from_vec(items));
    }
    items.push(value(item, cursor)?)?;
    'items: loop {
        match next_item(item, cursor) {
            Ok(Some(value)) => items.push(value)?,
            Ok(None) => return Ok(Listed::from_vec(items)),
            Err(halt) => return Err(halt),
        }
    }
}

// An item after a `;`, or none and the `]`.
#[cycle(values)]
fn next_item(item: &Shape, cursor: &mut Cursor) -> Result<Option<Value>, Halt>
    requires { IsGoodInside (form_of item.now) }
    ensures reads { let r = value_at (form_of item.now) in
        ReadsFrom (next_item_at r) cursor.old cursor.new result }
    ensures fewer { IfOk result (λ next. IfSome next (λ v.
        length (ahead cursor.new) < length (ahead cursor.old))) }
{
    if cursor.is_mark(b']') {
        cursor.pass(true)?;
        return Ok(None);
    }
    cursor.pass_mark(b';')?;
    Ok(Some(value(item, cursor)?))
}

#[cycle(values)]
fn tuple(shapes: &[Shape], cursor: &mut Cursor) -> Result<Value, Halt>
    requires { AreGoodInside (parts (map form_of shapes.now)) }
    ensures { let f = form.tuple (parts (map form_of shapes.now)) in
        ReadsFrom (value_at f) cursor.old cursor.new result }
{
    cursor.pass_mark(b'(')?;
    Ok(Value::Parts(all_parts(shapes, cursor)?))
}

// Parts after a `(`, and the `)`.
#[cycle(values)]
fn all_parts(shapes: &[Shape], cursor: &mut Cursor) -> Result<Listed<Value>, Halt>
    requires { AreGoodInside (parts (map form_of shapes.now)) }
    ensures { ReadsFrom (parts_at (parts (map form_of shapes.now))) cursor.old cursor.new result }
{
    let mut values = Vec::new(cursor.alloc());
    'parts: for shape in shapes {
        match next_part(values.is_empty(), shape, cursor) {
            Ok(value) => values.push(value)?,
            Err(halt) => return Err(halt),
        }
    }
    cursor.pass_mark(b')')?;
    Ok(Listed::from_vec(values))
}

#[cycle(values)]
fn next_part(is_first: bool, shape: &Shape, cursor: &mut Cursor) -> Result<Value, Halt>
    requires { IsGoodInside (form_of shape.now) }
    ensures { let r = value_at (form_of shape.now) in
        ReadsFrom (after_separator comma is_first r) cursor.old cursor.new result }
{
    separator(b',', is_first, cursor)?;
    value(shape, cursor)
}

// The mark that stands before each but the first.
fn separator(mark: u8, is_first: bool, cursor: &mut Cursor) -> Result<(), Halt>
    ensures { ReadsFrom (separator_at mark is_first) cursor.old cursor.new result }
{
    if is_first {
        return Ok(());
    }
    cursor.pass_mark(mark)
}

// Fields in curly brackets, in the order of the shape.
#[cycle(values)]
fn record(fields: &[Field], cursor: &mut Cursor) -> Result<Value, Halt>
    requires { AreGoodInside (named_parts (map field_form fields.now)) }
    ensures { let f = form.fields (named_parts (map field_form fields.now)) in
        ReadsFrom (value_at f) cursor.old cursor.new result }
{
    cursor.pass_mark(b'{')?;
    let mut values = Vec::new(cursor.alloc());
    'fields: for field in fields {
        match next_field(values.is_empty(), field, cursor) {
            Ok(value) => values.push(value)?,
            Err(halt) => return Err(halt),
        }
    }
    cursor.pass_mark(b'}')?;
    Ok(Value::Parts(Listed::from_vec(values)))
}

#[cycle(values)]
fn next_field(is_first: bool, field: &Field, cursor: &mut Cursor) -> Result<Value, Halt>
    requires { IsGoodInside (field_form field.now).1 }
    ensures { let f = field_form field.now in
        ReadsFrom (after_separator semicolon is_first (labelled_at f.0 f.1))
        cursor.old cursor.new result }
{
    separator(b';', is_first, cursor)?;
    label(field.name.as_slice(), cursor)?;
    value(&field.shape, cursor)
}

// The name of a field, and its `=`.
fn label(name: &[u8], cursor: &mut Cursor) -> Result<(), Halt>
    ensures { ReadsFrom (texts.label_at name.now) cursor.old cursor.new result }
{
    cursor.pass_word(name)?;
    cursor.pass_mark(b'=')
}

// The name of a case, and its arguments.
#[cycle(values)]
fn sum(sum: &[Case], cursor: &mut Cursor) -> Result<Value, Halt>
    requires { IsGoodInside (form.sum (cases (map case_form sum.now))) }
    ensures { let f = form.sum (cases (map case_form sum.now)) in
        ReadsFrom (value_at f) cursor.old cursor.new result }
{
    let place = case_name(sum, cursor)?;
    let args = arguments(sum[place].args.as_slice(), cursor)?;
    Ok(Value::Case {
        place: place as u32,
        args,
    })
}

// The place of the case whose name is the first token, which is taken.
fn case_name(sum: &[Case], cursor: &mut Cursor) -> Result<usize, Halt>
    ensures reads { let cs = cases (map case_form sum.now) in
        ReadsFrom (one (texts.case_of cs) BadText) cursor.old cursor.new result }
    ensures within { IfOk result (λ place. place < length sum.now) }
{
    let found = case_place(sum, cursor);
    cursor.take_as(found)
}

fn case_place(sum: &[Case], cursor: &Cursor) -> Option<usize>
    ensures is { let cs = cases (map case_form sum.now) in
        result ≡ of_first (texts.case_of cs) (ahead cursor.now) }
    ensures within { IfSome result (λ place. place < length sum.now) }
{
    'cases: for (place, case) in sum.iter().enumerate() {
        if cursor.is_word(case.name.as_slice()) {
            return Some(place);
        }
    }
    None
}

// Nothing, or all arguments in round brackets.
#[cycle(values)]
fn arguments(shapes: &[Shape], cursor: &mut Cursor) -> Result<Listed<Value>, Halt>
    requires { AreGoodInside (parts (map form_of shapes.now)) }
    ensures { let fs = parts (map form_of shapes.now) in
        ReadsFrom (arguments_at fs) cursor.old cursor.new result }
{
    if shapes.is_empty() {
        return Ok(Listed::from_vec(Vec::new(cursor.alloc())));
    }
    cursor.pass_mark(b'(')?;
    all_parts(shapes, cursor)
}

// A backtick, the name of a case, and its argument if it has one.
#[cycle(values)]
fn poly(poly: &[PolyCase], cursor: &mut Cursor) -> Result<Value, Halt>
    requires { IsGoodInside (form.poly (cases (map poly_form poly.now))) }
    ensures { let f = form.poly (cases (map poly_form poly.now)) in
        ReadsFrom (value_at f) cursor.old cursor.new result }
{
    cursor.pass_mark(b'`')?;
    let place = poly_name(poly, cursor)?;
    let args = argument(&poly[place], cursor)?;
    Ok(Value::Case {
        place: place as u32,
        args,
    })
}

fn poly_name(poly: &[PolyCase], cursor: &mut Cursor) -> Result<usize, Halt>
    ensures reads { let cs = cases (map poly_form poly.now) in
        ReadsFrom (one (texts.case_of cs) BadText) cursor.old cursor.new result }
    ensures within { IfOk result (λ place. place < length poly.now) }
{
    let found = poly_place(poly, cursor);
    cursor.take_as(found)
}

fn poly_place(poly: &[PolyCase], cursor: &Cursor) -> Option<usize>
    ensures is { let cs = cases (map poly_form poly.now) in
        result ≡ of_first (texts.case_of cs) (ahead cursor.now) }
    ensures within { IfSome result (λ place. place < length poly.now) }
{
    'cases: for (place, case) in poly.iter().enumerate() {
        if cursor.is_word(case.name.as_slice()) {
            return Some(place);
        }
    }
    None
}

// The argument of a case, if it has one, in round brackets.
#[cycle(values)]
fn argument(case: &PolyCase, cursor: &mut Cursor) -> Result<Listed<Value>, Halt>
    requires { AreGoodInside (poly_form case.now).1 }
    ensures { let fs = (poly_form case.now).1 in
        ReadsFrom (arguments_at fs) cursor.old cursor.new result }
{
    let mut args = Vec::new(cursor.alloc());
    match &case.arg {
        None => Ok(Listed::from_vec(args)),
        Some(shape) => {
            cursor.pass_mark(b'(')?;
            args.push(value(shape.get(), cursor)?)?;
            cursor.pass_mark(b')')?;
            Ok(Listed::from_vec(args))
        }
    }
}
