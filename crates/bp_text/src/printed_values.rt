// The text of a value, as its shape prints it, in one pass onto the end of a list of bytes.

ghost use Rattle.std.specs.Prelude.{◌≡◌, [], ◌∷◌, ◌++◌, codes, map, IfOk, OnOk, OnErr};
ghost use Rattle.bp_value.specs.declared.value.Value.{out-Value};
ghost use Rattle.bp_value.specs.declared.value.Value.TheVariants as val;
ghost use Rattle.bp_value.specs.Form.{form_of, field_form, case_form, poly_form, parts, named_parts, cases};
ghost use Rattle.bp_value.specs.Form as form;
ghost use Rattle.bp_value.specs.Faults.{IsGood};
ghost use Rattle.bp_value.specs.Fits.{Anything, IsMade};
ghost use Rattle.readers.specs.Reader.{Each, IsByte};
ghost use Rattle.bp_text_grammar.specs.Texts.{curly_open, round_close, round_open};
ghost use Rattle.bp_text_grammar.specs.PrintedValues.{all_items, argument_pieces, bool_pieces, field_pieces, number_pieces, part_pieces, sexp_pieces};
ghost use Rattle.bp_text_grammar.specs.PrintedTexts.{value_text};
ghost use Rattle.bp_text_grammar.specs.WholeTexts.{IsValueText};
ghost use Rattle.bp_text.specs.Printing.{lead, piece_bytes, Appends, AreOf, IsOf};

use crate::contents::{
    bool_in, case_in, char_in, items_in, number_in, option_in, parts_in, sexp_in, text_in,
};
use crate::printing::{
    append_byte, append_bytes, append_char, append_decimal, append_lead, append_quoted,
};
use bp_value::{Case, Field, OutOfMemory, PolyCase, Sexp, Shape, Value};
use std::alloc::Global;

/// The text of the value.
///
/// It goes over the value once, and takes stack for each level of the shape, and of an
/// S-expression.
pub fn print_value(alloc: Global, shape: &Shape, value: &Value) -> Result<Vec<u8>, OutOfMemory>
    requires { IsOf (form_of shape.now) value.now }
    ensures text { IfOk result (λ text. text.items ≡ value_text (form_of shape.now) value.now) }
    ensures reads { let f = form_of shape.now in
        IsGood f → IfOk result (λ text. IsValueText f value.now text.items) }
{
    let mut text = Vec::new(alloc);
    append_value(shape, value, &mut text)?;
    known(&text);
    Ok(text)
}

// What the type of bytes says of them, for the proof.
fn known(bytes: &[u8])
    ensures { Each IsByte bytes.now }
{
    let _ = bytes;
}

/// Appends the text of the value.
pub fn put_value(shape: &Shape, value: &Value, out: &mut Vec<u8>) -> Result<(), OutOfMemory>
    requires { IsOf (form_of shape.now) value.now }
    ensures ok { let text = value_text (form_of shape.now) value.now in
        OnOk result (out.new.items ≡ out.old.items ++ text) }
    ensures err { OnErr result (out.new.items ≡ out.old.items) }
{
    let start = out.len();
    match append_value(shape, value, out) {
        Ok(()) => Ok(()),
        Err(error) => {
            out.truncate(start);
            Err(error)
        }
    }
}

/// Appends the text of the S-expression.
pub fn put_sexp(sexp: &Sexp, out: &mut Vec<u8>) -> Result<(), OutOfMemory>
    ensures ok { let text = value_text form.sexp (val.Sexp sexp.now) in
        OnOk result (out.new.items ≡ out.old.items ++ text) }
    ensures err { OnErr result (out.new.items ≡ out.old.items) }
{
    let start = out.len();
    match append_sexp(sexp, out) {
        Ok(()) => Ok(()),
        Err(error) => {
            out.truncate(start);
            Err(error)
        }
    }
}

#[cycle(values)]
fn append_value(shape: &Shape, value: &Value, out: &mut Vec<u8>) -> Result<(), OutOfMemory>
    requires { IsOf (form_of shape.now) value.now }
    ensures { Appends (value_text (form_of shape.now) value.now)
        out.old.items out.new.items result }
{
    match shape {
        Shape::Unit => append_bytes(b"()", out),
        Shape::Bool => append_bool(value, out),
        Shape::Char => append_char(char_in(value), out),
        Shape::Int => append_number(value, out),
        Shape::Int32 => append_number(value, out),
        Shape::Int64 => append_number(value, out),
        Shape::Text => append_quoted(text_in(value), out),
        Shape::Opt(item) => append_option(item.get(), value, out),
        Shape::List(item) => append_list(item.get(), value, out),
        Shape::Tuple(shapes) => append_parts(shapes.as_slice(), parts_in(value), out),
        Shape::Fields(fields) => append_fields(fields.as_slice(), parts_in(value), out),
        Shape::Sum(cases) => append_sum(cases.as_slice(), value, out),
        Shape::Poly(cases) => append_poly(cases.as_slice(), value, out),
        Shape::Sexp => append_sexp(sexp_in(value), out),
    }
}

fn append_bool(value: &Value, out: &mut Vec<u8>) -> Result<(), OutOfMemory>
    requires { IsMade val.Bool Anything value.now }
    ensures { Appends (piece_bytes (bool_pieces (out-Value value.now)))
        out.old.items out.new.items result }
{
    if bool_in(value) {
        append_bytes(b"true", out)
    } else {
        append_bytes(b"false", out)
    }
}

fn append_number(value: &Value, out: &mut Vec<u8>) -> Result<(), OutOfMemory>
    requires { IsMade val.Num Anything value.now }
    ensures { Appends (piece_bytes (number_pieces (out-Value value.now)))
        out.old.items out.new.items result }
{
    append_decimal(number_in(value), out)
}

#[cycle(values)]
fn append_option(item: &Shape, value: &Value, out: &mut Vec<u8>) -> Result<(), OutOfMemory>
    requires { IsOf (form.opt (form_of item.now)) value.now }
    ensures { Appends (value_text (form.opt (form_of item.now)) value.now)
        out.old.items out.new.items result }
{
    match option_in(value) {
        None => append_bytes(b"none", out),
        Some(inner) => {
            append_bytes(b"some ", out)?;
            append_value(item, inner, out)
        }
    }
}

#[cycle(values)]
fn append_list(item: &Shape, value: &Value, out: &mut Vec<u8>) -> Result<(), OutOfMemory>
    requires { IsOf (form.listed (form_of item.now)) value.now }
    ensures { Appends (value_text (form.listed (form_of item.now)) value.now)
        out.old.items out.new.items result }
{
    let values = items_in(value);
    append_byte(b'[', out)?;
    for (place, value) in values.iter().enumerate() {
        append_member(b"; ", place, item, value, out)?;
    }
    append_byte(b']', out)
}

// A value in a row of values.
#[cycle(values)]
fn append_member(
    separator: &[u8],
    place: usize,
    shape: &Shape,
    value: &Value,
    out: &mut Vec<u8>,
) -> Result<(), OutOfMemory>
    requires { IsOf (form_of shape.now) value.now }
    ensures { Appends (lead separator.now place ++ value_text (form_of shape.now) value.now)
        out.old.items out.new.items result }
{
    append_lead(separator, place, out)?;
    append_value(shape, value, out)
}

// The parts of a tuple, or the arguments of a case that has some, in round brackets.
#[cycle(values)]
fn append_parts(shapes: &[Shape], values: &[Value], out: &mut Vec<u8>) -> Result<(), OutOfMemory>
    requires { AreOf (parts (map form_of shapes.now)) values.now }
    ensures { let pieces = part_pieces (parts (map form_of shapes.now)) values.now in
        Appends (round_open ∷ piece_bytes pieces) out.old.items out.new.items result }
{
    append_byte(b'(', out)?;
    for (place, shape) in shapes.iter().enumerate() {
        append_member(b", ", place, shape, &values[place], out)?;
    }
    append_byte(b')', out)
}

// The fields of a record, in curly brackets.
#[cycle(values)]
fn append_fields(fields: &[Field], values: &[Value], out: &mut Vec<u8>) -> Result<(), OutOfMemory>
    requires { AreOf (named_parts (map field_form fields.now)) values.now }
    ensures { let pieces = field_pieces (named_parts (map field_form fields.now)) values.now in
        Appends (curly_open ∷ piece_bytes pieces) out.old.items out.new.items result }
{
    append_byte(b'{', out)?;
    for (place, field) in fields.iter().enumerate() {
        append_field(place, field, &values[place], out)?;
    }
    append_byte(b'}', out)
}

#[cycle(values)]
fn append_field(
    place: usize,
    field: &Field,
    value: &Value,
    out: &mut Vec<u8>,
) -> Result<(), OutOfMemory>
    requires { IsOf (form_of field.now.shape) value.now }
    ensures { let text = value_text (form_of field.now.shape) value.now in
        Appends (lead (codes "; ") place ++ (field.now.name ++ (codes " = " ++ text)))
        out.old.items out.new.items result }
{
    append_lead(b"; ", place, out)?;
    append_bytes(field.name.as_slice(), out)?;
    append_bytes(b" = ", out)?;
    append_value(&field.shape, value, out)
}

#[cycle(values)]
fn append_sum(sum: &[Case], value: &Value, out: &mut Vec<u8>) -> Result<(), OutOfMemory>
    requires { IsOf (form.sum (cases (map case_form sum.now))) value.now }
    ensures { Appends (value_text (form.sum (cases (map case_form sum.now))) value.now)
        out.old.items out.new.items result }
{
    let (place, args) = case_in(value);
    let case = &sum[place as usize];
    append_bytes(case.name.as_slice(), out)?;
    append_arguments(case.args.as_slice(), args, out)
}

#[cycle(values)]
fn append_arguments(
    shapes: &[Shape],
    values: &[Value],
    out: &mut Vec<u8>,
) -> Result<(), OutOfMemory>
    requires { AreOf (parts (map form_of shapes.now)) values.now }
    ensures { let pieces = argument_pieces (parts (map form_of shapes.now)) values.now in
        Appends (piece_bytes pieces) out.old.items out.new.items result }
{
    if values.is_empty() {
        return Ok(());
    }
    append_parts(shapes, values, out)
}

#[cycle(values)]
fn append_poly(poly: &[PolyCase], value: &Value, out: &mut Vec<u8>) -> Result<(), OutOfMemory>
    requires { IsOf (form.poly (cases (map poly_form poly.now))) value.now }
    ensures { Appends (value_text (form.poly (cases (map poly_form poly.now))) value.now)
        out.old.items out.new.items result }
{
    let (place, args) = case_in(value);
    let case = &poly[place as usize];
    append_byte(b'`', out)?;
    append_bytes(case.name.as_slice(), out)?;
    match &case.arg {
        None => Ok(()),
        Some(shape) => append_argument(shape.get(), &args[0], out),
    }
}

// The one argument of a case, in round brackets.
#[cycle(values)]
fn append_argument(shape: &Shape, value: &Value, out: &mut Vec<u8>) -> Result<(), OutOfMemory>
    requires { IsOf (form_of shape.now) value.now }
    ensures { Appends (round_open ∷ (value_text (form_of shape.now) value.now ++ round_close ∷ []))
        out.old.items out.new.items result }
{
    append_byte(b'(', out)?;
    append_value(shape, value, out)?;
    append_byte(b')', out)
}

#[cycle(sexps)]
fn append_sexp(sexp: &Sexp, out: &mut Vec<u8>) -> Result<(), OutOfMemory>
    ensures { Appends (piece_bytes (sexp_pieces sexp.now)) out.old.items out.new.items result }
{
    match sexp {
        Sexp::Atom(text) => append_quoted(text.as_slice(), out),
        Sexp::List(items) => append_sexps(items.as_slice(), out),
    }
}

// The items of a list, in round brackets.
#[cycle(sexps)]
fn append_sexps(sexps: &[Sexp], out: &mut Vec<u8>) -> Result<(), OutOfMemory>
    ensures { let pieces = all_items (map sexp_pieces sexps.now) in
        Appends (round_open ∷ piece_bytes pieces) out.old.items out.new.items result }
{
    append_byte(b'(', out)?;
    for (place, sexp) in sexps.iter().enumerate() {
        append_lead(b" ", place, out)?;
        append_sexp(sexp, out)?;
    }
    append_byte(b')', out)
}
