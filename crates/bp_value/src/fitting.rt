ghost use Rattle.std.specs.Prelude.{◌≡◌, ◌↔◌, ◌≤◌, ◌≤ℤ◌, IsTrue, map, length};
ghost use Rattle.std.specs.List.{All};
ghost use Rattle.std.specs.Option.{option_map};
ghost use Rattle.bp_value.specs.declared.value.Value.TheVariants as val;
ghost use Rattle.bp_value.specs.Form.{form_of, field_form, case_form, poly_form, parts, named_parts, cases, argument};
ghost use Rattle.bp_value.specs.Form as form;
ghost use Rattle.bp_value.specs.Faults.{IsGood};
ghost use Rattle.bp_value.specs.Limits.{deepest_sexp};
ghost use Rattle.bp_value.specs.Fits.{Fits, FitParts, FitsSexp, IsMade, Anything};

use crate::boxed::Boxed;
use crate::shape::{Case, Field, PolyCase, Shape};
use crate::value::{Sexp, Value};

/// The greatest depth of an S-expression.
const SEXP_DEPTH: u32 = 128;

/// Numbers of 63 bits, as OCaml's `int`.
const LEAST_INT: i64 = -(1 << 62);

const GREATEST_INT: i64 = (1 << 62) - 1;

/// Whether the value is one of the shape: it has the shape's form, its numbers are in their
/// kinds' ranges, its texts and lists have at most `max_len` bytes or items, those inside
/// S-expressions too, and its S-expressions are at most 128 deep.
///
/// It goes over the value once, no deeper than the shape and 128 levels into an S-expression. It
/// takes no memory.
pub fn fits(shape: &Shape, value: &Value, max_len: u64) -> bool
    requires { IsGood (form_of shape.now) }
    ensures { IsTrue result ↔ Fits max_len (form_of shape.now) value.now }
{
    shape_fits(shape, value, max_len)
}

#[cycle(fits)]
fn shape_fits(shape: &Shape, value: &Value, max_len: u64) -> bool
    ensures { IsTrue result ↔ Fits max_len (form_of shape.now) value.now }
{
    match shape {
        Shape::Unit => is_unit(value),
        Shape::Bool => is_bool(value),
        Shape::Char => is_char(value),
        Shape::Int => is_number(value, LEAST_INT, GREATEST_INT),
        Shape::Int32 => is_number(value, i64::from(i32::MIN), i64::from(i32::MAX)),
        Shape::Int64 => is_number(value, i64::MIN, i64::MAX),
        Shape::Text => is_text(value, max_len),
        Shape::Opt(item) => option_fits(item.get(), value, max_len),
        Shape::List(item) => list_fits(item.get(), value, max_len),
        Shape::Tuple(parts) => tuple_fits(parts.as_slice(), value, max_len),
        Shape::Fields(fields) => record_fits(fields.as_slice(), value, max_len),
        Shape::Sum(cases) => sum_fits(cases.as_slice(), value, max_len),
        Shape::Poly(cases) => poly_fits(cases.as_slice(), value, max_len),
        Shape::Sexp => is_sexp(value, max_len),
    }
}

#[cycle(fits)]
fn option_fits(item: &Shape, value: &Value, max_len: u64) -> bool
    ensures { IsTrue result ↔ Fits max_len (form.opt (form_of item.now)) value.now }
{
    match value {
        Value::Absent => true,
        Value::Present(inner) => shape_fits(item, inner.get(), max_len),
        _ => false,
    }
}

#[cycle(fits)]
fn list_fits(item: &Shape, value: &Value, max_len: u64) -> bool
    ensures { IsTrue result ↔ Fits max_len (form.listed (form_of item.now)) value.now }
{
    match value {
        Value::Items(items) => {
            items.len() as u64 <= max_len && items_fit(item, items.as_slice(), max_len)
        }
        _ => false,
    }
}

#[cycle(fits)]
fn items_fit(item: &Shape, values: &[Value], max_len: u64) -> bool
    ensures { IsTrue result ↔ All (Fits max_len (form_of item.now)) values.now }
{
    for value in values {
        if !shape_fits(item, value, max_len) {
            return false;
        }
    }
    true
}

#[cycle(fits)]
fn tuple_fits(shapes: &[Shape], value: &Value, max_len: u64) -> bool
    ensures { IsTrue result ↔ Fits max_len (form.tuple (parts (map form_of shapes.now))) value.now }
{
    match value {
        Value::Parts(values) => parts_fit(shapes, values.as_slice(), max_len),
        _ => false,
    }
}

#[cycle(fits)]
fn parts_fit(shapes: &[Shape], values: &[Value], max_len: u64) -> bool
    ensures { IsTrue result ↔ FitParts max_len (parts (map form_of shapes.now)) values.now }
{
    if shapes.len() != values.len() {
        return false;
    }
    for (place, shape) in shapes.iter().enumerate() {
        if !shape_fits(shape, &values[place], max_len) {
            return false;
        }
    }
    true
}

#[cycle(fits)]
fn record_fits(fields: &[Field], value: &Value, max_len: u64) -> bool
    ensures { let record_form = form.fields (named_parts (map field_form fields.now)) in
        IsTrue result ↔ Fits max_len record_form value.now }
{
    match value {
        Value::Parts(values) => fields_fit(fields, values.as_slice(), max_len),
        _ => false,
    }
}

#[cycle(fits)]
fn fields_fit(fields: &[Field], values: &[Value], max_len: u64) -> bool
    ensures { let fields_form = named_parts (map field_form fields.now) in
        IsTrue result ↔ FitParts max_len fields_form values.now }
{
    if fields.len() != values.len() {
        return false;
    }
    for (place, field) in fields.iter().enumerate() {
        if !shape_fits(&field.shape, &values[place], max_len) {
            return false;
        }
    }
    true
}

#[cycle(fits)]
fn sum_fits(sum: &[Case], value: &Value, max_len: u64) -> bool
    ensures { IsTrue result ↔ Fits max_len (form.sum (cases (map case_form sum.now))) value.now }
{
    match value {
        Value::Case { place, args } => match sum.get(*place as usize) {
            Some(case) => parts_fit(case.args.as_slice(), args.as_slice(), max_len),
            None => false,
        },
        _ => false,
    }
}

#[cycle(fits)]
fn poly_fits(poly: &[PolyCase], value: &Value, max_len: u64) -> bool
    ensures { IsTrue result ↔ Fits max_len (form.poly (cases (map poly_form poly.now))) value.now }
{
    match value {
        Value::Case { place, args } => match poly.get(*place as usize) {
            Some(case) => argument_fits(&case.arg, args.as_slice(), max_len),
            None => false,
        },
        _ => false,
    }
}

#[cycle(fits)]
fn argument_fits(shape: &Option<Boxed<Shape>>, values: &[Value], max_len: u64) -> bool
    ensures { let argument_form = argument (option_map form_of shape.now) in
        IsTrue result ↔ FitParts max_len argument_form values.now }
{
    match shape {
        None => values.is_empty(),
        Some(shape) => values.len() == 1 && shape_fits(shape.get(), &values[0], max_len),
    }
}

fn is_unit(value: &Value) -> bool
    ensures { IsTrue result ↔ (value.now ≡ val.Unit) }
{
    matches!(value, Value::Unit)
}

fn is_bool(value: &Value) -> bool
    ensures { IsTrue result ↔ IsMade val.Bool Anything value.now }
{
    matches!(value, Value::Bool(_))
}

fn is_char(value: &Value) -> bool
    ensures { IsTrue result ↔ IsMade val.Char Anything value.now }
{
    matches!(value, Value::Char(_))
}

fn is_number(value: &Value, least: i64, greatest: i64) -> bool
    ensures { IsTrue result ↔ IsMade val.Num (λ n. (least ≤ℤ n) × (n ≤ℤ greatest)) value.now }
{
    match value {
        Value::Num(number) => least <= *number && *number <= greatest,
        _ => false,
    }
}

fn is_text(value: &Value, max_len: u64) -> bool
    ensures { IsTrue result ↔ IsMade val.Text (λ text. length text ≤ max_len) value.now }
{
    match value {
        Value::Text(text) => text.len() as u64 <= max_len,
        _ => false,
    }
}

fn is_sexp(value: &Value, max_len: u64) -> bool
    ensures { IsTrue result ↔ IsMade val.Sexp (FitsSexp max_len deepest_sexp) value.now }
{
    match value {
        Value::Sexp(sexp) => sexp_fits(sexp, SEXP_DEPTH, max_len),
        _ => false,
    }
}

#[cycle(sexps)]
fn sexp_fits(sexp: &Sexp, depth: u32, max_len: u64) -> bool
    ensures { IsTrue result ↔ FitsSexp max_len depth sexp.now }
{
    if depth == 0 {
        return false;
    }
    match sexp {
        Sexp::Atom(text) => text.len() as u64 <= max_len,
        Sexp::List(items) => {
            items.len() as u64 <= max_len && sexps_fit(items.as_slice(), depth - 1, max_len)
        }
    }
}

#[cycle(sexps)]
fn sexps_fit(sexps: &[Sexp], depth: u32, max_len: u64) -> bool
    ensures { IsTrue result ↔ All (FitsSexp max_len depth) sexps.now }
{
    for sexp in sexps {
        if !sexp_fits(sexp, depth, max_len) {
            return false;
        }
    }
    true
}
