// The text of a shape, in one pass onto the end of a list of bytes.

ghost use Rattle.std.specs.Prelude.{◌≡◌, ◌++◌, codes, map, IfOk};
ghost use Rattle.bp_value.specs.Form.{form_of, field_form, case_form, poly_form, parts, named_parts, cases};
ghost use Rattle.bp_value.specs.Form as form;
ghost use Rattle.bp_value.specs.Faults.{IsGood};
ghost use Rattle.bp_value.specs.declared.shape.Shape.TheVariants as shp;
ghost use Rattle.bp_text_grammar.specs.PrintedShapes.{shape_printed};
ghost use Rattle.bp_text_grammar.specs.PrintedTexts.{shape_text};
ghost use Rattle.bp_text_grammar.specs.WholeTexts.{IsShapeText};
ghost use Rattle.bp_text.specs.Printing.{case_text, factors_text, field_text, lead, part_text, poly_text, AreGoodInside, Appends, IsGoodInside};

use crate::printing::{append_byte, append_bytes, append_lead};
use bp_value::{Case, Field, OutOfMemory, PolyCase, Shape};
use std::alloc::Global;

/// The text of the shape, with brackets only where the grammar wants them.
///
/// It goes over the shape once, and takes stack for each of its levels.
pub fn print_shape(alloc: Global, shape: &Shape) -> Result<Vec<u8>, OutOfMemory>
    requires { IsGood (form_of shape.now) }
    ensures text { IfOk result (λ text. text.items ≡ shape_text shape.now) }
    ensures reads { IfOk result (λ text. IsShapeText shape.now text.items) }
{
    let mut text = Vec::new(alloc);
    append_shape(shape, &mut text)?;
    Ok(text)
}

#[cycle(shapes)]
fn append_shape(shape: &Shape, out: &mut Vec<u8>) -> Result<(), OutOfMemory>
    requires { IsGoodInside (form_of shape.now) }
    ensures { Appends (shape_text shape.now) out.old.items out.new.items result }
{
    match shape {
        Shape::Unit => append_bytes(b"unit", out),
        Shape::Bool => append_bytes(b"bool", out),
        Shape::Char => append_bytes(b"char", out),
        Shape::Int => append_bytes(b"int", out),
        Shape::Int32 => append_bytes(b"int32", out),
        Shape::Int64 => append_bytes(b"int64", out),
        Shape::Text => append_bytes(b"string", out),
        Shape::Opt(item) => append_applied(item.get(), b" option", out),
        Shape::List(item) => append_applied(item.get(), b" list", out),
        Shape::Tuple(shapes) => append_factors(shapes.as_slice(), out),
        Shape::Fields(fields) => append_fields(fields.as_slice(), out),
        Shape::Sum(cases) => append_sum(cases.as_slice(), out),
        Shape::Poly(cases) => append_poly(cases.as_slice(), out),
        Shape::Sexp => append_bytes(b"sexp", out),
    }
}

// A shape where it is a part: a tuple stands in round brackets.
#[cycle(shapes)]
fn append_part(shape: &Shape, out: &mut Vec<u8>) -> Result<(), OutOfMemory>
    requires { IsGoodInside (form_of shape.now) }
    ensures { Appends (part_text shape.now) out.old.items out.new.items result }
{
    if !is_tuple(shape) {
        return append_shape(shape, out);
    }
    append_byte(b'(', out)?;
    append_shape(shape, out)?;
    append_byte(b')', out)
}

fn is_tuple(shape: &Shape) -> bool
    ensures { result ≡ (shape_printed shape.now).0 }
{
    matches!(shape, Shape::Tuple(_))
}

// A part, and the word after it.
#[cycle(shapes)]
fn append_applied(item: &Shape, word: &[u8], out: &mut Vec<u8>) -> Result<(), OutOfMemory>
    requires { IsGoodInside (form_of item.now) }
    ensures { Appends (part_text item.now ++ word.now) out.old.items out.new.items result }
{
    append_part(item, out)?;
    append_bytes(word, out)
}

// The parts of a tuple, or the arguments of a case.
#[cycle(shapes)]
fn append_factors(shapes: &[Shape], out: &mut Vec<u8>) -> Result<(), OutOfMemory>
    requires { AreGoodInside (parts (map form_of shapes.now)) }
    ensures { Appends (factors_text shapes.now) out.old.items out.new.items result }
{
    for (place, shape) in shapes.iter().enumerate() {
        append_lead(b" * ", place, out)?;
        append_part(shape, out)?;
    }
    Ok(())
}

#[cycle(shapes)]
fn append_fields(fields: &[Field], out: &mut Vec<u8>) -> Result<(), OutOfMemory>
    requires { IsGoodInside (form.fields (named_parts (map field_form fields.now))) }
    ensures { Appends (shape_text (shp.Fields fields.now)) out.old.items out.new.items result }
{
    append_byte(b'{', out)?;
    for (place, field) in fields.iter().enumerate() {
        append_field(place, field, out)?;
    }
    append_byte(b'}', out)
}

#[cycle(shapes)]
fn append_field(place: usize, field: &Field, out: &mut Vec<u8>) -> Result<(), OutOfMemory>
    requires { IsGoodInside (form_of field.now.shape) }
    ensures { Appends (lead (codes "; ") place ++ field_text field.now)
        out.old.items out.new.items result }
{
    append_lead(b"; ", place, out)?;
    append_bytes(field.name.as_slice(), out)?;
    append_bytes(b": ", out)?;
    append_shape(&field.shape, out)
}

#[cycle(shapes)]
fn append_sum(sum: &[Case], out: &mut Vec<u8>) -> Result<(), OutOfMemory>
    requires { IsGoodInside (form.sum (cases (map case_form sum.now))) }
    ensures { Appends (shape_text (shp.Sum sum.now)) out.old.items out.new.items result }
{
    append_byte(b'[', out)?;
    for (place, case) in sum.iter().enumerate() {
        append_case(place, case, out)?;
    }
    append_byte(b']', out)
}

#[cycle(shapes)]
fn append_case(place: usize, case: &Case, out: &mut Vec<u8>) -> Result<(), OutOfMemory>
    requires { AreGoodInside (parts (map form_of case.now.args)) }
    ensures { Appends (lead (codes " | ") place ++ case_text case.now)
        out.old.items out.new.items result }
{
    append_lead(b" | ", place, out)?;
    append_bytes(case.name.as_slice(), out)?;
    if case.args.is_empty() {
        return Ok(());
    }
    append_bytes(b" of ", out)?;
    append_factors(case.args.as_slice(), out)
}

#[cycle(shapes)]
fn append_poly(poly: &[PolyCase], out: &mut Vec<u8>) -> Result<(), OutOfMemory>
    requires { IsGoodInside (form.poly (cases (map poly_form poly.now))) }
    ensures { Appends (shape_text (shp.Poly poly.now)) out.old.items out.new.items result }
{
    append_byte(b'[', out)?;
    for (place, case) in poly.iter().enumerate() {
        append_poly_case(place, case, out)?;
    }
    append_byte(b']', out)
}

#[cycle(shapes)]
fn append_poly_case(place: usize, case: &PolyCase, out: &mut Vec<u8>) -> Result<(), OutOfMemory>
    requires { AreGoodInside (poly_form case.now).1 }
    ensures { Appends (lead (codes " | ") place ++ poly_text case.now)
        out.old.items out.new.items result }
{
    append_lead(b" | ", place, out)?;
    append_byte(b'`', out)?;
    append_bytes(case.name.as_slice(), out)?;
    match &case.arg {
        None => Ok(()),
        Some(shape) => append_argument(shape.get(), out),
    }
}

#[cycle(shapes)]
fn append_argument(shape: &Shape, out: &mut Vec<u8>) -> Result<(), OutOfMemory>
    requires { IsGoodInside (form_of shape.now) }
    ensures { Appends (codes " of " ++ shape_text shape.now) out.old.items out.new.items result }
{
    append_bytes(b" of ", out)?;
    append_shape(shape, out)
}
