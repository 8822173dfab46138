//! The shortest spelling of a value onto the end of a list of bytes, in one pass. The shape is
//! matched in one small function, and each shape has a function of its own that is not inlined: a
//! function clears its locals when it is entered, so that a leaf pays for its own alone.
//!
//! The parts of spellings are written within a bound on the length of the whole list.
ghost use Rattle.std.specs.Prelude.{◌≡◌, ◌<◌, ◌≤◌, ◌^◌, ◌∷◌, ◌++◌, ℕ, List, [], length, map, OnOk, OnErr, IfErr};
ghost use Rattle.std.specs.List.{All, flat_map};
ghost use Rattle.bp_num.specs.Forms.{signed_bytes};
ghost use Rattle.bp_value.specs.declared.value.Value.{out-Value};
ghost use Rattle.bp_value.specs.declared.value.Value.TheVariants as val;
ghost use Rattle.bp_value.specs.Form.{form_of, field_form, case_form, poly_form, parts, named_parts, cases};
ghost use Rattle.bp_value.specs.Form as form;
ghost use Rattle.bp_value.specs.Faults.{IsGood};
ghost use Rattle.bp_value.specs.Fits.{Fits, IsMade, Anything};
ghost use Rattle.bp_value.specs.Tags.{tag_of};
ghost use Rattle.bp_grammar.specs.Spells.{Spells};
ghost use Rattle.bp_grammar.specs.Written.{bool_bytes, char_bytes, number_bytes, text_bytes, sexp_bytes, written, written_bytes, written_list, written_parts, written_sexp};
ghost use Rattle.bp_codec.specs.Fitting.{IsFitting, IsWritable, AreWritable};
ghost use Rattle.bp_codec.specs.Puts.{Puts, Refuses, refusal_of};

use crate::contents::{
    bool_in, case_in, char_in, items_in, number_in, option_in, parts_in, sexp_in, text_in,
};
use crate::error::{EncodeError, PutError, within};
use crate::numbers::{put_int, put_nat, put_word};
use bp_value::{Case, Field, PolyCase, Sexp, Shape, Value, poly_tag};

#[cfg(test)]
mod tests;

/// Appends the shortest spelling of the value to `out`: the bytes of bin_prot's "Binary protocol
/// specification" with each number and each length in its shortest form.
///
/// It goes over the value once, and refuses it as soon as more than `max` bytes would be written,
/// so that it takes memory for no more than these and a number. Where it refuses, `out` may keep
/// the room that it grew by. It takes stack for each level of the shape, and of an S-expression.
pub fn encode(shape: &Shape, value: &Value, max: u64, out: &mut Vec<u8>) -> Result<(), EncodeError>
    requires good { IsGood (form_of shape.now) }
    requires fits { IsFitting (form_of shape.now) value.now }
    ensures ok { let bytes = written (form_of shape.now) value.now in
        OnOk result (out.new.items ≡ out.old.items ++ bytes) }
    ensures within { OnOk result (length (written (form_of shape.now) value.now) ≤ max) }
    ensures refused { let bytes = written (form_of shape.now) value.now in
        IfErr result (Refuses max (length bytes)) }
    ensures err { OnErr result (out.new.items ≡ out.old.items) }

    ensures spelled { let f = form_of shape.now in
        (m : ℕ) → m ≤ 2 ^ 30 → Fits m f value.now → Spells m f value.now (written f value.now) }
    ensures shortest { let f = form_of shape.now in
        (m : ℕ) (s : List ℕ) → Spells m f value.now s → length (written f value.now) ≤ length s }
{
    let start = out.len();
    let bound = (start as u64).checked_add(max);
    match put_value(shape, value, bound.unwrap_or(u64::MAX), out) {
        Ok(()) => Ok(()),
        Err(error) => {
            out.truncate(start);
            Err(refusal(error, max, bound.is_some()))
        }
    }
}

// A list whose bound would be above every number passes it only in want of memory.
fn refusal(error: PutError, max: u64, is_bounded: bool) -> EncodeError
    ensures { result ≡ refusal_of error is_bounded max }
{
    match error {
        PutError::TooLong if is_bounded => EncodeError::TooLong { max },
        _ => EncodeError::OutOfMemory,
    }
}

#[cycle(puts)]
fn put_value(shape: &Shape, value: &Value, bound: u64, out: &mut Vec<u8>) -> Result<(), PutError>
    requires { IsWritable (form_of shape.now) value.now }
    ensures { Puts bound (written (form_of shape.now) value.now)
        out.old.items out.new.items result }
{
    match shape {
        Shape::Unit => put_byte(0, bound, out),
        Shape::Bool => put_bool(value, bound, out),
        Shape::Char => put_char(value, bound, out),
        Shape::Int => put_number(value, bound, out),
        Shape::Int32 => put_number(value, bound, out),
        Shape::Int64 => put_number(value, bound, out),
        Shape::Text => put_text(value, bound, out),
        Shape::Opt(item) => put_option(item.get(), value, bound, out),
        Shape::List(item) => put_list(item.get(), value, bound, out),
        Shape::Tuple(parts) => put_tuple(parts.as_slice(), value, bound, out),
        Shape::Fields(fields) => put_record(fields.as_slice(), value, bound, out),
        Shape::Sum(cases) => put_sum(cases.as_slice(), value, bound, out),
        Shape::Poly(cases) => put_poly(cases.as_slice(), value, bound, out),
        Shape::Sexp => put_any_sexp(value, bound, out),
    }
}

/// Appends one byte.
#[inline(never)]
pub fn put_byte(byte: u8, bound: u64, out: &mut Vec<u8>) -> Result<(), PutError>
    ensures { Puts bound (byte ∷ []) out.old.items out.new.items result }
{
    out.push(byte)?;
    within(bound, out)
}

#[inline(never)]
fn put_bool(value: &Value, bound: u64, out: &mut Vec<u8>) -> Result<(), PutError>
    requires { IsMade val.Bool Anything value.now }
    ensures { Puts bound (bool_bytes (out-Value value.now)) out.old.items out.new.items result }
{
    put_byte(u8::from(bool_in(value)), bound, out)
}

#[inline(never)]
fn put_char(value: &Value, bound: u64, out: &mut Vec<u8>) -> Result<(), PutError>
    requires { IsMade val.Char Anything value.now }
    ensures { Puts bound (char_bytes (out-Value value.now)) out.old.items out.new.items result }
{
    put_byte(char_in(value), bound, out)
}

#[inline(never)]
fn put_number(value: &Value, bound: u64, out: &mut Vec<u8>) -> Result<(), PutError>
    requires { IsMade val.Num Anything value.now }
    ensures { Puts bound (number_bytes (out-Value value.now)) out.old.items out.new.items result }
{
    put_int(number_in(value), bound, out)
}

// The elements of a list of numbers of any kind, which are all spelled alike.
#[inline(never)]
fn put_numbers(values: &[Value], bound: u64, out: &mut Vec<u8>) -> Result<(), PutError>
    requires { All (IsMade val.Num Anything) values.now }
    ensures { Puts bound (flat_map (λ v. number_bytes (out-Value v)) values.now)
        out.old.items out.new.items result }
{
    for value in values {
        put_int(number_in(value), bound, out)?;
    }
    Ok(())
}

/// Appends a length, and the bytes.
#[inline(always)]
pub fn put_bytes(bytes: &[u8], bound: u64, out: &mut Vec<u8>) -> Result<(), PutError>
    ensures { Puts bound (written_bytes bytes.now) out.old.items out.new.items result }
{
    let count = bytes.len() as u64;
    put_nat(count, bound, out)?;
    if count > bound.saturating_sub(out.len() as u64) {
        return Err(PutError::TooLong);
    }
    out.extend_from_slice(bytes)?;
    Ok(())
}

#[inline(never)]
fn put_text(value: &Value, bound: u64, out: &mut Vec<u8>) -> Result<(), PutError>
    requires { IsMade val.Text Anything value.now }
    ensures { Puts bound (text_bytes (out-Value value.now)) out.old.items out.new.items result }
{
    put_bytes(text_in(value), bound, out)
}

#[inline(never)]
fn put_texts(values: &[Value], bound: u64, out: &mut Vec<u8>) -> Result<(), PutError>
    requires { All (IsMade val.Text Anything) values.now }
    ensures { Puts bound (flat_map (λ v. text_bytes (out-Value v)) values.now)
        out.old.items out.new.items result }
{
    for value in values {
        put_bytes(text_in(value), bound, out)?;
    }
    Ok(())
}

#[cycle(puts)]
#[inline(never)]
fn put_option(item: &Shape, value: &Value, bound: u64, out: &mut Vec<u8>) -> Result<(), PutError>
    requires { IsWritable (form.opt (form_of item.now)) value.now }
    ensures { Puts bound (written (form.opt (form_of item.now)) value.now)
        out.old.items out.new.items result }
{
    match option_in(value) {
        None => put_byte(0, bound, out),
        Some(inner) => {
            put_byte(1, bound, out)?;
            put_value(item, inner, bound, out)
        }
    }
}

#[cycle(puts)]
#[inline(never)]
fn put_list(item: &Shape, value: &Value, bound: u64, out: &mut Vec<u8>) -> Result<(), PutError>
    requires { IsWritable (form.listed (form_of item.now)) value.now }
    ensures { Puts bound (written (form.listed (form_of item.now)) value.now)
        out.old.items out.new.items result }
{
    let items = items_in(value);
    put_nat(items.len() as u64, bound, out)?;
    put_items(item, items, bound, out)
}

#[cycle(puts)]
fn put_items(item: &Shape, values: &[Value], bound: u64, out: &mut Vec<u8>) -> Result<(), PutError>
    requires { All (IsWritable (form_of item.now)) values.now }
    ensures { Puts bound (flat_map (written (form_of item.now)) values.now)
        out.old.items out.new.items result }
{
    match item {
        Shape::Int => put_numbers(values, bound, out),
        Shape::Int32 => put_numbers(values, bound, out),
        Shape::Int64 => put_numbers(values, bound, out),
        Shape::Text => put_texts(values, bound, out),
        _ => put_each(item, values, bound, out),
    }
}

#[cycle(puts)]
#[inline(never)]
fn put_each(item: &Shape, values: &[Value], bound: u64, out: &mut Vec<u8>) -> Result<(), PutError>
    requires { All (IsWritable (form_of item.now)) values.now }
    ensures { Puts bound (flat_map (written (form_of item.now)) values.now)
        out.old.items out.new.items result }
{
    for value in values {
        put_value(item, value, bound, out)?;
    }
    Ok(())
}

#[cycle(puts)]
#[inline(never)]
fn put_tuple(shapes: &[Shape], value: &Value, bound: u64, out: &mut Vec<u8>) -> Result<(), PutError>
    requires { IsWritable (form.tuple (parts (map form_of shapes.now))) value.now }
    ensures { Puts bound (written (form.tuple (parts (map form_of shapes.now))) value.now)
        out.old.items out.new.items result }
{
    put_parts(shapes, parts_in(value), bound, out)
}

#[cycle(puts)]
fn put_parts(
    shapes: &[Shape],
    values: &[Value],
    bound: u64,
    out: &mut Vec<u8>,
) -> Result<(), PutError>
    requires { AreWritable (parts (map form_of shapes.now)) values.now }
    ensures { Puts bound (written_parts (parts (map form_of shapes.now)) values.now)
        out.old.items out.new.items result }
{
    for (place, shape) in shapes.iter().enumerate() {
        put_value(shape, &values[place], bound, out)?;
    }
    Ok(())
}

#[cycle(puts)]
#[inline(never)]
fn put_record(
    fields: &[Field],
    value: &Value,
    bound: u64,
    out: &mut Vec<u8>,
) -> Result<(), PutError>
    requires { IsWritable (form.fields (named_parts (map field_form fields.now))) value.now }
    ensures { Puts bound (written (form.fields (named_parts (map field_form fields.now))) value.now)
        out.old.items out.new.items result }
{
    let values = parts_in(value);
    for (place, field) in fields.iter().enumerate() {
        put_value(&field.shape, &values[place], bound, out)?;
    }
    Ok(())
}

#[cycle(puts)]
#[inline(never)]
fn put_sum(sum: &[Case], value: &Value, bound: u64, out: &mut Vec<u8>) -> Result<(), PutError>
    requires { IsWritable (form.sum (cases (map case_form sum.now))) value.now }
    ensures { Puts bound (written (form.sum (cases (map case_form sum.now))) value.now)
        out.old.items out.new.items result }
{
    let (place, args) = case_in(value);
    put_byte(place as u8, bound, out)?;
    put_parts(sum[place as usize].args.as_slice(), args, bound, out)
}

#[cycle(puts)]
#[inline(never)]
fn put_poly(poly: &[PolyCase], value: &Value, bound: u64, out: &mut Vec<u8>) -> Result<(), PutError>
    requires { IsWritable (form.poly (cases (map poly_form poly.now))) value.now }
    ensures { Puts bound (written (form.poly (cases (map poly_form poly.now))) value.now)
        out.old.items out.new.items result }
{
    let (place, args) = case_in(value);
    let case = &poly[place as usize];
    put_tag(case.name.as_slice(), bound, out)?;
    match &case.arg {
        None => Ok(()),
        Some(shape) => put_value(shape.get(), &args[0], bound, out),
    }
}

// The tag of a name, which is hashed each time.
#[inline(never)]
fn put_tag(name: &[u8], bound: u64, out: &mut Vec<u8>) -> Result<(), PutError>
    ensures { Puts bound (signed_bytes 4 (tag_of name.now)) out.old.items out.new.items result }
{
    put_word(poly_tag(name).cast_unsigned(), bound, out)
}

#[inline(never)]
fn put_any_sexp(value: &Value, bound: u64, out: &mut Vec<u8>) -> Result<(), PutError>
    requires { IsMade val.Sexp Anything value.now }
    ensures { Puts bound (sexp_bytes (out-Value value.now)) out.old.items out.new.items result }
{
    put_sexp(sexp_in(value), bound, out)
}

/// Appends an S-expression.
#[cycle(sexps)]
pub fn put_sexp(sexp: &Sexp, bound: u64, out: &mut Vec<u8>) -> Result<(), PutError>
    ensures { Puts bound (written_sexp sexp.now) out.old.items out.new.items result }
{
    match sexp {
        Sexp::Atom(text) => {
            put_byte(0, bound, out)?;
            put_bytes(text.as_slice(), bound, out)
        }
        Sexp::List(items) => {
            put_byte(1, bound, out)?;
            put_nat(items.len() as u64, bound, out)?;
            put_sexps(items.as_slice(), bound, out)
        }
    }
}

#[cycle(sexps)]
fn put_sexps(sexps: &[Sexp], bound: u64, out: &mut Vec<u8>) -> Result<(), PutError>
    ensures { Puts bound (flat_map written_sexp sexps.now) out.old.items out.new.items result }
{
    for sexp in sexps {
        put_sexp(sexp, bound, out)?;
    }
    Ok(())
}
