// How many bytes the shortest spelling of a value has: each part's are taken off the room that is
// left, so that no sum can pass a number.
ghost use Rattle.std.specs.Prelude.{◌≡◌, ◌<◌, ◌≤◌, ◌^◌, ◌∷◌, ◌++◌, ℕ, List, [], length, map, IfSome, IfNone};
ghost use Rattle.std.specs.List.{All, flat_map};
ghost use Rattle.bp_value.specs.declared.value.Value.{out-Value};
ghost use Rattle.bp_value.specs.declared.value.Value.TheVariants as val;
ghost use Rattle.bp_value.specs.Form.{form_of, field_form, case_form, poly_form, parts, named_parts, cases};
ghost use Rattle.bp_value.specs.Form as form;
ghost use Rattle.bp_value.specs.Faults.{IsGood};
ghost use Rattle.bp_value.specs.Fits.{IsMade, Anything};
ghost use Rattle.bp_grammar.specs.Written.{number_bytes, written, written_bytes, written_list, written_parts, written_sexp};
ghost use Rattle.bp_codec.specs.Fitting.{IsFitting, IsWritable, AreWritable};
ghost use Rattle.bp_codec.specs.Rooms.{Leaves};

use crate::contents::{case_in, items_in, number_in, option_in, parts_in, sexp_in, text_in};
use crate::numbers::nat_len;
use bp_num::int_len;
use bp_value::{Case, Field, PolyCase, Sexp, Shape, Value};

/// The number of bytes of the shortest spelling of the value, where these are at most `max`.
///
/// It goes over the value once, as far as they are, and looks at no byte of a text. It takes no
/// memory, and stack for each level of the shape, and of an S-expression.
pub fn size(shape: &Shape, value: &Value, max: u64) -> Option<u64>
    requires good { IsGood (form_of shape.now) }
    requires fits { IsFitting (form_of shape.now) value.now }
    ensures exact { let bytes = written (form_of shape.now) value.now in
        IfSome result (λ count. count ≡ length bytes) }
    ensures within { IfSome result (λ count. count ≤ max) }
    ensures above { IfNone result (max < length (written (form_of shape.now) value.now)) }
{
    let left = after_value(shape, value, max)?;
    Some(max - left)
}

#[cycle(afters)]
fn after_value(shape: &Shape, value: &Value, room: u64) -> Option<u64>
    requires { IsWritable (form_of shape.now) value.now }
    ensures { Leaves room (written (form_of shape.now) value.now) result }
{
    match shape {
        Shape::Unit => room.checked_sub(1),
        Shape::Bool => room.checked_sub(1),
        Shape::Char => room.checked_sub(1),
        Shape::Int => after_number(value, room),
        Shape::Int32 => after_number(value, room),
        Shape::Int64 => after_number(value, room),
        Shape::Text => after_bytes(text_in(value), room),
        Shape::Opt(item) => after_option(item.get(), value, room),
        Shape::List(item) => after_list(item.get(), value, room),
        Shape::Tuple(parts) => after_parts(parts.as_slice(), parts_in(value), room),
        Shape::Fields(fields) => after_fields(fields.as_slice(), parts_in(value), room),
        Shape::Sum(cases) => after_sum(cases.as_slice(), value, room),
        Shape::Poly(cases) => after_poly(cases.as_slice(), value, room),
        Shape::Sexp => after_sexp(sexp_in(value), room),
    }
}

// A number of any kind, which are all spelled alike.
fn after_number(value: &Value, room: u64) -> Option<u64>
    requires { IsMade val.Num Anything value.now }
    ensures { Leaves room (number_bytes (out-Value value.now)) result }
{
    room.checked_sub(int_len(number_in(value)) as u64)
}

// A length, and the bytes.
fn after_bytes(bytes: &[u8], room: u64) -> Option<u64>
    ensures { Leaves room (written_bytes bytes.now) result }
{
    let count = bytes.len() as u64;
    room.checked_sub(nat_len(count))?.checked_sub(count)
}

#[cycle(afters)]
fn after_option(item: &Shape, value: &Value, room: u64) -> Option<u64>
    requires { IsWritable (form.opt (form_of item.now)) value.now }
    ensures { Leaves room (written (form.opt (form_of item.now)) value.now) result }
{
    match option_in(value) {
        None => room.checked_sub(1),
        Some(inner) => after_value(item, inner, room.checked_sub(1)?),
    }
}

#[cycle(afters)]
fn after_list(item: &Shape, value: &Value, room: u64) -> Option<u64>
    requires { IsWritable (form.listed (form_of item.now)) value.now }
    ensures { Leaves room (written (form.listed (form_of item.now)) value.now) result }
{
    let items = items_in(value);
    let left = room.checked_sub(nat_len(items.len() as u64))?;
    after_items(item, items, left)
}

#[cycle(afters)]
fn after_items(item: &Shape, values: &[Value], room: u64) -> Option<u64>
    requires { All (IsWritable (form_of item.now)) values.now }
    ensures { Leaves room (flat_map (written (form_of item.now)) values.now) result }
{
    let mut left = room;
    for value in values {
        left = after_value(item, value, left)?;
    }
    Some(left)
}

#[cycle(afters)]
fn after_parts(shapes: &[Shape], values: &[Value], room: u64) -> Option<u64>
    requires { AreWritable (parts (map form_of shapes.now)) values.now }
    ensures { Leaves room (written_parts (parts (map form_of shapes.now)) values.now) result }
{
    let mut left = room;
    for (place, shape) in shapes.iter().enumerate() {
        left = after_value(shape, &values[place], left)?;
    }
    Some(left)
}

#[cycle(afters)]
fn after_fields(fields: &[Field], values: &[Value], room: u64) -> Option<u64>
    requires { AreWritable (named_parts (map field_form fields.now)) values.now }
    ensures { let fields_form = named_parts (map field_form fields.now) in
        Leaves room (written_parts fields_form values.now) result }
{
    let mut left = room;
    for (place, field) in fields.iter().enumerate() {
        left = after_value(&field.shape, &values[place], left)?;
    }
    Some(left)
}

#[cycle(afters)]
fn after_sum(sum: &[Case], value: &Value, room: u64) -> Option<u64>
    requires { IsWritable (form.sum (cases (map case_form sum.now))) value.now }
    ensures { Leaves room (written (form.sum (cases (map case_form sum.now))) value.now) result }
{
    let (place, args) = case_in(value);
    let left = room.checked_sub(1)?;
    after_parts(sum[place as usize].args.as_slice(), args, left)
}

#[cycle(afters)]
fn after_poly(poly: &[PolyCase], value: &Value, room: u64) -> Option<u64>
    requires { IsWritable (form.poly (cases (map poly_form poly.now))) value.now }
    ensures { Leaves room (written (form.poly (cases (map poly_form poly.now))) value.now) result }
{
    let (place, args) = case_in(value);
    let case = &poly[place as usize];
    let left = room.checked_sub(4)?;
    match &case.arg {
        None => Some(left),
        Some(shape) => after_value(shape.get(), &args[0], left),
    }
}

#[cycle(sizes)]
fn after_sexp(sexp: &Sexp, room: u64) -> Option<u64>
    ensures { Leaves room (written_sexp sexp.now) result }
{
    match sexp {
        Sexp::Atom(text) => after_bytes(text.as_slice(), room.checked_sub(1)?),
        Sexp::List(items) => {
            let front = 1 + nat_len(items.len() as u64);
            after_sexps(items.as_slice(), room.checked_sub(front)?)
        }
    }
}

#[cycle(sizes)]
fn after_sexps(sexps: &[Sexp], room: u64) -> Option<u64>
    ensures { Leaves room (flat_map written_sexp sexps.now) result }
{
    let mut left = room;
    for sexp in sexps {
        left = after_sexp(sexp, left)?;
    }
    Some(left)
}
