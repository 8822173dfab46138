ghost use Rattle.std.specs.Prelude.{◌≡◌, ◌↔◌, ◌+◌, ◌≤◌, Err, map, length, MatchOption, IsOk};
ghost use Rattle.std.specs.Option.{option_map};
ghost use Rattle.bp_value.specs.declared.fault.ShapeFault.{ShapeFault};
ghost use Rattle.bp_value.specs.Form.{form_of, field_form, case_form, poly_form, parts, named_parts, cases, argument};
ghost use Rattle.bp_value.specs.Form as form;
ghost use Rattle.bp_value.specs.Tags.{tag_of};
ghost use Rattle.bp_value.specs.Limits.{deepest_shape, most_members};
ghost use Rattle.bp_value.specs.Names.{IsDistinct, IsFirstRepeat, IsNowhere, IsFirstPlace};
ghost use Rattle.bp_value.specs.Named.{names_of};
ghost use Rattle.bp_value.specs.Faults.{nodes, part_nodes, case_nodes, IsGood, FirstFault, TellsShallow, TellsNodes, TellsCount, TellsNames};

use crate::boxed::Boxed;
use crate::fault::ShapeFault;
use crate::naming::Names;
use crate::shape::{Case, Field, PolyCase, Shape};
use crate::tagging::poly_tag;

/// The greatest depth of a node. The root has depth 1.
pub const MAX_DEPTH: usize = 64;

/// The most parts of a tuple, fields of a record or cases of a variant.
pub const MAX_MEMBERS: usize = 256;

impl Shape {
    /// Whether the shape is good, or its first fault: a node stands before its children, and
    /// children in order, and of the faults of one node the first in the order of [`ShapeFault`]
    /// counts.
    ///
    /// It goes over the nodes once, and no deeper than 65. Names are compared within a node, each
    /// with those before it, and tags likewise, so a node of n members takes up to n * n / 2
    /// comparisons of each kind. It takes no memory.
    pub fn check(&self) -> Result<(), ShapeFault>
        ensures good { IsOk result ↔ IsGood (form_of self.now) }
        ensures fault { (fault : ShapeFault) →
            ((result ≡ Err fault) ↔ FirstFault (form_of self.now) fault) }
    {
        shape_check(self, 1)
    }
}

#[cycle(checks)]
fn shape_check(shape: &Shape, depth: usize) -> Result<(), ShapeFault>
    requires { depth ≤ deepest_shape + 1 }
    ensures { TellsNodes (nodes depth (form_of shape.now)) result }
{
    if depth > MAX_DEPTH {
        return Err(ShapeFault::TooDeep { depth });
    }
    match shape {
        Shape::Unit => Ok(()),
        Shape::Bool => Ok(()),
        Shape::Char => Ok(()),
        Shape::Int => Ok(()),
        Shape::Int32 => Ok(()),
        Shape::Int64 => Ok(()),
        Shape::Text => Ok(()),
        Shape::Opt(item) => shape_check(item.get(), depth + 1),
        Shape::List(item) => shape_check(item.get(), depth + 1),
        Shape::Tuple(parts) => {
            tuple_check(parts.as_slice())?;
            parts_check(parts.as_slice(), depth + 1)
        }
        Shape::Fields(fields) => {
            record_check(fields.as_slice())?;
            fields_check(fields.as_slice(), depth + 1)
        }
        Shape::Sum(cases) => {
            sum_check(cases.as_slice())?;
            cases_check(cases.as_slice(), depth + 1)
        }
        Shape::Poly(cases) => {
            poly_check(cases.as_slice())?;
            arguments_check(cases.as_slice(), depth + 1)
        }
        Shape::Sexp => Ok(()),
    }
}

#[cycle(checks)]
fn parts_check(shapes: &[Shape], depth: usize) -> Result<(), ShapeFault>
    requires { depth ≤ deepest_shape + 1 }
    ensures { TellsNodes (part_nodes depth (parts (map form_of shapes.now))) result }
{
    for shape in shapes {
        shape_check(shape, depth)?;
    }
    Ok(())
}

#[cycle(checks)]
fn fields_check(fields: &[Field], depth: usize) -> Result<(), ShapeFault>
    requires { depth ≤ deepest_shape + 1 }
    ensures { TellsNodes (part_nodes depth (named_parts (map field_form fields.now))) result }
{
    for field in fields {
        shape_check(&field.shape, depth)?;
    }
    Ok(())
}

#[cycle(checks)]
fn cases_check(sum: &[Case], depth: usize) -> Result<(), ShapeFault>
    requires { depth ≤ deepest_shape + 1 }
    ensures { TellsNodes (case_nodes depth (cases (map case_form sum.now))) result }
{
    for case in sum {
        parts_check(case.args.as_slice(), depth)?;
    }
    Ok(())
}

#[cycle(checks)]
fn arguments_check(poly: &[PolyCase], depth: usize) -> Result<(), ShapeFault>
    requires { depth ≤ deepest_shape + 1 }
    ensures { TellsNodes (case_nodes depth (cases (map poly_form poly.now))) result }
{
    for case in poly {
        argument_check(&case.arg, depth)?;
    }
    Ok(())
}

#[cycle(checks)]
fn argument_check(shape: &Option<Boxed<Shape>>, depth: usize) -> Result<(), ShapeFault>
    requires { depth ≤ deepest_shape + 1 }
    ensures { TellsNodes (part_nodes depth (argument (option_map form_of shape.now))) result }
{
    match shape {
        None => Ok(()),
        Some(shape) => shape_check(shape.get(), depth),
    }
}

fn tuple_check(shapes: &[Shape]) -> Result<(), ShapeFault>
    ensures { TellsShallow (form.tuple (parts (map form_of shapes.now))) result }
{
    if shapes.len() < 2 {
        return Err(ShapeFault::ShortTuple {
            parts: shapes.len(),
        });
    }
    count_check(shapes.len())
}

fn record_check(fields: &[Field]) -> Result<(), ShapeFault>
    ensures { TellsShallow (form.fields (named_parts (map field_form fields.now))) result }
{
    if fields.is_empty() {
        return Err(ShapeFault::EmptyFields);
    }
    count_check(fields.len())?;
    names_check(&Names::Fields(fields))
}

fn sum_check(sum: &[Case]) -> Result<(), ShapeFault>
    ensures { TellsShallow (form.sum (cases (map case_form sum.now))) result }
{
    if sum.is_empty() {
        return Err(ShapeFault::EmptySum);
    }
    count_check(sum.len())?;
    names_check(&Names::Cases(sum))
}

fn poly_check(poly: &[PolyCase]) -> Result<(), ShapeFault>
    ensures { TellsShallow (form.poly (cases (map poly_form poly.now))) result }
{
    if poly.is_empty() {
        return Err(ShapeFault::EmptySum);
    }
    count_check(poly.len())?;
    names_check(&Names::Poly(poly))?;
    match tag_clash(poly) {
        Some((first, second)) => Err(ShapeFault::TagClash { first, second }),
        None => Ok(()),
    }
}

fn count_check(count: usize) -> Result<(), ShapeFault>
    ensures { TellsCount count result }
{
    if count > MAX_MEMBERS {
        return Err(ShapeFault::TooMany { count });
    }
    Ok(())
}

fn names_check(names: &Names) -> Result<(), ShapeFault>
    ensures { TellsNames (names_of names.now) result }
{
    if let Some(place) = names.first_bad() {
        return Err(ShapeFault::BadName { place });
    }
    match names.first_repeat() {
        Some((first, second)) => Err(ShapeFault::SameName { first, second }),
        None => Ok(()),
    }
}

/// The first tag that two cases have: the place of the first, and of the second. Each name is
/// hashed once: the tags so far are kept on the stack. They are kept in this function alone, and it
/// is kept out of its callers, because a function clears its locals whenever it is entered.
#[inline(never)]
fn tag_clash(poly: &[PolyCase]) -> Option<(usize, usize)>
    requires { length poly.now ≤ most_members }
    ensures { let tags = map (λ case. tag_of case.name) poly.now in
        MatchOption result (IsDistinct tags) (λ places. IsFirstRepeat tags places.0 places.1) }
{
    let mut tags = [0; MAX_MEMBERS];
    for (second, case) in poly.iter().enumerate() {
        let tag = poly_tag(case.name.as_slice());
        if let Some(first) = place_of(&tags[..second], tag) {
            return Some((first, second));
        }
        tags[second] = tag;
    }
    None
}

/// The first place of the tag.
fn place_of(tags: &[i32], tag: i32) -> Option<usize>
    ensures { MatchOption result (IsNowhere tags.now tag)
        (λ place. IsFirstPlace tags.now tag place) }
{
    for (place, other) in tags.iter().enumerate() {
        if *other == tag {
            return Some(place);
        }
    }
    None
}
