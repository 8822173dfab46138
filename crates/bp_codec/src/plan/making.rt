// The nodes of a shape, breadth first.
ghost use Rattle.std.specs.Prelude.{◌≡◌, ℕ, [], ◌∷◌, map, IfOk};
ghost use Rattle.std.specs.Option.{option_map};
ghost use Rattle.bp_value.specs.Form.{form_of, parts, named_parts, cases, argument, field_form, case_form, poly_form};
ghost use Rattle.bp_value.specs.Form as form;
ghost use Rattle.bp_value.specs.Faults.{IsGood};
ghost use Rattle.bp_grammar.specs.Reading.{read};
ghost use Rattle.bp_codec.specs.Plan.{ReadAs};
ghost use Rattle.bp_codec.specs.Sources.{origin, origins, value, part_origins, case_origins, Expands, Places};

use super::{Node, Plan};
use bp_num::IntKind;
use bp_value::{Boxed, Case, Field, OutOfMemory, PolyCase, Shape, poly_tag};
use std::alloc::Global;
use std::slice;

/// What a node is made of: a shape, or the arguments of a case. Sources wait in a list, and the
/// place of a source is that of its node.
#[derive(Clone, Copy)]
pub enum Source<'a> {
    Shape(&'a Shape),
    Args(&'a [Shape]),
}

impl Plan {
    /// The nodes of a good shape, breadth first: one for each node of the shape and one for each
    /// case. Each name of a case of a polymorphic variant is hashed once.
    ///
    /// Beside the plan it takes memory for a list as long as the nodes, which it gives back.
    pub fn new(alloc: Global, shape: &Shape) -> Result<Plan, OutOfMemory>
        requires { IsGood (form_of shape.now) }
        ensures { IfOk result (λ plan. (m : ℕ) →
            ReadAs m plan.nodes.items plan.tags.items (read m (form_of shape.now))) }
    {
        let mut nodes = Vec::new(alloc);
        let mut tags = Vec::new(alloc);
        let mut sources = vec![in alloc; Source::Shape(shape)]?;
        while let Some(&source) = sources.get(nodes.len()) {
            nodes.push(source_node(source, &mut sources, &mut tags)?)?;
        }
        Ok(Plan { nodes, tags })
    }
}

/// The node of a source. The sources of its children come to stand side by side at the end, and
/// its tags at the end of the tags.
fn source_node<'a>(
    source: Source<'a>,
    sources: &mut Vec<Source<'a>>,
    tags: &mut Vec<u32>,
) -> Result<Node, OutOfMemory>
    ensures { IfOk result (λ node. Expands (origin source.entry) (origins sources.old.items)
        (origins sources.new.items) tags.old.items tags.new.items node) }
{
    match source {
        Source::Shape(shape) => shape_node(shape, sources, tags),
        Source::Args(args) => Ok(Node::Args {
            first: place_shapes(args, sources)?,
            count: args.len(),
        }),
    }
}

fn shape_node<'a>(
    shape: &'a Shape,
    sources: &mut Vec<Source<'a>>,
    tags: &mut Vec<u32>,
) -> Result<Node, OutOfMemory>
    ensures { IfOk result (λ node. Expands (value (form_of shape.now)) (origins sources.old.items)
        (origins sources.new.items) tags.old.items tags.new.items node) }
{
    match shape {
        Shape::Unit => Ok(Node::Unit),
        Shape::Bool => Ok(Node::Bool),
        Shape::Char => Ok(Node::Char),
        Shape::Int => Ok(Node::Int(IntKind::Int63)),
        Shape::Int32 => Ok(Node::Int(IntKind::Int32)),
        Shape::Int64 => Ok(Node::Int(IntKind::Int64)),
        Shape::Text => Ok(Node::Text),
        Shape::Opt(item) => Ok(Node::Opt(place_shape(item.get(), sources)?)),
        Shape::List(item) => Ok(Node::List(place_shape(item.get(), sources)?)),
        Shape::Tuple(parts) => Ok(Node::Parts {
            first: place_shapes(parts.as_slice(), sources)?,
            count: parts.len(),
        }),
        Shape::Fields(fields) => Ok(Node::Parts {
            first: place_fields(fields.as_slice(), sources)?,
            count: fields.len(),
        }),
        Shape::Sum(cases) => Ok(Node::Sum {
            first: place_cases(cases.as_slice(), sources)?,
            count: cases.len(),
        }),
        Shape::Poly(cases) => poly_node(cases.as_slice(), sources, tags),
        Shape::Sexp => Ok(Node::Sexp),
    }
}

fn poly_node<'a>(
    poly: &'a [PolyCase],
    sources: &mut Vec<Source<'a>>,
    tags: &mut Vec<u32>,
) -> Result<Node, OutOfMemory>
    ensures { let made = value (form.poly (cases (map poly_form poly.now))) in
        IfOk result (λ node. Expands made (origins sources.old.items) (origins sources.new.items)
        tags.old.items tags.new.items node) }
{
    let first = sources.len();
    let first_tag = tags.len();
    sources.reserve(poly.len())?;
    tags.reserve(poly.len())?;
    for case in poly {
        sources.push(Source::Args(args_of(&case.arg)))?;
        tags.push(poly_tag(case.name.as_slice()).cast_unsigned())?;
    }
    Ok(Node::Poly {
        first,
        count: poly.len(),
        tags: first_tag,
    })
}

/// The argument of a case, if it has one.
fn args_of(arg: &Option<Boxed<Shape>>) -> &[Shape]
    ensures { parts (map form_of result.now) ≡ argument (option_map form_of arg.now) }
{
    match arg {
        None => &[],
        Some(shape) => slice::from_ref(shape.get()),
    }
}

/// Puts a shape at the end. The place of it.
fn place_shape<'a>(shape: &'a Shape, sources: &mut Vec<Source<'a>>) -> Result<usize, OutOfMemory>
    ensures { IfOk result (Places (value (form_of shape.now) ∷ [])
        (origins sources.old.items) (origins sources.new.items)) }
{
    let place = sources.len();
    sources.push(Source::Shape(shape))?;
    Ok(place)
}

/// Puts shapes at the end, in order. The place of the first.
fn place_shapes<'a>(
    shapes: &'a [Shape],
    sources: &mut Vec<Source<'a>>,
) -> Result<usize, OutOfMemory>
    ensures { IfOk result (Places (part_origins (parts (map form_of shapes.now)))
        (origins sources.old.items) (origins sources.new.items)) }
{
    let first = sources.len();
    sources.reserve(shapes.len())?;
    for shape in shapes {
        sources.push(Source::Shape(shape))?;
    }
    Ok(first)
}

/// Puts the shapes of fields at the end, in order. The place of the first.
fn place_fields<'a>(
    fields: &'a [Field],
    sources: &mut Vec<Source<'a>>,
) -> Result<usize, OutOfMemory>
    ensures { IfOk result (Places (part_origins (named_parts (map field_form fields.now)))
        (origins sources.old.items) (origins sources.new.items)) }
{
    let first = sources.len();
    sources.reserve(fields.len())?;
    for field in fields {
        sources.push(Source::Shape(&field.shape))?;
    }
    Ok(first)
}

/// Puts the arguments of cases at the end, in order. The place of the first case's.
fn place_cases<'a>(sum: &'a [Case], sources: &mut Vec<Source<'a>>) -> Result<usize, OutOfMemory>
    ensures { IfOk result (Places (case_origins (cases (map case_form sum.now)))
        (origins sources.old.items) (origins sources.new.items)) }
{
    let first = sources.len();
    sources.reserve(sum.len())?;
    for case in sum {
        sources.push(Source::Args(case.args.as_slice()))?;
    }
    Ok(first)
}
