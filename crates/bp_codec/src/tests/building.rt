// Shapes for the tests. Each is made in a function of its own, so that a test has few calls that
// may fail.

use bp_value::{Blob, Boxed, Case, Field, Listed, OutOfMemory, PolyCase, Shape};
use std::alloc::Global;

fn blob(alloc: Global, text: &str) -> Result<Blob, OutOfMemory> {
    Blob::from_slice(alloc, text.as_bytes())
}

fn listed<T: Drop, const N: usize>(alloc: Global, items: [T; N]) -> Result<Listed<T>, OutOfMemory> {
    Ok(Listed::from_vec(Vec::from_array(alloc, items)?))
}

/// A list of a shape.
pub fn list_of(alloc: Global, item: Shape) -> Result<Shape, OutOfMemory> {
    Ok(Shape::List(Boxed::new(alloc, item)?))
}

fn field(alloc: Global, name: &str, shape: Shape) -> Result<Field, OutOfMemory> {
    Ok(Field {
        name: blob(alloc, name)?,
        shape,
    })
}

/// `{a: int; b: string list}`
pub fn record(alloc: Global) -> Result<Shape, OutOfMemory> {
    let texts = list_of(alloc, Shape::Text)?;
    let b = field(alloc, "b", texts)?;
    let a = field(alloc, "a", Shape::Int)?;
    Ok(Shape::Fields(listed(alloc, [a, b])?))
}

/// `(int * bool) option`
pub fn pair_option(alloc: Global) -> Result<Shape, OutOfMemory> {
    let pair = Shape::Tuple(listed(alloc, [Shape::Int, Shape::Bool])?);
    Ok(Shape::Opt(Boxed::new(alloc, pair)?))
}

fn case(alloc: Global, name: &str, args: Listed<Shape>) -> Result<Case, OutOfMemory> {
    Ok(Case {
        name: blob(alloc, name)?,
        args,
    })
}

/// `[A | B of int * bool]`
pub fn sum_of_pair(alloc: Global) -> Result<Shape, OutOfMemory> {
    let args = listed(alloc, [Shape::Int, Shape::Bool])?;
    let b = case(alloc, "B", args)?;
    let a = case(alloc, "A", Listed::from_vec(Vec::new(alloc)))?;
    Ok(Shape::Sum(listed(alloc, [a, b])?))
}

fn poly_case(
    alloc: Global,
    name: &str,
    arg: Option<Boxed<Shape>>,
) -> Result<PolyCase, OutOfMemory> {
    Ok(PolyCase {
        name: blob(alloc, name)?,
        arg,
    })
}

/// ``[`Ok of int | `Eof]``
pub fn poly(alloc: Global) -> Result<Shape, OutOfMemory> {
    let int = Boxed::new(alloc, Shape::Int)?;
    let ok = poly_case(alloc, "Ok", Some(int))?;
    let eof = poly_case(alloc, "Eof", None)?;
    Ok(Shape::Poly(listed(alloc, [ok, eof])?))
}
