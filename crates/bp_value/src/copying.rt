ghost use Rattle.std.specs.Prelude.{◌≡◌, IfOk};

use crate::blob::Blob;
use crate::boxed::Boxed;
use crate::listed::Listed;
use crate::memory::OutOfMemory;
use crate::shape::{Case, Field, PolyCase, Shape};
use crate::value::{Sexp, Value};
use std::alloc::Global;

impl Shape {
    /// Copies it with all that it holds, into blocks without spare room. It takes stack for each
    /// level.
    pub fn copy(&self, alloc: Global) -> Result<Shape, OutOfMemory>
        ensures { IfOk result (λ copy. copy ≡ self.now) }
    {
        shape_copy(alloc, self)
    }
}

impl Value {
    /// Copies it with all that it holds, into blocks without spare room. It takes stack for each
    /// level.
    pub fn copy(&self, alloc: Global) -> Result<Value, OutOfMemory>
        ensures { IfOk result (λ copy. copy ≡ self.now) }
    {
        value_copy(alloc, self)
    }
}

impl Sexp {
    /// Copies it with all that it holds, into blocks without spare room. It takes stack for each
    /// level.
    pub fn copy(&self, alloc: Global) -> Result<Sexp, OutOfMemory>
        ensures { IfOk result (λ copy. copy ≡ self.now) }
    {
        sexp_copy(alloc, self)
    }
}

#[cycle(shapes)]
fn shape_copy(alloc: Global, shape: &Shape) -> Result<Shape, OutOfMemory>
    ensures { IfOk result (λ copy. copy ≡ shape.now) }
{
    Ok(match shape {
        Shape::Unit => Shape::Unit,
        Shape::Bool => Shape::Bool,
        Shape::Char => Shape::Char,
        Shape::Int => Shape::Int,
        Shape::Int32 => Shape::Int32,
        Shape::Int64 => Shape::Int64,
        Shape::Text => Shape::Text,
        Shape::Opt(item) => Shape::Opt(boxed_copy(alloc, item)?),
        Shape::List(item) => Shape::List(boxed_copy(alloc, item)?),
        Shape::Tuple(parts) => Shape::Tuple(shapes_copy(alloc, parts)?),
        Shape::Fields(fields) => Shape::Fields(fields_copy(alloc, fields)?),
        Shape::Sum(cases) => Shape::Sum(cases_copy(alloc, cases)?),
        Shape::Poly(cases) => Shape::Poly(poly_copy(alloc, cases)?),
        Shape::Sexp => Shape::Sexp,
    })
}

#[cycle(shapes)]
fn boxed_copy(alloc: Global, shape: &Boxed<Shape>) -> Result<Boxed<Shape>, OutOfMemory>
    ensures { IfOk result (λ copy. copy ≡ shape.now) }
{
    Boxed::new(alloc, shape_copy(alloc, shape.get())?)
}

#[cycle(shapes)]
fn shapes_copy(alloc: Global, shapes: &Listed<Shape>) -> Result<Listed<Shape>, OutOfMemory>
    ensures { IfOk result (λ copy. copy ≡ shapes.now) }
{
    let mut copies = Vec::with_capacity(alloc, shapes.len())?;
    for shape in shapes.as_slice() {
        copies.push(shape_copy(alloc, shape)?)?;
    }
    Ok(Listed::from_vec(copies))
}

#[cycle(shapes)]
fn fields_copy(alloc: Global, fields: &Listed<Field>) -> Result<Listed<Field>, OutOfMemory>
    ensures { IfOk result (λ copy. copy ≡ fields.now) }
{
    let mut copies = Vec::with_capacity(alloc, fields.len())?;
    for field in fields.as_slice() {
        copies.push(Field {
            name: field.name.copy(alloc)?,
            shape: shape_copy(alloc, &field.shape)?,
        })?;
    }
    Ok(Listed::from_vec(copies))
}

#[cycle(shapes)]
fn cases_copy(alloc: Global, cases: &Listed<Case>) -> Result<Listed<Case>, OutOfMemory>
    ensures { IfOk result (λ copy. copy ≡ cases.now) }
{
    let mut copies = Vec::with_capacity(alloc, cases.len())?;
    for case in cases.as_slice() {
        copies.push(Case {
            name: case.name.copy(alloc)?,
            args: shapes_copy(alloc, &case.args)?,
        })?;
    }
    Ok(Listed::from_vec(copies))
}

#[cycle(shapes)]
fn poly_copy(alloc: Global, cases: &Listed<PolyCase>) -> Result<Listed<PolyCase>, OutOfMemory>
    ensures { IfOk result (λ copy. copy ≡ cases.now) }
{
    let mut copies = Vec::with_capacity(alloc, cases.len())?;
    for case in cases.as_slice() {
        copies.push(PolyCase {
            name: case.name.copy(alloc)?,
            arg: match &case.arg {
                None => None,
                Some(shape) => Some(boxed_copy(alloc, shape)?),
            },
        })?;
    }
    Ok(Listed::from_vec(copies))
}

#[cycle(values)]
fn value_copy(alloc: Global, value: &Value) -> Result<Value, OutOfMemory>
    ensures { IfOk result (λ copy. copy ≡ value.now) }
{
    Ok(match value {
        Value::Unit => Value::Unit,
        Value::Bool(flag) => Value::Bool(*flag),
        Value::Char(byte) => Value::Char(*byte),
        Value::Num(number) => Value::Num(*number),
        Value::Text(text) => Value::Text(text.copy(alloc)?),
        Value::Absent => Value::Absent,
        Value::Present(item) => {
            Value::Present(Boxed::new(alloc, value_copy(alloc, item.get())?)?)
        }
        Value::Items(items) => Value::Items(values_copy(alloc, items)?),
        Value::Parts(parts) => Value::Parts(values_copy(alloc, parts)?),
        Value::Case { place, args } => Value::Case {
            place: *place,
            args: values_copy(alloc, args)?,
        },
        Value::Sexp(sexp) => Value::Sexp(sexp_copy(alloc, sexp)?),
    })
}

#[cycle(values)]
fn values_copy(alloc: Global, values: &Listed<Value>) -> Result<Listed<Value>, OutOfMemory>
    ensures { IfOk result (λ copy. copy ≡ values.now) }
{
    let mut copies = Vec::with_capacity(alloc, values.len())?;
    for value in values.as_slice() {
        copies.push(value_copy(alloc, value)?)?;
    }
    Ok(Listed::from_vec(copies))
}

#[cycle(sexps)]
fn sexp_copy(alloc: Global, sexp: &Sexp) -> Result<Sexp, OutOfMemory>
    ensures { IfOk result (λ copy. copy ≡ sexp.now) }
{
    Ok(match sexp {
        Sexp::Atom(text) => Sexp::Atom(text.copy(alloc)?),
        Sexp::List(items) => Sexp::List(sexps_copy(alloc, items)?),
    })
}

#[cycle(sexps)]
fn sexps_copy(alloc: Global, sexps: &Listed<Sexp>) -> Result<Listed<Sexp>, OutOfMemory>
    ensures { IfOk result (λ copy. copy ≡ sexps.now) }
{
    let mut copies = Vec::with_capacity(alloc, sexps.len())?;
    for sexp in sexps.as_slice() {
        copies.push(sexp_copy(alloc, sexp)?)?;
    }
    Ok(Listed::from_vec(copies))
}
