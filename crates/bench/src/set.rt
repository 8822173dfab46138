// The three sets.

use bp_value::{Blob, Boxed, Field, Listed, OutOfMemory, Shape};
use std::alloc::Global;
use std::fmt;

/// A set of values: a list, and of what.
#[derive(Clone, Copy, Debug, PartialEq, Eq)]
pub enum Set {
    /// `string list`
    Strings,
    /// `int list`
    Ints,
    /// `{a: int; b: string; c: int list} list`
    Records,
}

impl Set {
    /// The set of a name.
    pub fn named(name: &str) -> Option<Set> {
        match name {
            "strings" => Some(Set::Strings),
            "ints" => Some(Set::Ints),
            "records" => Some(Set::Records),
            _ => None,
        }
    }

    /// The shape of the list.
    pub fn shape(self, alloc: Global) -> Result<Shape, OutOfMemory> {
        let item = match self {
            Set::Strings => Shape::Text,
            Set::Ints => Shape::Int,
            Set::Records => record(alloc)?,
        };
        Ok(Shape::List(Boxed::new(alloc, item)?))
    }
}

impl fmt::Display for Set {
    fn fmt<W: fmt::Write>(&self, f: &mut fmt::Formatter<W>) -> fmt::Result {
        f.write_str(match self {
            Set::Strings => "strings",
            Set::Ints => "ints",
            Set::Records => "records",
        })
    }
}

fn record(alloc: Global) -> Result<Shape, OutOfMemory> {
    let mut fields = Vec::new(alloc);
    fields.push(field(alloc, "a", Shape::Int)?)?;
    fields.push(field(alloc, "b", Shape::Text)?)?;
    let ints = Shape::List(Boxed::new(alloc, Shape::Int)?);
    fields.push(field(alloc, "c", ints)?)?;
    Ok(Shape::Fields(Listed::from_vec(fields)))
}

fn field(alloc: Global, name: &str, shape: Shape) -> Result<Field, OutOfMemory> {
    Ok(Field {
        name: Blob::from_slice(alloc, name.as_bytes())?,
        shape,
    })
}
