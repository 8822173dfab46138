use crate::blob::Blob;
use crate::boxed::Boxed;
use crate::listed::Listed;

/// The type of a value: what bin_prot has to know to read or write it. Each variant is an OCaml
/// type or a way to make one of others.
///
/// Any shape can be built. A good one, which `check` passes, is at most 64 nodes deep, and has at
/// most 256 parts, fields or cases in a node, each with a name of its own.
#[cycle(shape)]
#[derive(Debug, Drop)]
pub enum Shape {
    /// OCaml's `unit`.
    Unit,
    /// OCaml's `bool`.
    Bool,
    /// OCaml's `char`: one byte.
    Char,
    /// OCaml's `int`, of 63 bits.
    Int,
    /// OCaml's `int32`.
    Int32,
    /// OCaml's `int64`.
    Int64,
    /// OCaml's `string`, of any bytes.
    Text,
    /// An `option`.
    Opt(Boxed<Shape>),
    /// A list, or an array, which is spelled alike.
    List(Boxed<Shape>),
    /// A tuple, of two parts or more.
    Tuple(Listed<Shape>),
    /// A record, its fields in the order of their declaration.
    Fields(Listed<Field>),
    /// A variant, its cases numbered from 0 in the order of their declaration.
    Sum(Listed<Case>),
    /// A polymorphic variant, its cases told apart by the tags of their names.
    Poly(Listed<PolyCase>),
    /// An S-expression, sexplib's `Sexp.t`.
    Sexp,
}

/// A field of a record. The name of a good one has 1 to 64 bytes: a letter or `_`, then letters,
/// digits, `_` or `'`.
#[cycle(shape)]
#[derive(Debug, Drop)]
pub struct Field {
    pub name: Blob,
    pub shape: Shape,
}

/// A case of a variant, with the shapes of its arguments. Its name is as that of a field; the
/// arguments have none, and no bound on their number.
#[cycle(shape)]
#[derive(Debug, Drop)]
pub struct Case {
    pub name: Blob,
    pub args: Listed<Shape>,
}

/// A case of a polymorphic variant, with the shape of its argument if it has one. Its name is as
/// that of a field, without the backtick.
#[cycle(shape)]
#[derive(Debug, Drop)]
pub struct PolyCase {
    pub name: Blob,
    pub arg: Option<Boxed<Shape>>,
}
