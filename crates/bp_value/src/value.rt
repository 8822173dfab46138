use crate::blob::Blob;
use crate::boxed::Boxed;
use crate::listed::Listed;

/// A value, without its shape. Any value can be built; which ones are of a shape, [`fits`] says.
///
/// [`fits`]: crate::fits
#[derive(Debug, Drop)]
pub enum Value {
    /// The one value of `unit`.
    Unit,
    Bool(bool),
    /// One byte.
    Char(u8),
    /// A number of any of the three kinds; its shape says the range.
    Num(i64),
    Text(Blob),
    /// `None` of an option.
    Absent,
    /// `Some` of an option.
    Present(Boxed<Value>),
    /// The elements of a list.
    Items(Listed<Value>),
    /// The parts of a tuple, or the fields of a record, in order.
    Parts(Listed<Value>),
    /// A case of a variant, by its place from 0, with its arguments. A case of a polymorphic
    /// variant is known by its place in the shape too, and not by its tag, and has one argument
    /// or none.
    Case { place: u32, args: Listed<Value> },
    Sexp(Sexp),
}

/// An S-expression. An atom has depth 1, and a list one more than its deepest item; an empty list
/// has depth 1.
#[derive(Debug, Drop)]
pub enum Sexp {
    /// Any bytes.
    Atom(Blob),
    List(Listed<Sexp>),
}
