ghost use Rattle.std.specs.Prelude.{◌≡◌, ◌↔◌, IsTrue};

use crate::blob::Blob;
use crate::boxed::Boxed;
use crate::listed::Listed;
use crate::shape::{Case, Field, PolyCase, Shape};
use crate::value::{Sexp, Value};

impl Shape {
    /// Whether the two are equal, in names and in order too. It stops at the first difference. It
    /// takes no memory, and stack for each level down to which the two agree.
    pub fn is_same(&self, other: &Shape) -> bool
        ensures { IsTrue result ↔ (self.now ≡ other.now) }
    {
        self.same(other)
    }
}

impl Value {
    /// Whether the two are equal. Values of two shapes may be: a value does not say whether its
    /// number is an int or an int32, nor whether its parts have names. It stops at the first
    /// difference. It takes no memory, and stack for each level down to which the two agree.
    pub fn is_same(&self, other: &Value) -> bool
        ensures { IsTrue result ↔ (self.now ≡ other.now) }
    {
        self.same(other)
    }
}

impl Sexp {
    /// Whether the two are equal. It stops at the first difference. It takes no memory, and stack
    /// for each level down to which the two agree.
    pub fn is_same(&self, other: &Sexp) -> bool
        ensures { IsTrue result ↔ (self.now ≡ other.now) }
    {
        self.same(other)
    }
}

/// What is compared as contracts see it. A list, a box and an option are the same where what they
/// hold is, so that one loop serves all lists.
trait Same {
    fn same(&self, other: &Self) -> bool
        ensures { IsTrue result ↔ (self.now ≡ other.now) };
}

impl Same for Blob {
    fn same(&self, other: &Blob) -> bool {
        self.is_same(other)
    }
}

impl<T: Same> Same for Boxed<T> {
    fn same(&self, other: &Boxed<T>) -> bool {
        self.get().same(other.get())
    }
}

impl<T: Same> Same for Option<T> {
    fn same(&self, other: &Option<T>) -> bool {
        match self {
            None => other.is_none(),
            Some(item) => matches!(other, Some(same) if item.same(same)),
        }
    }
}

impl<T: Same> Same for Listed<T> {
    fn same(&self, other: &Listed<T>) -> bool {
        items_same(self.as_slice(), other.as_slice())
    }
}

fn items_same<T: Same>(items: &[T], others: &[T]) -> bool
    ensures { IsTrue result ↔ (items.now ≡ others.now) }
{
    if items.len() != others.len() {
        return false;
    }
    for (place, item) in items.iter().enumerate() {
        if !item.same(&others[place]) {
            return false;
        }
    }
    true
}

impl Same for Shape {
    #[cycle(same_shape)]
    fn same(&self, other: &Shape) -> bool {
        match self {
            Shape::Unit => matches!(other, Shape::Unit),
            Shape::Bool => matches!(other, Shape::Bool),
            Shape::Char => matches!(other, Shape::Char),
            Shape::Int => matches!(other, Shape::Int),
            Shape::Int32 => matches!(other, Shape::Int32),
            Shape::Int64 => matches!(other, Shape::Int64),
            Shape::Text => matches!(other, Shape::Text),
            Shape::Opt(item) => matches!(other, Shape::Opt(same) if item.same(same)),
            Shape::List(item) => matches!(other, Shape::List(same) if item.same(same)),
            Shape::Tuple(parts) => matches!(other, Shape::Tuple(same) if parts.same(same)),
            Shape::Fields(fields) => matches!(other, Shape::Fields(same) if fields.same(same)),
            Shape::Sum(cases) => matches!(other, Shape::Sum(same) if cases.same(same)),
            Shape::Poly(cases) => matches!(other, Shape::Poly(same) if cases.same(same)),
            Shape::Sexp => matches!(other, Shape::Sexp),
        }
    }
}

impl Same for Field {
    #[cycle(same_shape)]
    fn same(&self, other: &Field) -> bool {
        self.name.same(&other.name) && self.shape.same(&other.shape)
    }
}

impl Same for Case {
    #[cycle(same_shape)]
    fn same(&self, other: &Case) -> bool {
        self.name.same(&other.name) && self.args.same(&other.args)
    }
}

impl Same for PolyCase {
    #[cycle(same_shape)]
    fn same(&self, other: &PolyCase) -> bool {
        self.name.same(&other.name) && self.arg.same(&other.arg)
    }
}

impl Same for Value {
    fn same(&self, other: &Value) -> bool {
        match self {
            Value::Unit => matches!(other, Value::Unit),
            Value::Bool(flag) => matches!(other, Value::Bool(same) if flag == same),
            Value::Char(byte) => matches!(other, Value::Char(same) if byte == same),
            Value::Num(number) => matches!(other, Value::Num(same) if number == same),
            Value::Text(text) => matches!(other, Value::Text(same) if text.same(same)),
            Value::Absent => matches!(other, Value::Absent),
            Value::Present(item) => matches!(other, Value::Present(same) if item.same(same)),
            Value::Items(items) => matches!(other, Value::Items(same) if items.same(same)),
            Value::Parts(parts) => matches!(other, Value::Parts(same) if parts.same(same)),
            Value::Case { place, args } => match other {
                Value::Case {
                    place: at,
                    args: same,
                } => place == at && args.same(same),
                _ => false,
            },
            Value::Sexp(sexp) => matches!(other, Value::Sexp(same) if sexp.same(same)),
        }
    }
}

impl Same for Sexp {
    fn same(&self, other: &Sexp) -> bool {
        match self {
            Sexp::Atom(text) => matches!(other, Sexp::Atom(same) if text.same(same)),
            Sexp::List(items) => matches!(other, Sexp::List(same) if items.same(same)),
        }
    }
}
