// What is in a value of which the shape says what it is. The value fits the shape, so it is that.
ghost use Rattle.std.specs.Prelude.{◌≡◌, ◌⊎◌, ℕ, MatchOption};
ghost use Rattle.bp_value.specs.declared.value.Value.TheVariants as val;
ghost use Rattle.bp_value.specs.Fits.{IsMade, Anything};

use bp_value::{Sexp, Value};

pub(crate) fn bool_in(value: &Value) -> bool
    requires { IsMade val.Bool Anything value.now }
    ensures { value.now ≡ val.Bool result }
{
    let Value::Bool(flag) = value else {
        unreachable!()
    };
    *flag
}

pub(crate) fn char_in(value: &Value) -> u8
    requires { IsMade val.Char Anything value.now }
    ensures { value.now ≡ val.Char result }
{
    let Value::Char(byte) = value else {
        unreachable!()
    };
    *byte
}

pub(crate) fn number_in(value: &Value) -> i64
    requires { IsMade val.Num Anything value.now }
    ensures { value.now ≡ val.Num result }
{
    let Value::Num(number) = value else {
        unreachable!()
    };
    *number
}

pub(crate) fn text_in(value: &Value) -> &[u8]
    requires { IsMade val.Text Anything value.now }
    ensures { value.now ≡ val.Text result.now }
{
    let Value::Text(text) = value else {
        unreachable!()
    };
    text.as_slice()
}

pub(crate) fn option_in(value: &Value) -> Option<&Value>
    requires { (value.now ≡ val.Absent) ⊎ IsMade val.Present Anything value.now }
    ensures { MatchOption result
        (value.now ≡ val.Absent)
        (λ item. value.now ≡ val.Present item.now) }
{
    match value {
        Value::Absent => None,
        Value::Present(item) => Some(item.get()),
        _ => unreachable!(),
    }
}

pub(crate) fn items_in(value: &Value) -> &[Value]
    requires { IsMade val.Items Anything value.now }
    ensures { value.now ≡ val.Items result.now }
{
    let Value::Items(items) = value else {
        unreachable!()
    };
    items.as_slice()
}

pub(crate) fn parts_in(value: &Value) -> &[Value]
    requires { IsMade val.Parts Anything value.now }
    ensures { value.now ≡ val.Parts result.now }
{
    let Value::Parts(parts) = value else {
        unreachable!()
    };
    parts.as_slice()
}

pub(crate) fn case_in(value: &Value) -> (u32, &[Value])
    requires { (place : ℕ) × IsMade (val.Case place) Anything value.now }
    ensures { value.now ≡ val.Case result.0 result.1.now }
{
    let Value::Case { place, args } = value else {
        unreachable!()
    };
    (*place, args.as_slice())
}

pub(crate) fn sexp_in(value: &Value) -> &Sexp
    requires { IsMade val.Sexp Anything value.now }
    ensures { value.now ≡ val.Sexp result.now }
{
    let Value::Sexp(sexp) = value else {
        unreachable!()
    };
    sexp
}
