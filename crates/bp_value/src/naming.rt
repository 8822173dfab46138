ghost use Rattle.std.specs.Prelude.{◌≡◌, ◌↔◌, ◌<◌, IsTrue, Some, map, length, slice_get, MatchOption};
ghost use Rattle.std.specs.List.{All};
ghost use Rattle.bp_value.specs.Names.{IsShapeName, IsNameStart, IsNameByte, IsFirstBadName, IsDistinct, IsFirstRepeat, IsNewAt, IsFirstAlike};
ghost use Rattle.bp_value.specs.Named.{names_of};

use crate::shape::{Case, Field, PolyCase};

/// The most bytes that a name may have.
const MAX_NAME: usize = 64;

/// What gives names: the fields of a record or the cases of a variant.
#[derive(Clone, Copy)]
pub enum Names<'a> {
    Fields(&'a [Field]),
    Cases(&'a [Case]),
    Poly(&'a [PolyCase]),
}

impl<'a> Names<'a> {
    fn len(&self) -> usize
        ensures { result ≡ length (names_of self.now) }
    {
        match self {
            Names::Fields(fields) => fields.len(),
            Names::Cases(cases) => cases.len(),
            Names::Poly(cases) => cases.len(),
        }
    }

    fn name(&self, place: usize) -> &'a [u8]
        requires { place < length (names_of self.now) }
        ensures { slice_get (names_of self.now) place ≡ Some result.now }
    {
        match self {
            Names::Fields(fields) => field_name(fields, place),
            Names::Cases(cases) => case_name(cases, place),
            Names::Poly(cases) => poly_name(cases, place),
        }
    }

    /// The place of the first name that is none.
    pub fn first_bad(&self) -> Option<usize>
        ensures { let names = names_of self.now in
            MatchOption result (All IsShapeName names) (λ place. IsFirstBadName names place) }
    {
        for place in 0..self.len() {
            if !is_name(self.name(place)) {
                return Some(place);
            }
        }
        None
    }

    /// The first name that stands twice: its first place, and its second.
    pub fn first_repeat(&self) -> Option<(usize, usize)>
        ensures { let names = names_of self.now in
            MatchOption result (IsDistinct names)
            (λ places. IsFirstRepeat names places.0 places.1) }
    {
        for second in 0..self.len() {
            if let Some(first) = self.earlier(second) {
                return Some((first, second));
            }
        }
        None
    }

    /// The first place before this one that has its name.
    fn earlier(&self, second: usize) -> Option<usize>
        requires { second < length (names_of self.now) }
        ensures { let names = names_of self.now in
            MatchOption result (IsNewAt names second) (λ first. IsFirstAlike names first second) }
    {
        let name = self.name(second);
        for first in 0..second {
            if self.name(first) == name {
                return Some(first);
            }
        }
        None
    }
}

fn field_name(fields: &[Field], place: usize) -> &[u8]
    requires { place < length fields.now }
    ensures { slice_get (map (λ field. field.name) fields.now) place ≡ Some result.now }
{
    fields[place].name.as_slice()
}

fn case_name(cases: &[Case], place: usize) -> &[u8]
    requires { place < length cases.now }
    ensures { slice_get (map (λ case. case.name) cases.now) place ≡ Some result.now }
{
    cases[place].name.as_slice()
}

fn poly_name(cases: &[PolyCase], place: usize) -> &[u8]
    requires { place < length cases.now }
    ensures { slice_get (map (λ case. case.name) cases.now) place ≡ Some result.now }
{
    cases[place].name.as_slice()
}

/// A letter or `_`, then letters, digits, `_` or `'`.
fn is_name(name: &[u8]) -> bool
    ensures { IsTrue result ↔ IsShapeName name.now }
{
    match name {
        [] => false,
        [first, rest @ ..] => is_name_start(*first)
            && rest.len() < MAX_NAME
            && are_name_bytes(rest),
    }
}

fn is_name_start(byte: u8) -> bool
    ensures { IsTrue result ↔ IsNameStart byte }
{
    matches!(byte, b'a'..=b'z' | b'A'..=b'Z' | b'_')
}

fn is_name_byte(byte: u8) -> bool
    ensures { IsTrue result ↔ IsNameByte byte }
{
    is_name_start(byte) || matches!(byte, b'0'..=b'9' | b'\'')
}

fn are_name_bytes(bytes: &[u8]) -> bool
    ensures { IsTrue result ↔ All IsNameByte bytes.now }
{
    for byte in bytes {
        if !is_name_byte(*byte) {
            return false;
        }
    }
    true
}
