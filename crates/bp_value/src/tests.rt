use super::*;
use std::alloc::Global;
use std::test::Fail;

fn blob(alloc: Global, text: &str) -> Result<Blob, OutOfMemory> {
    Blob::from_slice(alloc, text.as_bytes())
}

fn listed<T: Drop, const N: usize>(alloc: Global, items: [T; N]) -> Result<Listed<T>, OutOfMemory> {
    Ok(Listed::from_vec(Vec::from_array(alloc, items)?))
}

/// A variant of cases without arguments.
fn sum_of(alloc: Global, names: &[&str]) -> Result<Shape, OutOfMemory> {
    let mut cases = Vec::with_capacity(alloc, names.len())?;
    for name in names {
        let name = blob(alloc, name)?;
        let args = Listed::from_vec(Vec::new(alloc));
        cases.push(Case { name, args })?;
    }
    Ok(Shape::Sum(Listed::from_vec(cases)))
}

/// A polymorphic variant of cases without arguments.
fn poly_of(alloc: Global, names: &[&str]) -> Result<Shape, OutOfMemory> {
    let mut cases = Vec::with_capacity(alloc, names.len())?;
    for name in names {
        let name = blob(alloc, name)?;
        cases.push(PolyCase { name, arg: None })?;
    }
    Ok(Shape::Poly(Listed::from_vec(cases)))
}

fn tuple_of<const N: usize>(alloc: Global, parts: [Shape; N]) -> Result<Shape, OutOfMemory> {
    Ok(Shape::Tuple(listed(alloc, parts)?))
}

/// What `check` answers. The shape is made by the caller, so that none is left to be dropped there.
fn checked(shape: Result<Shape, OutOfMemory>) -> Result<Result<(), ShapeFault>, OutOfMemory> {
    let shape = shape?;
    Ok(shape.check())
}

#[test]
fn tags_are_those_of_ocaml(rt: HostRuntime) {
    for (name, tag) in [
        ("Ok", 35449),
        ("Eof", 6912313),
        ("Abort", 1548646177),
        ("Query", -500173359),
        ("Version", -1803149839),
        ("azdwbie", -664647963),
        ("c7diagq", -664647963),
    ] {
        assert_eq!(rt; poly_tag(name.as_bytes()), tag, "of {name}");
    }
}

#[test]
fn check_answers_the_first_fault(rt: HostRuntime) -> Result<(), Fail> {
    let alloc = rt.alloc();
    let same = ShapeFault::SameName {
        first: 0,
        second: 2,
    };
    assert_eq!(rt; checked(sum_of(alloc, &["A", "B", "A"]))?, Err(same));
    let clash = ShapeFault::TagClash {
        first: 0,
        second: 1,
    };
    assert_eq!(rt;
        checked(poly_of(alloc, &["azdwbie", "c7diagq"]))?,
        Err(clash)
    );
    let short = ShapeFault::ShortTuple { parts: 1 };
    assert_eq!(rt; checked(tuple_of(alloc, [Shape::Int]))?, Err(short));
    Ok(())
}

#[test]
fn faults_say_what_and_where(rt: HostRuntime) -> Result<(), Fail> {
    let alloc = rt.alloc();
    for (fault, text) in [
        (
            ShapeFault::TooDeep { depth: 65 },
            "a node at depth 65, and 64 is the deepest",
        ),
        (ShapeFault::EmptySum, "a variant with no case"),
        (
            ShapeFault::ShortTuple { parts: 1 },
            "a tuple whose number of parts is 1, and 2 is the least",
        ),
        (ShapeFault::EmptyFields, "a record with no field"),
        (
            ShapeFault::TooMany { count: 257 },
            "257 parts, fields or cases in a node, and 256 are the most",
        ),
        (
            ShapeFault::BadName { place: 3 },
            "a name out of form at place 3",
        ),
        (
            ShapeFault::SameName {
                first: 0,
                second: 2,
            },
            "the name at place 0 again at place 2",
        ),
        (
            ShapeFault::TagClash {
                first: 1,
                second: 4,
            },
            "the tag of the name at place 1 again at place 4",
        ),
    ] {
        assert_eq!(rt; format!(in alloc; "{fault}")?.as_str(), text);
    }
    assert_eq!(rt;
        format!(in alloc; "{}", OutOfMemory)?.as_str(),
        "out of memory"
    );
    Ok(())
}

fn fits_checked(shape: &Shape, value: &Value, max_len: u64) -> Result<bool, ShapeFault> {
    shape.check()?;
    Ok(fits(shape, value, max_len))
}

#[test]
fn an_int32_has_32_bits(rt: HostRuntime) {
    for (number, is_one) in [(2147483647, true), (2147483648, false)] {
        assert_eq!(rt;
            fits_checked(&Shape::Int32, &Value::Num(number), 8),
            Ok(is_one)
        );
    }
}

fn variant(alloc: Global) -> Result<Shape, OutOfMemory> {
    let args = listed(alloc, [Shape::Int32, Shape::Int64])?;
    let name = blob(alloc, "C")?;
    Ok(Shape::Sum(listed(alloc, [Case { name, args }])?))
}

fn polymorphic(alloc: Global) -> Result<Shape, OutOfMemory> {
    let arg = Some(Boxed::new(alloc, Shape::Sexp)?);
    let name = blob(alloc, "Ok")?;
    Ok(Shape::Poly(listed(alloc, [PolyCase { name, arg }])?))
}

fn record(alloc: Global) -> Result<Shape, OutOfMemory> {
    let shape = Shape::Opt(Boxed::new(alloc, Shape::Int)?);
    let name = blob(alloc, "opt")?;
    Ok(Shape::Fields(listed(alloc, [Field { name, shape }])?))
}

/// Whether a copy is made, and is the same.
fn is_copied(alloc: Global, shape: Result<Shape, OutOfMemory>) -> Result<bool, OutOfMemory> {
    let shape = shape?;
    let copy = shape.copy(alloc)?;
    Ok(copy.is_same(&shape))
}

fn shapes_are_copied(alloc: Global) -> Result<bool, OutOfMemory> {
    Ok(
        is_copied(alloc, tuple_of(alloc, [Shape::Bool, Shape::Char]))?
            && is_copied(alloc, variant(alloc))?
            && is_copied(alloc, polymorphic(alloc))?
            && is_copied(alloc, record(alloc))?,
    )
}

fn items_of_text(alloc: Global) -> Result<Value, OutOfMemory> {
    let text = Value::Text(blob(alloc, "text")?);
    Ok(Value::Items(listed(alloc, [text])?))
}

fn parts_of_option(alloc: Global) -> Result<Value, OutOfMemory> {
    let present = Value::Present(Boxed::new(alloc, Value::Num(7))?);
    Ok(Value::Parts(listed(alloc, [present, Value::Absent])?))
}

/// `("say \"hi\" ~" ())`
fn sexp(alloc: Global) -> Result<Sexp, OutOfMemory> {
    let atom = Sexp::Atom(blob(alloc, "say \"hi\" ~")?);
    let empty = Sexp::List(Listed::from_vec(Vec::new(alloc)));
    Ok(Sexp::List(listed(alloc, [atom, empty])?))
}

fn case_of_sexp(alloc: Global) -> Result<Value, OutOfMemory> {
    let sexp = Value::Sexp(sexp(alloc)?);
    let args = listed(alloc, [sexp])?;
    Ok(Value::Case { place: 0, args })
}

/// Whether a copy is made, and is the same.
fn is_repeated(alloc: Global, value: Result<Value, OutOfMemory>) -> Result<bool, OutOfMemory> {
    let value = value?;
    let copy = value.copy(alloc)?;
    Ok(copy.is_same(&value))
}

fn values_are_copied(alloc: Global) -> Result<bool, OutOfMemory> {
    Ok(
        is_repeated(alloc, items_of_text(alloc))?
            && is_repeated(alloc, parts_of_option(alloc))?
            && is_repeated(alloc, case_of_sexp(alloc))?,
    )
}

fn texts_are_copied(alloc: Global) -> Result<bool, OutOfMemory> {
    let text = blob(alloc, "text")?;
    let copy = text.copy(alloc)?;
    Ok(copy.is_same(&text))
}

fn sexps_are_copied(alloc: Global) -> Result<bool, OutOfMemory> {
    let sexp = sexp(alloc)?;
    let copy = sexp.copy(alloc)?;
    Ok(copy.is_same(&sexp))
}

#[test]
fn copies_are_made_and_alike(rt: HostRuntime) -> Result<(), Fail> {
    let alloc = rt.alloc();
    assert!(rt; texts_are_copied(alloc)?);
    assert!(rt; sexps_are_copied(alloc)?);
    assert!(rt; shapes_are_copied(alloc)?);
    assert!(rt; values_are_copied(alloc)?);
    Ok(())
}

fn blob_gives_back(alloc: Global) -> Result<bool, OutOfMemory> {
    let text = blob(alloc, "ab")?;
    let text = Blob::from_vec(text.into_vec());
    Ok(text.len() == 2 && !text.is_empty() && text.as_slice() == b"ab".as_slice())
}

fn list_gives_back(alloc: Global) -> Result<bool, OutOfMemory> {
    let list = listed(alloc, [3u8, 4, 5])?;
    let list = Listed::from_vec(list.into_vec());
    Ok(list.len() == 3 && !list.is_empty() && list.as_slice() == [3, 4, 5].as_slice())
}

fn box_gives_back(alloc: Global) -> Result<bool, OutOfMemory> {
    let boxed = Boxed::new(alloc, 7u8)?;
    Ok(*boxed.get() == 7 && boxed.into_inner() == 7)
}

#[test]
fn owners_give_back_what_they_took(rt: HostRuntime) -> Result<(), Fail> {
    let alloc = rt.alloc();
    assert!(rt; blob_gives_back(alloc)?);
    assert!(rt; list_gives_back(alloc)?);
    assert!(rt; box_gives_back(alloc)?);
    Ok(())
}

fn shown(alloc: Global, bytes: &[u8]) -> Result<String, Fail> {
    let text = Blob::from_slice(alloc, bytes)?;
    Ok(format!(in alloc; "{text:?}")?)
}

fn value_shown(alloc: Global) -> Result<String, Fail> {
    let value = case_of_sexp(alloc)?;
    Ok(format!(in alloc; "{value:?}")?)
}

#[test]
fn debug_shows_texts_as_texts(rt: HostRuntime) -> Result<(), Fail> {
    let alloc = rt.alloc();
    let rows: [(&[u8], &str); 3] = [
        (b"say \"hi\" ~", "\"say \\\"hi\\\" ~\""),
        (b"", "\"\""),
        (b"a\x00\x7f\xfe", "0x61007ffe"),
    ];
    for (bytes, want) in rows {
        assert_eq!(rt; shown(alloc, bytes)?.as_str(), want);
    }
    assert_eq!(rt;
        value_shown(alloc)?.as_str(),
        "Case { place: 0, args: [Sexp(List([Atom(\"say \\\"hi\\\" ~\"), List([])]))] }"
    );
    Ok(())
}
