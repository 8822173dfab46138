use super::*;
use bp_text::read_value;
use std::test::Fail;

/// Four versions of one procedure.
const VERSIONS: &str = "plain echo 1 caller = string -> string\n\
    plain echo 3 both = string -> string\n\
    plain echo 2 callee = string -> string\n\
    plain echo 4 caller = string -> string\n";

/// A line of each kind and behaviour, and two that say nothing.
const ALL: &str = "# what two ends agree on\n\
    plain echo 1 both = string -> string do echo\n\
    plain pi 0 callee=unit->int*int do const (3, 14)\n\
    oneway log 1 both = string do note\n\
    \n\
    plain logged 1 both = unit -> string list do notes\n\
    pipe each 1 both = int list -> int ! unit do each\n\
    state follow 1 caller = unit -> string list , string ! unit do follow\n\
    oneway drop 4611686018427387903 both = {a: int; b: [A | B of int]}";

#[test]
fn reads_each_kind_and_behaviour(rt: HostRuntime) -> Result<(), Fail> {
    let schema = Schema::read(rt.alloc(), ALL.as_bytes())?;
    let [echo, pi, log, logged, each, follow, drop] = schema.entries() else {
        return Err(Fail::new("another number of entries"));
    };
    assert!(rt; matches!(echo.behaviour, Some(Behaviour::Echo)));
    assert!(rt; matches!(pi.behaviour, Some(Behaviour::Const(_))));
    assert!(rt; matches!(log.behaviour, Some(Behaviour::Note)));
    assert!(rt; matches!(logged.behaviour, Some(Behaviour::Notes)));
    assert!(rt; matches!(each.behaviour, Some(Behaviour::Each)));
    assert!(rt; matches!(follow.behaviour, Some(Behaviour::Follow)));
    assert!(rt; drop.behaviour.is_none());
    assert_eq!(rt; [echo.line, pi.line, log.line, logged.line], [2, 3, 4, 6]);
    assert_eq!(rt;
        [each.desc.kind, follow.desc.kind],
        [Kind::Pipe, Kind::State]
    );
    assert_eq!(rt; [pi.side, follow.side], [Side::Callee, Side::Caller]);
    assert_eq!(rt; drop.desc.version, 4_611_686_018_427_387_903);
    assert_eq!(rt; drop.desc.name.as_slice(), b"drop".as_slice());
    Ok(())
}

#[test]
fn refuses_a_line_at_its_place(rt: HostRuntime) -> Result<(), Fail> {
    let lines = [
        ("plain a 1 both = unit -> unit do notes", 33),
        ("plain a 1 both = unit -> unit do echo x", 38),
        ("plain a 1 both = int -> string do const 5", 40),
        ("plain a 1 both = int -> string do const", 39),
        ("plain a 1 both = unit", 21),
        ("plain a 1 both = unit unit", 22),
        ("plain a 1 both = float -> unit", 17),
        ("plain a 1 both = int -> (int * float)", 31),
        ("plain a 1 both = int -> [A | A]", 24),
        ("oneway a 1 both = string -> unit", 25),
        ("plain a 1both = unit -> unit", 8),
        ("plain a 007 both = unit -> unit", 8),
        ("plain a 4611686018427387904 both = unit -> unit", 8),
        ("plain __Versioned_rpc.Menu 1 both = unit -> unit", 6),
        ("plains a 1 both = unit -> unit", 0),
        (" \t", 1),
        (" ", 1),
    ];
    for (line, at) in lines {
        let refusal = Schema::read(rt.alloc(), line.as_bytes()).err();
        assert_eq!(rt;
            refusal,
            Some(SchemaError::BadLine { line: 1, at }),
            "at {line}"
        );
    }
    Ok(())
}

#[test]
fn refuses_a_name_and_version_twice(rt: HostRuntime) -> Result<(), Fail> {
    let twice = "plain a 1 both = unit -> unit\nplain a 1 both = unit -> unit\nplain";
    let refusal = Schema::read(rt.alloc(), twice.as_bytes()).err();
    assert_eq!(rt; refusal, Some(SchemaError::Twice { line: 2 }));
    let versions = "plain a 1 both = unit -> unit\n\nplain a 2 both = unit -> unit\nplain";
    let refusal = Schema::read(rt.alloc(), versions.as_bytes()).err();
    assert_eq!(rt; refusal, Some(SchemaError::BadLine { line: 4, at: 5 }));
    Ok(())
}

#[test]
fn finds_and_offers_entries(rt: HostRuntime) -> Result<(), Fail> {
    let schema = Schema::read(rt.alloc(), VERSIONS.as_bytes())?;
    assert_eq!(rt; schema.find(b"echo", 1, Side::Callee), None);
    assert_eq!(rt; schema.find(b"echo", 1, Side::Caller), Some(0));
    assert_eq!(rt; schema.find(b"echo", 3, Side::Callee), Some(1));
    assert_eq!(rt; schema.find(b"ech", 3, Side::Caller), None);
    let menu = schema.copy(rt.alloc())?.menu_of(rt.alloc())?;
    let [first, second] = menu.entries.as_slice() else {
        return Err(Fail::new("another number of entries"));
    };
    assert_eq!(rt; [first.version, second.version], [2, 3]);
    assert_eq!(rt; first.name.as_slice(), b"echo".as_slice());
    assert_eq!(rt; best(&[1, 3, 4], &menu, b"echo"), Some(3));
    assert_eq!(rt; best(&[1, 4], &menu, b"echo"), None);
    assert_eq!(rt; best(&[1, 3, 4], &menu, b"nope"), None);
    Ok(())
}

#[test]
fn sorts_a_menu_by_name_and_then_by_version(rt: HostRuntime) -> Result<(), Fail> {
    let text = "oneway b 1 both = unit\noneway a 10 both = unit\noneway B 7 both = unit\n\
        oneway a 9 both = unit\noneway aa 0 both = unit";
    let menu = Schema::read(rt.alloc(), text.as_bytes())?.menu_of(rt.alloc())?;
    let [one, two, three, four, five] = menu.entries.as_slice() else {
        return Err(Fail::new("another number of entries"));
    };
    assert_eq!(rt;
        [
            one.version,
            two.version,
            three.version,
            four.version,
            five.version
        ],
        [7, 9, 10, 0, 1]
    );
    Ok(())
}

#[test]
fn reads_a_menu(rt: HostRuntime) -> Result<(), Fail> {
    let desc = menu_desc(rt.alloc())?.copy(rt.alloc())?;
    assert_eq!(rt; desc.name.as_slice(), b"__Versioned_rpc.Menu".as_slice());
    desc.first.check()?;
    let value = read_value(rt.alloc(), &desc.first, b"[(\"echo\", 2); (\"echo\", 5)]")?;
    let menu = menu_from(rt.alloc(), &value)?;
    assert_eq!(rt; best(&[2], &menu, b"echo"), Some(2));
    assert_eq!(rt; best(&[3, 4], &menu, b"echo"), None);
    Ok(())
}

#[test]
fn reads_many_lines(rt: HostRuntime) -> Result<(), Fail> {
    let mut text = String::new(rt.alloc());
    for version in 0..10_000 {
        let line = format!(in rt.alloc();
            "plain echo {version} both = int list -> (string * int) list do const []\n"
        )?;
        text.push_str(line.as_str())?;
    }
    let schema = Schema::read(rt.alloc(), text.as_bytes())?;
    assert_eq!(rt; schema.entries().len(), 10_000);
    assert_eq!(rt; schema.menu_of(rt.alloc())?.entries.len(), 10_000);
    Ok(())
}
