use super::{Faults, run_with};
use std::test::Fail;

/// A procedure's name, the program's own versions, hex of a menu, the status, and what is written.
type Row = (&'static str, &'static str, &'static str, u8, &'static str);

const MENUS: [Row; 12] = [
    (
        "echo",
        "1,3,4",
        "02046563686f02046563686f03",
        0,
        "\"echo\" 2\n\"echo\" 3\nchoice 3\n",
    ),
    (
        "echo",
        "1,3,4",
        "02 046563686F 02 046563686F 05\n",
        0,
        "\"echo\" 2\n\"echo\" 5\nchoice none\n",
    ),
    ("echo", "1,3,4", "00", 0, "choice none\n"),
    // An entry stands twice.
    (
        "echo",
        "2",
        "02046563686f02046563686f02",
        0,
        "\"echo\" 2\n\"echo\" 2\nchoice 2\n",
    ),
    // The greatest common version is neither the first of the menu nor that of one's own.
    (
        "echo",
        "5,7,6,1",
        "03046563686f06046563686f07046563686f09",
        0,
        "\"echo\" 6\n\"echo\" 7\n\"echo\" 9\nchoice 7\n",
    ),
    // The other name has the greater version.
    (
        "echo",
        "1,2",
        "02036c6f6702046563686f01",
        0,
        "\"log\" 2\n\"echo\" 1\nchoice 1\n",
    ),
    // Any name is looked for, and any version may stand in a menu.
    ("", "0", "0100ff9c", 0, "\"\" -100\nchoice none\n"),
    (
        "__Versioned_rpc.Menu",
        "4611686018427387903",
        "01145f5f56657273696f6e65645f7270632e4d656e75fcffffffffffffff3f",
        0,
        "\"__Versioned_rpc.Menu\" 4611686018427387903\nchoice 4611686018427387903\n",
    ),
    ("echo", "1", "0x", 1, "input: bad hex at 1\n"),
    ("echo", "1", "01046563686f", 1, "cut at 6\n"),
    ("echo", "1", "0000", 1, "trailing at 1\n"),
    ("echo", "1", "0100ff05", 1, "refused at 3: sign\n"),
];

#[test]
fn each_menu_has_its_lines_and_the_choice(rt: HostRuntime) -> Result<(), Fail> {
    let alloc = rt.alloc();
    for (name, own, hex, wanted, text) in MENUS {
        let faults = Faults::none(alloc);
        let words = ["menu", name, own];
        let (status, written) = run_with(alloc, &words, hex.as_bytes(), faults)?;
        assert_eq!(rt; status, wanted);
        assert_eq!(rt; written.as_slice(), text.as_bytes());
    }
    Ok(())
}

#[test]
fn words_that_are_no_versions_are_of_no_form(rt: HostRuntime) -> Result<(), Fail> {
    let alloc = rt.alloc();
    let usage =
        b"usage: rpc show SHAPE | write SHAPE | frames | menu NAME VERSIONS | replay | gen N\n";
    let words = [
        "",
        ",",
        "1,",
        ",1",
        "1,,2",
        "01",
        "-1",
        "+1",
        "1 ,2",
        "1;2",
        "x",
        "4611686018427387904",
    ];
    for own in words {
        let faults = Faults::none(alloc);
        let (status, written) = run_with(alloc, &["menu", "echo", own], b"00", faults)?;
        assert_eq!(rt; status, 2);
        assert_eq!(rt; written.as_slice(), usage.as_slice());
    }
    Ok(())
}

#[test]
fn a_menu_is_read_before_it_is_written(rt: HostRuntime) -> Result<(), Fail> {
    let alloc = rt.alloc();
    let faults = Faults {
        source: [0].to_vec(alloc)?,
        ..Faults::none(alloc)
    };
    let (status, written) = run_with(alloc, &["menu", "echo", "1"], b"00", faults)?;
    assert_eq!(rt; (status, written.len()), (3, 0));
    Ok(())
}
