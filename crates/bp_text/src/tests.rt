use crate::cursor::Cursor;
use crate::token::Token;
use bp_value::OutOfMemory;
use std::alloc::Global;
use std::process::Abort;
use std::test::Fail;

/// The tokens, each with the bytes that are left, and whether the end leaves one open.
fn shown(alloc: Global, text: &[u8]) -> Result<String, Fail> {
    let mut line = String::new(alloc);
    let mut cursor = Cursor::new(alloc, text)?;
    for _ in 0..text.len() {
        if cursor.first().is_none() {
            break;
        }
        let left = cursor.left();
        let one = match taken(&mut cursor)? {
            Token::Word(word) => {
                let word = std::str::from_utf8(word).unwrap_or("no text");
                format!(in alloc; " word {word:?}:{left}")?
            }
            Token::Number(number) => format!(in alloc; " {number}:{left}")?,
            Token::Big => format!(in alloc; " big:{left}")?,
            Token::Text(bytes) => format!(in alloc; " text {bytes:?}:{left}")?,
            Token::Char(byte) => format!(in alloc; " char {byte}:{left}")?,
            Token::Mark(byte) => format!(in alloc; " mark {byte}:{left}")?,
            Token::Wrong => format!(in alloc; " wrong:{left}")?,
            Token::OpenText => format!(in alloc; " open text:{left}")?,
            Token::OpenChar => format!(in alloc; " open char:{left}")?,
        };
        line.push_str(one.as_str())?;
    }
    if cursor.is_open() {
        line.push_str(" open")?;
    }
    Ok(line)
}

/// The first token.
fn taken<'a>(cursor: &mut Cursor<'a>) -> Result<Token<'a>, OutOfMemory> {
    match cursor.take() {
        Ok(token) => Ok(token),
        Err(_) => Err(OutOfMemory),
    }
}

/// Each text has these tokens.
fn check(rt: &impl Abort, alloc: Global, rows: &[(&[u8], &str)]) -> Result<(), Fail> {
    for (text, want) in rows {
        assert_eq!(rt; shown(alloc, text)?.as_str(), *want);
    }
    Ok(())
}

#[test]
fn words_numbers_and_marks(rt: HostRuntime) -> Result<(), Fail> {
    check(
        &rt,
        rt.alloc(),
        &[
            (b"  ", ""),
            (b" int  list ", r#" word "int":10 word "list":5"#),
            (b"int\tlist", r#" word "int":8 wrong:5"#),
            (b"a_1' _x Z", r#" word "a_1'":9 word "_x":4 word "Z":1"#),
            (b"5x", r#" 5:2 word "x":1"#),
            (b"x-5", r#" word "x":3 -5:2"#),
            (b"-9223372036854775808", " -9223372036854775808:20"),
            (b"9223372036854775808", " big:19"),
            (b"007", " wrong:3"),
            (b"-0", " wrong:2"),
            (b"- 1", " wrong:3"),
            (
                b";|,:=*`!",
                " mark 59:8 mark 124:7 mark 44:6 mark 58:5 mark 61:4 mark 42:3 mark 96:2 mark 33:1",
            ),
            (b"a.b", r#" word "a":3 wrong:2"#),
        ],
    )
}

#[test]
fn texts_and_chars(rt: HostRuntime) -> Result<(), Fail> {
    check(
        &rt,
        rt.alloc(),
        &[
            (br#""\"\'\\'""#, r#" text "\"'\\'":9"#),
            (br#""\x41\x0a\xFe""#, " text 0x410afe:14"),
            (br#""\q" 1"#, " wrong:6"),
            (b"\"\x7F\"", " wrong:3"),
            (b"'a' 'b'", " char 97:7 char 98:3"),
            (br"'\''", " char 39:4"),
            (b"''", " wrong:2"),
            (br#"x "abc"#, r#" word "x":6 text "":4 open"#),
            (br#""\q"#, " wrong:3"),
            (b"'a", " char 0:2 open"),
            (b"'ab", " wrong:3"),
        ],
    )
}
