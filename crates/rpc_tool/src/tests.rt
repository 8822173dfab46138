use crate::{run, trouble};
use bp_base::{BentWire, MemSink, MemSource, MemWire, Wire};
use std::alloc::{AllocError, Global};
use std::test::Fail;

mod menus;
mod replays;
mod streams;
mod values;

const SCHEDULE: &str = "plain echo 1 both = string -> string\n--\nup all\ndown all\n\
    ask a echo 1 \"hi\"\nup 20 by 1\nreply a \"hi\"\ndown 15 by 1\n";

const REPORT: &str = "a id 0 echo 1\n  reply \"hi\"\nclient open\nserver open\n\
    up 30 of 30\ndown 25 of 25\n";

/// A header, and the query of `echo` 1 with the text `hi`.
const UP_STREAM: &[u8] = b"\x02\0\0\0\0\0\0\0\x01\x01\
    \x0C\0\0\0\0\0\0\0\x01\x04echo\x01\0\x03\x02hi";

/// A header, and the response with the text `hi`.
const DOWN_STREAM: &[u8] = b"\x02\0\0\0\0\0\0\0\x01\x01\
    \x07\0\0\0\0\0\0\0\x02\0\0\x03\x02hi";

/// The numbers of the calls that fail, of each object of a run.
#[derive(Drop)]
struct Faults {
    source: Vec<u64>,
    sink: Vec<u64>,
    up: Vec<u64>,
    down: Vec<u64>,
}

impl Faults {
    fn none(alloc: Global) -> Self {
        Faults {
            source: Vec::new(alloc),
            sink: Vec::new(alloc),
            up: Vec::new(alloc),
            down: Vec::new(alloc),
        }
    }
}

fn words(alloc: Global, texts: &[&str]) -> Result<Vec<String>, AllocError> {
    let mut words = Vec::new(alloc);
    for text in texts {
        words.push(String::from_str(alloc, text)?)?;
    }
    Ok(words)
}

fn source(alloc: Global, text: &[u8], fails: Vec<u64>) -> Result<MemSource, AllocError> {
    let mut pieces = Vec::new(alloc);
    pieces.push(text.to_vec(alloc)?)?;
    Ok(MemSource::new(alloc, pieces, fails))
}

/// The status of a replay of the text over two wires, and what it writes.
fn replay_over<W: Wire>(
    alloc: Global,
    text: &str,
    up: &mut W,
    down: &mut W,
) -> Result<(u8, Vec<u8>), Fail> {
    let words = words(alloc, &["replay"])?;
    let mut input = source(alloc, text.as_bytes(), Vec::new(alloc))?;
    let mut out = MemSink::new(alloc, 4096, Vec::new(alloc))?;
    let status = run(alloc, &words, &mut input, &mut out, up, down);
    Ok((status, out.bytes().to_vec(alloc)?))
}

/// The status of a run with some faults, and what it writes.
fn run_with(
    alloc: Global,
    texts: &[&str],
    input: &[u8],
    faults: Faults,
) -> Result<(u8, Vec<u8>), Fail> {
    let words = words(alloc, texts)?;
    let mut input = source(alloc, input, faults.source)?;
    let mut out = MemSink::new(alloc, 4096, faults.sink)?;
    let mut up = MemWire::new(alloc, faults.up);
    let mut down = MemWire::new(alloc, faults.down);
    let status = run(alloc, &words, &mut input, &mut out, &mut up, &mut down);
    Ok((status, out.bytes().to_vec(alloc)?))
}

/// The status of a replay of the text over two honest wires, and what it writes.
fn replay_text(alloc: Global, text: &str) -> Result<(u8, Vec<u8>), Fail> {
    run_with(alloc, &["replay"], text.as_bytes(), Faults::none(alloc))
}

/// The status of a replay of the schedule with some faults, and what it writes.
fn replay_with(alloc: Global, faults: Faults) -> Result<(u8, Vec<u8>), Fail> {
    run_with(alloc, &["replay"], SCHEDULE.as_bytes(), faults)
}

#[test]
fn honest_wires_carry_a_call_and_its_reply(rt: HostRuntime) -> Result<(), Fail> {
    let alloc = rt.alloc();
    let mut up = MemWire::new(alloc, Vec::new(alloc));
    let mut down = MemWire::new(alloc, Vec::new(alloc));
    let (status, written) = replay_over(alloc, SCHEDULE, &mut up, &mut down)?;
    assert_eq!(rt; status, 0);
    assert_eq!(rt; written.as_slice(), REPORT.as_bytes());
    assert_eq!(rt; up.sent(), UP_STREAM);
    assert_eq!(rt; up.given(), UP_STREAM);
    assert_eq!(rt; down.sent(), DOWN_STREAM);
    assert_eq!(rt; down.given(), DOWN_STREAM);
    Ok(())
}

#[test]
fn answers_each_input_by_its_status_and_text(rt: HostRuntime) -> Result<(), Fail> {
    let rows = [
        // More is asked for than is in flight.
        (
            "plain echo 1 both = string -> string\n--\nup all\ndown all\n\
            ask a echo 1 \"hi\"\nup 999999\nreply a \"hi\"\ndown 999999\n",
            0,
            REPORT,
        ),
        // The last line has no newline.
        (
            "plain echo 1 both = string -> string\n--\nup all\ndown all\n\
            ask a echo 1 \"hi\"\nup 20 by 1\nreply a \"hi\"\ndown 15 by 1",
            0,
            REPORT,
        ),
        // The response stays in flight, which is shown twice.
        (
            "plain echo 1 both = string -> string\n--\nup all\ndown all\n\
            ask a echo 1 \"hi\"\nup 20 by 1\nreply a \"hi\"\nshow a\n",
            0,
            "a id 0 echo 1\n  waiting\na id 0 echo 1\n  waiting\nclient open\nserver open\n\
            up 30 of 30\ndown 10 of 25\n",
        ),
        // The last byte of the client's header stays in flight.
        (
            "plain echo 1 both = string -> string\n--\nup 9\n",
            0,
            "client opening\nserver opening\nup 9 of 10\ndown 0 of 10\n",
        ),
        // The shape begins at the place 30 of its line.
        (
            "plain echo 1 both = string -> strin\n--\nup all\n",
            1,
            "line 1: refused at 30\n",
        ),
        (
            "plain echo 1 both = string -> string\noneway echo 1 both = unit\n--\nup all\n",
            1,
            "line 2: twice\n",
        ),
        // The mark between the schema and the events is missing.
        ("", 1, "line 1: refused at 0\n"),
    ];
    for (text, status, report) in rows {
        let (answer, written) = replay_text(rt.alloc(), text)?;
        assert_eq!(rt; answer, status);
        assert_eq!(rt; written.as_slice(), report.as_bytes());
    }
    Ok(())
}

#[test]
fn bent_wires_are_reported_by_what_they_gave(rt: HostRuntime) -> Result<(), Fail> {
    let alloc = rt.alloc();
    // Which byte of each wire comes as another, and the report. There is no byte 1000.
    let rows = [
        // The last letter of the response.
        (
            (1000, 0x6A),
            (24, 0x6A),
            "a id 0 echo 1\n  reply \"hj\"\nclient open\nserver open\nup 30 of 30\ndown 25 of 25\n",
        ),
        // The response's length is 255, and the client waits for the rest.
        (
            (1000, 0x6A),
            (10, 0xFF),
            "a id 0 echo 1\n  waiting\nclient open\nserver open\nup 30 of 30\ndown 25 of 25\n",
        ),
        // The response's length is above that of any message.
        (
            (1000, 0x6A),
            (13, 0xFF),
            "a id 0 echo 1\n  closed\nclient closed: frame too long at 13\nserver open\n\
            up 30 of 30\ndown 14 of 25\n",
        ),
        // The query is a response, to the id 4, that is of no case.
        (
            (18, 2),
            (1000, 0x6A),
            "line 7: closed\na id 0 echo 1\n  waiting\nclient open\n\
            server closed: message refused at 20: case\nup 30 of 30\ndown 10 of 10\n",
        ),
        // The server's header has another version alone.
        (
            (1000, 0x6A),
            (9, 2),
            "line 5: closed\nline 7: no such label\nclient closed: no common protocol\n\
            server open\nup 10 of 10\ndown 10 of 10\n",
        ),
    ];
    for ((up_at, up_byte), (down_at, down_byte), report) in rows {
        let mut up = BentWire::new(alloc, up_at, up_byte);
        let mut down = BentWire::new(alloc, down_at, down_byte);
        let (status, written) = replay_over(alloc, SCHEDULE, &mut up, &mut down)?;
        assert_eq!(rt; status, 0);
        assert_eq!(rt; written.as_slice(), report.as_bytes());
    }
    Ok(())
}

#[test]
fn a_failed_read_or_wire_call_writes_nothing(rt: HostRuntime) -> Result<(), Fail> {
    let alloc = rt.alloc();
    // One read gives the input, and the next its end.
    for call in 0..2 {
        let fails = [call].to_vec(alloc)?;
        let (status, written) = replay_with(
            alloc,
            Faults {
                source: fails,
                ..Faults::none(alloc)
            },
        )?;
        assert_eq!(rt; (status, written.len()), (3, 0));
    }
    // A put of the header and of the query, a get of the header, and one of each byte of the query.
    for call in 0..23 {
        let fails = [call].to_vec(alloc)?;
        let (status, written) = replay_with(
            alloc,
            Faults {
                up: fails,
                ..Faults::none(alloc)
            },
        )?;
        assert_eq!(rt; (status, written.len()), (5, 0));
    }
    // The same of the response.
    for call in 0..18 {
        let fails = [call].to_vec(alloc)?;
        let (status, written) = replay_with(
            alloc,
            Faults {
                down: fails,
                ..Faults::none(alloc)
            },
        )?;
        assert_eq!(rt; (status, written.len()), (5, 0));
    }
    // There are no further calls.
    let faults = Faults {
        source: [2].to_vec(alloc)?,
        sink: [2].to_vec(alloc)?,
        up: [23].to_vec(alloc)?,
        down: [18].to_vec(alloc)?,
    };
    assert_eq!(rt; replay_with(alloc, faults)?.0, 0);
    Ok(())
}

#[test]
fn a_failed_write_leaves_a_front_of_the_report(rt: HostRuntime) -> Result<(), Fail> {
    let alloc = rt.alloc();
    // The write of the report, and the flush.
    for (call, count) in [(0, 0), (1, REPORT.len())] {
        let fails = [call].to_vec(alloc)?;
        let (status, written) = replay_with(
            alloc,
            Faults {
                sink: fails,
                ..Faults::none(alloc)
            },
        )?;
        assert_eq!(rt; status, 4);
        assert_eq!(rt; written.len(), count);
        assert!(rt; REPORT.as_bytes().starts_with(&written));
    }
    Ok(())
}

#[test]
fn refuses_other_words_and_too_long_an_input(rt: HostRuntime) -> Result<(), Fail> {
    let alloc = rt.alloc();
    let usage =
        b"usage: rpc show SHAPE | write SHAPE | frames | menu NAME VERSIONS | replay | gen N\n";
    let commands: [(&[&str], usize, u8, &[u8]); 5] = [
        (&[], 0, 2, usage),
        (&["show"], 0, 2, usage),
        (&["Replay"], 0, 2, usage),
        (&["replay", "replay"], 0, 2, usage),
        (&["replay"], (1 << 26) + 1, 7, b""),
    ];
    for (texts, length, status, report) in commands {
        let text = vec![in alloc; b'a'; length]?;
        let (answer, written) = run_with(alloc, texts, &text, Faults::none(alloc))?;
        assert_eq!(rt; answer, status);
        assert_eq!(rt; written.as_slice(), report);
    }
    Ok(())
}

#[test]
fn tells_of_trouble_in_one_line(rt: HostRuntime) {
    let lines = [
        (2, None),
        (3, Some("reading the input failed")),
        (4, Some("writing failed")),
        (5, None),
        (6, Some("out of memory")),
        (7, Some("more than 67108864 bytes of input")),
    ];
    for (code, line) in lines {
        assert_eq!(rt; trouble(code), line, "at {code}");
    }
}
