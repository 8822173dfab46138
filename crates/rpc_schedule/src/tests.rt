use super::*;
use std::alloc::Global;
use std::test::Fail;

/// A call whose query and answer come in pieces of one byte.
const CALL: &str = "plain echo 1 both = string -> string\n\
    --\n\
    up all\n\
    down all\n\
    ask a echo 1 \"hi\"\n\
    up 20 by 1\n\
    reply a \"hi\"\n\
    down 15 by 1\n";

/// A stream whose end is on the way while it is aborted.
const STREAM: &str = "pipe each 1 both = int list -> int ! unit\n\
    --\n\
    up all\n\
    down all\n\
    ask p each 1 [1; 2]\n\
    up all\n\
    begin p ()\n\
    item p 1\n\
    down all\n\
    end p\n\
    abort p\n\
    up all\n\
    down all";

/// The best versions by a menu.
const MENU: &str = "plain echo 1 caller = string -> string\n\
    plain echo 3 both = string -> string\n\
    plain echo 2 callee = string -> string\n\
    plain echo 4 caller = string -> string\n\
    --\n\
    up all\n\
    down all\n\
    menu m\n\
    up all\n\
    down all\n\
    best a echo \"hi\"\n\
    best b nope \"x\"\n\
    up all\n\
    reply a \"hi\"\n\
    down all\n";

/// The first word of the event's line.
fn word(event: &Event) -> &'static str {
    match event {
        Event::Ask { .. } => "ask",
        Event::Menu { .. } => "menu",
        Event::Best { .. } => "best",
        Event::Abort { .. } => "abort",
        Event::Reply { .. } => "reply",
        Event::Begin { .. } => "begin",
        Event::Decline { .. } => "decline",
        Event::Item { .. } => "item",
        Event::Fail { .. } => "fail",
        Event::End { .. } => "end",
        Event::Up { .. } => "up",
        Event::Down { .. } => "down",
        Event::At { .. } => "at",
        Event::CloseClient => "close client",
        Event::CloseServer => "close server",
        Event::EofClient => "eof client",
        Event::EofServer => "eof server",
        Event::Show { .. } => "show",
    }
}

/// The lines of the events, and their first words.
fn outline(alloc: Global, schedule: &Schedule) -> Result<String, Fail> {
    let mut text = String::new(alloc);
    for lined in schedule.events.as_slice() {
        let part = format!(in alloc; "{} {};", lined.line, word(&lined.event))?;
        text.push_str(part.as_str())?;
    }
    Ok(text)
}

fn is_up(lined: &Lined, line: u64, count: Option<u64>, by: u64) -> bool {
    lined.line == line
        && match &lined.event {
            Event::Up { count: n, by: m } => *n == count && *m == by,
            _ => false,
        }
}

fn is_down(lined: &Lined, line: u64, count: Option<u64>, by: u64) -> bool {
    lined.line == line
        && match &lined.event {
            Event::Down { count: n, by: m } => *n == count && *m == by,
            _ => false,
        }
}

fn is_ask(event: &Event, label: &[u8], name: &[u8], version: i64, text: &[u8]) -> bool {
    match event {
        Event::Ask {
            label: l,
            name: n,
            version: v,
            text: t,
        } => {
            l.as_slice() == label && n.as_slice() == name && *v == version && t.as_slice() == text
        }
        _ => false,
    }
}

#[test]
fn reads_a_call(rt: HostRuntime) -> Result<(), Fail> {
    let schedule = Schedule::read(rt.alloc(), CALL.as_bytes())?;
    assert_eq!(rt; schedule.schema.entries().len(), 1);
    let [up, down, ask, rest @ ..] = schedule.events.as_slice() else {
        return Err(Fail::new("too few events"));
    };
    let [piece, reply, last] = rest else {
        return Err(Fail::new("another number of events"));
    };
    assert!(rt; is_up(up, 3, None, 65536));
    assert!(rt; is_down(down, 4, None, 65536));
    assert_eq!(rt; ask.line, 5);
    assert!(rt; is_ask(&ask.event, b"a", b"echo", 1, b"\"hi\""));
    assert!(rt; is_up(piece, 6, Some(20), 1));
    assert_eq!(rt; reply.line, 7);
    assert!(rt; matches!(&reply.event, Event::Reply { .. }));
    assert!(rt; is_down(last, 8, Some(15), 1));
    Ok(())
}

#[test]
fn reads_a_stream(rt: HostRuntime) -> Result<(), Fail> {
    let schedule = Schedule::read(rt.alloc(), STREAM.as_bytes())?;
    assert_eq!(rt;
        outline(rt.alloc(), &schedule)?.as_str(),
        "3 up;4 down;5 ask;6 up;7 begin;8 item;9 down;10 end;11 abort;12 up;13 down;"
    );
    Ok(())
}

#[test]
fn reads_a_menu_and_the_best(rt: HostRuntime) -> Result<(), Fail> {
    let schedule = Schedule::read(rt.alloc(), MENU.as_bytes())?;
    assert_eq!(rt; schedule.schema.entries().len(), 4);
    assert_eq!(rt;
        outline(rt.alloc(), &schedule)?.as_str(),
        "6 up;7 down;8 menu;9 up;10 down;11 best;12 best;13 up;14 reply;15 down;"
    );
    Ok(())
}

#[test]
fn reads_the_other_events(rt: HostRuntime) -> Result<(), Fail> {
    let text = "--\n#\ndown all by 7\n\ndown 5\nat 0\nclose client\nclose server\n\
        eof client\neof server\n show  p \ndecline p\nfail p \"x\"";
    let schedule = Schedule::read(rt.alloc(), text.as_bytes())?;
    assert_eq!(rt;
        outline(rt.alloc(), &schedule)?.as_str(),
        "3 down;5 down;6 at;7 close client;8 close server;9 eof client;10 eof server;11 show;\
         12 decline;13 fail;"
    );
    let [all, five, at, ..] = schedule.events.as_slice() else {
        return Err(Fail::new("too few events"));
    };
    assert!(rt; is_down(all, 3, None, 7));
    assert!(rt; is_down(five, 5, Some(5), 65536));
    assert!(rt; matches!(&at.event, Event::At { now: 0 }));
    Ok(())
}

#[test]
fn keeps_the_texts_of_values(rt: HostRuntime) -> Result<(), Fail> {
    let text = "--\nbest a echo  \"hi\" \ndecline p\nfail p \"x\\\"\"";
    let schedule = Schedule::read(rt.alloc(), text.as_bytes())?;
    let [best, decline, fail] = schedule.events.as_slice() else {
        return Err(Fail::new("another number of events"));
    };
    assert!(rt;
        matches!(&best.event, Event::Best { text, .. } if text.as_slice() == b"\"hi\" ".as_slice())
    );
    assert!(rt; matches!(&decline.event, Event::Decline { text, .. } if text.is_empty()));
    assert!(rt;
        matches!(&fail.event, Event::Fail { text, .. } if text.as_slice() == b"x\"".as_slice())
    );
    Ok(())
}

#[test]
fn refuses_a_line_at_its_place(rt: HostRuntime) -> Result<(), Fail> {
    let lines = [
        ("up all by 0", 10),
        ("up 007", 3),
        ("up", 2),
        ("up 5 6", 5),
        ("down 5 by", 9),
        ("down all by 65537", 12),
        ("at 4611686018427387904", 3),
        ("ask a echo x \"hi\"", 11),
        ("ask a echo", 10),
        ("ask 5a echo 1 \"hi\"", 4),
        ("best a __Versioned_rpc.Menu ()", 7),
        ("menu a b", 7),
        ("fail p x", 7),
        ("fail p \"x", 9),
        ("fail p \"x\" y", 11),
        ("close all", 6),
        ("upp all", 0),
        ("--", 0),
        ("end\tp", 3),
        (" ", 1),
    ];
    for (line, at) in lines {
        let text = format!(in rt.alloc(); "--\n#\n{line}\n")?;
        let refusal = Schedule::read(rt.alloc(), text.as_bytes()).err();
        assert_eq!(rt;
            refusal,
            Some(ScheduleError::BadLine { line: 3, at }),
            "at {line}"
        );
    }
    Ok(())
}

#[test]
fn refuses_a_schema_and_a_missing_mark(rt: HostRuntime) -> Result<(), Fail> {
    let texts = [
        ("", ScheduleError::BadLine { line: 1, at: 0 }),
        (
            "plain a 1 both = unit -> unit\n",
            ScheduleError::BadLine { line: 2, at: 0 },
        ),
        (
            "plain a 1 both = unit -> unit\n#\n -- \nup",
            ScheduleError::BadLine { line: 3, at: 1 },
        ),
        (
            "plain a 1 both = unit -> unit\nplain a 1 both = unit -> unit\n--\nup",
            ScheduleError::Twice { line: 2 },
        ),
    ];
    for (text, error) in texts {
        let refusal = Schedule::read(rt.alloc(), text.as_bytes()).err();
        assert_eq!(rt; refusal, Some(error), "at {text}");
    }
    Ok(())
}
