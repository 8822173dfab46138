// Replays of whole exchanges, with the bytes cut anywhere.
use super::*;

/// Schedules in which `@` stands for all bytes, and `%` for nothing, in pieces of one size; and what
/// is written of each.
const EXCHANGES: [(&str, &str); 12] = [
    (
        "plain echo 1 both = string -> string\n--\nup @\ndown @\n\
        ask a echo 1 \"hi\"\nup 20%\nreply a \"hi\"\ndown 15%\n",
        "a id 0 echo 1\n  reply \"hi\"\nclient open\nserver open\nup 30 of 30\ndown 25 of 25\n",
    ),
    // The server's header has not come when the client asks.
    (
        "plain echo 1 both = string -> string\n--\nup @\n\
        ask a echo 1 \"hi\"\nup 20%\nreply a \"hi\"\ndown 15%\n",
        "line 4: not open\nline 6: no such label\nclient open\nserver open\n\
        up 10 of 10\ndown 10 of 10\n",
    ),
    // No handler has the procedure.
    (
        "plain nope 7 caller = unit -> unit\n--\nup @\ndown @\nask n nope 7 ()\nup @\ndown @\n",
        "n id 0 nope 7\n  failed unimplemented \"nope\" 7\nclient open\nserver open\n\
        up 28 of 28\ndown 32 of 32\n",
    ),
    // Two calls are answered in the other order.
    (
        "plain echo 1 both = string -> string\n--\nup @\ndown @\nask a echo 1 \"x\"\n\
        ask b echo 1 \"yz\"\nup @\nreply b \"yz\"\nreply a \"x\"\ndown @\n",
        "a id 0 echo 1\n  reply \"x\"\nb id 2 echo 1\n  reply \"yz\"\nclient open\nserver open\n\
        up 49 of 49\ndown 39 of 39\n",
    ),
    // The client chooses by the server's menu.
    (
        "plain echo 1 caller = string -> string\nplain echo 3 both = string -> string\n\
        plain echo 2 callee = string -> string\nplain echo 4 caller = string -> string\n--\n\
        up @\ndown @\nmenu m\nup @\ndown @\nbest a echo \"hi\"\nbest b nope \"x\"\nup @\n\
        reply a \"hi\"\ndown @\n",
        "line 12: no version\nm id 0 __Versioned_rpc.Menu 1\n  reply [(\"echo\", 2); (\"echo\", 3)]\n\
        a id 2 echo 3\n  reply \"hi\"\nclient open\nserver open\nup 64 of 64\ndown 50 of 50\n",
    ),
    // A one-way call is never answered, and what is answered all the same is dropped.
    (
        "oneway log 1 caller = string\n--\nup @\ndown @\nask o log 1 \"x\"\nup @\ndown @\n",
        "o id 1 log 1\n  sent\nclient open\nserver open\nup 28 of 28\ndown 31 of 31\n",
    ),
    (
        "plain echo 1 both = string -> string\n--\nup @\ndown @\n\
        ask a echo 1 \"hi\"\nup 20%\nfail a \"boom\"\ndown @\n",
        "a id 0 echo 1\n  failed uncaught \"boom\"\nclient open\nserver open\n\
        up 30 of 30\ndown 28 of 28\n",
    ),
    // A stream is aborted while its end is on the way.
    (
        "pipe each 1 both = int list -> int ! unit\n--\nup @\ndown @\nask p each 1 [1; 2]\nup @\n\
        begin p ()\nitem p 1\ndown @\nend p\nabort p\nup @\ndown @\n",
        "p id 0 each 1\n  first ()\n  item 1\n  aborted\nclient open\nserver open\n\
        up 56 of 56\ndown 59 of 59\n",
    ),
    // It fails, and then nothing is left to end.
    (
        "pipe each 1 both = int list -> int ! unit\n--\nup @\ndown @\nask p each 1 [1; 2]\nup @\n\
        begin p ()\nitem p 1\ndown @\nfail p \"x\"\nend p\nabort p\nup @\ndown @\n",
        "line 11: no such\np id 0 each 1\n  first ()\n  item 1\n  aborted\nclient open\nserver open\n\
        up 56 of 56\ndown 58 of 58\n",
    ),
    // Its handler goes on when the abort has come.
    (
        "pipe each 1 both = int list -> int ! unit\n--\nup @\ndown @\nask p each 1 [1; 2]\nup @\n\
        begin p ()\nitem p 1\ndown @\nitem p 2\nabort p\nup @\nitem p 3\nend p\ndown @\n",
        "line 13: stopped\nline 14: no such\np id 0 each 1\n  first ()\n  item 1\n  aborted\n\
        client open\nserver open\nup 56 of 56\ndown 77 of 77\n",
    ),
    // The input ends in the middle of a frame.
    (
        "pipe each 1 both = int list -> int ! unit\n--\nup @\ndown @\nask p each 1 [1; 2]\nup @\n\
        begin p ()\nitem p 1\ndown 32%\neof client\n",
        "p id 0 each 1\n  first ()\n  closed\nclient closed: end of input\nserver open\n\
        up 35 of 35\ndown 42 of 43\n",
    ),
    (
        "state book 1 both = unit -> string list, string ! string\n--\nup @\ndown @\n\
        ask s book 1 ()\nup @\ndecline s \"no\"\ndown @\n",
        "s id 0 book 1\n  declined \"no\"\nclient open\nserver open\nup 33 of 33\ndown 27 of 27\n",
    ),
];

/// The schedule with its movements in pieces of this size.
fn cut(alloc: Global, schedule: &str, by: u64) -> Result<String, Fail> {
    let size = format!(in alloc; " by {by}")?;
    let mut text = Vec::new(alloc);
    for byte in schedule.as_bytes() {
        match *byte {
            b'@' => {
                text.extend_from_slice(b"all")?;
                text.extend_from_slice(size.as_bytes())?;
            }
            b'%' => text.extend_from_slice(size.as_bytes())?,
            other => text.push(other)?,
        }
    }
    Ok(String::from_utf8(text)?)
}

#[test]
fn pieces_of_any_size_report_the_same(rt: HostRuntime) -> Result<(), Fail> {
    let alloc = rt.alloc();
    for (schedule, report) in EXCHANGES {
        for by in 1..=60 {
            let text = cut(alloc, schedule, by)?;
            let (status, written) = replay_text(alloc, &text)?;
            assert_eq!(rt; status, 0);
            assert_eq!(rt; written.as_slice(), report.as_bytes());
        }
    }
    Ok(())
}

/// A stream that is aborted while its end is on the way.
const STREAM: &str = "pipe each 1 both = int list -> int ! unit\n--\nup all\ndown all\n\
    ask p each 1 [1; 2]\nup all\nbegin p ()\nitem p 1\ndown all\nend p\nabort p\nup all\ndown all\n";

/// A header, the query, and its abort.
const STREAM_UP: &[u8] = b"\x02\0\0\0\0\0\0\0\x01\x01\
    \x11\0\0\0\0\0\0\0\x01\x04each\x01\0\x08\xD1\xF5\x2F\xE2\x03\x02\x01\x02\
    \x0D\0\0\0\0\0\0\0\x01\x04each\x01\0\x04\x21\x77\x4E\x5C";

/// A header, the first answer, the item, and the end.
const STREAM_DOWN: &[u8] = b"\x02\0\0\0\0\0\0\0\x01\x01\
    \x07\0\0\0\0\0\0\0\x02\0\0\x03\0\0\0\
    \x0A\0\0\0\0\0\0\0\x02\0\0\x06\x79\x8A\0\0\x01\x01\
    \x08\0\0\0\0\0\0\0\x02\0\0\x04\x39\x79\x69\0";

#[test]
fn a_stream_and_its_abort_are_these_bytes(rt: HostRuntime) -> Result<(), Fail> {
    let alloc = rt.alloc();
    let mut up = MemWire::new(alloc, Vec::new(alloc));
    let mut down = MemWire::new(alloc, Vec::new(alloc));
    let (status, _) = replay_over(alloc, STREAM, &mut up, &mut down)?;
    assert_eq!(rt; status, 0);
    assert_eq!(rt; up.sent(), STREAM_UP);
    assert_eq!(rt; up.given(), STREAM_UP);
    assert_eq!(rt; down.sent(), STREAM_DOWN);
    assert_eq!(rt; down.given(), STREAM_DOWN);
    Ok(())
}
