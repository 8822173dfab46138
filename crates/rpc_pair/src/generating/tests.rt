use super::*;
use rpc_schedule::{Lined, Schedule};
use std::test::Fail;

/// The first block from the number 1 on, with what stands before it.
const BLOCK: &str = "plain echo 1 both = string -> string\n\
    oneway log 1 both = string\n\
    pipe each 1 both = int list -> int ! unit\n\
    state book 1 both = unit -> string list, string ! unit\n\
    --\n\
    up all\n\
    down all\n\
    ask d1 echo 1 \"aaaaaaaaaaaaaaaaaaaaaaaaaaaaaaaaaaaaaaaaaaaaaaaaaaaaaaaaaaaaaaaaaaaaaaaaaa\"\n\
    up 22 by 2\n\
    ask d2 log 1 \"n\"\n\
    up 25 by 2\n\
    ask d3 each 1 [0; 1; 2]\n\
    up 12 by 2\n\
    ask d4 book 1 ()\n\
    up 38 by 3\n\
    ask d5 echo 1 \"aaaaaaaaaaaaaaaaaaaaaaaaaaaaaaaaaa\"\n\
    up 26 by 6\n\
    ask d6 log 1 \"n\"\n\
    up 51 by 2\n\
    ask d7 each 1 [0; 1]\n\
    up 26 by 4\n\
    ask d8 book 1 ()\n\
    up 54 by 4\n\
    ask d9 echo 1 \"aaaaaaaaaaaaaaaaaaaaaaaaaaaaaaaaaaaaaaaaaaaaaaaaaaaaaaaaaaaaaaaaaaaaaaaaaa\
    aaaaaaaaaaaaaaa\"\n\
    up 41 by 6\n\
    ask d10 log 1 \"n\"\n\
    up 58 by 5\n\
    up all by 5\n\
    reply d9 \"aaaaaaaaaaaaaaaaaaaaaaaaaaaaaaaaaaaaaaaaaaaaaaaaaaaaaaaaaaaaaaaaaaaaaaaaaaaaaaa\
    aaaaaaaaaa\"\n\
    begin d8 []\n\
    item d8 \"u\"\n\
    item d8 \"u\"\n\
    item d8 \"u\"\n\
    begin d7 ()\n\
    item d7 0\n\
    item d7 1\n\
    end d7\n\
    reply d5 \"aaaaaaaaaaaaaaaaaaaaaaaaaaaaaaaaaa\"\n\
    begin d4 []\n\
    item d4 \"u\"\n\
    item d4 \"u\"\n\
    item d4 \"u\"\n\
    begin d3 ()\n\
    item d3 0\n\
    item d3 1\n\
    item d3 2\n\
    end d3\n\
    reply d1 \"aaaaaaaaaaaaaaaaaaaaaaaaaaaaaaaaaaaaaaaaaaaaaaaaaaaaaaaaaaaaaaaaaaaaaaaaaa\"\n\
    down all by 5\n\
    item d4 \"v\"\n\
    abort d4\n\
    item d8 \"v\"\n\
    abort d8";

/// The events as they are printed.
fn printed(alloc: Global, events: &[Lined]) -> Result<String, Fail> {
    Ok(format!(in alloc; "{events:?}")?)
}

#[test]
fn the_first_block_is_that_of_its_text(rt: HostRuntime) -> Result<(), Fail> {
    let alloc = rt.alloc();
    let Ok(wanted) = Schedule::read(alloc, BLOCK.as_bytes()) else {
        return Err(Fail::new("the text is refused"));
    };
    let made = generate(alloc, 1)?;
    let Some(front) = made.events.as_slice().get(..wanted.events.len()) else {
        return Err(Fail::new("events are missing"));
    };
    assert_eq!(rt;
        printed(alloc, front)?,
        printed(alloc, wanted.events.as_slice())?
    );
    assert_eq!(rt;
        format!(in alloc; "{:?}", made.schema)?,
        format!(in alloc; "{:?}", wanted.schema)?
    );
    Ok(())
}

#[test]
fn every_run_has_as_many_events(rt: HostRuntime) -> Result<(), Fail> {
    let alloc = rt.alloc();
    for n in [0, 1, 999_999] {
        let made = generate(alloc, n)?;
        assert_eq!(rt; made.schema.entries().len(), 4);
        assert_eq!(rt; made.events.len(), 19_804);
        let Some(last) = made.events.as_slice().last() else {
            return Err(Fail::new("there are no events"));
        };
        assert_eq!(rt; last.line, 19_809);
    }
    Ok(())
}
