use crate::*;
use std::alloc::{AllocError, Global};
use std::io::{BufWriter, Read, Write};
use std::test::Fail;

fn pieces(alloc: Global, texts: &[&[u8]]) -> Result<Vec<Vec<u8>>, AllocError> {
    let mut pieces = Vec::new(alloc);
    for text in texts {
        pieces.push(text.to_vec(alloc)?)?;
    }
    Ok(pieces)
}

// What is put into an empty wire, and what two gets of two bytes give.
fn put_and_get<W: Wire>(wire: &mut W, piece: &[u8]) -> (PutDone, Got, Got, [u8; 4]) {
    let mut into = [b'.'; 4];
    let done = wire.put(piece);
    let first = wire.get(&mut into[..2]);
    let second = wire.get(&mut into[2..]);
    (done, first, second, into)
}

#[test]
fn a_source_gives_its_pieces_in_turn_and_skips_empty_ones(rt: HostRuntime) -> Result<(), Fail> {
    let alloc = rt.alloc();
    let texts = pieces(alloc, &[b"ab", b"", b"cde"])?;
    let mut source = MemSource::new(alloc, texts, Vec::new(alloc));
    let mut into = [b'.'; 4];
    assert_eq!(rt; source.read(&mut into, Patience::Poll), ReadGot::Bytes(2));
    assert_eq!(rt; into, *b"ab..");
    assert_eq!(rt;
        source.read(&mut into[..2], Patience::Millis(5)),
        ReadGot::Bytes(2)
    );
    assert_eq!(rt; into, *b"cd..");
    assert_eq!(rt;
        source.read(&mut into, Patience::Forever),
        ReadGot::Bytes(1)
    );
    assert_eq!(rt; into, *b"ed..");
    assert!(rt; !source.is_ended());
    assert_eq!(rt; source.given(), 5);
    assert_eq!(rt; source.read(&mut into, Patience::Poll), ReadGot::End);
    assert_eq!(rt; into, *b"ed..");
    assert!(rt; source.is_ended());
    assert_eq!(rt; source.given(), 5);
    Ok(())
}

#[test]
fn a_failed_read_takes_nothing_and_is_counted(rt: HostRuntime) -> Result<(), Fail> {
    let alloc = rt.alloc();
    let fails = [1].to_vec(alloc)?;
    let mut source = MemSource::new(alloc, pieces(alloc, &[b"ab", b"c"])?, fails);
    let mut into = [b'.'; 4];
    assert_eq!(rt; source.read(&mut into, Patience::Poll), ReadGot::Bytes(2));
    assert_eq!(rt; source.faults(), 0);
    assert_eq!(rt; source.read(&mut into, Patience::Poll), ReadGot::Failed);
    assert_eq!(rt; source.faults(), 1);
    assert_eq!(rt; source.read(&mut into, Patience::Poll), ReadGot::Bytes(1));
    assert_eq!(rt; into, *b"cb..");
    assert_eq!(rt; source.faults(), 1);
    Ok(())
}

#[test]
fn a_sink_takes_what_fits_and_then_fails(rt: HostRuntime) -> Result<(), Fail> {
    let alloc = rt.alloc();
    let mut sink = MemSink::new(alloc, 3, Vec::new(alloc))?;
    assert_eq!(rt; sink.write(b"ab"), Wrote::Bytes(2));
    assert_eq!(rt; sink.write(b"cd"), Wrote::Bytes(1));
    assert_eq!(rt; sink.faults(), 0);
    assert_eq!(rt; sink.write(b"d"), Wrote::Failed);
    assert_eq!(rt; sink.faults(), 1);
    assert_eq!(rt; sink.bytes(), b"abc".as_slice());
    Ok(())
}

#[test]
fn writes_and_flushes_are_numbered_together(rt: HostRuntime) -> Result<(), Fail> {
    let alloc = rt.alloc();
    let mut sink = MemSink::new(alloc, 9, [1, 2].to_vec(alloc)?)?;
    assert_eq!(rt; sink.write(b"a"), Wrote::Bytes(1));
    assert_eq!(rt; Sink::finish(&mut &mut sink), Finished::Failed);
    assert_eq!(rt; sink.write(b"b"), Wrote::Failed);
    assert_eq!(rt; sink.finish(), Finished::Done);
    assert_eq!(rt; sink.faults(), 2);
    assert_eq!(rt; sink.bytes(), b"a".as_slice());
    Ok(())
}

#[test]
fn a_steady_sink_takes_every_piece_whole(rt: HostRuntime) {
    let mut sink = SteadySink::new();
    assert_eq!(rt; sink.write(b"abc"), Wrote::Bytes(3));
    assert_eq!(rt; sink.finish(), Finished::Done);
}

#[test]
fn honest_wires_give_what_was_put(rt: HostRuntime) {
    let alloc = rt.alloc();
    let want = (PutDone::Done, Got::Exact, Got::Less(1), *b"abc.");
    let mut wire = MemWire::new(alloc, Vec::new(alloc));
    assert_eq!(rt; put_and_get(&mut wire, b"abc"), want);
    assert_eq!(rt; wire.sent(), b"abc".as_slice());
    assert_eq!(rt; wire.given(), b"abc".as_slice());
    assert_eq!(rt; wire.faults(), 0);

    let mut steady = SteadyWire::new(alloc);
    assert_eq!(rt;
        put_and_get(&mut steady, b"abcd"),
        (PutDone::Done, Got::Exact, Got::Exact, *b"abcd")
    );
    assert_eq!(rt; steady.put(b"ef"), PutDone::Done);
    assert_eq!(rt; steady.sent(), b"abcdef".as_slice());
    assert_eq!(rt; steady.given(), b"abcd".as_slice());
}

#[test]
fn puts_and_gets_are_numbered_together(rt: HostRuntime) -> Result<(), Fail> {
    let alloc = rt.alloc();
    let mut wire = MemWire::new(alloc, [1, 3].to_vec(alloc)?);
    let mut into = [b'.'; 2];
    assert_eq!(rt; wire.put(b"ab"), PutDone::Done);
    assert_eq!(rt; wire.get(&mut into), Got::Failed);
    assert_eq!(rt; wire.get(&mut into[..1]), Got::Exact);
    assert_eq!(rt; wire.put(b"c"), PutDone::Failed);
    assert_eq!(rt; wire.get(&mut into), Got::Less(1));
    assert_eq!(rt; into, *b"b.");
    assert_eq!(rt; wire.sent(), b"ab".as_slice());
    assert_eq!(rt; wire.faults(), 2);
    Ok(())
}

#[test]
fn a_bent_wire_changes_one_byte(rt: HostRuntime) {
    let alloc = rt.alloc();
    let mut wire = BentWire::new(alloc, 2, b'j');
    assert_eq!(rt;
        put_and_get(&mut wire, b"abcd"),
        (PutDone::Done, Got::Exact, Got::Exact, *b"abjd")
    );
    assert_eq!(rt; wire.sent(), b"abcd".as_slice());
    let mut straight = BentWire::new(alloc, 1000, b'j');
    assert_eq!(rt;
        put_and_get(&mut straight, b"abc"),
        (PutDone::Done, Got::Exact, Got::Less(1), *b"abc.")
    );
}

#[test]
fn a_source_is_read_to_its_end(rt: HostRuntime) -> Result<(), Fail> {
    let alloc = rt.alloc();
    let mut source = SteadySource::new(alloc, pieces(alloc, &[b"ab", b"", b"cde"])?);
    let all = read_all(alloc, &mut source, 5)?;
    assert_eq!(rt; all.as_slice(), b"abcde".as_slice());
    assert!(rt; source.is_ended());
    assert_eq!(rt; source.given(), 5);
    let mut none = SteadySource::new(alloc, Vec::new(alloc));
    assert_eq!(rt; read_all(alloc, &mut &mut none, 0)?.len(), 0);
    Ok(())
}

// A source that gives its bytes only to a read that waits without end.
#[derive(Drop)]
struct Late {
    source: SteadySource,
}

impl Source for Late {
    ghost faults = { λ _. 0 };

    ghost given = { λ s. ⟦<SteadySource as Source>⟧.given s.source };

    ghost left = { λ s. ⟦<SteadySource as Source>⟧.left s.source };

    ghost ended = { λ s. ⟦<SteadySource as Source>⟧.ended s.source };

    fn read(&mut self, into: &mut [u8], patience: Patience) -> ReadGot {
        match patience {
            Patience::Forever => self.source.read(into, patience),
            Patience::Poll | Patience::Millis(_) => ReadGot::Idle,
        }
    }
}

#[test]
fn a_source_that_is_idle_to_all_but_forever_is_read_to_its_end(
    rt: HostRuntime,
) -> Result<(), Fail> {
    let alloc = rt.alloc();
    let mut late = Late {
        source: SteadySource::new(alloc, pieces(alloc, &[b"ab", b"c"])?),
    };
    let mut into = [b'.'; 4];
    assert_eq!(rt; late.read(&mut into, Patience::Poll), ReadGot::Idle);
    assert_eq!(rt;
        read_all(alloc, &mut late, 3)?.as_slice(),
        b"abc".as_slice()
    );
    Ok(())
}

#[test]
fn a_byte_too_many_or_a_failed_read_is_refused(rt: HostRuntime) -> Result<(), Fail> {
    let alloc = rt.alloc();
    let mut long = SteadySource::new(alloc, pieces(alloc, &[b"ab", b"cde"])?);
    assert_eq!(rt;
        read_all(alloc, &mut long, 4).err(),
        Some(ReadAllError::TooLong { max: 4 })
    );
    let texts = pieces(alloc, &[b"ab", b"cde"])?;
    let mut broken = MemSource::new(alloc, texts, [1].to_vec(alloc)?);
    assert_eq!(rt;
        read_all(alloc, &mut broken, 4).err(),
        Some(ReadAllError::ReadFault)
    );
    assert_eq!(rt; broken.faults(), 1);
    Ok(())
}

#[test]
fn a_piece_is_written_whole_or_up_to_the_fault(rt: HostRuntime) -> Result<(), Fail> {
    let alloc = rt.alloc();
    let mut sink = MemSink::new(alloc, 4, Vec::new(alloc))?;
    assert_eq!(rt; write_all(&mut sink, b"abc"), Ok(()));
    assert_eq!(rt;
        write_all(&mut &mut sink, b"de"),
        Err(WriteFault { written: 1 })
    );
    assert_eq!(rt; sink.bytes(), b"abcd".as_slice());
    Ok(())
}

// Whether all that a reader gives was written and flushed, of any reader and writer of std.
fn carry<T: Read + Drop, U: Write + Drop>(
    alloc: Global,
    from: T,
    to: U,
) -> Result<bool, ReadAllError> {
    let text = read_all(alloc, &mut StreamSource::new(from), 8)?;
    let mut sink = StreamSink::new(to);
    Ok(write_all(&mut sink, &text).is_ok() && sink.finish() == Finished::Done)
}

#[test]
fn a_reader_and_a_writer_of_any_kind_will_do(rt: HostRuntime) -> Result<(), Fail> {
    let alloc = rt.alloc();
    let mut bytes = b"abc".as_slice();
    let mut list = Vec::new(alloc);
    let reader: &mut dyn Read = &mut bytes;
    let writer: &mut dyn Write = &mut list;
    assert!(rt; carry(alloc, reader, writer)?);
    assert_eq!(rt; list.as_slice(), b"abc".as_slice());
    Ok(())
}

#[test]
fn readers_and_writers_of_std_are_sources_and_sinks(rt: HostRuntime) -> Result<(), Fail> {
    let alloc = rt.alloc();
    let mut source = StreamSource::new(b"abc".as_slice());
    assert_eq!(rt;
        read_all(alloc, &mut source, 3)?.as_slice(),
        b"abc".as_slice()
    );
    // The flush empties the writer's buffer.
    let mut buffered = BufWriter::new(alloc, Vec::new(alloc))?;
    let mut sink = StreamSink::new(&mut buffered);
    assert_eq!(rt; write_all(&mut sink, b"abc"), Ok(()));
    assert_eq!(rt; sink.finish(), Finished::Done);
    assert_eq!(rt; buffered.buffer().len(), 0);
    assert_eq!(rt; buffered.get_ref().as_slice(), b"abc".as_slice());
    Ok(())
}
