// Std's readers and writers as sources and sinks.
ghost use Rattle.std.specs.Prelude.{◌≡◌, ℕ, None, false};
ghost use Rattle.bp_base.specs.Told.{StillTells, at_first, told_since};

use crate::{Finished, Patience, ReadGot, Sink, Source, Wrote};
use std::io::{Read, Write};
use std::mem::ManuallyDrop;
use std::snapshot::Snapshot;

/// How many bytes a read asks of its stream at most.
const CHUNK: usize = 8 * 1024;

/// A reader of std as a source. It keeps a count of its faults, and takes every patience as
/// `Forever`.
#[derive(Drop)]
pub struct StreamSource<T: Read> {
    stream: T,
    // The reader as it was at first, for contracts alone.
    first: ManuallyDrop<Snapshot<T>>,
    ended: bool,
    faults: u64,
    ghost still: { StillTells (T.remaining (at_first first)) (T.remaining stream) },
}

impl<T: Read> StreamSource<T> {
    /// A source over any reader. One that tells contracts nothing at first may tell the bytes that
    /// remain after some reads; the source goes on to tell nothing.
    pub fn new(stream: T) -> Self
        ensures left { ⟦<StreamSource<T> as Source>⟧.left result ≡ T.remaining stream }
        ensures ended { ⟦<StreamSource<T> as Source>⟧.ended result ≡ false }
        ensures faults { ⟦<StreamSource<T> as Source>⟧.faults result ≡ 0 }
    {
        StreamSource {
            first: ManuallyDrop::new(Snapshot::of(&stream)),
            stream,
            ended: false,
            faults: 0,
        }
    }
}

impl<T: Read> Source for StreamSource<T> {
    ghost faults = { λ s. s.faults };

    ghost given = { λ _. None };

    ghost left = { λ s. told_since (T.remaining (at_first s.first)) (T.remaining s.stream) };

    ghost ended = { λ s. s.ended };

    fn read(&mut self, into: &mut [u8], _patience: Patience) -> ReadGot {
        // A reader may write behind the bytes that it gives, so it gets a buffer of its own.
        let mut chunk = [0; CHUNK];
        let room = into.len().min(CHUNK);
        match self.stream.read(&mut chunk[..room]) {
            Ok(0) => {
                self.ended = true;
                ReadGot::End
            }
            Ok(count) => {
                into[..count].copy_from_slice(&chunk[..count]);
                ReadGot::Bytes(count)
            }
            Err(_) => {
                self.faults = self.faults.saturating_add(1);
                ReadGot::Failed
            }
        }
    }
}

/// A writer of std as a sink. It keeps a count of its faults; a write that takes nothing is one.
#[derive(Drop)]
pub struct StreamSink<T: Write> {
    stream: T,
    // The writer as it was at first, for contracts alone.
    first: ManuallyDrop<Snapshot<T>>,
    faults: u64,
    ghost still: { StillTells (T.contents (at_first first)) (T.contents stream) },
}

impl<T: Write> StreamSink<T> {
    /// A sink over any writer. One that tells contracts nothing at first may tell what it holds
    /// after some writes; the sink goes on to tell nothing.
    pub fn new(stream: T) -> Self
        ensures put { ⟦<StreamSink<T> as Sink>⟧.put result ≡ T.contents stream }
        ensures faults { ⟦<StreamSink<T> as Sink>⟧.faults result ≡ 0 }
    {
        StreamSink {
            first: ManuallyDrop::new(Snapshot::of(&stream)),
            stream,
            faults: 0,
        }
    }
}

impl<T: Write> Sink for StreamSink<T> {
    ghost faults = { λ s. s.faults };

    ghost put = { λ s. told_since (T.contents (at_first s.first)) (T.contents s.stream) };

    fn write(&mut self, piece: &[u8]) -> Wrote {
        match self.stream.write(piece) {
            Ok(count) if count > 0 => Wrote::Bytes(count),
            _ => {
                self.faults = self.faults.saturating_add(1);
                Wrote::Failed
            }
        }
    }

    fn finish(&mut self) -> Finished {
        match self.stream.flush() {
            Ok(()) => Finished::Done,
            Err(_) => {
                self.faults = self.faults.saturating_add(1);
                Finished::Failed
            }
        }
    }
}
