// Sinks in memory.
ghost use Rattle.std.specs.Prelude.{◌≡◌, ◌+◌, ◌-◌, ◌≤◌, ◌++◌, [], ℕ, min, None, Some, IfOk, length, take, vec_len};

use crate::calls::Calls;
use crate::{Finished, OutOfMemory, Sink, Wrote};
use std::alloc::Global;

/// A sink in memory with room for so many bytes, some of whose calls fail.
#[derive(Drop)]
pub struct MemSink {
    buffer: Vec<u8>,
    len: usize,
    calls: Calls,
    ghost within: { len ≤ vec_len buffer },
}

impl MemSink {
    ghost use Rattle.bp_base.specs.Forms.{sink_calls, room_of};

    /// An empty sink that takes `room` bytes in all; a write after those is a fault. Its writes and
    /// flushes are numbered together from 0, and those in `fails` fail.
    pub fn new(alloc: Global, room: usize, fails: Vec<u64>) -> Result<Self, OutOfMemory>
        ensures put { IfOk result (λ sink. ⟦<MemSink as Sink>⟧.put sink ≡ Some []) }
        ensures faults { IfOk result (λ sink. ⟦<MemSink as Sink>⟧.faults sink ≡ 0) }
        ensures calls { IfOk result (λ sink. sink_calls sink ≡ (fails.items, 0)) }
        ensures room { IfOk result (λ sink. room_of sink ≡ room) }
    {
        Ok(MemSink {
            buffer: vec![in alloc; 0; room]?,
            len: 0,
            calls: Calls::new(fails),
        })
    }

    /// All bytes taken so far.
    pub fn bytes(&self) -> &[u8]
        ensures { ⟦<MemSink as Sink>⟧.put self.now ≡ Some result.now }
    {
        &self.buffer[..self.len]
    }

    /// How many calls have failed.
    pub fn faults(&self) -> u64
        ensures { ⟦<MemSink as Sink>⟧.faults self.now ≡ result }
    {
        self.calls.faults
    }
}

impl Sink for MemSink {
    ghost use Rattle.std.specs.Prelude.{◌↔◌, ◌⊎◌};
    ghost use Rattle.bp_base.specs.Faults.{Counts};
    ghost use Rattle.bp_base.specs.Told.{Gains};
    ghost use Rattle.bp_base.specs.Moves.{write_count, WriteFits};
    ghost use Rattle.bp_base.specs.Forms.{sink_calls, room_of, IsListed, after_call, FailsAsListed};

    ghost faults = { λ s. s.calls.faults };

    ghost put = { λ s. Some (take s.len s.buffer.items) };

    /// Takes as much of the piece as there is room for.
    fn write(&mut self, piece: &[u8]) -> Wrote
        requires { 1 ≤ length piece.now }
        ensures fits { WriteFits result (length piece.now) }
        ensures taken { Gains ⟦<MemSink as Sink>⟧.put self.old self.new
            (take (write_count result) piece.now) }
        ensures faults { Counts ⟦<MemSink as Sink>⟧.faults self.old self.new
            (result ≡ Wrote.Failed) }

        // A call fails exactly where its number is listed or no room is left.
        ensures exactly { (result ≡ Wrote.Failed)
            ↔ (IsListed (sink_calls self.old) ⊎ (room_of self.old ≡ 0)) }
        ensures calls { sink_calls self.new ≡ after_call (sink_calls self.old) }
        ensures count { ¬ (result ≡ Wrote.Failed)
            → write_count result ≡ min (length piece.now) (room_of self.old) }
        ensures room { room_of self.old ≡ write_count result + room_of self.new }
    {
        if self.calls.next_fails() {
            return Wrote::Failed;
        }
        let count = copy_behind(&mut self.buffer, self.len, piece);
        if count == 0 {
            self.calls.count();
            return Wrote::Failed;
        }
        self.len += count;
        Wrote::Bytes(count)
    }

    fn finish(&mut self) -> Finished
        ensures kept { ⟦<MemSink as Sink>⟧.put self.new ≡ ⟦<MemSink as Sink>⟧.put self.old }
        ensures faults { Counts ⟦<MemSink as Sink>⟧.faults self.old self.new
            (result ≡ Finished.Failed) }
        ensures listed { FailsAsListed sink_calls self.old self.new (result ≡ Finished.Failed) }
        ensures room { room_of self.new ≡ room_of self.old }
    {
        if self.calls.next_fails() {
            Finished::Failed
        } else {
            Finished::Done
        }
    }
}

// Copies as much of the piece as fits behind the first `len` bytes of the buffer, and answers how
// much.
fn copy_behind(buffer: &mut [u8], len: usize, piece: &[u8]) -> usize
    requires { len ≤ length buffer.old }
    ensures count { result ≡ min (length piece.now) (length buffer.old - len) }
    ensures copied { take (len + result) buffer.new ≡ take len buffer.old ++ take result piece.now }
{
    let count = piece.len().min(buffer.len() - len);
    buffer[len..len + count].copy_from_slice(&piece[..count]);
    count
}

/// A sink that takes every piece whole, keeps nothing and never fails.
#[derive(Clone, Copy, Debug, Default)]
pub struct SteadySink;

impl SteadySink {
    /// A sink that tells none of its bytes.
    pub fn new() -> Self
        ensures put { ⟦<SteadySink as Sink>⟧.put result ≡ None }
        ensures faults { ⟦<SteadySink as Sink>⟧.faults result ≡ 0 }
    {
        SteadySink
    }
}

impl Sink for SteadySink {
    ghost faults = { λ _. 0 };

    ghost put = { λ _. None };

    fn write(&mut self, piece: &[u8]) -> Wrote
        requires { 1 ≤ length piece.now }
        ensures whole { result ≡ Wrote.Bytes (length piece.now) }
    {
        Wrote::Bytes(piece.len())
    }

    fn finish(&mut self) -> Finished {
        Finished::Done
    }
}
