// Wires in memory.
ghost use Rattle.std.specs.Prelude.{◌≡◌, ◌≢◌, ◌++◌, [], ℕ, List, Some, length, slice_set, take};
ghost use Rattle.bp_base.specs.Faults.{GoesOn};
ghost use Rattle.bp_base.specs.Told.{Gains};
ghost use Rattle.bp_base.specs.Moves.{put_bytes, got_bytes, GotFits, GetsAll, GivenIsFront-take};
ghost use Rattle.bp_base.specs.Forms.{wire_calls, bend_of, FailsAsListed, queue_put, queue_taken};

use crate::calls::Calls;
use crate::queue::Queue;
use crate::{Got, PutDone, Wire};
use std::alloc::Global;

/// An honest wire in memory, some of whose calls fail.
#[derive(Drop)]
pub struct MemWire {
    queue: Queue,
    calls: Calls,
}

impl MemWire {
    /// An empty wire. Its puts and gets are numbered together from 0, and those in `fails` fail.
    pub fn new(alloc: Global, fails: Vec<u64>) -> Self
        ensures sent { ⟦<MemWire as Wire>⟧.sent result ≡ Some [] }
        ensures given { ⟦<MemWire as Wire>⟧.given result ≡ Some [] }
        ensures faults { ⟦<MemWire as Wire>⟧.faults result ≡ 0 }
        ensures honest { ⟦<MemWire as Wire>⟧.honest result }
        ensures calls { wire_calls result ≡ (fails.items, 0) }
    {
        MemWire {
            queue: Queue::new(alloc),
            calls: Calls::new(fails),
        }
    }

    /// All bytes put so far.
    pub fn sent(&self) -> &[u8]
        ensures { ⟦<MemWire as Wire>⟧.sent self.now ≡ Some result.now }
    {
        &self.queue.bytes
    }

    /// All bytes given so far.
    pub fn given(&self) -> &[u8]
        ensures { ⟦<MemWire as Wire>⟧.given self.now ≡ Some result.now }
    {
        &self.queue.bytes[..self.queue.taken]
    }

    /// How many calls have failed.
    pub fn faults(&self) -> u64
        ensures { ⟦<MemWire as Wire>⟧.faults self.now ≡ result }
    {
        self.calls.faults
    }
}

impl Wire for MemWire {
    ghost faults = { λ w. w.calls.faults };

    ghost sent = { λ w. queue_put w.queue };

    ghost given = { λ w. queue_taken w.queue };

    ghost honest = { λ _. Unit {0} };

    ghost front = { λ w _. GivenIsFront-take w.queue.taken w.queue.bytes.items };

    fn put(&mut self, piece: &[u8]) -> PutDone
        ensures sent { Gains ⟦<MemWire as Wire>⟧.sent self.old self.new
            (put_bytes result piece.now) }
        ensures given { ⟦<MemWire as Wire>⟧.given self.new ≡ ⟦<MemWire as Wire>⟧.given self.old }
        ensures wire { GoesOn ⟦<MemWire as Wire>⟧.faults ⟦<MemWire as Wire>⟧.honest
            self.old self.new (result ≡ PutDone.Failed) }
        ensures listed { FailsAsListed wire_calls self.old self.new (result ≡ PutDone.Failed) }
    {
        if self.calls.next_fails() {
            return PutDone::Failed;
        }
        self.queue.put(piece)
    }

    fn get(&mut self, into: &mut [u8]) -> Got
        ensures fits { GotFits result (length into.old) }
        ensures sent { ⟦<MemWire as Wire>⟧.sent self.new ≡ ⟦<MemWire as Wire>⟧.sent self.old }
        ensures given { Gains ⟦<MemWire as Wire>⟧.given self.old self.new
            (got_bytes result into.new) }
        ensures all { GetsAll ⟦<MemWire as Wire>⟧.sent ⟦<MemWire as Wire>⟧.given self.old
            (length into.old) result }
        ensures wire { GoesOn ⟦<MemWire as Wire>⟧.faults ⟦<MemWire as Wire>⟧.honest
            self.old self.new (result ≡ Got.Failed) }
        ensures listed { FailsAsListed wire_calls self.old self.new (result ≡ Got.Failed) }
    {
        if self.calls.next_fails() {
            return Got::Failed;
        }
        self.queue.get(into)
    }
}

/// An honest wire in memory that never fails.
#[derive(Drop)]
pub struct SteadyWire {
    queue: Queue,
}

impl SteadyWire {
    /// An empty wire.
    pub fn new(alloc: Global) -> Self
        ensures sent { ⟦<SteadyWire as Wire>⟧.sent result ≡ Some [] }
        ensures given { ⟦<SteadyWire as Wire>⟧.given result ≡ Some [] }
        ensures faults { ⟦<SteadyWire as Wire>⟧.faults result ≡ 0 }
        ensures honest { ⟦<SteadyWire as Wire>⟧.honest result }
    {
        SteadyWire {
            queue: Queue::new(alloc),
        }
    }

    /// All bytes put so far.
    pub fn sent(&self) -> &[u8]
        ensures { ⟦<SteadyWire as Wire>⟧.sent self.now ≡ Some result.now }
    {
        &self.queue.bytes
    }

    /// All bytes given so far.
    pub fn given(&self) -> &[u8]
        ensures { ⟦<SteadyWire as Wire>⟧.given self.now ≡ Some result.now }
    {
        &self.queue.bytes[..self.queue.taken]
    }
}

impl Wire for SteadyWire {
    ghost faults = { λ _. 0 };

    ghost sent = { λ w. queue_put w.queue };

    ghost given = { λ w. queue_taken w.queue };

    ghost honest = { λ _. Unit {0} };

    ghost front = { λ w _. GivenIsFront-take w.queue.taken w.queue.bytes.items };

    fn put(&mut self, piece: &[u8]) -> PutDone {
        self.queue.put(piece)
    }

    fn get(&mut self, into: &mut [u8]) -> Got {
        self.queue.get(into)
    }
}

/// A wire in memory that changes one byte on its way, and never fails.
#[derive(Drop)]
pub struct BentWire {
    queue: Queue,
    at: u64,
    byte: u8,
}

impl BentWire {
    /// An empty wire that will give `byte` in place of the byte at `at`, counted from 0 in all that
    /// it gives.
    pub fn new(alloc: Global, at: u64, byte: u8) -> Self
        ensures sent { ⟦<BentWire as Wire>⟧.sent result ≡ Some [] }
        ensures given { ⟦<BentWire as Wire>⟧.given result ≡ Some [] }
        ensures faults { ⟦<BentWire as Wire>⟧.faults result ≡ 0 }
        ensures dishonest { ¬ ⟦<BentWire as Wire>⟧.honest result }
        ensures bend { bend_of result ≡ (at, byte) }
    {
        BentWire {
            queue: Queue::new(alloc),
            at,
            byte,
        }
    }

    /// All bytes put so far.
    pub fn sent(&self) -> &[u8]
        ensures { ⟦<BentWire as Wire>⟧.sent self.now ≡ Some result.now }
    {
        &self.queue.bytes
    }
}

impl Wire for BentWire {
    ghost faults = { λ _. 0 };

    ghost sent = { λ w. queue_put w.queue };

    ghost given = { λ w. Some (slice_set (take w.queue.taken w.queue.bytes.items) w.at w.byte) };

    ghost honest = { λ _. ⊥ };

    ghost front = { λ _ honest. absurd honest };

    fn put(&mut self, piece: &[u8]) -> PutDone
        ensures sent { Gains ⟦<BentWire as Wire>⟧.sent self.old self.new
            (put_bytes result piece.now) }
        ensures given { ⟦<BentWire as Wire>⟧.given self.new ≡ ⟦<BentWire as Wire>⟧.given self.old }
        ensures never_fails { result ≢ PutDone.Failed }
        ensures bend { bend_of self.new ≡ bend_of self.old }
    {
        self.queue.put(piece)
    }

    fn get(&mut self, into: &mut [u8]) -> Got
        ensures fits { GotFits result (length into.old) }
        ensures sent { ⟦<BentWire as Wire>⟧.sent self.new ≡ ⟦<BentWire as Wire>⟧.sent self.old }
        ensures given { Gains ⟦<BentWire as Wire>⟧.given self.old self.new
            (got_bytes result into.new) }
        ensures all { GetsAll ⟦<BentWire as Wire>⟧.sent ⟦<BentWire as Wire>⟧.given self.old
            (length into.old) result }
        ensures never_fails { result ≢ Got.Failed }
        ensures bend { bend_of self.new ≡ bend_of self.old }
    {
        let from = self.queue.taken;
        let got = self.queue.get(into);
        let count = self.queue.taken - from;
        bend(&mut into[..count], from, self.at, self.byte);
        got
    }
}

// Changes the byte at place `at` of a stream, where it is one of these, which stand from place
// `from` on.
fn bend(into: &mut [u8], from: usize, at: u64, byte: u8)
    ensures { (before : List ℕ) → length before ≡ from
        → slice_set (before ++ into.old) at byte ≡ slice_set before at byte ++ into.new }
{
    if let Some(place) = at.checked_sub(from as u64) {
        if place < into.len() as u64 {
            into[place as usize] = byte;
        }
    }
}
