// Sources in memory.
ghost use Rattle.std.specs.Prelude.{◌≡◌, ◌≢◌, ◌≤◌, [], ℕ, false, Some, IfSome, min, length, take, drop};
ghost use Rattle.std.specs.Io.KnownBytes.{IsAtEnd};
ghost use Rattle.bp_base.specs.Faults.{last_count, Counts};
ghost use Rattle.bp_base.specs.Told.{Gains, Loses};
ghost use Rattle.bp_base.specs.Moves.{read_count, read_bytes, ReadFits, ended_after};
ghost use Rattle.bp_base.specs.Places.{joined};
ghost use Rattle.bp_base.specs.Forms.{source_calls, source_next, steady_next, FailsAsListed, pieces_given, pieces_left};

use crate::calls::Calls;
use crate::pieces::Pieces;
use crate::{Patience, ReadGot, Source};
use std::alloc::Global;

/// A source in memory, some of whose reads fail.
#[derive(Drop)]
pub struct MemSource {
    pieces: Pieces,
    ended: bool,
    calls: Calls,
}

impl MemSource {
    /// A source that gives at most the rest of one piece per read, and skips empty pieces. Its
    /// reads are numbered from 0, and those in `fails` fail.
    pub fn new(_alloc: Global, pieces: Vec<Vec<u8>>, fails: Vec<u64>) -> Self
        ensures given { ⟦<MemSource as Source>⟧.given result ≡ Some [] }
        ensures left { ⟦<MemSource as Source>⟧.left result ≡ Some (joined pieces.items) }
        ensures ended { ⟦<MemSource as Source>⟧.ended result ≡ false }
        ensures faults { ⟦<MemSource as Source>⟧.faults result ≡ 0 }
        ensures calls { source_calls result ≡ (fails.items, 0) }
    {
        MemSource {
            pieces: Pieces::new(pieces),
            ended: false,
            calls: Calls::new(fails),
        }
    }

    /// How many bytes were given. It stays at the last value of a `u64`.
    pub fn given(&self) -> u64
        ensures { IfSome (⟦<MemSource as Source>⟧.given self.now)
            (λ bytes. result ≡ min (length bytes) last_count) }
    {
        self.pieces.given
    }

    /// Whether a read has answered `End`.
    pub fn is_ended(&self) -> bool
        ensures { ⟦<MemSource as Source>⟧.ended self.now ≡ result }
    {
        self.ended
    }

    /// How many reads have failed.
    pub fn faults(&self) -> u64
        ensures { ⟦<MemSource as Source>⟧.faults self.now ≡ result }
    {
        self.calls.faults
    }
}

impl Source for MemSource {
    ghost faults = { λ s. s.calls.faults };

    ghost given = { λ s. pieces_given s.pieces };

    ghost left = { λ s. pieces_left s.pieces };

    ghost ended = { λ s. s.ended };

    fn read(&mut self, into: &mut [u8], _patience: Patience) -> ReadGot
        requires { 1 ≤ length into.old }
        ensures fits { ReadFits result (length into.old) }
        ensures given { Gains ⟦<MemSource as Source>⟧.given self.old self.new
            (read_bytes result into.new) }
        ensures left { Loses ⟦<MemSource as Source>⟧.left self.old self.new
            (read_bytes result into.new) }
        ensures rest { drop (read_count result) into.new ≡ drop (read_count result) into.old }
        ensures never_idle { result ≢ ReadGot.Idle }
        ensures at_end { result ≡ ReadGot.End → IsAtEnd (⟦<MemSource as Source>⟧.left self.new) }
        ensures ended { ⟦<MemSource as Source>⟧.ended self.new
            ≡ ended_after (⟦<MemSource as Source>⟧.ended self.old) result }
        ensures faults { Counts ⟦<MemSource as Source>⟧.faults self.old self.new
            (result ≡ ReadGot.Failed) }

        // A read fails exactly where its number is listed. Else it gives the next piece that has
        // bytes left, as much as fits.
        ensures listed { FailsAsListed source_calls self.old self.new (result ≡ ReadGot.Failed) }
        ensures piece { result ≢ ReadGot.Failed
            → read_bytes result into.new ≡ take (length into.old) (source_next self.old) }
    {
        if self.calls.next_fails() {
            return ReadGot::Failed;
        }
        let got = self.pieces.give(into);
        self.ended |= got == ReadGot::End;
        got
    }
}

/// A source in memory that never fails.
#[derive(Drop)]
pub struct SteadySource {
    pieces: Pieces,
    ended: bool,
}

impl SteadySource {
    /// A source that gives at most the rest of one piece per read, and skips empty pieces.
    pub fn new(_alloc: Global, pieces: Vec<Vec<u8>>) -> Self
        ensures given { ⟦<SteadySource as Source>⟧.given result ≡ Some [] }
        ensures left { ⟦<SteadySource as Source>⟧.left result ≡ Some (joined pieces.items) }
        ensures ended { ⟦<SteadySource as Source>⟧.ended result ≡ false }
        ensures faults { ⟦<SteadySource as Source>⟧.faults result ≡ 0 }
    {
        SteadySource {
            pieces: Pieces::new(pieces),
            ended: false,
        }
    }

    /// How many bytes were given. It stays at the last value of a `u64`.
    pub fn given(&self) -> u64
        ensures { IfSome (⟦<SteadySource as Source>⟧.given self.now)
            (λ bytes. result ≡ min (length bytes) last_count) }
    {
        self.pieces.given
    }

    /// Whether a read has answered `End`.
    pub fn is_ended(&self) -> bool
        ensures { ⟦<SteadySource as Source>⟧.ended self.now ≡ result }
    {
        self.ended
    }
}

impl Source for SteadySource {
    ghost faults = { λ _. 0 };

    ghost given = { λ s. pieces_given s.pieces };

    ghost left = { λ s. pieces_left s.pieces };

    ghost ended = { λ s. s.ended };

    fn read(&mut self, into: &mut [u8], _patience: Patience) -> ReadGot
        requires { 1 ≤ length into.old }
        ensures fits { ReadFits result (length into.old) }
        ensures given { Gains ⟦<SteadySource as Source>⟧.given self.old self.new
            (read_bytes result into.new) }
        ensures left { Loses ⟦<SteadySource as Source>⟧.left self.old self.new
            (read_bytes result into.new) }
        ensures rest { drop (read_count result) into.new ≡ drop (read_count result) into.old }
        ensures never_idle { result ≢ ReadGot.Idle }
        ensures never_fails { result ≢ ReadGot.Failed }
        ensures at_end { result ≡ ReadGot.End → IsAtEnd (⟦<SteadySource as Source>⟧.left self.new) }
        ensures ended { ⟦<SteadySource as Source>⟧.ended self.new
            ≡ ended_after (⟦<SteadySource as Source>⟧.ended self.old) result }
        ensures piece { read_bytes result into.new ≡ take (length into.old) (steady_next self.old) }
    {
        let got = self.pieces.give(into);
        self.ended |= got == ReadGot::End;
        got
    }
}
