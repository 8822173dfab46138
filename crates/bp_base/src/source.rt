// Where bytes come from.
ghost use Rattle.std.specs.Prelude.{◌≡◌, ◌≢◌, ℕ, ◌≤◌, Bool, List, length, drop};
ghost use Rattle.std.specs.declared.option.Option.{Option};
ghost use Rattle.std.specs.Io.KnownBytes.{IsAtEnd};
ghost use Rattle.bp_base.specs.Faults.{Counts};
ghost use Rattle.bp_base.specs.Told.{Gains, Loses};
ghost use Rattle.bp_base.specs.Moves.{read_count, read_bytes, ReadFits, ended_after};

/// How long a read may wait for its first byte.
#[derive(Clone, Copy, Debug, PartialEq, Eq)]
pub enum Patience {
    /// Not at all.
    Poll,
    /// So many milliseconds.
    Millis(u64),
    /// Until a byte comes, the source ends, or it fails.
    Forever,
}

/// What a read gave.
#[derive(Clone, Copy, Debug, PartialEq, Eq)]
pub enum ReadGot {
    /// So many bytes, at least one, in front of the buffer.
    Bytes(usize),
    /// Nothing within the patience; bytes may still come.
    Idle,
    /// Nothing: no byte is left.
    End,
    /// Nothing: the source had a fault, which it counted.
    Failed,
}

/// A stream of bytes that come in, in pieces of any size.
///
/// A fault may be counted only in a call that answers `Failed`: a read that has bytes to give gives
/// them, and leaves a fault that it met to a later call. The count stays at the last value of a
/// `u64`.
pub trait Source {
    /// How often the source has failed.
    ghost faults: { Self → ℕ };

    /// All bytes given so far, where the source tells them. It tells them always, or never.
    ghost given: { Self → Option (List ℕ) };

    /// The bytes still to come, where the source tells them. It tells them always, or never.
    ghost left: { Self → Option (List ℕ) };

    /// Whether a read has answered `End`.
    ghost ended: { Self → Bool };

    /// Reads some bytes into the front of `into`, and leaves the rest of it unchanged.
    fn read(&mut self, into: &mut [u8], patience: Patience) -> ReadGot
        requires { 1 ≤ length into.old }

        ensures fits { ReadFits result (length into.old) }
        ensures given { Gains given self.old self.new (read_bytes result into.new) }
        ensures left { Loses left self.old self.new (read_bytes result into.new) }
        ensures rest { drop (read_count result) into.new ≡ drop (read_count result) into.old }

        ensures never_idle { patience ≡ Patience.Forever → result ≢ ReadGot.Idle }
        ensures at_end { result ≡ ReadGot.End → IsAtEnd (left self.new) }
        ensures ended { ended self.new ≡ ended_after (ended self.old) result }
        ensures faults { Counts faults self.old self.new (result ≡ ReadGot.Failed) };
}

impl<S: Source> Source for &mut S {
    ghost faults = { λ s. S.faults s.now };

    ghost given = { λ s. S.given s.now };

    ghost left = { λ s. S.left s.now };

    ghost ended = { λ s. S.ended s.now };

    fn read(&mut self, into: &mut [u8], patience: Patience) -> ReadGot {
        Source::read(&mut **self, into, patience)
    }
}
