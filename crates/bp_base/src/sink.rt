// Where bytes go.
ghost use Rattle.std.specs.Prelude.{◌≡◌, ℕ, ◌≤◌, List, length, take};
ghost use Rattle.std.specs.declared.option.Option.{Option};
ghost use Rattle.bp_base.specs.Faults.{Counts};
ghost use Rattle.bp_base.specs.Told.{Gains};
ghost use Rattle.bp_base.specs.Moves.{write_count, WriteFits};

/// What a write took.
#[derive(Clone, Copy, Debug, PartialEq, Eq)]
pub enum Wrote {
    /// So many bytes, at least one, from the front of the piece.
    Bytes(usize),
    /// Nothing: the sink had a fault, which it counted.
    Failed,
}

/// How a flush went.
#[derive(Clone, Copy, Debug, PartialEq, Eq)]
pub enum Finished {
    /// All that was taken went out.
    Done,
    /// The sink had a fault, which it counted.
    Failed,
}

/// A stream of bytes that go out, in pieces of any size.
///
/// A fault may be counted only in a call that answers `Failed`: a write that took some bytes
/// answers them, and leaves a fault that it met to a later call. The count stays at the last value
/// of a `u64`.
pub trait Sink {
    /// How often the sink has failed.
    ghost faults: { Self → ℕ };

    /// All bytes taken so far, where the sink tells them. It tells them always, or never.
    ghost put: { Self → Option (List ℕ) };

    /// Takes some bytes from the front of `piece`.
    fn write(&mut self, piece: &[u8]) -> Wrote
        requires { 1 ≤ length piece.now }

        ensures fits { WriteFits result (length piece.now) }
        ensures taken { Gains put self.old self.new (take (write_count result) piece.now) }
        ensures faults { Counts faults self.old self.new (result ≡ Wrote.Failed) };

    /// Flushes what was taken.
    fn finish(&mut self) -> Finished
        ensures kept { put self.new ≡ put self.old }
        ensures faults { Counts faults self.old self.new (result ≡ Finished.Failed) };
}

impl<K: Sink> Sink for &mut K {
    ghost faults = { λ s. K.faults s.now };

    ghost put = { λ s. K.put s.now };

    fn write(&mut self, piece: &[u8]) -> Wrote {
        Sink::write(&mut **self, piece)
    }

    fn finish(&mut self) -> Finished {
        Sink::finish(&mut **self)
    }
}
