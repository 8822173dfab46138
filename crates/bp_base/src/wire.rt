// A one-way wire, with both of its ends in one hand.
ghost use Rattle.std.specs.Prelude.{◌≡◌, ℕ, List, length};
ghost use Rattle.std.specs.declared.option.Option.{Option};
ghost use Rattle.bp_base.specs.Faults.{GoesOn};
ghost use Rattle.bp_base.specs.Told.{Gains};
ghost use Rattle.bp_base.specs.Moves.{put_bytes, got_bytes, GotFits, GetsAll, GivenIsFront};

/// How a put went.
#[derive(Clone, Copy, Debug, PartialEq, Eq)]
pub enum PutDone {
    /// The whole piece was sent.
    Done,
    /// Nothing was sent: the wire had a fault, which it counted.
    Failed,
    /// Nothing was sent: the wire had no memory for it.
    OutOfMemory,
}

/// What a get gave.
#[derive(Clone, Copy, Debug, PartialEq, Eq)]
pub enum Got {
    /// As many bytes as were asked for.
    Exact,
    /// Fewer bytes than were asked for, in front of the buffer.
    Less(usize),
    /// Nothing: the wire had a fault, which it counted.
    Failed,
}

/// A wire: bytes are put in at one end and come out at the other.
///
/// An honest wire gives the bytes that were sent, in their order. A wire says of itself whether it
/// is honest. A fault may be counted only in a call that answers `Failed`, which sends and gives
/// nothing. The count stays at the last value of a `u64`.
pub trait Wire {
    /// How often the wire has failed.
    ghost faults: { Self → ℕ };

    /// All bytes put so far, where the wire tells them. It tells them always, or never.
    ghost sent: { Self → Option (List ℕ) };

    /// All bytes given so far, where the wire tells them. It tells them always, or never.
    ghost given: { Self → Option (List ℕ) };

    /// Whether the wire is honest. No call changes it.
    ghost honest: { Self → Type 0 };

    /// Sends the whole piece, or nothing.
    fn put(&mut self, piece: &[u8]) -> PutDone
        ensures sent { Gains sent self.old self.new (put_bytes result piece.now) }
        ensures given { given self.new ≡ given self.old }
        ensures wire { GoesOn faults honest self.old self.new (result ≡ PutDone.Failed) };

    /// Fills `into` with the next bytes, or its front with all that there are.
    fn get(&mut self, into: &mut [u8]) -> Got
        ensures fits { GotFits result (length into.old) }
        ensures sent { sent self.new ≡ sent self.old }
        ensures given { Gains given self.old self.new (got_bytes result into.new) }

        // An honest wire gives less exactly where less is in flight.
        ensures all { honest self.old → GetsAll sent given self.old (length into.old) result }
        ensures wire { GoesOn faults honest self.old self.new (result ≡ Got.Failed) };

    /// What an honest wire has given is a front of what was sent.
    ghost front: { (wire : Self) → honest wire → GivenIsFront (sent wire) (given wire) };
}

impl<W: Wire> Wire for &mut W {
    ghost faults = { λ w. W.faults w.now };

    ghost sent = { λ w. W.sent w.now };

    ghost given = { λ w. W.given w.now };

    ghost honest = { λ w. W.honest w.now };

    ghost front = { λ w honest. W.front w.now honest };

    fn put(&mut self, piece: &[u8]) -> PutDone {
        Wire::put(&mut **self, piece)
    }

    fn get(&mut self, into: &mut [u8]) -> Got {
        Wire::get(&mut **self, into)
    }
}
