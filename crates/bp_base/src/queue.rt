// The bytes of a wire in memory.
ghost use Rattle.std.specs.Prelude.{◌≡◌, ◌≢◌, ◌+◌, ◌≤◌, [], Some, length, vec_len};
ghost use Rattle.bp_base.specs.Told.{Gains};

use crate::front::copy_front;
use crate::{Got, PutDone};
use std::alloc::Global;

/// All bytes ever put, of which the first `taken` were taken out again.
#[derive(Drop)]
pub struct Queue {
    pub bytes: Vec<u8>,
    pub taken: usize,
    ghost within: { taken ≤ vec_len bytes },
}

impl Queue {
    ghost use Rattle.bp_base.specs.Moves.{put_bytes, got_bytes, GotFits, GetsAll};
    ghost use Rattle.bp_base.specs.Forms.{queue_put, queue_taken};

    /// A queue with no bytes.
    pub fn new(alloc: Global) -> Self
        ensures put { queue_put result ≡ Some [] }
        ensures taken { queue_taken result ≡ Some [] }
    {
        Queue {
            bytes: Vec::new(alloc),
            taken: 0,
        }
    }

    /// Puts the whole piece, or nothing.
    pub fn put(&mut self, piece: &[u8]) -> PutDone
        ensures put { Gains queue_put self.old self.new (put_bytes result piece.now) }
        ensures taken { queue_taken self.new ≡ queue_taken self.old }
        ensures never_fails { result ≢ PutDone.Failed }
    {
        match self.bytes.extend_from_slice(piece) {
            Ok(()) => PutDone::Done,
            Err(_) => PutDone::OutOfMemory,
        }
    }

    /// Takes as many bytes as there are, and as fit, to the front of `into`.
    pub fn get(&mut self, into: &mut [u8]) -> Got
        ensures fits { GotFits result (length into.old) }
        ensures all { GetsAll queue_put queue_taken self.old (length into.old) result }
        ensures never_fails { result ≢ Got.Failed }
        ensures put { queue_put self.new ≡ queue_put self.old }
        ensures taken { Gains queue_taken self.old self.new (got_bytes result into.new) }
        ensures count { self.new.taken ≡ self.old.taken + length (got_bytes result into.new) }
    {
        let count = copy_front(&self.bytes[self.taken..], into);
        self.taken += count;
        if count < into.len() {
            Got::Less(count)
        } else {
            Got::Exact
        }
    }
}
