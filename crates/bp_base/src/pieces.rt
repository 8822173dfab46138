// The bytes of a source in memory.
ghost use Rattle.std.specs.Prelude.{◌≡◌, ◌≢◌, ◌≤◌, [], Some, min, length, take, drop};
ghost use Rattle.std.specs.Io.KnownBytes.{IsAtEnd};
ghost use Rattle.bp_base.specs.Faults.{last_count};
ghost use Rattle.bp_base.specs.Told.{Gains, Loses};
ghost use Rattle.bp_base.specs.Places.{joined, bytes_before};

use crate::ReadGot;
use crate::front::copy_front;

/// Pieces of bytes of which some were given: so many whole pieces, and so many bytes of the next
/// one.
#[derive(Drop)]
pub struct Pieces {
    pub pieces: Vec<Vec<u8>>,
    pub whole: usize,
    pub at: usize,
    /// How many bytes were given. It stays at the last value of a `u64`.
    pub given: u64,
    ghost counted: { given ≡ min (length (bytes_before pieces.items whole at)) last_count },
}

impl Pieces {
    ghost use Rattle.bp_base.specs.Moves.{read_count, read_bytes, ReadFits};
    ghost use Rattle.bp_base.specs.Forms.{pieces_given, pieces_left, pieces_next};

    /// Pieces of which none were given yet.
    pub fn new(pieces: Vec<Vec<u8>>) -> Self
        ensures given { pieces_given result ≡ Some [] }
        ensures left { pieces_left result ≡ Some (joined pieces.items) }
    {
        Pieces {
            pieces,
            whole: 0,
            at: 0,
            given: 0,
        }
    }

    /// Gives the rest of the next piece, or as much as fits, in front of `into`, and End where no
    /// byte is left.
    pub fn give(&mut self, into: &mut [u8]) -> ReadGot
        requires { 1 ≤ length into.old }

        ensures fits { ReadFits result (length into.old) }
        ensures given { Gains pieces_given self.old self.new (read_bytes result into.new) }
        ensures left { Loses pieces_left self.old self.new (read_bytes result into.new) }
        ensures piece { read_bytes result into.new ≡ take (length into.old) (pieces_next self.old) }
        ensures rest { drop (read_count result) into.new ≡ drop (read_count result) into.old }

        ensures never_idle { result ≢ ReadGot.Idle }
        ensures never_fails { result ≢ ReadGot.Failed }
        ensures at_end { result ≡ ReadGot.End → IsAtEnd (pieces_left self.new) }
    {
        'pieces: while self.whole < self.pieces.len() {
            let piece = &self.pieces[self.whole];
            if self.at < piece.len() {
                let count = copy_front(&piece[self.at..], into);
                self.at += count;
                self.given = self.given.saturating_add(count as u64);
                return ReadGot::Bytes(count);
            }
            self.whole += 1;
            self.at = 0;
        }
        ReadGot::End
    }
}
