// The value that stands in front of bytes which come in pieces.
ghost use Rattle.std.specs.Prelude.{◌≡◌, ◌^◌, ◌≤◌, length};
ghost use Rattle.bp_codec.specs.Opened.{Reaches};

use crate::decoding::Decoded;
use crate::held::{copied, hold, joined};
use crate::open::Open;
use crate::plan::Plan;
use crate::stop::Stop;
use bp_value::{OutOfMemory, Shape};
use std::alloc::Global;
use std::mem;

/// A reading that is under way: what is open, and the nodes that it goes by.
#[derive(Drop)]
pub struct Machine {
    pub plan: Plan,
    pub levels: Open,
    ghost reach: { Reaches (length plan.nodes.items) levels },
}

/// How far a reader has come.
#[derive(Drop)]
pub enum Progress {
    /// More bytes are wanted.
    Reading(Machine),
    /// A value was whole, or a byte at fault.
    Done,
    /// Memory ran out, and what was read is lost.
    Lost,
}

/// Reads one value of a shape from bytes that come in pieces, of any size.
///
/// It holds what it has read of the value and the bytes of a number, a text or a tag that the
/// pieces cut, and never reads a byte of the others again.
#[derive(Drop)]
pub struct Reader {
    progress: Progress,
    max_len: u64,
    /// The bytes that were fed and not yet taken.
    held: Vec<u8>,
    /// How many bytes were fed; at the last value of a `usize` it stays.
    fed: usize,
    alloc: Global,
    ghost limit: { max_len ≤ 2 ^ 30 },
}

impl Reader {
    ghost use Rattle.std.specs.Prelude.{◌↔◌, ℕ, List, [], IfOk, IsTrue};
    ghost use Rattle.bp_value.specs.Form.{Form, form_of};
    ghost use Rattle.bp_value.specs.Faults.{IsGood};
    ghost use Rattle.bp_codec.specs.Fed.{Feeds, HasAnswered, HasFed, Turns};

    /// A reader to which nothing was fed. No text or list that it reads is longer than `max_len`.
    pub fn new(alloc: Global, shape: &Shape, max_len: u64) -> Result<Reader, OutOfMemory>
        requires good { IsGood (form_of shape.now) }
        requires limit { max_len ≤ 2 ^ 30 }
        ensures { IfOk result (λ reader. HasFed max_len (form_of shape.now) [] reader) }
    {
        let machine = Machine {
            plan: Plan::new(alloc, shape)?,
            levels: Open::root(alloc),
        };
        Ok(Reader {
            progress: Progress::Reading(machine),
            max_len,
            held: Vec::new(alloc),
            fed: 0,
            alloc,
        })
    }

    /// Whether a feed has answered `Whole` or `Bad`.
    pub fn is_done(&self) -> bool
        ensures { IsTrue result ↔ HasAnswered self.now }
    {
        matches!(self.progress, Progress::Done)
    }

    /// Reads on in the next piece. The answer is that of [`decode`](crate::decode) over all pieces
    /// so far, joined, but that `used` is counted in this piece: a value that was cut ends in the
    /// last piece. The place `at` of a faulty byte is counted in all pieces, and stays at the last
    /// value of a `usize`.
    ///
    /// The time is linear in the piece. Once memory ran out, each later feed answers `OutOfMemory`.
    pub fn feed(&mut self, piece: &[u8]) -> Result<Decoded, OutOfMemory>
        requires going { HasAnswered self.old → ⊥ }
        ensures fed { (m : ℕ) (f : Form) (s : List ℕ) → HasFed m f s self.old
            → Feeds m f s piece.now result self.new }
        ensures turns { Turns self.old result self.new }
    {
        let Progress::Reading(machine) = mem::replace(&mut self.progress, Progress::Lost) else {
            return Err(OutOfMemory);
        };
        let Machine { plan, mut levels } = machine;
        let mut held = mem::replace(&mut self.held, Vec::new(self.alloc));
        hold(&mut held, piece)?;
        let before = self.fed;
        self.fed = before.saturating_add(piece.len());
        let bytes = joined(&held, piece);
        let (result, rest) = levels.read_on(self.alloc, &plan, bytes, self.max_len);
        // What was held alone wants more, so the last byte that is read stands in the piece.
        let used = piece.len().saturating_sub(rest.len());
        let stop = match result {
            Ok(value) => {
                self.progress = Progress::Done;
                return Ok(Decoded::Whole { value, used });
            }
            Err(stop) => stop,
        };
        match stop {
            Stop::Bad(why) => {
                self.progress = Progress::Done;
                let at = before.saturating_add(used);
                Ok(Decoded::Bad { at, why })
            }
            Stop::More => {
                self.held = copied(self.alloc, &held, piece, rest)?.unwrap_or(held);
                self.progress = Progress::Reading(Machine { plan, levels });
                Ok(Decoded::More)
            }
            Stop::OutOfMemory => Err(OutOfMemory),
        }
    }
}

#[cfg(test)]
mod tests;
