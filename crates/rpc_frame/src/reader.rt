// A reader of frames that is fed in pieces.
ghost use Rattle.std.specs.Prelude.{◌≡◌, ◌^◌, ◌+◌, ◌<◌, ◌≤◌, [], None, length};

use crate::error::FrameError;
use crate::head::{HEAD, Head, HeadRead};
use bp_value::Blob;
use std::alloc::Global;
use std::marker::Model;
use std::mem;

/// What a piece gave.
#[derive(Debug, Drop)]
pub struct Fed {
    /// How many bytes of the piece were taken: up to the end of a frame, or all.
    pub used: usize,
    /// The body of the frame that ended there.
    pub frame: Option<Blob>,
}

/// Takes a stream of frames in pieces of any size, and gives their bodies. It holds the bytes of
/// the frame that has begun, and makes room as they come.
#[derive(Drop)]
pub struct FrameReader {
    max: u64,
    head: Head,
    body: Vec<u8>,
    place: u64,
    failed: Option<u64>,
    alloc: Global,
}

impl Model for FrameReader {
    ghost use Rattle.std.specs.Prelude.{◌++◌};
    ghost use Rattle.rpc_frame.specs.Heads.{head_bytes};
    ghost use Rattle.rpc_frame.specs.States.{FrameState, IsPartOfFrame};

    ghost Value = { FrameState };

    ghost view = { λ r. record {
      max = r.max;
      held = head_bytes r.head ++ r.body.items;
      place = r.place;
      failed = r.failed;
    } };

    ghost invariant = { λ r. IsPartOfFrame r.max r.head r.body.items };
}

impl FrameReader {
    ghost use Rattle.rpc_frame.specs.Feeding.{IsFrameFed, WouldTake};
    ghost use Rattle.rpc_frame.specs.States.{stream_place, failed_after, undone, wanted};

    /// A reader at the start of a stream, for bodies of at most `max` bytes.
    pub fn new(alloc: Global, max: u64) -> FrameReader
        requires { max ≤ 2 ^ 30 }
        ensures { result ≡ record { max = max; held = []; place = 0; failed = None } }
    {
        FrameReader {
            max,
            head: Head::NONE,
            body: Vec::new(alloc),
            place: 0,
            failed: None,
            alloc,
        }
    }

    /// Takes bytes up to the end of the first frame that ends in the piece, or all of it.
    ///
    /// A length that is too long is refused at its byte: the bytes up to there, and it, count as
    /// taken, and each later feed is refused. The time is linear in the bytes taken.
    pub fn feed(&mut self, piece: &[u8]) -> Result<Fed, FrameError>
        ensures { IsFrameFed self.old piece.now result self.new }
    {
        if let Some(at) = self.failed {
            return Err(FrameError::Failed { at });
        }
        let (head, used) = match self.head.read_on(piece, self.max) {
            HeadRead::Taken { head, used } => (head, used),
            HeadRead::TooLong { used } => return Err(self.fail(used)),
        };
        let rest = &piece[used..];
        let count = head.missing(self.body.len()).min(rest.len());
        self.body.extend_from_slice(&rest[..count])?;
        let used = used + count;
        self.place = self.place.saturating_add(used as u64);
        if !head.is_whole(self.body.len()) {
            self.head = head;
            return Ok(Fed { used, frame: None });
        }
        self.head = Head::NONE;
        let body = mem::replace(&mut self.body, Vec::new(self.alloc));
        let frame = Some(Blob::from_vec(body));
        Ok(Fed { used, frame })
    }

    // Stops at the byte behind the next so many, which makes a length too long.
    fn fail(&mut self, used: usize) -> FrameError
        ensures error { result ≡ FrameError.TooLong (stream_place (self.old.place + used)) }
        ensures state { self.new ≡ failed_after self.old used }
    {
        let at = self.place.saturating_add(used as u64);
        self.head = Head::NONE;
        self.body.clear();
        self.place = at.saturating_add(1);
        self.failed = Some(at);
        FrameError::TooLong { at }
    }

    /// How many bytes of the stream were taken.
    pub fn place(&self) -> u64
        ensures place { result ≡ self.now.place }
        ensures few { length self.now.held < self.now.max + 8 }
    {
        self.place
    }

    /// How many bytes are missing to the end of the length that has begun or, behind it, of the
    /// frame; none once a length was too long.
    pub fn wants(&self) -> u64
        ensures { result ≡ wanted self.now self.now.failed }
    {
        if self.failed.is_some() {
            return 0;
        }
        if self.head.seen < HEAD {
            return u64::from(HEAD - self.head.seen);
        }
        self.head.low - self.body.len() as u64
    }

    /// How many bytes a feed of this piece would take, if memory does not run out.
    pub fn would_take(&self, piece: &[u8]) -> usize
        ensures { WouldTake self.now piece.now self.now.failed result }
    {
        if self.failed.is_some() {
            return 0;
        }
        match self.head.read_on(piece, self.max) {
            HeadRead::Taken { head, used } => {
                let rest = piece.len() - used;
                used + head.missing(self.body.len()).min(rest)
            }
            HeadRead::TooLong { used } => used + 1,
        }
    }

    /// Takes back a feed that gave this body and took `used` bytes, at a place before it: the
    /// bytes of the body's frame before these are held again.
    pub fn undo(&mut self, body: Blob, used: usize, place: u64)
        requires going { self.old.failed ≡ None }
        requires empty { self.old.held ≡ [] }
        requires short { length body ≤ self.old.max }
        requires some { 1 ≤ used }
        requires within { used ≤ length body + 8 }
        ensures { self.new ≡ undone self.old body used place }
    {
        let mut bytes = body.into_vec();
        let length = bytes.len();
        self.place = place;
        if used <= length {
            bytes.truncate(length - used);
            self.body = bytes;
            self.head = Head {
                seen: HEAD,
                low: length as u64,
            };
            return;
        }
        let seen = HEAD - (used - length) as u32;
        self.body.clear();
        self.head = Head {
            seen,
            low: length as u64 % 256u64.pow(seen),
        };
    }
}
