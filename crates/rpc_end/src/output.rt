// The bytes that are to go out.
ghost use Rattle.std.specs.Prelude.{◌≡◌, ◌+◌, ◌++◌, ◌≤◌, [], length, drop, take, min, IfOk, OnErr, OnOk};
ghost use Rattle.rpc_frame.specs.Frames.{frame};
ghost use Rattle.rpc_talk.specs.Acts.{body_of};

use bp_value::OutOfMemory;
use rpc_frame::put_frame;
use rpc_msg::{Message, write_message};
use std::alloc::Global;
use std::marker::Model;

/// Bytes in the order in which they are to go out. Those that went out stay in front until all
/// are out, so that none is moved when some are taken.
#[derive(Drop)]
pub struct Output {
    bytes: Vec<u8>,
    sent: usize,
}

impl Model for Output {
    ghost use Rattle.std.specs.Prelude.{ℕ, List, drop, length, ◌≤◌};

    ghost Value = { List ℕ };

    ghost view = { λ out. drop out.sent out.bytes.items };

    ghost invariant = { λ out. out.sent ≤ length out.bytes.items };
}

impl Output {
    /// Nothing is to go out. Takes no memory.
    pub fn new(alloc: Global) -> Output
        ensures { result ≡ [] }
    {
        Output {
            bytes: Vec::new(alloc),
            sent: 0,
        }
    }

    /// Appends the frame of a body.
    pub fn put(&mut self, body: &[u8]) -> Result<(), OutOfMemory>
        ensures ok { OnOk result (self.new ≡ self.old ++ frame body.now) }
        ensures err { OnErr result (self.new ≡ self.old) }
    {
        put_frame(body, &mut self.bytes)
    }

    /// Appends the frame of a message.
    pub fn say(&mut self, message: &Message) -> Result<(), OutOfMemory>
        ensures ok { OnOk result (self.new ≡ self.old ++ frame (body_of message.now)) }
        ensures err { OnErr result (self.new ≡ self.old) }
    {
        write_message(message, &mut self.bytes)
    }

    /// Moves the oldest bytes to the front of a buffer, as many as it has room for.
    pub fn take_out(&mut self, into: &mut [u8]) -> usize
        ensures count { result ≡ min (length into.old) (length self.old) }
        ensures moved { into.new ≡ take result self.old ++ drop result into.old }
        ensures left { self.new ≡ drop result self.old }
    {
        let count = into.len().min(self.bytes.len() - self.sent);
        let end = self.sent + count;
        into[..count].copy_from_slice(&self.bytes[self.sent..end]);
        self.sent = end;
        if self.sent == self.bytes.len() {
            self.bytes.clear();
            self.sent = 0;
        }
        count
    }
}
