// Heartbeats: when an end says that it is alive, and when it takes the other one for dead.
ghost use Rattle.std.specs.Prelude.{◌≡◌};
ghost use Rattle.rpc_msg.specs.Beats.{after_beat, beat_of, heard_at, new_beat};

use std::marker::Model;

/// When an end has to send a heartbeat, and when the other end was silent for too long. Moments and
/// spans are milliseconds, and a moment below the greatest seen counts as the greatest seen.
#[derive(Drop)]
pub struct Beat {
    every: u64,
    timeout: u64,
    latest: u64,
    last_heard: u64,
    last_sent: u64,
}

impl Model for Beat {
    ghost use Rattle.rpc_msg.specs.Beats.{BeatState, IsBeat};

    ghost Value = { BeatState };

    ghost view = { λ b. record {
      every = b.every;
      timeout = b.timeout;
      latest = b.latest;
      heard = b.last_heard;
      sent = b.last_sent;
    } };

    ghost invariant = { λ b. IsBeat b.latest b.last_heard b.last_sent };
}

/// What a moment asks of an end.
#[derive(Clone, Copy, Debug, PartialEq, Eq)]
pub enum BeatAct {
    /// Nothing.
    Quiet,
    /// A heartbeat.
    Send,
    /// To close: the other end was last heard at `last`, too long before `now`.
    Late { last: u64, now: u64 },
}

impl Beat {
    /// Both spans begin now.
    pub fn new(every: u64, timeout: u64, now: u64) -> Beat
        ensures { result ≡ new_beat every timeout now }
    {
        Beat {
            every,
            timeout,
            latest: now,
            last_heard: now,
            last_sent: now,
        }
    }

    /// Something was read from the other end.
    pub fn heard(&mut self, now: u64)
        ensures { self.new ≡ heard_at self.old now }
    {
        self.latest = self.latest.max(now);
        self.last_heard = self.latest;
    }

    /// What is due at a moment: the other end is late where it was silent for more than the
    /// timeout; else a heartbeat is sent, where the end may send, once per span.
    pub fn due(&self, now: u64, may_send: bool) -> BeatAct
        ensures { result ≡ beat_of self.now now may_send }
    {
        let now = self.latest.max(now);
        if now - self.last_heard > self.timeout {
            return BeatAct::Late {
                last: self.last_heard,
                now,
            };
        }
        if may_send && now - self.last_sent >= self.every {
            return BeatAct::Send;
        }
        BeatAct::Quiet
    }

    /// Does what is due: where it is a heartbeat, that counts as sent now.
    pub fn tick(&mut self, now: u64, may_send: bool) -> BeatAct
        ensures act { result ≡ beat_of self.old now may_send }
        ensures state { self.new ≡ after_beat self.old now result }
    {
        let act = self.due(now, may_send);
        self.latest = self.latest.max(now);
        if act == BeatAct::Send {
            self.last_sent = self.latest;
        }
        act
    }
}
