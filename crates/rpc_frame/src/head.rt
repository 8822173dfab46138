// The eight bytes of a frame's length, as far as they were taken.
ghost use Rattle.std.specs.Prelude.{◌≡◌, ◌^◌, ◌<◌, ◌≤◌, ◌-◌, ℕ, length, if◌then◌else◌, nat_eq, false};
ghost use Rattle.rpc_frame.specs.Heads.{IsHead, IsHeadRead};

/// How many bytes a length has.
pub const HEAD: u32 = 8;

/// Length bytes: how many were taken, and their number.
#[derive(Clone, Copy)]
pub struct Head {
    pub seen: u32,
    pub low: u64,
}

/// What length bytes in front of a piece make of those before them.
pub enum HeadRead {
    /// So many bytes were taken: the length is whole, or the piece is.
    Taken { head: Head, used: usize },
    /// The byte behind so many makes the length pass the limit.
    TooLong { used: usize },
}

impl Head {
    /// No length byte.
    pub const NONE: Head = Head { seen: 0, low: 0 };

    /// Whether all of a frame was taken, with so many bytes of its body.
    pub fn is_whole(self, body: usize) -> bool
        ensures { result ≡ (if nat_eq self.seen 8 then nat_eq self.low body else false) }
    {
        self.seen == HEAD && self.low == body as u64
    }

    /// How many bytes of a body are missing, of which so many were taken: none before the length is
    /// whole.
    pub fn missing(self, body: usize) -> usize
        ensures { result ≡ (if nat_eq self.seen 8 then self.low - body else 0) }
    {
        if self.seen == HEAD {
            (self.low as usize).saturating_sub(body)
        } else {
            0
        }
    }

    /// Takes length bytes from the front of a piece.
    pub fn read_on(self, piece: &[u8], max: u64) -> HeadRead
        requires head { IsHead max self }
        ensures { IsHeadRead max self piece.now result }
    {
        let Head { mut seen, mut low } = self;
        let mut used = 0;
        'bytes: while seen < HEAD && used < piece.len() {
            let part = u64::from(piece[used]) * 256u64.pow(seen);
            if part > max - low {
                return HeadRead::TooLong { used };
            }
            low += part;
            seen += 1;
            used += 1;
        }
        HeadRead::Taken {
            head: Head { seen, low },
            used,
        }
    }
}
