// Numbers that look as if by chance, and are the same in every run.
ghost use Rattle.std.specs.Prelude.{◌<◌, ◌≤◌};

/// A generator of numbers: a counter whose bits are mixed, as in splitmix64.
#[derive(Drop)]
pub struct Numbers {
    state: u64,
}

impl Numbers {
    /// The generator of every run.
    pub fn new() -> Numbers {
        Numbers { state: 0 }
    }

    /// The next number, of those from `least` on and below `end`.
    pub fn between(&mut self, least: u64, end: u64) -> u64
        requires { least < end }
        ensures from { least ≤ result }
        ensures below { result < end }
    {
        self.state = self.state.wrapping_add(0x9E37_79B9_7F4A_7C15);
        let mut bits = self.state;
        bits = (bits ^ (bits >> 30)).wrapping_mul(0xBF58_476D_1CE4_E5B9);
        bits = (bits ^ (bits >> 27)).wrapping_mul(0x94D0_49BB_1331_11EB);
        least + (bits ^ (bits >> 31)) % (end - least)
    }
}
