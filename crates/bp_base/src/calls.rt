// Which calls of a memory form fail.
ghost use Rattle.std.specs.Prelude.{◌≡◌, ℕ, ◌↔◌, IsTrue, if◌then◌else◌};
ghost use Rattle.bp_base.specs.Faults.{counted, Counts};
ghost use Rattle.bp_base.specs.Forms.{numbered, FailsAsListed};

/// The calls of one object, by number from 0, with those that fail and how many have failed.
#[derive(Drop)]
pub struct Calls {
    pub fails: Vec<u64>,
    pub made: u64,
    pub faults: u64,
}

impl Calls {
    /// No call yet, of which those of these numbers will fail.
    pub fn new(fails: Vec<u64>) -> Self
        ensures calls { numbered result ≡ (fails.items, 0) }
        ensures faults { result.faults ≡ 0 }
    {
        Calls {
            fails,
            made: 0,
            faults: 0,
        }
    }

    /// Makes the next call, and says whether it fails. Both numbers stay at the last value of a
    /// `u64`.
    pub fn next_fails(&mut self) -> bool
        ensures listed { FailsAsListed numbered self.old self.new (IsTrue result) }
        ensures once { self.new.faults
            ≡ (if result then counted self.old.faults else self.old.faults) }
        ensures faults { Counts (λ calls. calls.faults) self.old self.new (IsTrue result) }
    {
        let fails = self.fails.contains(&self.made);
        self.made = self.made.saturating_add(1);
        if fails {
            self.count();
        }
        fails
    }

    /// Counts a fault.
    pub fn count(&mut self)
        ensures calls { numbered self.new ≡ numbered self.old }
        ensures once { self.new.faults ≡ counted self.old.faults }
        ensures faults { Counts (λ calls. calls.faults) self.old self.new (Unit {0}) }
    {
        self.faults = self.faults.saturating_add(1);
    }
}
