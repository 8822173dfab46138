// The rounds of a generated run, and what is drawn for each.
ghost use Rattle.std.specs.Prelude.{◌≡◌, IfOk};
ghost use Rattle.rpc_pair.specs.Generated as run;

use bp_value::OutOfMemory;
use std::alloc::Global;

/// How many rounds there are.
const ROUNDS: u64 = 4000;

/// A round: its number, from 1, and the number that was drawn for it.
#[derive(Clone, Copy)]
pub struct Round {
    pub number: u64,
    pub drawn: u64,
}

/// The procedure that a round calls.
#[derive(Clone, Copy)]
pub enum Called {
    Echo,
    Log,
    Each,
    Book,
}

/// All rounds, for which numbers are drawn from `n` on.
pub fn rounds(alloc: Global, n: u64) -> Result<Vec<Round>, OutOfMemory>
    ensures { IfOk result (λ rounds. rounds.items ≡ run.rounds n) }
{
    let mut rounds = Vec::with_capacity(alloc, ROUNDS as usize)?;
    let mut drawn = n;
    for before in 0..ROUNDS {
        drawn = next_drawn(drawn);
        rounds.push(Round {
            number: before + 1,
            drawn,
        })?;
    }
    Ok(rounds)
}

fn next_drawn(drawn: u64) -> u64
    ensures { result ≡ run.next_drawn drawn }
{
    drawn
        .wrapping_mul(6364136223846793005)
        .wrapping_add(1442695040888963407)
}

impl Round {
    /// Its random number.
    pub fn random(self) -> u64
        ensures { result ≡ run.random self }
    {
        self.drawn >> 33
    }

    /// The most bytes of a piece.
    pub fn piece(self) -> u64
        ensures { result ≡ run.piece self }
    {
        1 + self.random() % 7
    }

    /// How many elements the list has that it calls `each` with.
    pub fn element_count(self) -> u64
        ensures { result ≡ run.element_count self }
    {
        self.number % 5
    }

    /// The procedure that it calls.
    pub fn called(self) -> Called
        ensures { result ≡ run.called self }
    {
        match self.number % 4 {
            1 => Called::Echo,
            2 => Called::Log,
            3 => Called::Each,
            _ => Called::Book,
        }
    }
}
