// The events of all rounds, in blocks.
ghost use Rattle.std.specs.Prelude.{◌≡◌, ◌++◌, reverse, flat_map, IfOk};
ghost use Rattle.std.specs.List.{range_with_len};
ghost use Rattle.rpc_pair.specs.Generated as run;

use crate::generating::events::Events;
use crate::generating::rounds::{Round, rounds};
use bp_value::OutOfMemory;
use rpc_schedule::Event;
use std::alloc::Global;

/// How many rounds a block has.
const BLOCK: usize = 10;

impl Events {
    /// The rounds for which numbers are drawn from `n` on, in blocks.
    pub fn add_rounds(&mut self, alloc: Global, n: u64) -> Result<(), OutOfMemory>
        ensures { IfOk result (λ done.
            self.new ≡ self.old ++ flat_map (run.events_at n) (range_with_len 1 run.round_count)) }
    {
        let rounds = rounds(alloc, n)?;
        for (index, round) in rounds.iter().enumerate() {
            self.add_round(alloc, *round)?;
            let end = index + 1;
            if end.is_multiple_of(BLOCK) {
                self.add_block(alloc, round.piece(), &rounds[end - BLOCK..end])?;
            }
        }
        Ok(())
    }

    /// Everything goes up and down.
    pub fn add_moves(&mut self, piece: u64) -> Result<(), OutOfMemory>
        ensures { IfOk result (λ done. self.new ≡ self.old ++ run.all_moves piece) }
    {
        self.add(Event::Up {
            count: None,
            by: piece,
        })?;
        self.add(Event::Down {
            count: None,
            by: piece,
        })
    }

    // The end of a block of these rounds.
    fn add_block(&mut self, alloc: Global, by: u64, rounds: &[Round]) -> Result<(), OutOfMemory>
        ensures { IfOk result (λ done. self.new ≡ self.old ++ run.block_events by rounds.now) }
    {
        self.add(Event::Up { count: None, by })?;
        self.add_all_answers(alloc, rounds)?;
        self.add(Event::Down { count: None, by })?;
        self.add_all_late(alloc, rounds)
    }

    // The calls are answered, the last one first.
    fn add_all_answers(&mut self, alloc: Global, rounds: &[Round]) -> Result<(), OutOfMemory>
        ensures { IfOk result (λ done.
            self.new ≡ self.old ++ flat_map run.answers (reverse rounds.now)) }
    {
        for round in rounds.iter().rev() {
            self.add_answers(alloc, *round)?;
        }
        Ok(())
    }

    fn add_all_late(&mut self, alloc: Global, rounds: &[Round]) -> Result<(), OutOfMemory>
        ensures { IfOk result (λ done.
            self.new ≡ self.old ++ flat_map run.late rounds.now) }
    {
        for round in rounds {
            self.add_late(alloc, *round)?;
        }
        Ok(())
    }
}
