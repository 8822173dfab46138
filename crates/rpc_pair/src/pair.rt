// Both ends of a connection.
ghost use Rattle.std.specs.Prelude.{◌≡◌, ◌+◌, ◌≤◌, IfOk, IsErrOf, OnOk};
ghost use Rattle.bp_base.specs.Faults.{BothGoOn, GoesOn};
ghost use Rattle.rpc_meeting.specs.Steps.{moved_bytes};
ghost use Rattle.readers.specs.Reader.{Each};
ghost use Rattle.rpc_book.specs.Books.{IsSound};
ghost use Rattle.rpc_pair.specs.Kept.{most_piece, IsKept};
ghost use Rattle.rpc_msg.specs.Limits.{AreLimits};
ghost use Rattle.rpc_pair.specs.declared.error.PairError.TheVariants as error;

mod acts;

use crate::carry::carry;
use crate::error::PairError;
use crate::labelled::LabelledBook;
use crate::moved::Moved;
use crate::put::put_out;
use bp_base::Wire;
use bp_value::OutOfMemory;
use rpc_book::{Book, Made};
use rpc_meeting::StepAnswer;
use rpc_msg::{Limits, Received, Ticket};
use rpc_schedule::Event;
use rpc_schema::Schema;
use rpc_server::Server;
use std::alloc::Global;
use std::marker::Model;

/// The most bytes of a piece.
const MAX_PIECE: usize = 65536;

/// Both ends of a connection, whose bytes go over two wires: `up` to the server, and `down` to the
/// client. After each step all that an end had to say is put.
///
/// Over honest wires each dispatch receives just what its own query's handler sent of which the
/// frames came, and neither end is at fault to the other.
#[derive(Drop)]
pub struct Pair {
    book: LabelledBook,
    server: Server,
    limits: Limits,
    moment: u64,
    moved: Moved,
    buffer: Vec<u8>,
    alloc: Global,
}

impl Model for Pair {
    ghost use Rattle.bp_value.specs.contracts.shape.Shape as shape;
    ghost use Rattle.bp_value.specs.contracts.value.Sexp as sexp;
    ghost use Rattle.bp_value.specs.contracts.value.Value as value;
    ghost use Rattle.std.specs.Coded.{codes};
    ghost use Rattle.rpc_pair.specs.Pairs.{PairState};
    ghost use Rattle.rpc_pair.specs.Kept.{IsPair};

    ghost Value = { PairState };

    ghost coded = { Prim.hlevel
        (codes, shape.the_row.coded, value.the_row.coded, sexp.the_row.coded) };

    ghost view = { λ p.
        record { book = p.book; server = p.server; now = p.moment; moved = p.moved } };

    ghost invariant = { λ p. IsPair p.book p.server p.limits p.buffer.items };
}

impl Pair {
    ghost use Rattle.rpc_meeting.specs.Talks.{Common};
    ghost use Rattle.rpc_meeting.specs.Worlds.{first_world, World};
    ghost use Rattle.rpc_pair.specs.Pairs.{HasMade, IsMovable, IsNewPair, ShowsLabel, StartsAs};
    ghost use Rattle.rpc_pair.specs.Wires.{ActsOver, IsHonestly, MovesDownOver, MovesUpOver, PutsOver, ShowsWorld, StandsOver, StartsOver, StepsTo, TurnsOver};

    /// A pair at the moment 0, whose ends have one schema and the same limits.
    pub fn new(alloc: Global, schema: Schema, limits: Limits) -> Result<Pair, OutOfMemory>
        requires { AreLimits limits }
        ensures { IfOk result (IsNewPair schema limits) }
    {
        Ok(Pair {
            book: LabelledBook::new(alloc, limits, 0)?,
            server: Server::new(alloc, schema, limits, 0)?,
            limits,
            moment: 0,
            moved: Moved {
                up: 0,
                up_put: 0,
                down: 0,
                down_put: 0,
            },
            buffer: vec![in alloc; 0; MAX_PIECE]?,
            alloc,
        })
    }

    /// Puts both headers to wires of which nothing was used.
    pub fn start<W: Wire>(&mut self, up: &mut W, down: &mut W) -> Result<(), PairError>
        requires { StartsAs self.old }
        ensures wires { BothGoOn W.faults W.honest up.old up.new down.old down.new
            (IsErrOf result error.WireFault) }
        ensures puts { OnOk result
            (PutsOver W.sent W.given self.old self.new up.old up.new down.old down.new) }
        ensures stands { (r : Common) → StartsOver W.sent W.given r self.old up.old down.old
            → OnOk result (StandsOver W.sent W.given r first_world self.new up.new down.new) }
    {
        self.put_all(up, down)
    }

    /// Does what an event asks for, if it is not refused.
    pub fn step<W: Wire>(
        &mut self,
        event: &Event,
        up: &mut W,
        down: &mut W,
    ) -> Result<StepAnswer, PairError>
        requires { IsMovable event.now }
        ensures wires { BothGoOn W.faults W.honest up.old up.new down.old down.new
            (IsErrOf result error.WireFault) }

        // Whatever the wires give.
        ensures turns { IfOk result (λ answer. TurnsOver W.honest W.sent W.given
            up.old up.new down.old down.new self.old event.now answer self.new) }

        // Over honest wires it is the step of the world.
        ensures stands { (r : Common) (w : World) → IsHonestly W.honest W.sent W.given r w
            self.old up.old down.old → IfOk result (λ answer.
            StepsTo W.sent W.given r w event.now answer self.new up.new down.new) }
    {
        let answer = self.act(event, up, down)?;
        self.put_all(up, down)?;
        Ok(answer)
    }

    /// What the dispatch of this label has received; nothing where no dispatch has it. No memory.
    pub fn received(&self, label: &[u8]) -> Option<Received<'_>>
        ensures shows { ShowsLabel self.now.book label.now result }
        ensures world { ShowsWorld self.now label.now result }
    {
        let made = self.book.under(label)?;
        self.book.as_book().received(&Ticket { id: made.id })
    }

    /// The dispatch of this label; nothing where none has it. No memory.
    pub fn made(&self, label: &[u8]) -> Option<&Made>
        ensures made { HasMade self.now.book label.now result }
        ensures sound { IsSound self.now.book }
    {
        self.book.under(label)
    }

    /// The client, with its dispatches. No memory.
    pub fn book(&self) -> &Book
        ensures book { result.now ≡ self.now.book }
        ensures kept { Each IsKept self.now.book.made }
    {
        self.book.as_book()
    }

    /// The server. No memory.
    pub fn server(&self) -> &Server
        ensures { result.now ≡ self.now.server }
    {
        &self.server
    }

    /// How many bytes were put to each wire, and moved. No memory.
    pub fn moved(&self) -> Moved
        ensures { result ≡ self.now.moved }
    {
        self.moved
    }

    // Does what an event asks for, without what the ends have to say going out.
    fn act<W: Wire>(
        &mut self,
        event: &Event,
        up: &mut W,
        down: &mut W,
    ) -> Result<StepAnswer, PairError>
        requires { IsMovable event.now }
        ensures wires { BothGoOn W.faults W.honest up.old up.new down.old down.new
            (IsErrOf result error.WireFault) }
        ensures acts { IfOk result (λ answer. ActsOver W.honest W.sent W.given
            up.old up.new down.old down.new self.old event.now answer self.new) }
    {
        match event {
            Event::Up { count, by } => {
                self.move_up(*count, *by, up)?;
                Ok(StepAnswer::Done)
            }
            Event::Down { count, by } => {
                self.move_down(*count, *by, down)?;
                Ok(StepAnswer::Done)
            }
            _ => Ok(self.act_quietly(event)?),
        }
    }

    // Bytes move to the server.
    fn move_up<W: Wire>(&mut self, count: Option<u64>, by: u64, up: &mut W) -> Result<(), PairError>
        requires { (1 ≤ by) × (by ≤ most_piece) }
        ensures wire { GoesOn W.faults W.honest up.old up.new (IsErrOf result error.WireFault) }
        ensures moves { OnOk result
            (MovesUpOver W.honest W.sent W.given self.old count by up.old up.new self.new) }
    {
        let flight = self.moved.up_put.saturating_sub(self.moved.up);
        let count = moved_bytes(count, flight);
        let came = carry(
            &mut self.server,
            up,
            &mut self.buffer,
            count,
            by,
            self.moment,
        )?;
        self.moved.up = add(self.moved.up, came)?;
        Ok(())
    }

    // Bytes move to the client.
    fn move_down<W: Wire>(
        &mut self,
        count: Option<u64>,
        by: u64,
        down: &mut W,
    ) -> Result<(), PairError>
        requires { (1 ≤ by) × (by ≤ most_piece) }
        ensures wire { GoesOn W.faults W.honest down.old down.new
            (IsErrOf result error.WireFault) }
        ensures moves { OnOk result
            (MovesDownOver W.honest W.sent W.given self.old count by down.old down.new self.new) }
    {
        let flight = self.moved.down_put.saturating_sub(self.moved.down);
        let count = moved_bytes(count, flight);
        let came = carry(
            &mut self.book,
            down,
            &mut self.buffer,
            count,
            by,
            self.moment,
        )?;
        self.moved.down = add(self.moved.down, came)?;
        Ok(())
    }

    // Puts all that both ends have to say.
    fn put_all<W: Wire>(&mut self, up: &mut W, down: &mut W) -> Result<(), PairError>
        ensures wires { BothGoOn W.faults W.honest up.old up.new down.old down.new
            (IsErrOf result error.WireFault) }
        ensures puts { OnOk result
            (PutsOver W.sent W.given self.old self.new up.old up.new down.old down.new) }
    {
        let client = put_out(&mut self.book, up, &mut self.buffer)?;
        self.moved.up_put = add(self.moved.up_put, client)?;
        let server = put_out(&mut self.server, down, &mut self.buffer)?;
        self.moved.down_put = add(self.moved.down_put, server)?;
        Ok(())
    }
}

// How many of the bytes in flight a movement of so many, or of all, moves.
fn moved_bytes(count: Option<u64>, flight: u64) -> u64
    ensures { result ≡ moved_bytes count flight }
{
    match count {
        Some(count) => count.min(flight),
        None => flight,
    }
}

// A count of bytes that grows. No memory holds as many as a count has no room for.
fn add(count: u64, more: u64) -> Result<u64, OutOfMemory>
    ensures { IfOk result (λ sum. sum ≡ count + more) }
{
    count.checked_add(more).ok_or(OutOfMemory)
}
