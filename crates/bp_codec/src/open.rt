// All that is open while a value is read.

ghost use Rattle.std.specs.Prelude.{◌^◌, ◌≢◌, ℕ, ◌<◌, length, OnOk, IfOk, IfErr, ◌≡◌};
ghost use Rattle.std.specs.Vec.{vec_capacity};
ghost use Rattle.bp_codec.specs.Levels.{next_of, reach_of};
ghost use Rattle.bp_codec.specs.declared.levels.Next.TheVariants as next;

use crate::levels::{Left, Level, Makes, Next};
use crate::plan::{Node, Plan};
use crate::stop::Stop;
use bp_value::Value;
use std::alloc::Global;
use std::mem;

/// The innermost level, and the levels that wait for a value, the innermost last.
#[derive(Drop)]
pub struct Open {
    pub top: Level,
    pub stack: Vec<Level>,
}

impl Open {
    ghost use Rattle.bp_codec.specs.Opened.{Reaches, Opens, IsRoot, IsSettled, GoesDown};

    /// The value of the first node, of which nothing was read.
    pub fn root(alloc: Global) -> Open
        ensures { IsRoot result }
    {
        Open {
            top: Level {
                left: Left::Items { node: 0, count: 1 },
                makes: Makes::Alone,
                values: Vec::new(alloc),
            },
            stack: Vec::new(alloc),
        }
    }

    /// Opens a level, whose value the innermost one waits for.
    #[inline(always)]
    pub fn begin(
        &mut self,
        alloc: Global,
        left: Left,
        makes: Makes,
        room: usize,
    ) -> Result<(), Stop>
        requires { reach_of self.old.top.left < 2 ^ 64 }
        ensures ok { OnOk result (Opens self.old left makes self.new) }
        ensures room { OnOk result (vec_capacity self.new.top.values ≡ room) }
        ensures only { IfErr result (λ error. error ≡ Stop.OutOfMemory) }
    {
        let level = Level {
            left,
            makes,
            values: Vec::with_capacity(alloc, room)?,
        };
        let mut outer = mem::replace(&mut self.top, level);
        outer.left = outer.left.after_next();
        self.stack.push(outer)?;
        Ok(())
    }

    /// Closes the levels that have all their values, and answers the whole value where none is
    /// left.
    pub fn settle(&mut self, alloc: Global) -> Result<Option<Value>, Stop>
        requires { (n : ℕ) × Reaches n self.old }
        ensures ok { IfOk result (λ value. IsSettled self.old self.new value) }
        ensures only { IfErr result (λ error. error ≡ Stop.OutOfMemory) }
    {
        'levels: while let Next::Nothing = self.top.left.next() {
            let Some(outer) = self.stack.pop() else {
                let values = mem::replace(&mut self.top.values, Vec::new(alloc));
                return Ok(Some(self.top.makes.value(alloc, values)?));
            };
            let Level { makes, values, .. } = mem::replace(&mut self.top, outer);
            let value = makes.value(alloc, values)?;
            self.top.values.push(value)?;
        }
        Ok(None)
    }

    /// Opens tuples and records down to what takes a byte, and answers what is read there.
    pub fn descend(&mut self, alloc: Global, plan: &Plan) -> Result<Next, Stop>
        requires some { next_of self.old.top.left ≢ next.Nothing }
        requires reach { Reaches (length plan.now.nodes.items) self.old }
        ensures ok { IfOk result (λ next. GoesDown plan.now.nodes.items plan.now.tags.items
            self.old self.new next) }
        ensures only { IfErr result (λ error. error ≡ Stop.OutOfMemory) }
    {
        let mut next = self.top.left.next();
        'parts: loop {
            let Next::Node(place) = next else {
                return Ok(next);
            };
            let Node::Parts { first, count } = plan.nodes[place] else {
                return Ok(next);
            };
            self.begin(alloc, Left::Parts { first, count }, Makes::Parts, count)?;
            next = Next::Node(first);
        }
    }
}
