// The machine: values are read until one is whole, or bytes are missing or at fault.

ghost use Rattle.std.specs.Prelude.{◌≡◌, ◌^◌, ◌<◌, ◌≤◌, ℕ, length, Err, OnOk};
ghost use Rattle.bp_codec.specs.Keeping.{LeavesSome};
ghost use Rattle.bp_codec.specs.Levels.{next_of};
ghost use Rattle.bp_codec.specs.Opened.{IsNoParts, Reaches};
ghost use Rattle.bp_codec.specs.Taking.{EndsAll, Moves};

use crate::levels::Next;
use crate::open::Open;
use crate::plan::{Node, Plan};
use crate::stop::Stop;
use bp_value::Value;
use std::alloc::Global;

/// The greatest depth of an S-expression.
const SEXP_DEPTH: u32 = 128;

impl Open {
    /// Reads on until the value is whole.
    ///
    /// Each turn takes at least one byte. Where bytes are missing, the cursor stands where the next
    /// head begins.
    fn run(&mut self, alloc: Global, plan: &Plan, rest: &mut &[u8], max: u64) -> Result<Value, Stop>
        requires reach { Reaches (length plan.now.nodes.items) self.old }
        requires limit { max < 2 ^ 62 }
        ensures ends { EndsAll plan.now.nodes.items plan.now.tags.items max self.old self.new
            rest.old.now rest.new.now result }
        ensures reach { result ≡ Err Stop.More → Reaches (length plan.now.nodes.items) self.new }
        ensures left { OnOk result (length rest.new.now ≤ length rest.old.now) }
        ensures cut { result ≡ Err Stop.More → LeavesSome rest.old.now rest.new.now }
    {
        'values: loop {
            match self.settle(alloc) {
                Ok(Some(value)) => return Ok(value),
                Ok(None) => {}
                Err(stop) => return Err(stop),
            }
            let next = self.descend(alloc, plan)?;
            self.take(alloc, plan, next, rest, max)?;
        }
    }

    /// Reads on in some bytes, and answers what is left of them.
    pub fn read_on<'a>(
        &mut self,
        alloc: Global,
        plan: &Plan,
        bytes: &'a [u8],
        max: u64,
    ) -> (Result<Value, Stop>, &'a [u8])
        requires reach { Reaches (length plan.now.nodes.items) self.old }
        requires limit { max < 2 ^ 62 }
        ensures ends { EndsAll plan.now.nodes.items plan.now.tags.items max self.old self.new
            bytes.now result.1.now result.0 }
        ensures reach { result.0 ≡ Err Stop.More → Reaches (length plan.now.nodes.items) self.new }
        ensures cut { result.0 ≡ Err Stop.More → LeavesSome bytes.now result.1.now }
    {
        let mut rest = bytes;
        let result = self.run(alloc, plan, &mut rest, max);
        (result, rest)
    }

    // Reads what comes next, or its head: at least one byte.
    fn take(
        &mut self,
        alloc: Global,
        plan: &Plan,
        next: Next,
        rest: &mut &[u8],
        max: u64,
    ) -> Result<(), Stop>
        requires next { next_of self.old.top.left ≡ next }
        requires parts { IsNoParts plan.now.nodes.items next }
        requires reach { Reaches (length plan.now.nodes.items) self.old }
        requires limit { max < 2 ^ 62 }
        ensures { Moves plan.now.nodes.items plan.now.tags.items max self.old self.new
            rest.old.now rest.new.now result }
    {
        let place = match next {
            Next::Node(place) => place,
            Next::Sexp(depth) => return self.take_sexp(alloc, depth, rest, max),
            Next::Nothing => unreachable!(),
        };
        match plan.nodes[place] {
            Node::Unit => self.top.take_unit(rest),
            Node::Bool => self.top.take_bool(rest),
            Node::Char => self.top.take_char(rest),
            Node::Int(kind) => self.top.take_numbers(kind, rest),
            Node::Text => self.top.take_texts(alloc, rest, max),
            Node::Opt(item) => self.take_option(alloc, item, rest),
            Node::List(item) => self.take_list(alloc, item, rest, max),
            Node::Sum { first, count } => self.take_sum(alloc, plan, first, count, rest),
            Node::Poly { first, count, tags } => {
                let tags = plan.tags_at(tags, count);
                self.take_poly(alloc, plan, first, tags, rest)
            }
            Node::Sexp => self.take_sexp(alloc, SEXP_DEPTH, rest, max),
            // No value stands for the arguments of a case.
            Node::Args { .. } => Err(Stop::More),
            Node::Parts { .. } => unreachable!(),
        }
    }
}
