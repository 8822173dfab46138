// What comes next is read: each kind of node takes at least one byte.

ghost use Rattle.std.specs.Prelude.{◌≡◌, ◌^◌, ◌<◌, ℕ, length, take, drop, slice_get, OnOk, IfErr};
ghost use Rattle.readers.specs.Reader.{mapped};
ghost use Rattle.bp_codec.specs.Levels.{reach_of};
ghost use Rattle.bp_codec.specs.Nodes.{AreCases, IsCase};
ghost use Rattle.bp_codec.specs.Opened.{HasRoom};
ghost use Rattle.bp_codec.specs.Plan.{args_in};
ghost use Rattle.bp_codec.specs.Taking.{EntersCase, TakesAt, TakesNode, TakesPoly, TakesSexp};
ghost use Rattle.bp_codec.specs.declared.plan.Node.TheVariants as node;

use crate::heads::{flag_at, length_at, place_at, tag_at};
use crate::levels::{Left, Makes};
use crate::open::Open;
use crate::plan::{Node, Plan};
use crate::sexps::{SexpHead, sexp_head};
use crate::stop::Stop;
use bp_num::Why;
use bp_value::{Listed, Sexp, Value};
use std::alloc::Global;

impl Open {
    /// An option: absent, or a level for its value.
    #[inline(never)]
    pub fn take_option(&mut self, alloc: Global, item: usize, rest: &mut &[u8]) -> Result<(), Stop>
        requires { reach_of self.old.top.left < 2 ^ 64 }
        ensures { (max : ℕ)
            → TakesNode max (node.Opt item) self.old self.new rest.old.now rest.new.now result }
    {
        match flag_at(rest, Why::Byte) {
            Ok(false) => self.top.put(Value::Absent),
            Ok(true) => {
                let left = Left::Items {
                    node: item,
                    count: 1,
                };
                self.begin(alloc, left, Makes::Present, 1)
            }
            Err(stop) => Err(stop),
        }
    }

    /// A list: its length, and a level for its items, with room for no more of them than the bytes
    /// that are left.
    #[inline(never)]
    pub fn take_list(
        &mut self,
        alloc: Global,
        item: usize,
        rest: &mut &[u8],
        max: u64,
    ) -> Result<(), Stop>
        requires reach { reach_of self.old.top.left < 2 ^ 64 }
        requires limit { max < 2 ^ 62 }
        ensures moves { TakesNode max (node.List item) self.old self.new
            rest.old.now rest.new.now result }
        ensures room { OnOk result (HasRoom self.old self.new rest.new.now) }
    {
        match length_at(rest, max) {
            Ok(count) => {
                let left = Left::Items { node: item, count };
                self.begin(alloc, left, Makes::Items, count.min(rest.len()))
            }
            Err(stop) => Err(stop),
        }
    }

    /// A variant: the place of a case, and its arguments.
    #[inline(never)]
    pub fn take_sum(
        &mut self,
        alloc: Global,
        plan: &Plan,
        first: usize,
        count: usize,
        rest: &mut &[u8],
    ) -> Result<(), Stop>
        requires reach { reach_of self.old.top.left < 2 ^ 64 }
        requires cases { AreCases plan.now.nodes.items first count }
        ensures { (max : ℕ) → TakesAt plan.now.nodes.items plan.now.tags.items max
            (node.Sum first count) self.old self.new rest.old.now rest.new.now result }
    {
        match place_at(rest, count) {
            Ok(place) => self.take_case(alloc, plan, first + place as usize, place),
            Err(stop) => Err(stop),
        }
    }

    /// A polymorphic variant: the tag of a case, and its argument.
    #[inline(never)]
    pub fn take_poly(
        &mut self,
        alloc: Global,
        plan: &Plan,
        first: usize,
        tags: &[u32],
        rest: &mut &[u8],
    ) -> Result<(), Stop>
        requires reach { reach_of self.old.top.left < 2 ^ 64 }
        requires cases { AreCases plan.now.nodes.items first (length tags.now) }
        requires few { length tags.now < 2 ^ 32 }
        ensures { TakesPoly plan.now.nodes.items plan.now.tags.items first tags.now
            self.old self.new rest.old.now rest.new.now result }
    {
        match tag_at(rest, tags) {
            Ok(place) => self.take_case(alloc, plan, first + place, place as u32),
            Err(stop) => Err(stop),
        }
    }

    // The arguments of a case, which stand at a node; a case without any is put at once.
    fn take_case(&mut self, alloc: Global, plan: &Plan, args: usize, place: u32) -> Result<(), Stop>
        requires reach { reach_of self.old.top.left < 2 ^ 64 }
        requires within { args < length plan.now.nodes.items }
        requires is_case { IsCase plan.now.nodes.items args }
        ensures ok { OnOk result (EntersCase plan.now.nodes.items plan.now.tags.items args place
            self.old self.new) }
        ensures only { IfErr result (λ error. error ≡ Stop.OutOfMemory) }
    {
        match plan.nodes[args] {
            Node::Args { first, count } => {
                if count == 0 {
                    let args = Listed::from_vec(Vec::new(alloc));
                    return self.top.put(Value::Case { place, args });
                }
                let left = Left::Parts { first, count };
                self.begin(alloc, left, Makes::Case(place), count)
            }
            _ => unreachable!(),
        }
    }

    /// An S-expression that is at most `depth` deep: an atom, or a level for the items of a list.
    #[inline(never)]
    pub fn take_sexp(
        &mut self,
        alloc: Global,
        depth: u32,
        rest: &mut &[u8],
        max: u64,
    ) -> Result<(), Stop>
        requires reach { reach_of self.old.top.left < 2 ^ 64 }
        requires limit { max < 2 ^ 62 }
        ensures moves { TakesSexp max depth self.old self.new rest.old.now rest.new.now result }
        ensures room { OnOk result (HasRoom self.old self.new rest.new.now) }
    {
        // A list has no items where they would be too deep.
        let Some(depth) = depth.checked_sub(1) else {
            return Err(Stop::More);
        };
        match sexp_head(rest, alloc, depth, max) {
            Ok(SexpHead::Atom(text)) => self.top.put(Value::Sexp(Sexp::Atom(text))),
            Ok(SexpHead::List(count)) => {
                let left = Left::Sexps { depth, count };
                self.begin(alloc, left, Makes::Sexp, count.min(rest.len()))
            }
            Err(stop) => Err(stop),
        }
    }
}
