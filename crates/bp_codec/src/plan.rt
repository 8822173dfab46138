// A shape as a list of nodes, which a decoder goes by.
ghost use Rattle.std.specs.Prelude.{◌≡◌, ◌+◌, ◌<◌, ◌≤◌, length, take, drop};
ghost use Rattle.bp_codec.specs.Nodes.{OptsFit, ListsFit, PartsFit, SumsFit, PolysFit, ArgsFit};

mod making;
#[cfg(test)]
mod tests;

use bp_num::IntKind;

/// A node of a shape. Children are named by their places among all nodes, and stand behind it.
#[derive(Clone, Copy)]
pub enum Node {
    Unit,
    Bool,
    Char,
    Int(IntKind),
    Text,
    /// An option, with the place of its item.
    Opt(usize),
    /// A list, with the place of its item.
    List(usize),
    /// A tuple or a record: its parts stand side by side.
    Parts {
        first: usize,
        count: usize,
    },
    /// A variant: its cases stand side by side, each as `Args`.
    Sum {
        first: usize,
        count: usize,
    },
    /// A polymorphic variant: so do its cases, and its tags stand side by side among all tags, from
    /// `tags` on.
    Poly {
        first: usize,
        count: usize,
        tags: usize,
    },
    /// The arguments of a case, side by side. No value stands for it.
    Args {
        first: usize,
        count: usize,
    },
    Sexp,
}

/// The nodes of a shape, the root first, and the tags of its polymorphic variants as words.
#[derive(Drop)]
pub struct Plan {
    pub nodes: Vec<Node>,
    pub tags: Vec<u32>,
    ghost some: { 0 < length nodes.items },
    ghost opts: { OptsFit nodes.items },
    ghost lists: { ListsFit nodes.items },
    ghost parts: { PartsFit nodes.items },
    ghost sums: { SumsFit nodes.items },
    ghost polys: { PolysFit nodes.items (length tags.items) },
    ghost args: { ArgsFit nodes.items },
}

impl Plan {
    /// The tags of a polymorphic variant: so many, from a place on.
    pub fn tags_at(&self, first: usize, count: usize) -> &[u32]
        requires { first + count ≤ length self.now.tags.items }
        ensures { result.now ≡ take count (drop first self.now.tags.items) }
    {
        &self.tags[first..first + count]
    }
}
