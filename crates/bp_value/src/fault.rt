use crate::checking::{MAX_DEPTH, MAX_MEMBERS};
use thiserror::Error;

/// Why a shape is not good: the first fault of its first faulty node, where a node stands before
/// its children, and children in order. The faults of one node stand here in their order. The root
/// has depth 1, and places count from 0 within the node.
///
/// What is printed says the fault and its place in the node, and not which node it is.
#[derive(Debug, Clone, Copy, PartialEq, Eq, Error)]
pub enum ShapeFault {
    /// The node stands deeper than 64.
    #[error("a node at depth {depth}, and {max} is the deepest", max = MAX_DEPTH)]
    TooDeep { depth: usize },
    /// A variant, polymorphic or not, without cases.
    #[error("a variant with no case")]
    EmptySum,
    /// A tuple with fewer than two parts.
    #[error("a tuple whose number of parts is {parts}, and 2 is the least")]
    ShortTuple { parts: usize },
    /// A record without fields.
    #[error("a record with no field")]
    EmptyFields,
    /// More than 256 parts, fields or cases.
    #[error("{count} parts, fields or cases in a node, and {max} are the most", max = MAX_MEMBERS)]
    TooMany { count: usize },
    /// The first name that a field or case may not have.
    #[error("a name out of form at place {place}")]
    BadName { place: usize },
    /// The least place whose name stands earlier, and the least place of that name.
    #[error("the name at place {first} again at place {second}")]
    SameName { first: usize, second: usize },
    /// The least place whose tag stands earlier, and the least place of that tag.
    #[error("the tag of the name at place {first} again at place {second}")]
    TagClash { first: usize, second: usize },
}
