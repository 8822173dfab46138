// The value that stands in front of some bytes.
ghost use Rattle.std.specs.Prelude.{◌≡◌, ◌^◌, ◌<◌, ◌≤◌, ◌++◌, ℕ, List, length, IfOk};
ghost use Rattle.bp_value.specs.Form.{form_of};
ghost use Rattle.bp_value.specs.Faults.{IsGood};
ghost use Rattle.bp_value.specs.declared.value.Value as value;
ghost use Rattle.bp_grammar.specs.Spells.{Spells};
ghost use Rattle.bp_codec.specs.Decoded.{HasNodes, NoneBegins, IsDecoded};
ghost use Rattle.bp_codec.specs.declared.decoding.Decoded.TheVariants as decoded;

use crate::reader::Reader;
use bp_num::Why;
use bp_value::{OutOfMemory, Shape, Value};
use std::alloc::Global;

/// What stands in front of some bytes.
#[derive(Debug, Drop)]
pub enum Decoded {
    /// A value, in the first `used` bytes.
    Whole { value: Value, used: usize },
    /// The bytes begin a value, and end before it does.
    More,
    /// No value: the first faulty byte is at `at`.
    Bad { at: usize, why: Why },
}

/// Reads the value of a shape that stands in front of some bytes (bin_prot, "Binary protocol
/// specification"). No text or list in it is longer than `max_len`, and each form of a number is
/// taken, also a longer one than the shortest.
///
/// What is open is kept in a list, so that no value is too deep. The time is linear in the bytes
/// that are read and in the nodes of the shape; no length that is read makes more room than the
/// bytes that are left can fill.
pub fn decode(
    alloc: Global,
    shape: &Shape,
    bytes: &[u8],
    max_len: u64,
) -> Result<Decoded, OutOfMemory>
    requires good { IsGood (form_of shape.now) }
    requires limit { max_len ≤ 2 ^ 30 }
    ensures told { IfOk result (λ answer. IsDecoded max_len (form_of shape.now) bytes.now answer) }
    ensures only { (d : Decoded) → IsDecoded max_len (form_of shape.now) bytes.now d
        → IfOk result (λ answer. d ≡ answer) }
    ensures again { (v : Value) (t u : List ℕ) → Spells max_len (form_of shape.now) v t
        → bytes.now ≡ t ++ u → IfOk result (λ answer. decoded.Whole v (length t) ≡ answer) }
    ensures apart { NoneBegins max_len (form_of shape.now) }
    ensures nodes { IfOk result HasNodes }
{
    let mut reader = Reader::new(alloc, shape, max_len)?;
    countable(bytes);
    reader.feed(bytes)
}

// What the type of bytes says of their number, for the proof.
fn countable(bytes: &[u8])
    ensures { length bytes.now < 2 ^ 64 }
{
    let _ = bytes.len();
}
