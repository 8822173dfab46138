// Heads of S-expressions.

ghost use Rattle.std.specs.Prelude.{◌^◌, ◌<◌};
ghost use Rattle.bp_num.specs.NumberAt.{nat_at};
ghost use Rattle.bp_grammar.specs.Spells.{room};
ghost use Rattle.bp_codec.specs.Keeping.{Gives};
ghost use Rattle.bp_codec.specs.Sexps.{sexp_head_at};

use crate::heads::{flag_at, length_at, text_at};
use crate::stop::Stop;
use bp_num::Why;
use bp_value::Blob;
use std::alloc::Global;

/// What an S-expression begins with.
#[derive(Drop)]
pub enum SexpHead {
    /// All of an atom.
    Atom(Blob),
    /// The length of a list.
    List(usize),
}

/// An atom, or the length of a list whose items may be `depth` deep. A head that is cut leaves the
/// cursor.
pub fn sexp_head(rest: &mut &[u8], alloc: Global, depth: u32, max: u64) -> Result<SexpHead, Stop>
    requires { max < 2 ^ 62 }
    ensures { Gives (sexp_head_at max depth) rest.old.now rest.new.now result }
{
    let before = *rest;
    let head = match flag_at(rest, Why::Case) {
        Ok(false) => text_at(rest, alloc, max).map(SexpHead::Atom),
        Ok(true) => list_length(rest, depth, max).map(SexpHead::List),
        Err(stop) => return Err(stop),
    };
    if let Err(Stop::More) = head {
        *rest = before;
    }
    head
}

// The length of a list whose items may be `depth` deep: none where no item may stand.
fn list_length(rest: &mut &[u8], depth: u32, max: u64) -> Result<usize, Stop>
    requires { max < 2 ^ 62 }
    ensures { Gives (nat_at (room max depth)) rest.old.now rest.new.now result }
{
    length_at(rest, if depth == 0 { 0 } else { max })
}
