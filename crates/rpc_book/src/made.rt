// The dispatches of a book, in the order in which they were made.
ghost use Rattle.std.specs.Prelude.{◌≡◌, ◌+◌, ◌<◌, ◌^◌, IfOk, Some, vec_capacity, vec_len};
ghost use Rattle.std.specs.List.{find, position};
ghost use Rattle.rpc_book.specs.Books.{changed};
ghost use Rattle.rpc_book.specs.Calls.{with_count};
ghost use Rattle.rpc_book.specs.Inside.{cut_behind, has_made_id};

use bp_value::{Blob, OutOfMemory};
use rpc_client::Took;
use rpc_schema::RpcDesc;
use std::alloc::Global;

/// A dispatch that was made.
#[derive(Debug, Drop)]
pub struct Made {
    /// What its caller calls it.
    pub label: Blob,
    /// The id of its query: even where an answer is waited for, odd where it is one-way.
    pub id: i64,
    pub desc: RpcDesc,
    /// How many parts it had received when it was aborted, if it was.
    pub cut: Option<u64>,
    /// How many of its parts were taken.
    pub taken: u64,
}

/// Makes room for one more dispatch, and copies its procedure.
pub fn prepare(made: &mut Vec<Made>, alloc: Global, desc: &RpcDesc) -> Result<RpcDesc, OutOfMemory>
    ensures items { made.new.items ≡ made.old.items }
    ensures copy { IfOk result (λ copy.
        (copy ≡ desc.now) × (vec_len made.new < vec_capacity made.new)) }
{
    made.reserve(1)?;
    desc.copy(alloc)
}

/// Counts what was handed out of the dispatch with an id.
pub fn count_taken(made: &mut Vec<Made>, id: i64, took: &Took)
    requires { (m : Made) → find (has_made_id id) made.old.items ≡ Some m → m.taken + 1 < 2 ^ 64 }
    ensures { made.new.items ≡ changed (has_made_id id) (with_count took.now) made.old.items }
{
    let Took::Part(_) = took else {
        return;
    };
    if let Some(at) = place_of(made.as_slice(), id) {
        made[at].taken += 1;
    }
}

/// Cuts the dispatch with an id behind its parts: those that were taken, and so many more.
pub fn cut(made: &mut Vec<Made>, id: i64, waiting: usize)
    requires { (m : Made) → find (has_made_id id) made.old.items ≡ Some m
        → m.taken + waiting < 2 ^ 64 }
    ensures { made.new.items ≡ changed (has_made_id id) (cut_behind waiting) made.old.items }
{
    if let Some(at) = place_of(made.as_slice(), id) {
        let one = &mut made[at];
        one.cut = Some(one.taken + waiting as u64);
    }
}

// The place of the dispatch with an id.
fn place_of(made: &[Made], id: i64) -> Option<usize>
    ensures { result ≡ position (has_made_id id) made.now }
{
    made.iter().position(|one| one.id == id)
}
