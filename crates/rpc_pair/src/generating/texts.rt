// The labels and the values of a generated run.
ghost use Rattle.std.specs.Prelude.{◌≡◌, IfOk};
ghost use Rattle.std.specs.Fmt.{decimal};
ghost use Rattle.rpc_pair.specs.Generated as run;

use crate::generating::rounds::Round;
use bp_text::put_natural;
use bp_value::{Blob, OutOfMemory};
use std::alloc::Global;

/// The label of a round's call.
pub fn round_label(alloc: Global, round: Round) -> Result<Blob, OutOfMemory>
    ensures { IfOk result (λ label. label ≡ run.round_label round) }
{
    let mut label = Vec::from_slice(alloc, b"d")?;
    put_natural(round.number, &mut label)?;
    Ok(Blob::from_vec(label))
}

/// The text of a number.
pub fn number_text(alloc: Global, number: u64) -> Result<Blob, OutOfMemory>
    ensures { IfOk result (λ text. text ≡ decimal number) }
{
    let mut text = Vec::new(alloc);
    put_natural(number, &mut text)?;
    Ok(Blob::from_vec(text))
}

/// What a round calls `echo` with.
pub fn echo_text(alloc: Global, round: Round) -> Result<Blob, OutOfMemory>
    ensures { IfOk result (λ text. text ≡ run.echo_text round) }
{
    let count = (round.random() % 100) as usize;
    let mut text = Vec::with_capacity(alloc, count + 2)?;
    text.push(b'"')?;
    text.resize(count + 1, b'a')?;
    text.push(b'"')?;
    Ok(Blob::from_vec(text))
}

/// What a round calls `each` with.
pub fn each_text(alloc: Global, round: Round) -> Result<Blob, OutOfMemory>
    ensures { IfOk result (λ text. text ≡ run.each_text round) }
{
    let mut text = Vec::from_slice(alloc, b"[")?;
    for element in 0..round.element_count() {
        if element > 0 {
            text.extend_from_slice(b"; ")?;
        }
        put_natural(element, &mut text)?;
    }
    text.push(b']')?;
    Ok(Blob::from_vec(text))
}
