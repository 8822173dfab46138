// The lines of a text.
ghost use Rattle.std.specs.Prelude.{◌≡◌, nat_eq, IfOk};
ghost use Rattle.std.specs.List.{slice_split};
ghost use Rattle.rpc_schema.specs.Reading.{slices};
ghost use Rattle.rpc_schema.specs.TextLines as lines;
ghost use Rattle.rpc_schema.specs.TextLines.{line_end};

use std::alloc::{AllocError, Global};

/// What stands before, between and after the ends of lines. The time is linear in the text.
pub fn parts_of(alloc: Global, text: &[u8]) -> Result<Vec<&[u8]>, AllocError>
    ensures { IfOk result (λ parts. slices parts.items
        ≡ slice_split (λ byte. nat_eq byte line_end) text.now) }
{
    text.split(|byte| *byte == b'\n').collect(alloc)
}

/// The lines of a text, by what stands before, between and after their ends: the last line may lack
/// its end.
pub fn without_last_empty<'a>(parts: &'a [&'a [u8]]) -> &'a [&'a [u8]]
    ensures { slices result.now ≡ lines.without_empty_last (slices parts.now) }
{
    let [lines @ .., last] = parts else {
        return parts;
    };
    if last.is_empty() { lines } else { parts }
}

/// Whether a line says nothing: it is empty, or begins with `#`.
pub fn is_skipped(line: &[u8]) -> bool
    ensures { result ≡ lines.is_skipped line.now }
{
    match line {
        [] => true,
        [first, ..] => *first == b'#',
    }
}
