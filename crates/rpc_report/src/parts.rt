// The parts of a text. Where memory runs out, a front of the text may have been appended.

ghost use Rattle.std.specs.Prelude.{◌++◌};
ghost use Rattle.std.specs.Fmt.{decimal};
ghost use Rattle.bp_text.specs.Printing.{Appends};
ghost use Rattle.bp_text_grammar.specs.Printed.{decimal_text};

use bp_text::{put_decimal, put_natural};
use bp_value::OutOfMemory;

/// A word alone.
pub fn append_word(word: &[u8], out: &mut Vec<u8>) -> Result<(), OutOfMemory>
    ensures { Appends word.now out.old.items out.new.items result }
{
    out.extend_from_slice(word)?;
    Ok(())
}

/// A word, and the id of a query.
pub fn append_id(word: &[u8], id: i64, out: &mut Vec<u8>) -> Result<(), OutOfMemory>
    ensures { Appends (word.now ++ decimal_text id) out.old.items out.new.items result }
{
    append_word(word, out)?;
    put_decimal(id, out)
}

/// A word, and a place or a count.
pub fn append_count(word: &[u8], count: u64, out: &mut Vec<u8>) -> Result<(), OutOfMemory>
    ensures { Appends (word.now ++ decimal count) out.old.items out.new.items result }
{
    append_word(word, out)?;
    put_natural(count, out)
}
