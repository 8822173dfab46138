// The lines of the dispatches of a book. Where memory runs out a front of a line may have been
// appended.
ghost use Rattle.std.specs.Prelude.{◌≡◌, ◌++◌, map, IfSome, OnOk, option_copied};
ghost use Rattle.std.specs.List.{flat_map};
ghost use Rattle.readers.specs.Reader.{Each};
ghost use Rattle.rpc_book.specs.Books.{Booked};
ghost use Rattle.rpc_pair.specs.Kept.{IsKept};
ghost use Rattle.rpc_pair.specs.Sights.{seen_in};
ghost use Rattle.rpc_report.specs.Dispatches.{part_text, IsEndingOf, IsPartOf};
ghost use Rattle.rpc_tool.specs.Reports.{last_text, seen_text};
ghost use Rattle.rpc_tool.specs.Rows.{HasRow, IsRow};

use bp_value::OutOfMemory;
use rpc_msg::{Ending, Part, Received, Ticket};
use rpc_pair::{Book, Made};
use rpc_report::{put_ending, put_head, put_part};
use rpc_schema::RpcDesc;

/// Appends the lines of all dispatches, in the order in which they were made.
pub fn put_dispatches(book: &Book, out: &mut Vec<u8>) -> Result<(), OutOfMemory>
    requires { Each IsKept book.now.made }
    ensures { OnOk result (out.new.items
        ≡ out.old.items ++ flat_map seen_text (map (seen_in book.now) book.now.made)) }
{
    for made in book.made() {
        put_dispatch(book, made, out)?;
    }
    Ok(())
}

/// Appends the lines of a dispatch: its head, its parts, and its ending or that it waits.
pub fn put_dispatch(book: &Book, made: &Made, out: &mut Vec<u8>) -> Result<(), OutOfMemory>
    requires { HasRow book.now made.now }
    ensures { (d : Booked) → IsRow book.now made.now d → OnOk result
        (out.new.items ≡ out.old.items ++ seen_text (seen_in book.now d)) }
{
    let desc = &made.desc;
    put_head(
        made.label.as_slice(),
        made.id,
        desc.name.as_slice(),
        desc.version,
        out,
    )?;
    let Some(Received { parts, ending }) = book.received(&Ticket { id: made.id }) else {
        // A dispatch of the book is found by its id.
        return Ok(());
    };
    put_parts(desc, parts, out)?;
    put_last(desc, ending, out)
}

// The lines of some parts.
fn put_parts(desc: &RpcDesc, parts: &[Part], out: &mut Vec<u8>) -> Result<(), OutOfMemory>
    requires { Each (IsPartOf desc.now) parts.now }
    ensures { OnOk result (out.new.items
        ≡ out.old.items ++ flat_map (part_text desc.now) parts.now) }
{
    for part in parts {
        put_part(desc, part, out)?;
    }
    Ok(())
}

// The line of an ending, or that there is none yet.
fn put_last(desc: &RpcDesc, ending: Option<&Ending>, out: &mut Vec<u8>) -> Result<(), OutOfMemory>
    requires { IfSome (option_copied ending) (IsEndingOf desc.now) }
    ensures { OnOk result (out.new.items
        ≡ out.old.items ++ last_text desc.now (option_copied ending.entry)) }
{
    match ending {
        Some(ending) => put_ending(desc, ending, out),
        None => {
            out.extend_from_slice(b"  waiting\n")?;
            Ok(())
        }
    }
}
