// The last menu that a client received.
ghost use Rattle.std.specs.Prelude.{◌≡◌, IfOk, option_copied};
ghost use Rattle.readers.specs.Reader.{Each};
ghost use Rattle.rpc_talk.specs.Acts.{is_menu};
ghost use Rattle.rpc_pair.specs.Kept.{IsKept, IsMenuLast};
ghost use Rattle.rpc_pair.specs.Menus.{AnswersMenu};

use bp_value::{OutOfMemory, Value};
use rpc_book::{Book, Made};
use rpc_msg::{Ending, Received, Ticket};
use rpc_schema::{Menu, RpcDesc, menu_from};
use std::alloc::Global;

/// The name of the procedure that answers the menu.
const MENU_NAME: &[u8] = b"__Versioned_rpc.Menu";

/// The menu in the reply of the latest dispatch that asks for it and whose reply came.
pub fn last_menu(alloc: Global, book: &Book) -> Result<Option<Menu>, OutOfMemory>
    requires { Each IsKept book.now.made }
    ensures { IfOk result (IsMenuLast book.now) }
{
    let made = book.made();
    let mut left = made.len();
    'made: while left > 0 {
        left -= 1;
        if let Some(value) = menu_reply(book, &made[left]) {
            return Ok(Some(menu_from(alloc, value)?));
        }
    }
    Ok(None)
}

// The reply of a dispatch, if it asks for the menu.
fn menu_reply<'a>(book: &'a Book, made: &Made) -> Option<&'a Value>
    ensures { AnswersMenu book.now made.now (option_copied result) }
{
    if !is_menu(&made.desc) {
        return None;
    }
    let Received { parts: _, ending } = book.received(&Ticket { id: made.id })?;
    match ending {
        Some(Ending::Reply(value)) => Some(value),
        _ => None,
    }
}

// Whether the procedure is that of the menu.
fn is_menu(desc: &RpcDesc) -> bool
    ensures { result ≡ is_menu desc.now.name desc.now.version }
{
    desc.name.as_slice() == MENU_NAME && desc.version == 1
}
