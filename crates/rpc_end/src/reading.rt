// Headers and messages, as what their bodies read as.
ghost use Rattle.std.specs.Prelude.{◌^◌, ◌≤◌, ◌↔◌, IsTrue};
ghost use Rattle.rpc_end.specs.Told.{IsTold};
ghost use Rattle.rpc_log.specs.Readings.{fault_in, header_in, message_in, has_one};
ghost use Rattle.rpc_msg.specs.Forms.{header_form, message_form};

use rpc_msg::{Header, Message, MsgError, read_header, read_message};
use std::alloc::Global;

/// The message that a body is.
pub fn message_in(alloc: Global, body: &[u8], max: u64) -> Result<Message, MsgError>
    requires { max ≤ 2 ^ 30 }
    ensures { IsTold (message_in max body.now) (fault_in max message_form body.now) result }
{
    read_message(alloc, body, max)
}

/// The header that a body is.
pub fn header_in(alloc: Global, body: &[u8], max: u64) -> Result<Header, MsgError>
    requires { max ≤ 2 ^ 30 }
    ensures { IsTold (header_in max body.now) (fault_in max header_form body.now) result }
{
    read_header(alloc, body, max)
}

/// Whether version 1 is among those of a header.
pub fn has_one(header: &Header) -> bool
    ensures { IsTrue result ↔ IsTrue (has_one header.now) }
{
    header.has_one()
}
