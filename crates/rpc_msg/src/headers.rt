// The header, the first frame of each end.
ghost use Rattle.std.specs.Prelude.{◌≡◌, ◌^◌, ◌<◌, ◌≤◌, ◌↔◌, IsTrue, map};
ghost use Rattle.bp_grammar.specs.Reading.{read};
ghost use Rattle.bp_value.specs.declared.value.Value.TheVariants as val;
ghost use Rattle.rpc_msg.specs.Bodies.{IsBodyRead};
ghost use Rattle.rpc_msg.specs.Forms.{header_form};
ghost use Rattle.rpc_msg.specs.Taken.{TakesAs};
ghost use Rattle.rpc_msg.specs.Values.{header_value, HasOne};

use crate::ends::ended;
use crate::fault::MsgError;
use crate::message::Header;
use bp_codec::heads::{length_at, number_at};
use bp_codec::stop::Stop;
use bp_num::IntKind;
use bp_value::Listed;
use std::alloc::Global;

/// Reads the header that the body of a stream's first frame is (`protocol.ml`, `Header.t`). It has
/// at most `max_len` versions.
pub fn read_header(alloc: Global, body: &[u8], max_len: u64) -> Result<Header, MsgError>
    requires { max_len ≤ 2 ^ 30 }
    ensures { IsBodyRead header_value max_len header_form body.now result }
{
    let mut rest = body;
    let read = header_at(&mut rest, alloc, max_len);
    ended(read, body, rest)
}

fn header_at(rest: &mut &[u8], alloc: Global, max_len: u64) -> Result<Header, Stop>
    requires { max_len ≤ 2 ^ 30 }
    ensures { TakesAs header_value (read max_len header_form) rest.old.now rest.new.now result }
{
    let count = length_at(rest, max_len)?;
    let mut versions = Vec::new(alloc);
    'versions: for _ in 0..count {
        match number_at(rest, IntKind::Int63) {
            Ok(version) => versions.push(version)?,
            Err(stop) => return Err(stop),
        }
    }
    Ok(Header {
        versions: Listed::from_vec(versions),
    })
}

impl Header {
    /// Whether version 1 is among the versions.
    pub fn has_one(&self) -> bool
        ensures { IsTrue result ↔ HasOne self.now }
    {
        self.versions.as_slice().contains(&1)
    }
}
