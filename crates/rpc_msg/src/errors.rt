// Errors within responses. They are rare, so that they stand apart from the reading of data.
ghost use Rattle.std.specs.Prelude.{◌^◌, ◌≤◌, FitsSigned, IfOk};
ghost use Rattle.std.specs.Int.{w64};
ghost use Rattle.bp_grammar.specs.Reading.{read, read_parts};
ghost use Rattle.bp_value.specs.Form as form;
ghost use Rattle.bp_value.specs.declared.value.Value.TheVariants as val;
ghost use Rattle.rpc_msg.specs.Taken.{TakesAs};
ghost use Rattle.rpc_msg.specs.Forms.{error_form, unimplemented_parts};
ghost use Rattle.rpc_msg.specs.Values.{error_value, unimplemented_values};

use crate::message::RpcError;
use crate::tags::VERSION;
use crate::values::value_at;
use bp_codec::heads::{number_at, place_at, tag_at, text_at};
use bp_codec::stop::Stop;
use bp_num::IntKind;
use bp_value::{Blob, Sexp, Shape, Value};
use std::alloc::Global;

/// An error (`protocol.ml`, `Rpc_error.t`).
#[inline(never)]
pub fn error_at(rest: &mut &[u8], alloc: Global, max_len: u64) -> Result<RpcError, Stop>
    requires { max_len ≤ 2 ^ 30 }
    ensures { TakesAs error_value (read max_len error_form) rest.old.now rest.new.now result }
{
    match place_at(rest, 6)? {
        0 => Ok(RpcError::BinIo(sexp_at(rest, alloc, max_len)?)),
        1 => Ok(RpcError::ConnectionClosed),
        2 => Ok(RpcError::WriteError(sexp_at(rest, alloc, max_len)?)),
        3 => Ok(RpcError::Uncaught(sexp_at(rest, alloc, max_len)?)),
        4 => {
            let (tag, version) = unimplemented_at(rest, alloc, max_len)?;
            Ok(RpcError::Unimplemented { tag, version })
        }
        _ => Ok(RpcError::UnknownId(number_at(rest, IntKind::Int63)?)),
    }
}

// The name and the version that no procedure has.
fn unimplemented_at(rest: &mut &[u8], alloc: Global, max_len: u64) -> Result<(Blob, i64), Stop>
    requires { max_len ≤ 2 ^ 30 }
    ensures takes { TakesAs unimplemented_values (read_parts max_len unimplemented_parts)
        rest.old.now rest.new.now result }
    ensures fits { IfOk result (λ pair. FitsSigned w64 pair.1) }
{
    let tag = text_at(rest, alloc, max_len)?;
    tag_at(rest, &[VERSION])?;
    let version = number_at(rest, IntKind::Int63)?;
    Ok((tag, version))
}

fn sexp_at(rest: &mut &[u8], alloc: Global, max_len: u64) -> Result<Sexp, Stop>
    requires { max_len ≤ 2 ^ 30 }
    ensures { TakesAs val.Sexp (read max_len form.sexp) rest.old.now rest.new.now result }
{
    match value_at(rest, alloc, &Shape::Sexp, max_len)? {
        Value::Sexp(sexp) => Ok(sexp),
        _ => unreachable!(),
    }
}
