ghost use Rattle.std.specs.Prelude.{◌≡◌, ◌++◌, OnErr, OnOk};
ghost use Rattle.rpc_frame.specs.Frames.{frame};

use bp_value::OutOfMemory;

/// Appends the frame of a body: its length in eight bytes, the low byte first, and the body.
pub fn put_frame(body: &[u8], out: &mut Vec<u8>) -> Result<(), OutOfMemory>
    ensures ok { OnOk result (out.new.items ≡ out.old.items ++ frame body.now) }
    ensures err { OnErr result (out.new.items ≡ out.old.items) }
{
    let length = (body.len() as u64).to_le_bytes();
    out.reserve(length.len().saturating_add(body.len()))?;
    out.extend_from_slice(&length)?;
    out.extend_from_slice(body)?;
    Ok(())
}
