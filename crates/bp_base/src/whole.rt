// Whole streams: reading a source to its end, and writing a piece to its end.
ghost use Rattle.std.specs.Prelude.{◌≡◌, ◌<◌, List, ℕ, true, length, take, is_ok, if◌then◌else◌, OnOk, IfOk, IfErr, IfSome, IsErr, IsErrOf};
ghost use Rattle.std.specs.Io.KnownBytes.{IsAtEnd};
ghost use Rattle.bp_base.specs.Faults.{Counts};
ghost use Rattle.bp_base.specs.Told.{Gains};
ghost use Rattle.bp_base.specs.Whole.{Came, AnswersWhole};

use crate::{Patience, ReadAllError, ReadGot, Sink, Source, WriteFault, Wrote};
use std::alloc::Global;

/// How many bytes a read asks of its source at most.
const CHUNK: usize = 8 * 1024;

/// Reads with `Forever` to the end, and answers all bytes given in this call.
///
/// Refused by `ReadFault`; by `TooLong` as soon as more than `max` bytes came; by `OutOfMemory`.
pub fn read_all<S: Source>(alloc: Global, src: &mut S, max: usize) -> Result<Vec<u8>, ReadAllError>
    ensures came { (bytes : List ℕ)
        × Came S.given S.left src.old src.new bytes × AnswersWhole max result bytes }
    ensures whole { IfOk result (λ all. IfSome (S.left src.old) (λ left. all.items ≡ left)) }
    ensures at_end { OnOk result (IsAtEnd (S.left src.new)) }
    ensures ended { S.ended src.new ≡ (if is_ok result then true else S.ended src.old) }
    ensures faults { Counts S.faults src.old src.new (IsErrOf result ReadAllError.ReadFault) }
{
    let mut all = Vec::new(alloc);
    let mut chunk = [0; CHUNK];
    'reads: loop {
        match src.read(&mut chunk, Patience::Forever) {
            ReadGot::Bytes(count) => {
                if count > max - all.len() {
                    return Err(ReadAllError::TooLong { max });
                }
                all.extend_from_slice(&chunk[..count])?;
            }
            ReadGot::End => return Ok(all),
            ReadGot::Failed => return Err(ReadAllError::ReadFault),
            ReadGot::Idle => unreachable!(),
        }
    }
}

/// Writes the whole piece. It takes no memory, and leaves the flush to the caller.
pub fn write_all<K: Sink>(sink: &mut K, piece: &[u8]) -> Result<(), WriteFault>
    ensures ok { OnOk result (Gains K.put sink.old sink.new piece.now) }
    ensures written { IfErr result (λ fault. Gains K.put sink.old sink.new
        (take fault.written piece.now)) }
    ensures within { IfErr result (λ fault. fault.written < length piece.now) }
    ensures faults { Counts K.faults sink.old sink.new (IsErr result) }
{
    let mut written = 0;
    'writes: while written < piece.len() {
        match sink.write(&piece[written..]) {
            Wrote::Bytes(count) => written += count,
            Wrote::Failed => return Err(WriteFault { written }),
        }
    }
    Ok(())
}
