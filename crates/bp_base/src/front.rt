// Copying between buffers of different lengths.
ghost use Rattle.std.specs.Prelude.{◌≡◌, min, length, take, drop};

/// Copies as many bytes as there are, and as fit, to the front of `into`, and answers how many.
pub fn copy_front(bytes: &[u8], into: &mut [u8]) -> usize
    ensures count { result ≡ min (length bytes.now) (length into.old) }
    ensures copied { take result into.new ≡ take result bytes.now }
    ensures rest { drop result into.new ≡ drop result into.old }
{
    let count = bytes.len().min(into.len());
    into[..count].copy_from_slice(&bytes[..count]);
    count
}
