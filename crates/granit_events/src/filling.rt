//! Bytes into a buffer.
ghost use Rattle.std.specs.Prelude.{◌≡◌, ◌++◌, length, take, drop, min};

/// Moves the first bytes to the front of a buffer, at most `most`, and answers how many.
pub fn fill(buf: &mut [u8], bytes: &[u8], most: usize) -> usize
    ensures count { result ≡ min (min (length bytes.now) most) (length buf.new) }
    ensures moved { bytes.now ≡ take result buf.new ++ drop result bytes.now }
{
    let count = bytes.len().min(most).min(buf.len());
    buf[..count].copy_from_slice(&bytes[..count]);
    count
}
