//! Reads that fill the front of a buffer.

ghost use Rattle.std.specs.Prelude.{◌≡◌, ◌≤◌, length, take, drop};
ghost use Rattle.gob_device.specs.Supply.{Fills};

/// Fills the front of a buffer with what stands from an offset on, and answers how many bytes.
pub fn fill_from(bytes: &[u8], at: u64, into: &mut [u8]) -> usize
    ensures within { result ≤ length into.old }
    ensures fills { Fills into.new result (take (length into.old) (drop at bytes.now)) }
{
    let at = (at as usize).min(bytes.len());
    let rest = &bytes[at..];
    let count = rest.len().min(into.len());
    into[..count].copy_from_slice(&rest[..count]);
    count
}
