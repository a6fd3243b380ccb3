//! What a look tells of bytes: where lines end.

ghost use Rattle.std.specs.Prelude.{◌≡◌};
ghost use Rattle.gob_device.specs.Supply.{line_end_or_zero, seen_by_look};

fn only_line_end(byte: u8) -> u8
    ensures { result ≡ line_end_or_zero byte }
{
    if byte == b'\n' { b'\n' } else { 0 }
}

/// Leaves line feeds in the bytes, and 0 for every other one.
pub fn keep_line_ends(bytes: &mut [u8])
    ensures { bytes.new ≡ seen_by_look bytes.old }
{
    for byte in bytes.iter_mut() {
        *byte = only_line_end(*byte);
    }
}
