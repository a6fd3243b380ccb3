//! Where lines end.
ghost use Rattle.std.specs.Prelude.{◌≡◌};
ghost use Rattle.gob_bytes.specs.Lines.{first_end, last_end};

use memchr::{memchr, memrchr};

/// The offset after the first line feed.
pub fn first_line_end(bytes: &[u8]) -> Option<usize>
    ensures { result ≡ first_end bytes.now }
{
    Some(memchr(b'\n', bytes)? + 1)
}

/// The offset after the last line feed.
pub fn last_line_end(bytes: &[u8]) -> Option<usize>
    ensures { result ≡ last_end bytes.now }
{
    Some(memrchr(b'\n', bytes)? + 1)
}
