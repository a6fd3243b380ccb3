// Additions to a buffer: each adds all that it says, or leaves the buffer as it was.
ghost use Rattle.std.specs.Prelude.{◌≡◌, ◌++◌, OnOk};
ghost use Rattle.std.specs.Fmt.{signed_decimal};
ghost use Rattle.gob_formats.specs.Adding.{KeepsFront};

use itoa::Buffer;
use std::alloc::AllocError;

pub(crate) fn add(bytes: &[u8], into: &mut Vec<u8>) -> Result<(), AllocError>
    ensures ok { OnOk result (into.new.items ≡ into.old.items ++ bytes.now) }
    ensures keeps { KeepsFront into.old.items into.new.items }
{
    into.extend_from_slice(bytes)?;
    Ok(())
}

/// Adds the integer in decimal digits.
pub(crate) fn write_int(n: i64, into: &mut Vec<u8>) -> Result<(), AllocError>
    ensures ok { OnOk result (into.new.items ≡ into.old.items ++ signed_decimal n) }
    ensures keeps { KeepsFront into.old.items into.new.items }
{
    into.extend_from_slice(Buffer::new().format(n).as_bytes())?;
    Ok(())
}
