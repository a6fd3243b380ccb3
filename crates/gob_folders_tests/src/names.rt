//! Names that a call of a volume may be given.

ghost use Rattle.std.specs.Prelude.{◌≡◌, IsTrue};
ghost use Rattle.std.specs.List.{list_all};
ghost use Rattle.gob_device.specs.Names.{IsPathname, is_name_byte};

fn has_no_nul(bytes: &[u8]) -> bool
    ensures { result ≡ list_all is_name_byte bytes.now }
{
    bytes.iter().all(|b| *b != 0)
}

/// Whether a call may be given the name.
pub fn is_pathname(name: &str) -> bool
    ensures { IsTrue result → IsPathname name.now }
{
    !name.is_empty() && has_no_nul(name.as_bytes())
}
