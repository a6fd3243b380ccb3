//! Files on a volume: how they are placed, and what stands there.
ghost use Rattle.std.specs.Prelude.{◌≡◌};
ghost use Rattle.std.specs.List.{list_all};
ghost use Rattle.gob_device.specs.Names.{is_name_byte, is_pathname};

use gob_plan::Text;
use gob_volume::{MemVolume, Volume};
use std::alloc::Global;
use std::test::Fail;

/// A name, and what the file holds.
pub(crate) type File = (&'static str, &'static [u8]);

/// A volume with these files.
pub(crate) fn volume_of(alloc: Global, files: &[File]) -> Result<MemVolume, Fail> {
    let mut volume = MemVolume::new(alloc, Vec::new(alloc));
    for i in 0..files.len() {
        let (name, bytes) = files[i];
        volume.put(name, bytes)?;
    }
    Ok(volume)
}

fn has_no_nul(bytes: &[u8]) -> bool
    ensures { result ≡ list_all is_name_byte bytes.now }
{
    bytes.iter().all(|b| *b != 0)
}

fn is_pathname(name: &str) -> bool
    ensures { result ≡ is_pathname name.now }
{
    !name.is_empty() && has_no_nul(name.as_bytes())
}

fn contents<V: Volume>(alloc: Global, volume: &mut V, name: &str) -> Result<Vec<u8>, Fail> {
    if !is_pathname(name) {
        return Err(Fail::from("no name"));
    }
    match volume.read(alloc, name) {
        Ok(Some(bytes)) => Ok(bytes),
        _ => Err(Fail::from("no file")),
    }
}

fn push_file<V: Volume>(
    alloc: Global,
    into: &mut Vec<u8>,
    volume: &mut V,
    name: &str,
) -> Result<(), Fail> {
    let bytes = contents(alloc, volume, name)?;
    into.extend_from_slice(name.as_bytes())?;
    into.extend_from_slice(b"=")?;
    into.extend_from_slice(&bytes)?;
    into.extend_from_slice(b" ")?;
    Ok(())
}

fn push_files<V: Volume>(
    alloc: Global,
    into: &mut Vec<u8>,
    volume: &mut V,
    names: &[Text],
) -> Result<(), Fail> {
    for i in 0..names.len() {
        push_file(alloc, into, volume, names[i].as_str())?;
    }
    Ok(())
}

/// Each file with what it holds, in byte order of names.
pub(crate) fn all_files<V: Volume>(alloc: Global, volume: &mut V) -> Result<Vec<u8>, Fail> {
    let Ok(names) = volume.names(alloc, "") else {
        return Err(Fail::from("no names"));
    };
    let mut text = Vec::new(alloc);
    push_files(alloc, &mut text, volume, &names)?;
    Ok(text)
}
