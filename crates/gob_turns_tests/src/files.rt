//! What stands in files.
ghost use Rattle.std.specs.Prelude.{◌≡◌};
ghost use Rattle.std.specs.List.{list_all};
ghost use Rattle.gob_device.specs.Names.{is_name_byte, is_pathname};

use crate::compare::{same_number, same_text};
use gob_plan::StagedFile;
use gob_volume::{MemVolume, Volume};
use std::alloc::Global;
use std::process::Abort;
use std::str;
use std::test::Fail;

/// Where a file is staged, where it is to be published, and what it holds.
pub(crate) type File = (&'static str, &'static str, &'static str);

fn has_no_nul(bytes: &[u8]) -> bool
    ensures { result ≡ list_all is_name_byte bytes.now }
{
    bytes.iter().all(|b| *b != 0)
}

fn is_pathname(name: &str) -> bool
    ensures { result ≡ is_pathname name.now }
{
    !name.is_empty() && has_no_nul(name.as_bytes())
}

fn contents(alloc: Global, volume: &mut MemVolume, name: &str) -> Result<Vec<u8>, Fail> {
    if !is_pathname(name) {
        return Err(Fail::from("no name"));
    }
    match volume.read(alloc, name) {
        Ok(Some(bytes)) => Ok(bytes),
        _ => Err(Fail::from("no file")),
    }
}

fn check_file(
    rt: &impl Abort,
    alloc: Global,
    volume: &mut MemVolume,
    found: &StagedFile,
    wanted: File,
) -> Result<(), Fail> {
    let (from, to, text) = wanted;
    same_text(rt, found.from.as_str(), from);
    same_text(rt, found.to.as_str(), to);
    let bytes = contents(alloc, volume, from)?;
    same_text(
        rt,
        str::from_utf8(bytes.as_slice()).unwrap_or("no UTF-8"),
        text,
    );
    Ok(())
}

/// These files are staged, in this order, and no other.
pub(crate) fn check_files(
    rt: &impl Abort,
    alloc: Global,
    volume: &mut MemVolume,
    found: &[StagedFile],
    wanted: &[File],
) -> Result<(), Fail> {
    same_number(rt, found.len() as u64, wanted.len() as u64);
    for i in 0..found.len() {
        if i < wanted.len() {
            check_file(rt, alloc, volume, &found[i], wanted[i])?;
        }
    }
    Ok(())
}
