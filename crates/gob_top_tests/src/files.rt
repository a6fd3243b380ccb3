//! Files on a volume: how they are placed, and what stands there.
ghost use Rattle.std.specs.Prelude.{◌≡◌};
ghost use Rattle.std.specs.List.{list_all};
ghost use Rattle.gob_device.specs.Names.{is_name_byte, is_pathname};

use crate::compare::same_text;
use gob_plan::Text;
use gob_volume::{MemVolume, Volume};
use std::alloc::Global;
use std::process::Abort;
use std::str;
use std::test::Fail;

/// A name, and what the file holds, piece by piece.
pub(crate) type File = (&'static str, &'static [&'static str]);

fn push_pieces(into: &mut Vec<u8>, pieces: &[&str]) -> Result<(), Fail> {
    for i in 0..pieces.len() {
        into.extend_from_slice(pieces[i].as_bytes())?;
    }
    Ok(())
}

/// The pieces, one behind the other.
pub(crate) fn joined(alloc: Global, pieces: &[&str]) -> Result<Vec<u8>, Fail> {
    let mut bytes = Vec::new(alloc);
    push_pieces(&mut bytes, pieces)?;
    Ok(bytes)
}

fn put(alloc: Global, volume: &mut MemVolume, name: &str, pieces: &[&str]) -> Result<(), Fail> {
    let bytes = joined(alloc, pieces)?;
    volume.put(name, bytes.as_slice())?;
    Ok(())
}

/// A volume with these files, of which the calls with these numbers fail.
pub(crate) fn volume_of(alloc: Global, files: &[File], fails: &[u64]) -> Result<MemVolume, Fail> {
    let fails = Vec::from_slice(alloc, fails)?;
    let mut volume = MemVolume::new(alloc, fails);
    for i in 0..files.len() {
        let (name, pieces) = files[i];
        put(alloc, &mut volume, name, pieces)?;
    }
    Ok(volume)
}

fn has_no_nul(bytes: &[u8]) -> bool
    ensures { result ≡ list_all is_name_byte bytes.now }
{
    bytes.iter().all(|b| *b != 0)
}

fn is_pathname(name: &str) -> bool
    ensures { result ≡ is_pathname name.now }
{
    !name.is_empty() && has_no_nul(name.as_bytes())
}

fn contents(alloc: Global, volume: &mut MemVolume, name: &str) -> Result<Vec<u8>, Fail> {
    if !is_pathname(name) {
        return Err(Fail::from("no name"));
    }
    match volume.read(alloc, name) {
        Ok(Some(bytes)) => Ok(bytes),
        _ => Err(Fail::from("no file")),
    }
}

/// Whether the file is there.
pub(crate) fn is_there(volume: &mut MemVolume, name: &str) -> Result<bool, Fail> {
    if !is_pathname(name) {
        return Err(Fail::from("no name"));
    }
    match volume.size(name) {
        Ok(size) => Ok(size.is_some()),
        Err(_) => Err(Fail::from("no size")),
    }
}

fn names_of(alloc: Global, volume: &mut MemVolume, prefix: &str) -> Result<Vec<Text>, Fail> {
    match volume.names(alloc, prefix) {
        Ok(names) => Ok(names),
        Err(_) => Err(Fail::from("no names")),
    }
}

// A file as one of a list of files is told.
fn push_told(into: &mut Vec<u8>, name: &str, bytes: &[u8]) -> Result<(), Fail> {
    into.extend_from_slice(name.as_bytes())?;
    into.extend_from_slice(b"=")?;
    into.extend_from_slice(bytes)?;
    into.extend_from_slice(b"\n")?;
    Ok(())
}

fn push_file(
    alloc: Global,
    into: &mut Vec<u8>,
    volume: &mut MemVolume,
    name: &str,
) -> Result<(), Fail> {
    let bytes = contents(alloc, volume, name)?;
    push_told(into, name, bytes.as_slice())
}

/// The files whose names begin so, each with what it holds, in byte order of names.
pub(crate) fn files_under(
    alloc: Global,
    volume: &mut MemVolume,
    prefix: &str,
) -> Result<Vec<u8>, Fail> {
    let names = names_of(alloc, volume, prefix)?;
    let mut text = Vec::new(alloc);
    for i in 0..names.len() {
        push_file(alloc, &mut text, volume, names[i].as_str())?;
    }
    Ok(text)
}

fn push_wanted(alloc: Global, into: &mut Vec<u8>, file: File) -> Result<(), Fail> {
    let (name, pieces) = file;
    let bytes = joined(alloc, pieces)?;
    push_told(into, name, bytes.as_slice())
}

/// The same of these files.
pub(crate) fn told_files(alloc: Global, files: &[File]) -> Result<Vec<u8>, Fail> {
    let mut text = Vec::new(alloc);
    for i in 0..files.len() {
        push_wanted(alloc, &mut text, files[i])?;
    }
    Ok(text)
}

/// Whether these files stand, and no other.
pub(crate) fn are_all(alloc: Global, volume: &mut MemVolume, files: &[File]) -> Result<bool, Fail> {
    let found = files_under(alloc, volume, "")?;
    let wanted = told_files(alloc, files)?;
    Ok(found.as_slice() == wanted.as_slice())
}

/// The same, with what is found told where it differs.
pub(crate) fn check_files(
    rt: &impl Abort,
    alloc: Global,
    volume: &mut MemVolume,
    files: &[File],
) -> Result<(), Fail> {
    let found = files_under(alloc, volume, "")?;
    let wanted = told_files(alloc, files)?;
    same_text(rt, as_text(found.as_slice()), as_text(wanted.as_slice()));
    Ok(())
}

pub(crate) fn as_text(bytes: &[u8]) -> &str {
    str::from_utf8(bytes).unwrap_or("no UTF-8")
}
