//! Whole transfers over calls that may move less than they were asked, or be interrupted.

ghost use Rattle.std.specs.Prelude.{◌≡◌, ◌≤◌, length, vec_len, IfOk, IfSome};

use crate::{FileSystem, FolderFault};
use std::alloc::Global;
use std::io::{self, ErrorKind};

/// No file holds a byte at this offset or behind it, and the system reads none there.
const END: u64 = i64::MAX as u64;

/// Reads from an offset on until the buffer is full or the file ends, and answers how many bytes it read.
pub fn read_full<H: FileSystem>(
    fs: &H,
    file: &H::File,
    at: u64,
    into: &mut [u8],
) -> Result<usize, FolderFault>
    ensures within { IfOk result (λ n. n ≤ length into.old) }
{
    let mut filled = 0;
    for _ in 0..u64::MAX {
        let wanted = into.len().min(END.saturating_sub(at) as usize);
        if filled >= wanted {
            return Ok(filled);
        }
        let here = at.saturating_add(filled as u64);
        match uninterrupted(fs.read_at(file, here, &mut into[filled..wanted]))? {
            Some(0) => return Ok(filled),
            Some(n) => filled += n,
            None => {}
        }
    }
    Err(FolderFault::Failed)
}

/// What one call moved; None where a signal came before it.
fn uninterrupted(moved: io::Result<usize>) -> Result<Option<usize>, FolderFault>
    ensures { IfOk result (λ count. IfSome count (λ n. moved ≡ Ok n)) }
{
    match moved {
        Ok(n) => Ok(Some(n)),
        Err(e) if e.kind() == ErrorKind::Interrupted => Ok(None),
        Err(e) => Err(FolderFault::from(e)),
    }
}

/// The first bytes of a file, at most this many: all of them where the file is that long.
pub fn read_whole<H: FileSystem>(
    fs: &H,
    alloc: Global,
    file: &H::File,
    size: u64,
) -> Result<Vec<u8>, FolderFault>
    ensures within { IfOk result (λ bytes. vec_len bytes ≤ size) }
{
    let Ok(room) = usize::try_from(size) else {
        return Err(FolderFault::Memory);
    };
    let mut bytes = vec![in alloc; 0; room]?;
    let filled = read_full(fs, file, 0, &mut bytes)?;
    bytes.truncate(filled);
    Ok(bytes)
}

/// Writes all of the bytes. A write that takes nothing is a failure.
pub fn write_full<H: FileSystem>(
    fs: &H,
    file: &mut H::File,
    bytes: &[u8],
) -> Result<(), FolderFault> {
    let mut rest = bytes;
    for _ in 0..u64::MAX {
        if rest.is_empty() {
            return Ok(());
        }
        match uninterrupted(fs.write(file, rest))? {
            Some(0) => return Err(FolderFault::Failed),
            Some(n) => rest = &rest[n..],
            None => {}
        }
    }
    Err(FolderFault::Failed)
}
