//! The partitions of a listing: those that the job takes, those whose names are too long, and one that shrank.
ghost use Rattle.std.specs.Prelude.{◌≡◌, ◌&&◌, not, map, All, IfErr, IfOk, OnOk, None};
ghost use Rattle.std.specs.List.{filter};
ghost use Rattle.std.specs.Str.{IsUtf8};
ghost use Rattle.gob_bytes.specs.Tables.{names_of};
ghost use Rattle.gob_io.specs.Listing.{entry_of};
ghost use Rattle.gob_ledger.specs.Units as ledger;
ghost use Rattle.gob_cut.specs.Faults.{IsShrunk};

use crate::fault::CutFault;
use gob_io::Part;
use gob_marks::MarkTable;
use gob_plan::{Limits, List, NoMemory, Text};
use gob_text::escaped_len;
use std::alloc::Global;

/// A partition whose escaped name is longer is left alone.
const LONGEST_NAME: usize = 180;

/// Where the new bytes of a partition begin.
pub fn next_of(marks: &MarkTable, part: &str) -> u64
    ensures { result ≡ ledger.next_of marks.now part.now }
{
    match marks.get(part) {
        Some(marks) => marks.next(),
        None => 0,
    }
}

/// Refuses a listing with a partition that is shorter than what was taken of it.
pub fn refuse_shrunk(parts: &[Part], marks: &MarkTable) -> Result<(), CutFault>
    ensures ok { OnOk result (ledger.first_shrunk marks.now (map entry_of parts.now) ≡ None) }
    ensures err { IfErr result (IsShrunk marks.now (map entry_of parts.now)) }
{
    for part in parts {
        let next = next_of(marks, part.name.as_str());
        if part.size < next {
            return Err(CutFault::Shrunk {
                part: part.name.copy()?,
                next,
                size: part.size,
            });
        }
    }
    Ok(())
}

fn is_short(part: &str) -> bool
    ensures { result ≡ ledger.is_short part.now }
{
    escaped_len(part) <= LONGEST_NAME
}

fn has_prefix(limits: &Limits, part: &str) -> bool
    ensures { result ≡ ledger.has_prefix limits.now part.now }
{
    part.as_bytes()
        .starts_with(limits.prefix.as_str().as_bytes())
}

fn is_kept(limits: &Limits, part: &str) -> bool
    ensures kept { result ≡ ledger.is_kept limits.now part.now }
    ensures text { IsUtf8 part.now }
{
    has_prefix(limits, part) && is_short(part)
}

fn is_too_long(limits: &Limits, part: &str) -> bool
    ensures { result ≡ (ledger.has_prefix limits.now part.now && not (ledger.is_short part.now)) }
{
    has_prefix(limits, part) && !is_short(part)
}

/// The partitions that the job takes, with their sizes.
pub fn kept_parts(
    alloc: Global,
    parts: &[Part],
    limits: &Limits,
) -> Result<Vec<(Text, u64)>, NoMemory>
    ensures kept { IfOk result (λ kept. kept.items
        ≡ filter (λ e. ledger.is_kept limits.now e.0) (map entry_of parts.now)) }
    ensures texts { IfOk result (λ kept. All (λ e. IsUtf8 e.0) kept.items) }
{
    let mut kept = Vec::new(alloc);
    for part in parts {
        if is_kept(limits, part.name.as_str()) {
            let name = part.name.copy()?;
            kept.push((name, part.size))?;
        }
    }
    Ok(kept)
}

/// The partitions that are left alone for their names.
pub fn too_long(alloc: Global, parts: &[Part], limits: &Limits) -> Result<List<Text>, NoMemory>
    ensures { IfOk result (λ names. names ≡ ledger.too_long limits.now (names_of (map entry_of parts.now))) }
{
    let mut names = List::new(alloc);
    for part in parts {
        if is_too_long(limits, part.name.as_str()) {
            names.push(part.name.copy()?)?;
        }
    }
    Ok(names)
}
