//! The texts of partitions.
ghost use Rattle.std.specs.Prelude.{◌≡◌, IfOk};
ghost use Rattle.gob_ledger.specs.Spelling.{parts_text};
ghost use Rattle.gob_text.specs.Words.{GoesOnAtAll};
ghost use Rattle.gob_state.specs.Parts.{AreParts, IsHead, IsPart, NoPart, head_text, part_rest};
ghost use Rattle.gob_state.specs.Ranges.{NoRange};
ghost use Rattle.gob_state.specs.Reads.{ReadsSpelling};
ghost use Rattle.gob_state.specs.Versions.{version_of};

use crate::Version;
use crate::lines::take_last;
use crate::ranges::take_ranges;
use gob_marks::{MarkTable, Marks};
use gob_plan::{NoMemory, Text};
use gob_text::Words;
use std::alloc::Global;

/// The name of a partition and its end, which stand behind its word.
pub fn take_head(alloc: Global, text: &mut Words) -> Result<Option<(Text, u64)>, NoMemory>
    ensures { IfOk result (λ taken. ReadsSpelling head_text IsHead GoesOnAtAll text.old text.new taken) }
{
    if !text.take_text(b" ") {
        return Ok(None);
    }
    let Some(name) = text.take_name(alloc)? else {
        return Ok(None);
    };
    let Some(next) = take_last(text) else {
        return Ok(None);
    };
    Ok(Some((Text::from_string(name), next)))
}

// A partition, which stands behind its word.
fn take_part(
    alloc: Global,
    text: &mut Words,
    version: Version,
    pipelines: u64,
) -> Result<Option<(Text, Marks)>, NoMemory>
    ensures { IfOk result (λ taken.
        ReadsSpelling (part_rest (version_of version)) (IsPart (version_of version) pipelines) NoRange
        text.old text.new taken) }
{
    let Some((name, next)) = take_head(alloc, text)? else {
        return Ok(None);
    };
    let Some(marks) = take_ranges(alloc, text, version, pipelines)? else {
        return Ok(None);
    };
    if next == 0 {
        return Ok(None);
    }
    if marks.next() != next {
        return Ok(None);
    }
    Ok(Some((name, marks)))
}

/// All partitions, in byte order.
pub(crate) fn take_parts(
    alloc: Global,
    text: &mut Words,
    version: Version,
    pipelines: u64,
) -> Result<Option<MarkTable>, NoMemory>
    ensures { IfOk result (λ taken.
        ReadsSpelling (parts_text (version_of version)) (AreParts (version_of version) pipelines) NoPart
        text.old text.new taken) }
{
    let mut table = MarkTable::new(alloc);
    while text.take_text(b"partition") {
        let Some((name, marks)) = take_part(alloc, text, version, pipelines)? else {
            return Ok(None);
        };
        if !table.push(name, marks)? {
            return Ok(None);
        }
    }
    Ok(Some(table))
}
