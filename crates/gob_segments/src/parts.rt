//! The partitions that have changed.

ghost use Rattle.std.specs.Prelude.{◌≡◌, ◌↔◌, IfOk, IsTrue};
ghost use Rattle.std.specs.declared.cmp.Ordering.TheVariants.{Less};
ghost use Rattle.gob_bytes.specs.Tables.{IsInByteOrder, name_cmp, names_of};
ghost use Rattle.gob_ledger.specs.Spelling.{parts_text};
ghost use Rattle.gob_marks.specs.Changed.{marks_in};
ghost use Rattle.gob_segments.specs.Applied.{AreParted, IsChange, PartsAfter, change_rest, changed_table};
ghost use Rattle.gob_state.specs.Parts.{NoPart};
ghost use Rattle.gob_state.specs.Ranges.{NoRange};
ghost use Rattle.gob_state.specs.Reads.{ReadsSpelling};
ghost use Rattle.gob_state.specs.Versions.{version_of};

use crate::ranges::take_changed;
use gob_marks::{MarkTable, Marks};
use gob_plan::{NoMemory, Text};
use gob_state::{Version, take_head};
use gob_text::Words;
use std::alloc::Global;
use std::cmp::Ordering;

/// The partitions that have changed, put over those before.
pub(crate) fn take_changes(
    alloc: Global,
    text: &mut Words,
    version: Version,
    pipelines: u64,
    before: MarkTable,
) -> Result<Option<MarkTable>, NoMemory>
    requires parted { AreParted (version_of version) pipelines before }
    requires names { IsInByteOrder (names_of before) }
    ensures { IfOk result (λ taken.
        ReadsSpelling (λ after. parts_text (version_of version) (changed_table before after))
        (PartsAfter (version_of version) pipelines before) NoPart text.old text.new taken) }
{
    let mut table = before;
    let mut last = Text::from_str(alloc, "")?;
    while text.take_text(b"partition") {
        let Some((name, marks)) = take_change(
            alloc,
            text,
            version,
            pipelines,
            &table,
            last.as_str(),
        )?
        else {
            return Ok(None);
        };
        last = name.copy()?;
        table.put(name, marks)?;
    }
    Ok(Some(table))
}

// A partition that has changed, which stands behind its word: its name, above the last one, and its later marks.
fn take_change(
    alloc: Global,
    text: &mut Words,
    version: Version,
    pipelines: u64,
    table: &MarkTable,
    last: &str,
) -> Result<Option<(Text, Marks)>, NoMemory>
    requires { AreParted (version_of version) pipelines table.now }
    ensures { IfOk result (λ taken.
        ReadsSpelling (change_rest (version_of version) table.now)
        (IsChange (version_of version) pipelines table.now last.now) NoRange text.old text.new taken) }
{
    let Some((name, next)) = take_head(alloc, text)? else {
        return Ok(None);
    };
    if !is_below(last, name.as_str()) {
        return Ok(None);
    }
    let before = marks_of(alloc, table, name.as_str())?;
    let Some(marks) = take_changed(text, version, pipelines, before)? else {
        return Ok(None);
    };
    if marks.next() != next {
        return Ok(None);
    }
    Ok(Some((name, marks)))
}

// The marks of a partition, which has none at first.
fn marks_of(alloc: Global, table: &MarkTable, part: &str) -> Result<Marks, NoMemory>
    ensures { IfOk result (λ m. m ≡ marks_in table.now part.now) }
{
    let Some(marks) = table.get(part) else {
        return Ok(Marks::new(alloc));
    };
    let marks = marks.copy()?;
    Ok(marks)
}

fn is_below(name: &str, other: &str) -> bool
    ensures { IsTrue result ↔ (name_cmp name.now other.now ≡ Less) }
{
    name.cmp(other) == Ordering::Less
}
