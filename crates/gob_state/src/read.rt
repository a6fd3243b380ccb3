//! How a state is read.
ghost use Rattle.std.specs.Prelude.{◌≡◌, IfOk, IfSome, MatchOption};
ghost use Rattle.gob_ledger.specs.Spelling as spelling;
ghost use Rattle.gob_ledger.specs.State as states;
ghost use Rattle.gob_text.specs.Words.{GoesOnAtAll};
ghost use Rattle.gob_state.specs.Files.{AreCounted, ArePipelinesOf, CountFits, IsToldBy, NoStateIn, count_line};
ghost use Rattle.gob_state.specs.Files.{counted_text, state_rest};
ghost use Rattle.gob_state.specs.Parts.{NoPart};
ghost use Rattle.gob_state.specs.Reads.{ReadsSpelling};
ghost use Rattle.gob_state.specs.Versions.{version_of};

use crate::counts::take_totals;
use crate::lines::take_numbered;
use crate::parts::take_parts;
use crate::pipelines::{are_distinct, take_pipelines};
use crate::version::take_version;
use crate::{State, Version};
use gob_marks::MarkTable;
use gob_plan::{Counts, List, NoMemory, Text};
use gob_text::Words;
use std::alloc::Global;

// How many pipelines there are. In the first version there is one.
fn take_count(text: &mut Words, version: Version) -> Option<u64>
    ensures { ReadsSpelling (count_line (version_of version)) (CountFits (version_of version)) GoesOnAtAll
        text.old text.new result }
{
    match version {
        Version::First => Some(1),
        Version::Second => take_numbered(text, b"pipelines"),
    }
}

// The pipelines of a state.
fn take_all_pipelines(
    alloc: Global,
    text: &mut Words,
    version: Version,
) -> Result<Option<List<Text>>, NoMemory>
    ensures { IfOk result (λ taken.
        ReadsSpelling (spelling.pipelines_text (version_of version)) (ArePipelinesOf (version_of version)) GoesOnAtAll
        text.old text.new taken) }
{
    let Some(count) = take_count(text, version) else {
        return Ok(None);
    };
    let Some(pipelines) = take_pipelines(alloc, text, count)? else {
        return Ok(None);
    };
    if !are_distinct(alloc, pipelines.as_slice())? {
        return Ok(None);
    }
    Ok(Some(pipelines))
}

// The totals, and the partitions.
fn take_counted(
    alloc: Global,
    text: &mut Words,
    version: Version,
    pipelines: u64,
) -> Result<Option<(Counts, MarkTable)>, NoMemory>
    ensures { IfOk result (λ taken.
        ReadsSpelling (counted_text (version_of version)) (AreCounted (version_of version) pipelines) NoPart
        text.old text.new taken) }
{
    let Some(totals) = take_totals(alloc, text)? else {
        return Ok(None);
    };
    let Some(marks) = take_parts(alloc, text, version, pipelines)? else {
        return Ok(None);
    };
    Ok(Some((totals, marks)))
}

// All but the first and the last line.
fn take_state(alloc: Global, text: &mut Words, version: Version) -> Result<Option<State>, NoMemory>
    ensures { IfOk result (λ taken.
        ReadsSpelling (state_rest (version_of version))
        (IsToldBy (version_of version)) NoPart text.old text.new taken) }
{
    let Some(run) = take_numbered(text, b"run") else {
        return Ok(None);
    };
    let Some(pipelines) = take_all_pipelines(alloc, text, version)? else {
        return Ok(None);
    };
    let count = pipelines.len() as u64;
    let Some((totals, marks)) = take_counted(alloc, text, version, count)? else {
        return Ok(None);
    };
    Ok(Some(State {
        run,
        pipelines,
        totals,
        marks,
    }))
}

/// The state that the bytes tell, and the version in which they tell it. `None` exactly where they are the text of no
/// state that can be kept.
pub fn read_versioned(alloc: Global, bytes: &[u8]) -> Result<Option<(Version, State)>, NoMemory>
    ensures { IfOk result (λ found. MatchOption found
        (NoStateIn bytes.now)
        (λ p. spelling.ReadsAs (version_of p.0) bytes.now p.1)) }
{
    let mut text = Words::new(bytes);
    let Some(version) = take_version(&mut text, b"gobblin-state") else {
        return Ok(None);
    };
    let Some(state) = take_state(alloc, &mut text, version)? else {
        return Ok(None);
    };
    if !text.take_text(b"end\n") {
        return Ok(None);
    }
    if !text.is_done() {
        return Ok(None);
    }
    Ok(Some((version, state)))
}

/// The state that the bytes tell, in either version. `None` exactly where they are the text of no state that can be
/// kept.
pub fn read_state(alloc: Global, bytes: &[u8]) -> Result<Option<State>, NoMemory>
    ensures told { IfOk result (λ found. MatchOption found
        (NoStateIn bytes.now)
        (λ s. (v : spelling.Version) × spelling.ReadsAs v bytes.now s)) }
    ensures proper { IfOk result (λ found. IfSome found spelling.Proper) }
{
    match read_versioned(alloc, bytes)? {
        Some((_, state)) => Ok(Some(state)),
        None => Ok(None),
    }
}
