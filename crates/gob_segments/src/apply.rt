//! How a change is read and put over a state.

ghost use Rattle.std.specs.Prelude.{◌≡◌, ◌↔◌, ◌+◌, length, IfOk, IsTrue, MatchOption};
ghost use Rattle.gob_bytes.specs.Tables.{IsInByteOrder, names_of};
ghost use Rattle.gob_ledger.specs.Delta.{ReadsAsChange};
ghost use Rattle.gob_ledger.specs.Spelling.{Proper};
ghost use Rattle.gob_segments.specs.Applied.{AreParted, CountedAfter, IsNextRun, ReadsAsNoChange, RestAfter};
ghost use Rattle.gob_segments.specs.Applied.{counted_text_over, front_text, rest_text_over, state_with};
ghost use Rattle.gob_state.specs.Parts.{NoPart};
ghost use Rattle.gob_state.specs.Reads.{ReadsSpelling};
ghost use Rattle.gob_state.specs.Versions.{version_of};
ghost use Rattle.gob_text.specs.Words.{GoesOnAtAll};

use crate::parts::take_changes;
use crate::pipelines::take_later;
use gob_marks::MarkTable;
use gob_plan::{Counts, List, NoMemory, Text};
use gob_state::{State, Version, take_numbered, take_totals, take_version};
use gob_text::Words;
use std::alloc::Global;

/// The state to which these bytes are the change, in this version, from the state that is handed over. `None` exactly
/// where they are the change to no state. It takes the time of the change and of the marks of its partitions: the rest
/// of the state is handed on as it is.
pub fn apply_delta(
    alloc: Global,
    version: Version,
    state: State,
    bytes: &[u8],
) -> Result<Option<State>, NoMemory>
    requires { Proper state }
    ensures { IfOk result (λ after. MatchOption after
        (ReadsAsNoChange (version_of version) state bytes.now)
        (ReadsAsChange (version_of version) state bytes.now)) }
{
    let mut text = Words::new(bytes);
    let Some(run) = take_run(&mut text, version, state.run) else {
        return Ok(None);
    };
    let Some(rest) = take_rest(alloc, &mut text, version, state)? else {
        return Ok(None);
    };
    if !text.take_text(b"end\n") {
        return Ok(None);
    }
    if !text.is_done() {
        return Ok(None);
    }
    Ok(Some(state_with(run, rest)))
}

fn state_with(run: u64, rest: (List<Text>, (Counts, MarkTable))) -> State
    ensures { result ≡ state_with run rest }
{
    let (pipelines, (totals, marks)) = rest;
    State {
        run,
        pipelines,
        totals,
        marks,
    }
}

// The first line, and that of the run behind this one.
fn take_run(text: &mut Words, version: Version, run: u64) -> Option<u64>
    ensures { ReadsSpelling (front_text (version_of version)) (IsNextRun run) GoesOnAtAll text.old text.new result }
{
    let Some(told) = take_version(text, b"gobblin-delta") else {
        return None;
    };
    if !is_same(told, version) {
        return None;
    }
    let Some(next) = take_numbered(text, b"run") else {
        return None;
    };
    if !is_behind(next, run) {
        return None;
    }
    Some(next)
}

fn is_same(told: Version, version: Version) -> bool
    ensures { IsTrue result ↔ (told ≡ version) }
{
    told == version
}

fn is_behind(next: u64, run: u64) -> bool
    ensures { IsTrue result ↔ (next ≡ run + 1) }
{
    next > run && next - run == 1
}

// All between the first two lines and the last one.
fn take_rest(
    alloc: Global,
    text: &mut Words,
    version: Version,
    state: State,
) -> Result<Option<(List<Text>, (Counts, MarkTable))>, NoMemory>
    requires { Proper state }
    ensures { IfOk result (λ taken.
        ReadsSpelling (rest_text_over (version_of version) state) (RestAfter (version_of version) state) NoPart
        text.old text.new taken) }
{
    let least = state.totals.branches.len();
    let Some(pipelines) = take_later(alloc, text, version, state.pipelines)? else {
        return Ok(None);
    };
    let count = pipelines.len() as u64;
    let Some(counted) = take_counted(alloc, text, version, count, least, state.marks)? else {
        return Ok(None);
    };
    Ok(Some((pipelines, counted)))
}

// The totals, of so many branches at least, and the partitions that have changed.
fn take_counted(
    alloc: Global,
    text: &mut Words,
    version: Version,
    pipelines: u64,
    least: usize,
    before: MarkTable,
) -> Result<Option<(Counts, MarkTable)>, NoMemory>
    requires parted { AreParted (version_of version) pipelines before }
    requires names { IsInByteOrder (names_of before) }
    ensures { IfOk result (λ taken.
        ReadsSpelling (counted_text_over (version_of version) before)
        (CountedAfter (version_of version) pipelines least before) NoPart
        text.old text.new taken) }
{
    let Some(totals) = take_totals(alloc, text)? else {
        return Ok(None);
    };
    if totals.branches.len() < least {
        return Ok(None);
    }
    let Some(marks) = take_changes(alloc, text, version, pipelines, before)? else {
        return Ok(None);
    };
    Ok(Some((totals, marks)))
}
