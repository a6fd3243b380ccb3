//! The text of a change.
ghost use Rattle.std.specs.Prelude.{◌≡◌, ◌+◌, ◌++◌, ℕ, List, length, nat_lt, unwrap_or, option_copied, IfOk, OnOk};
ghost use Rattle.gob_ledger.specs.Delta.{MarksFollow, StateFollows, delta_spelling};
ghost use Rattle.gob_ledger.specs.Next.{no_marks};
ghost use Rattle.gob_ledger.specs.Spelling.{Proper, version_2};
ghost use Rattle.gob_marks.specs.Changed.{marks_in};
ghost use Rattle.gob_segments.specs.Written.{changed_text, changed_texts};

use crate::since::{done_since, is_unchanged, next_of, open_since};
use gob_marks::{Done, MarkTable, Marks, Range};
use gob_plan::{Bytes, NoMemory};
use gob_state::{State, push_numbered, push_part, push_pipelines, push_totals};
use std::alloc::AllocError;

/// The text of the change from one state to the next, in the second version: as long as what has changed. It takes a
/// look-up for each partition of the later state, and in those that have changed two for each range that was open.
pub fn write_delta(before: &State, after: &State) -> Result<Bytes, NoMemory>
    requires before { Proper before.now }
    requires after { Proper after.now }
    requires follows { StateFollows before.now after.now }
    ensures { IfOk result (λ b. b ≡ delta_spelling version_2 before.now after.now) }
{
    let mut text = Vec::new(after.pipelines.allocator());
    let known = before.pipelines.len();
    push_numbered(&mut text, b"gobblin-delta", &[2])?;
    push_numbered(&mut text, b"run", &[after.run])?;
    push_pipelines(&mut text, &after.pipelines.as_slice()[known..])?;
    push_totals(&mut text, &after.totals)?;
    push_changes(&mut text, &before.marks, &after.marks)?;
    text.extend_from_slice(b"end\n")?;
    Ok(Bytes::from_vec(text))
}

// What has changed of each partition.
fn push_changes(into: &mut Vec<u8>, before: &MarkTable, after: &MarkTable) -> Result<(), AllocError>
    requires { (part : List ℕ) → MarksFollow (marks_in before.now part) (marks_in after.now part) }
    ensures { OnOk result (into.new.items ≡ into.old.items ++ changed_texts before.now after.now) }
{
    for i in 0..after.len() {
        match after.at(i) {
            Some((part, marks)) => push_change(into, part, before.get(part), marks)?,
            None => unreachable!(),
        }
    }
    Ok(())
}

// What has changed of a partition, where something has.
fn push_change(
    into: &mut Vec<u8>,
    part: &str,
    before: Option<&Marks>,
    after: &Marks,
) -> Result<(), AllocError>
    requires { MarksFollow (unwrap_or (option_copied before) no_marks) after.now }
    ensures { OnOk result (into.new.items
        ≡ into.old.items ++ changed_text part.now (unwrap_or (option_copied before.entry) no_marks) after.now) }
{
    if is_unchanged(before, after) {
        return Ok(());
    }
    let alloc = *into.allocator();
    let from = next_of(before);
    let done = done_since(alloc, before, after.done())?;
    let owed = open_since(alloc, from, after.open_ranges())?;
    if !has_any(done.as_slice(), owed.as_slice()) {
        return Ok(());
    }
    push_part(into, part, after.next(), done.as_slice(), owed.as_slice())?;
    Ok(())
}

fn has_any(done: &[Done], owed: &[Range]) -> bool
    ensures { result ≡ nat_lt 0 (length done.now + length owed.now) }
{
    done.len() + owed.len() > 0
}
