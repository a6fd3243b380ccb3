//! Which ranges of a partition are new.

ghost use Rattle.std.specs.Prelude.{◌≡◌, ◌≤◌, ◌++◌, [], false, length, map, drop, take, nat_lt};
ghost use Rattle.std.specs.Prelude.{unwrap_or, option_copied, IfOk, IsTrue, OnOk};
ghost use Rattle.std.specs.List.{filter, flat_map};
ghost use Rattle.gob_ledger.specs.Delta.{MarksFollow, changed_marks, has_ranges};
ghost use Rattle.gob_ledger.specs.Marks.{InOrder, Tiled};
ghost use Rattle.gob_ledger.specs.Next.{no_marks};
ghost use Rattle.gob_segments.specs.Written.{begun_in, done_from, new_done, new_open};

use gob_marks::{Done, Marks, Range};
use std::alloc::{AllocError, Global};

/// Whether a partition ends where it ended, with as many done ranges: then none of its ranges is new.
pub(crate) fn is_unchanged(before: Option<&Marks>, after: &Marks) -> bool
    requires { MarksFollow (unwrap_or (option_copied before) no_marks) after.now }
    ensures { IsTrue result
        → has_ranges ([], changed_marks (unwrap_or (option_copied before.entry) no_marks) after.now) ≡ false }
{
    next_of(before) == after.next() && done_count(before) == after.done().len()
}

/// The done ranges that begin where nothing was done. They lie in ranges that were open, and behind all that was taken.
pub(crate) fn done_since(
    alloc: Global,
    before: Option<&Marks>,
    after: &[Done],
) -> Result<Vec<Done>, AllocError>
    requires { InOrder 0 (map (λ d. d.span) after.now) }
    ensures { IfOk result (λ done. done.items ≡ new_done (unwrap_or (option_copied before.entry) no_marks) after.now) }
{
    let mut done = Vec::new(alloc);
    if let Some(marks) = before {
        push_begun_in(&mut done, marks.open_ranges(), after)?;
    }
    let (_, behind) = after.split_at(done_below(after, next_of(before)));
    done.extend_from_slice(behind)?;
    Ok(done)
}

// The ranges that begin in one of these.
fn push_begun_in(into: &mut Vec<Done>, ranges: &[Range], after: &[Done]) -> Result<(), AllocError>
    requires { InOrder 0 (map (λ d. d.span) after.now) }
    ensures { OnOk result (into.new.items
        ≡ into.old.items ++ flat_map (λ s. begun_in s after.now) ranges.now) }
{
    for i in 0..ranges.len() {
        into.extend_from_slice(part_begun_in(after, ranges[i]))?;
    }
    Ok(())
}

// The ranges that begin in this one.
fn part_begun_in(after: &[Done], range: Range) -> &[Done]
    requires { InOrder 0 (map (λ d. d.span) after.now) }
    ensures { result.now ≡ begun_in range after.now }
{
    let (_, behind) = after.split_at(done_below(after, range.lo));
    let (here, _) = behind.split_at(done_below(behind, range.hi));
    here
}

/// The open ranges that begin behind what was taken.
pub(crate) fn open_since(
    alloc: Global,
    from: u64,
    after: &[Range],
) -> Result<Vec<Range>, AllocError>
    requires { InOrder 0 after.now }
    ensures { IfOk result (λ owed. owed.items ≡ new_open from after.now) }
{
    let (_, behind) = after.split_at(open_below(after, from));
    let owed = Vec::from_slice(alloc, behind)?;
    Ok(owed)
}

// How many of the ranges begin below this offset.
fn done_below(ranges: &[Done], at: u64) -> usize
    requires { InOrder 0 (map (λ d. d.span) ranges.now) }
    ensures within { result ≤ length ranges.now }
    ensures front { take result ranges.now ≡ filter (λ d. nat_lt d.span.lo at) ranges.now }
    ensures back { drop result ranges.now ≡ done_from at ranges.now }
{
    ranges.partition_point(|d| begin_of(*d) < at)
}

fn open_below(ranges: &[Range], at: u64) -> usize
    requires { InOrder 0 ranges.now }
    ensures within { result ≤ length ranges.now }
    ensures back { drop result ranges.now ≡ new_open at ranges.now }
{
    ranges.partition_point(|r| r.lo < at)
}

fn begin_of(done: Done) -> u64
    ensures { result ≡ done.span.lo }
{
    let range = done.range;
    range.lo
}

fn done_count(before: Option<&Marks>) -> usize
    ensures { result ≡ length (unwrap_or (option_copied before.entry) no_marks).finished }
{
    match before {
        Some(marks) => marks.done().len(),
        None => 0,
    }
}

/// The end of what was taken.
#[tactic(auto, using(gob_ledger::proofs::Ranges::tiled_none))]
pub(crate) fn next_of(before: Option<&Marks>) -> u64
    ensures next { result ≡ (unwrap_or (option_copied before.entry) no_marks).next }
    ensures tiled { Tiled (unwrap_or (option_copied before.entry) no_marks) }
{
    match before {
        Some(marks) => marks.next(),
        None => 0,
    }
}
