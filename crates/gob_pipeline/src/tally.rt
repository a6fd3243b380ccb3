//! What lines make, counted and sent.
ghost use Rattle.std.specs.Prelude.{◌≡◌, ◌<◌, ◌+◌, ◌*◌, ◌++◌, ℕ, List, [], ◌∷◌, true, count_by, length, map, sum_by};
ghost use Rattle.std.specs.Prelude.{OnOk};
ghost use Rattle.std.specs.List.{flat_map, list_all, range_with_len};
ghost use Rattle.gob_meaning.specs.Fold.{branch_counts, delivery_of, is_bad, is_record, items_in, left_after};
ghost use Rattle.gob_meaning.specs.Fold.{line_deliveries, line_stop};
ghost use Rattle.gob_meaning.specs.Fold.{rows_in, unrouted_in};
ghost use Rattle.gob_meaning.specs.Items.{RowMade};
ghost use Rattle.gob_branch.specs.ItemSpans.{item_value};
ghost use Rattle.gob_meaning.specs.Sums.{both_branches, branch_sums, sum_of};
ghost use Rattle.gob_pipeline.specs.Made.{AddsTo};
ghost use Rattle.gob_pipeline.specs.Taking.{TakesLine, counts_of_line, fold_of_items, item_fits, line_of_end};
ghost use Rattle.gob_pipeline.specs.Taking.{line_folds};
ghost use Rattle.gob_pipeline.specs.Taking.{with_one_item};

use crate::buffers::{Target, TargetBuffers};
use crate::pipeline::{LineEnd, Pipeline, Workspace};
use gob_branch::{Item, ItemEnd, LineItems};
use gob_plan::{BranchCounts, Cause, Counts, List, NoMemory};
use std::alloc::Global;
use std::mem;

/// What was counted, how many bad lines may still pass, and why a line stopped the unit, where one did.
#[derive(Drop)]
pub struct Tally {
    pub counts: Counts,
    pub bad_left: u64,
    pub stop: Option<Cause>,
}

impl Tally {
    /// Takes the line with these bytes at this offset. One that stops the unit sends nothing.
    pub fn take(
        &mut self,
        pipeline: &Pipeline,
        workspace: &mut Workspace,
        at: u64,
        raw: &[u8],
        buffers: &mut TargetBuffers,
    ) -> Result<(), NoMemory>
        requires ends { (body : List ℕ) × (raw.now ≡ body ++ 10 ∷ []) }
        requires branches { length self.old.counts.branches ≡ length pipeline.now.branches }
        requires slots { length buffers.old ≡ 2 * length pipeline.now.branches + 1 }
        ensures ok { OnOk result (TakesLine pipeline.now self.old self.new at raw.now buffers.old buffers.new) }
        ensures counts { length self.new.counts.branches ≡ length self.old.counts.branches }
        ensures buffers { length buffers.new ≡ length buffers.old }
    {
        let end = pipeline.make_line(workspace, at, raw)?;
        self.stop = stop_at(self.bad_left, end, &workspace.items, at);
        if let Some(_) = self.stop {
            return Ok(());
        }
        send_line(workspace.alloc, end, raw, &workspace.items, buffers)?;
        self.bad_left = left_behind(self.bad_left, end);
        add_line(workspace.alloc, &mut self.counts, end, &workspace.items);
        Ok(())
    }
}

fn stop_at(bad_left: u64, end: LineEnd, items: &LineItems, at: u64) -> Option<Cause>
    ensures { (raw : List ℕ) → result ≡ line_stop bad_left at (line_of_end end raw items.now) }
{
    match end {
        LineEnd::Header => None,
        LineEnd::Bad => {
            if bad_left == 0 {
                Some(Cause::BadRecords { at })
            } else {
                None
            }
        }
        LineEnd::Made {
            rows: _,
            unrouted: _,
        } => match items.first_kill() {
            Some((branch, policy)) => Some(Cause::Kill { branch, policy, at }),
            None => None,
        },
    }
}

fn left_behind(bad_left: u64, end: LineEnd) -> u64
    ensures { (raw : List ℕ) (items : List RowMade) → result ≡ left_after bad_left (line_of_end end raw items) }
{
    match end {
        LineEnd::Bad => bad_left.saturating_sub(1),
        LineEnd::Header => bad_left,
        LineEnd::Made {
            rows: _,
            unrouted: _,
        } => bad_left,
    }
}

fn send_line(
    alloc: Global,
    end: LineEnd,
    raw: &[u8],
    items: &LineItems,
    buffers: &mut TargetBuffers,
) -> Result<(), NoMemory>
    requires fit { list_all (item_fits (length buffers.old)) items.now ≡ true }
    requires slots { 0 < length buffers.old }
    ensures ok { OnOk result
        (AddsTo buffers.old buffers.new (line_deliveries (line_of_end end raw.now items.now))) }
    ensures slots { length buffers.new ≡ length buffers.old }
{
    match end {
        LineEnd::Header => Ok(()),
        LineEnd::Bad => {
            buffers.push(alloc, Target::Bad, raw)?;
            Ok(())
        }
        LineEnd::Made {
            rows: _,
            unrouted: _,
        } => {
            send_items(alloc, items, buffers)?;
            Ok(())
        }
    }
}

fn send_items(alloc: Global, items: &LineItems, buffers: &mut TargetBuffers) -> Result<(), NoMemory>
    requires fit { list_all (item_fits (length buffers.old)) items.now ≡ true }
    ensures ok { OnOk result (AddsTo buffers.old buffers.new (flat_map delivery_of items.now)) }
    ensures slots { length buffers.new ≡ length buffers.old }
{
    for place in 0..items.len() {
        send_item(alloc, items.get(place), buffers)?;
    }
    Ok(())
}

// A killed row sends nothing.
fn send_item(alloc: Global, item: Item<'_>, buffers: &mut TargetBuffers) -> Result<(), NoMemory>
    requires fit { item_fits (length buffers.old) (item_value item) ≡ true }
    ensures ok { OnOk result (AddsTo buffers.old buffers.new (delivery_of (item_value item.entry))) }
    ensures slots { length buffers.new ≡ length buffers.old }
{
    let branch = item.branch;
    let place = item.place;
    match item.end {
        ItemEnd::Written => {
            buffers.push(alloc, Target::Out { branch, place }, item.record)?;
            Ok(())
        }
        ItemEnd::Error => {
            buffers.push(alloc, Target::Err { branch, place }, item.record)?;
            Ok(())
        }
        ItemEnd::Killed { policy: _ } => Ok(()),
    }
}

// ---- counts

fn add_line(alloc: Global, counts: &mut Counts, end: LineEnd, items: &LineItems)
    requires { items_in (line_of_end end [] items.now) ≡ items.now }
    ensures { (raw : List ℕ) → counts.new ≡ sum_of counts.old
        (counts_of_line (length counts.old.branches) (line_of_end end raw items.now)) }
{
    counts.records = counts.records.saturating_add(records_in(end));
    counts.bad = counts.bad.saturating_add(bad_in(end));
    counts.rows = counts.rows.saturating_add(rows_in(end));
    counts.unrouted = counts.unrouted.saturating_add(unrouted_in(end));
    let mut branches = mem::replace(&mut counts.branches, List::new(alloc)).into_vec();
    add_branches(branches.as_mut_slice(), items);
    counts.branches = List::from_vec(branches);
}

fn records_in(end: LineEnd) -> u64
    ensures { (raw : List ℕ) (items : List RowMade) → result
        ≡ count_by (λ f. is_record f.made) (line_folds 0 (line_of_end end raw items)) }
{
    match end {
        LineEnd::Header => 0,
        LineEnd::Bad => 1,
        LineEnd::Made {
            rows: _,
            unrouted: _,
        } => 1,
    }
}

fn bad_in(end: LineEnd) -> u64
    ensures { (raw : List ℕ) (items : List RowMade) → result
        ≡ count_by (λ f. is_bad f.made) (line_folds 0 (line_of_end end raw items)) }
{
    match end {
        LineEnd::Header => 0,
        LineEnd::Bad => 1,
        LineEnd::Made {
            rows: _,
            unrouted: _,
        } => 0,
    }
}

fn rows_in(end: LineEnd) -> u64
    ensures { (raw : List ℕ) (items : List RowMade) → result
        ≡ sum_by (λ f. rows_in f.made) (line_folds 0 (line_of_end end raw items)) }
{
    match end {
        LineEnd::Header => 0,
        LineEnd::Bad => 0,
        LineEnd::Made { rows, unrouted: _ } => rows,
    }
}

fn unrouted_in(end: LineEnd) -> u64
    ensures { (raw : List ℕ) (items : List RowMade) → result
        ≡ sum_by (λ f. unrouted_in f.made) (line_folds 0 (line_of_end end raw items)) }
{
    match end {
        LineEnd::Header => 0,
        LineEnd::Bad => 0,
        LineEnd::Made { rows: _, unrouted } => unrouted,
    }
}

fn add_branches(branches: &mut [BranchCounts], items: &LineItems)
    ensures { branches.new ≡ branch_sums branches.old
        (map (branch_counts (fold_of_items items.now)) (range_with_len 0 (length branches.old))) }
{
    let mut number = 0;
    for branch in branches.iter_mut() {
        *branch = with_items(*branch, items, number);
        number += 1;
    }
}

// What a branch made before, with what it makes of these items.
fn with_items(before: BranchCounts, items: &LineItems, branch: u64) -> BranchCounts
    ensures { result ≡ both_branches before (branch_counts (fold_of_items items.now) branch) }
{
    let mut made = BranchCounts {
        written: 0,
        errors: 0,
        optional: 0,
    };
    for place in 0..items.len() {
        let item = items.get(place);
        if u64::from(item.branch) == branch {
            made = with_item(made, item);
        }
    }
    BranchCounts {
        written: before.written.saturating_add(made.written),
        errors: before.errors.saturating_add(made.errors),
        optional: before.optional.saturating_add(made.optional),
    }
}

fn with_item(counts: BranchCounts, item: Item<'_>) -> BranchCounts
    ensures { result ≡ with_one_item counts (item_value item.entry) }
{
    let written = matches!(item.end, ItemEnd::Written);
    let error = matches!(item.end, ItemEnd::Error);
    BranchCounts {
        written: counts.written.saturating_add(u64::from(written)),
        errors: counts.errors.saturating_add(u64::from(error)),
        optional: counts.optional.saturating_add(u64::from(item.optional)),
    }
}
