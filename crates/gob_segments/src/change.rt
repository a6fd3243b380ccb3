//! What a commit does to the files that tell a job's state.
ghost use Rattle.std.specs.Prelude.{◌≡◌, ◌≤◌, ◌+◌, ◌-◌, [], false, Some, None, map, IfOk, IfSome};
ghost use Rattle.gob_bytes.specs.Paths.{delta_name};
ghost use Rattle.gob_ledger.specs.Delta as delta;
ghost use Rattle.gob_ledger.specs.Spelling.{Proper};
ghost use Rattle.gob_segments.specs.Changes.{CountsChanges, change_value};

use crate::delta::write_delta;
use crate::names::{delta_file_name, state_file_name};
use gob_plan::{Bytes, List, NoMemory, Text};
use gob_state::{State, write_state};
use std::alloc::Global;

/// What is kept of a job: its state, from a state that is kept whole and the changes behind it.
#[derive(Drop)]
pub struct Loaded {
    /// None where nothing is kept.
    pub state: Option<State>,
    /// How many changes led to it. Where nothing is kept there are none.
    pub deltas: u64,
    /// The version of the state that is kept whole, 1 or 2; 2 where there is none.
    pub version: u8,
}

/// What a commit changes of a job's files.
#[derive(Drop)]
pub struct StateChange {
    /// The file that is written.
    pub target: Text,
    /// What it then holds.
    pub bytes: Bytes,
    /// The files that it makes needless, in order of their runs.
    pub removes: List<Text>,
    /// How many changes then stand behind the state that is kept whole.
    pub deltas: u64,
}

/// So many changes are kept behind a state; the next commit keeps a state whole.
const MOST_DELTAS: u64 = 64;

/// What a commit does to the files that tell the state: it writes the state whole where there is none, where the one
/// that is kept whole is of the first version, where there are changes enough, or where the run number is at its end;
/// else it adds one change.
#[tactic(auto, unfolding(gob_ledger::specs::Delta::change_of))]
pub fn state_change(job: &str, before: &Loaded, after: &State) -> Result<StateChange, NoMemory>
    requires counted { CountsChanges before.now.state before.now.deltas }
    requires after { Proper after.now }
    requires follows { IfSome before.now.state (λ s. Proper s
        × (delta.wants_whole before.now.version before.now.deltas after.now ≡ false → delta.StateFollows s after.now)) }
    ensures { IfOk result (λ c. change_value c
        ≡ delta.change_of job.now before.now.state before.now.deltas before.now.version after.now) }
{
    let alloc = after.pipelines.allocator();
    let Some(state) = &before.state else {
        let change = whole_change(alloc, job, List::new(alloc), after)?;
        return Ok(change);
    };
    if wants_whole(before.version, before.deltas, after) {
        let removes = earlier_changes(alloc, job, state.run, before.deltas)?;
        let change = whole_change(alloc, job, removes, after)?;
        return Ok(change);
    }
    let change = small_change(alloc, job, state, before.deltas, after)?;
    Ok(change)
}

fn wants_whole(version: u8, deltas: u64, after: &State) -> bool
    ensures { result ≡ delta.wants_whole version deltas after.now }
{
    version == 1 || deltas >= MOST_DELTAS || after.run == u64::MAX
}

fn whole_change(
    alloc: Global,
    job: &str,
    removes: List<Text>,
    after: &State,
) -> Result<StateChange, NoMemory>
    requires { Proper after.now }
    ensures { IfOk result (λ c. change_value c ≡ delta.whole_change job.now removes after.now) }
{
    let target = state_file_name(alloc, job)?;
    let bytes = write_state(after)?;
    Ok(StateChange {
        target,
        bytes,
        removes,
        deltas: 0,
    })
}

fn small_change(
    alloc: Global,
    job: &str,
    before: &State,
    deltas: u64,
    after: &State,
) -> Result<StateChange, NoMemory>
    requires few { deltas ≤ 63 }
    requires before { Proper before.now }
    requires after { Proper after.now }
    requires follows { delta.StateFollows before.now after.now }
    ensures { IfOk result (λ c. change_value c ≡ delta.small_change job.now before.now deltas after.now) }
{
    let target = delta_file_name(alloc, job, after.run)?;
    let bytes = write_delta(before, after)?;
    Ok(StateChange {
        target,
        bytes,
        removes: List::new(alloc),
        deltas: deltas + 1,
    })
}

// The names of the last so many changes up to this run.
fn earlier_changes(alloc: Global, job: &str, run: u64, deltas: u64) -> Result<List<Text>, NoMemory>
    requires { deltas ≤ run }
    ensures { IfOk result (λ names. names ≡ delta.earlier_changes job.now run deltas) }
{
    let mut names = List::new(alloc);
    for i in 0..deltas {
        let name = delta_file_name(alloc, job, run - deltas + 1 + i)?;
        names.push(name)?;
    }
    Ok(names)
}
