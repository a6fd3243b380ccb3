//! The sequence that does a group's commit.

ghost use Rattle.std.specs.Prelude.{◌≡◌, ◌++◌, ◌∷◌, List as Items, map, true, IfOk, OnOk};
ghost use Rattle.std.specs.List.Sorted.{IsPermutation};
ghost use Rattle.gob_history.specs.Laws.{moves_of, removes_of, staged_state};
ghost use Rattle.gob_recovery.specs.Sequence as recovery;
ghost use Rattle.gob_segments.specs.Changes.{change_value};
ghost use Rattle.gob_seq.specs.Steps.{commit_step_of};
ghost use Rattle.gob_commit.specs.Going.{ChangeNamed, DoesChange};
ghost use Rattle.gob_commit.specs.Staged.{MovesAll, NamesFit, all_pairs, lent_pair, pairs_in};

use gob_plan::{List, NoMemory, Text, UnitResult};
use gob_segments::StateChange;
use gob_seq::{SeqStep, Sequence};
use std::alloc::Global;

/// Where the state stands until the commit.
pub(crate) fn staged_state_name(alloc: Global, job: &str) -> Result<Text, NoMemory>
    ensures { IfOk result (λ name. name ≡ staged_state job.now) }
{
    let mut name = Text::from_str(alloc, job)?;
    name.push("/stage/state")?;
    Ok(name)
}

/// What publishes the staged files and stores the state: a move for each file, in byte order of their targets, then the
/// state's, and then the removal of each change that it makes needless.
pub(crate) fn sequence_of(
    alloc: Global,
    job: &str,
    change: &StateChange,
    results: &[UnitResult],
) -> Result<Sequence, NoMemory>
    requires job { recovery.is_file_name job.now ≡ true }
    requires change { ChangeNamed job.now (change_value change.now) }
    requires names { NamesFit job.now (all_pairs results.now) }
    ensures { IfOk result (DoesChange job.now (change_value change.now) (all_pairs results.now)) }
{
    let mut steps = moves(alloc, results)?;
    push_state(&mut steps, alloc, job, change)?;
    match Sequence::new(alloc, job, steps)? {
        Some(sequence) => Ok(sequence),
        None => unreachable!(),
    }
}

fn moves(alloc: Global, results: &[UnitResult]) -> Result<List<SeqStep>, NoMemory>
    ensures { IfOk result (λ steps. MovesAll (all_pairs results.now) (map commit_step_of steps)) }
{
    let mut files = staged_files(alloc, results)?;
    files.sort()?;
    let steps = moves_in_order(alloc, files.as_slice())?;
    Ok(steps)
}

// The target of each staged file, and the file.
fn staged_files<'a>(
    alloc: Global,
    results: &'a [UnitResult],
) -> Result<Vec<(&'a str, &'a str)>, NoMemory>
    ensures { IfOk result (λ files. map lent_pair files.items ≡ all_pairs results.now) }
{
    let mut files = Vec::new(alloc);
    for made in results {
        push_files(&mut files, made)?;
    }
    Ok(files)
}

fn push_files<'a>(files: &mut Vec<(&'a str, &'a str)>, made: &'a UnitResult) -> Result<(), NoMemory>
    ensures { OnOk result (map lent_pair files.new.items ≡ map lent_pair files.old.items ++ pairs_in made.now) }
{
    let UnitResult::Good { staged, .. } = made else {
        return Ok(());
    };
    for file in staged.as_slice() {
        files.push((file.to.as_str(), file.from.as_str()))?;
    }
    Ok(())
}

fn moves_in_order(alloc: Global, files: &[(&str, &str)]) -> Result<List<SeqStep>, NoMemory>
    ensures { IfOk result (λ steps. map commit_step_of steps ≡ moves_of (map lent_pair files.now)) }
{
    let mut steps = List::new(alloc);
    for (to, from) in files {
        let from = Text::from_str(alloc, *from)?;
        let to = Text::from_str(alloc, *to)?;
        steps.push(SeqStep::Move { from, to })?;
    }
    Ok(steps)
}

// The state's move, and the removals.
fn push_state(
    steps: &mut List<SeqStep>,
    alloc: Global,
    job: &str,
    change: &StateChange,
) -> Result<(), NoMemory>
    ensures { OnOk result (map commit_step_of steps.new ≡ map commit_step_of steps.old
        ++ recovery.move (staged_state job.now) change.now.target ∷ removes_of change.now.removes) }
{
    let from = staged_state_name(alloc, job)?;
    let to = change.target.copy()?;
    let state = SeqStep::Move { from, to };
    steps.push(state)?;
    push_removes(steps, change.removes.as_slice())?;
    Ok(())
}

fn push_removes(steps: &mut List<SeqStep>, names: &[Text]) -> Result<(), NoMemory>
    ensures { OnOk result (map commit_step_of steps.new ≡ map commit_step_of steps.old ++ removes_of names.now) }
{
    for name in names {
        let name = name.copy()?;
        steps.push(SeqStep::Remove { name })?;
    }
    Ok(())
}
