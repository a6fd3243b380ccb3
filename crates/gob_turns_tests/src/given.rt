//! The rules of a plan, units from the beginning of their partition, and a source that holds them.

ghost use Rattle.std.specs.Prelude.{◌≡◌, ◌<◌, true, IfOk};
ghost use Rattle.gob_meaning.specs.Plans.{is_fitting};
ghost use Rattle.gob_task.specs.Task.{IsPullable};
ghost use Rattle.gob_turns_tests.specs.Given.{rules_with, unit_to};

use gob_io::MemSource;
use gob_pipeline::Pipeline;
use gob_plan::{NoMemory, Plan, Text, Unit};
use gob_task::TaskRules;
use std::alloc::Global;

/// The rules of the job `j1` with this plan, and one retry.
pub(crate) fn rules_of(alloc: Global, plan: &Plan, piece: u32) -> Result<TaskRules, NoMemory>
    requires fits { is_fitting plan.now ≡ true }
    requires some { 0 < piece }
    ensures { IfOk result (λ r. r ≡ rules_with plan.now piece) }
{
    let job = Text::from_str(alloc, "j1")?;
    let pipeline = Pipeline::new(alloc, plan)?;
    Ok(TaskRules::new(job, pipeline, piece, 1))
}

/// The first so many bytes of a partition.
pub(crate) fn unit_of(alloc: Global, part: &str, hi: u64) -> Result<Unit, NoMemory>
    ensures { IfOk result (λ u. u ≡ unit_to part.now hi) }
{
    let part = Text::from_str(alloc, part)?;
    Ok(Unit {
        part,
        lo: 0,
        hi,
        fresh: true,
        listed: true,
    })
}

/// The first so many bytes of the partition `a.log`, one at least.
pub(crate) fn first_bytes(alloc: Global, hi: u64) -> Result<Unit, NoMemory>
    ensures { IfOk result IsPullable }
{
    let part = Text::from_str(alloc, "a.log")?;
    Ok(Unit {
        part,
        lo: 0,
        hi: hi.max(1),
        fresh: true,
        listed: true,
    })
}

/// A source that fails the pulls with these numbers. It holds these bytes of `a.log`, and those of `b.log`.
pub(crate) fn source_of(
    alloc: Global,
    first: &[u8],
    second: &[u8],
    fails: &[u64],
) -> Result<MemSource, NoMemory> {
    let fails = Vec::from_slice(alloc, fails)?;
    let none = Vec::new(alloc);
    let mut source = MemSource::new(alloc, none, Vec::new(alloc), Vec::new(alloc), fails);
    source.grow("a.log", first)?;
    source.grow("b.log", second)?;
    Ok(source)
}
