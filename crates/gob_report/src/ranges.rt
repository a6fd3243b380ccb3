//! How many ranges each pipeline of a state made.
ghost use Rattle.std.specs.Prelude.{◌≡◌, ◌++◌, if◌then◌else◌, nat_eq, length, map, IfOk, OnOk};
ghost use Rattle.std.specs.List.{enumerate_from, flat_map, range_with_len};
ghost use Rattle.gob_texts.specs.Commands.{pipeline_line};
ghost use Rattle.gob_report.specs.Counted.{counted_from, ranges_made_by, made_in, range_count_lines};

use crate::lines::Word::{Number, Plain};
use crate::lines::push_line;
use gob_marks::{Done, MarkTable};
use gob_plan::NoMemory;
use gob_state::State;
use std::alloc::{AllocError, Global};

// Counts one more at this index, where there is a count. No memory holds more ranges than a `u64` counts.
fn count_one(counts: &mut [u64], index: u64) -> Result<(), NoMemory>
    ensures { OnOk result (counts.new ≡ counted_from 0 counts.old (λ k. if nat_eq index k then 1 else 0)) }
{
    if index < counts.len() as u64 {
        let at = index as usize;
        match counts[at].checked_add(1) {
            Some(more) => counts[at] = more,
            None => return Err(NoMemory),
        }
    }
    Ok(())
}

// Counts each range at its pipeline.
fn count_done(counts: &mut [u64], done: &[Done]) -> Result<(), NoMemory>
    ensures { OnOk result (counts.new ≡ counted_from 0 counts.old (ranges_made_by done.now)) }
{
    for i in 0..done.len() {
        let one = done[i];
        count_one(counts, one.pipeline)?;
    }
    Ok(())
}

fn count_parts(counts: &mut [u64], table: &MarkTable) -> Result<(), NoMemory>
    ensures { OnOk result (counts.new ≡ counted_from 0 counts.old (made_in table.now)) }
{
    for i in 0..table.len() {
        match table.at(i) {
            Some((_, marks)) => count_done(counts, marks.done())?,
            None => unreachable!(),
        }
    }
    Ok(())
}

fn push_counted(into: &mut Vec<u8>, counts: &[u64]) -> Result<(), AllocError>
    ensures { OnOk result (into.new.items ≡ into.old.items ++ range_count_lines counts.now) }
{
    for i in 0..counts.len() {
        push_line(
            into,
            "pipeline",
            &[Number(i as u64), Plain("ranges"), Number(counts[i])],
        )?;
    }
    Ok(())
}

/// A line for each pipeline: how many ranges it made. All ranges are gone over once.
pub(crate) fn push_pipelines(
    alloc: Global,
    into: &mut Vec<u8>,
    state: &State,
) -> Result<(), NoMemory>
    ensures { OnOk result (into.new.items
        ≡ into.old.items ++ flat_map (λ p. pipeline_line state.now p.0) (enumerate_from 0 state.now.pipelines)) }
{
    let mut counts = vec![in alloc; 0u64; state.pipelines.len()]?;
    count_parts(&mut counts, &state.marks)?;
    push_counted(into, counts.as_slice())?;
    Ok(())
}
