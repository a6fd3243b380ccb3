//! How a sequence is written.

ghost use Rattle.std.specs.Prelude.{◌≡◌, ◌++◌, map, length, IfOk, OnOk};
ghost use Rattle.std.specs.List.{flat_map};
ghost use Rattle.gob_recovery.specs.Sequence.{sequence_text, step_line};
ghost use Rattle.gob_seq.specs.Steps.{commit_step_of};

use crate::sequence::{SeqStep, Sequence};
use gob_plan::{Bytes, NoMemory};
use gob_text::push_u64;
use std::alloc::{AllocError, Global};

/// The text of a sequence: its first line, a line for each step, and a last line with the number of steps.
pub fn write_sequence(alloc: Global, sequence: &Sequence) -> Result<Bytes, NoMemory>
    ensures { IfOk result (λ text. text ≡ sequence_text sequence.now) }
{
    let mut text = Vec::new(alloc);
    push_sequence(&mut text, sequence.steps())?;
    Ok(Bytes::from_vec(text))
}

fn push_sequence(into: &mut Vec<u8>, steps: &[SeqStep]) -> Result<(), AllocError>
    ensures { OnOk result (into.new.items ≡ into.old.items ++ sequence_text (map commit_step_of steps.now)) }
{
    into.extend_from_slice(b"gobblin-sequence 1\n")?;
    push_steps(into, steps)?;
    into.extend_from_slice(b"end ")?;
    push_u64(into, steps.len() as u64)?;
    into.extend_from_slice(b"\n")?;
    Ok(())
}

fn push_steps(into: &mut Vec<u8>, steps: &[SeqStep]) -> Result<(), AllocError>
    ensures { OnOk result (into.new.items ≡ into.old.items ++ flat_map step_line (map commit_step_of steps.now)) }
{
    for step in steps {
        push_step(into, step)?;
    }
    Ok(())
}

fn push_step(into: &mut Vec<u8>, step: &SeqStep) -> Result<(), AllocError>
    ensures { OnOk result (into.new.items ≡ into.old.items ++ step_line (commit_step_of step.now)) }
{
    match step {
        SeqStep::Move { from, to } => {
            into.extend_from_slice(b"move ")?;
            into.extend_from_slice(from.as_str().as_bytes())?;
            into.extend_from_slice(b" ")?;
            into.extend_from_slice(to.as_str().as_bytes())?;
        }
        SeqStep::Remove { name } => {
            into.extend_from_slice(b"remove ")?;
            into.extend_from_slice(name.as_str().as_bytes())?;
        }
    }
    into.extend_from_slice(b"\n")
}
