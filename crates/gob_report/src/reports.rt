//! What a run did, what a state tells, and whether a sequence was open.
ghost use Rattle.std.specs.Prelude.{◌≡◌, ◌++◌, ◌∷◌, [], codes, if◌then◌else◌, length, IfOk, OnOk, true, false};
ghost use Rattle.std.specs.Option.{option_copied};
ghost use Rattle.std.specs.List.{flat_map};
ghost use Rattle.gob_bytes.specs.Words.{words};
ghost use Rattle.gob_ledger.specs.State as states;
ghost use Rattle.gob_state.specs.Committed.{judged_by};
ghost use Rattle.gob_texts.specs.Commands as commands;
ghost use Rattle.gob_texts.specs.Refusals.{status_line};
ghost use Rattle.gob_texts.specs.Report as report;
ghost use Rattle.gob_report.specs.States.{body_of};

use crate::lines::Word::{Name, Plain};
use crate::lines::push_line;
use crate::marks::{push_marks, push_parts};
use crate::ranges::push_pipelines;
use crate::totals::push_totals;
use crate::units::{push_units, run_status};
use gob_job::Job;
use gob_plan::{Bytes, CommitPolicy, NoMemory, Text};
use gob_state::{Outcome, State, empty_state, push_numbered};
use std::alloc::{AllocError, Global};

/// A line with the exit status.
pub(crate) fn push_status(into: &mut Vec<u8>, status: u8) -> Result<(), AllocError>
    ensures { OnOk result (into.new.items ≡ into.old.items ++ status_line status) }
{
    push_numbered(into, b"status", &[status as u64])?;
    Ok(())
}

// ---- a run

fn policy_word(policy: CommitPolicy) -> &'static str
    ensures { result.now ≡ report.policy_word policy }
{
    match policy {
        CommitPolicy::Full => "full",
        CommitPolicy::Successful => "successful",
    }
}

fn push_job(into: &mut Vec<u8>, job: &str, policy: CommitPolicy) -> Result<(), AllocError>
    ensures { OnOk result (into.new.items ≡ into.old.items ++ report.job_line job.now policy) }
{
    push_line(
        into,
        "job",
        &[Plain(job), Plain("policy"), Plain(policy_word(policy))],
    )
}

fn push_too_long(into: &mut Vec<u8>, parts: &[Text]) -> Result<(), AllocError>
    ensures { OnOk result (into.new.items ≡ into.old.items ++ flat_map report.too_long_line parts.now) }
{
    for i in 0..parts.len() {
        push_line(into, "too-long", &[Name(parts[i].as_str())])?;
    }
    Ok(())
}

// The units, and the state after them.
fn push_outcome(into: &mut Vec<u8>, outcome: &Outcome) -> Result<(), AllocError>
    requires results { length outcome.now.results ≡ length outcome.now.units }
    requires committed { length outcome.now.committed ≡ length outcome.now.units }
    ensures { OnOk result (into.new.items ≡ into.old.items
        ++ flat_map report.too_long_line outcome.now.too_long
        ++ report.units_lines (judged_by outcome.now.units outcome.now.results) outcome.now.committed
        ++ flat_map report.mark_line outcome.now.after.parts ++ report.total_lines outcome.now.after) }
{
    push_too_long(into, outcome.too_long.as_slice())?;
    push_units(
        into,
        outcome.units.as_slice(),
        outcome.results.as_slice(),
        outcome.committed.as_slice(),
    )?;
    push_marks(into, &outcome.after.marks)?;
    push_totals(into, &outcome.after)?;
    Ok(())
}

/// What is told of a run: the names that are left alone, the units and which of them were committed, the marks and the
/// totals of the state after it, and the status. It costs the units and the partitions.
pub fn report_text(alloc: Global, job: &Job, outcome: &Outcome) -> Result<Bytes, NoMemory>
    requires results { length outcome.now.results ≡ length outcome.now.units }
    requires committed { length outcome.now.committed ≡ length outcome.now.units }
    ensures { IfOk result (λ text. text ≡ report.report_of job.now.name job.now.policy outcome.now.too_long
        (judged_by outcome.now.units outcome.now.results) outcome.now.committed outcome.now.after) }
{
    let mut text = Vec::new(alloc);
    push_job(&mut text, job.name.as_str(), job.policy)?;
    push_outcome(&mut text, outcome)?;
    push_status(&mut text, run_status(outcome.results.as_slice()))?;
    Ok(Bytes::from_vec(text))
}

// ---- a state

fn push_state(alloc: Global, into: &mut Vec<u8>, state: &State) -> Result<(), NoMemory>
    ensures { OnOk result (into.new.items
        ≡ into.old.items ++ commands.state_lines state.now ++ report.total_lines state.now) }
{
    push_parts(into, &state.marks)?;
    push_pipelines(alloc, into, state)?;
    push_totals(into, state)?;
    Ok(())
}

// Where there is no state, all numbers are 0.
fn push_no_state(alloc: Global, into: &mut Vec<u8>) -> Result<(), NoMemory>
    ensures { OnOk result (into.new.items ≡ into.old.items ++ report.total_lines (states.empty_state 0)) }
{
    let empty = empty_state(alloc, 0)?;
    push_totals(into, &empty)?;
    Ok(())
}

fn push_job_name(into: &mut Vec<u8>, job: &str) -> Result<(), AllocError>
    ensures { OnOk result (into.new.items ≡ into.old.items ++ words (codes "job") (job.now ∷ [])) }
{
    push_line(into, "job", &[Plain(job)])
}

// All but the first and the last line.
fn push_body(alloc: Global, into: &mut Vec<u8>, state: Option<&State>) -> Result<(), NoMemory>
    ensures { OnOk result (into.new.items ≡ into.old.items ++ body_of (option_copied state.entry)) }
{
    match state {
        Some(state) => push_state(alloc, into, state),
        None => push_no_state(alloc, into),
    }
}

/// What a state says: the partitions with what each owes, the pipelines, and the totals.
#[tactic(auto, using(crate::proofs::Called::state_called))]
pub fn state_text(alloc: Global, job: &str, state: Option<&State>) -> Result<Bytes, NoMemory>
    ensures { IfOk result (λ text. text ≡ commands.state_report job.now (option_copied state.entry)) }
{
    let mut text = Vec::new(alloc);
    push_job_name(&mut text, job)?;
    push_body(alloc, &mut text, state)?;
    push_status(&mut text, 0)?;
    Ok(Bytes::from_vec(text))
}

// ---- a recovery

fn sequence_word(was_open: bool) -> &'static str
    ensures { result.now ≡ (if was_open then codes "open" else codes "none") }
{
    if was_open { "open" } else { "none" }
}

/// Whether a sequence was open, which is settled now.
#[tactic(auto, using(crate::proofs::Called::recovery_called))]
pub fn recovery_text(alloc: Global, job: &str, was_open: bool) -> Result<Bytes, NoMemory>
    ensures { IfOk result (λ text. text ≡ commands.recovery_report job.now was_open) }
{
    let mut text = Vec::new(alloc);
    push_line(
        &mut text,
        "recovered",
        &[
            Plain(job),
            Plain("sequence"),
            Plain(sequence_word(was_open)),
        ],
    )?;
    push_status(&mut text, 0)?;
    Ok(Bytes::from_vec(text))
}
