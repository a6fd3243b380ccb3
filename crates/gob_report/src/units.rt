//! The units of a run, and what became of each.
ghost use Rattle.std.specs.Prelude.{◌≡◌, ◌++◌, ◌∷◌, codes, if◌then◌else◌, length, map, OnOk};
ghost use Rattle.std.specs.List.{list_all};
ghost use Rattle.gob_ledger.specs.Next.{is_good};
ghost use Rattle.gob_meaning.specs.Results as results;
ghost use Rattle.gob_state.specs.Committed.{judged_by, verdict_in, verdicts_in};
ghost use Rattle.gob_texts.specs.Report as report;
ghost use Rattle.gob_report.specs.Lines.{word_text};

use crate::lines::Word::{Name, Number, Plain};
use crate::lines::{Word, push_long_line};
use crate::totals::{push_branches, tally};
use gob_plan::{Cause, Counts, Unit, UnitResult};
use gob_state::push_numbered;
use std::alloc::AllocError;

// A unit by its partition and its range, and then what became of it and these words.
fn push_unit_line<'a>(
    into: &mut Vec<u8>,
    unit: &'a Unit,
    fate: &'a str,
    why: &[Word<'_>],
) -> Result<(), AllocError>
    ensures { OnOk result (into.new.items
        ≡ into.old.items ++ report.unit_line unit.now (fate.now ∷ map word_text why.now)) }
{
    push_long_line(
        into,
        "unit",
        &[
            Name(unit.part.as_str()),
            Number(unit.lo),
            Number(unit.hi),
            Plain(fate),
        ],
        why,
    )
}

fn push_warnings(into: &mut Vec<u8>, warnings: &[u32]) -> Result<(), AllocError>
    ensures { OnOk result (into.new.items ≡ into.old.items ++ report.warning_lines warnings.now) }
{
    for i in 0..warnings.len() {
        push_numbered(into, b"warning", &[warnings[i] as u64])?;
    }
    Ok(())
}

fn fate_of_good(committed: bool) -> &'static str
    ensures { result.now ≡ (if committed then codes "committed" else codes "held") }
{
    if committed { "committed" } else { "held" }
}

fn push_good(
    into: &mut Vec<u8>,
    committed: bool,
    unit: &Unit,
    counts: &Counts,
    warnings: &[u32],
) -> Result<(), AllocError>
    ensures { OnOk result (into.new.items
        ≡ into.old.items ++ report.unit_lines committed unit.now (results.good counts.now warnings.now)) }
{
    push_unit_line(into, unit, fate_of_good(committed), &tally(counts))?;
    push_branches(into, "branch", &[], counts.branches.as_slice())?;
    push_warnings(into, warnings)?;
    Ok(())
}

fn push_failed(into: &mut Vec<u8>, unit: &Unit, cause: Cause) -> Result<(), AllocError>
    ensures { OnOk result (into.new.items
        ≡ into.old.items ++ report.unit_line unit.now (codes "failed" ∷ report.cause_words cause)) }
{
    match cause {
        Cause::Kill { branch, policy, at } => push_unit_line(
            into,
            unit,
            "failed",
            &[
                Plain("kill"),
                Number(branch as u64),
                Number(policy as u64),
                Number(at),
            ],
        ),
        Cause::BadRecords { at } => {
            push_unit_line(into, unit, "failed", &[Plain("bad-records"), Number(at)])
        }
        Cause::Policy { index } => {
            push_unit_line(
                into,
                unit,
                "failed",
                &[Plain("policy"), Number(index as u64)],
            )
        }
        Cause::Gone => push_unit_line(into, unit, "failed", &[Plain("gone")]),
        Cause::Torn => push_unit_line(into, unit, "failed", &[Plain("torn")]),
        Cause::Fault => push_unit_line(into, unit, "failed", &[Plain("fault")]),
    }
}

fn push_unit(
    into: &mut Vec<u8>,
    committed: bool,
    unit: &Unit,
    made: &UnitResult,
) -> Result<(), AllocError>
    ensures { OnOk result (into.new.items
        ≡ into.old.items ++ report.unit_lines committed unit.now (verdict_in made.now)) }
{
    match made {
        UnitResult::Good {
            counts,
            warnings,
            staged: _,
        } => push_good(into, committed, unit, counts, warnings.as_slice()),
        UnitResult::Failed { cause } => push_failed(into, unit, *cause),
    }
}

/// The units in order, each as it was committed or not.
pub(crate) fn push_units(
    into: &mut Vec<u8>,
    units: &[Unit],
    results: &[UnitResult],
    committed: &[bool],
) -> Result<(), AllocError>
    requires results { length results.now ≡ length units.now }
    requires committed { length committed.now ≡ length units.now }
    ensures { OnOk result (into.new.items
        ≡ into.old.items ++ report.units_lines (judged_by units.now results.now) committed.now) }
{
    for i in 0..units.len() {
        push_unit(into, committed[i], &units[i], &results[i])?;
    }
    Ok(())
}

fn is_good(made: &UnitResult) -> bool
    ensures { result ≡ is_good (verdict_in made.now) }
{
    match made {
        UnitResult::Good { .. } => true,
        UnitResult::Failed { .. } => false,
    }
}

fn are_good(results: &[UnitResult]) -> bool
    ensures { result ≡ list_all is_good (verdicts_in results.now) }
{
    for made in results {
        if !is_good(made) {
            return false;
        }
    }
    true
}

/// The exit status of a run: 0 where every unit is good, else 1.
pub fn run_status(results: &[UnitResult]) -> u8
    ensures { result ≡ report.run_status (verdicts_in results.now) }
{
    if are_good(results) { 0 } else { 1 }
}
