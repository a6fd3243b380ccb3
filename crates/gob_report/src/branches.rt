//! What a job's branches write, and the keys that nothing reads.
ghost use Rattle.std.specs.Prelude.{◌≡◌, ◌++◌, ◌∷◌, [], codes, IfOk, OnOk};
ghost use Rattle.std.specs.List.{enumerate_from, flat_map};
ghost use Rattle.std.specs.Fmt.{decimal};
ghost use Rattle.gob_bytes.specs.Words.{words};
ghost use Rattle.gob_texts.specs.Commands as commands;

use crate::lines::Word::{Name, Number, Plain};
use crate::lines::{push_line, push_words};
use crate::reports::push_status;
use gob_job::columns_through;
use gob_plan::{BranchSpec, Bytes, Column, Format, Kind, List, NoMemory, Plan, Text};
use std::alloc::{AllocError, Global};

fn format_word(format: Format) -> &'static str
    ensures { result.now ≡ commands.format_word format }
{
    match format {
        Format::Lines => "lines",
        Format::Csv => "csv",
        Format::Json => "json",
    }
}

fn kind_word(kind: Kind) -> &'static str
    ensures { result.now ≡ commands.kind_word kind }
{
    match kind {
        Kind::Bool => "bool",
        Kind::Int => "int",
        Kind::Text => "text",
    }
}

fn push_column(into: &mut Vec<u8>, column: &Column) -> Result<(), AllocError>
    ensures { OnOk result (into.new.items ≡ into.old.items ++ commands.columns_word (column.now ∷ [])) }
{
    into.extend_from_slice(column.name.as_str().as_bytes())?;
    into.push(b':')?;
    into.extend_from_slice(kind_word(column.kind).as_bytes())?;
    Ok(())
}

// Columns as name:kind, with commas between them.
fn push_columns(into: &mut Vec<u8>, columns: &[Column]) -> Result<(), AllocError>
    ensures { OnOk result (into.new.items ≡ into.old.items ++ commands.columns_word columns.now) }
{
    match columns {
        [] => Ok(()),
        [only] => push_column(into, only),
        [first, rest @ ..] => {
            push_column(into, first)?;
            into.push(b',')?;
            push_columns(into, rest)
        }
    }
}

// The line of a branch: its number, its format and the columns that it writes.
fn push_branch_line(
    into: &mut Vec<u8>,
    number: u64,
    format: Format,
    columns: &[Column],
) -> Result<(), AllocError>
    ensures { OnOk result (into.new.items ≡ into.old.items ++ words (codes "branch")
        (decimal number ∷ commands.format_word format ∷ commands.columns_word columns.now ∷ [])) }
{
    into.extend_from_slice(b"branch")?;
    push_words(into, &[Number(number), Plain(format_word(format))])?;
    into.push(b' ')?;
    push_columns(into, columns)?;
    into.push(b'\n')?;
    Ok(())
}

// A branch with its format and the columns after its steps.
fn push_branch(
    alloc: Global,
    into: &mut Vec<u8>,
    shared: &[Column],
    number: u64,
    branch: &BranchSpec,
) -> Result<(), NoMemory>
    ensures { OnOk result (into.new.items ≡ into.old.items ++ commands.format_line shared.now (number, branch.now)) }
{
    let columns = columns_through(alloc, branch.steps.as_slice(), shared)?;
    push_branch_line(into, number, branch.format, columns.as_slice())?;
    Ok(())
}

fn push_branches(
    alloc: Global,
    into: &mut Vec<u8>,
    shared: &[Column],
    branches: &[BranchSpec],
) -> Result<(), NoMemory>
    ensures { OnOk result (into.new.items
        ≡ into.old.items ++ flat_map (commands.format_line shared.now) (enumerate_from 0 branches.now)) }
{
    for i in 0..branches.len() {
        push_branch(alloc, into, shared, i as u64, &branches[i])?;
    }
    Ok(())
}

fn push_unknown(into: &mut Vec<u8>, unknown: &[Text]) -> Result<(), AllocError>
    ensures { OnOk result (into.new.items ≡ into.old.items ++ flat_map commands.unknown_line unknown.now) }
{
    for i in 0..unknown.len() {
        push_line(into, "unknown", &[Name(unknown[i].as_str())])?;
    }
    Ok(())
}

/// The text for a job of this name and plan, and the keys of its file that aren't known.
#[tactic(auto, using(crate::proofs::Called::check_called))]
pub fn check_text(
    alloc: Global,
    job: &str,
    plan: &Plan,
    unknown: &List<Text>,
) -> Result<Bytes, NoMemory>
    ensures { IfOk result (λ text. text ≡ commands.check_report job.now plan.now unknown.now) }
{
    let shared = columns_through(alloc, plan.steps.as_slice(), plan.columns.as_slice())?;
    let mut text = Vec::new(alloc);
    push_line(&mut text, "job", &[Plain(job), Plain("ok")])?;
    push_branches(
        alloc,
        &mut text,
        shared.as_slice(),
        plan.branches.as_slice(),
    )?;
    push_unknown(&mut text, unknown.as_slice())?;
    push_status(&mut text, 0)?;
    Ok(Bytes::from_vec(text))
}
