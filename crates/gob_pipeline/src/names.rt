//! The names of a unit's files.
ghost use Rattle.std.specs.Prelude.{◌≡◌, ◌++◌, [], ◌∷◌, true, string_bytes, IfOk, OnOk};
ghost use Rattle.std.specs.Fmt.{decimal};
ghost use Rattle.std.specs.List.{list_all};
ghost use Rattle.std.specs.Str.{IsUtf8};
ghost use Rattle.gob_meaning.specs.Names.{branch_extension, range_name, target_name};
ghost use Rattle.gob_pipeline.specs.Made.{is_place, is_placed, target_value};
ghost use Rattle.gob_pipeline.specs.Alphabet.{IsTargetName, end_of_name, front_of_name, is_target_byte};

use crate::buffers::Target;
use gob_plan::{Format, NoMemory, Plan, Text};
use gob_text::{push_escaped, push_offset, push_u64};
use std::alloc::Global;

/// The name of a target of a unit, without the job's folder: where its bytes are published. It has letters, digits and
/// `._-/@%` alone.
pub fn name_of(
    alloc: Global,
    plan: &Plan,
    part: &str,
    lo: u64,
    hi: u64,
    target: Target<'_>,
) -> Result<Text, NoMemory>
    requires { is_placed (target_value target) ≡ true }
    ensures name { IfOk result (λ name. name ≡ target_name plan.now part.now lo hi (target_value target.entry)) }
    ensures spelled { IfOk result IsTargetName }
{
    let mut name = Vec::new(alloc);
    push_front(&mut name, target)?;
    push_range(&mut name, part, lo, hi)?;
    name.extend_from_slice(ending(plan, target).as_bytes())?;
    Ok(Text::from_string(text_from(name)))
}

// What of the name tells the target, but for its ending.
fn push_front(into: &mut Vec<u8>, target: Target<'_>) -> Result<(), NoMemory>
    requires placed { is_placed (target_value target) ≡ true }
    requires empty { into.old.items ≡ [] }
    ensures name { OnOk result (into.new.items ≡ front_of_name (target_value target.entry)) }
    ensures spelled { OnOk result (list_all is_target_byte into.new.items ≡ true) }
{
    match target {
        Target::Out { branch, place } => {
            push_folder(into, "out/", branch, place)?;
            Ok(())
        }
        Target::Err { branch, place } => {
            push_folder(into, "err/", branch, place)?;
            Ok(())
        }
        Target::Bad => {
            into.extend_from_slice(b"err/line/")?;
            Ok(())
        }
    }
}

fn push_folder(into: &mut Vec<u8>, kind: &str, branch: u32, place: &str) -> Result<(), NoMemory>
    requires kind { list_all is_target_byte kind.now ≡ true }
    requires placed { is_place place.now ≡ true }
    requires empty { into.old.items ≡ [] }
    ensures name { OnOk result (into.new.items ≡ kind.now ++ decimal branch ++ 47 ∷ place.now) }
    ensures spelled { OnOk result (list_all is_target_byte into.new.items ≡ true) }
{
    into.extend_from_slice(kind.as_bytes())?;
    push_u64(into, u64::from(branch))?;
    into.push(b'/')?;
    into.extend_from_slice(place.as_bytes())?;
    Ok(())
}

// The range of the partition, up to the ending.
fn push_range(into: &mut Vec<u8>, part: &str, lo: u64, hi: u64) -> Result<(), NoMemory>
    ensures { OnOk result (into.new.items ≡ into.old.items ++ range_name part.now lo hi []) }
{
    push_escaped(into, part)?;
    into.push(b'@')?;
    push_offset(into, lo)?;
    into.push(b'-')?;
    push_offset(into, hi)?;
    into.push(b'.')?;
    Ok(())
}

// How the name ends.
fn ending<'a>(plan: &Plan, target: Target<'a>) -> &'a str
    ensures { result.now ≡ end_of_name plan.now (target_value target.entry) }
{
    match target {
        Target::Out { branch, place: _ } => ending_of_branch(plan, branch),
        Target::Err { branch, place: _ } => ending_of_branch(plan, branch),
        Target::Bad => "raw",
    }
}

fn ending_of_branch(plan: &Plan, branch: u32) -> &'static str
    ensures { result.now ≡ branch_extension plan.now branch }
{
    match plan.branches.as_slice().get(branch as usize) {
        Some(branch) => match branch.format {
            Format::Lines => "txt",
            Format::Csv => "csv",
            Format::Json => "json",
        },
        None => "",
    }
}

fn text_from(name: Vec<u8>) -> String
    requires { IsUtf8 name.items }
    ensures { string_bytes result ≡ name.items }
{
    match String::from_utf8(name) {
        Ok(text) => text,
        Err(_) => unreachable!(),
    }
}
