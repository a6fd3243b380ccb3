//! The keys of a job file that no row of the key table has.
ghost use Rattle.std.specs.Prelude.{◌≡◌, ◌≢◌, ◌∷◌, ◌++◌, [], ℕ, List, IfOk, MatchOption, OnOk};
ghost use Rattle.std.specs.List.{list_any};
ghost use Rattle.std.specs.Str.{bytes_eq};
ghost use Rattle.gob_bytes.specs.Tables.{at_name};
ghost use Rattle.gob_jobs.specs.Reading as spec;
ghost use Rattle.gob_job.specs.KeysKnown.{any_number, keys_known, unknown_of};
ghost use Rattle.gob_job.specs.Rows.{row_from};

use crate::cuts::{number_within, trimmed_text};
use crate::rows::{Row, Standing, branch_rows, first_rows, last_rows};
use gob_plan::{List, NoMemory, Text};
use gob_props::Props;
use gob_text::read_u64;
use std::alloc::Global;

// How many branches there are, one where no number is told.
fn branches_told(props: &Props) -> u64
    ensures { result ≡ spec.branches_told (at_name props.now) }
{
    let Some(value) = props.get("fork.branches") else {
        return 1;
    };
    number_within(1, 8, trimmed_text(value).as_bytes()).unwrap_or(1)
}

// What follows the front, where the text begins with it.
fn behind<'a>(text: &'a [u8], front: &[u8]) -> Option<&'a [u8]>
    ensures { MatchOption result
        ((rest : List ℕ) → text.now ≢ front.now ++ rest)
        (λ rest. text.now ≡ front.now ++ rest.now) }
{
    text.strip_prefix(front)
}

// Whether a key has this front, a dot, and a number below this one.
fn is_numbered(key: &[u8], front: &[u8], branches: u64) -> bool
    ensures { result ≡ any_number branches front.now key.now }
{
    let Some(rest) = behind(key, front) else {
        return false;
    };
    let Some(number) = behind(rest, b".") else {
        return false;
    };
    let Some(branch) = read_u64(number) else {
        return false;
    };
    branch < branches
}

// Whether the key is one of the row's, where there are so many branches.
fn is_key_of(row: &Row, branches: u64, key: &str) -> bool
    ensures { result ≡ list_any (bytes_eq key.now) (spec.keys_of_row branches (row_from row.now)) }
{
    match row.standing {
        Standing::Once => key == row.key,
        Standing::ForEachBranch => is_numbered(key.as_bytes(), row.key.as_bytes(), branches),
        Standing::ForEachBranchOrAll => {
            key == row.key || is_numbered(key.as_bytes(), row.key.as_bytes(), branches)
        }
    }
}

fn is_known_by(rows: &[Row], branches: u64, key: &str) -> bool
    ensures { result ≡ keys_known branches rows.now key.now }
{
    for row in rows {
        if is_key_of(row, branches, key) {
            return true;
        }
    }
    false
}

#[tactic(auto, using(crate::proofs::Numbered::known_parts))]
fn is_known(branches: u64, key: &str) -> bool
    ensures { result ≡ spec.is_known branches key.now }
{
    is_known_by(first_rows(), branches, key)
        || is_known_by(branch_rows(), branches, key)
        || is_known_by(last_rows(), branches, key)
}

// Adds the key, where it isn't known.
fn push_unknown(
    alloc: Global,
    unknown: &mut List<Text>,
    branches: u64,
    key: &str,
) -> Result<(), NoMemory>
    ensures { OnOk result (unknown.new ≡ unknown.old ++ unknown_of branches (key.now ∷ [])) }
{
    if !is_known(branches, key) {
        unknown.push(Text::from_str(alloc, key)?)?;
    }
    Ok(())
}

/// The keys that no row of the key table has, in their order. A numbered key is known where its number is below that of
/// the branches, one where `fork.branches` is absent or can't be read.
#[tactic(auto, unfolding(gob_jobs::specs::Reading::unknown_keys))]
pub fn unknown_keys(alloc: Global, props: &Props) -> Result<List<Text>, NoMemory>
    ensures { IfOk result (λ keys. keys ≡ spec.unknown_keys props.now) }
{
    let branches = branches_told(props);
    let mut unknown = List::new(alloc);
    for i in 0..props.len() {
        match props.key_at(i) {
            Some(key) => push_unknown(alloc, &mut unknown, branches, key)?,
            None => unreachable!(),
        }
    }
    Ok(unknown)
}
