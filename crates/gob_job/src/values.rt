//! The values that stand at keys: in a properties text, or in the settings of a pipeline text.
ghost use Rattle.std.specs.Prelude.{◌≡◌, IfOk, map};
ghost use Rattle.std.specs.Option.{option_copied, is_some, ok_or};
ghost use Rattle.gob_plan.specs.declared.plan.Plan.{Plan};
ghost use Rattle.gob_jobs.specs.Pipelines.{last_value};
ghost use Rattle.gob_jobs.specs.Reading as spec;
ghost use Rattle.gob_job.specs.Faults.{Gives};
ghost use Rattle.gob_job.specs.LookUps.{look_of, setting_from};
ghost use Rattle.gob_job.specs.Rows.{need_from, row_from};

use crate::cuts::trimmed;
use crate::faults::JobFault;
use crate::rows::{Need, Row, Standing};
use gob_plan::{Bytes, ForkHow, Format, NoMemory, Plan, Text};
use gob_props::Props;
use itoa::Buffer;
use std::alloc::Global;
use std::str;

/// A key of a pipeline text and its value, which may be no text.
#[derive(Drop)]
pub(crate) struct Setting {
    pub(crate) key: Text,
    pub(crate) value: Bytes,
}

/// A look-up of values by their keys.
#[derive(Clone, Copy)]
pub(crate) enum Values<'a> {
    Props(&'a Props),
    /// The last of equal keys counts.
    Settings(&'a [Setting]),
}

fn last_value<'a>(settings: &'a [Setting], key: &str) -> Option<&'a Bytes>
    ensures { option_copied result ≡ last_value (map setting_from settings.now) key.now }
{
    let mut found = None;
    for setting in settings {
        if key == setting.key.as_str() {
            found = Some(&setting.value);
        }
    }
    found
}

impl<'a> Values<'a> {
    pub(crate) fn get(self, key: &str) -> Option<&'a [u8]>
        ensures { option_copied result ≡ look_of self.entry key.now }
    {
        match self {
            Values::Props(props) => Some(props.get(key)?.as_bytes()),
            Values::Settings(settings) => Some(last_value(settings, key)?.as_slice()),
        }
    }
}

// ---- keys

/// The key behind which a branch's number stands.
pub(crate) fn with_number(alloc: Global, key: &str, branch: u32) -> Result<Text, NoMemory>
    ensures { IfOk result (λ numbered. numbered ≡ spec.with_number key.now branch) }
{
    let mut numbered = Text::from_str(alloc, key)?;
    numbered.push(".")?;
    numbered.push(Buffer::new().format(branch))?;
    Ok(numbered)
}

/// The row's own key in a branch.
pub(crate) fn own_key(alloc: Global, row: &Row, branch: u32) -> Result<Text, NoMemory>
    ensures { IfOk result (λ key. key ≡ spec.own_key (row_from row.now) branch) }
{
    match row.standing {
        Standing::Once => Text::from_str(alloc, row.key),
        Standing::ForEachBranch => with_number(alloc, row.key, branch),
        Standing::ForEachBranchOrAll => with_number(alloc, row.key, branch),
    }
}

/// The key that counts: that of all branches only where the branch has none of its own.
pub(crate) fn key_that_counts(
    alloc: Global,
    values: Values<'_>,
    row: &Row,
    branch: u32,
) -> Result<Text, NoMemory>
    ensures { IfOk result (λ key. key ≡ spec.key_that_counts (look_of values.entry) (row_from row.now) branch) }
{
    let own = own_key(alloc, row, branch)?;
    match row.standing {
        Standing::Once => Ok(own),
        Standing::ForEachBranch => Ok(own),
        Standing::ForEachBranchOrAll => match values.get(own.as_str()) {
            Some(_) => Ok(own),
            None => Text::from_str(alloc, row.key),
        },
    }
}

// The key that is said to be missing; one for all branches would do where there is one branch.
fn missing_key(alloc: Global, row: &Row, branch: u32, branches: u32) -> Result<Text, NoMemory>
    ensures { IfOk result (λ key. key ≡ spec.missing_key (row_from row.now) branch branches) }
{
    match row.standing {
        Standing::ForEachBranchOrAll if branches <= 1 => Text::from_str(alloc, row.key),
        _ => own_key(alloc, row, branch),
    }
}

// ---- values

// The value of an absent key, if it may be absent.
fn absent_value(need: Need, plan: &Plan) -> Option<&'static str>
    ensures { option_copied result ≡ spec.absent_value (need_from need) plan.now }
{
    match need {
        Need::Needed => None,
        Need::ElseIs(text) => Some(text),
        Need::NeededUnlessLines => match plan.format {
            Format::Lines => Some(""),
            Format::Csv => None,
            Format::Json => None,
        },
        Need::NeededUnlessAll => match plan.fork.how {
            ForkHow::All => Some(""),
            ForkHow::Each => None,
            ForkHow::First => None,
        },
    }
}

// Whether `${` stands in the text.
fn has_interpolation(text: &[u8]) -> bool
    ensures { result ≡ spec.has_interpolation text.now }
{
    let mut left = text;
    while let [first, rest @ ..] = left {
        match rest {
            [second, ..] if *first == b'$' && *second == b'{' => return true,
            _ => left = rest,
        }
    }
    false
}

// The value that stands at a key, where it is a text without `${`.
fn value_at<'a>(alloc: Global, key: &str, value: &'a [u8]) -> Result<&'a str, JobFault>
    ensures { Gives (λ text. text.now) result (spec.value_at key.now value.now) }
{
    if has_interpolation(value) {
        return Err(JobFault::Interpolation {
            key: Text::from_str(alloc, key)?,
        });
    }
    match str::from_utf8(value) {
        Ok(text) => Ok(text),
        Err(_) => Err(JobFault::BadValue {
            key: Text::from_str(alloc, key)?,
        }),
    }
}

/// The value of a row in a branch, without blanks at its ends: the one at the key that counts, or that of an absent
/// key.
#[tactic(auto, unfolding(gob_jobs::specs::Reading::value_of_row))]
pub(crate) fn value_of_row<'a>(
    alloc: Global,
    values: Values<'a>,
    row: &Row,
    branch: u32,
    plan: &Plan,
    key: &str,
) -> Result<&'a str, JobFault>
    requires counts { key.now ≡ spec.key_that_counts (look_of values) (row_from row.now) branch }
    ensures { Gives (λ text. text.now) result
        (spec.value_of_row (look_of values.entry) (row_from row.now) branch plan.now) }
{
    if let Some(value) = values.get(key) {
        return value_at(alloc, key, trimmed(value));
    }
    match absent_value(row.need, plan) {
        Some(text) => Ok(text),
        None => Err(JobFault::Missing {
            key: missing_key(alloc, row, branch, plan.fork.branches)?,
        }),
    }
}
