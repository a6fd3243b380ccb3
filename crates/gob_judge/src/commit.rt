//! Which units a run commits, and which of them together.
ghost use Rattle.std.specs.Prelude.{◌≡◌, ◌<◌, false, length, get_or};
ghost use Rattle.gob_ledger.specs.Groups as groups;
ghost use Rattle.gob_judge.specs.Verdicts.{AllowedIsTheLedgers, is_allowed};

use gob_plan::CommitPolicy;

/// Whether the policy lets the unit with this place be committed, where `good` says of each unit of its group whether
/// it is good.
pub fn allowed(policy: CommitPolicy, good: &[bool], unit: usize) -> bool
    requires { unit < length good.now }
    ensures { result ≡ is_allowed policy good.now (get_or good.now unit false) }
{
    match policy {
        CommitPolicy::Full => !good.contains(&false),
        CommitPolicy::Successful => good[unit],
    }
}

/// The dataset of a partition: its name up to the first slash, or nothing where it has none.
pub fn dataset_of(part: &str) -> &str
    ensures { result.now ≡ groups.dataset_of part.now }
{
    match part.split_once('/') {
        Some((dataset, _)) => dataset,
        None => "",
    }
}

/// Flags say of a group what its verdicts say.
pub fn flags_decide_as_verdicts()
    ensures { AllowedIsTheLedgers }
{}
