//! What counts say of a unit, and which units a policy lets be committed.

use gob_judge::{TaskVerdict, allowed, dataset_of, judge_task, warns};
use gob_plan::{BranchCounts, CommitPolicy, Counter, Counts, List, NoMemory, TaskPolicy, TaskRule};
use std::alloc::Global;
use std::process::Abort;
use std::test::Fail;

/// Counts of a unit, and of what went to no branch.
fn counted(alloc: Global, records: u64, bad: u64) -> Counts {
    Counts {
        records,
        bad,
        rows: 0,
        unrouted: 0,
        branches: List::new(alloc),
    }
}

/// Ten records, of which one is bad; one branch wrote eight rows and one error.
fn counts(alloc: Global) -> Result<Counts, NoMemory> {
    let mut branches = List::new(alloc);
    branches.push(BranchCounts {
        written: 8,
        errors: 1,
        optional: 0,
    })?;
    Ok(Counts {
        records: 10,
        bad: 1,
        rows: 9,
        unrouted: 0,
        branches,
    })
}

fn share(counter: Counter, of: Counter, permille: u64, fails: bool) -> TaskPolicy {
    TaskPolicy {
        rule: TaskRule::Share {
            counter,
            of,
            permille,
        },
        fails,
    }
}

fn range(counter: Counter, low: u64, high: u64, fails: bool) -> TaskPolicy {
    TaskPolicy {
        rule: TaskRule::Range { counter, low, high },
        fails,
    }
}

fn same_text(rt: &impl Abort, found: &str, wanted: &str) {
    assert_eq!(rt; found, wanted);
}

#[test]
fn the_first_policy_that_does_not_hold_fails_the_unit(rt: HostRuntime) -> Result<(), Fail> {
    let counts = counts(rt.alloc())?;
    let one_in_ten = share(Counter::Bad, Counter::Records, 100, true);
    let none_bad = range(Counter::Bad, 0, 0, false);
    let nine_written = range(Counter::Written(0), 9, 9, true);
    let of_no_branch = range(Counter::Errors(1), 1, 1, true);
    assert!(rt; judge_task(&[one_in_ten, none_bad], &counts) == TaskVerdict::Good);
    assert!(rt; judge_task(&[none_bad, nine_written], &counts) == TaskVerdict::Bad(1));
    assert!(rt; judge_task(&[of_no_branch], &counts) == TaskVerdict::Bad(0));
    assert!(rt;
        warns(&none_bad, &counts) && !warns(&one_in_ten, &counts) && !warns(&nine_written, &counts)
    );
    Ok(())
}

/// Records, bad ones, and which of the policies below fails the unit.
const JUDGED: [(u64, u64, TaskVerdict); 9] = [
    (0, 0, TaskVerdict::Bad(0)),
    (1, 0, TaskVerdict::Bad(0)),
    (2, 0, TaskVerdict::Good),
    (9, 4, TaskVerdict::Good),
    (9, 5, TaskVerdict::Bad(2)),
    (10, 0, TaskVerdict::Bad(0)),
    (10, 10, TaskVerdict::Bad(0)),
    (4, 2, TaskVerdict::Good),
    (2, u64::MAX, TaskVerdict::Bad(2)),
];

/// Both ends of a range are in it, and a share is as large as it may be.
#[test]
fn a_policy_holds_up_to_its_ends(rt: HostRuntime) -> Result<(), Fail> {
    let policies = [
        range(Counter::Records, 2, 9, true),
        share(Counter::Bad, Counter::Records, 0, false),
        share(Counter::Bad, Counter::Records, 500, true),
    ];
    for (records, bad, wanted) in JUDGED {
        let counts = counted(rt.alloc(), records, bad);
        assert!(&rt; judge_task(&policies, &counts) == wanted);
    }
    Ok(())
}

/// The products of a share are exact: half of the most is not more than half of it.
#[test]
fn a_share_of_many_is_exact(rt: HostRuntime) -> Result<(), Fail> {
    let half = share(Counter::Bad, Counter::Records, 500, false);
    let most = counted(rt.alloc(), u64::MAX, u64::MAX / 2);
    assert!(&rt; !warns(&half, &most));
    let more = counted(rt.alloc(), u64::MAX, u64::MAX / 2 + 1);
    assert!(&rt; warns(&half, &more));
    Ok(())
}

/// Whether each of three units is committed, by the policy.
fn committed(policy: CommitPolicy, good: &[bool; 3]) -> [bool; 3] {
    [
        allowed(policy, good, 0),
        allowed(policy, good, 1),
        allowed(policy, good, 2),
    ]
}

/// Which of three units are good.
const OF_THREE: [[bool; 3]; 4] = [
    [true, false, true],
    [false, true, true],
    [true, true, false],
    [false, false, false],
];

#[test]
fn one_failed_unit_holds_the_others_back_where_all_must_be_good(
    rt: HostRuntime,
) -> Result<(), Fail> {
    for good in &OF_THREE {
        assert!(&rt; committed(CommitPolicy::Successful, good) == *good);
        assert!(&rt; committed(CommitPolicy::Full, good) == [false, false, false]);
    }
    assert!(&rt; committed(CommitPolicy::Full, &[true, true, true]) == [true, true, true]);
    Ok(())
}

#[test]
fn full_commits_all_or_none(rt: HostRuntime) -> Result<(), Fail> {
    assert!(rt; allowed(CommitPolicy::Full, &[true, true], 1));
    assert!(rt; !allowed(CommitPolicy::Full, &[true, false], 0));
    assert!(rt; allowed(CommitPolicy::Successful, &[true, false], 0));
    assert!(rt; !allowed(CommitPolicy::Successful, &[true, false], 1));
    Ok(())
}

#[test]
fn a_dataset_is_the_name_up_to_the_first_slash(rt: HostRuntime) -> Result<(), Fail> {
    same_text(&rt, dataset_of("web/2026/a.log"), "web");
    same_text(&rt, dataset_of("a.log"), "");
    same_text(&rt, dataset_of("/a"), "");
    Ok(())
}
