//! What runs tell.
ghost use Rattle.std.specs.Prelude.{◌≡◌, ◌∷◌, length, IfOk};

use crate::compare::{same_bytes, same_number};
use crate::made::{job_of, state_of, texts_of};
use gob_plan::{BranchCounts, Cause, Counts, List, NoMemory, Text, Unit, UnitResult};
use gob_report::{report_text, run_status};
use gob_state::Outcome;
use std::alloc::Global;
use std::process::Abort;
use std::test::Fail;

const PLAIN: &[u8] = b"source.format=lines\nwriter.format=lines\n";

/// What became of a unit: how many lines it wrote to each of how many branches, and the policies that warned; or why it
/// failed.
#[derive(Clone, Copy)]
enum Fate {
    Good(u64, u64, &'static [u32]),
    Bad(Cause),
}

use Fate::{Bad, Good};

/// A partition, a range of it, whether that was committed, and what became of it.
type Done = (&'static str, u64, u64, bool, Fate);

/// A run of a job, and the text and the status that it ends in.
#[derive(Clone, Copy)]
struct Told {
    job: &'static str,
    file: &'static [u8],
    too_long: &'static [&'static str],
    units: &'static [Done],
    state: &'static [u8],
    text: &'static [u8],
    status: u8,
}

const KILLED: Cause = Cause::Kill {
    branch: 0,
    policy: 0,
    at: 2,
};

const NOTHING_YET: &[u8] =
    b"gobblin-state 2\nrun 0\npipelines 0\ntotals 0 0 0 0\nbranch 0 0 0 0\nend\n";

const TWO_LINES: &[u8] =
    b"gobblin-state 2\nrun 1\npipelines 1\npipeline 1\nwriter.format.0=lines\ntotals 2 0 2 0\nbranch 0 2 0 0\n\
        partition a.log 4\ndone 0 4 0\nend\n";

const AFTER_A_KILL: &[u8] =
    b"gobblin-state 2\nrun 1\npipelines 1\npipeline 1\nwriter.format.0=lines\ntotals 2 0 2 0\nbranch 0 2 0 0\n\
        partition a.log 6\ndone 0 2 0\nopen 2 4\ndone 4 6 0\nend\n";

const TWO_BRANCHES: &[u8] =
    b"gobblin-state 2\nrun 7\npipelines 1\npipeline 0\ntotals 3 0 3 0\nbranch 0 3 0 0\nbranch 1 3 0 0\n\
        partition a%2Fx 6\nopen 0 6\npartition b 3\ndone 0 3 0\nend\n";

const LONG_NAME: &str =
    "aaaaaaaaaaaaaaaaaaaaaaaaaaaaaaaaaaaaaaaaaaaaaaaaaaaaaaaaaaaaaaaaaaaaaaaaaaaaaaaaaaaaaaaaaaaaaaaaaaaaaaaaaaaaaaaa\
        aaaaaaaaaaaaaaaaaaaaaaaaaaaaaaaaaaaaaaaaaaaaaaaaaaaaaaaaaaaaaaaaa";

const RUNS: [Told; 6] = [
    // Two lines that are committed.
    Told {
        job: "j1",
        file: PLAIN,
        too_long: &[],
        units: &[("a.log", 0, 4, true, Good(2, 1, &[]))],
        state: TWO_LINES,
        text: b"job j1 policy full\nunit a.log 0 4 committed records 2 bad 0 rows 2 unrouted 0\n\
            branch 0 written 2 errors 0 optional 0\nmark a.log 4 4\ntotal records 2 bad 0 rows 2 unrouted 0\n\
            total branch 0 written 2 errors 0 optional 0\nruns 1\nstatus 0\n",
        status: 0,
    },
    // Nothing was to do.
    Told {
        job: "j1",
        file: PLAIN,
        too_long: &[],
        units: &[],
        state: TWO_LINES,
        text: b"job j1 policy full\nmark a.log 4 4\ntotal records 2 bad 0 rows 2 unrouted 0\n\
            total branch 0 written 2 errors 0 optional 0\nruns 1\nstatus 0\n",
        status: 0,
    },
    // One of three is killed, and the good ones are committed.
    Told {
        job: "j12",
        file: b"source.format=lines\nwriter.format=lines\njob.commit.policy=successful\n",
        too_long: &[],
        units: &[
            ("a.log", 0, 2, true, Good(1, 1, &[])),
            ("a.log", 2, 4, false, Bad(KILLED)),
            ("a.log", 4, 6, true, Good(1, 1, &[])),
        ],
        state: AFTER_A_KILL,
        text: b"job j12 policy successful\nunit a.log 0 2 committed records 1 bad 0 rows 1 unrouted 0\n\
            branch 0 written 1 errors 0 optional 0\nunit a.log 2 4 failed kill 0 0 2\n\
            unit a.log 4 6 committed records 1 bad 0 rows 1 unrouted 0\nbranch 0 written 1 errors 0 optional 0\n\
            mark a.log 2 6\ntotal records 2 bad 0 rows 2 unrouted 0\ntotal branch 0 written 2 errors 0 optional 0\n\
            runs 1\nstatus 1\n",
        status: 1,
    },
    // One of three is killed, and none is committed.
    Told {
        job: "j12",
        file: PLAIN,
        too_long: &[],
        units: &[
            ("a.log", 0, 2, false, Good(1, 1, &[])),
            ("a.log", 2, 4, false, Bad(KILLED)),
            ("a.log", 4, 6, false, Good(1, 1, &[])),
        ],
        state: NOTHING_YET,
        text: b"job j12 policy full\nunit a.log 0 2 held records 1 bad 0 rows 1 unrouted 0\n\
            branch 0 written 1 errors 0 optional 0\nunit a.log 2 4 failed kill 0 0 2\n\
            unit a.log 4 6 held records 1 bad 0 rows 1 unrouted 0\nbranch 0 written 1 errors 0 optional 0\n\
            total records 0 bad 0 rows 0 unrouted 0\ntotal branch 0 written 0 errors 0 optional 0\nruns 0\nstatus 1\n",
        status: 1,
    },
    // Names that are too long, of which one is escaped.
    Told {
        job: "j1",
        file: PLAIN,
        too_long: &["a b", LONG_NAME],
        units: &[],
        state: NOTHING_YET,
        text: b"job j1 policy full\ntoo-long a%20b\n\
            too-long aaaaaaaaaaaaaaaaaaaaaaaaaaaaaaaaaaaaaaaaaaaaaaaaaaaaaaaaaaaaaaaaaaaaaaaaaaaaaaaaaaaaaaaaaaaaaaaaa\
            aaaaaaaaaaaaaaaaaaaaaaaaaaaaaaaaaaaaaaaaaaaaaaaaaaaaaaaaaaaaaaaaaaaaaaaaaaaaaaaa\n\
            total records 0 bad 0 rows 0 unrouted 0\ntotal branch 0 written 0 errors 0 optional 0\nruns 0\nstatus 0\n",
        status: 0,
    },
    // Every cause, warnings, two branches and two partitions.
    Told {
        job: "j1",
        file: b"source.format=lines\nwriter.format=lines\njob.commit.policy=successful\n",
        too_long: &[],
        units: &[
            (
                "a/x",
                0,
                1,
                false,
                Bad(Cause::BadRecords {
                    at: 18_446_744_073_709_551_615,
                }),
            ),
            ("a/x", 1, 2, false, Bad(Cause::Policy { index: 3 })),
            ("a/x", 2, 3, false, Bad(Cause::Gone)),
            ("a/x", 3, 4, false, Bad(Cause::Torn)),
            ("a/x", 4, 6, false, Bad(Cause::Fault)),
            ("b", 0, 3, true, Good(3, 2, &[0, 12])),
        ],
        state: TWO_BRANCHES,
        text: b"job j1 policy successful\nunit a%2Fx 0 1 failed bad-records 18446744073709551615\n\
            unit a%2Fx 1 2 failed policy 3\nunit a%2Fx 2 3 failed gone\nunit a%2Fx 3 4 failed torn\n\
            unit a%2Fx 4 6 failed fault\nunit b 0 3 committed records 3 bad 0 rows 3 unrouted 0\n\
            branch 0 written 3 errors 0 optional 0\nbranch 1 written 3 errors 0 optional 0\nwarning 0\nwarning 12\n\
            mark a%2Fx 0 6\nmark b 3 3\ntotal records 3 bad 0 rows 3 unrouted 0\n\
            total branch 0 written 3 errors 0 optional 0\ntotal branch 1 written 3 errors 0 optional 0\nruns 7\n\
            status 1\n",
        status: 1,
    },
];

fn branches_of(alloc: Global, lines: u64, branches: u64) -> Result<List<BranchCounts>, NoMemory> {
    let mut counts = List::new(alloc);
    for _ in 0..branches {
        counts.push(BranchCounts {
            written: lines,
            errors: 0,
            optional: 0,
        })?;
    }
    Ok(counts)
}

fn numbers_of(alloc: Global, numbers: &[u32]) -> Result<List<u32>, NoMemory> {
    let mut list = List::new(alloc);
    for i in 0..numbers.len() {
        list.push(numbers[i])?;
    }
    Ok(list)
}

fn good_result(
    alloc: Global,
    lines: u64,
    branches: u64,
    warnings: &[u32],
) -> Result<UnitResult, NoMemory> {
    let branches = branches_of(alloc, lines, branches)?;
    let warnings = numbers_of(alloc, warnings)?;
    Ok(UnitResult::Good {
        counts: Counts {
            records: lines,
            bad: 0,
            rows: lines,
            unrouted: 0,
            branches,
        },
        warnings,
        staged: List::new(alloc),
    })
}

fn result_of(alloc: Global, fate: Fate) -> Result<UnitResult, NoMemory> {
    match fate {
        Good(lines, branches, warnings) => good_result(alloc, lines, branches, warnings),
        Bad(cause) => Ok(UnitResult::Failed { cause }),
    }
}

fn unit_of(alloc: Global, name: &str, lo: u64, hi: u64) -> Result<Unit, NoMemory> {
    let part = Text::from_str(alloc, name)?;
    Ok(Unit {
        part,
        lo,
        hi,
        fresh: true,
        listed: true,
    })
}

fn units_of(alloc: Global, all: &[Done]) -> Result<List<Unit>, NoMemory>
    ensures { IfOk result (λ us. length us ≡ length all.now) }
{
    let mut units = List::new(alloc);
    for i in 0..all.len() {
        let (part, lo, hi, _, _) = all[i];
        let unit = unit_of(alloc, part, lo, hi)?;
        units.push(unit)?;
    }
    Ok(units)
}

fn results_of(alloc: Global, all: &[Done]) -> Result<List<UnitResult>, NoMemory>
    ensures { IfOk result (λ rs. length rs ≡ length all.now) }
{
    let mut results = List::new(alloc);
    for i in 0..all.len() {
        let (_, _, _, _, fate) = all[i];
        let made = result_of(alloc, fate)?;
        results.push(made)?;
    }
    Ok(results)
}

fn commits_of(alloc: Global, all: &[Done]) -> Result<List<bool>, NoMemory>
    ensures { IfOk result (λ cs. length cs ≡ length all.now) }
{
    let mut commits = List::new(alloc);
    for i in 0..all.len() {
        let (_, _, _, committed, _) = all[i];
        commits.push(committed)?;
    }
    Ok(commits)
}

fn outcome_of(alloc: Global, told: &Told) -> Result<Outcome, Fail>
    ensures results { IfOk result (λ o. length o.results ≡ length o.units) }
    ensures committed { IfOk result (λ o. length o.committed ≡ length o.units) }
{
    let units = units_of(alloc, told.units)?;
    let results = results_of(alloc, told.units)?;
    let committed = commits_of(alloc, told.units)?;
    let too_long = texts_of(alloc, told.too_long)?;
    let after = state_of(alloc, told.state)?;
    Ok(Outcome {
        units,
        results,
        too_long,
        after,
        committed,
    })
}

fn check_run(rt: &impl Abort, alloc: Global, told: &Told) -> Result<(), Fail> {
    let job = job_of(alloc, told.job, told.file)?;
    let outcome = outcome_of(alloc, told)?;
    let text = report_text(alloc, &job, &outcome)?;
    same_bytes(rt, text.as_slice(), told.text);
    same_number(rt, run_status(outcome.results.as_slice()), told.status);
    Ok(())
}

#[test]
fn runs_are_told(rt: HostRuntime) -> Result<(), Fail> {
    for told in RUNS {
        check_run(&rt, rt.alloc(), &told)?;
    }
    Ok(())
}
