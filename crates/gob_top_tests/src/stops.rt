//! Runs that stop at each changing call of the volume, and the calls behind them.

use crate::calls::{
    Case, NO_FAILS, Part, Pull, call_again, check, check_again, check_pulls, source_of,
};
use crate::clicks::{CLICKS_BY_DATASET, TWO_DATASETS};
use crate::compare::{same_number, same_truth};
use crate::files::{File, are_all, check_files, files_under, told_files, volume_of};
use crate::plain::{BEFORE_POLICIES, BEHIND_POLICIES, FIRST_RUN, LINES, NO_POLICIES};
use gob_io::MemSource;
use gob_volume::MemVolume;
use std::alloc::Global;
use std::process::Abort;
use std::test::Fail;

// Two commits

const JOB: File = ("jobs/ds.pull", &[LINES, "job.commit.scope=dataset\n"]);

const X: File = (
    "ds/out/0/x%2Fa@00000000000000000000-00000000000000000002.txt",
    &["1\n"],
);

const Y: File = (
    "ds/out/0/y%2Fb@00000000000000000000-00000000000000000002.txt",
    &["2\n"],
);

const STATE: File = (
    "ds/state",
    &[
        FIRST_RUN,
        BEFORE_POLICIES,
        NO_POLICIES,
        BEHIND_POLICIES,
        "totals 1 0 1 0
branch 0 1 0 0
partition x%2Fa 2
done 0 2 0
end
",
    ],
);

const CHANGE: File = (
    "ds/delta/00000000000000000002",
    &[
        "gobblin-delta 2
run 2
pipelines 0
totals 2 0 2 0
branch 0 2 0 0
partition y%2Fb 2
done 0 2 0
end
",
    ],
);

const RUN_DATASETS: &[&str] = &["run", "ds"];

const TWO_LINES: &[Part] = &[("x/a", "1\n"), ("y/b", "2\n")];

const NO_DATASET: &[File] = &[JOB];

const BOTH_DATASETS: &[File] = &[CHANGE, X, Y, STATE, JOB];

/// Two datasets of one line each.
const DATASETS: Case = Case {
    words: RUN_DATASETS,
    parts: TWO_LINES,
    files: NO_DATASET,
    fails: NO_FAILS,
    status: 0,
    text: &[
        "job ds policy full
unit x%2Fa 0 2 committed records 1 bad 0 rows 1 unrouted 0
branch 0 written 1 errors 0 optional 0
unit y%2Fb 0 2 committed records 1 bad 0 rows 1 unrouted 0
branch 0 written 1 errors 0 optional 0
mark x%2Fa 2 2
mark y%2Fb 2 2
total records 2 bad 0 rows 2 unrouted 0
total branch 0 written 2 errors 0 optional 0
runs 2
status 0
",
    ],
    pulls: &[("x/a", 0, 2), ("y/b", 0, 2)],
    left: BOTH_DATASETS,
};

const ONE_DATASET: &[File] = &[X, STATE, JOB];

/// What may stand behind the kept bytes of a file that wasn't synced.
const TAILS: [&[u8]; 3] = [b"", b"1\n2\n", b"gobblin-sequence 1\nend 0\n"];

/// The two staged files take a create, an append and a sync each. A commit takes as many for its state and for its
/// sequence, three renames and a removal.
const CHANGES: u64 = 26;

/// A run that stops behind so many changing calls and crashes, with its status.
fn stopped(alloc: Global, case: &Case, calls: u64, tail: &[u8]) -> Result<(u64, MemVolume), Fail> {
    let mut source = source_of(alloc, case.parts, &NO_FAILS)?;
    let mut volume = volume_of(alloc, case.files, &[])?;
    volume.fuse(calls);
    let (status, _) = call_again(alloc, case.words, &mut source, &mut volume)?;
    volume.crash(tail)?;
    Ok((status, volume))
}

/// How many commits were made, where each stands whole or not at all.
fn commits_in(alloc: Global, volume: &mut MemVolume) -> Result<u64, Fail> {
    if are_all(alloc, volume, NO_DATASET)? {
        return Ok(0);
    }
    if are_all(alloc, volume, ONE_DATASET)? {
        return Ok(1);
    }
    if are_all(alloc, volume, BOTH_DATASETS)? {
        return Ok(2);
    }
    Err(Fail::from("a part of a commit stands"))
}

fn stopped_datasets(alloc: Global, calls: u64, tail: &[u8]) -> Result<(u64, MemVolume), Fail> {
    stopped(alloc, &DATASETS, calls, tail)
}

fn recover_datasets(alloc: Global, volume: &mut MemVolume) -> Result<(), Fail> {
    let mut source = source_of(alloc, &[], &NO_FAILS)?;
    let (status, _) = call_again(alloc, &["recover", "ds"], &mut source, volume)?;
    if status != 0 {
        return Err(Fail::from("it isn't recovered"));
    }
    Ok(())
}

fn commits_behind_recovery(alloc: Global, volume: &mut MemVolume) -> Result<u64, Fail> {
    recover_datasets(alloc, volume)?;
    commits_in(alloc, volume)
}

/// How many commits stand once what the stopped run left was recovered.
fn recovered_commits(alloc: Global, calls: u64, tail: &[u8]) -> Result<u64, Fail> {
    let (_, mut volume) = stopped_datasets(alloc, calls, tail)?;
    commits_behind_recovery(alloc, &mut volume)
}

/// The later a run stops the more of its commits stand: first none and last all.
fn check_commits(rt: &impl Abort, alloc: Global, tail: &[u8]) -> Result<(), Fail> {
    let mut before = 0u64;
    let mut steps = 0u64;
    for calls in 0..CHANGES + 1 {
        let commits = recovered_commits(alloc, calls, tail)?;
        same_truth(
            rt,
            before <= commits && commits <= before.saturating_add(1),
            true,
        );
        if commits > before {
            steps = steps.saturating_add(1);
        }
        before = commits;
    }
    same_number(rt, steps, 2);
    Ok(())
}

#[test]
fn the_commits_of_a_stopped_run_stand_whole_and_in_order(rt: HostRuntime) -> Result<(), Fail> {
    for tail in TAILS {
        check_commits(&rt, rt.alloc(), tail)?;
    }
    Ok(())
}

/// What a reader finds before any recovery is published whole.
fn check_untorn(alloc: Global, volume: &mut MemVolume) -> Result<(), Fail> {
    let found = files_under(alloc, volume, "ds/out/")?;
    if found.is_empty() || is_told(alloc, &found, &[X])? || is_told(alloc, &found, &[X, Y])? {
        return Ok(());
    }
    Err(Fail::from("a file is torn"))
}

fn is_told(alloc: Global, found: &[u8], files: &[File]) -> Result<bool, Fail> {
    let wanted = told_files(alloc, files)?;
    Ok(found == wanted.as_slice())
}

fn check_later(
    rt: &impl Abort,
    alloc: Global,
    source: &mut MemSource,
    volume: &mut MemVolume,
) -> Result<(), Fail> {
    let (later, out) = call_again(alloc, RUN_DATASETS, source, volume)?;
    same_number(rt, later, 0);
    same_truth(rt, out.bytes().ends_with(b"\nruns 2\nstatus 0\n"), true);
    Ok(())
}

fn check_behind(rt: &impl Abort, alloc: Global, volume: &mut MemVolume) -> Result<(), Fail> {
    check_untorn(alloc, volume)?;
    let mut source = source_of(alloc, TWO_LINES, &NO_FAILS)?;
    check_later(rt, alloc, &mut source, volume)?;
    check_files(rt, alloc, volume, BOTH_DATASETS)
}

/// The run behind a stopped one makes what is left to do, and nothing twice.
fn check_stop(rt: &impl Abort, alloc: Global, calls: u64, tail: &[u8]) -> Result<(), Fail> {
    let (status, mut volume) = stopped_datasets(alloc, calls, tail)?;
    same_number(rt, status, if calls <= CHANGES { 6 } else { 0 });
    check_behind(rt, alloc, &mut volume)
}

fn check_stops(rt: &impl Abort, alloc: Global, tail: &[u8]) -> Result<(), Fail> {
    // Behind the last changing call the staging is asked for what is left of it.
    for calls in 0..CHANGES + 2 {
        check_stop(rt, alloc, calls, tail)?;
    }
    Ok(())
}

#[test]
fn a_run_behind_a_stopped_one_publishes_each_file_once(rt: HostRuntime) -> Result<(), Fail> {
    check(&rt, rt.alloc(), &DATASETS)?;
    for tail in TAILS {
        check_stops(&rt, rt.alloc(), tail)?;
    }
    Ok(())
}

// Stops of three units

const PLAIN_JOB: File = ("jobs/j1.pull", &[LINES]);

const THREE: &[Part] = &[("a", "x\n"), ("b", "x\n"), ("c", "x\n")];

const THREE_PULLS: &[Pull] = &[("a", 0, 2), ("b", 0, 2), ("c", 0, 2)];

/// What is left of a run of three units.
const THREE_LEFT: &[File] = &[
    (
        "j1/out/0/a@00000000000000000000-00000000000000000002.txt",
        &["x\n"],
    ),
    (
        "j1/out/0/b@00000000000000000000-00000000000000000002.txt",
        &["x\n"],
    ),
    (
        "j1/out/0/c@00000000000000000000-00000000000000000002.txt",
        &["x\n"],
    ),
    (
        "j1/state",
        &[
            FIRST_RUN,
            BEFORE_POLICIES,
            NO_POLICIES,
            BEHIND_POLICIES,
            "totals 3 0 3 0
branch 0 3 0 0
partition a 2
done 0 2 0
partition b 2
done 0 2 0
partition c 2
done 0 2 0
end
",
        ],
    ),
    PLAIN_JOB,
];

const UNITS_TOLD: &str = "unit a 0 2 committed records 1 bad 0 rows 1 unrouted 0
branch 0 written 1 errors 0 optional 0
unit b 0 2 committed records 1 bad 0 rows 1 unrouted 0
branch 0 written 1 errors 0 optional 0
unit c 0 2 committed records 1 bad 0 rows 1 unrouted 0
branch 0 written 1 errors 0 optional 0
";

const MARKS_TOLD: &str = "mark a 2 2
mark b 2 2
mark c 2 2
total records 3 bad 0 rows 3 unrouted 0
total branch 0 written 3 errors 0 optional 0
runs 1
status 0
";

const RUN: &[&str] = &["run", "j1"];

const RECOVER: &[&str] = &["recover", "j1"];

const STOPPED: &str = "refused volume-fault\nstatus 6\n";

/// A run over the three units that stops behind so many changing calls and crashes.
fn stopped_three(
    rt: &impl Abort,
    alloc: Global,
    source: &mut MemSource,
    calls: u64,
) -> Result<MemVolume, Fail> {
    let mut volume = volume_of(alloc, &[PLAIN_JOB], &[])?;
    volume.fuse(calls);
    check_again(rt, alloc, RUN, source, &mut volume, 6, &[STOPPED])?;
    volume.crash(b"any bytes")?;
    Ok(volume)
}

/// Three staged files, the state and the sequence take a create, an append and a sync each. Then the sequence gets its
/// name, and the first file is moved.
const CALLS_TO_THE_FIRST_MOVE: u64 = 17;

/// The next run finds no unit, and each file is there once.
fn check_moved(
    rt: &impl Abort,
    alloc: Global,
    source: &mut MemSource,
    volume: &mut MemVolume,
) -> Result<(), Fail> {
    let text = ["job j1 policy full\n", MARKS_TOLD];
    check_again(rt, alloc, RUN, source, volume, 0, &text)?;
    check_files(rt, alloc, volume, THREE_LEFT)?;
    check_pulls(rt, source.pull_list(), THREE_PULLS);
    Ok(())
}

/// A run stops behind its first move. What it left is recovered, once in two goes and once in one.
#[test]
fn a_commit_that_stops_is_done_by_the_next_call(rt: HostRuntime) -> Result<(), Fail> {
    let alloc = rt.alloc();
    let mut source = source_of(alloc, THREE, &NO_FAILS)?;
    let mut volume = stopped_three(&rt, alloc, &mut source, CALLS_TO_THE_FIRST_MOVE)?;
    volume.fuse(1);
    check_again(&rt, alloc, RECOVER, &mut source, &mut volume, 6, &[STOPPED])?;
    volume.crash(b"")?;
    check_moved(&rt, alloc, &mut source, &mut volume)?;
    check_recovered(&rt, alloc)
}

fn check_recovered(rt: &impl Abort, alloc: Global) -> Result<(), Fail> {
    let mut source = source_of(alloc, THREE, &NO_FAILS)?;
    let mut volume = stopped_three(rt, alloc, &mut source, CALLS_TO_THE_FIRST_MOVE)?;
    let text = ["recovered j1 sequence open\nstatus 0\n"];
    check_again(rt, alloc, RECOVER, &mut source, &mut volume, 0, &text)?;
    check_files(rt, alloc, &mut volume, THREE_LEFT)?;
    check_moved(rt, alloc, &mut source, &mut volume)
}

/// Three staged files and the state are kept, and the staged sequence was made.
const CALLS_TO_THE_SEQUENCE: u64 = 13;

/// Where the sequence has no name of its own yet nothing is published, and the next run pulls all again.
#[test]
fn a_torn_sequence_is_not_done(rt: HostRuntime) -> Result<(), Fail> {
    let alloc = rt.alloc();
    let mut source = source_of(alloc, THREE, &NO_FAILS)?;
    let mut volume = stopped_three(&rt, alloc, &mut source, CALLS_TO_THE_SEQUENCE)?;
    let text = ["recovered j1 sequence none\nstatus 0\n"];
    check_again(&rt, alloc, RECOVER, &mut source, &mut volume, 0, &text)?;
    check_files(&rt, alloc, &mut volume, &[PLAIN_JOB])?;
    check_anew(&rt, alloc, &mut volume)
}

fn check_anew(rt: &impl Abort, alloc: Global, volume: &mut MemVolume) -> Result<(), Fail> {
    let mut source = source_of(alloc, THREE, &NO_FAILS)?;
    let text = ["job j1 policy full\n", UNITS_TOLD, MARKS_TOLD];
    check_again(rt, alloc, RUN, &mut source, volume, 0, &text)?;
    check_files(rt, alloc, volume, THREE_LEFT)?;
    check_pulls(rt, source.pull_list(), THREE_PULLS);
    Ok(())
}

// A stop between the commits of a web tier

/// Six staged files, 18 calls. The first commit takes three calls for its state, three for its sequence, four renames
/// and a removal, and the second one seven to where its sequence is open.
const CALLS_TO_THE_SECOND_SEQUENCE: u64 = 36;

const LAST_PULL: &[Pull] = &[("web3/clicks.log", 0, 2360)];

/// Volume calls fail from the first move of the second commit on: two partitions are published, and the next run pulls
/// the third one alone.
#[test]
fn a_run_that_stops_in_its_second_commit_goes_on_behind_it(rt: HostRuntime) -> Result<(), Fail> {
    let alloc = rt.alloc();
    let case = &CLICKS_BY_DATASET;
    check(&rt, alloc, case)?;
    let (status, mut volume) = stopped(alloc, case, CALLS_TO_THE_SECOND_SEQUENCE, b"#")?;
    same_number(&rt, status, 6);
    check_second(&rt, alloc, &mut volume)?;
    check_third(&rt, alloc, case, &mut volume)
}

fn check_second(rt: &impl Abort, alloc: Global, volume: &mut MemVolume) -> Result<(), Fail> {
    let mut source = source_of(alloc, &[], &NO_FAILS)?;
    let words = ["recover", "clicks"];
    let text = ["recovered clicks sequence open\nstatus 0\n"];
    check_again(rt, alloc, &words, &mut source, volume, 0, &text)?;
    check_files(rt, alloc, volume, TWO_DATASETS)
}

fn check_third(
    rt: &impl Abort,
    alloc: Global,
    case: &Case,
    volume: &mut MemVolume,
) -> Result<(), Fail> {
    let mut source = source_of(alloc, case.parts, &NO_FAILS)?;
    let (status, _) = call_again(alloc, case.words, &mut source, volume)?;
    same_number(rt, status, 0);
    check_pulls(rt, source.pull_list(), LAST_PULL);
    check_files(rt, alloc, volume, case.left)
}
