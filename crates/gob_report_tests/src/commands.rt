//! What `report`, `recover` and `check` tell.

use crate::compare::same_bytes;
use crate::made::{job_of, state_of, texts_of};
use gob_report::{check_text, recovery_text, state_text};
use std::alloc::Global;
use std::process::Abort;
use std::test::Fail;

/// States, and their texts.
const STATES: [(&[u8], &[u8]); 3] = [
    (
        b"gobblin-state 2\nrun 1\npipelines 1\npipeline 1\nwriter.format.0=lines\ntotals 2 0 2 0\nbranch 0 2 0 0\n\
            partition a.log 6\ndone 0 2 0\nopen 2 4\ndone 4 6 0\nend\n",
        b"job j1\nmark a.log 2 6\nopen a.log 2 4\npipeline 0 ranges 2\ntotal records 2 bad 0 rows 2 unrouted 0\n\
            total branch 0 written 2 errors 0 optional 0\nruns 1\nstatus 0\n",
    ),
    // Two pipelines, each of which made one range.
    (
        b"gobblin-state 2\nrun 2\npipelines 2\npipeline 1\nwriter.format.0=lines\npipeline 1\nwriter.format.0=json\n\
            totals 3 0 3 0\nbranch 0 3 0 0\npartition a.log 6\ndone 0 4 0\ndone 4 6 1\nend\n",
        b"job j1\nmark a.log 6 6\npipeline 0 ranges 1\npipeline 1 ranges 1\ntotal records 3 bad 0 rows 3 unrouted 0\n\
            total branch 0 written 3 errors 0 optional 0\nruns 2\nstatus 0\n",
    ),
    // A pipeline that made none, and ranges of two partitions by the others.
    (
        b"gobblin-state 2\nrun 9\npipelines 3\npipeline 0\npipeline 1\nx=1\npipeline 1\nx=2\ntotals 9 1 8 2\n\
            branch 0 3 2 1\nbranch 1 0 0 0\npartition a%2Fb 9\nopen 0 2\nopen 2 4\ndone 4 9 2\npartition c 5\n\
            done 0 1 2\ndone 1 2 0\ndone 2 5 2\nend\n",
        b"job j1\nmark a%2Fb 0 9\nopen a%2Fb 0 2\nopen a%2Fb 2 4\nmark c 5 5\npipeline 0 ranges 1\n\
            pipeline 1 ranges 0\npipeline 2 ranges 3\ntotal records 9 bad 1 rows 8 unrouted 2\n\
            total branch 0 written 3 errors 2 optional 1\ntotal branch 1 written 0 errors 0 optional 0\nruns 9\n\
            status 0\n",
    ),
];

const NO_STATE: &[u8] = b"job j1\ntotal records 0 bad 0 rows 0 unrouted 0\nruns 0\nstatus 0\n";

fn check_state(rt: &impl Abort, alloc: Global, file: &[u8], wanted: &[u8]) -> Result<(), Fail> {
    let state = state_of(alloc, file)?;
    let text = state_text(alloc, "j1", Some(&state))?;
    same_bytes(rt, text.as_slice(), wanted);
    Ok(())
}

#[test]
fn states_are_told(rt: HostRuntime) -> Result<(), Fail> {
    for (file, wanted) in STATES {
        check_state(&rt, rt.alloc(), file, wanted)?;
    }
    Ok(())
}

#[test]
fn no_state_is_told_as_zeros(rt: HostRuntime) -> Result<(), Fail> {
    let text = state_text(rt.alloc(), "j1", None)?;
    same_bytes(&rt, text.as_slice(), NO_STATE);
    Ok(())
}

const RECOVERIES: [(bool, &[u8]); 2] = [
    (true, b"recovered j1 sequence open\nstatus 0\n"),
    (false, b"recovered j1 sequence none\nstatus 0\n"),
];

#[test]
fn recoveries_are_told(rt: HostRuntime) -> Result<(), Fail> {
    for (was_open, wanted) in RECOVERIES {
        let text = recovery_text(rt.alloc(), "j1", was_open)?;
        same_bytes(&rt, text.as_slice(), wanted);
    }
    Ok(())
}

/// Errors go to csv with two of the columns, all else to json.
const TWO_OUTPUTS: &[u8] =
    b"source.format=json\nsource.columns=ip:text, path:text, status:int\nfork.operator.class=first\nfork.branches=2\n\
        fork.test.0=ge status 400\nconverter.classes.0=keep status path\nwriter.format.0=csv\n\
        fork.test.1=not null status\nwriter.format.1=json\n";

/// Steps before the fork and behind it.
const STEPS: &[u8] =
    b"source.format=csv\nsource.columns=a:text, b:text\nconverter.classes=cast b bool; rename a c\n\
        fork.operator.class=all\nfork.branches=2\nconverter.classes.0=drop c\nwriter.format.0=json\n\
        writer.format.1=csv\n";

/// Job files, keys that aren't known, and what is told.
const CHECKS: [(&[u8], &[&str], &[u8]); 3] = [
    (
        TWO_OUTPUTS,
        &["data.publisher.final.dir", "a b", ""],
        b"job clicks ok\nbranch 0 csv status:int,path:text\nbranch 1 json ip:text,path:text,status:int\n\
            unknown data.publisher.final.dir\nunknown a%20b\nunknown \nstatus 0\n",
    ),
    (
        STEPS,
        &[],
        b"job clicks ok\nbranch 0 json b:bool\nbranch 1 csv c:text,b:bool\nstatus 0\n",
    ),
    (
        b"source.format=lines\nwriter.format=lines\n",
        &[],
        b"job clicks ok\nbranch 0 lines line:text\nstatus 0\n",
    ),
];

fn check_job(
    rt: &impl Abort,
    alloc: Global,
    file: &[u8],
    unknown: &[&str],
    wanted: &[u8],
) -> Result<(), Fail> {
    let job = job_of(alloc, "clicks", file)?;
    let keys = texts_of(alloc, unknown)?;
    let text = check_text(alloc, "clicks", &job.plan, &keys)?;
    same_bytes(rt, text.as_slice(), wanted);
    Ok(())
}

#[test]
fn jobs_are_checked(rt: HostRuntime) -> Result<(), Fail> {
    for (file, unknown, wanted) in CHECKS {
        check_job(&rt, rt.alloc(), file, unknown, wanted)?;
    }
    Ok(())
}
