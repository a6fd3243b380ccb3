//! Forks, steps, policies and folders.

use crate::cuts::{Case, each_is_so};
use std::alloc::Global;
use std::process::Abort;
use std::test::Fail;

/// A job, and what a case says of a unit.
pub(crate) type Job = (&'static str, &'static str, &'static str, &'static str);

const ROWS: [Job; 7] = [
    // Each branch begins with the row that came to the fork.
    (
        "source.format=lines\nfork.branches=2\nconverter.classes.0=upper line\n\
         writer.format.0=lines\nwriter.format.1=json\n",
        "aB\r\n\nx",
        "out0:AB\n\nout1:{\"line\":\"aB\"}\n{\"line\":\"\"}\n",
        "2 0 2 0, 2 0 0, 2 0 0 torn",
    ),
    (
        "source.format=csv\nsource.columns=n:int\nfork.operator.class=first\nfork.branches=2\n\
         fork.test.0=ge n 5\nfork.test.1=not null n\nwriter.format=csv\n",
        "7\n3\n\"\"\n5\n",
        "out0:7\n5\nout1:3\n",
        "4 0 4 1, 2 0 0, 1 0 0",
    ),
    (
        "source.format=csv\nsource.columns=n:int\nfork.operator.class=each\nfork.branches=2\n\
         fork.test.0=ge n 5\nfork.test.1=not null n\nwriter.format=csv\n",
        "7\n3\n\"\"\n5\n",
        "out0:7\n5\nout1:7\n3\n5\n",
        "4 0 4 1, 2 0 0, 3 0 0",
    ),
    // Rows are counted behind the shared steps.
    (
        "source.format=csv\nsource.columns=n:int\nconverter.classes=where ge n 2\nwriter.format=csv\n",
        "1\n2\n",
        "out0:2\n",
        "2 0 1 0, 1 0 0",
    ),
    (
        "source.format=csv\nsource.columns=n:int,t:text\nconverter.classes=explode t |\nwriter.format=csv\n",
        "1,a|b||c\n2,\n",
        "out0:1,a\n1,b\n1,\n1,c\n2,\n",
        "2 0 5 0, 5 0 0",
    ),
    // One row that is bad makes the line bad.
    (
        "source.format=csv\nsource.columns=n:int,t:text\nconverter.classes.0=explode t |; cast t int\n\
         writer.format=csv\ntask.skip.error.records=1\n",
        "1,2|3\n1,4|x\n",
        "bad0:1,4|x\nout0:1,2\n1,3\n",
        "2 1 1 0, 2 0 0",
    ),
    // Each day has its folder.
    (
        "source.format=csv\nsource.columns=ts:int,m:text\nwriter.format=csv\nwriter.placer=day ts\n\
         qualitychecker.row.policies=not eq m e\nqualitychecker.row.policy.types=ERR_FILE\n",
        "0,a\n86400,b\n,c\n86399,d\n0,e\n",
        "out0:1970/01/01/0,a\n86399,d\nout0:1970/01/02/86400,b\nout0:none/,c\nerr0:1970/01/01/0,e\n",
        "5 0 5 0, 4 1 0",
    ),
];

const STOPS: [Job; 3] = [
    // The first row that is killed is told.
    (
        "source.format=csv\nsource.columns=n:int,t:text\nconverter.classes=explode t |\nfork.branches=2\n\
         qualitychecker.row.policies.0=not eq t x\nqualitychecker.row.policy.types.0=FAIL\n\
         qualitychecker.row.policies.1=not eq n 9; not eq t k\nqualitychecker.row.policy.types.1=FAIL, FAIL\n\
         writer.format=csv\n",
        "1,a\n2,b|k|x\n",
        "out0:1,a\nout1:1,a\n",
        "kill 1 1 4",
    ),
    // A row that is killed needs no record.
    (
        "source.format=json\nsource.columns=t:text\nwriter.format=lines\n\
         qualitychecker.row.policies=not null t\nqualitychecker.row.policy.types=FAIL\n",
        "{\"t\":\"a\"}\n{}\n",
        "out0:a\n",
        "kill 0 0 10",
    ),
    // A line that is bad in one branch kills nothing in another.
    (
        "source.format=json\nsource.columns=t:text\nfork.branches=2\nconverter.classes.1=explode t |\n\
         qualitychecker.row.policies.0=not like t k*\nqualitychecker.row.policy.types.0=FAIL\n\
         writer.format=lines\ntask.skip.error.records=1\n",
        "{\"t\":\"k|b\\nc\"}\n{\"t\":\"a|d\"}\n{\"t\":\"k\"}\n",
        "bad0:{\"t\":\"k|b\\nc\"}\nout0:a|d\nout1:a\nd\n",
        "kill 0 0 27",
    ),
];

pub(crate) fn each_job_is_so(rt: &impl Abort, alloc: Global, jobs: &[Job]) -> Result<(), Fail> {
    for (job, bytes, sent, end) in jobs {
        each_is_so(rt, alloc, job, 0, &[(*bytes, *sent, *end)])?;
    }
    Ok(())
}

#[test]
fn rows_go_through_steps_to_branches(rt: HostRuntime) -> Result<(), Fail> {
    each_job_is_so(&rt, rt.alloc(), &ROWS)
}

#[test]
fn the_first_line_that_stops_is_told(rt: HostRuntime) -> Result<(), Fail> {
    each_job_is_so(&rt, rt.alloc(), &STOPS)
}

const POLICIES: &str = "source.format=lines\nwriter.format=lines\n\
    qualitychecker.row.policies=bytes line 0 3; not like line e*; not eq line k\n\
    qualitychecker.row.policy.types=OPTIONAL, ERR_FILE, FAIL\n";

/// The units begin at 7.
const POLICY_LINES: [Case; 4] = [
    (
        "a\nlong\nelse\nego\n",
        "out0:a\nlong\nerr0:else\nego\n",
        "4 0 4 0, 2 2 2",
    ),
    ("a\nk\r\nb\nk\n", "out0:a\n", "kill 0 2 9"),
    ("e\nk\nk", "err0:e\n", "kill 0 2 9 torn"),
    ("k", "", "0 0 0 0, 0 0 0 torn"),
];

#[test]
fn policies_send_count_and_stop(rt: HostRuntime) -> Result<(), Fail> {
    each_is_so(&rt, rt.alloc(), POLICIES, 7, &POLICY_LINES)
}
