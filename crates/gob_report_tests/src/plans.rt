//! Pipeline texts, read back as plans.

use crate::compare::same_bytes;
use crate::made::{job_of, texts_of};
use gob_job::plan_of;
use gob_report::check_text;
use std::alloc::Global;
use std::process::Abort;
use std::test::Fail;

fn check_plan(rt: &impl Abort, alloc: Global, pipeline: &str, wanted: &[u8]) -> Result<(), Fail> {
    let Some(plan) = plan_of(alloc, pipeline)? else {
        return Err(Fail::from("no plan"));
    };
    let unknown = texts_of(alloc, &[])?;
    let text = check_text(alloc, "clicks", &plan, &unknown)?;
    same_bytes(rt, text.as_slice(), wanted);
    Ok(())
}

/// Errors go to csv with one of the columns, all else to json.
const TWO_OUTPUTS: &[u8] =
    b"source.format=json\nsource.columns=ip:text, status:int\nfork.operator.class=first\nfork.branches=2\n\
        fork.test.0=ge status 400\nconverter.classes.0=drop ip\nwriter.format=csv\nfork.test.1=not null status\n\
        writer.format.1=json\n";

#[test]
fn a_jobs_pipeline_tells_its_plan(rt: HostRuntime) -> Result<(), Fail> {
    let wanted: &[u8] =
        b"job clicks ok\nbranch 0 csv status:int\nbranch 1 json ip:text,status:int\nstatus 0\n";
    let job = job_of(rt.alloc(), "clicks", TWO_OUTPUTS)?;
    check_plan(&rt, rt.alloc(), job.pipeline.as_str(), wanted)
}

/// Pipeline texts, and what is told of their plans.
const PLANS: [(&str, &[u8]); 3] = [
    (
        "source.format=lines\nwriter.format.0=lines\n",
        b"job clicks ok\nbranch 0 lines line:text\nstatus 0\n",
    ),
    // The last of equal keys counts, and others have no effect.
    (
        "x=%24%7B\nsource.format=csv\nsource.format=lines\nwriter.format=json\ntask.slots=0\n",
        b"job clicks ok\nbranch 0 json line:text\nstatus 0\n",
    ),
    (
        "source.format=csv\nsource.columns=a%3Aint%2C%20b%3Abool\nconverter.classes.0=drop%20a\nwriter.format.0=csv\n",
        b"job clicks ok\nbranch 0 csv b:bool\nstatus 0\n",
    ),
];

#[test]
fn pipelines_tell_plans(rt: HostRuntime) -> Result<(), Fail> {
    for (pipeline, wanted) in PLANS {
        check_plan(&rt, rt.alloc(), pipeline, wanted)?;
    }
    Ok(())
}

/// No pipeline texts: a line that is no setting, one without its end, a key with a dash, and values that aren't escaped
/// as they have to be; then a key that is missing, and one whose value is refused.
const NO_PLANS: [&str; 7] = [
    "lines\n",
    "source.format=lines\nwriter.format.0=lines",
    "source-format=\nsource.format=lines\nwriter.format.0=lines\n",
    "source.format=l%69nes\nwriter.format.0=lines\n",
    "source.format=lines\nwriter.format.0=lines=\n",
    "writer.format.0=lines\n",
    "source.format=lines\nwriter.format.0=%24%7B\n",
];

#[test]
fn other_texts_tell_none(rt: HostRuntime) -> Result<(), Fail> {
    for pipeline in NO_PLANS {
        if plan_of(rt.alloc(), pipeline)?.is_some() {
            return Err(Fail::from("a plan"));
        }
    }
    Ok(())
}
