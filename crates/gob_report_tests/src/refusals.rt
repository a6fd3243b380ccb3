//! What refusals tell.

use crate::compare::{same_bytes, same_number};
use gob_plan::Text;
use gob_report::{Refusal, memory_text, refusal_text};
use std::alloc::Global;
use std::process::Abort;
use std::test::Fail;

fn check_refusal(
    rt: &impl Abort,
    alloc: Global,
    refusal: Refusal,
    status: u8,
    wanted: &[u8],
) -> Result<(), Fail> {
    same_number(rt, refusal.status(), status);
    let text = refusal_text(alloc, &refusal)?;
    same_bytes(rt, text.as_slice(), wanted);
    Ok(())
}

#[test]
fn refusals_for_the_words_and_the_text_are_told(rt: HostRuntime) -> Result<(), Fail> {
    let usage: &[u8] =
        b"usage: run JOB, recover JOB, report JOB, check JOB, drill N, drill N stops\nstatus 2\n";
    check_refusal(&rt, rt.alloc(), Refusal::Usage, 2, usage)?;
    let no_job: &[u8] = b"refused no-job\nstatus 3\n";
    check_refusal(&rt, rt.alloc(), Refusal::NoJob, 3, no_job)?;
    let not_utf8: &[u8] = b"refused not-utf8\nstatus 3\n";
    check_refusal(&rt, rt.alloc(), Refusal::NotUtf8, 3, not_utf8)?;
    let escape: &[u8] = b"refused bad-escape 2\nstatus 3\n";
    check_refusal(&rt, rt.alloc(), Refusal::BadEscape { line: 2 }, 3, escape)?;
    Ok(())
}

#[test]
fn refusals_for_a_key_are_told(rt: HostRuntime) -> Result<(), Fail> {
    let key = Text::from_str(rt.alloc(), "source.format")?;
    let missing: &[u8] = b"refused missing source.format\nstatus 3\n";
    check_refusal(&rt, rt.alloc(), Refusal::Missing { key }, 3, missing)?;
    let key = Text::from_str(rt.alloc(), "task.slots")?;
    let bad: &[u8] = b"refused bad-value task.slots\nstatus 3\n";
    check_refusal(&rt, rt.alloc(), Refusal::BadValue { key }, 3, bad)?;
    let key = Text::from_str(rt.alloc(), "qualitychecker.row.policy.types")?;
    let count: &[u8] = b"refused bad-policy-count qualitychecker.row.policy.types\nstatus 3\n";
    check_refusal(&rt, rt.alloc(), Refusal::BadPolicyCount { key }, 3, count)?;
    let key = Text::from_str(rt.alloc(), "writer.format")?;
    let dollar: &[u8] = b"refused interpolation writer.format\nstatus 3\n";
    check_refusal(&rt, rt.alloc(), Refusal::Interpolation { key }, 3, dollar)?;
    Ok(())
}

#[test]
fn refusals_for_a_column_are_told(rt: HostRuntime) -> Result<(), Fail> {
    let key = Text::from_str(rt.alloc(), "converter.classes")?;
    let column = Text::from_str(rt.alloc(), "a")?;
    let absent: &[u8] = b"refused no-column converter.classes a\nstatus 3\n";
    check_refusal(
        &rt,
        rt.alloc(),
        Refusal::NoColumn { key, column },
        3,
        absent,
    )?;
    let key = Text::from_str(rt.alloc(), "writer.format")?;
    let column = Text::from_str(rt.alloc(), "id")?;
    let other: &[u8] = b"refused bad-kind writer.format id\nstatus 3\n";
    check_refusal(&rt, rt.alloc(), Refusal::BadKind { key, column }, 3, other)?;
    Ok(())
}

#[test]
fn refusals_for_a_file_are_told(rt: HostRuntime) -> Result<(), Fail> {
    let name = Text::from_str(rt.alloc(), "j1/state")?;
    let damaged: &[u8] = b"refused damaged j1/state\nstatus 4\n";
    check_refusal(&rt, rt.alloc(), Refusal::Damaged { name }, 4, damaged)?;
    let part = Text::from_str(rt.alloc(), "a b")?;
    let shorter: &[u8] = b"refused shrunk a%20b 4 2\nstatus 4\n";
    let refusal = Refusal::Shrunk {
        part,
        next: 4,
        size: 2,
    };
    check_refusal(&rt, rt.alloc(), refusal, 4, shorter)?;
    Ok(())
}

#[test]
fn refusals_for_devices_and_ranges_are_told(rt: HostRuntime) -> Result<(), Fail> {
    let source: &[u8] = b"refused source-fault\nstatus 5\n";
    check_refusal(&rt, rt.alloc(), Refusal::SourceFault, 5, source)?;
    let volume: &[u8] = b"refused volume-fault\nstatus 6\n";
    check_refusal(&rt, rt.alloc(), Refusal::VolumeFault, 6, volume)?;
    let memory: &[u8] = b"refused memory\nstatus 8\n";
    check_refusal(&rt, rt.alloc(), Refusal::Memory, 8, memory)?;
    same_bytes(&rt, memory_text(), memory);
    let refusal = Refusal::Full {
        ranges: 200_001,
        units: 3,
    };
    let full: &[u8] = b"refused full 200001 3\nstatus 9\n";
    check_refusal(&rt, rt.alloc(), refusal, 9, full)?;
    Ok(())
}
