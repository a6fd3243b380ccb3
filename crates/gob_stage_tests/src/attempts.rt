//! Attempts that stage files, and what a crash leaves of them.

ghost use Rattle.gob_device.specs.Names.{IsPathname};

use gob_plan::{List, StagedFile};
use gob_stage::{Attempt, StageFault};
use gob_volume::{MemVolume, Volume};
use std::alloc::Global;
use std::process::Abort;
use std::test::Fail;

const FIRST: &str = "out/0/a.log@0-4.txt";

const SECOND: &str = "err/0/a.log@0-4.txt";

fn same_text(rt: &impl Abort, found: &str, wanted: &str) {
    assert_eq!(rt; found, wanted);
}

fn same_file(rt: &impl Abort, found: &StagedFile, from: &str, to: &str) {
    same_text(rt, found.from.as_str(), from);
    same_text(rt, found.to.as_str(), to);
}

/// What a file holds.
fn holds(
    rt: &impl Abort,
    alloc: Global,
    volume: &mut MemVolume,
    name: &str,
    wanted: &[u8],
) -> Result<(), Fail>
    requires { IsPathname name.now }
{
    let Ok(Some(found)) = volume.read(alloc, name) else {
        return Err(Fail::from("there is no file"));
    };
    assert!(rt; found.as_slice() == wanted);
    Ok(())
}

fn stage_both(alloc: Global, volume: &mut MemVolume) -> Result<List<StagedFile>, Fail> {
    let mut attempt = Attempt::new(alloc, "j1", 12, 3)?;
    attempt.append(volume, FIRST, b"x\n")?;
    attempt.append(volume, SECOND, b"")?;
    attempt.append(volume, FIRST, b"y\n")?;
    Ok(attempt.finish(volume)?)
}

fn same_files(rt: &impl Abort, files: &[StagedFile]) {
    assert_eq!(rt; files.len(), 2);
    same_file(
        rt,
        &files[0],
        "j1/stage/12-3/err/0/a.log@0-4.txt",
        "j1/err/0/a.log@0-4.txt",
    );
    same_file(
        rt,
        &files[1],
        "j1/stage/12-3/out/0/a.log@0-4.txt",
        "j1/out/0/a.log@0-4.txt",
    );
}

fn check_staged(rt: &impl Abort, alloc: Global, volume: &mut MemVolume) -> Result<(), Fail> {
    let staged = stage_both(alloc, volume)?;
    same_files(rt, staged.as_slice());
    Ok(())
}

fn holds_both(rt: &impl Abort, alloc: Global, volume: &mut MemVolume) -> Result<(), Fail> {
    let first = "j1/stage/12-3/out/0/a.log@0-4.txt";
    holds(rt, alloc, volume, first, b"x\ny\n")?;
    let second = "j1/stage/12-3/err/0/a.log@0-4.txt";
    holds(rt, alloc, volume, second, b"")
}

#[test]
fn an_attempt_stages_its_files(rt: HostRuntime) -> Result<(), Fail> {
    let mut volume = MemVolume::new(rt.alloc(), Vec::new(rt.alloc()));
    check_staged(&rt, rt.alloc(), &mut volume)?;
    volume.crash(b"lost")?;
    holds_both(&rt, rt.alloc(), &mut volume)
}

fn same_only_file(rt: &impl Abort, files: &[StagedFile]) {
    assert_eq!(rt; files.len(), 1);
    same_file(
        rt,
        &files[0],
        "j1/stage/0-1/out/0/a.log@0-4.txt",
        "j1/out/0/a.log@0-4.txt",
    );
}

/// The next attempt at a unit has a file of its own.
fn stage_again(rt: &impl Abort, alloc: Global, volume: &mut MemVolume) -> Result<(), Fail> {
    let mut attempt = Attempt::new(alloc, "j1", 0, 1)?;
    attempt.append(volume, FIRST, b"z\n")?;
    let staged = attempt.finish(volume)?;
    same_only_file(rt, staged.as_slice());
    Ok(())
}

fn fail_to_stage(rt: &impl Abort, alloc: Global, volume: &mut MemVolume) -> Result<(), Fail> {
    let mut attempt = Attempt::new(alloc, "j1", 0, 0)?;
    attempt.append(volume, FIRST, b"x\n")?;
    assert!(rt; attempt.append(volume, FIRST, b"y\n") == Err(StageFault::Failed));
    Ok(())
}

fn holds_each(rt: &impl Abort, alloc: Global, volume: &mut MemVolume) -> Result<(), Fail> {
    holds(
        rt,
        alloc,
        volume,
        "j1/stage/0-0/out/0/a.log@0-4.txt",
        b"lost",
    )?;
    holds(
        rt,
        alloc,
        volume,
        "j1/stage/0-1/out/0/a.log@0-4.txt",
        b"z\n",
    )
}

/// The third call of the volume fails. A crash takes of the first attempt's file, and nothing of the second one's.
#[test]
fn an_attempt_that_fails_is_begun_anew(rt: HostRuntime) -> Result<(), Fail> {
    let alloc = rt.alloc();
    let mut volume = MemVolume::new(alloc, Vec::from_slice(alloc, &[2])?);
    fail_to_stage(&rt, alloc, &mut volume)?;
    stage_again(&rt, alloc, &mut volume)?;
    volume.crash(b"lost")?;
    holds_each(&rt, alloc, &mut volume)
}
