//! Commits that stop at each call, and are settled.
ghost use Rattle.std.specs.Prelude.{◌≡◌};
ghost use Rattle.gob_device.specs.Names.{IsPathname};
ghost use Rattle.gob_recovery.specs.Sequence.{WellFormed};

use crate::compare::{same_bytes, same_truth};
use crate::files::{File, all_files, volume_of};
use gob_seq::{Sequence, commit, commit_part, is_ready, read_sequence, settle};
use gob_volume::{MemVolume, Volume};
use std::alloc::Global;
use std::process::Abort;
use std::test::Fail;

/// A job with a state and staged files, and another job.
const FILES: [File; 13] = [
    ("j/delta/1", b"1"),
    ("j/delta/2", b"2"),
    ("j/out/b", b"old"),
    ("j/stage/0-0/a", b"A"),
    ("j/stage/0-0/b", b"B"),
    ("j/stage/1-0/c", b"C"),
    ("j/stage/1-0/d", b""),
    ("j/stage/1-0/left", b"left"),
    ("j/stage/2-1/e", b"E"),
    ("j/stage/state", b"3"),
    ("j/state", b"0"),
    ("jobs/j.pull", b""),
    ("k/stage/a", b"other"),
];

/// Six moves, two of them to names that are taken, and two removals.
const SEQUENCE: &[u8] = b"gobblin-sequence 1
move j/stage/0-0/a j/out/a
move j/stage/0-0/b j/out/b
remove j/delta/1
move j/stage/1-0/c j/err/c
move j/stage/1-0/d j/out/d
move j/stage/2-1/e j/out/e
move j/stage/state j/state
remove j/delta/2
end 8
";

/// What stands without the steps, once all is settled.
const BEFORE: &[u8] =
    b"j/delta/1=1 j/delta/2=2 j/out/b=old j/state=0 jobs/j.pull= k/stage/a=other ";

/// What stands with all of them.
const AFTER: &[u8] =
    b"j/err/c=C j/out/a=A j/out/b=B j/out/d= j/out/e=E j/state=3 jobs/j.pull= k/stage/a=other ";

/// What stands with all of them where the rest that is staged stays.
const AFTER_A_PART: &[u8] =
    b"j/err/c=C j/out/a=A j/out/b=B j/out/d= j/out/e=E j/stage/1-0/left=left j/state=3 jobs/j.pull= k/stage/a=other ";

/// The first calls of a commit write the staged sequence, and the next one gives it its name: from then on it is open.
const CALLS_BEFORE_OPEN: u64 = 4;

/// All calls of a commit that change something and leave the staging: one more for each of the eight steps, and one
/// that takes the sequence away.
const CALLS_OF_A_PART: u64 = 13;

/// All calls of a commit that change something: one more for the file that is left over.
const CALLS: u64 = 14;

/// The most calls of a settling that change something: one for each step, one for the sequence and one for the file
/// that is left over.
const CALLS_TO_SETTLE: u64 = 10;

/// What may stand behind the kept bytes of a file after a crash.
const TAILS: [&[u8]; 3] = [b"", b"any bytes", b"gobblin-sequence 1\nend 0\n"];

/// Whether what else is staged goes with the steps.
#[derive(Clone, Copy, PartialEq, Eq)]
enum How {
    Whole,
    Part,
}

#[tactic(auto, using(crate::proofs::Ready::ready_now))]
fn commit_whole<V: Volume>(alloc: Global, volume: &mut V, job: &str, sequence: &Sequence) -> bool
    requires named { IsPathname job.now }
    requires fits { WellFormed job.now sequence.now }
{
    match is_ready(alloc, volume, job, sequence) {
        Ok(true) => commit(alloc, volume, job, sequence).is_ok(),
        _ => false,
    }
}

#[tactic(auto, using(crate::proofs::Ready::ready_now))]
fn commit_some<V: Volume>(alloc: Global, volume: &mut V, job: &str, sequence: &Sequence) -> bool
    requires named { IsPathname job.now }
    requires fits { WellFormed job.now sequence.now }
{
    match is_ready(alloc, volume, job, sequence) {
        Ok(true) => commit_part(alloc, volume, job, sequence).is_ok(),
        _ => false,
    }
}

/// Whether the sequence was committed.
fn is_committed<V: Volume>(alloc: Global, volume: &mut V, how: How) -> Result<bool, Fail> {
    let Some(sequence) = read_sequence(alloc, "j", SEQUENCE)? else {
        return Err(Fail::from("no sequence"));
    };
    Ok(match how {
        How::Whole => commit_whole(alloc, volume, "j", &sequence),
        How::Part => commit_some(alloc, volume, "j", &sequence),
    })
}

fn is_settled<V: Volume>(alloc: Global, volume: &mut V) -> bool {
    settle(alloc, volume, "j").is_ok()
}

fn check_files(
    rt: &impl Abort,
    alloc: Global,
    volume: &mut MemVolume,
    wanted: &[u8],
) -> Result<(), Fail> {
    let found = all_files(alloc, volume)?;
    same_bytes(rt, &found, wanted);
    Ok(())
}

fn check_commit(rt: &impl Abort, alloc: Global, how: How, wanted: &[u8]) -> Result<(), Fail> {
    let mut volume = volume_of(alloc, &FILES)?;
    same_truth(rt, is_committed(alloc, &mut volume, how)?, true);
    check_files(rt, alloc, &mut volume, wanted)
}

/// A commit that isn't stopped does all steps. What else is staged goes with them, or stays.
#[test]
fn a_commit_does_all_steps(rt: HostRuntime) -> Result<(), Fail> {
    check_commit(&rt, rt.alloc(), How::Whole, AFTER)?;
    check_commit(&rt, rt.alloc(), How::Part, AFTER_A_PART)?;
    Ok(())
}

/// What stands once a commit has made so many calls and what it left is settled.
fn settled_after(calls: u64) -> &'static [u8] {
    if calls < CALLS_BEFORE_OPEN {
        BEFORE
    } else {
        AFTER
    }
}

fn calls_of(how: How) -> u64 {
    match how {
        How::Whole => CALLS,
        How::Part => CALLS_OF_A_PART,
    }
}

/// What a commit leaves that is stopped behind so many calls, and then crashes. It is done where it makes no more.
fn stopped_commit(
    rt: &impl Abort,
    alloc: Global,
    how: How,
    calls: u64,
    tail: &[u8],
) -> Result<MemVolume, Fail> {
    let mut volume = volume_of(alloc, &FILES)?;
    volume.fuse(calls);
    same_truth(
        rt,
        is_committed(alloc, &mut volume, how)?,
        calls >= calls_of(how),
    );
    volume.crash(tail)?;
    Ok(volume)
}

/// A settling that is stopped behind so many calls and crashes, and then another, leave all steps or none. The first
/// one isn't stopped where these are as many as it makes.
fn check_settled(
    rt: &impl Abort,
    alloc: Global,
    volume: &mut MemVolume,
    calls: u64,
    tail: &[u8],
    wanted: &[u8],
) -> Result<(), Fail> {
    volume.fuse(calls);
    same_truth(
        rt,
        is_settled(alloc, volume) || calls < CALLS_TO_SETTLE,
        true,
    );
    volume.crash(tail)?;
    same_truth(rt, is_settled(alloc, volume), true);
    check_files(rt, alloc, volume, wanted)
}

fn check_all_settlings(
    rt: &impl Abort,
    alloc: Global,
    how: How,
    calls: u64,
    tail: &[u8],
) -> Result<(), Fail> {
    for later in 0..CALLS_TO_SETTLE + 1 {
        let mut volume = stopped_commit(rt, alloc, how, calls, tail)?;
        check_settled(rt, alloc, &mut volume, later, tail, settled_after(calls))?;
    }
    Ok(())
}

fn check_all_stops(rt: &impl Abort, alloc: Global, how: How, tail: &[u8]) -> Result<(), Fail> {
    for calls in 0..CALLS + 1 {
        check_all_settlings(rt, alloc, how, calls, tail)?;
    }
    Ok(())
}

#[test]
fn a_stopped_commit_does_all_steps_or_none(rt: HostRuntime) -> Result<(), Fail> {
    for tail in TAILS {
        check_all_stops(&rt, rt.alloc(), How::Whole, tail)?;
    }
    Ok(())
}

#[test]
fn a_stopped_part_does_all_steps_or_none(rt: HostRuntime) -> Result<(), Fail> {
    for tail in TAILS {
        check_all_stops(&rt, rt.alloc(), How::Part, tail)?;
    }
    Ok(())
}

/// While a sequence is open, and where a source is lost, nothing is committed.
#[test]
fn a_sequence_that_is_not_ready_is_not_committed(rt: HostRuntime) -> Result<(), Fail> {
    let mut open = stopped_commit(&rt, rt.alloc(), How::Whole, CALLS_BEFORE_OPEN, b"")?;
    same_truth(&rt, is_committed(rt.alloc(), &mut open, How::Whole)?, false);
    let mut lost = volume_of(rt.alloc(), &FILES[..3])?;
    same_truth(&rt, is_committed(rt.alloc(), &mut lost, How::Whole)?, false);
    Ok(())
}
