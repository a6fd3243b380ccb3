//! Units that are pulled in pieces of any length, tried anew, and ended for each cause.

ghost use Rattle.std.specs.Prelude.{◌<◌};

use crate::compare::{same_number, same_pull, same_truth};
use crate::files::{File, check_files};
use crate::kinds::Lines;
use crate::worked::{Ran, Work, run};
use gob_io::Pulled;
use gob_plan::{Cause, UnitResult};
use gob_task::TurnFault;
use gob_volume::MemVolume;
use std::alloc::Global;
use std::process::Abort;
use std::test::Fail;

/// A unit that is good: how many records it has, how many of them are bad, and its files.
#[derive(Clone, Copy)]
struct Good {
    work: Work,
    records: u64,
    bad: u64,
    files: &'static [File],
}

/// A unit that fails: for which cause, and where its pulls end.
#[derive(Clone, Copy)]
struct Failing {
    work: Work,
    cause: Cause,
    end: u64,
}

const TEXT: &str = "ab\nc\ndef\n";

const WHOLE: Work = Work {
    lines: Lines::Plain,
    bytes: b"ab\nc\ndef\n",
    hi: 9,
    fails: &[],
    calls: 99,
};

const PUBLISHED: &str = "j1/out/0/a.log@00000000000000000000-00000000000000000009.txt";

/// The text as the second attempt stages it.
const SECOND: &[File] = &[(
    "j1/stage/7-1/out/0/a.log@00000000000000000000-00000000000000000009.txt",
    PUBLISHED,
    TEXT,
)];

const GOOD: [Good; 3] = [
    Good {
        work: WHOLE,
        records: 3,
        bad: 0,
        files: &[(
            "j1/stage/7-0/out/0/a.log@00000000000000000000-00000000000000000009.txt",
            PUBLISHED,
            TEXT,
        )],
    },
    Good {
        work: Work {
            fails: &[0],
            ..WHOLE
        },
        records: 3,
        bad: 0,
        files: SECOND,
    },
    // A bad line goes to a file of its own, whose name comes first.
    Good {
        work: Work {
            lines: Lines::Numbers,
            bytes: b"1\nx\n2\n",
            hi: 6,
            ..WHOLE
        },
        records: 3,
        bad: 1,
        files: &[
            (
                "j1/stage/7-0/err/line/a.log@00000000000000000000-00000000000000000006.raw",
                "j1/err/line/a.log@00000000000000000000-00000000000000000006.raw",
                "x\n",
            ),
            (
                "j1/stage/7-0/out/0/a.log@00000000000000000000-00000000000000000006.csv",
                "j1/out/0/a.log@00000000000000000000-00000000000000000006.csv",
                "1\n2\n",
            ),
        ],
    },
];

/// The second pull fails.
const TRIED_AGAIN: Good = Good {
    work: Work {
        fails: &[1],
        ..WHOLE
    },
    records: 3,
    bad: 0,
    files: SECOND,
};

const FAILING: [Failing; 7] = [
    // Its range ends behind the partition.
    Failing {
        work: Work { hi: 10, ..WHOLE },
        cause: Cause::Gone,
        end: 10,
    },
    // It ends within a line.
    Failing {
        work: Work { hi: 8, ..WHOLE },
        cause: Cause::Torn,
        end: 8,
    },
    // A policy kills it, and what is behind that line isn't pulled.
    Failing {
        work: Work {
            lines: Lines::Short,
            bytes: b"a\nkill\nb\n",
            ..WHOLE
        },
        cause: Cause::Kill {
            branch: 0,
            policy: 0,
            at: 2,
        },
        end: 7,
    },
    // The first of three lines is killed.
    Failing {
        work: Work {
            lines: Lines::Short,
            bytes: b"kill\nb\nc\n",
            ..WHOLE
        },
        cause: Cause::Kill {
            branch: 0,
            policy: 0,
            at: 0,
        },
        end: 5,
    },
    // One bad record may be passed over, and the second ends it.
    Failing {
        work: Work {
            lines: Lines::Numbers,
            bytes: b"1\nx\n2\ny\n3\n",
            hi: 10,
            ..WHOLE
        },
        cause: Cause::BadRecords { at: 6 },
        end: 8,
    },
    // It has one record too many.
    Failing {
        work: Work {
            lines: Lines::Single,
            bytes: b"a\nb\n",
            hi: 4,
            ..WHOLE
        },
        cause: Cause::Policy { index: 0 },
        end: 4,
    },
    // It fails twice.
    Failing {
        work: Work {
            fails: &[0, 1],
            ..WHOLE
        },
        cause: Cause::Fault,
        end: 0,
    },
];

/// In pieces of this length, and what is left of the unit at last, these are the pulls up to an end.
fn check_pulls(rt: &impl Abort, pulls: &[Pulled], piece: u64, hi: u64, end: u64)
    requires { 0 < piece }
{
    let mut at = 0u64;
    for i in 0..pulls.len() {
        same_pull(rt, &pulls[i], "a.log", at, piece.min(hi.saturating_sub(at)));
        at = at.saturating_add(piece);
    }
    same_number(rt, pulls.len() as u64, end.div_ceil(piece));
}

fn check_made(
    rt: &impl Abort,
    alloc: Global,
    of_unit: &Option<UnitResult>,
    volume: &mut MemVolume,
    case: &Good,
) -> Result<(), Fail> {
    match of_unit {
        Some(UnitResult::Good { counts, staged, .. }) => {
            same_number(rt, counts.records, case.records);
            same_number(rt, counts.bad, case.bad);
            check_files(rt, alloc, volume, staged.as_slice(), case.files)
        }
        _ => Err(Fail::from("the unit isn't good")),
    }
}

// What was staged is synced, so a crash adds nothing to it.
fn check_ran(rt: &impl Abort, alloc: Global, ran: &mut Ran, case: &Good) -> Result<(), Fail> {
    ran.volume.crash(b"#")?;
    check_made(rt, alloc, &ran.result, &mut ran.volume, case)
}

fn check_good(rt: &impl Abort, alloc: Global, case: &Good, piece: u32) -> Result<(), Fail>
    requires { 0 < piece }
{
    let mut ran = run(alloc, &case.work, piece)?;
    let pulls = ran.source.pull_list();
    check_pulls(rt, pulls, u64::from(piece), case.work.hi, case.work.hi);
    check_ran(rt, alloc, &mut ran, case)
}

fn is_failed(of_unit: &Option<UnitResult>, wanted: Cause) -> bool {
    match of_unit {
        Some(UnitResult::Failed { cause }) => *cause == wanted,
        _ => false,
    }
}

fn check_failing(rt: &impl Abort, alloc: Global, case: &Failing, piece: u32) -> Result<(), Fail>
    requires { 0 < piece }
{
    let ran = run(alloc, &case.work, piece)?;
    same_truth(rt, is_failed(&ran.result, case.cause), true);
    let pulls = ran.source.pull_list();
    check_pulls(rt, pulls, u64::from(piece), case.work.hi, case.end);
    Ok(())
}

fn good_in_any_pieces(rt: &impl Abort, alloc: Global, case: &Good) -> Result<(), Fail> {
    for piece in 1..11 {
        check_good(rt, alloc, case, piece)?;
    }
    Ok(())
}

fn failing_in_any_pieces(rt: &impl Abort, alloc: Global, case: &Failing) -> Result<(), Fail> {
    for piece in 1..11 {
        check_failing(rt, alloc, case, piece)?;
    }
    Ok(())
}

#[test]
fn any_pieces_make_the_same(rt: HostRuntime) -> Result<(), Fail> {
    for case in &GOOD {
        good_in_any_pieces(&rt, rt.alloc(), case)?;
    }
    Ok(())
}

#[test]
fn units_fail_for_their_causes_in_any_pieces(rt: HostRuntime) -> Result<(), Fail> {
    for case in &FAILING {
        failing_in_any_pieces(&rt, rt.alloc(), case)?;
    }
    Ok(())
}

/// A first pull was answered, and then all of them.
fn check_again(rt: &impl Abort, alloc: Global, piece: u32) -> Result<(), Fail>
    requires { 0 < piece }
{
    let mut ran = run(alloc, &TRIED_AGAIN.work, piece)?;
    if let Some((first, others)) = ran.source.pull_list().split_first() {
        same_pull(rt, first, "a.log", 0, u64::from(piece));
        check_pulls(rt, others, u64::from(piece), 9, 9);
    }
    check_ran(rt, alloc, &mut ran, &TRIED_AGAIN)
}

/// The bytes of an attempt that failed are in its own folder alone.
#[test]
fn a_retry_begins_anew(rt: HostRuntime) -> Result<(), Fail> {
    for piece in 1..9 {
        check_again(&rt, rt.alloc(), piece)?;
    }
    Ok(())
}

/// Whether the unit is good with so many changing calls of the volume. Else these failed, and not the source.
fn is_good_within(alloc: Global, piece: u32, calls: u64) -> Result<bool, TurnFault>
    requires { 0 < piece }
{
    match run(alloc, &Work { calls, ..WHOLE }, piece) {
        Ok(ran) => Ok(is_good(&ran.result)),
        Err(TurnFault::Failed) => Ok(false),
        Err(TurnFault::Memory) => Err(TurnFault::Memory),
    }
}

fn is_good(of_unit: &Option<UnitResult>) -> bool {
    match of_unit {
        Some(UnitResult::Good { .. }) => true,
        _ => false,
    }
}

fn check_calls(rt: &impl Abort, alloc: Global, piece: u32, needed: u64) -> Result<(), Fail>
    requires { 0 < piece }
{
    for calls in 0..needed {
        same_truth(rt, is_good_within(alloc, piece, calls)?, false);
    }
    same_truth(rt, is_good_within(alloc, piece, needed)?, true);
    Ok(())
}

/// A file is made, gets one append for each piece that ends lines, and is synced. Where a call fails the unit ends.
#[test]
fn a_piece_is_appended_at_once(rt: HostRuntime) -> Result<(), Fail> {
    check_calls(&rt, rt.alloc(), 9, 3)?;
    check_calls(&rt, rt.alloc(), 4, 5)
}
