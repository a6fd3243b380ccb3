//! Each call of a device that fails, in turn.

use crate::calls::{
    Called, Case, Fails, NO_FAILS, call_again, check, check_again, check_text, make_call, source_of,
};
use crate::clicks::CLICKS;
use crate::compare::{same_number, same_truth};
use crate::files::{are_all, check_files, is_there};
use crate::forked::TWO;
use gob_volume::MemVolume;
use std::alloc::Global;
use std::process::Abort;
use std::test::Fail;

/// A run, and how what it left is recovered: the words, the name of its sequence, and what is told where that was open
/// and where there was none.
#[derive(Clone, Copy)]
struct Recovered {
    run: Case,
    words: &'static [&'static str],
    sequence: &'static str,
    open: &'static str,
    none: &'static str,
}

fn runs() -> [Recovered; 2] {
    [
        Recovered {
            run: TWO,
            words: &["recover", "two"],
            sequence: "two/seq",
            open: "recovered two sequence open\nstatus 0\n",
            none: "recovered two sequence none\nstatus 0\n",
        },
        Recovered {
            run: CLICKS,
            words: &["recover", "clicks"],
            sequence: "clicks/seq",
            open: "recovered clicks sequence open\nstatus 0\n",
            none: "recovered clicks sequence none\nstatus 0\n",
        },
    ]
}

/// More calls of each kind than a run makes.
const MOST: u64 = 1000;

/// Each run stages six files, a state and a sequence, each by a create, an append and a sync. Then come eight renames,
/// and the sequence is removed.
const LEAST: u64 = 33;

// The source

/// A listing or a look that fails ends the run, and nothing is changed. Whether such a call came.
fn check_planning(
    rt: &impl Abort,
    alloc: Global,
    case: &Case,
    lists: &[u64],
    looks: &[u64],
) -> Result<bool, Fail> {
    let fails = Fails {
        lists,
        looks,
        pulls: &[],
        volume: &[],
        writes: &[1],
    };
    let mut called = make_call(alloc, case, &fails)?;
    if called.source.fault_count() == 0 {
        return Ok(false);
    }
    check_planned(rt, alloc, &mut called, case)
}

fn check_planned(
    rt: &impl Abort,
    alloc: Global,
    called: &mut Called,
    case: &Case,
) -> Result<bool, Fail> {
    check_text(
        rt,
        alloc,
        &called.out,
        &["refused source-fault\nstatus 5\n"],
    )?;
    same_number(rt, u64::from(called.status), 5);
    same_truth(rt, called.source.pull_list().is_empty(), true);
    check_files(rt, alloc, &mut called.volume, case.files)?;
    Ok(true)
}

/// How many listings a run makes; each fails in turn.
fn failed_lists(rt: &impl Abort, alloc: Global, case: &Case) -> Result<u64, Fail> {
    for call in 0..MOST {
        if !check_planning(rt, alloc, case, &[call], &[])? {
            return Ok(call);
        }
    }
    Err(Fail::from("no end of listings"))
}

/// How many looks a run makes; each fails in turn.
fn failed_looks(rt: &impl Abort, alloc: Global, case: &Case) -> Result<u64, Fail> {
    for call in 0..MOST {
        if !check_planning(rt, alloc, case, &[], &[call])? {
            return Ok(call);
        }
    }
    Err(Fail::from("no end of looks"))
}

fn check_pulled(
    rt: &impl Abort,
    alloc: Global,
    called: &mut Called,
    case: &Case,
) -> Result<(), Fail> {
    same_number(rt, called.source.fault_count(), 1);
    check_text(rt, alloc, &called.out, case.text)?;
    check_files(rt, alloc, &mut called.volume, case.left)
}

fn check_pull(rt: &impl Abort, alloc: Global, case: &Case, call: u64) -> Result<(), Fail> {
    let numbers = [call];
    let fails = Fails {
        pulls: &numbers,
        writes: &[1],
        ..NO_FAILS
    };
    let mut called = make_call(alloc, case, &fails)?;
    check_pulled(rt, alloc, &mut called, case)
}

/// A pull that fails once is made again, and all else is as where none fails.
fn check_pull_again(rt: &impl Abort, alloc: Global, case: &Case) -> Result<(), Fail> {
    for call in 0..3 {
        check_pull(rt, alloc, case, call)?;
    }
    Ok(())
}

fn check_source(rt: &impl Abort, alloc: Global, case: &Case) -> Result<(), Fail> {
    check(rt, alloc, case)?;
    same_truth(rt, failed_lists(rt, alloc, case)? >= 1, true);
    // Each of the three partitions is looked at.
    same_truth(rt, failed_looks(rt, alloc, case)? >= 3, true);
    check_pull_again(rt, alloc, case)
}

/// Each listing, look and pull of a run fails in turn, and the run that nothing fails is the one that is wanted.
#[test]
fn each_call_of_the_source_fails(rt: HostRuntime) -> Result<(), Fail> {
    let runs = runs();
    for recovered in &runs {
        check_source(&rt, rt.alloc(), &recovered.run)?;
    }
    Ok(())
}

// The volume

fn check_recovery(
    rt: &impl Abort,
    alloc: Global,
    recovered: &Recovered,
    volume: &mut MemVolume,
) -> Result<(), Fail> {
    let mut source = source_of(alloc, &[], &NO_FAILS)?;
    let text = if is_there(volume, recovered.sequence)? {
        recovered.open
    } else {
        recovered.none
    };
    check_again(rt, alloc, recovered.words, &mut source, volume, 0, &[text])
}

/// Whether all files of the run stand, or none.
fn is_done(alloc: Global, case: &Case, volume: &mut MemVolume) -> Result<bool, Fail> {
    if are_all(alloc, volume, case.left)? {
        return Ok(true);
    }
    if are_all(alloc, volume, case.files)? {
        return Ok(false);
    }
    Err(Fail::from("a part of a commit stands"))
}

/// The run is made again, and all its files stand, each once.
fn check_later(
    rt: &impl Abort,
    alloc: Global,
    case: &Case,
    volume: &mut MemVolume,
) -> Result<(), Fail> {
    let mut source = source_of(alloc, case.parts, &NO_FAILS)?;
    let (status, _) = call_again(alloc, case.words, &mut source, volume)?;
    same_number(rt, status, u64::from(case.status));
    check_files(rt, alloc, volume, case.left)
}

/// Whether all files of the run stand once the call with this number has failed and what was left was recovered; or
/// that no such call came.
fn left_of(
    rt: &impl Abort,
    alloc: Global,
    recovered: &Recovered,
    call: u64,
) -> Result<Option<bool>, Fail> {
    let numbers = [call];
    let fails = Fails {
        volume: &numbers,
        writes: &[1],
        ..NO_FAILS
    };
    let mut called = make_call(alloc, &recovered.run, &fails)?;
    if called.volume.fault_count() == 0 {
        return Ok(None);
    }
    left_behind(rt, alloc, recovered, &mut called)
}

fn left_behind(
    rt: &impl Abort,
    alloc: Global,
    recovered: &Recovered,
    called: &mut Called,
) -> Result<Option<bool>, Fail> {
    check_text(
        rt,
        alloc,
        &called.out,
        &["refused volume-fault\nstatus 6\n"],
    )?;
    same_number(rt, u64::from(called.status), 6);
    let done = done_behind(rt, alloc, recovered, &mut called.volume)?;
    Ok(Some(done))
}

fn done_behind(
    rt: &impl Abort,
    alloc: Global,
    recovered: &Recovered,
    volume: &mut MemVolume,
) -> Result<bool, Fail> {
    volume.crash(b"#\n")?;
    check_recovery(rt, alloc, recovered, volume)?;
    let done = is_done(alloc, &recovered.run, volume)?;
    check_later(rt, alloc, &recovered.run, volume)?;
    Ok(done)
}

/// From some call on what is recovered is the whole run, and before it nothing.
fn check_volume(rt: &impl Abort, alloc: Global, recovered: &Recovered) -> Result<(), Fail> {
    let mut was_done = false;
    for call in 0..MOST {
        let Some(done) = left_of(rt, alloc, recovered, call)? else {
            same_truth(rt, was_done && call > LEAST, true);
            return Ok(());
        };
        same_truth(rt, done || !was_done, true);
        same_truth(rt, done && call == 0, false);
        was_done = done;
    }
    Err(Fail::from("no end of calls"))
}

/// Each call of the volume fails in turn: the run ends by it, and what is recovered is all of the run or nothing.
#[test]
fn each_call_of_the_volume_fails(rt: HostRuntime) -> Result<(), Fail> {
    let runs = runs();
    for recovered in &runs {
        check_volume(&rt, rt.alloc(), recovered)?;
    }
    Ok(())
}
