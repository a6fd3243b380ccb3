//! What is loaded of a state that is kept whole and the changes behind it, and which file is blamed.

ghost use Rattle.gob_ledger.specs.Spelling.{Proper};

use gob_segments::{LoadFault, load};
use gob_state::{State, write_state};
use gob_volume::MemVolume;
use std::alloc::Global;
use std::process::Abort;
use std::test::Fail;

pub(crate) const STATE: &str = "j1/state";

pub(crate) const SECOND: &str = "j1/delta/00000000000000000002";

const THIRD: &str = "j1/delta/00000000000000000003";

const FOURTH: &str = "j1/delta/00000000000000000004";

pub(crate) const BASE: &[u8] =
    b"gobblin-state 2\nrun 1\npipelines 1\npipeline 1\nwriter.format.0=json\ntotals 1 0 1 0\nbranch 0 1 0 0\n\
        partition a 6\ndone 0 2 0\nopen 2 4\nopen 4 6\nend\n";

/// Makes an owed range done, and owes a new one.
pub(crate) const CHANGE_2: &[u8] =
    b"gobblin-delta 2\nrun 2\npipelines 0\ntotals 2 0 2 0\nbranch 0 2 0 0\npartition a 9\ndone 4 6 0\nopen 6 9\nend\n";

/// Adds a pipeline and a partition.
pub(crate) const CHANGE_3: &[u8] =
    b"gobblin-delta 2\nrun 3\npipelines 1\npipeline 1\nx=1\ntotals 4 0 4 0\nbranch 0 4 0 0\nbranch 1 0 0 0\n\
        partition a 9\ndone 2 4 1\npartition b 3\ndone 0 3 1\nend\n";

/// Changes the totals alone.
const CHANGE_4: &[u8] =
    b"gobblin-delta 2\nrun 4\npipelines 0\ntotals 5 0 5 0\nbranch 0 5 0 0\nbranch 1 0 0 0\nend\n";

pub(crate) const AFTER_2: &[u8] =
    b"gobblin-state 2\nrun 2\npipelines 1\npipeline 1\nwriter.format.0=json\ntotals 2 0 2 0\nbranch 0 2 0 0\n\
        partition a 9\ndone 0 2 0\nopen 2 4\ndone 4 6 0\nopen 6 9\nend\n";

const AFTER_4: &[u8] =
    b"gobblin-state 2\nrun 4\npipelines 2\npipeline 1\nwriter.format.0=json\npipeline 1\nx=1\ntotals 5 0 5 0\n\
        branch 0 5 0 0\nbranch 1 0 0 0\npartition a 9\ndone 0 2 0\ndone 2 4 1\ndone 4 6 0\nopen 6 9\npartition b 3\n\
        done 0 3 1\nend\n";

/// The last line is spoilt.
const SPOILT: &[u8] = b"gobblin-state 2\nrun 1\npipelines 0\ntotals 2 0 2 0\nbranch 0 2 0 0\nenx\n";

/// The same in the first version.
pub(crate) const OLD_BASE: &[u8] =
    b"gobblin-state 1\nrun 1\npipeline 1\nwriter.format.0=json\ntotals 1 0 1 0\nbranch 0 1 0 0\npartition a 4\n\
        done 0 2\nopen 2 4\nend\n";

pub(crate) const OLD_CHANGE: &[u8] =
    b"gobblin-delta 1\nrun 2\ntotals 2 0 2 0\nbranch 0 2 0 0\npartition a 4\ndone 2 4\nend\n";

const OLD_AFTER: &[u8] =
    b"gobblin-state 2\nrun 2\npipelines 1\npipeline 1\nwriter.format.0=json\ntotals 2 0 2 0\nbranch 0 2 0 0\n\
        partition a 4\ndone 0 2 0\ndone 2 4 0\nend\n";

/// What would be the next change if it were of the state's version.
const NEW_CHANGE: &[u8] =
    b"gobblin-delta 2\nrun 2\npipelines 0\ntotals 2 0 2 0\nbranch 0 2 0 0\npartition a 4\ndone 2 4 0\nend\n";

const OLD_CHANGE_3: &[u8] = b"gobblin-delta 1\nrun 3\ntotals 2 0 2 0\nbranch 0 2 0 0\nend\n";

/// Texts that are no change behind the state.
const NO_CHANGES: [&[u8]; 21] = [
    b"",
    b"gobblin-delta 1\nrun 2\ntotals 2 0 2 0\nbranch 0 2 0 0\nend\n",
    b"gobblin-delta 2\nrun 3\npipelines 0\ntotals 2 0 2 0\nbranch 0 2 0 0\nend\n",
    b"gobblin-delta 2\nrun 2\npipelines 0\ntotals 2 0 2 0\nbranch 0 2 0 0\nend\n\n",
    b"gobblin-delta 2\nrun 2\npipelines 0\ntotals 2 0 2 0\nbranch 0 2 0 0\n",
    b"gobblin-delta 2\nrun 2\npipelines 0\ntotals 2 0 2 0\nend\n",
    b"gobblin-delta 2\nrun 2\npipelines 1\npipeline 1\nwriter.format.0=json\ntotals 2 0 2 0\nbranch 0 2 0 0\nend\n",
    b"gobblin-delta 2\nrun 2\npipelines 2\npipeline 1\nx=1\npipeline 1\nx=2\ntotals 2 0 2 0\nbranch 0 2 0 0\nend\n",
    b"gobblin-delta 2\nrun 2\npipelines 0\ntotals 2 0 2 0\nbranch 0 2 0 0\npartition a 6\nend\n",
    b"gobblin-delta 2\nrun 2\npipelines 0\ntotals 2 0 2 0\nbranch 0 2 0 0\npartition a 6\ndone 0 2 0\nend\n",
    b"gobblin-delta 2\nrun 2\npipelines 0\ntotals 2 0 2 0\nbranch 0 2 0 0\npartition a 6\nopen 2 4\nend\n",
    b"gobblin-delta 2\nrun 2\npipelines 0\ntotals 2 0 2 0\nbranch 0 2 0 0\npartition a 6\ndone 2 6 0\nend\n",
    b"gobblin-delta 2\nrun 2\npipelines 0\ntotals 2 0 2 0\nbranch 0 2 0 0\npartition a 6\ndone 2 4 1\nend\n",
    b"gobblin-delta 2\nrun 2\npipelines 0\ntotals 2 0 2 0\nbranch 0 2 0 0\npartition a 6\ndone 4 6 0\ndone 2 4 0\n\
        end\n",
    b"gobblin-delta 2\nrun 2\npipelines 0\ntotals 2 0 2 0\nbranch 0 2 0 0\npartition a 7\ndone 2 4 0\nend\n",
    b"gobblin-delta 2\nrun 2\npipelines 0\ntotals 2 0 2 0\nbranch 0 2 0 0\npartition a 9\nopen 7 9\nend\n",
    b"gobblin-delta 2\nrun 2\npipelines 0\ntotals 2 0 2 0\nbranch 0 2 0 0\npartition a 6\nopen 6 6\nend\n",
    b"gobblin-delta 2\nrun 2\npipelines 0\ntotals 2 0 2 0\nbranch 0 2 0 0\npartition b 1\nopen 0 1\npartition a 7\n\
        open 6 7\nend\n",
    b"gobblin-delta 2\nrun 2\npipelines 0\ntotals 2 0 2 0\nbranch 0 2 0 0\npartition a 7\nopen 6 7\npartition a 8\n\
        open 7 8\nend\n",
    b"gobblin-delta 2\nrun 2\npipelines 0\ntotals 2 0 2 0\nbranch 0 2 0 0\npartition b 0\nend\n",
    b"gobblin-delta 2\nrun 2\npipelines 0\ntotals 2 0 2 0\nbranch 0 2 0 0\npartition a 6\ndone 2 4\nend\n",
];

fn same_bytes(rt: &impl Abort, found: &[u8], wanted: &[u8]) {
    assert_eq!(rt; found, wanted);
}

fn same_text(rt: &impl Abort, found: &str, wanted: &str) {
    assert_eq!(rt; found, wanted);
}

fn same_number(rt: &impl Abort, found: u64, wanted: u64) {
    assert_eq!(rt; found, wanted);
}

/// A volume with these files, of which calls with these numbers fail.
fn volume_of(alloc: Global, files: &[(&str, &[u8])], fails: &[u64]) -> Result<MemVolume, Fail> {
    let fails = Vec::from_slice(alloc, fails)?;
    let mut volume = MemVolume::new(alloc, fails);
    for (name, bytes) in files {
        volume.put(name, bytes)?;
    }
    Ok(volume)
}

fn is_written_as(rt: &impl Abort, state: &State, wanted: &[u8]) -> Result<(), Fail>
    requires { Proper state.now }
{
    let text = write_state(state)?;
    same_bytes(rt, text.as_slice(), wanted);
    Ok(())
}

/// Loads the files, and compares what their state is written as, the number of changes and the version.
fn loaded(
    rt: &impl Abort,
    alloc: Global,
    files: &[(&str, &[u8])],
    wanted: &[u8],
    deltas: u64,
    version: u8,
) -> Result<(), Fail> {
    let mut volume = volume_of(alloc, files, &[])?;
    let loaded = load(alloc, &mut volume, "j1")?;
    same_number(rt, loaded.deltas, deltas);
    same_number(rt, loaded.version as u64, version as u64);
    match &loaded.state {
        Some(state) => is_written_as(rt, state, wanted),
        None => Err(Fail::from("there is no state")),
    }
}

/// Loads the files, of which this one is to blame.
fn blamed(
    rt: &impl Abort,
    alloc: Global,
    files: &[(&str, &[u8])],
    wanted: &str,
) -> Result<(), Fail> {
    let mut volume = volume_of(alloc, files, &[])?;
    match load(alloc, &mut volume, "j1") {
        Ok(_) => Err(Fail::from("damage is loaded")),
        Err(LoadFault::Damaged { name }) => {
            same_text(rt, name.as_str(), wanted);
            Ok(())
        }
        Err(fault) => Err(Fail::from(fault)),
    }
}

/// Loads the files where this call fails.
fn failing(alloc: Global, files: &[(&str, &[u8])], call: u64) -> Result<(), Fail> {
    let mut volume = volume_of(alloc, files, &[call])?;
    match load(alloc, &mut volume, "j1") {
        Err(LoadFault::Failed) => Ok(()),
        Err(fault) => Err(Fail::from(fault)),
        Ok(_) => Err(Fail::from("a failure is loaded")),
    }
}

#[test]
fn nothing_is_kept(rt: HostRuntime) -> Result<(), Fail> {
    let mut volume = volume_of(rt.alloc(), &[], &[])?;
    let loaded = load(rt.alloc(), &mut volume, "j1")?;
    assert!(&rt; loaded.state.is_none());
    same_number(&rt, loaded.deltas, 0);
    same_number(&rt, loaded.version as u64, 2);
    Ok(())
}

#[test]
fn a_state_is_loaded(rt: HostRuntime) -> Result<(), Fail> {
    loaded(&rt, rt.alloc(), &[(STATE, BASE)], BASE, 0, 2)
}

#[test]
fn changes_are_loaded(rt: HostRuntime) -> Result<(), Fail> {
    let files = [
        (STATE, BASE),
        (SECOND, CHANGE_2),
        (THIRD, CHANGE_3),
        (FOURTH, CHANGE_4),
    ];
    loaded(&rt, rt.alloc(), &files[..2], AFTER_2, 1, 2)?;
    loaded(&rt, rt.alloc(), &files, AFTER_4, 3, 2)
}

#[test]
fn the_first_version_is_loaded(rt: HostRuntime) -> Result<(), Fail> {
    let files = [(STATE, OLD_BASE), (SECOND, OLD_CHANGE)];
    loaded(&rt, rt.alloc(), &files, OLD_AFTER, 1, 1)
}

#[test]
fn a_damaged_state_is_blamed(rt: HostRuntime) -> Result<(), Fail> {
    let text: &[u8] = b"gobblin-state 2\nrun 1\n";
    blamed(&rt, rt.alloc(), &[(STATE, text), (SECOND, CHANGE_2)], STATE)?;
    blamed(&rt, rt.alloc(), &[(STATE, SPOILT)], STATE)
}

#[test]
fn a_change_without_a_state_is_blamed(rt: HostRuntime) -> Result<(), Fail> {
    blamed(
        &rt,
        rt.alloc(),
        &[(SECOND, CHANGE_2), (THIRD, CHANGE_3)],
        SECOND,
    )
}

#[test]
fn a_change_under_another_name_is_blamed(rt: HostRuntime) -> Result<(), Fail> {
    blamed(&rt, rt.alloc(), &[(STATE, BASE), (THIRD, CHANGE_2)], THIRD)?;
    blamed(
        &rt,
        rt.alloc(),
        &[(STATE, BASE), ("j1/delta/2", CHANGE_2)],
        "j1/delta/2",
    )
}

#[test]
fn a_later_change_is_blamed(rt: HostRuntime) -> Result<(), Fail> {
    let files = [
        (STATE, BASE),
        (SECOND, CHANGE_2),
        (THIRD, CHANGE_2),
        (FOURTH, CHANGE_4),
    ];
    blamed(&rt, rt.alloc(), &files, THIRD)?;
    // One between them is gone.
    let files = [(STATE, BASE), (SECOND, CHANGE_2), (FOURTH, CHANGE_4)];
    blamed(&rt, rt.alloc(), &files, FOURTH)?;
    blamed(&rt, rt.alloc(), &[(STATE, BASE), (THIRD, CHANGE_3)], THIRD)
}

#[test]
fn a_change_of_the_other_version_is_blamed(rt: HostRuntime) -> Result<(), Fail> {
    let files = [(STATE, OLD_BASE), (SECOND, NEW_CHANGE)];
    blamed(&rt, rt.alloc(), &files, SECOND)?;
    let files = [(STATE, OLD_AFTER), (THIRD, OLD_CHANGE_3)];
    blamed(&rt, rt.alloc(), &files, THIRD)
}

#[test]
fn what_is_no_change_is_blamed(rt: HostRuntime) -> Result<(), Fail> {
    for text in NO_CHANGES {
        blamed(&rt, rt.alloc(), &[(STATE, BASE), (SECOND, text)], SECOND)?;
    }
    Ok(())
}

#[test]
fn a_volume_that_fails_is_told(rt: HostRuntime) -> Result<(), Fail> {
    let files = [(STATE, BASE), (SECOND, CHANGE_2), (THIRD, CHANGE_3)];
    for call in 0..4 {
        failing(rt.alloc(), &files, call)?;
    }
    Ok(())
}
