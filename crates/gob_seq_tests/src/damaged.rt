//! Sequences that can't be done.

use crate::compare::{same_bytes, same_text, same_truth};
use crate::files::{File, all_files, volume_of};
use gob_plan::Text;
use gob_seq::{SettleFault, settle};
use gob_volume::Volume;
use std::alloc::Global;
use std::process::Abort;
use std::test::Fail;

const TWO_MOVES: &[u8] =
    b"gobblin-sequence 1\nmove j/stage/a j/out/a\nmove j/stage/b j/out/b\nend 2\n";

/// Files of which one is damaged, and its name.
const DAMAGED: [(&[File], &str); 6] = [
    // The sequence isn't one, or not one of this job.
    (&[("j/seq", b"")], "j/seq"),
    (&[("j/seq", b"gobblin-sequence 1\nend 1\n")], "j/seq"),
    (
        &[
            ("j/seq", b"gobblin-sequence 1\nremove k/state\nend 1\n"),
            ("k/state", b"1"),
        ],
        "j/seq",
    ),
    // Of a move neither name is there.
    (&[("j/seq", TWO_MOVES)], "j/stage/a"),
    (&[("j/seq", TWO_MOVES), ("j/stage/a", b"1")], "j/stage/b"),
    (
        &[("j/out/a", b"1"), ("j/seq", TWO_MOVES), ("k/stage/b", b"2")],
        "j/stage/b",
    ),
];

/// Files that can be settled, whether a sequence was open, and what is left.
const SOUND: [(&[File], bool, &[u8]); 5] = [
    (&[], false, b""),
    (
        &[("j/stage/a", b"1"), ("j/stage/seq", TWO_MOVES)],
        false,
        b"",
    ),
    (
        &[
            ("j/seq", TWO_MOVES),
            ("j/stage/a", b"1"),
            ("j/stage/b", b"2"),
        ],
        true,
        b"j/out/a=1 j/out/b=2 ",
    ),
    // A move that was done already.
    (
        &[("j/out/a", b"1"), ("j/seq", TWO_MOVES), ("j/stage/b", b"2")],
        true,
        b"j/out/a=1 j/out/b=2 ",
    ),
    // A removal of what is gone.
    (
        &[("j/seq", b"gobblin-sequence 1\nremove j/out/a\nend 1\n")],
        true,
        b"",
    ),
];

/// The name of what is damaged.
fn damage<V: Volume>(alloc: Global, volume: &mut V) -> Result<Text, Fail> {
    match settle(alloc, volume, "j") {
        Err(SettleFault::Damaged { name }) => Ok(name),
        _ => Err(Fail::from("nothing is damaged")),
    }
}

fn check_damaged(rt: &impl Abort, alloc: Global, files: &[File], wanted: &str) -> Result<(), Fail> {
    let mut volume = volume_of(alloc, files)?;
    let before = all_files(alloc, &mut volume)?;
    let name = damage(alloc, &mut volume)?;
    same_text(rt, name.as_str(), wanted);
    let after = all_files(alloc, &mut volume)?;
    same_bytes(rt, &after, &before);
    Ok(())
}

/// The file to blame is named, and nothing is changed.
#[test]
fn damage_names_the_file(rt: HostRuntime) -> Result<(), Fail> {
    for (files, wanted) in DAMAGED {
        check_damaged(&rt, rt.alloc(), files, wanted)?;
    }
    Ok(())
}

/// Each front of a text but the whole, as an open sequence.
fn check_cuts(rt: &impl Abort, alloc: Global, text: &'static [u8]) -> Result<(), Fail> {
    for len in 0..text.len() {
        let (front, _) = text.split_at(len);
        check_damaged(
            rt,
            alloc,
            &[("j/seq", front), ("j/stage/a", b"1"), ("j/stage/b", b"2")],
            "j/seq",
        )?;
    }
    Ok(())
}

/// Nothing is done of a sequence that lacks its end, though all that it moves is there.
#[test]
fn a_sequence_that_is_cut_is_damaged(rt: HostRuntime) -> Result<(), Fail> {
    check_cuts(&rt, rt.alloc(), TWO_MOVES)
}

fn was_open<V: Volume>(alloc: Global, volume: &mut V) -> Result<bool, Fail> {
    match settle(alloc, volume, "j") {
        Ok(settled) => Ok(settled.was_open),
        Err(_) => Err(Fail::from("it isn't settled")),
    }
}

fn check_sound(
    rt: &impl Abort,
    alloc: Global,
    files: &[File],
    open: bool,
    wanted: &[u8],
) -> Result<(), Fail> {
    let mut volume = volume_of(alloc, files)?;
    same_truth(rt, was_open(alloc, &mut volume)?, open);
    let after = all_files(alloc, &mut volume)?;
    same_bytes(rt, &after, wanted);
    Ok(())
}

#[test]
fn what_a_stopped_run_left_is_settled(rt: HostRuntime) -> Result<(), Fail> {
    for (files, open, wanted) in SOUND {
        check_sound(&rt, rt.alloc(), files, open, wanted)?;
    }
    Ok(())
}
