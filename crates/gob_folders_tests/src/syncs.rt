//! Which calls of the file system are made for each call on a folder, and what a failure of each one gives.

use crate::calls::Call::{self, Append, Create, Names, Read, ReadAt, Remove, Rename, Size, Sync};
use crate::calls::is_answered;
use crate::recorder::Recorder;
use crate::room::{at, room};
use gob_folders::KeptFolder;
use std::alloc::Global;
use std::fs;

/// Where nothing is there yet.
const FIRST: [(Call<'static>, &str); 16] = [
    (Size("j/a"), ""),
    (
        Create("j/a"),
        " mkdir:/work sync:. mkdir:/work/j sync:/work new:/work/j/a sync:/work/j",
    ),
    (Append("j/a", "x"), " write:/work/j/a"),
    (Append("j/a", "y"), " write:/work/j/a"),
    (Sync("j/a"), " sync:/work/j/a"),
    (Sync("j/a"), ""),
    (Read("j/a"), ""),
    (Create("j/b"), " new:/work/j/b sync:/work/j"),
    (Append("j/b", "z"), " write:/work/j/b"),
    (ReadAt("j/b"), " sync:/work/j/b"),
    (
        Rename("j/b", "k/c"),
        " mkdir:/work/k sync:/work rename:/work/k/c sync:/work/k sync:/work/j",
    ),
    (Rename("k/c", "k/d"), " rename:/work/k/d sync:/work/k"),
    (
        Create("j/a"),
        " close:/work/j/a empty:/work/j/a sync:/work/j/a",
    ),
    (
        Remove("k/d"),
        " close:/work/j/b remove:/work/k/d sync:/work/k",
    ),
    (Remove("k/d"), ""),
    (Names(""), ""),
];

/// The next process on the same folder.
const SECOND: [(Call<'static>, &str); 8] = [
    (Read("j/a"), " sync:/work sync:/work/j sync:/work/j/a"),
    (Size("j/a"), ""),
    (Remove("j/l/absent"), ""),
    (Remove("k/absent"), " sync:/work/k"),
    (Append("j/a", "x"), " close:/work/j/a write:/work/j/a"),
    (Create("k/a"), " new:/work/k/a sync:/work/k"),
    (Names(""), ""),
    (Sync("j/a"), " sync:/work/j/a"),
];

/// A third, which begins by listing.
const THIRD: [(Call<'static>, &str); 3] = [
    (Names("j/"), " sync:/work sync:/work/j"),
    (Names(""), " sync:/work/k"),
    (Append("k/a", ""), ""),
];

fn run(rt: &HostRuntime, room: &str, rows: &[(Call<'_>, &str)]) -> Option<bool> {
    let alloc = rt.alloc();
    let recorder = Recorder::new(rt, room, None);
    let mut folder = KeptFolder::new(&recorder, alloc, at(alloc, room, "work").ok()?);
    for (call, wanted) in rows {
        let answered = is_answered(alloc, &mut folder, *call)?;
        let calls = recorder.calls();
        if !answered || calls.as_str() != *wanted {
            let _ = rt.eprintln(calls);
            return Some(false);
        }
    }
    Some(true)
}

#[test]
fn each_change_is_synced_once(rt: HostRuntime) {
    let room = room(&rt, "syncs").expect(&rt, "a folder for the test");
    assert!(rt; run(&rt, room.as_str(), &FIRST) == Some(true));
    assert!(rt; run(&rt, room.as_str(), &SECOND) == Some(true));
    assert!(rt; run(&rt, room.as_str(), &THIRD) == Some(true));
    let _ = fs::remove_dir_all(&rt, room.as_str());
}

/// Calls of each kind, that change something but for the last three.
const CHAIN: [Call<'static>; 11] = [
    Create("j/a"),
    Append("j/a", "x"),
    Sync("j/a"),
    Rename("j/a", "k/b"),
    Create("j/a"),
    Create("j/a"),
    Remove("j/a"),
    Append("k/b", "y"),
    Read("k/b"),
    Size("k/b"),
    Names(""),
];

const CHANGES: usize = 8;

// What is made of a call of the chain: whether one of the file system had failed before it (by a sync), and has after
// it. The call fails that it is made for, each one before is answered, and after a sync no changing call is.
fn fits(before: Option<bool>, after: Option<bool>, answered: bool, number: usize) -> bool {
    match before {
        None => answered == after.is_none(),
        Some(true) => !answered || number >= CHANGES,
        Some(false) => true,
    }
}

fn chain_fits(
    alloc: Global,
    recorder: &Recorder<'_>,
    folder: &mut KeptFolder<'_, Recorder<'_>>,
) -> Option<bool> {
    for number in 0..CHAIN.len() {
        let before = recorder.failed();
        let answered = is_answered(alloc, folder, CHAIN[number])?;
        if !fits(before, recorder.failed(), answered, number) {
            return Some(false);
        }
    }
    recorder.failed()?;
    Some(true)
}

// Runs the chain while one call of the file system fails. None: no memory, or there is no such call.
fn is_told(rt: &HostRuntime, room: &str, fails: u64) -> Option<bool> {
    let path = at(rt.alloc(), room, "work").ok()?;
    let recorder = Recorder::new(rt, room, Some(fails));
    let mut folder = KeptFolder::new(&recorder, rt.alloc(), path);
    chain_fits(rt.alloc(), &recorder, &mut folder)
}

#[test]
fn a_failure_of_each_call_is_told(rt: HostRuntime) {
    let room = room(&rt, "failures").expect(&rt, "a folder for the test");
    let work = at(rt.alloc(), room.as_str(), "work").expect(&rt, "no memory is left");
    let mut told = 0;
    for fails in 0..1000u64 {
        let _ = fs::remove_dir_all(&rt, work.as_str());
        match is_told(&rt, room.as_str(), fails) {
            Some(is_told) => assert!(rt; is_told, "call {fails}"),
            None => break,
        }
        told = fails;
    }
    assert!(rt; told > 40 && told < 999, "{told} calls");
    let _ = fs::remove_dir_all(&rt, room.as_str());
}
