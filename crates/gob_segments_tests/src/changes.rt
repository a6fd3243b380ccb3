//! Changes: what one is written as, which texts are one, and what a commit does to the files.

ghost use Rattle.std.specs.Prelude.{◌≡◌, ◌≤◌, IfOk};
ghost use Rattle.gob_ledger.specs.Delta.{StateFollows};
ghost use Rattle.gob_ledger.specs.Spelling.{Proper};

use crate::loads::{AFTER_2, BASE, CHANGE_2, CHANGE_3, OLD_BASE, OLD_CHANGE, SECOND, STATE};
use gob_plan::{Bytes, List, NoMemory, Text};
use gob_segments::{Loaded, StateChange, apply_delta, state_change, write_delta};
use gob_state::{State, Version, push_numbered, read_state};
use std::alloc::{AllocError, Global};
use std::process::Abort;
use std::test::Fail;

fn same_bytes(rt: &impl Abort, found: &[u8], wanted: &[u8]) {
    assert_eq!(rt; found, wanted);
}

fn same_text(rt: &impl Abort, found: &str, wanted: &str) {
    assert_eq!(rt; found, wanted);
}

fn same_number(rt: &impl Abort, found: u64, wanted: u64) {
    assert_eq!(rt; found, wanted);
}

fn is_true(rt: &impl Abort, found: bool) {
    assert!(rt; found);
}

/// The state that a text tells.
fn state_of(alloc: Global, text: &[u8]) -> Result<State, Fail>
    ensures { IfOk result Proper }
{
    match read_state(alloc, text)? {
        Some(state) => Ok(state),
        None => Err(Fail::from("there is no state")),
    }
}

fn copy_texts(texts: &List<Text>) -> Result<List<Text>, NoMemory>
    ensures { IfOk result (λ ts. ts ≡ texts.now) }
{
    let copied = texts.clone()?;
    Ok(copied)
}

fn copy_of(state: &State) -> Result<State, NoMemory>
    ensures { IfOk result (λ s. s ≡ state.now) }
{
    Ok(State {
        run: state.run,
        pipelines: copy_texts(&state.pipelines)?,
        totals: state.totals.copy()?,
        marks: state.marks.copy()?,
    })
}

/// What the change is written as to which a text leads from a state; nothing where it leads to none.
fn written_back(alloc: Global, before: &State, text: &[u8]) -> Result<Option<Bytes>, Fail>
    requires { Proper before.now }
{
    let same = copy_of(before)?;
    let Some(after) = apply_delta(alloc, Version::Second, same, text)? else {
        return Ok(None);
    };
    let written = write_delta(before, &after)?;
    Ok(Some(written))
}

/// Whether a text is a change behind a state. Then it is written as it was read.
fn reads_back(rt: &impl Abort, alloc: Global, before: &State, text: &[u8]) -> Result<bool, Fail>
    requires { Proper before.now }
{
    match written_back(alloc, before, text)? {
        Some(written) => {
            same_bytes(rt, written.as_slice(), text);
            Ok(true)
        }
        None => Ok(false),
    }
}

fn check_read_back(rt: &impl Abort, alloc: Global, before: &State, text: &[u8]) -> Result<(), Fail>
    requires { Proper before.now }
{
    is_true(rt, reads_back(rt, alloc, before, text)?);
    Ok(())
}

/// Half a line was whole in the second run.
const HALF: &[u8] =
    b"gobblin-state 2\nrun 1\npipelines 1\npipeline 1\nx=1\ntotals 1 0 1 0\nbranch 0 1 0 0\npartition a.log 2\n\
        done 0 2 0\nend\n";

const WHOLE: &[u8] =
    b"gobblin-delta 2\nrun 2\npipelines 0\ntotals 2 0 2 0\nbranch 0 2 0 0\npartition a.log 5\ndone 2 5 0\nend\n";

/// States, and a change behind each.
const CHANGED: [(&[u8], &[u8]); 3] = [(BASE, CHANGE_2), (AFTER_2, CHANGE_3), (HALF, WHOLE)];

fn check_change(rt: &impl Abort, alloc: Global, base: &[u8], text: &[u8]) -> Result<(), Fail> {
    let before = state_of(alloc, base)?;
    check_read_back(rt, alloc, &before, text)
}

#[test]
fn a_change_is_written_as_it_was_read(rt: HostRuntime) -> Result<(), Fail> {
    for (base, text) in CHANGED {
        check_change(&rt, rt.alloc(), base, text)?;
    }
    Ok(())
}

/// No front of a change but the whole is one.
fn fronts_are_no_changes(
    rt: &impl Abort,
    alloc: Global,
    before: &State,
    text: &[u8],
) -> Result<(), Fail>
    requires { Proper before.now }
{
    for len in 0..text.len() {
        let (front, _) = text.split_at(len);
        is_true(rt, !reads_back(rt, alloc, before, front)?);
    }
    Ok(())
}

#[test]
fn a_change_that_is_cut_is_none(rt: HostRuntime) -> Result<(), Fail> {
    for (base, text) in CHANGED {
        let before = state_of(rt.alloc(), base)?;
        fronts_are_no_changes(&rt, rt.alloc(), &before, text)?;
    }
    Ok(())
}

/// The text with another byte at a place.
fn with_byte(alloc: Global, text: &[u8], at: usize, byte: u8) -> Result<Vec<u8>, NoMemory> {
    let mut changed = Vec::from_slice(alloc, text)?;
    if at < changed.len() {
        changed[at] = byte;
    }
    Ok(changed)
}

/// How many texts with this byte in some place are changes behind the state.
fn read_with_byte(
    rt: &impl Abort,
    alloc: Global,
    before: &State,
    text: &[u8],
    byte: u8,
) -> Result<u64, Fail>
    requires { Proper before.now }
{
    let mut read = 0u64;
    for at in 0..text.len() {
        let changed = with_byte(alloc, text, at, byte)?;
        if reads_back(rt, alloc, before, changed.as_slice())? {
            read = read.saturating_add(1);
        }
    }
    Ok(read)
}

/// A byte, and how many texts with it in the place of another are changes: that of a line of a partition's ranges, or
/// of counts, tells another change, or the same where the byte stood there.
const BYTES: [u8; 8] = [b' ', b'\n', b'0', b'1', b'9', b'%', b'e', 255];

fn changed_bytes_tell_few(
    rt: &impl Abort,
    alloc: Global,
    before: &State,
    text: &[u8],
) -> Result<(), Fail>
    requires { Proper before.now }
{
    for byte in BYTES {
        let read = read_with_byte(rt, alloc, before, text, byte)?;
        is_true(rt, read < text.len() as u64);
    }
    Ok(())
}

fn check_changed_bytes(
    rt: &impl Abort,
    alloc: Global,
    base: &[u8],
    text: &[u8],
) -> Result<(), Fail> {
    let before = state_of(alloc, base)?;
    changed_bytes_tell_few(rt, alloc, &before, text)
}

#[test]
fn a_changed_byte_tells_another_change_or_none(rt: HostRuntime) -> Result<(), Fail> {
    for (base, text) in CHANGED {
        check_changed_bytes(&rt, rt.alloc(), base, text)?;
    }
    Ok(())
}

/// A change of the first version is one behind a state of one pipeline, and no front of it is.
fn is_old_change(alloc: Global, before: &State, text: &[u8]) -> Result<bool, Fail>
    requires { Proper before.now }
{
    let same = copy_of(before)?;
    let after = apply_delta(alloc, Version::First, same, text)?;
    Ok(after.is_some())
}

fn only_the_whole_is_old_change(rt: &impl Abort, alloc: Global, before: &State) -> Result<(), Fail>
    requires { Proper before.now }
{
    is_true(rt, is_old_change(alloc, before, OLD_CHANGE)?);
    for len in 0..OLD_CHANGE.len() {
        let (front, _) = OLD_CHANGE.split_at(len);
        is_true(rt, !is_old_change(alloc, before, front)?);
    }
    Ok(())
}

#[test]
fn a_change_of_the_first_version_is_whole(rt: HostRuntime) -> Result<(), Fail> {
    let before = state_of(rt.alloc(), OLD_BASE)?;
    only_the_whole_is_old_change(&rt, rt.alloc(), &before)
}

/// A state with so many done ranges, each of one byte.
fn many_done(alloc: Global, count: u64) -> Result<Vec<u8>, AllocError> {
    let mut text = Vec::new(alloc);
    text.extend_from_slice(
        b"gobblin-state 2\nrun 1\npipelines 1\npipeline 1\nx=1\ntotals 0 0 0 0\nbranch 0 0 0 0\n",
    )?;
    push_numbered(&mut text, b"partition a", &[count])?;
    for lo in 0..count {
        push_numbered(&mut text, b"done", &[lo, lo + 1, 0])?;
    }
    text.extend_from_slice(b"end\n")?;
    Ok(text)
}

/// Behind 199,999 ranges one is as short as behind none.
#[test]
fn a_change_is_as_long_as_what_changed(rt: HostRuntime) -> Result<(), Fail> {
    let text = many_done(rt.alloc(), 199_999)?;
    let before = state_of(rt.alloc(), text.as_slice())?;
    let change =
        b"gobblin-delta 2\nrun 2\npipelines 0\ntotals 1 0 1 0\nbranch 0 1 0 0\npartition a 200000\n\
            done 199999 200000 0\nend\n";
    check_read_back(&rt, rt.alloc(), &before, change)
}

/// A state after so many commits, and the change by the next one.
const MANY: &[u8] = b"gobblin-state 2\nrun 64\npipelines 0\ntotals 0 0 0 0\nbranch 0 0 0 0\nend\n";

const ONE_MORE: &[u8] =
    b"gobblin-delta 2\nrun 65\npipelines 0\ntotals 0 0 0 0\nbranch 0 0 0 0\nend\n";

const AFTER_MANY: &[u8] =
    b"gobblin-state 2\nrun 65\npipelines 0\ntotals 0 0 0 0\nbranch 0 0 0 0\nend\n";

/// The same at the end of the run number.
const LAST_BUT_ONE: &[u8] =
    b"gobblin-state 2\nrun 18446744073709551614\npipelines 0\ntotals 0 0 0 0\nbranch 0 0 0 0\nend\n";

const TO_THE_LAST: &[u8] =
    b"gobblin-delta 2\nrun 18446744073709551615\npipelines 0\ntotals 0 0 0 0\nbranch 0 0 0 0\nend\n";

const LAST: &[u8] =
    b"gobblin-state 2\nrun 18446744073709551615\npipelines 0\ntotals 0 0 0 0\nbranch 0 0 0 0\nend\n";

/// A state, how many changes led to it from a state of this version, and the change to the next state. What is
/// written then, the first and the last of the files that go, and how many changes stand.
struct Case {
    before: &'static [u8],
    deltas: u64,
    version: u8,
    change: &'static [u8],
    target: &'static str,
    bytes: &'static [u8],
    removes: u64,
    ends: [&'static str; 2],
    stand: u64,
}

const CASES: [Case; 7] = [
    Case {
        before: BASE,
        deltas: 0,
        version: 2,
        change: CHANGE_2,
        target: SECOND,
        bytes: CHANGE_2,
        removes: 0,
        ends: ["", ""],
        stand: 1,
    },
    Case {
        before: HALF,
        deltas: 1,
        version: 2,
        change: WHOLE,
        target: SECOND,
        bytes: WHOLE,
        removes: 0,
        ends: ["", ""],
        stand: 2,
    },
    // A state of the first version is written over.
    Case {
        before: BASE,
        deltas: 0,
        version: 1,
        change: CHANGE_2,
        target: STATE,
        bytes: AFTER_2,
        removes: 0,
        ends: ["", ""],
        stand: 0,
    },
    Case {
        before: BASE,
        deltas: 1,
        version: 1,
        change: CHANGE_2,
        target: STATE,
        bytes: AFTER_2,
        removes: 1,
        ends: [
            "j1/delta/00000000000000000001",
            "j1/delta/00000000000000000001",
        ],
        stand: 0,
    },
    // Behind 64 changes a state is kept whole, and no sooner.
    Case {
        before: MANY,
        deltas: 63,
        version: 2,
        change: ONE_MORE,
        target: "j1/delta/00000000000000000065",
        bytes: ONE_MORE,
        removes: 0,
        ends: ["", ""],
        stand: 64,
    },
    Case {
        before: MANY,
        deltas: 64,
        version: 2,
        change: ONE_MORE,
        target: STATE,
        bytes: AFTER_MANY,
        removes: 64,
        ends: [
            "j1/delta/00000000000000000001",
            "j1/delta/00000000000000000064",
        ],
        stand: 0,
    },
    Case {
        before: LAST_BUT_ONE,
        deltas: 2,
        version: 2,
        change: TO_THE_LAST,
        target: STATE,
        bytes: LAST,
        removes: 2,
        ends: [
            "j1/delta/18446744073709551613",
            "j1/delta/18446744073709551614",
        ],
        stand: 0,
    },
];

fn change_to(before: State, after: &State, case: &Case) -> Result<StateChange, Fail>
    requires before { Proper before }
    requires counted { case.now.deltas ≤ before.run }
    requires after { Proper after.now }
    requires follows { StateFollows before after.now }
{
    let loaded = Loaded {
        state: Some(before),
        deltas: case.deltas,
        version: case.version,
    };
    Ok(state_change("j1", &loaded, after)?)
}

fn change_behind(alloc: Global, before: State, case: &Case) -> Result<StateChange, Fail>
    requires before { Proper before }
    requires counted { case.now.deltas ≤ before.run }
{
    let same = copy_of(&before)?;
    match apply_delta(alloc, Version::Second, same, case.change)? {
        Some(after) => change_to(before, &after, case),
        None => Err(Fail::from("this is no change behind the state")),
    }
}

/// What a commit does to the files that tell a state, where the next state is that to which a change leads.
fn change_of(alloc: Global, case: &Case) -> Result<StateChange, Fail> {
    let before = state_of(alloc, case.before)?;
    if case.deltas > before.run {
        return Err(Fail::from("there are more changes than commits"));
    }
    change_behind(alloc, before, case)
}

fn name_of(name: Option<&Text>) -> &str {
    match name {
        Some(name) => name.as_str(),
        None => "",
    }
}

fn same_change(rt: &impl Abort, change: &StateChange, case: &Case) {
    same_text(rt, change.target.as_str(), case.target);
    same_bytes(rt, change.bytes.as_slice(), case.bytes);
    let removes = change.removes.as_slice();
    same_number(rt, removes.len() as u64, case.removes);
    same_text(rt, name_of(removes.first()), case.ends[0]);
    same_text(rt, name_of(removes.last()), case.ends[1]);
    same_number(rt, change.deltas, case.stand);
}

fn check_case(rt: &impl Abort, alloc: Global, case: &Case) -> Result<(), Fail> {
    let change = change_of(alloc, case)?;
    same_change(rt, &change, case);
    Ok(())
}

#[test]
fn a_commit_adds_a_change_or_keeps_the_state_whole(rt: HostRuntime) -> Result<(), Fail> {
    for case in &CASES {
        check_case(&rt, rt.alloc(), case)?;
    }
    Ok(())
}

fn first_change(alloc: Global) -> Result<StateChange, Fail> {
    let after = state_of(alloc, HALF)?;
    let loaded = Loaded {
        state: None,
        deltas: 0,
        version: 2,
    };
    Ok(state_change("j1", &loaded, &after)?)
}

fn keeps_half_whole(rt: &impl Abort, change: &StateChange) {
    same_text(rt, change.target.as_str(), STATE);
    same_bytes(rt, change.bytes.as_slice(), HALF);
    same_number(rt, change.removes.len() as u64, 0);
    same_number(rt, change.deltas, 0);
}

#[test]
fn the_first_commit_keeps_the_state_whole(rt: HostRuntime) -> Result<(), Fail> {
    let change = first_change(rt.alloc())?;
    keeps_half_whole(&rt, &change);
    Ok(())
}
