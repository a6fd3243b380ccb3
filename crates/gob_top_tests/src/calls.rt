//! Calls over devices in memory: what each finds, and what it is to answer and to leave.

use crate::compare::{same_number, same_text, same_truth};
use crate::files::{File, as_text, check_files, joined, volume_of};
use gob_io::{MemSink, MemSource, Pulled};
use gob_top::gobblin;
use gob_volume::MemVolume;
use std::alloc::Global;
use std::process::Abort;
use std::test::Fail;

/// A partition and its bytes.
pub(crate) type Part = (&'static str, &'static str);

/// A pull: its partition, its offset, and how many bytes it asks for.
pub(crate) type Pull = (&'static str, u64, u64);

/// The numbers of the calls that fail, of each kind of call of the source, and of all calls of the volume and the sink.
#[derive(Clone, Copy)]
pub(crate) struct Fails<'a> {
    pub lists: &'a [u64],
    pub looks: &'a [u64],
    pub pulls: &'a [u64],
    pub volume: &'a [u64],
    pub writes: &'a [u64],
}

pub(crate) const NO_FAILS: Fails<'static> = Fails {
    lists: &[],
    looks: &[],
    pulls: &[],
    volume: &[],
    writes: &[],
};

/// What a call finds, and what it is to answer and to leave. The files that it leaves are those after a crash, which
/// adds bytes to each file that wasn't synced.
#[derive(Clone, Copy)]
pub(crate) struct Case {
    pub words: &'static [&'static str],
    pub parts: &'static [Part],
    pub files: &'static [File],
    pub fails: Fails<'static>,
    pub status: u8,
    pub text: &'static [&'static str],
    pub pulls: &'static [Pull],
    pub left: &'static [File],
}

/// The devices of a call, and what it answered.
#[derive(Drop)]
pub(crate) struct Called {
    pub source: MemSource,
    pub volume: MemVolume,
    pub out: MemSink,
    pub status: u8,
}

fn grow(source: &mut MemSource, part: Part) -> Result<(), Fail> {
    let (name, bytes) = part;
    if !name.is_empty() {
        source.grow(name, bytes.as_bytes())?;
    }
    Ok(())
}

/// A source of these partitions that fails these calls.
pub(crate) fn source_of(
    alloc: Global,
    parts: &[Part],
    fails: &Fails<'_>,
) -> Result<MemSource, Fail> {
    let lists = Vec::from_slice(alloc, fails.lists)?;
    let looks = Vec::from_slice(alloc, fails.looks)?;
    let pulls = Vec::from_slice(alloc, fails.pulls)?;
    let mut source = MemSource::new(alloc, Vec::new(alloc), lists, looks, pulls);
    for i in 0..parts.len() {
        grow(&mut source, parts[i])?;
    }
    Ok(source)
}

fn sink_of(alloc: Global, fails: &[u64]) -> Result<MemSink, Fail> {
    let fails = Vec::from_slice(alloc, fails)?;
    Ok(MemSink::new(alloc, fails))
}

fn words_of(alloc: Global, words: &[&str]) -> Result<Vec<String>, Fail> {
    let mut owned = Vec::new(alloc);
    for i in 0..words.len() {
        owned.push(String::from_str(alloc, words[i])?)?;
    }
    Ok(owned)
}

/// Makes the call.
pub(crate) fn make_call(alloc: Global, case: &Case, fails: &Fails<'_>) -> Result<Called, Fail> {
    let words = words_of(alloc, case.words)?;
    let mut source = source_of(alloc, case.parts, fails)?;
    let mut volume = volume_of(alloc, case.files, fails.volume)?;
    let mut out = sink_of(alloc, fails.writes)?;
    let status = gobblin(alloc, words.as_slice(), &mut source, &mut volume, &mut out);
    Ok(Called {
        source,
        volume,
        out,
        status,
    })
}

/// Makes a call of these words over devices that other calls have left. A second write would fail.
pub(crate) fn call_again(
    alloc: Global,
    words: &[&str],
    source: &mut MemSource,
    volume: &mut MemVolume,
) -> Result<(u64, MemSink), Fail> {
    let words = words_of(alloc, words)?;
    let mut out = sink_of(alloc, &[1])?;
    let status = gobblin(alloc, words.as_slice(), source, volume, &mut out);
    Ok((u64::from(status), out))
}

/// The same, with what it is to answer.
pub(crate) fn check_again(
    rt: &impl Abort,
    alloc: Global,
    words: &[&str],
    source: &mut MemSource,
    volume: &mut MemVolume,
    wanted: u64,
    text: &[&str],
) -> Result<(), Fail> {
    let (status, out) = call_again(alloc, words, source, volume)?;
    check_text(rt, alloc, &out, text)?;
    same_number(rt, status, wanted);
    Ok(())
}

/// This was written, and by one write where a second one would have failed.
pub(crate) fn check_text(
    rt: &impl Abort,
    alloc: Global,
    out: &MemSink,
    pieces: &[&str],
) -> Result<(), Fail> {
    let wanted = joined(alloc, pieces)?;
    same_text(rt, as_text(out.bytes()), as_text(wanted.as_slice()));
    same_number(rt, out.fault_count(), 0);
    Ok(())
}

fn check_pull(rt: &impl Abort, found: &Pulled, wanted: Pull) {
    let (part, at, len) = wanted;
    same_text(rt, found.part.as_str(), part);
    same_number(rt, found.at, at);
    same_number(rt, found.len, len);
}

/// These pulls were answered, in this order, and no other.
pub(crate) fn check_pulls(rt: &impl Abort, found: &[Pulled], wanted: &[Pull]) {
    for i in 0..found.len() {
        if i < wanted.len() {
            check_pull(rt, &found[i], wanted[i]);
        }
    }
    same_number(rt, found.len() as u64, wanted.len() as u64);
}

fn check_devices(
    rt: &impl Abort,
    alloc: Global,
    called: &mut Called,
    case: &Case,
) -> Result<(), Fail> {
    check_pulls(rt, called.source.pull_list(), case.pulls);
    called.volume.crash(b"#")?;
    check_files(rt, alloc, &mut called.volume, case.left)
}

fn check_answer(
    rt: &impl Abort,
    alloc: Global,
    called: &mut Called,
    case: &Case,
) -> Result<(), Fail> {
    check_text(rt, alloc, &called.out, case.text)?;
    same_number(rt, u64::from(called.status), u64::from(case.status));
    check_devices(rt, alloc, called, case)
}

// A second write would fail, and take the status's place.
fn check_told(rt: &impl Abort, alloc: Global, case: &Case) -> Result<(), Fail> {
    let fails = Fails {
        writes: &[1],
        ..case.fails
    };
    let mut called = make_call(alloc, case, &fails)?;
    check_answer(rt, alloc, &mut called, case)
}

// The only write fails, and all else is as it was.
fn check_untold(rt: &impl Abort, alloc: Global, case: &Case) -> Result<(), Fail> {
    let fails = Fails {
        writes: &[0],
        ..case.fails
    };
    let mut called = make_call(alloc, case, &fails)?;
    same_truth(rt, called.out.bytes().is_empty(), true);
    same_number(rt, called.out.fault_count(), 1);
    same_number(rt, u64::from(called.status), 7);
    check_devices(rt, alloc, &mut called, case)
}

/// Makes the call, once with a sink that takes one write and once with one that takes none, and holds what it answers
/// and leaves against what it is to.
pub(crate) fn check(rt: &impl Abort, alloc: Global, case: &Case) -> Result<(), Fail> {
    check_told(rt, alloc, case)?;
    check_untold(rt, alloc, case)?;
    Ok(())
}
