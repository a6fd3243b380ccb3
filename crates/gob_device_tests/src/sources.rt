//! A source in memory.

ghost use Rattle.std.specs.Prelude.{◌≡◌, ◌≢◌, ◌++◌, ◌∷◌, [], All, OnOk, IfOk};

use crate::compare::{same_bytes, same_count, same_counts, same_text, same_truth};
use gob_io::{ListFault, MemSource, Source};
use gob_plan::{Bytes, NoMemory, Text};
use std::alloc::Global;
use std::process::Abort;
use std::test::Fail;

// Adds a partition to a list of them.
fn add(
    alloc: Global,
    parts: &mut Vec<(Text, Bytes)>,
    name: &str,
    bytes: &str,
) -> Result<(), NoMemory>
    requires named { name.now ≢ [] }
    requires before { All (λ p. p.0 ≢ []) parts.old.items }
    ensures { All (λ p. p.0 ≢ []) parts.new.items }
{
    let part = (
        Text::from_str(alloc, name)?,
        Bytes::from_slice(alloc, bytes.as_bytes())?,
    );
    parts.push(part)?;
    Ok(())
}

// Two partitions, one of them given twice, and the numbers of the calls that fail, of each kind.
fn source(alloc: Global, fails: &[u64]) -> Result<MemSource, NoMemory> {
    let mut parts = Vec::new(alloc);
    add(alloc, &mut parts, "b", "old")?;
    add(alloc, &mut parts, "a", "x\ny\nz")?;
    add(alloc, &mut parts, "b", "1\n")?;
    Ok(MemSource::new(
        alloc,
        parts,
        Vec::from_slice(alloc, fails)?,
        Vec::from_slice(alloc, fails)?,
        Vec::from_slice(alloc, fails)?,
    ))
}

// Each partition with its size.
fn check_list(
    rt: &impl Abort,
    alloc: Global,
    source: &mut MemSource,
    wanted: &str,
) -> Result<(), Fail> {
    let mut found = Text::new(alloc);
    for part in source.list(alloc).ok().ok_or("no listing")?.iter() {
        found.push(part.name.as_str())?;
        found.push(" ")?;
        found.push(part.size.to_string(alloc)?.as_str())?;
        found.push(" ")?;
    }
    same_text(rt, found.as_str(), wanted);
    Ok(())
}

// How many bytes a pull of at most four gives, and that they are these.
fn check_pull(rt: &impl Abort, source: &mut MemSource, part: &str, at: u64, wanted: Option<&str>)
    requires { part.now ≢ [] }
{
    let mut buffer = [b'-'; 4];
    match (source.pull(part, at, &mut buffer), wanted) {
        (Ok(count), Some(wanted)) => same_bytes(rt, &buffer[..count], wanted),
        (answer, wanted) => same_truth(rt, answer.is_ok(), wanted.is_some()),
    }
}

// The same of a look.
fn check_look(rt: &impl Abort, source: &mut MemSource, part: &str, at: u64, wanted: Option<&str>)
    requires { part.now ≢ [] }
{
    let mut buffer = [b'-'; 4];
    match (source.look(part, at, &mut buffer), wanted) {
        (Ok(count), Some(wanted)) => same_bytes(rt, &buffer[..count], wanted),
        (answer, wanted) => same_truth(rt, answer.is_ok(), wanted.is_some()),
    }
}

/// Of equal names the last one counts, a partition grows at its end or is made, and pulls are listed.
#[test]
fn partitions_grow(rt: HostRuntime) -> Result<(), Fail> {
    let alloc = rt.alloc();
    let mut source = source(alloc, &[])?;
    check_list(&rt, alloc, &mut source, "a 5 b 2 ")?;
    source.grow("b", b"2\n")?;
    source.grow("c", b"new")?;
    check_list(&rt, alloc, &mut source, "a 5 b 4 c 3 ")?;
    check_look(&rt, &mut source, "a", 1, Some("\n\0\n\0"));
    check_pull(&rt, &mut source, "a", 1, Some("\ny\nz"));
    check_pull(&rt, &mut source, "b", 2, Some("2\n"));
    check_pull(&rt, &mut source, "absent", 0, Some(""));
    check_pulls(&rt, &source, &[("a", 1), ("b", 2), ("absent", 0)]);
    same_counts(&rt, (source.fault_count(), source.short_count()), (0, 0));
    Ok(())
}

fn check_pulls(rt: &impl Abort, source: &MemSource, wanted: &[(&str, u64)]) {
    let found = source.pull_list();
    same_count(rt, Some(found.len()), Some(wanted.len()));
    for (pull, (part, at)) in found.iter().zip(wanted.iter()) {
        same_text(rt, pull.part.as_str(), part);
        same_counts(rt, (pull.at, pull.len), (*at, 4));
    }
}

/// The second call of each kind fails, and a pull that fails isn't listed.
#[test]
fn the_second_calls_fail(rt: HostRuntime) -> Result<(), Fail> {
    let alloc = rt.alloc();
    let mut source = source(alloc, &[1])?;
    check_list(&rt, alloc, &mut source, "a 5 b 2 ")?;
    same_truth(
        &rt,
        matches!(source.list(alloc), Err(ListFault::Failed)),
        true,
    );
    check_look(&rt, &mut source, "b", 0, Some("\0\n"));
    check_look(&rt, &mut source, "b", 0, None);
    check_pull(&rt, &mut source, "b", 0, Some("1\n"));
    check_pull(&rt, &mut source, "b", 0, None);
    check_pull(&rt, &mut source, "b", 1, Some("\n"));
    check_pulls(&rt, &source, &[("b", 0), ("b", 1)]);
    same_counts(&rt, (source.fault_count(), source.short_count()), (3, 0));
    Ok(())
}
