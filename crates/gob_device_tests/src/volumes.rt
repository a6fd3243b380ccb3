//! A volume in memory.

ghost use Rattle.std.specs.Prelude.{◌≡◌, IfSome, IsSome, IsTrue, OnOk};
ghost use Rattle.gob_device.specs.Names.{IsPathname};

use crate::compare::{same_bytes, same_counts, same_number, same_text, same_truth};
use gob_plan::{Failed, Text};
use gob_volume::{MemVolume, ReadFault, Volume};
use std::alloc::Global;
use std::process::Abort;
use std::test::Fail;

// Whether a file is there, so that it may be changed.
fn is_there<V: Volume>(volume: &mut V, name: &str) -> bool
    requires { IsPathname name.now }
    ensures { IsTrue result → IfSome (V.disk volume.new) (λ d. IsSome (d.files name.now)) }
{
    match volume.size(name) {
        Ok(Some(_)) => true,
        _ => false,
    }
}

// Each of these takes two calls of the volume, and is answered where both are.
fn append<V: Volume>(volume: &mut V, name: &str, more: &str) -> bool
    requires { IsPathname name.now }
{
    is_there(volume, name) && volume.append(name, more.as_bytes()).is_ok()
}

fn sync<V: Volume>(volume: &mut V, name: &str) -> bool
    requires { IsPathname name.now }
{
    is_there(volume, name) && volume.sync(name).is_ok()
}

fn rename<V: Volume>(volume: &mut V, from: &str, to: &str) -> bool
    requires from { IsPathname from.now }
    requires to { IsPathname to.now }
{
    from != to && is_there(volume, from) && volume.rename(from, to).is_ok()
}

// What a file holds.
fn check_file(
    rt: &impl Abort,
    alloc: Global,
    volume: &mut MemVolume,
    name: &str,
    wanted: &str,
) -> Result<(), Fail>
    requires { IsPathname name.now }
{
    let found = volume.read(alloc, name).ok().flatten().ok_or("no file")?;
    same_bytes(rt, found.as_slice(), wanted);
    Ok(())
}

// The names that begin so.
fn check_names(
    rt: &impl Abort,
    alloc: Global,
    volume: &mut MemVolume,
    front: &str,
    wanted: &str,
) -> Result<(), Fail> {
    let mut found = Text::new(alloc);
    for name in volume.names(alloc, front).ok().ok_or("no names")?.iter() {
        found.push(name.as_str())?;
        found.push(" ")?;
    }
    same_text(rt, found.as_str(), wanted);
    Ok(())
}

fn counts(volume: &MemVolume) -> (u64, u64) {
    (volume.fault_count(), volume.short_count())
}

/// Each call that changes a name.
#[test]
fn names_are_changed(rt: HostRuntime) -> Result<(), Fail> {
    let alloc = rt.alloc();
    let mut volume = MemVolume::new(alloc, Vec::new(alloc));
    volume.put("j/b", b"kept")?;
    same_truth(&rt, volume.create("j/a").is_ok(), true);
    same_truth(&rt, append(&mut volume, "j/a", "one"), true);
    same_truth(&rt, append(&mut volume, "j/a", "two"), true);
    same_truth(&rt, sync(&mut volume, "j/a"), true);
    check_file(&rt, alloc, &mut volume, "j/a", "onetwo")?;
    same_truth(&rt, rename(&mut volume, "j/a", "k"), true);
    check_names(&rt, alloc, &mut volume, "", "j/b k ")?;
    check_names(&rt, alloc, &mut volume, "j", "j/b ")?;
    same_truth(&rt, volume.remove("j/b").is_ok(), true);
    check_names(&rt, alloc, &mut volume, "", "k ")?;
    check_file(&rt, alloc, &mut volume, "k", "onetwo")?;
    same_counts(&rt, counts(&volume), (0, 0));
    Ok(())
}

/// Each call that reads, of a file and of none.
#[test]
fn files_are_read(rt: HostRuntime) -> Result<(), Fail> {
    let alloc = rt.alloc();
    let mut volume = MemVolume::new(alloc, Vec::new(alloc));
    let mut buffer = [b'-'; 4];
    volume.put("a", b"0123456")?;
    check_file(&rt, alloc, &mut volume, "a", "0123456")?;
    same_truth(&rt, matches!(volume.read(alloc, "b"), Ok(None)), true);
    same_number(&rt, volume.size("a").ok().flatten(), Some(7));
    same_truth(&rt, volume.size("b") == Ok(None), true);
    same_truth(
        &rt,
        volume.read_at("a", 5, &mut buffer) == Ok(Some(2)),
        true,
    );
    same_bytes(&rt, &buffer, "56--");
    same_truth(&rt, volume.read_at("b", 0, &mut buffer) == Ok(None), true);
    Ok(())
}

/// A crash keeps what was synced, and puts other bytes in place of what wasn't.
#[test]
fn a_crash_takes_loose_bytes(rt: HostRuntime) -> Result<(), Fail> {
    let alloc = rt.alloc();
    let mut volume = MemVolume::new(alloc, Vec::new(alloc));
    volume.put("put", b"whole")?;
    volume.put("loose", b"kept")?;
    same_truth(&rt, append(&mut volume, "loose", "lost"), true);
    same_truth(&rt, volume.create("synced").is_ok(), true);
    same_truth(&rt, append(&mut volume, "synced", "kept"), true);
    same_truth(&rt, sync(&mut volume, "synced"), true);
    volume.crash(b"!")?;
    check_file(&rt, alloc, &mut volume, "put", "whole")?;
    check_file(&rt, alloc, &mut volume, "loose", "kept!")?;
    check_file(&rt, alloc, &mut volume, "synced", "kept")?;
    Ok(())
}

/// A planned failure leaves names as they were, and the file of an append or a sync dirty.
#[test]
fn calls_fail_by_their_numbers(rt: HostRuntime) -> Result<(), Fail> {
    let alloc = rt.alloc();
    let mut volume = MemVolume::new(alloc, Vec::from_slice(alloc, &[0, 2, 4, 5])?);
    volume.put("a", b"kept")?;
    same_truth(&rt, volume.create("b") == Err(Failed), true);
    same_truth(&rt, append(&mut volume, "a", "more"), false);
    same_truth(&rt, sync(&mut volume, "a"), false);
    same_truth(&rt, volume.remove("a") == Err(Failed), true);
    check_names(&rt, alloc, &mut volume, "", "a ")?;
    check_file(&rt, alloc, &mut volume, "a", "kept")?;
    volume.crash(b"!")?;
    check_file(&rt, alloc, &mut volume, "a", "kept!")?;
    same_counts(&rt, counts(&volume), (4, 0));
    Ok(())
}

/// Behind a fuse every call fails, until a crash.
#[test]
fn a_fuse_stops_every_call(rt: HostRuntime) -> Result<(), Fail> {
    let alloc = rt.alloc();
    let mut volume = MemVolume::new(alloc, Vec::new(alloc));
    let mut buffer = [0; 4];
    volume.fuse(2);
    same_truth(&rt, volume.create("a").is_ok(), true);
    check_file(&rt, alloc, &mut volume, "a", "")?;
    same_truth(&rt, volume.create("b").is_ok(), true);
    same_truth(&rt, volume.create("c") == Err(Failed), true);
    same_truth(&rt, volume.size("a") == Err(Failed), true);
    same_truth(
        &rt,
        volume.read_at("a", 0, &mut buffer) == Err(Failed),
        true,
    );
    same_truth(
        &rt,
        matches!(volume.read(alloc, "a"), Err(ReadFault::Failed)),
        true,
    );
    same_truth(
        &rt,
        matches!(volume.names(alloc, ""), Err(ReadFault::Failed)),
        true,
    );
    same_counts(&rt, counts(&volume), (5, 0));
    volume.crash(b"")?;
    check_names(&rt, alloc, &mut volume, "", "a b ")?;
    Ok(())
}
