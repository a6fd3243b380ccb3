//! The same calls on a volume in memory and on a real folder: the same answers, and the same names and bytes after
//! each call.

ghost use Rattle.std.specs.Prelude.{IsSome, IsTrue, IfSome};
ghost use Rattle.gob_device.specs.Names.{IsPathname};

use crate::is_pathname;
use crate::room::{at, room};
use gob_plan::Text;
use gob_volume::{DirVolume, MemVolume, ReadFault, Volume};
use std::alloc::Global;
use std::fs;

#[derive(Clone, Copy)]
enum Step<'a> {
    Create(&'a str),
    Append(&'a str, &'a str),
    Sync(&'a str),
    Rename(&'a str, &'a str),
    Remove(&'a str),
    Read(&'a str),
    ReadAt(&'a str, u64, usize),
    Size(&'a str),
    Names(&'a str),
}

use Step::{Append, Create, Names, Read, ReadAt, Remove, Rename, Size, Sync};

const STEPS: [Step<'static>; 46] = [
    Names(""),
    Names("j/"),
    Read("j/a"),
    ReadAt("j/a", 0, 4),
    Size("j/a"),
    Remove("j/a"),
    Create("j/a"),
    Read("j/a"),
    Append("j/a", "one\n"),
    Append("j/a", ""),
    Size("j/a"),
    Append("j/a", "two\n"),
    Read("j/a"),
    Sync("j/a"),
    Sync("j/a"),
    ReadAt("j/a", 0, 4),
    ReadAt("j/a", 6, 4),
    ReadAt("j/a", 8, 4),
    ReadAt("j/a", 9, 4),
    ReadAt("j/a", 9223372036854775807, 4),
    ReadAt("j/a", 18446744073709551615, 4),
    ReadAt("j/a", 2, 0),
    Create("j/out/0/b%2Fc@1-2.txt"),
    Append("j/out/0/b%2Fc@1-2.txt", "x"),
    Names(""),
    Names("j"),
    Names("j/"),
    Names("j/o"),
    Names("j/out/0/"),
    Names("j/out/0/b%"),
    Names("k"),
    Names("k/l/"),
    Rename("j/a", "k/l/a"),
    Read("j/a"),
    Append("k/l/a", "three"),
    Create("j/a"),
    Rename("k/l/a", "j/a"),
    Read("j/a"),
    Create("j/a"),
    Read("j/a"),
    Create(" ..x\n\u{e9}"),
    Names(" "),
    Create("..."),
    Names("."),
    Remove("..."),
    Remove("j/out/0/b%2Fc@1-2.txt"),
];

// Whether a file is there, so that it may be changed.
fn is_there<V: Volume>(volume: &mut V, name: &str) -> bool
    requires { IsPathname name.now }
    ensures { IsTrue result → IfSome (V.disk volume.new) (λ d. IsSome (d.files name.now)) }
{
    match volume.size(name) {
        Ok(Some(_)) => true,
        _ => false,
    }
}

// What a call answered, as text.
fn answer_of<V: Volume>(
    alloc: Global,
    volume: &mut V,
    step: Step<'_>,
    into: &mut Text,
) -> Option<()> {
    match step {
        Create(name) => change(into, is_pathname(name) && volume.create(name).is_ok()),
        Append(name, more) => change(into, append(volume, name, more)),
        Sync(name) => change(into, sync(volume, name)),
        Rename(from, to) => change(into, rename(volume, from, to)),
        Remove(name) => change(into, is_pathname(name) && volume.remove(name).is_ok()),
        Read(name) => show_file(alloc, volume, name, into),
        ReadAt(name, at, len) => show_part(alloc, volume, name, at, len, into),
        Size(name) => show_size(alloc, volume, name, into),
        Names(front) => show_names(alloc, volume, front, into),
    }
}

fn change(into: &mut Text, is_done: bool) -> Option<()> {
    into.push(if is_done { "+" } else { "-" }).ok()
}

fn append<V: Volume>(volume: &mut V, name: &str, more: &str) -> bool {
    is_pathname(name) && is_there(volume, name) && volume.append(name, more.as_bytes()).is_ok()
}

fn sync<V: Volume>(volume: &mut V, name: &str) -> bool {
    is_pathname(name) && is_there(volume, name) && volume.sync(name).is_ok()
}

fn rename<V: Volume>(volume: &mut V, from: &str, to: &str) -> bool {
    is_pathname(from)
        && is_pathname(to)
        && from != to
        && is_there(volume, from)
        && volume.rename(from, to).is_ok()
}

fn show_bytes(bytes: &[u8], into: &mut Text) -> Option<()> {
    into.push(str::from_utf8(bytes).ok()?).ok()
}

fn show_number(alloc: Global, number: u64, into: &mut Text) -> Option<()> {
    into.push(number.to_string(alloc).ok()?.as_str()).ok()
}

fn show_file<V: Volume>(alloc: Global, volume: &mut V, name: &str, into: &mut Text) -> Option<()> {
    if !is_pathname(name) {
        return None;
    }
    match volume.read(alloc, name) {
        Ok(Some(bytes)) => show_bytes(bytes.as_slice(), into),
        Ok(None) => into.push("none").ok(),
        Err(ReadFault::Failed) => into.push("failed").ok(),
        Err(ReadFault::Memory) => None,
    }
}

fn show_part<V: Volume>(
    alloc: Global,
    volume: &mut V,
    name: &str,
    at: u64,
    len: usize,
    into: &mut Text,
) -> Option<()> {
    let mut buffer = vec![in alloc; b'-'; len].ok()?;
    if !is_pathname(name) {
        return None;
    }
    match volume.read_at(name, at, &mut buffer) {
        Ok(Some(n)) => {
            show_number(alloc, n as u64, into)?;
            show_bytes(&buffer[..n], into)
        }
        Ok(None) => into.push("none").ok(),
        Err(_) => into.push("failed").ok(),
    }
}

fn show_size<V: Volume>(alloc: Global, volume: &mut V, name: &str, into: &mut Text) -> Option<()> {
    if !is_pathname(name) {
        return None;
    }
    match volume.size(name) {
        Ok(Some(size)) => show_number(alloc, size, into),
        Ok(None) => into.push("none").ok(),
        Err(_) => into.push("failed").ok(),
    }
}

fn show_names<V: Volume>(
    alloc: Global,
    volume: &mut V,
    front: &str,
    into: &mut Text,
) -> Option<()> {
    let Ok(names) = volume.names(alloc, front) else {
        return into.push("failed").ok();
    };
    for name in names.iter() {
        into.push(name.as_str()).ok()?;
        into.push(",").ok()?;
    }
    Some(())
}

// Every name and what it holds.
fn show_all<V: Volume>(alloc: Global, volume: &mut V, into: &mut Text) -> Option<()> {
    for name in volume.names(alloc, "").ok()?.iter() {
        into.push(" ").ok()?;
        into.push(name.as_str()).ok()?;
        into.push("=").ok()?;
        show_file(alloc, volume, name.as_str(), into)?;
    }
    Some(())
}

// The answer to a step with what is there after it.
fn picture<V: Volume>(alloc: Global, volume: &mut V, step: Step<'_>) -> Option<Text> {
    let mut picture = Text::new(alloc);
    answer_of(alloc, volume, step, &mut picture)?;
    show_all(alloc, volume, &mut picture)?;
    Some(picture)
}

// A line for each step.
fn pictures<V: Volume>(alloc: Global, volume: &mut V) -> Option<Vec<Text>> {
    let mut pictures = Vec::new(alloc);
    for step in &STEPS {
        let picture = picture(alloc, volume, *step)?;
        pictures.push(picture).ok()?;
    }
    Some(pictures)
}

#[test]
fn a_folder_answers_as_memory_does(rt: HostRuntime) {
    let alloc = rt.alloc();
    let room = room(&rt, "agreement").expect(&rt, "a folder for the test");
    let work = at(alloc, room.as_str(), "work").expect(&rt, "no memory is left");
    let mut folder = DirVolume::new(&rt, alloc, Text::from_string(work));
    let mut memory = MemVolume::new(alloc, Vec::new(alloc));
    let wanted = pictures(alloc, &mut memory).expect(&rt, "no memory is left");
    let found = pictures(alloc, &mut folder).expect(&rt, "no memory is left");
    for (found, wanted) in found.iter().zip(wanted.iter()) {
        let (found, wanted) = (found.as_str(), wanted.as_str());
        assert!(rt;
            found == wanted,
            "{found} in the folder, {wanted} in memory"
        );
    }
    assert!(rt; found.len() == STEPS.len());
    let _ = fs::remove_dir_all(&rt, room.as_str());
}
