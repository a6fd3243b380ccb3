//! The same calls on a source in memory and on a real folder.

use crate::room::{at, room};
use gob_folders::ReadFolder;
use gob_io::{DirSource, ListFault, MemSource, Source};
use gob_plan::Text;
use std::alloc::Global;
use std::{fs, io};

const PARTS: [(&str, &str); 4] = [
    (" odd\u{e9}\n", "x"),
    ("a.log", "one\ntwo\nhalf"),
    ("web/1/b.log", ""),
    ("web0", "\n\n"),
];

const LOOKS: [(&str, u64, usize); 8] = [
    ("a.log", 0, 12),
    ("a.log", 3, 4),
    ("a.log", 12, 4),
    ("a.log", 18446744073709551615, 4),
    ("web/1/b.log", 0, 4),
    ("web0", 1, 4),
    ("absent", 0, 4),
    ("web/absent", 0, 0),
];

fn memory(alloc: Global) -> Option<MemSource> {
    let none = Vec::new(alloc);
    let mut source = MemSource::new(
        alloc,
        none,
        Vec::new(alloc),
        Vec::new(alloc),
        Vec::new(alloc),
    );
    for (name, bytes) in PARTS {
        if !name.is_empty() {
            source.grow(name, bytes.as_bytes()).ok()?;
        }
    }
    Some(source)
}

// A folder with the parts, and with what is no part.
fn folder(rt: &HostRuntime, path: &str) -> io::Result<()> {
    let alloc = rt.alloc();
    fs::create_dir(rt, path)?;
    fs::create_dir_all(rt, at(alloc, path, "web/1")?)?;
    fs::create_dir(rt, at(alloc, path, "empty")?)?;
    for (name, bytes) in PARTS {
        fs::write(rt, at(alloc, path, name)?, bytes)?;
    }
    std::os::unix::fs::symlink(rt, "a.log", at(alloc, path, "link")?.as_str())?;
    std::os::unix::fs::symlink(rt, "web", at(alloc, path, "folder")?.as_str())
}

fn show_list<S: Source>(alloc: Global, source: &mut S, into: &mut Text) -> Option<()> {
    for part in source.list(alloc).ok()?.iter() {
        into.push(part.name.as_str()).ok()?;
        into.push(part.size.to_string(alloc).ok()?.as_str()).ok()?;
    }
    Some(())
}

fn show(n: Option<usize>, buffer: &[u8], into: &mut Text) -> Option<()> {
    match n {
        Some(n) => into.push(str::from_utf8(buffer.get(..n)?).ok()?).ok()?,
        None => into.push("failed").ok()?,
    }
    into.push(",").ok()
}

fn show_part<S: Source>(
    alloc: Global,
    source: &mut S,
    step: (&str, u64, usize),
    into: &mut Text,
) -> Option<()> {
    let (name, from, len) = step;
    if name.is_empty() {
        return None;
    }
    let mut buffer = vec![in alloc; b'-'; len].ok()?;
    let n = source.look(name, from, &mut buffer).ok();
    show(n, &buffer, into)?;
    let n = source.pull(name, from, &mut buffer).ok();
    show(n, &buffer, into)
}

fn picture<S: Source>(alloc: Global, source: &mut S) -> Option<Text> {
    let mut picture = Text::new(alloc);
    show_list(alloc, source, &mut picture)?;
    for look in LOOKS {
        show_part(alloc, source, look, &mut picture)?;
    }
    Some(picture)
}

#[test]
fn a_folder_gives_as_memory_does(rt: HostRuntime) {
    let alloc = rt.alloc();
    let room = room(&rt, "sources").expect(&rt, "a folder for the test");
    let path = at(alloc, room.as_str(), "source").expect(&rt, "no memory is left");
    folder(&rt, path.as_str()).expect(&rt, "the folder");
    let mut memory = memory(alloc).expect(&rt, "no memory is left");
    let mut source = DirSource::new(&rt, alloc, Text::from_string(path));
    let wanted = picture(alloc, &mut memory).expect(&rt, "no memory is left");
    let found = picture(alloc, &mut source).expect(&rt, "no memory is left");
    let (found, wanted) = (found.as_str(), wanted.as_str());
    assert!(rt;
        found == wanted,
        "{found} in the folder, {wanted} in memory"
    );
    let _ = fs::remove_dir_all(&rt, room.as_str());
}

// A root that isn't there, or where a link leads nowhere, and one that is a file.
#[test]
fn a_source_without_its_folder_fails(rt: HostRuntime) {
    let alloc = rt.alloc();
    let room = room(&rt, "no-source").expect(&rt, "a folder for the test");
    let link = at(alloc, room.as_str(), "link").expect(&rt, "no memory is left");
    let file = at(alloc, room.as_str(), "file").expect(&rt, "no memory is left");
    std::os::unix::fs::symlink(&rt, "nowhere", link.as_str()).expect(&rt, "a link");
    fs::write(&rt, file.as_str(), "x").expect(&rt, "a file");
    for name in ["absent", "link", "file"] {
        let path = at(alloc, room.as_str(), name).expect(&rt, "no memory is left");
        let mut source = DirSource::new(&rt, alloc, Text::from_string(path));
        assert!(rt;
            matches!(source.list(alloc), Err(ListFault::Failed)),
            "{name}"
        );
    }
    let _ = fs::remove_dir_all(&rt, room.as_str());
}

// What a read of the partition gives, after more than a table of open files has been read.
fn read_after_others(
    rt: &HostRuntime,
    folder: &mut ReadFolder<'_, HostRuntime>,
    others: u64,
) -> Option<Option<usize>> {
    let mut buffer = [0; 8];
    for number in 0..others {
        let name = number.to_string(rt.alloc()).ok()?;
        folder.read_at(name.as_str(), 0, &mut buffer).ok()?;
    }
    folder.read_at("a.log", 0, &mut buffer).ok()
}

// A partition that is replaced by a shorter file ends there; another file in its place is a failure, unless the
// partition is still open; one that is gone holds nothing.
#[test]
fn a_partition_that_is_replaced(rt: HostRuntime) {
    let alloc = rt.alloc();
    let room = room(&rt, "replaced").expect(&rt, "a folder for the test");
    let part = at(alloc, room.as_str(), "a.log").expect(&rt, "no memory is left");
    let kept = at(alloc, room.as_str(), "a.log.1").expect(&rt, "no memory is left");
    fs::write(&rt, part.as_str(), "123456").expect(&rt, "a file");
    for number in 0..64u64 {
        let name = number.to_string(alloc).expect(&rt, "no memory is left");
        let path = at(alloc, room.as_str(), name.as_str()).expect(&rt, "no memory is left");
        fs::write(&rt, path.as_str(), "x").expect(&rt, "a file");
    }
    let path = String::from_str(alloc, room.as_str()).expect(&rt, "no memory is left");
    let mut folder = ReadFolder::new(&rt, alloc, path);
    assert!(rt; read_after_others(&rt, &mut folder, 0) == Some(Some(6)));
    fs::write(&rt, part.as_str(), "123").expect(&rt, "a file");
    assert!(rt; read_after_others(&rt, &mut folder, 0) == Some(Some(3)));
    assert!(rt; read_after_others(&rt, &mut folder, 64) == Some(Some(3)));
    fs::rename(&rt, part.as_str(), kept.as_str()).expect(&rt, "another name");
    fs::write(&rt, part.as_str(), "12345678").expect(&rt, "a file");
    assert!(rt; read_after_others(&rt, &mut folder, 0) == Some(Some(3)));
    assert!(rt; read_after_others(&rt, &mut folder, 64).is_none());
    assert!(rt; folder.files().is_ok());
    assert!(rt; read_after_others(&rt, &mut folder, 0) == Some(Some(8)));
    fs::remove_file(&rt, part.as_str()).expect(&rt, "a removal");
    assert!(rt; read_after_others(&rt, &mut folder, 64) == Some(None));
    let _ = fs::remove_dir_all(&rt, room.as_str());
}
