//! What else may stand at a name than a file of its own, and names that no file can have.

use crate::calls::Call::{self, Append, Create, Names, Read, ReadAt, Remove, Rename, Size, Sync};
use crate::calls::is_answered;
use crate::room::{at, room};
use gob_folders::{KeptFolder, is_name};
use std::alloc::Global;
use std::os::unix::fs::symlink;
use std::{fs, io};

/// Each call on a name, and whether it is answered where a second name of a file stands.
fn calls(name: &str) -> [(Call<'_>, bool); 9] {
    [
        (Create(name), false),
        (Append(name, "x"), false),
        (Sync(name), true),
        (Read(name), true),
        (ReadAt(name), true),
        (Size(name), true),
        (Rename(name, "moved"), true),
        (Rename("moved", name), true),
        (Remove(name), true),
    ]
}

// Whether no call on the name is answered.
fn is_refused(alloc: Global, folder: &mut KeptFolder<'_, HostRuntime>, name: &str) -> Option<bool> {
    for (call, _) in calls(name) {
        if is_answered(alloc, folder, call)? {
            return Some(false);
        }
    }
    Some(!is_answered(alloc, folder, Rename("file", name))?)
}

// Whether the calls are answered that a second name allows.
fn is_second_name(
    alloc: Global,
    folder: &mut KeptFolder<'_, HostRuntime>,
    name: &str,
) -> Option<bool> {
    if is_answered(alloc, folder, Rename("file", name))? {
        return Some(false);
    }
    for (call, wanted) in calls(name) {
        if is_answered(alloc, folder, call)? != wanted {
            return Some(false);
        }
    }
    Some(true)
}

fn odd_folder(rt: &HostRuntime, room: &str) -> io::Result<()> {
    let alloc = rt.alloc();
    let outside = at(alloc, room, "outside")?;
    let work = at(alloc, room, "work")?;
    fs::create_dir(rt, work.as_str())?;
    fs::write(rt, outside.as_str(), "kept")?;
    fs::write(rt, at(alloc, work.as_str(), "file")?, "kept")?;
    fs::hard_link(
        rt,
        at(alloc, work.as_str(), "file")?,
        at(alloc, work.as_str(), "second")?,
    )?;
    symlink(rt, "../outside", at(alloc, work.as_str(), "link")?.as_str())?;
    symlink(
        rt,
        "nowhere",
        at(alloc, work.as_str(), "dangling")?.as_str(),
    )?;
    symlink(rt, "..", at(alloc, work.as_str(), "up")?.as_str())?;
    fs::create_dir(rt, at(alloc, work.as_str(), "folder")?)
}

#[test]
fn what_is_no_file_is_refused(rt: HostRuntime) {
    let alloc = rt.alloc();
    let room = room(&rt, "odd").expect(&rt, "a folder for the test");
    odd_folder(&rt, room.as_str()).expect(&rt, "a folder");
    let work = at(alloc, room.as_str(), "work").expect(&rt, "no memory is left");
    let mut folder = KeptFolder::new(&rt, alloc, work);
    for name in ["link", "dangling", "folder", "up/outside"] {
        assert!(rt;
            is_refused(alloc, &mut folder, name) == Some(true),
            "{name}"
        );
    }
    assert!(rt; is_second_name(alloc, &mut folder, "second") == Some(true));
    for name in ["outside", "work/file"] {
        let path = at(alloc, room.as_str(), name).expect(&rt, "no memory is left");
        let text = fs::read_to_string(&rt, path).expect(&rt, "the file is there");
        assert!(rt; text.as_str() == "kept", "{name}");
    }
    let _ = fs::remove_dir_all(&rt, room.as_str());
}

// Texts of one byte, of these lengths.
fn long(alloc: Global, len: usize) -> Option<String> {
    let mut text = String::new(alloc);
    for _ in 0..len {
        text.push('x').ok()?;
    }
    Some(text)
}

#[test]
fn names_that_no_file_can_have(rt: HostRuntime) {
    let alloc = rt.alloc();
    let room = room(&rt, "names").expect(&rt, "a folder for the test");
    let work = at(alloc, room.as_str(), "work").expect(&rt, "no memory is left");
    let mut folder = KeptFolder::new(&rt, alloc, work);
    assert!(rt; folder.create("file").is_ok());
    for name in [
        "",
        "/",
        "a//b",
        "/a",
        "a/",
        "..",
        "../outside",
        "a/../../b",
        ".",
        "a/.",
        "a\0b",
    ] {
        assert!(rt; !is_name(name), "{name}");
        assert!(rt;
            is_refused(alloc, &mut folder, name) == Some(true),
            "{name}"
        );
    }
    for (len, wanted) in [(255, true), (256, false)] {
        let name = long(alloc, len).expect(&rt, "no memory is left");
        assert!(rt; is_name(name.as_str()) == wanted);
        assert!(rt; is_answered(alloc, &mut folder, Create(name.as_str())) == Some(wanted));
    }
    for front in ["../", "/", "a//", "./", "a/../b"] {
        assert!(rt;
            is_answered(alloc, &mut folder, Names(front)) == Some(false),
            "{front}"
        );
    }
    for front in ["..", ".", "a/..", "a/b/"] {
        assert!(rt;
            is_answered(alloc, &mut folder, Names(front)) == Some(true),
            "{front}"
        );
    }
    let _ = fs::remove_dir_all(&rt, room.as_str());
}

// A name of folders of 250 bytes each.
fn deep(alloc: Global, folders: u64) -> Option<String> {
    let mut name = String::new(alloc);
    for _ in 0..folders {
        name.push_str(long(alloc, 250)?.as_str()).ok()?;
        name.push('/').ok()?;
    }
    name.push('a').ok()?;
    Some(name)
}

// The system takes no path of more than 4,095 bytes.
#[test]
fn a_path_that_is_too_long(rt: HostRuntime) {
    let alloc = rt.alloc();
    let room = room(&rt, "deep").expect(&rt, "a folder for the test");
    let work = at(alloc, room.as_str(), "work").expect(&rt, "no memory is left");
    let mut folder = KeptFolder::new(&rt, alloc, work);
    for (folders, wanted) in [(15, true), (17, false)] {
        let name = deep(alloc, folders).expect(&rt, "no memory is left");
        assert!(rt; is_name(name.as_str()));
        assert!(rt; is_answered(alloc, &mut folder, Create(name.as_str())) == Some(wanted));
        assert!(rt; is_answered(alloc, &mut folder, Read(name.as_str())) == Some(wanted));
    }
    let _ = fs::remove_dir_all(&rt, room.as_str());
}

fn create(alloc: Global, folder: &mut KeptFolder<'_, HostRuntime>, number: u64) -> Option<()> {
    let name = number.to_string(alloc).ok()?;
    folder.create(name.as_str()).ok()
}

fn append(
    alloc: Global,
    folder: &mut KeptFolder<'_, HostRuntime>,
    number: u64,
    piece: &str,
) -> Option<()> {
    let name = number.to_string(alloc).ok()?;
    folder.append(name.as_str(), piece.as_bytes()).ok()
}

// Whether the file holds both pieces.
fn holds_both(
    alloc: Global,
    folder: &mut KeptFolder<'_, HostRuntime>,
    number: u64,
) -> Option<bool> {
    let name = number.to_string(alloc).ok()?;
    let bytes = folder.read(alloc, name.as_str()).ok()??;
    Some(bytes.as_slice() == b"onetwo".as_slice())
}

// Appends to this many files in turn, and whether each then holds both pieces.
fn is_kept(alloc: Global, folder: &mut KeptFolder<'_, HostRuntime>, files: u64) -> Option<bool> {
    for number in 0..files {
        create(alloc, folder, number)?;
        append(alloc, folder, number, "one")?;
    }
    for number in 0..files {
        append(alloc, folder, number, "two")?;
    }
    for number in 0..files {
        if !holds_both(alloc, folder, number)? {
            return Some(false);
        }
    }
    Some(true)
}

#[test]
fn more_files_than_are_kept_open(rt: HostRuntime) {
    let alloc = rt.alloc();
    let room = room(&rt, "open").expect(&rt, "a folder for the test");
    let work = at(alloc, room.as_str(), "work").expect(&rt, "no memory is left");
    let mut folder = KeptFolder::new(&rt, alloc, work);
    assert!(rt; is_kept(alloc, &mut folder, 100) == Some(true));
    let _ = fs::remove_dir_all(&rt, room.as_str());
}
