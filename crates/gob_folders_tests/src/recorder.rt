//! The machine's file system, with a list of the calls that change something or sync it.

ghost use Rattle.std.specs.Prelude.{◌≤◌, length, IfOk};

use gob_folders::{Access, FileSystem, Node};
use std::alloc::Global;
use std::cell::{Cell, RefCell};
use std::fs::{File, ReadDir};
use std::io::{self, ErrorKind};

/// Lists calls, and fails the one with this number, counted from 0.
#[derive(Drop)]
pub struct Recorder<'a> {
    host: &'a HostRuntime,
    alloc: Global,
    // Paths are listed from here on.
    base: usize,
    calls: RefCell<String>,
    count: Cell<u64>,
    fails: Option<u64>,
    failed: Cell<Option<bool>>,
}

/// An open file and the path that it was opened by.
#[derive(Drop)]
pub struct Recorded {
    file: File,
    path: String,
}

impl<'a> Recorder<'a> {
    pub fn new(host: &'a HostRuntime, base: &str, fails: Option<u64>) -> Self {
        Recorder {
            host,
            alloc: host.alloc(),
            base: base.len(),
            calls: RefCell::new(String::new(host.alloc())),
            count: Cell::new(0),
            fails,
            failed: Cell::new(None),
        }
    }

    /// Whether the call that failed was a sync; None where none has failed.
    pub fn failed(&self) -> Option<bool> {
        self.failed.get()
    }

    /// The calls since the last look, each with a space before it.
    pub fn calls(&self) -> String {
        match self.calls.try_replace(String::new(self.alloc)) {
            Ok(calls) => calls,
            Err(_) => String::new(self.alloc),
        }
    }

    // Lists a call that changes something or syncs it.
    fn note(&self, call: &str, path: &str) -> io::Result<()> {
        let shown = match path.get(self.base..) {
            Some("") => ".",
            Some(rest) => rest,
            None => path,
        };
        if let Ok(mut calls) = self.calls.try_borrow_mut() {
            for part in [" ", call, ":", shown] {
                calls.push_str(part)?;
            }
        }
        self.count(call == "sync")
    }

    // Counts a call, and fails the one that is to fail.
    fn count(&self, is_sync: bool) -> io::Result<()> {
        let number = self.count.get();
        self.count.set(number.saturating_add(1));
        if self.fails == Some(number) {
            self.failed.set(Some(is_sync));
            Err(io::Error::from(ErrorKind::Other))
        } else {
            Ok(())
        }
    }
}

impl<'a> FileSystem for Recorder<'a> {
    type File = Recorded;

    type Listing = ReadDir;

    fn node_at(&self, path: &str) -> io::Result<Node> {
        self.count(false)?;
        self.host.node_at(path)
    }

    fn node_behind(&self, path: &str) -> io::Result<Node> {
        self.count(false)?;
        self.host.node_behind(path)
    }

    fn node_of(&self, file: &Recorded) -> io::Result<Node> {
        self.count(false)?;
        self.host.node_of(&file.file)
    }

    fn open(&self, path: &str, access: Access) -> io::Result<Recorded> {
        if access == Access::New {
            self.note("new", path)?;
        } else {
            self.count(false)?;
        }
        Ok(Recorded {
            file: self.host.open(path, access)?,
            path: String::from_str(self.alloc, path)?,
        })
    }

    fn read_at(&self, file: &Recorded, at: u64, into: &mut [u8]) -> io::Result<usize> {
        self.count(false)?;
        self.host.read_at(&file.file, at, into)
    }

    fn write(&self, file: &mut Recorded, bytes: &[u8]) -> io::Result<usize> {
        self.note("write", file.path.as_str())?;
        self.host.write(&mut file.file, bytes)
    }

    fn empty(&self, file: &Recorded) -> io::Result<()> {
        self.note("empty", file.path.as_str())?;
        self.host.empty(&file.file)
    }

    fn sync(&self, file: &Recorded) -> io::Result<()> {
        self.note("sync", file.path.as_str())?;
        self.host.sync(&file.file)
    }

    fn close(&self, file: Recorded) -> io::Result<()> {
        self.note("close", file.path.as_str())?;
        self.host.close(file.file)
    }

    fn make_folder(&self, path: &str) -> io::Result<()> {
        self.note("mkdir", path)?;
        self.host.make_folder(path)
    }

    fn rename(&self, from: &str, to: &str) -> io::Result<()> {
        self.note("rename", to)?;
        self.host.rename(from, to)
    }

    fn remove(&self, path: &str) -> io::Result<()> {
        self.note("remove", path)?;
        self.host.remove(path)
    }

    fn list(&self, alloc: Global, path: &str) -> io::Result<ReadDir> {
        self.count(false)?;
        self.host.list(alloc, path)
    }

    fn next_name(&self, alloc: Global, listing: &mut ReadDir) -> io::Result<Option<String>> {
        self.count(false)?;
        self.host.next_name(alloc, listing)
    }
}
