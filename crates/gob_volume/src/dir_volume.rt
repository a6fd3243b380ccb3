//! The edge over a real folder that outlasts the run.

ghost use Rattle.std.specs.Prelude.{◌≡◌, ◌≤◌, length, IfOk, IfSome, IsErr};
ghost use Rattle.gob_device.specs.Causes.{CountsFailure};

use crate::{ReadFault, Volume};
use gob_folders::{FileSystem, FolderFault, KeptFolder};
use gob_plan::{Failed, Text};
use std::alloc::Global;
use std::collections::BTreeMap;

/// Named files below a folder. What a call answers lasts, and what is read was synced before: `KeptFolder` says how.
/// It tells nothing of what the files hold. A name that no file can have is a failure of the call, and so is a name
/// at which something else stands than a regular file. Want of memory is a failure where the call doesn't tell the
/// two apart.
#[derive(Drop)]
pub struct DirVolume<'a, H: FileSystem> {
    folder: KeptFolder<'a, H>,
    faults: u64,
}

impl<'a, H: FileSystem> DirVolume<'a, H> {
    pub fn new(fs: &'a H, alloc: Global, root: Text) -> Self
        ensures { result.faults ≡ 0 }
    {
        DirVolume {
            folder: KeptFolder::new(fs, alloc, root.into_string()),
            faults: 0,
        }
    }

    // The answer to a call that doesn't tell want of memory from failure, counted.
    fn counted<T: Drop>(&mut self, answer: Result<T, FolderFault>) -> Result<T, Failed>
        ensures cause { CountsFailure self.old.faults self.new.faults (IsErr result) }
        ensures ok { IfOk result (λ value. answer ≡ Ok value) }
    {
        match answer {
            Ok(value) => Ok(value),
            Err(_) => {
                self.faults = self.faults.saturating_add(1);
                Err(Failed)
            }
        }
    }

    // The answer to a call that tells them apart, counted.
    fn counted_read<T: Drop>(&mut self, answer: Result<T, FolderFault>) -> Result<T, ReadFault>
        ensures cause { CountsFailure self.old.faults self.new.faults (result ≡ Err ReadFault.Failed) }
    {
        match answer {
            Err(FolderFault::Memory) => Err(ReadFault::Memory),
            answer => self.counted(answer).map_err(|_| ReadFault::Failed),
        }
    }
}

impl<'a, H: FileSystem> Volume for DirVolume<'a, H> {
    ghost use Rattle.std.specs.declared.option.Option.TheVariants.{None};

    ghost disk = { λ v. None };

    ghost faults = { λ v. v.faults };

    fn create(&mut self, name: &str) -> Result<(), Failed> {
        let done = self.folder.create(name);
        self.counted(done)
    }

    fn append(&mut self, name: &str, bytes: &[u8]) -> Result<(), Failed> {
        let done = self.folder.append(name, bytes);
        self.counted(done)
    }

    fn sync(&mut self, name: &str) -> Result<(), Failed> {
        let done = self.folder.sync(name);
        self.counted(done)
    }

    fn rename(&mut self, from: &str, to: &str) -> Result<(), Failed> {
        let done = self.folder.rename(from, to);
        self.counted(done)
    }

    fn remove(&mut self, name: &str) -> Result<(), Failed> {
        let done = self.folder.remove(name);
        self.counted(done)
    }

    fn read(&mut self, alloc: Global, name: &str) -> Result<Option<Vec<u8>>, ReadFault> {
        let found = self.folder.read(alloc, name);
        self.counted_read(found)
    }

    fn read_at(&mut self, name: &str, at: u64, into: &mut [u8]) -> Result<Option<usize>, Failed> {
        let found = self.folder.read_at(name, at, into);
        self.counted(found)
    }

    fn size(&mut self, name: &str) -> Result<Option<u64>, Failed> {
        let found = self.folder.size(name);
        self.counted(found)
    }

    fn names(&mut self, alloc: Global, prefix: &str) -> Result<Vec<Text>, ReadFault> {
        let found = match self.folder.files(prefix) {
            Ok(files) => names_of(alloc, files),
            Err(fault) => Err(fault),
        };
        self.counted_read(found)
    }
}

fn names_of(alloc: Global, files: BTreeMap<String, u64>) -> Result<Vec<Text>, FolderFault> {
    let mut names = Vec::new(alloc);
    for (name, _) in files {
        names.push(Text::from_string(name))?;
    }
    Ok(names)
}
