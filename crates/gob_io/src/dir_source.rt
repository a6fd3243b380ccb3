//! The edge over the files of a real folder.

ghost use Rattle.std.specs.Prelude.{◌≡◌, ◌≤◌, length, map, IfOk, IsErr};
ghost use Rattle.gob_device.specs.Causes.{CountsFailure};
ghost use Rattle.gob_device.specs.Supply.{IsListed};
ghost use Rattle.gob_io.specs.Listing.{entry_of};

use crate::line_ends::keep_line_ends;
use crate::listing::is_listed;
use crate::{ListFault, Part, Source};
use gob_folders::{FileSystem, FolderFault, ReadFolder};
use gob_plan::{Failed, Text};
use std::alloc::Global;
use std::collections::BTreeMap;

/// The regular files below a folder, with `/` between folders in their names. Symbolic links, pipes and sockets are no
/// partitions; a name that isn't UTF-8 fails the listing, and so does a folder that isn't there. A name at which
/// something else stands than stood there before fails the call. It tells nothing of what the files hold.
#[derive(Drop)]
pub struct DirSource<'a, H: FileSystem> {
    folder: ReadFolder<'a, H>,
    faults: u64,
    plan_faults: u64,
}

impl<'a, H: FileSystem> DirSource<'a, H> {
    pub fn new(fs: &'a H, alloc: Global, root: Text) -> Self
        ensures faults { result.faults ≡ 0 }
        ensures plan_faults { result.plan_faults ≡ 0 }
    {
        DirSource {
            folder: ReadFolder::new(fs, alloc, root.into_string()),
            faults: 0,
            plan_faults: 0,
        }
    }

    // The bytes from an offset on; none where the name isn't there.
    fn fill(&mut self, part: &str, at: u64, into: &mut [u8]) -> Result<usize, Failed>
        ensures within { IfOk result (λ n. n ≤ length into.old) }
        ensures cause { CountsFailure self.old.faults self.new.faults (IsErr result) }
        ensures planned { self.new.plan_faults ≡ self.old.plan_faults }
    {
        match self.folder.read_at(part, at, into) {
            Ok(Some(n)) => Ok(n),
            Ok(None) => Ok(0),
            Err(_) => {
                self.faults = self.faults.saturating_add(1);
                Err(Failed)
            }
        }
    }
}

// The files as a listing of partitions; a folder that isn't there has none.
fn listing(alloc: Global, files: Option<BTreeMap<String, u64>>) -> Result<Vec<Part>, ListFault>
    ensures { IfOk result (λ parts. IsListed (map entry_of parts.items)) }
{
    let Some(files) = files else {
        return Err(ListFault::Failed);
    };
    let mut parts = Vec::new(alloc);
    for (name, size) in files {
        let part = Part {
            name: Text::from_string(name),
            size,
        };
        if let Err(_) = parts.push(part) {
            return Err(ListFault::Memory);
        }
    }
    if is_listed(parts.as_slice()) {
        Ok(parts)
    } else {
        Err(ListFault::Failed)
    }
}

impl<'a, H: FileSystem> Source for DirSource<'a, H> {
    ghost use Rattle.std.specs.declared.option.Option.TheVariants.{None};

    ghost supply = { λ s. None };

    ghost faults = { λ s. s.faults };

    ghost plan_faults = { λ s. s.plan_faults };

    ghost held_is_listed = { λ s. tt };

    fn list(&mut self, alloc: Global) -> Result<Vec<Part>, ListFault> {
        let listed = match self.folder.files() {
            Ok(files) => listing(alloc, files),
            Err(FolderFault::Failed) => Err(ListFault::Failed),
            Err(FolderFault::Memory) => Err(ListFault::Memory),
        };
        if let Err(ListFault::Failed) = listed {
            self.faults = self.faults.saturating_add(1);
            self.plan_faults = self.plan_faults.saturating_add(1);
        }
        listed
    }

    fn look(&mut self, part: &str, at: u64, into: &mut [u8]) -> Result<usize, Failed> {
        match self.fill(part, at, into) {
            Ok(n) => {
                keep_line_ends(&mut into[..n]);
                Ok(n)
            }
            Err(Failed) => {
                self.plan_faults = self.plan_faults.saturating_add(1);
                Err(Failed)
            }
        }
    }

    fn pull(&mut self, part: &str, at: u64, into: &mut [u8]) -> Result<usize, Failed> {
        let n = self.fill(part, at, into)?;
        Ok(n)
    }
}
