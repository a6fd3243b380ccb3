//! A folder that others write.

ghost use Rattle.std.specs.Prelude.{◌≤◌, length, IfOk, IfSome};

use crate::open_files::{OpenFile, OpenFiles};
use crate::root::Root;
use crate::transfer::read_full;
use crate::walk::Walk;
use crate::{Access, FileSystem, FolderFault, Node};
use std::alloc::Global;
use std::collections::BTreeMap;

/// The regular files below a folder that others write. From one listing to the next a name stands for one file: where
/// another is found in its place, that is a failure.
#[derive(Drop)]
pub struct ReadFolder<'a, H: FileSystem> {
    root: Root<'a, H>,
    open: OpenFiles<H::File>,
    // What was opened since the last listing.
    opened: BTreeMap<String, Node>,
}

impl<'a, H: FileSystem> ReadFolder<'a, H> {
    pub fn new(fs: &'a H, alloc: Global, path: String) -> Self {
        ReadFolder {
            root: Root { fs, alloc, path },
            open: OpenFiles::new(alloc),
            opened: BTreeMap::new(alloc),
        }
    }

    /// Each regular file with its size, in byte order of names; None where the folder isn't there. Symbolic links,
    /// pipes and sockets are passed over; a name that isn't UTF-8 is a failure.
    pub fn files(&mut self) -> Result<Option<BTreeMap<String, u64>>, FolderFault> {
        self.open.clear();
        self.opened.clear();
        let mut walk = Walk::new(self.root.alloc, "")?;
        let mut is_there = false;
        for _ in 0..u64::MAX {
            let Some(folder) = walk.folders.pop() else {
                return Ok(is_there.then_some(walk.found));
            };
            // A folder below the root that is gone by now has no files.
            if walk.visit(&self.root, folder.as_str(), "")? && folder.is_empty() {
                is_there = true;
            }
        }
        Err(FolderFault::Failed)
    }

    /// Fills the front of a buffer with what a file holds from an offset on, and answers how many bytes; None where
    /// the name isn't there.
    pub fn read_at(
        &mut self,
        name: &str,
        at: u64,
        into: &mut [u8],
    ) -> Result<Option<usize>, FolderFault>
        ensures within { IfOk result (λ found. IfSome found (λ n. n ≤ length into.old)) }
    {
        let Some(open) = self.opened(name)? else {
            return Ok(None);
        };
        let n = read_full(self.root.fs, &open.file, at, into)?;
        if let Some(old) = self.open.keep(open)? {
            self.root.fs.close(old.file)?;
        }
        Ok(Some(n))
    }

    fn opened(&mut self, name: &str) -> Result<Option<OpenFile<H::File>>, FolderFault> {
        if let Some(open) = self.open.take(name) {
            return Ok(Some(open));
        }
        let path = self.root.path_of(name)?;
        let Some((file, node)) = self.root.open(path.as_str(), Access::Read)? else {
            return Ok(None);
        };
        self.recognize(name, node)?;
        Ok(Some(OpenFile {
            name: String::from_str(self.root.alloc, name)?,
            file,
            is_writable: false,
            is_synced: true,
        }))
    }

    // Notes what stands at a name, and fails where it is not what stood there.
    fn recognize(&mut self, name: &str, node: Node) -> Result<(), FolderFault> {
        match self.opened.get(name) {
            Some(known) if known.is_same(&node) => Ok(()),
            Some(_) => Err(FolderFault::Failed),
            None => {
                self.opened
                    .insert(String::from_str(self.root.alloc, name)?, node)?;
                Ok(())
            }
        }
    }
}
