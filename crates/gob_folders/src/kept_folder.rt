//! A folder of this program's own, whose files outlast a crash.

ghost use Rattle.std.specs.Prelude.{◌≡◌, ◌≤◌, ◌↔◌, if◌then◌else◌, false, length, IfOk, IfSome, IsErr, IsTrue};

use crate::faults::found;
use crate::names::{folder_of, is_front, parent_of};
use crate::open_files::{OpenFile, OpenFiles};
use crate::root::Root;
use crate::transfer::{read_full, read_whole, write_full};
use crate::walk::Walk;
use crate::{Access, FileSystem, FolderFault, NodeKind};
use std::alloc::Global;
use std::collections::{BTreeMap, BTreeSet};

// What is to be done where a folder isn't there.
#[derive(Clone, Copy, PartialEq, Eq)]
enum IfMissing {
    Tell,
    Make,
}

/// Named files below a folder that no other program changes meanwhile. What a call answers lasts: a name that was
/// made, renamed or removed is synced with the folders that it stands in, and what is read was synced before.
///
/// After a sync that failed the system may have forgotten what it failed to write, so that a later sync would prove
/// nothing: from then on each call fails that would change something, or would need a sync.
#[derive(Drop)]
pub struct KeptFolder<'a, H: FileSystem> {
    root: Root<'a, H>,
    open: OpenFiles<H::File>,
    // The folders that are known to be there, with all that was done in them synced. The root has no name.
    settled: BTreeSet<String>,
    has_failed: bool,
}

impl<'a, H: FileSystem> KeptFolder<'a, H> {
    pub fn new(fs: &'a H, alloc: Global, path: String) -> Self
        ensures { result.has_failed ≡ false }
    {
        KeptFolder {
            root: Root { fs, alloc, path },
            open: OpenFiles::new(alloc),
            settled: BTreeSet::new(alloc),
            has_failed: false,
        }
    }

    /// Makes the name an empty file. A file that stands there is cut to nothing; it must have no other name.
    pub fn create(&mut self, name: &str) -> Result<(), FolderFault>
        ensures stops { IsTrue self.old.has_failed → (result ≡ Err FolderFault.Failed) × IsTrue self.new.has_failed }
    {
        self.check_syncs()?;
        let path = self.root.path_of(name)?;
        let owned = String::from_str(self.root.alloc, name)?;
        self.settle_or_make(folder_of(name))?;
        if let Some(open) = self.open.take(name) {
            self.root.fs.close(open.file)?;
        }
        let file = match self.root.open_alone(path.as_str())? {
            Some(file) => self.emptied(file)?,
            None => self.made(folder_of(name), path.as_str())?,
        };
        self.keep(OpenFile {
            name: owned,
            file,
            is_writable: true,
            is_synced: true,
        })
    }

    /// Adds bytes at the end of a file. It must have no other name.
    pub fn append(&mut self, name: &str, bytes: &[u8]) -> Result<(), FolderFault>
        ensures stops { IsTrue self.old.has_failed → (result ≡ Err FolderFault.Failed) × IsTrue self.new.has_failed }
    {
        self.check_syncs()?;
        let mut open = self.open_to_add(name)?;
        open.is_synced = false;
        write_full(self.root.fs, &mut open.file, bytes)?;
        self.keep(open)
    }

    /// Syncs what a file holds.
    pub fn sync(&mut self, name: &str) -> Result<(), FolderFault>
        ensures stops { IsTrue self.old.has_failed → (result ≡ Err FolderFault.Failed) × IsTrue self.new.has_failed }
    {
        self.check_syncs()?;
        match self.open_to_read(name)? {
            Some(open) => self.keep(open),
            None => Err(FolderFault::Failed),
        }
    }

    /// Gives a file another name, in place of what was there.
    pub fn rename(&mut self, from: &str, to: &str) -> Result<(), FolderFault>
        ensures stops { IsTrue self.old.has_failed → (result ≡ Err FolderFault.Failed) × IsTrue self.new.has_failed }
    {
        self.check_syncs()?;
        let source = self.root.path_of(from)?;
        let target = self.root.path_of(to)?;
        let owned = String::from_str(self.root.alloc, to)?;
        self.check_renames(from, to, source.as_str(), target.as_str())?;
        if let Some(replaced) = self.open.take(to) {
            self.root.fs.close(replaced.file)?;
        }
        let moved = self.open.take(from);
        self.settled.remove(folder_of(from));
        self.settled.remove(folder_of(to));
        self.root.fs.rename(source.as_str(), target.as_str())?;
        self.settle(folder_of(to))?;
        if folder_of(from) != folder_of(to) {
            self.settle(folder_of(from))?;
        }
        match moved {
            Some(mut open) => {
                open.name = owned;
                self.keep(open)
            }
            None => Ok(()),
        }
    }

    /// Takes a name away. One that isn't there is taken away already.
    pub fn remove(&mut self, name: &str) -> Result<(), FolderFault>
        ensures stops { IsTrue self.old.has_failed → (result ≡ Err FolderFault.Failed) × IsTrue self.new.has_failed }
    {
        self.check_syncs()?;
        let path = self.root.path_of(name)?;
        let folder = folder_of(name);
        if !self.settle_if_there(folder)? || self.root.regular(path.as_str())?.is_none() {
            return Ok(());
        }
        if let Some(open) = self.open.take(name) {
            self.root.fs.close(open.file)?;
        }
        self.settled.remove(folder);
        self.root.fs.remove(path.as_str())?;
        self.settle(folder)
    }

    /// All that a file holds, or None where the name isn't there.
    pub fn read(&mut self, alloc: Global, name: &str) -> Result<Option<Vec<u8>>, FolderFault> {
        let Some(open) = self.open_to_read(name)? else {
            return Ok(None);
        };
        let size = self.root.fs.node_of(&open.file)?.size;
        let bytes = read_whole(self.root.fs, alloc, &open.file, size)?;
        self.keep(open)?;
        Ok(Some(bytes))
    }

    /// Fills the front of a buffer with what a file holds from an offset on, and answers how many bytes; None where
    /// the name isn't there.
    pub fn read_at(
        &mut self,
        name: &str,
        at: u64,
        into: &mut [u8],
    ) -> Result<Option<usize>, FolderFault>
        ensures within { IfOk result (λ found. IfSome found (λ n. n ≤ length into.old)) }
    {
        let Some(open) = self.open_to_read(name)? else {
            return Ok(None);
        };
        let n = read_full(self.root.fs, &open.file, at, into)?;
        self.keep(open)?;
        Ok(Some(n))
    }

    /// The number of bytes that a file holds, or None where the name isn't there.
    pub fn size(&mut self, name: &str) -> Result<Option<u64>, FolderFault> {
        let Some(open) = self.open_to_read(name)? else {
            return Ok(None);
        };
        let size = self.root.fs.node_of(&open.file)?.size;
        self.keep(open)?;
        Ok(Some(size))
    }

    /// Each regular file whose name begins so, with its size, in byte order of names. Only the folder that the front
    /// lies in, and those below it that fit the front, are read. Symbolic links, pipes and sockets are passed over.
    pub fn files(&mut self, front: &str) -> Result<BTreeMap<String, u64>, FolderFault> {
        if !is_front(front) {
            return Err(FolderFault::Failed);
        }
        let mut walk = Walk::new(self.root.alloc, folder_of(front))?;
        for _ in 0..u64::MAX {
            let Some(folder) = walk.folders.pop() else {
                return Ok(walk.found);
            };
            // A folder that is gone by now has no files.
            if self.settle_if_there(folder.as_str())? {
                walk.visit(&self.root, folder.as_str(), front)?;
            }
        }
        Err(FolderFault::Failed)
    }
}

// Files.
impl<'a, H: FileSystem> KeptFolder<'a, H> {
    // Opens the file, or None where the name isn't there. All that it holds is synced.
    fn open_to_read(&mut self, name: &str) -> Result<Option<OpenFile<H::File>>, FolderFault> {
        let path = self.root.path_of(name)?;
        if let Some(mut open) = self.open.take(name) {
            if !open.is_synced {
                self.sync_file(&open.file)?;
                open.is_synced = true;
            }
            return Ok(Some(open));
        }
        let owned = String::from_str(self.root.alloc, name)?;
        if !self.settle_if_there(folder_of(name))? {
            return Ok(None);
        }
        let Some((file, _)) = self.root.open(path.as_str(), Access::Read)? else {
            return Ok(None);
        };
        self.sync_file(&file)?;
        Ok(Some(OpenFile {
            name: owned,
            file,
            is_writable: false,
            is_synced: true,
        }))
    }

    fn open_to_add(&mut self, name: &str) -> Result<OpenFile<H::File>, FolderFault> {
        let path = self.root.path_of(name)?;
        match self.open.take(name) {
            Some(open) if open.is_writable => return Ok(open),
            Some(open) => self.root.fs.close(open.file)?,
            None => {}
        }
        let owned = String::from_str(self.root.alloc, name)?;
        if !self.settle_if_there(folder_of(name))? {
            return Err(FolderFault::Failed);
        }
        match self.root.open_alone(path.as_str())? {
            Some(file) => Ok(OpenFile {
                name: owned,
                file,
                is_writable: true,
                is_synced: false,
            }),
            None => Err(FolderFault::Failed),
        }
    }

    // An open file that was there, cut to nothing.
    fn emptied(&mut self, file: H::File) -> Result<H::File, FolderFault> {
        self.root.fs.empty(&file)?;
        self.sync_file(&file)?;
        Ok(file)
    }

    // A new file. Once its folder is synced it lasts, and it holds nothing.
    fn made(&mut self, folder: &str, path: &str) -> Result<H::File, FolderFault> {
        self.settled.remove(folder);
        let file = self.root.fs.open(path, Access::New)?;
        self.settle(folder)?;
        Ok(file)
    }

    // Keeps a file open, in place of the least recently used one where there is no room.
    fn keep(&mut self, open: OpenFile<H::File>) -> Result<(), FolderFault> {
        if let Some(old) = self.open.keep(open)? {
            if !old.is_synced {
                self.sync_file(&old.file)?;
            }
            self.root.fs.close(old.file)?;
        }
        Ok(())
    }

    // Fails where a file can't get the other name: it isn't there, what stands at either name isn't a regular file,
    // or both are names of one file, for which a rename does nothing.
    fn check_renames(
        &mut self,
        from: &str,
        to: &str,
        source: &str,
        target: &str,
    ) -> Result<(), FolderFault> {
        if !self.settle_if_there(folder_of(from))? {
            return Err(FolderFault::Failed);
        }
        let Some(moved) = self.root.regular(source)? else {
            return Err(FolderFault::Failed);
        };
        self.settle_or_make(folder_of(to))?;
        match self.root.regular(target)? {
            Some(replaced) if replaced.is_same(&moved) => Err(FolderFault::Failed),
            _ => Ok(()),
        }
    }
}

// Syncs.
impl<'a, H: FileSystem> KeptFolder<'a, H> {
    // Whether a sync still tells something.
    fn check_syncs(&self) -> Result<(), FolderFault>
        ensures { result ≡ (if self.now.has_failed then Err FolderFault.Failed else Ok tt) }
    {
        if self.has_failed {
            Err(FolderFault::Failed)
        } else {
            Ok(())
        }
    }

    fn sync_file(&mut self, file: &H::File) -> Result<(), FolderFault>
        ensures { IsErr result ↔ IsTrue self.new.has_failed }
    {
        self.check_syncs()?;
        match self.root.fs.sync(file) {
            Ok(()) => Ok(()),
            Err(_) => {
                self.has_failed = true;
                Err(FolderFault::Failed)
            }
        }
    }

    fn sync_folder(&mut self, path: &str) -> Result<(), FolderFault> {
        let file = self.root.fs.open(path, Access::Read)?;
        self.sync_file(&file)
    }

    // Syncs a folder that is there.
    fn settle(&mut self, folder: &str) -> Result<(), FolderFault> {
        let path = self.root.joined(folder)?;
        self.sync_folder(path.as_str())?;
        self.note_settled(folder)
    }

    fn note_settled(&mut self, folder: &str) -> Result<(), FolderFault> {
        self.settled
            .insert(String::from_str(self.root.alloc, folder)?)?;
        Ok(())
    }

    // Settles a folder and those above it. Answers whether it is there.
    fn settle_if_there(&mut self, folder: &str) -> Result<bool, FolderFault> {
        self.settle_all(folder, IfMissing::Tell)
    }

    // Settles a folder and those above it, and makes those that aren't there.
    fn settle_or_make(&mut self, folder: &str) -> Result<(), FolderFault> {
        if self.settle_all(folder, IfMissing::Make)? {
            Ok(())
        } else {
            Err(FolderFault::Failed)
        }
    }

    fn settle_all(&mut self, folder: &str, missing: IfMissing) -> Result<bool, FolderFault> {
        if self.settled.contains(folder) {
            return Ok(true);
        }
        if !self.settle_root(missing)? {
            return Ok(false);
        }
        for end in 0..folder.len() {
            if let Some((front, rest)) = folder.split_at_checked(end) {
                if rest.starts_with('/') && !self.settle_one(front, missing)? {
                    return Ok(false);
                }
            }
        }
        self.settle_one(folder, missing)
    }

    // A link may lead to the root. Where the root stood, its name is not this program's to keep.
    fn settle_root(&mut self, missing: IfMissing) -> Result<bool, FolderFault> {
        if self.settled.contains("") {
            return Ok(true);
        }
        match found(self.root.fs.node_behind(self.root.path.as_str()))? {
            Some(node) if node.kind == NodeKind::Folder => self.settle("")?,
            Some(_) => return Err(FolderFault::Failed),
            None if missing == IfMissing::Tell => return Ok(false),
            None => {
                self.root.fs.make_folder(self.root.path.as_str())?;
                self.sync_parent_of_root()?;
                self.note_settled("")?;
            }
        }
        Ok(true)
    }

    fn sync_parent_of_root(&mut self) -> Result<(), FolderFault> {
        let file = self
            .root
            .fs
            .open(parent_of(self.root.path.as_str()), Access::Read)?;
        self.sync_file(&file)
    }

    // Settles one folder, where those above it are settled. No link leads to it.
    fn settle_one(&mut self, folder: &str, missing: IfMissing) -> Result<bool, FolderFault> {
        if self.settled.contains(folder) {
            return Ok(true);
        }
        let path = self.root.joined(folder)?;
        match found(self.root.fs.node_at(path.as_str()))? {
            Some(node) if node.kind == NodeKind::Folder => self.settle(folder)?,
            Some(_) => return Err(FolderFault::Failed),
            None if missing == IfMissing::Tell => return Ok(false),
            None => self.make_folder(folder, path.as_str())?,
        }
        Ok(true)
    }

    // A new folder. Once the folder that it stands in is synced it lasts, and nothing is in it.
    fn make_folder(&mut self, folder: &str, path: &str) -> Result<(), FolderFault> {
        let parent = folder_of(folder);
        self.settled.remove(parent);
        self.root.fs.make_folder(path)?;
        self.settle(parent)?;
        self.note_settled(folder)
    }
}
