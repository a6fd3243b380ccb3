//! A folder of a file system, and what the names below it lead to.

ghost use Rattle.std.specs.Prelude.{◌≡◌, ◌↔◌, true, false, string_bytes, IfOk};
ghost use Rattle.gob_folders.specs.Names as names;

use crate::faults::found;
use crate::names::{below, is_name};
use crate::{Access, FileSystem, FolderFault, Node, NodeKind};
use std::alloc::{AllocError, Global};

/// A folder, and names below it with `/` between folders.
#[derive(Drop)]
pub struct Root<'a, H: FileSystem> {
    pub fs: &'a H,
    pub alloc: Global,
    pub path: String,
}

impl<'a, H: FileSystem> Root<'a, H> {
    /// The path of a file, which leads nowhere but below the folder.
    pub fn path_of(&self, name: &str) -> Result<String, FolderFault>
        ensures path { IfOk result (λ path. (names.is_name name.now ≡ true)
            × (string_bytes path ≡ names.below (string_bytes self.now.path) name.now)) }
        ensures refused { (result ≡ Err FolderFault.Failed) ↔ (names.is_name name.now ≡ false) }
    {
        if !is_name(name) {
            return Err(FolderFault::Failed);
        }
        Ok(self.joined(name)?)
    }

    /// The path of a folder, or of the root, which has no name.
    pub fn joined(&self, folder: &str) -> Result<String, AllocError>
        ensures { IfOk result (λ path. string_bytes path ≡ names.below (string_bytes self.now.path) folder.now) }
    {
        below(self.alloc, self.path.as_str(), folder)
    }

    /// The regular file at a path, or None where nothing stands there. What else stands there is a failure.
    pub fn regular(&self, path: &str) -> Result<Option<Node>, FolderFault> {
        match found(self.fs.node_at(path))? {
            None => Ok(None),
            Some(node) if node.kind == NodeKind::File => Ok(Some(node)),
            Some(_) => Err(FolderFault::Failed),
        }
    }

    /// Opens the regular file at a path, or None where nothing stands there. It is looked at before it is opened, so
    /// that no pipe stops the call, and after, so that what was opened is what was looked at.
    pub fn open(&self, path: &str, access: Access) -> Result<Option<(H::File, Node)>, FolderFault> {
        let Some(there) = self.regular(path)? else {
            return Ok(None);
        };
        let Some(file) = found(self.fs.open(path, access))? else {
            return Ok(None);
        };
        let opened = self.fs.node_of(&file)?;
        if opened.is_same(&there) {
            Ok(Some((file, opened)))
        } else {
            Err(FolderFault::Failed)
        }
    }

    /// Opens the regular file at a path to add to it. It must have no other name.
    pub fn open_alone(&self, path: &str) -> Result<Option<H::File>, FolderFault> {
        match self.open(path, Access::Append)? {
            Some((file, node)) if node.links == 1 => Ok(Some(file)),
            Some(_) => Err(FolderFault::Failed),
            None => Ok(None),
        }
    }
}
