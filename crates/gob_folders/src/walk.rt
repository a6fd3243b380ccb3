//! The names below a folder.

use crate::faults::found;
use crate::names::below;
use crate::root::Root;
use crate::{FileSystem, FolderFault, NodeKind};
use std::alloc::{AllocError, Global};
use std::collections::BTreeMap;

/// The regular files that were found, and the folders that are still to be read.
#[derive(Drop)]
pub struct Walk {
    pub found: BTreeMap<String, u64>,
    pub folders: Vec<String>,
}

impl Walk {
    /// A walk that begins in a folder.
    pub fn new(alloc: Global, folder: &str) -> Result<Walk, AllocError> {
        Ok(Walk {
            found: BTreeMap::new(alloc),
            folders: vec![in alloc; String::from_str(alloc, folder)?]?,
        })
    }

    /// Reads one folder: notes each regular file whose name begins so, with its size, and each folder to read. What
    /// else stands there is passed over. Answers whether the folder is there.
    pub fn visit<H: FileSystem>(
        &mut self,
        root: &Root<'_, H>,
        folder: &str,
        front: &str,
    ) -> Result<bool, FolderFault> {
        let path = root.joined(folder)?;
        let Some(mut listing) = found(root.fs.list(root.alloc, path.as_str()))? else {
            return Ok(false);
        };
        for _ in 0..u64::MAX {
            let Some(last) = root.fs.next_name(root.alloc, &mut listing)? else {
                return Ok(true);
            };
            let name = below(root.alloc, folder, last.as_str())?;
            if name.as_str().starts_with(front) {
                self.note(root, name)?;
            }
        }
        Err(FolderFault::Failed)
    }

    // One that is gone by now isn't noted.
    fn note<H: FileSystem>(&mut self, root: &Root<'_, H>, name: String) -> Result<(), FolderFault> {
        let path = root.joined(name.as_str())?;
        let Some(node) = found(root.fs.node_at(path.as_str()))? else {
            return Ok(());
        };
        match node.kind {
            NodeKind::Folder => self.folders.push(name)?,
            NodeKind::File => {
                self.found.insert(name, node.size)?;
            }
            NodeKind::Other => {}
        }
        Ok(())
    }
}
