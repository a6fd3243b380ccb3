//! Files that stay open from one call to the next.

ghost use Rattle.std.specs.Prelude.{◌≡◌, ◌≤◌, [], string_bytes, vec_len, IfSome};

use crate::FolderFault;
use std::alloc::Global;

/// More than this many are never kept open.
const LIMIT: usize = 64;

/// An open file.
#[derive(Drop)]
pub struct OpenFile<F> {
    pub name: String,
    pub file: F,
    /// Whether it was opened to be added to.
    pub is_writable: bool,
    /// Whether all that it holds was synced by this process.
    pub is_synced: bool,
}

/// Open files by name, the least recently used first. Whoever works on one takes it out and gives it back; one that
/// failed is not given back.
#[derive(Drop)]
pub struct OpenFiles<F> {
    files: Vec<OpenFile<F>>,
    ghost few: { vec_len files ≤ 64 },
}

impl<F: Drop> OpenFiles<F> {
    pub fn new(alloc: Global) -> Self
        ensures { result.files.items ≡ [] }
    {
        OpenFiles {
            files: Vec::new(alloc),
        }
    }

    /// Takes out the file of this name.
    pub fn take(&mut self, name: &str) -> Option<OpenFile<F>>
        ensures { IfSome result (λ taken. string_bytes taken.name ≡ name.now) }
    {
        for at in 0..self.files.len() {
            if self.files[at].name.as_str() == name {
                return Some(self.files.remove(at));
            }
        }
        None
    }

    /// Gives a file back, or a new one. Where there is no room for it, the least recently used one comes out.
    pub fn keep(&mut self, open: OpenFile<F>) -> Result<Option<OpenFile<F>>, FolderFault> {
        let crowded_out = if self.files.len() < LIMIT {
            None
        } else {
            Some(self.files.remove(0))
        };
        self.files.push(open)?;
        Ok(crowded_out)
    }

    /// Closes all.
    pub fn clear(&mut self) {
        self.files.clear();
    }
}
