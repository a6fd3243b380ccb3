//! The calls of a file system that folders are made of.

ghost use Rattle.std.specs.Prelude.{◌≤◌, length, IfOk};

use std::alloc::Global;
use std::io;

/// What kind of thing stands at a path.
#[derive(Clone, Copy, Debug, PartialEq, Eq)]
pub enum NodeKind {
    File,
    Folder,
    /// A symbolic link, a pipe, a socket or a device.
    Other,
}

/// What stands at a path, or is open.
#[derive(Clone, Copy)]
pub struct Node {
    pub kind: NodeKind,
    /// How many names it has.
    pub links: u64,
    pub size: u64,
    /// The device that it lies on, and its number there. No two nodes that are there at one time share both.
    pub device: u64,
    pub number: u64,
}

impl Node {
    pub fn is_same(&self, other: &Node) -> bool {
        self.device == other.device && self.number == other.number
    }
}

/// How a file is opened.
#[derive(Clone, Copy, PartialEq, Eq)]
pub enum Access {
    /// To read what is there.
    Read,
    /// To read what is there and to add at its end.
    Append,
    /// To add to a file that must not be there yet.
    New,
}

/// A file system. Each method makes one call of the system, or the few that a call like it takes. A path that isn't
/// there fails with the kind `NotFound`.
pub trait FileSystem {
    type File: Drop;

    /// A folder whose names are being read.
    type Listing: Drop;

    /// What stands at a path. A symbolic link at its end is not followed.
    fn node_at(&self, path: &str) -> io::Result<Node>;

    /// What a path leads to, links followed.
    fn node_behind(&self, path: &str) -> io::Result<Node>;

    fn node_of(&self, file: &Self::File) -> io::Result<Node>;

    /// Opens a file; with `Access::Read` also a folder, to be synced.
    fn open(&self, path: &str, access: Access) -> io::Result<Self::File>;

    fn read_at(&self, file: &Self::File, at: u64, into: &mut [u8]) -> io::Result<usize>
        ensures within { IfOk result (λ n. n ≤ length into.old) };

    fn write(&self, file: &mut Self::File, bytes: &[u8]) -> io::Result<usize>
        ensures within { IfOk result (λ n. n ≤ length bytes.now) };

    /// Cuts a file to nothing.
    fn empty(&self, file: &Self::File) -> io::Result<()>;

    /// Brings to the disk what a file or a folder holds, and everything that is needed to find it.
    fn sync(&self, file: &Self::File) -> io::Result<()>;

    fn close(&self, file: Self::File) -> io::Result<()>;

    fn make_folder(&self, path: &str) -> io::Result<()>;

    fn rename(&self, from: &str, to: &str) -> io::Result<()>;

    fn remove(&self, path: &str) -> io::Result<()>;

    fn list(&self, alloc: Global, path: &str) -> io::Result<Self::Listing>;

    /// The next name in the folder, in any order; None behind the last one. A name that isn't UTF-8 is a failure.
    fn next_name(&self, alloc: Global, listing: &mut Self::Listing) -> io::Result<Option<String>>;
}
