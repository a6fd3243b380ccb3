//! The file system of the machine.

use crate::{Access, FileSystem, Node, NodeKind};
use std::alloc::Global;
use std::fs::{self, File, Files, Metadata, OpenOptions, ReadDir};
use std::io::{self, Write};
use std::os::fd::AsRawFd;
use std::os::unix::fs::{FileExt, MetadataExt};

/// The descriptors of the standard streams are 0 to 2.
const LAST_STANDARD: i32 = 2;

fn node(metadata: &Metadata) -> Node {
    let kind = if metadata.is_file() {
        NodeKind::File
    } else if metadata.is_dir() {
        NodeKind::Folder
    } else {
        NodeKind::Other
    };
    Node {
        kind,
        links: metadata.nlink(),
        size: metadata.len(),
        device: metadata.dev(),
        number: metadata.ino(),
    }
}

fn options(access: Access) -> OpenOptions {
    let mut options = OpenOptions::new();
    options.read(true);
    if access != Access::Read {
        options.append(true);
    }
    if access == Access::New {
        options.create_new(true);
    }
    options
}

// What is meant for a standard stream that was closed must not land in a file.
fn above_standard(file: File) -> io::Result<File> {
    if file.as_raw_fd() <= LAST_STANDARD {
        file.try_clone()
    } else {
        Ok(file)
    }
}

impl FileSystem for HostRuntime {
    type File = File;

    type Listing = ReadDir;

    fn node_at(&self, path: &str) -> io::Result<Node> {
        Ok(node(&fs::symlink_metadata(self, path)?))
    }

    fn node_behind(&self, path: &str) -> io::Result<Node> {
        Ok(node(&fs::metadata(self, path)?))
    }

    fn node_of(&self, file: &File) -> io::Result<Node> {
        Ok(node(&file.metadata()?))
    }

    fn open(&self, path: &str, access: Access) -> io::Result<File> {
        above_standard(options(access).open(self, path)?)
    }

    fn read_at(&self, file: &File, at: u64, into: &mut [u8]) -> io::Result<usize> {
        FileExt::read_at(file, into, at)
    }

    fn write(&self, file: &mut File, bytes: &[u8]) -> io::Result<usize> {
        Write::write(file, bytes)
    }

    fn empty(&self, file: &File) -> io::Result<()> {
        file.set_len(0)
    }

    fn sync(&self, file: &File) -> io::Result<()> {
        file.sync_all()
    }

    fn close(&self, file: File) -> io::Result<()> {
        // What was written was synced before, so the system has nothing more to tell, and std doesn't.
        drop(file);
        Ok(())
    }

    fn make_folder(&self, path: &str) -> io::Result<()> {
        fs::create_dir(self, path)
    }

    fn rename(&self, from: &str, to: &str) -> io::Result<()> {
        fs::rename(self, from, to)
    }

    fn remove(&self, path: &str) -> io::Result<()> {
        fs::remove_file(self, path)
    }

    fn list(&self, _alloc: Global, path: &str) -> io::Result<ReadDir> {
        fs::read_dir(self, path)
    }

    fn next_name(&self, alloc: Global, listing: &mut ReadDir) -> io::Result<Option<String>> {
        match listing.next() {
            Some(entry) => Ok(Some(String::from_str(alloc, entry?.file_name())?)),
            None => Ok(None),
        }
    }
}
