//! Calls on a folder, to be made from tables.

use gob_folders::{FileSystem, FolderFault, KeptFolder};
use std::alloc::Global;

#[derive(Clone, Copy)]
pub enum Call<'a> {
    Create(&'a str),
    Append(&'a str, &'a str),
    Sync(&'a str),
    Rename(&'a str, &'a str),
    Remove(&'a str),
    Read(&'a str),
    ReadAt(&'a str),
    Size(&'a str),
    Names(&'a str),
}

use Call::{Append, Create, Names, Read, ReadAt, Remove, Rename, Size, Sync};

/// Whether the call is answered. Only a failure is told by `Some(false)`; None says that no memory is left.
pub fn is_answered<H: FileSystem>(
    alloc: Global,
    folder: &mut KeptFolder<'_, H>,
    call: Call<'_>,
) -> Option<bool> {
    let mut buffer = [0; 4];
    match call {
        Create(name) => told(folder.create(name)),
        Append(name, more) => told(folder.append(name, more.as_bytes())),
        Sync(name) => told(folder.sync(name)),
        Rename(from, to) => told(folder.rename(from, to)),
        Remove(name) => told(folder.remove(name)),
        Read(name) => told(folder.read(alloc, name)),
        ReadAt(name) => told(folder.read_at(name, 0, &mut buffer)),
        Size(name) => told(folder.size(name)),
        Names(front) => told(folder.files(front)),
    }
}

fn told<T: Drop>(answer: Result<T, FolderFault>) -> Option<bool> {
    match answer {
        Ok(_) => Some(true),
        Err(FolderFault::Failed) => Some(false),
        Err(FolderFault::Memory) => None,
    }
}
