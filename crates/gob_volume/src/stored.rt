//! A file as a volume in memory keeps it.

ghost use Rattle.std.specs.Prelude.{◌≡◌, ◌++◌, [], IfOk, OnErr, OnOk};
ghost use Rattle.gob_device.specs.Disk.{clean, contents_of, synced_file, with_more};
ghost use Rattle.gob_volume.specs.Crashes.{image_of, torn_file};

use gob_plan::NoMemory;
use std::alloc::Global;
use std::marker::Model;

/// All bytes of a file, and how many of them a crash leaves, where it may lose any.
#[derive(Drop)]
pub struct Stored {
    bytes: Vec<u8>,
    kept: usize,
    is_dirty: bool,
}

impl Model for Stored {
    ghost use Rattle.std.specs.Prelude.{◌≤◌, drop, if◌then◌else◌, length, take};
    ghost use Rattle.gob_device.specs.Disk.{File, clean, dirty};

    ghost Value = { File };

    ghost view = { λ s. if s.is_dirty then dirty (take s.kept s.bytes.items) (drop s.kept s.bytes.items)
        else clean s.bytes.items };

    ghost invariant = { λ s. s.kept ≤ length s.bytes.items };
}

impl Stored {
    /// An empty file.
    pub fn new(alloc: Global) -> Self
        ensures { result ≡ clean [] }
    {
        Stored::whole(Vec::new(alloc))
    }

    /// A file of these bytes, all of them kept.
    pub fn whole(bytes: Vec<u8>) -> Self
        ensures { result ≡ clean bytes.items }
    {
        Stored {
            bytes,
            kept: 0,
            is_dirty: false,
        }
    }

    pub fn bytes(&self) -> &[u8]
        ensures { result.now ≡ contents_of self.now }
    {
        self.bytes.as_slice()
    }

    /// Adds bytes that a crash may lose. Without memory it stays as it was.
    pub fn append(&mut self, bytes: &[u8]) -> Result<(), NoMemory>
        ensures ok { OnOk result (self.new ≡ with_more bytes.now self.old) }
        ensures err { OnErr result (self.new ≡ self.old) }
    {
        if bytes.is_empty() {
            return Ok(());
        }
        let before = self.bytes.len();
        if let Err(_) = self.bytes.extend_from_slice(bytes) {
            return Err(NoMemory);
        }
        if !self.is_dirty {
            self.kept = before;
            self.is_dirty = true;
        }
        Ok(())
    }

    /// Keeps all bytes.
    pub fn sync(&mut self)
        ensures { self.new ≡ synced_file self.old }
    {
        self.is_dirty = false;
    }

    /// Leaves it dirty, with its bytes as they were.
    pub fn tear(&mut self)
        ensures { self.new ≡ torn_file self.old }
    {
        if !self.is_dirty {
            self.kept = self.bytes.len();
            self.is_dirty = true;
        }
    }

    /// What a crash leaves of it, with these bytes in place of the loose ones.
    pub fn image(&self, tail: &[u8]) -> Result<Stored, NoMemory>
        ensures { IfOk result (λ image. image ≡ image_of tail.now self.now) }
    {
        let kept = if self.is_dirty {
            self.kept
        } else {
            self.bytes.len()
        };
        let tail = if self.is_dirty { tail } else { &[] };
        match concat(*self.bytes.allocator(), &self.bytes[..kept], tail) {
            Ok(bytes) => Ok(Stored::whole(bytes)),
            Err(NoMemory) => Err(NoMemory),
        }
    }
}

fn concat(alloc: Global, front: &[u8], back: &[u8]) -> Result<Vec<u8>, NoMemory>
    ensures { IfOk result (λ bytes. bytes.items ≡ front.now ++ back.now) }
{
    let mut bytes = match Vec::from_slice(alloc, front) {
        Ok(bytes) => bytes,
        Err(_) => return Err(NoMemory),
    };
    if let Err(_) = bytes.extend_from_slice(back) {
        return Err(NoMemory);
    }
    Ok(bytes)
}
