//! The files of a volume in memory.

ghost use Rattle.std.specs.Prelude.{◌≡◌, ◌≢◌, ◌≤◌, filter, length, map, option_map, IfOk, IfSome, IsOk, IsSome, OnErr};
ghost use Rattle.std.specs.Prelude.{OnOk};
ghost use Rattle.gob_bytes.specs.Paths.{begins_with};
ghost use Rattle.gob_bytes.specs.Tables.{IsInByteOrder, names_of};
ghost use Rattle.gob_device.specs.Disk.{IsListing, clean, contents_at, no_files, put};
ghost use Rattle.gob_device.specs.Disk.{after_append, after_rename, after_sync};
ghost use Rattle.gob_memory.specs.Order.{IsInByteOrder-prop};
ghost use Rattle.gob_memory.specs.Places.{StandsAt};
ghost use Rattle.gob_volume.specs.Calls.{CanBeDone, map_step_of};
ghost use Rattle.gob_volume.specs.Crashes.{after_crash, after_tear, image_of};
ghost use Rattle.gob_volume.specs.Reads.{ReadsAt};

use crate::calls::Call;
use crate::stored::Stored;
use gob_memory::{fill_from, find, get, set, take};
use gob_plan::{NoMemory, Text};
use std::alloc::Global;

/// Files in byte order of their names. Where a call finds no memory all stays as it was.
#[derive(Drop)]
pub struct FileTable {
    alloc: Global,
    entries: Vec<(Text, Stored)>,
    ghost rising: { IsInByteOrder (names_of entries.items) } by { IsInByteOrder-prop (names_of entries.items) },
}

impl FileTable {
    ghost use Rattle.gob_volume.specs.Maps.{map_of};

    pub fn new(alloc: Global) -> Self
        ensures { map_of result ≡ no_files }
    {
        FileTable {
            alloc,
            entries: Vec::new(alloc),
        }
    }

    /// Does what a call does to the files.
    #[tactic(auto, unfolding(gob_device::specs::Disk::after_create, gob_device::specs::Disk::after_remove, crate::specs::Calls::after_put))]
    pub fn apply(&mut self, call: &Call) -> Result<(), NoMemory>
        requires { CanBeDone call.now (map_of self.old) }
        ensures ok { OnOk result (map_of self.new ≡ map_step_of call.now (map_of self.old)) }
        ensures err { OnErr result (map_of self.new ≡ map_of self.old) }
    {
        match call {
            Call::Create { name } => self.put(name.as_str(), Stored::new(self.alloc)),
            Call::Append { name, bytes } => self.append(name.as_str(), bytes.as_slice()),
            Call::Sync { name } => {
                self.sync(name.as_str());
                Ok(())
            }
            Call::Tear { name } => {
                self.tear(name.as_str());
                Ok(())
            }
            Call::Rename { from, to } => self.rename(from.as_str(), to.as_str()),
            Call::Remove { name } => {
                let _ = self.take(name.as_str());
                Ok(())
            }
            Call::Put { name, bytes } => self.place(name.as_str(), bytes.as_slice()),
            Call::Crash { tail } => self.crash(tail.as_slice()),
        }
    }

    // A name that is there needs no memory.
    fn put(&mut self, name: &str, stored: Stored) -> Result<(), NoMemory>
        ensures ok { OnOk result (map_of self.new ≡ put (map_of self.old) name.now (Some stored)) }
        ensures err { OnErr result (map_of self.new ≡ map_of self.old) }
        ensures there { IsSome (map_of self.old name.now) → IsOk result }
    {
        set(self.alloc, &mut self.entries, name, stored)?;
        Ok(())
    }

    // Places a file that is kept whole.
    fn place(&mut self, name: &str, bytes: &[u8]) -> Result<(), NoMemory>
        ensures ok { OnOk result (map_of self.new ≡ put (map_of self.old) name.now (Some (clean bytes.now))) }
        ensures err { OnErr result (map_of self.new ≡ map_of self.old) }
    {
        let Ok(bytes) = Vec::from_slice(self.alloc, bytes) else {
            return Err(NoMemory);
        };
        self.put(name, Stored::whole(bytes))?;
        Ok(())
    }

    fn take(&mut self, name: &str) -> Option<Stored>
        ensures file { result ≡ map_of self.old name.now }
        ensures after { map_of self.new ≡ put (map_of self.old) name.now None }
    {
        take(&mut self.entries, name)
    }

    // Where a name stands that is there.
    fn place_of(&self, name: &str) -> usize
        requires { IsSome (map_of self.now name.now) }
        ensures { StandsAt self.now.entries.items name.now result }
    {
        match find(self.entries.as_slice(), name) {
            Ok(place) => place,
            Err(_) => unreachable!(),
        }
    }

    fn append(&mut self, name: &str, bytes: &[u8]) -> Result<(), NoMemory>
        requires { IsSome (map_of self.old name.now) }
        ensures ok { OnOk result (map_of self.new ≡ after_append name.now bytes.now (map_of self.old)) }
        ensures err { OnErr result (map_of self.new ≡ map_of self.old) }
    {
        let place = self.place_of(name);
        self.entries[place].1.append(bytes)?;
        Ok(())
    }

    fn sync(&mut self, name: &str)
        requires { IsSome (map_of self.old name.now) }
        ensures { map_of self.new ≡ after_sync name.now (map_of self.old) }
    {
        let place = self.place_of(name);
        self.entries[place].1.sync();
    }

    fn tear(&mut self, name: &str)
        requires { IsSome (map_of self.old name.now) }
        ensures { map_of self.new ≡ after_tear name.now (map_of self.old) }
    {
        let place = self.place_of(name);
        self.entries[place].1.tear();
    }

    // Makes room under the new name first, so that nothing can fail once the old one is gone.
    fn rename(&mut self, from: &str, to: &str) -> Result<(), NoMemory>
        requires there { IsSome (map_of self.old from.now) }
        requires differ { from.now ≢ to.now }
        ensures ok { OnOk result (map_of self.new ≡ after_rename from.now to.now (map_of self.old)) }
        ensures err { OnErr result (map_of self.new ≡ map_of self.old) }
    {
        self.put(to, Stored::new(self.alloc))?;
        let Some(stored) = self.take(from) else {
            unreachable!();
        };
        if let Err(_) = self.put(to, stored) {
            unreachable!();
        }
        Ok(())
    }

    // Leaves of each file what a crash does, with these bytes in place of loose ones.
    fn crash(&mut self, tail: &[u8]) -> Result<(), NoMemory>
        ensures ok { OnOk result (map_of self.new ≡ after_crash tail.now (map_of self.old)) }
        ensures err { OnErr result (map_of self.new ≡ map_of self.old) }
    {
        self.entries = images(self.alloc, self.entries.as_slice(), tail)?;
        Ok(())
    }

    pub fn read(&self, alloc: Global, name: &str) -> Result<Option<Vec<u8>>, NoMemory>
        ensures { IfOk result (λ found. option_map (λ v. v.items) found ≡ contents_at (map_of self.now) name.now) }
    {
        let Some(stored) = get(self.entries.as_slice(), name) else {
            return Ok(None);
        };
        match Vec::from_slice(alloc, stored.bytes()) {
            Ok(bytes) => Ok(Some(bytes)),
            Err(_) => Err(NoMemory),
        }
    }

    pub fn read_at(&self, name: &str, at: u64, into: &mut [u8]) -> Option<usize>
        ensures within { IfSome result (λ n. n ≤ length into.old) }
        ensures bytes { ReadsAt (contents_at (map_of self.now) name.now) at (length into.old) result into.new }
    {
        let stored = get(self.entries.as_slice(), name)?;
        Some(fill_from(stored.bytes(), at, into))
    }

    pub fn size(&self, name: &str) -> Option<u64>
        ensures { result ≡ option_map (λ bytes. length bytes) (contents_at (map_of self.now) name.now) }
    {
        let stored = get(self.entries.as_slice(), name)?;
        Some(stored.bytes().len() as u64)
    }

    /// The names that begin so, in byte order.
    pub fn names(&self, alloc: Global, prefix: &str) -> Result<Vec<Text>, NoMemory>
        ensures { IfOk result (λ names. IsListing prefix.now (map_of self.now) names.items) }
    {
        let names = names_with(alloc, self.entries.as_slice(), prefix)?;
        Ok(names)
    }
}

fn images(
    alloc: Global,
    entries: &[(Text, Stored)],
    tail: &[u8],
) -> Result<Vec<(Text, Stored)>, NoMemory>
    ensures { IfOk result (λ images. images.items ≡ map (λ e. (e.0, image_of tail.now e.1)) entries.now) }
{
    let mut images = Vec::new(alloc);
    for (name, stored) in entries {
        let left = (name.copy()?, stored.image(tail)?);
        if let Err(_) = images.push(left) {
            return Err(NoMemory);
        }
    }
    Ok(images)
}

fn names_with(
    alloc: Global,
    entries: &[(Text, Stored)],
    prefix: &str,
) -> Result<Vec<Text>, NoMemory>
    ensures { IfOk result (λ names. names.items ≡ filter (begins_with prefix.now) (names_of entries.now)) }
{
    let mut names = Vec::new(alloc);
    for (name, _) in entries {
        if has_prefix(name.as_str(), prefix) {
            if let Err(_) = names.push(name.copy()?) {
                return Err(NoMemory);
            }
        }
    }
    Ok(names)
}

fn has_prefix(name: &str, prefix: &str) -> bool
    ensures { result ≡ begins_with prefix.now name.now }
{
    name.as_bytes().starts_with(prefix.as_bytes())
}
