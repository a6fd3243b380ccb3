//! A volume in memory.

ghost use Rattle.std.specs.Prelude.{◌≡◌, ◌≢◌, ◌≤◌, ◌-◌, [], length, option_map, IfOk, IfSome, IsErr, IsSome, OnErr};
ghost use Rattle.std.specs.Prelude.{OnOk};
ghost use Rattle.gob_device.specs.Causes.{CountsFailure};
ghost use Rattle.gob_device.specs.Disk.{ChangesFile, ChangesWhole, Image, IsListing, contents_at, no_files};
ghost use Rattle.gob_device.specs.Disk.{after_append, after_create, after_remove, after_rename, after_sync};
ghost use Rattle.gob_device.specs.Names.{IsPathname};
ghost use Rattle.gob_memory.specs.Planned.{calls_of, numbers_of};
ghost use Rattle.gob_volume.specs.Calls.{after_put};
ghost use Rattle.gob_volume.specs.Crashes.{after_crash};
ghost use Rattle.gob_volume.specs.Failures.{FailsAsSet};
ghost use Rattle.gob_volume.specs.Reads.{ReadsAt};

use crate::failures::Failures;
use crate::store::Store;
use crate::{ReadFault, Volume};
use gob_plan::{Failed, NoMemory, Text};
use std::alloc::Global;

/// Named files in memory, with all calls that changed them. It fails the calls with the given numbers, counted from 0
/// over all calls, those behind a fuse, and changing calls that find no room, which change nothing. A planned failure
/// leaves the files as they were, but an append or a sync leaves its file dirty.
#[derive(Drop)]
pub struct MemVolume {
    store: Store,
    failures: Failures,
}

impl MemVolume {
    ghost use Rattle.gob_volume.specs.MemVolume.{failures_of, fuse_of, told_by, volume_counts, volume_plan};

    pub fn new(alloc: Global, fails: Vec<u64>) -> Self
        ensures tells { ⟦<MemVolume as Volume>⟧.disk result ≡ Some (record { files = no_files; trail = [] }) }
        ensures counts { volume_counts result ≡ record { faults = 0; shorts = 0 } }
        ensures fuse { fuse_of result ≡ None }
        ensures numbers { numbers_of (volume_plan result) ≡ fails.items }
        ensures calls { calls_of (volume_plan result) ≡ 0 }
    {
        MemVolume {
            store: Store::new(alloc),
            failures: Failures::new(fails),
        }
    }

    /// Places a file that is kept whole; the trail is empty then. Without memory all stays as it was.
    pub fn put(&mut self, name: &str, bytes: &[u8]) -> Result<(), NoMemory>
        ensures ok { OnOk result (told_by self.new
            ≡ record { files = after_put name.now bytes.now (told_by self.old).files; trail = [] }) }
        ensures err { OnErr result (told_by self.new ≡ told_by self.old) }
        ensures failures { failures_of self.new ≡ failures_of self.old }
    {
        self.store.put(name, bytes)?;
        Ok(())
    }

    /// Lets so many further changing calls pass, whatever they answer, and then fails every call.
    pub fn fuse(&mut self, calls: u64)
        ensures fuse { failures_of self.new ≡ record (failures_of self.old) { fuse = Some calls } }
        ensures told { told_by self.new ≡ told_by self.old }
    {
        self.failures.fuse = Some(calls);
    }

    /// Becomes what a crash leaves: each dirty file has its kept bytes and then these, and all files are kept whole.
    /// The fuse is gone and the trail is empty then. Without memory all stays as it was.
    pub fn crash(&mut self, tail: &[u8]) -> Result<(), NoMemory>
        ensures ok { OnOk result (told_by self.new
            ≡ record { files = after_crash tail.now (told_by self.old).files; trail = [] }) }
        ensures image { OnOk result (Image (told_by self.old).files (told_by self.new).files) }
        ensures fuse { OnOk result (failures_of self.new ≡ record (failures_of self.old) { fuse = None }) }
        ensures err { OnErr result (told_by self.new ≡ told_by self.old) }
        ensures lasts { OnErr result (failures_of self.new ≡ failures_of self.old) }
    {
        self.store.crash(tail)?;
        self.failures.fuse = None;
        Ok(())
    }

    /// How many calls failed.
    pub fn fault_count(&self) -> u64
        ensures { result ≡ ⟦<MemVolume as Volume>⟧.faults self.now }
    {
        self.failures.counts.faults
    }

    /// How many calls found no room.
    pub fn short_count(&self) -> u64
        ensures { result ≡ (volume_counts self.now).shorts }
    {
        self.failures.counts.shorts
    }
}

impl Volume for MemVolume {
    ghost use Rattle.std.specs.declared.option.Option.TheVariants.{Some};
    ghost use Rattle.gob_volume.specs.MemVolume.{FailsAt, failures_of, told_by, volume_counts};

    ghost disk = { λ v. Some (told_by v) };

    ghost faults = { λ v. (volume_counts v).faults };

    fn create(&mut self, name: &str) -> Result<(), Failed>
        requires { IsPathname name.now }
        ensures change { ChangesWhole (after_create name.now) (Some (told_by self.old)) (Some (told_by self.new))
            result }
        ensures cause { CountsFailure (volume_counts self.old).faults (volume_counts self.new).faults (IsErr result) }
        ensures failed { OnErr result (told_by self.new ≡ told_by self.old) }
        ensures planned { FailsAsSet (λ left. left - 1) (failures_of self.old) (failures_of self.new) (IsErr result) }
    {
        if self.failures.stops_change() {
            self.failures.counts.fail();
            return Err(Failed);
        }
        if let Err(NoMemory) = self.store.create(name) {
            self.failures.counts.fall_short();
            return Err(Failed);
        }
        Ok(())
    }

    fn append(&mut self, name: &str, bytes: &[u8]) -> Result<(), Failed>
        requires named { IsPathname name.now }
        requires there { IsSome ((told_by self.old).files name.now) }
        ensures change { ChangesFile name.now (after_append name.now bytes.now)
            (Some (told_by self.old)) (Some (told_by self.new)) result }
        ensures cause { CountsFailure (volume_counts self.old).faults (volume_counts self.new).faults (IsErr result) }
        ensures failed { OnErr result (FailsAt name.now self.old self.new) }
        ensures planned { FailsAsSet (λ left. left - 1) (failures_of self.old) (failures_of self.new) (IsErr result) }
    {
        if self.failures.stops_change() {
            match self.store.tear(name) {
                Ok(()) => self.failures.counts.fail(),
                Err(NoMemory) => self.failures.counts.fall_short(),
            }
            return Err(Failed);
        }
        if let Err(NoMemory) = self.store.append(name, bytes) {
            self.failures.counts.fall_short();
            return Err(Failed);
        }
        Ok(())
    }

    fn sync(&mut self, name: &str) -> Result<(), Failed>
        requires named { IsPathname name.now }
        requires there { IsSome ((told_by self.old).files name.now) }
        ensures change { ChangesFile name.now (after_sync name.now) (Some (told_by self.old)) (Some (told_by self.new))
            result }
        ensures cause { CountsFailure (volume_counts self.old).faults (volume_counts self.new).faults (IsErr result) }
        ensures failed { OnErr result (FailsAt name.now self.old self.new) }
        ensures planned { FailsAsSet (λ left. left - 1) (failures_of self.old) (failures_of self.new) (IsErr result) }
    {
        if self.failures.stops_change() {
            match self.store.tear(name) {
                Ok(()) => self.failures.counts.fail(),
                Err(NoMemory) => self.failures.counts.fall_short(),
            }
            return Err(Failed);
        }
        if let Err(NoMemory) = self.store.sync(name) {
            self.failures.counts.fall_short();
            return Err(Failed);
        }
        Ok(())
    }

    fn rename(&mut self, from: &str, to: &str) -> Result<(), Failed>
        requires named { IsPathname from.now × IsPathname to.now }
        requires there { IsSome ((told_by self.old).files from.now) }
        requires differ { from.now ≢ to.now }
        ensures change { ChangesWhole (after_rename from.now to.now) (Some (told_by self.old)) (Some (told_by self.new))
            result }
        ensures cause { CountsFailure (volume_counts self.old).faults (volume_counts self.new).faults (IsErr result) }
        ensures failed { OnErr result (told_by self.new ≡ told_by self.old) }
        ensures planned { FailsAsSet (λ left. left - 1) (failures_of self.old) (failures_of self.new) (IsErr result) }
    {
        if self.failures.stops_change() {
            self.failures.counts.fail();
            return Err(Failed);
        }
        if let Err(NoMemory) = self.store.rename(from, to) {
            self.failures.counts.fall_short();
            return Err(Failed);
        }
        Ok(())
    }

    fn remove(&mut self, name: &str) -> Result<(), Failed>
        requires { IsPathname name.now }
        ensures change { ChangesWhole (after_remove name.now) (Some (told_by self.old)) (Some (told_by self.new))
            result }
        ensures cause { CountsFailure (volume_counts self.old).faults (volume_counts self.new).faults (IsErr result) }
        ensures failed { OnErr result (told_by self.new ≡ told_by self.old) }
        ensures planned { FailsAsSet (λ left. left - 1) (failures_of self.old) (failures_of self.new) (IsErr result) }
    {
        if self.failures.stops_change() {
            self.failures.counts.fail();
            return Err(Failed);
        }
        if let Err(NoMemory) = self.store.remove(name) {
            self.failures.counts.fall_short();
            return Err(Failed);
        }
        Ok(())
    }

    fn read(&mut self, alloc: Global, name: &str) -> Result<Option<Vec<u8>>, ReadFault>
        requires { IsPathname name.now }
        ensures bytes { IfOk result (λ found. option_map (λ v. v.items) found
            ≡ contents_at (told_by self.old).files name.now) }
        ensures disk { told_by self.new ≡ told_by self.old }
        ensures cause { CountsFailure (volume_counts self.old).faults (volume_counts self.new).faults
            (result ≡ Err ReadFault.Failed) }
        ensures planned { FailsAsSet (λ left. left) (failures_of self.old) (failures_of self.new)
            (result ≡ Err ReadFault.Failed) }
    {
        if self.failures.stops_read() {
            self.failures.counts.fail();
            return Err(ReadFault::Failed);
        }
        match self.store.table.read(alloc, name) {
            Ok(found) => Ok(found),
            Err(NoMemory) => Err(ReadFault::Memory),
        }
    }

    fn read_at(&mut self, name: &str, at: u64, into: &mut [u8]) -> Result<Option<usize>, Failed>
        requires { IsPathname name.now }
        ensures within { IfOk result (λ found. IfSome found (λ n. n ≤ length into.old)) }
        ensures bytes { IfOk result (λ found.
            ReadsAt (contents_at (told_by self.old).files name.now) at (length into.old) found into.new) }
        ensures disk { told_by self.new ≡ told_by self.old }
        ensures cause { CountsFailure (volume_counts self.old).faults (volume_counts self.new).faults (IsErr result) }
        ensures planned { FailsAsSet (λ left. left) (failures_of self.old) (failures_of self.new) (IsErr result) }
    {
        if self.failures.stops_read() {
            self.failures.counts.fail();
            return Err(Failed);
        }
        Ok(self.store.table.read_at(name, at, into))
    }

    fn size(&mut self, name: &str) -> Result<Option<u64>, Failed>
        requires { IsPathname name.now }
        ensures bytes { IfOk result (λ found.
            found ≡ option_map (λ bytes. length bytes) (contents_at (told_by self.old).files name.now)) }
        ensures disk { told_by self.new ≡ told_by self.old }
        ensures cause { CountsFailure (volume_counts self.old).faults (volume_counts self.new).faults (IsErr result) }
        ensures planned { FailsAsSet (λ left. left) (failures_of self.old) (failures_of self.new) (IsErr result) }
    {
        if self.failures.stops_read() {
            self.failures.counts.fail();
            return Err(Failed);
        }
        Ok(self.store.table.size(name))
    }

    fn names(&mut self, alloc: Global, prefix: &str) -> Result<Vec<Text>, ReadFault>
        ensures names { IfOk result (λ names. IsListing prefix.now (told_by self.old).files names.items) }
        ensures disk { told_by self.new ≡ told_by self.old }
        ensures cause { CountsFailure (volume_counts self.old).faults (volume_counts self.new).faults
            (result ≡ Err ReadFault.Failed) }
        ensures planned { FailsAsSet (λ left. left) (failures_of self.old) (failures_of self.new)
            (result ≡ Err ReadFault.Failed) }
    {
        if self.failures.stops_read() {
            self.failures.counts.fail();
            return Err(ReadFault::Failed);
        }
        match self.store.table.names(alloc, prefix) {
            Ok(names) => Ok(names),
            Err(NoMemory) => Err(ReadFault::Memory),
        }
    }
}
