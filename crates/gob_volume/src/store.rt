//! The files of a volume in memory, and the calls that made them.

ghost use Rattle.std.specs.Prelude.{◌≡◌, ◌≢◌, ◌++◌, ◌∷◌, ◌<◌, [], vec_capacity, vec_len, IsSome, OnErr, OnOk};
ghost use Rattle.gob_device.specs.Disk.{after_append, after_change, after_create};
ghost use Rattle.gob_device.specs.Disk.{after_remove, after_rename, after_sync, no_files};
ghost use Rattle.gob_volume.specs.Calls.{CanBeDone, after_put, map_step_of};
ghost use Rattle.gob_volume.specs.Crashes.{after_crash, after_tear};
ghost use Rattle.gob_volume.specs.Maps.{map_of};
ghost use Rattle.gob_volume.specs.Replay.{IsReplayed, IsReplayed-prop};

use crate::calls::Call;
use crate::file_table::FileTable;
use gob_plan::{Bytes, NoMemory, Text};
use std::alloc::Global;

/// Files, and all calls in order. The trail has the calls after the first so many. Where a call finds no memory all
/// stays as it was.
#[derive(Drop)]
pub struct Store {
    alloc: Global,
    pub table: FileTable,
    calls: Vec<Call>,
    since: usize,
    ghost replayed: { IsReplayed (map_of table) calls.items since } by { IsReplayed-prop (map_of table) calls.items since },
}

impl Store {
    ghost use Rattle.gob_volume.specs.Stores.{disk_of};

    pub fn new(alloc: Global) -> Self
        ensures { disk_of result ≡ record { files = no_files; trail = [] } }
    {
        Store {
            alloc,
            table: FileTable::new(alloc),
            calls: Vec::new(alloc),
            since: 0,
        }
    }

    // Does a call, and lists it.
    fn apply(&mut self, call: Call) -> Result<(), NoMemory>
        requires { CanBeDone call (disk_of self.old).files }
        ensures ok { OnOk result (disk_of self.new ≡ after_change (map_step_of call) (disk_of self.old)) }
        ensures err { OnErr result (disk_of self.new ≡ disk_of self.old) }
    {
        make_room(&mut self.calls)?;
        self.table.apply(&call)?;
        list(&mut self.calls, call);
        Ok(())
    }

    // Begins the trail anew.
    fn begin_trail(&mut self)
        ensures { disk_of self.new ≡ record { files = (disk_of self.old).files; trail = [] } }
    {
        self.since = self.calls.len();
    }

    /// Makes the name an empty file.
    pub fn create(&mut self, name: &str) -> Result<(), NoMemory>
        ensures ok { OnOk result (disk_of self.new ≡ after_change (after_create name.now) (disk_of self.old)) }
        ensures err { OnErr result (disk_of self.new ≡ disk_of self.old) }
    {
        let name = Text::from_str(self.alloc, name)?;
        self.apply(Call::Create { name })
    }

    /// Adds loose bytes to a file.
    pub fn append(&mut self, name: &str, bytes: &[u8]) -> Result<(), NoMemory>
        requires { IsSome ((disk_of self.old).files name.now) }
        ensures ok { OnOk result (disk_of self.new
            ≡ after_change (after_append name.now bytes.now) (disk_of self.old)) }
        ensures err { OnErr result (disk_of self.new ≡ disk_of self.old) }
    {
        let name = Text::from_str(self.alloc, name)?;
        let bytes = Bytes::from_slice(self.alloc, bytes)?;
        self.apply(Call::Append { name, bytes })
    }

    /// Keeps all bytes of a file.
    pub fn sync(&mut self, name: &str) -> Result<(), NoMemory>
        requires { IsSome ((disk_of self.old).files name.now) }
        ensures ok { OnOk result (disk_of self.new ≡ after_change (after_sync name.now) (disk_of self.old)) }
        ensures err { OnErr result (disk_of self.new ≡ disk_of self.old) }
    {
        let name = Text::from_str(self.alloc, name)?;
        self.apply(Call::Sync { name })
    }

    /// Leaves a file dirty with its bytes as they were, as an append or a sync that fails does.
    pub fn tear(&mut self, name: &str) -> Result<(), NoMemory>
        requires { IsSome ((disk_of self.old).files name.now) }
        ensures ok { OnOk result (disk_of self.new ≡ after_change (after_tear name.now) (disk_of self.old)) }
        ensures err { OnErr result (disk_of self.new ≡ disk_of self.old) }
    {
        let name = Text::from_str(self.alloc, name)?;
        self.apply(Call::Tear { name })
    }

    /// Gives a file another name.
    pub fn rename(&mut self, from: &str, to: &str) -> Result<(), NoMemory>
        requires there { IsSome ((disk_of self.old).files from.now) }
        requires differ { from.now ≢ to.now }
        ensures ok { OnOk result (disk_of self.new ≡ after_change (after_rename from.now to.now) (disk_of self.old)) }
        ensures err { OnErr result (disk_of self.new ≡ disk_of self.old) }
    {
        let from = Text::from_str(self.alloc, from)?;
        let to = Text::from_str(self.alloc, to)?;
        self.apply(Call::Rename { from, to })
    }

    /// Takes a name away.
    pub fn remove(&mut self, name: &str) -> Result<(), NoMemory>
        ensures ok { OnOk result (disk_of self.new ≡ after_change (after_remove name.now) (disk_of self.old)) }
        ensures err { OnErr result (disk_of self.new ≡ disk_of self.old) }
    {
        let name = Text::from_str(self.alloc, name)?;
        self.apply(Call::Remove { name })
    }

    /// Places a file that is kept whole, and begins the trail anew.
    pub fn put(&mut self, name: &str, bytes: &[u8]) -> Result<(), NoMemory>
        ensures ok { OnOk result (disk_of self.new
            ≡ record { files = after_put name.now bytes.now (disk_of self.old).files; trail = [] }) }
        ensures err { OnErr result (disk_of self.new ≡ disk_of self.old) }
    {
        let name = Text::from_str(self.alloc, name)?;
        let bytes = Bytes::from_slice(self.alloc, bytes)?;
        self.apply(Call::Put { name, bytes })?;
        self.begin_trail();
        Ok(())
    }

    /// Becomes the image in which these bytes stand in place of loose ones, and begins the trail anew.
    pub fn crash(&mut self, tail: &[u8]) -> Result<(), NoMemory>
        ensures ok { OnOk result (disk_of self.new
            ≡ record { files = after_crash tail.now (disk_of self.old).files; trail = [] }) }
        ensures err { OnErr result (disk_of self.new ≡ disk_of self.old) }
    {
        let tail = Bytes::from_slice(self.alloc, tail)?;
        self.apply(Call::Crash { tail })?;
        self.begin_trail();
        Ok(())
    }
}

// Makes room for one call more.
fn make_room(calls: &mut Vec<Call>) -> Result<(), NoMemory>
    ensures calls { calls.new.items ≡ calls.old.items }
    ensures room { OnOk result (vec_len calls.new < vec_capacity calls.new) }
{
    if let Err(_) = calls.reserve(1) {
        return Err(NoMemory);
    }
    Ok(())
}

// Lists a call for which there is room.
fn list(calls: &mut Vec<Call>, call: Call)
    requires { vec_len calls.old < vec_capacity calls.old }
    ensures { calls.new.items ≡ calls.old.items ++ call ∷ [] }
{
    if let Err(_) = calls.push(call) {
        unreachable!();
    }
}
