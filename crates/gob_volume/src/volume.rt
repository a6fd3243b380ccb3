//! A volume: named files, and what a crash may take of them.

ghost use Rattle.std.specs.Prelude.{◌≡◌, ◌≢◌, ◌≤◌, ℕ, length, option_map, IfOk, IfSome, IsErr, IsSome};
ghost use Rattle.std.specs.declared.option.Option.{Option};
ghost use Rattle.gob_device.specs.Causes.{CountsFailure};
ghost use Rattle.gob_device.specs.Disk.{ChangesFile, ChangesWhole, Disk, IsListing, contents_at};
ghost use Rattle.gob_device.specs.Disk.{after_append, after_create, after_remove, after_rename, after_sync};
ghost use Rattle.gob_device.specs.Names.{IsPathname};
ghost use Rattle.gob_volume.specs.Reads.{ReadsAt};

use gob_plan::{Failed, Text};
use std::alloc::Global;
use thiserror::Error;

/// Why nothing was read.
#[derive(Clone, Copy, Debug, PartialEq, Eq, Error)]
pub enum ReadFault {
    #[error("the volume failed")]
    Failed,
    #[error("no memory is left")]
    Memory,
}

/// Named files. What is appended is kept for good only once it was synced; create, rename and remove last once they
/// were answered. A volume may tell the map that stands and the maps that stood, one for each changing call; no call
/// changes whether it does. Each call that fails raises a count of faults, which stops at the end of a `u64`; no other
/// call does. A call takes no empty name and none with a NUL byte, which no folder has.
pub trait Volume {
    /// The files, and the maps that stood, where the volume tells.
    ghost disk: { Self → Option Disk };

    /// How often a call failed.
    ghost faults: { Self → ℕ };

    /// Makes the name an empty file, in place of what was there.
    fn create(&mut self, name: &str) -> Result<(), Failed>
        requires { IsPathname name.now }
        ensures change { ChangesWhole (after_create name.now) (disk self.old) (disk self.new) result }
        ensures cause { CountsFailure (faults self.old) (faults self.new) (IsErr result) };

    /// Adds bytes at the end of a file. Until a sync a crash may lose them.
    fn append(&mut self, name: &str, bytes: &[u8]) -> Result<(), Failed>
        requires named { IsPathname name.now }
        requires there { IfSome (disk self.old) (λ d. IsSome (d.files name.now)) }
        ensures change { ChangesFile name.now (after_append name.now bytes.now) (disk self.old) (disk self.new) result }
        ensures cause { CountsFailure (faults self.old) (faults self.new) (IsErr result) };

    /// Keeps all that the file holds.
    fn sync(&mut self, name: &str) -> Result<(), Failed>
        requires named { IsPathname name.now }
        requires there { IfSome (disk self.old) (λ d. IsSome (d.files name.now)) }
        ensures change { ChangesFile name.now (after_sync name.now) (disk self.old) (disk self.new) result }
        ensures cause { CountsFailure (faults self.old) (faults self.new) (IsErr result) };

    /// Gives a file another name, in place of what was there.
    fn rename(&mut self, from: &str, to: &str) -> Result<(), Failed>
        requires named { IsPathname from.now × IsPathname to.now }
        requires there { IfSome (disk self.old) (λ d. IsSome (d.files from.now)) }
        requires differ { from.now ≢ to.now }
        ensures change { ChangesWhole (after_rename from.now to.now) (disk self.old) (disk self.new) result }
        ensures cause { CountsFailure (faults self.old) (faults self.new) (IsErr result) };

    /// Takes a name away. One that isn't there is taken away already.
    fn remove(&mut self, name: &str) -> Result<(), Failed>
        requires { IsPathname name.now }
        ensures change { ChangesWhole (after_remove name.now) (disk self.old) (disk self.new) result }
        ensures cause { CountsFailure (faults self.old) (faults self.new) (IsErr result) };

    /// All that a file holds, or None where the name isn't there.
    fn read(&mut self, alloc: Global, name: &str) -> Result<Option<Vec<u8>>, ReadFault>
        requires { IsPathname name.now }
        ensures bytes { IfOk result (λ found. IfSome (disk self.old)
            (λ d. option_map (λ v. v.items) found ≡ contents_at d.files name.now)) }
        ensures disk { disk self.new ≡ disk self.old }
        ensures cause { CountsFailure (faults self.old) (faults self.new) (result ≡ Err ReadFault.Failed) };

    /// Fills the front of a buffer with what a file holds from an offset on, and answers how many bytes; None where
    /// the name isn't there. After a failure the buffer may hold anything.
    fn read_at(&mut self, name: &str, at: u64, into: &mut [u8]) -> Result<Option<usize>, Failed>
        requires { IsPathname name.now }
        ensures within { IfOk result (λ found. IfSome found (λ n. n ≤ length into.old)) }
        ensures bytes { IfOk result (λ found. IfSome (disk self.old)
            (λ d. ReadsAt (contents_at d.files name.now) at (length into.old) found into.new)) }
        ensures disk { disk self.new ≡ disk self.old }
        ensures cause { CountsFailure (faults self.old) (faults self.new) (IsErr result) };

    /// The number of bytes that a file holds, or None where the name isn't there.
    fn size(&mut self, name: &str) -> Result<Option<u64>, Failed>
        requires { IsPathname name.now }
        ensures bytes { IfOk result (λ found. IfSome (disk self.old)
            (λ d. found ≡ option_map (λ bytes. length bytes) (contents_at d.files name.now))) }
        ensures disk { disk self.new ≡ disk self.old }
        ensures cause { CountsFailure (faults self.old) (faults self.new) (IsErr result) };

    /// The names that begin so, in byte order.
    fn names(&mut self, alloc: Global, prefix: &str) -> Result<Vec<Text>, ReadFault>
        ensures names { IfOk result (λ names. IfSome (disk self.old) (λ d. IsListing prefix.now d.files names.items)) }
        ensures disk { disk self.new ≡ disk self.old }
        ensures cause { CountsFailure (faults self.old) (faults self.new) (result ≡ Err ReadFault.Failed) };
}
