//! The calls that a volume in memory lists.

use gob_plan::{Bytes, Text};

/// A call that may have changed the files, with what it was given.
#[derive(Drop)]
pub enum Call {
    Create { name: Text },
    Append { name: Text, bytes: Bytes },
    Sync { name: Text },
    Rename { from: Text, to: Text },
    Remove { name: Text },
    /// An append or a sync that failed.
    Tear { name: Text },
    Put { name: Text, bytes: Bytes },
    Crash { tail: Bytes },
}
