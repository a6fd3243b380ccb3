//! Why nothing was loaded.

ghost use Rattle.std.specs.Prelude.{◌≡◌};

use gob_plan::{NoMemory, Text};
use gob_volume::ReadFault;
use thiserror::Error;

/// Why what is kept of a job wasn't loaded.
#[derive(Debug, Drop, Error)]
pub enum LoadFault {
    #[error("the volume failed")]
    Failed,
    #[error("no memory is left")]
    Memory,
    /// What is kept can't be read, and this is the first file of it that isn't what it should be.
    #[error("{name} is damaged")]
    Damaged { name: Text },
}

impl From<NoMemory> for LoadFault {
    ghost use Rattle.gob_segments.specs.declared.faults.LoadFault.TheVariants as load_fault;

    ghost from_gives = { λ _ fault. fault ≡ load_fault.Memory };

    fn from(_: NoMemory) -> Self {
        LoadFault::Memory
    }
}

impl From<ReadFault> for LoadFault {
    ghost use Rattle.gob_segments.specs.Loading.{load_of_read};

    ghost from_gives = { λ read fault. fault ≡ load_of_read read };

    fn from(fault: ReadFault) -> Self {
        match fault {
            ReadFault::Failed => LoadFault::Failed,
            ReadFault::Memory => LoadFault::Memory,
        }
    }
}
