//! Why no units were cut.
ghost use Rattle.std.specs.Prelude.{◌≡◌};

use gob_plan::{Failed, NoMemory, Text};
use thiserror::Error;

#[derive(Debug, Drop, Error)]
pub enum CutFault {
    /// The first partition of the listing that is shorter than what was taken of it.
    #[error("the partition {part} has {size} bytes, and {next} were taken")]
    Shrunk { part: Text, next: u64, size: u64 },
    #[error("the source failed")]
    Failed,
    #[error("no memory is left")]
    Memory,
}

/// Why a look at the source gave no unit.
#[derive(Clone, Copy, Debug, PartialEq, Eq, Error)]
pub enum Stop {
    #[error("the source failed")]
    Failed,
    #[error("no memory is left")]
    Memory,
}

impl From<Failed> for Stop {
    ghost use Rattle.gob_cut.specs.declared.fault.Stop.TheVariants as stop;

    ghost from_gives = { λ _ s. s ≡ stop.Failed };

    fn from(_: Failed) -> Self {
        Stop::Failed
    }
}

impl From<NoMemory> for Stop {
    ghost use Rattle.gob_cut.specs.declared.fault.Stop.TheVariants as stop;

    ghost from_gives = { λ _ s. s ≡ stop.Memory };

    fn from(_: NoMemory) -> Self {
        Stop::Memory
    }
}

impl From<Stop> for CutFault {
    ghost use Rattle.gob_cut.specs.Faults.{cut_fault_of};

    ghost from_gives = { λ s f. f ≡ cut_fault_of s };

    fn from(stop: Stop) -> Self {
        match stop {
            Stop::Failed => CutFault::Failed,
            Stop::Memory => CutFault::Memory,
        }
    }
}

impl From<NoMemory> for CutFault {
    ghost use Rattle.gob_cut.specs.declared.fault.CutFault.TheVariants as fault;

    ghost from_gives = { λ _ f. f ≡ fault.Memory };

    fn from(_: NoMemory) -> Self {
        CutFault::Memory
    }
}
