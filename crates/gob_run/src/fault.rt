//! Why a run wasn't done.

ghost use Rattle.std.specs.Prelude.{◌≡◌};

use gob_cut::CutFault;
use gob_plan::{NoMemory, Text};
use gob_segments::LoadFault;
use gob_seq::{CommitFault, SettleFault};
use gob_turns::TurnsFault;
use thiserror::Error;

/// Why a run wasn't done, in the order in which it may be refused, and then what a device or want of memory stopped.
#[derive(Debug, Drop, Error)]
pub enum RunFault {
    /// A file of the job can't be read.
    #[error("the file {name} can't be read")]
    Damaged { name: Text },
    /// A partition has fewer bytes than were taken of it.
    #[error("the partition {part} has {size} bytes, and {next} were taken of it")]
    Shrunk { part: Text, next: u64, size: u64 },
    /// More ranges and new units than a state may have.
    #[error("{ranges} ranges and {units} new units are too many")]
    Full { ranges: u64, units: u64 },
    #[error("the source failed")]
    SourceFault,
    #[error("the volume failed")]
    VolumeFault,
    #[error("no memory is left")]
    Memory,
}

impl From<NoMemory> for RunFault {
    ghost use Rattle.gob_run.specs.declared.fault.RunFault.TheVariants as fault;

    ghost from_gives = { λ _ f. f ≡ fault.Memory };

    fn from(_: NoMemory) -> Self {
        RunFault::Memory
    }
}

impl From<SettleFault> for RunFault {
    ghost use Rattle.gob_run.specs.Faults.{run_of_settle};

    ghost from_gives = { λ settle f. f ≡ run_of_settle settle };

    fn from(fault: SettleFault) -> Self {
        match fault {
            SettleFault::Failed => RunFault::VolumeFault,
            SettleFault::Memory => RunFault::Memory,
            SettleFault::Damaged { name } => RunFault::Damaged { name },
        }
    }
}

impl From<LoadFault> for RunFault {
    ghost use Rattle.gob_run.specs.Faults.{run_of_load};

    ghost from_gives = { λ load f. f ≡ run_of_load load };

    fn from(fault: LoadFault) -> Self {
        match fault {
            LoadFault::Failed => RunFault::VolumeFault,
            LoadFault::Memory => RunFault::Memory,
            LoadFault::Damaged { name } => RunFault::Damaged { name },
        }
    }
}

impl From<CutFault> for RunFault {
    ghost use Rattle.gob_run.specs.Faults.{run_of_cut};

    ghost from_gives = { λ cut f. f ≡ run_of_cut cut };

    fn from(fault: CutFault) -> Self {
        match fault {
            CutFault::Shrunk { part, next, size } => RunFault::Shrunk { part, next, size },
            CutFault::Failed => RunFault::SourceFault,
            CutFault::Memory => RunFault::Memory,
        }
    }
}

impl From<TurnsFault> for RunFault {
    ghost use Rattle.gob_run.specs.Faults.{run_of_turns};

    ghost from_gives = { λ turns f. f ≡ run_of_turns turns };

    fn from(fault: TurnsFault) -> Self {
        match fault {
            TurnsFault::Failed => RunFault::VolumeFault,
            TurnsFault::Memory => RunFault::Memory,
        }
    }
}

impl From<CommitFault> for RunFault {
    ghost use Rattle.gob_run.specs.Faults.{run_of_commit};

    ghost from_gives = { λ commit f. f ≡ run_of_commit commit };

    fn from(fault: CommitFault) -> Self {
        match fault {
            CommitFault::Failed => RunFault::VolumeFault,
            CommitFault::Memory => RunFault::Memory,
        }
    }
}
