//! Why a sequence wasn't done.

ghost use Rattle.std.specs.Prelude.{◌≡◌};

use gob_plan::{Failed, NoMemory, Text};
use gob_volume::ReadFault;
use thiserror::Error;

/// Why a sequence wasn't committed, or staged files weren't taken away.
#[derive(Clone, Copy, Debug, PartialEq, Eq, Error)]
pub enum CommitFault {
    #[error("the volume failed")]
    Failed,
    #[error("no memory is left")]
    Memory,
}

impl From<Failed> for CommitFault {
    ghost use Rattle.gob_seq.specs.declared.faults.CommitFault.TheVariants as commit_fault;

    ghost from_gives = { λ _ fault. fault ≡ commit_fault.Failed };

    fn from(_: Failed) -> Self {
        CommitFault::Failed
    }
}

impl From<NoMemory> for CommitFault {
    ghost use Rattle.gob_seq.specs.declared.faults.CommitFault.TheVariants as commit_fault;

    ghost from_gives = { λ _ fault. fault ≡ commit_fault.Memory };

    fn from(_: NoMemory) -> Self {
        CommitFault::Memory
    }
}

impl From<ReadFault> for CommitFault {
    ghost use Rattle.gob_seq.specs.Faults.{commit_of_read};

    ghost from_gives = { λ read fault. fault ≡ commit_of_read read };

    fn from(fault: ReadFault) -> Self {
        match fault {
            ReadFault::Failed => CommitFault::Failed,
            ReadFault::Memory => CommitFault::Memory,
        }
    }
}

/// Why a volume wasn't settled.
#[derive(Debug, Drop, Error)]
pub enum SettleFault {
    #[error("the volume failed")]
    Failed,
    #[error("no memory is left")]
    Memory,
    /// The open sequence can't be done, and nothing was changed: it can't be read, or a file that it moves is lost.
    #[error("{name} is damaged")]
    Damaged { name: Text },
}

impl From<Failed> for SettleFault {
    ghost use Rattle.gob_seq.specs.declared.faults.SettleFault.TheVariants as settle_fault;

    ghost from_gives = { λ _ fault. fault ≡ settle_fault.Failed };

    fn from(_: Failed) -> Self {
        SettleFault::Failed
    }
}

impl From<NoMemory> for SettleFault {
    ghost use Rattle.gob_seq.specs.declared.faults.SettleFault.TheVariants as settle_fault;

    ghost from_gives = { λ _ fault. fault ≡ settle_fault.Memory };

    fn from(_: NoMemory) -> Self {
        SettleFault::Memory
    }
}

impl From<ReadFault> for SettleFault {
    ghost use Rattle.gob_seq.specs.Faults.{settle_of_read};

    ghost from_gives = { λ read fault. fault ≡ settle_of_read read };

    fn from(fault: ReadFault) -> Self {
        match fault {
            ReadFault::Failed => SettleFault::Failed,
            ReadFault::Memory => SettleFault::Memory,
        }
    }
}

impl From<CommitFault> for SettleFault {
    ghost use Rattle.gob_seq.specs.Faults.{settle_of_commit};

    ghost from_gives = { λ commit fault. fault ≡ settle_of_commit commit };

    fn from(fault: CommitFault) -> Self {
        match fault {
            CommitFault::Failed => SettleFault::Failed,
            CommitFault::Memory => SettleFault::Memory,
        }
    }
}
