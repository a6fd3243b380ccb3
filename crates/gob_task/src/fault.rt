//! Why a turn wasn't ended.
ghost use Rattle.std.specs.Prelude.{◌≡◌};

use gob_plan::NoMemory;
use gob_stage::StageFault;
use thiserror::Error;

#[derive(Clone, Copy, Debug, PartialEq, Eq, Error)]
pub enum TurnFault {
    #[error("the volume failed")]
    Failed,
    #[error("no memory is left")]
    Memory,
}

impl From<NoMemory> for TurnFault {
    ghost use Rattle.gob_task.specs.declared.fault.TurnFault.TheVariants as fault;

    ghost from_gives = { λ _ f. f ≡ fault.Memory };

    fn from(_: NoMemory) -> Self {
        TurnFault::Memory
    }
}

impl From<StageFault> for TurnFault {
    ghost use Rattle.gob_task.specs.Turn.{turn_fault_of};

    ghost from_gives = { λ e f. f ≡ turn_fault_of e };

    fn from(fault: StageFault) -> Self {
        match fault {
            StageFault::Failed => TurnFault::Failed,
            StageFault::Memory => TurnFault::Memory,
        }
    }
}
