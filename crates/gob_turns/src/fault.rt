//! Why the turns of a run weren't ended.
ghost use Rattle.std.specs.Prelude.{◌≡◌};

use gob_plan::NoMemory;
use gob_task::TurnFault;
use thiserror::Error;

#[derive(Clone, Copy, Debug, PartialEq, Eq, Error)]
pub enum TurnsFault {
    #[error("the volume failed")]
    Failed,
    #[error("no memory is left")]
    Memory,
}

impl From<NoMemory> for TurnsFault {
    ghost use Rattle.gob_turns.specs.declared.fault.TurnsFault.TheVariants as fault;

    ghost from_gives = { λ _ f. f ≡ fault.Memory };

    fn from(_: NoMemory) -> Self {
        TurnsFault::Memory
    }
}

impl From<TurnFault> for TurnsFault {
    ghost use Rattle.gob_turns.specs.Faults.{turns_fault_of};

    ghost from_gives = { λ f g. g ≡ turns_fault_of f };

    fn from(fault: TurnFault) -> Self {
        match fault {
            TurnFault::Failed => TurnsFault::Failed,
            TurnFault::Memory => TurnsFault::Memory,
        }
    }
}
