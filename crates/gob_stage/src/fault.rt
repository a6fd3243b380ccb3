//! Why nothing was staged.
ghost use Rattle.std.specs.Prelude.{◌≡◌};

use gob_plan::{Failed, NoMemory};
use thiserror::Error;

#[derive(Clone, Copy, Debug, PartialEq, Eq, Error)]
pub enum StageFault {
    #[error("the volume failed")]
    Failed,
    #[error("no memory is left")]
    Memory,
}

impl From<Failed> for StageFault {
    ghost use Rattle.gob_stage.specs.declared.fault.StageFault.TheVariants as fault;

    ghost from_gives = { λ _ f. f ≡ fault.Failed };

    fn from(_: Failed) -> Self {
        StageFault::Failed
    }
}

impl From<NoMemory> for StageFault {
    ghost use Rattle.gob_stage.specs.declared.fault.StageFault.TheVariants as fault;

    ghost from_gives = { λ _ f. f ≡ fault.Memory };

    fn from(_: NoMemory) -> Self {
        StageFault::Memory
    }
}
