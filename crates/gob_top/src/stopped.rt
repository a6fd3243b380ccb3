//! Why a command line was refused, or stopped: what each layer below says of it.
ghost use Rattle.std.specs.Prelude.{◌≡◌};

use gob_job::JobFault;
use gob_plan::NoMemory;
use gob_props::PropsFault;
use gob_report::Refusal;
use gob_run::RunFault;
use gob_seq::SettleFault;
use gob_volume::ReadFault;

/// A command was refused, or stopped by a device or want of memory.
#[derive(Debug, Drop)]
pub(crate) struct Stopped {
    pub(crate) refusal: Refusal,
}

impl From<NoMemory> for Stopped {
    ghost use Rattle.gob_report.specs.declared.refusal.Refusal.TheVariants as made;

    ghost from_gives = { λ _ stopped. stopped.refusal ≡ made.Memory };

    fn from(_: NoMemory) -> Self {
        Stopped {
            refusal: Refusal::Memory,
        }
    }
}

impl From<ReadFault> for Stopped {
    ghost use Rattle.gob_report.specs.Refusals.{told_as};
    ghost use Rattle.gob_top.specs.Faults.{read_refusal};

    ghost from_gives = { λ read stopped. told_as stopped.refusal ≡ read_refusal read };

    fn from(fault: ReadFault) -> Self {
        let refusal = match fault {
            ReadFault::Failed => Refusal::VolumeFault,
            ReadFault::Memory => Refusal::Memory,
        };
        Stopped { refusal }
    }
}

impl From<PropsFault> for Stopped {
    ghost use Rattle.gob_report.specs.Refusals.{told_as};
    ghost use Rattle.gob_top.specs.Jobs.{text_refusal};

    ghost from_gives = { λ text stopped. told_as stopped.refusal ≡ text_refusal text };

    fn from(fault: PropsFault) -> Self {
        let refusal = match fault {
            PropsFault::NotUtf8 => Refusal::NotUtf8,
            PropsFault::BadEscape { line } => Refusal::BadEscape { line },
            PropsFault::Memory => Refusal::Memory,
        };
        Stopped { refusal }
    }
}

impl From<JobFault> for Stopped {
    ghost use Rattle.gob_report.specs.Refusals.{told_as};
    ghost use Rattle.gob_top.specs.Faults.{held_refusal};

    ghost from_gives = { λ held stopped. told_as stopped.refusal ≡ held_refusal held };

    fn from(fault: JobFault) -> Self {
        let refusal = match fault {
            JobFault::Missing { key } => Refusal::Missing { key },
            JobFault::BadValue { key } => Refusal::BadValue { key },
            JobFault::BadPolicyCount { key } => Refusal::BadPolicyCount { key },
            JobFault::NoColumn { key, column } => Refusal::NoColumn { key, column },
            JobFault::BadKind { key, column } => Refusal::BadKind { key, column },
            JobFault::Interpolation { key } => Refusal::Interpolation { key },
            JobFault::Memory => Refusal::Memory,
        };
        Stopped { refusal }
    }
}

impl From<SettleFault> for Stopped {
    ghost use Rattle.gob_report.specs.Refusals.{told_as};
    ghost use Rattle.gob_top.specs.Faults.{settle_refusal};

    ghost from_gives = { λ settle stopped. told_as stopped.refusal ≡ settle_refusal settle };

    fn from(fault: SettleFault) -> Self {
        let refusal = match fault {
            SettleFault::Failed => Refusal::VolumeFault,
            SettleFault::Memory => Refusal::Memory,
            SettleFault::Damaged { name } => Refusal::Damaged { name },
        };
        Stopped { refusal }
    }
}

impl From<RunFault> for Stopped {
    ghost use Rattle.gob_report.specs.Refusals.{told_as};
    ghost use Rattle.gob_top.specs.Runs.{run_refusal};

    ghost from_gives = { λ run stopped. told_as stopped.refusal ≡ run_refusal run };

    fn from(fault: RunFault) -> Self {
        let refusal = match fault {
            RunFault::Damaged { name } => Refusal::Damaged { name },
            RunFault::Shrunk { part, next, size } => Refusal::Shrunk { part, next, size },
            RunFault::Full { ranges, units } => Refusal::Full { ranges, units },
            RunFault::SourceFault => Refusal::SourceFault,
            RunFault::VolumeFault => Refusal::VolumeFault,
            RunFault::Memory => Refusal::Memory,
        };
        Stopped { refusal }
    }
}
