//! `recover JOB`: what a stopped run left is settled.
ghost use Rattle.gob_device.specs.Names.{IsPathname};
ghost use Rattle.gob_run.specs.World.{World};
ghost use Rattle.gob_top.specs.Made.{told_when_done};
ghost use Rattle.gob_top.specs.Settlings.{RecoverAnswered};

use crate::Report;
use crate::stopped::Stopped;
use gob_report::recovery_text;
use gob_seq::settle;
use gob_volume::Volume;
use std::alloc::Global;

/// Settles what a stopped run left, and tells whether a sequence was open.
pub(crate) fn recover<V: Volume>(
    alloc: Global,
    job: &str,
    volume: &mut V,
) -> Result<Report, Stopped>
    requires named { IsPathname job.now }
    ensures { (w : World) → RecoverAnswered job.now
        (record w { disk = V.disk volume.old; volume_faults = V.faults volume.old })
        (record w { disk = V.disk volume.new; volume_faults = V.faults volume.new })
        (told_when_done result) }
{
    let settled = settle(alloc, volume, job)?;
    let text = recovery_text(alloc, job, settled.was_open)?;
    Ok(Report { status: 0, text })
}
