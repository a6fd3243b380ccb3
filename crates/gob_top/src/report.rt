//! `report JOB`: what a stopped run left is settled, and the job's state is told.
ghost use Rattle.gob_device.specs.Names.{IsPathname};
ghost use Rattle.gob_run.specs.World.{World};
ghost use Rattle.gob_top.specs.Made.{told_when_done};
ghost use Rattle.gob_top.specs.Settlings.{ReportAnswered};

use crate::Report;
use crate::stopped::Stopped;
use gob_report::state_text;
use gob_run::settle_and_load;
use gob_volume::Volume;
use std::alloc::Global;

/// Settles what a stopped run left, and tells the state that is kept then.
pub(crate) fn report<V: Volume>(alloc: Global, job: &str, volume: &mut V) -> Result<Report, Stopped>
    requires named { IsPathname job.now }
    ensures { (w : World) → ReportAnswered job.now
        (record w { disk = V.disk volume.old; volume_faults = V.faults volume.old })
        (record w { disk = V.disk volume.new; volume_faults = V.faults volume.new })
        (told_when_done result) }
{
    let loaded = settle_and_load(alloc, volume, job)?;
    let text = state_text(alloc, job, loaded.state.as_ref())?;
    Ok(Report { status: 0, text })
}
