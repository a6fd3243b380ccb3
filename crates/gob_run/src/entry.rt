//! How a run begins.
ghost use Rattle.std.specs.Prelude.{◌≤◌, ℕ, List, [], IfErr, IfOk, IfSome};
ghost use Rattle.gob_bytes.specs.Paths.{under};
ghost use Rattle.gob_device.specs.Disk.{AddsMaps, Along, Both};
ghost use Rattle.gob_device.specs.Names.{IsPathname};
ghost use Rattle.gob_recovery.specs.Commits.{OnlyBelow};
ghost use Rattle.gob_seq.specs.Maps.{ImagesSettleTheSame, OnlyUnstages, SettlesByName};
ghost use Rattle.gob_segments.specs.Loading.{LoadedFits};
ghost use Rattle.gob_run.specs.Answers.{ToldFirst};
ghost use Rattle.gob_run.specs.Entry.{IsBroken, StaysDamaged};
ghost use Rattle.gob_run.specs.Faults.{BeginsNot, Finds};
ghost use Rattle.gob_run.specs.declared.fault.RunFault.TheVariants.{Damaged};

use crate::RunFault;
use gob_segments::{Loaded, load};
use gob_seq::settle;
use gob_volume::Volume;
use std::alloc::Global;

/// Settles what a stopped run left, and loads what is kept then.
pub fn settle_and_load<V: Volume>(
    alloc: Global,
    volume: &mut V,
    job: &str,
) -> Result<Loaded, RunFault>
    requires named { IsPathname job.now }
    ensures found { IfOk result (λ l. AddsMaps (Finds job.now l) (V.disk volume.old) (V.disk volume.new)) }
    ensures fits { IfOk result LoadedFits }
    ensures alike { Along (ImagesSettleTheSame job.now) (V.disk volume.old) (V.disk volume.new) }
    ensures readers { Along (SettlesByName job.now) (V.disk volume.old) (V.disk volume.new) }
    ensures unstages { Along (OnlyUnstages job.now) (V.disk volume.old) (V.disk volume.new) }
    ensures damaged { Both (StaysDamaged job.now) (V.disk volume.old) (V.disk volume.new) }
    ensures below { Along (OnlyBelow (under job.now [])) (V.disk volume.old) (V.disk volume.new) }
    ensures stopped { IfErr result (BeginsNot job.now (V.disk volume.old) (V.disk volume.new)
        (V.faults volume.old) (V.faults volume.new)) }
    ensures due { IfSome (V.disk volume.old) (λ d. (name : List ℕ) → IsBroken job.now d.files name
        → ToldFirst result (Damaged name)) }
    ensures goes_on { V.faults volume.old ≤ V.faults volume.new }
{
    settle(alloc, volume, job)?;
    let loaded = load(alloc, volume, job)?;
    Ok(loaded)
}
