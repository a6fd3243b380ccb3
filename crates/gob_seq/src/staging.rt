//! How staged files are taken away.

ghost use Rattle.std.specs.Prelude.{◌≡◌, ◌≤◌, [], map, IfErr, IfOk, IsErr, IsTrue, OnErr, OnOk};
ghost use Rattle.std.specs.List.{list_all};
ghost use Rattle.gob_bytes.specs.Paths.{staging, under};
ghost use Rattle.gob_device.specs.Disk.{AddsMaps, Along, Whole, after_remove};
ghost use Rattle.gob_device.specs.Names.{IsPathname, is_name_byte, is_pathname};
ghost use Rattle.gob_recovery.specs.Commits.{OnlyBelow};
ghost use Rattle.gob_recovery.specs.Sequence.{remove};
ghost use Rattle.gob_recovery.specs.Settle.{do_steps, without_staging};
ghost use Rattle.gob_seq.specs.Faults.{RoseIfFailed};
ghost use Rattle.gob_seq.specs.Maps.{EndsAs, FrontIsDone, OnlyUnstages};

use crate::CommitFault;
use crate::place::Place;
use gob_plan::Text;
use gob_volume::Volume;
use std::alloc::Global;

/// Takes away all that is staged for the job.
pub fn clean_staging<V: Volume>(alloc: Global, volume: &mut V, job: &str) -> Result<(), CommitFault>
    ensures below { Along (OnlyBelow (staging job.now)) (V.disk volume.old) (V.disk volume.new) }
    ensures unstages { Along (OnlyUnstages job.now) (V.disk volume.old) (V.disk volume.new) }
    ensures ok { OnOk result (AddsMaps (EndsAs (without_staging job.now)) (V.disk volume.old) (V.disk volume.new)) }
    ensures err { IfErr result (RoseIfFailed (V.faults volume.old) (V.faults volume.new)) }
    ensures goes_on { V.faults volume.old ≤ V.faults volume.new }
{
    let place = Place::new(alloc, job)?;
    let names = volume.names(alloc, place.staging.as_str())?;
    remove_all(volume, names.as_slice())?;
    Ok(())
}

fn remove_all<V: Volume>(volume: &mut V, names: &[Text]) -> Result<(), CommitFault>
    ensures maps { Along (FrontIsDone (map remove names.now)) (V.disk volume.old) (V.disk volume.new) }
    ensures ok { OnOk result (AddsMaps (EndsAs (do_steps (map remove names.now)))
        (V.disk volume.old) (V.disk volume.new)) }
    ensures err { IfErr result (RoseIfFailed (V.faults volume.old) (V.faults volume.new)) }
    ensures goes_on { V.faults volume.old ≤ V.faults volume.new }
{
    for name in names {
        remove(volume, name.as_str())?;
    }
    Ok(())
}

// No folder has a name with a NUL byte: a volume that lists one can't be cleaned.
fn remove<V: Volume>(volume: &mut V, name: &str) -> Result<(), CommitFault>
    ensures maps { Along (Whole (after_remove name.now)) (V.disk volume.old) (V.disk volume.new) }
    ensures ok { OnOk result (AddsMaps (EndsAs (after_remove name.now)) (V.disk volume.old) (V.disk volume.new)) }
    ensures err { IfErr result (RoseIfFailed (V.faults volume.old) (V.faults volume.new)) }
    ensures goes_on { V.faults volume.old ≤ V.faults volume.new }
{
    if !is_pathname(name) {
        return Err(CommitFault::Memory);
    }
    volume.remove(name)?;
    Ok(())
}

fn is_pathname(name: &str) -> bool
    ensures { result ≡ is_pathname name.now }
{
    !name.is_empty() && has_no_nul(name.as_bytes())
}

fn has_no_nul(bytes: &[u8]) -> bool
    ensures { result ≡ list_all is_name_byte bytes.now }
{
    bytes.iter().all(|b| *b != 0)
}
