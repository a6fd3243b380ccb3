//! How a sequence is committed.

ghost use Rattle.std.specs.Prelude.{◌≡◌, ◌≤◌, ◌↔◌, [], IfErr, IfOk, IfSome, IsTrue, OnErr, OnOk};
ghost use Rattle.gob_bytes.specs.Paths.{staging, under};
ghost use Rattle.gob_device.specs.Causes.{Rose};
ghost use Rattle.gob_device.specs.Disk.{AddsMaps, Along, OnlyAt};
ghost use Rattle.gob_device.specs.Names.{IsPathname};
ghost use Rattle.gob_recovery.specs.Commits.{OnlyBelow, part_done};
ghost use Rattle.gob_recovery.specs.Sequence.{WellFormed};
ghost use Rattle.gob_recovery.specs.Settle.{do_steps, without_staging};
ghost use Rattle.gob_seq.specs.Faults.{RoseIfFailed};
ghost use Rattle.gob_seq.specs.Maps.{CommitsByName, EndsAs, GoesOver, IsReady, after_write};

use crate::CommitFault;
use crate::place::Place;
use crate::sequence::Sequence;
use crate::staging::clean_staging;
use crate::steps::{finish, first_lost};
use crate::write::write_sequence;
use gob_plan::Failed;
use gob_volume::Volume;
use std::alloc::Global;

/// Whether the sequence can be committed now: no sequence is open, and a name of each move is there.
pub fn is_ready<V: Volume>(
    alloc: Global,
    volume: &mut V,
    job: &str,
    sequence: &Sequence,
) -> Result<bool, CommitFault>
    requires named { IsPathname job.now }
    requires fits { WellFormed job.now sequence.now }
    ensures ready { IfOk result (λ ready. IfSome (V.disk volume.old)
        (λ d. IsTrue ready ↔ IsReady job.now sequence.now d.files)) }
    ensures disk { V.disk volume.new ≡ V.disk volume.old }
    ensures err { IfErr result (RoseIfFailed (V.faults volume.old) (V.faults volume.new)) }
    ensures goes_on { V.faults volume.old ≤ V.faults volume.new }
{
    let place = Place::new(alloc, job)?;
    if let Some(_) = volume.size(place.sequence.as_str())? {
        return Ok(false);
    }
    match first_lost(volume, sequence.steps())? {
        Some(_) => Ok(false),
        None => Ok(true),
    }
}

/// Does all steps of the sequence or none, wherever it is stopped and then settled, and takes away what is staged. It
/// costs a write of the sequence's text, one call a step, five calls more, and one for each staged file that is left.
pub fn commit<V: Volume>(
    alloc: Global,
    volume: &mut V,
    job: &str,
    sequence: &Sequence,
) -> Result<(), CommitFault>
    requires named { IsPathname job.now }
    requires fits { WellFormed job.now sequence.now }
    requires ready { IfSome (V.disk volume.old) (λ d. IsReady job.now sequence.now d.files) }
    ensures rises { AddsMaps (GoesOver job.now sequence.now) (V.disk volume.old) (V.disk volume.new) }
    ensures readers { Along (CommitsByName job.now sequence.now) (V.disk volume.old) (V.disk volume.new) }
    ensures ok { OnOk result (AddsMaps (EndsAs (λ m. without_staging job.now (do_steps sequence.now m)))
        (V.disk volume.old) (V.disk volume.new)) }
    ensures below { Along (OnlyBelow (under job.now [])) (V.disk volume.old) (V.disk volume.new) }
    ensures err { IfErr result (RoseIfFailed (V.faults volume.old) (V.faults volume.new)) }
    ensures goes_on { V.faults volume.old ≤ V.faults volume.new }
{
    commit_part(alloc, volume, job, sequence)?;
    clean_staging(alloc, volume, job)?;
    Ok(())
}

/// Does all steps of the sequence or none, wherever it is stopped and then settled. What else is staged stays.
pub fn commit_part<V: Volume>(
    alloc: Global,
    volume: &mut V,
    job: &str,
    sequence: &Sequence,
) -> Result<(), CommitFault>
    requires named { IsPathname job.now }
    requires fits { WellFormed job.now sequence.now }
    requires ready { IfSome (V.disk volume.old) (λ d. IsReady job.now sequence.now d.files) }
    ensures rises { AddsMaps (GoesOver job.now sequence.now) (V.disk volume.old) (V.disk volume.new) }
    ensures readers { Along (CommitsByName job.now sequence.now) (V.disk volume.old) (V.disk volume.new) }
    ensures ok { OnOk result (AddsMaps (EndsAs (part_done job.now sequence.now))
        (V.disk volume.old) (V.disk volume.new)) }
    ensures below { Along (OnlyBelow (under job.now [])) (V.disk volume.old) (V.disk volume.new) }
    ensures err { IfErr result (RoseIfFailed (V.faults volume.old) (V.faults volume.new)) }
    ensures goes_on { V.faults volume.old ≤ V.faults volume.new }
{
    let place = Place::new(alloc, job)?;
    let text = write_sequence(alloc, sequence)?;
    let staged = place.staged.as_str();
    let opened = place.sequence.as_str();
    write_file(volume, staged, text.as_slice())?;
    volume.rename(staged, opened)?;
    finish(volume, opened, sequence.steps())?;
    Ok(())
}

/// Makes a file with these bytes, all of them kept, in place of what was there.
pub fn write_file<V: Volume>(volume: &mut V, name: &str, bytes: &[u8]) -> Result<(), Failed>
    requires named { IsPathname name.now }
    ensures only { Along (OnlyAt name.now) (V.disk volume.old) (V.disk volume.new) }
    ensures ok { OnOk result (AddsMaps (EndsAs (after_write name.now bytes.now))
        (V.disk volume.old) (V.disk volume.new)) }
    ensures err { OnErr result (Rose (V.faults volume.old) (V.faults volume.new)) }
    ensures goes_on { V.faults volume.old ≤ V.faults volume.new }
{
    volume.create(name)?;
    volume.append(name, bytes)?;
    volume.sync(name)?;
    Ok(())
}
