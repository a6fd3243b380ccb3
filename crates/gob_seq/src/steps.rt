//! How steps are done, and which of them can be.

ghost use Rattle.std.specs.Prelude.{◌≡◌, ◌||◌, ◌≤◌, not, true, map, is_some, IfOk, IfSome, MatchOption, OnErr, OnOk};
ghost use Rattle.std.specs.List.{list_all};
ghost use Rattle.gob_device.specs.Causes.{Rose};
ghost use Rattle.gob_device.specs.Disk.{AddsMaps, Along, Whole};
ghost use Rattle.gob_device.specs.Names.{IsPathname};
ghost use Rattle.gob_recovery.specs.Settle.{can_do, do_step, do_steps};
ghost use Rattle.gob_seq.specs.Maps.{EndsAs, Finishes, FirstLost, FrontIsDone, finished_files};
ghost use Rattle.gob_seq.specs.Steps.{is_callable, commit_step_of};

use crate::sequence::SeqStep;
use gob_plan::Failed;
use gob_volume::Volume;

/// Does the steps of an open sequence and takes it away.
pub(crate) fn finish<V: Volume>(volume: &mut V, name: &str, steps: &[SeqStep]) -> Result<(), Failed>
    requires named { IsPathname name.now }
    requires steps { list_all is_callable (map commit_step_of steps.now) ≡ true }
    ensures maps { Along (Finishes name.now (map commit_step_of steps.now)) (V.disk volume.old) (V.disk volume.new) }
    ensures ok { OnOk result (AddsMaps (EndsAs (finished_files name.now (map commit_step_of steps.now)))
        (V.disk volume.old) (V.disk volume.new)) }
    ensures err { OnErr result (Rose (V.faults volume.old) (V.faults volume.new)) }
    ensures goes_on { V.faults volume.old ≤ V.faults volume.new }
{
    do_steps(volume, steps)?;
    volume.remove(name)?;
    Ok(())
}

fn do_steps<V: Volume>(volume: &mut V, steps: &[SeqStep]) -> Result<(), Failed>
    requires steps { list_all is_callable (map commit_step_of steps.now) ≡ true }
    ensures maps { Along (FrontIsDone (map commit_step_of steps.now)) (V.disk volume.old) (V.disk volume.new) }
    ensures ok { OnOk result (AddsMaps (EndsAs (do_steps (map commit_step_of steps.now)))
        (V.disk volume.old) (V.disk volume.new)) }
    ensures err { OnErr result (Rose (V.faults volume.old) (V.faults volume.new)) }
    ensures goes_on { V.faults volume.old ≤ V.faults volume.new }
{
    for step in steps {
        do_step(volume, step)?;
    }
    Ok(())
}

// A move whose source is gone was done already.
fn do_step<V: Volume>(volume: &mut V, step: &SeqStep) -> Result<(), Failed>
    requires { is_callable (commit_step_of step.now) ≡ true }
    ensures maps { Along (Whole (do_step (commit_step_of step.now))) (V.disk volume.old) (V.disk volume.new) }
    ensures ok { OnOk result (AddsMaps (EndsAs (do_step (commit_step_of step.now))) (V.disk volume.old)
        (V.disk volume.new)) }
    ensures err { OnErr result (Rose (V.faults volume.old) (V.faults volume.new)) }
    ensures goes_on { V.faults volume.old ≤ V.faults volume.new }
{
    match step {
        SeqStep::Move { from, to } => {
            if let Some(_) = volume.size(from.as_str())? {
                volume.rename(from.as_str(), to.as_str())?;
            }
        }
        SeqStep::Remove { name } => volume.remove(name.as_str())?,
    }
    Ok(())
}

/// The source of the first move of which neither name is there.
pub(crate) fn first_lost<'a, V: Volume>(
    volume: &mut V,
    steps: &'a [SeqStep],
) -> Result<Option<&'a str>, Failed>
    requires steps { list_all is_callable (map commit_step_of steps.now) ≡ true }
    ensures lost { IfOk result (λ lost. IfSome (V.disk volume.old) (λ d. MatchOption lost
        (list_all (can_do d.files) (map commit_step_of steps.now) ≡ true)
        (λ source. FirstLost d.files (map commit_step_of steps.now) source.now))) }
    ensures disk { V.disk volume.new ≡ V.disk volume.old }
    ensures err { OnErr result (Rose (V.faults volume.old) (V.faults volume.new)) }
    ensures goes_on { V.faults volume.old ≤ V.faults volume.new }
{
    for step in steps {
        if let SeqStep::Move { from, to } = step {
            let source = from.as_str();
            if is_lost(volume, source, to.as_str())? {
                return Ok(Some(source));
            }
        }
    }
    Ok(None)
}

fn is_lost<V: Volume>(volume: &mut V, from: &str, to: &str) -> Result<bool, Failed>
    requires named { IsPathname from.now × IsPathname to.now }
    ensures lost { IfOk result (λ lost. IfSome (V.disk volume.old)
        (λ d. lost ≡ not (is_some (d.files from.now) || is_some (d.files to.now)))) }
    ensures disk { V.disk volume.new ≡ V.disk volume.old }
    ensures err { OnErr result (Rose (V.faults volume.old) (V.faults volume.new)) }
    ensures goes_on { V.faults volume.old ≤ V.faults volume.new }
{
    if let Some(_) = volume.size(from)? {
        return Ok(false);
    }
    Ok(volume.size(to)?.is_none())
}
