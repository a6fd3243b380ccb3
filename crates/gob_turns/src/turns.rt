//! The turns of all units of a run.
ghost use Rattle.std.specs.Prelude.{◌≡◌, ◌≤◌, ◌+◌, ◌*◌, [], IfOk};
ghost use Rattle.std.specs.declared.option.Option.TheVariants.{Some};
ghost use Rattle.gob_device.specs.Causes.{HasCause, RoseBy};
ghost use Rattle.gob_device.specs.Disk.{Along};
ghost use Rattle.gob_device.specs.Supply.{Supply};
ghost use Rattle.gob_meaning.specs.Job.{Job};
ghost use Rattle.gob_recovery.specs.Commits.{OnlyBelow};
ghost use Rattle.gob_bytes.specs.Paths.{staging};
ghost use Rattle.gob_turns.specs.Asked.{AreHeld, IsWorkedBy, MayHaveTurns};
ghost use Rattle.gob_turns.specs.Taken.{AllGiven, AreCommittable, AreFirstPulls, AreResults, FailuresRose, HasPulled};
ghost use Rattle.gob_turns.specs.Taken.{given_up_in};

use crate::TurnsFault;
use crate::course::Course;
use gob_io::Source;
use gob_plan::{List, TurnRules, Unit, UnitResult};
use gob_task::TaskRules;
use gob_volume::Volume;
use std::alloc::Global;

/// Gives the listed units their turns by the schedule, until each has ended. A unit that isn't listed is gone, without
/// a turn. Beside the results it tells the number, from 0 on, of each turn whose pull failed; where it answers want of
/// memory the last of these may be missing.
pub fn take_turns<S: Source, V: Volume>(
    alloc: Global,
    rules: &TaskRules,
    turns: &TurnRules,
    units: &[Unit],
    source: &mut S,
    volume: &mut V,
    failed: &mut List<u128>,
) -> Result<List<UnitResult>, TurnsFault>
    requires units { MayHaveTurns rules.now turns.now units.now }
    requires failed { failed.old ≡ [] }
    ensures told { (job : Job) (s : Supply) → IsWorkedBy rules.now turns.now job → S.supply source.old ≡ Some s
        → AreHeld s.held units.now → AreFirstPulls job s units.now failed.new (S.supply source.new) }
    ensures whole { IfOk result (λ results. (job : Job) (s : Supply) → IsWorkedBy rules.now turns.now job
        → S.supply source.old ≡ Some s → AreHeld s.held units.now
        → AreResults job s units.now failed.new results (S.supply source.new) (V.disk volume.new)) }
    ensures given { IfOk result (λ results. (job : Job) → IsWorkedBy rules.now turns.now job
        → AllGiven job units.now results (V.disk volume.new)) }
    ensures pulled { HasPulled (S.supply source.old) (S.supply source.new) }
    ensures committable { IfOk result (λ results. AreCommittable rules.now.job units.now results (V.disk volume.new)) }
    ensures maps { Along (OnlyBelow (staging rules.now.job)) (V.disk volume.old) (V.disk volume.new) }
    ensures failing { FailuresRose failed.new (S.faults source.old) (S.faults source.new) }
    ensures given_up { IfOk result (λ results. RoseBy (given_up_in results * (rules.now.max_retries + 1))
        (S.faults source.old) (S.faults source.new)) }
    ensures source { S.faults source.old ≤ S.faults source.new }
    ensures planned { S.plan_faults source.new ≡ S.plan_faults source.old }
    ensures cause { HasCause (V.faults volume.old) (V.faults volume.new) (result ≡ Err TurnsFault.Failed) }
{
    let mut course = Course::start(alloc, rules, turns, units)?;
    course.run(alloc, rules, units, source, volume, failed)?;
    let results = course.into_results(alloc)?;
    Ok(results)
}
