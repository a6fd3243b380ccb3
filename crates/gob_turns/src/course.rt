//! The units of a run, from turn to turn.
ghost use Rattle.std.specs.Prelude.{◌≡◌, ◌≤◌, ◌<◌, ◌^◌, ◌++◌, ◌∷◌, [], true, length, cond, map, take, Contains};
ghost use Rattle.std.specs.Prelude.{IfOk, OnOk, OnErr};
ghost use Rattle.std.specs.declared.option.Option.TheVariants.{None, Some};
ghost use Rattle.gob_device.specs.Causes.{Rose};
ghost use Rattle.gob_ledger.specs.Counted.{whose_turn};
ghost use Rattle.gob_task.specs.Bench.{FitsBench};
ghost use Rattle.gob_task.specs.Turn.{Devices};
ghost use Rattle.gob_turns.specs.Asked.{MayHaveTurns};
ghost use Rattle.gob_turns.specs.Course.{HaveBegun, first_state, listed_from};
ghost use Rattle.gob_turns.specs.OneTurn.{devices};
ghost use Rattle.gob_turns.specs.Standing.{all_ahead, results_in};
ghost use Rattle.gob_turns.specs.Underway.{AreUnderway, IsLeft, KeepsAll, core_after};

use crate::TurnsFault;
use crate::progress::Progress;
use crate::turn::turn_of;
use gob_io::Source;
use gob_plan::{Cause, List, NoMemory, TurnRules, Unit, UnitResult};
use gob_sched::Core;
use gob_task::{Bench, TaskRules};
use gob_volume::Volume;
use std::alloc::Global;
use std::mem;

/// Where all units stand.
#[derive(Drop)]
pub struct Course {
    /// The places of the listed units among all; the core knows these by their numbers.
    pub listed: Vec<u32>,
    pub states: Vec<Progress>,
    pub core: Core,
    pub bench: Bench,
    /// How many turns were had.
    pub turn: u128,
}

impl Course {
    /// No unit has had a turn.
    pub fn start(
        alloc: Global,
        rules: &TaskRules,
        turns: &TurnRules,
        units: &[Unit],
    ) -> Result<Course, NoMemory>
        requires slots { 0 < turns.now.slots }
        requires schedule { 0 < length turns.now.schedule }
        requires few { length units.now < 2 ^ 32 }
        ensures begun { IfOk result (λ c. HaveBegun turns.now units.now c.listed.items c.states.items c.core c.turn) }
        ensures bench { IfOk result (λ c. FitsBench rules.now c.bench) }
    {
        let states = first_states(alloc, units)?;
        let listed = listed_places(alloc, units)?;
        let core = Core::start(alloc, listed.len() as u32, turns)?;
        let bench = Bench::new(alloc, rules)?;
        Ok(Course {
            listed,
            states,
            core,
            bench,
            turn: 0,
        })
    }

    /// All turns, until each unit has ended.
    pub fn run<S: Source, V: Volume>(
        &mut self,
        alloc: Global,
        rules: &TaskRules,
        units: &[Unit],
        source: &mut S,
        volume: &mut V,
        failed: &mut List<u128>,
    ) -> Result<(), TurnsFault>
        requires may { MayHaveTurns rules.now self.old.core.rules units.now }
        requires bench { FitsBench rules.now self.old.bench }
        requires underway { AreUnderway rules.now self.old.core.rules units.now self.old.listed.items
            self.old.states.items self.old.core self.old.turn failed.old
            (devices (S.supply source.old) (S.faults source.old) (S.plan_faults source.old)
            (V.disk volume.old) (V.faults volume.old))
            (devices (S.supply source.old) (S.faults source.old) (S.plan_faults source.old)
            (V.disk volume.old) (V.faults volume.old)) }
        ensures went { OnOk result (AreUnderway rules.now self.old.core.rules units.now self.new.listed.items
            self.new.states.items self.new.core self.new.turn failed.new
            (devices (S.supply source.old) (S.faults source.old) (S.plan_faults source.old)
            (V.disk volume.old) (V.faults volume.old))
            (devices (S.supply source.new) (S.faults source.new) (S.plan_faults source.new)
            (V.disk volume.new) (V.faults volume.new))) }
        ensures ended { OnOk result (whose_turn self.new.core.rules self.new.core.place self.new.core.left ≡ None) }
        ensures stopped { OnErr result (IsLeft rules.now self.old.core.rules units.now failed.new
            (devices (S.supply source.old) (S.faults source.old) (S.plan_faults source.old)
            (V.disk volume.old) (V.faults volume.old))
            (devices (S.supply source.new) (S.faults source.new) (S.plan_faults source.new)
            (V.disk volume.new) (V.faults volume.new))) }
        ensures keeps { KeepsAll rules.now.job
            (devices (S.supply source.old) (S.faults source.old) (S.plan_faults source.old)
            (V.disk volume.old) (V.faults volume.old))
            (devices (S.supply source.new) (S.faults source.new) (S.plan_faults source.new)
            (V.disk volume.new) (V.faults volume.new)) }
        ensures cause { result ≡ Err TurnsFault.Failed → Rose (V.faults volume.old) (V.faults volume.new) }
    {
        'turns: while let Some(number) = self.core.pick() {
            self.one_turn(alloc, rules, units, number, source, volume, failed)?;
        }
        Ok(())
    }

    /// The results of the units that have ended.
    pub fn into_results(self, alloc: Global) -> Result<List<UnitResult>, NoMemory>
        ensures { IfOk result (λ rs. rs ≡ results_in self.states.items) }
    {
        let results = results_of(alloc, self.states)?;
        Ok(results)
    }

    // One turn, of the unit whose number the core has picked.
    fn one_turn<S: Source, V: Volume>(
        &mut self,
        alloc: Global,
        rules: &TaskRules,
        units: &[Unit],
        number: u32,
        source: &mut S,
        volume: &mut V,
        failed: &mut List<u128>,
    ) -> Result<(), TurnsFault>
        requires may { MayHaveTurns rules.now self.old.core.rules units.now }
        requires bench { FitsBench rules.now self.old.bench }
        requires underway { (first : Devices) × AreUnderway rules.now self.old.core.rules units.now
            self.old.listed.items
            self.old.states.items self.old.core self.old.turn failed.old first
            (devices (S.supply source.old) (S.faults source.old) (S.plan_faults source.old)
            (V.disk volume.old) (V.faults volume.old)) }
        requires picked { whose_turn self.old.core.rules self.old.core.place self.old.core.left ≡ Some number }
        ensures bench { OnOk result (FitsBench rules.now self.new.bench) }
        ensures went { OnOk result ((first : Devices) → AreUnderway rules.now self.old.core.rules units.now
            self.old.listed.items
            self.old.states.items self.old.core self.old.turn failed.old first
            (devices (S.supply source.old) (S.faults source.old) (S.plan_faults source.old)
            (V.disk volume.old) (V.faults volume.old))
            → AreUnderway rules.now self.old.core.rules units.now self.new.listed.items
            self.new.states.items self.new.core self.new.turn failed.new first
            (devices (S.supply source.new) (S.faults source.new) (S.plan_faults source.new)
            (V.disk volume.new) (V.faults volume.new))) }
        ensures fewer { OnOk result (all_ahead rules.now.max_retries units.now self.new.states.items
            < all_ahead rules.now.max_retries units.now self.old.states.items) }
        ensures stopped { OnErr result ((first : Devices) → AreUnderway rules.now self.old.core.rules units.now
            self.old.listed.items self.old.states.items self.old.core self.old.turn failed.old first
            (devices (S.supply source.old) (S.faults source.old) (S.plan_faults source.old)
            (V.disk volume.old) (V.faults volume.old))
            → IsLeft rules.now self.old.core.rules units.now failed.new first
            (devices (S.supply source.new) (S.faults source.new) (S.plan_faults source.new)
            (V.disk volume.new) (V.faults volume.new))) }
        ensures keeps { KeepsAll rules.now.job
            (devices (S.supply source.old) (S.faults source.old) (S.plan_faults source.old)
            (V.disk volume.old) (V.faults volume.old))
            (devices (S.supply source.new) (S.faults source.new) (S.plan_faults source.new)
            (V.disk volume.new) (V.faults volume.new)) }
        ensures cause { result ≡ Err TurnsFault.Failed → Rose (V.faults volume.old) (V.faults volume.new) }
    {
        let place = self.listed[number as usize];
        let step = turn_of(
            alloc,
            rules,
            &units[place as usize],
            place,
            &mut self.states[place as usize],
            &mut self.bench,
            source,
            volume,
        )?;
        note(failed, self.turn, step.failed)?;
        self.turn += 1;
        end_turn(&mut self.core, number, step.ended);
        Ok(())
    }
}

fn first_states(alloc: Global, units: &[Unit]) -> Result<Vec<Progress>, NoMemory>
    ensures { IfOk result (λ v. v.items ≡ map first_state units.now) }
{
    let mut states = Vec::with_capacity(alloc, units.len())?;
    for unit in units {
        states.push(state_of(unit))?;
    }
    Ok(states)
}

fn state_of(unit: &Unit) -> Progress
    ensures { result ≡ first_state unit.now }
{
    if unit.listed {
        Progress::Waits
    } else {
        Progress::Ended(UnitResult::Failed { cause: Cause::Gone })
    }
}

fn listed_places(alloc: Global, units: &[Unit]) -> Result<Vec<u32>, NoMemory>
    requires { length units.now < 2 ^ 32 }
    ensures places { IfOk result (λ v. v.items ≡ listed_from 0 units.now) }
    ensures few { IfOk result (λ v. length v.items ≤ length units.now) }
{
    let mut places = Vec::new(alloc);
    for place in 0..units.len() {
        add_place(&mut places, place as u32, units[place].listed)?;
    }
    Ok(places)
}

fn add_place(places: &mut Vec<u32>, place: u32, listed: bool) -> Result<(), NoMemory>
    ensures { OnOk result (places.new.items ≡ cond listed (places.old.items ++ place ∷ []) places.old.items) }
{
    if listed {
        places.push(place)?;
    }
    Ok(())
}

// Keeps the number of a turn whose pull failed.
fn note(failed: &mut List<u128>, turn: u128, has_failed: bool) -> Result<(), NoMemory>
    ensures ok { OnOk result (failed.new ≡ cond has_failed (failed.old ++ turn ∷ []) failed.old) }
    ensures err { OnErr result ((failed.new ≡ failed.old) × (has_failed ≡ true)) }
{
    if has_failed {
        failed.push(turn)?;
    }
    Ok(())
}

fn end_turn(core: &mut Core, number: u32, ended: bool)
    requires { Contains (take core.old.rules.slots core.old.left) number }
    ensures { core.new ≡ core_after ended number core.old }
{
    if ended {
        core.task_ended(number);
    } else {
        core.turn_done();
    }
}

fn results_of(alloc: Global, mut states: Vec<Progress>) -> Result<List<UnitResult>, NoMemory>
    ensures { IfOk result (λ rs. rs ≡ results_in states.items) }
{
    let mut results = List::with_capacity(alloc, states.len())?;
    for place in 0..states.len() {
        if let Progress::Ended(result) = mem::replace(&mut states[place], Progress::Waits) {
            results.push(result)?;
        }
    }
    Ok(results)
}
