//! Turns by a schedule.

ghost use Rattle.std.specs.Prelude.{◌≡◌, IfOk, [], ◌∷◌};

use gob_plan::{List, NoMemory, TurnRules};
use gob_sched::Core;
use std::alloc::Global;
use std::process::Abort;
use std::test::Fail;

/// The schedule of three numbers.
fn rules(
    alloc: Global,
    slots: u32,
    first: u32,
    second: u32,
    third: u32,
) -> Result<TurnRules, NoMemory>
    ensures { IfOk result (λ r. (r.slots ≡ slots) × (r.schedule ≡ first ∷ second ∷ third ∷ [])) }
{
    let mut schedule = List::new(alloc);
    schedule.push(first)?;
    schedule.push(second)?;
    schedule.push(third)?;
    Ok(TurnRules {
        slots,
        piece: 1,
        schedule,
    })
}

fn same_unit(rt: &impl Abort, found: Option<u32>, wanted: Option<u32>) {
    assert_eq!(rt; found, wanted);
}

/// The unit whose turn it is ends with this turn.
#[tactic(auto, using(crate::proofs::Active::is_active))]
fn last_turn(core: &mut Core) -> Option<u32> {
    match core.pick() {
        Some(unit) => {
            core.task_ended(unit);
            Some(unit)
        }
        None => None,
    }
}

#[test]
fn units_take_turns_by_the_schedule(rt: HostRuntime) -> Result<(), Fail> {
    let rules = rules(rt.alloc(), 2, 0, 1, 0)?;
    let mut core = Core::start(rt.alloc(), 3, &rules)?;
    same_unit(&rt, core.pick(), Some(0));
    core.turn_done();
    same_unit(&rt, core.pick(), Some(1));
    core.turn_done();
    same_unit(&rt, core.pick(), Some(0));
    core.turn_done();
    // The schedule begins anew.
    same_unit(&rt, core.pick(), Some(0));
    Ok(())
}

#[test]
fn a_unit_that_waits_takes_the_slot_of_one_that_ended(rt: HostRuntime) -> Result<(), Fail> {
    let rules = rules(rt.alloc(), 2, 0, 3, 2)?;
    let mut core = Core::start(rt.alloc(), 3, &rules)?;
    same_unit(&rt, last_turn(&mut core), Some(0));
    same_unit(&rt, core.pick(), Some(2));
    core.turn_done();
    same_unit(&rt, last_turn(&mut core), Some(1));
    same_unit(&rt, last_turn(&mut core), Some(2));
    same_unit(&rt, core.pick(), None);
    Ok(())
}

#[test]
fn a_run_without_units_gives_no_turn(rt: HostRuntime) -> Result<(), Fail> {
    let rules = rules(rt.alloc(), 64, 7, 7, 7)?;
    let core = Core::start(rt.alloc(), 0, &rules)?;
    same_unit(&rt, core.pick(), None);
    Ok(())
}
