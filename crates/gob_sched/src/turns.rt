//! The units that haven't ended, and whose turn it is.
ghost use Rattle.std.specs.Prelude.{◌≡◌, ◌<◌, ◌≤◌, ◌+◌, ◌-◌, ◌++◌, true, length, min, get_or, Contains, IfOk, take};
ghost use Rattle.std.specs.List.{range_with_len};
ghost use Rattle.gob_ledger.specs.Counted.{whose_turn};
ghost use Rattle.gob_sched.specs.CoreValue.{after_end, after_turn, is_rising_below, core_at_start};

use gob_plan::{NoMemory, TurnRules};
use std::alloc::Global;
use std::marker::Model;

/// Gives turns to the first few units that haven't ended, in unit order, by the schedule.
#[derive(Drop)]
pub struct Core {
    rules: TurnRules,
    /// The place in the schedule of the turn that comes.
    place: usize,
    /// The units that have turns, in their order.
    active: Vec<u32>,
    /// The first unit that waits; those behind it wait too.
    waiting: u32,
    units: u32,
    ghost in_schedule: { place < length rules.schedule },
    ghost rising: { is_rising_below active.items waiting ≡ true },
    ghost within: { waiting ≤ units },
    ghost filled: { length active.items ≡ min rules.slots (length active.items + (units - waiting)) },
}

impl Model for Core {
    ghost use Rattle.std.specs.Prelude.{◌++◌, ◌-◌};
    ghost use Rattle.std.specs.List.{range_with_len};
    ghost use Rattle.gob_sched.specs.CoreValue.{CoreValue};

    ghost Value = { CoreValue };

    ghost view = { λ c. record {
      rules = c.rules;
      place = c.place;
      left = c.active.items ++ range_with_len c.waiting
          (c.units - c.waiting);
    } };
}

impl Core {
    /// So many units, of which the first slots are active.
    pub fn start(alloc: Global, units: u32, rules: &TurnRules) -> Result<Core, NoMemory>
        requires slots { 0 < rules.now.slots }
        requires schedule { 0 < length rules.now.schedule }
        ensures { IfOk result (λ c. c ≡ core_at_start rules.now units) }
    {
        let rules = rules.copy()?;
        let first = units.min(rules.slots);
        let active = first_units(alloc, first)?;
        Ok(Core {
            rules,
            place: 0,
            active,
            waiting: first,
            units,
        })
    }

    /// The unit whose turn it is, and none where all have ended.
    pub fn pick(&self) -> Option<u32>
        ensures { result ≡ whose_turn self.now.rules self.now.place self.now.left }
    {
        if self.active.is_empty() {
            return None;
        }
        let named = self.rules.schedule.as_slice()[self.place] as usize;
        Some(self.active[named % self.active.len()])
    }

    /// Ends the turn.
    pub fn turn_done(&mut self)
        ensures { self.new ≡ after_turn self.old }
    {
        let numbers = self.rules.schedule.len();
        self.place = (self.place + 1) % numbers;
    }

    /// Ends the turn and an active unit; the first one that waits takes its place.
    pub fn task_ended(&mut self, unit: u32)
        requires active { Contains (take self.old.rules.slots self.old.left) unit }
        ensures { self.new ≡ after_end unit self.old }
    {
        self.turn_done();
        let at = place_of(self.active.as_slice(), unit);
        self.active.remove(at);
        if self.waiting < self.units {
            match self.active.push(self.waiting) {
                Ok(()) => self.waiting += 1,
                // What was removed has left room.
                Err(_) => unreachable!(),
            }
        }
    }
}

// Where an active unit stands.
fn place_of(active: &[u32], unit: u32) -> usize
    requires there { Contains active.now unit }
    ensures within { result < length active.now }
    ensures unit { get_or active.now result 0 ≡ unit }
{
    for at in 0..active.len() {
        if active[at] == unit {
            return at;
        }
    }
    unreachable!()
}

#[tactic(auto, using(crate::proofs::Rising::one_more_unit))]
fn first_units(alloc: Global, units: u32) -> Result<Vec<u32>, NoMemory>
    ensures { IfOk result (λ v. v.items ≡ range_with_len 0 units) }
{
    let mut active = Vec::with_capacity(alloc, units as usize)?;
    for unit in 0..units {
        active.push(unit)?;
    }
    Ok(active)
}
