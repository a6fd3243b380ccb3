//! The names of an attempt's targets.
ghost use Rattle.std.specs.Prelude.{◌≡◌, ◌<◌, ◌^◌, ◌++◌, [], ℕ, true, length, map, Some, IfOk, IsSome, OnOk};
ghost use Rattle.gob_recovery.specs.Sequence.{is_file_name};
ghost use Rattle.gob_memory.specs.Places.{StandsAt};
ghost use Rattle.gob_pipeline.specs.Made.{is_place, no_places, target_in};
ghost use Rattle.gob_task.specs.Task.{AreSpelled, IsSpelled, name_at, name_in};

use gob_memory::{find, set};
use gob_pipeline::{name_of, target_at};
use gob_plan::{NoMemory, Plan, Text, Unit};
use std::alloc::Global;
use std::marker::Model;

/// The names of an attempt's targets, each spelled when it is first needed.
#[derive(Drop)]
pub struct TargetNames {
    /// For each slot its places in byte order, each with the name of its target.
    slots: Vec<Vec<(Text, Text)>>,
}

impl Model for TargetNames {
    ghost use Rattle.std.specs.Prelude.{map};
    ghost use Rattle.gob_task.specs.Task.{Names};

    ghost Value = { Names };

    ghost view = { λ n. map (λ slot. slot.items) n.slots.items };
}

impl TargetNames {
    /// No name is spelled yet.
    pub fn new(alloc: Global) -> TargetNames
        ensures { result ≡ [] }
    {
        TargetNames {
            slots: Vec::new(alloc),
        }
    }

    /// Where the name of a place's target stands in its slot's table. The first call for a place spells it.
    pub fn spell(
        &mut self,
        alloc: Global,
        plan: &Plan,
        unit: &Unit,
        slot: usize,
        place: &Text,
    ) -> Result<usize, NoMemory>
        requires few { slot < 2 ^ 32 }
        requires proper { is_place place.now ≡ true }
        requires spelled { AreSpelled plan.now unit.now self.old }
        ensures spelled { AreSpelled plan.now unit.now self.new }
        ensures name { let name = name_in plan.now unit.now (target_in slot place.now) in
            IfOk result (λ at. name_at self.new slot at ≡ Some name) }
        ensures file { let name = name_in plan.now unit.now (target_in slot place.now) in
            IfOk result (λ at. is_file_name name ≡ true) }
    {
        make_slots(alloc, &mut self.slots, slot)?;
        let table = &mut self.slots[slot];
        let at = spell_in(alloc, plan, unit, slot, place, table)?;
        Ok(at)
    }

    /// The name that stands there in a slot's table.
    pub fn name_at(&self, slot: usize, at: usize) -> &str
        requires { IsSome (name_at self.now slot at) }
        ensures { name_at self.now slot at ≡ Some result.now }
    {
        self.slots[slot][at].1.as_str()
    }
}

// Makes the tables that are missing up to a slot's.
fn make_slots(
    alloc: Global,
    slots: &mut Vec<Vec<(Text, Text)>>,
    slot: usize,
) -> Result<(), NoMemory>
    ensures there { OnOk result (slot < length slots.new.items) }
    ensures longer { (n : ℕ) × (map (λ slot. slot.items) slots.new.items
        ≡ map (λ slot. slot.items) slots.old.items ++ no_places n) }
{
    'slots: while slots.len() <= slot {
        slots.push(Vec::new(alloc))?;
    }
    Ok(())
}

// Where the name of a place's target stands in its slot's table; it is spelled where it isn't there yet.
fn spell_in(
    alloc: Global,
    plan: &Plan,
    unit: &Unit,
    slot: usize,
    place: &Text,
    table: &mut Vec<(Text, Text)>,
) -> Result<usize, NoMemory>
    requires few { slot < 2 ^ 32 }
    requires proper { is_place place.now ≡ true }
    requires spelled { IsSpelled plan.now unit.now slot table.old.items }
    ensures spelled { IsSpelled plan.now unit.now slot table.new.items }
    ensures at { IfOk result (StandsAt table.new.items place.now) }
{
    match find(table.as_slice(), place.as_str()) {
        Ok(at) => Ok(at),
        Err(at) => {
            let name = target_name(alloc, plan, unit, slot, place)?;
            set(alloc, table, place.as_str(), name)?;
            Ok(at)
        }
    }
}

// The name of the target of a place in a slot.
fn target_name(
    alloc: Global,
    plan: &Plan,
    unit: &Unit,
    slot: usize,
    place: &Text,
) -> Result<Text, NoMemory>
    requires few { slot < 2 ^ 32 }
    requires proper { is_place place.now ≡ true }
    ensures name { IfOk result (λ name. name ≡ name_in plan.now unit.now (target_in slot place.now)) }
    ensures spelled { IfOk result (λ name. is_file_name name ≡ true) }
{
    let target = target_at(slot, place.as_str());
    let name = name_of(alloc, plan, unit.part.as_str(), unit.lo, unit.hi, target)?;
    Ok(name)
}
