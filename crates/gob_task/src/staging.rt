//! What the buffers hold is appended to an attempt's files.
ghost use Rattle.std.specs.Prelude.{◌≡◌, ◌<◌, ◌^◌, true, length, IfSome, OnOk};
ghost use Rattle.std.specs.List.{flat_map};
ghost use Rattle.gob_device.specs.Causes.{HasCause};
ghost use Rattle.gob_device.specs.Disk.{Along};
ghost use Rattle.gob_pipeline.specs.Made.{AreSlots, IsSlot, filled_targets, filled_place, is_place};
ghost use Rattle.gob_recovery.specs.Commits.{OnlyBelow};
ghost use Rattle.gob_stage.specs.Attempt.{AreThere};
ghost use Rattle.gob_task.specs.Task.{AreSpelled};
ghost use Rattle.gob_task.specs.Staging.{Appended, appends_of};

use crate::names::TargetNames;
use gob_pipeline::TargetBuffers;
use gob_plan::{Bytes, Plan, Text, Unit};
use gob_stage::{Attempt, StageFault};
use gob_volume::Volume;
use std::alloc::Global;

/// Appends what each buffer holds to its target's file, in one append.
pub fn stage<V: Volume>(
    alloc: Global,
    plan: &Plan,
    unit: &Unit,
    buffers: &TargetBuffers,
    names: &mut TargetNames,
    staged: &mut Attempt,
    volume: &mut V,
) -> Result<(), StageFault>
    requires few { length buffers.now < 2 ^ 32 }
    requires spelled { AreSpelled plan.now unit.now names.old }
    requires there { IfSome (V.disk volume.old) (λ d. AreThere staged.old d.files) }
    ensures spelled { AreSpelled plan.now unit.now names.new }
    ensures appended { OnOk result (Appended (appends_of plan.now unit.now (filled_targets buffers.now)) staged.old
        staged.new
        (V.disk volume.old) (V.disk volume.new)) }
    ensures slots { OnOk result (AreSlots buffers.now) }
    ensures below { Along (OnlyBelow staged.old.folder) (V.disk volume.old) (V.disk volume.new) }
    ensures cause { HasCause (V.faults volume.old) (V.faults volume.new) (result ≡ Err StageFault.Failed) }
{
    for slot in 0..buffers.slots() {
        stage_slot(
            alloc,
            plan,
            unit,
            slot,
            buffers.slot(slot),
            names,
            staged,
            volume,
        )?;
    }
    Ok(())
}

// The same of one slot.
fn stage_slot<V: Volume>(
    alloc: Global,
    plan: &Plan,
    unit: &Unit,
    slot: usize,
    places: &[(Text, Bytes)],
    names: &mut TargetNames,
    staged: &mut Attempt,
    volume: &mut V,
) -> Result<(), StageFault>
    requires few { slot < 2 ^ 32 }
    requires proper { IsSlot slot places.now }
    requires spelled { AreSpelled plan.now unit.now names.old }
    requires there { IfSome (V.disk volume.old) (λ d. AreThere staged.old d.files) }
    ensures spelled { AreSpelled plan.now unit.now names.new }
    ensures appended { OnOk result (Appended
        (appends_of plan.now unit.now (flat_map (filled_place slot) places.now)) staged.old staged.new
        (V.disk volume.old) (V.disk volume.new)) }
    ensures below { Along (OnlyBelow staged.old.folder) (V.disk volume.old) (V.disk volume.new) }
    ensures cause { HasCause (V.faults volume.old) (V.faults volume.new) (result ≡ Err StageFault.Failed) }
{
    for (place, bytes) in places {
        stage_place(alloc, plan, unit, slot, place, bytes, names, staged, volume)?;
    }
    Ok(())
}

// The same of one place.
fn stage_place<V: Volume>(
    alloc: Global,
    plan: &Plan,
    unit: &Unit,
    slot: usize,
    place: &Text,
    bytes: &Bytes,
    names: &mut TargetNames,
    staged: &mut Attempt,
    volume: &mut V,
) -> Result<(), StageFault>
    requires few { slot < 2 ^ 32 }
    requires proper { is_place place.now ≡ true }
    requires spelled { AreSpelled plan.now unit.now names.old }
    requires there { IfSome (V.disk volume.old) (λ d. AreThere staged.old d.files) }
    ensures spelled { AreSpelled plan.now unit.now names.new }
    ensures appended { OnOk result (Appended
        (appends_of plan.now unit.now (filled_place slot (place.now, bytes.now))) staged.old staged.new
        (V.disk volume.old) (V.disk volume.new)) }
    ensures below { Along (OnlyBelow staged.old.folder) (V.disk volume.old) (V.disk volume.new) }
    ensures cause { HasCause (V.faults volume.old) (V.faults volume.new) (result ≡ Err StageFault.Failed) }
{
    if bytes.is_empty() {
        return Ok(());
    }
    let at = names.spell(alloc, plan, unit, slot, place)?;
    staged.append(volume, names.name_at(slot, at), bytes.as_slice())?;
    Ok(())
}
