//! Buffers for what the lines of a piece send, one for each target.
ghost use Rattle.std.specs.Prelude.{◌≡◌, ◌<◌, ◌+◌, ◌*◌, ◌^◌, [], ◌∷◌, true, length, map, Some, IfOk, OnErr, OnOk};
ghost use Rattle.std.specs.List.{slice_get};
ghost use Rattle.gob_pipeline.specs.Made.{AddsTo, AreEmpty, AreSlots, IsSlot, emptied_table, is_placed, no_places};
ghost use Rattle.gob_pipeline.specs.Made.{place_in};
ghost use Rattle.gob_pipeline.specs.Made.{slot_of};
ghost use Rattle.gob_pipeline.specs.Made.{target_in, target_value};
ghost use Rattle.gob_pipeline.specs.Taking.{with_bytes_at};
ghost use Rattle.gob_bytes.specs.Tables.{IsInByteOrder, names_of};

use gob_memory::{find, set};
use gob_plan::{Bytes, NoMemory, Text};
use std::alloc::Global;
use std::marker::Model;
use std::mem;

/// Where bytes go. A place is a folder: empty, or with a `/` at its end.
#[derive(Clone, Copy)]
pub enum Target<'a> {
    /// A published file of a branch.
    Out { branch: u32, place: &'a str },
    /// A branch's error file.
    Err { branch: u32, place: &'a str },
    /// The file of bad lines.
    Bad,
}

/// A buffer for each target: a slot for bad lines, and then, for each branch, one for what it writes and one for what
/// it refuses. A slot has a buffer for each place, in byte order of places.
#[derive(Drop)]
pub struct TargetBuffers {
    slots: Vec<Vec<(Text, Bytes)>>,
}

impl Model for TargetBuffers {
    ghost use Rattle.std.specs.Prelude.{map};
    ghost use Rattle.gob_pipeline.specs.Made.{Buffers, AreSlots};

    ghost Value = { Buffers };

    ghost view = { λ b. map (λ slot. slot.items) b.slots.items };

    ghost invariant = { λ b. AreSlots (map (λ slot. slot.items) b.slots.items) };
}

impl TargetBuffers {
    /// Empty buffers for so many branches.
    pub fn new(alloc: Global, branches: u32) -> Result<TargetBuffers, NoMemory>
        ensures slots { IfOk result (λ b. length b ≡ 2 * branches + 1) }
        ensures empty { IfOk result AreEmpty }
    {
        let slots = empty_slots(alloc, 2 * branches as usize + 1)?;
        Ok(TargetBuffers { slots })
    }

    /// Adds bytes to the buffer of a target. Without memory it stays as it was.
    pub(crate) fn push(
        &mut self,
        alloc: Global,
        target: Target<'_>,
        bytes: &[u8],
    ) -> Result<(), NoMemory>
        requires there { slot_of (target_value target) < length self.old }
        requires placed { is_placed (target_value target) ≡ true }
        ensures ok { OnOk result (AddsTo self.old self.new
            (record { target = target_value target.entry; bytes = bytes.now } ∷ [])) }
        ensures slots { length self.new ≡ length self.old }
    {
        let slot = slot_of(target);
        let table = &mut self.slots[slot];
        add_at(alloc, table, place_of(target), bytes)?;
        Ok(())
    }

    /// Empties each buffer, and keeps its memory for the bytes that come.
    pub fn clear(&mut self)
        ensures slots { length self.new ≡ length self.old }
        ensures empty { AreEmpty self.new }
    {
        let alloc = *self.slots.allocator();
        clear_slots(alloc, self.slots.as_mut_slice());
    }

    pub fn slots(&self) -> usize
        ensures slots { result ≡ length self.now }
        ensures proper { AreSlots self.now }
    {
        self.slots.len()
    }

    /// The buffers of a slot, each with its place.
    pub fn slot(&self, slot: usize) -> &[(Text, Bytes)]
        requires { slot < length self.now }
        ensures found { slice_get self.now slot ≡ Some result.now }
        ensures proper { IsSlot slot result.now }
    {
        self.slots[slot].as_slice()
    }
}

/// The target of a buffer that has this place in a slot.
pub fn target_at(slot: usize, place: &str) -> Target<'_>
    requires { slot < 2 ^ 32 }
    ensures { target_value result ≡ target_in slot place.now }
{
    if slot == 0 {
        return Target::Bad;
    }
    let branch = ((slot - 1) / 2) as u32;
    if slot % 2 == 1 {
        Target::Out { branch, place }
    } else {
        Target::Err { branch, place }
    }
}

fn slot_of(target: Target<'_>) -> usize
    ensures { result ≡ slot_of (target_value target.entry) }
{
    match target {
        Target::Out { branch, place: _ } => 2 * branch as usize + 1,
        Target::Err { branch, place: _ } => 2 * branch as usize + 2,
        Target::Bad => 0,
    }
}

fn place_of(target: Target<'_>) -> &str
    ensures { result.now ≡ place_in (target_value target.entry) }
{
    match target {
        Target::Out { branch: _, place } => place,
        Target::Err { branch: _, place } => place,
        Target::Bad => "",
    }
}

// So many slots without a place.
fn empty_slots(alloc: Global, count: usize) -> Result<Vec<Vec<(Text, Bytes)>>, NoMemory>
    ensures { IfOk result (λ slots. map (λ slot. slot.items) slots.items ≡ no_places count) }
{
    let mut slots = Vec::new(alloc);
    'slots: while slots.len() < count {
        slots.push(Vec::new(alloc))?;
    }
    Ok(slots)
}

// Adds bytes to what a place has.
fn add_at(
    alloc: Global,
    table: &mut Vec<(Text, Bytes)>,
    place: &str,
    bytes: &[u8],
) -> Result<(), NoMemory>
    requires { IsInByteOrder (names_of table.old.items) }
    ensures ok { OnOk result (table.new.items ≡ with_bytes_at table.old.items place.now bytes.now) }
    ensures err { OnErr result (table.new.items ≡ table.old.items) }
{
    match find(table.as_slice(), place) {
        Ok(at) => {
            table[at].1.push(bytes)?;
            Ok(())
        }
        Err(_) => {
            let copy = Bytes::from_slice(alloc, bytes)?;
            set(alloc, table, place, copy)?;
            Ok(())
        }
    }
}

fn clear_slots(alloc: Global, slots: &mut [Vec<(Text, Bytes)>])
    ensures { map (λ slot. slot.items) slots.new ≡ map emptied_table (map (λ slot. slot.items) slots.old) }
{
    for slot in slots.iter_mut() {
        clear_slot(alloc, slot.as_mut_slice());
    }
}

fn clear_slot(alloc: Global, slot: &mut [(Text, Bytes)])
    ensures { slot.new ≡ emptied_table slot.old }
{
    for entry in slot.iter_mut() {
        clear_bytes(alloc, &mut entry.1);
    }
}

// Empties the bytes, and keeps their memory.
fn clear_bytes(alloc: Global, bytes: &mut Bytes)
    ensures { bytes.new ≡ [] }
{
    let mut kept = mem::replace(bytes, Bytes::new(alloc)).into_vec();
    kept.clear();
    *bytes = Bytes::from_vec(kept);
}
