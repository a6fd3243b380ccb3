//! A source in memory.

ghost use Rattle.std.specs.Prelude.{◌≡◌, ◌≢◌, ◌≤◌, ◌++◌, ◌-◌, ◌^◌, [], length, map, take};
ghost use Rattle.std.specs.Prelude.{All, IfOk, IsErr, OnErr, OnOk};
ghost use Rattle.gob_device.specs.Causes.{CountsFailure};
ghost use Rattle.gob_bytes.specs.Tables.{with_name};
ghost use Rattle.gob_device.specs.Supply.{Fills, IsListed, Pull};
ghost use Rattle.gob_device.specs.Supply.{bytes_at, bytes_from, listing_of, seen_by_look, with_pull};
ghost use Rattle.gob_memory.specs.Planned.{CountsCall, CountsOne, FailsAsPlanned, IsDue, calls_of, numbers_of};
ghost use Rattle.gob_io.specs.ByName.{table_of};
ghost use Rattle.gob_io.specs.Listing.{IsListed-prop, entry_of};

use crate::by_name::sort_by_name;
use crate::line_ends::keep_line_ends;
use crate::{ListFault, Part, Source};
use gob_memory::{Counts, Planned, fill_from, find, get, set};
use gob_plan::{Bytes, Failed, NoMemory, Text};
use std::alloc::Global;

/// A pull that was answered: the partition, the offset, and how many bytes were asked for.
#[derive(Drop)]
pub struct Pulled {
    pub part: Text,
    pub at: u64,
    pub len: u64,
}

/// Partitions in memory. It fails the calls with the given numbers, counted from 0 for each kind of call, and the
/// pulls that find no room for their entry in the list of pulls.
#[derive(Drop)]
pub struct MemSource {
    alloc: Global,
    parts: Vec<(Text, Bytes)>,
    pulls: Vec<Pulled>,
    lists: Planned,
    looks: Planned,
    takes: Planned,
    counts: Counts,
    plan_faults: u64,
    ghost listed: { IsListed (listing_of parts.items) } by { IsListed-prop (listing_of parts.items) },
}

impl MemSource {
    ghost use Rattle.gob_io.specs.MemSource.{list_plan, look_plan, plan_faults_of, pull_of, pull_plan};
    ghost use Rattle.gob_io.specs.MemSource.{source_counts, supply_of, with_bytes};

    /// Of equal names the last one counts.
    pub fn new(
        alloc: Global,
        parts: Vec<(Text, Bytes)>,
        fail_lists: Vec<u64>,
        fail_looks: Vec<u64>,
        fail_pulls: Vec<u64>,
    ) -> Self
        requires { All (λ p. p.0 ≢ []) parts.items }
        ensures tells { ⟦<MemSource as Source>⟧.supply result
            ≡ Some (record { held = table_of parts.items; pulls = [] }) }
        ensures counts { source_counts result ≡ record { faults = 0; shorts = 0 } }
        ensures plan_faults { ⟦<MemSource as Source>⟧.plan_faults result ≡ 0 }
        ensures lists { (numbers_of (list_plan result) ≡ fail_lists.items) × (calls_of (list_plan result) ≡ 0) }
        ensures looks { (numbers_of (look_plan result) ≡ fail_looks.items) × (calls_of (look_plan result) ≡ 0) }
        ensures pulls { (numbers_of (pull_plan result) ≡ fail_pulls.items) × (calls_of (pull_plan result) ≡ 0) }
    {
        MemSource {
            alloc,
            parts: sort_by_name(parts),
            pulls: Vec::new(alloc),
            lists: Planned::new(fail_lists),
            looks: Planned::new(fail_looks),
            takes: Planned::new(fail_pulls),
            counts: Counts::new(),
            plan_faults: 0,
        }
    }

    /// Adds bytes at the end of a partition, which is made where it isn't there. Without memory all stays as it was.
    pub fn grow(&mut self, part: &str, bytes: &[u8]) -> Result<(), NoMemory>
        requires { part.now ≢ [] }
        ensures ok { OnOk result (supply_of self.new ≡ with_bytes part.now bytes.now (supply_of self.old)) }
        ensures err { OnErr result (supply_of self.new ≡ supply_of self.old) }
        ensures counts { source_counts self.new ≡ source_counts self.old }
        ensures plan_faults { plan_faults_of self.new ≡ plan_faults_of self.old }
        ensures lists { list_plan self.new ≡ list_plan self.old }
        ensures looks { look_plan self.new ≡ look_plan self.old }
        ensures pulls { pull_plan self.new ≡ pull_plan self.old }
    {
        grow_part(self.alloc, &mut self.parts, part, bytes)?;
        Ok(())
    }

    /// How many calls failed.
    pub fn fault_count(&self) -> u64
        ensures { result ≡ ⟦<MemSource as Source>⟧.faults self.now }
    {
        self.counts.faults
    }

    /// How many pulls found no room for their entry.
    pub fn short_count(&self) -> u64
        ensures { result ≡ (source_counts self.now).shorts }
    {
        self.counts.shorts
    }

    /// The pulls that were answered, in order.
    pub fn pull_list(&self) -> &[Pulled]
        ensures { (supply_of self.now).pulls ≡ map pull_of result.now }
    {
        self.pulls.as_slice()
    }
}

// Adds bytes at the end of a partition, which is made where it isn't there.
fn grow_part(
    alloc: Global,
    parts: &mut Vec<(Text, Bytes)>,
    part: &str,
    bytes: &[u8],
) -> Result<(), NoMemory>
    requires named { part.now ≢ [] }
    requires listed { IsListed (listing_of parts.old.items) }
    ensures ok { OnOk result (parts.new.items
        ≡ with_name parts.old.items part.now (bytes_at parts.old.items part.now ++ bytes.now)) }
    ensures err { OnErr result (parts.new.items ≡ parts.old.items) }
    ensures listed { IsListed (listing_of parts.new.items) }
{
    match find(parts.as_slice(), part) {
        Ok(place) => extend(&mut parts[place].1, bytes),
        Err(_) => {
            let mut made = Bytes::new(alloc);
            extend(&mut made, bytes)?;
            set(alloc, parts, part, made)
        }
    }
}

// Adds bytes at the end.
fn extend(held: &mut Bytes, bytes: &[u8]) -> Result<(), NoMemory>
    ensures ok { OnOk result (held.new ≡ held.old ++ bytes.now) }
    ensures err { OnErr result (held.new ≡ held.old) }
    ensures fits { length held.new ≤ 2 ^ 63 - 1 }
{
    let grown = held.push(bytes);
    prove!(held.as_slice().len() <= i64::MAX as usize);
    grown
}

// The names and the sizes.
fn listing(alloc: Global, parts: &[(Text, Bytes)]) -> Result<Vec<Part>, NoMemory>
    ensures { IfOk result (λ listing. map entry_of listing.items ≡ listing_of parts.now) }
{
    let mut listing = Vec::new(alloc);
    for (name, bytes) in parts {
        let part = Part {
            name: name.copy()?,
            size: bytes.len() as u64,
        };
        if let Err(_) = listing.push(part) {
            return Err(NoMemory);
        }
    }
    Ok(listing)
}

// The bytes of a partition from an offset on; none where the name isn't there.
fn give(parts: &[(Text, Bytes)], part: &str, at: u64, into: &mut [u8]) -> usize
    requires { IsListed (listing_of parts.now) }
    ensures within { result ≤ length into.old }
    ensures fills { Fills into.new result (bytes_from parts.now part.now at (length into.old)) }
{
    match get(parts, part) {
        Some(bytes) => fill_from(bytes.as_slice(), at, into),
        None => 0,
    }
}

impl MemSource {
    ghost use Rattle.gob_io.specs.MemSource.{list_plan, look_plan, plan_faults_of, pull_plan, source_counts, supply_of};

    // Adds an entry to the list of pulls.
    fn note(&mut self, part: &str, at: u64, len: usize) -> Result<(), NoMemory>
        ensures ok { OnOk result (supply_of self.new
            ≡ with_pull (record { part = part.now; at = at; len = len }) (supply_of self.old)) }
        ensures err { OnErr result (supply_of self.new ≡ supply_of self.old) }
        ensures counts { source_counts self.new ≡ source_counts self.old }
        ensures plan_faults { plan_faults_of self.new ≡ plan_faults_of self.old }
        ensures lists { list_plan self.new ≡ list_plan self.old }
        ensures looks { look_plan self.new ≡ look_plan self.old }
        ensures pulls { pull_plan self.new ≡ pull_plan self.old }
    {
        let entry = Pulled {
            part: Text::from_str(self.alloc, part)?,
            at,
            len: len as u64,
        };
        if let Err(_) = self.pulls.push(entry) {
            return Err(NoMemory);
        }
        Ok(())
    }
}

impl Source for MemSource {
    ghost use Rattle.std.specs.declared.option.Option.TheVariants.{Some};
    ghost use Rattle.gob_io.specs.MemSource.{list_plan, look_plan, plan_faults_of, pull_plan, source_counts, supply_of};

    ghost supply = { λ s. Some (supply_of s) };

    ghost faults = { λ s. (source_counts s).faults };

    ghost plan_faults = { plan_faults_of };

    ghost held_is_listed = { λ s. s.listed };

    fn list(&mut self, alloc: Global) -> Result<Vec<Part>, ListFault>
        ensures listed { IfOk result (λ parts. IsListed (map entry_of parts.items)) }
        ensures entries { IfOk result (λ parts. map entry_of parts.items ≡ listing_of (supply_of self.old).held) }
        ensures supply { supply_of self.new ≡ supply_of self.old }
        ensures cause { CountsFailure (source_counts self.old).faults (source_counts self.new).faults
            (result ≡ Err ListFault.Failed) }
        ensures planned { CountsFailure (plan_faults_of self.old) (plan_faults_of self.new)
            (result ≡ Err ListFault.Failed) }
        ensures as_planned { FailsAsPlanned (IsDue (list_plan self.old)) (source_counts self.old)
            (source_counts self.new) (result ≡ Err ListFault.Failed) }
        ensures call { CountsCall (list_plan self.old) (list_plan self.new) }
        ensures one { CountsOne (plan_faults_of self.old) (plan_faults_of self.new) (result ≡ Err ListFault.Failed) }
        ensures short { (source_counts self.new).shorts ≡ (source_counts self.old).shorts }
        ensures others { (look_plan self.new ≡ look_plan self.old) × (pull_plan self.new ≡ pull_plan self.old) }
    {
        if self.lists.fails_next() {
            self.counts.fail();
            self.plan_faults = self.plan_faults.saturating_add(1);
            return Err(ListFault::Failed);
        }
        match listing(alloc, self.parts.as_slice()) {
            Ok(parts) => Ok(parts),
            Err(NoMemory) => Err(ListFault::Memory),
        }
    }

    fn look(&mut self, part: &str, at: u64, into: &mut [u8]) -> Result<usize, Failed>
        requires { part.now ≢ [] }
        ensures within { IfOk result (λ n. n ≤ length into.old) }
        ensures shape { IfOk result (λ n. seen_by_look (take n into.new) ≡ take n into.new) }
        ensures bytes { IfOk result (λ n.
            Fills into.new n (seen_by_look (bytes_from (supply_of self.old).held part.now at (length into.old)))) }
        ensures supply { supply_of self.new ≡ supply_of self.old }
        ensures cause { CountsFailure (source_counts self.old).faults (source_counts self.new).faults (IsErr result) }
        ensures planned { CountsFailure (plan_faults_of self.old) (plan_faults_of self.new) (IsErr result) }
        ensures as_planned { FailsAsPlanned (IsDue (look_plan self.old)) (source_counts self.old)
            (source_counts self.new) (IsErr result) }
        ensures call { CountsCall (look_plan self.old) (look_plan self.new) }
        ensures one { CountsOne (plan_faults_of self.old) (plan_faults_of self.new) (IsErr result) }
        ensures short { (source_counts self.new).shorts ≡ (source_counts self.old).shorts }
        ensures others { (list_plan self.new ≡ list_plan self.old) × (pull_plan self.new ≡ pull_plan self.old) }
    {
        if self.looks.fails_next() {
            self.counts.fail();
            self.plan_faults = self.plan_faults.saturating_add(1);
            return Err(Failed);
        }
        let count = give(self.parts.as_slice(), part, at, into);
        keep_line_ends(&mut into[..count]);
        Ok(count)
    }

    fn pull(&mut self, part: &str, at: u64, into: &mut [u8]) -> Result<usize, Failed>
        requires { part.now ≢ [] }
        ensures within { IfOk result (λ n. n ≤ length into.old) }
        ensures bytes { IfOk result (λ n. Fills into.new n
            (bytes_from (supply_of self.old).held part.now at (length into.old))) }
        ensures counted { let pull : Pull = record { part = part.now; at = at; len = length into.old } in
            OnOk result (supply_of self.new ≡ with_pull pull (supply_of self.old)) }
        ensures uncounted { OnErr result (supply_of self.new ≡ supply_of self.old) }
        ensures cause { CountsFailure (source_counts self.old).faults (source_counts self.new).faults (IsErr result) }
        ensures planned { plan_faults_of self.new ≡ plan_faults_of self.old }
        ensures as_planned { FailsAsPlanned (IsDue (pull_plan self.old)) (source_counts self.old)
            (source_counts self.new) (IsErr result) }
        ensures call { CountsCall (pull_plan self.old) (pull_plan self.new) }
        ensures others { (list_plan self.new ≡ list_plan self.old) × (look_plan self.new ≡ look_plan self.old) }
    {
        if self.takes.fails_next() {
            self.counts.fail();
            return Err(Failed);
        }
        if let Err(NoMemory) = self.note(part, at, into.len()) {
            self.counts.fall_short();
            return Err(Failed);
        }
        Ok(give(self.parts.as_slice(), part, at, into))
    }
}
