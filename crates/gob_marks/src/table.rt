//! The marks of all partitions.

ghost use Rattle.std.specs.Prelude.{◌≡◌, ◌<◌, ◌↔◌, ◌++◌, ◌∷◌, [], length, option_copied, option_map, slice_get, IfOk};
ghost use Rattle.std.specs.Prelude.{IsFalse, IsTrue, OnErr, OnOk};
ghost use Rattle.std.specs.declared.cmp.Ordering.TheVariants.{Less};
ghost use Rattle.std.specs.List.{list_any};
ghost use Rattle.gob_bytes.specs.Tables as tables;
ghost use Rattle.gob_ledger.specs.Next.{with_done, with_owed};
ghost use Rattle.gob_ledger.specs.Units.{range_count, same_span};
ghost use Rattle.gob_meaning.specs.Fold.{saturate_u64};
ghost use Rattle.gob_marks.specs.Changed.{change_marks, marks_in, next_span, with_new_done};
ghost use Rattle.gob_marks.specs.Tables.{TiledTable};

use crate::{Marks, Range};
use gob_memory::{find, get};
use gob_plan::{NoMemory, Text};
use std::alloc::Global;
use std::cmp::Ordering;
use std::marker::Model;

/// The marks of partitions, in byte order of their names.
#[derive(Drop)]
pub struct MarkTable {
    parts: Vec<(Text, Marks)>,
}

impl Model for MarkTable {
    ghost use Rattle.gob_bytes.specs.Tables.{Table};
    ghost use Rattle.gob_ledger.specs.Marks as marks;
    ghost use Rattle.gob_marks.specs.Tables.{TiledTable};

    ghost Value = { Table marks.Marks };

    ghost view = { λ t. t.parts.items };

    ghost invariant = { λ t. TiledTable t.parts.items };
}

impl MarkTable {
    pub fn new(alloc: Global) -> Self
        ensures { result ≡ [] }
    {
        MarkTable {
            parts: Vec::new(alloc),
        }
    }

    /// How many partitions there are.
    pub fn len(&self) -> usize
        ensures len { result ≡ length self.now }
        ensures tiled { TiledTable self.now }
    {
        self.parts.len()
    }

    /// Whether there is no partition.
    pub fn is_empty(&self) -> bool
        ensures { IsTrue result ↔ (self.now ≡ []) }
    {
        self.parts.is_empty()
    }

    /// The partition at this place.
    pub fn at(&self, i: usize) -> Option<(&str, &Marks)>
        ensures { option_map (λ e. (e.0.now, e.1.now)) result ≡ slice_get self.now i }
    {
        if i < self.parts.len() {
            let (part, marks) = &self.parts[i];
            Some((part.as_str(), marks))
        } else {
            None
        }
    }

    /// The partition of this name. Goes by halving.
    pub fn get(&self, part: &str) -> Option<&Marks>
        ensures { option_copied result ≡ tables.at_name self.now part.now }
    {
        get(self.parts.as_slice(), part)
    }

    /// The number of all ranges, done and open. It stops at the end of a `u64`, which no memory holds.
    pub fn range_count(&self) -> u64
        ensures { result ≡ saturate_u64 (range_count self.now) }
    {
        let mut count = 0u64;
        for (_, marks) in self.parts.as_slice() {
            count = count.saturating_add(marks.done().len() as u64);
            count = count.saturating_add(marks.open_ranges().len() as u64);
        }
        count
    }

    /// Puts a partition in, in place of what was there.
    pub fn put(&mut self, part: Text, marks: Marks) -> Result<(), NoMemory>
        ensures ok { OnOk result (self.new ≡ tables.with_name self.old part marks) }
        ensures err { OnErr result (self.new ≡ self.old) }
    {
        // Tells that they are tiled.
        let _next = marks.next();
        match find(self.parts.as_slice(), part.as_str()) {
            Ok(place) => self.parts[place].1 = marks,
            Err(place) => self.parts.insert(place, (part, marks))?,
        }
        Ok(())
    }

    /// Adds a partition behind all others. False, and nothing changed, where its name isn't above theirs.
    pub fn push(&mut self, part: Text, marks: Marks) -> Result<bool, NoMemory>
        ensures answer { IfOk result
            (λ added. IsTrue added ↔ tables.IsInByteOrder (tables.names_of self.old ++ part ∷ [])) }
        ensures added { IfOk result (λ added. IsTrue added → self.new ≡ self.old ++ (part, marks) ∷ []) }
        ensures kept { IfOk result (λ added. IsFalse added → self.new ≡ self.old) }
        ensures err { OnErr result (self.new ≡ self.old) }
    {
        if !is_above_all(self.parts.as_slice(), part.as_str()) {
            return Ok(false);
        }
        // Tells that they are tiled.
        let _next = marks.next();
        self.parts.push((part, marks))?;
        Ok(true)
    }

    pub fn copy(&self) -> Result<Self, NoMemory>
        ensures { IfOk result (λ t. t ≡ self.now) }
    {
        let mut parts = Vec::with_capacity(*self.parts.allocator(), self.parts.len())?;
        for (part, marks) in self.parts.as_slice() {
            parts.push((part.copy()?, marks.copy()?))?;
        }
        Ok(MarkTable { parts })
    }

    /// Adds an open range to a partition, from its `next` to here; where it isn't known, it is from now on. The
    /// partition is found by halving.
    pub fn add_open(&mut self, part: &str, hi: u64) -> Result<(), NoMemory>
        requires { (marks_in self.old part.now).next < hi }
        ensures ok { OnOk result
            (self.new ≡ change_marks (with_owed (next_span (marks_in self.old part.now) hi)) part.now self.old) }
        ensures err { OnErr result (self.new ≡ self.old) }
    {
        match find(self.parts.as_slice(), part) {
            Ok(place) => self.parts[place].1.add_open(hi)?,
            Err(place) => {
                let alloc = *self.parts.allocator();
                let name = Text::from_str(alloc, part)?;
                let mut marks = Marks::new(alloc);
                marks.add_open(hi)?;
                self.parts.insert(place, (name, marks))?;
            }
        }
        Ok(())
    }

    /// The same, with a range that this pipeline has made.
    pub fn add_done(&mut self, part: &str, hi: u64, pipeline: u64) -> Result<(), NoMemory>
        requires { (marks_in self.old part.now).next < hi }
        ensures ok { OnOk result
            (self.new ≡ change_marks
            (with_new_done pipeline (next_span (marks_in self.old part.now) hi)) part.now self.old) }
        ensures err { OnErr result (self.new ≡ self.old) }
    {
        match find(self.parts.as_slice(), part) {
            Ok(place) => self.parts[place].1.add_done(hi, pipeline)?,
            Err(place) => {
                let alloc = *self.parts.allocator();
                let name = Text::from_str(alloc, part)?;
                let mut marks = Marks::new(alloc);
                marks.add_done(hi, pipeline)?;
                self.parts.insert(place, (name, marks))?;
            }
        }
        Ok(())
    }

    /// Makes an open range of a partition done by this pipeline. False, and nothing changed, where it isn't an open
    /// range of it. The partition is found by halving.
    pub fn commit(&mut self, part: &str, range: Range, pipeline: u64) -> Result<bool, NoMemory>
        ensures answer { IfOk result (λ done. done ≡ list_any (same_span range) (marks_in self.old part.now).owed) }
        ensures committed { IfOk result
            (λ done. IsTrue done → self.new ≡ change_marks (with_done pipeline range) part.now self.old) }
        ensures kept { IfOk result (λ done. IsFalse done → self.new ≡ self.old) }
        ensures err { OnErr result (self.new ≡ self.old) }
    {
        match find(self.parts.as_slice(), part) {
            Ok(place) => {
                let done = self.parts[place].1.commit(range, pipeline)?;
                Ok(done)
            }
            Err(_) => Ok(false),
        }
    }
}

// Whether the name is above each of these, which rise.
fn is_above_all(parts: &[(Text, Marks)], name: &str) -> bool
    requires { tables.IsInByteOrder (tables.names_of parts.now) }
    ensures { IsTrue result ↔ tables.IsInByteOrder (tables.names_of parts.now ++ name.now ∷ []) }
{
    if parts.is_empty() {
        return true;
    }
    let last = parts[parts.len() - 1].0.as_str();
    is_below(last, name)
}

fn is_below(name: &str, other: &str) -> bool
    ensures { IsTrue result ↔ (tables.name_cmp name.now other.now ≡ Less) }
{
    name.cmp(other) == Ordering::Less
}
