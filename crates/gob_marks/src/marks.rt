//! The marks of one partition.

ghost use Rattle.std.specs.Prelude.{◌≡◌, ◌<◌, ◌↔◌, ℕ, IfOk, IsFalse, IsTrue, OnErr, OnOk};
ghost use Rattle.std.specs.List.{list_any};
ghost use Rattle.gob_ledger.specs.Marks as marks;
ghost use Rattle.gob_ledger.specs.Next.{no_marks, with_done, with_owed};
ghost use Rattle.gob_ledger.specs.Units.{same_span};
ghost use Rattle.gob_marks.specs.Changed.{next_span, with_new_done};
ghost use Rattle.gob_marks.specs.Joined.{Fill, Joins};

use crate::joining::{filling, make_one};
use crate::open_ranges::OpenRanges;
use crate::search::{done_begun_by, open_begun_by};
use crate::{Done, Range};
use gob_plan::NoMemory;
use std::alloc::Global;
use std::marker::Model;

/// What of a partition was taken: its done and its open ranges, each by `lo`, tile the offsets below `next`.
#[derive(Drop)]
pub struct Marks {
    next: u64,
    done: Vec<Done>,
    owed: OpenRanges,
}

impl Model for Marks {
    ghost use Rattle.gob_ledger.specs.Marks as marks;

    ghost Value = { marks.Marks };

    ghost view = { λ m. record { next = m.next; finished = m.done.items; owed = m.owed } };

    ghost invariant = { λ m. marks.Tiled (record { next = m.next; finished = m.done.items; owed = m.owed }) };
}

impl Marks {
    /// Nothing was taken.
    pub fn new(alloc: Global) -> Self
        ensures { result ≡ no_marks }
    {
        Marks {
            next: 0,
            done: Vec::new(alloc),
            owed: OpenRanges::new(alloc),
        }
    }

    /// The end of what was taken.
    pub fn next(&self) -> u64
        ensures next { result ≡ self.now.next }
        ensures tiled { marks.Tiled self.now }
    {
        self.next
    }

    pub fn done(&self) -> &[Done]
        ensures done { result.now ≡ self.now.finished }
        ensures tiled { marks.Tiled self.now }
    {
        self.done.as_slice()
    }

    pub fn open_ranges(&self) -> &[Range]
        ensures open_ranges { result.now ≡ self.now.owed }
        ensures tiled { marks.Tiled self.now }
    {
        self.owed.as_slice()
    }

    /// The least offset that is in no done range.
    pub fn watermark(&self) -> u64
        ensures { marks.IsWatermark result self.now }
    {
        match self.owed.as_slice().first() {
            Some(first) => first.lo,
            None => self.next,
        }
    }

    /// Whether a done range has this offset. Goes by halving.
    pub fn covers(&self, at: u64) -> bool
        ensures { result ≡ marks.is_done at self.now }
    {
        let begun = done_begun_by(self.done.as_slice(), at);
        if begun == 0 {
            return false;
        }
        let last = self.done[begun - 1];
        let range = last.range;
        at < range.hi
    }

    pub fn copy(&self) -> Result<Self, NoMemory>
        ensures { IfOk result (λ m. m ≡ self.now) }
    {
        let alloc = *self.done.allocator();
        let done = Vec::from_slice(alloc, self.done.as_slice())?;
        let owed = self.owed.copy()?;
        Ok(Marks {
            next: self.next,
            done,
            owed,
        })
    }

    /// Adds the open range from `next` to here.
    pub fn add_open(&mut self, hi: u64) -> Result<(), NoMemory>
        requires { self.old.next < hi }
        ensures ok { OnOk result (self.new ≡ with_owed (next_span self.old hi) self.old) }
        ensures err { OnErr result (self.new ≡ self.old) }
    {
        let lo = self.next;
        self.owed.push(Range { lo, hi })?;
        self.next = hi;
        Ok(())
    }

    /// Adds the range from `next` to here as one that this pipeline has made.
    pub fn add_done(&mut self, hi: u64, pipeline: u64) -> Result<(), NoMemory>
        requires { self.old.next < hi }
        ensures ok { OnOk result (self.new ≡ with_new_done pipeline (next_span self.old hi) self.old) }
        ensures err { OnErr result (self.new ≡ self.old) }
    {
        let range = Range { lo: self.next, hi };
        self.done.push(Done { range, pipeline })?;
        self.next = hi;
        Ok(())
    }

    /// Makes an open range done by this pipeline. False, and nothing changed, where it isn't an open range. Both ranges
    /// are found by halving; what stands behind them moves by one place, but not where it is the first open range.
    pub fn commit(&mut self, range: Range, pipeline: u64) -> Result<bool, NoMemory>
        ensures answer { IfOk result (λ done. done ≡ list_any (same_span range) self.old.owed) }
        ensures committed { IfOk result (λ done. IsTrue done → self.new ≡ with_done pipeline range self.old) }
        ensures kept { IfOk result (λ done. IsFalse done → self.new ≡ self.old) }
        ensures err { OnErr result (self.new ≡ self.old) }
    {
        let begun = open_begun_by(self.owed.as_slice(), range.lo);
        if begun == 0 {
            return Ok(false);
        }
        if !same_range(range, self.owed.at(begun - 1)) {
            return Ok(false);
        }
        let place = done_begun_by(self.done.as_slice(), range.lo);
        self.done.insert(place, Done { range, pipeline })?;
        self.owed.remove(begun - 1);
        Ok(true)
    }

    /// Makes the done ranges that fill this range one. False, and nothing changed, where it isn't filled by two or more
    /// of them, all of one pipeline. What stands behind them moves up, and what they covered stays covered.
    pub fn join(&mut self, range: Range) -> bool
        ensures answer { IsTrue result ↔ Fill range self.old.finished }
        ensures joined { IsTrue result → Joins range self.old self.new }
        ensures kept { IsFalse result → self.new ≡ self.old }
        ensures covered { (at : ℕ) → marks.is_done at self.new ≡ marks.is_done at self.old }
    {
        let begun = done_begun_by(self.done.as_slice(), range.lo);
        if begun == 0 {
            return false;
        }
        let first = begun - 1;
        let count = filling(&self.done[first..], range);
        if count < 2 {
            return false;
        }
        make_one(&mut self.done, first, count, range);
        true
    }
}

fn same_range(a: Range, b: Range) -> bool
    ensures { result ≡ same_span a b }
{
    a.lo == b.lo && a.hi == b.hi
}
