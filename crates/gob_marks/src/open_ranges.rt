//! Open ranges in order.

ghost use Rattle.std.specs.Prelude.{◌≡◌, ◌<◌, ◌≤◌, ◌++◌, ◌∷◌, [], length, drop, slice_index_or, vec_len, IfOk, OnErr};
ghost use Rattle.std.specs.Prelude.{OnOk};
ghost use Rattle.std.specs.List.{remove};

use crate::Range;
use gob_plan::NoMemory;
use std::alloc::Global;
use std::marker::Model;

/// Ranges in order, the first of which is taken out without moving the others: most commits are of the first one.
#[derive(Drop)]
pub struct OpenRanges {
    ranges: Vec<Range>,
    /// So many of them, at the front, are taken out.
    gone: usize,
}

impl Model for OpenRanges {
    ghost use Rattle.std.specs.Prelude.{List, ◌≤◌, drop, length};
    ghost use Rattle.gob_ledger.specs.Marks.{Span};

    ghost Value = { List Span };

    ghost view = { λ o. drop o.gone o.ranges.items };

    ghost invariant = { λ o. o.gone ≤ length o.ranges.items };
}

impl OpenRanges {
    pub fn new(alloc: Global) -> Self
        ensures { result ≡ [] }
    {
        OpenRanges {
            ranges: Vec::new(alloc),
            gone: 0,
        }
    }

    pub fn as_slice(&self) -> &[Range]
        ensures value { result.now ≡ self.now }
        ensures len { length result.now ≡ length self.now }
    {
        &self.ranges[self.gone..]
    }

    pub fn at(&self, i: usize) -> Range
        requires { i < length self.now }
        ensures { result ≡ slice_index_or self.now i result }
    {
        let ranges = self.as_slice();
        ranges[i]
    }

    pub fn copy(&self) -> Result<Self, NoMemory>
        ensures { IfOk result (λ o. o ≡ self.now) }
    {
        let ranges = Vec::from_slice(*self.ranges.allocator(), self.as_slice())?;
        Ok(OpenRanges { ranges, gone: 0 })
    }

    /// Adds a range behind the others.
    pub fn push(&mut self, range: Range) -> Result<(), NoMemory>
        ensures ok { OnOk result (self.new ≡ self.old ++ range ∷ []) }
        ensures err { OnErr result (self.new ≡ self.old) }
    {
        self.ranges.push(range)?;
        Ok(())
    }

    /// Takes out the range at this place. What stands behind it moves, but not for the first.
    pub fn remove(&mut self, at: usize)
        requires { at < length self.old }
        ensures { self.new ≡ remove self.old at }
    {
        self.gone = take_out(&mut self.ranges, self.gone, at);
    }
}

// Takes a range out of those behind so many that are gone, and answers how many are gone then.
fn take_out(ranges: &mut Vec<Range>, gone: usize, at: usize) -> usize
    requires { at < length (drop gone ranges.old.items) }
    ensures within { result ≤ vec_len ranges.new }
    ensures left { drop result ranges.new.items ≡ remove (drop gone ranges.old.items) at }
{
    if at == 0 {
        return gone + 1;
    }
    ranges.remove(gone + at);
    gone
}
