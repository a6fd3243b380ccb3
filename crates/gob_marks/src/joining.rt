//! Neighbouring done ranges that become one.

ghost use Rattle.std.specs.Prelude.{◌≡◌, ◌<◌, ◌≤◌, ◌↔◌, ◌+◌, ◌++◌, ◌∷◌, drop, length, map, take, vec_len, IsTrue};
ghost use Rattle.gob_ledger.specs.Marks.{InOrder};
ghost use Rattle.gob_marks.specs.Joined.{FillsFront, first_pipeline};

use crate::{Done, Range};

/// How many ranges at the front fill this range, all of the first one's pipeline; 0 where no number of them does. Looks
/// no further than the range's end.
pub fn filling(ranges: &[Done], range: Range) -> usize
    requires some { 0 < length ranges.now }
    requires order { InOrder 0 (map (λ d. d.span) ranges.now) }
    ensures { FillsFront range ranges.now result }
{
    let pipeline = pipeline_at(ranges[0]);
    let mut hi = range.lo;
    for at in 0..ranges.len() {
        let done = ranges[at];
        if !goes_on(done, hi, pipeline) {
            return 0;
        }
        hi = end_of(done);
        if hi > range.hi {
            return 0;
        }
        if hi == range.hi {
            return at + 1;
        }
    }
    0
}

fn pipeline_at(done: Done) -> u64
    ensures { result ≡ done.pipeline }
{
    done.pipeline
}

fn end_of(done: Done) -> u64
    ensures { result ≡ done.span.hi }
{
    let range = done.range;
    range.hi
}

// Whether the range begins at this offset and is of this pipeline.
fn goes_on(done: Done, lo: u64, pipeline: u64) -> bool
    ensures { IsTrue result ↔ ((done.span.lo ≡ lo) × (done.pipeline ≡ pipeline)) }
{
    let range = done.range;
    range.lo == lo && done.pipeline == pipeline
}

/// Makes so many ranges, from a place on, this one, of the first one's pipeline.
pub fn make_one(ranges: &mut Vec<Done>, first: usize, count: usize, range: Range)
    requires some { 0 < count }
    requires within { first + count ≤ vec_len ranges.old }
    ensures { ranges.new.items ≡ take first ranges.old.items
        ++ record { span = range; pipeline = first_pipeline (drop first ranges.old.items) }
        ∷ drop (first + count) ranges.old.items }
{
    let left = ranges.len() + 1 - count;
    ranges[first].range = range;
    ranges.copy_within(first + count.., first + 1);
    ranges.truncate(left);
}
