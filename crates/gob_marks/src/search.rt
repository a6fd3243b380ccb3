//! Places in lists of ranges, found by halving.

ghost use Rattle.std.specs.Prelude.{◌≡◌, ◌≤◌, length, map};
ghost use Rattle.gob_ledger.specs.Marks.{InOrder};
ghost use Rattle.gob_marks.specs.Places.{begun_by};

use crate::{Done, Range};

/// How many ranges begin at this offset or before.
pub fn open_begun_by(ranges: &[Range], at: u64) -> usize
    requires { InOrder 0 ranges.now }
    ensures begun { result ≡ begun_by at ranges.now }
    ensures within { result ≤ length ranges.now }
{
    let mut low = 0;
    let mut high = ranges.len();
    while low < high {
        let middle = low + (high - low) / 2;
        let range = ranges[middle];
        if range.lo <= at {
            low = middle + 1;
        } else {
            high = middle;
        }
    }
    low
}

/// How many done ranges begin at this offset or before.
pub fn done_begun_by(ranges: &[Done], at: u64) -> usize
    requires { InOrder 0 (map (λ d. d.span) ranges.now) }
    ensures begun { result ≡ begun_by at (map (λ d. d.span) ranges.now) }
    ensures within { result ≤ length ranges.now }
{
    let mut low = 0;
    let mut high = ranges.len();
    while low < high {
        let middle = low + (high - low) / 2;
        let done = ranges[middle];
        let range = done.range;
        if range.lo <= at {
            low = middle + 1;
        } else {
            high = middle;
        }
    }
    low
}
