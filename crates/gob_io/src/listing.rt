//! The form that every listing has.

ghost use Rattle.std.specs.Prelude.{◌≡◌, ◌↔◌, ◌∷◌, map, IsTrue};
ghost use Rattle.gob_device.specs.Supply.{IsEntry, IsListed};
ghost use Rattle.gob_bytes.specs.Tables.{names_of};
ghost use Rattle.gob_io.specs.Listing.{IsBelow, entry_of};

use crate::Part;
use std::cmp::Ordering;

/// Whether the partitions stand in byte order of names, each once, with names and sizes that fit.
pub fn is_listed(parts: &[Part]) -> bool
    ensures { IsTrue result ↔ IsListed (map entry_of parts.now) }
{
    let mut left = parts;
    while let [first, rest @ ..] = left {
        if !may_precede(first, rest) {
            return false;
        }
        left = rest;
    }
    true
}

fn may_precede(first: &Part, rest: &[Part]) -> bool
    ensures { (IsTrue result × IsListed (map entry_of rest.now)) ↔ IsListed
        (entry_of first.now ∷ map entry_of rest.now) }
{
    is_entry(first) && is_below(first, rest)
}

fn is_entry(part: &Part) -> bool
    ensures { IsTrue result ↔ IsEntry part.now.name part.now.size }
{
    !part.name.is_empty() && part.size <= i64::MAX as u64
}

fn is_below(first: &Part, rest: &[Part]) -> bool
    ensures { IsTrue result ↔ IsBelow first.now.name (names_of (map entry_of rest.now)) }
{
    match rest {
        [] => true,
        [next, ..] => first.name.as_str().cmp(next.name.as_str()) == Ordering::Less,
    }
}
