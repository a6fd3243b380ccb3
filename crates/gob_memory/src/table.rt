//! Values by name, kept in byte order of names in one vector and found by halving.

ghost use Rattle.std.specs.Prelude.{◌≡◌, option_copied, ◌↔◌, IsSome, IsOk, IsTrue, MatchResult, OnOk, OnErr};
ghost use Rattle.std.specs.declared.cmp.Ordering.TheVariants.{Greater};
ghost use Rattle.gob_bytes.specs.Tables.{IsInByteOrder, at_name, name_cmp, names_of, with_name};
ghost use Rattle.gob_memory.specs.Places.{GoesAt, StandsAt, rank_of, without_name};

use gob_plan::{NoMemory, Text};
use std::alloc::Global;
use std::cmp::Ordering;

/// Where a name stands, or where it would go.
pub fn find<V>(table: &[(Text, V)], name: &str) -> Result<usize, usize>
    requires { IsInByteOrder (names_of table.now) }
    ensures { MatchResult result (StandsAt table.now name.now) (GoesAt table.now name.now) }
{
    let place = rank(table, name);
    if place < table.len() && table[place].0.as_str() == name {
        Ok(place)
    } else {
        Err(place)
    }
}

// How many names are below this one, found by halving what is left.
fn rank<V>(table: &[(Text, V)], name: &str) -> usize
    requires { IsInByteOrder (names_of table.now) }
    ensures { result ≡ rank_of table.now name.now }
{
    let mut low = 0;
    let mut high = table.len();
    while low < high {
        let middle = low + (high - low) / 2;
        if is_above(name, table[middle].0.as_str()) {
            low = middle + 1;
        } else {
            high = middle;
        }
    }
    low
}

fn is_above(name: &str, other: &str) -> bool
    ensures { IsTrue result ↔ (name_cmp name.now other.now ≡ Greater) }
{
    name.cmp(other) == Ordering::Greater
}

/// The value at a name.
pub fn get<'a, V>(table: &'a [(Text, V)], name: &str) -> Option<&'a V>
    requires { IsInByteOrder (names_of table.now) }
    ensures { option_copied result ≡ at_name table.now name.now }
{
    match find(table, name) {
        Ok(place) => Some(&table[place].1),
        Err(_) => None,
    }
}

/// Puts a value at a name, in place of what was there. A name that is there needs no memory.
pub fn set<V: Drop>(
    alloc: Global,
    table: &mut Vec<(Text, V)>,
    name: &str,
    value: V,
) -> Result<(), NoMemory>
    requires { IsInByteOrder (names_of table.old.items) }
    ensures ok { OnOk result (table.new.items ≡ with_name table.old.items name.now value) }
    ensures err { OnErr result (table.new.items ≡ table.old.items) }
    ensures there { IsSome (at_name table.old.items name.now) → IsOk result }
    ensures rising { IsInByteOrder (names_of table.new.items) }
{
    match find(table.as_slice(), name) {
        Ok(place) => {
            table[place].1 = value;
            Ok(())
        }
        Err(place) => {
            let name = Text::from_str(alloc, name)?;
            if let Err(_) = table.insert(place, (name, value)) {
                return Err(NoMemory);
            }
            Ok(())
        }
    }
}

/// Takes a name away, and answers its value.
pub fn take<V>(table: &mut Vec<(Text, V)>, name: &str) -> Option<V>
    requires { IsInByteOrder (names_of table.old.items) }
    ensures value { result ≡ at_name table.old.items name.now }
    ensures after { table.new.items ≡ without_name table.old.items name.now }
    ensures rising { IsInByteOrder (names_of table.new.items) }
{
    match find(table.as_slice(), name) {
        Ok(place) => {
            let (_, value) = table.remove(place);
            Some(value)
        }
        Err(_) => None,
    }
}
