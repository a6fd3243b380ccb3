//! A source of partitions, which are files that only grow.

ghost use Rattle.std.specs.Prelude.{◌≡◌, ◌≢◌, ◌≤◌, ℕ, [], length, take, map, option_map, IfOk, IfSome, OnOk, OnErr};
ghost use Rattle.std.specs.Prelude.{IsErr};
ghost use Rattle.std.specs.declared.option.Option.{Option};
ghost use Rattle.gob_device.specs.Causes.{CountsFailure};
ghost use Rattle.gob_device.specs.Supply.{Fills, IsListed, Pull, Supply};
ghost use Rattle.gob_device.specs.Supply.{bytes_from, listing_of, seen_by_look, with_pull};
ghost use Rattle.gob_io.specs.Listing.{entry_of};

use gob_plan::{Failed, Text};
use std::alloc::Global;
use thiserror::Error;

/// A partition in a listing: its name, with `/` between folders, and its size in bytes.
#[derive(Drop)]
pub struct Part {
    pub name: Text,
    pub size: u64,
}

/// Why there is no listing.
#[derive(Clone, Copy, Debug, PartialEq, Eq, Error)]
pub enum ListFault {
    #[error("the source failed")]
    Failed,
    #[error("no memory is left")]
    Memory,
}

/// Partitions that only grow. A source may tell what it holds and which pulls it answered; no call changes whether
/// it does. Each call that fails raises a count of faults, which stops at the end of a `u64`; no other call does.
pub trait Source {
    /// What the source holds and what was pulled from it, where it tells.
    ghost supply: { Self → Option Supply };

    /// How often a call failed.
    ghost faults: { Self → ℕ };

    /// How often `list` or `look` failed.
    ghost plan_faults: { Self → ℕ };

    /// Every partition with its size, in byte order of names, each once. No name is empty, and no size passes 2^63 - 1.
    fn list(&mut self, alloc: Global) -> Result<Vec<Part>, ListFault>
        ensures listed { IfOk result (λ parts. IsListed (map entry_of parts.items)) }
        ensures entries { IfOk result (λ parts. IfSome (supply self.old)
            (λ s. map entry_of parts.items ≡ listing_of s.held)) }
        ensures supply { supply self.new ≡ supply self.old }
        ensures cause { CountsFailure (faults self.old) (faults self.new) (result ≡ Err ListFault.Failed) }
        ensures planned { CountsFailure (plan_faults self.old) (plan_faults self.new) (result ≡ Err ListFault.Failed) };

    /// Tells where lines end, and nothing else: fills the front of a buffer with a line feed for each line feed from
    /// an offset on, and 0 for every other byte. Answers how many; none for a name that isn't there. After a failure
    /// the buffer may hold anything.
    fn look(&mut self, part: &str, at: u64, into: &mut [u8]) -> Result<usize, Failed>
        requires { part.now ≢ [] }
        ensures within { IfOk result (λ n. n ≤ length into.old) }
        ensures shape { IfOk result (λ n. seen_by_look (take n into.new) ≡ take n into.new) }
        ensures bytes { IfOk result (λ n. IfSome (supply self.old)
            (λ s. Fills into.new n (seen_by_look (bytes_from s.held part.now at (length into.old))))) }
        ensures supply { supply self.new ≡ supply self.old }
        ensures cause { CountsFailure (faults self.old) (faults self.new) (IsErr result) }
        ensures planned { CountsFailure (plan_faults self.old) (plan_faults self.new) (IsErr result) };

    /// Fills the front of a buffer with the bytes from an offset on. Answers how many; none for a name that isn't
    /// there. After a failure the buffer may hold anything.
    fn pull(&mut self, part: &str, at: u64, into: &mut [u8]) -> Result<usize, Failed>
        requires { part.now ≢ [] }
        ensures within { IfOk result (λ n. n ≤ length into.old) }
        ensures bytes { IfOk result (λ n. IfSome (supply self.old)
            (λ s. Fills into.new n (bytes_from s.held part.now at (length into.old)))) }
        ensures counted { let pull : Pull = record { part = part.now; at = at; len = length into.old } in
            OnOk result (supply self.new ≡ option_map (with_pull pull) (supply self.old)) }
        ensures uncounted { OnErr result (supply self.new ≡ supply self.old) }
        ensures cause { CountsFailure (faults self.old) (faults self.new) (IsErr result) }
        ensures planned { plan_faults self.new ≡ plan_faults self.old };

    /// What is held has the form of a listing.
    ghost held_is_listed: { (s : Self) → IfSome (supply s) (λ t. IsListed (listing_of t.held)) };
}
