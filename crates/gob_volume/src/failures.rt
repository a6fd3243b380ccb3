//! When the calls of a volume in memory fail.

ghost use Rattle.std.specs.Prelude.{◌≡◌, ◌-◌, ◌↔◌, IsTrue, option_map};
ghost use Rattle.gob_memory.specs.Planned.{calls_of, numbers_of};
ghost use Rattle.gob_volume.specs.Failures.{TakesCall};

use gob_memory::{Counts, Planned};

/// The calls that are to fail by their numbers, a fuse, and the counts. A fuse lets so many changing calls pass, and
/// then no call.
#[derive(Drop)]
pub struct Failures {
    pub planned: Planned,
    pub fuse: Option<u64>,
    pub counts: Counts,
}

impl Failures {
    pub fn new(numbers: Vec<u64>) -> Self
        ensures numbers { numbers_of result.planned ≡ numbers.items }
        ensures calls { calls_of result.planned ≡ 0 }
        ensures fuse { result.fuse ≡ None }
        ensures counts { result.counts ≡ record { faults = 0; shorts = 0 } }
    {
        Failures {
            planned: Planned::new(numbers),
            fuse: None,
            counts: Counts::new(),
        }
    }

    /// Takes in a call that changes nothing, and says whether it is to fail.
    pub fn stops_read(&mut self) -> bool
        ensures { TakesCall (λ left. left) self.old self.new result }
    {
        self.planned.fails_next() || is_burnt(self.fuse)
    }

    /// Takes in a call that may change something, and says whether it is to fail.
    pub fn stops_change(&mut self) -> bool
        ensures { TakesCall (λ left. left - 1) self.old self.new result }
    {
        let stops = self.stops_read();
        self.fuse = shorter(self.fuse);
        stops
    }
}

fn is_burnt(fuse: Option<u64>) -> bool
    ensures { IsTrue result ↔ (fuse ≡ Some 0) }
{
    match fuse {
        Some(left) => left == 0,
        None => false,
    }
}

fn shorter(fuse: Option<u64>) -> Option<u64>
    ensures { result ≡ option_map (λ left. left - 1) fuse }
{
    match fuse {
        Some(left) => Some(left.saturating_sub(1)),
        None => None,
    }
}
