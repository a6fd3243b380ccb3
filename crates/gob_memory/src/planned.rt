//! Failures by the number of the call.

ghost use Rattle.std.specs.Prelude.{◌≡◌, ◌↔◌, IsTrue};

/// The calls of one kind that are to fail, by their numbers from 0, and how many calls there were.
#[derive(Drop)]
pub struct Planned {
    numbers: Vec<u64>,
    calls: u64,
}

impl Planned {
    ghost use Rattle.gob_memory.specs.Planned.{CountsCall, IsDue, calls_of, numbers_of};

    pub fn new(numbers: Vec<u64>) -> Self
        ensures numbers { numbers_of result ≡ numbers.items }
        ensures calls { calls_of result ≡ 0 }
    {
        Planned { numbers, calls: 0 }
    }

    /// Counts a call, and says whether it is to fail.
    pub fn fails_next(&mut self) -> bool
        ensures due { IsTrue result ↔ IsDue self.old }
        ensures counted { CountsCall self.old self.new }
    {
        let due = self.numbers.contains(&self.calls);
        self.calls = self.calls.saturating_add(1);
        due
    }
}
