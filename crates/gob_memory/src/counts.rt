//! How often calls failed.

ghost use Rattle.std.specs.Prelude.{◌≡◌, ◌≤◌};
ghost use Rattle.gob_device.specs.Causes.{one_more};

/// How many calls failed, and how many of them found no room. Both stop at the end of a `u64`.
#[derive(Drop)]
pub struct Counts {
    pub faults: u64,
    pub shorts: u64,
}

impl Counts {
    pub fn new() -> Self
        ensures { result ≡ record { faults = 0; shorts = 0 } }
    {
        Counts {
            faults: 0,
            shorts: 0,
        }
    }

    /// Counts a call that was to fail.
    pub fn fail(&mut self)
        ensures faults { self.new.faults ≡ one_more self.old.faults }
        ensures later { self.old.faults ≤ self.new.faults }
        ensures shorts { self.new.shorts ≡ self.old.shorts }
    {
        self.faults = self.faults.saturating_add(1);
    }

    /// Counts a call that found no room.
    pub fn fall_short(&mut self)
        ensures faults { self.new.faults ≡ one_more self.old.faults }
        ensures later { self.old.faults ≤ self.new.faults }
        ensures shorts { self.new.shorts ≡ one_more self.old.shorts }
    {
        self.fail();
        self.shorts = self.shorts.saturating_add(1);
    }
}
