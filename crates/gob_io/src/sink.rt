//! A sink of bytes.

ghost use Rattle.std.specs.Prelude.{◌≡◌, ℕ, take, option_map, OnOk, OnErr, IsErr};
ghost use Rattle.std.specs.declared.option.Option.{Option};
ghost use Rattle.gob_device.specs.Causes.{CountsFailure};
ghost use Rattle.gob_device.specs.Output.{Output, with_write};

use gob_plan::Failed;

/// Where a text goes. A sink may tell what was written to it; no call changes whether it does.
pub trait Sink {
    /// The bytes written so far and the number of writes, where the sink tells.
    ghost output: { Self → Option Output };

    /// How often a write failed.
    ghost faults: { Self → ℕ };

    /// Writes all of the bytes, or fails after some front of them. Either way it is one write.
    fn write(&mut self, bytes: &[u8]) -> Result<(), Failed>
        ensures ok { OnOk result (output self.new ≡ option_map (with_write bytes.now) (output self.old)) }
        ensures err { OnErr result ((n : ℕ) × (output self.new
            ≡ option_map (with_write (take n bytes.now)) (output self.old))) }
        ensures cause { CountsFailure (faults self.old) (faults self.new) (IsErr result) };
}
