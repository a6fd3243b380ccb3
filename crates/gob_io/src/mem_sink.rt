//! A sink in memory.

ghost use Rattle.std.specs.Prelude.{◌≡◌, [], IsErr, OnErr, OnOk};
ghost use Rattle.gob_device.specs.Causes.{CountsFailure};
ghost use Rattle.gob_device.specs.Output.{bytes_in, with_write};
ghost use Rattle.gob_memory.specs.Planned.{CountsCall, FailsAsPlanned, IsDue, calls_of, numbers_of};

use crate::Sink;
use gob_memory::{Counts, Planned};
use gob_plan::{Bytes, Failed, NoMemory};
use std::alloc::Global;

/// Keeps what is written to it. It fails the writes with the given numbers, counted from 0, and those that find no
/// room.
#[derive(Drop)]
pub struct MemSink {
    bytes: Bytes,
    planned: Planned,
    counts: Counts,
}

impl MemSink {
    ghost use Rattle.gob_io.specs.MemSink.{sink_counts, sink_plan};

    pub fn new(alloc: Global, fails: Vec<u64>) -> Self
        ensures tells { ⟦<MemSink as Sink>⟧.output result ≡ Some (record { bytes = []; writes = 0 }) }
        ensures counts { sink_counts result ≡ record { faults = 0; shorts = 0 } }
        ensures numbers { numbers_of (sink_plan result) ≡ fails.items }
        ensures calls { calls_of (sink_plan result) ≡ 0 }
    {
        MemSink {
            bytes: Bytes::new(alloc),
            planned: Planned::new(fails),
            counts: Counts::new(),
        }
    }

    /// What was written.
    pub fn bytes(&self) -> &[u8]
        ensures { bytes_in (⟦<MemSink as Sink>⟧.output self.now) ≡ Some result.now }
    {
        self.bytes.as_slice()
    }

    /// How many writes failed.
    pub fn fault_count(&self) -> u64
        ensures { result ≡ ⟦<MemSink as Sink>⟧.faults self.now }
    {
        self.counts.faults
    }

    /// How many writes found no room.
    pub fn short_count(&self) -> u64
        ensures { result ≡ (sink_counts self.now).shorts }
    {
        self.counts.shorts
    }
}

impl Sink for MemSink {
    ghost use Rattle.std.specs.declared.option.Option.TheVariants.{Some};
    ghost use Rattle.gob_io.specs.MemSink.{output_of, sink_counts, sink_plan};

    ghost output = { λ s. Some (output_of s) };

    ghost faults = { λ s. (sink_counts s).faults };

    fn write(&mut self, bytes: &[u8]) -> Result<(), Failed>
        ensures ok { OnOk result (output_of self.new ≡ with_write bytes.now (output_of self.old)) }
        ensures err { OnErr result (output_of self.new ≡ with_write [] (output_of self.old)) }
        ensures cause { CountsFailure (sink_counts self.old).faults (sink_counts self.new).faults (IsErr result) }
        ensures planned { FailsAsPlanned (IsDue (sink_plan self.old)) (sink_counts self.old) (sink_counts self.new)
            (IsErr result) }
        ensures call { CountsCall (sink_plan self.old) (sink_plan self.new) }
    {
        if self.planned.fails_next() {
            self.counts.fail();
            return Err(Failed);
        }
        if let Err(NoMemory) = self.bytes.push(bytes) {
            self.counts.fall_short();
            return Err(Failed);
        }
        Ok(())
    }
}
