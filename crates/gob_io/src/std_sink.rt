//! The edge over standard output.

use crate::Sink;
use gob_plan::Failed;
use std::io::{ErrorKind, Print};

/// Standard output, or whatever prints. It tells nothing of what arrives.
#[derive(Drop)]
pub struct StdSink<'a, R: Print> {
    rt: &'a R,
    faults: u64,
}

impl<'a, R: Print> StdSink<'a, R> {
    ghost use Rattle.std.specs.Prelude.{◌≡◌};

    pub fn new(rt: &'a R) -> Self
        ensures { result.faults ≡ 0 }
    {
        StdSink { rt, faults: 0 }
    }
}

// Writes all of the bytes; a write that takes nothing has failed.
fn print_all<R: Print>(rt: &R, bytes: &[u8]) -> Result<(), Failed> {
    let mut rest = bytes;
    for _ in 0..u64::MAX {
        if rest.is_empty() {
            return Ok(());
        }
        match rt.write_some(rest) {
            Ok(0) => return Err(Failed),
            Ok(n) => rest = &rest[n..],
            Err(e) if e.kind() == ErrorKind::Interrupted => {}
            Err(_) => return Err(Failed),
        }
    }
    Err(Failed)
}

impl<'a, R: Print> Sink for StdSink<'a, R> {
    ghost use Rattle.std.specs.declared.option.Option.TheVariants.{None};

    ghost output = { λ s. None };

    ghost faults = { λ s. s.faults };

    fn write(&mut self, bytes: &[u8]) -> Result<(), Failed> {
        let written = print_all(self.rt, bytes);
        if let Err(Failed) = written {
            self.faults = self.faults.saturating_add(1);
        }
        written
    }
}
