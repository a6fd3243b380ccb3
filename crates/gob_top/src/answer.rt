//! What a command answers, and how that is delivered.
ghost use Rattle.std.specs.Prelude.{◌≡◌, ◌≤◌, IfOk};
ghost use Rattle.gob_report.specs.Refusals.{told_as};
ghost use Rattle.gob_top.specs.Answers.{Delivered, Tells, refusal_told};
ghost use Rattle.gob_top.specs.Made.{told_of, told_when_done};

use crate::stopped::Stopped;
use gob_io::Sink;
use gob_plan::{Bytes, Failed, NoMemory};
use gob_report::{Refusal, memory_text, refusal_text};
use std::alloc::Global;

/// A text, and the status that goes with it.
#[derive(Drop)]
pub struct Report {
    pub status: u8,
    pub text: Bytes,
}

/// The status where no memory is left.
const NO_MEMORY: u8 = 8;

/// The status where the text couldn't be written whole.
const NOT_WRITTEN: u8 = 7;

/// What is told of a refusal.
fn refuse(alloc: Global, refusal: &Refusal) -> Result<Report, NoMemory>
    ensures { IfOk result (λ report. (report.status, report.text) ≡ refusal_told (told_as refusal.now)) }
{
    let text = refusal_text(alloc, refusal)?;
    Ok(Report {
        status: refusal.status(),
        text,
    })
}

/// What is told of a command that was done, or was refused or stopped.
pub(crate) fn answer(alloc: Global, done: Result<Report, Stopped>) -> Result<Report, NoMemory>
    ensures { Tells (told_when_done done) (told_of result) }
{
    match done {
        Ok(report) => Ok(report),
        Err(stopped) => refuse(alloc, &stopped.refusal),
    }
}

/// Writes what is told by one call of the sink. A write that fails takes the place of every status but that of want of
/// memory.
pub(crate) fn deliver<O: Sink>(answer: &Result<Report, NoMemory>, out: &mut O) -> u8
    ensures delivered { Delivered result (told_of answer.now) (O.output out.old) (O.output out.new)
        (O.faults out.old) (O.faults out.new) }
    ensures goes_on { O.faults out.old ≤ O.faults out.new }
{
    let (status, text) = match answer {
        Ok(report) => (report.status, report.text.as_slice()),
        Err(NoMemory) => (NO_MEMORY, memory_text()),
    };
    match out.write(text) {
        Ok(()) => status,
        Err(Failed) if status == NO_MEMORY => NO_MEMORY,
        Err(Failed) => NOT_WRITTEN,
    }
}
