//! The lines of ranges.
ghost use Rattle.std.specs.Prelude.{◌≡◌, IfOk, IsFalse, IsTrue};
ghost use Rattle.gob_text.specs.Words.{GoesOnAtAll};
ghost use Rattle.gob_state.specs.Reads.{ReadsSpelling};
ghost use Rattle.gob_state.specs.Ranges.{AreMarks, RangeGoesOn, IsDoneLine, IsOpenLine, NoRange, TakesRange};
ghost use Rattle.gob_state.specs.Ranges.{done_numbers, grown_marks, open_range_text, ranges_text};
ghost use Rattle.gob_state.specs.Versions.{version_of};

use crate::Version;
use crate::lines::{take_pair, take_triple};
use gob_marks::{Done, Marks, Range};
use gob_plan::NoMemory;
use gob_text::Words;
use std::alloc::Global;

/// What the line of a range tells.
#[derive(Clone, Copy)]
pub enum RangeLine {
    Done(Done),
    Open(Range),
}

// The numbers of a done range, which stand behind its word. In the first version its pipeline is the only one.
fn take_done(text: &mut Words, version: Version) -> Option<Done>
    ensures { ReadsSpelling (done_numbers (version_of version)) (IsDoneLine (version_of version)) GoesOnAtAll
        text.old text.new result }
{
    match version {
        Version::First => {
            let (lo, hi) = take_pair(text)?;
            let range = Range { lo, hi };
            Some(Done { range, pipeline: 0 })
        }
        Version::Second => {
            let (lo, hi, pipeline) = take_triple(text)?;
            let range = Range { lo, hi };
            Some(Done { range, pipeline })
        }
    }
}

// The numbers of an open range, which stand behind its word.
fn take_open(text: &mut Words) -> Option<Range>
    ensures { ReadsSpelling open_range_text IsOpenLine GoesOnAtAll text.old text.new result }
{
    let (lo, hi) = take_pair(text)?;
    Some(Range { lo, hi })
}

/// The line of a range, or nothing where another line stands here. `None` where the line is malformed.
pub fn take_range(text: &mut Words, version: Version) -> Option<Option<RangeLine>>
    ensures { TakesRange (version_of version) text.old text.new result }
{
    if text.take_text(b"done") {
        let done = take_done(text, version)?;
        return Some(Some(RangeLine::Done(done)));
    }
    if text.take_text(b"open") {
        let range = take_open(text)?;
        return Some(Some(RangeLine::Open(range)));
    }
    Some(None)
}

// Adds a range, where it begins at the end of the others and its pipeline is one of so many.
fn add_range(marks: &mut Marks, line: RangeLine, pipelines: u64) -> Result<bool, NoMemory>
    ensures added { IfOk result (λ added. IsTrue added
        → RangeGoesOn pipelines marks.old line × (marks.new ≡ grown_marks line marks.old)) }
    ensures refused { IfOk result (λ added. IsFalse added → RangeGoesOn pipelines marks.old line → ⊥) }
{
    match line {
        RangeLine::Done(done) => {
            let range = done.range;
            if range.lo != marks.next() || range.hi <= range.lo || done.pipeline >= pipelines {
                return Ok(false);
            }
            marks.add_done(range.hi, done.pipeline)?;
        }
        RangeLine::Open(range) => {
            if range.lo != marks.next() || range.hi <= range.lo {
                return Ok(false);
            }
            marks.add_open(range.hi)?;
        }
    }
    Ok(true)
}

/// The ranges of a partition, each of which begins at the end of the one before.
pub(crate) fn take_ranges(
    alloc: Global,
    text: &mut Words,
    version: Version,
    pipelines: u64,
) -> Result<Option<Marks>, NoMemory>
    ensures { IfOk result (λ taken.
        ReadsSpelling (ranges_text (version_of version)) (AreMarks (version_of version) pipelines) NoRange
        text.old text.new taken) }
{
    let mut marks = Marks::new(alloc);
    while let Some(next) = take_range(text, version) {
        let Some(line) = next else {
            return Ok(Some(marks));
        };
        if !add_range(&mut marks, line, pipelines)? {
            return Ok(None);
        }
    }
    Ok(None)
}
