//! The ranges that have changed of a partition.

ghost use Rattle.std.specs.Prelude.{◌≡◌, ◌+◌, ◌<◌, IfOk, IsFalse, IsTrue};
ghost use Rattle.gob_ledger.specs.Delta.{changed_marks};
ghost use Rattle.gob_segments.specs.Applied.{CanPut, MarksAfter, begin_of, with_range_line};
ghost use Rattle.gob_state.specs.Ranges.{AreMarks, NoRange, ranges_text};
ghost use Rattle.gob_state.specs.Reads.{ReadsSpelling};
ghost use Rattle.gob_state.specs.Versions.{version_of};
ghost use Rattle.gob_state.specs.declared.ranges.RangeLine.TheVariants as range_line;

use gob_marks::{Done, Marks};
use gob_plan::NoMemory;
use gob_state::{RangeLine, Version, take_range};
use gob_text::Words;

/// The ranges that have changed of a partition, one at least, put over its marks.
pub(crate) fn take_changed(
    text: &mut Words,
    version: Version,
    pipelines: u64,
    before: Marks,
) -> Result<Option<Marks>, NoMemory>
    requires { AreMarks (version_of version) pipelines before }
    ensures { IfOk result (λ taken.
        ReadsSpelling (λ m. ranges_text (version_of version) (changed_marks before m))
        (MarksAfter (version_of version) pipelines before) NoRange text.old text.new taken) }
{
    let mut marks = before;
    let mut from = 0;
    while let Some(next) = take_range(text, version) {
        let Some(line) = next else {
            if from == 0 {
                return Ok(None);
            }
            return Ok(Some(marks));
        };
        if !put_range(&mut marks, line, from, pipelines)? {
            return Ok(None);
        }
        from = behind_begin(line);
    }
    Ok(None)
}

// Puts a range over the marks. False where it can't be put.
fn put_range(
    marks: &mut Marks,
    line: RangeLine,
    from: u64,
    pipelines: u64,
) -> Result<bool, NoMemory>
    ensures put { IfOk result (λ put. IsTrue put
        → CanPut from pipelines marks.old line × (marks.new ≡ with_range_line line marks.old)) }
    ensures refused { IfOk result (λ put. IsFalse put → CanPut from pipelines marks.old line → ⊥) }
{
    match line {
        RangeLine::Done(done) => put_done(marks, done, from, pipelines),
        RangeLine::Open(range) => {
            if range.lo != marks.next() || range.hi <= range.lo {
                return Ok(false);
            }
            marks.add_open(range.hi)?;
            Ok(true)
        }
    }
}

fn put_done(marks: &mut Marks, done: Done, from: u64, pipelines: u64) -> Result<bool, NoMemory>
    ensures put { IfOk result (λ put. IsTrue put
        → CanPut from pipelines marks.old (range_line.Done done)
        × (marks.new ≡ with_range_line (range_line.Done done) marks.old)) }
    ensures refused { IfOk result (λ put. IsFalse put → CanPut from pipelines marks.old (range_line.Done done) → ⊥) }
{
    let range = done.range;
    if range.lo < from || range.hi <= range.lo || done.pipeline >= pipelines {
        return Ok(false);
    }
    if range.lo < marks.next() {
        let was_owed = marks.commit(range, done.pipeline)?;
        return Ok(was_owed);
    }
    if range.lo != marks.next() {
        return Ok(false);
    }
    marks.add_done(range.hi, done.pipeline)?;
    Ok(true)
}

// The offset behind that at which the range begins.
fn behind_begin(line: RangeLine) -> u64
    requires { begin_of line < 18446744073709551615 }
    ensures { result ≡ begin_of line + 1 }
{
    match line {
        RangeLine::Done(done) => {
            let range = done.range;
            range.lo + 1
        }
        RangeLine::Open(range) => range.lo + 1,
    }
}
