//! The pipelines after a change.

ghost use Rattle.std.specs.Prelude.{◌≡◌, ℕ, List, IfOk};
ghost use Rattle.gob_ledger.specs.Spelling.{version_1, version_2};
ghost use Rattle.gob_segments.specs.Applied.{AreApart, PipelinesAfter, later_text};
ghost use Rattle.gob_state.specs.Reads.{ReadsSpelling};
ghost use Rattle.gob_state.specs.Versions.{version_of};
ghost use Rattle.gob_text.specs.Words.{GoesOnAtAll};

use gob_plan::{List, NoMemory, Text};
use gob_state::{Version, has_pipeline, take_numbered, take_pipeline};
use gob_text::Words;
use std::alloc::Global;

/// The pipelines with the one that came, where one did. The first version tells none, and keeps one alone.
pub(crate) fn take_later(
    alloc: Global,
    text: &mut Words,
    version: Version,
    known: List<Text>,
) -> Result<Option<List<Text>>, NoMemory>
    requires { AreApart known }
    ensures { IfOk result (λ taken.
        ReadsSpelling (later_text (version_of version) known) (PipelinesAfter (version_of version) known) GoesOnAtAll
        text.old text.new taken) }
{
    match version {
        Version::First => Ok(one_alone(known)),
        Version::Second => {
            let pipelines = take_one_more(alloc, text, known)?;
            Ok(pipelines)
        }
    }
}

fn one_alone(known: List<Text>) -> Option<List<Text>>
    requires { AreApart known }
    ensures { (text : List ℕ) → ReadsSpelling (later_text version_1 known) (PipelinesAfter version_1 known) GoesOnAtAll
        text text result }
{
    if known.len() != 1 {
        return None;
    }
    Some(known)
}

// No pipeline or one, behind their number.
fn take_one_more(
    alloc: Global,
    text: &mut Words,
    known: List<Text>,
) -> Result<Option<List<Text>>, NoMemory>
    requires { AreApart known }
    ensures { IfOk result (λ taken.
        ReadsSpelling (later_text version_2 known) (PipelinesAfter version_2 known) GoesOnAtAll text.old text.new
        taken) }
{
    let Some(count) = take_numbered(text, b"pipelines") else {
        return Ok(None);
    };
    if count == 0 {
        return Ok(Some(known));
    }
    if count != 1 {
        return Ok(None);
    }
    let Some(pipeline) = take_pipeline(alloc, text)? else {
        return Ok(None);
    };
    if has_pipeline(known.as_slice(), pipeline.as_str()) {
        return Ok(None);
    }
    let mut pipelines = known;
    pipelines.push(pipeline)?;
    Ok(Some(pipelines))
}
