//! Why a command line isn't done, and what is told of it.
ghost use Rattle.std.specs.Prelude.{◌≡◌, ◌++◌, ◌∷◌, [], map, IfOk, OnOk};
ghost use Rattle.gob_texts.specs.Refusals as texts;
ghost use Rattle.gob_report.specs.Lines.{word_text};
ghost use Rattle.gob_report.specs.Refusals.{told_as};

use crate::lines::Word::{Name, Number, Plain};
use crate::lines::{Word, push_line};
use crate::reports::push_status;
use gob_plan::{Bytes, NoMemory, Text};
use std::alloc::{AllocError, Global};

/// Why a command line isn't done, in the order in which refusals come.
#[derive(Debug, Drop)]
pub enum Refusal {
    /// The words are no command line.
    Usage,
    /// The job file isn't there.
    NoJob,
    /// It isn't UTF-8.
    NotUtf8,
    /// It has a malformed escape in the logical line that begins on this one.
    BadEscape { line: u64 },
    /// It lacks a key.
    Missing { key: Text },
    BadValue { key: Text },
    /// The key has another number of types than there are policies.
    BadPolicyCount { key: Text },
    /// The key's value names a column that isn't there.
    NoColumn { key: Text, column: Text },
    /// The key's value names a column of another kind.
    BadKind { key: Text, column: Text },
    /// The key's value holds `${`.
    Interpolation { key: Text },
    /// A file of the job can't be read.
    Damaged { name: Text },
    /// A partition has fewer bytes than were taken of it.
    Shrunk { part: Text, next: u64, size: u64 },
    SourceFault,
    VolumeFault,
    /// No memory is left; what was committed stands.
    Memory,
    /// More ranges and new units than a state may have.
    Full { ranges: u64, units: u64 },
}

impl Refusal {
    /// The exit status.
    pub fn status(&self) -> u8
        ensures { result ≡ texts.refusal_status (told_as self.now) }
    {
        match self {
            Refusal::Usage => 2,
            Refusal::NoJob | Refusal::NotUtf8 | Refusal::BadEscape { .. } => 3,
            Refusal::Missing { .. } | Refusal::BadValue { .. } => 3,
            Refusal::BadPolicyCount { .. } | Refusal::NoColumn { .. } => 3,
            Refusal::BadKind { .. } | Refusal::Interpolation { .. } => 3,
            Refusal::Damaged { .. } | Refusal::Shrunk { .. } => 4,
            Refusal::SourceFault => 5,
            Refusal::VolumeFault => 6,
            Refusal::Memory => 8,
            Refusal::Full { .. } => 9,
        }
    }
}

const USAGE: &str = "usage: run JOB, recover JOB, report JOB, check JOB, drill N, drill N stops";

fn push_why(into: &mut Vec<u8>, why: &[Word<'_>]) -> Result<(), AllocError>
    ensures { OnOk result (into.new.items ≡ into.old.items ++ texts.refused_line (map word_text why.now)) }
{
    push_line(into, "refused", why)
}

fn push_key<'a>(into: &mut Vec<u8>, why: &'a str, key: &'a Text) -> Result<(), AllocError>
    ensures { OnOk result (into.new.items ≡ into.old.items ++ texts.refused_line (why.now ∷ key.now ∷ [])) }
{
    push_why(into, &[Plain(why), Plain(key.as_str())])
}

fn push_column<'a>(
    into: &mut Vec<u8>,
    why: &'a str,
    key: &'a Text,
    column: &'a Text,
) -> Result<(), AllocError>
    ensures { OnOk result (into.new.items
        ≡ into.old.items ++ texts.refused_line (why.now ∷ key.now ∷ column.now ∷ [])) }
{
    push_why(
        into,
        &[Plain(why), Plain(key.as_str()), Plain(column.as_str())],
    )
}

fn push_shrunk(into: &mut Vec<u8>, part: &Text, next: u64, size: u64) -> Result<(), AllocError>
    ensures { OnOk result (into.new.items
        ≡ into.old.items ++ texts.refusal_line (texts.shrunk part.now next size)) }
{
    push_why(
        into,
        &[
            Plain("shrunk"),
            Name(part.as_str()),
            Number(next),
            Number(size),
        ],
    )
}

// The line that says why.
fn push_refusal(into: &mut Vec<u8>, refusal: &Refusal) -> Result<(), AllocError>
    ensures { OnOk result (into.new.items ≡ into.old.items ++ texts.refusal_line (told_as refusal.now)) }
{
    match refusal {
        Refusal::Usage => push_line(into, USAGE, &[]),
        Refusal::NoJob => push_why(into, &[Plain("no-job")]),
        Refusal::NotUtf8 => push_why(into, &[Plain("not-utf8")]),
        Refusal::BadEscape { line } => push_why(into, &[Plain("bad-escape"), Number(*line)]),
        Refusal::Missing { key } => push_key(into, "missing", key),
        Refusal::BadValue { key } => push_key(into, "bad-value", key),
        Refusal::BadPolicyCount { key } => push_key(into, "bad-policy-count", key),
        Refusal::NoColumn { key, column } => push_column(into, "no-column", key, column),
        Refusal::BadKind { key, column } => push_column(into, "bad-kind", key, column),
        Refusal::Interpolation { key } => push_key(into, "interpolation", key),
        Refusal::Damaged { name } => push_key(into, "damaged", name),
        Refusal::Shrunk { part, next, size } => push_shrunk(into, part, *next, *size),
        Refusal::SourceFault => push_why(into, &[Plain("source-fault")]),
        Refusal::VolumeFault => push_why(into, &[Plain("volume-fault")]),
        Refusal::Memory => push_why(into, &[Plain("memory")]),
        Refusal::Full { ranges, units } => {
            push_why(into, &[Plain("full"), Number(*ranges), Number(*units)])
        }
    }
}

/// The line that says why, and the line of the status. Where there is no memory for them, `memory_text` is told.
#[tactic(auto, using(crate::proofs::Called::refusal_called))]
pub fn refusal_text(alloc: Global, refusal: &Refusal) -> Result<Bytes, NoMemory>
    ensures { IfOk result (λ text. text ≡ texts.refusal_text (told_as refusal.now)) }
{
    let mut text = Vec::new(alloc);
    push_refusal(&mut text, refusal)?;
    push_status(&mut text, refusal.status())?;
    Ok(Bytes::from_vec(text))
}

/// What is told where no memory is left. It takes none.
pub fn memory_text() -> &'static [u8]
    ensures { result.now ≡ texts.refusal_text texts.memory }
{
    b"refused memory\nstatus 8\n"
}
