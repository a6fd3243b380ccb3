//! Sequences: of which steps there are some, and their texts.

use crate::compare::{same_bytes, same_truth};
use gob_plan::{List, NoMemory, Text};
use gob_seq::{SeqStep, Sequence, read_sequence, write_sequence};
use std::alloc::Global;
use std::process::Abort;
use std::test::Fail;

/// A step, by its names.
#[derive(Clone, Copy)]
enum Told {
    Move(&'static str, &'static str),
    Remove(&'static str),
}

use Told::{Move, Remove};

/// Steps that fit the job `j`, and the text of their sequence.
const WRITTEN: [(&[Told], &[u8]); 4] = [
    (&[], b"gobblin-sequence 1\nend 0\n"),
    (
        &[Move("j/stage/0-0/out/0/a@0-4.txt", "j/out/0/a@0-4.txt")],
        b"gobblin-sequence 1\nmove j/stage/0-0/out/0/a@0-4.txt j/out/0/a@0-4.txt\nend 1\n",
    ),
    (
        &[Remove("j/delta/00000000000000000001")],
        b"gobblin-sequence 1\nremove j/delta/00000000000000000001\nend 1\n",
    ),
    (
        &[
            Move("j/stage/sequel", "j/seq2"),
            Remove("j/staged"),
            Move("j/stage/a%2Fb_-.", "j/state"),
        ],
        b"gobblin-sequence 1\nmove j/stage/sequel j/seq2\nremove j/staged\nmove j/stage/a%2Fb_-. j/state\nend 3\n",
    ),
];

/// Steps that make no sequence of the job `j`.
const ILL_FORMED: [&[Told]; 20] = [
    // What is moved isn't staged for the job, or is its staged sequence.
    &[Move("j/out/a", "j/out/b")],
    &[Move("k/stage/a", "j/out/a")],
    &[Move("stage/a", "j/out/a")],
    &[Move("j/stage/seq", "j/out/a")],
    &[Move("", "j/out/a")],
    // What is moved to isn't a lasting name of the job.
    &[Move("j/stage/a", "j/stage/b")],
    &[Move("j/stage/a", "j/seq")],
    &[Move("j/stage/a", "k/out/a")],
    &[Move("j/stage/a", "jobs/j.pull")],
    &[Move("j/stage/a", "")],
    // Nor is what is removed.
    &[Remove("j/stage/a")],
    &[Remove("j/seq")],
    &[Remove("k/state")],
    // A byte that no sequence spells.
    &[Move("j/stage/a b", "j/out/a")],
    &[Move("j/stage/a", "j/out/a\n")],
    &[Remove("j/out/\u{e4}")],
    // A name stands twice.
    &[Move("j/stage/a", "j/out/a"), Move("j/stage/a", "j/out/b")],
    &[Move("j/stage/a", "j/out/a"), Move("j/stage/b", "j/out/a")],
    &[Move("j/stage/a", "j/out/a"), Remove("j/out/a")],
    &[Remove("j/out/a"), Remove("j/out/b"), Remove("j/out/a")],
];

/// Texts that are of no sequence of the job `j`.
const MALFORMED: [&[u8]; 19] = [
    b"",
    b"gobblin-sequence 1\n",
    b"gobblin-sequence 2\nend 0\n",
    b"gobblin-sequence  1\nend 0\n",
    b"gobblin-sequence 1\r\nend 0\n",
    b"gobblin-sequence 1\nend 0",
    b"gobblin-sequence 1\nend 00\n",
    b"gobblin-sequence 1\nend 1\n",
    b"gobblin-sequence 1\nend 0\nend 0\n",
    b"gobblin-sequence 1\nend 0\n\n",
    b"gobblin-sequence 1\nmove j/stage/a j/out/a\nend 0\n",
    b"gobblin-sequence 1\nmove j/stage/a j/out/a\nend 2\n",
    b"gobblin-sequence 1\nmove j/stage/a  j/out/a\nend 1\n",
    b"gobblin-sequence 1\nmove j/stage/a j/out/a \nend 1\n",
    b"gobblin-sequence 1\nmove j/stage/a\nend 1\n",
    b"gobblin-sequence 1\nremove\nend 1\n",
    b"gobblin-sequence 1\ncopy j/stage/a j/out/a\nend 1\n",
    b"gobblin-sequence 1\nmove j/stage/a j/seq\nend 1\n",
    b"gobblin-sequence 1\nremove j/out/\xff\nend 1\n",
];

fn step_of(alloc: Global, told: Told) -> Result<SeqStep, NoMemory> {
    match told {
        Move(from, to) => {
            let from = Text::from_str(alloc, from)?;
            let to = Text::from_str(alloc, to)?;
            Ok(SeqStep::Move { from, to })
        }
        Remove(name) => {
            let name = Text::from_str(alloc, name)?;
            Ok(SeqStep::Remove { name })
        }
    }
}

fn steps_of(alloc: Global, told: &[Told]) -> Result<List<SeqStep>, NoMemory> {
    let mut steps = List::new(alloc);
    for i in 0..told.len() {
        let step = step_of(alloc, told[i])?;
        steps.push(step)?;
    }
    Ok(steps)
}

/// The steps are written as this text.
fn check_written(rt: &impl Abort, alloc: Global, told: &[Told], wanted: &[u8]) -> Result<(), Fail> {
    let steps = steps_of(alloc, told)?;
    let sequence = Sequence::new(alloc, "j", steps)?.ok_or("no sequence")?;
    let text = write_sequence(alloc, &sequence)?;
    same_bytes(rt, text.as_slice(), wanted);
    Ok(())
}

/// The sequence that is read of the text is written as the same text.
fn check_read(rt: &impl Abort, alloc: Global, text: &[u8]) -> Result<(), Fail> {
    let sequence = read_sequence(alloc, "j", text)?.ok_or("no sequence")?;
    let again = write_sequence(alloc, &sequence)?;
    same_bytes(rt, again.as_slice(), text);
    Ok(())
}

#[test]
fn sequences_are_written_and_read_back(rt: HostRuntime) -> Result<(), Fail> {
    for (told, text) in WRITTEN {
        check_written(&rt, rt.alloc(), told, text)?;
        check_read(&rt, rt.alloc(), text)?;
    }
    Ok(())
}

fn makes_none(rt: &impl Abort, alloc: Global, told: &[Told]) -> Result<(), Fail> {
    let steps = steps_of(alloc, told)?;
    same_truth(rt, Sequence::new(alloc, "j", steps)?.is_none(), true);
    Ok(())
}

#[test]
fn ill_formed_steps_make_no_sequence(rt: HostRuntime) -> Result<(), Fail> {
    for told in ILL_FORMED {
        makes_none(&rt, rt.alloc(), told)?;
    }
    Ok(())
}

fn reads_as_none(rt: &impl Abort, alloc: Global, text: &[u8]) -> Result<(), Fail> {
    same_truth(rt, read_sequence(alloc, "j", text)?.is_none(), true);
    Ok(())
}

#[test]
fn other_texts_are_of_no_sequence(rt: HostRuntime) -> Result<(), Fail> {
    for text in MALFORMED {
        reads_as_none(&rt, rt.alloc(), text)?;
    }
    Ok(())
}

/// No front of a text but the whole is a sequence's.
fn fronts_read_as_none(rt: &impl Abort, alloc: Global, text: &[u8]) -> Result<(), Fail> {
    for len in 0..text.len() {
        let (front, _) = text.split_at(len);
        reads_as_none(rt, alloc, front)?;
    }
    Ok(())
}

#[test]
fn a_text_that_is_cut_is_of_no_sequence(rt: HostRuntime) -> Result<(), Fail> {
    for (_, text) in WRITTEN {
        fronts_read_as_none(&rt, rt.alloc(), text)?;
    }
    Ok(())
}
