//! How a sequence is read back.

ghost use Rattle.std.specs.Prelude.{◌≡◌, ◌↔◌, ◌++◌, codes, map, IfOk, IsTrue, option_map};
ghost use Rattle.gob_seq.specs.Reading.{BodyIs, IsStepLine, NameTaken, last_line};
ghost use Rattle.gob_seq.specs.Steps.{ReadIs, commit_step_of};

use crate::sequence::{SeqStep, Sequence, is_file_name};
use gob_plan::{List, NoMemory, Text};
use gob_text::Words;
use std::alloc::Global;
use std::str;

/// The sequence of which these bytes are the text, where they are the text of one that fits the job.
pub fn read_sequence(alloc: Global, job: &str, bytes: &[u8]) -> Result<Option<Sequence>, NoMemory>
    ensures { IfOk result (ReadIs job.now bytes.now) }
{
    let mut words = Words::new(bytes);
    if !words.take_text(b"gobblin-sequence 1\n") {
        return Ok(None);
    }
    let Some(steps) = read_steps(alloc, &mut words)? else {
        return Ok(None);
    };
    let made = Sequence::new(alloc, job, steps)?;
    Ok(made)
}

// The steps up to the last line, with which the text ends.
fn read_steps(alloc: Global, words: &mut Words<'_>) -> Result<Option<List<SeqStep>>, NoMemory>
    ensures { IfOk result (λ read. BodyIs words.old (option_map (λ steps. map commit_step_of steps) read)) }
{
    let mut steps = List::new(alloc);
    loop {
        match take_line(alloc, words)? {
            Line::Step { step } => steps.push(step)?,
            Line::NoStep => break,
            Line::Damaged => return Ok(None),
        }
    }
    if take_end(words, steps.len() as u64) {
        Ok(Some(steps))
    } else {
        Ok(None)
    }
}

// Takes the last line, and answers whether it was there and nothing follows it.
fn take_end(words: &mut Words<'_>, steps: u64) -> bool
    ensures { IsTrue result ↔ (words.old ≡ last_line steps) }
{
    if !words.take_text(b"end ") {
        return false;
    }
    match words.take_number() {
        Some(number) => number == steps && words.take_text(b"\n") && words.is_done(),
        None => false,
    }
}

// What stands at the front of a text.
#[derive(Drop)]
enum Line {
    Step { step: SeqStep },
    NoStep,
    Damaged,
}

// Takes a step's line.
fn take_line(alloc: Global, words: &mut Words<'_>) -> Result<Line, NoMemory>
    ensures { IfOk result (IsStepLine words.old words.new) }
{
    if words.take_text(b"move ") {
        return take_move(alloc, words);
    }
    if words.take_text(b"remove ") {
        return take_remove(alloc, words);
    }
    Ok(Line::NoStep)
}

// Takes what follows the first word of a move.
fn take_move(alloc: Global, words: &mut Words<'_>) -> Result<Line, NoMemory>
    ensures { IfOk result (IsStepLine (codes "move " ++ words.old) words.new) }
{
    let Some(from) = take_file_name(alloc, words)? else {
        return Ok(Line::Damaged);
    };
    if !words.take_text(b" ") {
        return Ok(Line::Damaged);
    }
    let Some(to) = take_file_name(alloc, words)? else {
        return Ok(Line::Damaged);
    };
    if !words.take_text(b"\n") {
        return Ok(Line::Damaged);
    }
    Ok(Line::Step {
        step: SeqStep::Move { from, to },
    })
}

// Takes what follows the first word of a removal.
fn take_remove(alloc: Global, words: &mut Words<'_>) -> Result<Line, NoMemory>
    ensures { IfOk result (IsStepLine (codes "remove " ++ words.old) words.new) }
{
    let Some(name) = take_file_name(alloc, words)? else {
        return Ok(Line::Damaged);
    };
    if !words.take_text(b"\n") {
        return Ok(Line::Damaged);
    }
    Ok(Line::Step {
        step: SeqStep::Remove { name },
    })
}

// Takes a word that a sequence can spell.
fn take_file_name(alloc: Global, words: &mut Words<'_>) -> Result<Option<Text>, NoMemory>
    ensures { IfOk result (NameTaken words.old words.new) }
{
    let Some(word) = words.take_word() else {
        return Ok(None);
    };
    let Ok(name) = str::from_utf8(word) else {
        return Ok(None);
    };
    if !is_file_name(name) {
        return Ok(None);
    }
    Ok(Some(Text::from_str(alloc, name)?))
}
