//! Sequences: lists of steps that fit a job.

ghost use Rattle.std.specs.Prelude.{◌≡◌, ◌↔◌, ◌++◌, map, IfOk, IsTrue, MatchOption};
ghost use Rattle.std.specs.List.{flat_map, list_all, IsDistinct};
ghost use Rattle.std.specs.Str.{bytes_eq};
ghost use Rattle.gob_bytes.specs.Paths.{begins_with};
ghost use Rattle.gob_recovery.specs.Sequence as recovery;
ghost use Rattle.gob_seq.specs.Steps.{NewIs, fits_at, lasting_at, staged_at, commit_step_of};

use crate::place::Place;
use gob_plan::{List, NoMemory, Text};
use std::alloc::Global;
use std::collections::HashSet;
use std::marker::Model;

/// A step of a sequence. Names are those of files on the volume.
#[derive(Debug, Drop)]
pub enum SeqStep {
    /// A staged file gets its lasting name, in place of what was there.
    Move { from: Text, to: Text },
    /// A lasting name is taken away.
    Remove { name: Text },
}

/// Steps that are done one after the other, all of them or none. Contracts see them as a list.
#[derive(Drop)]
pub struct Sequence {
    steps: List<SeqStep>,
}

impl Model for Sequence {
    ghost use Rattle.std.specs.Prelude.{List as Items, map};
    ghost use Rattle.gob_recovery.specs.Sequence.{CommitStep};
    ghost use Rattle.gob_seq.specs.Steps.{commit_step_of};

    ghost Value = { Items CommitStep };

    ghost view = { λ s. map commit_step_of s.steps };
}

impl Sequence {
    /// The sequence of these steps, where they fit the job: what is moved is staged for it, what is moved to and what
    /// is removed are names of its folder that are neither staged nor the open sequence, no name stands twice, and
    /// each has only letters, digits and `._-/@%`.
    pub fn new(alloc: Global, job: &str, steps: List<SeqStep>) -> Result<Option<Sequence>, NoMemory>
        ensures { IfOk result (NewIs job.now (map commit_step_of steps)) }
    {
        let place = Place::new(alloc, job)?;
        if !fit(&place, steps.as_slice()) {
            return Ok(None);
        }
        if !differ(alloc, steps.as_slice())? {
            return Ok(None);
        }
        Ok(Some(Sequence { steps }))
    }

    pub fn steps(&self) -> &[SeqStep]
        ensures { map commit_step_of result.now ≡ self.now }
    {
        self.steps.as_slice()
    }
}

fn fit(place: &Place, steps: &[SeqStep]) -> bool
    ensures { result ≡ list_all (fits_at place.now) (map commit_step_of steps.now) }
{
    for step in steps {
        if !step_fits(place, step) {
            return false;
        }
    }
    true
}

fn step_fits(place: &Place, step: &SeqStep) -> bool
    ensures { result ≡ fits_at place.now (commit_step_of step.now) }
{
    match step {
        SeqStep::Move { from, to } => {
            is_staged(place, from.as_str())
                && is_lasting(place, to.as_str())
                && is_file_name(from.as_str())
                && is_file_name(to.as_str())
        }
        SeqStep::Remove { name } => {
            is_lasting(place, name.as_str()) && is_file_name(name.as_str())
        }
    }
}

fn is_staged(place: &Place, name: &str) -> bool
    ensures { result ≡ staged_at place.now name.now }
{
    begins_with(name, place.staging.as_str()) && !is_same(name, place.staged.as_str())
}

fn is_lasting(place: &Place, name: &str) -> bool
    ensures { result ≡ lasting_at place.now name.now }
{
    begins_with(name, place.folder.as_str())
        && !begins_with(name, place.staging.as_str())
        && !is_same(name, place.sequence.as_str())
}

fn begins_with(name: &str, front: &str) -> bool
    ensures { result ≡ begins_with front.now name.now }
{
    name.starts_with(front)
}

fn is_same(name: &str, other: &str) -> bool
    ensures { result ≡ bytes_eq name.now other.now }
{
    name == other
}

// Whether a sequence can spell the name.
pub(crate) fn is_file_name(name: &str) -> bool
    ensures { result ≡ recovery.is_file_name name.now }
{
    !name.is_empty() && are_name_bytes(name.as_bytes())
}

fn are_name_bytes(bytes: &[u8]) -> bool
    ensures { result ≡ list_all recovery.is_sequence_byte bytes.now }
{
    bytes.iter().all(|b| is_name_byte(*b))
}

fn is_name_byte(b: u8) -> bool
    ensures { result ≡ recovery.is_sequence_byte b }
{
    b.is_ascii_alphanumeric() || matches!(b, b'.' | b'_' | b'-' | b'/' | b'@' | b'%')
}

// Whether no name stands twice in the steps.
fn differ(alloc: Global, steps: &[SeqStep]) -> Result<bool, NoMemory>
    ensures { IfOk result (λ yes. IsTrue yes
        ↔ IsDistinct bytes_eq (flat_map recovery.names_in (map commit_step_of steps.now))) }
{
    let names = names_in(alloc, steps)?;
    are_distinct(alloc, names.as_slice())
}

fn names_in<'a>(alloc: Global, steps: &'a [SeqStep]) -> Result<Vec<&'a str>, NoMemory>
    ensures { IfOk result (λ names. map (λ n. n.now) names.items ≡ flat_map recovery.names_in
        (map commit_step_of steps.now)) }
{
    let mut names = Vec::new(alloc);
    for step in steps {
        push_names(&mut names, step)?;
    }
    Ok(names)
}

fn push_names<'a>(names: &mut Vec<&'a str>, step: &'a SeqStep) -> Result<(), NoMemory>
    ensures { IfOk result (λ _. map (λ n. n.now) names.new.items
        ≡ map (λ n. n.now) names.old.items ++ recovery.names_in (commit_step_of step.now)) }
{
    match step {
        SeqStep::Move { from, to } => {
            names.push(from.as_str())?;
            names.push(to.as_str())?;
        }
        SeqStep::Remove { name } => {
            names.push(name.as_str())?;
        }
    }
    Ok(())
}

// Whether no name stands twice.
fn are_distinct(alloc: Global, names: &[&str]) -> Result<bool, NoMemory>
    ensures { IfOk result (λ yes. IsTrue yes ↔ IsDistinct bytes_eq (map (λ n. n.now) names.now)) }
{
    let mut seen = HashSet::new(alloc);
    for name in names {
        if !seen.insert(*name)? {
            return Ok(false);
        }
    }
    Ok(true)
}
