//! The machine of one unit, which is fed the unit's bytes in pieces of any length.
ghost use Rattle.std.specs.Prelude.{◌≡◌, ◌≤◌, ◌^◌, ◌+◌, ◌-◌, ◌*◌, ◌++◌, ◌||◌, [], None, true, false, length, not, IfOk};
ghost use Rattle.std.specs.Prelude.{OnErr, OnOk};
ghost use Rattle.gob_bytes.specs.Lines.{has_no_feed};
ghost use Rattle.gob_plan.specs.declared.plan.Plan.{Plan as Told};
ghost use Rattle.gob_pipeline.specs.Made.{Buffers};
ghost use Rattle.gob_pipeline.specs.Machine.{Fed, WasFed, is_nil};
ghost use Rattle.gob_pipeline.specs.Taking.{EndsAt, IsOneLine, zero_counts};
ghost use Rattle.gob_pipeline.specs.States.{TakesEnd, state_value};

use crate::buffers::TargetBuffers;
use crate::pipeline::{Pipeline, Workspace};
use crate::tally::Tally;
use gob_plan::{BranchCounts, Cause, Counts, List, NoMemory};
use memchr::memchr;
use std::alloc::Global;
use std::marker::Model;

/// What is known of the bytes of a unit that were fed so far.
#[derive(Drop)]
pub struct Machine {
    state: State,
}

#[derive(Drop)]
struct State {
    /// Where the unit begins in its partition.
    lo: u64,
    /// How many bytes were fed.
    seen: u64,
    /// The front of a line whose end wasn't fed yet.
    line: Vec<u8>,
    tally: Tally,
    torn: bool,
    /// It wanted memory once, and knows no more.
    broken: bool,
}

impl Model for Machine {
    ghost use Rattle.gob_pipeline.specs.Machine.{MachineValue};

    ghost Value = { MachineValue };

    ghost use Rattle.gob_pipeline.specs.States.{state_value};

    ghost view = { λ m. state_value m.state };
}

impl Machine {
    /// A machine for a unit that begins at this offset.
    pub fn new(alloc: Global, pipeline: &Pipeline, lo: u64) -> Result<Machine, NoMemory>
        ensures fed { IfOk result (λ m. WasFed pipeline.now m []) }
        ensures lo { IfOk result (λ m. m.lo ≡ lo) }
        ensures branches { IfOk result (λ m. length m.counts.branches ≡ length pipeline.now.branches) }
    {
        let plan = pipeline.plan();
        let state = State {
            lo,
            seen: 0,
            line: Vec::new(alloc),
            tally: Tally {
                counts: counts_of_none(alloc, plan.branches.len())?,
                bad_left: plan.skip_errors,
                stop: None,
            },
            torn: false,
            broken: false,
        };
        Ok(Machine { state })
    }

    /// Feeds one more piece: each line that it ends is taken, and what the lines send is added to the buffers. Behind
    /// a stop nothing is sent. After want of memory every later call answers that too.
    pub fn feed(
        &mut self,
        pipeline: &Pipeline,
        workspace: &mut Workspace,
        piece: &[u8],
        buffers: &mut TargetBuffers,
    ) -> Result<(), NoMemory>
        requires end { self.old.lo + (self.old.seen + length piece.now) ≤ 2 ^ 64 - 1 }
        requires branches { length self.old.counts.branches ≡ length pipeline.now.branches }
        requires slots { length buffers.old ≡ 2 * length pipeline.now.branches + 1 }
        ensures ok { OnOk result (Fed pipeline.now self.old self.new piece.now buffers.old buffers.new) }
        ensures whole { OnOk result (self.old.broken ≡ false) }
        ensures err { OnErr result (self.new.broken ≡ true) }
        ensures lo { self.new.lo ≡ self.old.lo }
        ensures counts { length self.new.counts.branches ≡ length self.old.counts.branches }
        ensures buffers { length buffers.new ≡ length buffers.old }
    {
        if self.state.broken {
            return Err(NoMemory);
        }
        match self.state.feed(pipeline, workspace, piece, buffers) {
            Ok(()) => Ok(()),
            Err(_) => {
                self.state.broken = true;
                Err(NoMemory)
            }
        }
    }

    /// Why a line stopped the unit, where one did.
    pub fn stopped(&self) -> Option<Cause>
        ensures { result ≡ self.now.stop }
    {
        self.state.tally.stop
    }

    pub fn counts(&self) -> &Counts
        ensures { result.now ≡ self.now.counts }
    {
        &self.state.tally.counts
    }

    /// Whether bytes stand behind the last line feed.
    pub fn torn(&self) -> bool
        ensures { result ≡ self.now.torn }
    {
        self.state.torn
    }

    /// How many bytes were fed.
    pub fn seen(&self) -> u64
        ensures { result ≡ self.now.seen }
    {
        self.state.seen
    }
}

impl State {
    // Each line that the piece ends is taken, and what ends no line is kept.
    fn feed(
        &mut self,
        pipeline: &Pipeline,
        workspace: &mut Workspace,
        piece: &[u8],
        buffers: &mut TargetBuffers,
    ) -> Result<(), NoMemory>
        requires end { self.old.lo + (self.old.seen + length piece.now) ≤ 2 ^ 64 - 1 }
        requires branches { length self.old.tally.counts.branches ≡ length pipeline.now.branches }
        requires slots { length buffers.old ≡ 2 * length pipeline.now.branches + 1 }
        ensures ok { OnOk result
            (Fed pipeline.now (state_value self.old) (state_value self.new) piece.now buffers.old buffers.new) }
        ensures lo { self.new.lo ≡ self.old.lo }
        ensures counts { length self.new.tally.counts.branches ≡ length self.old.tally.counts.branches }
        ensures buffers { length buffers.new ≡ length buffers.old }
    {
        let mut left = piece;
        'lines: while let Some(end) = line_end(left) {
            let (line, rest) = left.split_at(end);
            self.feed_line(pipeline, workspace, line, buffers)?;
            left = rest;
        }
        self.keep(left)?;
        Ok(())
    }

    // Behind a stop a line is passed over.
    fn feed_line(
        &mut self,
        pipeline: &Pipeline,
        workspace: &mut Workspace,
        line: &[u8],
        buffers: &mut TargetBuffers,
    ) -> Result<(), NoMemory>
        requires line { IsOneLine line.now }
        requires end { self.old.lo + (self.old.seen + length line.now) ≤ 2 ^ 64 - 1 }
        requires branches { length self.old.tally.counts.branches ≡ length pipeline.now.branches }
        requires slots { length buffers.old ≡ 2 * length pipeline.now.branches + 1 }
        ensures ok { OnOk result
            (Fed pipeline.now (state_value self.old) (state_value self.new) line.now buffers.old buffers.new) }
        ensures seen { OnOk result (self.new.seen ≡ self.old.seen + length line.now) }
        ensures lo { self.new.lo ≡ self.old.lo }
        ensures counts { length self.new.tally.counts.branches ≡ length self.old.tally.counts.branches }
        ensures buffers { length buffers.new ≡ length buffers.old }
    {
        if let Some(_) = self.tally.stop {
            self.seen += line.len() as u64;
            self.torn = false;
            return Ok(());
        }
        self.take(pipeline, workspace, line, buffers)?;
        self.seen += line.len() as u64;
        self.torn = false;
        Ok(())
    }

    // Takes the line that ends with these bytes. One that begins with them isn't copied.
    fn take(
        &mut self,
        pipeline: &Pipeline,
        workspace: &mut Workspace,
        last: &[u8],
        buffers: &mut TargetBuffers,
    ) -> Result<(), NoMemory>
        requires line { IsOneLine last.now }
        requires end { self.old.lo + (self.old.seen + length last.now) ≤ 2 ^ 64 - 1 }
        requires branches { length self.old.tally.counts.branches ≡ length pipeline.now.branches }
        requires slots { length buffers.old ≡ 2 * length pipeline.now.branches + 1 }
        ensures ok { OnOk result (TakesEnd pipeline.now self.old self.new last.now buffers.old buffers.new) }
        ensures seen { self.new.seen ≡ self.old.seen }
        ensures lo { self.new.lo ≡ self.old.lo }
        ensures counts { length self.new.tally.counts.branches ≡ length self.old.tally.counts.branches }
        ensures buffers { length buffers.new ≡ length buffers.old }
    {
        let start = self.lo + self.seen.saturating_sub(self.line.len() as u64);
        if self.line.is_empty() {
            self.tally.take(pipeline, workspace, start, last, buffers)?;
            return Ok(());
        }
        self.line.extend_from_slice(last)?;
        self.tally
            .take(pipeline, workspace, start, self.line.as_slice(), buffers)?;
        self.line.clear();
        Ok(())
    }

    // Keeps the front of a line, but behind a stop.
    fn keep(&mut self, front: &[u8]) -> Result<(), NoMemory>
        requires feed { has_no_feed front.now ≡ true }
        requires end { self.old.lo + (self.old.seen + length front.now) ≤ 2 ^ 64 - 1 }
        ensures ok { OnOk result ((plan : Told) (b : Buffers)
            → Fed plan (state_value self.old) (state_value self.new) front.now b b) }
        ensures lo { self.new.lo ≡ self.old.lo }
        ensures counts { length self.new.tally.counts.branches ≡ length self.old.tally.counts.branches }
    {
        keep_front(self.tally.stop, &mut self.line, front)?;
        self.seen += front.len() as u64;
        self.torn = is_torn(self.torn, front);
        Ok(())
    }
}

fn keep_front(stop: Option<Cause>, line: &mut Vec<u8>, front: &[u8]) -> Result<(), NoMemory>
    ensures { OnOk result (stop ≡ None → line.new.items ≡ line.old.items ++ front.now) }
{
    match stop {
        None => {
            line.extend_from_slice(front)?;
            Ok(())
        }
        Some(_) => Ok(()),
    }
}

// Whether bytes stand behind the last line feed, where these came last and have none.
fn is_torn(before: bool, front: &[u8]) -> bool
    ensures { result ≡ (before || not (is_nil front.now)) }
{
    match front {
        [] => before,
        [_, ..] => true,
    }
}

// Where the first line ends.
fn line_end(bytes: &[u8]) -> Option<usize>
    ensures { EndsAt bytes.now result }
{
    match memchr(b'\n', bytes) {
        Some(place) => Some(place + 1),
        None => None,
    }
}

fn counts_of_none(alloc: Global, branches: usize) -> Result<Counts, NoMemory>
    ensures { IfOk result (λ c. c ≡ zero_counts branches) }
{
    let mut counts = List::new(alloc);
    'branches: while counts.len() < branches {
        counts.push(BranchCounts {
            written: 0,
            errors: 0,
            optional: 0,
        })?;
    }
    Ok(Counts {
        records: 0,
        bad: 0,
        rows: 0,
        unrouted: 0,
        branches: counts,
    })
}
