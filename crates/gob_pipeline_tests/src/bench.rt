//! A unit that is fed to a machine piece by piece, and what came of it, in short.
ghost use Rattle.std.specs.Prelude.{◌≡◌, ◌≤◌, ◌+◌, ◌*◌, ◌^◌, length, true};
ghost use Rattle.gob_meaning.specs.Plans.{is_fitting};

use gob_job::read_job;
use gob_pipeline::{Machine, Pipeline, Target, TargetBuffers, Workspace, target_at};
use gob_plan::{Cause, NoMemory, Plan};
use gob_props::{Props, read_props};
use gob_text::push_u64;
use std::alloc::Global;
use std::process::Abort;
use std::test::Fail;

/// No unit of these tests begins behind this offset, or is so long.
const FAR: u64 = 1 << 32;

/// What all units of a job share, and the machine of one.
#[derive(Drop)]
pub(crate) struct Bench {
    alloc: Global,
    pipeline: Pipeline,
    workspace: Workspace,
    buffers: TargetBuffers,
    machine: Machine,
    ghost near: { machine.lo ≤ 2 ^ 32 },
    ghost counted: { length machine.counts.branches ≡ length pipeline.branches },
    ghost slots: { length buffers ≡ 2 * length pipeline.branches + 1 },
}

fn built(alloc: Global, plan: &Plan) -> Result<Pipeline, Fail>
    requires { is_fitting plan.now ≡ true }
{
    let pipeline = Pipeline::new(alloc, plan)?;
    Ok(pipeline)
}

fn pipeline_in(alloc: Global, props: &Props) -> Result<Pipeline, Fail> {
    match read_job(alloc, "j", props) {
        Ok(job) => built(alloc, &job.plan),
        Err(_) => Err(Fail::from("no job")),
    }
}

/// The pipeline of a job file's text.
pub(crate) fn pipeline_of(alloc: Global, job: &str) -> Result<Pipeline, Fail> {
    match read_props(alloc, job.as_bytes()) {
        Ok(props) => pipeline_in(alloc, &props),
        Err(_) => Err(Fail::from("no properties")),
    }
}

impl Bench {
    pub fn new(alloc: Global, job: &str) -> Result<Bench, Fail> {
        let pipeline = pipeline_of(alloc, job)?;
        let branches = pipeline.plan().fork.branches;
        let buffers = TargetBuffers::new(alloc, branches)?;
        let machine = Machine::new(alloc, &pipeline, 0)?;
        Ok(Bench {
            alloc,
            pipeline,
            workspace: Workspace::new(alloc),
            buffers,
            machine,
        })
    }

    pub fn alloc(&self) -> Global {
        self.alloc
    }

    /// Begins with a unit.
    pub fn start(&mut self, lo: u64) -> Result<(), Fail> {
        if lo > FAR {
            return Err(Fail::from("too far"));
        }
        self.machine = Machine::new(self.alloc, &self.pipeline, lo)?;
        self.buffers.clear();
        Ok(())
    }

    // Whether there was memory for the piece.
    fn took(&mut self, piece: &[u8]) -> bool {
        if self.machine.seen() > FAR || piece.len() as u64 > FAR {
            return false;
        }
        let fed = self.machine.feed(
            &self.pipeline,
            &mut self.workspace,
            piece,
            &mut self.buffers,
        );
        match fed {
            Ok(()) => true,
            Err(_) => false,
        }
    }

    /// Feeds a piece. After want of memory a machine answers that alone.
    pub fn feed(&mut self, rt: &impl Abort, piece: &[u8]) -> Result<(), Fail> {
        if self.took(piece) {
            return Ok(());
        }
        assert!(rt; !self.took(b""));
        Err(Fail::from("no memory"))
    }

    /// All that was sent: bad lines, and then for each branch what it writes and what it refuses.
    pub fn sent(&self) -> Result<Vec<u8>, NoMemory> {
        let mut all = Vec::new(self.alloc);
        for slot in 0..self.buffers.slots().min(5) {
            for (place, bytes) in self.buffers.slot(slot) {
                if !bytes.is_empty() {
                    push_target(&mut all, target_at(slot, place.as_str()))?;
                    all.extend_from_slice(bytes.as_slice())?;
                }
            }
        }
        Ok(all)
    }

    /// Why the unit stopped; or its counts, and behind them those of each branch.
    pub fn end(&self) -> Result<Vec<u8>, NoMemory> {
        let mut end = Vec::new(self.alloc);
        match self.machine.stopped() {
            Some(Cause::Kill { branch, policy, at }) => {
                push_numbers(
                    &mut end,
                    "kill",
                    &[u64::from(branch), u64::from(policy), at],
                )?;
            }
            Some(Cause::BadRecords { at }) => push_numbers(&mut end, "bad", &[at])?,
            Some(_) => end.extend_from_slice(b"another cause")?,
            None => self.push_counts(&mut end)?,
        }
        if self.machine.torn() {
            end.extend_from_slice(b" torn")?;
        }
        Ok(end)
    }

    fn push_counts(&self, into: &mut Vec<u8>) -> Result<(), NoMemory> {
        let counts = self.machine.counts();
        let of_lines = [counts.records, counts.bad, counts.rows, counts.unrouted];
        push_numbers(into, "", &of_lines)?;
        for branch in counts.branches.as_slice() {
            push_numbers(into, ",", &[branch.written, branch.errors, branch.optional])?;
        }
        Ok(())
    }

    pub fn seen(&self) -> u64 {
        self.machine.seen()
    }
}

fn push_numbers(into: &mut Vec<u8>, word: &str, numbers: &[u64]) -> Result<(), NoMemory> {
    into.extend_from_slice(word.as_bytes())?;
    for number in numbers {
        if !into.is_empty() {
            into.push(b' ')?;
        }
        push_u64(into, *number)?;
    }
    Ok(())
}

fn push_target(into: &mut Vec<u8>, target: Target<'_>) -> Result<(), NoMemory> {
    let (kind, branch, place) = match target {
        Target::Out { branch, place } => ("out", branch, place),
        Target::Err { branch, place } => ("err", branch, place),
        Target::Bad => ("bad", 0, ""),
    };
    into.extend_from_slice(kind.as_bytes())?;
    push_u64(into, u64::from(branch))?;
    into.push(b':')?;
    into.extend_from_slice(place.as_bytes())?;
    Ok(())
}
