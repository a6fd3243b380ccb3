//! A plan, set up so that lines can be sent through it.
ghost use Rattle.std.specs.Prelude.{◌≡◌, ◌&&◌, ◌++◌, ℕ, nat_eq, List, [], ◌∷◌, length, filter, true, None, Some, IfErr};
ghost use Rattle.std.specs.Prelude.{IfOk};
ghost use Rattle.std.specs.List.{list_all};
ghost use Rattle.gob_bytes.specs.Lines.{without_cr};
ghost use Rattle.gob_plan.specs.Rows.{conforms};
ghost use Rattle.gob_convert.specs.Made.{concatenation, made_each};
ghost use Rattle.gob_convert.specs.declared.convert.ConvertFault.{ConvertFault as Fault};
ghost use Rattle.gob_meaning.specs.Fold.{items_in};
ghost use Rattle.gob_meaning.specs.Plans.{is_fitting};
ghost use Rattle.gob_meaning.specs.Steps.{chain_rows};
ghost use Rattle.gob_pipeline.specs.Making.{BadText, MadeText, is_left, rows_of_text};
ghost use Rattle.gob_pipeline.specs.Routes.{route_makes};
ghost use Rattle.gob_pipeline.specs.Taking.{LineMakes, line_of_end};

use crate::routes::Routes;
use gob_branch::{Chain, LineItems, RowScratch};
use gob_convert::ConvertFault;
use gob_formats::{LineDecoder, LineScratch};
use gob_plan::{NoMemory, Plan, Row};
use std::alloc::Global;
use std::marker::Model;

/// A plan's decoder, steps, fork, branches and encoders. One serves all units of a run. Contracts see the plan.
#[derive(Drop)]
pub struct Pipeline {
    plan: Plan,
    decoder: LineDecoder,
    chain: Chain,
    routes: Routes,
}

impl Model for Pipeline {
    ghost use Rattle.std.specs.Prelude.{◌≡◌, true};
    ghost use Rattle.gob_plan.specs.declared.plan.Plan.{Plan};
    ghost use Rattle.gob_meaning.specs.Plans.{is_fitting};
    ghost use Rattle.gob_pipeline.specs.Making.{chain_of, routes_of};

    ghost Value = { Plan };

    ghost view = { λ p. p.plan };

    ghost invariant = { λ p. (is_fitting p.plan ≡ true)
        × (p.decoder.format ≡ p.plan.format)
        × (p.decoder.columns ≡ p.plan.columns)
        × (p.chain ≡ chain_of p.plan)
        × (p.routes ≡ routes_of p.plan) };
}

/// How a line ends.
#[derive(Clone, Copy)]
pub enum LineEnd {
    /// It is the header, and makes nothing.
    Header,
    /// It is bad, and its bytes are all that it makes.
    Bad,
    /// It makes items of so many rows, so many of which no branch takes.
    Made { rows: u64, unrouted: u64 },
}

/// How many rows a line is behind the shared steps, and how many of them no branch takes.
#[derive(Clone, Copy)]
struct RowCounts {
    rows: u64,
    unrouted: u64,
}

impl Pipeline {
    pub fn new(alloc: Global, plan: &Plan) -> Result<Pipeline, NoMemory>
        requires { is_fitting plan.now ≡ true }
        ensures { IfOk result (λ p. p ≡ plan.now) }
    {
        let decoder = LineDecoder::new(plan.format, &plan.columns)?;
        let Plan { steps, .. } = plan.copy()?;
        let chain = Chain::new(alloc, steps, &plan.columns)?;
        let routes = Routes::new(alloc, &plan.fork, chain.after(), plan.branches.as_slice())?;
        Ok(Pipeline {
            plan: plan.copy()?,
            decoder,
            chain,
            routes,
        })
    }

    /// Makes what the line with these bytes at this offset is, and leaves its items in the workspace.
    pub(crate) fn make_line(
        &self,
        workspace: &mut Workspace,
        offset: u64,
        raw: &[u8],
    ) -> Result<LineEnd, NoMemory>
        requires ends { (body : List ℕ) × (raw.now ≡ body ++ 10 ∷ []) }
        ensures made { IfOk result (λ end. LineMakes self.now offset raw.now
            (line_of_end end raw.now workspace.new.items)) }
        ensures items { IfOk result (λ end.
            items_in (line_of_end end raw.now workspace.new.items) ≡ workspace.new.items) }
    {
        workspace.items.clear();
        if self.is_header(offset) {
            return Ok(LineEnd::Header);
        }
        match self.make_text(workspace, text_of(raw)) {
            Ok(RowCounts { rows, unrouted }) => Ok(LineEnd::Made { rows, unrouted }),
            Err(ConvertFault::Bad) => {
                workspace.items.clear();
                Ok(LineEnd::Bad)
            }
            Err(ConvertFault::Memory) => Err(NoMemory),
        }
    }

    // The line at this offset is the header.
    fn is_header(&self, offset: u64) -> bool
        ensures { result ≡ (self.now.skip_header && nat_eq offset 0) }
    {
        self.plan.skip_header && offset == 0
    }

    // Makes what a line with this text is, which isn't the header. After an error there may be any items.
    fn make_text(&self, workspace: &mut Workspace, text: &[u8]) -> Result<RowCounts, ConvertFault>
        requires { workspace.old.items ≡ [] }
        ensures ok { IfOk result (λ counts.
            MadeText self.now text.now workspace.new.items counts.rows counts.unrouted) }
        ensures bad { IfErr result (λ e. e ≡ Fault.Bad → BadText self.now text.now) }
    {
        let rows = self.rows_of_text(workspace.alloc, &mut workspace.scratch, text)?;
        let count = rows.len() as u64;
        let unrouted = push_rows(
            &self.routes,
            workspace.alloc,
            &mut workspace.row,
            rows,
            &mut workspace.items,
        )?;
        Ok(RowCounts {
            rows: count,
            unrouted,
        })
    }

    // The rows behind the shared steps.
    fn rows_of_text(
        &self,
        alloc: Global,
        scratch: &mut LineScratch,
        text: &[u8],
    ) -> Result<Vec<Row>, ConvertFault>
        ensures ok { IfOk result (λ v. rows_of_text self.now text.now ≡ Some v.items) }
        ensures bad { IfErr result (λ e. e ≡ Fault.Bad → rows_of_text self.now text.now ≡ None) }
    {
        let mut rows = Vec::new(alloc);
        self.decoder.decode(alloc, scratch, text, &mut rows)?;
        if self.chain.is_empty() {
            return Ok(rows);
        }
        let behind = through_steps(&self.chain, alloc, rows)?;
        Ok(behind)
    }

    /// The plan that it does. It goes together in all its parts.
    pub fn plan(&self) -> &Plan
        ensures plan { result.now ≡ self.now }
        ensures fitting { is_fitting self.now ≡ true }
    {
        &self.plan
    }
}

// The text of a line, without its line feed and without one carriage return before that.
fn text_of(raw: &[u8]) -> &[u8]
    requires { (body : List ℕ) × (raw.now ≡ body ++ 10 ∷ []) }
    ensures { (body : List ℕ) → raw.now ≡ body ++ 10 ∷ [] → result.now ≡ without_cr body }
{
    let body = &raw[..raw.len() - 1];
    let Some((last, front)) = body.split_last() else {
        return body;
    };
    if *last == b'\r' {
        return front;
    }
    body
}

// What the steps make of all rows. The first list that isn't empty takes the others in.
fn through_steps(chain: &Chain, alloc: Global, rows: Vec<Row>) -> Result<Vec<Row>, ConvertFault>
    requires { list_all (conforms chain.now.before) rows.items ≡ true }
    ensures ok { IfOk result (λ v. made_each (chain_rows chain.now.steps chain.now.before) rows.items ≡ Some v.items) }
    ensures bad { IfErr result (λ e. e ≡ Fault.Bad
        → made_each (chain_rows chain.now.steps chain.now.before) rows.items ≡ None) }
{
    let mut made = Vec::new(alloc);
    for row in rows {
        let more = chain.rows_of(alloc, row)?;
        made = appended(made, more)?;
    }
    Ok(made)
}

fn appended(front: Vec<Row>, back: Vec<Row>) -> Result<Vec<Row>, ConvertFault>
    ensures ok { IfOk result (λ v. v.items ≡ front.items ++ back.items) }
    ensures memory { IfErr result (λ e. e ≡ Fault.Memory) }
{
    if front.is_empty() {
        return Ok(back);
    }
    let mut front = front;
    let mut back = back;
    front.append(&mut back)?;
    Ok(front)
}

// Adds what all rows make in the branches that take them, and counts those that none takes.
fn push_rows(
    routes: &Routes,
    alloc: Global,
    scratch: &mut RowScratch,
    rows: Vec<Row>,
    items: &mut LineItems,
) -> Result<u64, ConvertFault>
    requires { list_all (conforms routes.now.columns) rows.items ≡ true }
    ensures ok { IfOk result (λ _.
        concatenation (Some items.old) (made_each (route_makes routes.now) rows.items) ≡ Some items.new) }
    ensures unrouted { IfOk result (λ unrouted. unrouted ≡ length (filter (is_left routes.now) rows.items)) }
    ensures bad { IfErr result (λ e. e ≡ Fault.Bad
        → concatenation (Some items.old) (made_each (route_makes routes.now) rows.items) ≡ None) }
{
    let mut unrouted = 0;
    for row in rows {
        let routed = routes.push(alloc, scratch, row, items)?;
        if !routed {
            unrouted += 1;
        }
    }
    Ok(unrouted)
}

/// What a line is worked on with, lent from line to line. One serves all units of a run.
#[derive(Drop)]
pub struct Workspace {
    pub(crate) alloc: Global,
    scratch: LineScratch,
    row: RowScratch,
    pub(crate) items: LineItems,
}

impl Workspace {
    pub fn new(alloc: Global) -> Workspace {
        Workspace {
            alloc,
            scratch: LineScratch::new(alloc),
            row: RowScratch::new(alloc),
            items: LineItems::new(alloc),
        }
    }
}
