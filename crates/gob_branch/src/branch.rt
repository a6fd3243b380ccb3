//! One branch of a plan, set up so that rows can be sent through it.
ghost use Rattle.std.specs.Prelude.{◌≡◌, true, None, Some, IfErr, IfOk, OnErr, OnOk};
ghost use Rattle.std.specs.List.{list_all};
ghost use Rattle.gob_plan.specs.Rows.{conforms};
ghost use Rattle.gob_convert.specs.Made.{concatenation, made_each};
ghost use Rattle.gob_convert.specs.declared.convert.ConvertFault.{ConvertFault as Fault};
ghost use Rattle.gob_meaning.specs.Formats.{record_of};
ghost use Rattle.gob_meaning.specs.Plans.{branch_fits, branch_is_short};
ghost use Rattle.gob_meaning.specs.Items.{made_in_branch};
ghost use Rattle.gob_rowcheck.specs.Verdicts.{end_ruling};
ghost use Rattle.gob_branch.specs.Branches.{EndsBad, EndsSo, after_branch, made_of_row};

use crate::chain::Chain;
use crate::items::{Item, ItemEnd, LineItems, text_of};
use crate::placing::{placing, write_place};
use gob_convert::ConvertFault;
use gob_formats::RowEncoder;
use gob_plan::{BranchSpec, Columns, List, NoMemory, PlaceSpec, PolicySpec, Row};
use gob_rowcheck::{RowEnd, judge_row_at, policy_places};
use gob_timeplace::Day;
use std::alloc::Global;
use std::marker::Model;

/// What a row is worked on with: its folder and its record. One serves all rows of a run.
#[derive(Drop)]
pub struct RowScratch {
    place: Vec<u8>,
    record: Vec<u8>,
}

impl RowScratch {
    /// It takes no memory yet.
    pub fn new(alloc: Global) -> RowScratch {
        RowScratch {
            place: Vec::new(alloc),
            record: Vec::new(alloc),
        }
    }
}

/// A branch's steps, policies, folders and encoder.
#[derive(Drop)]
pub struct Branch {
    number: u32,
    chain: Chain,
    policies: List<PolicySpec>,
    // Where the policies' columns stand behind the steps.
    places: Vec<usize>,
    place: PlaceSpec,
    day: Option<Day>,
    encoder: RowEncoder,
}

impl Model for Branch {
    ghost use Rattle.std.specs.Prelude.{◌≡◌, true, length, nat_le};
    ghost use Rattle.std.specs.List.{list_all};
    ghost use Rattle.gob_plan.specs.Tests.{test_fits};
    ghost use Rattle.gob_meaning.specs.Plans.{max_policies};
    ghost use Rattle.gob_rowcheck.specs.Places.{columns_judged, stand_at};
    ghost use Rattle.gob_branch.specs.Branches.{BranchValue, Places, after_chain};

    ghost Value = { BranchValue };

    ghost view = { λ b. record {
      number = b.number;
      spec = record { steps = b.chain.steps; policies = b.policies; format = b.encoder.format; place = b.place };
      columns = b.chain.before;
    } };

    ghost invariant = { λ b. (list_all (λ p. test_fits p.test (after_chain b.chain)) b.policies ≡ true)
        × (nat_le (length b.policies) max_policies ≡ true)
        × Places b.place (after_chain b.chain) b.day
        × (b.encoder.columns ≡ after_chain b.chain)
        × (stand_at (columns_judged b.policies) (after_chain b.chain) b.places.items ≡ true) };
}

impl Branch {
    /// A branch for rows of these columns.
    pub fn new(
        alloc: Global,
        spec: &BranchSpec,
        number: u32,
        columns: &Columns,
    ) -> Result<Branch, NoMemory>
        requires fits { branch_fits columns.now spec.now ≡ true }
        requires short { branch_is_short spec.now ≡ true }
        ensures { IfOk result (λ b. b ≡ record { number = number; spec = spec.now; columns = columns.now }) }
    {
        let BranchSpec {
            steps,
            policies,
            format,
            place,
        } = spec.copy()?;
        let chain = Chain::new(alloc, steps, columns)?;
        let places = policy_places(alloc, policies.as_slice(), chain.after())?;
        let day = placing(&place, chain.after());
        match RowEncoder::new(alloc, format, chain.after()) {
            Ok(encoder) => Ok(Branch {
                number,
                chain,
                policies,
                places,
                place,
                day,
                encoder,
            }),
            Err(_) => Err(NoMemory),
        }
    }

    pub fn number(&self) -> u32
        ensures { result ≡ self.now.number }
    {
        self.number
    }

    /// Adds what the branch makes of a row to the items of its line. After an error they are as they were. A row that a
    /// policy kills has no record. The row is copied only where the branch has steps.
    pub fn push(
        &self,
        alloc: Global,
        scratch: &mut RowScratch,
        row: &Row,
        items: &mut LineItems,
    ) -> Result<(), ConvertFault>
        requires { conforms self.now.columns row.now ≡ true }
        ensures ok { OnOk result
            (concatenation (Some items.old) (made_in_branch self.now.spec self.now.number self.now.columns row.now)
            ≡ Some items.new) }
        ensures bad { IfErr result (λ e. e ≡ Fault.Bad
            → made_in_branch self.now.spec self.now.number self.now.columns row.now ≡ None) }
        ensures err { OnErr result (items.new ≡ items.old) }
    {
        if self.chain.is_empty() {
            self.push_made(scratch, row, items)?;
            return Ok(());
        }
        let copy = row.copy()?;
        self.push_owned(alloc, scratch, copy, items)?;
        Ok(())
    }

    /// As `push`, for a row that is given: nothing of it is copied for the steps.
    pub fn push_owned(
        &self,
        alloc: Global,
        scratch: &mut RowScratch,
        row: Row,
        items: &mut LineItems,
    ) -> Result<(), ConvertFault>
        requires { conforms self.now.columns row ≡ true }
        ensures ok { OnOk result
            (concatenation (Some items.old) (made_in_branch self.now.spec self.now.number self.now.columns row)
            ≡ Some items.new) }
        ensures bad { IfErr result (λ e. e ≡ Fault.Bad
            → made_in_branch self.now.spec self.now.number self.now.columns row ≡ None) }
        ensures err { OnErr result (items.new ≡ items.old) }
    {
        if self.chain.is_empty() {
            self.push_made(scratch, &row, items)?;
            return Ok(());
        }
        let rows = self.chain.rows_of(alloc, row)?;
        self.push_each(scratch, rows.as_slice(), items)?;
        Ok(())
    }

    // Rows behind the steps, all or none of them.
    fn push_each(
        &self,
        scratch: &mut RowScratch,
        rows: &[Row],
        items: &mut LineItems,
    ) -> Result<(), ConvertFault>
        requires { list_all (conforms (after_branch self.now)) rows.now ≡ true }
        ensures ok { OnOk result
            (concatenation (Some items.old) (made_each (made_of_row self.now) rows.now) ≡ Some items.new) }
        ensures bad { IfErr result (λ e. e ≡ Fault.Bad → made_each (made_of_row self.now) rows.now ≡ None) }
        ensures err { OnErr result (items.new ≡ items.old) }
    {
        let before = items.len();
        for row in rows {
            if let Err(fault) = self.push_made(scratch, row, items) {
                items.truncate(before);
                return Err(fault);
            }
        }
        Ok(())
    }

    // A row behind the steps.
    fn push_made(
        &self,
        scratch: &mut RowScratch,
        row: &Row,
        items: &mut LineItems,
    ) -> Result<(), ConvertFault>
        requires { conforms (after_branch self.now) row.now ≡ true }
        ensures ok { OnOk result
            (concatenation (Some items.old) (made_of_row self.now row.now) ≡ Some items.new) }
        ensures bad { IfErr result (λ e. e ≡ Fault.Bad → made_of_row self.now row.now ≡ None) }
        ensures err { OnErr result (items.new ≡ items.old) }
    {
        let verdict = judge_row_at(
            self.policies.as_slice(),
            self.places.as_slice(),
            self.chain.after(),
            row,
        );
        write_place(self.day, row, &mut scratch.place)?;
        let end = end_made(&self.encoder, row, verdict.end, &mut scratch.record)?;
        items.push(Item {
            branch: self.number,
            optional: verdict.optional,
            end,
            place: text_of(scratch.place.as_slice()),
            record: scratch.record.as_slice(),
        })?;
        Ok(())
    }
}

// What becomes of a row, with its record in the buffer; a row that is killed has none.
fn end_made(
    encoder: &RowEncoder,
    row: &Row,
    end: RowEnd,
    record: &mut Vec<u8>,
) -> Result<ItemEnd, ConvertFault>
    requires { conforms encoder.now.columns row.now ≡ true }
    ensures ok { IfOk result (λ e. EndsSo (end_ruling end)
        (record_of encoder.now.format encoder.now.columns row.now) e record.new.items) }
    ensures bad { IfErr result (λ e. e ≡ Fault.Bad
        → EndsBad (end_ruling end) (record_of encoder.now.format encoder.now.columns row.now)) }
{
    record.clear();
    match end {
        RowEnd::Kill(policy) => Ok(ItemEnd::Killed { policy }),
        RowEnd::ToError(_) => {
            encoder.encode(row, record)?;
            Ok(ItemEnd::Error)
        }
        RowEnd::Pass => {
            encoder.encode(row, record)?;
            Ok(ItemEnd::Written)
        }
    }
}
