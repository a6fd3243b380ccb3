//! From a row to its record.
ghost use Rattle.std.specs.Prelude.{◌≡◌, true, false, None, Some, [], ◌∷◌, option_map, IfOk, IfErr, OnOk, OnErr};
ghost use Rattle.gob_bytes.specs.Lines.{ends_in_lf};
ghost use Rattle.gob_convert.specs.Made.{concatenation};
ghost use Rattle.gob_plan.specs.Rows.{conforms};
ghost use Rattle.gob_plan.specs.declared.steps.Refusal.{Refusal};
ghost use Rattle.gob_meaning.specs.Formats.{record_of};
ghost use Rattle.gob_meaning.specs.Plans.{write_refusal, lines_refusal};
ghost use Rattle.gob_formats.specs.Adding.{KeepsFront};
ghost use Rattle.gob_formats.specs.Keeping.{record_ends};
ghost use Rattle.gob_formats.specs.Members.{names_from, keyed_members};

use crate::csv_write::write_record;
use crate::json_write::{Member, members_for, write_object};
use crate::lines::write_text;
use gob_convert::{Convert, ConvertFault};
use gob_plan::{Bytes, Column, Columns, Format, Kind, List, NoMemory, Refusal, Row, StepFault};
use std::alloc::Global;

/// Writes rows of its columns as records of one format.
#[derive(Drop)]
pub struct RowEncoder {
    format: Format,
    columns: Columns,
    members: List<Member>,
    ghost spelled: { members ≡ keyed_members false (names_from 0 columns) },
}

impl RowEncoder {
    /// Whole lines are written of one text alone: `BadKind` names the second column, or the only one where it isn't
    /// text.
    pub fn new(alloc: Global, format: Format, columns: &Columns) -> Result<RowEncoder, StepFault>
        ensures ok { IfOk result (λ e. (e.format ≡ format) × (e.columns ≡ columns.now)
            × (write_refusal format columns.now ≡ None)) }
        ensures refused { IfErr result (λ e. (why : Refusal) → e ≡ StepFault.Refused why
            → write_refusal format columns.now ≡ Some why) }
    {
        if let Some(why) = refusal(format, columns.as_slice())? {
            return Err(StepFault::Refused(why));
        }
        let columns = columns.copy()?;
        let members = members_for(alloc, columns.as_slice())?;
        Ok(RowEncoder {
            format,
            columns,
            members,
        })
    }

    /// Adds the record that the row is, with its LF, or nothing: after an error the buffer is as it was.
    pub fn encode(&self, row: &Row, into: &mut Vec<u8>) -> Result<(), ConvertFault>
        requires { conforms self.now.columns row.now ≡ true }
        ensures ok { OnOk result
            (concatenation (Some into.old.items) (record_of self.now.format self.now.columns row.now)
            ≡ Some into.new.items) }
        ensures bad { IfErr result
            (λ e. e ≡ ConvertFault.Bad → record_of self.now.format self.now.columns row.now ≡ None) }
        ensures err { OnErr result (into.new.items ≡ into.old.items) }
    {
        let before = into.len();
        match self.write(row, into) {
            Ok(()) => Ok(()),
            Err(fault) => {
                into.truncate(before);
                Err(fault)
            }
        }
    }

    #[tactic(auto, unfolding(gob_meaning::specs::Formats::record_of))]
    fn write(&self, row: &Row, into: &mut Vec<u8>) -> Result<(), ConvertFault>
        requires { conforms self.now.columns row.now ≡ true }
        ensures ok { OnOk result
            (concatenation (Some into.old.items) (record_of self.now.format self.now.columns row.now)
            ≡ Some into.new.items) }
        ensures bad { IfErr result
            (λ e. e ≡ ConvertFault.Bad → record_of self.now.format self.now.columns row.now ≡ None) }
        ensures keeps { KeepsFront into.old.items into.new.items }
    {
        let values = row.values.as_slice();
        let members = self.members.as_slice();
        match self.format {
            Format::Lines => {
                write_text(values, into)?;
                Ok(())
            }
            Format::Csv => {
                write_record(values, into)?;
                Ok(())
            }
            Format::Json => {
                write_object(members, values, into)?;
                Ok(())
            }
        }
    }
}

// Why the format doesn't write these columns.
fn refusal(format: Format, columns: &[Column]) -> Result<Option<Refusal>, NoMemory>
    ensures { IfOk result (λ why. why ≡ write_refusal format columns.now) }
{
    match format {
        Format::Lines => lines_refusal(columns),
        Format::Csv | Format::Json => Ok(None),
    }
}

fn lines_refusal(columns: &[Column]) -> Result<Option<Refusal>, NoMemory>
    ensures { IfOk result (λ why. why ≡ lines_refusal columns.now) }
{
    match columns {
        [] => Ok(Some(Refusal::BadValue)),
        [only] => {
            if only.kind == Kind::Text {
                return Ok(None);
            }
            let column = only.name.copy()?;
            Ok(Some(Refusal::BadKind { column }))
        }
        [_, second, ..] => {
            let column = second.name.copy()?;
            Ok(Some(Refusal::BadKind { column }))
        }
    }
}

impl Convert for RowEncoder {
    type Shape = Columns;

    type OutShape = Format;

    type Rec = Row;

    type Out = Bytes;

    ghost shape = { λ e. e.columns };

    ghost out_shape = { λ e. e.format };

    ghost fits = { conforms };

    ghost out_fits = { λ _ bytes. ends_in_lf bytes };

    ghost made = { λ e row. option_map (λ bytes. bytes ∷ []) (record_of e.format e.columns row) };

    fn input(&self) -> &Columns {
        &self.columns
    }

    fn output(&self) -> &Format {
        &self.format
    }

    fn convert(&self, alloc: Global, rec: Row) -> Result<Vec<Bytes>, ConvertFault> {
        let mut record = Vec::new(alloc);
        self.encode(&rec, &mut record)?;
        let mut made = Vec::with_capacity(alloc, 1)?;
        made.push(Bytes::from_vec(record))?;
        Ok(made)
    }

    ghost keeps = { λ e row _. record_ends e.format e.columns row };
}
