//! From a line to its rows.
ghost use Rattle.std.specs.Prelude.{◌≡◌, true, None, Some, IfOk, IfErr, OnOk, OnErr};
ghost use Rattle.gob_convert.specs.Made.{concatenation};
ghost use Rattle.gob_plan.specs.Rows.{conforms};
ghost use Rattle.gob_meaning.specs.Formats.{line_rows};
ghost use Rattle.gob_meaning.specs.Plans.{writes_columns};
ghost use Rattle.gob_formats.specs.Adding.{KeepsFront};
ghost use Rattle.gob_formats.specs.Keeping.{rows_conform};

use crate::csv_read::{Draft, read_records};
use crate::json_read::read_object;
use crate::lines::read_text;
use gob_convert::{Convert, ConvertFault};
use gob_plan::{Bytes, Columns, Format, NoMemory, Row};
use json::Scratch;
use std::alloc::Global;

/// The memory that decoding reads with. One is kept from line to line, and holds no more than the longest line needed.
#[derive(Drop)]
pub struct LineScratch {
    draft: Draft,
    json: Scratch,
}

impl LineScratch {
    /// It takes no memory yet.
    pub fn new(alloc: Global) -> LineScratch {
        LineScratch {
            draft: Draft::new(alloc),
            json: Scratch::new(alloc),
        }
    }
}

/// Reads lines of one format as rows of its columns. A line comes without its end: without the LF, and without one CR
/// before it.
#[derive(Drop)]
pub struct LineDecoder {
    format: Format,
    columns: Columns,
    ghost reads: { writes_columns format columns ≡ true },
}

impl LineDecoder {
    /// Whole lines are read as the one column of kind text.
    pub fn new(format: Format, columns: &Columns) -> Result<LineDecoder, NoMemory>
        requires { writes_columns format columns.now ≡ true }
        ensures { IfOk result (λ d. (d.format ≡ format) × (d.columns ≡ columns.now)) }
    {
        Ok(LineDecoder {
            format,
            columns: columns.copy()?,
        })
    }

    /// Adds the rows that the line is, all of them or none: after an error the list is as it was.
    pub fn decode(
        &self,
        alloc: Global,
        scratch: &mut LineScratch,
        line: &[u8],
        rows: &mut Vec<Row>,
    ) -> Result<(), ConvertFault>
        ensures ok { OnOk result
            (concatenation (Some rows.old.items) (line_rows self.now.format self.now.columns line.now)
            ≡ Some rows.new.items) }
        ensures bad { IfErr result
            (λ e. e ≡ ConvertFault.Bad → line_rows self.now.format self.now.columns line.now ≡ None) }
        ensures err { OnErr result (rows.new.items ≡ rows.old.items) }
    {
        let before = rows.len();
        match self.read(alloc, scratch, line, rows) {
            Ok(()) => Ok(()),
            Err(fault) => {
                rows.truncate(before);
                Err(fault)
            }
        }
    }

    #[tactic(auto, unfolding(gob_meaning::specs::Formats::line_rows))]
    fn read(
        &self,
        alloc: Global,
        scratch: &mut LineScratch,
        line: &[u8],
        rows: &mut Vec<Row>,
    ) -> Result<(), ConvertFault>
        ensures ok { OnOk result
            (concatenation (Some rows.old.items) (line_rows self.now.format self.now.columns line.now)
            ≡ Some rows.new.items) }
        ensures bad { IfErr result
            (λ e. e ≡ ConvertFault.Bad → line_rows self.now.format self.now.columns line.now ≡ None) }
        ensures keeps { KeepsFront rows.old.items rows.new.items }
    {
        let columns = self.columns.as_slice();
        match self.format {
            Format::Lines => {
                read_text(alloc, line, rows)?;
                Ok(())
            }
            Format::Csv => {
                read_records(alloc, columns, &mut scratch.draft, line, rows)?;
                Ok(())
            }
            Format::Json => {
                read_object(alloc, columns, &mut scratch.json, line, rows)?;
                Ok(())
            }
        }
    }
}

impl Convert for LineDecoder {
    type Shape = Format;

    type OutShape = Columns;

    type Rec = Bytes;

    type Out = Row;

    ghost shape = { λ d. d.format };

    ghost out_shape = { λ d. d.columns };

    ghost fits = { λ _ _. true };

    ghost out_fits = { conforms };

    ghost made = { λ d line. line_rows d.format d.columns line };

    fn input(&self) -> &Format {
        &self.format
    }

    fn output(&self) -> &Columns {
        &self.columns
    }

    fn convert(&self, alloc: Global, rec: Bytes) -> Result<Vec<Row>, ConvertFault> {
        let mut rows = Vec::new(alloc);
        let mut scratch = LineScratch::new(alloc);
        self.decode(alloc, &mut scratch, rec.as_slice(), &mut rows)?;
        Ok(rows)
    }

    ghost keeps = { λ d line _. rows_conform d.format d.columns line d.reads };
}
