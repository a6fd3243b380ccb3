//! The columns of rows: from one to 64, with different names.

ghost use Rattle.std.specs.Prelude.{◌≡◌, IfOk, MatchResult, length, slice_get, true, false};
ghost use Rattle.gob_plan.specs.Columns.{is_columns, position_of, distinct, is_there};
ghost use Rattle.std.specs.Option.{option_copied};

use crate::rows::Column;
use crate::{List, NoMemory};
use std::alloc::AllocError;
use std::marker::Model;

const MOST: usize = 64;

/// The columns of rows. Contracts see their list.
#[derive(Drop)]
pub struct Columns {
    list: List<Column>,
}

impl Model for Columns {
    ghost use Rattle.std.specs.Prelude.{List, ◌≡◌, true};
    ghost use Rattle.gob_plan.specs.declared.rows.Column.{Column};
    ghost use Rattle.gob_plan.specs.Columns.{is_columns};

    ghost Value = { List Column };

    ghost view = { λ c. c.list };

    ghost invariant = { λ c. is_columns c.list ≡ true };
}

impl Clone for Columns {
    ghost is_clone = { λ columns c. c ≡ columns };

    fn clone(&self) -> Result<Self, AllocError> {
        Ok(Columns {
            list: self.list.clone()?,
        })
    }
}

impl Columns {
    /// The list is handed back where it is empty, too long or has a name twice.
    pub fn new(list: List<Column>) -> Result<Columns, List<Column>>
        ensures { MatchResult result
            (λ c. (c ≡ list) × (is_columns list ≡ true))
            (λ back. (back ≡ list) × (is_columns list ≡ false)) }
    {
        if is_proper(list.as_slice()) {
            Ok(Columns { list })
        } else {
            Err(list)
        }
    }

    pub fn len(&self) -> usize
        ensures len { result ≡ length self.now }
        ensures proper { is_columns self.now ≡ true }
    {
        self.list.len()
    }

    pub fn get(&self, i: usize) -> Option<&Column>
        ensures { option_copied result ≡ slice_get self.now i }
    {
        self.list.as_slice().get(i)
    }

    pub fn as_slice(&self) -> &[Column]
        ensures items { result.now ≡ self.now }
        ensures proper { is_columns self.now ≡ true }
    {
        self.list.as_slice()
    }

    /// The place of the column with this name.
    pub fn find(&self, name: &str) -> Option<usize>
        ensures { result ≡ position_of name.now self.now }
    {
        self.list
            .as_slice()
            .iter()
            .position(|c| c.name.as_str() == name)
    }

    pub fn copy(&self) -> Result<Self, NoMemory>
        ensures { IfOk result (λ c. c ≡ self.now) }
    {
        Ok(self.clone()?)
    }
}

#[tactic(auto, unfolding(crate::specs::Columns::is_columns))]
fn is_proper(columns: &[Column]) -> bool
    ensures { result ≡ is_columns columns.now }
{
    1 <= columns.len() && columns.len() <= MOST && are_distinct(columns)
}

fn are_distinct(columns: &[Column]) -> bool
    ensures { result ≡ distinct columns.now }
{
    match columns {
        [] => true,
        [first, rest @ ..] => !has_name(rest, first.name.as_str()) && are_distinct(rest),
    }
}

fn has_name(columns: &[Column], name: &str) -> bool
    ensures { result ≡ is_there name.now columns.now }
{
    columns.iter().any(|c| c.name.as_str() == name)
}
