//! A row for each piece of a text.

ghost use Rattle.std.specs.Prelude.{◌≡◌, ◌≢◌, ◌<◌, ◌++◌, ◌∷◌, [], OnOk, OnErr, length, take, get_or, map};
ghost use Rattle.gob_plan.specs.declared.rows.Value.TheVariants as value;
ghost use Rattle.gob_meaning.specs.Steps.{pieces_of};
ghost use Rattle.gob_steps.specs.Places.{row_with, rows_of_pieces};

use gob_plan::{List, NoMemory, Row, Text, Value};
use std::mem;

/// Adds a row for each piece of the text at this place, cut at the separator from the left; none where Null is there.
/// Without memory the rows stay as they were.
pub(crate) fn push_pieces(
    row: Row,
    place: usize,
    separator: &str,
    rows: &mut Vec<Row>,
) -> Result<(), NoMemory>
    requires within { place < length row.values }
    requires some { separator.now ≢ [] }
    ensures ok { OnOk result (rows.new.items
        ≡ rows.old.items ++ rows_of_pieces separator.now place row (get_or row.values place value.Null)) }
    ensures err { OnErr result (rows.new.items ≡ rows.old.items) }
{
    let mut values = row.values.into_vec();
    let old = mem::replace(&mut values[place], Value::Null);
    let Value::Text(text) = old else {
        return Ok(());
    };
    let bare = Row {
        values: List::from_vec(values),
    };
    let before = rows.len();
    match push_each(bare, place, text.as_str(), separator, rows) {
        Ok(()) => Ok(()),
        Err(e) => {
            rows.truncate(before);
            Err(e)
        }
    }
}

// The text isn't in the row any more, so that no copy has it.
fn push_each(
    bare: Row,
    place: usize,
    text: &str,
    separator: &str,
    rows: &mut Vec<Row>,
) -> Result<(), NoMemory>
    requires within { place < length bare.values }
    requires some { separator.now ≢ [] }
    ensures ok { OnOk result (rows.new.items
        ≡ rows.old.items ++ map (row_with place bare) (pieces_of separator.now text.now)) }
    ensures err { OnErr result (take (length rows.old.items) rows.new.items ≡ rows.old.items) }
{
    let mut rest = text;
    while let Some((piece, after)) = rest.split_once(separator) {
        push_piece(bare.copy()?, place, piece, rows)?;
        rest = after;
    }
    push_piece(bare, place, rest, rows)?;
    Ok(())
}

fn push_piece(row: Row, place: usize, piece: &str, rows: &mut Vec<Row>) -> Result<(), NoMemory>
    requires { place < length row.values }
    ensures ok { OnOk result (rows.new.items ≡ rows.old.items ++ row_with place row piece.now ∷ []) }
    ensures err { OnErr result (rows.new.items ≡ rows.old.items) }
{
    let text = Text::from_str(row.values.allocator(), piece)?;
    let mut values = row.values.into_vec();
    values[place] = Value::Text(text);
    rows.push(Row {
        values: List::from_vec(values),
    })?;
    Ok(())
}
