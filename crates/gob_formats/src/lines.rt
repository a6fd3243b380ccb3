//! Whole lines as texts.
ghost use Rattle.std.specs.Prelude.{◌≡◌, None, Some, IfErr, OnOk};
ghost use Rattle.gob_convert.specs.Made.{concatenation};
ghost use Rattle.gob_meaning.specs.Formats.{text_line_rows, text_record};
ghost use Rattle.gob_formats.specs.Adding.{KeepsFront};
ghost use Rattle.gob_formats.specs.Fields.{line_record};

use gob_convert::ConvertFault;
use gob_plan::{List, Row, Text, Value};
use memchr::memchr;
use std::alloc::Global;
use std::str;

/// Adds the row whose one value is the line.
pub(crate) fn read_text(alloc: Global, line: &[u8], rows: &mut Vec<Row>) -> Result<(), ConvertFault>
    ensures ok { OnOk result (concatenation (Some rows.old.items) (text_line_rows line.now) ≡ Some rows.new.items) }
    ensures bad { IfErr result (λ e. e ≡ ConvertFault.Bad → text_line_rows line.now ≡ None) }
    ensures keeps { KeepsFront rows.old.items rows.new.items }
{
    let Ok(text) = str::from_utf8(line) else {
        return Err(ConvertFault::Bad);
    };
    let mut values = Vec::with_capacity(alloc, 1)?;
    values.push(Value::Text(Text::from_str(alloc, text)?))?;
    rows.push(Row {
        values: List::from_vec(values),
    })?;
    Ok(())
}

/// Adds the one value, which has to be a text without a line feed, and a line feed.
pub(crate) fn write_text(values: &[Value], into: &mut Vec<u8>) -> Result<(), ConvertFault>
    ensures ok { OnOk result (concatenation (Some into.old.items) (text_record values.now) ≡ Some into.new.items) }
    ensures bad { IfErr result (λ e. e ≡ ConvertFault.Bad → text_record values.now ≡ None) }
    ensures keeps { KeepsFront into.old.items into.new.items }
{
    match values {
        [Value::Text(text)] => write_line(text.as_str().as_bytes(), into),
        _ => Err(ConvertFault::Bad),
    }
}

fn write_line(text: &[u8], into: &mut Vec<u8>) -> Result<(), ConvertFault>
    ensures ok { OnOk result (concatenation (Some into.old.items) (line_record text.now) ≡ Some into.new.items) }
    ensures bad { IfErr result (λ e. e ≡ ConvertFault.Bad → line_record text.now ≡ None) }
    ensures keeps { KeepsFront into.old.items into.new.items }
{
    if let Some(_) = memchr(b'\n', text) {
        return Err(ConvertFault::Bad);
    }
    into.extend_from_slice(text)?;
    into.push(b'\n')?;
    Ok(())
}
