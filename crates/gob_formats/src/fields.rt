//! Fields of csv as values.
ghost use Rattle.std.specs.Prelude.{◌≡◌, None, Some, IfOk, IfErr};
ghost use Rattle.gob_plan.specs.declared.rows.Kind.TheVariants as kinds;
ghost use Rattle.gob_meaning.specs.Formats.{field_value};
ghost use Rattle.gob_formats.specs.Fields.{field_read};

use gob_convert::ConvertFault;
use gob_plan::{Kind, NoMemory, Text, Value};
use gob_text::read_i64;
use std::alloc::Global;
use std::str;

/// A field as a value of its column's kind: an empty one is Null but for text.
pub(crate) fn read_field(alloc: Global, kind: Kind, field: &[u8]) -> Result<Value, ConvertFault>
    ensures ok { IfOk result (λ v. field_read kind field.now ≡ Some v) }
    ensures bad { IfErr result (λ e. e ≡ ConvertFault.Bad → field_read kind field.now ≡ None) }
{
    let Ok(text) = str::from_utf8(field) else {
        return Err(ConvertFault::Bad);
    };
    let value = text_field(alloc, kind, text)?;
    value.ok_or(ConvertFault::Bad)
}

fn text_field(alloc: Global, kind: Kind, text: &str) -> Result<Option<Value>, NoMemory>
    ensures { IfOk result (λ o. o ≡ field_value kind text.now) }
{
    match kind {
        Kind::Text => {
            let text = Text::from_str(alloc, text)?;
            Ok(Some(Value::Text(text)))
        }
        Kind::Bool => Ok(bool_field(text.as_bytes())),
        Kind::Int => Ok(int_field(text.as_bytes())),
    }
}

fn bool_field(field: &[u8]) -> Option<Value>
    ensures { result ≡ field_value kinds.Bool field.now }
{
    if field.is_empty() {
        return Some(Value::Null);
    }
    if field == b"true".as_slice() {
        return Some(Value::Bool(true));
    }
    if field == b"false".as_slice() {
        return Some(Value::Bool(false));
    }
    None
}

fn int_field(field: &[u8]) -> Option<Value>
    ensures { result ≡ field_value kinds.Int field.now }
{
    if field.is_empty() {
        return Some(Value::Null);
    }
    Some(Value::Int(read_i64(field)?))
}
