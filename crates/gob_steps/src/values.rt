//! One value made into another.

ghost use Rattle.std.specs.Prelude.{◌≡◌, IfOk, IfErr, Some, None};
ghost use Rattle.std.specs.Str.{str_to_ascii_lowercase, str_to_ascii_uppercase};
ghost use Rattle.gob_plan.specs.declared.rows.Value.TheVariants as value;
ghost use Rattle.gob_convert.specs.declared.convert.ConvertFault.{ConvertFault as Fault};
ghost use Rattle.gob_meaning.specs.Values as meaning;
ghost use Rattle.gob_steps.specs.Changes.{value_change_of};

use gob_convert::ConvertFault;
use gob_plan::{Kind, NoMemory, StepSpec, Text, Value};
use gob_text::read_i64;
use itoa::Buffer;
use std::alloc::Global;

/// What the step makes of the value in its column.
pub(crate) fn changed(alloc: Global, spec: &StepSpec, value: Value) -> Result<Value, ConvertFault>
    ensures ok { IfOk result (λ v. value_change_of spec.now value ≡ Some v) }
    ensures bad { IfErr result (λ e. e ≡ Fault.Bad → value_change_of spec.now value ≡ None) }
{
    match (spec, value) {
        (StepSpec::Cast { column: _, kind }, value) => cast(alloc, *kind, value),
        (StepSpec::Upper { column: _ }, Value::Text(text)) => Ok(Value::Text(upper(text))),
        (StepSpec::Lower { column: _ }, Value::Text(text)) => Ok(Value::Text(lower(text))),
        (_, value) => Ok(value),
    }
}

fn cast(alloc: Global, kind: Kind, value: Value) -> Result<Value, ConvertFault>
    ensures ok { IfOk result (λ v. meaning.cast kind value ≡ Some v) }
    ensures bad { IfErr result (λ e. e ≡ Fault.Bad → meaning.cast kind value ≡ None) }
{
    match kind {
        Kind::Bool => to_bool(value).ok_or(ConvertFault::Bad),
        Kind::Int => to_int(value).ok_or(ConvertFault::Bad),
        Kind::Text => Ok(to_text(alloc, value)?),
    }
}

// An integer is 0 or 1, and a text `true` or `false`.
fn to_bool(value: Value) -> Option<Value>
    ensures { result ≡ meaning.cast Kind.Bool value }
{
    match value {
        Value::Int(0) => Some(Value::Bool(false)),
        Value::Int(1) => Some(Value::Bool(true)),
        Value::Int(_) => None,
        Value::Text(text) => Some(Value::Bool(read_bool(text.as_str())?)),
        value => Some(value),
    }
}

fn read_bool(text: &str) -> Option<bool>
    ensures { result ≡ meaning.bool_read text.now }
{
    match text {
        "true" => Some(true),
        "false" => Some(false),
        _ => None,
    }
}

fn to_int(value: Value) -> Option<Value>
    ensures { result ≡ meaning.cast Kind.Int value }
{
    match value {
        Value::Bool(b) => Some(Value::Int(i64::from(b))),
        Value::Text(text) => Some(Value::Int(read_i64(text.as_str().as_bytes())?)),
        value => Some(value),
    }
}

fn to_text(alloc: Global, value: Value) -> Result<Value, NoMemory>
    ensures { IfOk result (λ v. meaning.cast Kind.Text value ≡ Some v) }
{
    match value {
        Value::Bool(b) => Ok(Value::Text(bool_text(alloc, b)?)),
        Value::Int(n) => Ok(Value::Text(Text::from_str(alloc, Buffer::new().format(n))?)),
        value => Ok(value),
    }
}

fn bool_text(alloc: Global, b: bool) -> Result<Text, NoMemory>
    ensures { IfOk result (λ t. t ≡ meaning.bool_text b) }
{
    let word = if b { "true" } else { "false" };
    Ok(Text::from_str(alloc, word)?)
}

fn upper(text: Text) -> Text
    ensures { result ≡ str_to_ascii_uppercase text }
{
    let mut letters = text.into_string();
    letters.make_ascii_uppercase();
    Text::from_string(letters)
}

fn lower(text: Text) -> Text
    ensures { result ≡ str_to_ascii_lowercase text }
{
    let mut letters = text.into_string();
    letters.make_ascii_lowercase();
    Text::from_string(letters)
}
