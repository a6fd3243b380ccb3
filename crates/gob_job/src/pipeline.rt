//! Pipeline texts: a line for each key that bears on what is made, with its value.
ghost use Rattle.std.specs.Prelude.{◌≡◌, ◌++◌, IfOk, OnOk, map, nat_eq, option_map};
ghost use Rattle.std.specs.List.{list_all, range_with_len};
ghost use Rattle.gob_bytes.specs.Escapes.{escape_of};
ghost use Rattle.gob_bytes.specs.Tables.{at_name};
ghost use Rattle.gob_jobs.specs.Pipelines as spec;
ghost use Rattle.gob_jobs.specs.Reading as reading;
ghost use Rattle.gob_jobs.specs.Words.{only_if, pieces};
ghost use Rattle.gob_job.specs.LookUps.{is_look_up_byte, setting_from};
ghost use Rattle.gob_job.specs.PipelineLines.{pipeline_branch_lines, told_lines, told_setting};
ghost use Rattle.gob_job.specs.Rows.{need_from, row_from};

use crate::cuts::{split_piece, trimmed_text};
use crate::rows::{Need, Row, branch_rows, first_rows};
use crate::values::{Setting, Values, key_that_counts, own_key};
use gob_plan::{Bytes, List, NoMemory, Text};
use gob_props::Props;
use gob_text::{push_escaped, unescape};
use std::alloc::Global;
use std::str;

// The name as it is escaped.
fn escaped(alloc: Global, name: &str) -> Result<Text, NoMemory>
    ensures { IfOk result (λ text. text ≡ escape_of name.now) }
{
    let mut bytes = Vec::new(alloc);
    push_escaped(&mut bytes, name)?;
    match String::from_utf8(bytes) {
        Ok(text) => Ok(Text::from_string(text)),
        Err(_) => unreachable!(),
    }
}

// The value of an absent key in the pipeline text, empty where it has none.
fn default_text(need: Need) -> &'static str
    ensures { result.now ≡ reading.default_text (need_from need) }
{
    match need {
        Need::ElseIs(text) => text,
        Need::Needed => "",
        Need::NeededUnlessLines => "",
        Need::NeededUnlessAll => "",
    }
}

// The value that a row has in the text: the one that counts, or that of an absent key.
fn spelled_value<'a>(
    alloc: Global,
    props: &'a Props,
    row: &Row,
    branch: u32,
) -> Result<&'a str, NoMemory>
    ensures { IfOk result (λ value. value.now ≡ reading.spelled_value (at_name props.now) (row_from row.now) branch) }
{
    let key = key_that_counts(alloc, Values::Props(props), row, branch)?;
    match props.get(key.as_str()) {
        Some(value) => Ok(trimmed_text(value)),
        None => Ok(default_text(row.need)),
    }
}

// The line of a row in a branch.
fn setting_line(alloc: Global, props: &Props, row: &Row, branch: u32) -> Result<Text, NoMemory>
    ensures { IfOk result (λ line. line ≡ spec.setting_line (told_setting props.now row.now branch)) }
{
    let value = spelled_value(alloc, props, row, branch)?;
    let escaped = escaped(alloc, value)?;
    let mut line = own_key(alloc, row, branch)?;
    line.push("=")?;
    line.push(escaped.as_str())?;
    line.push("\n")?;
    Ok(line)
}

// Adds the lines of the rows that tell the plan, in a branch.
fn push_rows(
    alloc: Global,
    into: &mut Text,
    props: &Props,
    rows: &[Row],
    branch: u32,
) -> Result<(), NoMemory>
    ensures { OnOk result (into.new ≡ into.old ++ told_lines props.now branch rows.now) }
{
    for row in rows {
        if row.tells_plan() {
            let line = setting_line(alloc, props, row, branch)?;
            into.push(line.as_str())?;
        }
    }
    Ok(())
}

// Adds those of all branches.
fn push_branches(
    alloc: Global,
    into: &mut Text,
    props: &Props,
    branches: u32,
) -> Result<(), NoMemory>
    ensures { OnOk result (into.new ≡ into.old ++ pipeline_branch_lines props.now (range_with_len 0 branches)) }
{
    for branch in 0..branches {
        push_rows(alloc, into, props, branch_rows(), branch)?;
    }
    Ok(())
}

/// The pipeline text of these values, for so many branches.
#[tactic(auto, using(crate::proofs::PipelineRows::whole_text))]
pub(crate) fn pipeline_of(alloc: Global, props: &Props, branches: u32) -> Result<Text, NoMemory>
    ensures { IfOk result (λ text. text ≡ reading.pipeline_of (at_name props.now) branches) }
{
    let mut text = Text::new(alloc);
    push_rows(alloc, &mut text, props, first_rows(), 0)?;
    push_branches(alloc, &mut text, props, branches)?;
    Ok(text)
}

// ---- reading

// A key of a pipeline text: letters, digits and dots.
fn read_key(alloc: Global, key: &[u8]) -> Result<Option<Text>, NoMemory>
    ensures { IfOk result (λ found. found ≡ only_if spec.is_key key.now) }
{
    match str::from_utf8(key) {
        Ok(text) if is_key(key) => Ok(Some(Text::from_str(alloc, text)?)),
        _ => Ok(None),
    }
}

fn is_key(key: &[u8]) -> bool
    ensures { result ≡ spec.is_key key.now }
{
    !key.is_empty() && are_key_bytes(key)
}

fn is_key_byte(byte: u8) -> bool
    ensures { result ≡ is_look_up_byte byte }
{
    byte.is_ascii_alphanumeric() || byte == b'.'
}

fn are_key_bytes(key: &[u8]) -> bool
    ensures { result ≡ list_all is_look_up_byte key.now }
{
    key.iter().all(|b| is_key_byte(*b))
}

// The value that is escaped so; bytes have one spelling.
fn read_value(alloc: Global, text: &[u8]) -> Result<Option<Bytes>, NoMemory>
    ensures { IfOk result (λ found. found ≡ spec.unescaped_value text.now) }
{
    match unescape(alloc, text)? {
        Some(bytes) => Ok(Some(Bytes::from_vec(bytes))),
        None => Ok(None),
    }
}

// A line's setting, cut at `=`.
fn read_setting(alloc: Global, line: &[u8]) -> Result<Option<Setting>, NoMemory>
    ensures { IfOk result (λ found.
        option_map setting_from found ≡ spec.setting_of_pieces (pieces (nat_eq 61) line.now)) }
{
    let (key, rest) = split_piece(b'=', line);
    let Some(rest) = rest else {
        return Ok(None);
    };
    let (value, more) = split_piece(b'=', rest);
    if more.is_some() {
        return Ok(None);
    }
    let Some(key) = read_key(alloc, key)? else {
        return Ok(None);
    };
    match read_value(alloc, value)? {
        Some(value) => Ok(Some(Setting { key, value })),
        None => Ok(None),
    }
}

/// The settings of a pipeline text, of which the last line has an end.
#[tactic(auto, unfolding(gob_jobs::specs::Pipelines::settings_in))]
pub(crate) fn settings_in(alloc: Global, text: &[u8]) -> Result<Option<List<Setting>>, NoMemory>
    ensures { IfOk result (λ found. option_map (map setting_from) found ≡ spec.settings_in text.now) }
{
    let mut settings = List::new(alloc);
    let mut left = text;
    loop {
        let (line, rest) = split_piece(b'\n', left);
        let Some(rest) = rest else {
            return if line.is_empty() {
                Ok(Some(settings))
            } else {
                Ok(None)
            };
        };
        let Some(setting) = read_setting(alloc, line)? else {
            return Ok(None);
        };
        settings.push(setting)?;
        left = rest;
    }
}
