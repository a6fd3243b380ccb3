//! The lines of a pipeline's text.
ghost use Rattle.std.specs.Prelude.{◌≡◌, ◌↔◌, IfOk, IsTrue};
ghost use Rattle.std.specs.Option.{option_copied};
ghost use Rattle.std.specs.List.{list_all};
ghost use Rattle.gob_jobs.specs.Pipelines.{is_key};
ghost use Rattle.gob_text.specs.Words.{GoesOnAtAll, IsLine};
ghost use Rattle.gob_state.specs.Reads.{ReadsSpelling};
ghost use Rattle.gob_state.specs.Settings.{is_key_byte, IsSettingLine, IsSettingsText, whole_line};

use gob_plan::{NoMemory, Text};
use gob_text::{Words, unescape};
use std::alloc::Global;
use std::str;

fn is_key_byte(b: u8) -> bool
    ensures { result ≡ is_key_byte b }
{
    b.is_ascii_alphanumeric() || b == b'.'
}

fn are_key_bytes(bytes: &[u8]) -> bool
    ensures { result ≡ list_all is_key_byte bytes.now }
{
    bytes.iter().all(|b| is_key_byte(*b))
}

// Letters, digits and dots, at least one.
fn is_key(key: &[u8]) -> bool
    ensures { result ≡ is_key key.now }
{
    match key {
        [] => false,
        _ => are_key_bytes(key),
    }
}

// Whether the line is a key and its escaped value.
fn is_setting(alloc: Global, line: &str) -> Result<bool, NoMemory>
    ensures { IfOk result (λ is. IsTrue is ↔ IsSettingLine line.now) }
{
    let Some((key, value)) = line.split_once('=') else {
        return Ok(false);
    };
    if !is_key(key.as_bytes()) {
        return Ok(false);
    }
    let found = unescape(alloc, value.as_bytes())?;
    Ok(found.is_some())
}

// A line that sets a key, without its end.
fn take_setting<'a>(alloc: Global, text: &mut Words<'a>) -> Result<Option<&'a str>, NoMemory>
    ensures { IfOk result (λ taken.
        ReadsSpelling whole_line IsSettingLine GoesOnAtAll text.old text.new (option_copied taken)) }
{
    let Some(bytes) = text.take_line() else {
        return Ok(None);
    };
    let Ok(line) = str::from_utf8(bytes) else {
        return Ok(None);
    };
    if is_setting(alloc, line)? {
        Ok(Some(line))
    } else {
        Ok(None)
    }
}

/// The text of so many lines, each of which sets a key.
pub(crate) fn take_settings(
    alloc: Global,
    text: &mut Words,
    lines: u64,
) -> Result<Option<Text>, NoMemory>
    ensures { IfOk result (λ taken. ReadsSpelling (λ p. p) (IsSettingsText lines) GoesOnAtAll text.old text.new taken) }
{
    let mut settings = Text::new(alloc);
    for _ in 0..lines {
        let Some(line) = take_setting(alloc, text)? else {
            return Ok(None);
        };
        settings.push(line)?;
        settings.push("\n")?;
    }
    Ok(Some(settings))
}
