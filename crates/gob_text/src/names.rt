//! Names, and names that are escaped.
ghost use Rattle.std.specs.Prelude.{◌≡◌, ◌≢◌, ◌↔◌, ◌<◌, ◌++◌, ℕ, List, length, min, not};
ghost use Rattle.std.specs.Prelude.{OnOk, OnErr, MatchOption, IfOk, IsTrue};
ghost use Rattle.std.specs.List.{list_all};
ghost use Rattle.gob_bytes.specs.Additions.{AddsFront};
ghost use Rattle.gob_bytes.specs.Names as names;
ghost use Rattle.gob_bytes.specs.Escapes.{AreBytes, escape_of, is_plain};

use crate::front::after_front;
use percent_encoding::{AsciiSet, NON_ALPHANUMERIC, ascii_set, percent_decode, percent_encode};
use std::alloc::{AllocError, Global};

const LONGEST_NAME: usize = 64;

const ESCAPED: AsciiSet = ascii_set!(NON_ALPHANUMERIC.remove(b'.').remove(b'_').remove(b'-'));

/// Appends the name with each byte but letters, digits, `.`, `_` and `-` escaped.
pub fn push_escaped(into: &mut Vec<u8>, name: &str) -> Result<(), AllocError>
    ensures ok { OnOk result (into.new.items ≡ into.old.items ++ escape_of name.now) }
    ensures err { OnErr result (AddsFront into.old.items into.new.items (escape_of name.now)) }
{
    for piece in percent_encode(name.as_bytes(), ESCAPED) {
        into.extend_from_slice(piece.as_bytes())?;
    }
    Ok(())
}

// Whether the byte stands for itself in an escaped name.
fn is_plain(byte: u8) -> bool
    ensures { result ≡ is_plain byte }
{
    byte.is_ascii_alphanumeric() || matches!(byte, b'.' | b'_' | b'-')
}

/// How long the name is once it is escaped; past the end of a `usize` it is that end.
pub fn escaped_len(name: &str) -> usize
    ensures { result ≡ min (length (escape_of name.now)) usize.MAX }
{
    let mut len = 0usize;
    for byte in name.as_bytes() {
        len = len.saturating_add(if is_plain(*byte) { 1 } else { 3 });
    }
    len
}

// Whether the text is the name as it is escaped.
fn is_spelled(mut text: &[u8], name: &[u8]) -> bool
    ensures { IsTrue result ↔ (text.entry.now ≡ escape_of name.now) }
{
    for piece in percent_encode(name, ESCAPED) {
        match after_front(text, piece.as_bytes()) {
            Some(rest) => text = rest,
            None => return false,
        }
    }
    text.is_empty()
}

/// The bytes that are escaped so. They have one spelling, so text that escapes more than it must, or in
/// lower-case digits, is the spelling of none.
pub fn unescape(alloc: Global, text: &[u8]) -> Result<Option<Vec<u8>>, AllocError>
    ensures { IfOk result (λ found. MatchOption found
        ((bytes : List ℕ) → AreBytes bytes → escape_of bytes ≢ text.now)
        (λ bytes. AreBytes bytes.items × (escape_of bytes.items ≡ text.now))) }
{
    let mut bytes = Vec::new(alloc);
    percent_decode(text).append_to(&mut bytes)?;
    if is_spelled(text, &bytes) {
        Ok(Some(bytes))
    } else {
        Ok(None)
    }
}

fn is_lower_or_digit(b: u8) -> bool
    ensures { result ≡ names.is_lower_or_digit b }
{
    b.is_ascii_lowercase() || b.is_ascii_digit()
}

fn is_job_byte(b: u8) -> bool
    ensures { result ≡ names.is_job_byte b }
{
    is_lower_or_digit(b) || b == b'_' || b == b'-'
}

fn begins_as_job(bytes: &[u8]) -> bool
    ensures { result ≡ names.begins_as_job bytes.now }
{
    match bytes {
        [first, ..] => is_lower_or_digit(*first),
        [] => false,
    }
}

fn are_job_bytes(bytes: &[u8]) -> bool
    ensures { result ≡ list_all names.is_job_byte bytes.now }
{
    bytes.iter().all(|b| is_job_byte(*b))
}

fn are_column_bytes(bytes: &[u8]) -> bool
    ensures { result ≡ list_all is_plain bytes.now }
{
    bytes.iter().all(|b| is_plain(*b))
}

/// Whether a job may have this name: 1 to 64 lower-case letters, digits, `_` and `-`, of which the
/// first is a letter or a digit, and not `jobs`, which is the folder of job files.
#[tactic(auto, unfolding(gob_bytes::specs::Names::is_job_name))]
pub fn is_job_name(text: &str) -> bool
    ensures { result ≡ names.is_job_name text.now }
{
    let bytes = text.as_bytes();
    begins_as_job(bytes) && bytes.len() <= LONGEST_NAME && are_job_bytes(bytes) && text != "jobs"
}

/// Whether a column may have this name: 1 to 64 ASCII letters, digits, `_`, `-` and `.`.
#[tactic(auto, unfolding(gob_bytes::specs::Names::is_column_name))]
pub fn is_column_name(text: &str) -> bool
    ensures { result ≡ names.is_column_name text.now }
{
    let bytes = text.as_bytes();
    bytes.len() >= 1 && bytes.len() <= LONGEST_NAME && are_column_bytes(bytes)
}
