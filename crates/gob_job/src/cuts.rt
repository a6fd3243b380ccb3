//! How a value of a job file is cut: what is taken off its ends, the elements of a list, the words of an element.
ghost use Rattle.std.specs.Prelude.{◌≡◌, ◌∷◌, ◌<◌, ◌≤◌, length, nat_eq, option_map, IfOk, IfSome};
ghost use Rattle.gob_jobs.specs.Elements.{column_word};
ghost use Rattle.gob_jobs.specs.Words as spec;
ghost use Rattle.gob_job.specs.Cuts.{pieces_left, texts_of};

use gob_plan::{NoMemory, Text};
use gob_text::{is_column_name, read_u64};
use memchr::{memchr, memchr2};
use percent_encoding::percent_decode;
use std::alloc::{AllocError, Global};
use std::str;

fn is_blank(byte: u8) -> bool
    ensures { result ≡ spec.is_blank byte }
{
    byte == b' ' || byte == b'\t'
}

fn without_front(text: &[u8]) -> &[u8]
    ensures { result.now ≡ spec.without_front text.now }
{
    let mut left = text;
    while let [first, rest @ ..] = left {
        if !is_blank(*first) {
            return left;
        }
        left = rest;
    }
    left
}

fn without_end(text: &[u8]) -> &[u8]
    ensures { result.now ≡ spec.without_end text.now }
{
    let mut left = text;
    while let [rest @ .., last] = left {
        if !is_blank(*last) {
            return left;
        }
        left = rest;
    }
    left
}

/// The bytes without spaces and tabs at either end.
#[tactic(auto, unfolding(gob_jobs::specs::Words::without_blanks))]
pub(crate) fn trimmed(text: &[u8]) -> &[u8]
    ensures { result.now ≡ spec.without_blanks text.now }
{
    without_end(without_front(text))
}

/// What stands before the first separator, and what follows it where there is one.
pub(crate) fn split_piece(separator: u8, text: &[u8]) -> (&[u8], Option<&[u8]>)
    ensures pieces { spec.pieces (nat_eq separator) text.now
        ≡ result.0.now ∷ pieces_left (nat_eq separator) result.1 }
    ensures shorter { IfSome result.1 (λ rest. length rest.now < length text.now) }
{
    match memchr(separator, text) {
        Some(at) => {
            let (piece, _) = text.split_at(at);
            let (_, rest) = text.split_at(at + 1);
            (piece, Some(rest))
        }
        None => (text, None),
    }
}

// The same at a space or a tab.
fn split_word(text: &[u8]) -> (&[u8], Option<&[u8]>)
    ensures pieces { spec.pieces spec.is_blank text.now ≡ result.0.now ∷ pieces_left spec.is_blank result.1 }
    ensures shorter { IfSome result.1 (λ rest. length rest.now < length text.now) }
{
    match memchr2(b' ', b'\t', text) {
        Some(at) => {
            let (word, _) = text.split_at(at);
            let (_, rest) = text.split_at(at + 1);
            (word, Some(rest))
        }
        None => (text, None),
    }
}

/// The elements of a list with this separator, without spaces and tabs at their ends. An empty value has none; where an
/// element is empty the value is no list.
pub(crate) fn elements<'a>(
    alloc: Global,
    separator: u8,
    value: &'a [u8],
) -> Result<Option<Vec<&'a [u8]>>, AllocError>
    ensures { IfOk result (λ found. option_map (λ es. texts_of es.items) found ≡ spec.elements separator value.now) }
{
    let mut elements = Vec::new(alloc);
    if value.is_empty() {
        return Ok(Some(elements));
    }
    let mut left = Some(value);
    while let Some(text) = left {
        let (piece, rest) = split_piece(separator, text);
        let element = trimmed(piece);
        if element.is_empty() {
            return Ok(None);
        }
        elements.push(element)?;
        left = rest;
    }
    Ok(Some(elements))
}

/// The elements, where they are at most so many.
pub(crate) fn few_elements<'a>(
    alloc: Global,
    most: usize,
    separator: u8,
    value: &'a [u8],
) -> Result<Option<Vec<&'a [u8]>>, AllocError>
    ensures { IfOk result (λ found.
        option_map (λ es. texts_of es.items) found ≡ spec.few_elements most separator value.now) }
{
    match elements(alloc, separator, value)? {
        Some(elements) if elements.len() <= most => Ok(Some(elements)),
        _ => Ok(None),
    }
}

/// The words of an element, which stand between spaces and tabs.
pub(crate) fn words_of<'a>(alloc: Global, element: &'a [u8]) -> Result<Vec<&'a [u8]>, AllocError>
    ensures { IfOk result (λ words. texts_of words.items ≡ spec.words_of element.now) }
{
    let mut words = Vec::new(alloc);
    let mut left = Some(element);
    while let Some(text) = left {
        let (word, rest) = split_word(text);
        if !word.is_empty() {
            words.push(word)?;
        }
        left = rest;
    }
    Ok(words)
}

/// The text that a value word stands for: `""` for the empty text, any other word with its escapes decoded, where that
/// is UTF-8.
#[tactic(auto, unfolding(gob_jobs::specs::Words::value_word))]
pub(crate) fn value_word(alloc: Global, word: &[u8]) -> Result<Option<Text>, NoMemory>
    ensures { IfOk result (λ found. found ≡ spec.value_word word.now) }
{
    if word == b"\"\"".as_slice() {
        return Ok(Some(Text::new(alloc)));
    }
    let mut bytes = Vec::new(alloc);
    percent_decode(word).append_to(&mut bytes)?;
    match String::from_utf8(bytes) {
        Ok(text) => Ok(Some(Text::from_string(text))),
        Err(_) => Ok(None),
    }
}

/// The number that a text writes, where it lies in this range.
#[tactic(auto, unfolding(gob_jobs::specs::Words::number_within))]
pub(crate) fn number_within(low: u64, high: u64, text: &[u8]) -> Option<u64>
    ensures value { result ≡ spec.number_within low high text.now }
    ensures range { IfSome result (λ n. (low ≤ n) × (n ≤ high)) }
{
    match read_u64(text) {
        Some(number) if low <= number && number <= high => Some(number),
        _ => None,
    }
}

/// The word as a column name, where it is one.
pub(crate) fn column_word(alloc: Global, word: &[u8]) -> Result<Option<Text>, NoMemory>
    ensures { IfOk result (λ found. found ≡ column_word word.now) }
{
    match str::from_utf8(word) {
        Ok(name) if is_column_name(name) => Ok(Some(Text::from_str(alloc, name)?)),
        _ => Ok(None),
    }
}

/// The text without spaces and tabs at either end.
#[tactic(auto, unfolding(gob_jobs::specs::Words::without_blanks))]
pub(crate) fn trimmed_text(text: &str) -> &str
    ensures { result.now ≡ spec.without_blanks text.now }
{
    without_text_end(without_text_front(text))
}

fn without_text_front(text: &str) -> &str
    ensures { result.now ≡ spec.without_front text.now }
{
    let mut left = text;
    loop {
        if let Some(rest) = left.strip_prefix(' ') {
            left = rest;
        } else if let Some(rest) = left.strip_prefix('\t') {
            left = rest;
        } else {
            return left;
        }
    }
}

fn without_text_end(text: &str) -> &str
    ensures { result.now ≡ spec.without_end text.now }
{
    let mut left = text;
    loop {
        if let Some(rest) = left.strip_suffix(' ') {
            left = rest;
        } else if let Some(rest) = left.strip_suffix('\t') {
            left = rest;
        } else {
            return left;
        }
    }
}
