//! The key and the value of a logical line.
ghost use Rattle.std.specs.Prelude.{◌≡◌, ◌+◌, ◌<◌, ◌≤◌, ◌^◌, ℕ, true, false, length, drop};
ghost use Rattle.std.specs.Prelude.{IfSome, IfOk, encode_utf8_all};
ghost use Rattle.std.specs.Option.{option_map};
ghost use Rattle.std.specs.String.{string_bytes};
ghost use Rattle.gob_props.specs.Properties as spec;
ghost use Rattle.gob_props.specs.Steps.{character_of, entry_from};

use crate::lines::is_blank;
use std::alloc::{AllocError, Global};

fn is_mark(c: char) -> bool
    ensures { result ≡ spec.is_key_end c }
{
    c == '=' || c == ':'
}

fn is_separator(c: char) -> bool
    ensures { result ≡ spec.is_separator c }
{
    is_mark(c) || is_blank(c)
}

fn key_length(text: &[char]) -> usize
    ensures value { result ≡ spec.key_length false text.now }
    ensures within { result ≤ length text.now }
{
    let mut escaped = false;
    for (i, c) in text.iter().enumerate() {
        if !escaped && is_separator(*c) {
            return i;
        }
        escaped = !escaped && *c == '\\';
    }
    text.len()
}

fn trimmed(text: &[char]) -> &[char]
    ensures { result.now ≡ spec.without_white_space text.now }
{
    let mut left = text;
    while let [first, rest @ ..] = left {
        if !is_blank(*first) {
            return left;
        }
        left = rest;
    }
    left
}

fn without_mark(text: &[char]) -> &[char]
    ensures { result.now ≡ spec.without_mark text.now }
{
    match text {
        [first, rest @ ..] if is_mark(*first) => rest,
        _ => text,
    }
}

fn meaning_of(c: char) -> char
    ensures { result ≡ spec.meaning_of c }
{
    match c {
        't' => '\t',
        'n' => '\n',
        'r' => '\r',
        'f' => '\u{c}',
        _ => c,
    }
}

// The number of four hexadecimal digits in front.
fn code_unit(text: &[char]) -> Option<u32>
    ensures value { result ≡ spec.code_unit text.now }
    ensures room { IfSome result (λ _. 4 ≤ length text.now) }
    ensures small { IfSome result (λ unit. unit < 2 ^ 16) }
{
    let [a, b, c, d, ..] = text else {
        return None;
    };
    let high = a.to_digit(16)? * 16 + b.to_digit(16)?;
    let low = c.to_digit(16)? * 16 + d.to_digit(16)?;
    Some(high * 256 + low)
}

fn escaped_unit(text: &[char]) -> Option<u32>
    ensures value { result ≡ spec.escaped_unit text.now }
    ensures room { IfSome result (λ _. 6 ≤ length text.now) }
    ensures small { IfSome result (λ unit. unit < 2 ^ 16) }
{
    match text {
        ['\\', 'u', digits @ ..] => code_unit(digits),
        _ => None,
    }
}

fn is_high(unit: u32) -> bool
    ensures { result ≡ spec.is_high unit }
{
    unit >= 0xD800 && unit <= 0xDBFF
}

fn is_low(unit: u32) -> bool
    ensures { result ≡ spec.is_low unit }
{
    unit >= 0xDC00 && unit <= 0xDFFF
}

// The character of a high surrogate and the escaped low one that follows it at once.
fn paired(high: u32, after: &[char]) -> Option<(char, &[char])>
    requires { spec.is_high high ≡ true }
    ensures value { option_map character_of result
        ≡ spec.paired_character high after.now (spec.escaped_unit after.now) }
    ensures shorter { IfSome result (λ p. length p.1.now ≤ length after.now) }
{
    let low = escaped_unit(after)?;
    if !is_low(low) {
        return None;
    }
    let c = char::from_u32(0x10000 + (high - 0xD800) * 0x400 + (low - 0xDC00))?;
    Some((c, &after[6..]))
}

// The character of an escape, by what follows its backslash.
fn escape(text: &[char]) -> Option<(char, &[char])>
    ensures value { option_map character_of result ≡ spec.escape text.now }
    ensures shorter { IfSome result (λ p. length p.1.now ≤ length text.now) }
{
    let [letter, rest @ ..] = text else {
        return None;
    };
    if *letter != 'u' {
        return Some((meaning_of(*letter), rest));
    }
    let unit = code_unit(rest)?;
    let after = &rest[4..];
    if is_high(unit) {
        return paired(unit, after);
    }
    Some((char::from_u32(unit)?, after))
}

#[tactic(auto, unfolding(crate::specs::Properties::first_character))]
fn first_character(first: char, rest: &[char]) -> Option<(char, &[char])>
    ensures value { option_map character_of result ≡ spec.first_character first rest.now }
    ensures shorter { IfSome result (λ p. length p.1.now ≤ length rest.now) }
{
    if first == '\\' {
        return escape(rest);
    }
    Some((first, rest))
}

// The text without its escapes, where none is malformed.
fn unescape(alloc: Global, text: &[char]) -> Result<Option<String>, AllocError>
    ensures { IfOk result (λ found.
        option_map string_bytes found ≡ option_map encode_utf8_all (spec.without_escapes text.now)) }
{
    let mut out = String::new(alloc);
    let mut left = text;
    while let [first, rest @ ..] = left {
        match first_character(*first, rest) {
            Some((c, after)) => {
                out.push(c)?;
                left = after;
            }
            None => return Ok(None),
        }
    }
    Ok(Some(out))
}

/// The key and the value of a logical line, where no escape is malformed.
pub(crate) fn read_entry(
    alloc: Global,
    text: &[char],
) -> Result<Option<(String, String)>, AllocError>
    ensures { IfOk result (λ found. option_map entry_from found ≡ spec.key_value_of text.now) }
{
    let (key, rest) = text.split_at(key_length(text));
    let value = trimmed(without_mark(trimmed(rest)));
    let Some(key) = unescape(alloc, key)? else {
        return Ok(None);
    };
    let Some(value) = unescape(alloc, value)? else {
        return Ok(None);
    };
    Ok(Some((key, value)))
}
