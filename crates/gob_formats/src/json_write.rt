//! Rows as objects of json.
ghost use Rattle.std.specs.Prelude.{◌≡◌, ◌++◌, ◌∷◌, ◌<◌, false, map, IfOk, OnOk};
ghost use Rattle.std.specs.Char.{digit_char};
ghost use Rattle.json.specs.Print.{escape_letter, escape_byte, escape, quoted};
ghost use Rattle.serde_json.specs.Written.{compact_text};
ghost use Rattle.gob_meaning.specs.Formats.{value_data};
ghost use Rattle.gob_formats.specs.Adding.{KeepsFront};
ghost use Rattle.gob_formats.specs.Escapes.{is_escaped, needs_escape};
ghost use Rattle.gob_formats.specs.Members.{named_place, put_name, names_from, key_text, keyed_members, column_value};
ghost use Rattle.gob_formats.specs.Members.{members_written};

use crate::adding::{add, write_int};
use gob_plan::{Bytes, Column, List, NoMemory, Value};
use std::alloc::{AllocError, Global};
use std::cmp::Ordering;

/// A member of each record: what stands before its value, and the column that its value is of.
#[derive(Drop)]
pub(crate) struct Member {
    pub(crate) key: Bytes,
    pub(crate) index: usize,
}

// A column's name and number.
#[derive(Clone, Copy)]
struct Place<'a> {
    name: &'a str,
    index: usize,
}

/// The members of records of these columns, in byte order of names.
pub(crate) fn members_for(alloc: Global, columns: &[Column]) -> Result<List<Member>, NoMemory>
    ensures { IfOk result (λ ms. ms ≡ keyed_members false (names_from 0 columns.now)) }
{
    let places = places_for(alloc, columns)?;
    let mut members = Vec::with_capacity(alloc, places.len())?;
    let mut later = false;
    for place in &places {
        members.push(keyed_member(alloc, later, *place)?)?;
        later = true;
    }
    Ok(List::from_vec(members))
}

fn places_for<'a>(alloc: Global, columns: &'a [Column]) -> Result<Vec<Place<'a>>, AllocError>
    ensures { IfOk result (λ ps. map named_place ps.items ≡ names_from 0 columns.now) }
{
    let mut places = Vec::with_capacity(alloc, columns.len())?;
    for index in (0..columns.len()).rev() {
        let name = columns[index].name.as_str();
        put(&mut places, Place { name, index })?;
    }
    Ok(places)
}

// Each name goes to its place among those that are there.
fn put<'a>(places: &mut Vec<Place<'a>>, new: Place<'a>) -> Result<(), AllocError>
    ensures { OnOk result (map named_place places.new.items
        ≡ put_name new.entry.name.now new.entry.index (map named_place places.old.items)) }
{
    for at in 0..places.len() {
        match new.name.cmp(places[at].name) {
            Ordering::Less => {
                places.insert(at, new)?;
                return Ok(());
            }
            Ordering::Equal => {
                places[at].index = new.index;
                return Ok(());
            }
            Ordering::Greater => {}
        }
    }
    places.push(new)?;
    Ok(())
}

fn keyed_member(alloc: Global, later: bool, place: Place<'_>) -> Result<Member, AllocError>
    ensures { IfOk result
        (λ m. m ≡ record { key = key_text later place.entry.name.now; index = place.entry.index }) }
{
    let mut key = Vec::new(alloc);
    if later {
        key.push(b',')?;
    }
    write_string(place.name.as_bytes(), &mut key)?;
    key.push(b':')?;
    Ok(Member {
        key: Bytes::from_vec(key),
        index: place.index,
    })
}

/// Adds the object of these members and values, with a line feed.
pub(crate) fn write_object(
    members: &[Member],
    values: &[Value],
    into: &mut Vec<u8>,
) -> Result<(), AllocError>
    ensures ok { OnOk result
        (into.new.items ≡ into.old.items ++ 123 ∷ members_written members.now values.now) }
    ensures keeps { KeepsFront into.old.items into.new.items }
{
    into.push(b'{')?;
    for member in members {
        add(member.key.as_slice(), into)?;
        write_member(values, member.index, into)?;
    }
    add(b"}\n", into)
}

fn write_member(values: &[Value], index: usize, into: &mut Vec<u8>) -> Result<(), AllocError>
    ensures ok { OnOk result (into.new.items
        ≡ into.old.items ++ compact_text (value_data (column_value index values.now))) }
    ensures keeps { KeepsFront into.old.items into.new.items }
{
    match values.get(index) {
        Some(value) => write_value(value, into),
        None => add(b"null", into),
    }
}

fn write_value(value: &Value, into: &mut Vec<u8>) -> Result<(), AllocError>
    ensures ok { OnOk result (into.new.items ≡ into.old.items ++ compact_text (value_data value.now)) }
    ensures keeps { KeepsFront into.old.items into.new.items }
{
    match value {
        Value::Null => add(b"null", into),
        Value::Bool(true) => add(b"true", into),
        Value::Bool(false) => add(b"false", into),
        Value::Int(n) => write_int(*n, into),
        Value::Text(text) => write_string(text.as_str().as_bytes(), into),
    }
}

fn write_string(text: &[u8], into: &mut Vec<u8>) -> Result<(), AllocError>
    ensures ok { OnOk result (into.new.items ≡ into.old.items ++ quoted text.now) }
    ensures keeps { KeepsFront into.old.items into.new.items }
{
    into.push(b'"')?;
    write_content(text, into)?;
    into.push(b'"')?;
    Ok(())
}

// What stands between the quotes.
fn write_content(text: &[u8], into: &mut Vec<u8>) -> Result<(), AllocError>
    ensures ok { OnOk result (into.new.items ≡ into.old.items ++ escape text.now) }
    ensures keeps { KeepsFront into.old.items into.new.items }
{
    if !needs_escape(text) {
        return add(text, into);
    }
    write_escaped(text, into)
}

// The whole text is looked through: a loop without an early exit goes many bytes at a time.
fn needs_escape(text: &[u8]) -> bool
    ensures { result ≡ needs_escape text.now }
{
    let mut found = false;
    for b in text {
        found |= is_escaped(*b);
    }
    found
}

#[inline(always)]
fn is_escaped(b: u8) -> bool
    ensures { result ≡ is_escaped b }
{
    (b == b'"') | (b == b'\\') | (b < 0x20)
}

fn write_escaped(text: &[u8], into: &mut Vec<u8>) -> Result<(), AllocError>
    ensures ok { OnOk result (into.new.items ≡ into.old.items ++ escape text.now) }
    ensures keeps { KeepsFront into.old.items into.new.items }
{
    for b in text {
        write_byte(*b, into)?;
    }
    Ok(())
}

#[tactic(auto, unfolding(json::specs::Print::escape_byte))]
fn write_byte(b: u8, into: &mut Vec<u8>) -> Result<(), AllocError>
    ensures ok { OnOk result (into.new.items ≡ into.old.items ++ escape_byte b) }
    ensures keeps { KeepsFront into.old.items into.new.items }
{
    let letter = escape_letter(b);
    if letter > 0 {
        return add(&[b'\\', letter], into);
    }
    if b < 0x20 {
        return add(
            &[
                b'\\',
                b'u',
                b'0',
                b'0',
                hex_digit(b / 16),
                hex_digit(b % 16),
            ],
            into,
        );
    }
    add(&[b], into)
}

// The letter of the short escape, or 0 where the byte has none.
fn escape_letter(b: u8) -> u8
    ensures { result ≡ escape_letter b }
{
    match b {
        b'"' | b'\\' => b,
        0x08 => b'b',
        0x0c => b'f',
        b'\n' => b'n',
        b'\r' => b'r',
        b'\t' => b't',
        _ => 0,
    }
}

fn hex_digit(digit: u8) -> u8
    requires { digit < 16 }
    ensures { result ≡ digit_char digit }
{
    if digit < 10 {
        b'0' + digit
    } else {
        b'a' - 10 + digit
    }
}
