//! A reader of lines of words.
ghost use Rattle.std.specs.Prelude.{◌≡◌, ◌≢◌, ◌↔◌, ◌<◌, ◌^◌, ◌++◌, ◌∷◌, [], ℕ, List, IsTrue, OnErr, IfOk, MatchOption};
ghost use Rattle.std.specs.Fmt.{decimal};
ghost use Rattle.std.specs.Option.{option_copied, option_map};
ghost use Rattle.std.specs.String.{string_bytes};
ghost use Rattle.gob_bytes.specs.Escapes.{escape_of};
ghost use Rattle.gob_text.specs.Words.{EndsWord, GoesOnAtAll, HasNoBreak, IsLine, IsName, IsWord, Takes, TakesText};

use crate::front::after_front;
use crate::names::unescape;
use crate::numbers::read_u64;
use memchr::{memchr, memchr2};
use std::alloc::{AllocError, Global};
use std::marker::Model;

/// A text from which words, numbers, names and lines are taken, from its front. A contract sees
/// the text that is left.
#[derive(Drop)]
pub struct Words<'a> {
    rest: &'a [u8],
}

impl<'a> Model for Words<'a> {
    ghost Value = { List ℕ };

    ghost view = { λ w. w.rest.now };
}

// The bytes before the first space or line feed, and the others.
fn split_word(text: &[u8]) -> (&[u8], &[u8])
    ensures whole { text.now ≡ result.0.now ++ result.1.now }
    ensures word { HasNoBreak result.0.now }
    ensures ends { EndsWord result.1.now }
{
    match memchr2(b' ', b'\n', text) {
        Some(end) => text.split_at(end),
        None => text.split_at(text.len()),
    }
}

// The line before the first line feed, and what follows that line feed.
fn split_line(text: &[u8]) -> Option<(&[u8], &[u8])>
    ensures { MatchOption result
        ((line after : List ℕ) → IsLine line → text.now ≢ (line ++ 10 ∷ []) ++ after)
        (λ parts. IsLine parts.0.now × (text.now ≡ (parts.0.now ++ 10 ∷ []) ++ parts.1.now)) }
{
    let end = memchr(b'\n', text)?;
    let (line, _) = text.split_at(end);
    let (_, rest) = text.split_at(end + 1);
    Some((line, rest))
}

impl<'a> Words<'a> {
    pub fn new(text: &'a [u8]) -> Self
        ensures { result ≡ text.now }
    {
        Words { rest: text }
    }

    /// Whether nothing is left.
    pub fn is_done(&self) -> bool
        ensures { IsTrue result ↔ (self.now ≡ []) }
    {
        self.rest.is_empty()
    }

    /// Takes this text, and answers whether it stood at the front.
    pub fn take_text(&mut self, text: &[u8]) -> bool
        ensures { TakesText text.now self.old self.new result }
    {
        match after_front(self.rest, text) {
            Some(rest) => {
                self.rest = rest;
                true
            }
            None => false,
        }
    }

    /// Takes a line with its line feed, and answers the line without it.
    pub fn take_line(&mut self) -> Option<&'a [u8]>
        ensures { Takes (λ line. line ++ 10 ∷ []) IsLine GoesOnAtAll
            self.old self.new (option_copied result) }
    {
        let (line, rest) = split_line(self.rest)?;
        self.rest = rest;
        Some(line)
    }

    /// Takes a word: what stands before a space, a line feed or the end.
    pub fn take_word(&mut self) -> Option<&'a [u8]>
        ensures { Takes (λ word. word) IsWord EndsWord self.old self.new (option_copied result) }
    {
        let (word, rest) = split_word(self.rest);
        if word.is_empty() {
            return None;
        }
        self.rest = rest;
        Some(word)
    }

    /// Takes a word that is a number in its one form.
    pub fn take_number(&mut self) -> Option<u64>
        ensures { Takes decimal (λ n. n < 2 ^ 64) EndsWord self.old self.new result }
    {
        let (word, rest) = split_word(self.rest);
        let number = read_u64(word)?;
        self.rest = rest;
        Some(number)
    }

    /// Takes a word that is the spelling of a name.
    pub fn take_name(&mut self, alloc: Global) -> Result<Option<String>, AllocError>
        ensures ok { IfOk result (λ taken.
            Takes escape_of IsName EndsWord self.old self.new (option_map string_bytes taken)) }
        ensures err { OnErr result (self.new ≡ self.old) }
    {
        let (word, rest) = split_word(self.rest);
        match name_of(alloc, word)? {
            Some(name) => {
                self.rest = rest;
                Ok(Some(name))
            }
            None => Ok(None),
        }
    }
}

// The name that the word is the spelling of.
fn name_of(alloc: Global, word: &[u8]) -> Result<Option<String>, AllocError>
    ensures { IfOk result (λ found. MatchOption found
        ((name : List ℕ) → IsName name → escape_of name ≢ word.now)
        (λ name. IsName (string_bytes name) × (escape_of (string_bytes name) ≡ word.now))) }
{
    if word.is_empty() {
        return Ok(None);
    }
    match unescape(alloc, word)? {
        Some(bytes) => Ok(String::from_utf8(bytes).ok()),
        None => Ok(None),
    }
}
