//! Natural lines, and the logical lines that they make.
ghost use Rattle.std.specs.Prelude.{◌≡◌, ◌+◌, ◌<◌, ◌≤◌, ◌++◌, ◌∷◌, ℕ, List, [], length, IfOk};
ghost use Rattle.std.specs.Str.{chars};
ghost use Rattle.gob_props.specs.Properties as spec;
ghost use Rattle.gob_props.specs.Steps.{behind_line_end, later_lines, lines_left, most_lines};

use gob_plan::split_first;
use std::alloc::{AllocError, Global};

const LINE_ENDS: [char; 2] = ['\n', '\r'];

pub(crate) fn is_blank(c: char) -> bool
    ensures { result ≡ spec.is_white_space c }
{
    c == ' ' || c == '\t' || c == '\u{c}'
}

// The text without the white space in front.
fn trimmed(text: &str) -> &str
    ensures { chars result.now ≡ spec.without_white_space (chars text.now) }
{
    let mut left = text;
    while let Some((first, rest)) = split_first(left) {
        if !is_blank(first) {
            return left;
        }
        left = rest;
    }
    left
}

// What follows the line end in front.
fn after_end(text: &str) -> &str
    ensures rest { chars result.now ≡ behind_line_end (chars text.now) }
    ensures shorter { 0 < length text.now → length result.now < length text.now }
{
    let Some((first, rest)) = split_first(text) else {
        return text;
    };
    match split_first(rest) {
        Some((second, after)) if first == '\r' && second == '\n' => after,
        _ => rest,
    }
}

/// The first natural line, and what follows its end where it has one.
pub(crate) fn split_natural(text: &str) -> (&str, Option<&str>)
    ensures lines { spec.natural_lines (chars text.now) ≡ chars result.0.now ∷ lines_left result.1 }
    ensures fewer { most_lines result.1 ≤ length text.now }
{
    match text.find(LINE_ENDS) {
        Some(end) => {
            let (line, rest) = text.split_at(end);
            (line, Some(after_end(rest)))
        }
        None => (text, None),
    }
}

/// Whether the natural line is blank or a comment, and so begins no logical line.
pub(crate) fn is_passed_over(line: &str) -> bool
    ensures { result ≡ spec.is_passed_over (chars line.now) }
{
    match split_first(trimmed(line)) {
        Some((first, _)) => first == '#' || first == '!',
        None => true,
    }
}

// Adds what the natural line adds to its logical line, and answers whether the next one goes on with it. So it does
// after an odd number of backslashes, of which the last is taken off again.
fn push_part(text: &mut Vec<char>, line: &str) -> Result<bool, AllocError>
    ensures more { IfOk result (λ more. more ≡ spec.goes_on (chars line.now)) }
    ensures text { IfOk result (λ _. text.new.items ≡ text.old.items ++ spec.part_of (chars line.now)) }
{
    let mut odd = false;
    for c in trimmed(line).chars() {
        text.push(c)?;
        odd = c == '\\' && !odd;
    }
    if odd {
        let _ = text.pop();
    }
    Ok(odd)
}

/// A logical line, with how many natural lines it has and what follows them.
#[derive(Drop)]
pub(crate) struct Joined<'a> {
    pub(crate) text: Vec<char>,
    pub(crate) count: u64,
    pub(crate) after: Option<&'a str>,
}

/// The logical line that the natural line begins, with those of the lines after it that go on with it.
pub(crate) fn join_lines<'a>(
    alloc: Global,
    line: &str,
    after: Option<&'a str>,
) -> Result<Joined<'a>, AllocError>
    ensures joined { IfOk result (λ j. (n : ℕ) →
        later_lines (spec.goes_on (chars line.now))
        (spec.with_line (record { number = n; text = [] }) (chars line.now))
        (n + 1) (lines_left after.entry)
        ≡ record { number = n; text = j.text.items }
        ∷ spec.logical_from None (n + j.count) (lines_left j.after)) }
    ensures some { IfOk result (λ j. 0 < j.count) }
    ensures fewer { IfOk result (λ j. j.count + most_lines j.after ≤ 1 + most_lines after.entry) }
{
    let mut text = Vec::new(alloc);
    let mut more = push_part(&mut text, line)?;
    let mut count = 1;
    let mut left = after;
    while more {
        let Some(rest) = left else {
            return Ok(Joined {
                text,
                count,
                after: None,
            });
        };
        let (next, others) = split_natural(rest);
        more = push_part(&mut text, next)?;
        count += 1;
        left = others;
    }
    Ok(Joined {
        text,
        count,
        after: left,
    })
}
