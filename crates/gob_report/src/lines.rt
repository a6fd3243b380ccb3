//! Lines of words, parted by one space.
ghost use Rattle.std.specs.Prelude.{◌≡◌, ◌++◌, ◌∷◌, map, OnOk};
ghost use Rattle.gob_bytes.specs.Words.{words};
ghost use Rattle.gob_report.specs.Lines.{spaced_words, word_text};

use gob_text::{push_escaped, push_u64};
use std::alloc::AllocError;

/// A word of a line.
#[derive(Clone, Copy)]
pub(crate) enum Word<'a> {
    /// As it stands.
    Plain(&'a str),
    /// A name, which is escaped.
    Name(&'a str),
    /// A number, in decimal digits.
    Number(u64),
}

// A word, with a space before it.
fn push_word(into: &mut Vec<u8>, word: Word<'_>) -> Result<(), AllocError>
    ensures { OnOk result (into.new.items ≡ into.old.items ++ 32 ∷ word_text word.entry) }
{
    into.push(b' ')?;
    match word {
        Word::Plain(text) => into.extend_from_slice(text.as_bytes()),
        Word::Name(name) => push_escaped(into, name),
        Word::Number(n) => push_u64(into, n),
    }
}

/// Adds words, each with a space before it.
pub(crate) fn push_words(into: &mut Vec<u8>, words: &[Word<'_>]) -> Result<(), AllocError>
    ensures { OnOk result (into.new.items ≡ into.old.items ++ spaced_words words.now) }
{
    for word in words {
        push_word(into, *word)?;
    }
    Ok(())
}

/// Adds a line of a first word and others.
pub(crate) fn push_line(
    into: &mut Vec<u8>,
    first: &str,
    others: &[Word<'_>],
) -> Result<(), AllocError>
    ensures { OnOk result (into.new.items ≡ into.old.items ++ words first.now (map word_text others.now)) }
{
    into.extend_from_slice(first.as_bytes())?;
    push_words(into, others)?;
    into.push(b'\n')?;
    Ok(())
}

/// Adds a line of a first word, of others and of those behind them.
pub(crate) fn push_long_line(
    into: &mut Vec<u8>,
    first: &str,
    others: &[Word<'_>],
    last: &[Word<'_>],
) -> Result<(), AllocError>
    ensures { OnOk result (into.new.items
        ≡ into.old.items ++ words first.now (map word_text others.now ++ map word_text last.now)) }
{
    into.extend_from_slice(first.as_bytes())?;
    push_words(into, others)?;
    push_words(into, last)?;
    into.push(b'\n')?;
    Ok(())
}
