//! Lines of a word and of numbers, each behind one space.
ghost use Rattle.std.specs.Prelude.{◌≡◌, ◌<◌, ◌^◌, ◌∷◌, [], codes};
ghost use Rattle.gob_bytes.specs.Words.{numbered_line};
ghost use Rattle.gob_text.specs.Words.{EndsWord, GoesOnAtAll};
ghost use Rattle.gob_state.specs.Reads.{ReadsSpelling, spaced_number, spaced_last, spaced_pair, spaced_triple};
ghost use Rattle.gob_state.specs.Reads.{spaced_four};
ghost use Rattle.gob_state.specs.Reads.{SmallPair, SmallTriple, SmallFour};

use gob_text::Words;

// A number that isn't the last word of its line.
fn take_inner(text: &mut Words) -> Option<u64>
    ensures { ReadsSpelling spaced_number (λ n. n < 2 ^ 64) EndsWord text.old text.new result }
{
    if !text.take_text(b" ") {
        return None;
    }
    text.take_number()
}

/// The last number of a line, with the line's end.
pub(crate) fn take_last(text: &mut Words) -> Option<u64>
    ensures { ReadsSpelling spaced_last (λ n. n < 2 ^ 64) GoesOnAtAll text.old text.new result }
{
    let number = take_inner(text)?;
    if !text.take_text(b"\n") {
        return None;
    }
    Some(number)
}

/// The last two numbers of a line, with the line's end.
pub(crate) fn take_pair(text: &mut Words) -> Option<(u64, u64)>
    ensures { ReadsSpelling spaced_pair SmallPair GoesOnAtAll text.old text.new result }
{
    let first = take_inner(text)?;
    let second = take_last(text)?;
    Some((first, second))
}

/// The last three numbers of a line, with the line's end.
pub(crate) fn take_triple(text: &mut Words) -> Option<(u64, u64, u64)>
    ensures { ReadsSpelling spaced_triple SmallTriple GoesOnAtAll text.old text.new result }
{
    let first = take_inner(text)?;
    let (second, third) = take_pair(text)?;
    Some((first, second, third))
}

/// The last four numbers of a line, with the line's end.
pub(crate) fn take_four(text: &mut Words) -> Option<(u64, u64, u64, u64)>
    ensures { ReadsSpelling spaced_four SmallFour GoesOnAtAll text.old text.new result }
{
    let first = take_inner(text)?;
    let (second, third, fourth) = take_triple(text)?;
    Some((first, second, third, fourth))
}

/// A line of this word and a number.
pub fn take_numbered(text: &mut Words, word: &[u8]) -> Option<u64>
    ensures { ReadsSpelling (λ n. numbered_line word.now (n ∷ []))
        (λ n. n < 2 ^ 64) GoesOnAtAll text.old text.new result }
{
    if !text.take_text(word) {
        return None;
    }
    take_last(text)
}
