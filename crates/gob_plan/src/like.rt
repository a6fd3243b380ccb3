//! Patterns of a text: `*` stands for any characters, `?` for one, all else for itself.

ghost use Rattle.std.specs.Prelude.{◌≡◌, ◌<◌, ◌||◌, ◌∷◌, [], nat_eq, length, MatchOption};
ghost use Rattle.std.specs.Str.{chars};
ghost use Rattle.gob_plan.specs.Tests.{like, matches};
ghost use Rattle.gob_plan.specs.Patterns.{GoesAlong};

/// The first character of a text, and what follows it.
pub fn split_first(text: &str) -> Option<(char, &str)>
    ensures { MatchOption result (text.now ≡ []) (λ p.
        (chars text.now ≡ p.0 ∷ chars p.1.now) × (length p.1.now < length text.now)) }
{
    let mut characters = text.char_indices();
    let (_, first) = characters.next()?;
    Some((first, characters.as_str()))
}

/// Whether a character of a pattern, no star, stands for this one.
fn stands_for(p: char, c: char) -> bool
    ensures { result ≡ (nat_eq p 63 || nat_eq p c) }
{
    p == '?' || p == c
}

/// How far a pattern goes along with a text.
enum Front<'a> {
    /// Up to its first star; what follows the star, and what is left of the text.
    Star(&'a str, &'a str),
    /// It has no star before this was known: whether it matches the whole text.
    Ended(bool),
}

fn go_along<'a>(pattern: &'a str, text: &'a str) -> Front<'a>
    ensures { GoesAlong pattern.entry.now text.entry.now result }
{
    let mut pattern = pattern;
    let mut text = text;
    while let Some((p, after)) = split_first(pattern) {
        if p == '*' {
            return Front::Star(after, text);
        }
        let Some((c, rest)) = split_first(text) else {
            return Front::Ended(false);
        };
        if !stands_for(p, c) {
            return Front::Ended(false);
        }
        pattern = after;
        text = rest;
    }
    Front::Ended(split_first(text).is_none())
}

/// Whether the pattern matches some ending of the text. What comes before a star is looked for once: where it stands
/// first, the star reaches all that it would reach from any later place.
fn is_like_some_ending(pattern: &str, text: &str) -> bool
    ensures { result ≡ matches (42 ∷ chars pattern.entry.now) (chars text.entry.now) }
{
    let mut pattern = pattern;
    let mut text = text;
    loop {
        match go_along(pattern, text) {
            Front::Star(after, rest) => {
                pattern = after;
                text = rest;
            }
            Front::Ended(true) => return true,
            Front::Ended(false) => match split_first(text) {
                Some((_, rest)) => text = rest,
                None => return false,
            },
        }
    }
}

/// Whether the whole text matches the pattern, in no memory and in at most the product of their lengths.
pub(crate) fn is_like(pattern: &str, text: &str) -> bool
    ensures { result ≡ like pattern.now text.now }
{
    match go_along(pattern, text) {
        Front::Star(after, rest) => is_like_some_ending(after, rest),
        Front::Ended(matches) => matches,
    }
}
