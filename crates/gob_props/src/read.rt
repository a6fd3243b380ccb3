//! The reader of properties texts.
ghost use Rattle.std.specs.Prelude.{◌≡◌, ◌⊎◌, ◌+◌, ◌<◌, ◌≤◌, ◌^◌, List, ℕ, Ok, Err, length, IfOk, MatchResult};
ghost use Rattle.std.specs.Option.{option_copied};
ghost use Rattle.std.specs.Str.{chars};
ghost use Rattle.gob_props.specs.Properties as spec;
ghost use Rattle.gob_props.specs.Steps.{read_line};

use crate::entry::read_entry;
use crate::fault::PropsFault;
use crate::lines::{Joined, is_passed_over, join_lines, split_natural};
use crate::props::Props;
use std::alloc::{AllocError, Global};
use std::str;

// Puts the entry of a logical line that begins at this natural line.
fn put_line(alloc: Global, props: &mut Props, number: u64, text: &[char]) -> Result<(), PropsFault>
    ensures { MatchResult result
        (λ _. read_line props.old (record { number = number; text = text.now }) ≡ Ok props.new)
        (λ fault. (fault ≡ PropsFault.Memory)
        ⊎ (read_line props.old (record { number = number; text = text.now }) ≡ Err fault)) }
{
    if text.is_empty() {
        return Ok(());
    }
    let Some((key, value)) = read_entry(alloc, text)? else {
        return Err(PropsFault::BadEscape { line: number });
    };
    props.put(key, value)?;
    Ok(())
}

fn read_text(alloc: Global, text: &str) -> Result<Props, PropsFault>
    ensures { (result ≡ Err PropsFault.Memory) ⊎ (result ≡ spec.read_text (chars text.now)) }
{
    let mut props = Props::new(alloc);
    let mut number = 1;
    let mut left = Some(text);
    while let Some(rest) = left {
        let (line, others) = split_natural(rest);
        if is_passed_over(line) {
            number += 1;
            left = others;
            continue;
        }
        let Joined { text, count, after } = join_lines(alloc, line, others)?;
        put_line(alloc, &mut props, number, &text)?;
        number += count;
        left = after;
    }
    Ok(props)
}

/// Reads the text of a properties file. Of equal keys the last counts, in the place of the first.
pub fn read_props(alloc: Global, bytes: &[u8]) -> Result<Props, PropsFault>
    ensures { (result ≡ Err PropsFault.Memory) ⊎ (result ≡ spec.properties_of bytes.now) }
{
    let Ok(text) = str::from_utf8(bytes) else {
        return Err(PropsFault::NotUtf8);
    };
    read_text(alloc, text)
}
