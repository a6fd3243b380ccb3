//! Versions of files.
ghost use Rattle.std.specs.Prelude.{◌≡◌, ◌∷◌, []};
ghost use Rattle.gob_bytes.specs.Words.{numbered_line};
ghost use Rattle.gob_ledger.specs.Spelling.{version_number};
ghost use Rattle.gob_text.specs.Words.{GoesOnAtAll};
ghost use Rattle.gob_state.specs.Reads.{ReadsSpelling};
ghost use Rattle.gob_state.specs.Versions.{AnyVersion, version_line, version_of};

use crate::lines::take_numbered;
use gob_text::Words;

/// In which form a state's file or a change's is spelled: the first tells one pipeline, the second any number.
#[derive(Clone, Copy, PartialEq, Eq)]
pub enum Version {
    First,
    Second,
}

/// Takes the first line of a file of this kind.
pub fn take_version(text: &mut Words, kind: &[u8]) -> Option<Version>
    ensures { ReadsSpelling (version_line kind.now) AnyVersion GoesOnAtAll text.old text.new result }
{
    match take_numbered(text, kind)? {
        1 => Some(Version::First),
        2 => Some(Version::Second),
        _ => None,
    }
}
