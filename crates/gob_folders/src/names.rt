//! Names below a folder, and the paths that they stand for.

ghost use Rattle.std.specs.Prelude.{◌≡◌, string_bytes, IfOk, MatchBool, MatchOption};
ghost use Rattle.gob_folders.specs.Names as names;
ghost use Rattle.gob_folders.specs.Names.{HasNoSlash, IsSplitAt};

use std::alloc::{AllocError, Global};

/// The longest component of a name, in bytes.
const LONGEST_COMPONENT: usize = 255;

/// Whether a file may have this name. No other name reaches the file system.
pub fn is_name(name: &str) -> bool
    ensures { result ≡ names.is_name name.now }
{
    name.split('/').all(|part| is_component(part))
}

#[tactic(auto, unfolding(crate::specs::Names::is_component))]
fn is_component(part: &str) -> bool
    ensures { result ≡ names.is_component part.now }
{
    !part.is_empty()
        && part != "."
        && part != ".."
        && part.len() <= LONGEST_COMPONENT
        && has_no_nul(part.as_bytes())
}

fn has_no_nul(bytes: &[u8]) -> bool
    ensures { result ≡ names.has_no_nul bytes.now }
{
    bytes.iter().all(|b| *b != 0)
}

// What lies before the last slash and behind it; None where there is no slash.
fn split_last(text: &str) -> Option<(&str, &str)>
    ensures { MatchOption result (HasNoSlash text.now) (λ parts. IsSplitAt text.now parts.0.now parts.1.now) }
{
    text.rsplit_once('/')
}

/// Whether names may begin so: what lies before the last slash is the name of a folder.
pub fn is_front(front: &str) -> bool
    ensures { MatchBool result (names.IsFront front.now) (names.IsNoFront front.now) }
{
    match split_last(front) {
        Some((folder, _)) => is_name(folder),
        None => true,
    }
}

/// The folder that a name lies in; the root has no name.
pub fn folder_of(name: &str) -> &str
    ensures { names.IsFolderOf name.now result.now }
{
    match split_last(name) {
        Some((folder, _)) => folder,
        None => "",
    }
}

/// The folder that a path lies in.
pub fn parent_of(path: &str) -> &str
    ensures { names.IsParentOf path.now result.now }
{
    match split_last(path) {
        Some(("", _)) => "/",
        Some((parent, _)) => parent,
        None => ".",
    }
}

/// A name in a folder; a folder without a name is the one that names begin at.
pub fn below(alloc: Global, folder: &str, name: &str) -> Result<String, AllocError>
    ensures { IfOk result (λ path. string_bytes path ≡ names.below folder.now name.now) }
{
    let mut path = String::from_str(alloc, folder)?;
    if !folder.is_empty() && !name.is_empty() {
        path.push('/')?;
    }
    path.push_str(name)?;
    Ok(path)
}
