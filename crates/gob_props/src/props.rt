//! Keys and values, in the order of the keys.
use indexmap::IndexMap;
use std::alloc::{AllocError, Global};
use std::marker::Model;

/// The properties of a file: each key once, in the order of the keys' first places. A contract sees the pairs of a
/// key's and a value's bytes.
#[derive(Drop)]
pub struct Props {
    entries: IndexMap<String, String>,
}

impl Model for Props {
    ghost use Rattle.std.specs.Prelude.{List, ℕ, map};
    ghost use Rattle.gob_props.specs.Steps.{entry_from};

    ghost Value = { List (List ℕ × List ℕ) };

    ghost view = { λ p. map entry_from p.entries.entries };
}

impl Props {
    ghost use Rattle.std.specs.Prelude.{◌≡◌, ◌↔◌, [], length, string_bytes, slice_get, IsTrue, OnOk};
    ghost use Rattle.std.specs.Option.{option_copied, option_map};
    ghost use Rattle.gob_bytes.specs.Tables.{at_name};
    ghost use Rattle.gob_props.specs.Properties.{with_entry};

    pub(crate) fn new(alloc: Global) -> Self
        ensures { result ≡ [] }
    {
        Props {
            entries: IndexMap::new(alloc),
        }
    }

    /// Sets the value of a key: one that is there keeps its place, another goes last.
    pub(crate) fn put(&mut self, key: String, value: String) -> Result<(), AllocError>
        ensures { OnOk result
            (self.new ≡ with_entry self.old (string_bytes key, string_bytes value)) }
    {
        self.entries.insert(key, value)?;
        Ok(())
    }

    pub fn get(&self, key: &str) -> Option<&str>
        ensures { option_copied result ≡ at_name self.now key.now }
    {
        Some(self.entries.get(key)?.as_str())
    }

    /// How many keys there are.
    pub fn len(&self) -> usize
        ensures { result ≡ length self.now }
    {
        self.entries.len()
    }

    pub fn is_empty(&self) -> bool
        ensures { IsTrue result ↔ (self.now ≡ []) }
    {
        self.entries.is_empty()
    }

    /// The key at a place, from 0.
    pub fn key_at(&self, i: usize) -> Option<&str>
        ensures { option_copied result ≡ option_map (λ e. e.0) (slice_get self.now i) }
    {
        let (key, _) = self.entries.get_index(i)?;
        Some(key.as_str())
    }
}
