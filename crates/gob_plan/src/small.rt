//! Text, bytes and lists that keep their allocator and that contracts see as lists.

ghost use Rattle.std.specs.Prelude.{◌≡◌, ◌++◌, ℕ, [], ◌∷◌, length, string_bytes, OnOk, OnErr, IfOk, IsTrue, ◌↔◌};

use crate::NoMemory;
use std::alloc::{AllocError, Global};
use std::fmt;
use std::marker::Model;

/// A text that grows at its end. Contracts see its bytes, which are UTF-8.
#[derive(Debug, Drop)]
pub struct Text {
    inner: String,
}

impl Model for Text {
    ghost use Rattle.std.specs.Prelude.{List, ℕ, string_bytes};

    ghost Value = { List ℕ };

    ghost view = { λ t. string_bytes t.inner };
}

impl Clone for Text {
    ghost is_clone = { λ text c. c ≡ text };

    fn clone(&self) -> Result<Self, AllocError> {
        let inner = String::from_str(*self.inner.allocator(), self.inner.as_str())?;
        Ok(Text { inner })
    }
}

impl Text {
    pub fn new(alloc: Global) -> Self
        ensures { result ≡ [] }
    {
        Text {
            inner: String::new(alloc),
        }
    }

    /// A copy of a lent text.
    pub fn from_str(alloc: Global, text: &str) -> Result<Self, NoMemory>
        ensures { IfOk result (λ t. t ≡ text.now) }
    {
        let inner = String::from_str(alloc, text)?;
        Ok(Text { inner })
    }

    /// The same text, without a copy.
    pub fn from_string(inner: String) -> Self
        ensures { result ≡ string_bytes inner }
    {
        Text { inner }
    }

    /// The same text, without a copy.
    pub fn into_string(self) -> String
        ensures { string_bytes result ≡ self }
    {
        self.inner
    }

    /// The number of bytes.
    pub fn len(&self) -> usize
        ensures { result ≡ length self.now }
    {
        self.inner.len()
    }

    pub fn is_empty(&self) -> bool
        ensures { IsTrue result ↔ (self.now ≡ []) }
    {
        self.inner.is_empty()
    }

    pub fn as_str(&self) -> &str
        ensures { result.now ≡ self.now }
    {
        self.inner.as_str()
    }

    /// Adds a text at the end. Without memory it stays as it was.
    pub fn push(&mut self, text: &str) -> Result<(), NoMemory>
        ensures ok { OnOk result (self.new ≡ self.old ++ text.now) }
        ensures err { OnErr result (self.new ≡ self.old) }
    {
        self.inner.push_str(text)?;
        Ok(())
    }

    pub fn copy(&self) -> Result<Self, NoMemory>
        ensures { IfOk result (λ t. t ≡ self.now) }
    {
        Ok(self.clone()?)
    }
}

impl fmt::Display for Text {
    fn fmt<W: fmt::Write>(&self, f: &mut fmt::Formatter<W>) -> fmt::Result {
        f.write_str(self.inner.as_str())
    }
}

/// Bytes that grow at their end.
#[derive(Drop)]
pub struct Bytes {
    inner: Vec<u8>,
}

impl Model for Bytes {
    ghost use Rattle.std.specs.Prelude.{List, ℕ};

    ghost Value = { List ℕ };

    ghost view = { λ b. b.inner.items };
}

impl Clone for Bytes {
    ghost is_clone = { λ bytes c. c ≡ bytes };

    fn clone(&self) -> Result<Self, AllocError> {
        let inner = Vec::from_slice(*self.inner.allocator(), self.inner.as_slice())?;
        Ok(Bytes { inner })
    }
}

impl Bytes {
    pub fn new(alloc: Global) -> Self
        ensures { result ≡ [] }
    {
        Bytes {
            inner: Vec::new(alloc),
        }
    }

    /// A copy of lent bytes.
    pub fn from_slice(alloc: Global, bytes: &[u8]) -> Result<Self, NoMemory>
        ensures { IfOk result (λ b. b ≡ bytes.now) }
    {
        let inner = Vec::from_slice(alloc, bytes)?;
        Ok(Bytes { inner })
    }

    /// The same bytes, without a copy.
    pub fn from_vec(inner: Vec<u8>) -> Self
        ensures { result ≡ inner.items }
    {
        Bytes { inner }
    }

    /// The same bytes, without a copy.
    pub fn into_vec(self) -> Vec<u8>
        ensures { result.items ≡ self }
    {
        self.inner
    }

    pub fn len(&self) -> usize
        ensures { result ≡ length self.now }
    {
        self.inner.len()
    }

    pub fn is_empty(&self) -> bool
        ensures { IsTrue result ↔ (self.now ≡ []) }
    {
        self.inner.is_empty()
    }

    pub fn as_slice(&self) -> &[u8]
        ensures { result.now ≡ self.now }
    {
        self.inner.as_slice()
    }

    /// Adds bytes at the end. Without memory it stays as it was.
    pub fn push(&mut self, bytes: &[u8]) -> Result<(), NoMemory>
        ensures ok { OnOk result (self.new ≡ self.old ++ bytes.now) }
        ensures err { OnErr result (self.new ≡ self.old) }
    {
        self.inner.extend_from_slice(bytes)?;
        Ok(())
    }

    pub fn copy(&self) -> Result<Self, NoMemory>
        ensures { IfOk result (λ b. b ≡ self.now) }
    {
        Ok(self.clone()?)
    }
}

/// A list that grows at its end. Its clone is one of each item; it has no `copy`, since an item's clone may differ from
/// the item.
#[derive(Drop)]
pub struct List<T> {
    inner: Vec<T>,
}

impl<T> Model for List<T> {
    ghost use Rattle.std.specs.Prelude.{List as Items};
    ghost use Rattle.std.specs.Coded.{coded_list};

    ghost Value = { Items T };

    ghost coded = { coded_list T.code };

    ghost view = { λ l. l.inner.items };
}

impl<T: Clone> Clone for List<T> {
    ghost use Rattle.std.specs.List.{AllZip};

    ghost is_clone = { AllZip T.is_clone };

    fn clone(&self) -> Result<Self, AllocError> {
        let inner = self.inner.clone()?;
        Ok(List { inner })
    }
}

impl<T> List<T> {
    pub fn new(alloc: Global) -> Self
        ensures { result ≡ [] }
    {
        List {
            inner: Vec::new(alloc),
        }
    }

    /// No items, and room for so many.
    pub fn with_capacity(alloc: Global, capacity: usize) -> Result<Self, NoMemory>
        ensures { IfOk result (λ l. l ≡ []) }
    {
        let inner = Vec::with_capacity(alloc, capacity)?;
        Ok(List { inner })
    }

    /// The same items, without a copy.
    pub fn from_vec(inner: Vec<T>) -> Self
        ensures { result ≡ inner.items }
    {
        List { inner }
    }

    /// The same items, without a copy.
    pub fn into_vec(self) -> Vec<T>
        ensures { result.items ≡ self }
    {
        self.inner
    }

    pub fn len(&self) -> usize
        ensures { result ≡ length self.now }
    {
        self.inner.len()
    }

    pub fn is_empty(&self) -> bool
        ensures { IsTrue result ↔ (self.now ≡ []) }
    {
        self.inner.is_empty()
    }

    pub fn as_slice(&self) -> &[T]
        ensures { result.now ≡ self.now }
    {
        self.inner.as_slice()
    }

    /// Where the list's memory comes from.
    pub fn allocator(&self) -> Global {
        *self.inner.allocator()
    }
}

impl<T: Drop> List<T> {
    /// Adds an item at the end. Without memory it stays as it was.
    pub fn push(&mut self, item: T) -> Result<(), NoMemory>
        ensures ok { OnOk result (self.new ≡ self.old ++ item ∷ []) }
        ensures err { OnErr result (self.new ≡ self.old) }
    {
        self.inner.push(item)?;
        Ok(())
    }
}
