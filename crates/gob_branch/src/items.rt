//! What a line makes, item by item, in buffers that serve the next line too.
ghost use Rattle.std.specs.Prelude.{◌≡◌, ◌<◌, ◌≤◌, ◌++◌, [], ◌∷◌, length, take, OnErr, OnOk, Some};
ghost use Rattle.std.specs.Str.{IsUtf8};
ghost use Rattle.std.specs.List.{slice_get};
ghost use Rattle.gob_meaning.specs.Fold.{first_kill};
ghost use Rattle.gob_branch.specs.ItemSpans.{bytes_between, item_value};

use gob_plan::NoMemory;
use std::alloc::Global;
use std::marker::Model;
use std::str;

/// What becomes of a row in a branch.
#[derive(Clone, Copy, Debug, PartialEq, Eq)]
pub enum ItemEnd {
    /// Its record is published.
    Written,
    /// Its record goes to the branch's error file.
    Error,
    /// It fails the unit, by the policy with this index.
    Killed { policy: u32 },
}

/// What one row made in a branch.
#[derive(Clone, Copy)]
pub struct Item<'a> {
    pub branch: u32,
    /// How many optional policies failed.
    pub optional: u32,
    pub end: ItemEnd,
    /// The folder in the branch: empty, or with a `/` at its end.
    pub place: &'a str,
    /// The record with its line feed; nothing of a row that is killed.
    pub record: &'a [u8],
}

/// An item's place and behind it its record, by where they stand in the buffer.
#[derive(Clone, Copy)]
struct Span {
    branch: u32,
    optional: u32,
    end: ItemEnd,
    place_start: usize,
    place_end: usize,
    record_end: usize,
}

/// What the rows of a line make, in order.
#[derive(Drop)]
pub struct LineItems {
    bytes: Vec<u8>,
    spans: Vec<Span>,
}

impl Model for LineItems {
    ghost use Rattle.std.specs.Prelude.{List};
    ghost use Rattle.gob_meaning.specs.Items.{RowMade};
    ghost use Rattle.gob_branch.specs.ItemSpans.{ItemsAreWithin, rows_made};

    ghost Value = { List RowMade };

    ghost view = { λ l. rows_made l.bytes.items l.spans.items };

    ghost invariant = { λ l. ItemsAreWithin l.bytes.items l.spans.items };
}

impl LineItems {
    pub fn new(alloc: Global) -> LineItems
        ensures { result ≡ [] }
    {
        LineItems {
            bytes: Vec::new(alloc),
            spans: Vec::new(alloc),
        }
    }

    pub fn clear(&mut self)
        ensures { self.new ≡ [] }
    {
        self.bytes.clear();
        self.spans.clear();
    }

    /// Leaves so many items.
    pub fn truncate(&mut self, count: usize)
        ensures { self.new ≡ take count self.old }
    {
        self.spans.truncate(count);
    }

    pub fn len(&self) -> usize
        ensures { result ≡ length self.now }
    {
        self.spans.len()
    }

    /// Adds an item at the end. Without memory they stay as they were.
    pub fn push(&mut self, item: Item<'_>) -> Result<(), NoMemory>
        ensures ok { OnOk result (self.new ≡ self.old ++ item_value item.entry ∷ []) }
        ensures err { OnErr result (self.new ≡ self.old) }
    {
        let start = self.bytes.len();
        self.bytes.extend_from_slice(item.place.as_bytes())?;
        let place_end = self.bytes.len();
        if let Err(_) = self.bytes.extend_from_slice(item.record) {
            self.bytes.truncate(start);
            return Err(NoMemory);
        }
        let span = Span {
            branch: item.branch,
            optional: item.optional,
            end: item.end,
            place_start: start,
            place_end,
            record_end: self.bytes.len(),
        };
        if let Err(_) = self.spans.push(span) {
            self.bytes.truncate(start);
            return Err(NoMemory);
        }
        Ok(())
    }

    /// The item at this place.
    pub fn get(&self, place: usize) -> Item<'_>
        requires { place < length self.now }
        ensures { slice_get self.now place ≡ Some (item_value result) }
    {
        let span = self.spans[place];
        let bytes = self.bytes.as_slice();
        Item {
            branch: span.branch,
            optional: span.optional,
            end: span.end,
            place: text_of(part(bytes, span.place_start, span.place_end)),
            record: part(bytes, span.place_end, span.record_end),
        }
    }

    /// The branch and the policy of the first row that is killed.
    pub fn first_kill(&self) -> Option<(u32, u32)>
        ensures { result ≡ first_kill self.now }
    {
        for span in &self.spans {
            if let ItemEnd::Killed { policy } = span.end {
                return Some((span.branch, policy));
            }
        }
        None
    }
}

fn part(bytes: &[u8], from: usize, to: usize) -> &[u8]
    requires in_order { from ≤ to }
    requires within { to ≤ length bytes.now }
    ensures { result.now ≡ bytes_between from to bytes.now }
{
    &bytes[from..to]
}

// Bytes that are a text.
pub fn text_of(bytes: &[u8]) -> &str
    requires { IsUtf8 bytes.now }
    ensures { result.now ≡ bytes.now }
{
    match str::from_utf8(bytes) {
        Ok(text) => text,
        Err(_) => unreachable!(),
    }
}
