//! The items of a bundle: facts, and the marks of facts that were skipped.

use std::marker::Model;
use tk_fact::Fact;
use tk_handle::Dot;

// A fact, or the dot of one that was skipped.
#[derive(Drop)]
pub(crate) enum Entry {
    Fact(Fact),
    Skipped(Dot),
}

/// An item of a bundle: a fact, or the mark that the fact of a dot was skipped.
#[derive(Drop)]
pub struct Item {
    entry: Entry,
}

impl Model for Item {
    ghost use Rattle.tk_handle.specs.declared.dot.Dot.{Dot};
    ghost use Rattle.tk_store.specs.Slots.{Slot};
    ghost use Rattle.tk_bundle.specs.BundleFields.{entry_of};

    ghost Value = { Dot × Slot };

    ghost view = { λ i. entry_of i.entry };
}

ghost use Rattle.std.specs.Prelude.{◌≡◌};
ghost use Rattle.tk_format.specs.Format.{whole};
ghost use Rattle.tk_handle.specs.DotBytes.{dot_field};
ghost use Rattle.tk_store.specs.SlotShown.{HasDot, shown_slot};
ghost use Rattle.tk_store.specs.WholeStores.{as_slot};
ghost use Rattle.tk_bundle.specs.BundleFields.{fact_of, is_mark};
ghost use Rattle.tk_bundle.specs.Items.{GetsItem, mark_at};

use std::alloc::Global;
use tk_format::{FromBytes, ReadError, Reader};
use tk_store::SlotRef;

// The number of bytes of a dot, which is the length of a mark.
pub(crate) const DOT_BYTES: u16 = 10;

impl Item {
    // Wraps a fact.
    pub(crate) fn of_fact(fact: Fact) -> Item
        ensures { result ≡ as_slot fact }
    {
        Item {
            entry: Entry::Fact(fact),
        }
    }

    // Returns the mark of a dot.
    pub(crate) fn mark(dot: Dot) -> Item
        ensures { result ≡ mark_at dot }
    {
        Item {
            entry: Entry::Skipped(dot),
        }
    }

    /// Returns the item's dot.
    pub fn dot(&self) -> Dot
        ensures { result ≡ self.now.0 }
    {
        match &self.entry {
            Entry::Fact(fact) => fact.dot,
            Entry::Skipped(dot) => *dot,
        }
    }

    /// Returns the item as a store shows what it knows of a dot: the fact, or the mark.
    pub fn slot(&self) -> SlotRef<'_>
        ensures slot { shown_slot result ≡ self.now.1 }
        ensures dot { HasDot self.now.0 result }
    {
        match &self.entry {
            Entry::Fact(fact) => SlotRef::Held(fact),
            Entry::Skipped(_) => SlotRef::Skipped,
        }
    }

    /// Returns the item's fact, or `None` if the item is a mark.
    pub fn into_fact(self) -> Option<Fact>
        ensures { result ≡ fact_of self }
    {
        let Item { entry } = self;
        match entry {
            Entry::Fact(fact) => Some(fact),
            Entry::Skipped(_) => None,
        }
    }
}

/// Returns whether the item is the mark of a skipped fact.
pub(crate) fn is_mark(item: &Item) -> bool
    ensures { result ≡ is_mark item.now }
{
    match item.slot() {
        SlotRef::Held(_) => false,
        SlotRef::Skipped => true,
    }
}

// An item behind its length, as bundles contain it.
impl FromBytes for Item {
    ghost use Rattle.tk_bundle.specs.Items.{item};

    ghost value_at = { item.read };

    fn read_from(alloc: Global, reader: &mut Reader<'_>) -> Result<Item, ReadError> {
        let Some(bytes) = reader.take_text() else {
            return Err(ReadError::Malformed);
        };
        if bytes.len() > Fact::MAX_BYTES {
            return Err(ReadError::Malformed);
        }
        Ok(Item {
            entry: read_entry(alloc, bytes)?,
        })
    }
}

// Reads a fact, or the dot of a mark, from all of the bytes.
fn read_entry(alloc: Global, bytes: &[u8]) -> Result<Entry, ReadError>
    ensures { GetsItem result bytes.now }
{
    if bytes.len() == DOT_BYTES as usize {
        Ok(Entry::Skipped(read_dot(bytes).ok_or(ReadError::Malformed)?))
    } else {
        Ok(Entry::Fact(Fact::read(alloc, bytes)?))
    }
}

// Reads a dot from all of the bytes.
pub(crate) fn read_dot(bytes: &[u8]) -> Option<Dot>
    ensures { result ≡ whole dot_field bytes.now }
{
    let mut reader = Reader::new(bytes);
    let dot = Dot::read(&mut reader)?;
    if reader.is_empty() { Some(dot) } else { None }
}
