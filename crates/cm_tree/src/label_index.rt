//! Where an entry of the table of definitions is, by its label.
//!
//! With a hash table alone, the author of a text could choose labels with equal numbers, so that searches
//! take quadratic time; two such labels of 512 characters were found at once. Here a search looks at eight
//! slots, and then descends a tree ordered by label. If there would be fewer than four slots for each entry
//! in one, their number is doubled and the index made anew, while the entries stay where they are.
ghost use Rattle.std.specs.Prelude.{◌≡◌, ◌≤◌, ◌/◌, ◌^◌, [], length, true, false};
ghost use Rattle.std.specs.Prelude.{None, IfOk, IfSome, OnErr};
ghost use Rattle.cm_tree.specs.steps.LabelIndex.{hash_of, home, IsFree, IsFull, IsIndex, IsSame};
ghost use Rattle.cm_tree.specs.steps.LabelIndex.{GoesIn, IsPutInTree, IsThere};

use std::alloc::{AllocError, Global};
use std::collections::BTreeMap;

/// A label is in one of this number of slots, from the one on that its number names.
pub(crate) const NEAR: usize = 8;

/// The entries of a table by their labels.
///
/// Nearly all are in the first slot that was free near the one that their number names. An entry that found
/// none is in a tree: so labels that were made to have equal numbers take no longer than with a tree alone.
#[derive(Debug, Drop)]
pub(crate) struct LabelIndex {
    /// Entries, counted from 1; 0 is a free slot.
    pub(crate) slots: Vec<u32>,
    /// Entries that found no slot, by their labels.
    pub(crate) crowded: BTreeMap<String, usize>,
}

impl LabelIndex {
    /// An index of no entries. It takes no memory.
    pub(crate) fn new(alloc: Global) -> LabelIndex
        ensures { IsIndex result [] }
    {
        LabelIndex {
            slots: Vec::new(alloc),
            crowded: BTreeMap::new(alloc),
        }
    }

    /// An index of no entries, with `count` slots.
    pub(crate) fn with_slots(alloc: Global, count: usize) -> Result<LabelIndex, AllocError>
        ensures { IfOk result (λ index. IsIndex index []) }
    {
        Ok(LabelIndex {
            slots: vec![in alloc; 0; count]?,
            crowded: BTreeMap::new(alloc),
        })
    }

    /// Whether there are fewer than four slots for each of the entries and one more, not counting those in
    /// the tree: labels that were made to miss their slots don't need more of them.
    pub(crate) fn is_full(&self, entries: usize) -> bool {
        entries.saturating_sub(self.crowded.len()) >= self.slots.len() / 4
    }

    /// The next number of slots: a power of two, which the numbers of labels name, and at their end as many
    /// as the last ones may need.
    pub(crate) fn next_slots(&self) -> usize {
        self.slots
            .len()
            .saturating_mul(2)
            .saturating_sub(NEAR - 1)
            .max(2 * NEAR - 1)
    }

    /// Adds an entry under a label, of this hash, that no slot has: to a free slot, or to the tree unless the
    /// label is there. Returns whether it is added.
    ///
    /// # Errors
    ///
    /// `AllocError` if a request for memory was refused; the index is then unchanged.
    pub(crate) fn put(
        &mut self,
        alloc: Global,
        hash: u32,
        label: &str,
        entry: usize,
    ) -> Result<bool, AllocError>
        requires { hash ≡ hash_of label.now }
        ensures added { IfOk result (λ added. added ≡ true → GoesIn self.old self.new label.now entry) }
        ensures there { IfOk result (λ added. added ≡ false → IsThere self.old self.new label.now) }
        ensures err { OnErr result (IsSame self.old self.new) }
    {
        if entry < u32::MAX as usize {
            if let Some(slot) = free_slot(&self.slots, hash) {
                self.slots[slot] = entry as u32 + 1;
                return Ok(true);
            }
        }
        self.put_in_tree(alloc, label, entry)
    }

    /// Adds an entry under a label to the tree, unless the label is there. Returns whether it is added. The
    /// tree is descended once for a label that isn't there.
    ///
    /// # Errors
    ///
    /// As `put`.
    fn put_in_tree(&mut self, alloc: Global, label: &str, entry: usize) -> Result<bool, AllocError>
        ensures slots { self.new.slots.items ≡ self.old.slots.items }
        ensures added { IfOk result (λ added. added ≡ true
            → IsPutInTree self.old self.new label.now entry) }
        ensures there { IfOk result (λ added. added ≡ false → IsThere self.old self.new label.now) }
        ensures err { OnErr result (IsSame self.old self.new) }
    {
        let key = String::from_str(alloc, label)?;
        let again = String::from_str(alloc, label)?;
        match self.crowded.insert(key, entry)? {
            None => Ok(true),
            Some(first) => {
                self.crowded.insert(again, first)?;
                Ok(false)
            }
        }
    }
}

/// The upper half of a label's number, by which the index finds it.
#[inline(always)]
pub(crate) fn hash_of(number: u64) -> u32
    ensures { result ≡ number / 2 ^ 32 }
{
    (number >> 32) as u32
}

/// The first of the slots for labels of a hash.
pub(crate) fn home(slots: &[u32], hash: u32) -> usize
    ensures is { result ≡ home slots.now hash }
    ensures within { result ≤ length slots.now }
{
    hash as usize & slots.len().saturating_sub(NEAR)
}

/// The first free slot for a label of a hash.
fn free_slot(slots: &[u32], hash: u32) -> Option<usize>
    ensures some { IfSome result (λ slot. IsFree slots.now (home slots.now hash) slot) }
    ensures none { result ≡ None → IsFull slots.now (home slots.now hash) }
{
    let from = home(slots, hash);
    for slot in from..from + NEAR {
        match slots.get(slot) {
            Some(0) => return Some(slot),
            Some(_) => {}
            None => return None,
        }
    }
    None
}
