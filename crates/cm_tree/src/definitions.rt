//! The table of link reference definitions: an array in the order of the text, and an index by label.
//!
//! No step sorts it once all definitions are known, so a caller may add and find in turn. A second definition
//! of a label leaves nothing in it.
ghost use Rattle.std.specs.Prelude.{◌≡◌, ◌<◌, ◌++◌, [], ◌∷◌, length};
ghost use Rattle.std.specs.Prelude.{true, false, None, OnOk, OnErr, IfOk, IfSome, option_map, string_bytes};
ghost use Rattle.cm_text.specs.Labels.{fold_label};
ghost use Rattle.cm_tree.specs.Definitions.{target_under, target_numbered, add_first, target_if_followed};
ghost use Rattle.cm_tree.specs.LinkTargets.{led_to};
ghost use Rattle.cm_text.specs.LabelNumbers.{number_of};
ghost use Rattle.cm_tree.specs.steps.LabelIndex.{hash_of, GoesIn, IsSame, IsThere};

use crate::entries::{Entry, entry_under, in_slots, indexed};
use crate::label_index::{LabelIndex, hash_of};
use crate::link_target::LinkTarget;
use cm_text::{NoMemory, Rules, fold_label, label_number, plain_label_number};
use std::alloc::{AllocError, Global};
use std::marker::Model;

/// Link reference definitions by their labels. The first of matching labels counts (CommonMark 0.31.2, 4.7
/// and 6.3).
///
/// Contracts see it as the list of its entries in the order in which they were added: each is a folded label,
/// with a destination and a title. Each label is there once.
#[derive(Debug, Drop)]
pub struct Definitions {
    alloc: Global,
    /// Folded labels, and destinations and titles that are short.
    texts: String,
    /// In the order in which they were added, each label once.
    entries: Vec<Entry>,
    /// Where each label's entry is.
    index: LabelIndex,
}

impl Model for Definitions {
    ghost use Rattle.std.specs.Prelude.{string_bytes};
    ghost use Rattle.cm_tree.specs.Definitions.{Targets};
    ghost use Rattle.cm_tree.specs.steps.Entries.{entries_in, AreKept};

    ghost Value = { Targets };

    ghost view = { λ a. entries_in (string_bytes a.texts) a.entries.items };

    ghost invariant = { λ a. AreKept (string_bytes a.texts) a.entries.items a.index };
}

impl Definitions {
    /// A table with no definitions. It takes no memory.
    pub fn new(alloc: Global) -> Definitions
        ensures { result ≡ [] }
    {
        Definitions {
            alloc,
            texts: String::new(alloc),
            entries: Vec::new(alloc),
            index: LabelIndex::new(alloc),
        }
    }

    /// Adds a definition, unless one with a matching label is there.
    ///
    /// # Errors
    ///
    /// `NoMemory` if a request for memory was refused; the table is then unchanged.
    pub fn add(&mut self, label: &str, dest: &str, title: &str) -> Result<(), NoMemory>
        ensures ok { OnOk result (self.new
            ≡ add_first self.old (fold_label label.now) (dest.now, title.now)) }
        ensures err { OnErr result (self.new ≡ self.old) }
    {
        if let Some(number) = plain_label_number(label) {
            return Ok(self.add_folded(number, label, dest, title)?);
        }
        let folded = fold_label(self.alloc, label)?;
        Ok(self.add_folded(label_number(&folded), &folded, dest, title)?)
    }

    fn add_folded(
        &mut self,
        number: u64,
        label: &str,
        dest: &str,
        title: &str,
    ) -> Result<(), AllocError>
        requires { number ≡ number_of label.now }
        ensures ok { OnOk result (self.new ≡ add_first self.old label.now (dest.now, title.now)) }
        ensures err { OnErr result (self.new ≡ self.old) }
    {
        self.make_room()?;
        let hash = hash_of(number);
        let there = in_slots(&self.texts, &self.entries, &self.index.slots, hash, label);
        if there.is_some() {
            return Ok(());
        }
        let from = self.texts.len();
        let entry = Entry::copy(self.alloc, &mut self.texts, hash, label, dest, title)?;
        let added = put(self.alloc, &mut self.entries, &mut self.index, label, entry)?;
        if !added {
            self.texts.truncate(from);
        }
        Ok(())
    }

    /// Keeps at least four slots for each entry in a slot, and one more.
    fn make_room(&mut self) -> Result<(), AllocError>
        ensures { self.new ≡ self.old }
    {
        if self.index.is_full(self.entries.len()) {
            let slots = self.index.next_slots();
            self.index = indexed(self.alloc, &self.texts, &self.entries, slots)?;
        }
        Ok(())
    }

    /// The destination and the title of the first definition that was added with a matching label, or None if
    /// there is none.
    ///
    /// # Errors
    ///
    /// `NoMemory` if a request for memory was refused.
    pub fn find(&self, label: &str) -> Result<Option<(&str, &str)>, NoMemory>
        ensures { IfOk result (λ found.
            option_map (λ t. (t.0.now, t.1.now)) found ≡ target_under (fold_label label.now) self.now) }
    {
        match self.target(label)? {
            Some(target) => Ok(Some((target.dest(), target.title()))),
            None => Ok(None),
        }
    }

    /// The same, as texts that are shared if they are long: a reference that keeps them copies no bytes.
    ///
    /// # Errors
    ///
    /// As `find`.
    #[tactic(auto, using(crate::proofs::lemmas::TargetLemmas::any_target))]
    pub fn target(&self, label: &str) -> Result<Option<LinkTarget<'_>>, NoMemory>
        ensures { IfOk result (λ found. option_map led_to found
            ≡ target_under (fold_label label.now) self.now) }
    {
        let entry = self.entry_by(Rules::profile(), label)?;
        Ok(entry.map(|entry| self.target_at(entry)))
    }

    /// The number of the first definition that was added with a matching label, counted from 0, or None if
    /// there is none or the rules don't follow its address, which was judged when it was added. A definition
    /// keeps its number while others are added.
    ///
    /// # Errors
    ///
    /// As `find`.
    #[inline(always)]
    pub fn entry_by(&self, rules: Rules, label: &str) -> Result<Option<usize>, NoMemory>
        ensures found { IfOk result (λ found. option_map (target_numbered self.now) found
            ≡ target_if_followed rules (target_under (fold_label label.now) self.now)) }
        ensures within { IfOk result (λ found. IfSome found (λ entry. entry < length self.now)) }
    {
        if let Some(number) = plain_label_number(label) {
            return Ok(self.entry_by_folded(rules, number, label));
        }
        let folded = fold_label(self.alloc, label)?;
        Ok(self.entry_by_folded(rules, label_number(&folded), &folded))
    }

    /// The destination and the title of a definition by its number, which `entry_by` finds: as texts that are
    /// shared if they are long.
    #[inline(always)]
    pub fn target_at(&self, entry: usize) -> LinkTarget<'_>
        requires { entry < length self.now }
        ensures { led_to result ≡ target_numbered self.now entry }
    {
        self.entries[entry].texts.target(&self.texts)
    }

    /// As `entry_by`, for a label in its folded form, given with the label's number
    /// (`cm_text::plain_label_number`, `cm_text::label_number`).
    #[inline(always)]
    pub fn entry_by_folded(&self, rules: Rules, number: u64, label: &str) -> Option<usize>
        requires { number ≡ number_of label.now }
        ensures found { option_map (target_numbered self.now) result
            ≡ target_if_followed rules (target_under label.now self.now) }
        ensures within { IfSome result (λ entry. entry < length self.now) }
    {
        let hash = hash_of(number);
        let entry = entry_under(&self.texts, &self.entries, &self.index, hash, label)?;
        if self.entries[entry].is_followed(rules) {
            return Some(entry);
        }
        None
    }
}

/// Appends an entry to the others, and adds it to the index, unless its label, which no slot has, is in the
/// tree. Returns whether it is added.
fn put(
    alloc: Global,
    entries: &mut Vec<Entry>,
    index: &mut LabelIndex,
    label: &str,
    entry: Entry,
) -> Result<bool, AllocError>
    requires { entry.hash ≡ hash_of label.now }
    ensures entries { IfOk result (λ added. added ≡ true
        → entries.new.items ≡ entries.old.items ++ entry ∷ []) }
    ensures index { IfOk result (λ added. added ≡ true
        → GoesIn index.old index.new label.now (length entries.old.items)) }
    ensures same { IfOk result (λ added. added ≡ false → entries.new.items ≡ entries.old.items) }
    ensures there { IfOk result (λ added. added ≡ false → IsThere index.old index.new label.now) }
    ensures err { OnErr result ((entries.new.items ≡ entries.old.items) × IsSame index.old index.new) }
{
    let place = entries.len();
    let hash = entry.hash;
    entries.push(entry)?;
    let added = index.put(alloc, hash, label, place);
    if !matches!(added, Ok(true)) {
        entries.pop();
    }
    added
}
