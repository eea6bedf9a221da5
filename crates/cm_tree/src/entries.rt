//! The entries of the table of definitions.
ghost use Rattle.std.specs.Prelude.{◌≡◌, ◌≤◌, ◌||◌, ℕ, None, length, get_or, IfOk, IfSome, string_bytes};
ghost use Rattle.std.specs.Str.{bytes_eq};
ghost use Rattle.cm_tree.specs.steps.KeptTexts.{kept_label, GoesOn};
ghost use Rattle.cm_tree.specs.steps.LabelIndex.{hash_of, home};
ghost use Rattle.cm_tree.specs.steps.LabelIndex.{IsIndex, IsLabel, IsNew, IsPassed, AreDistinct};
ghost use Rattle.cm_tree.specs.steps.Entries.{labels_in, IsEntry, AreEntries, IsMade};

use crate::kept_texts::KeptTexts;
use crate::label_index::{LabelIndex, NEAR, home};
use cm_text::{Rules, is_followed};
use std::alloc::{AllocError, Global};

/// A definition.
#[derive(Debug, Drop)]
pub(crate) struct Entry {
    /// The hash of its folded label.
    pub(crate) hash: u32,
    /// Whether its address has no scheme, or one of the web's. It is judged once, however many references
    /// ask.
    pub(crate) is_web: bool,
    /// Its folded label, its destination and its title.
    pub(crate) texts: KeptTexts,
}

impl Entry {
    /// Copies a definition, and appends its texts to those of others if they are short.
    ///
    /// # Errors
    ///
    /// `AllocError` if a request for memory was refused; some of its texts may have been appended then.
    pub(crate) fn copy(
        alloc: Global,
        texts: &mut String,
        hash: u32,
        label: &str,
        dest: &str,
        title: &str,
    ) -> Result<Entry, AllocError>
        requires { hash ≡ hash_of label.now }
        ensures made { IfOk result (λ e. IsMade (string_bytes texts.new) e label.now (dest.now, title.now)) }
        ensures goes_on { GoesOn (string_bytes texts.old) (string_bytes texts.new) }
    {
        let web_alone = Rules::profile().with_any_address(false);
        Ok(Entry {
            hash,
            is_web: is_followed(web_alone, dest),
            texts: KeptTexts::copy(alloc, texts, label, dest, title)?,
        })
    }

    /// Whether the rules follow its address.
    #[inline(always)]
    pub(crate) fn is_followed(&self, rules: Rules) -> bool
        ensures { result ≡ (rules.any_address || self.now.is_web) }
    {
        rules.any_address() || self.is_web
    }

    /// Whether it has a folded label, of this hash.
    fn is_under(&self, texts: &str, hash: u32, label: &str) -> bool
        requires entry { IsEntry texts.now self.now }
        requires hash { hash ≡ hash_of label.now }
        ensures { result ≡ bytes_eq (kept_label texts.now self.now.texts) label.now }
    {
        self.hash == hash && self.texts.label(texts) == label
    }
}

/// The entry under a folded label, of this hash.
pub(crate) fn entry_under(
    texts: &str,
    entries: &[Entry],
    index: &LabelIndex,
    hash: u32,
    label: &str,
) -> Option<usize>
    requires entries { AreEntries texts.now entries.now }
    requires index { IsIndex index.now (labels_in texts.now entries.now) }
    requires hash { hash ≡ hash_of label.now }
    ensures there { IfSome result (λ entry. IsLabel (labels_in texts.now entries.now) entry label.now) }
    ensures absent { result ≡ None → IsNew (labels_in texts.now entries.now) label.now }
{
    match in_slots(texts, entries, &index.slots, hash, label) {
        Some(entry) => Some(entry),
        None => index.crowded.get(label).copied(),
    }
}

/// The same, if it is in a slot.
#[inline(always)]
pub(crate) fn in_slots(
    texts: &str,
    entries: &[Entry],
    slots: &[u32],
    hash: u32,
    label: &str,
) -> Option<usize>
    requires entries { AreEntries texts.now entries.now }
    requires named { (slot : ℕ) → get_or slots.now slot 0 ≤ length entries.now }
    requires hash { hash ≡ hash_of label.now }
    ensures there { IfSome result (λ entry. IsLabel (labels_in texts.now entries.now) entry label.now) }
    ensures absent { result ≡ None
        → IsPassed slots.now (home slots.now hash) (labels_in texts.now entries.now) label.now }
{
    let from = home(slots, hash);
    for slot in from..from + NEAR {
        let named = slots.get(slot).copied().unwrap_or(0) as usize;
        if named == 0 {
            return None;
        }
        if entries[named - 1].is_under(texts, hash, label) {
            return Some(named - 1);
        }
    }
    None
}

/// An index of all entries, with this number of slots.
pub(crate) fn indexed(
    alloc: Global,
    texts: &str,
    entries: &[Entry],
    slots: usize,
) -> Result<LabelIndex, AllocError>
    requires entries { AreEntries texts.now entries.now }
    requires distinct { AreDistinct (labels_in texts.now entries.now) }
    ensures { IfOk result (λ index. IsIndex index (labels_in texts.now entries.now)) }
{
    let mut index = LabelIndex::with_slots(alloc, slots)?;
    for at in 0..entries.len() {
        let entry = &entries[at];
        index.put(alloc, entry.hash, entry.texts.label(texts), at)?;
    }
    Ok(index)
}
