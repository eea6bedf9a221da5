//! What is known to be missing in the rest of a leaf's source, so that no search is made twice.
//!
//! For comments, instructions, CDATA sections and declarations that is where one started in vain last: none
//! that starts later has an end. For code spans it is where the last backtick string of each length ends,
//! found in one pass the first time that one is missing. Open tags need no memory: at most three of them are
//! open at any place, whatever `<` and quotation marks a text has (`tags_reach_thrice` in `cm_scan`).
ghost use Rattle.std.specs.Prelude.{◌≡◌, ◌+◌, ◌*◌, ◌≤◌, ◌∷◌, ℕ, true, false, None, nat_lt, length, drop};
ghost use Rattle.std.specs.Prelude.{get_or, IfOk, OnOk, IfSome};
ghost use Rattle.cm_scan.specs.spans.Reach.{needed, needed_after_mark};
ghost use Rattle.cm_scan.specs.spans.CodeSpans.{up_to_run};
ghost use Rattle.cm_inline.specs.steps.Missing.{Starts, missing_from, remembered, AreLast, Knows, NoneFrom};
ghost use Rattle.cm_inline.specs.steps.Missing.{IsPast, spare, code_spare};

use cm_scan::after_backticks;
use cm_text::{Looks, Rest, Rules};
use std::alloc::{AllocError, Global};
use std::collections::BTreeMap;
use std::sync::ledger::Ledger;

/// A form of raw HTML that ends at the first place of a word, however far that is (CommonMark 0.31.2, 6.6 Raw
/// HTML).
#[derive(Clone, Copy, PartialEq, Eq)]
pub(crate) enum Form {
    /// From `<!--` to `-->`. With the older rules a comment is over, or is none, at the next `--`, so nothing
    /// has to be remembered.
    Comment,
    /// From `<?` to `?>`.
    Instruction,
    /// From `<![CDATA[` to `]]>`.
    CharacterData,
    /// From `<!` and a letter to `>`.
    Declaration,
}

/// The form that starts with a `<`, from after that on, if one does but for its end.
pub(crate) fn form_of<L: Ledger>(
    rules: Rules,
    text: &Rest<'_>,
    looks: &mut Looks<L>,
) -> Option<Form>
    ensures start { IfSome result (Starts rules.older (60 ∷ text.now)) }
    ensures none { result ≡ None → needed rules.older (60 ∷ text.now) ≡ 0 }
    ensures looks { looks.new ≤ looks.old + 11 }
{
    let (c, inside) = text.first(looks)?;
    match c {
        b'?' => Some(Form::Instruction),
        b'!' => form_after_mark(rules.is_older(), &inside, looks),
        _ => None,
    }
}

/// The form that starts with `<!`, from after that on. What is refused for another reason than its end is
/// none: its end would be searched for at each place.
fn form_after_mark<L: Ledger>(older: bool, inside: &Rest<'_>, looks: &mut Looks<L>) -> Option<Form>
    ensures start { IfSome result (Starts older (60 ∷ 33 ∷ inside.now)) }
    ensures none { result ≡ None → needed_after_mark older inside.now ≡ 0 }
    ensures looks { looks.new ≤ looks.old + 10 }
{
    if inside.starts_with(b"--", looks) {
        return (!older).then_some(Form::Comment);
    }
    if inside.starts_with(b"[CDATA[", looks) {
        return Some(Form::CharacterData);
    }
    let (b, _) = inside.first(looks)?;
    b.is_ascii_alphabetic().then_some(Form::Declaration)
}

/// Where a form started whose end is missing, or the length of the source as long as none is known, and where
/// the last backtick strings end, once a search for one has failed.
#[derive(Drop)]
pub(crate) struct MissingEnds {
    comment: usize,
    instruction: usize,
    character_data: usize,
    declaration: usize,
    backticks: Option<BTreeMap<usize, usize>>,
}

impl MissingEnds {
    /// Nothing is known of the source yet.
    pub(crate) fn of(source: &str) -> MissingEnds
        ensures knows { Knows source.now result }
    {
        MissingEnds {
            comment: source.len(),
            instruction: source.len(),
            character_data: source.len(),
            declaration: source.len(),
            backticks: None,
        }
    }

    /// Whether the form's end is known to be missing where the form starts at a place.
    pub(crate) fn is_missing(&self, form: Form, at: usize) -> bool
        ensures { result ≡ nat_lt (missing_from self.now form) at }
    {
        let from = match form {
            Form::Comment => self.comment,
            Form::Instruction => self.instruction,
            Form::CharacterData => self.character_data,
            Form::Declaration => self.declaration,
        };
        from < at
    }

    /// Remembers that the form that starts at a place lacks its end.
    pub(crate) fn remember(&mut self, form: Form, at: usize)
        ensures { self.new ≡ remembered form at self.old }
    {
        match form {
            Form::Comment => self.comment = at,
            Form::Instruction => self.instruction = at,
            Form::CharacterData => self.character_data = at,
            Form::Declaration => self.declaration = at,
        }
    }

    /// Whether it is known that no backtick string of this length follows the one that ends at a place. If
    /// none follows and that isn't known, nothing is known of backtick strings.
    pub(crate) fn is_last_backticks(&self, source: &str, count: usize, end: usize) -> bool
        requires knows { Knows source.now self.now }
        requires over { get_or source.now end 0 ≡ 96 → ⊥ }
        ensures last { result ≡ true → NoneFrom source.now count end }
        ensures unknown { result ≡ false → up_to_run count false (drop end source.now) ≡ None
            → self.now.backticks ≡ None }
    {
        match &self.backticks {
            None => false,
            Some(last) => match last.get(&count) {
                None => true,
                Some(place) => *place <= end,
            },
        }
    }

    /// Looks once where the last backtick strings end.
    pub(crate) fn look_for_backticks<L: Ledger>(
        &mut self,
        alloc: Global,
        source: &str,
        looks: &mut Looks<L>,
    ) -> Result<(), AllocError>
        requires { Knows source.now self.old }
        ensures knows { OnOk result (Knows source.now self.new) }
        ensures spare { OnOk result (spare source.now self.new ≡ spare source.now self.old) }
        ensures past { (at : ℕ) → IsPast source.now at self.old
            → OnOk result (IsPast source.now at self.new) }
        ensures looks { OnOk result (looks.new + code_spare source.now self.new
            ≤ looks.old + 3 * length source.now) }
    {
        if self.backticks.is_none() {
            self.backticks = Some(last_backticks(alloc, source, looks)?);
        }
        Ok(())
    }
}

/// The place after the last backtick string of each length.
fn last_backticks<L: Ledger>(
    alloc: Global,
    source: &str,
    looks: &mut Looks<L>,
) -> Result<BTreeMap<usize, usize>, AllocError>
    ensures last { IfOk result (λ last. AreLast source.now last) }
    ensures looks { OnOk result (looks.new ≤ looks.old + 3 * length source.now) }
{
    let text = Rest::of(source.as_bytes());
    let mut last = BTreeMap::new(alloc);
    let mut at = 0;
    while let Some(plain) = text.after(at).find_byte(b'`', looks) {
        let start = at + plain;
        at = after_backticks(&text, start, looks);
        last.insert(at - start, at)?;
    }
    Ok(last)
}
