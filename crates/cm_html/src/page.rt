//! A text with insertions: other texts in it, of which it holds no copy.
//!
//! A text of 250 KB can refer 50,000 times to a destination of 50,000 bytes, and its HTML has 2.5 GB. So a
//! long text with other owners is inserted by a counted reference of 24 bytes; a shorter text, or one without
//! other owners, is copied.
//!
//! If memory runs out while something is added, all insertions are removed, because it isn't known whether
//! their places are still within the page's own text.
ghost use Rattle.std.specs.Prelude.{◌≡◌, [], ◌++◌, ◌<◌, ◌^◌};
ghost use Rattle.std.specs.Prelude.{length, string_bytes, IfOk, OnOk, OnErr, IfSome, MatchResult};
ghost use Rattle.std.specs.Fmt.{decimal};
ghost use Rattle.cm_html.specs.Forms.{formed};
ghost use Rattle.cm_html.specs.Listing.{margin};

use crate::forms::{Form, push_in_form};
use crate::quoting::push_margin;
use cm_tree::BoxedText;
use std::alloc::{AllocError, Global};
use std::marker::Model;

/// A counted text, and its place in the page's own text.
#[derive(Drop)]
pub(crate) struct Insertion {
    pub(crate) place: usize,
    pub(crate) text: BoxedText,
}

/// How many bytes an insertion takes on its page.
const INSERTION: usize = 24;

/// A text with insertions, which contracts see as its bytes.
#[derive(Drop)]
pub(crate) struct Page {
    pub(crate) text: String,
    pub(crate) insertions: Vec<Insertion>,
}

impl Model for Page {
    ghost use Rattle.std.specs.Prelude.{ℕ, List, string_bytes};
    ghost use Rattle.cm_html.specs.steps.Pages.{with_insertions, AreInOrder};

    ghost Value = { List ℕ };

    ghost view = { λ p. with_insertions 0 (string_bytes p.text) p.insertions.items };

    ghost invariant = { λ p. AreInOrder 0 (string_bytes p.text) p.insertions.items };
}

impl Page {
    /// A page with nothing on it. It takes no memory.
    pub(crate) fn new(alloc: Global) -> Page
        ensures { result ≡ [] }
    {
        Page {
            text: String::new(alloc),
            insertions: Vec::new(alloc),
        }
    }

    /// An empty page, with room for this number of bytes.
    pub(crate) fn with_room(alloc: Global, room: usize) -> Result<Page, AllocError>
        ensures { IfOk result (λ page. page ≡ []) }
    {
        Ok(Page {
            text: String::with_capacity(alloc, room)?,
            insertions: Vec::new(alloc),
        })
    }

    /// Gives back the memory that the page's own text and its list of insertions don't use.
    pub(crate) fn shrink_to_fit(&mut self)
        ensures { self.new ≡ self.old }
    {
        self.text.shrink_to_fit();
        self.insertions.shrink_to_fit();
    }

    /// Whether the page, with its insertions, takes at least this number of bytes.
    #[inline(always)]
    pub(crate) fn takes_at_least(&self, bytes: usize) -> bool {
        let insertions = self.insertions.len().saturating_mul(INSERTION);
        self.text.len().saturating_add(insertions) >= bytes
    }

    /// Adds a copy of a text.
    #[inline(always)]
    pub(crate) fn push_str(&mut self, more: &str) -> Result<(), AllocError>
        ensures { OnOk result (self.new ≡ self.old ++ more.now) }
    {
        self.text.push_str(more)
    }

    /// Adds a text in this form.
    #[inline(always)]
    pub(crate) fn push_in_form(&mut self, form: Form, text: &str) -> Result<(), AllocError>
        ensures { OnOk result (self.new ≡ self.old ++ formed form text.now) }
    {
        let pushed = push_in_form(&mut self.text, form, text);
        settled(pushed, &mut self.insertions)
    }

    /// Adds a number in decimal.
    pub(crate) fn push_number(&mut self, number: usize) -> Result<(), AllocError>
        ensures { OnOk result (self.new ≡ self.old ++ decimal number) }
    {
        let pushed = write!(self.text, "{number}");
        settled(pushed, &mut self.insertions)
    }

    /// Adds the indentation of a line inside `depth` nodes.
    pub(crate) fn push_margin(&mut self, depth: usize) -> Result<(), AllocError>
        ensures written { OnOk result (self.new ≡ self.old ++ margin depth) }
        ensures small { OnOk result (depth < 2 ^ 63) }
    {
        let pushed = push_margin(&mut self.text, depth);
        settled(pushed, &mut self.insertions)
    }

    /// Adds a counted text, without a copy.
    pub(crate) fn push_insertion(&mut self, text: BoxedText) -> Result<(), AllocError>
        ensures { OnOk result (self.new ≡ self.old ++ text) }
    {
        let place = self.text.len();
        self.insertions.push(Insertion { place, text })?;
        Ok(())
    }

    /// How many bytes the page has, or None where a `usize` doesn't count them.
    pub(crate) fn len(&self) -> Option<usize>
        ensures { IfSome result (λ n. n ≡ length self.now) }
    {
        let mut len = self.text.len();
        let insertions = self.insertions.as_slice();
        for insertion in insertions {
            len = len.checked_add(insertion.text.as_str().len())?;
        }
        Some(len)
    }

    /// The page's own text, without a copy, unless something is inserted.
    pub(crate) fn into_text(self) -> Result<String, Page>
        ensures { MatchResult result (λ text. string_bytes text ≡ self) (λ page. page ≡ self) }
    {
        if !self.insertions.is_empty() {
            return Err(self);
        }
        let Page { text, .. } = self;
        Ok(text)
    }

    /// Adds a copy of the page to a string.
    pub(crate) fn push_to(&self, out: &mut String) -> Result<(), AllocError>
        ensures { OnOk result (string_bytes out.new ≡ string_bytes out.old ++ self.now) }
    {
        let text = self.text.as_str();
        let mut from: usize = 0;
        let insertions = self.insertions.as_slice();
        for insertion in insertions {
            let end = insertion.place;
            out.push_str(&text[from..end])?;
            out.push_str(insertion.text.as_str())?;
            from = end;
        }
        out.push_str(&text[from..])
    }
}

/// Returns whether something was added to the text of a page. If it wasn't, a prefix of it may have been, and
/// no insertion stays, since its place isn't known to be in the text.
#[inline(always)]
fn settled(
    pushed: Result<(), AllocError>,
    insertions: &mut Vec<Insertion>,
) -> Result<(), AllocError>
    ensures same { result ≡ pushed }
    ensures ok { OnOk result (insertions.new.items ≡ insertions.old.items) }
    ensures err { OnErr result (insertions.new.items ≡ []) }
{
    if pushed.is_err() {
        take_off(insertions);
    }
    pushed
}

/// Takes all insertions off.
#[cold]
fn take_off(insertions: &mut Vec<Insertion>)
    ensures { insertions.new.items ≡ [] }
{
    insertions.clear();
}
