//! A text in pages, each with its own memory.
//!
//! A page is half as long as a chunk of a raw tree, and a full one gives back what it doesn't use. So the
//! HTML fits into the memory of chunks that were freed.
ghost use Rattle.std.specs.Prelude.{◌≡◌, ◌+◌, ◌-◌, ◌*◌, ◌^◌, ◌<◌, ◌≤◌, [], ◌++◌};
ghost use Rattle.std.specs.Prelude.{ℕ, length, flat_map, string_bytes, IfOk, OnOk, IfSome, IsTrue};
ghost use Rattle.std.specs.List.{concat};
ghost use Rattle.std.specs.Fmt.{decimal};
ghost use Rattle.cm_html.specs.Escape.{escape};
ghost use Rattle.cm_html.specs.Forms.{formed};
ghost use Rattle.cm_html.specs.Listing.{margin};
ghost use Rattle.cm_html.specs.Writing.{WritesText};

use crate::fault::HtmlFault;
use crate::forms::{Form, FormedTexts};
use crate::outgoing::Outgoing;
use crate::page::Page;
use crate::phrases::{NoPhrases, Phrases};
use crate::writing::write_pages;
use cm_text::{Sink, WriteFailed};
use cm_tree::BoxedText;
use std::alloc::{AllocError, Global};
use std::marker::Model;
use std::mem;

/// How many bytes fill a page. What is added at once isn't parted, so a page may have more.
const PAGE: usize = 16_384;

/// How many bytes a page has room for at first.
const ROOM: usize = 20_480;

/// How many bytes with phrases wait to be written together.
const WAITING: usize = 32_768;

/// The least length of a text that is inserted. An insertion takes memory too, and a shorter text is copied
/// in less time than it is searched for.
const INSERTED: usize = 64;

/// A text that is made from its start to its end: HTML, or a listing. A long text that has other owners is
/// held once, as it is written, and inserted wherever it occurs.
///
/// Contracts see it as its bytes.
#[derive(Drop)]
pub struct Pages {
    alloc: Global,
    /// How many bytes fill a page of it.
    page_len: usize,
    full: Vec<Page>,
    last: Page,
    formed: FormedTexts,
}

impl Model for Pages {
    ghost use Rattle.std.specs.Prelude.{ℕ, List, ◌++◌};
    ghost use Rattle.std.specs.List.{concat};

    ghost Value = { List ℕ };

    ghost view = { λ p. concat p.full.items ++ p.last };
}

impl Pages {
    /// A text of no bytes, with room for a page.
    ///
    /// # Errors
    ///
    /// `AllocError` if a request for memory was refused.
    pub fn new(alloc: Global) -> Result<Pages, AllocError>
        ensures { IfOk result (λ pages. pages ≡ []) }
    {
        Pages::with_room(alloc, ROOM)
    }

    /// A text of no bytes, with room for this many, or for a page if they are more.
    ///
    /// # Errors
    ///
    /// As `new`.
    pub fn with_room(alloc: Global, room: usize) -> Result<Pages, AllocError>
        ensures { IfOk result (λ pages. pages ≡ []) }
    {
        Ok(Pages {
            alloc,
            page_len: PAGE,
            full: Vec::new(alloc),
            last: Page::with_room(alloc, room.min(ROOM))?,
            formed: FormedTexts::new(alloc),
        })
    }

    /// A text of no bytes that becomes one page, whatever its length. It takes no memory.
    pub fn unparted(alloc: Global) -> Pages
        ensures { result ≡ [] }
    {
        Pages {
            alloc,
            page_len: usize::MAX,
            full: Vec::new(alloc),
            last: Page::new(alloc),
            formed: FormedTexts::new(alloc),
        }
    }

    /// Adds a copy of a text.
    ///
    /// # Errors
    ///
    /// `AllocError` if a request for memory was refused; the text is unspecified then. The same holds for all
    /// calls that add to the text.
    #[inline(always)]
    pub fn push_str(&mut self, more: &str) -> Result<(), AllocError>
        ensures { OnOk result (self.new ≡ self.old ++ more.now) }
    {
        self.last.push_str(more)
    }

    /// Adds a text with each `&`, `<`, `>` and `"` as a reference.
    ///
    /// # Errors
    ///
    /// As `push_str`.
    #[inline(always)]
    pub fn push_escaped(&mut self, text: &str) -> Result<(), AllocError>
        ensures { OnOk result (self.new ≡ self.old ++ escape text.now) }
    {
        self.last.push_in_form(Form::Escaped, text)
    }

    /// Adds a text in a form.
    ///
    /// # Errors
    ///
    /// As `push_str`.
    #[inline(always)]
    pub fn push_in_form(&mut self, form: Form, text: &str) -> Result<(), AllocError>
        ensures { OnOk result (self.new ≡ self.old ++ formed form text.now) }
    {
        self.last.push_in_form(form, text)
    }

    /// Adds a number in decimal.
    ///
    /// # Errors
    ///
    /// As `push_str`.
    pub fn push_number(&mut self, number: usize) -> Result<(), AllocError>
        ensures { OnOk result (self.new ≡ self.old ++ decimal number) }
    {
        self.last.push_number(number)
    }

    /// Adds the indentation of a line inside `depth` nodes.
    pub(crate) fn push_margin(&mut self, depth: usize) -> Result<(), AllocError>
        ensures written { OnOk result (self.new ≡ self.old ++ margin depth) }
        ensures small { OnOk result (depth < 2 ^ 63) }
    {
        self.last.push_margin(depth)
    }

    /// Adds a text in a form. Where it is long and has other owners, it is formed once, and held once.
    ///
    /// # Errors
    ///
    /// As `push_str`.
    pub fn push_formed(&mut self, form: Form, text: &BoxedText) -> Result<(), AllocError>
        ensures { OnOk result (self.new ≡ self.old ++ formed form text.now) }
    {
        if text.is_shared() {
            return self.push_shared(form, text);
        }
        self.last.push_in_form(form, text.as_str())
    }

    /// Adds a text in a form. Where it is long, it is formed once, and held once: the same text may be added
    /// again.
    ///
    /// # Errors
    ///
    /// As `push_str`.
    pub fn push_shared(&mut self, form: Form, text: &BoxedText) -> Result<(), AllocError>
        ensures { OnOk result (self.new ≡ self.old ++ formed form text.now) }
    {
        let bytes = text.as_str();
        if bytes.len() < INSERTED {
            return self.last.push_in_form(form, bytes);
        }
        let inserted = self.formed.form(form, text)?;
        self.last.push_insertion(inserted)
    }

    /// Continues on a new page, if the last one is full.
    ///
    /// # Errors
    ///
    /// As `push_str`.
    #[inline(always)]
    pub fn turn(&mut self) -> Result<(), AllocError>
        ensures { OnOk result (self.new ≡ self.old) }
    {
        if self.last.takes_at_least(self.page_len) {
            return self.lay_aside();
        }
        Ok(())
    }

    /// Adds the last page to the full ones, and continues on a new one.
    fn lay_aside(&mut self) -> Result<(), AllocError>
        ensures { OnOk result (self.new ≡ self.old) }
    {
        self.last.shrink_to_fit();
        let page = Page::with_room(self.alloc, ROOM)?;
        self.full.push(mem::replace(&mut self.last, page))?;
        Ok(())
    }

    /// Writes the text to a sink, and returns its length in bytes. It takes no memory.
    ///
    /// # Errors
    ///
    /// `HtmlFault::WriteFailed` if one write failed: then the first `written` bytes were written.
    /// `HtmlFault::NoMemory` if the text has more bytes than a `usize` counts, and then nothing was written.
    pub fn write<W: Sink>(&self, sink: &mut W) -> Result<usize, HtmlFault>
        requires { (W.seen sink.old).failed < 2 ^ 64 - 1 }
        ensures { WritesText result self.now (W.seen sink.old) (W.seen sink.new) }
    {
        self.send::<NoPhrases, W>(sink, 1, 0)
    }

    /// Writes the text with each phrase in the place of the byte that is held for it. Returns how many bytes
    /// were written.
    ///
    /// # Errors
    ///
    /// As `write`, and `HtmlFault::NoMemory` if a request for memory was refused: then nothing was written.
    pub fn write_phrases<K: Phrases, W: Sink>(&self, sink: &mut W) -> Result<usize, HtmlFault>
        requires short { (b : ℕ) → length (K.written b) ≤ 64 }
        requires failed { (W.seen sink.old).failed < 2 ^ 64 - 1 }
        ensures { WritesText result (flat_map K.written self.now) (W.seen sink.old) (W.seen sink.new) }
    {
        self.send::<K, W>(sink, 64, WAITING)
    }

    /// The same, for phrases of at most `longest` bytes. Up to `room` bytes wait to be written together.
    fn send<K: Phrases, W: Sink>(
        &self,
        sink: &mut W,
        longest: usize,
        room: usize,
    ) -> Result<usize, HtmlFault>
        requires short { (b : ℕ) → length (K.written b) ≤ longest }
        requires failed { (W.seen sink.old).failed < 2 ^ 64 - 1 }
        ensures { WritesText result (flat_map K.written self.now) (W.seen sink.old) (W.seen sink.new) }
    {
        let full = self.full.as_slice();
        if !is_countable(full, &self.last, longest) {
            return Err(HtmlFault::NoMemory);
        }
        let Ok(mut out) = Outgoing::new(self.alloc, room) else {
            return Err(HtmlFault::NoMemory);
        };
        match write_pages::<K, W>(&mut out, sink, full, &self.last) {
            Ok(len) => Ok(len),
            Err(WriteFailed { written }) => Err(HtmlFault::WriteFailed { written }),
        }
    }

    /// The text as one string, without a copy if it is one page without insertions.
    ///
    /// # Errors
    ///
    /// `AllocError` if a request for memory was refused.
    pub fn into_string(self) -> Result<String, AllocError>
        ensures { IfOk result (λ text. string_bytes text ≡ self) }
    {
        let Pages {
            alloc,
            full,
            last,
            ..
        } = self;
        let front = full.as_slice();
        if front.is_empty() {
            match last.into_text() {
                Ok(text) => Ok(text),
                Err(page) => copied(alloc, front, &page),
            }
        } else {
            copied(alloc, front, &last)
        }
    }
}

/// Whether a `usize` counts the bytes of pages, if each is held for up to `longest` bytes.
fn is_countable(full: &[Page], last: &Page, longest: usize) -> bool
    ensures { IsTrue result → longest * length (concat full.now ++ last.now) < 2 ^ 64 }
{
    match len_of(full, last) {
        Some(len) => longest.checked_mul(len).is_some(),
        None => false,
    }
}

/// How many bytes the full pages and the last one have.
fn len_of(full: &[Page], last: &Page) -> Option<usize>
    ensures { IfSome result (λ n. n ≡ length (concat full.now ++ last.now)) }
{
    full_len(full)?.checked_add(last.len()?)
}

/// A copy of the full pages, followed by the last one.
fn copied(alloc: Global, full: &[Page], last: &Page) -> Result<String, AllocError>
    ensures { IfOk result (λ text. string_bytes text ≡ concat full.now ++ last.now) }
{
    let Some(len) = len_of(full, last) else {
        return Err(AllocError);
    };
    // One byte more, since callers from C put a NUL after it.
    let mut text = String::with_capacity(alloc, len.saturating_add(1))?;
    push_full(&mut text, full)?;
    last.push_to(&mut text)?;
    Ok(text)
}

/// How many bytes the pages have.
fn full_len(pages: &[Page]) -> Option<usize>
    ensures { IfSome result (λ n. n ≡ length (concat pages.now)) }
{
    let mut len: usize = 0;
    for page in pages {
        len = len.checked_add(page.len()?)?;
    }
    Some(len)
}

/// Adds copies of the pages to a string.
fn push_full(out: &mut String, pages: &[Page]) -> Result<(), AllocError>
    ensures { OnOk result (string_bytes out.new ≡ string_bytes out.old ++ concat pages.now) }
{
    for page in pages {
        page.push_to(out)?;
    }
    Ok(())
}
