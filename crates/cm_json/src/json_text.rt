//! JSON that is made from its start to its end.
ghost use Rattle.std.specs.Prelude.{◌≡◌, ◌-◌, ◌<◌, ◌^◌, [], ◌++◌, codes, length, string_bytes};
ghost use Rattle.std.specs.Prelude.{IfOk, IfSome, OnOk};
ghost use Rattle.std.specs.Fmt.{decimal};
ghost use Rattle.json.specs.Print.{escape};
ghost use Rattle.cm_html.specs.Writing.{WritesText};
ghost use Rattle.cm_json.specs.steps.Phrases.{expanded, written};

use crate::phrases::{Held, phrase};
use cm_html::{Form, HtmlFault, Pages};
use cm_text::{Sink, push_replaced};
use cm_tree::BoxedText;
use std::alloc::{AllocError, Global};
use std::marker::Model;

/// JSON that is made from its start to its end. It is written when it is whole, and until then each phrase
/// that occurs often is held as one byte.
///
/// Contracts see it as the bytes that are written.
#[derive(Drop)]
pub struct JsonText {
    alloc: Global,
    held: Pages,
}

impl Model for JsonText {
    ghost use Rattle.std.specs.Prelude.{ℕ, List};
    ghost use Rattle.cm_json.specs.steps.Phrases.{expanded};

    ghost Value = { List ℕ };

    ghost view = { λ t. expanded t.held };
}

impl JsonText {
    /// A text of no bytes, held in pages.
    ///
    /// # Errors
    ///
    /// `AllocError` if a request for memory was refused.
    pub fn new(alloc: Global) -> Result<JsonText, AllocError>
        ensures { IfOk result (λ json. json ≡ []) }
    {
        let held = Pages::new(alloc)?;
        Ok(JsonText { alloc, held })
    }

    /// A text of no bytes, held in one piece. It takes no memory.
    pub(crate) fn unparted(alloc: Global) -> JsonText
        ensures { result ≡ [] }
    {
        JsonText {
            alloc,
            held: Pages::unparted(alloc),
        }
    }

    /// The allocator that it takes memory from.
    pub(crate) fn alloc(&self) -> Global {
        self.alloc
    }

    /// Adds a line feed.
    ///
    /// # Errors
    ///
    /// `AllocError` if a request for memory was refused; the text is unspecified then.
    pub fn push_line_feed(&mut self) -> Result<(), AllocError>
        ensures { OnOk result (self.new ≡ self.old ++ codes "\n") }
    {
        self.push_str("\n")
    }

    /// Adds a text in which phrases may be held.
    #[inline(always)]
    pub(crate) fn push_str(&mut self, more: &str) -> Result<(), AllocError>
        ensures { OnOk result (self.new ≡ self.old ++ expanded more.now) }
    {
        self.held.push_str(more)
    }

    /// Adds a text as it is in a string of JSON, without the quotes.
    pub(crate) fn push_escaped(&mut self, text: &str) -> Result<(), AllocError>
        ensures { OnOk result (self.new ≡ self.old ++ escape text.now) }
    {
        self.held.push_in_form(Form::Json, text)
    }

    /// The same for a text that others may share. A long one is held once.
    pub(crate) fn push_shared(&mut self, text: &BoxedText) -> Result<(), AllocError>
        ensures { OnOk result (self.new ≡ self.old ++ escape text.now) }
    {
        self.held.push_formed(Form::Json, text)
    }

    /// Adds a number in decimal.
    pub(crate) fn push_number(&mut self, number: usize) -> Result<(), AllocError>
        ensures { OnOk result (self.new ≡ self.old ++ decimal number) }
    {
        self.held.push_number(number)
    }

    /// Continues on a new page, if the last one is full.
    pub(crate) fn turn(&mut self) -> Result<(), AllocError>
        ensures { OnOk result (self.new ≡ self.old) }
    {
        self.held.turn()
    }

    /// Writes the text to a sink, and returns its length in bytes.
    ///
    /// # Errors
    ///
    /// `HtmlFault::WriteFailed` if one write failed: then the first `written` bytes were written.
    /// `HtmlFault::NoMemory` if a request for memory was refused, and then nothing was written.
    pub fn write<W: Sink>(&self, sink: &mut W) -> Result<usize, HtmlFault>
        requires { (W.seen sink.old).failed < 2 ^ 64 - 1 }
        ensures { WritesText result self.now (W.seen sink.old) (W.seen sink.new) }
    {
        self.held.write_phrases::<Held, W>(sink)
    }

    /// The text as a string, with room for one more byte.
    ///
    /// # Errors
    ///
    /// `AllocError` if a request for memory was refused.
    pub fn into_string(self) -> Result<String, AllocError>
        ensures { IfOk result (λ text. string_bytes text ≡ self) }
    {
        let held = self.held.into_string()?;
        let Some(len) = expanded_len(held.as_bytes()) else {
            return Err(AllocError);
        };
        // One byte more, since callers from C put a NUL after it.
        let mut text = String::with_capacity(self.alloc, len.saturating_add(1))?;
        push_replaced::<Held>(&mut text, held.as_str())?;
        Ok(text)
    }
}

/// How many bytes are written for one.
fn width(b: u8) -> usize
    ensures { result ≡ length (written b) }
{
    if b < 32 { phrase(b).len() } else { 1 }
}

/// How many bytes are written for a text, or None where a `usize` doesn't count them.
fn expanded_len(held: &[u8]) -> Option<usize>
    ensures { IfSome result (λ n. n ≡ length (expanded held.now)) }
{
    let mut len: usize = 0;
    for b in held {
        len = len.checked_add(width(*b))?;
    }
    Some(len)
}
