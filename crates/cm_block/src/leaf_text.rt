//! The text of a leaf block, whose line feeds are counted while it grows, so no text is searched for them
//! again.
//!
//! The count can't overflow, because a text has no more line feeds than bytes.
ghost use Rattle.std.specs.Prelude.{◌≡◌, ◌<◌, ◌^◌, ◌++◌, [], ◌∷◌, true, OnOk};
ghost use Rattle.cm_block.specs.Prelude.{is_line, plain_lines_of, line_feeds};
ghost use Rattle.cm_block.specs.steps.TextRuns.{add_lines, with_line};

use cm_text::TextLines;
use std::alloc::{AllocError, Global};
use std::marker::Model;

/// The text of a leaf block so far, and how many line feeds it has.
#[derive(Debug, Drop)]
pub(crate) struct LeafText {
    text: String,
    feeds: usize,
}

impl Model for LeafText {
    ghost use Rattle.std.specs.Prelude.{◌≡◌, ℕ, List, string_bytes};
    ghost use Rattle.cm_block.specs.Prelude.{line_feeds};

    ghost Value = { List ℕ };

    ghost view = { λ t. string_bytes t.text };

    ghost invariant = { λ t. t.feeds ≡ line_feeds (string_bytes t.text) };
}

impl LeafText {
    /// No text. It takes no memory.
    pub(crate) fn new(alloc: Global) -> LeafText
        ensures { result ≡ [] }
    {
        LeafText {
            text: String::new(alloc),
            feeds: 0,
        }
    }

    /// The text.
    pub(crate) fn as_str(&self) -> &str
        ensures { result.now ≡ self.now }
    {
        &self.text
    }

    /// How many line feeds it has.
    pub(crate) fn feeds(&self) -> usize
        ensures count { result ≡ line_feeds self.now }
        ensures few { result < 2 ^ 63 }
    {
        // It has no more line feeds than bytes.
        let _bytes = self.text.as_bytes();
        self.feeds
    }

    /// Clears the text, and keeps its memory.
    pub(crate) fn clear(&mut self)
        ensures { self.new ≡ [] }
    {
        self.text.clear();
        self.feeds = 0;
    }

    /// Appends a part of a line.
    #[inline(always)]
    pub(crate) fn push(&mut self, part: &str) -> Result<(), AllocError>
        requires { is_line part.now ≡ true }
        ensures { OnOk result (self.new ≡ self.old ++ part.now) }
    {
        self.text.push_str(part)
    }

    /// Ends a line.
    pub(crate) fn end_line(&mut self) -> Result<(), AllocError>
        ensures { OnOk result (self.new ≡ self.old ++ 10 ∷ []) }
    {
        self.text.push_str("\n")?;
        // It has no more line feeds than bytes.
        let _len = self.text.len();
        let _bytes = self.text.as_bytes();
        self.feeds += 1;
        Ok(())
    }

    /// Appends another text.
    pub(crate) fn push_text(&mut self, more: &LeafText) -> Result<(), AllocError>
        ensures { OnOk result (self.new ≡ self.old ++ more.now) }
    {
        self.text.push_str(&more.text)?;
        // It has no more line feeds than bytes.
        let _len = self.text.len();
        let _bytes = self.text.as_bytes();
        self.feeds += more.feeds;
        Ok(())
    }

    /// Starts a new line, unless there is no text.
    #[inline(always)]
    pub(crate) fn begin_line(&mut self) -> Result<(), AllocError>
        ensures { OnOk result (self.new ≡ with_line self.old) }
    {
        if self.text.is_empty() {
            return Ok(());
        }
        self.end_line()
    }

    /// Appends lines of text, one after another.
    #[inline(always)]
    pub(crate) fn add_lines(&mut self, lines: &TextLines<'_>) -> Result<(), AllocError>
        ensures { OnOk result (self.new ≡ add_lines self.old (plain_lines_of lines.now.text.now)) }
    {
        self.begin_line()?;
        self.text.push_str(lines.content())?;
        // It has no more line feeds than bytes.
        let _len = self.text.len();
        let _bytes = self.text.as_bytes();
        self.feeds += lines.count - 1;
        Ok(())
    }
}
