//! A line that is held unread: only calls that count hand out a reading of it, so that a contract can bound
//! how often a line is read.
//!
//! Without a count it shows its length and whether it is marked as lazy, and nothing else. A reading can't be
//! copied, and a scanner uses it up. The scanners are in this module's own modules; what decides which of
//! them run is outside, in `line_tests`, where a line is out of reach without a count.
//!
//! Copying a line counts as one reading although nothing is examined, so the count is at least the number of
//! checks and searches. Each of several lines of text counts as two: a look at its first byte, and the copy.
//! The count stops at the greatest number of its type. It is proved that the lines that fit in memory don't
//! reach it.
ghost use Rattle.std.specs.Prelude.{◌≡◌, ◌+◌, true, false, length, IfSome, OnOk};
ghost use Rattle.cm_block.specs.Prelude.{seen_view, as_lazy, plain_lines_of};
ghost use Rattle.cm_block.specs.steps.LineTests.{Tested};
ghost use Rattle.cm_block.specs.steps.TextRuns.{add_lines};

mod continuations;
mod copies;
mod ends;
mod first_line;
mod interruptions;
mod items;
mod line_in_items;
pub(crate) mod readings;
mod starts;

use crate::leaf_text::LeafText;
use cm_text::{TextLines, View};
pub(crate) use line_in_items::LineInItems;
pub(crate) use readings::{Inside, LeafStart, Reading, Starts, Unmarked};
use std::alloc::AllocError;

/// The rest of a line inside the containers in which it stays, unread, and how often it has been read.
///
/// Only the call that consumes the line returns the count.
pub(crate) struct CountedLine<'a> {
    rest: View<'a>,
    tests: u64,
}

/// Consecutive lines of text, and how often they have been read. Nothing that shows them leaves this type.
pub(crate) struct CountedLines<'a> {
    lines: TextLines<'a>,
    tests: u128,
}

impl<'a> CountedLine<'a> {
    ghost use Rattle.cm_block.specs.steps.LineTests.{ReadOnce};

    /// A whole line, not read yet.
    pub(crate) fn new(line: View<'a>) -> CountedLine<'a>
        ensures line { result.rest ≡ line.entry }
        ensures tests { result.tests ≡ 0 }
    {
        CountedLine {
            rest: line,
            tests: 0,
        }
    }

    /// Consumes the line, and returns how often it was read.
    pub(crate) fn into_tests(self) -> u64
        ensures { result ≡ self.entry.tests }
    {
        let CountedLine { rest: _, tests } = self;
        tests
    }

    /// How many bytes the rest of the line has after its spaces. No byte is read.
    #[inline(always)]
    pub(crate) fn len(&self) -> usize
        ensures { result ≡ length self.now.rest.rest.now }
    {
        self.rest.rest.len()
    }

    /// How many spaces the rest of the line starts with, as far as they are known. No byte is read.
    #[inline(always)]
    pub(crate) fn spaces(&self) -> usize
        ensures { result ≡ self.now.rest.spaces }
    {
        self.rest.spaces
    }

    /// Whether the line is marked as a lazy continuation line. No byte is read.
    #[inline(always)]
    pub(crate) fn is_lazy(&self) -> bool
        ensures { result ≡ self.now.rest.lazy }
    {
        self.rest.lazy
    }

    /// The rest of the line, for one reading, which it counts.
    #[inline(always)]
    pub(crate) fn read(&mut self) -> Reading<'a>
        ensures line { result.view ≡ self.old.rest }
        ensures read { ReadOnce self.old self.new }
    {
        self.count();
        Reading { view: self.rest }
    }

    /// Counts one reading.
    #[inline(always)]
    pub(crate) fn count(&mut self)
        ensures { ReadOnce self.old self.new }
    {
        self.tests = self.tests.saturating_add(1);
    }

    /// Enters a container, in which this is the rest of the line.
    #[inline(always)]
    pub(crate) fn enter(&mut self, inner: Inside<'a>)
        ensures line { self.new.rest ≡ inner.entry.view }
        ensures tests { self.new.tests ≡ self.old.tests }
    {
        self.rest = inner.view;
    }

    /// Marks the line as a lazy continuation line.
    #[inline(always)]
    pub(crate) fn mark_lazy(&mut self)
        ensures line { seen_view self.new.rest ≡ as_lazy (seen_view self.old.rest) }
        ensures lazy { self.new.rest.lazy ≡ true }
        ensures tests { self.new.tests ≡ self.old.tests }
    {
        self.rest.lazy = true;
    }

    /// The line as it enters open items, unless it is marked as a lazy continuation line, which stays in none
    /// by itself. It isn't read yet.
    #[inline(always)]
    pub(crate) fn to_items(&self) -> Option<LineInItems<'a>>
        ensures line { IfSome result (λ line. seen_view line.inner ≡ seen_view self.now.rest) }
        ensures plain { IfSome result (λ line. line.inner.lazy ≡ false) }
        ensures tests { IfSome result (λ line. line.tests ≡ 0) }
    {
        if self.rest.lazy {
            return None;
        }
        Some(LineInItems::new(&self.rest))
    }

    /// Takes over the line as it has entered the items, and how often it was read there.
    #[inline(always)]
    pub(crate) fn enter_items(&mut self, line: LineInItems<'a>)
        ensures line { self.new.rest ≡ line.entry.inner }
        ensures tests { Tested line.entry.tests line.entry.tests self.old.tests self.new.tests }
    {
        let (inner, tests) = line.into_parts();
        self.tests = self.tests.saturating_add(tests as u64);
        self.rest = inner;
    }
}

impl<'a> CountedLines<'a> {
    /// Lines of text. Each was read once to find that it is one.
    #[inline(always)]
    pub(crate) fn new(lines: TextLines<'a>) -> CountedLines<'a>
        ensures lines { result.lines ≡ lines.entry }
        ensures tests { result.tests ≡ lines.entry.count }
    {
        CountedLines {
            lines,
            tests: lines.count as u128,
        }
    }

    /// Consumes the lines, and returns how often they were read.
    #[inline(always)]
    pub(crate) fn into_tests(self) -> u128
        ensures { result ≡ self.entry.tests }
    {
        let CountedLines { lines: _, tests } = self;
        tests
    }

    /// Appends the lines to a run of text (4.8 Paragraphs). Each is read once.
    #[inline(always)]
    pub(crate) fn add_text(&mut self, source: &mut LeafText) -> Result<(), AllocError>
        requires { self.old.tests ≡ self.old.lines.count }
        ensures text { OnOk result (source.new
            ≡ add_lines source.old (plain_lines_of self.old.lines.text.now)) }
        ensures tests { self.new.tests ≡ self.old.tests + self.old.lines.count }
    {
        self.tests += self.lines.count as u128;
        source.add_lines(&self.lines)
    }
}
