//! A line as it enters open items.
ghost use Rattle.std.specs.Prelude.{◌≡◌, ◌<◌, ◌+◌, ◌-◌, ◌^◌};
ghost use Rattle.cm_block.specs.Prelude.{seen_view};

use crate::counted_line::continuations::with_columns;
use crate::counted_line::readings::{InItem, Inside};
use cm_text::View;

/// A line as it enters open items, unread, and how often it has been read there. It is only returned with the
/// count.
pub(crate) struct LineInItems<'a> {
    inner: View<'a>,
    tests: usize,
}

impl<'a> LineInItems<'a> {
    /// A line that hasn't been read here.
    #[inline(always)]
    pub(super) fn new(line: &View<'a>) -> LineInItems<'a>
        ensures line { seen_view result.inner ≡ seen_view line.now }
        ensures tests { result.tests ≡ 0 }
    {
        LineInItems {
            inner: with_columns(line),
            tests: 0,
        }
    }

    /// The line as it has entered the last of the items, and how often it was read.
    #[inline(always)]
    pub(super) fn into_parts(self) -> (View<'a>, usize)
        ensures line { result.0 ≡ self.entry.inner }
        ensures tests { result.1 ≡ self.entry.tests }
    {
        let LineInItems { inner, tests } = self;
        (inner, tests)
    }

    /// The rest of the line, for one reading, which it counts. There is more of the next item than its
    /// marker.
    #[inline(always)]
    pub(crate) fn read(&mut self) -> InItem<'a>
        requires few { self.old.tests < 2 ^ 64 - 1 }
        ensures line { result.view ≡ self.old.inner }
        ensures same { self.new.inner ≡ self.old.inner }
        ensures tests { self.new.tests ≡ self.old.tests + 1 }
    {
        self.tests += 1;
        InItem { view: self.inner }
    }

    /// Enters an item, in which this is the rest of the line.
    #[inline(always)]
    pub(crate) fn enter(&mut self, inner: Inside<'a>)
        ensures line { self.new.inner ≡ inner.entry.view }
        ensures tests { self.new.tests ≡ self.old.tests }
    {
        self.inner = inner.view;
    }
}
