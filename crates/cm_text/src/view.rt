//! Lines seen without a copy.
//!
//! `Line::view` makes a `View`. It is a method, because in Rattle two names of a module can't differ only in
//! case.
ghost use Rattle.std.specs.Prelude.{◌≡◌, ◌+◌, ◌*◌, ◌^◌, ◌<◌, length, true};
ghost use Rattle.cm_text.specs.LineText.{is_line, tabs};

use crate::columns::{indent_from, take_columns};

/// A line, or the rest of one after markers, without a copy: its start column, the spaces that a cut tab
/// left, and the rest of its text.
///
/// Its text has no line feed and no carriage return.
#[derive(Clone, Copy, Debug, PartialEq, Eq)]
pub struct View<'a> {
    /// The number of columns before the line.
    pub column: usize,
    /// The number of spaces before the rest of the text.
    pub spaces: usize,
    /// The rest of the text.
    pub rest: &'a str,
    /// Whether the line continues a paragraph without the markers of its containers.
    pub lazy: bool,
    pub ghost one_line: { is_line rest.now ≡ true },
    pub ghost fits: { column + spaces + length rest.now + 3 * tabs rest.now < 2 ^ 64 },
}

impl<'a> View<'a> {
    ghost use Rattle.std.specs.Prelude.{◌≤◌, drop, take};
    ghost use Rattle.std.specs.Str.{IsCharBoundary};
    ghost use Rattle.cm_text.specs.Indentation.{indent_of, strip_columns};
    ghost use Rattle.cm_text.specs.Views.{seen_view};

    /// The columns before the line's first character that is neither space nor tab (2.2 Tabs).
    #[tactic(auto, using(crate::proofs::lemmas::ViewLemmas::indent_spaces))]
    pub fn indent(&self) -> usize
        ensures { result ≡ indent_of (seen_view self.now) }
    {
        self.spaces + indent_from(self.column + self.spaces, self.rest)
    }

    /// The line after the first `n` bytes of its rest, none of which is a tab. There must be no spaces before
    /// the rest.
    pub fn past(&self, n: usize) -> View<'a>
        requires bare { self.now.spaces ≡ 0 }
        requires boundary { IsCharBoundary self.now.rest.now n }
        requires plain { tabs (take n self.now.rest.now) ≡ 0 }
        ensures { seen_view result ≡ record {
          column = self.now.column + n;
          text = drop n self.now.rest.now;
          lazy = self.now.lazy;
        } }
    {
        View {
            column: self.column + n,
            spaces: 0,
            rest: &self.rest[n..],
            lazy: self.lazy,
        }
    }

    /// The line without `n` columns of indentation, or without its indentation if that is less. The start
    /// column grows by what is removed, and a tab that is removed in part leaves its other columns as spaces
    /// (2.2 Tabs).
    pub fn strip(&self, n: usize) -> View<'a>
        ensures line { seen_view result ≡ strip_columns n (seen_view self.now) }
        ensures bare { indent_of (seen_view self.now) ≤ n → result.spaces ≡ 0 }
    {
        if n <= self.spaces {
            return View {
                column: self.column + n,
                spaces: self.spaces - n,
                rest: self.rest,
                lazy: self.lazy,
            };
        }
        let (column, spaces, taken) = take_columns(
            n - self.spaces,
            self.column + self.spaces,
            self.rest,
        );
        View {
            column,
            spaces,
            rest: &self.rest[taken..],
            lazy: self.lazy,
        }
    }
}
