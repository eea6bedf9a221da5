//! What is found out about a line. Each call is one reading, and no line is in reach without it: a
//! [`CountedLine`] shows only its length, and hands out a reading for a count.
ghost use Rattle.std.specs.Prelude.{◌≡◌, ◌+◌, ◌-◌, ◌<◌, ◌^◌, ◌++◌, ◌∷◌, ℕ};
ghost use Rattle.std.specs.Prelude.{List, [], suc, true, false, IfOk, IfSome, IfNone, OnOk};
ghost use Rattle.cm_block.specs.Prelude.{strip_columns, seen_view, given, is_blank, with_ending};
ghost use Rattle.cm_block.specs.Prelude.{is_html_end, kind_of, continuation_if_lazy, continuation_in_quote};
ghost use Rattle.cm_block.specs.Prelude.{continuation_in_item, interrupts_paragraph, underline_of};
ghost use Rattle.cm_block.specs.Prelude.{goes_inward, line_feeds, next_line, add_text, closes_fence};
ghost use Rattle.cm_text.specs.Rules as all;
ghost use Rattle.cm_block.specs.OpenLeaf.{no_leaf, stays_open, line_of_leaf, begin_of_start};
ghost use Rattle.cm_block.specs.LeafViews.{code_of, leaf_of};
ghost use Rattle.cm_block.specs.Stack.{close_leaves, own_leaves};
ghost use Rattle.cm_block.specs.steps.LeafSteps.{leaf_line};
ghost use Rattle.cm_block.specs.steps.LineTests.{Tested, ReadOnce};
ghost use Rattle.cm_block.specs.steps.StartViews.{seen};
ghost use Rattle.cm_block.specs.steps.ContinuationViews.{IsInside};
ghost use Rattle.cm_block.specs.steps.FirstLines.{first_of, is_whole, whole_leaves, opens_leaf, Found};

use crate::counted_line::{
    CountedLine, LeafStart, LineInItems, Reading, Starts, Unmarked, readings,
};
use crate::leaf_text::LeafText;
use crate::open_leaf::{LeafLine, OpenLeaf};
use crate::owners::Owners;
use crate::stack::Stack;
use cm_scan::{FenceKind, HtmlKind};
use cm_text::{NoMemory, Rules};
use cm_tree::ListKind;
use std::alloc::{AllocError, Global};

/// What a line starts in the innermost container, where no leaf is open.
#[derive(Clone, Copy)]
pub(crate) enum Begins<'a> {
    /// Nothing: it is blank.
    Nothing,
    /// A quote, which the line has entered.
    Quote,
    /// An item, which the line has entered: the kind of its list, the column at which its content starts, and
    /// whether nothing follows its marker.
    Item {
        kind: ListKind,
        column: usize,
        bare: bool,
    },
    /// A leaf block.
    Leaf(LeafStart<'a>),
}

impl<'a> CountedLine<'a> {
    /// Whether nothing is left of the line, and it isn't marked as lazy. No byte is read.
    #[inline(always)]
    pub(crate) fn is_empty(&self) -> bool
        ensures text { result ≡ true → (seen_view self.now.rest).text ≡ [] }
        ensures plain { result ≡ true → self.now.rest.lazy ≡ false }
    {
        self.len() == 0 && self.spaces() == 0 && !self.is_lazy()
    }

    /// Whether the line stays in an open quote by its marker. If so, it continues after the marker (5.1 Block
    /// quotes).
    pub(crate) fn stays_in_quote(&mut self) -> bool
        ensures continuation { (by : all.Rules) → IsInside result
            (continuation_in_quote by (seen_view self.old.rest))
            (continuation_if_lazy by (seen_view self.old.rest)) (seen_view self.new.rest) }
        ensures same { result ≡ false → self.new.rest ≡ self.old.rest }
        ensures tests { Tested 1 1 self.old.tests self.new.tests }
    {
        let Some(inner) = readings::inside_quote(self.read()) else {
            return false;
        };
        self.enter(inner);
        true
    }

    /// Whether the line stays in an open item whose content starts at a column, and if so enters it: it
    /// reaches the column, or is blank. A blank line ends an item with only its marker (5.2 List
    /// items).
    pub(crate) fn stays_in_item(&mut self, column: usize, bare: bool) -> bool
        ensures continuation { (by : all.Rules) → IsInside result (continuation_in_item by column bare
            (seen_view self.old.rest)) (continuation_if_lazy by (seen_view self.old.rest))
            (seen_view self.new.rest) }
        ensures same { result ≡ false → self.new.rest ≡ self.old.rest }
        ensures tests { Tested 1 1 self.old.tests self.new.tests }
    {
        let line = readings::with_columns(self.read());
        if readings::is_lazy(&line) {
            return false;
        }
        let Some(line) = readings::more_than_marker(bare, line) else {
            return false;
        };
        let Some(inner) = readings::inside_item(line, column) else {
            return false;
        };
        self.enter(inner);
        true
    }

    /// Whether the line continues a paragraph without the markers of its containers. If so, it is marked as
    /// lazy. `open_text` says whether the lines so far leave a paragraph open (5.1 Block quotes, 5.2 List
    /// items).
    #[inline(always)]
    pub(crate) fn goes_on_lazily(&mut self, rules: Rules, open_text: bool) -> bool
        ensures line { given result (seen_view self.new.rest)
            ≡ goes_inward (continuation_if_lazy rules (seen_view self.old.rest)) open_text }
        ensures same { result ≡ false → self.new.rest ≡ self.old.rest }
        ensures lazy { result ≡ true → self.new.rest.lazy ≡ true }
        ensures tests { Tested 1 1 self.old.tests self.new.tests }
    {
        if !readings::can_be_lazy(rules, self.read(), open_text) {
            return false;
        }
        self.mark_lazy();
        true
    }

    /// What the line starts in the innermost container, where no leaf is open. The line enters a quote or an
    /// item that it starts.
    pub(crate) fn begins(&mut self, rules: Rules) -> Begins<'a>
        ensures found { Found rules (seen_view self.old.rest) result (seen_view self.new.rest) }
        ensures tests { Tested 1 1 self.old.tests self.new.tests }
    {
        let line = self.read();
        if readings::begins_with_letter(&line) {
            return Begins::Leaf(LeafStart::text());
        }
        if readings::has_no_byte(&line) {
            return Begins::Nothing;
        }
        let unmarked = match readings::plain_item(readings::with_columns(line)) {
            Ok(item) => {
                self.enter(item.inner);
                return Begins::Item {
                    kind: item.kind,
                    column: item.column,
                    bare: false,
                };
            }
            Err(unmarked) => unmarked,
        };
        if readings::starts_as_text(&unmarked) {
            return Begins::Leaf(LeafStart::text());
        }
        self.begins_otherwise(rules, unmarked)
    }

    /// The same, where the line's first bytes don't show it.
    #[inline(always)]
    fn begins_otherwise(&mut self, rules: Rules, line: Unmarked<'a>) -> Begins<'a>
        requires { seen_view line.view ≡ seen_view self.old.rest }
        ensures found { Found rules (seen_view self.old.rest) result (seen_view self.new.rest) }
        ensures tests { self.new.tests ≡ self.old.tests }
    {
        let Some(filled) = readings::unless_blank(line) else {
            return Begins::Nothing;
        };
        let unquoted = match readings::quote_content(filled) {
            Ok(inner) => {
                self.enter(inner);
                return Begins::Quote;
            }
            Err(unquoted) => unquoted,
        };
        match readings::start_of(rules, unquoted) {
            Starts::Leaf(start) => Begins::Leaf(start),
            Starts::Item(marker, searched) => {
                let (column, inner, bare) = readings::item_content(searched, &marker);
                self.enter(inner);
                Begins::Item {
                    kind: marker.kind,
                    column,
                    bare,
                }
            }
        }
    }

    /// Whether the line is blank (2.1 Characters and lines).
    pub(crate) fn is_blank(&mut self) -> bool
        ensures blank { result ≡ is_blank (seen_view self.old.rest) }
        ensures read { ReadOnce self.old self.new }
    {
        readings::is_blank(self.read())
    }

    /// What the line is to a run of text, if one look shows that: none of its lines if it is blank, and one
    /// if it begins as text, without indentation.
    #[inline(always)]
    pub(crate) fn look(&mut self) -> Option<LeafLine>
        ensures next { IfSome result (λ next. (by : all.Rules) (source : List ℕ) →
            next ≡ leaf_line (next_line by source (seen_view self.old.rest))) }
        ensures other { IfNone result (is_blank (seen_view self.old.rest) ≡ false) }
        ensures read { ReadOnce self.old self.new }
    {
        let line = self.read();
        if readings::begins_with_letter(&line) {
            return Some(LeafLine::Stays);
        }
        if readings::begins_as_text(&line) {
            return Some(LeafLine::Stays);
        }
        if readings::is_blank(line) {
            return Some(LeafLine::Leaves);
        }
        None
    }

    /// The heading level that the line gives, as an underline, to the text above it (4.3 Setext headings).
    pub(crate) fn underline(&mut self) -> Option<u8>
        ensures level { result ≡ underline_of (seen_view self.old.rest) }
        ensures read { ReadOnce self.old self.new }
    {
        readings::underline_of(self.read())
    }

    /// Whether the line can interrupt a paragraph.
    pub(crate) fn interrupts_paragraph(&mut self, rules: Rules) -> bool
        ensures interrupts { result ≡ interrupts_paragraph rules (seen_view self.old.rest) }
        ensures read { ReadOnce self.old self.new }
    {
        readings::interrupts_paragraph(rules, self.read())
    }

    /// Whether the line is the closing fence for this fence (4.5 Fenced code blocks).
    pub(crate) fn closes_fence(&mut self, kind: FenceKind) -> bool
        ensures closes { (info : List ℕ) → result
            ≡ closes_fence (record { marker = kind.marker; count = kind.count; info = info })
            (seen_view self.old.rest) }
        ensures read { ReadOnce self.old self.new }
    {
        readings::closes_fence(kind, self.read())
    }

    /// Whether the line meets the end condition of an HTML block of this kind (4.6 HTML blocks).
    pub(crate) fn ends_html(&mut self, kind: HtmlKind) -> bool
        ensures ends { result ≡ is_html_end (kind_of kind) (seen_view self.old.rest).text }
        ensures read { ReadOnce self.old self.new }
    {
        readings::ends_html(kind, self.read())
    }

    /// Appends the line to a run of text, without its leading spaces and tabs (4.8 Paragraphs).
    #[inline(always)]
    pub(crate) fn add_text(&mut self, source: &mut LeafText) -> Result<(), AllocError>
        ensures text { OnOk result (source.new ≡ add_text source.old (seen_view self.old.rest)) }
        ensures read { ReadOnce self.old self.new }
    {
        readings::add_text(source, self.read())
    }

    /// Appends the line to indented code if it belongs to the block. Returns whether it does. A blank line
    /// waits for a further line of code (4.4 Indented code blocks).
    pub(crate) fn add_code(
        &mut self,
        text: &mut LeafText,
        blank_lines: &mut LeafText,
    ) -> Result<bool, AllocError>
        ensures taken { (by : all.Rules) →
            IfOk result (λ taken. given taken (stays_open (code_of text.new blank_lines.new))
            ≡ line_of_leaf by (code_of text.old blank_lines.old) (seen_view self.old.rest)) }
        ensures kept { IfOk result (λ taken. taken ≡ false → text.new ≡ text.old) }
        ensures waiting { IfOk result (λ taken. taken ≡ false → blank_lines.new ≡ blank_lines.old) }
        ensures read { ReadOnce self.old self.new }
    {
        readings::add_code(text, blank_lines, self.read())
    }

    /// Appends the line to fenced code, without the first `columns` columns of its indentation (4.5 Fenced
    /// code blocks).
    pub(crate) fn add_fenced(
        &mut self,
        columns: usize,
        text: &mut LeafText,
    ) -> Result<(), AllocError>
        ensures text { OnOk result (text.new
            ≡ text.old ++ with_ending (strip_columns columns (seen_view self.old.rest))) }
        ensures feeds { OnOk result (line_feeds text.new ≡ suc (line_feeds text.old)) }
        ensures read { ReadOnce self.old self.new }
    {
        readings::add_fenced(columns, text, self.read())
    }

    /// Appends the line to HTML (4.6 HTML blocks).
    pub(crate) fn add_html(&mut self, text: &mut LeafText) -> Result<(), AllocError>
        ensures text { OnOk result (text.new ≡ text.old ++ 10 ∷ (seen_view self.old.rest).text) }
        ensures feeds { OnOk result (line_feeds text.new ≡ suc (line_feeds text.old)) }
        ensures read { ReadOnce self.old self.new }
    {
        readings::add_html(text, self.read())
    }

    /// Adds the leaf block of one line that was found to start with the line, if it is one. Returns
    /// whether it is. Otherwise the line isn't read.
    #[inline(always)]
    pub(crate) fn put_whole(
        &mut self,
        start: &LeafStart<'a>,
        stack: &mut Stack,
        owners: &mut Owners,
        leaves: &mut usize,
    ) -> Result<bool, NoMemory>
        requires counted { leaves.old ≡ owners.old.leaves }
        ensures put { IfOk result (λ put. put ≡ is_whole (seen start.now.found)) }
        ensures level { OnOk result (stack.new.level
            ≡ close_leaves stack.old.level (whole_leaves (seen start.now.found))) }
        ensures frames { stack.new.frames ≡ stack.old.frames }
        ensures bare { stack.new.bare ≡ stack.old.bare }
        ensures owners { OnOk result (owners.new
            ≡ own_leaves owners.old (whole_leaves (seen start.now.found))) }
        ensures kept { IfOk result (λ put. put ≡ false → stack.new ≡ stack.old) }
        ensures unowned { IfOk result (λ put. put ≡ false → owners.new ≡ owners.old) }
        ensures same { self.new.rest ≡ self.old.rest }
        ensures tests { Tested 0 1 self.old.tests self.new.tests }
        ensures unread { IfOk result (λ put. put ≡ false → self.new.tests ≡ self.old.tests) }
        ensures counted { leaves.new ≡ owners.new.leaves }
    {
        if !readings::put_whole(start, stack, owners, leaves)? {
            return Ok(false);
        }
        self.count();
        Ok(true)
    }

    /// Opens the leaf block that was found to start with the line. Returns what the line is to it. A leaf of
    /// one line isn't opened, and neither a quote's nor an item's marker opens one. No leaf is open so far.
    #[inline(always)]
    pub(crate) fn begin_leaf(
        &mut self,
        alloc: Global,
        rules: Rules,
        leaf: &mut OpenLeaf,
        start: &LeafStart<'_>,
    ) -> Result<LeafLine, NoMemory>
        requires { leaf_of leaf.old ≡ no_leaf }
        ensures leaf { IfOk result (λ first. first_of first leaf.new
            ≡ given (opens_leaf (seen start.now.found))
            (begin_of_start rules (seen start.now.found) (seen_view self.old.rest))) }
        ensures read { ReadOnce self.old self.new }
    {
        readings::begin_leaf(alloc, rules, leaf, start, self.read())
    }
}

impl<'a> LineInItems<'a> {
    /// Whether the line stays by itself in an open item whose content starts at a column, and if so enters
    /// it. There is more of the item than its marker (5.2 List items).
    #[inline(always)]
    pub(crate) fn stays_in(&mut self, column: usize) -> bool
        requires plain { self.old.inner.lazy ≡ false }
        requires few { self.old.tests < 2 ^ 64 - 1 }
        ensures continuation { (by : all.Rules) → IsInside result
            (continuation_in_item by column false (seen_view self.old.inner))
            (continuation_if_lazy by (seen_view self.old.inner)) (seen_view self.new.inner) }
        ensures same { result ≡ false → self.new.inner ≡ self.old.inner }
        ensures lazy { self.new.inner.lazy ≡ false }
        ensures tests { self.new.tests ≡ self.old.tests + 1 }
    {
        let Some(inner) = readings::inside_item(self.read(), column) else {
            return false;
        };
        self.enter(inner);
        true
    }
}
