//! Readings of a line, and the scanners that use them up.
//!
//! Only a call that counts hands out a reading, and it can't be copied. Each scanner takes it by value. One
//! that finds nothing returns a reading of another type, so that it can't run twice. What takes a reference
//! looks at no more than the length, the mark and the first byte.
ghost use Rattle.std.specs.Prelude.{◌≡◌, ◌==◌, ◌&&◌, ◌++◌, ◌∷◌, ℕ, List, length, suc, true, false};
ghost use Rattle.std.specs.Prelude.{IfOk, IfErr, IfSome, IfNone, MatchOption, OnOk};
ghost use Rattle.cm_text.specs.Rules as all;
ghost use Rattle.cm_text.specs.TextLines.{is_text_after};
ghost use Rattle.cm_scan.specs.blocks.Starts.{Stays};
ghost use Rattle.cm_block.specs.Prelude.{seen_view, given, is_blank, is_html_end, kind_of, underline_of};
ghost use Rattle.cm_block.specs.Prelude.{start_of, ItemStart, QuoteMarker, after_quote_marker};
ghost use Rattle.cm_block.specs.Prelude.{content_column, first_content, as_lazy, goes_inward};
ghost use Rattle.cm_block.specs.Prelude.{continuation_if_lazy, continuation_in_item, interrupts_paragraph};
ghost use Rattle.cm_block.specs.Prelude.{closes_fence, add_text, with_ending, strip_columns, line_feeds};
ghost use Rattle.cm_block.specs.OpenLeaf.{no_leaf, stays_open, line_of_leaf, begin_of_start};
ghost use Rattle.cm_block.specs.LeafViews.{code_of, leaf_of};
ghost use Rattle.cm_block.specs.Stack.{close_leaves, own_leaves};
ghost use Rattle.cm_block.specs.declared.counted_line.starts.Start.TheVariants.{TextLine};
ghost use Rattle.cm_block.specs.steps.StartViews.{seen};
ghost use Rattle.cm_block.specs.steps.ContinuationViews.{begins_quote, seen_marker, StartsItem};
ghost use Rattle.cm_block.specs.steps.FirstLines.{first_of, is_whole, whole_leaves, opens_leaf, IsStart};

use crate::counted_line::items::PlainItem;
use crate::counted_line::starts::Start;
use crate::counted_line::{continuations, copies, ends, first_line, interruptions, items, starts};
use crate::leaf_text::LeafText;
use crate::open_leaf::{LeafLine, OpenLeaf};
use crate::owners::Owners;
use crate::stack::Stack;
use cm_scan::{FenceKind, HtmlKind, ItemMarker};
use cm_text::{NoMemory, Rules, View};
use std::alloc::{AllocError, Global};

/// One reading of the rest of a line.
#[derive(Drop)]
pub(crate) struct Reading<'a> {
    pub(super) view: View<'a>,
}

/// The same, with the line's leading spaces counted as columns.
#[derive(Drop)]
pub(crate) struct Columns<'a> {
    pub(super) view: View<'a>,
}

/// The same, and it may stay in an item that has more than its marker.
#[derive(Drop)]
pub(crate) struct InItem<'a> {
    pub(super) view: View<'a>,
}

/// The same, and no item shows by the line's first bytes.
#[derive(Drop)]
pub(crate) struct Unmarked<'a> {
    pub(super) view: View<'a>,
}

/// The same, and the line isn't blank.
#[derive(Drop)]
pub(crate) struct Filled<'a> {
    pub(super) view: View<'a>,
}

/// The same, and the line starts no quote.
#[derive(Drop)]
pub(crate) struct Unquoted<'a> {
    pub(super) view: View<'a>,
}

/// The same, and what the line starts is known.
#[derive(Drop)]
pub(crate) struct Searched<'a> {
    pub(super) view: View<'a>,
}

/// The rest of a line inside a container, unread: only a line that enters it shows it again.
#[derive(Drop)]
pub(crate) struct Inside<'a> {
    pub(super) view: View<'a>,
}

/// How a leaf block starts, as it was found in a line. It doesn't show what was found: only a call of the
/// line uses it.
#[derive(Clone, Copy)]
pub(crate) struct LeafStart<'a> {
    found: Start<'a>,
}

/// What a line starts that isn't a quote: an item, with the reading that its content takes, or a leaf block.
#[derive(Drop)]
pub(crate) enum Starts<'a> {
    Item(ItemMarker, Searched<'a>),
    Leaf(LeafStart<'a>),
}

impl<'a> LeafStart<'a> {
    /// The start of a run of text.
    #[inline(always)]
    pub(crate) fn text() -> LeafStart<'a>
        ensures { result.found ≡ TextLine }
    {
        LeafStart {
            found: Start::TextLine,
        }
    }
}

/// Whether no byte is left of a line.
#[inline(always)]
pub(crate) fn has_no_byte(line: &Reading<'_>) -> bool
    ensures { result ≡ (length line.now.view.rest.now == 0) }
{
    line.view.rest.is_empty()
}

/// Whether a line starts with an ASCII letter, without indentation. Then it begins as text.
#[inline(always)]
pub(crate) fn begins_with_letter(line: &Reading<'_>) -> bool
    ensures { result ≡ true →
        ((line.now.view.spaces == 0) && is_text_after 0 line.now.view.rest.now) ≡ true }
{
    starts::begins_with_letter(&line.view)
}

/// Whether a line begins as text, without indentation.
#[inline(always)]
pub(crate) fn begins_as_text(line: &Reading<'_>) -> bool
    ensures { result ≡ ((line.now.view.spaces == 0) && is_text_after 0 line.now.view.rest.now) }
{
    starts::begins_as_text(&line.view)
}

/// Whether a line that starts no item by its first bytes begins as text, without indentation.
#[inline(always)]
pub(crate) fn starts_as_text(line: &Unmarked<'_>) -> bool
    ensures { result ≡ ((line.now.view.spaces == 0) && is_text_after 0 line.now.view.rest.now) }
{
    starts::begins_as_text(&line.view)
}

/// The same reading, with the line's leading spaces counted as columns.
#[inline(always)]
pub(crate) fn with_columns<'a>(line: Reading<'a>) -> Columns<'a>
    ensures { seen_view result.view ≡ seen_view line.entry.view }
{
    Columns {
        view: continuations::with_columns(&line.view),
    }
}

/// Whether a line is blank (2.1 Characters and lines).
#[inline(always)]
pub(crate) fn is_blank(line: Reading<'_>) -> bool
    ensures { result ≡ is_blank (seen_view line.entry.view) }
{
    continuations::is_blank(&line.view)
}

/// Whether the line can be a lazy continuation line: `open_text` says whether the lines so far leave a
/// paragraph open (5.1 Block quotes, 5.2 List items).
#[inline(always)]
pub(crate) fn can_be_lazy(rules: Rules, line: Reading<'_>, open_text: bool) -> bool
    ensures { given result (as_lazy (seen_view line.entry.view))
        ≡ goes_inward (continuation_if_lazy rules (seen_view line.entry.view)) open_text }
{
    continuations::can_be_lazy(rules, &line.view, open_text)
}

/// The line inside an open quote, if its marker is there (5.1 Block quotes).
#[inline(always)]
pub(crate) fn inside_quote<'a>(line: Reading<'a>) -> Option<Inside<'a>>
    ensures { (by : all.Rules) → MatchOption result
        (begins_quote (start_of by (seen_view line.entry.view)) ≡ false)
        (λ inner. (start_of by (seen_view line.entry.view) ≡ QuoteMarker)
        × (seen_view inner.view ≡ after_quote_marker (seen_view line.entry.view))) }
{
    let view = continuations::quote_content(&line.view)?;
    Some(Inside { view })
}

/// Whether a line is marked as a lazy continuation line.
#[inline(always)]
pub(crate) fn is_lazy(line: &Columns<'_>) -> bool
    ensures { result ≡ line.now.view.lazy }
{
    line.view.lazy
}

/// The same reading, unless the line ends an item with only its marker: it is blank.
#[inline(always)]
pub(crate) fn more_than_marker<'a>(bare: bool, line: Columns<'a>) -> Option<InItem<'a>>
    ensures ends { IfNone result ((bare && is_blank (seen_view line.entry.view)) ≡ true) }
    ensures stays { IfSome result (λ _. (bare && is_blank (seen_view line.entry.view)) ≡ false) }
    ensures same { IfSome result (λ more. more.view ≡ line.entry.view) }
{
    if continuations::ends_bare_item(bare, &line.view) {
        return None;
    }
    Some(InItem { view: line.view })
}

/// The line inside an open item whose content starts at a column, if it stays there by itself. It isn't lazy,
/// and there is more of the item than its marker (5.2 List items).
#[inline(always)]
pub(crate) fn inside_item<'a>(line: InItem<'a>, column: usize) -> Option<Inside<'a>>
    requires { line.view.lazy ≡ false }
    ensures continuation { (by : all.Rules) → MatchOption result
        (continuation_in_item by column false (seen_view line.entry.view)
        ≡ continuation_if_lazy by (seen_view line.entry.view))
        (λ inner. continuation_in_item by column false (seen_view line.entry.view)
        ≡ Stays (seen_view inner.view)) }
    ensures lazy { IfSome result (λ inner. inner.view.lazy ≡ false) }
{
    let view = items::inside_item(&line.view, column)?;
    Some(Inside { view })
}

/// The item that a line starts, if that shows by its first bytes.
#[inline(always)]
pub(crate) fn plain_item<'a>(line: Columns<'a>) -> Result<PlainItem<'a>, Unmarked<'a>>
    ensures item { IfOk result (λ item.
        StartsItem (seen_view line.entry.view) item.kind item.column (seen_view item.inner.view)) }
    ensures other { IfErr result (λ other. other.view ≡ line.entry.view) }
{
    match items::plain_item(&line.view) {
        Some(item) => Ok(item),
        None => Err(Unmarked { view: line.view }),
    }
}

/// The same reading, unless the line is blank.
#[inline(always)]
pub(crate) fn unless_blank<'a>(line: Unmarked<'a>) -> Option<Filled<'a>>
    ensures blank { IfNone result (is_blank (seen_view line.entry.view) ≡ true) }
    ensures other { IfSome result (λ other. other.view ≡ line.entry.view) }
    ensures filled { IfSome result (λ other. is_blank (seen_view other.view) ≡ false) }
{
    if continuations::is_blank(&line.view) {
        return None;
    }
    Some(Filled { view: line.view })
}

/// The line inside the quote that it starts, if it does (5.1 Block quotes).
#[inline(always)]
pub(crate) fn quote_content<'a>(line: Filled<'a>) -> Result<Inside<'a>, Unquoted<'a>>
    ensures quote { (by : all.Rules) → IfOk result (λ inner.
        (start_of by (seen_view line.entry.view) ≡ QuoteMarker)
        × (seen_view inner.view ≡ after_quote_marker (seen_view line.entry.view))) }
    ensures none { (by : all.Rules) → IfErr result (λ _.
        begins_quote (start_of by (seen_view line.entry.view)) ≡ false) }
    ensures other { IfErr result (λ other. other.view ≡ line.entry.view) }
{
    match continuations::quote_content(&line.view) {
        Some(view) => Ok(Inside { view }),
        None => Err(Unquoted { view: line.view }),
    }
}

/// What a line starts that starts no quote.
#[inline(always)]
pub(crate) fn start_of<'a>(rules: Rules, line: Unquoted<'a>) -> Starts<'a>
    requires { begins_quote (start_of rules (seen_view line.view)) ≡ false }
    ensures { IsStart rules (seen_view line.entry.view) result }
{
    let found = starts::start_of(rules, &line.view);
    let Start::Item(marker) = found else {
        return Starts::Leaf(LeafStart { found });
    };
    Starts::Item(marker, Searched { view: line.view })
}

/// The column at which the content of the item starts, the line as it enters it, and whether nothing is left
/// of the line there (5.2 List items).
#[inline(always)]
pub(crate) fn item_content<'a>(line: Searched<'a>, marker: &ItemMarker) -> (usize, Inside<'a>, bool)
    requires { (by : all.Rules) × (start_of by (seen_view line.view) ≡ ItemStart (seen_marker marker.now)) }
    ensures column { result.0 ≡ content_column (seen_marker marker.now) (seen_view line.entry.view) }
    ensures first { seen_view result.1.view
        ≡ first_content (seen_marker marker.now) (seen_view line.entry.view) }
    ensures bare { result.2 ≡ is_blank (seen_view result.1.view) }
{
    let (column, view) = continuations::item_content(&line.view, marker);
    let bare = continuations::is_blank(&view);
    (column, Inside { view }, bare)
}

/// The heading level that the line gives, as an underline, to the text above it (4.3 Setext headings).
#[inline(always)]
pub(crate) fn underline_of(line: Reading<'_>) -> Option<u8>
    ensures { result ≡ underline_of (seen_view line.entry.view) }
{
    ends::underline_of(&line.view)
}

/// Whether the line can interrupt a paragraph.
#[inline(always)]
pub(crate) fn interrupts_paragraph(rules: Rules, line: Reading<'_>) -> bool
    ensures { result ≡ interrupts_paragraph rules (seen_view line.entry.view) }
{
    interruptions::interrupts_paragraph(rules, &line.view)
}

/// Whether the line is the closing fence for this fence (4.5 Fenced code blocks).
#[inline(always)]
pub(crate) fn closes_fence(kind: FenceKind, line: Reading<'_>) -> bool
    ensures { (info : List ℕ) → result
        ≡ closes_fence (record { marker = kind.marker; count = kind.count; info = info })
        (seen_view line.entry.view) }
{
    ends::closes_fence(kind, &line.view)
}

/// Whether the line meets the end condition of an HTML block of this kind (4.6 HTML blocks).
#[inline(always)]
pub(crate) fn ends_html(kind: HtmlKind, line: Reading<'_>) -> bool
    ensures { result ≡ is_html_end (kind_of kind) (seen_view line.entry.view).text }
{
    ends::ends_html(kind, &line.view)
}

/// Appends a line to a run of text, without its leading spaces and tabs (4.8 Paragraphs).
#[inline(always)]
pub(crate) fn add_text(source: &mut LeafText, line: Reading<'_>) -> Result<(), AllocError>
    ensures { OnOk result (source.new ≡ add_text source.old (seen_view line.entry.view)) }
{
    copies::add_text(source, &line.view)
}

/// Appends a line to indented code if it belongs to the block. Returns whether it does. A blank line waits
/// for a further line of code (4.4 Indented code blocks).
#[inline(always)]
pub(crate) fn add_code(
    text: &mut LeafText,
    blank_lines: &mut LeafText,
    line: Reading<'_>,
) -> Result<bool, AllocError>
    ensures taken { (by : all.Rules) →
        IfOk result (λ taken. given taken (stays_open (code_of text.new blank_lines.new))
        ≡ line_of_leaf by (code_of text.old blank_lines.old) (seen_view line.entry.view)) }
    ensures kept { IfOk result (λ taken. taken ≡ false → text.new ≡ text.old) }
    ensures waiting { IfOk result (λ taken. taken ≡ false → blank_lines.new ≡ blank_lines.old) }
{
    copies::take_code_line(text, blank_lines, &line.view)
}

/// Appends a line to fenced code, without the first `columns` columns of its indentation (4.5 Fenced code
/// blocks).
#[inline(always)]
pub(crate) fn add_fenced(
    columns: usize,
    text: &mut LeafText,
    line: Reading<'_>,
) -> Result<(), AllocError>
    ensures text { OnOk result (text.new
        ≡ text.old ++ with_ending (strip_columns columns (seen_view line.entry.view))) }
    ensures feeds { OnOk result (line_feeds text.new ≡ suc (line_feeds text.old)) }
{
    copies::push_whole_line(text, &line.view.strip(columns))
}

/// Appends a line to HTML (4.6 HTML blocks).
#[inline(always)]
pub(crate) fn add_html(text: &mut LeafText, line: Reading<'_>) -> Result<(), AllocError>
    ensures text { OnOk result (text.new ≡ text.old ++ 10 ∷ (seen_view line.entry.view).text) }
    ensures feeds { OnOk result (line_feeds text.new ≡ suc (line_feeds text.old)) }
{
    copies::push_next_line(text, &line.view)
}

/// Adds the leaf block of one line that was found to start with a line, if it is one. Returns whether it is.
#[inline(always)]
pub(crate) fn put_whole(
    start: &LeafStart<'_>,
    stack: &mut Stack,
    owners: &mut Owners,
    leaves: &mut usize,
) -> Result<bool, NoMemory>
    requires counted { leaves.old ≡ owners.old.leaves }
    ensures put { IfOk result (λ put. put ≡ is_whole (seen start.now.found)) }
    ensures level { OnOk result (stack.new.level
        ≡ close_leaves stack.old.level (whole_leaves (seen start.now.found))) }
    ensures frames { stack.new.frames ≡ stack.old.frames }
    ensures bare { stack.new.bare ≡ stack.old.bare }
    ensures owners { OnOk result (owners.new
        ≡ own_leaves owners.old (whole_leaves (seen start.now.found))) }
    ensures kept { IfOk result (λ put. put ≡ false → stack.new ≡ stack.old) }
    ensures unowned { IfOk result (λ put. put ≡ false → owners.new ≡ owners.old) }
    ensures counted { leaves.new ≡ owners.new.leaves }
{
    first_line::put_whole(&start.found, stack, owners, leaves)
}

/// Opens the leaf block that was found to start with the line. Returns what the line is to it. A leaf of one
/// line isn't opened, and neither a quote's nor an item's marker opens one. No leaf is open so far.
#[inline(always)]
pub(crate) fn begin_leaf(
    alloc: Global,
    rules: Rules,
    leaf: &mut OpenLeaf,
    start: &LeafStart<'_>,
    line: Reading<'_>,
) -> Result<LeafLine, NoMemory>
    requires { leaf_of leaf.old ≡ no_leaf }
    ensures { IfOk result (λ first. first_of first leaf.new
        ≡ given (opens_leaf (seen start.now.found))
        (begin_of_start rules (seen start.now.found) (seen_view line.entry.view))) }
{
    first_line::begin_leaf(alloc, rules, leaf, &start.found, &line.view)
}
