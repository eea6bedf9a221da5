//! Whether a line stays inside an open container, and the rest of it there.
ghost use Rattle.std.specs.Prelude.{◌≡◌, ◌≤◌, ◌&&◌, ◌||◌};
ghost use Rattle.std.specs.Prelude.{drop, length, nat_le, true, false, MatchOption};
ghost use Rattle.cm_block.specs.Prelude.{indent_of, strip_columns, seen_view, is_blank, QuoteMarker};
ghost use Rattle.cm_block.specs.Prelude.{ItemStart, start_of, may_be_lazy};
ghost use Rattle.cm_block.specs.Prelude.{continuation_if_lazy, after_quote_marker, run_length};
ghost use Rattle.cm_block.specs.Prelude.{continuation_in_quote, content_offset, content_column};
ghost use Rattle.cm_block.specs.Prelude.{after_marker, continuation_in_item, first_content};
ghost use Rattle.cm_block.specs.Prelude.{as_lazy, goes_inward, given};
ghost use Rattle.cm_text.specs.Rules as all;
ghost use Rattle.cm_block.specs.steps.LineTests.{Tested};
ghost use Rattle.cm_block.specs.steps.StartViews.{seen};
ghost use Rattle.cm_block.specs.steps.ContinuationViews.{begins_quote, seen_marker};

use crate::counted_line::items::plain_marker;
use crate::counted_line::starts::{Start, begins_plain, content, indent_of, start_of};
use cm_scan::{HtmlKind, ItemMarker, is_blank_text, quote_marker};
use cm_text::{Rules, View, leading_spaces};

/// The number of spaces at the start of a text, and what follows them.
#[inline(always)]
fn after_spaces(text: &str) -> (usize, &str)
    ensures spaces { result.0 ≡ run_length 32 text.now }
    ensures beyond { result.1.now ≡ drop result.0 text.now }
    ensures within { result.0 ≤ length text.now }
{
    let spaces = leading_spaces(text);
    (spaces, &text[spaces..])
}

/// The same line, with its leading spaces counted as columns.
#[inline(always)]
pub(crate) fn with_columns<'a>(line: &View<'a>) -> View<'a>
    ensures { seen_view result ≡ seen_view line.now }
{
    let (spaces, rest) = after_spaces(line.rest);
    View {
        column: line.column,
        spaces: line.spaces + spaces,
        rest,
        lazy: line.lazy,
    }
}

/// Whether a line is blank (2.1 Characters and lines).
pub(crate) fn is_blank(line: &View) -> bool
    ensures { result ≡ is_blank (seen_view line.now) }
{
    if begins_plain(line.rest) {
        return false;
    }
    is_blank_text(line.rest.as_bytes())
}

/// Whether a lazy continuation line may start like this (5.1 Block quotes).
fn may_be_lazy(start: &Start<'_>) -> bool
    ensures { result ≡ may_be_lazy (seen start.now) }
{
    matches!(
        start,
        Start::TextLine | Start::IndentedCode | Start::Html(HtmlKind::AnyTag)
    )
}

/// Whether the line can be a lazy continuation line: `open_text` says whether the lines so far leave a
/// paragraph open (5.1 Block quotes, 5.2 List items).
#[inline(always)]
pub(crate) fn can_be_lazy(rules: Rules, line: &View<'_>, open_text: bool) -> bool
    ensures { given result (as_lazy (seen_view line.now))
        ≡ goes_inward (continuation_if_lazy rules (seen_view line.now)) open_text }
{
    if !open_text {
        return false;
    }
    if let Some(_) = plain_marker(line) {
        return false;
    }
    if is_blank(line) {
        return false;
    }
    begins_lazily(rules, *line)
}

/// The same, while a paragraph is open, for a line that isn't blank.
#[inline(never)]
fn begins_lazily(rules: Rules, line: View<'_>) -> bool
    requires { is_blank (seen_view line) ≡ false }
    ensures { given result (as_lazy (seen_view line.entry))
        ≡ goes_inward (continuation_if_lazy rules (seen_view line.entry)) true }
{
    may_be_lazy(&start_of(rules, &line))
}

/// The line after the marker of a quote at its start, and after one column of space if there is one
/// (5.1 Block quotes).
#[inline(always)]
pub(crate) fn quote_content<'a>(line: &View<'a>) -> Option<View<'a>>
    ensures { (by : all.Rules) → MatchOption result (begins_quote (start_of by (seen_view line.now)) ≡ false)
        (λ inner. (start_of by (seen_view line.now) ≡ QuoteMarker)
        × (seen_view inner ≡ after_quote_marker (seen_view line.now))) }
{
    if line.lazy {
        return None;
    }
    let indent = indent_of(line);
    if indent >= 4 {
        return None;
    }
    if quote_marker(content(line), 0).is_none() {
        return None;
    }
    Some(line.strip(indent).past(1).strip(1))
}

/// Whether a line ends an item with only its marker: it is blank.
pub(crate) fn ends_bare_item(bare: bool, line: &View<'_>) -> bool
    ensures { result ≡ (bare && is_blank (seen_view line.now)) }
{
    bare && is_blank(line)
}

/// Whether a line is blank or reaches a column. `inner` is the line without its indentation up to that
/// column. No more of the line is read.
pub(crate) fn reaches_or_is_blank(line: &View<'_>, inner: &View<'_>, column: usize) -> bool
    requires { seen_view inner.now ≡ strip_columns column (seen_view line.now) }
    ensures { result ≡ (nat_le column (indent_of (seen_view line.now)) || is_blank (seen_view line.now)) }
{
    inner.column - line.column == column || is_blank(line)
}

/// The line after the marker of the item that it starts.
fn after_marker<'a>(line: &View<'a>, marker: &ItemMarker) -> View<'a>
    requires { (by : all.Rules) × (start_of by (seen_view line.now) ≡ ItemStart (seen_marker marker.now)) }
    ensures { seen_view result ≡ after_marker (seen_marker marker.now) (seen_view line.now) }
{
    line.strip(line.indent()).past(marker.digits + 1)
}

/// The columns of space between an item's marker and its content: one to four, or one where there are more
/// or the rest of the line is blank (5.2 List items).
fn content_offset(beyond: &View<'_>) -> usize
    ensures value { result ≡ content_offset (seen_view beyond.now) }
    ensures few { result ≤ 4 }
{
    if is_blank(beyond) {
        return 1;
    }
    let indent = beyond.indent();
    if indent > 4 {
        return 1;
    }
    indent
}

/// The column at which the content of the item starts, and the line as it enters it (5.2 List items).
pub(crate) fn item_content<'a>(line: &View<'a>, marker: &ItemMarker) -> (usize, View<'a>)
    requires { (by : all.Rules) × (start_of by (seen_view line.now) ≡ ItemStart (seen_marker marker.now)) }
    ensures column { result.0 ≡ content_column (seen_marker marker.now) (seen_view line.now) }
    ensures first { seen_view result.1 ≡ first_content (seen_marker marker.now) (seen_view line.now) }
{
    let beyond = with_columns(&after_marker(line, marker));
    let offset = content_offset(&beyond);
    let column = line.indent() + (marker.digits + 1) + offset;
    (column, beyond.strip(offset))
}
