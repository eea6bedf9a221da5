//! What can interrupt a paragraph.
ghost use Rattle.std.specs.Prelude.{◌≡◌, suc, drop};
ghost use Rattle.cm_block.specs.Prelude.{LineView, seen_view, is_blank_text, starts_at_one};
ghost use Rattle.cm_block.specs.Prelude.{can_interrupt, interrupts_paragraph};
ghost use Rattle.cm_block.specs.steps.StartViews.{seen};
ghost use Rattle.cm_block.specs.declared.counted_line.starts.Start.TheVariants.{Html, Item};

use crate::counted_line::starts::{Start, content, start_of};
use cm_scan::{HtmlKind, ItemMarker, is_blank_text};
use cm_text::{Rules, View};
use cm_tree::ListKind;

/// Whether an item with a marker of this kind may interrupt a paragraph: its number, if it has one, is 1.
fn starts_at_one(kind: ListKind) -> bool
    ensures { result ≡ starts_at_one kind }
{
    match kind {
        ListKind::Dot { start } | ListKind::Paren { start } => start == 1,
        ListKind::Dash | ListKind::Plus | ListKind::Star => true,
    }
}

/// Whether only spaces and tabs follow a marker with this number of digits.
fn is_blank_after(digits: usize, content: &[u8]) -> bool
    ensures { result ≡ is_blank_text (drop (suc digits) content.now) }
{
    match content.get(digits..) {
        Some([_, beyond @ ..]) => is_blank_text(beyond),
        _ => true,
    }
}

/// Whether an item can interrupt a paragraph: it isn't empty, and its number is 1 (5.2 List items).
fn item_interrupts(marker: ItemMarker, line: &View<'_>) -> bool
    ensures { result ≡ can_interrupt (seen (Item marker)) (seen_view line.now) }
{
    starts_at_one(marker.kind) && !is_blank_after(marker.digits, content(line).as_bytes())
}

/// Whether an HTML block of this kind can interrupt a paragraph (4.6 HTML blocks).
fn html_interrupts(kind: HtmlKind) -> bool
    ensures { (line : LineView) → result ≡ can_interrupt (seen (Html kind)) line }
{
    !matches!(kind, HtmlKind::AnyTag)
}

/// Whether the line can interrupt a paragraph.
pub(crate) fn interrupts_paragraph(rules: Rules, line: &View<'_>) -> bool
    ensures { result ≡ interrupts_paragraph rules (seen_view line.now) }
{
    match start_of(rules, line) {
        Start::QuoteMarker | Start::Atx(_) | Start::Fence(_) | Start::Break => true,
        Start::Html(kind) => html_interrupts(kind),
        Start::Item(marker) => item_interrupts(marker, line),
        Start::IndentedCode | Start::TextLine => false,
    }
}
