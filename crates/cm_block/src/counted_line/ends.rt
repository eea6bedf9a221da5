//! Whether a line ends the open leaf.
ghost use Rattle.std.specs.Prelude.{◌≡◌, ℕ, List};
ghost use Rattle.cm_block.specs.Prelude.{seen_view, underline_of, closes_fence, is_html_end, kind_of};
ghost use Rattle.cm_block.specs.steps.ContinuationViews.{may_close_fence};

use crate::counted_line::starts::{
    begins_plain, begins_with_four_spaces, begins_with_letter, content, indent_of,
};
use crate::open_leaf::ends_at_blank_line;
use cm_scan::{FenceKind, HtmlKind, fence_end, html_end, is_next, underline};
use cm_text::View;

/// The heading level that the line gives, as an underline, to the text above it. A lazy continuation line is
/// none (4.3 Setext headings).
pub(crate) fn underline_of(line: &View<'_>) -> Option<u8>
    ensures { result ≡ underline_of (seen_view line.now) }
{
    if line.lazy {
        return None;
    }
    if begins_with_letter(line) {
        return None;
    }
    if indent_of(line) > 3 {
        return None;
    }
    let (level, _) = underline(content(line), 0)?;
    Some(level)
}

/// Whether a line may be the closing fence, by its first bytes. Those of most lines of code show that it
/// isn't.
#[inline(always)]
fn may_close_fence(kind: FenceKind, line: &View<'_>) -> bool
    ensures { result ≡ may_close_fence kind.marker line.now.rest.now }
{
    if begins_plain(line.rest) {
        return is_next(line.rest.as_bytes(), 0, kind.marker);
    }
    !begins_with_four_spaces(line.rest)
}

/// Whether the line is the closing fence: it has up to 3 columns of indentation (4.5 Fenced code blocks).
pub(crate) fn closes_fence(kind: FenceKind, line: &View<'_>) -> bool
    ensures { (info : List ℕ) → result
        ≡ closes_fence (record { marker = kind.marker; count = kind.count; info = info })
        (seen_view line.now) }
{
    if !may_close_fence(kind, line) {
        return false;
    }
    line.indent() <= 3 && fence_end(kind, content(line), 0).is_some()
}

/// Whether the line meets the end condition of an HTML block of this kind. Those that a blank line ends have
/// none.
pub(crate) fn ends_html(kind: HtmlKind, line: &View<'_>) -> bool
    ensures { result ≡ is_html_end (kind_of kind) (seen_view line.now).text }
{
    if ends_at_blank_line(kind) {
        return false;
    }
    html_end(kind, line.rest, 0).is_some()
}
