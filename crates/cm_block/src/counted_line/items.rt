//! Whether a line stays in an open item by itself, and the rest of it there.
ghost use Rattle.std.specs.Prelude.{◌≡◌, ◌<◌, ◌≤◌, ◌+◌, ◌-◌, ◌^◌, ◌==◌, true, false, length, get_or};
ghost use Rattle.std.specs.Prelude.{Some, IfSome};
ghost use Rattle.std.specs.Prelude.{MatchOption};
ghost use Rattle.cm_scan.specs.Words.{is_space_or_tab};
ghost use Rattle.cm_block.specs.Prelude.{item_marker};
ghost use Rattle.cm_text.specs.Rules as all;
ghost use Rattle.cm_scan.specs.blocks.Starts.{Stays};
ghost use Rattle.cm_block.specs.Prelude.{seen_view, strip_columns};
ghost use Rattle.cm_block.specs.Prelude.{continuation_if_lazy, continuation_in_item};
ghost use Rattle.cm_block.specs.steps.ContinuationViews.{IsInside, seen_marker};
ghost use Rattle.cm_block.specs.steps.ContinuationViews.{StartsItem, StartsPlainly};

use crate::counted_line::continuations::{reaches_or_is_blank, with_columns};
use crate::counted_line::readings::Inside;
use crate::counted_line::starts::begins_plain;
use cm_scan::{ItemMarker, bullet_kind, item_marker};
use cm_text::View;
use cm_tree::ListKind;

/// The line without the given number of its leading spaces.
#[inline(always)]
fn past_spaces<'a>(line: &View<'a>, count: usize) -> View<'a>
    requires { count ≤ line.now.spaces }
    ensures line { seen_view result ≡ strip_columns count (seen_view line.now) }
    ensures column { result.column ≡ line.now.column + count }
    ensures spaces { result.spaces ≡ line.now.spaces - count }
    ensures rest { result.rest.now ≡ line.now.rest.now }
    ensures lazy { result.lazy ≡ line.now.lazy }
{
    View {
        column: line.column + count,
        spaces: line.spaces - count,
        rest: line.rest,
        lazy: line.lazy,
    }
}

/// The line as it enters an open item whose content starts at a column, if it stays there by itself. The rest
/// of the line has no leading space, and there is more of the item than its marker (5.2 List items).
#[inline(always)]
pub(crate) fn inside_item<'a>(line: &View<'a>, column: usize) -> Option<View<'a>>
    requires { line.now.lazy ≡ false }
    ensures continuation { (by : all.Rules) → MatchOption result
        (continuation_in_item by column false (seen_view line.now)
        ≡ continuation_if_lazy by (seen_view line.now))
        (λ inner. continuation_in_item by column false (seen_view line.now) ≡ Stays (seen_view inner)) }
    ensures lazy { IfSome result (λ inner. inner.lazy ≡ false) }
{
    if column <= line.spaces {
        return Some(past_spaces(line, column));
    }
    if line.rest.is_empty() {
        return Some(past_spaces(line, line.spaces));
    }
    if begins_plain(line.rest) {
        return None;
    }
    let inner = line.strip(column);
    if !reaches_or_is_blank(line, &inner, column) {
        return None;
    }
    Some(inner)
}

/// Whether one space follows a marker that ends at `end`, and then a byte that is neither blank nor the first
/// of the text.
#[inline(always)]
fn has_plain_content(text: &[u8], end: usize) -> bool
    requires { end ≤ length text.now }
    ensures within { result ≡ true → end + 1 < length text.now }
    ensures space { result ≡ true → get_or text.now end 0 ≡ 32 }
    ensures plain { result ≡ true → is_space_or_tab (get_or text.now (end + 1) 0) ≡ false }
    ensures other { result ≡ true → (get_or text.now (end + 1) 0 == get_or text.now 0 0) ≡ false }
{
    end + 1 < text.len()
        && text[end] == b' '
        && !matches!(text[end + 1], b' ' | b'\t')
        && text[end + 1] != text[0]
}

/// The marker of an item at the start of a text, and the place after it. Of bullets it finds those before a
/// space.
#[inline(always)]
fn quick_marker(text: &str) -> Option<(ItemMarker, usize)>
    ensures marker { IfSome result (λ r. item_marker text.now ≡ Some (seen_marker r.0)) }
    ensures end { IfSome result (λ r. r.1 ≡ r.0.digits + 1) }
    ensures within { IfSome result (λ r. r.1 ≤ length text.now) }
{
    let kind = match text.as_bytes() {
        [b'0'..=b'9', ..] => return item_marker(text, 0),
        [bullet, b' ', ..] => bullet_kind(*bullet)?,
        _ => return None,
    };
    Some((ItemMarker { kind, digits: 0 }, 1))
}

/// The marker of the item that a line starts, and the place after it, if that shows by the marker, one space,
/// and the byte after them. It does for most items (5.2 List items).
#[inline(always)]
pub(super) fn plain_marker(line: &View<'_>) -> Option<(ItemMarker, usize)>
    ensures { IfSome result (λ r. StartsPlainly line.now (seen_marker r.0) r.1) }
{
    let bytes = line.rest.as_bytes();
    if line.lazy || line.spaces > 3 {
        return None;
    }
    let (marker, end) = quick_marker(line.rest)?;
    if !has_plain_content(bytes, end) {
        return None;
    }
    Some((marker, end))
}

/// An item that a line starts: the kind of its list, the column at which its content starts, and the line as
/// it enters it.
#[derive(Drop)]
pub(crate) struct PlainItem<'a> {
    pub(crate) kind: ListKind,
    pub(crate) column: usize,
    pub(crate) inner: Inside<'a>,
}

/// The item that a line starts, if that shows by its first bytes.
#[inline(always)]
pub(super) fn plain_item<'a>(line: &View<'a>) -> Option<PlainItem<'a>>
    ensures { IfSome result (λ item.
        StartsItem (seen_view line.now) item.kind item.column (seen_view item.inner.view)) }
{
    let (marker, end) = plain_marker(line)?;
    // It is UTF-8.
    let _bytes = line.rest.as_bytes();
    Some(PlainItem {
        kind: marker.kind,
        column: line.spaces + end + 1,
        inner: Inside {
            view: past_spaces(line, line.spaces).past(end + 1),
        },
    })
}
