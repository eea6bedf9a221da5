//! What one line is by itself, after its indentation (CommonMark 0.31.2, chapters 4 and 5).
//!
//! `atx` and `fence` return an `AtxHeading` and an `OpeningFence`, because in Rattle the names of a module
//! can't differ only in case.
ghost use Rattle.std.specs.Prelude.{◌≡◌, ◌+◌, ◌==◌, ◌<◌, ◌≤◌};
ghost use Rattle.std.specs.Prelude.{ℕ, List, Some, None, length, drop, true, MatchOption, IfSome};
ghost use Rattle.std.specs.Prelude.{not, nat_le, count_by};
ghost use Rattle.std.specs.List.{list_all, list_any};
ghost use Rattle.std.specs.Str.{IsCharBoundary};
ghost use Rattle.cm_scan.specs.Words.{given, begins_with};
ghost use Rattle.cm_scan.specs.blocks.LineForms.{fewest_marks, is_break_of, is_thematic_break};
ghost use Rattle.cm_scan.specs.blocks.LineForms.{atx_heading, is_underline_of, underline, without_closing};
ghost use Rattle.cm_scan.specs.blocks.LineForms.{fence_of, opening_fence, is_closing_fence};
ghost use Rattle.cm_scan.specs.Scanned.{ending};
ghost use Rattle.cm_scan.specs.steps.LineSteps.{is_break_marker, is_in_break};

use crate::words::{
    after_run, bytes_from, first_plain, is_at_gap, is_blank_text, is_space_or_tab, trim,
};
use cm_text::{ByteKind, next_of};
use std::simd::prelude::*;

/// How many of its marker a thematic break has at least.
const FEWEST_MARKS: usize = 3;

/// Bytes that no thematic break of a marker has.
struct OutsideBreak<const MARKER: u8>;

impl<const MARKER: u8> ByteKind for OutsideBreak<MARKER> {
    ghost passes = { λ b. not (is_in_break MARKER b) };

    #[inline(always)]
    fn contains(b: u8) -> bool {
        !is_in_break(MARKER, b)
    }

    #[inline(always)]
    fn lanes(lanes: u8x16) -> u64 {
        let marker = lanes.simd_ne(u8x16::splat(MARKER));
        let blanks = lanes.simd_ne(u8x16::splat(b' ')) & lanes.simd_ne(u8x16::splat(b'\t'));
        (marker & blanks).to_bitmask()
    }
}

/// Whether a thematic break of a marker may have a byte.
#[inline(always)]
fn is_in_break(marker: u8, b: u8) -> bool
    ensures { result ≡ is_in_break marker b }
{
    b == marker || is_space_or_tab(b)
}

/// Whether all bytes are in a thematic break of the marker.
#[inline(always)]
fn are_in_break<const MARKER: u8>(bytes: &[u8]) -> bool
    ensures bytes { result ≡ list_all (is_in_break MARKER) bytes.now }
{
    next_of::<OutsideBreak<MARKER>>(bytes, 0) == bytes.len()
}

/// Whether there are enough of a byte for a thematic break.
fn has_enough(marker: u8, bytes: &[u8]) -> bool
    ensures enough { result ≡ nat_le fewest_marks (count_by (λ b. b == marker) bytes.now) }
{
    let mut count: usize = 0;
    for b in bytes {
        if *b == marker {
            count += 1;
        }
    }
    count >= FEWEST_MARKS
}

/// Whether there are enough of the marker, and otherwise spaces and tabs. A line of markers of items
/// is searched like this at each of them.
fn is_break_of(marker: u8, bytes: &[u8]) -> bool
    requires { is_break_marker marker ≡ true }
    ensures breaks { result ≡ is_break_of marker bytes.now }
{
    let is_inside = match marker {
        b'-' => are_in_break::<b'-'>(bytes),
        b'_' => are_in_break::<b'_'>(bytes),
        _ => are_in_break::<b'*'>(bytes),
    };
    is_inside && has_enough(marker, bytes)
}

/// Whether a byte is one that a thematic break is made of.
#[inline(always)]
fn is_break_marker(b: u8) -> bool
    ensures { result ≡ is_break_marker b }
{
    b == b'-' || b == b'_' || b == b'*'
}

/// A thematic break from a place on (4.1 Thematic breaks): where it ends, which is the text's end.
pub fn thematic(text: &str, at: usize) -> Option<usize>
    requires within { at ≤ length text.now }
    ensures end { result ≡ given (is_thematic_break (drop at text.now)) (length text.now) }
{
    let bytes = bytes_from(text, at);
    let marker = first_plain(bytes)?;
    if !is_break_marker(marker) {
        return None;
    }
    if !is_break_of(marker, bytes) {
        return None;
    }
    Some(text.len())
}

/// Whether one or more of the marker are at a place, with only spaces and tabs after them.
fn is_underline_of(marker: u8, text: &str, at: usize) -> bool
    requires { at ≤ length text.now }
    ensures underline { result ≡ is_underline_of marker (drop at text.now) }
{
    let beyond = after_run(marker, text, at);
    beyond > at && is_blank_text(bytes_from(text, beyond))
}

/// An underline of a setext heading from a place on (4.3 Setext headings): the level that it gives, 1 or 2,
/// and where it ends, which is the text's end.
pub fn underline(text: &str, at: usize) -> Option<(u8, usize)>
    requires within { at ≤ length text.now }
    ensures underline { result ≡ ending (underline (drop at text.now)) (length text.now) }
{
    if is_underline_of(b'=', text, at) {
        return Some((1, text.len()));
    }
    if is_underline_of(b'-', text, at) {
        return Some((2, text.len()));
    }
    None
}

/// The opening of an ATX heading (4.2 ATX headings).
#[derive(Clone, Copy, Debug, PartialEq, Eq)]
pub struct AtxHeading<'a> {
    /// From 1 to 6.
    pub level: u8,
    /// Its content, as in the source.
    pub content: &'a str,
}

/// A content without its closing sequence of `#`, if a space or tab is before that or nothing is.
fn without_closing(content: &str) -> &str
    ensures content { result.now ≡ without_closing true content.now }
{
    let bytes = content.as_bytes();
    let mut end = bytes.len();
    while end > 0 && bytes[end - 1] == b'#' {
        end -= 1;
    }
    if end == 0 || is_space_or_tab(bytes[end - 1]) {
        return &content[..end];
    }
    content
}

/// An ATX heading from a place on (4.2 ATX headings), and where it ends, which is the text's end.
pub fn atx(text: &str, at: usize) -> Option<(AtxHeading<'_>, usize)>
    requires boundary { IsCharBoundary text.now at }
    ensures heading { MatchOption result (atx_heading (drop at text.now) ≡ None)
        (λ r. atx_heading (drop at text.now)
        ≡ Some (record { level = r.0.level; content = r.0.content.now })) }
    ensures end { IfSome result (λ r. r.1 ≡ length text.now) }
{
    let beyond = after_run(b'#', text, at);
    let level = beyond - at;
    if level == 0 || level > 6 || !is_at_gap(bytes_from(text, beyond)) {
        return None;
    }
    let content = trim(without_closing(trim(&text[beyond..])));
    let level = level as u8;
    Some((AtxHeading { level, content }, text.len()))
}

/// What a fence is made of, and what closes it (4.5 Fenced code blocks).
#[derive(Clone, Copy, Debug, PartialEq, Eq)]
pub struct FenceKind {
    /// A backtick or a tilde.
    pub marker: u8,
    /// How many there are, three or more.
    pub count: usize,
}

/// The opening of a fenced code block (4.5 Fenced code blocks).
#[derive(Clone, Copy, Debug, PartialEq, Eq)]
pub struct OpeningFence<'a> {
    /// What it's made of.
    pub kind: FenceKind,
    /// Its info string, as in the source.
    pub info: &'a str,
}

/// Three or more of the marker from a place on, and the info string after them.
fn fence_of(marker: u8, text: &str, at: usize) -> Option<OpeningFence<'_>>
    requires ascii { marker < 128 }
    requires boundary { IsCharBoundary text.now at }
    ensures fence { MatchOption result (fence_of marker (drop at text.now) ≡ None)
        (λ f. fence_of marker (drop at text.now)
        ≡ Some (record { marker = f.kind.marker; count = f.kind.count; info = f.info.now })) }
{
    let beyond = after_run(marker, text, at);
    let count = beyond - at;
    if count < 3 {
        return None;
    }
    let kind = FenceKind { marker, count };
    let info = trim(&text[beyond..]);
    Some(OpeningFence { kind, info })
}

/// Whether a text has a backtick.
fn has_backtick(text: &str) -> bool
    ensures held { result ≡ list_any (λ b. b == 96) text.now }
{
    text.as_bytes().iter().any(|b| *b == b'`')
}

/// The opening of a fenced code block from a place on, and where it ends, which is the text's end.
pub fn fence(text: &str, at: usize) -> Option<(OpeningFence<'_>, usize)>
    requires boundary { IsCharBoundary text.now at }
    ensures fence { MatchOption result (opening_fence (drop at text.now) ≡ None)
        (λ r. opening_fence (drop at text.now)
        ≡ Some (record { marker = r.0.kind.marker; count = r.0.kind.count; info = r.0.info.now })) }
    ensures end { IfSome result (λ r. r.1 ≡ length text.now) }
{
    let Some(backticks) = fence_of(b'`', text, at) else {
        let tildes = fence_of(b'~', text, at)?;
        return Some((tildes, text.len()));
    };
    if has_backtick(backticks.info) {
        return None;
    }
    Some((backticks, text.len()))
}

/// Whether the text from a place on closes a fence.
fn is_closing_fence(kind: FenceKind, text: &str, at: usize) -> bool
    requires { at ≤ length text.now }
    ensures closes { (info : List ℕ) → result
        ≡ is_closing_fence (record { marker = kind.marker; count = kind.count; info = info })
        (drop at text.now) }
{
    let beyond = after_run(kind.marker, text, at);
    beyond - at >= kind.count && is_blank_text(bytes_from(text, beyond))
}

/// What closes an open fence, from a place on (4.5 Fenced code blocks): where it ends,
/// which is the text's end.
pub fn fence_end(kind: FenceKind, text: &str, at: usize) -> Option<usize>
    requires within { at ≤ length text.now }
    ensures end { (info : List ℕ) → result ≡ given
        (is_closing_fence (record { marker = kind.marker; count = kind.count; info = info })
        (drop at text.now))
        (length text.now) }
{
    if !is_closing_fence(kind, text, at) {
        return None;
    }
    Some(text.len())
}

/// The marker of a block quote at a place (5.1 Block quotes), and the place after it.
pub fn quote_marker(text: &str, at: usize) -> Option<usize>
    requires within { at ≤ length text.now }
    ensures marker { result ≡ given (begins_with 62 (drop at text.now)) (at + 1) }
    ensures boundary { IfSome result (λ end. IsCharBoundary text.now end) }
{
    let bytes = text.as_bytes();
    if at < bytes.len() && bytes[at] == b'>' {
        return Some(at + 1);
    }
    None
}
