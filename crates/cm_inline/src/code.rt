//! The content of a code span (CommonMark 0.31.2, 6.1 Code spans).
ghost use Rattle.std.specs.Prelude.{◌≡◌, ◌+◌, ◌≤◌, length, get_or, IfOk};
ghost use Rattle.std.specs.List.{list_all, slice_range};
ghost use Rattle.cm_scan.specs.spans.CodeSpans.{one_line, stripped};
ghost use Rattle.cm_text.specs.Search.{next_place};
ghost use Rattle.cm_inline.specs.steps.Marks.{is_changed_in_code, is_space_in_code};
ghost use Rattle.cm_inline.specs.steps.Standalone.{IsBetween};

use crate::spare::Spare;
use cm_text::{ByteKind, Looks, Rest, cut_at, next_of};
use cm_tree::Text;
use memchr::memchr;
use std::alloc::AllocError;
use std::simd::prelude::*;
use std::sync::ledger::Ledger;

/// The bytes of the kind, each at the position of its last four bits, which no two of them share. A byte that
/// isn't at its own position is none of them.
const CHANGED: [u8; 16] = [
    b'`', 0, b'"', 0, 0, 0, b'&', 0, 0, 0, b'\n', 0, b'<', 0, b'>', 0,
];

/// The bytes of a code span that HTML doesn't have as they are, and a backtick, which ends it.
struct Changed;

impl ByteKind for Changed {
    ghost passes = { is_changed_in_code };

    #[inline(always)]
    fn contains(b: u8) -> bool {
        CHANGED[usize::from(b & 15)] == b
    }

    #[inline(always)]
    fn lanes(lanes: u8x16) -> u64 {
        let places = lanes & u8x16::splat(15);
        u8x16::from_array(CHANGED)
            .swizzle_dyn(places)
            .simd_eq(lanes)
            .to_bitmask()
    }
}

/// The least place, at or after `from`, of a byte that HTML doesn't have as it is in a code span, or of a
/// backtick; the length if there is none.
#[inline(always)]
pub(crate) fn next_changed(bytes: &[u8], from: usize) -> usize
    ensures next { result ≡ next_place is_changed_in_code bytes.now from }
{
    next_of::<Changed>(bytes, from)
}

/// Whether a byte is a space, or a line feed, which becomes one.
#[inline(always)]
fn is_space(b: u8) -> bool
    ensures { result ≡ is_space_in_code b }
{
    b == b' ' || b == b'\n'
}

/// Whether a space or a line feed comes next.
#[inline(always)]
fn is_space_next<L: Ledger>(bytes: &Rest<'_>, looks: &mut Looks<L>) -> bool
    ensures next { result ≡ is_space_in_code (get_or bytes.now 0 0) }
    ensures looks { looks.new ≡ looks.old + 1 }
{
    match bytes.first(looks) {
        Some((b, _)) => is_space(b),
        None => false,
    }
}

/// Whether each byte is a space or a line feed.
#[inline(always)]
fn are_spaces<L: Ledger>(bytes: &Rest<'_>, looks: &mut Looks<L>) -> bool
    ensures spaces { result ≡ list_all is_space_in_code bytes.now }
    ensures looks { looks.new ≤ looks.old + length bytes.now + 1 }
{
    bytes.skip(is_space, looks).len() == 0
}

/// The range of the content of a code span, from that between its backtick strings: without a space at each
/// end, if there are both and something else is between them.
pub(crate) fn content_between<L: Ledger>(
    source: &str,
    from: usize,
    to: usize,
    looks: &mut Looks<L>,
) -> (usize, usize)
    requires { IsBetween source.now from to }
    ensures stripped { one_line (slice_range source.now result.0 result.1)
        ≡ stripped (one_line (slice_range source.now from to)) }
    ensures between { IsBetween source.now result.0 result.1 }
    ensures looks { looks.new + from ≤ looks.old + to + 3 }
{
    let len = to - from;
    if len < 2 {
        return (from, to);
    }
    let inside = Rest::of(source.as_bytes()).after(from).front(len);
    if !is_space_next(&inside, looks) || !is_space_next(&inside.after(len - 1), looks) {
        return (from, to);
    }
    if are_spaces(&inside, looks) {
        return (from, to);
    }
    (from + 1, to - 1)
}

/// A text with its line feeds as spaces.
pub(crate) fn one_line(spare: &mut Spare, text: &str) -> Result<Text, AllocError>
    ensures line { IfOk result (λ line. line ≡ one_line text.now) }
{
    let mut line = spare.string_for(text.len())?;
    let mut rest = text;
    while let Some(at) = memchr(b'\n', rest.as_bytes()) {
        let (before, after) = cut_at(rest, at);
        line.push_str(before)?;
        line.push(' ')?;
        rest = after;
    }
    line.push_str(rest)?;
    Ok(Text::from(line))
}
