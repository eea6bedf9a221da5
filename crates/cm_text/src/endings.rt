//! Where lines end.
ghost use Rattle.std.specs.Prelude.{◌≡◌, ◌<◌, ◌≤◌, length, drop, take, true, false};
ghost use Rattle.std.specs.Str.{IsCharBoundary};
ghost use Rattle.cm_text.specs.LineText.{is_line, is_line_ending};
ghost use Rattle.cm_text.specs.Lines.{ends_a_line};
ghost use Rattle.cm_text.specs.Cut.{cut_more, begun};
ghost use Rattle.cm_text.specs.steps.FirstLine.{IsFirstLine};

use crate::search::{ByteKind, next_far_of};
use std::simd::prelude::*;

/// The bytes that end a line.
struct LineEnding;

impl ByteKind for LineEnding {
    ghost passes = { is_line_ending };

    #[inline(always)]
    fn contains(b: u8) -> bool {
        b == b'\n' || b == b'\r'
    }

    #[inline(always)]
    fn lanes(lanes: u8x16) -> u64 {
        (lanes.simd_eq(u8x16::splat(b'\n')) | lanes.simd_eq(u8x16::splat(b'\r'))).to_bitmask()
    }
}

/// The number of bytes of the first line of a text, whose first `known` bytes are known to belong to it.
#[inline(always)]
pub(crate) fn line_len(text: &str, known: usize) -> usize
    requires within { known ≤ length text.now }
    requires plain { is_line (take known text.now) ≡ true }
    ensures line { IsFirstLine result text.now }
{
    next_far_of::<LineEnding>(text.as_bytes(), known)
}

/// Whether a nonempty text ends with a line feed or a carriage return.
pub(crate) fn ends_a_line(text: &str) -> bool
    requires { 0 < length text.now }
    ensures ends { result ≡ ends_a_line text.now }
{
    LineEnding::contains(text.as_bytes()[text.len() - 1])
}

/// The place after the line feed of a carriage return, if the line feed is there; and whether it may still
/// come.
pub(crate) fn past_line_feed(text: &str, at: usize, after_return: bool) -> (usize, bool)
    requires { IsCharBoundary text.now at }
    ensures boundary { IsCharBoundary text.now result.0 }
    ensures waits { result.1 ≡ true → result.0 ≡ length text.now }
    ensures stays { after_return ≡ false → result ≡ (at, false) }
    ensures same { cut_more (begun after_return) (drop at text.now)
        ≡ cut_more (begun result.1) (drop result.0 text.now) }
{
    if !after_return || at >= text.len() {
        return (at, after_return);
    }
    if text.as_bytes()[at] == b'\n' {
        return (at + 1, false);
    }
    (at, false)
}
