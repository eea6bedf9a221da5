//! The search for bytes that HTML, a listing or JSON doesn't have as they are.
ghost use Rattle.std.specs.Prelude.{◌≡◌, not};
ghost use Rattle.std.specs.List.{list_all};
ghost use Rattle.cm_html.specs.steps.Bytes.{is_escaped, is_changed, has_escape, has_json_escape};

use cm_text::{ByteKind, next_of};
use std::simd::prelude::*;

/// The bytes of the kind, each at the position of its last four bits, which no two of them share. A byte that
/// isn't at its own position is none of them.
const ESCAPED: [u8; 16] = [1, 0, b'"', 0, 0, 0, b'&', 0, 0, 0, 0, 0, b'<', 0, b'>', 0];

/// The bytes that are written as references.
pub(crate) struct Escaped;

impl ByteKind for Escaped {
    ghost passes = { is_escaped };

    #[inline(always)]
    fn contains(b: u8) -> bool {
        ESCAPED[usize::from(b & 15)] == b
    }

    #[inline(always)]
    fn lanes(lanes: u8x16) -> u64 {
        let places = lanes & u8x16::splat(15);
        u8x16::from_array(ESCAPED)
            .swizzle_dyn(places)
            .simd_eq(lanes)
            .to_bitmask()
    }
}

/// The bytes that a listing has by an escape.
pub(crate) struct Quoted;

impl ByteKind for Quoted {
    ghost passes = { has_escape };

    #[inline(always)]
    fn contains(b: u8) -> bool {
        b == b'\\' || b == b'"' || b.is_ascii_control()
    }

    #[inline(always)]
    fn lanes(lanes: u8x16) -> u64 {
        let marks = lanes.simd_eq(u8x16::splat(b'\\')) | lanes.simd_eq(u8x16::splat(b'"'));
        let controls = lanes.simd_lt(u8x16::splat(32)) | lanes.simd_eq(u8x16::splat(127));
        (marks | controls).to_bitmask()
    }
}

/// The bytes that a string of JSON escapes.
pub(crate) struct JsonEscaped;

impl ByteKind for JsonEscaped {
    ghost passes = { has_json_escape };

    #[inline(always)]
    fn contains(b: u8) -> bool {
        b == b'\\' || b == b'"' || b < 32
    }

    #[inline(always)]
    fn lanes(lanes: u8x16) -> u64 {
        let marks = lanes.simd_eq(u8x16::splat(b'\\')) | lanes.simd_eq(u8x16::splat(b'"'));
        let controls = lanes.simd_lt(u8x16::splat(32));
        (marks | controls).to_bitmask()
    }
}

/// For the last four bits of a byte, and for the four before, one bit for each value of the other four with
/// which it is plain: one that a destination keeps and that isn't `&`.
const PLAIN_LOW: [u8; 16] = [
    184, 252, 248, 252, 252, 252, 248, 252, 252, 252, 252, 92, 84, 92, 212, 124,
];

const PLAIN_HIGH: [u8; 16] = [1, 2, 4, 8, 16, 32, 64, 128, 0, 0, 0, 0, 0, 0, 0, 0];

/// The bytes that are written differently in the HTML of a destination.
struct Changed;

impl ByteKind for Changed {
    ghost passes = { is_changed };

    #[inline(always)]
    fn contains(b: u8) -> bool {
        PLAIN_LOW[usize::from(b & 15)] & PLAIN_HIGH[usize::from(b >> 4)] == 0
    }

    #[inline(always)]
    fn lanes(lanes: u8x16) -> u64 {
        let ends = lanes & u8x16::splat(15);
        let fronts = lanes >> u8x16::splat(4);
        let low = u8x16::from_array(PLAIN_LOW).swizzle_dyn(ends);
        let high = u8x16::from_array(PLAIN_HIGH).swizzle_dyn(fronts);
        (low & high).simd_eq(u8x16::splat(0)).to_bitmask()
    }
}

/// Whether HTML has a destination as it is.
pub(crate) fn is_unchanged(destination: &[u8]) -> bool
    ensures { result ≡ list_all (λ b. not (is_changed b)) destination.now }
{
    next_of::<Changed>(destination, 0) == destination.len()
}
