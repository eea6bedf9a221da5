//! The search for bytes of a kind, many at a time, each in a lane of a wide register.
//!
//! One proved loop serves for the bytes that end a line, those of inline markup and those that HTML escapes.
//! The search of `memchr` for three bytes took some 300 instructions for each line, a tenth of all on plain
//! text. A single byte is looked up in the table of its kind too: comparing it with each byte takes a branch
//! between letters and spaces that a processor often predicts wrongly. On `lists.md` the lookup avoids 5.5
//! percent of wrong predictions, on `prose.md` 6.8.
ghost use Rattle.std.specs.Prelude.{◌≡◌, ◌+◌, ◌<◌, ◌≤◌, ◌==◌, ◌||◌};
ghost use Rattle.std.specs.Prelude.{ℕ, Bool, false, not, length, get_or, map, None, IfSome};
ghost use Rattle.std.specs.List.{position_or_len, prefix_len};
ghost use Rattle.std.specs.Str.{IsCharBoundary, byte};
ghost use Rattle.std.specs.Simd.Lanes.{chunk, mask_l};
ghost use Rattle.cm_text.specs.Search.{next_place, is_markup, is_marked, is_no_space};

use std::simd::prelude::*;

/// A kind of bytes that is searched for.
pub trait ByteKind {
    /// Whether a byte is of the kind.
    ghost passes: { ℕ → Bool };

    /// Whether a byte is of the kind.
    fn contains(b: u8) -> bool
        ensures { result ≡ passes b };

    /// Which lanes are of the kind, the first in the lowest bit.
    fn lanes(lanes: u8x16) -> u64
        ensures { result ≡ mask_l (map passes lanes) };
}

/// How many of the 16 bytes from `at` on come before the first of the kind, if one of them is.
#[inline(always)]
fn run_of_16<K: ByteKind>(bytes: &[u8], at: usize) -> Option<usize>
    requires { at + 16 ≤ length bytes.now }
    ensures none { result ≡ None → prefix_len (λ b. not (K.passes b)) (chunk at 16 bytes.now) ≡ 16 }
    ensures some { IfSome result (λ run. run ≡ prefix_len (λ b. not (K.passes b)) (chunk at 16 bytes.now)) }
    ensures within { IfSome result (λ run. run < 16) }
{
    let marks = K::lanes(u8x16::from_slice(&bytes[at..]));
    if marks == 0 {
        return None;
    }
    Some(marks.trailing_zeros() as usize)
}

/// The same as `next_of`, byte by byte.
#[inline(always)]
fn next_slowly<K: ByteKind>(bytes: &[u8], from: usize) -> usize
    requires { from ≤ length bytes.now }
    ensures next { result ≡ next_place K.passes bytes.now from }
{
    for at in from..bytes.len() {
        if K::contains(bytes[at]) {
            return at;
        }
    }
    bytes.len()
}

/// The least place, at or after `from`, of a byte of the kind, or the length where there is none.
#[inline(always)]
pub fn next_of<K: ByteKind>(bytes: &[u8], from: usize) -> usize
    ensures next { result ≡ next_place K.passes bytes.now from }
{
    if from >= bytes.len() {
        return bytes.len();
    }
    if bytes.len() - from < 16 {
        return next_slowly::<K>(bytes, from);
    }
    let last = bytes.len() - 16;
    let mut at = from;
    while at < last {
        if let Some(run) = run_of_16::<K>(bytes, at) {
            return at + run;
        }
        at += 16;
    }
    // What has been passed of the last 16 is not of the kind.
    match run_of_16::<K>(bytes, last) {
        Some(run) => last + run,
        None => bytes.len(),
    }
}

/// A place at or after `from` up to which there is none of the kind: 32 bytes are skipped at a time.
#[inline(always)]
fn pass_by_32<K: ByteKind>(bytes: &[u8], from: usize) -> usize
    requires { from ≤ length bytes.now }
    ensures low { from ≤ result }
    ensures within { result ≤ length bytes.now }
    ensures none { (k : ℕ) → from ≤ k → k < result → K.passes (get_or bytes.now k 0) ≡ false }
{
    let mut at = from;
    while bytes.len() - at >= 32 {
        let first = run_of_16::<K>(bytes, at);
        let second = run_of_16::<K>(bytes, at + 16);
        if first.is_some() || second.is_some() {
            return at;
        }
        at += 32;
    }
    at
}

/// The same as `next_of`, for bytes that are far apart.
#[inline(always)]
pub(crate) fn next_far_of<K: ByteKind>(bytes: &[u8], from: usize) -> usize
    requires { from ≤ length bytes.now }
    ensures next { result ≡ next_place K.passes bytes.now from }
{
    let at = pass_by_32::<K>(bytes, from);
    next_of::<K>(bytes, at)
}

/// Marked bytes, each at the position of its last four bits, which at most two of them share. A byte that
/// isn't at its own position is no marked one.
const MARKED: [u8; 16] = [
    b'`', b'!', 0, 0, 0, 0, b'&', 0, 0, 0, b'\n', b'[', b'<', b'\r', b'~', b'_',
];

/// The others.
const ALSO_MARKED: [u8; 16] = [
    1, 0, b'"', 0, 0, 0, 0, 0, 0, 0, b'*', 0, b'\\', b']', b'>', 0,
];

/// Bytes that can start an inline other than text, those that HTML escapes, and those that end a line.
struct Marked;

impl ByteKind for Marked {
    ghost passes = { is_marked };

    #[inline(always)]
    fn contains(b: u8) -> bool {
        let place = usize::from(b & 15);
        (MARKED[place] == b) | (ALSO_MARKED[place] == b)
    }

    #[inline(always)]
    fn lanes(lanes: u8x16) -> u64 {
        let places = lanes & u8x16::splat(15);
        let first = u8x16::from_array(MARKED).swizzle_dyn(places).simd_eq(lanes);
        let second = u8x16::from_array(ALSO_MARKED)
            .swizzle_dyn(places)
            .simd_eq(lanes);
        (first | second).to_bitmask()
    }
}

/// Bytes other than a space.
struct NoSpace;

impl ByteKind for NoSpace {
    ghost passes = { is_no_space };

    #[inline(always)]
    fn contains(b: u8) -> bool {
        b != b' '
    }

    #[inline(always)]
    fn lanes(lanes: u8x16) -> u64 {
        lanes.simd_ne(u8x16::splat(b' ')).to_bitmask()
    }
}

/// How many spaces a text starts with.
#[inline(always)]
pub fn leading_spaces(text: &str) -> usize
    ensures spaces { result ≡ position_or_len is_no_space text.now }
    ensures boundary { IsCharBoundary text.now result }
{
    next_of::<NoSpace>(text.as_bytes(), 0)
}

/// The least place, at or after `from`, of a byte that can start an inline other than text, that HTML
/// escapes, or that ends a line; the length if there is none. The bytes are those of `next_markup`, `"` and
/// `>`.
pub fn next_marked(bytes: &[u8], from: usize) -> usize
    ensures next { result ≡ next_place is_marked bytes.now from }
{
    next_of::<Marked>(bytes, from)
}

/// Whether HTML escapes a byte that isn't markup.
#[inline(always)]
fn is_only_escaped(b: u8) -> bool
    ensures { result ≡ (b == byte "\"" || b == byte ">") }
{
    b == b'"' || b == b'>'
}

/// The least place, at or after `from`, of a byte that can start an inline other than text, or that ends a
/// line; the length if there is none. The bytes are LF, CR, `!`, `&`, `*`, `<`, `[`, `\`, `]`, `_`, a
/// backtick and `~`.
pub fn next_markup(bytes: &[u8], from: usize) -> usize
    ensures next { result ≡ next_place is_markup bytes.now from }
{
    let mut at = next_marked(bytes, from);
    while at < bytes.len() && is_only_escaped(bytes[at]) {
        at = next_marked(bytes, at + 1);
    }
    at
}
