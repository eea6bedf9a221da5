//! Link labels, destinations, titles and reference definitions (CommonMark 0.31.2, 6.3 Links and 4.7 Link
//! reference definitions).
ghost use Rattle.std.specs.Prelude.{◌≡◌, ℕ, ◌+◌, List, true, ◌==◌, ◌&&◌, ◌||◌, not, false, ◌≤◌, ◌<◌, suc};
ghost use Rattle.std.specs.Prelude.{length, drop, slice_index, option_map, IfSome, IsUtf8, if◌then◌else◌};
ghost use Rattle.std.specs.List.{list_all};
ghost use Rattle.std.specs.Str.{IsCharBoundary, byte};
ghost use Rattle.cm_scan.specs.spans.Tags.{is_blank_byte};
ghost use Rattle.cm_scan.specs.Words.{begins_with, ◌<|>◌};
ghost use Rattle.cm_scan.specs.inlines.Links.{escapes_next, keep_if, up_to_closing};
ghost use Rattle.cm_scan.specs.inlines.Links.{label, destination, title};
ghost use Rattle.cm_scan.specs.inlines.Links.{bare_run, is_filled, opened_by};
ghost use Rattle.cm_scan.specs.inlines.Links.{titled, untitled, link_definition};
ghost use Rattle.cm_scan.specs.Scanned.{reading_of, definition_with, IsAt};
ghost use Rattle.cm_scan.specs.steps.LinkSteps.{closed_at, ended_at, title_end, ends_bare};
ghost use Rattle.cm_scan.specs.steps.LinkSteps.{begins_character, is_barred, fits, blank_follows};
ghost use Rattle.cm_scan.specs.steps.LinkSteps.{is_plain, is_plain_in_run, is_refused};

use crate::gaps::{after_blanks, after_gap, after_line, is_blank_byte, is_blank_next};
use cm_text::{ByteKind, is_ascii_punct, next_of};
use std::simd::prelude::*;

/// The link label at a place in a text, which is the boundary of a character: what is between its
/// brackets, as it is written, and the place after the right one (CommonMark 0.31.2, 6.3 Links).
///
/// It ends at the first unescaped right bracket, contains no unescaped left one, has at most 999 characters,
/// and not all of them are spaces, tabs and line feeds. At most 999 characters are read if there is none.
#[inline(always)]
pub fn label<'a>(text: &'a str, at: usize) -> Option<(&'a str, usize)>
    requires { IsCharBoundary text.now at }
    ensures read { reading_of text.now result ≡ label (drop at text.now) }
    ensures utf8 { IfSome result (λ read. IsUtf8 read.0.now) }
    ensures boundary { IfSome result (λ read. IsCharBoundary text.now read.1) }
{
    if !is_next(text.as_bytes(), at, b'[') {
        return None;
    }
    let bounds = Bounds {
        open: b'[',
        close: b']',
        most: 999,
        one_line: false,
        blank_lines: true,
    };
    let (label, end) = enclosed(text, at, bounds)?;
    if is_blank(label) {
        return None;
    }
    Some((label, end))
}

/// The link destination at a place in a text, which is the boundary of a character: what is between `<`
/// and `>`, or a run without spaces and control characters, as it is written, and the place after it
/// (CommonMark 0.31.2, 6.3 Links).
///
/// In a run no more than 32 parentheses are open at once.
#[inline(always)]
pub fn destination<'a>(text: &'a str, at: usize) -> Option<(&'a str, usize)>
    requires { IsCharBoundary text.now at }
    ensures read { reading_of text.now result ≡ destination (drop at text.now) }
    ensures utf8 { IfSome result (λ read. IsUtf8 read.0.now) }
    ensures boundary { IfSome result (λ read. IsCharBoundary text.now read.1) }
    ensures place { IfSome result (λ read.
        IsAt text.now (if begins_with (byte "<") (drop at text.now) then at + 1 else at) read.0.now) }
{
    if !is_next(text.as_bytes(), at, b'<') {
        return bare(text, at);
    }
    let bounds = Bounds {
        open: b'<',
        close: b'>',
        most: text.len(),
        one_line: true,
        blank_lines: true,
    };
    enclosed(text, at, bounds)
}

/// The link title at a place in a text, which is the boundary of a character: what is between its
/// quotation marks or parentheses, as it is written, and the place after them (CommonMark 0.31.2, 6.3
/// Links).
///
/// It has no blank line: nothing is read after one.
pub fn title<'a>(text: &'a str, at: usize) -> Option<(&'a str, usize)>
    requires { IsCharBoundary text.now at }
    ensures read { reading_of text.now result ≡ title (drop at text.now) }
    ensures utf8 { IfSome result (λ read. IsUtf8 read.0.now) }
    ensures boundary { IfSome result (λ read. IsCharBoundary text.now read.1) }
    ensures place { IfSome result (λ read. IsAt text.now (at + 1) read.0.now) }
{
    let open = *text.as_bytes().get(at)?;
    let bounds = Bounds {
        open,
        close: end_of_title(open)?,
        most: text.len(),
        one_line: false,
        blank_lines: false,
    };
    enclosed(text, at, bounds)
}

/// A link reference definition, each part as it is written (CommonMark 0.31.2, 4.7 Link
/// reference definitions).
#[derive(Clone, Copy, Debug, PartialEq, Eq, Drop)]
pub struct LinkDefinition<'a> {
    /// what is between the brackets of its label.
    pub label: &'a str,
    /// The destination.
    pub dest: &'a str,
    /// The title, which is empty where there is none.
    pub title: &'a str,
}

/// The link reference definition at a place in a text, which is the boundary of a character, and the place
/// after its last line: after the line feed, or the end of the text (CommonMark 0.31.2, 4.7 Link reference
/// definitions).
#[inline(always)]
pub fn definition<'a>(text: &'a str, at: usize) -> Option<(LinkDefinition<'a>, usize)>
    requires { IsCharBoundary text.now at }
    ensures read { option_map (λ r.
        definition_with r.0.label.now r.0.dest.now r.0.title.now (drop r.1 text.now)) result
        ≡ link_definition (drop at text.now) }
    ensures utf8 { IfSome result (λ r. IsUtf8 r.0.label.now × IsUtf8 r.0.dest.now × IsUtf8 r.0.title.now) }
    ensures boundary { IfSome result (λ r. IsCharBoundary text.now r.1) }
{
    let (label, colon) = label(text, at)?;
    if !is_next(text.as_bytes(), colon, b':') {
        return None;
    }
    let (dest, end) = destination(text, after_gap(text.as_bytes(), colon + 1))?;
    let (title, end) = end_of_definition(text, end)?;
    Some((LinkDefinition { label, dest, title }, end))
}

/// What follows a destination: a title and the end of its line, or the end of the line.
fn end_of_definition<'a>(text: &'a str, at: usize) -> Option<(&'a str, usize)>
    requires { IsCharBoundary text.now at }
    ensures read { (label dest : List ℕ) →
        option_map (λ r. definition_with label dest r.0.now (drop r.1 text.now)) result
        ≡ (titled label dest (drop at text.now) <|> untitled label dest (drop at text.now)) }
    ensures utf8 { IfSome result (λ r. IsUtf8 r.0.now) }
    ensures boundary { IfSome result (λ r. IsCharBoundary text.now r.1) }
{
    if let Some(titled) = titled(text, at) {
        return Some(titled);
    }
    let end = after_line(text.as_bytes(), at)?;
    Some(("", end))
}

/// A title after a destination, and the place after its line.
fn titled<'a>(text: &'a str, at: usize) -> Option<(&'a str, usize)>
    requires { IsCharBoundary text.now at }
    ensures read { (label dest : List ℕ) →
        option_map (λ r. definition_with label dest r.0.now (drop r.1 text.now)) result
        ≡ titled label dest (drop at text.now) }
    ensures utf8 { IfSome result (λ r. IsUtf8 r.0.now) }
    ensures boundary { IfSome result (λ r. IsCharBoundary text.now r.1) }
{
    let bytes = text.as_bytes();
    if !is_blank_next(bytes, at) {
        return None;
    }
    let (title, end) = title(text, after_gap(bytes, at))?;
    let end = after_line(bytes, end)?;
    Some((title, end))
}

/// The byte that ends a title which starts with a byte.
fn end_of_title(b: u8) -> Option<u8>
    ensures { result ≡ title_end b }
{
    match b {
        b'"' => Some(b'"'),
        b'\'' => Some(b'\''),
        b'(' => Some(b')'),
        _ => None,
    }
}

/// Whether there is nothing but spaces, tabs and line feeds.
fn is_blank(text: &str) -> bool
    ensures blank { result ≡ list_all is_blank_byte text.now }
{
    text.bytes().all(is_blank_byte)
}

/// The part between the byte there and the one that ends it, and the place after that.
#[inline(always)]
fn enclosed<'a>(text: &'a str, at: usize, bounds: Bounds) -> Option<(&'a str, usize)>
    requires within { at < length text.now }
    requires ascii { (slice_index text.now at < 128) × (bounds.close < 128) }
    requires no_blanks { (is_blank_byte bounds.open ≡ false) × (is_blank_byte bounds.close ≡ false) }
    requires marks { (is_plain bounds.open ≡ false) × (is_plain bounds.close ≡ false) }
    ensures read { reading_of text.now result ≡ keep_if (fits bounds.most bounds.blank_lines)
        (up_to_closing (λ c. c == bounds.close)
        (is_barred bounds.open bounds.one_line) false (drop (suc at) text.now)) }
    ensures utf8 { IfSome result (λ read. IsUtf8 read.0.now) }
    ensures boundary { IfSome result (λ read. IsCharBoundary text.now read.1) }
    ensures place { IfSome result (λ read. IsAt text.now (at + 1) read.0.now) }
{
    let end = closed(text.as_bytes(), at + 1, bounds)?;
    Some((&text[at + 1..end], end + 1))
}

/// What encloses a stretch of text, and what it may contain.
#[derive(Clone, Copy, Drop)]
struct Bounds {
    /// The byte that starts it, which may not be in it unescaped.
    open: u8,
    /// The byte that ends it.
    close: u8,
    /// The characters that it has at most.
    most: usize,
    /// Whether it contains no line feed.
    one_line: bool,
    /// Whether it may contain blank lines.
    blank_lines: bool,
}

/// The place of the byte that ends a part.
#[inline(always)]
fn closed(text: &[u8], from: usize, bounds: Bounds) -> Option<usize>
    requires within { from ≤ length text.now }
    requires no_blanks { (is_blank_byte bounds.open ≡ false) × (is_blank_byte bounds.close ≡ false) }
    requires marks { (is_plain bounds.open ≡ false) × (is_plain bounds.close ≡ false) }
    ensures read { closed_at text.now from result ≡ keep_if (fits bounds.most bounds.blank_lines)
        (up_to_closing (λ c. c == bounds.close)
        (is_barred bounds.open bounds.one_line) false (drop from text.now)) }
    ensures within { IfSome result (λ end. (from ≤ end) × (end < length text.now)) }
    ensures close { IfSome result (λ end. slice_index text.now end ≡ bounds.close) }
{
    let mut left = bounds.most;
    let mut escaped = false;
    let mut at = from;
    while at < text.len() {
        if left > 0 && is_plain(text[at]) {
            let beyond = plain_end(text, at + 1, left - 1);
            left -= beyond - at;
            escaped = false;
            at = beyond;
            continue;
        }
        if is_end(text[at], escaped, bounds) {
            return Some(at);
        }
        if is_refused(text, at, left, escaped, bounds) {
            return None;
        }
        left -= usize::from(begins_character(text[at]));
        escaped = escapes_next(text, at, escaped);
        at += 1;
    }
    None
}

/// For each byte a digit, of whose last two bits the lower is set where the byte means nothing in a part, and
/// the higher where it means nothing in the run of a destination.
static PLAIN: [u8; 256] = *b"\
    11111111110111111111111111111111\
    13233332003333333333333333332323\
    33333333333333333333333333320233\
    33333333333333333333333333333331\
    22222222222222222222222222222222\
    22222222222222222222222222222222\
    22222222222222222222222222222222\
    22222222222222222222222222222222";

/// The place after the bytes that mean nothing there, up to `most` of them.
#[inline(always)]
fn plain_end(text: &[u8], from: usize, most: usize) -> usize
    requires { from ≤ length text.now }
    ensures within { (from ≤ result) × (result ≤ length text.now) × (result ≤ from + most) }
    ensures plain { (k : ℕ) → from ≤ k → k < result → is_plain (slice_index text.now k) ≡ true }
    ensures next { result < length text.now → result < from + most
        → is_plain (slice_index text.now result) ≡ false }
{
    let end = text.len().min(from.saturating_add(most));
    let mut at = from;
    while at < end && is_plain(text[at]) {
        at += 1;
    }
    at
}

/// A destination that doesn't start with `<`.
fn bare<'a>(text: &'a str, at: usize) -> Option<(&'a str, usize)>
    requires { IsCharBoundary text.now at }
    ensures read { reading_of text.now result ≡ keep_if is_filled (bare_run 0 false (drop at text.now)) }
    ensures utf8 { IfSome result (λ read. IsUtf8 read.0.now) }
    ensures boundary { IfSome result (λ read. IsCharBoundary text.now read.1) }
    ensures place { IfSome result (λ read. IsAt text.now at read.0.now) }
{
    let end = bare_end(text.as_bytes(), at)?;
    if end == at {
        return None;
    }
    Some((&text[at..end], end))
}

/// The place where a run of a destination ends.
fn bare_end(text: &[u8], from: usize) -> Option<usize>
    requires { from ≤ length text.now }
    ensures read { ended_at text.now from result ≡ bare_run 0 false (drop from text.now) }
    ensures within { IfSome result (λ end. (from ≤ end) × (end ≤ length text.now)) }
    ensures ascii { IfSome result (λ end. end < length text.now → slice_index text.now end < 128) }
{
    let mut opened = 0;
    let mut escaped = false;
    let mut at = from;
    while at < text.len() {
        if is_plain_in_run(text[at]) {
            escaped = false;
            at = run_plain_end(text, at + 1);
            continue;
        }
        if is_bare_end(text[at], opened, escaped) {
            break;
        }
        if is_too_deep(text[at], opened, escaped) {
            return None;
        }
        opened = opened_by(text[at], opened, escaped);
        escaped = escapes_next(text, at, escaped);
        at += 1;
    }
    if opened > 0 {
        return None;
    }
    Some(at)
}

/// Whether a byte is one that means nothing in the run of a destination, escaped or not.
#[inline(always)]
fn is_plain_in_run(b: u8) -> bool
    ensures { result ≡ is_plain_in_run b }
{
    PLAIN[usize::from(b)] & 2 != 0
}

/// The other bytes: spaces, control characters, parentheses and backslashes.
struct MeantInRun;

impl ByteKind for MeantInRun {
    ghost passes = { λ b. not (is_plain_in_run b) };

    #[inline(always)]
    fn contains(b: u8) -> bool {
        !is_plain_in_run(b)
    }

    #[inline(always)]
    fn lanes(lanes: u8x16) -> u64 {
        let parentheses = lanes.simd_eq(u8x16::splat(b'(')) | lanes.simd_eq(u8x16::splat(b')'));
        let blanks = lanes.simd_lt(u8x16::splat(b'!')) | lanes.simd_eq(u8x16::splat(127));
        let backslashes = lanes.simd_eq(u8x16::splat(b'\\'));
        (parentheses | blanks | backslashes).to_bitmask()
    }
}

/// The place after the bytes that mean nothing in the run of a destination. Many destinations are long, so
/// they are searched with lanes.
#[inline(always)]
fn run_plain_end(text: &[u8], from: usize) -> usize
    requires { from ≤ length text.now }
    ensures within { (from ≤ result) × (result ≤ length text.now) }
    ensures plain { (k : ℕ) → from ≤ k → k < result → is_plain_in_run (slice_index text.now k) ≡ true }
{
    next_of::<MeantInRun>(text, from)
}

/// A space, an ASCII control character, or a right parenthesis that no left one opened.
fn is_bare_end(b: u8, opened: usize, escaped: bool) -> bool
    ensures { result ≡ (not escaped && ends_bare opened b) }
{
    !escaped && (b == b' ' || b.is_ascii_control() || b == b')' && opened == 0)
}

fn is_too_deep(b: u8, opened: usize, escaped: bool) -> bool
    ensures { result ≡ (not escaped && (b == 40 && opened == 32)) }
{
    !escaped && b == b'(' && opened == 32
}

/// How many parentheses are open after a byte.
fn opened_by(b: u8, opened: usize, escaped: bool) -> usize
    requires { opened ≤ 32 }
    ensures { result ≡ (if escaped then opened else opened_by opened b) }
{
    match b {
        b'(' if !escaped => opened + 1,
        b')' if !escaped => opened.saturating_sub(1),
        _ => opened,
    }
}

/// Whether a byte is one that means nothing in a part, escaped or not.
#[inline(always)]
fn is_plain(b: u8) -> bool
    ensures { result ≡ is_plain b }
{
    PLAIN[usize::from(b)] & 1 != 0
}

fn is_end(b: u8, escaped: bool, bounds: Bounds) -> bool
    ensures { result ≡ (not escaped && b == bounds.close) }
{
    !escaped && b == bounds.close
}

/// Whether no part can hold the byte there.
fn is_refused(text: &[u8], at: usize, left: usize, escaped: bool, bounds: Bounds) -> bool
    requires { at < length text.now }
    ensures refused { result ≡ is_refused left bounds.blank_lines
        (not escaped && is_barred bounds.open bounds.one_line (slice_index text.now at))
        (slice_index text.now at) (drop (suc at) text.now) }
{
    !escaped && is_barred(text[at], bounds)
        || left == 0 && begins_character(text[at])
        || !bounds.blank_lines && begins_blank_line(text, at)
}

fn is_barred(b: u8, bounds: Bounds) -> bool
    ensures { result ≡ is_barred bounds.open bounds.one_line b }
{
    b == bounds.open || bounds.one_line && b == b'\n'
}

#[inline(always)]
fn begins_character(b: u8) -> bool
    ensures { result ≡ begins_character b }
{
    !(128..=191).contains(&b)
}

/// Whether a blank line follows the line feed there.
fn begins_blank_line(text: &[u8], at: usize) -> bool
    requires { at < length text.now }
    ensures blank { result ≡ blank_follows (slice_index text.now at) (drop (suc at) text.now) }
{
    text[at] == b'\n' && is_next(text, after_blanks(text, at + 1), b'\n')
}

/// Whether the byte is at a place.
pub fn is_next(text: &[u8], at: usize, b: u8) -> bool
    ensures next { result ≡ begins_with b (drop at text.now) }
{
    text.get(at) == Some(&b)
}

/// Whether the byte there escapes the next one (2.4 Backslash escapes), unless it is escaped itself.
fn escapes_next(text: &[u8], at: usize, escaped: bool) -> bool
    requires { at < length text.now }
    ensures escapes { result
        ≡ (not escaped && escapes_next (slice_index text.now at) (drop (suc at) text.now)) }
{
    if escaped || text[at] != b'\\' || at + 1 == text.len() {
        return false;
    }
    is_ascii_punct(text[at + 1] as char)
}
