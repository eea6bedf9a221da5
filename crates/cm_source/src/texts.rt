//! Texts, spelled so that no character of theirs is markup.
ghost use Rattle.std.specs.Prelude.{◌≡◌, ◌&&◌, ◌||◌, ◌==◌, ◌<◌, ◌≤◌, ◌++◌};
ghost use Rattle.std.specs.Prelude.{false, not, length, string_bytes, OnOk};
ghost use Rattle.cm_source.specs.Texts.{numbered, spelled_byte, spelled_bytes, spelled_text};
ghost use Rattle.cm_source.specs.Texts.{longest_run, is_padded, spelled_title, spelled_target};
ghost use Rattle.std.specs.List.{list_all, list_any};
ghost use Rattle.cm_scan.specs.Words.{begins_with, is_empty};
ghost use Rattle.cm_scan.specs.spans.Autolinks.{ends_with};
ghost use Rattle.cm_source.specs.Refusals.{is_code_text};
ghost use Rattle.cm_source.specs.steps.Bytes.{is_spelled};

use crate::search::has_byte;
use cm_scan::is_next;
use cm_text::{ByteKind, Replaced, is_ascii_punct, push_replaced};
use std::alloc::AllocError;
use std::simd::prelude::*;

/// Whether a byte isn't written unchanged. Most bytes are small letters, so these are tested first.
fn is_spelled(b: u8) -> bool
    ensures { result ≡ is_spelled b }
{
    !b.is_ascii_lowercase() && (b.is_ascii_control() || is_ascii_punct(b as char))
}

/// The bytes that aren't written as they are.
struct Spelled;

impl ByteKind for Spelled {
    ghost passes = { is_spelled };

    #[inline(always)]
    fn contains(b: u8) -> bool {
        is_spelled(b)
    }

    #[inline(always)]
    fn lanes(lanes: u8x16) -> u64 {
        // Letters, digits, spaces and bytes past ASCII are written as they are.
        let lower = lanes | u8x16::splat(0x20);
        let no_letters = (lower - u8x16::splat(b'a')).simd_ge(u8x16::splat(26));
        let no_digits = (lanes - u8x16::splat(b'0')).simd_ge(u8x16::splat(10));
        let no_spaces = lanes.simd_ne(u8x16::splat(b' '));
        let ascii = lanes.simd_lt(u8x16::splat(0x80));
        (no_letters & no_digits & no_spaces & ascii).to_bitmask()
    }
}

/// Writes a character by its number.
fn push_numbered(out: &mut String, b: u8) -> Result<(), AllocError>
    ensures { OnOk result (string_bytes out.new ≡ string_bytes out.old ++ numbered b) }
{
    write!(out, "&#{b};")
}

impl Replaced for Spelled {
    ghost written = { spelled_byte };

    fn push(out: &mut String, b: u8) -> Result<(), AllocError> {
        if b == b'`' || b.is_ascii_control() {
            return push_numbered(out, b);
        }
        out.push('\\')?;
        out.push(b as char)
    }
}

/// Writes a text in which no space is at the start or the end of a line.
pub(crate) fn push_spelled(out: &mut String, text: &str) -> Result<(), AllocError>
    ensures { OnOk result (string_bytes out.new ≡ string_bytes out.old ++ spelled_bytes text.now) }
{
    push_replaced::<Spelled>(out, text)
}

/// Writes a text that isn't at the start of a line. `last` says whether it is at the end of one.
#[inline(always)]
fn push_to_end(out: &mut String, text: &str, last: bool) -> Result<(), AllocError>
    ensures { OnOk result (string_bytes out.new ≡ string_bytes out.old ++ spelled_text false last text.now) }
{
    if !last {
        return push_spelled(out, text);
    }
    match text.strip_suffix(' ') {
        Some(before) => {
            push_spelled(out, before)?;
            push_numbered(out, b' ')
        }
        None => push_spelled(out, text),
    }
}

/// Writes a text that may be at the start of a line, and at the end of one.
#[inline(always)]
pub(crate) fn push_text(
    out: &mut String,
    text: &str,
    first: bool,
    last: bool,
) -> Result<(), AllocError>
    ensures { OnOk result (string_bytes out.new ≡ string_bytes out.old ++ spelled_text first last text.now) }
{
    if !first {
        return push_to_end(out, text, last);
    }
    match text.strip_prefix(' ') {
        Some(beyond) => {
            push_numbered(out, b' ')?;
            push_to_end(out, beyond, last)
        }
        None => push_to_end(out, text, last),
    }
}

/// Writes a title, unless it is empty.
fn push_title(out: &mut String, title: &str) -> Result<(), AllocError>
    ensures { OnOk result (string_bytes out.new ≡ string_bytes out.old ++ spelled_title title.now) }
{
    if title.is_empty() {
        return Ok(());
    }
    out.push_str(" \"")?;
    push_spelled(out, title)?;
    out.push_str("\"")
}

/// Writes what follows the content of a link or an image.
pub(crate) fn push_target(out: &mut String, dest: &str, title: &str) -> Result<(), AllocError>
    ensures { OnOk result (string_bytes out.new ≡ string_bytes out.old ++ spelled_target dest.now title.now) }
{
    out.push_str("](<")?;
    push_spelled(out, dest)?;
    out.push_str(">")?;
    push_title(out, title)?;
    out.push_str(")")
}

/// The longest run of backticks in a text.
pub(crate) fn longest_run(text: &str) -> usize
    ensures longest { result ≡ longest_run 0 text.now }
    ensures within { result ≤ length text.now }
{
    if has_byte(b'`', text) {
        longest_of_runs(text)
    } else {
        0
    }
}

/// The same, byte by byte.
fn longest_of_runs(text: &str) -> usize
    ensures longest { result ≡ longest_run 0 text.now }
    ensures within { result ≤ length text.now }
{
    let mut longest = 0;
    let mut run = 0;
    for b in text.as_bytes() {
        run = if *b == b'`' { run + 1 } else { 0 };
        longest = longest.max(run);
    }
    longest
}

/// Whether a text ends with a byte.
fn ends_with(text: &[u8], b: u8) -> bool
    ensures { result ≡ ends_with b text.now }
{
    !text.is_empty() && text[text.len() - 1] == b
}

/// Whether a text is nothing, or ends with a line feed.
fn is_ended(text: &str) -> bool
    ensures { result ≡ (is_empty text.now || ends_with 10 text.now) }
{
    text.is_empty() || ends_with(text.as_bytes(), b'\n')
}

/// Whether a text has a carriage return.
fn has_return(text: &str) -> bool
    ensures { result ≡ list_any (λ b. b == 13) text.now }
{
    has_byte(b'\r', text)
}

/// Whether a text is nothing, or lines that line feeds end.
pub(crate) fn is_code_text(text: &str) -> bool
    ensures { result ≡ is_code_text text.now }
{
    is_ended(text) && !has_return(text)
}

/// Whether a text has nothing but spaces.
fn is_spaces(text: &[u8]) -> bool
    ensures { result ≡ list_all (λ b. b == 32) text.now }
{
    text.iter().all(|b| *b == b' ')
}

/// Whether a text has a space at both ends and something else besides.
fn has_outer_spaces(text: &[u8]) -> bool
    ensures { result
        ≡ (begins_with 32 text.now && ends_with 32 text.now && not (list_all (λ b. b == 32) text.now)) }
{
    is_next(text, 0, b' ') && ends_with(text, b' ') && !is_spaces(text)
}

/// Whether reading a code span of this text would strip a space.
pub(crate) fn is_padded(text: &[u8]) -> bool
    ensures { result ≡ is_padded text.now }
{
    is_next(text, 0, b'`') || ends_with(text, b'`') || has_outer_spaces(text)
}
