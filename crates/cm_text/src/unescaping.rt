//! Texts with their escapes and references resolved.
ghost use Rattle.std.specs.Prelude.{◌≡◌, [], ◌∷◌, ◌++◌, ◌<◌, ◌≤◌};
ghost use Rattle.std.specs.Prelude.{length, drop, slice_index, string_bytes, option_map, IfOk, OnOk};
ghost use Rattle.std.specs.Str.{IsCharBoundary};
ghost use Rattle.std.specs.Cow.{cow_str_bytes};
ghost use Rattle.memchr.specs.Find.{IsFirstByte, is_byte2};
ghost use Rattle.cm_text.specs.References.{read_of};
ghost use Rattle.cm_text.specs.Unescaping.{escape, special, unescape};

use crate::characters::is_ascii_punct;
use crate::device::NoMemory;
use crate::references::Chars;
use crate::search::{ByteKind, next_of};
use crate::uncounted;
use std::alloc::{AllocError, Global};
use std::borrow::CowStr;
use std::marker::Brand;
use std::simd::prelude::*;
use std::sync::ledger::Blank;

/// A backslash, and an ampersand: escapes and references start with one.
struct Unescaped;

impl ByteKind for Unescaped {
    ghost passes = { is_byte2 92 38 };

    #[inline(always)]
    fn contains(b: u8) -> bool {
        b == b'\\' || b == b'&'
    }

    #[inline(always)]
    fn lanes(lanes: u8x16) -> u64 {
        (lanes.simd_eq(u8x16::splat(b'\\')) | lanes.simd_eq(u8x16::splat(b'&'))).to_bitmask()
    }
}

/// A text with its backslash escapes and references resolved, as those of destinations, titles and info
/// strings are (CommonMark 0.31.2, 2.4 Backslash escapes and 2.5 Entity and numeric character references).
///
/// From the left, a backslash before ASCII punctuation gives that character, and a reference gives its
/// characters; all else stays.
///
/// # Errors
///
/// `NoMemory` if a request for memory was refused.
pub fn unescape(alloc: Global, text: &str) -> Result<String, NoMemory>
    ensures unescaped { IfOk result (λ unescaped. string_bytes unescaped ≡ unescape text.now) }
{
    // No escape or reference gives more bytes than it takes.
    let mut unescaped = String::with_capacity(alloc, text.len())?;
    let mut rest = text;
    while let Some(at) = first_special(rest.as_bytes()) {
        unescaped.push_str(&rest[..at])?;
        let len = push_special(&mut unescaped, &rest[at..])?;
        rest = &rest[at + len..];
    }
    unescaped.push_str(rest)?;
    Ok(unescaped)
}

/// The same, but a text without a backslash or an ampersand is lent as it is.
///
/// # Errors
///
/// `NoMemory` if a request for memory was refused.
#[inline(always)]
pub fn unescape_or_lend(alloc: Global, text: &str) -> Result<CowStr<'_, Global>, NoMemory>
    ensures unescaped { IfOk result (λ unescaped. cow_str_bytes unescaped ≡ unescape text.now) }
{
    match first_special(text.as_bytes()) {
        Some(_) => Ok(CowStr::Owned(unescape(alloc, text)?)),
        None => Ok(CowStr::Borrowed(text)),
    }
}

/// The first place of a backslash or an ampersand. Most destinations and titles are so short that a call of
/// `memchr2` takes more.
#[inline(always)]
fn first_special(text: &[u8]) -> Option<usize>
    ensures found { IsFirstByte (is_byte2 92 38) text.now result }
{
    let at = next_of::<Unescaped>(text, 0);
    (at < text.len()).then_some(at)
}

/// Writes the result of the escape or the reference at the start, or the one byte there. Returns the number
/// of bytes read.
fn push_special(out: &mut String, text: &str) -> Result<usize, AllocError>
    requires some { 0 < length text.now }
    requires ascii { slice_index text.now 0 < 128 }
    ensures within { IfOk result (λ len. (1 ≤ len) × (len ≤ length text.now)) }
    ensures boundary { IfOk result (λ len. IsCharBoundary text.now len) }
    ensures read { IfOk result (λ len. string_bytes out.new ++ unescape (drop len text.now)
        ≡ string_bytes out.old ++ unescape text.now) }
{
    let Some((chars, len)) = special(text.as_bytes()) else {
        out.push_str(&text[..1])?;
        return Ok(1);
    };
    chars.push_to(out)?;
    Ok(len)
}

/// The escape or the reference at the start of a text, and the number of its bytes.
fn special(text: &[u8]) -> Option<(Chars, usize)>
    ensures read { read_of result ≡ special text.now }
{
    if let Some(first) = escaped(text) {
        let chars = Chars {
            first,
            second: None,
        };
        return Some((chars, 2));
    }
    uncounted::reference::<Brand>(text, Blank::new(1))
}

/// The character after a backslash.
fn escaped(text: &[u8]) -> Option<char>
    ensures read { option_map (λ c. (c ∷ [], 2)) result ≡ escape text.now }
{
    if text.len() > 1 && text[0] == b'\\' && is_ascii_punct(text[1] as char) {
        return Some(text[1] as char);
    }
    None
}
