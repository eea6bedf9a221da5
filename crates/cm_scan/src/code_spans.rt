//! Code spans in a text (CommonMark 0.31.2, 6.1 Code spans).
ghost use Rattle.std.specs.Prelude.{◌≡◌, ◌+◌, ◌*◌, ◌-◌, ◌<◌, ◌≤◌, ℕ, None, false, length, drop, get_or};
ghost use Rattle.std.specs.Prelude.{IfSome, IsUtf8};
ghost use Rattle.std.specs.Str.{IsCharBoundary};
ghost use Rattle.memchr.specs.Find.{IsFirstByte, is_byte};
ghost use Rattle.cm_scan.specs.Words.{run_length, after_run};
ghost use Rattle.cm_scan.specs.spans.CodeSpans.{up_to_run, spanned_as_written, code_span, span_content};
ghost use Rattle.cm_scan.specs.Scanned.{reading_of, run_at};

use crate::plain_spans;
use crate::words::{after_run, bytes_from};
use cm_text::{ByteKind, Looks, Rest};
use std::marker::Brand;
use std::simd::prelude::*;
use std::sync::ledger::{Blank, Ledger};

/// A backtick.
struct Backtick;

impl ByteKind for Backtick {
    ghost passes = { is_byte 96 };

    #[inline(always)]
    fn contains(b: u8) -> bool {
        b == b'`'
    }

    #[inline(always)]
    fn lanes(lanes: u8x16) -> u64 {
        lanes.simd_eq(u8x16::splat(b'`')).to_bitmask()
    }
}

/// The code span at a place in a text, which is the boundary of a character: what is between its two backtick
/// strings, as it is written, and the place after the second one (CommonMark 0.31.2, 6.1 Code spans).
///
/// The first backtick string has as many backticks as there are in a row from that place on, and the other is
/// the next one of the same length. If there is none, no backtick string of that length further on has one
/// either, so a caller needn't search for their ends.
pub fn code_span<'a>(text: &'a str, at: usize) -> Option<(&'a str, usize)>
    requires { IsCharBoundary text.now at }
    ensures read { reading_of text.now result ≡ spanned_as_written (drop at text.now) }
    ensures content { span_content (reading_of text.now result) ≡ code_span (drop at text.now) }
    ensures none_later { result ≡ None → (later : ℕ) → at ≤ later
        → run_length 96 (drop later text.now) ≡ run_length 96 (drop at text.now)
        → spanned_as_written (drop later text.now) ≡ None }
    ensures utf8 { IfSome result (λ read. IsUtf8 read.0.now) }
    ensures boundary { IfSome result (λ read. IsCharBoundary text.now read.1) }
{
    let start = after_run(b'`', text, at);
    if start == at {
        return None;
    }
    let (close, end) = next_run(text, start, start - at)?;
    Some((&text[start..close], end))
}

/// The same for a caller that counts no looks, with the boundaries of characters.
fn next_run(text: &str, from: usize, count: usize) -> Option<(usize, usize)>
    requires { IsCharBoundary text.now from }
    ensures read { run_at text.now from result ≡ up_to_run count false (drop from text.now) }
    ensures within { IfSome result (λ run. (from ≤ run.0) × (run.0 ≤ run.1) × (run.1 ≤ length text.now)) }
    ensures boundary { IfSome result (λ run. IsCharBoundary text.now run.0 × IsCharBoundary text.now run.1) }
{
    plain_spans::next_backticks::<Brand>(bytes_from(text, 0), from, count, Blank::new(1))
}

/// Whether a byte is a backtick.
#[inline(always)]
fn is_backtick(b: u8) -> bool
    ensures { result ≡ is_byte 96 b }
{
    b == b'`'
}

/// The place of the first backtick. It is mostly near, and a call of `memchr` takes more.
#[inline(always)]
fn first_backtick<L: Ledger>(bytes: &Rest<'_>, looks: &mut Looks<L>) -> Option<usize>
    ensures found { IsFirstByte (is_byte 96) bytes.now result }
    ensures some { IfSome result (λ at. looks.new ≡ looks.old + at + 16) }
    ensures none { result ≡ None → looks.new ≡ looks.old + length bytes.now + 16 }
{
    let at = bytes.next_of::<Backtick, L>(looks);
    (at < bytes.len()).then_some(at)
}

/// The place after the backticks at a place, however many there are, or the place itself.
#[inline(always)]
pub fn after_backticks<L: Ledger>(text: &Rest<'_>, at: usize, looks: &mut Looks<L>) -> usize
    requires { at ≤ length text.now }
    ensures end { result ≡ at + run_length 96 (drop at text.now) }
    ensures within { result ≤ length text.now }
    ensures beyond { drop result text.now ≡ after_run 96 (drop at text.now) }
    ensures looks { looks.new + at ≡ looks.old + result + 1 }
{
    text.len() - text.after(at).skip(is_backtick, looks).len()
}

/// Where the next run of exactly `count` backticks starts and ends, from a place on. Backticks before the
/// place don't count.
///
/// What it looks at is at most eighteen times what it passes, and 16 bytes more if it finds none.
pub fn next_backticks<L: Ledger>(
    text: &Rest<'_>,
    from: usize,
    count: usize,
    looks: &mut Looks<L>,
) -> Option<(usize, usize)>
    requires { from ≤ length text.now }
    ensures read { run_at text.now from result ≡ up_to_run count false (drop from text.now) }
    ensures within { IfSome result (λ run. (from ≤ run.0) × (run.0 < run.1) × (run.1 ≤ length text.now)) }
    ensures backticks { IfSome result (λ run.
        (get_or text.now run.0 0 ≡ 96) × (get_or text.now (run.1 - 1) 0 ≡ 96)) }
    ensures some { IfSome result (λ run. looks.new + 18 * from ≤ looks.old + 18 * run.1) }
    ensures none { result ≡ None → looks.new + 18 * from ≤ looks.old + 18 * length text.now + 16 }
{
    let len = text.len();
    let mut at = from;
    while let Some(plain) = first_backtick(&text.after(at), looks) {
        let start = at + plain;
        at = after_backticks(text, start, looks);
        if at - start == count {
            return Some((start, at));
        }
        if at == len {
            return None;
        }
    }
    None
}
