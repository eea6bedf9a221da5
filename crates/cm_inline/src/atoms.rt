//! The atoms of a leaf's source: what starts at a place (CommonMark 0.31.2, chapter 6).
ghost use Rattle.std.specs.Prelude.{◌≡◌, ◌≢◌, ◌==◌, ◌+◌, ◌*◌, ◌<◌, ◌≤◌, ◌^◌, ◌&&◌, ◌||◌, not, if◌then◌else◌};
ghost use Rattle.std.specs.Prelude.{false, None, length, drop, slice_index, nat_le, option_map};
ghost use Rattle.std.specs.Prelude.{IfOk, OnOk, IfSome};
ghost use Rattle.cm_inline.specs.steps.Prelude.{IsCharBoundary, raw_html, Rules, Knows};
ghost use Rattle.cm_scan.specs.spans.Reach.{html_reach, needed};
ghost use Rattle.cm_inline.specs.steps.Missing.{IsPast, spare, link_room, html_room, code_spare};
ghost use Rattle.cm_inline.specs.steps.Missing.{reference_room};
ghost use Rattle.cm_inline.specs.steps.Prelude.{Puts, Stands, IsTextTo, Begins, byte_of, is_escaped};
ghost use Rattle.cm_inline.specs.steps.Prelude.{byte, is_markup};
ghost use Rattle.cm_inline.specs.declared.marks.Kind.TheVariants.{Soft, Hard};

use crate::brackets::Reader;
use crate::code::content_between;
use crate::delimiter_runs::{DelimiterRun, Marker};
use crate::flanking::run_between;
use crate::marks::Kind;
use crate::missing_ends::{MissingEnds, form_of};
use cm_scan::{
    after_backticks, after_raw_html, after_run, autolink_in, is_next, next_backticks,
    trim_end_spaces,
};
use cm_text::{Chars, Looks, Rest, Rules, is_ascii_punct, next_marked, reference};
use std::alloc::{AllocError, Global};
use std::sync::ledger::Ledger;

/// What starts at a place of a source.
#[derive(Clone, Copy)]
pub(crate) enum Atom {
    /// Text in which HTML escapes nothing.
    Text,
    /// A character that HTML has as a reference.
    Escaped,
    /// A backslash and the character that it escapes.
    Escape,
    /// The characters of a reference.
    Reference(Chars),
    /// An inline that contains no other.
    Whole(Kind),
    /// A line feed with no space before it.
    LineFeed,
    /// `[` or `![`.
    Opener { image: bool },
    /// A delimiter run.
    Run(DelimiterRun),
}

/// Where the text that continues from a place ends: at the next byte that can start something else, or
/// at the spaces before a line feed.
#[inline(always)]
pub(crate) fn text_end(source: &str, at: usize) -> usize
    requires { IsCharBoundary source.now at }
    ensures text { IsTextTo source.now at result }
{
    let end = next_marked(source.as_bytes(), at);
    if end < source.len() && source.as_bytes()[end] == b'\n' {
        return at + trim_end_spaces(&source[at..end]).len();
    }
    end
}

/// Reads what starts at a place where no `]` is, and returns where it ends.
#[inline(always)]
pub(crate) fn read_atom<L: Ledger>(
    alloc: Global,
    rules: Rules,
    source: &str,
    at: usize,
    reader: &mut Reader,
    looks: &mut Looks<L>,
) -> Result<usize, AllocError>
    requires short { length source.now < 2 ^ 32 }
    requires within { at < length source.now }
    requires boundary { IsCharBoundary source.now at }
    requires ascii { slice_index source.now at < 128 }
    requires other { slice_index source.now at ≢ byte "]" }
    requires knows { Knows source.now reader.old.ends }
    requires few { length reader.old.runs.list.runs ≤ at }
    ensures puts { IfOk result (λ end. Puts rules source.now at end reader.old reader.new) }
{
    let read = match source.as_bytes()[at] {
        b'`' => backticks(alloc, source, at, &mut reader.ends, looks)?,
        b'<' => angle(rules, source, at, &mut reader.ends, looks),
        b'\\' => backslash(source, at),
        b'&' => ampersand(source, at, looks),
        b'\n' => (Atom::LineFeed, at + 1),
        b' ' => line_break(source, at),
        b'!' => exclamation_mark(source, at),
        b'[' => (Atom::Opener { image: false }, at + 1),
        b'*' => run(rules, source, Marker::Star, at),
        b'_' => run(rules, source, Marker::Underscore, at),
        b'~' => run(rules, source, Marker::Tilde, at),
        _ => byte(source, at),
    };
    put(rules, source, at, reader, read)
}

/// Whether HTML has a byte as a reference.
#[inline(always)]
fn is_escaped(b: u8) -> bool
    ensures { result ≡ is_escaped b }
{
    matches!(b, b'&' | b'<' | b'>' | b'"')
}

/// A byte that starts nothing.
#[inline(always)]
fn byte(source: &str, at: usize) -> (Atom, usize)
    requires short { length source.now < 2 ^ 32 }
    requires within { at < length source.now }
    requires boundary { IsCharBoundary source.now at }
    requires ascii { slice_index source.now at < 128 }
    requires lone { is_markup (slice_index source.now at) ≡ false }
    ensures atom { (rules : Rules) → Begins rules source.now at result.0 result.1 }
{
    if is_escaped(source.as_bytes()[at]) {
        return (Atom::Escaped, at + 1);
    }
    (Atom::Text, at + 1)
}

/// Adds an atom that was read, and returns where it ends.
#[inline(always)]
fn put(
    rules: Rules,
    source: &str,
    at: usize,
    reader: &mut Reader,
    read: (Atom, usize),
) -> Result<usize, AllocError>
    requires short { length source.now < 2 ^ 32 }
    requires begins { Begins rules source.now at read.0 read.1 }
    requires knows { Knows source.now reader.old.ends }
    requires few { length reader.old.runs.list.runs ≤ at }
    ensures puts { IfOk result (λ end. Puts rules source.now at end reader.old reader.new) }
{
    let (atom, end) = read;
    match atom {
        Atom::Text => {}
        Atom::Escaped => reader.add(at, end, Kind::Escaped)?,
        Atom::Escape => {
            reader.add(at, at + 1, Kind::Nothing)?;
            if is_escaped(source.as_bytes()[at + 1]) {
                reader.add(at + 1, end, Kind::Escaped)?;
            }
        }
        Atom::Reference(chars) => {
            reader.add(at, end, Kind::Character(chars.first))?;
            if let Some(second) = chars.second {
                reader.add(end, end, Kind::Character(second))?;
            }
        }
        Atom::Whole(kind) => reader.add(at, end, kind)?,
        Atom::LineFeed => {
            if reader.lines {
                reader.add(at, end, Kind::Soft)?;
            }
        }
        Atom::Opener { image } => reader.open(image, at, end)?,
        Atom::Run(run) => {
            let number = reader.runs.push(run)?;
            reader.add(at, end, Kind::Run { number })?;
        }
    }
    Ok(end)
}

/// A code span, or the whole backtick string as text (6.1 Code spans).
///
/// A search in vain is made once: then it is known where the last backtick strings are.
fn backticks<L: Ledger>(
    alloc: Global,
    source: &str,
    at: usize,
    ends: &mut MissingEnds,
    looks: &mut Looks<L>,
) -> Result<(Atom, usize), AllocError>
    requires stands { Stands source.now at (byte "`") }
    requires knows { Knows source.now ends.old }
    ensures atom { IfOk result (λ read.
        (rules : Rules) → Begins rules source.now at read.0 read.1) }
    ensures knows { OnOk result (Knows source.now ends.new) }
    ensures spare { OnOk result (spare source.now ends.new ≡ spare source.now ends.old) }
    ensures past { IsPast source.now at ends.old → OnOk result (IsPast source.now (at + 1) ends.new) }
    ensures looks { IfOk result (λ read. looks.new + code_spare source.now ends.new + 19 * at
        ≤ looks.old + code_spare source.now ends.old + 19 * read.1 + 4) }
{
    let text = Rest::of(source.as_bytes());
    let start = after_backticks(&text, at, looks);
    if ends.is_last_backticks(source, start - at, start) {
        return Ok((Atom::Text, start));
    }
    match next_backticks(&text, start, start - at, looks) {
        Some((close, end)) => {
            let (from, to) = content_between(source, start, close, looks);
            let code = Kind::Code {
                from: from as u32,
                to: to as u32,
            };
            Ok((Atom::Whole(code), end))
        }
        None => {
            ends.look_for_backticks(alloc, source, looks)?;
            Ok((Atom::Text, start))
        }
    }
}

/// An autolink, raw HTML, or `<` as text (6.5 Autolinks, 6.6 Raw HTML).
fn angle<L: Ledger>(
    rules: Rules,
    source: &str,
    at: usize,
    ends: &mut MissingEnds,
    looks: &mut Looks<L>,
) -> (Atom, usize)
    requires stands { Stands source.now at (byte "<") }
    requires knows { Knows source.now ends.old }
    ensures atom { Begins rules source.now at result.0 result.1 }
    ensures knows { Knows source.now ends.new }
    ensures past { IsPast source.now at ends.old → IsPast source.now (at + 1) ends.new }
    ensures looks { IsPast source.now at ends.old → looks.new + spare source.now ends.new + at
        ≤ looks.old + spare source.now ends.old + link_room source.now at + html_room rules source.now at
        + result.1 }
{
    let text = Rest::of(source.as_bytes()).after(at);
    if let Some(link) = autolink_in(rules, &text, looks) {
        let is_address = link.is_address;
        let end = source.len() - link.rest.len();
        return (Atom::Whole(Kind::Autolink { is_address }), end);
    }
    match raw_html(rules, source, at, ends, looks) {
        Some(end) => (Atom::Whole(Kind::Html), end),
        None => (Atom::Escaped, at + 1),
    }
}

/// Where the raw HTML at a place ends, if the rules have any. An end that is known to be missing isn't
/// searched for, and what was searched for in vain is remembered.
fn raw_html<L: Ledger>(
    rules: Rules,
    source: &str,
    at: usize,
    ends: &mut MissingEnds,
    looks: &mut Looks<L>,
) -> Option<usize>
    requires stands { Stands source.now at (byte "<") }
    requires knows { Knows source.now ends.old }
    ensures read { option_map (λ end. drop end source.now) result ≡ raw_html rules (drop at source.now) }
    ensures boundary { IfSome result (λ end. IsCharBoundary source.now end) }
    ensures further { IfSome result (λ end. (at < end) × (end ≤ length source.now)) }
    ensures knows { Knows source.now ends.new }
    ensures past { IsPast source.now at ends.old → IsPast source.now (at + 1) ends.new }
    ensures some { IfSome result (λ end. (ends.new ≡ ends.old)
        × (looks.new + at ≤ looks.old + html_room rules source.now at + end)) }
    ensures none { result ≡ None → IsPast source.now at ends.old → looks.new + spare source.now ends.new
        ≤ looks.old + spare source.now ends.old + html_room rules source.now at }
{
    if !rules.raw_html() {
        return None;
    }
    let inside = Rest::of(source.as_bytes()).after(at + 1);
    let Some(form) = form_of(rules, &inside, looks) else {
        return html_end(rules, source, at, looks);
    };
    if ends.is_missing(form, at) {
        return None;
    }
    if let Some(end) = html_end(rules, source, at, looks) {
        return Some(end);
    }
    ends.remember(form, at);
    None
}

/// Where the raw HTML at a place ends, if the rules have any.
fn html_end<L: Ledger>(rules: Rules, source: &str, at: usize, looks: &mut Looks<L>) -> Option<usize>
    requires { at ≤ length source.now }
    ensures read { option_map (λ end. drop end source.now) result ≡ raw_html rules (drop at source.now) }
    ensures boundary { IfSome result (λ end. IsCharBoundary source.now end) }
    ensures further { IfSome result (λ end. (at < end) × (end ≤ length source.now)) }
    ensures some { IfSome result (λ end.
        looks.new + at ≤ looks.old + html_reach rules.older (drop at source.now) + end) }
    ensures none { result ≡ None → looks.new ≤ looks.old + needed rules.older (drop at source.now)
        + html_reach rules.older (drop at source.now) }
{
    let text = Rest::of(source.as_bytes()).after(at);
    let rest = after_raw_html(rules, &text, looks)?;
    Some(source.len() - rest.len())
}

/// A hard line break, an escaped character, or a backslash as text (6.7 Hard
/// line breaks, 2.4 Backslash escapes).
fn backslash(source: &str, at: usize) -> (Atom, usize)
    requires { Stands source.now at (byte "\\") }
    ensures atom { (rules : Rules) → Begins rules source.now at result.0 result.1 }
{
    if is_next(source.as_bytes(), at + 1, b'\n') {
        return (Atom::Whole(Kind::Hard), at + 2);
    }
    if at + 1 < source.len() && is_ascii_punct(source.as_bytes()[at + 1] as char) {
        return (Atom::Escape, at + 2);
    }
    (Atom::Text, at + 1)
}

/// A reference, or `&` as text (2.5 Entity and numeric character references).
fn ampersand<L: Ledger>(source: &str, at: usize, looks: &mut Looks<L>) -> (Atom, usize)
    requires { Stands source.now at (byte "&") }
    ensures atom { (rules : Rules) → Begins rules source.now at result.0 result.1 }
    ensures looks { looks.new ≤ looks.old + reference_room source.now at }
{
    let text = Rest::of(source.as_bytes()).after(at);
    match reference(&text, looks) {
        Some((chars, len)) => (Atom::Reference(chars), at + len),
        None => (Atom::Escaped, at + 1),
    }
}

/// A line feed with the spaces before it, or one space as text (6.7 Hard line breaks, 6.8 Soft line breaks).
fn line_break(source: &str, at: usize) -> (Atom, usize)
    requires { Stands source.now at (byte " ") }
    ensures atom { (rules : Rules) → Begins rules source.now at result.0 result.1 }
{
    let feed = after_run(b' ', source, at);
    if !is_next(source.as_bytes(), feed, b'\n') {
        return (Atom::Text, at + 1);
    }
    (Atom::Whole(break_after(feed - at)), feed + 1)
}

/// The line break after this number of spaces.
fn break_after(spaces: usize) -> Kind
    ensures { result ≡ (if nat_le 2 spaces then Hard else Soft) }
{
    if spaces >= 2 { Kind::Hard } else { Kind::Soft }
}

/// `![`, or `!` as text (6.4 Images).
fn exclamation_mark(source: &str, at: usize) -> (Atom, usize)
    requires { Stands source.now at (byte "!") }
    ensures atom { (rules : Rules) → Begins rules source.now at result.0 result.1 }
{
    if is_next(source.as_bytes(), at + 1, b'[') {
        return (Atom::Opener { image: true }, at + 2);
    }
    (Atom::Text, at + 1)
}

/// Whether `count` of a marker are a delimiter run: tildes are one only if strikethrough is on and there are
/// two.
fn is_run(rules: Rules, marker: Marker, count: usize) -> bool
    ensures { result ≡ (not (byte_of marker == byte "~") || rules.strike && count == 2) }
{
    marker.byte() != b'~' || rules.strike() && count == 2
}

/// A delimiter run, or its characters as text (6.2 Emphasis and strong emphasis).
#[inline(always)]
fn run(rules: Rules, source: &str, marker: Marker, at: usize) -> (Atom, usize)
    requires { Stands source.now at (byte_of marker) }
    ensures atom { Begins rules source.now at result.0 result.1 }
{
    let end = after_run(marker.byte(), source, at);
    if !is_run(rules, marker, end - at) {
        return (Atom::Text, end);
    }
    (Atom::Run(run_between(rules, source, marker, at, end)), end)
}
