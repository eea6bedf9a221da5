//! Raw HTML in a text (CommonMark 0.31.2, 6.6 Raw HTML).
//!
//! The module isn't named `raw_html`, because Rattle refuses a module and a function of the same name.
ghost use Rattle.std.specs.Prelude.{◌≡◌, ◌+◌, ◌∷◌, ◌≤◌, ◌<◌, ℕ, None, false, length, drop, IfSome, IsUtf8};
ghost use Rattle.std.specs.Prelude.{if◌then◌else◌};
ghost use Rattle.std.specs.Str.{IsCharBoundary};
ghost use Rattle.cm_text.specs.Rules.{profile};
ghost use Rattle.cm_scan.specs.Words.{after_word, holds_word};
ghost use Rattle.cm_scan.specs.spans.RawHtml.{beyond_word, short_end, after_comment};
ghost use Rattle.cm_scan.specs.spans.RawHtml.{after_declaration, html_tag, raw_html};
ghost use Rattle.cm_scan.specs.Scanned.{reading_of, whole_of};
ghost use Rattle.cm_scan.specs.spans.Reach.{html_reach, needed, mark_reach, needed_after_mark};
ghost use Rattle.cm_scan.specs.spans.Reach.{dash_reach, declared};

use crate::plain_tags;
use crate::tags::{closing_tag, is_letter, open_tag};
use crate::words::bytes_from;
use cm_text::{Looks, Rest, Rules};
use memchr::memmem;
use std::marker::Brand;
use std::sync::ledger::{Blank, Ledger};

/// The raw HTML at a place in a text, which is the boundary of a character: the whole of it as it is written,
/// and the place after it (CommonMark 0.31.2, 6.6 Raw HTML).
///
/// It is an open tag, a closing tag, a comment, a processing instruction, a declaration or a CDATA section.
pub fn raw_html<'a>(text: &'a str, at: usize) -> Option<(&'a str, usize)>
    requires { IsCharBoundary text.now at }
    ensures read { reading_of text.now result
        ≡ whole_of (drop at text.now) (raw_html profile (drop at text.now)) }
    ensures utf8 { IfSome result (λ read. IsUtf8 read.0.now) }
    ensures boundary { IfSome result (λ read. IsCharBoundary text.now read.1) }
{
    raw_html_by(Rules::profile(), text, at)
}

/// The same with these rules. With the older ones the text of a comment doesn't start with `>` or `->`,
/// doesn't end with `-`, and contains no `--`. With those without raw HTML there is none.
#[inline(always)]
pub fn raw_html_by<'a>(rules: Rules, text: &'a str, at: usize) -> Option<(&'a str, usize)>
    requires { IsCharBoundary text.now at }
    ensures read { reading_of text.now result
        ≡ whole_of (drop at text.now) (raw_html rules (drop at text.now)) }
    ensures utf8 { IfSome result (λ read. IsUtf8 read.0.now) }
    ensures boundary { IfSome result (λ read. IsCharBoundary text.now read.1) }
{
    let rest = plain_tags::after_raw_html::<Brand>(rules, bytes_from(text, at), Blank::new(1))?;
    let end = text.len() - rest.len();
    Some((&text[at..end], end))
}

/// What is left after the raw HTML at the start of a text.
///
/// What it looks at is bounded by how far a tag may reach, except where the text starts with what ends at the
/// first place of a word: that looks up to there, or at all that is left if there is none.
#[inline(always)]
pub fn after_raw_html<'a, L: Ledger>(
    rules: Rules,
    text: &Rest<'a>,
    looks: &mut Looks<L>,
) -> Option<Rest<'a>>
    ensures read { result ≡ raw_html rules text.now }
    ensures some { IfSome result (λ rest. looks.new + length rest
        ≤ looks.old + length text.now + html_reach rules.older text.now) }
    ensures none { result ≡ None → looks.new
        ≤ looks.old + needed rules.older text.now + html_reach rules.older text.now }
{
    if !rules.raw_html() {
        return None;
    }
    after_html_tag(rules, text, looks)
}

/// Whether a text contains a word from a place on.
///
/// If it doesn't, it contains the word from no later place on either. So a caller that has found no `-->`,
/// `?>`, `]]>` or `>` needn't try raw HTML further on that needs it for its end (`raw_html_needs_its_end`).
pub fn holds_from(text: &str, from: usize, word: &str) -> bool
    requires { from ≤ length text.now }
    ensures held { result ≡ holds_word word.now (drop from text.now) }
    ensures none_later { result ≡ false → (later : ℕ) → from ≤ later
        → beyond_word word.now (drop later text.now) ≡ None }
{
    memmem::find(bytes_from(text, from), word.as_bytes()).is_some()
}

/// What is left after raw HTML, if the rules have any.
pub(crate) fn after_html_tag<'a, L: Ledger>(
    rules: Rules,
    bytes: &Rest<'a>,
    looks: &mut Looks<L>,
) -> Option<Rest<'a>>
    ensures read { result ≡ html_tag rules bytes.now }
    ensures some { IfSome result (λ rest. looks.new + length rest
        ≤ looks.old + length bytes.now + html_reach rules.older bytes.now) }
    ensures none { result ≡ None → looks.new
        ≤ looks.old + needed rules.older bytes.now + html_reach rules.older bytes.now }
{
    let (b, inside) = bytes.first(looks)?;
    if b != b'<' {
        return None;
    }
    let (c, beyond) = inside.first(looks)?;
    match c {
        b'!' => after_mark(rules, &beyond, looks),
        b'?' => after_end(b"?>", &beyond, looks),
        b'/' => Some(closing_tag(&beyond, looks)?.rest),
        _ => Some(open_tag(&inside, looks)?.rest),
    }
}

/// What is left after a comment, a CDATA section or a declaration, from after its `<!` on.
fn after_mark<'a, L: Ledger>(
    rules: Rules,
    inside: &Rest<'a>,
    looks: &mut Looks<L>,
) -> Option<Rest<'a>>
    ensures read { result ≡ html_tag rules (60 ∷ 33 ∷ inside.now) }
    ensures some { IfSome result (λ rest. looks.new + length rest
        ≤ looks.old + length inside.now + 14 + mark_reach rules.older inside.now) }
    ensures none { result ≡ None → looks.new
        ≤ looks.old + needed_after_mark rules.older inside.now + 14 + mark_reach rules.older inside.now }
{
    if let Some(comment) = after_front(b"--", inside, looks) {
        return after_comment(rules.is_older(), &comment, looks);
    }
    if let Some(section) = after_front(b"[CDATA[", inside, looks) {
        return after_end(b"]]>", &section, looks);
    }
    after_declaration(inside, looks)
}

/// What is left after a comment, from after its `<!--` on.
fn after_comment<'a, L: Ledger>(
    older: bool,
    inside: &Rest<'a>,
    looks: &mut Looks<L>,
) -> Option<Rest<'a>>
    ensures read { result ≡ after_comment older inside.now }
    ensures some { IfSome result (λ rest. looks.new + length rest
        ≤ looks.old + length inside.now + 4) }
    ensures none { result ≡ None → looks.new
        ≤ looks.old + (if older then dash_reach inside.now else length inside.now) + 4 }
{
    if let Some(rest) = short_end(inside, looks) {
        return if older { None } else { Some(rest) };
    }
    if !older {
        return after_end(b"-->", inside, looks);
    }
    after_front(b">", &after_end(b"--", inside, looks)?, looks)
}

/// What is left after the end of a comment without a text.
fn short_end<'a, L: Ledger>(inside: &Rest<'a>, looks: &mut Looks<L>) -> Option<Rest<'a>>
    ensures read { result ≡ short_end inside.now }
    ensures shorter { IfSome result (λ rest. length rest ≤ length inside.now) }
    ensures looks { looks.new ≤ looks.old + 3 }
{
    if let Some(rest) = after_front(b">", inside, looks) {
        return Some(rest);
    }
    after_front(b"->", inside, looks)
}

/// What is left after a declaration, from after its `<!` on.
fn after_declaration<'a, L: Ledger>(inside: &Rest<'a>, looks: &mut Looks<L>) -> Option<Rest<'a>>
    ensures read { result ≡ after_declaration inside.now }
    ensures some { IfSome result (λ rest. looks.new + length rest
        ≤ looks.old + length inside.now + 1) }
    ensures none { result ≡ None → looks.new ≤ looks.old + declared inside.now + 1 }
{
    let (b, beyond) = inside.first(looks)?;
    if !is_letter(b) {
        return None;
    }
    after_end(b">", &beyond, looks)
}

/// What is left after a word, if it comes next.
#[inline(always)]
fn after_front<'a, L: Ledger>(
    word: &[u8],
    bytes: &Rest<'a>,
    looks: &mut Looks<L>,
) -> Option<Rest<'a>>
    ensures read { result ≡ after_word word.now bytes.now }
    ensures shorter { IfSome result (λ rest. length rest ≤ length bytes.now) }
    ensures looks { looks.new ≡ looks.old + length word.now }
{
    if !bytes.starts_with(word, looks) {
        return None;
    }
    Some(bytes.after(word.len()))
}

/// What is left after the first place of a word.
fn after_end<'a, L: Ledger>(word: &[u8], bytes: &Rest<'a>, looks: &mut Looks<L>) -> Option<Rest<'a>>
    requires some { 0 < length word.now }
    ensures read { result ≡ beyond_word word.now bytes.now }
    ensures some { IfSome result (λ rest. looks.new + length rest ≡ looks.old + length bytes.now) }
    ensures looks { looks.new ≤ looks.old + length bytes.now }
{
    let at = bytes.find(word, looks)?;
    Some(bytes.after(at + word.len()))
}
