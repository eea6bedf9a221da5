//! Tags of HTML (CommonMark 0.31.2, 6.6 Raw HTML). Each call reads a part of a tag, and returns the rest of
//! the text.
//!
//! What they look at is bounded by how far a tag may reach (`tag_reach`).
//!
//! The grammar of tags is unambiguous, and where a value fails the whole tag does. So the next byte decides,
//! and nothing is read twice.
ghost use Rattle.std.specs.Prelude.{◌≡◌, ◌+◌, ◌*◌, ◌<◌, ◌≤◌, ◌⊎◌, ℕ, Bool, suc, [], ◌∷◌, Some, None, length};
ghost use Rattle.std.specs.Prelude.{codes, IfSome, MatchOption};
ghost use Rattle.std.specs.Char.{is_ascii_alphabetic};
ghost use Rattle.cm_scan.specs.Words.{skip, trim_start, after_word};
ghost use Rattle.cm_scan.specs.spans.Tags.{begins_attribute, continues_attribute, is_unquoted, after_gap};
ghost use Rattle.cm_scan.specs.spans.Tags.{after_quoted, after_value, after_specification, after_attribute};
ghost use Rattle.cm_scan.specs.spans.Tags.{after_tag_end, after_attributes, tag_name, open_tag, closing_tag};
ghost use Rattle.cm_scan.specs.spans.Tags.{is_blank_next};
ghost use Rattle.cm_scan.specs.steps.TagNames.{continues_name};
ghost use Rattle.cm_scan.specs.spans.Reach.{tag_reach};
ghost use Rattle.cm_scan.specs.steps.SpanSteps.{gap_length};

use crate::gaps::is_blank_byte;
use crate::words::{is_digit, is_space_or_tab};
use cm_text::{Looks, Rest};
use std::sync::ledger::Ledger;

/// A tag's name, and what is left after the tag or the name.
#[derive(Drop)]
pub(crate) struct Tag<'a> {
    /// The name as in the source.
    pub(crate) name: &'a [u8],
    /// What is left.
    pub(crate) rest: Rest<'a>,
}

/// Whether a byte is an ASCII letter.
#[inline(always)]
pub(crate) fn is_letter(b: u8) -> bool
    ensures { result ≡ is_ascii_alphabetic b }
{
    b.is_ascii_alphabetic()
}

/// Whether a byte continues a tag's name.
#[inline(always)]
fn continues_name(b: u8) -> bool
    ensures { result ≡ continues_name b }
{
    is_letter(b) || is_digit(b) || b == b'-'
}

/// Whether a byte starts an attribute's name.
#[inline(always)]
fn begins_attribute(b: u8) -> bool
    ensures { result ≡ begins_attribute b }
{
    is_letter(b) || b == b'_' || b == b':'
}

/// Whether a byte continues an attribute's name.
#[inline(always)]
fn continues_attribute(b: u8) -> bool
    ensures { result ≡ continues_attribute b }
{
    begins_attribute(b) || is_digit(b) || b == b'.' || b == b'-'
}

/// Whether a byte may be in an unquoted value.
#[inline(always)]
fn is_unquoted(b: u8) -> bool
    ensures { result ≡ is_unquoted b }
{
    !(is_blank_byte(b)
        || b == b'"'
        || b == b'\''
        || b == b'='
        || b == b'<'
        || b == b'>'
        || b == b'`')
}

/// The first byte and the others.
#[inline(always)]
pub(crate) fn first_of(bytes: &[u8]) -> Option<(u8, &[u8])>
    ensures read { MatchOption result (bytes.now ≡ []) (λ r. bytes.now ≡ r.0 ∷ r.1.now) }
{
    let [b, ..] = bytes else {
        return None;
    };
    Some((*b, &bytes[1..]))
}

/// What is left after the first bytes that pass a test: a look at each of them, and one more.
#[inline(always)]
pub(crate) fn skip_passing<'a, L: Ledger, F: Fn(u8) -> bool>(
    bytes: &Rest<'a>,
    test: F,
    looks: &mut Looks<L>,
) -> Rest<'a>
    requires { F.IsAlwaysCallable test }
    ensures skipped { (passes : ℕ → Bool) →
        ((b : ℕ) (told : Bool) → b < 256 → F.post test b told → told ≡ passes b)
        → result ≡ skip passes bytes.now }
    ensures shorter { length result ≤ length bytes.now }
    ensures looks { looks.new + length result ≡ looks.old + length bytes.now + 1 }
{
    bytes.skip(test, looks)
}

/// What is left after the bytes that continue a tag's name.
fn skip_name<'a, L: Ledger>(bytes: &Rest<'a>, looks: &mut Looks<L>) -> Rest<'a>
    ensures skipped { result ≡ skip continues_name bytes.now }
    ensures shorter { length result ≤ length bytes.now }
    ensures looks { looks.new + length result ≡ looks.old + length bytes.now + 1 }
{
    skip_passing(bytes, continues_name, looks)
}

/// What is left after the bytes that continue an attribute's name.
fn skip_attribute<'a, L: Ledger>(bytes: &Rest<'a>, looks: &mut Looks<L>) -> Rest<'a>
    ensures skipped { result ≡ skip continues_attribute bytes.now }
    ensures shorter { length result ≤ length bytes.now }
    ensures looks { looks.new + length result ≡ looks.old + length bytes.now + 1 }
{
    skip_passing(bytes, continues_attribute, looks)
}

/// What is left after the bytes of an unquoted value.
fn skip_unquoted<'a, L: Ledger>(bytes: &Rest<'a>, looks: &mut Looks<L>) -> Rest<'a>
    ensures skipped { result ≡ skip is_unquoted bytes.now }
    ensures shorter { length result ≤ length bytes.now }
    ensures looks { looks.new + length result ≡ looks.old + length bytes.now + 1 }
{
    skip_passing(bytes, is_unquoted, looks)
}

/// What is left after spaces and tabs.
fn skip_blanks<'a, L: Ledger>(bytes: &Rest<'a>, looks: &mut Looks<L>) -> Rest<'a>
    ensures skipped { result ≡ trim_start bytes.now }
    ensures shorter { length result ≤ length bytes.now }
    ensures looks { looks.new + length result ≡ looks.old + length bytes.now + 1 }
{
    skip_passing(bytes, is_space_or_tab, looks)
}

/// What is left after spaces, tabs, and up to one line ending.
#[tactic(auto, unfolding(crate::specs::spans::Tags::after_gap))]
fn after_gap<'a, L: Ledger>(bytes: &Rest<'a>, looks: &mut Looks<L>) -> Rest<'a>
    ensures skipped { result ≡ after_gap bytes.now }
    ensures shorter { length result ≤ length bytes.now }
    ensures looks { looks.new + length result ≤ looks.old + length bytes.now + 3 }
{
    let line = skip_blanks(bytes, looks);
    let Some((b, beyond)) = line.first(looks) else {
        return line;
    };
    if b != b'\n' {
        return line;
    }
    skip_blanks(&beyond, looks)
}

/// What is left after a value that ends with this quotation mark.
fn after_quoted<'a, L: Ledger>(
    quote: u8,
    bytes: &Rest<'a>,
    looks: &mut Looks<L>,
) -> Option<Rest<'a>>
    ensures read { result ≡ after_quoted quote bytes.now }
    ensures some { (quote ≡ 34) ⊎ (quote ≡ 39) → IfSome result (λ rest.
        looks.new + 8 * tag_reach 0 rest ≤ looks.old + 8 * tag_reach quote bytes.now) }
    ensures none { (quote ≡ 34) ⊎ (quote ≡ 39) → result ≡ None
        → looks.new ≤ looks.old + 8 * tag_reach quote bytes.now }
{
    let at = bytes.find_byte(quote, looks)?;
    Some(bytes.after(at + 1))
}

/// What is left after the value of an attribute: in double quotes, in single quotes, or unquoted.
#[tactic(auto, unfolding(crate::specs::spans::Tags::after_value, crate::specs::spans::Tags::after_unquoted))]
fn after_value<'a, L: Ledger>(bytes: &Rest<'a>, looks: &mut Looks<L>) -> Option<Rest<'a>>
    ensures read { result ≡ after_value bytes.now }
    ensures some { IfSome result (λ rest.
        looks.new + 8 * tag_reach 0 rest ≤ looks.old + 8 * tag_reach 0 bytes.now) }
    ensures none { result ≡ None → looks.new ≤ looks.old + 8 * tag_reach 0 bytes.now }
{
    let (b, beyond) = bytes.first(looks)?;
    if b == b'"' || b == b'\'' {
        return after_quoted(b, &beyond, looks);
    }
    if !is_unquoted(b) {
        return None;
    }
    Some(skip_unquoted(&beyond, looks))
}

/// What is left after the value of an attribute with its `=`, if one comes next.
#[tactic(auto, unfolding(crate::specs::spans::Tags::after_specification, crate::specs::Words::after_word))]
fn after_specification<'a, L: Ledger>(bytes: &Rest<'a>, looks: &mut Looks<L>) -> Option<Rest<'a>>
    ensures read { result ≡ after_specification bytes.now }
    ensures some { IfSome result (λ rest. looks.new + 8 * tag_reach 0 rest
        ≤ looks.old + 8 * tag_reach 0 bytes.now + gap_length rest + 4) }
    ensures none { result ≡ None → looks.new ≤ looks.old + 8 * tag_reach 0 bytes.now + 4 }
{
    let Some((b, beyond)) = after_gap(bytes, looks).first(looks) else {
        return Some(bytes.again());
    };
    if b != b'=' {
        return Some(bytes.again());
    }
    after_value(&after_gap(&beyond, looks), looks)
}

/// What is left after an attribute.
#[tactic(auto, unfolding(crate::specs::spans::Tags::after_attribute))]
fn after_attribute<'a, L: Ledger>(bytes: &Rest<'a>, looks: &mut Looks<L>) -> Option<Rest<'a>>
    ensures read { result ≡ after_attribute bytes.now }
    ensures some { IfSome result (λ rest. looks.new + 8 * tag_reach 0 rest + 2
        ≤ looks.old + 8 * tag_reach 0 bytes.now + gap_length rest) }
    ensures none { result ≡ None → looks.new ≤ looks.old + 8 * tag_reach 0 bytes.now }
{
    let (b, beyond) = bytes.first(looks)?;
    if !begins_attribute(b) {
        return None;
    }
    after_specification(&skip_attribute(&beyond, looks), looks)
}

/// What is left after a `>`.
#[tactic(auto, unfolding(crate::specs::Words::after_word))]
fn after_bracket<'a, L: Ledger>(bytes: &Rest<'a>, looks: &mut Looks<L>) -> Option<Rest<'a>>
    ensures read { result ≡ after_word (codes ">") bytes.now }
    ensures looks { looks.new ≡ looks.old + 1 }
{
    let (b, beyond) = bytes.first(looks)?;
    if b != b'>' {
        return None;
    }
    Some(beyond)
}

/// What is left after the end of an open tag: `/` or not, and `>`.
#[tactic(auto, unfolding(crate::specs::spans::Tags::after_tag_end, crate::specs::Words::after_word))]
fn after_tag_end<'a, L: Ledger>(bytes: &Rest<'a>, looks: &mut Looks<L>) -> Option<Rest<'a>>
    ensures read { result ≡ after_tag_end bytes.now }
    ensures looks { looks.new ≤ looks.old + 2 }
{
    let (b, beyond) = bytes.first(looks)?;
    if b != b'/' {
        return after_bracket(bytes, looks);
    }
    after_bracket(&beyond, looks)
}

/// Whether a space, a tab or a line feed comes next.
fn is_blank_next<L: Ledger>(bytes: &Rest<'_>, looks: &mut Looks<L>) -> bool
    ensures blank { result ≡ is_blank_next bytes.now }
    ensures looks { looks.new ≡ looks.old + 1 }
{
    match bytes.first(looks) {
        Some((b, _)) => is_blank_byte(b),
        None => false,
    }
}

/// What is left after the attributes and the end of an open tag.
fn after_attributes<'a, L: Ledger>(bytes: &Rest<'a>, looks: &mut Looks<L>) -> Option<Rest<'a>>
    ensures read { result ≡ after_attributes (suc (length bytes.now)) bytes.now }
    ensures looks { looks.new ≤ looks.old + 8 * tag_reach 0 bytes.now }
{
    let mut text = bytes.again();
    for _ in 0..=bytes.len() {
        let inside = after_gap(&text, looks);
        if let Some(rest) = after_tag_end(&inside, looks) {
            return Some(rest);
        }
        if !is_blank_next(&text, looks) {
            return None;
        }
        text = after_attribute(&inside, looks)?;
    }
    None
}

/// The name of a tag, and what is left after it.
pub(crate) fn tag_name<'a, L: Ledger>(bytes: &Rest<'a>, looks: &mut Looks<L>) -> Option<Tag<'a>>
    ensures read { MatchOption result (tag_name bytes.now ≡ None)
        (λ tag. tag_name bytes.now ≡ Some (record { name = tag.name.now; rest = tag.rest })) }
    ensures some { IfSome result (λ tag.
        looks.new + 8 * tag_reach 0 tag.rest + 5 ≤ looks.old + 8 * tag_reach 0 bytes.now) }
    ensures none { result ≡ None → looks.new ≤ looks.old + 1 }
{
    let (b, beyond) = bytes.first(looks)?;
    if !is_letter(b) {
        return None;
    }
    let rest = skip_name(&beyond, looks);
    let name = bytes.lend(bytes.len() - rest.len(), looks);
    Some(Tag { name, rest })
}

/// An open tag, after its `<`.
#[inline(always)]
pub(crate) fn open_tag<'a, L: Ledger>(inside: &Rest<'a>, looks: &mut Looks<L>) -> Option<Tag<'a>>
    ensures read { MatchOption result (open_tag (60 ∷ inside.now) ≡ None)
        (λ tag. open_tag (60 ∷ inside.now) ≡ Some (record { name = tag.name.now; rest = tag.rest })) }
    ensures looks { looks.new ≤ looks.old + 8 * tag_reach 0 inside.now }
{
    let tag = tag_name(inside, looks)?;
    let rest = after_attributes(&tag.rest, looks)?;
    Some(Tag {
        name: tag.name,
        rest,
    })
}

/// A closing tag, after its `</`.
pub(crate) fn closing_tag<'a, L: Ledger>(inside: &Rest<'a>, looks: &mut Looks<L>) -> Option<Tag<'a>>
    ensures read { MatchOption result (closing_tag (60 ∷ 47 ∷ inside.now) ≡ None)
        (λ tag. closing_tag (60 ∷ 47 ∷ inside.now)
        ≡ Some (record { name = tag.name.now; rest = tag.rest })) }
    ensures looks { looks.new ≤ looks.old + 8 * tag_reach 0 inside.now }
{
    let tag = tag_name(inside, looks)?;
    let rest = after_bracket(&after_gap(&tag.rest, looks), looks)?;
    Some(Tag {
        name: tag.name,
        rest,
    })
}
