//! Which texts, code spans, raw HTML and line breaks can't be spelled.
ghost use Rattle.std.specs.Prelude.{◌≡◌, ◌==◌, [], ◌∷◌, ◌||◌, map};
ghost use Rattle.cm_text.specs.Rules as text_rules;
ghost use Rattle.cm_scan.specs.Words.{is_empty};
ghost use Rattle.cm_source.specs.Answers.{ok_unless};
ghost use Rattle.cm_source.specs.InlineRefusals.{refused, has_nul, has_line_ending, is_text, ends_a_label};
ghost use Rattle.cm_source.specs.InlineRefusals.{is_one_tag, code_reasons, html_reasons, break_reasons};
ghost use Rattle.cm_source.specs.InlineRefusals.{judged, first_face};
ghost use Rattle.cm_source.specs.steps.InlineFaces.{seen, place_of};

use crate::inline_refusals::faces::{Face, Place};
use crate::why::{Why, refuse_if};
use cm_scan::{autolink_by, holds_from, raw_html_by};
use cm_text::{ByteKind, Rules, next_of};
use cm_tree::Inline;
use std::simd::prelude::*;

/// U+0000.
struct Nul;

impl ByteKind for Nul {
    ghost passes = { λ b. b == 0 };

    #[inline(always)]
    fn contains(b: u8) -> bool {
        b == 0
    }

    #[inline(always)]
    fn lanes(lanes: u8x16) -> u64 {
        lanes.simd_eq(u8x16::splat(0)).to_bitmask()
    }
}

/// Whether a string has U+0000.
pub(crate) fn has_nul(text: &str) -> bool
    ensures { result ≡ has_nul text.now }
{
    next_of::<Nul>(text.as_bytes(), 0) < text.len()
}

/// Whether one of two strings has U+0000.
pub(crate) fn has_nul_in(one: &str, other: &str) -> bool
    ensures { result ≡ (has_nul one.now || has_nul other.now) }
{
    has_nul(one) || has_nul(other)
}

/// Whether a string has a line ending.
fn has_line_ending(text: &str) -> bool
    ensures { result ≡ has_line_ending text.now }
{
    text.as_bytes().iter().any(|b| *b == b'\n' || *b == b'\r')
}

/// Whether a text in a link that is the first inline of a paragraph contains `]:`, so that it would be read
/// as a definition.
fn ends_a_label(place: Place, text: &str) -> bool
    ensures { result ≡ ends_a_label (place_of place) text.now }
{
    place.in_opening_link && holds_from(text, 0, "]:")
}

/// Whether a text is read as one piece of raw HTML, and nothing else.
fn is_one_tag(rules: Rules, text: &str) -> bool
    ensures { result ≡ is_one_tag rules text.now }
{
    if autolink_by(rules, text, 0).is_some() {
        return false;
    }
    match raw_html_by(rules, text, 0) {
        Some((_, end)) => end == text.len(),
        None => false,
    }
}

/// Refuses a text after `before`.
pub(crate) fn check_text(text: &str, before: Option<Face<'_>>) -> Result<(), Why>
    ensures { result ≡ ok_unless (refused ((has_nul text.now, Why.Nul)
        ∷ (is_empty text.now || is_text (seen before.entry), Why.Text) ∷ [])) }
{
    refuse_if(has_nul(text), Why::Nul)?;
    refuse_if(
        text.is_empty() || matches!(before, Some(Face::Text(_))),
        Why::Text,
    )
}

/// Refuses a code span at a place, after `before`.
pub(crate) fn check_code(place: Place, text: &str, before: Option<Face<'_>>) -> Result<(), Why>
    ensures { result ≡ ok_unless (refused (code_reasons (place_of place) text.now (seen before.entry))) }
{
    refuse_if(has_nul(text), Why::Nul)?;
    refuse_if(
        text.is_empty()
            || has_line_ending(text)
            || matches!(before, Some(Face::Code))
            || ends_a_label(place, text),
        Why::CodeSpan,
    )
}

/// Refuses raw HTML at a place, after `before`.
pub(crate) fn check_html(
    rules: Rules,
    place: Place,
    text: &str,
    before: Option<Face<'_>>,
) -> Result<(), Why>
    ensures { result
        ≡ ok_unless (refused (html_reasons rules (place_of place) text.now (seen before.entry))) }
{
    refuse_if(has_nul(text), Why::Nul)?;
    refuse_if(
        has_line_ending(text)
            || !is_one_tag(rules, text)
            || place.opens_paragraph
            || matches!(before, Some(Face::Break))
            || ends_a_label(place, text),
        Why::RawHtml,
    )
}

/// Refuses a line break at a place, after `before` and followed by `rest`.
pub(crate) fn check_break(
    place: Place,
    before: Option<Face<'_>>,
    rest: &[Inline],
) -> Result<(), Why>
    ensures { (rules : text_rules.Rules) → result ≡ ok_unless (refused
        (break_reasons (place_of place) (seen before.entry) (first_face (map (judged rules) rest.now)))) }
{
    refuse_if(
        place.heading || before.is_none() || rest.is_empty() || matches!(before, Some(Face::Break)),
        Why::LineBreak,
    )
}
