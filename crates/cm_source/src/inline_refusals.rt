//! Which inlines can't be spelled so that they read back, and why not.
//!
//! The definition is one fold over the tree. Of each inline it keeps what its neighbours see, whether it is
//! or contains emphasis or a link, and why it is refused at a place between neighbours.
ghost use Rattle.std.specs.Prelude.{◌≡◌, None, map};
ghost use Rattle.cm_scan.specs.Words.{◌<|>◌};
ghost use Rattle.cm_source.specs.Answers.{ok_unless};
ghost use Rattle.cm_source.specs.InlineRefusals.{refused, further_in, inside_link, judged, first_face};
ghost use Rattle.cm_source.specs.InlineRefusals.{emphasis, link_reasons, image_reasons};
ghost use Rattle.cm_source.specs.InlineRefusals.{refusal_of_all, paragraph_refusal, heading_refusal};
ghost use Rattle.cm_source.specs.steps.InlineFaces.{seen, place_of};

mod emphasis;
mod faces;
mod links;
mod texts;

use crate::why::Why;
use cm_text::Rules;
use cm_tree::Inline;
use emphasis::{check_emphasis, check_strike};
use faces::{Face, Place, face_of, first_face};
use links::{check_source, check_target};
use texts::{check_break, check_code, check_html, check_text};
pub(crate) use texts::{has_nul, has_nul_in};

/// Refuses inlines from a place on.
#[cycle(inlines)]
fn check_inlines(rules: Rules, place: Place, inlines: &[Inline]) -> Result<(), Why>
    ensures { result ≡ ok_unless (refusal_of_all (place_of place) None (map (judged rules) inlines.now)) }
{
    let mut place = place;
    let mut before = None;
    for (at, inline) in inlines.iter().enumerate() {
        check_inline(rules, place, inline, before, &inlines[at + 1..])?;
        place = place.further();
        before = Some(face_of(inline));
    }
    Ok(())
}

/// Refuses an inline at a place, after `before` and followed by `rest`.
#[cycle(inlines)]
fn check_inline(
    rules: Rules,
    place: Place,
    inline: &Inline,
    before: Option<Face<'_>>,
    rest: &[Inline],
) -> Result<(), Why>
    ensures { result ≡ ok_unless ((judged rules inline.now).refusal
        (place_of place) (seen before.entry) (first_face (map (judged rules) rest.now))) }
{
    match inline {
        Inline::Text(text) => check_text(text.as_str(), before),
        Inline::Code(text) => check_code(place, text.as_str(), before),
        Inline::Html(text) => check_html(rules, place, text.as_str(), before),
        Inline::Soft => check_break(place, before, rest),
        Inline::Hard => check_break(place, before, rest),
        Inline::Emph(content) => {
            check_between(rules, place, false, content.as_slice(), before, rest)
        }
        Inline::Strong(content) => {
            check_between(rules, place, false, content.as_slice(), before, rest)
        }
        Inline::Strike(content) => {
            check_between(rules, place, true, content.as_slice(), before, rest)
        }
        Inline::Link {
            dest,
            title,
            content,
        } => check_link(
            rules,
            place,
            dest.as_str(),
            title.as_str(),
            content.as_slice(),
        ),
        Inline::Image {
            dest,
            title,
            content,
        } => check_image(
            rules,
            place,
            dest.as_str(),
            title.as_str(),
            content.as_slice(),
        ),
    }
}

/// Refuses emphasis, strong emphasis or strikethrough at a place, after `before` and followed by `rest`.
#[cycle(inlines)]
fn check_between(
    rules: Rules,
    place: Place,
    strike: bool,
    content: &[Inline],
    before: Option<Face<'_>>,
    rest: &[Inline],
) -> Result<(), Why>
    ensures { result ≡ ok_unless ((emphasis rules strike (map (judged rules) content.now)).refusal
        (place_of place) (seen before.entry) (first_face (map (judged rules) rest.now))) }
{
    check_emphasis(rules, content, before, first_face(rest))?;
    check_strike(rules, strike)?;
    check_inlines(rules, place.further(), content)
}

/// Refuses a link at a place.
#[cycle(inlines)]
fn check_link(
    rules: Rules,
    place: Place,
    dest: &str,
    title: &str,
    content: &[Inline],
) -> Result<(), Why>
    ensures { result
        ≡ ok_unless (refused (link_reasons rules dest.now title.now (map (judged rules) content.now))
        <|> refusal_of_all (inside_link (place_of place)) None (map (judged rules) content.now)) }
{
    check_target(rules, dest, title, content)?;
    check_inlines(rules, place.inside_link(), content)
}

/// Refuses an image at a place.
#[cycle(inlines)]
fn check_image(
    rules: Rules,
    place: Place,
    dest: &str,
    title: &str,
    content: &[Inline],
) -> Result<(), Why>
    ensures { result ≡ ok_unless (refused (image_reasons rules dest.now title.now)
        <|> refusal_of_all (further_in (place_of place)) None (map (judged rules) content.now)) }
{
    check_source(rules, dest, title)?;
    check_inlines(rules, place.further(), content)
}

/// Refuses the content of a paragraph.
pub(crate) fn check_in_paragraph(rules: Rules, content: &[Inline]) -> Result<(), Why>
    ensures { result ≡ ok_unless (paragraph_refusal rules content.now) }
{
    let place = Place {
        heading: false,
        opens_paragraph: true,
        in_opening_link: false,
    };
    check_inlines(rules, place, content)
}

/// Refuses the content of a heading.
pub(crate) fn check_in_heading(rules: Rules, content: &[Inline]) -> Result<(), Why>
    ensures { result ≡ ok_unless (heading_refusal rules content.now) }
{
    let place = Place {
        heading: true,
        opens_paragraph: false,
        in_opening_link: false,
    };
    check_inlines(rules, place, content)
}
