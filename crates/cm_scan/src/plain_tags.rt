//! Tags and raw HTML for callers that count no looks.
ghost use Rattle.std.specs.Prelude.{◌≡◌, ◌<◌, ◌∷◌, Some, None, MatchOption};
ghost use Rattle.cm_scan.specs.spans.RawHtml.{raw_html};
ghost use Rattle.cm_scan.specs.spans.Tags.{tag_name, open_tag, closing_tag};
ghost use Rattle.cm_scan.specs.steps.SpanSteps.{left_of};

use crate::{inline_html, tags};
use cm_text::{Looks, Rest, Rules};
use std::sync::ledger::{Blank, Ledger};

/// A tag's name, and the bytes after the tag or the name.
#[derive(Clone, Copy, Debug, PartialEq, Eq)]
pub(crate) struct PlainTag<'a> {
    /// The name as in the source.
    pub(crate) name: &'a [u8],
    /// What is left.
    pub(crate) rest: &'a [u8],
}

/// The name of a tag, and the bytes after it.
pub(crate) fn tag_name<'a, L: Ledger>(bytes: &'a [u8], blank: Blank) -> Option<PlainTag<'a>>
    requires name { blank.name ≡ L.name }
    requires parts { blank.parts ≡ L.parts }
    requires some { 0 < blank.parts }
    ensures read { MatchOption result (tag_name bytes.now ≡ None)
        (λ tag. tag_name bytes.now ≡ Some (record { name = tag.name.now; rest = tag.rest.now })) }
{
    let mut looks = Looks::<L>::start(blank);
    let tag = tags::tag_name(&Rest::of(bytes), &mut looks)?;
    Some(PlainTag {
        name: tag.name,
        rest: tag.rest.lend(tag.rest.len(), &mut looks),
    })
}

/// An open tag, after its `<`.
pub(crate) fn open_tag<'a, L: Ledger>(inside: &'a [u8], blank: Blank) -> Option<PlainTag<'a>>
    requires name { blank.name ≡ L.name }
    requires parts { blank.parts ≡ L.parts }
    requires some { 0 < blank.parts }
    ensures read { MatchOption result (open_tag (60 ∷ inside.now) ≡ None)
        (λ tag. open_tag (60 ∷ inside.now) ≡ Some (record { name = tag.name.now; rest = tag.rest.now })) }
{
    let mut looks = Looks::<L>::start(blank);
    let tag = tags::open_tag(&Rest::of(inside), &mut looks)?;
    Some(PlainTag {
        name: tag.name,
        rest: tag.rest.lend(tag.rest.len(), &mut looks),
    })
}

/// A closing tag, after its `</`.
pub(crate) fn closing_tag<'a, L: Ledger>(inside: &'a [u8], blank: Blank) -> Option<PlainTag<'a>>
    requires name { blank.name ≡ L.name }
    requires parts { blank.parts ≡ L.parts }
    requires some { 0 < blank.parts }
    ensures read { MatchOption result (closing_tag (60 ∷ 47 ∷ inside.now) ≡ None)
        (λ tag. closing_tag (60 ∷ 47 ∷ inside.now)
        ≡ Some (record { name = tag.name.now; rest = tag.rest.now })) }
{
    let mut looks = Looks::<L>::start(blank);
    let tag = tags::closing_tag(&Rest::of(inside), &mut looks)?;
    Some(PlainTag {
        name: tag.name,
        rest: tag.rest.lend(tag.rest.len(), &mut looks),
    })
}

/// The bytes after the raw HTML at the start of a text.
#[inline(always)]
pub(crate) fn after_raw_html<'a, L: Ledger>(
    rules: Rules,
    text: &'a [u8],
    blank: Blank,
) -> Option<&'a [u8]>
    requires name { blank.name ≡ L.name }
    requires parts { blank.parts ≡ L.parts }
    requires some { 0 < blank.parts }
    ensures read { left_of result ≡ raw_html rules text.now }
{
    let mut looks = Looks::<L>::start(blank);
    let rest = inline_html::after_raw_html(rules, &Rest::of(text), &mut looks)?;
    Some(rest.lend(rest.len(), &mut looks))
}
