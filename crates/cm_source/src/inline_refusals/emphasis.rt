//! Which emphasis, strong emphasis and strikethrough can't be spelled.
ghost use Rattle.std.specs.Prelude.{◌≡◌, [], ◌∷◌, not, ◌&&◌, ◌||◌, map};
ghost use Rattle.cm_text.specs.Rules as text_rules;
ghost use Rattle.cm_source.specs.Answers.{ok_unless};
ghost use Rattle.cm_source.specs.InlineRefusals.{refused, is_whitespace, is_plain, judged, hold_emphasis};
ghost use Rattle.cm_source.specs.InlineRefusals.{has_wrong_edge, emphasis_reasons};
ghost use Rattle.cm_source.specs.steps.InlineFaces.{seen};

use crate::inline_refusals::faces::{
    Face, first_face, first_of, is_emphasis, is_plain, is_whitespace, last_face, last_of,
};
use crate::why::{Why, refuse_if};
use cm_text::Rules;
use cm_tree::Inline;

/// Whether inlines contain emphasis, at any depth. The search ends where it finds one.
#[cycle(emphasis)]
fn hold_emphasis(inlines: &[Inline]) -> bool
    ensures { (rules : text_rules.Rules) → result ≡ hold_emphasis (map (judged rules) inlines.now) }
{
    for inline in inlines {
        if has_emphasis(inline) {
            return true;
        }
    }
    false
}

#[cycle(emphasis)]
fn has_emphasis(inline: &Inline) -> bool
    ensures { (rules : text_rules.Rules) → result ≡ (judged rules inline.now).has_emphasis }
{
    match inline {
        Inline::Emph(_) => true,
        Inline::Strong(_) => true,
        Inline::Strike(_) => true,
        Inline::Link { content, .. } => hold_emphasis(content.as_slice()),
        Inline::Image { content, .. } => hold_emphasis(content.as_slice()),
        _ => false,
    }
}

/// Whether a delimiter run wouldn't open or close emphasis between these characters,
/// outside and inside of it.
fn is_wrong_edge(rules: Rules, outside: Option<char>, inside: Option<char>) -> bool
    ensures { result ≡ (is_whitespace inside || is_plain rules outside && not (is_plain rules inside)) }
{
    is_whitespace(inside) || is_plain(rules, outside) && !is_plain(rules, inside)
}

/// Whether emphasis between these has no content, or a wrong edge.
fn has_wrong_edge(
    rules: Rules,
    before: Option<Face<'_>>,
    content: &[Inline],
    after: Option<Face<'_>>,
) -> bool
    ensures { result
        ≡ has_wrong_edge rules (seen before.entry) (map (judged rules) content.now) (seen after.entry) }
{
    if content.is_empty() {
        return true;
    }
    let first = first_of(first_face(content));
    let last = last_of(last_face(content));
    is_wrong_edge(rules, last_of(before), first) || is_wrong_edge(rules, first_of(after), last)
}

/// Refuses emphasis with such a content between these.
///
/// Where emphasis contains other emphasis, the walk ends. So no inline is searched for emphasis twice,
/// however deep it is, and the walk takes linear time.
pub(crate) fn check_emphasis(
    rules: Rules,
    content: &[Inline],
    before: Option<Face<'_>>,
    after: Option<Face<'_>>,
) -> Result<(), Why>
    ensures { result ≡ ok_unless (refused (emphasis_reasons rules
        (map (judged rules) content.now) (seen before.entry) (seen after.entry))) }
{
    refuse_if(hold_emphasis(content), Why::EmphasisNested)?;
    refuse_if(is_emphasis(before), Why::EmphasisTouching)?;
    refuse_if(
        has_wrong_edge(rules, before, content, after),
        Why::EmphasisEdge,
    )
}

/// Refuses strikethrough where the rules have it off.
pub(crate) fn check_strike(rules: Rules, strike: bool) -> Result<(), Why>
    ensures { result ≡ ok_unless (refused ((strike && not rules.strike, Why.StrikeOff) ∷ [])) }
{
    refuse_if(strike && !rules.strike(), Why::StrikeOff)
}
