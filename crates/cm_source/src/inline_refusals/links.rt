//! Which links and images can't be spelled.
ghost use Rattle.std.specs.Prelude.{◌≡◌, map};
ghost use Rattle.cm_text.specs.Rules as text_rules;
ghost use Rattle.cm_source.specs.Answers.{ok_unless};
ghost use Rattle.cm_source.specs.InlineRefusals.{refused, judged, hold_link, link_reasons, image_reasons};

use crate::inline_refusals::texts::has_nul_in;
use crate::why::{Why, refuse_if};
use cm_text::{Rules, is_followed};
use cm_tree::Inline;

/// Whether inlines contain a link, at any depth. The search ends where it finds one.
#[cycle(links)]
fn hold_link(inlines: &[Inline]) -> bool
    ensures { (rules : text_rules.Rules) → result ≡ hold_link (map (judged rules) inlines.now) }
{
    for inline in inlines {
        if has_link(inline) {
            return true;
        }
    }
    false
}

#[cycle(links)]
fn has_link(inline: &Inline) -> bool
    ensures { (rules : text_rules.Rules) → result ≡ (judged rules inline.now).has_link }
{
    match inline {
        Inline::Link { .. } => true,
        Inline::Emph(content) => hold_link(content.as_slice()),
        Inline::Strong(content) => hold_link(content.as_slice()),
        Inline::Strike(content) => hold_link(content.as_slice()),
        Inline::Image { content, .. } => hold_link(content.as_slice()),
        _ => false,
    }
}

/// Refuses a link with such a destination, title and content.
///
/// Where a link holds another, the walk ends here. So no inline is searched for links twice.
pub(crate) fn check_target(
    rules: Rules,
    dest: &str,
    title: &str,
    content: &[Inline],
) -> Result<(), Why>
    ensures { result
        ≡ ok_unless (refused (link_reasons rules dest.now title.now (map (judged rules) content.now))) }
{
    refuse_if(has_nul_in(dest, title), Why::Nul)?;
    refuse_if(hold_link(content), Why::LinkInLink)?;
    refuse_if(!is_followed(rules, dest), Why::AddressOff)
}

/// Refuses an image with such a destination and title.
pub(crate) fn check_source(rules: Rules, dest: &str, title: &str) -> Result<(), Why>
    ensures { result ≡ ok_unless (refused (image_reasons rules dest.now title.now)) }
{
    refuse_if(has_nul_in(dest, title), Why::Nul)?;
    refuse_if(!is_followed(rules, dest), Why::AddressOff)
}
