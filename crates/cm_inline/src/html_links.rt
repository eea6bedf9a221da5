//! The tags of links and images. A destination or a title is a part of the source, or a definition's.
ghost use Rattle.std.specs.Prelude.{◌≡◌, ◌++◌, [], ℕ, codes, OnOk};
ghost use Rattle.cm_html.specs.Html.{link_start, image_start, title_html};
ghost use Rattle.cm_tree.specs.LinkTargets.{led_to};
ghost use Rattle.cm_inline.specs.steps.pairing.Readings.{start_html, end_html};
ghost use Rattle.cm_inline.specs.steps.Marks.{link_tag, target_in, IsTargetIn};
ghost use Rattle.cm_inline.specs.steps.Standalone.{autolink_html};

use crate::brackets::Link;
use crate::links::Target;
use crate::marks::unescaped_part;
use cm_html::{Pages, push_image_end, push_image_start, push_link_start};
use cm_tree::{Definitions, LinkTarget};
use std::alloc::{AllocError, Global};

/// A target without a title.
fn untitled(dest: &str) -> LinkTarget<'_>
    ensures { led_to result ≡ (dest.now, []) }
{
    LinkTarget::Plain { dest, title: "" }
}

/// Adds an autolink.
pub(crate) fn push_autolink(
    alloc: Global,
    html: &mut Pages,
    is_address: bool,
    text: &str,
) -> Result<(), AllocError>
    ensures pushed { OnOk result (html.new ≡ html.old ++ autolink_html is_address text.now) }
{
    if is_address {
        let mut dest = String::from_str(alloc, "mailto:")?;
        dest.push_str(text)?;
        push_link_start(html, untitled(&dest))?;
    } else {
        push_link_start(html, untitled(text))?;
    }
    html.push_escaped(text)?;
    html.push_str("</a>")
}

/// Adds the start tag of a link.
fn push_start_of_link(
    alloc: Global,
    html: &mut Pages,
    source: &str,
    definitions: &Definitions,
    target: Target,
) -> Result<(), AllocError>
    requires { IsTargetIn source.now definitions.now target }
    ensures pushed { OnOk result (html.new
        ≡ html.old ++ link_start (target_in source.now definitions.now target).0
        (target_in source.now definitions.now target).1) }
{
    match target {
        Target::Written {
            dest,
            dest_end,
            title,
            title_end,
        } => {
            let dest = unescaped_part(alloc, source, dest, dest_end)?;
            let title = unescaped_part(alloc, source, title, title_end)?;
            push_link_start(
                html,
                LinkTarget::Plain {
                    dest: &dest,
                    title: &title,
                },
            )
        }
        Target::Defined { entry } => push_link_start(html, definitions.target_at(entry)),
    }
}

/// Adds an image up to its alternative text.
fn push_start_of_image(
    alloc: Global,
    html: &mut Pages,
    source: &str,
    definitions: &Definitions,
    target: Target,
) -> Result<(), AllocError>
    requires { IsTargetIn source.now definitions.now target }
    ensures pushed { OnOk result (html.new
        ≡ html.old ++ image_start (target_in source.now definitions.now target).0) }
{
    match target {
        Target::Written { dest, dest_end, .. } => {
            let dest = unescaped_part(alloc, source, dest, dest_end)?;
            push_image_start(html, untitled(&dest))
        }
        Target::Defined { entry } => push_image_start(html, definitions.target_at(entry)),
    }
}

/// Adds the end of an image, after its alternative text.
fn push_end_of_image(
    alloc: Global,
    html: &mut Pages,
    source: &str,
    definitions: &Definitions,
    target: Target,
) -> Result<(), AllocError>
    requires { IsTargetIn source.now definitions.now target }
    ensures pushed { OnOk result (html.new ≡ html.old ++ codes "\""
        ++ title_html (target_in source.now definitions.now target).1 ++ codes " />") }
{
    match target {
        Target::Written {
            title,
            title_end,
            ..
        } => {
            let title = unescaped_part(alloc, source, title, title_end)?;
            push_image_end(
                html,
                LinkTarget::Plain {
                    dest: "",
                    title: &title,
                },
            )
        }
        Target::Defined { entry } => push_image_end(html, definitions.target_at(entry)),
    }
}

/// Adds the start of a link, or an image up to its alternative text.
#[inline(always)]
pub(crate) fn push_start(
    alloc: Global,
    html: &mut Pages,
    source: &str,
    definitions: &Definitions,
    link: Link,
) -> Result<(), AllocError>
    requires { IsTargetIn source.now definitions.now link.target }
    ensures pushed { OnOk result ((number : ℕ) → html.new
        ≡ html.old ++ start_html (link_tag source.now definitions.now number link)) }
{
    if link.image {
        push_start_of_image(alloc, html, source, definitions, link.target)
    } else {
        push_start_of_link(alloc, html, source, definitions, link.target)
    }
}

/// Adds the end of a link, or of an image after its alternative text.
#[inline(always)]
pub(crate) fn push_end(
    alloc: Global,
    html: &mut Pages,
    source: &str,
    definitions: &Definitions,
    link: Link,
) -> Result<(), AllocError>
    requires { IsTargetIn source.now definitions.now link.target }
    ensures pushed { OnOk result ((number : ℕ) → html.new
        ≡ html.old ++ end_html (link_tag source.now definitions.now number link)) }
{
    if link.image {
        push_end_of_image(alloc, html, source, definitions, link.target)
    } else {
        html.push_str("</a>")
    }
}
