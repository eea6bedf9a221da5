//! The HTML of inlines.
ghost use Rattle.std.specs.Prelude.{◌≡◌, ◌++◌, codes, OnOk};
ghost use Rattle.cm_tree.specs.LinkTargets.{led_to};
ghost use Rattle.cm_html.specs.Escape.{escape, destination_html};
ghost use Rattle.cm_html.specs.Elements.{element_html};
ghost use Rattle.cm_html.specs.Html.{Rendered, rendered, inlines_html};
ghost use Rattle.cm_html.specs.Html.{title_html, link_start, link_html, image_start, image_html};
ghost use Rattle.cm_html.specs.steps.AlternativeText.{alternative_text};
ghost use Rattle.cm_html.specs.steps.HtmlParts.{code_span_html};

use crate::elements::Element;
use crate::forms::Form;
use crate::pages::Pages;
use cm_tree::{Inline, LinkTarget};
use std::alloc::AllocError;

/// Writes inlines, one after another.
#[cycle(inlines)]
pub(crate) fn push_inlines(out: &mut Pages, inlines: &[Inline]) -> Result<(), AllocError>
    ensures { OnOk result (out.new ≡ out.old ++ inlines_html inlines.now) }
{
    for inline in inlines {
        push_inline(out, inline)?;
    }
    Ok(())
}

/// Writes an inline.
#[cycle(inlines)]
fn push_inline(out: &mut Pages, inline: &Inline) -> Result<(), AllocError>
    ensures { OnOk result (out.new ≡ out.old ++ (rendered inline.now).html) }
{
    match inline {
        Inline::Text(text) => out.push_escaped(text.as_str()),
        Inline::Code(text) => push_code_span(out, text.as_str()),
        Inline::Html(text) => out.push_str(text.as_str()),
        Inline::Soft => out.push_str("\n"),
        Inline::Hard => out.push_str("<br />\n"),
        Inline::Emph(content) => push_element(out, Element::Emph, content.as_slice()),
        Inline::Strong(content) => push_element(out, Element::Strong, content.as_slice()),
        Inline::Strike(content) => push_element(out, Element::Strike, content.as_slice()),
        Inline::Link {
            dest,
            title,
            content,
        } => push_link(out, LinkTarget::new(dest, title), content.as_slice()),
        Inline::Image {
            dest,
            title,
            content,
        } => push_image(out, LinkTarget::new(dest, title), content.as_slice()),
    }
}

fn push_code_span(out: &mut Pages, text: &str) -> Result<(), AllocError>
    ensures { OnOk result (out.new ≡ out.old ++ code_span_html text.now) }
{
    out.push_str(Element::Code.start())?;
    out.push_escaped(text)?;
    out.push_str(Element::Code.end())
}

/// Writes inlines in an element.
#[cycle(inlines)]
fn push_element(out: &mut Pages, element: Element, content: &[Inline]) -> Result<(), AllocError>
    ensures { OnOk result (out.new ≡ out.old ++ element_html element (inlines_html content.now)) }
{
    out.push_str(element.start())?;
    push_inlines(out, content)?;
    out.push_str(element.end())
}

/// Adds the destination of a link, as the value of an attribute.
#[inline(always)]
fn push_dest(out: &mut Pages, target: LinkTarget<'_>) -> Result<(), AllocError>
    ensures { OnOk result (out.new ≡ out.old ++ destination_html (led_to target.entry).0) }
{
    match target {
        LinkTarget::Plain { dest, .. } => out.push_in_form(Form::Destination, dest),
        LinkTarget::Shared { dest, .. } => out.push_shared(Form::Destination, dest),
    }
}

/// Adds the title of a link, as the value of an attribute.
fn push_title(out: &mut Pages, target: LinkTarget<'_>) -> Result<(), AllocError>
    ensures { OnOk result (out.new ≡ out.old ++ escape (led_to target.entry).1) }
{
    match target {
        LinkTarget::Plain { title, .. } => out.push_escaped(title),
        LinkTarget::Shared { title, .. } => out.push_shared(Form::Escaped, title),
    }
}

/// Adds a title after the value of an attribute, unless the title is empty. The quotation mark after the last
/// value is left out.
#[inline(always)]
fn push_title_after(out: &mut Pages, target: LinkTarget<'_>) -> Result<(), AllocError>
    ensures { OnOk result (out.new ++ codes "\""
        ≡ out.old ++ codes "\"" ++ title_html (led_to target.entry).1) }
{
    if target.title().is_empty() {
        return Ok(());
    }
    out.push_str("\" title=\"")?;
    push_title(out, target)
}

/// Adds the start tag of a link with this destination, and its title unless that is empty. Long texts that
/// are shared are held once.
///
/// # Errors
///
/// `AllocError` if a request for memory was refused; a prefix of the tag may have been added then.
pub fn push_link_start(out: &mut Pages, target: LinkTarget<'_>) -> Result<(), AllocError>
    ensures { OnOk result (out.new ≡ out.old ++ link_start (led_to target.entry).0 (led_to target.entry).1) }
{
    out.push_str("<a href=\"")?;
    push_dest(out, target)?;
    push_title_after(out, target)?;
    out.push_str("\">")
}

#[cycle(inlines)]
fn push_link(out: &mut Pages, target: LinkTarget<'_>, content: &[Inline]) -> Result<(), AllocError>
    ensures { OnOk result (out.new
        ≡ out.old ++ link_html (led_to target.entry).0 (led_to target.entry).1 (inlines_html content.now)) }
{
    push_link_start(out, target)?;
    push_inlines(out, content)?;
    out.push_str("</a>")
}

/// Adds an image with this destination, up to its alternative text. A long text that is shared is held once.
///
/// # Errors
///
/// As `push_link_start`.
pub fn push_image_start(out: &mut Pages, target: LinkTarget<'_>) -> Result<(), AllocError>
    ensures { OnOk result (out.new ≡ out.old ++ image_start (led_to target.entry).0) }
{
    out.push_str("<img src=\"")?;
    push_dest(out, target)?;
    out.push_str("\" alt=\"")
}

/// Adds what follows the alternative text of an image: its title, unless that is empty, and the end of the
/// tag.
///
/// # Errors
///
/// As `push_link_start`.
pub fn push_image_end(out: &mut Pages, target: LinkTarget<'_>) -> Result<(), AllocError>
    ensures { OnOk result (out.new
        ≡ out.old ++ codes "\"" ++ title_html (led_to target.entry).1 ++ codes " />") }
{
    push_title_after(out, target)?;
    out.push_str("\" />")
}

fn push_image(out: &mut Pages, target: LinkTarget<'_>, content: &[Inline]) -> Result<(), AllocError>
    ensures { OnOk result (out.new
        ≡ out.old ++ image_html (led_to target.entry).0 (led_to target.entry).1
        (alternative_text content.now)) }
{
    push_image_start(out, target)?;
    push_alternative_text(out, content)?;
    push_image_end(out, target)
}

/// Writes the alternative text of an image with this content.
#[cycle(alternative_text)]
fn push_alternative_text(out: &mut Pages, content: &[Inline]) -> Result<(), AllocError>
    ensures { OnOk result (out.new ≡ out.old ++ escape (alternative_text content.now)) }
{
    for inline in content {
        push_plain(out, inline)?;
    }
    Ok(())
}

/// Writes an inline's part of an alternative text.
#[cycle(alternative_text)]
fn push_plain(out: &mut Pages, inline: &Inline) -> Result<(), AllocError>
    ensures { OnOk result (out.new ≡ out.old ++ escape (rendered inline.now).plain) }
{
    match inline {
        Inline::Text(text) => out.push_escaped(text.as_str()),
        Inline::Code(text) => out.push_escaped(text.as_str()),
        Inline::Html(text) => out.push_escaped(text.as_str()),
        Inline::Soft | Inline::Hard => out.push_str(" "),
        Inline::Emph(content) => push_alternative_text(out, content.as_slice()),
        Inline::Strong(content) => push_alternative_text(out, content.as_slice()),
        Inline::Strike(content) => push_alternative_text(out, content.as_slice()),
        Inline::Link { content, .. } => push_alternative_text(out, content.as_slice()),
        Inline::Image { content, .. } => push_alternative_text(out, content.as_slice()),
    }
}
