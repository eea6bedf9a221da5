//! The HTML of blocks.
ghost use Rattle.std.specs.Prelude.{◌≡◌, ◌++◌, true, false, codes, map, OnOk};
ghost use Rattle.std.specs.Fmt.{decimal};
ghost use Rattle.cm_html.specs.Html.{list_start, list_end, ordered_start, inlines_html, written, alone};
ghost use Rattle.cm_html.specs.Html.{html_of, heading_start, heading_end, heading_html};
ghost use Rattle.cm_html.specs.Html.{code_start, code_html};
ghost use Rattle.cm_html.specs.steps.HtmlParts.{paragraph_html, quote_html, class_start, inside, item_html};

use crate::elements::Element;
use crate::escape::class_word;
use crate::inlines::push_inlines;
use crate::pages::Pages;
use cm_tree::{Block, Inline, ListKind};
use std::alloc::AllocError;

/// Writes blocks, one after another.
#[cycle(blocks)]
pub(crate) fn push_blocks(out: &mut Pages, blocks: &[Block]) -> Result<(), AllocError>
    ensures { OnOk result (out.new ≡ out.old ++ html_of blocks.now) }
{
    for block in blocks {
        push_block(out, block)?;
    }
    Ok(())
}

/// Adds the HTML of a block that is in no item.
///
/// # Errors
///
/// `AllocError` if a request for memory was refused; a prefix of the HTML may have been added then.
#[cycle(blocks)]
pub fn push_block(out: &mut Pages, block: &Block) -> Result<(), AllocError>
    ensures { OnOk result (out.new ≡ out.old ++ alone (written block.now)) }
{
    match block {
        Block::Paragraph(content) => push_paragraph(out, content.as_slice()),
        Block::Heading { level, content } => push_heading(out, *level, content.as_slice()),
        Block::Code { info, text } => push_code(out, info.as_str(), text.as_str()),
        Block::Html { text } => out.push_str(text.as_str()),
        Block::Break => push_break(out),
        Block::Definition { .. } => Ok(()),
        Block::Quote(blocks) => push_quote(out, blocks.as_slice()),
        Block::List { kind, tight, items } => {
            push_list_start(out, *kind)?;
            for item in items.as_slice() {
                push_item(out, *tight, item.as_slice())?;
            }
            push_list_end(out, *kind)
        }
    }
}

/// Adds a thematic break, and a line feed.
///
/// # Errors
///
/// As `push_block`.
#[inline(always)]
pub fn push_break(out: &mut Pages) -> Result<(), AllocError>
    ensures { OnOk result (out.new ≡ out.old ++ codes "<hr />\n") }
{
    out.push_str("<hr />\n")
}

fn push_paragraph(out: &mut Pages, content: &[Inline]) -> Result<(), AllocError>
    ensures { OnOk result (out.new ≡ out.old ++ paragraph_html (inlines_html content.now)) }
{
    out.push_str(Element::Paragraph.start())?;
    push_inlines(out, content)?;
    out.push_str(Element::Paragraph.end())
}

fn push_heading(out: &mut Pages, level: u8, content: &[Inline]) -> Result<(), AllocError>
    ensures { OnOk result (out.new ≡ out.old ++ heading_html level (inlines_html content.now)) }
{
    push_heading_start(out, level)?;
    push_inlines(out, content)?;
    push_heading_end(out, level)
}

/// Adds the start tag of a heading.
///
/// # Errors
///
/// `AllocError` if a request for memory was refused; a prefix of it may have been added then.
pub fn push_heading_start(out: &mut Pages, level: u8) -> Result<(), AllocError>
    ensures { OnOk result (out.new ≡ out.old ++ heading_start level) }
{
    out.push_str("<h")?;
    out.push_number(usize::from(level))?;
    out.push_str(">")
}

/// Adds the end tag of a heading, and a line feed.
///
/// # Errors
///
/// As `push_heading_start`.
pub fn push_heading_end(out: &mut Pages, level: u8) -> Result<(), AllocError>
    ensures { OnOk result (out.new ≡ out.old ++ heading_end level) }
{
    out.push_str("</h")?;
    out.push_number(usize::from(level))?;
    out.push_str(">\n")
}

/// Writes the start of a code block with a class.
fn push_class_start(out: &mut Pages, word: &str) -> Result<(), AllocError>
    ensures { OnOk result (out.new ≡ out.old ++ class_start word.now) }
{
    out.push_str("<pre><code class=\"language-")?;
    out.push_escaped(word)?;
    out.push_str("\">")
}

/// Writes the start of a code block with this class word, which may be empty.
fn push_code_start(out: &mut Pages, word: &str) -> Result<(), AllocError>
    ensures { OnOk result (out.new ≡ out.old ++ code_start word.now) }
{
    if word.is_empty() {
        return out.push_str("<pre><code>");
    }
    push_class_start(out, word)
}

/// Adds a code block with this info string and text.
///
/// # Errors
///
/// As `push_block`.
pub fn push_code(out: &mut Pages, info: &str, text: &str) -> Result<(), AllocError>
    ensures { OnOk result (out.new ≡ out.old ++ code_html info.now text.now) }
{
    push_code_start(out, class_word(info))?;
    out.push_escaped(text)?;
    out.push_str("</code></pre>\n")
}

#[cycle(blocks)]
fn push_quote(out: &mut Pages, blocks: &[Block]) -> Result<(), AllocError>
    ensures { OnOk result (out.new ≡ out.old ++ quote_html (html_of blocks.now)) }
{
    out.push_str(Element::Quote.start())?;
    push_blocks(out, blocks)?;
    out.push_str(Element::Quote.end())
}

#[cycle(blocks)]
fn push_item(out: &mut Pages, tight: bool, blocks: &[Block]) -> Result<(), AllocError>
    ensures { OnOk result (out.new ≡ out.old ++ item_html tight (map written blocks.now)) }
{
    out.push_str(Element::Item.start())?;
    if tight {
        push_tight(out, blocks)?;
    } else {
        push_loose(out, blocks)?;
    }
    out.push_str(Element::Item.end())
}

/// Writes the blocks of an item of a tight list.
#[cycle(blocks)]
fn push_tight(out: &mut Pages, blocks: &[Block]) -> Result<(), AllocError>
    ensures { OnOk result (out.new ≡ out.old ++ inside true (map written blocks.now)) }
{
    let mut fresh = true;
    for block in blocks {
        match block {
            Block::Definition { .. } => {}
            Block::Paragraph(content) => {
                push_inlines(out, content.as_slice())?;
                fresh = true;
            }
            block => {
                if fresh {
                    out.push_str("\n")?;
                }
                push_block(out, block)?;
                fresh = false;
            }
        }
    }
    Ok(())
}

/// Writes the blocks of an item of a loose list.
#[cycle(blocks)]
fn push_loose(out: &mut Pages, blocks: &[Block]) -> Result<(), AllocError>
    ensures { OnOk result (out.new ≡ out.old ++ inside false (map written blocks.now)) }
{
    let mut first = true;
    for block in blocks {
        match block {
            Block::Definition { .. } => (),
            block => {
                if first {
                    out.push_str("\n")?;
                }
                push_block(out, block)?;
                first = false;
            }
        }
    }
    Ok(())
}

/// Adds the start tag of a list, and a line feed.
///
/// # Errors
///
/// As `push_heading_start`.
pub fn push_list_start(out: &mut Pages, kind: ListKind) -> Result<(), AllocError>
    ensures { OnOk result (out.new ≡ out.old ++ list_start kind) }
{
    match kind {
        ListKind::Dash | ListKind::Plus | ListKind::Star => out.push_str("<ul>\n"),
        ListKind::Dot { start } | ListKind::Paren { start } => push_ordered_start(out, start),
    }
}

fn push_ordered_start(out: &mut Pages, start: u32) -> Result<(), AllocError>
    ensures { OnOk result (out.new ≡ out.old ++ ordered_start start) }
{
    if start == 1 {
        out.push_str("<ol>\n")
    } else {
        push_numbered_start(out, start)
    }
}

fn push_numbered_start(out: &mut Pages, start: u32) -> Result<(), AllocError>
    ensures { OnOk result (out.new ≡ out.old ++ codes "<ol start=\"" ++ decimal start ++ codes "\">\n") }
{
    out.push_str("<ol start=\"")?;
    out.push_number(start as usize)?;
    out.push_str("\">\n")
}

/// Adds the end tag of a list, and a line feed.
///
/// # Errors
///
/// As `push_heading_start`.
pub fn push_list_end(out: &mut Pages, kind: ListKind) -> Result<(), AllocError>
    ensures { OnOk result (out.new ≡ out.old ++ list_end kind) }
{
    match kind {
        ListKind::Dash | ListKind::Plus | ListKind::Star => out.push_str("</ul>\n"),
        ListKind::Dot { .. } | ListKind::Paren { .. } => out.push_str("</ol>\n"),
    }
}
