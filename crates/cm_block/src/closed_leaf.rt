//! How a leaf block that closes is added to its level.
ghost use Rattle.std.specs.Prelude.{◌≡◌, ◌+◌, ◌<◌, ◌≤◌, ◌^◌, [], suc, length, drop, false, None, IfOk, OnOk};
ghost use Rattle.cm_block.specs.Prelude.{trim_end, definitions_of, link_definition, leaf_block, definition};
ghost use Rattle.cm_block.specs.Prelude.{code, html};
ghost use Rattle.cm_block.specs.Prelude.{line_feeds, line_count, definition_leaves, content_leaf};
ghost use Rattle.cm_block.specs.Level.{block_closes};
ghost use Rattle.cm_block.specs.OpenLeaf.{run_leaves};
ghost use Rattle.cm_block.specs.Stack.{close_leaves, own_leaf, own_leaves};
ghost use Rattle.cm_block.specs.LeafViews.{ended};
ghost use Rattle.cm_block.specs.steps.LeafSteps.{underline_level, fence_lines, own_plain_leaf};

use crate::leaf_block::LeafBlock;
use crate::leaf_text::LeafText;
use crate::open_leaf::Ending;
use crate::owners::Owners;
use crate::stack::Stack;
use crate::text_runs::line_feeds;
use cm_scan::{LinkDefinition, definition, is_next, trim_end};
use cm_text::{NoMemory, unescape_or_lend};
use std::alloc::Global;

/// Adds a definition. Its destination and title are resolved, and its label is its source (4.7).
fn put_definition(
    alloc: Global,
    found: LinkDefinition<'_>,
    lines: usize,
    stack: &mut Stack,
    owners: &mut Owners,
    leaves: &mut usize,
) -> Result<(), NoMemory>
    requires counted { leaves.old ≡ owners.old.leaves }
    ensures level { OnOk result (stack.new.level
        ≡ block_closes stack.old.level
        (leaf_block (definition found.entry.label.now found.entry.dest.now found.entry.title.now))) }
    ensures frames { stack.new.frames ≡ stack.old.frames }
    ensures bare { stack.new.bare ≡ stack.old.bare }
    ensures owners { OnOk result (owners.new
        ≡ own_leaf owners.old
        (definition found.entry.label.now found.entry.dest.now found.entry.title.now) lines) }
    ensures counted { leaves.new ≡ owners.new.leaves }
{
    let dest = unescape_or_lend(alloc, found.dest)?;
    let title = unescape_or_lend(alloc, found.title)?;
    owners.definition(leaves, found.label, &dest, &title, lines)?;
    stack.put(&LeafBlock::Definition {
        label: found.label,
        dest: &dest,
        title: &title,
    })?;
    Ok(())
}

/// The number of lines of a definition that takes the first `end` bytes of a text with `feeds` line feeds.
fn lines_taken(text: &str, end: usize, feeds: usize) -> usize
    requires some { 1 ≤ length text.now }
    requires within { end ≤ length text.now }
    requires feeds { feeds + line_feeds (drop end text.now) ≡ line_feeds text.now }
    requires few { feeds < 2 ^ 63 }
    ensures { result + line_count (drop end text.now) ≡ line_count text.now }
{
    if end == text.len() {
        return feeds + 1;
    }
    feeds
}

/// Adds the definitions at the start of a text with `feeds` line feeds. Returns the rest of the text, and the
/// number of its line feeds.
fn put_definitions<'a>(
    alloc: Global,
    text: &'a str,
    feeds: usize,
    stack: &mut Stack,
    owners: &mut Owners,
    leaves: &mut usize,
) -> Result<(&'a str, usize), NoMemory>
    requires feeds { feeds ≡ line_feeds text.now }
    requires few { feeds < 2 ^ 63 }
    requires counted { leaves.old ≡ owners.old.leaves }
    ensures left { IfOk result (λ left. left.0.now ≡ (definitions_of text.now).left) }
    ensures feeds { IfOk result (λ left. left.1 ≡ line_feeds left.0.now) }
    ensures few { IfOk result (λ left. left.1 < 2 ^ 63) }
    ensures level { OnOk result (stack.new.level
        ≡ close_leaves stack.old.level (definition_leaves text.now (definitions_of text.now).taken)) }
    ensures frames { stack.new.frames ≡ stack.old.frames }
    ensures bare { stack.new.bare ≡ stack.old.bare }
    ensures owners { OnOk result (owners.new
        ≡ own_leaves owners.old (definition_leaves text.now (definitions_of text.now).taken)) }
    ensures counted { leaves.new ≡ owners.new.leaves }
{
    let mut rest = text;
    let mut left = feeds;
    while let Some((found, end)) = definition(rest, 0) {
        let taken = line_feeds(&rest[..end]);
        let lines = lines_taken(rest, end, taken);
        put_definition(alloc, found, lines, stack, owners, leaves)?;
        rest = &rest[end..];
        left -= taken;
    }
    Ok((rest, left))
}

/// Adds the rest of a run, which has `feeds` line feeds: a paragraph, or with an underline a heading.
fn put_content(
    source: &str,
    feeds: usize,
    ending: Ending,
    stack: &mut Stack,
    owners: &mut Owners,
    leaves: &mut usize,
) -> Result<(), NoMemory>
    requires feeds { feeds ≡ line_feeds source.now }
    requires few { feeds < 2 ^ 63 }
    requires counted { leaves.old ≡ owners.old.leaves }
    ensures level { OnOk result (stack.new.level
        ≡ close_leaves stack.old.level (content_leaf (underline_level ending) source.now)) }
    ensures frames { stack.new.frames ≡ stack.old.frames }
    ensures bare { stack.new.bare ≡ stack.old.bare }
    ensures owners { OnOk result (owners.new
        ≡ own_leaves owners.old (content_leaf (underline_level ending) source.now)) }
    ensures counted { leaves.new ≡ owners.new.leaves }
{
    if source.is_empty() {
        return Ok(());
    }
    match ending {
        Ending::Underline(level) => {
            owners.leaf(leaves, feeds + 2)?;
            stack.put(&LeafBlock::Heading { level, source })
        }
        Ending::Plain | Ending::ClosingFence => {
            owners.leaf(leaves, feeds + 1)?;
            stack.put(&LeafBlock::Paragraph { source })
        }
    }
}

/// Whether a text may start with a definition. Mostly its first byte shows that it doesn't.
#[inline(always)]
fn may_define(text: &str) -> bool
    ensures { result ≡ false → None ≡ link_definition text.now }
{
    is_next(text.as_bytes(), 0, b'[')
}

/// Adds the leaves of a run: the definitions at its start, and the rest.
#[inline(always)]
pub(crate) fn put_run(
    alloc: Global,
    source: &LeafText,
    ending: Ending,
    stack: &mut Stack,
    owners: &mut Owners,
    leaves: &mut usize,
) -> Result<(), NoMemory>
    requires counted { leaves.old ≡ owners.old.leaves }
    ensures level { OnOk result (stack.new.level
        ≡ close_leaves stack.old.level (run_leaves (underline_level ending) source.now)) }
    ensures frames { stack.new.frames ≡ stack.old.frames }
    ensures bare { stack.new.bare ≡ stack.old.bare }
    ensures owners { OnOk result (owners.new
        ≡ own_leaves owners.old (run_leaves (underline_level ending) source.now)) }
    ensures counted { leaves.new ≡ owners.new.leaves }
{
    let text = trim_end(source.as_str());
    if !may_define(text) {
        return put_content(text, source.feeds(), ending, stack, owners, leaves);
    }
    let (left, feeds) = put_definitions(alloc, text, source.feeds(), stack, owners, leaves)?;
    put_content(left, feeds, ending, stack, owners, leaves)
}

/// Adds a code block, whose info is resolved.
fn put_code(
    info: &str,
    text: &str,
    lines: usize,
    stack: &mut Stack,
    owners: &mut Owners,
    leaves: &mut usize,
) -> Result<(), NoMemory>
    requires counted { leaves.old ≡ owners.old.leaves }
    ensures level { OnOk result (stack.new.level
        ≡ block_closes stack.old.level (leaf_block (code info.now text.now))) }
    ensures frames { stack.new.frames ≡ stack.old.frames }
    ensures bare { stack.new.bare ≡ stack.old.bare }
    ensures owners { OnOk result (owners.new ≡ own_plain_leaf owners.old lines) }
    ensures counted { leaves.new ≡ owners.new.leaves }
{
    owners.leaf(leaves, lines)?;
    stack.put(&LeafBlock::Code { info, text })
}

/// The number of lines of a fenced code block with this text and this ending.
fn fence_lines(ending: Ending, text: &LeafText) -> usize
    ensures { result ≡ fence_lines ending text.now }
{
    let fences = match ending {
        Ending::ClosingFence => 2,
        Ending::Plain | Ending::Underline(_) => 1,
    };
    text.feeds() + fences
}

/// Adds fenced code, each of whose lines has a line feed (4.5 Fenced code blocks).
pub(crate) fn put_fenced(
    info: &str,
    text: &LeafText,
    ending: Ending,
    stack: &mut Stack,
    owners: &mut Owners,
    leaves: &mut usize,
) -> Result<(), NoMemory>
    requires counted { leaves.old ≡ owners.old.leaves }
    ensures level { OnOk result (stack.new.level
        ≡ block_closes stack.old.level (leaf_block (code info.now text.now))) }
    ensures frames { stack.new.frames ≡ stack.old.frames }
    ensures bare { stack.new.bare ≡ stack.old.bare }
    ensures owners { OnOk result (owners.new ≡ own_plain_leaf owners.old (fence_lines ending text.now)) }
    ensures counted { leaves.new ≡ owners.new.leaves }
{
    let lines = fence_lines(ending, text);
    put_code(info, text.as_str(), lines, stack, owners, leaves)
}

/// Adds indented code, whose lines are separated by line feeds (4.4 Indented code blocks).
pub(crate) fn put_indented(
    text: &mut LeafText,
    stack: &mut Stack,
    owners: &mut Owners,
    leaves: &mut usize,
) -> Result<(), NoMemory>
    requires counted { leaves.old ≡ owners.old.leaves }
    ensures level { OnOk result (stack.new.level
        ≡ block_closes stack.old.level (leaf_block (code [] (ended text.old)))) }
    ensures frames { stack.new.frames ≡ stack.old.frames }
    ensures bare { stack.new.bare ≡ stack.old.bare }
    ensures owners { OnOk result (owners.new ≡ own_plain_leaf owners.old (suc (line_feeds text.old))) }
    ensures counted { leaves.new ≡ owners.new.leaves }
{
    let lines = text.feeds() + 1;
    text.end_line()?;
    put_code("", text.as_str(), lines, stack, owners, leaves)
}

/// Adds HTML, whose lines are separated by line feeds (4.6 HTML blocks).
pub(crate) fn put_html(
    text: &mut LeafText,
    stack: &mut Stack,
    owners: &mut Owners,
    leaves: &mut usize,
) -> Result<(), NoMemory>
    requires counted { leaves.old ≡ owners.old.leaves }
    ensures level { OnOk result (stack.new.level
        ≡ block_closes stack.old.level (leaf_block (html (ended text.old)))) }
    ensures frames { stack.new.frames ≡ stack.old.frames }
    ensures bare { stack.new.bare ≡ stack.old.bare }
    ensures owners { OnOk result (owners.new ≡ own_plain_leaf owners.old (suc (line_feeds text.old))) }
    ensures counted { leaves.new ≡ owners.new.leaves }
{
    let lines = text.feeds() + 1;
    text.end_line()?;
    owners.leaf(leaves, lines)?;
    stack.put(&LeafBlock::Html {
        text: text.as_str(),
    })
}
