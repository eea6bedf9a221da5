//! Blocks, spelled line by line.
//!
//! The definition is total: a tree that is refused has a spelling too, which no caller gets. A paragraph's
//! content is split at each line feed, even at one in a code span, so that no case is left open.
ghost use Rattle.std.specs.Prelude.{not, true, [], ◌∷◌, ◌++◌, replicate, OnOk};
ghost use Rattle.cm_source.specs.Texts.{spelled_text};
ghost use Rattle.cm_source.specs.Inlines.{spelled_content};
ghost use Rattle.cm_source.specs.Spelling.{parted_lines, after_space, heading_lines, code_lines, gap};
ghost use Rattle.cm_source.specs.Spelling.{quote_lines, item_lines, marker, lines_of_block, lines_of_blocks};
ghost use Rattle.cm_source.specs.steps.WrittenLines.{Lays, Writes};

use crate::inlines::{spell_inlines, spell_text};
use crate::source_lines::SourceLines;
use crate::texts::longest_run;
use cm_tree::{Block, Inline, ListKind};
use std::alloc::AllocError;

/// The line of a thematic break.
const BREAK: &str = "___";

/// Spells a paragraph.
fn spell_paragraph(source: &mut SourceLines, content: &[Inline]) -> Result<(), AllocError>
    ensures { OnOk result (Writes source.old source.new (parted_lines (spelled_content content.now))) }
{
    source.begin_line()?;
    spell_inlines(source, content, true, true)?;
    source.end_line()
}

/// Spells a space and a content, if there is any.
fn spell_after_space(source: &mut SourceLines, content: &[Inline]) -> Result<(), AllocError>
    ensures { OnOk result (Lays source.old source.new (after_space content.now)) }
{
    if content.is_empty() {
        return Ok(());
    }
    source.push(" ")?;
    spell_inlines(source, content, true, true)
}

/// Spells a heading.
fn spell_heading(source: &mut SourceLines, level: u8, content: &[Inline]) -> Result<(), AllocError>
    ensures { OnOk result (Writes source.old source.new (heading_lines level content.now)) }
{
    source.begin_line()?;
    source.push_marks('#', usize::from(level))?;
    spell_after_space(source, content)?;
    source.end_line()
}

/// Spells a fence of `marks` backticks, with an info string.
fn spell_fence(source: &mut SourceLines, marks: usize, info: &str) -> Result<(), AllocError>
    ensures { OnOk result (Writes source.old source.new
        ((replicate marks 96 ++ spelled_text true true info.now) ∷ [])) }
{
    source.begin_line()?;
    source.push_marks('`', marks)?;
    spell_text(source, info, true, true)?;
    source.end_line()
}

/// Spells a code block, with a fence.
fn spell_code_block(source: &mut SourceLines, info: &str, text: &str) -> Result<(), AllocError>
    ensures { OnOk result (Writes source.old source.new (code_lines info.now text.now)) }
{
    let marks = (longest_run(text) + 1).max(3);
    spell_fence(source, marks, info)?;
    source.push_ended_lines(text)?;
    spell_fence(source, marks, "")
}

/// Spells an empty line, or none.
pub(crate) fn spell_gap(source: &mut SourceLines, apart: bool) -> Result<(), AllocError>
    ensures { OnOk result (Writes source.old source.new (gap apart)) }
{
    if apart {
        return source.empty_line();
    }
    Ok(())
}

/// Spells blocks, with an empty line between two or none.
#[cycle(blocks)]
pub(crate) fn spell_blocks(
    source: &mut SourceLines,
    blocks: &[Block],
    apart: bool,
) -> Result<(), AllocError>
    ensures { OnOk result (Writes source.old source.new (lines_of_blocks apart blocks.now)) }
{
    let mut gap = false;
    for block in blocks {
        spell_gap(source, gap)?;
        spell_block(source, block)?;
        gap = apart;
    }
    Ok(())
}

/// Spells a block.
#[cycle(blocks)]
pub(crate) fn spell_block(source: &mut SourceLines, block: &Block) -> Result<(), AllocError>
    ensures { OnOk result (Writes source.old source.new (lines_of_block block.now)) }
{
    match block {
        Block::Paragraph(content) => spell_paragraph(source, content.as_slice()),
        Block::Heading { level, content } => spell_heading(source, *level, content.as_slice()),
        Block::Code { info, text } => spell_code_block(source, info.as_str(), text.as_str()),
        Block::Html { text } => source.push_ended_lines(text.as_str()),
        Block::Break => source.push_line(BREAK),
        Block::Definition { .. } => Ok(()),
        Block::Quote(blocks) => spell_quote(source, blocks.as_slice()),
        Block::List { kind, tight, items } => {
            let mut gap = false;
            for item in items.as_slice() {
                spell_gap(source, gap)?;
                spell_item(source, *kind, *tight, item.as_slice())?;
                gap = !*tight;
            }
            Ok(())
        }
    }
}

/// Spells a quote.
#[cycle(blocks)]
fn spell_quote(source: &mut SourceLines, blocks: &[Block]) -> Result<(), AllocError>
    ensures { OnOk result (Writes source.old source.new (quote_lines (lines_of_blocks true blocks.now))) }
{
    let front = source.enter_quote()?;
    spell_blocks(source, blocks, true)?;
    source.leave(front)
}

/// Spells an item.
#[cycle(blocks)]
fn spell_item(
    source: &mut SourceLines,
    kind: ListKind,
    tight: bool,
    blocks: &[Block],
) -> Result<(), AllocError>
    ensures { OnOk result (Writes source.old source.new
        (item_lines (marker kind) (lines_of_blocks (not tight) blocks.now))) }
{
    let front = source.enter_item(kind)?;
    spell_blocks(source, blocks, !tight)?;
    source.leave(front)
}
