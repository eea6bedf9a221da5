//! What the first line of a leaf block makes: a leaf that further lines may continue, or one that is whole.
ghost use Rattle.std.specs.Prelude.{◌≡◌, IfOk, OnOk, Some, option_map, false};
ghost use Rattle.cm_block.specs.Prelude.{seen_view, given, kind_of, leaf_block};
ghost use Rattle.cm_text.specs.Rules as all;
ghost use Rattle.cm_block.specs.declared.counted_line.starts.Start.TheVariants.{Fence};
ghost use Rattle.cm_scan.specs.blocks.Starts as starts;
ghost use Rattle.cm_block.specs.OpenLeaf.{no_leaf, begin_of_start};
ghost use Rattle.cm_block.specs.Stack.{close_leaves, own_leaves};
ghost use Rattle.cm_block.specs.LeafViews.{leaf_of};
ghost use Rattle.cm_block.specs.steps.StartViews.{seen};
ghost use Rattle.cm_block.specs.steps.LeafBlocks.{block_of};
ghost use Rattle.cm_block.specs.steps.FirstLines.{first_of, whole_leaf, is_whole, whole_leaves};
ghost use Rattle.cm_block.specs.steps.FirstLines.{opens_leaf};

use crate::counted_line::copies::push_line;
use crate::counted_line::ends::ends_html;
use crate::counted_line::starts::{Start, content, strip_four};
use crate::infos::set_info;
use crate::leaf_block::LeafBlock;
use crate::leaf_kind::LeafKind;
use crate::open_leaf::{Ending, LeafLine, OpenLeaf};
use crate::owners::Owners;
use crate::stack::Stack;
use cm_scan::{HtmlKind, OpeningFence};
use cm_text::{NoMemory, Rules, View};
use std::alloc::Global;

/// The leaf block that a line is by itself: a heading (4.2 ATX headings) or a thematic break (4.1 Thematic
/// breaks).
#[inline(always)]
fn whole_leaf<'a>(start: &Start<'a>) -> Option<LeafBlock<'a>>
    ensures { option_map block_of result ≡ option_map leaf_block (whole_leaf (seen start.now)) }
{
    match start {
        Start::Atx(heading) => Some(LeafBlock::Heading {
            level: heading.level,
            source: heading.content,
        }),
        Start::Break => Some(LeafBlock::Break),
        _ => None,
    }
}

/// Adds the leaf block that a line is by itself, and the line to the owners. Returns whether there is one.
#[inline(always)]
pub(crate) fn put_whole(
    start: &Start<'_>,
    stack: &mut Stack,
    owners: &mut Owners,
    leaves: &mut usize,
) -> Result<bool, NoMemory>
    requires counted { leaves.old ≡ owners.old.leaves }
    ensures put { IfOk result (λ put. put ≡ is_whole (seen start.now)) }
    ensures level { OnOk result (stack.new.level
        ≡ close_leaves stack.old.level (whole_leaves (seen start.now))) }
    ensures frames { stack.new.frames ≡ stack.old.frames }
    ensures bare { stack.new.bare ≡ stack.old.bare }
    ensures owners { OnOk result (owners.new ≡ own_leaves owners.old (whole_leaves (seen start.now))) }
    ensures kept { IfOk result (λ put. put ≡ false → stack.new ≡ stack.old) }
    ensures unowned { IfOk result (λ put. put ≡ false → owners.new ≡ owners.old) }
    ensures counted { leaves.new ≡ owners.new.leaves }
{
    let Some(leaf) = whole_leaf(start) else {
        return Ok(false);
    };
    owners.leaf(leaves, 1)?;
    stack.put(&leaf)?;
    Ok(true)
}

/// Opens indented code: the line loses 4 columns (4.4 Indented code blocks).
fn begin_code(leaf: &mut OpenLeaf, line: &View<'_>) -> Result<LeafLine, NoMemory>
    requires { leaf_of leaf.old ≡ no_leaf }
    ensures { IfOk result (λ first. (by : all.Rules) → first_of first leaf.new
        ≡ Some (begin_of_start by starts.IndentedCode (seen_view line.now))) }
{
    leaf.kind = LeafKind::Code;
    leaf.blank_lines.clear();
    push_line(&mut leaf.text, &strip_four(line))?;
    Ok(LeafLine::Stays)
}

/// Opens a fenced code block, with its info resolved. Each further line loses as many columns as this one has
/// (4.5 Fenced code blocks).
fn begin_fence(
    alloc: Global,
    rules: Rules,
    leaf: &mut OpenLeaf,
    fence: OpeningFence<'_>,
    line: &View<'_>,
) -> Result<LeafLine, NoMemory>
    requires { leaf_of leaf.old ≡ no_leaf }
    ensures { IfOk result (λ first. first_of first leaf.new
        ≡ Some (begin_of_start rules (seen (Fence fence.entry)) (seen_view line.now))) }
{
    set_info(alloc, rules, fence.info, &mut leaf.info)?;
    leaf.kind = LeafKind::Fence {
        kind: fence.kind,
        columns: line.indent(),
    };
    Ok(LeafLine::Stays)
}

/// Opens HTML, which its first line may end (4.6 HTML blocks).
#[inline(always)]
fn begin_html(leaf: &mut OpenLeaf, kind: HtmlKind, line: &View<'_>) -> Result<LeafLine, NoMemory>
    requires { leaf_of leaf.old ≡ no_leaf }
    ensures { IfOk result (λ first. (by : all.Rules) → first_of first leaf.new
        ≡ Some (begin_of_start by (starts.HtmlStart (kind_of kind)) (seen_view line.now))) }
{
    leaf.kind = LeafKind::Html { kind };
    push_line(&mut leaf.text, line)?;
    if ends_html(kind, line) {
        return Ok(LeafLine::Last(Ending::Plain));
    }
    Ok(LeafLine::Stays)
}

/// Opens a run of text, which starts with the line after its indentation (4.8 Paragraphs).
#[inline(always)]
fn begin_run(leaf: &mut OpenLeaf, line: &View<'_>) -> Result<LeafLine, NoMemory>
    requires { leaf_of leaf.old ≡ no_leaf }
    ensures { IfOk result (λ first. (by : all.Rules) → first_of first leaf.new
        ≡ Some (begin_of_start by starts.TextLine (seen_view line.now))) }
{
    leaf.kind = LeafKind::Run;
    leaf.text.push(content(line))?;
    Ok(LeafLine::Stays)
}

/// Opens a leaf block with its first line, by what that starts. Returns what the line is to it. A leaf of
/// one line isn't opened, and neither a quote's nor an item's marker opens one. No leaf is open so far.
#[inline(always)]
pub(crate) fn begin_leaf(
    alloc: Global,
    rules: Rules,
    leaf: &mut OpenLeaf,
    start: &Start<'_>,
    line: &View<'_>,
) -> Result<LeafLine, NoMemory>
    requires { leaf_of leaf.old ≡ no_leaf }
    ensures { IfOk result (λ first. first_of first leaf.new
        ≡ given (opens_leaf (seen start.now)) (begin_of_start rules (seen start.now) (seen_view line.now))) }
{
    match start {
        Start::TextLine => begin_run(leaf, line),
        Start::IndentedCode => begin_code(leaf, line),
        Start::Fence(fence) => begin_fence(alloc, rules, leaf, *fence, line),
        Start::Html(kind) => begin_html(leaf, *kind, line),
        Start::Atx(_) | Start::Break | Start::QuoteMarker | Start::Item(_) => Ok(LeafLine::Leaves),
    }
}
