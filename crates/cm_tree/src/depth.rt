//! How deep a tree nests.
ghost use Rattle.std.specs.Prelude.{◌≡◌};
ghost use Rattle.cm_tree.specs.Depth.{saturated, depth_of, inlines_depth, depth_of_block, blocks_depth};
ghost use Rattle.cm_tree.specs.steps.ItemSteps.{items_depth};

use crate::tree::{Block, Inline};

/// The greatest number of `Emph`, `Strong`, `Strike`, `Link` and `Image` nested in one another, or
/// `usize::MAX` if that is less. It takes no memory.
#[cycle(inline_depth)]
pub fn inline_depth(inlines: &[Inline]) -> usize
    ensures { result ≡ saturated (inlines_depth inlines.now) }
{
    let mut deepest = 0;
    for inline in inlines {
        deepest = deepest.max(one_inline_depth(inline));
    }
    deepest
}

#[cycle(inline_depth)]
fn one_inline_depth(inline: &Inline) -> usize
    ensures { result ≡ saturated (depth_of inline.now) }
{
    match inline {
        Inline::Emph(content) => inline_depth(content.as_slice()).saturating_add(1),
        Inline::Strong(content) => inline_depth(content.as_slice()).saturating_add(1),
        Inline::Strike(content) => inline_depth(content.as_slice()).saturating_add(1),
        Inline::Link { content, .. } => inline_depth(content.as_slice()).saturating_add(1),
        Inline::Image { content, .. } => inline_depth(content.as_slice()).saturating_add(1),
        _ => 0,
    }
}

/// The greatest number of block quotes and list items nested in one another, or `usize::MAX` if that is less.
/// A list by itself doesn't count. It takes no memory.
#[cycle(block_depth)]
pub fn block_depth(blocks: &[Block]) -> usize
    ensures { result ≡ saturated (blocks_depth blocks.now) }
{
    let mut deepest = 0;
    for block in blocks {
        deepest = deepest.max(one_block_depth(block));
    }
    deepest
}

#[cycle(block_depth)]
fn one_block_depth(block: &Block) -> usize
    ensures { result ≡ saturated (depth_of_block block.now) }
{
    match block {
        Block::Quote(blocks) => block_depth(blocks.as_slice()).saturating_add(1),
        Block::List { items, .. } => {
            let mut deepest = 0;
            for item in items.as_slice() {
                deepest = deepest.max(block_depth(item.as_slice()).saturating_add(1));
            }
            deepest
        }
        _ => 0,
    }
}
