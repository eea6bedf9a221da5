//! Whether there is raw HTML in a tree.
ghost use Rattle.std.specs.Prelude.{◌≡◌};
ghost use Rattle.cm_tree.specs.RawHtml.{inline_has_raw, inlines_have_raw, block_has_raw, blocks_have_raw};

use crate::tree::{Block, Inline};

/// Whether an `Html`, as a block or as an inline, is in the blocks, at any depth. The content of an image is
/// its alternative text, so an `Html` in that doesn't count. It takes no memory.
#[cycle(has_raw_html)]
pub fn has_raw_html(blocks: &[Block]) -> bool
    ensures { result ≡ blocks_have_raw blocks.now }
{
    let mut found = false;
    for block in blocks {
        found = found || block_has_raw_html(block);
    }
    found
}

#[cycle(has_raw_html)]
fn block_has_raw_html(block: &Block) -> bool
    ensures { result ≡ block_has_raw block.now }
{
    match block {
        Block::Html { .. } => true,
        Block::Paragraph(content) => inlines_have_raw_html(content.as_slice()),
        Block::Heading { content, .. } => inlines_have_raw_html(content.as_slice()),
        Block::Quote(blocks) => has_raw_html(blocks.as_slice()),
        Block::List { items, .. } => {
            let mut found = false;
            for item in items.as_slice() {
                found = found || has_raw_html(item.as_slice());
            }
            found
        }
        _ => false,
    }
}

#[cycle(inlines_have_raw_html)]
fn inlines_have_raw_html(inlines: &[Inline]) -> bool
    ensures { result ≡ inlines_have_raw inlines.now }
{
    let mut found = false;
    for inline in inlines {
        found = found || inline_has_raw_html(inline);
    }
    found
}

#[cycle(inlines_have_raw_html)]
fn inline_has_raw_html(inline: &Inline) -> bool
    ensures { result ≡ inline_has_raw inline.now }
{
    match inline {
        Inline::Html(_) => true,
        Inline::Emph(content) => inlines_have_raw_html(content.as_slice()),
        Inline::Strong(content) => inlines_have_raw_html(content.as_slice()),
        Inline::Strike(content) => inlines_have_raw_html(content.as_slice()),
        Inline::Link { content, .. } => inlines_have_raw_html(content.as_slice()),
        _ => false,
    }
}
