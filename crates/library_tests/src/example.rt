//! The example of the first page of `cm_tree`.
ghost use Rattle.std.specs.Prelude.{◌≡◌, [], ◌∷◌, IfOk};
ghost use Rattle.cm_tree.specs.declared.tree.Inline.TheVariants as inline;
ghost use Rattle.cm_tree.specs.declared.tree.Block.TheVariants as block;

use cm_tree::{Block, Inline, Items, Text, block_depth, has_raw_html};
use std::alloc::{AllocError, Global};
use std::test::Fail;

/// A heading of the first level.
fn title(alloc: Global, text: &str) -> Result<Block, AllocError>
    ensures { IfOk result (λ made. made ≡ block.Heading 1 (inline.Text text.now ∷ [])) }
{
    let text = Text::from_str(alloc, text)?;
    Ok(Block::Heading {
        level: 1,
        content: Items::from(vec![in alloc; Inline::Text(text)]?),
    })
}

/// Whether a heading of the first level is among the blocks, or in quotes.
#[cycle(has_title)]
fn has_title(blocks: &Items<Block>) -> bool {
    for block in blocks {
        if is_title(block) {
            return true;
        }
    }
    false
}

#[cycle(has_title)]
fn is_title(block: &Block) -> bool {
    match block {
        Block::Heading { level, .. } => *level == 1,
        Block::Quote(blocks) => has_title(blocks),
        _ => false,
    }
}

#[test]
fn a_title_in_a_quote(rt: HostRuntime) -> Result<(), Fail> {
    let alloc = rt.alloc();
    let mut quoted = Items::new(alloc);
    quoted.push(Block::Break)?;
    assert!(rt; !has_title(&quoted));
    quoted.push(title(alloc, "A title")?)?;
    let blocks = Items::from(vec![in alloc; Block::Quote(quoted)]?);
    assert!(rt; has_title(&blocks) && block_depth(&blocks) == 1 && !has_raw_html(&blocks));
    Ok(())
}

#[test]
fn raw_html_in_emphasis(rt: HostRuntime) -> Result<(), Fail> {
    let alloc = rt.alloc();
    let raw = Items::from(vec![in alloc; Inline::Html(Text::from_str(alloc, "<b>")?)]?);
    let shown = Items::from(vec![in alloc; Inline::Emph(raw)]?);
    let blocks = Items::from(vec![in alloc; Block::Paragraph(shown)]?);
    assert!(rt; has_raw_html(&blocks));
    Ok(())
}
