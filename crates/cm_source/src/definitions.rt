//! Trees without their link reference definitions.
ghost use Rattle.std.specs.Prelude.{◌≡◌, [], ◌∷◌, IfSome, IfNone};
ghost use Rattle.cm_source.specs.Definitions.{cleared, is_definition, kept, without_definitions};

use cm_tree::{Block, Items};
use std::alloc::Global;
use std::mem;

fn is_definition(block: &Block) -> bool
    ensures { result ≡ is_definition block.now }
{
    matches!(block, Block::Definition { .. })
}

/// Takes the definitions off a list.
fn retain_others(blocks: &mut Vec<Block>)
    ensures { blocks.new.items ≡ kept blocks.old.items }
{
    blocks.retain(|block| !is_definition(block));
}

/// The blocks without the link reference definitions among them and inside, at every depth (CommonMark
/// 0.31.2, 4.7 Link reference definitions). It takes no memory.
#[cycle(definitions)]
pub fn without_definitions(alloc: Global, blocks: Items<Block>) -> Items<Block>
    ensures { result ≡ without_definitions blocks }
{
    let mut blocks = blocks.into_vec();
    for block in blocks.iter_mut() {
        clear(alloc, block);
    }
    retain_others(&mut blocks);
    Items::from(blocks)
}

/// A block without the link reference definitions inside it, at every depth, or nothing if it is one itself.
/// It takes no memory.
pub fn block_without_definitions(alloc: Global, mut block: Block) -> Option<Block>
    ensures kept { IfSome result (λ kept. without_definitions (block ∷ []) ≡ kept ∷ []) }
    ensures gone { IfNone result (without_definitions (block ∷ []) ≡ []) }
{
    clear(alloc, &mut block);
    if is_definition(&block) {
        return None;
    }
    Some(block)
}

/// Takes the definitions out of a block.
#[cycle(definitions)]
fn clear(alloc: Global, block: &mut Block)
    ensures { block.new ≡ cleared block.old }
{
    match block {
        Block::Quote(blocks) => {
            let inside = mem::replace(blocks, Items::new(alloc));
            *blocks = without_definitions(alloc, inside);
        }
        Block::List { kind, tight, items } => {
            let (kind, tight) = (*kind, *tight);
            let mut cleared = mem::replace(items, Items::new(alloc)).into_vec();
            for item in cleared.iter_mut() {
                let inside = mem::replace(item, Items::new(alloc));
                *item = without_definitions(alloc, inside);
            }
            let items = Items::from(cleared);
            *block = Block::List { kind, tight, items };
        }
        _ => {}
    }
}
