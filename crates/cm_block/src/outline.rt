//! An outline as values of the tree: its blocks, and the owners of its lines.
//!
//! Only these can be compared. Different places can represent the same blocks, so an outline has no `==`.
ghost use Rattle.std.specs.Prelude.{◌≡◌, ◌++◌, length, IfOk, OnOk};
ghost use Rattle.std.specs.List.{slice_range};
ghost use Rattle.cm_block.specs.Prelude.{raw_inlines, block_in, IsPlaced, IsRange};

use crate::parser::Outline;
use cm_text::NoMemory;
use cm_tree::{Block, Inline, Items, Owner, RawBlock, RawBlocks, RawChunk, Text};
use std::alloc::{AllocError, Global};

/// The content of a leaf with this source: one text, or nothing if the source is empty.
fn content(alloc: Global, source: &str) -> Result<Items<Inline>, AllocError>
    ensures { IfOk result (λ content. content ≡ raw_inlines source.now) }
{
    let mut content = Items::new(alloc);
    if !source.is_empty() {
        content.push(Inline::Text(Text::from_str(alloc, source)?))?;
    }
    Ok(content)
}

/// The blocks in a range of positions as blocks of the tree.
#[cycle(blocks)]
fn made_blocks(
    alloc: Global,
    raw: &RawBlocks,
    from: u32,
    to: u32,
) -> Result<Items<Block>, AllocError>
    requires { IsRange (length raw.now.blocks) from to }
    ensures { IfOk result (λ made. made ≡ slice_range raw.now.blocks from to) }
{
    let mut made = Items::from(Vec::with_capacity(alloc, (to - from) as usize)?);
    for at in from..to {
        made.push(made_block(alloc, raw, raw.block_at(at))?)?;
    }
    Ok(made)
}

/// A block as a block of the tree.
#[cycle(blocks)]
fn made_block(alloc: Global, raw: &RawBlocks, block: RawBlock) -> Result<Block, AllocError>
    requires { IsPlaced raw.now block }
    ensures { IfOk result (λ made. made ≡ block_in raw.now block) }
{
    match block {
        RawBlock::Paragraph { from, to } => {
            Ok(Block::Paragraph(content(alloc, raw.text(from, to))?))
        }
        RawBlock::Heading { level, from, to } => Ok(Block::Heading {
            level,
            content: content(alloc, raw.text(from, to))?,
        }),
        RawBlock::Code { info, text, to } => {
            Block::code(alloc, raw.text(info, text), raw.text(text, to))
        }
        RawBlock::Html { from, to } => Ok(Block::Html {
            text: Text::from_str(alloc, raw.text(from, to))?,
        }),
        RawBlock::Break => Ok(Block::Break),
        RawBlock::Definition {
            label,
            dest,
            title,
            to,
        } => Block::definition(
            alloc,
            raw.text(label, dest),
            raw.text(dest, title),
            raw.text(title, to),
        ),
        RawBlock::Quote { from, to } => Ok(Block::Quote(made_blocks(alloc, raw, from, to)?)),
        RawBlock::List {
            kind,
            tight,
            from,
            to,
        } => Ok(Block::List {
            kind,
            tight,
            items: made_items(alloc, raw, from, to)?,
        }),
    }
}

/// The items in a range of positions as items of the tree.
#[cycle(blocks)]
fn made_items(
    alloc: Global,
    raw: &RawBlocks,
    from: u32,
    to: u32,
) -> Result<Items<Items<Block>>, AllocError>
    requires { IsRange (length raw.now.items) from to }
    ensures { IfOk result (λ made. made ≡ slice_range raw.now.items from to) }
{
    let mut made = Items::from(Vec::with_capacity(alloc, (to - from) as usize)?);
    for at in from..to {
        let item = raw.item_at(at);
        made.push(made_blocks(alloc, raw, item.from, item.to)?)?;
    }
    Ok(made)
}

/// Appends the blocks of a chunk to others.
fn push_chunk(alloc: Global, made: &mut Items<Block>, chunk: &RawChunk) -> Result<(), AllocError>
    ensures { OnOk result (made.new ≡ made.old ++ chunk.now) }
{
    let (top, inside) = chunk.contents();
    for block in top {
        made.push(made_block(alloc, inside, *block)?)?;
    }
    Ok(())
}

impl Outline {
    /// The blocks as blocks of the tree. The content of a paragraph or heading is one text, its source; an
    /// empty heading has none.
    ///
    /// # Errors
    ///
    /// `NoMemory` if a request for memory was refused.
    pub fn to_blocks(&self, alloc: Global) -> Result<Items<Block>, NoMemory>
        ensures { IfOk result (λ blocks. blocks ≡ self.now.blocks) }
    {
        let chunks = self.blocks.chunks();
        let mut made = Items::new(alloc);
        for chunk in chunks {
            push_chunk(alloc, &mut made, chunk)?;
        }
        Ok(made)
    }

    /// The owner of each line.
    ///
    /// # Errors
    ///
    /// `NoMemory` if a request for memory was refused.
    pub fn to_owners(&self, alloc: Global) -> Result<Items<Owner>, NoMemory>
        ensures { IfOk result (λ owners. owners ≡ self.now.owners) }
    {
        self.owners.to_items(alloc)
    }
}
