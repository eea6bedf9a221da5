//! Copies of trees, each equal to its original. They are hand-written, because a derived `clone` ensures
//! nothing for a type that contains itself.
ghost use Rattle.std.specs.Prelude.{◌≡◌, IfOk};

use crate::items::Items;
use crate::tree::{Block, Doc, Inline};
use std::alloc::AllocError;

/// An equal inline.
impl Clone for Inline {
    ghost is_clone = { λ inline copy. copy ≡ inline };

    fn clone(&self) -> Result<Inline, AllocError> {
        copy_inline(self)
    }
}

/// An equal block.
impl Clone for Block {
    ghost is_clone = { λ block copy. copy ≡ block };

    fn clone(&self) -> Result<Block, AllocError> {
        copy_block(self)
    }
}

/// An equal document.
impl Clone for Doc {
    ghost is_clone = { λ doc copy. copy ≡ doc };

    fn clone(&self) -> Result<Doc, AllocError> {
        Ok(Doc {
            blocks: self.blocks.clone()?,
            owners: self.owners.clone()?,
        })
    }
}

#[cycle(copy_inlines)]
fn copy_inlines(inlines: &Items<Inline>) -> Result<Items<Inline>, AllocError>
    ensures { IfOk result (λ copies. copies ≡ inlines.now) }
{
    let mut copies = inlines.room_for_a_copy()?;
    for inline in inlines {
        copies.push(copy_inline(inline)?)?;
    }
    Ok(copies)
}

#[cycle(copy_inlines)]
fn copy_inline(inline: &Inline) -> Result<Inline, AllocError>
    ensures { IfOk result (λ copy. copy ≡ inline.now) }
{
    match inline {
        Inline::Text(text) => Ok(Inline::Text(text.clone()?)),
        Inline::Code(text) => Ok(Inline::Code(text.clone()?)),
        Inline::Html(text) => Ok(Inline::Html(text.clone()?)),
        Inline::Soft => Ok(Inline::Soft),
        Inline::Hard => Ok(Inline::Hard),
        Inline::Emph(content) => Ok(Inline::Emph(copy_inlines(content)?)),
        Inline::Strong(content) => Ok(Inline::Strong(copy_inlines(content)?)),
        Inline::Strike(content) => Ok(Inline::Strike(copy_inlines(content)?)),
        Inline::Link {
            dest,
            title,
            content,
        } => Ok(Inline::Link {
            dest: dest.clone()?,
            title: title.clone()?,
            content: copy_inlines(content)?,
        }),
        Inline::Image {
            dest,
            title,
            content,
        } => Ok(Inline::Image {
            dest: dest.clone()?,
            title: title.clone()?,
            content: copy_inlines(content)?,
        }),
    }
}

#[cycle(copy_blocks)]
fn copy_blocks(blocks: &Items<Block>) -> Result<Items<Block>, AllocError>
    ensures { IfOk result (λ copies. copies ≡ blocks.now) }
{
    let mut copies = blocks.room_for_a_copy()?;
    for block in blocks {
        copies.push(copy_block(block)?)?;
    }
    Ok(copies)
}

#[cycle(copy_blocks)]
fn copy_block(block: &Block) -> Result<Block, AllocError>
    ensures { IfOk result (λ copy. copy ≡ block.now) }
{
    match block {
        Block::Paragraph(content) => Ok(Block::Paragraph(content.clone()?)),
        Block::Heading { level, content } => Ok(Block::Heading {
            level: *level,
            content: content.clone()?,
        }),
        Block::Code { info, text } => Ok(Block::Code {
            info: info.clone()?,
            text: text.clone()?,
        }),
        Block::Html { text } => Ok(Block::Html {
            text: text.clone()?,
        }),
        Block::Break => Ok(Block::Break),
        Block::Definition { label, dest, title } => Ok(Block::Definition {
            label: label.clone()?,
            dest: dest.clone()?,
            title: title.clone()?,
        }),
        Block::Quote(blocks) => Ok(Block::Quote(copy_blocks(blocks)?)),
        Block::List { kind, tight, items } => {
            let mut copies = items.room_for_a_copy()?;
            for item in items {
                copies.push(copy_blocks(item)?)?;
            }
            Ok(Block::List {
                kind: *kind,
                tight: *tight,
                items: copies,
            })
        }
    }
}
