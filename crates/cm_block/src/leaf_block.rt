//! A leaf block that is added to a level, with its texts lent.
ghost use Rattle.std.specs.Prelude.{◌≡◌, IfOk};
ghost use Rattle.cm_block.specs.Prelude.{Grows, block_in, IsPlaced};
ghost use Rattle.cm_block.specs.steps.LeafBlocks.{block_of};

use cm_tree::{RawBlock, RawBlocks};
use std::alloc::AllocError;

/// A leaf block, with its texts lent (chapter 4).
#[derive(Clone, Copy)]
pub(crate) enum LeafBlock<'a> {
    Paragraph {
        source: &'a str,
    },
    Heading {
        level: u8,
        source: &'a str,
    },
    /// Its info string is resolved.
    Code {
        info: &'a str,
        text: &'a str,
    },
    Html {
        text: &'a str,
    },
    Break,
    /// Its label is the source, its destination and its title are resolved.
    Definition {
        label: &'a str,
        dest: &'a str,
        title: &'a str,
    },
}

impl<'a> LeafBlock<'a> {
    /// Stores the texts of the block. Returns the block.
    #[inline(always)]
    pub(crate) fn place(&self, raw: &mut RawBlocks) -> Result<RawBlock, AllocError>
        ensures block { IfOk result (λ block. block_in raw.new block ≡ block_of self.now) }
        ensures placed { IfOk result (λ block. IsPlaced raw.new block) }
        ensures grows { Grows raw.old raw.new }
    {
        match *self {
            LeafBlock::Paragraph { source } => raw.paragraph(source),
            LeafBlock::Heading { level, source } => raw.heading(level, source),
            LeafBlock::Code { info, text } => raw.code(info, text),
            LeafBlock::Html { text } => raw.html(text),
            LeafBlock::Break => Ok(RawBlock::Break),
            LeafBlock::Definition { label, dest, title } => raw.definition(label, dest, title),
        }
    }
}
