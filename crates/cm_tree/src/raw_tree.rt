//! The blocks of a document whose inlines haven't been read, in chunks that may be freed one by one.
//!
//! A chunk has texts of 32 KiB or somewhat more, and the HTML is written to the memory of freed chunks. A
//! chunk ends at the top level, where nothing is open, so a quote, list or leaf is never divided. The first
//! chunk starts without memory, so that a short text takes only what it needs.
//!
//! The price is one more copy. A line's characters are copied once into the open leaf, when the line is read;
//! when the leaf closes, its text, or what a definition has of it, is appended to the texts of its chunk,
//! once. A heading that is one line (4.2 ATX headings) has no open leaf, so it is only copied there. Blank
//! lines of indented code wait in a text of their own, and are copied once more if more code follows. Chunks
//! of one growing text would need places made of a chunk and a distance, and a proof that no block is in a
//! chunk that was freed.
ghost use Rattle.std.specs.Prelude.{◌≡◌, [], ◌++◌, OnOk, OnErr};
ghost use Rattle.cm_tree.specs.RawBlocks.{blocks_in, ArePlaced};
ghost use Rattle.cm_tree.specs.RawTrees.{all_blocks};

use crate::raw_blocks::{RawBlock, RawBlocks};
use std::alloc::{AllocError, Global};
use std::marker::Model;

/// A chunk of a document: blocks at the top level that follow one another, with all that they are made of.
#[derive(Debug, Drop)]
pub struct RawChunk {
    blocks: Vec<RawBlock>,
    inside: RawBlocks,
}

impl Model for RawChunk {
    ghost use Rattle.std.specs.Prelude.{List};
    ghost use Rattle.std.specs.Coded.{coded_list};
    ghost use Rattle.cm_tree.specs.contracts.tree.Block as block;
    ghost use Rattle.cm_tree.specs.declared.tree.Block.{Block};
    ghost use Rattle.cm_tree.specs.RawBlocks.{blocks_in, ArePlaced};

    ghost Value = { List Block };

    ghost coded = { coded_list block.the_row.coded };

    ghost view = { λ p. blocks_in p.inside p.blocks.items };

    ghost invariant = { λ p. ArePlaced p.inside p.blocks.items };
}

impl RawChunk {
    /// Blocks, and all that they are made of.
    pub fn new(blocks: Vec<RawBlock>, inside: RawBlocks) -> RawChunk
        requires { ArePlaced inside blocks.items }
        ensures { result ≡ blocks_in inside blocks.items }
    {
        RawChunk { blocks, inside }
    }

    /// The blocks at the top level, and what they are made of, without a copy.
    pub fn contents(&self) -> (&[RawBlock], &RawBlocks)
        ensures blocks { blocks_in result.1.now result.0.now ≡ self.now }
        ensures placed { ArePlaced result.1.now result.0.now }
    {
        (&self.blocks, &self.inside)
    }

    /// The blocks at the top level, and what they are made of.
    pub fn into_contents(self) -> (Vec<RawBlock>, RawBlocks)
        ensures blocks { blocks_in result.1 result.0.items ≡ self }
        ensures placed { ArePlaced result.1 result.0.items }
    {
        let RawChunk { blocks, inside } = self;
        (blocks, inside)
    }
}

/// The blocks of a document whose inlines haven't been read: those of its chunks, one after another. The
/// source of a paragraph or heading is one text.
#[derive(Debug, Drop)]
pub struct RawTree {
    chunks: Vec<RawChunk>,
}

impl Model for RawTree {
    ghost use Rattle.std.specs.Prelude.{List};
    ghost use Rattle.std.specs.Coded.{coded_list};
    ghost use Rattle.cm_tree.specs.contracts.tree.Block as block;
    ghost use Rattle.cm_tree.specs.declared.tree.Block.{Block};
    ghost use Rattle.cm_tree.specs.RawTrees.{all_blocks};

    ghost Value = { List Block };

    ghost coded = { coded_list block.the_row.coded };

    ghost view = { λ t. all_blocks t.chunks.items };
}

impl RawTree {
    /// No blocks. It takes no memory.
    pub fn new(alloc: Global) -> RawTree
        ensures { result ≡ [] }
    {
        RawTree {
            chunks: Vec::new(alloc),
        }
    }

    /// Appends the blocks of a chunk to the others.
    ///
    /// # Errors
    ///
    /// `AllocError` if a request for memory was refused; the chunk is freed then.
    pub fn push(&mut self, chunk: RawChunk) -> Result<(), AllocError>
        ensures ok { OnOk result (self.new ≡ self.old ++ chunk) }
        ensures err { OnErr result (self.new ≡ self.old) }
    {
        self.chunks.push(chunk)?;
        Ok(())
    }

    /// The chunks, without a copy.
    pub fn chunks(&self) -> &[RawChunk]
        ensures { all_blocks result.now ≡ self.now }
    {
        &self.chunks
    }

    /// The chunks, each of which can be freed on its own.
    pub fn into_chunks(self) -> Vec<RawChunk>
        ensures { all_blocks result.items ≡ self }
    {
        let RawTree { chunks } = self;
        chunks
    }
}
