//! Leaf blocks of copied texts.
ghost use Rattle.std.specs.Prelude.{◌≡◌, IfOk};
ghost use Rattle.cm_tree.specs.declared.tree.Block.TheVariants as trees;

use crate::text::Text;
use crate::tree::Block;
use std::alloc::{AllocError, Global};

impl Block {
    /// A code block of copies of these texts (4.4 Indented code blocks, 4.5 Fenced code blocks).
    ///
    /// # Errors
    ///
    /// `AllocError` if a request for memory was refused.
    pub fn code(alloc: Global, info: &str, text: &str) -> Result<Block, AllocError>
        ensures { IfOk result (λ block. block ≡ trees.Code info.now text.now) }
    {
        Ok(Block::Code {
            info: Text::from_str(alloc, info)?,
            text: Text::from_str(alloc, text)?,
        })
    }

    /// A definition of copies of these texts (4.7 Link reference definitions).
    ///
    /// # Errors
    ///
    /// `AllocError` if a request for memory was refused.
    pub fn definition(
        alloc: Global,
        label: &str,
        dest: &str,
        title: &str,
    ) -> Result<Block, AllocError>
        ensures { IfOk result (λ block. block ≡ trees.Definition label.now dest.now title.now) }
    {
        Ok(Block::Definition {
            label: Text::from_str(alloc, label)?,
            dest: Text::from_str(alloc, dest)?,
            title: Text::from_str(alloc, title)?,
        })
    }
}
