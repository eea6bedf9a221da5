//! Memory of closed containers and lists, which the next ones use. So most of them allocate nothing.
//!
//! No more lists are kept than were in use at the same time, and each has the greatest capacity that it ever
//! had. Contracts don't mention what is kept: a list that is taken is proved to be empty.
ghost use Rattle.std.specs.Prelude.{◌≡◌, []};

use cm_tree::{RawBlock, RawItem};
use std::alloc::Global;

/// Memory for the blocks of the next containers and for the items of the next lists.
#[derive(Debug, Drop)]
pub(crate) struct Room {
    blocks: Vec<Vec<RawBlock>>,
    items: Vec<Vec<RawItem>>,
}

impl Room {
    /// No memory.
    pub(crate) fn new(alloc: Global) -> Room {
        Room {
            blocks: Vec::new(alloc),
            items: Vec::new(alloc),
        }
    }

    /// An empty list of blocks, in kept memory if there is any.
    #[inline(always)]
    pub(crate) fn take_blocks(&mut self, alloc: Global) -> Vec<RawBlock>
        ensures { result.items ≡ [] }
    {
        match self.blocks.pop() {
            Some(mut blocks) => {
                blocks.clear();
                blocks
            }
            None => Vec::new(alloc),
        }
    }

    /// An empty list of items, in kept memory if there is any.
    #[inline(always)]
    pub(crate) fn take_items(&mut self, alloc: Global) -> Vec<RawItem>
        ensures { result.items ≡ [] }
    {
        match self.items.pop() {
            Some(mut items) => {
                items.clear();
                items
            }
            None => Vec::new(alloc),
        }
    }

    /// Keeps the memory of a list of blocks, which nobody needs. If there is no room to keep it, it is freed.
    #[inline(always)]
    pub(crate) fn keep_blocks(&mut self, blocks: Vec<RawBlock>) {
        let _ = self.blocks.push(blocks);
    }

    /// Keeps the memory of a list of items, which nobody needs. If there is no room to keep it, it is freed.
    #[inline(always)]
    pub(crate) fn keep_items(&mut self, items: Vec<RawItem>) {
        let _ = self.items.push(items);
    }
}
