//! One level of the stack: what is closed in the document, in a quote or in an item.
ghost use Rattle.std.specs.Prelude.{◌≡◌, [], OnOk, IfOk};
ghost use Rattle.cm_block.specs.Prelude.{Raw, Grows, block_in, blocks_in, item_in};
ghost use Rattle.cm_block.specs.Prelude.{IsPlaced, ArePlaced, IsItem};
ghost use Rattle.cm_block.specs.Level.{empty_level, closed_blocks, push_blank, block_opens};
ghost use Rattle.cm_block.specs.Level.{list_opens, item_opens, block_closes, item_closes};
ghost use Rattle.cm_block.specs.Stack.{item_of};
ghost use Rattle.cm_block.specs.steps.LevelViews.{level_in, IsLevelPlaced};
ghost use Rattle.cm_block.specs.steps.LevelSteps.{item_with, without_list, has_list_of, goes_on};

use crate::room::Room;
use cm_scan::is_same_kind;
use cm_tree::{ListKind, RawBlock, RawBlocks, RawItem};
use std::alloc::{AllocError, Global};

/// A list with its closed items and its mark of looseness. Another item of it may be open.
#[derive(Debug, Drop)]
pub(crate) struct OpenList {
    pub(crate) kind: ListKind,
    pub(crate) loose: bool,
    pub(crate) items: Vec<RawItem>,
}

/// The closed blocks, the list after them, whether there is a block, whether the last line is blank as seen
/// at this level, and whether a blank line is right before the second or a later block.
#[derive(Debug, Drop)]
pub(crate) struct Level {
    pub(crate) blocks: Vec<RawBlock>,
    pub(crate) open_list: Option<OpenList>,
    pub(crate) has_block: bool,
    pub(crate) ends_blank: bool,
    pub(crate) separated: bool,
}

impl Level {
    /// An empty level, with this empty list for its blocks.
    pub(crate) fn new(blocks: Vec<RawBlock>) -> Level
        requires { blocks.items ≡ [] }
        ensures level { (raw : Raw) → level_in raw result ≡ empty_level }
        ensures placed { (raw : Raw) → IsLevelPlaced raw result }
    {
        Level {
            blocks,
            open_list: None,
            has_block: false,
            ends_blank: false,
            separated: false,
        }
    }

    /// Adds a blank line.
    pub(crate) fn push_blank(&mut self)
        ensures level { (raw : Raw) → level_in raw self.new ≡ push_blank (level_in raw self.old) }
        ensures placed { (raw : Raw) → IsLevelPlaced raw self.old → IsLevelPlaced raw self.new }
    {
        self.ends_blank = true;
    }

    /// Appends the list to the blocks, if there is one. Mostly there is none.
    #[inline(always)]
    fn close_list(&mut self, raw: &mut RawBlocks, room: &mut Room) -> Result<(), AllocError>
        requires { IsLevelPlaced raw.old self.old }
        ensures level { OnOk result (level_in raw.new self.new ≡ without_list (level_in raw.old self.old)) }
        ensures placed { IsLevelPlaced raw.new self.new }
        ensures grows { Grows raw.old raw.new }
    {
        if self.open_list.is_none() {
            return Ok(());
        }
        self.put_list(raw, room)
    }

    /// Appends the list to the blocks, if there is one.
    #[inline(never)]
    fn put_list(&mut self, raw: &mut RawBlocks, room: &mut Room) -> Result<(), AllocError>
        requires { IsLevelPlaced raw.old self.old }
        ensures level { OnOk result (level_in raw.new self.new ≡ without_list (level_in raw.old self.old)) }
        ensures placed { IsLevelPlaced raw.new self.new }
        ensures grows { Grows raw.old raw.new }
    {
        if let Some(list) = self.open_list.take() {
            let block = raw.list(list.kind, !list.loose, &list.items)?;
            room.keep_items(list.items);
            self.blocks.push(block)?;
        }
        Ok(())
    }

    /// Opens a block that is no item.
    pub(crate) fn open_block(
        &mut self,
        raw: &mut RawBlocks,
        room: &mut Room,
    ) -> Result<(), AllocError>
        requires { IsLevelPlaced raw.old self.old }
        ensures level { OnOk result (level_in raw.new self.new ≡ block_opens (level_in raw.old self.old)) }
        ensures placed { IsLevelPlaced raw.new self.new }
        ensures grows { Grows raw.old raw.new }
    {
        self.close_list(raw, room)?;
        self.separated = self.separated || self.has_block && self.ends_blank;
        self.ends_blank = false;
        Ok(())
    }

    /// Appends a block that was opened.
    pub(crate) fn close_block(&mut self, block: RawBlock) -> Result<(), AllocError>
        ensures level { OnOk result ((raw : Raw) → level_in raw self.new
            ≡ block_closes (level_in raw self.old) (block_in raw block)) }
        ensures placed { (raw : Raw) → IsLevelPlaced raw self.old → IsPlaced raw block →
            IsLevelPlaced raw self.new }
    {
        self.blocks.push(block)?;
        self.has_block = true;
        self.ends_blank = false;
        Ok(())
    }

    /// Whether an item of this kind continues the list.
    pub(crate) fn has_list_of(&self, kind: ListKind) -> bool
        ensures { (raw : Raw) → result ≡ has_list_of (level_in raw self.now) kind }
    {
        match &self.open_list {
            Some(list) => is_same_kind(list.kind, kind),
            None => false,
        }
    }

    /// Continues the list, which a blank line right before makes loose.
    fn go_on(&mut self)
        ensures level { (raw : Raw) → level_in raw self.new ≡ goes_on (level_in raw self.old) }
        ensures placed { (raw : Raw) → IsLevelPlaced raw self.old → IsLevelPlaced raw self.new }
    {
        if let Some(list) = &mut self.open_list {
            list.loose = list.loose || self.ends_blank;
        }
        self.has_block = true;
        self.ends_blank = false;
    }

    /// Opens a list without items.
    fn open_list(
        &mut self,
        alloc: Global,
        raw: &mut RawBlocks,
        room: &mut Room,
        kind: ListKind,
    ) -> Result<(), AllocError>
        requires { IsLevelPlaced raw.old self.old }
        ensures level { OnOk result (level_in raw.new self.new
            ≡ list_opens (level_in raw.old self.old) kind) }
        ensures placed { IsLevelPlaced raw.new self.new }
        ensures grows { Grows raw.old raw.new }
    {
        self.open_block(raw, room)?;
        self.open_list = Some(OpenList {
            kind,
            loose: false,
            items: room.take_items(alloc),
        });
        self.has_block = true;
        Ok(())
    }

    /// Opens an item, which continues the list or starts one.
    pub(crate) fn open_item(
        &mut self,
        alloc: Global,
        raw: &mut RawBlocks,
        room: &mut Room,
        kind: ListKind,
    ) -> Result<(), AllocError>
        requires { IsLevelPlaced raw.old self.old }
        ensures level { OnOk result (level_in raw.new self.new
            ≡ item_opens (level_in raw.old self.old) kind) }
        ensures placed { IsLevelPlaced raw.new self.new }
        ensures grows { Grows raw.old raw.new }
    {
        if self.has_list_of(kind) {
            self.go_on();
            return Ok(());
        }
        self.open_list(alloc, raw, room, kind)
    }

    /// Appends an item that was opened to its list: its blocks, whether it ends with a blank line, and
    /// whether a blank line is right before its second or a later block, which makes the list loose.
    pub(crate) fn close_item(
        &mut self,
        item: RawItem,
        ends_blank: bool,
        separated: bool,
    ) -> Result<(), AllocError>
        ensures level { OnOk result ((raw : Raw) → level_in raw self.new
            ≡ item_closes (level_in raw self.old) (item_with (item_in raw item) ends_blank separated)) }
        ensures placed { (raw : Raw) → IsLevelPlaced raw self.old → IsItem raw item →
            IsLevelPlaced raw self.new }
    {
        if let Some(list) = &mut self.open_list {
            list.items.push(item)?;
            list.loose = list.loose || separated;
        }
        self.has_block = true;
        self.ends_blank = ends_blank;
        Ok(())
    }

    /// Closes the item with these blocks in the outer level, and continues its list there with the next item,
    /// which has no blocks yet. Their memory is used again.
    #[inline(always)]
    pub(crate) fn begin_next_item(
        &mut self,
        raw: &mut RawBlocks,
        room: &mut Room,
        outer: &mut Level,
    ) -> Result<(), AllocError>
        requires inner { IsLevelPlaced raw.old self.old }
        requires outer { IsLevelPlaced raw.old outer.old }
        ensures outer { OnOk result (level_in raw.new outer.new
            ≡ goes_on (item_closes (level_in raw.old outer.old) (item_of (level_in raw.old self.old)))) }
        ensures level { OnOk result (level_in raw.new self.new ≡ empty_level) }
        ensures outer_placed { IsLevelPlaced raw.new outer.new }
        ensures placed { IsLevelPlaced raw.new self.new }
        ensures grows { Grows raw.old raw.new }
    {
        self.close_list(raw, room)?;
        let item = raw.item(&self.blocks)?;
        outer.close_item(item, self.ends_blank, self.separated)?;
        outer.go_on();
        self.blocks.clear();
        self.has_block = false;
        self.ends_blank = false;
        self.separated = false;
        Ok(())
    }

    /// The blocks.
    pub(crate) fn into_blocks(
        mut self,
        raw: &mut RawBlocks,
        room: &mut Room,
    ) -> Result<Vec<RawBlock>, AllocError>
        requires { IsLevelPlaced raw.old self }
        ensures blocks { IfOk result (λ blocks. blocks_in raw.new blocks.items
            ≡ closed_blocks (level_in raw.old self)) }
        ensures placed { IfOk result (λ blocks. ArePlaced raw.new blocks.items) }
        ensures grows { Grows raw.old raw.new }
    {
        self.close_list(raw, room)?;
        Ok(self.blocks)
    }
}
