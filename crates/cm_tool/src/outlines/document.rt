//! The blocks of an outline with the inlines of their leaves.
ghost use Rattle.std.specs.Prelude.{◌≡◌, ◌++◌, [], length, option_to_list};
ghost use Rattle.std.specs.Prelude.{IfOk, IfErr, OnOk, None};
ghost use Rattle.cm_tree.specs.RawBlocks.{IsPlaced, IsRange};
ghost use Rattle.cm_tool.specs.steps.LeafWalks.{depths_in, leaf_depths, items_leaf_depths, block_read_of};
ghost use Rattle.cm_tool.specs.steps.LeafWalks.{blocks_read_at, items_read_at, all_left, ArePlacedLeft};
ghost use Rattle.cm_tool.specs.steps.LeafWalks.{HasRead, HasReadAll, HasReadSome, TellsOf};

use crate::fault::Fault;
use crate::outlines::leaf_walk::LeafWalk;
use cm_tree::{Block, Items, RawBlock, Text};

impl LeafWalk {
    /// A block with the inlines of its leaves.
    #[cycle(blocks)]
    pub(crate) fn block(&mut self, block: RawBlock) -> Result<Block, Fault>
        requires { IsPlaced self.old.unread.raw block }
        ensures read { IfOk result (λ read. read ≡ block_read_of self.old.unread block) }
        ensures passes { OnOk result (HasRead self.old self.new
            (depths_in (block_read_of self.old.unread block))) }
        ensures told { IfErr result (λ fault. TellsOf self.old fault
            (depths_in (block_read_of self.old.unread block))) }
    {
        let alloc = self.unread.alloc;
        match block {
            RawBlock::Paragraph { from, to } => Ok(Block::Paragraph(self.leaf(from, to)?)),
            RawBlock::Heading { level, from, to } => {
                let content = self.leaf(from, to)?;
                Ok(Block::Heading { level, content })
            }
            RawBlock::Code { info, text, to } => {
                self.pass()?;
                let raw = &self.unread.raw;
                Ok(Block::code(alloc, raw.text(info, text), raw.text(text, to))?)
            }
            RawBlock::Html { from, to } => {
                self.pass()?;
                let text = Text::from_str(alloc, self.unread.raw.text(from, to))?;
                Ok(Block::Html { text })
            }
            RawBlock::Break => {
                self.pass()?;
                Ok(Block::Break)
            }
            RawBlock::Definition {
                label,
                dest,
                title,
                to,
            } => {
                self.pass()?;
                let raw = &self.unread.raw;
                Ok(Block::definition(
                    alloc,
                    raw.text(label, dest),
                    raw.text(dest, title),
                    raw.text(title, to),
                )?)
            }
            RawBlock::Quote { from, to } => Ok(Block::Quote(self.blocks(from, to)?)),
            RawBlock::List {
                kind,
                tight,
                from,
                to,
            } => {
                let items = self.items(from, to)?;
                Ok(Block::List { kind, tight, items })
            }
        }
    }

    /// The blocks in a range of positions, with the inlines of their leaves.
    #[cycle(blocks)]
    fn blocks(&mut self, from: u32, to: u32) -> Result<Items<Block>, Fault>
        requires { IsRange (length self.old.unread.raw.blocks) from to }
        ensures read { IfOk result (λ read. read ≡ blocks_read_at self.old.unread from to) }
        ensures passes { OnOk result (HasRead self.old self.new
            (leaf_depths (blocks_read_at self.old.unread from to))) }
        ensures told { IfErr result (λ fault. TellsOf self.old fault
            (leaf_depths (blocks_read_at self.old.unread from to))) }
    {
        let mut read = Items::from(Vec::with_capacity(self.unread.alloc, (to - from) as usize)?);
        for at in from..to {
            let block = self.unread.raw.block_at(at);
            read.push(self.block(block)?)?;
        }
        Ok(read)
    }

    /// The items in a range of positions, with the inlines of their leaves.
    #[cycle(blocks)]
    fn items(&mut self, from: u32, to: u32) -> Result<Items<Items<Block>>, Fault>
        requires { IsRange (length self.old.unread.raw.items) from to }
        ensures read { IfOk result (λ read. read ≡ items_read_at self.old.unread from to) }
        ensures passes { OnOk result (HasRead self.old self.new
            (items_leaf_depths (items_read_at self.old.unread from to))) }
        ensures told { IfErr result (λ fault. TellsOf self.old fault
            (items_leaf_depths (items_read_at self.old.unread from to))) }
    {
        let mut read = Items::from(Vec::with_capacity(self.unread.alloc, (to - from) as usize)?);
        for at in from..to {
            let item = self.unread.raw.item_at(at);
            read.push(self.blocks(item.from, item.to)?)?;
        }
        Ok(read)
    }

    /// Takes the next block at the top level, and reads the inlines of its leaves.
    pub(crate) fn next_block(&mut self) -> Result<Option<Block>, Fault>
        requires { ArePlacedLeft self.old.unread }
        ensures block { IfOk result (λ next.
            all_left self.old.unread ≡ option_to_list next ++ all_left self.new.unread) }
        ensures none { IfOk result (λ next. next ≡ None → all_left self.new.unread ≡ []) }
        ensures passes { OnOk result (HasReadSome self.old self.new) }
        ensures told { IfErr result (λ fault. TellsOf self.old fault
            (leaf_depths (all_left self.old.unread))) }
    {
        let Some(block) = self.unread.next_block() else {
            return Ok(None);
        };
        Ok(Some(self.block(block)?))
    }

    /// All blocks that are left, with the inlines of their leaves. Each chunk is freed before the next one is
    /// read.
    pub(crate) fn all_blocks(&mut self) -> Result<Items<Block>, Fault>
        requires { ArePlacedLeft self.old.unread }
        ensures read { IfOk result (λ read. read ≡ all_left self.old.unread) }
        ensures passes { OnOk result (HasReadAll self.old self.new) }
        ensures told { IfErr result (λ fault. TellsOf self.old fault
            (leaf_depths (all_left self.old.unread))) }
    {
        let mut read = Items::new(self.unread.alloc);
        while let Some(block) = self.next_block()? {
            read.push(block)?;
        }
        Ok(read)
    }
}
