//! The HTML of an outline's blocks, whose inlines are read as it is written.
//!
//! No tree is made: a leaf's text is copied from its source to the page. The layout of blocks in an item
//! is in code twice, here and in `cm_html` for trees, and once in the definition.
ghost use Rattle.std.specs.Prelude.{◌≡◌, List, ◌∷◌, ◌++◌, length, map, true, IfOk, IfErr, OnOk};
ghost use Rattle.cm_tree.specs.RawBlocks.{IsItem, IsPlaced, IsRange};
ghost use Rattle.cm_html.specs.Html.{html_of, items_html, Written, written, alone, inside_from, line_feed_if};
ghost use Rattle.cm_html.specs.steps.HtmlParts.{item_html};
ghost use Rattle.cm_tool.specs.steps.LeafWalks.{depths_in, leaf_depths, items_leaf_depths, block_read_of};
ghost use Rattle.cm_tool.specs.steps.LeafWalks.{blocks_read_at, items_read_at, all_left, ArePlacedLeft};
ghost use Rattle.cm_tool.specs.steps.LeafWalks.{HasRead, HasReadAll, TellsOf};

use crate::fault::Fault;
use crate::outlines::leaf_walk::LeafWalk;
use cm_html::{
    Element, Pages, push_break, push_code, push_heading_end, push_heading_start, push_list_end,
    push_list_start,
};
use cm_tree::{RawBlock, RawItem};

impl LeafWalk {
    /// Adds the HTML of a block outside of items.
    #[cycle(html)]
    fn push_block(&mut self, html: &mut Pages, block: RawBlock) -> Result<(), Fault>
        requires { IsPlaced self.old.unread.raw block }
        ensures pushed { OnOk result (html.new ≡
            html.old ++ alone (written (block_read_of self.old.unread block))) }
        ensures passes { OnOk result (HasRead self.old self.new
            (depths_in (block_read_of self.old.unread block))) }
        ensures told { IfErr result (λ fault. TellsOf self.old fault
            (depths_in (block_read_of self.old.unread block))) }
    {
        match block {
            RawBlock::Paragraph { from, to } => {
                html.push_str(Element::Paragraph.start())?;
                self.push_leaf(html, from, to)?;
                html.push_str(Element::Paragraph.end())?;
            }
            RawBlock::Heading { level, from, to } => {
                push_heading_start(html, level)?;
                self.push_leaf(html, from, to)?;
                push_heading_end(html, level)?;
            }
            RawBlock::Code { info, text, to } => {
                self.pass()?;
                let raw = &self.unread.raw;
                push_code(html, raw.text(info, text), raw.text(text, to))?;
            }
            RawBlock::Html { from, to } => {
                self.pass()?;
                html.push_str(self.unread.raw.text(from, to))?;
            }
            RawBlock::Break => {
                self.pass()?;
                push_break(html)?;
            }
            RawBlock::Definition { .. } => self.pass()?,
            RawBlock::Quote { from, to } => {
                html.push_str(Element::Quote.start())?;
                self.push_blocks(html, from, to)?;
                html.push_str(Element::Quote.end())?;
            }
            RawBlock::List {
                kind,
                tight,
                from,
                to,
            } => {
                push_list_start(html, kind)?;
                self.push_items(html, tight, from, to)?;
                push_list_end(html, kind)?;
            }
        }
        Ok(())
    }

    /// Adds the HTML of the blocks in a range of positions.
    #[cycle(html)]
    fn push_blocks(&mut self, html: &mut Pages, from: u32, to: u32) -> Result<(), Fault>
        requires { IsRange (length self.old.unread.raw.blocks) from to }
        ensures pushed { OnOk result (html.new ≡
            html.old ++ html_of (blocks_read_at self.old.unread from to)) }
        ensures passes { OnOk result (HasRead self.old self.new
            (leaf_depths (blocks_read_at self.old.unread from to))) }
        ensures told { IfErr result (λ fault. TellsOf self.old fault
            (leaf_depths (blocks_read_at self.old.unread from to))) }
    {
        for at in from..to {
            let block = self.unread.raw.block_at(at);
            self.push_block(html, block)?;
        }
        Ok(())
    }

    /// Adds the HTML of the items in a range of positions.
    #[cycle(html)]
    fn push_items(&mut self, html: &mut Pages, tight: bool, from: u32, to: u32) -> Result<(), Fault>
        requires { IsRange (length self.old.unread.raw.items) from to }
        ensures pushed { OnOk result (html.new ≡
            html.old ++ items_html tight
            (map (map written) (items_read_at self.old.unread from to))) }
        ensures passes { OnOk result (HasRead self.old self.new
            (items_leaf_depths (items_read_at self.old.unread from to))) }
        ensures told { IfErr result (λ fault. TellsOf self.old fault
            (items_leaf_depths (items_read_at self.old.unread from to))) }
    {
        for at in from..to {
            let item = self.unread.raw.item_at(at);
            self.push_item(html, tight, item)?;
        }
        Ok(())
    }

    /// Adds the HTML of an item.
    #[cycle(html)]
    fn push_item(&mut self, html: &mut Pages, tight: bool, item: RawItem) -> Result<(), Fault>
        requires { IsItem self.old.unread.raw item }
        ensures pushed { OnOk result (html.new ≡
            html.old ++ item_html tight
            (map written (blocks_read_at self.old.unread item.from item.to))) }
        ensures passes { OnOk result (HasRead self.old self.new
            (leaf_depths (blocks_read_at self.old.unread item.from item.to))) }
        ensures told { IfErr result (λ fault. TellsOf self.old fault
            (leaf_depths (blocks_read_at self.old.unread item.from item.to))) }
    {
        html.push_str(Element::Item.start())?;
        let mut fresh = true;
        for at in item.from..item.to {
            let block = self.unread.raw.block_at(at);
            fresh = self.push_inside(html, tight, fresh, block)?;
        }
        html.push_str(Element::Item.end())?;
        Ok(())
    }

    /// Adds the HTML of a block in an item. `fresh` says that it starts on a new line, unless it is a
    /// paragraph of a tight list. Returns `fresh` for the next block.
    #[cycle(html)]
    fn push_inside(
        &mut self,
        html: &mut Pages,
        tight: bool,
        fresh: bool,
        block: RawBlock,
    ) -> Result<bool, Fault>
        requires { IsPlaced self.old.unread.raw block }
        ensures pushed { IfOk result (λ mark. (others : List Written)
            → html.new ++ inside_from tight mark others
            ≡ html.old ++ inside_from tight fresh
            (written (block_read_of self.old.unread block) ∷ others)) }
        ensures passes { OnOk result (HasRead self.old self.new
            (depths_in (block_read_of self.old.unread block))) }
        ensures told { IfErr result (λ fault. TellsOf self.old fault
            (depths_in (block_read_of self.old.unread block))) }
    {
        match block {
            RawBlock::Definition { .. } => {
                self.pass()?;
                Ok(fresh)
            }
            RawBlock::Paragraph { from, to } => {
                if tight {
                    self.push_leaf(html, from, to)?;
                    Ok(true)
                } else {
                    self.push_apart(html, fresh, block)?;
                    Ok(false)
                }
            }
            _ => {
                self.push_apart(html, fresh, block)?;
                Ok(false)
            }
        }
    }

    /// Adds the HTML of a block, on a new line if `fresh`.
    #[cycle(html)]
    #[inline(always)]
    fn push_apart(&mut self, html: &mut Pages, fresh: bool, block: RawBlock) -> Result<(), Fault>
        requires { IsPlaced self.old.unread.raw block }
        ensures pushed { OnOk result (html.new ≡
            html.old ++ (line_feed_if fresh
            ++ alone (written (block_read_of self.old.unread block)))) }
        ensures passes { OnOk result (HasRead self.old self.new
            (depths_in (block_read_of self.old.unread block))) }
        ensures told { IfErr result (λ fault. TellsOf self.old fault
            (depths_in (block_read_of self.old.unread block))) }
    {
        if fresh {
            html.push_str("\n")?;
        }
        self.push_block(html, block)
    }

    /// Adds the HTML of all blocks that are left.
    fn push_html(&mut self, html: &mut Pages) -> Result<(), Fault>
        requires { ArePlacedLeft self.old.unread }
        ensures pushed { OnOk result (html.new ≡
            html.old ++ html_of (all_left self.old.unread)) }
        ensures passes { OnOk result (HasReadAll self.old self.new) }
        ensures told { IfErr result (λ fault. TellsOf self.old fault
            (leaf_depths (all_left self.old.unread))) }
    {
        while let Some(block) = self.unread.next_block() {
            self.push_block(html, block)?;
            html.turn()?;
        }
        Ok(())
    }

    /// The HTML of all blocks that are left. The first page has room for this number of bytes.
    pub(crate) fn html(&mut self, room: usize) -> Result<Pages, Fault>
        requires { ArePlacedLeft self.old.unread }
        ensures html { IfOk result (λ pages. pages ≡ html_of (all_left self.old.unread)) }
        ensures passes { OnOk result (HasReadAll self.old self.new) }
        ensures told { IfErr result (λ fault. TellsOf self.old fault
            (leaf_depths (all_left self.old.unread))) }
    {
        let mut html = Pages::with_room(self.unread.alloc, room)?;
        self.push_html(&mut html)?;
        Ok(html)
    }
}
