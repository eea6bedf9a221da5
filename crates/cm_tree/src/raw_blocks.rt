//! Blocks whose inlines haven't been read. They own no memory: their texts follow one another in one text,
//! and the blocks in them in one list.
//!
//! A tree of owned blocks would allocate three times for each leaf: for its text, the list of its one inline
//! and its item's blocks. It would free them much later, which is when an allocator is slowest. The content
//! of a quote or item is moved to the end when that closes, so each block is moved twice at most.
//!
//! A place has 32 bits, which halves the size of a block. Where one would need more, all memory is requested,
//! which no allocator gives. No document within the limits gets there, because a byte of it becomes at most
//! three bytes of its texts (`texts_are_short` in `cm_block`).
ghost use Rattle.std.specs.Prelude.{◌≡◌, ◌<◌, ◌≤◌, ◌^◌, [], ◌++◌, length, get_or, nat_le};
ghost use Rattle.std.specs.Prelude.{IfOk, IfErr, OnOk};
ghost use Rattle.std.specs.List.{slice_range};
ghost use Rattle.cm_tree.specs.RawBlocks.{raw_inlines, block_in, blocks_in, item_in, items_in};
ghost use Rattle.cm_tree.specs.RawBlocks.{IsBetween, IsPlaced, ArePlaced, IsItem, AreItems, Grows};
ghost use Rattle.cm_tree.specs.declared.tree.Block.TheVariants as trees;

use crate::tree::ListKind;
use std::alloc::{AllocError, Global};
use std::marker::Model;

/// How many bytes of texts fill a chunk of a document.
const FULL: usize = 32_768;

/// How many bytes of texts there is room for at first, where more than a few are to come. Few chunks outgrow
/// it, and a finished one gives back what it doesn't use.
const ROOM: usize = 57_344;

/// A block whose inlines haven't been read. Its texts are between places among the texts of [`RawBlocks`],
/// and the blocks and items in it between places among the blocks and items there.
#[derive(Clone, Copy, Debug)]
pub enum RawBlock {
    /// A paragraph, and the places of its source.
    Paragraph {
        from: u32,
        to: u32,
    },
    /// A heading, and the places of its source.
    Heading {
        level: u8,
        from: u32,
        to: u32,
    },
    /// A code block, and the places of its info string, followed by its text.
    Code {
        info: u32,
        text: u32,
        to: u32,
    },
    /// An HTML block, and the places of its text.
    Html {
        from: u32,
        to: u32,
    },
    /// A thematic break.
    Break,
    /// A link reference definition, and the places of its label, destination and title.
    Definition {
        label: u32,
        dest: u32,
        title: u32,
        to: u32,
    },
    /// A block quote, and the places of its blocks.
    Quote {
        from: u32,
        to: u32,
    },
    /// A list, and the places of its items.
    List {
        /// It comes first because it shares a word with the variant's tag there.
        tight: bool,
        kind: ListKind,
        from: u32,
        to: u32,
    },
}

/// A list item, and the places of its blocks.
#[derive(Clone, Copy, Debug)]
pub struct RawItem {
    /// The place of the first.
    pub from: u32,
    /// The place after the last.
    pub to: u32,
}

/// What [`RawBlock`]s are made of: the texts of all, the blocks inside others, each after those inside it,
/// and the items.
///
/// What was made stays the same when more is made. If a call that makes something returns a fault, a prefix
/// of what it would have appended may stay there, which is part of no block.
#[derive(Debug, Drop)]
pub struct RawBlocks {
    text: String,
    blocks: Vec<RawBlock>,
    items: Vec<RawItem>,
}

impl Model for RawBlocks {
    ghost use Rattle.std.specs.Prelude.{string_bytes};
    ghost use Rattle.cm_tree.specs.RawBlocks.{Raw, raw_code};
    ghost use Rattle.cm_tree.specs.steps.RawSteps.{raw_held, IsHeld};

    ghost Value = { Raw };

    ghost coded = { raw_code };

    ghost view = { λ r. raw_held (string_bytes r.text) r.blocks.items r.items.items };

    ghost invariant = { λ r. IsHeld (string_bytes r.text) r.blocks.items r.items.items };
}

impl RawBlocks {
    /// Nothing yet. It takes no memory.
    pub fn new(alloc: Global) -> RawBlocks
        ensures text { result.text ≡ [] }
        ensures blocks { result.blocks ≡ [] }
        ensures items { result.items ≡ [] }
    {
        RawBlocks {
            text: String::new(alloc),
            blocks: Vec::new(alloc),
            items: Vec::new(alloc),
        }
    }

    /// Nothing yet, with room for texts that fill a chunk of a document.
    ///
    /// # Errors
    ///
    /// `AllocError` if a request for memory was refused.
    pub fn with_room(alloc: Global) -> Result<RawBlocks, AllocError>
        ensures text { IfOk result (λ raw. raw.text ≡ []) }
        ensures blocks { IfOk result (λ raw. raw.blocks ≡ []) }
        ensures items { IfOk result (λ raw. raw.items ≡ []) }
    {
        Ok(RawBlocks {
            text: String::with_capacity(alloc, ROOM)?,
            blocks: Vec::new(alloc),
            items: Vec::new(alloc),
        })
    }

    /// Gives back the memory that the texts, blocks and items don't use.
    pub fn shrink_to_fit(&mut self)
        ensures { self.new ≡ self.old }
    {
        self.text.shrink_to_fit();
        self.blocks.shrink_to_fit();
        self.items.shrink_to_fit();
    }

    /// Whether the texts are long enough to fill a chunk of a document: 32 KiB.
    pub fn is_full(&self) -> bool
        ensures { result ≡ nat_le 32768 (length self.now.text) }
    {
        self.text.len() >= FULL
    }

    /// The error of a request for all memory, which no allocator gives.
    #[cold]
    fn refusal(&self) -> AllocError {
        match String::with_capacity(*self.text.allocator(), usize::MAX) {
            Err(refused) => refused,
            Ok(_) => AllocError,
        }
    }

    /// A place as a block has it. Where it needs more than 32 bits, all memory is requested.
    #[inline(always)]
    fn place(&self, at: usize) -> Result<u32, AllocError>
        ensures place { IfOk result (λ place. place ≡ at) }
        ensures far { IfErr result (λ refused. 2 ^ 32 ≤ at) }
    {
        match u32::try_from(at) {
            Ok(place) => Ok(place),
            Err(_) => Err(self.refusal()),
        }
    }

    /// Appends a text to the others.
    fn put_text(&mut self, text: &str) -> Result<(), AllocError>
        ensures text { OnOk result (self.new.text ≡ self.old.text ++ text.now) }
        ensures between { OnOk result
            (IsBetween self.new.text (length self.old.text) (length self.new.text)) }
        ensures blocks { self.new.blocks ≡ self.old.blocks }
        ensures items { self.new.items ≡ self.old.items }
        ensures grows { Grows self.old self.new }
    {
        self.text.push_str(text)?;
        Ok(())
    }

    /// Appends a text to the others, and returns where it starts and where it ends.
    fn push_text(&mut self, text: &str) -> Result<(u32, u32), AllocError>
        ensures text { OnOk result (self.new.text ≡ self.old.text ++ text.now) }
        ensures from { IfOk result (λ places. places.0 ≡ length self.old.text) }
        ensures end { IfOk result (λ places. places.1 ≡ length self.new.text) }
        ensures between { IfOk result (λ places. IsBetween self.new.text places.0 places.1) }
        ensures grows { Grows self.old self.new }
    {
        let len = self.text.len();
        let from = self.place(len)?;
        let to = self.place(len + text.len())?;
        self.put_text(text)?;
        Ok((from, to))
    }

    /// Makes a paragraph with this source (CommonMark 0.31.2, 4.8 Paragraphs).
    ///
    /// # Errors
    ///
    /// `AllocError` if a request for memory was refused.
    #[inline(always)]
    pub fn paragraph(&mut self, source: &str) -> Result<RawBlock, AllocError>
        ensures block { IfOk result (λ block.
            block_in self.new block ≡ trees.Paragraph (raw_inlines source.now)) }
        ensures placed { IfOk result (λ block. IsPlaced self.new block) }
        ensures grows { Grows self.old self.new }
    {
        let (from, to) = self.push_text(source)?;
        Ok(RawBlock::Paragraph { from, to })
    }

    /// Makes a heading of this level, from 1 to 6, with this source (4.2 ATX headings, 4.3 Setext headings).
    ///
    /// # Errors
    ///
    /// `AllocError` if a request for memory was refused.
    pub fn heading(&mut self, level: u8, source: &str) -> Result<RawBlock, AllocError>
        ensures block { IfOk result (λ block.
            block_in self.new block ≡ trees.Heading level (raw_inlines source.now)) }
        ensures placed { IfOk result (λ block. IsPlaced self.new block) }
        ensures grows { Grows self.old self.new }
    {
        let (from, to) = self.push_text(source)?;
        Ok(RawBlock::Heading { level, from, to })
    }

    /// Makes a code block with this resolved info string and these lines (4.4
    /// Indented code blocks, 4.5 Fenced code blocks).
    ///
    /// # Errors
    ///
    /// `AllocError` if a request for memory was refused.
    pub fn code(&mut self, info: &str, text: &str) -> Result<RawBlock, AllocError>
        ensures block { IfOk result (λ block. block_in self.new block ≡ trees.Code info.now text.now) }
        ensures placed { IfOk result (λ block. IsPlaced self.new block) }
        ensures grows { Grows self.old self.new }
    {
        let (at, _) = self.push_text(info)?;
        let (beyond, to) = self.push_text(text)?;
        Ok(RawBlock::Code {
            info: at,
            text: beyond,
            to,
        })
    }

    /// Makes an HTML block with these lines (4.6 HTML blocks).
    ///
    /// # Errors
    ///
    /// `AllocError` if a request for memory was refused.
    pub fn html(&mut self, text: &str) -> Result<RawBlock, AllocError>
        ensures block { IfOk result (λ block. block_in self.new block ≡ trees.Html text.now) }
        ensures placed { IfOk result (λ block. IsPlaced self.new block) }
        ensures grows { Grows self.old self.new }
    {
        let (from, to) = self.push_text(text)?;
        Ok(RawBlock::Html { from, to })
    }

    /// Makes a definition with this label, as it is in the source, and this resolved destination and title
    /// (4.7 Link reference definitions).
    ///
    /// # Errors
    ///
    /// `AllocError` if a request for memory was refused.
    pub fn definition(
        &mut self,
        label: &str,
        dest: &str,
        title: &str,
    ) -> Result<RawBlock, AllocError>
        ensures block { IfOk result (λ block.
            block_in self.new block ≡ trees.Definition label.now dest.now title.now) }
        ensures placed { IfOk result (λ block. IsPlaced self.new block) }
        ensures grows { Grows self.old self.new }
    {
        let (first, _) = self.push_text(label)?;
        let (second, _) = self.push_text(dest)?;
        let (third, to) = self.push_text(title)?;
        Ok(RawBlock::Definition {
            label: first,
            dest: second,
            title: third,
            to,
        })
    }

    /// Appends blocks to the others as those of an item (5.2 List items).
    ///
    /// # Errors
    ///
    /// `AllocError` if a request for memory was refused.
    pub fn item(&mut self, blocks: &[RawBlock]) -> Result<RawItem, AllocError>
        requires { ArePlaced self.old blocks.now }
        ensures item { IfOk result (λ item. item_in self.new item ≡ blocks_in self.old blocks.now) }
        ensures placed { IfOk result (λ item. IsItem self.new item) }
        ensures grows { Grows self.old self.new }
    {
        let len = self.blocks.len();
        let from = self.place(len)?;
        let to = self.place(len + blocks.len())?;
        self.blocks.extend_from_slice(blocks)?;
        Ok(RawItem { from, to })
    }

    /// Makes a block quote of blocks (5.1 Block quotes).
    ///
    /// # Errors
    ///
    /// `AllocError` if a request for memory was refused.
    pub fn quote(&mut self, blocks: &[RawBlock]) -> Result<RawBlock, AllocError>
        requires { ArePlaced self.old blocks.now }
        ensures block { IfOk result (λ block.
            block_in self.new block ≡ trees.Quote (blocks_in self.old blocks.now)) }
        ensures placed { IfOk result (λ block. IsPlaced self.new block) }
        ensures grows { Grows self.old self.new }
    {
        let RawItem { from, to } = self.item(blocks)?;
        Ok(RawBlock::Quote { from, to })
    }

    /// Makes a list of items (5.3 Lists).
    ///
    /// # Errors
    ///
    /// `AllocError` if a request for memory was refused.
    pub fn list(
        &mut self,
        kind: ListKind,
        tight: bool,
        items: &[RawItem],
    ) -> Result<RawBlock, AllocError>
        requires { AreItems self.old items.now }
        ensures block { IfOk result (λ block.
            block_in self.new block ≡ trees.List kind tight (items_in self.old items.now)) }
        ensures placed { IfOk result (λ block. IsPlaced self.new block) }
        ensures grows { Grows self.old self.new }
    {
        let len = self.items.len();
        let from = self.place(len)?;
        let to = self.place(len + items.len())?;
        self.items.extend_from_slice(items)?;
        Ok(RawBlock::List {
            kind,
            tight,
            from,
            to,
        })
    }

    /// The text between two places.
    pub fn text(&self, from: u32, to: u32) -> &str
        requires { IsBetween self.now.text from to }
        ensures { result.now ≡ slice_range self.now.text from to }
    {
        &self.text[from as usize..to as usize]
    }

    /// The block at a place.
    pub fn block_at(&self, at: u32) -> RawBlock
        requires { at < length self.now.blocks }
        ensures block { block_in self.now result ≡ get_or self.now.blocks at (block_in self.now result) }
        ensures placed { IsPlaced self.now result }
    {
        self.blocks[at as usize]
    }

    /// The item at a place.
    pub fn item_at(&self, at: u32) -> RawItem
        requires { at < length self.now.items }
        ensures item { item_in self.now result ≡ get_or self.now.items at (item_in self.now result) }
        ensures placed { IsItem self.now result }
    {
        self.items[at as usize]
    }
}
