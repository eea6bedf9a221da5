//! Spare memory: that of inlines which a caller no longer needs. It serves for the next ones.
//!
//! Without it, 18 in 100 instructions of a rewriting were `malloc` and `free`, where one word in eight is
//! marked. A kept string or list has the greatest size that it ever had, all are freed with the reader, and
//! nothing limits how much is kept: for 10 MB of such a text a rewriting held 30 MB. Contracts don't see what
//! is kept; a string or list that is reused is proved to be empty.
ghost use Rattle.std.specs.Prelude.{◌≡◌, [], ◌∷◌, string_bytes, IfOk, IfSome};
ghost use Rattle.cm_tree.specs.declared.tree.Inline.TheVariants.{Text as text_inline};

use crate::sizes::Sizes;
use cm_tree::{Block, BoxedText, Inline, Items, Text};
use std::alloc::{AllocError, Global};
use std::sync::Arc;

/// Texts and lists of inlines that were given back, and the sizes of those of a leaf.
#[derive(Drop)]
pub(crate) struct Spare {
    alloc: Global,
    texts: Vec<String>,
    counted: Vec<Arc<Text>>,
    lists: Vec<Vec<Inline>>,
    pub(crate) sizes: Sizes,
}

impl Spare {
    /// Nothing. It takes no memory.
    pub(crate) fn new(alloc: Global) -> Spare {
        Spare {
            alloc,
            texts: Vec::new(alloc),
            counted: Vec::new(alloc),
            lists: Vec::new(alloc),
            sizes: Sizes::new(alloc),
        }
    }

    /// The allocator.
    pub(crate) fn alloc(&self) -> Global {
        self.alloc
    }

    /// A string of no bytes in the memory of a text, if one is left.
    #[inline(always)]
    pub(crate) fn string(&mut self) -> Option<String>
        ensures { IfSome result (λ string. string_bytes string ≡ []) }
    {
        match self.texts.pop() {
            Some(mut text) => {
                text.clear();
                Some(text)
            }
            None => None,
        }
    }

    /// An empty string in such memory, or else with room for this number of bytes.
    #[inline(always)]
    pub(crate) fn string_for(&mut self, size: usize) -> Result<String, AllocError>
        ensures { IfOk result (λ string. string_bytes string ≡ []) }
    {
        match self.string() {
            Some(string) => Ok(string),
            None => String::with_capacity(self.alloc, size),
        }
    }

    /// A list of no inlines in the memory of one, if one is left.
    #[inline(always)]
    pub(crate) fn list(&mut self) -> Option<Vec<Inline>>
        ensures { IfSome result (λ list. list.items ≡ []) }
    {
        match self.lists.pop() {
            Some(mut list) => {
                list.clear();
                Some(list)
            }
            None => None,
        }
    }

    /// A copy of a text.
    #[inline(always)]
    pub(crate) fn text(&mut self, text: &str) -> Result<Text, AllocError>
        ensures copy { IfOk result (λ copy. copy ≡ text.now) }
    {
        let mut copy = self.string_for(text.len())?;
        copy.push_str(text)?;
        Ok(Text::from(copy))
    }

    /// A copy of a text, on the heap.
    pub(crate) fn boxed(&mut self, text: &str) -> Result<BoxedText, AllocError>
        ensures copy { IfOk result (λ boxed. boxed ≡ text.now) }
    {
        if text.is_empty() {
            return BoxedText::new(self.alloc, Text::new(self.alloc));
        }
        if let Some(mut counted) = self.counted.pop() {
            if let Some(copy) = Arc::get_mut(&mut counted) {
                copy.clear();
                copy.push_str(text)?;
                return Ok(BoxedText::from(counted));
            }
        }
        BoxedText::new(self.alloc, Text::from_str(self.alloc, text)?)
    }

    /// A text as the one inline of a list.
    pub(crate) fn one_text(&mut self, text: &str) -> Result<Items<Inline>, AllocError>
        ensures text { IfOk result (λ inlines. inlines ≡ text_inline text.now ∷ []) }
    {
        let mut inlines = match self.list() {
            Some(list) => Items::from(list),
            None => Items::new(self.alloc),
        };
        inlines.push(Inline::Text(self.text(text)?))?;
        Ok(inlines)
    }

    /// Keeps the memory of a text, if it has any. Where there is no room to keep it, it is freed.
    #[inline(always)]
    pub(crate) fn keep_text(&mut self, text: Text) {
        let text = text.into_string();
        if text.capacity() > 0 {
            let _ = self.texts.push(text);
        }
    }

    /// Keeps the memory of a text on the heap, if nothing else holds it.
    #[inline(always)]
    fn keep_boxed(&mut self, text: BoxedText) {
        if let Some(text) = text.into_arc() {
            if Arc::strong_count(&text) == 1 {
                let _ = self.counted.push(text);
            }
        }
    }

    /// Keeps the memory of inlines, if they have any.
    #[cycle(inlines)]
    pub(crate) fn keep_inlines(&mut self, inlines: Items<Inline>) {
        let mut list = inlines.into_vec();
        while let Some(inline) = list.pop() {
            self.keep_inline(inline);
        }
        if list.capacity() > 0 {
            let _ = self.lists.push(list);
        }
    }

    /// Keeps the memory of an inline.
    #[inline(always)]
    #[cycle(inlines)]
    fn keep_inline(&mut self, inline: Inline) {
        match inline {
            Inline::Text(text) => self.keep_text(text),
            Inline::Code(text) => self.keep_text(text),
            Inline::Html(text) => self.keep_text(text),
            Inline::Soft => {}
            Inline::Hard => {}
            Inline::Emph(content) => self.keep_inlines(content),
            Inline::Strong(content) => self.keep_inlines(content),
            Inline::Strike(content) => self.keep_inlines(content),
            Inline::Link {
                dest,
                title,
                content,
            } => {
                self.keep_boxed(dest);
                self.keep_boxed(title);
                self.keep_inlines(content);
            }
            Inline::Image {
                dest,
                title,
                content,
            } => {
                self.keep_boxed(dest);
                self.keep_boxed(title);
                self.keep_inlines(content);
            }
        }
    }

    /// Keeps the memory of the inlines in blocks.
    #[cycle(blocks)]
    fn keep_blocks(&mut self, blocks: Items<Block>) {
        for block in blocks.into_vec() {
            self.keep_block(block);
        }
    }

    /// Keeps the memory of the inlines in a block.
    #[cycle(blocks)]
    pub(crate) fn keep_block(&mut self, block: Block) {
        match block {
            Block::Paragraph(content) => self.keep_inlines(content),
            Block::Heading { content, .. } => self.keep_inlines(content),
            Block::Quote(blocks) => self.keep_blocks(blocks),
            Block::List { items, .. } => {
                for item in items.into_vec() {
                    self.keep_blocks(item);
                }
            }
            _ => {}
        }
    }
}
