//! A walk over the blocks of an outline that reads their leaves.
//!
//! The walk owns the blocks that are left, the definitions and the memory in which leaves are read, so that a
//! contract mentions one value. It uses positions, because a slice of its blocks would be borrowed from the
//! walk itself.
ghost use Rattle.std.specs.Prelude.{◌≡◌, ◌≢◌, ◌≤◌, ◌<◌, ◌+◌, ◌++◌, ℕ, [], ◌∷◌, length};
ghost use Rattle.std.specs.Prelude.{true, false, IfOk, IfErr, IfSome, OnOk, None};
ghost use Rattle.cm_tree.specs.Depth.{inlines_depth};
ghost use Rattle.cm_tree.specs.RawBlocks.{IsBetween, IsPlaced};
ghost use Rattle.cm_html.specs.Html.{inlines_html};
ghost use Rattle.cm_inline.specs.declared.fault.InlineFault.TheVariants as inline_faults;
ghost use Rattle.cm_tool.specs.declared.fault.Fault.TheVariants as faults;
ghost use Rattle.cm_tool.specs.steps.LeafWalks.{defined_in, with_inlines, content_at, block_read_of};
ghost use Rattle.cm_tool.specs.steps.LeafWalks.{all_left, ArePlacedLeft, HasRead, TellsOf, TellsLeaf};

use crate::fault::Fault;
use cm_html::Pages;
use cm_inline::{InlineFault, InlineReader, is_one_text};
use cm_text::Limits;
use cm_tree::{Definitions, Inline, Items, RawBlock, RawBlocks, RawChunk, RawTree};
use std::alloc::Global;
use std::vec::IntoIter;

/// What hasn't been read of an outline: the blocks at the top level that are left in the current chunk, the
/// blocks inside that chunk, and the chunks after it. It also has what is needed to read their leaves.
#[derive(Drop)]
pub(crate) struct Unread {
    pub(crate) alloc: Global,
    limits: Limits,
    definitions: Definitions,
    pub(crate) raw: RawBlocks,
    top: Vec<RawBlock>,
    // The position of the next block in `top`.
    at: usize,
    chunks: IntoIter<RawChunk, Global>,
}

impl Unread {
    /// Takes the next chunk that has blocks, if none of the current one is left. The current chunk is freed.
    #[cold]
    fn next_chunk(&mut self) -> bool
        requires { ArePlacedLeft self.old }
        ensures there { result ≡ true → self.new.at < length self.new.top.items }
        ensures none { result ≡ false → all_left self.old ≡ [] }
        ensures left { all_left self.new ≡ all_left self.old }
        ensures placed { ArePlacedLeft self.new }
        ensures limits { self.new.limits ≡ self.old.limits }
    {
        while self.at == self.top.len() {
            let Some(chunk) = self.chunks.next() else {
                return false;
            };
            let (top, raw) = chunk.into_contents();
            self.top = top;
            self.raw = raw;
            self.at = 0;
        }
        true
    }

    /// Takes the next block at the top level. A chunk is freed before the first block of the next one.
    #[inline(always)]
    pub(crate) fn next_block(&mut self) -> Option<RawBlock>
        requires { ArePlacedLeft self.old }
        ensures block { IfSome result (λ block.
            all_left self.old ≡ block_read_of self.new block ∷ all_left self.new) }
        ensures placed { IfSome result (λ block. IsPlaced self.new.raw block) }
        ensures none { result ≡ None → (all_left self.old ≡ []) × (all_left self.new ≡ []) }
        ensures left { ArePlacedLeft self.new }
        ensures limits { self.new.limits ≡ self.old.limits }
    {
        if self.at == self.top.len() && !self.next_chunk() {
            return None;
        }
        let block = self.top[self.at];
        self.at += 1;
        Some(block)
    }

    /// The inlines of a paragraph or heading whose source is in this range.
    fn content(
        &self,
        reader: &mut InlineReader,
        from: u32,
        to: u32,
    ) -> Result<Items<Inline>, InlineFault>
        requires { IsBetween self.now.raw.text from to }
        ensures read { IfOk result (λ inlines. inlines ≡ content_at self.now from to) }
        ensures within { OnOk result (inlines_depth (content_at self.now from to) ≤ self.now.limits.inlines) }
        ensures deep { IfErr result (λ fault. fault ≡ inline_faults.InlinesTooDeep
            → self.now.limits.inlines < inlines_depth (content_at self.now from to)) }
        ensures short { IfErr result (λ fault. fault ≢ inline_faults.SourceTooLong) }
    {
        let source = self.raw.text(from, to);
        if source.is_empty() {
            return Ok(Items::new(self.alloc));
        }
        if is_one_text(source) {
            return Ok(reader.one_text(source)?);
        }
        let limits = self.limits;
        let (inlines, _) = reader.inlines(
            limits.rules(),
            source,
            &self.definitions,
            limits.inlines(),
        )?;
        Ok(inlines)
    }

    /// Adds the HTML of these inlines.
    #[inline(always)]
    fn push_content(
        &self,
        reader: &mut InlineReader,
        html: &mut Pages,
        from: u32,
        to: u32,
    ) -> Result<(), InlineFault>
        requires { IsBetween self.now.raw.text from to }
        ensures pushed { OnOk result (html.new ≡ html.old ++ inlines_html (content_at self.now from to)) }
        ensures within { OnOk result (inlines_depth (content_at self.now from to) ≤ self.now.limits.inlines) }
        ensures deep { IfErr result (λ fault. fault ≡ inline_faults.InlinesTooDeep
            → self.now.limits.inlines < inlines_depth (content_at self.now from to)) }
        ensures short { IfErr result (λ fault. fault ≢ inline_faults.SourceTooLong) }
    {
        let source = self.raw.text(from, to);
        let limits = self.limits;
        reader.push_html(
            html,
            limits.rules(),
            source,
            &self.definitions,
            limits.inlines(),
        )
    }
}

/// Counts one more leaf, and returns its number.
fn count_leaf(next: &mut usize) -> Result<usize, Fault>
    ensures number { IfOk result (λ leaf. leaf ≡ next.old) }
    ensures counted { OnOk result (next.new ≡ next.old + 1) }
    ensures memory { IfErr result (λ fault. fault ≡ faults.NoMemory) }
{
    let leaf = *next;
    // Memory holds fewer leaves than a `usize` counts.
    *next = leaf.checked_add(1).ok_or(Fault::NoMemory)?;
    Ok(leaf)
}

/// The fault of a leaf that can't be read. Its source is between two 32-bit positions, so it is never too
/// long.
fn leaf_fault(fault: InlineFault, leaf: usize) -> Fault
    requires { fault ≢ inline_faults.SourceTooLong }
    ensures { (limit depth : ℕ) → (fault ≡ inline_faults.InlinesTooDeep → limit < depth)
        → TellsLeaf result limit leaf (depth ∷ []) }
{
    match fault {
        InlineFault::InlinesTooDeep => Fault::InlinesTooDeep { leaf },
        InlineFault::NoMemory => Fault::NoMemory,
        InlineFault::SourceTooLong => unreachable!(),
    }
}

/// A walk over what hasn't been read. It owns the memory in which leaves are read, and the number of the next
/// leaf.
#[derive(Drop)]
pub(crate) struct LeafWalk {
    pub(crate) unread: Unread,
    pub(crate) reader: InlineReader,
    next: usize,
}

impl LeafWalk {
    /// No leaf of the blocks has been read.
    pub(crate) fn new(
        alloc: Global,
        limits: Limits,
        definitions: Definitions,
        blocks: RawTree,
    ) -> LeafWalk
        ensures all { all_left result.unread ≡ with_inlines limits.rules (defined_in definitions) blocks }
        ensures placed { ArePlacedLeft result.unread }
        ensures limits { result.unread.limits ≡ limits }
        ensures first { result.next ≡ 1 }
    {
        LeafWalk {
            unread: Unread {
                alloc,
                limits,
                definitions,
                raw: RawBlocks::new(alloc),
                top: Vec::new(alloc),
                at: 0,
                chunks: blocks.into_chunks().into_iter(),
            },
            reader: InlineReader::new(alloc),
            next: 1,
        }
    }

    /// Skips the next leaf, which has no inlines.
    pub(crate) fn pass(&mut self) -> Result<(), Fault>
        ensures passes { OnOk result (HasRead self.old self.new (0 ∷ [])) }
        ensures told { IfErr result (λ fault. TellsOf self.old fault (0 ∷ [])) }
    {
        count_leaf(&mut self.next)?;
        Ok(())
    }

    /// The inlines of the next leaf, a paragraph or heading whose source is in this range.
    pub(crate) fn leaf(&mut self, from: u32, to: u32) -> Result<Items<Inline>, Fault>
        requires { IsBetween self.old.unread.raw.text from to }
        ensures read { IfOk result (λ inlines. inlines ≡ content_at self.old.unread from to) }
        ensures passes { OnOk result (HasRead self.old self.new
            (inlines_depth (content_at self.old.unread from to) ∷ [])) }
        ensures told { IfErr result (λ fault. TellsOf self.old fault
            (inlines_depth (content_at self.old.unread from to) ∷ [])) }
    {
        let leaf = count_leaf(&mut self.next)?;
        match self.unread.content(&mut self.reader, from, to) {
            Ok(inlines) => Ok(inlines),
            Err(fault) => Err(leaf_fault(fault, leaf)),
        }
    }

    /// Adds the HTML of the inlines of this leaf.
    #[inline(always)]
    pub(crate) fn push_leaf(&mut self, html: &mut Pages, from: u32, to: u32) -> Result<(), Fault>
        requires { IsBetween self.old.unread.raw.text from to }
        ensures pushed { OnOk result (html.new ≡
            html.old ++ inlines_html (content_at self.old.unread from to)) }
        ensures passes { OnOk result (HasRead self.old self.new
            (inlines_depth (content_at self.old.unread from to) ∷ [])) }
        ensures told { IfErr result (λ fault. TellsOf self.old fault
            (inlines_depth (content_at self.old.unread from to) ∷ [])) }
    {
        let leaf = count_leaf(&mut self.next)?;
        match self.unread.push_content(&mut self.reader, html, from, to) {
            Ok(()) => Ok(()),
            Err(fault) => Err(leaf_fault(fault, leaf)),
        }
    }
}
