//! The plain source of an outline. Each block is freed once it is spelled.
//!
//! After a refusal nothing more is spelled, but all leaves are read: one that nests too deep is a fault of
//! the text, and takes precedence. Definitions count among the leaves, so they are removed from a block only
//! after its leaves have their numbers.
//!
//! Blocks are judged and spelled from inlines. Working from nodes would save making the inlines, but would
//! need the refusals and the spelling a second time.
ghost use Rattle.std.specs.Prelude.{List, [], ◌∷◌, ◌++◌, IfOk, IfErr, OnOk};
ghost use Rattle.cm_text.specs.Rules as text_rules;
ghost use Rattle.cm_tree.specs.declared.tree.Block as trees;
ghost use Rattle.cm_source.specs.Definitions.{without_definitions};
ghost use Rattle.cm_tool.specs.steps.PlainSources.{HasTaken, Spelled};
ghost use Rattle.cm_tool.specs.steps.LeafWalks.{all_left, leaf_depths, ArePlacedLeft, HasReadAll, TellsOf};

use crate::fault::Fault;
use crate::outlines::leaf_walk::LeafWalk;
use cm_inline::InlineReader;
use cm_source::{SourceFault, Speller, Why, block_without_definitions};
use cm_text::{NoMemory, Rules};
use cm_tree::Block;
use std::alloc::Global;

/// The source of the blocks so far, or why they can't be spelled.
#[derive(Drop)]
struct PlainSource {
    speller: Speller,
    refused: Option<Why>,
}

impl PlainSource {
    /// The source of no blocks.
    fn new(alloc: Global, rules: Rules) -> PlainSource
        ensures { HasTaken rules result [] }
    {
        PlainSource {
            speller: Speller::new(alloc, rules),
            refused: None,
        }
    }

    /// Spells one more block. After a refusal it does nothing.
    fn push(&mut self, block: &Block) -> Result<(), NoMemory>
        ensures { OnOk result ((rules : text_rules.Rules) (blocks : List trees.Block)
            → HasTaken rules self.old blocks → HasTaken rules self.new (blocks ++ block.now ∷ [])) }
    {
        if self.refused.is_some() {
            return Ok(());
        }
        match self.speller.push(block) {
            Ok(()) => Ok(()),
            Err(SourceFault::Unspellable { why }) => {
                self.refused = Some(why);
                Ok(())
            }
            Err(SourceFault::NoMemory) => Err(NoMemory),
        }
    }

    /// Spells one more block without its definitions, or nothing if it is one, and frees it.
    fn push_cleared(
        &mut self,
        alloc: Global,
        reader: &mut InlineReader,
        block: Block,
    ) -> Result<(), NoMemory>
        ensures { OnOk result ((rules : text_rules.Rules) (blocks : List trees.Block)
            → HasTaken rules self.old blocks
            → HasTaken rules self.new (blocks ++ without_definitions (block ∷ []))) }
    {
        if let Some(block) = block_without_definitions(alloc, block) {
            self.push(&block)?;
            reader.let_go(block);
        }
        Ok(())
    }

    /// The source of the blocks so far.
    fn finish(self) -> Result<Result<String, Why>, NoMemory>
        ensures { IfOk result (λ source. (rules : text_rules.Rules) (blocks : List trees.Block)
            → HasTaken rules self blocks → Spelled rules blocks source) }
    {
        let PlainSource { speller, refused } = self;
        match refused {
            Some(why) => Ok(Err(why)),
            None => Ok(Ok(speller.finish()?)),
        }
    }
}

impl LeafWalk {
    /// Spells all blocks that are left. The definitions of a block are leaves too, so they are removed after
    /// it is read.
    fn push_plain_source(&mut self, source: &mut PlainSource) -> Result<(), Fault>
        requires { ArePlacedLeft self.old.unread }
        ensures pushed { OnOk result ((rules : text_rules.Rules) (taken : List trees.Block)
            → HasTaken rules source.old taken
            → HasTaken rules source.new (taken ++ without_definitions (all_left self.old.unread))) }
        ensures passes { OnOk result (HasReadAll self.old self.new) }
        ensures told { IfErr result (λ fault. TellsOf self.old fault
            (leaf_depths (all_left self.old.unread))) }
    {
        while let Some(block) = self.next_block()? {
            source.push_cleared(self.unread.alloc, &mut self.reader, block)?;
        }
        Ok(())
    }

    /// The source of all blocks that are left without their definitions, or why they can't be spelled.
    pub(crate) fn plain_source(&mut self, rules: Rules) -> Result<Result<String, Why>, Fault>
        requires { ArePlacedLeft self.old.unread }
        ensures source { IfOk result (λ source.
            Spelled rules (without_definitions (all_left self.old.unread)) source) }
        ensures passes { OnOk result (HasReadAll self.old self.new) }
        ensures told { IfErr result (λ fault. TellsOf self.old fault
            (leaf_depths (all_left self.old.unread))) }
    {
        let mut source = PlainSource::new(self.unread.alloc, rules);
        self.push_plain_source(&mut source)?;
        Ok(source.finish()?)
    }
}
