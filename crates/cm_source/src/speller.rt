//! The source that is spelled for a tree.
//!
//! A block is judged, given the block before it, before it is spelled, so that nothing has to be removed
//! again.
ghost use Rattle.std.specs.Prelude.{◌≡◌, ◌≢◌, ◌↔◌, [], ◌∷◌, ◌++◌, List, Some, Err, true};
ghost use Rattle.std.specs.Prelude.{IsErr, IfOk, IfErr, OnOk, string_bytes};
ghost use Rattle.std.specs.Option.{is_some};
ghost use Rattle.cm_text.specs.Rules as text_rules;
ghost use Rattle.cm_text.specs.Rules.{profile};
ghost use Rattle.cm_tree.specs.declared.tree.Block as trees;
ghost use Rattle.cm_scan.specs.Documents.{tree_of};
ghost use Rattle.cm_source.specs.Answers.{Spells};
ghost use Rattle.cm_source.specs.declared.fault.SourceFault.TheVariants as faults;
ghost use Rattle.cm_source.specs.Refusals.{judged_block, IsSpellable};
ghost use Rattle.cm_source.specs.Speller.{HasSpelled, Refuses};
ghost use Rattle.cm_source.specs.Spelling.{gap, lines_of_block, spelling_of};
ghost use Rattle.cm_source.specs.Faces.{seen};
ghost use Rattle.cm_source.specs.steps.WrittenLines.{Writes};

use crate::blocks::{spell_block, spell_blocks, spell_gap};
use crate::fault::SourceFault;
use crate::refusals::{Face, check_block, face_of, spellable_by};
use crate::source_lines::SourceLines;
use cm_text::{NoMemory, Rules};
use cm_tree::Block;
use std::alloc::Global;
use std::fmt;

/// The source that is spelled for blocks, whether they can be spelled or not.
fn spelling(alloc: Global, blocks: &[Block]) -> Result<String, NoMemory>
    ensures { IfOk result (λ text. string_bytes text ≡ spelling_of blocks.now) }
{
    let mut source = SourceLines::new(alloc);
    spell_blocks(&mut source, blocks, true)?;
    Ok(source.text)
}

/// Spells a tree as plain CommonMark source, which reads back as just that tree.
///
/// # Errors
///
/// `Unspellable` with the reason that `spellable` returns, `NoMemory` if a request for memory was refused.
pub fn spell(alloc: Global, blocks: &[Block]) -> Result<String, SourceFault>
    ensures answer { Spells result profile blocks.now }
    ensures reads_back { IfOk result (λ source. tree_of profile (string_bytes source) ≡ blocks.now) }
{
    spell_by(alloc, Rules::profile(), blocks)
}

/// The same with these rules, which only decide whether a tree can be spelled, as in `spellable_by`.
///
/// # Errors
///
/// As `spell`.
pub fn spell_by(alloc: Global, rules: Rules, blocks: &[Block]) -> Result<String, SourceFault>
    ensures answer { Spells result rules blocks.now }
    ensures reads_back { IfOk result (λ source. tree_of rules (string_bytes source) ≡ blocks.now) }
{
    spellable_by(rules, blocks)?;
    Ok(spelling(alloc, blocks)?)
}

/// Spells blocks one after another, so that a tree needn't be held whole.
///
/// Pass each block once to `push`, in the order of the document; it can be freed then. `finish` returns the
/// source, which is that of `spell_by` for all of them. For example, a paragraph `a` that is pushed, and then
/// a paragraph `b`, become `a`, an empty line, and `b`.
#[derive(Drop)]
pub struct Speller {
    rules: Rules,
    source: SourceLines,
    /// What the next block sees of the last one.
    before: Option<Face>,
    /// Whether a request for memory was refused.
    failed: bool,
}

/// Its name alone.
impl fmt::Debug for Speller {
    fn fmt<W: fmt::Write>(&self, f: &mut fmt::Formatter<W>) -> fmt::Result {
        f.write_str("Speller")
    }
}

impl Speller {
    /// A speller that has been given no blocks, with these rules. It takes no memory.
    pub fn new(alloc: Global, rules: Rules) -> Speller
        ensures { HasSpelled rules result [] }
    {
        Speller {
            rules,
            source: SourceLines::new(alloc),
            before: None,
            failed: false,
        }
    }

    /// Spells one more block.
    ///
    /// # Errors
    ///
    /// `Unspellable` if the blocks can't be spelled with this one, with the reason that `spellable_by`
    /// returns for them, whatever follows; the speller is then unchanged. `NoMemory` if a request for memory
    /// was refused, and from then on.
    pub fn push(&mut self, block: &Block) -> Result<(), SourceFault>
        // If it has spelled these blocks, it has then spelled them and the block.
        ensures stands { OnOk result ((rules : text_rules.Rules) (blocks : List trees.Block) →
            HasSpelled rules self.old blocks → HasSpelled rules self.new (blocks ++ block.now ∷ [])) }
        ensures told { IfErr result (λ fault. (rules : text_rules.Rules) (blocks : List trees.Block) →
            HasSpelled rules self.old blocks → Refuses fault rules blocks block.now) }
        ensures same { IfErr result (λ fault. fault ≢ faults.NoMemory → self.new ≡ self.old) }
        ensures memory { IfErr result (λ fault. fault ≡ faults.NoMemory → self.new.failed ≡ true) }
        ensures failed { self.old.failed ≡ true → result ≡ Err faults.NoMemory }
    {
        if self.failed {
            return Err(SourceFault::NoMemory);
        }
        check_block(self.rules, block, self.before)?;
        if let Err(NoMemory) = self.add(block) {
            self.failed = true;
            return Err(SourceFault::NoMemory);
        }
        Ok(())
    }

    /// Writes a block after those so far.
    fn add(&mut self, block: &Block) -> Result<(), NoMemory>
        ensures writes { OnOk result (Writes self.old.source self.new.source
            (gap (is_some self.old.before) ++ lines_of_block block.now)) }
        ensures before { OnOk result ((rules : text_rules.Rules) →
            seen self.new.before ≡ Some (judged_block rules block.now).face) }
        ensures rules { self.new.rules ≡ self.old.rules }
        ensures failed { self.new.failed ≡ self.old.failed }
    {
        spell_gap(&mut self.source, self.before.is_some())?;
        spell_block(&mut self.source, block)?;
        self.before = Some(face_of(block));
        Ok(())
    }

    /// The source of the blocks so far, which reads back as just these.
    ///
    /// # Errors
    ///
    /// `NoMemory` exactly if `push` has returned that.
    pub fn finish(self) -> Result<String, NoMemory>
        ensures spelled { IfOk result (λ source. (rules : text_rules.Rules) (blocks : List trees.Block) →
            HasSpelled rules self blocks →
            IsSpellable rules blocks × (string_bytes source ≡ spelling_of blocks)) }
        ensures reads_back { IfOk result (λ source. (rules : text_rules.Rules) (blocks : List trees.Block) →
            HasSpelled rules self blocks → tree_of rules (string_bytes source) ≡ blocks) }
        ensures failed { IsErr result ↔ (self.failed ≡ true) }
    {
        if self.failed {
            return Err(NoMemory);
        }
        Ok(self.source.text)
    }
}
