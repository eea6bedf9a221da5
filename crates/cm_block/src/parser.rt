//! The block structure of a document, line by line.
//!
//! Where a paragraph is open, or nothing is, one call takes several lines of text. A line that is marked lazy
//! while no container is open starts nothing but text: it continues or starts a paragraph, is no underline
//! and interrupts nothing. The mark changes nothing for code blocks, HTML blocks and blank lines.
//!
//! Contracts see a `BlockParser` by its fields (`stack_of`). Its stack holds data inside itself, and the
//! checker could only distinguish values of such a type with hand-written code.
ghost use Rattle.std.specs.Prelude.{◌≡◌};

use crate::containers::Innermost;
use crate::counted_line::{CountedLine, CountedLines, LeafStart};
use crate::fault::BlockFault;
use crate::leaf_kind::LeafKind;
use crate::open_leaf::{Ending, LeafLine, OpenLeaf};
use crate::owner_runs::LineOwners;
use crate::owners::Owners;
use crate::stack::Stack;
use cm_text::{Limits, Line, NoMemory, TextLines, View};
use cm_tree::{Definitions, RawTree};
use std::alloc::Global;

/// The block structure of a document: its tree, in which the source of a paragraph or heading is one text,
/// the owner of each line, and its link reference definitions; and how often its lines were read.
#[derive(Debug, Drop)]
pub struct Outline {
    pub blocks: RawTree,
    pub owners: LineOwners,
    pub definitions: Definitions,
    /// How often lines were read: to see whether one stays in an open block, ends it, or starts another, or
    /// to copy its text. At least once for each quote and item. For each line at most the limit of blocks
    /// plus five times.
    pub tests: u128,
}

/// Reads the block structure of a document from its lines, with the rules of its limits (CommonMark 0.31.2,
/// chapters 3 to 5).
///
/// Pass each line once to `line` or `line_view`, then call `finish` for the outline. What is open is kept,
/// and no line is. After a fault, each further call returns that fault.
#[derive(Debug, Drop)]
pub struct BlockParser {
    alloc: Global,
    limits: Limits,
    stack: Stack,
    leaf: OpenLeaf,
    owners: Owners,
    leaves: usize,
    tests: u128,
    fault: Option<BlockFault>,
    ghost counted: { leaves ≡ owners.leaves },
}

impl BlockParser {
    ghost use Rattle.std.specs.Prelude.{◌≡◌, ◌≢◌, ◌+◌, ◌-◌, ◌*◌, ◌<◌, ◌≤◌, ◌∷◌, ◌++◌, []};
    ghost use Rattle.std.specs.Prelude.{ℕ, List, None, true, false, length, suc, Some, Err};
    ghost use Rattle.std.specs.Prelude.{IfOk, IfErr, OnOk};
    ghost use Rattle.cm_block.specs.Prelude.{answer_after, LineView, plain_lines_of, seen_line, seen_view};
    ghost use Rattle.cm_block.specs.declared.fault.BlockFault as faults;
    ghost use Rattle.cm_block.specs.declared.fault.BlockFault.TheVariants as block_faults;
    ghost use Rattle.cm_block.specs.OpenLeaf.{no_leaf, open_text, is_open_text};
    ghost use Rattle.cm_block.specs.Machine.{in_leaf};
    ghost use Rattle.cm_block.specs.Level.{closed_blocks};
    ghost use Rattle.cm_block.specs.Stack.{close_open, own_open, push_line};
    ghost use Rattle.cm_block.specs.steps.FrameSteps.{close_frames, closed_to, quoted_by};
    ghost use Rattle.cm_block.specs.LeafViews.{leaf_of};
    ghost use Rattle.cm_block.specs.steps.StartViews.{seen};
    ghost use Rattle.cm_block.specs.steps.FirstLines.{begins_container};
    ghost use Rattle.cm_block.specs.steps.FrameStarts.{begun_by, with_blank, LeafBegins, DeepIn};
    ghost use Rattle.cm_block.specs.Parser.{stack_of, has_nothing_open, takes_text};
    ghost use Rattle.cm_block.specs.Parser.{HasTaken, TellsDepth, OutlineOf, TestsOf};
    ghost use Rattle.cm_block.specs.Tests.{count_of, AllTested};
    ghost use Rattle.cm_block.specs.steps.LineTests.{Tested};
    ghost use Rattle.cm_block.specs.steps.ParserSteps.{Deep, ends_at_blank, with_run, TakenToLeaf};
    ghost use Rattle.cm_block.specs.steps.TextRuns.{add_lines};

    /// The limits that it was made with.
    pub fn limits(&self) -> Limits
        ensures { result ≡ self.now.limits }
    {
        let BlockParser { limits, .. } = self;
        *limits
    }

    /// A parser of no lines so far. It takes no memory.
    pub fn new(alloc: Global, limits: Limits) -> BlockParser
        ensures limits { result.limits ≡ limits }
        ensures stands { HasTaken result [] }
    {
        BlockParser {
            alloc,
            limits,
            stack: Stack::new(alloc),
            leaf: OpenLeaf::new(alloc),
            owners: Owners::new(alloc),
            leaves: 0,
            tests: 0,
            fault: None,
        }
    }

    /// Closes the open leaf.
    #[inline(always)]
    fn close_leaf(&mut self) -> Result<(), NoMemory>
        ensures level { OnOk result (self.new.stack.level
            ≡ close_open self.old.stack.level (in_leaf (leaf_of self.old.leaf))) }
        ensures owners { OnOk result (self.new.owners
            ≡ own_open (quoted_by false self.old.stack.frames) self.old.owners
            (in_leaf (leaf_of self.old.leaf))) }
        ensures leaf { OnOk result (leaf_of self.new.leaf ≡ no_leaf) }
        ensures frames { self.new.stack.frames ≡ self.old.stack.frames }
        ensures bare { self.new.stack.bare ≡ self.old.stack.bare }
        ensures tests { self.new.tests ≡ self.old.tests }
        ensures limits { self.new.limits ≡ self.old.limits }
        ensures fault { self.new.fault ≡ self.old.fault }
    {
        if let LeafKind::Nothing = self.leaf.kind {
            return Ok(());
        }
        let blank_lines = self.leaf.blank_lines();
        self.leaf.close(
            self.alloc,
            Ending::Plain,
            &mut self.stack,
            &mut self.owners,
            &mut self.leaves,
        )?;
        if blank_lines > 0 {
            self.stack.push_blank();
            self.owners
                .blank_lines(self.stack.is_quoted(), blank_lines)?;
        }
        Ok(())
    }

    /// Adds a blank line to the innermost container.
    #[inline(always)]
    fn push_blank(&mut self) -> Result<(), NoMemory>
        requires { leaf_of self.old.leaf ≡ no_leaf }
        ensures pushed { OnOk result (stack_of self.new ≡ with_blank self.old.stack self.old.owners) }
        ensures frames { self.new.stack.frames ≡ self.old.stack.frames }
        ensures limits { self.new.limits ≡ self.old.limits }
        ensures counted { self.new.tests ≡ self.old.tests }
        ensures fault { self.new.fault ≡ self.old.fault }
    {
        let marked = self.stack.is_bare() || self.stack.is_quoted();
        if !self.stack.is_bare() {
            self.stack.push_blank();
        }
        self.owners.blank_line(marked)?;
        Ok(())
    }

    /// Opens a leaf block in the innermost container with its first line.
    fn open_leaf<'a>(
        &mut self,
        start: &LeafStart<'a>,
        line: &mut CountedLine<'a>,
    ) -> Result<(), NoMemory>
        requires plain { self.old.stack.bare ≡ false }
        requires leaf { leaf_of self.old.leaf ≡ no_leaf }
        requires start { begins_container (seen start.now.found) ≡ false }
        ensures pushed { OnOk result (LeafBegins self.old.limits.rules start.now.found
            (seen_view line.old.rest) self.old.stack self.old.owners (stack_of self.new)) }
        ensures tests { OnOk result (Tested 0 1 line.old.tests line.new.tests) }
        ensures frames { self.new.stack.frames ≡ self.old.stack.frames }
        ensures limits { self.new.limits ≡ self.old.limits }
        ensures counted { self.new.tests ≡ self.old.tests }
        ensures fault { self.new.fault ≡ self.old.fault }
    {
        self.stack.open_block()?;
        if line.put_whole(start, &mut self.stack, &mut self.owners, &mut self.leaves)? {
            return Ok(());
        }
        let rules = self.limits.rules();
        match line.begin_leaf(self.alloc, rules, &mut self.leaf, start)? {
            LeafLine::Stays | LeafLine::Leaves => Ok(()),
            LeafLine::Last(ending) => {
                self.leaf.close(
                    self.alloc,
                    ending,
                    &mut self.stack,
                    &mut self.owners,
                    &mut self.leaves,
                )
            }
        }
    }

    /// Closes all containers but the first `depth`, in which the line stays, and opens what it starts there.
    /// No leaf is open.
    fn begin(&mut self, depth: usize, line: &mut CountedLine<'_>) -> Result<(), BlockFault>
        requires plain { self.old.stack.bare ≡ false }
        requires within { depth ≤ length self.old.stack.frames }
        requires leaf { leaf_of self.old.leaf ≡ no_leaf }
        ensures pushed { OnOk result (stack_of self.new
            ≡ begun_by self.old.limits.rules (closed_to depth self.old.stack)
            (seen_view line.old.rest) self.old.owners) }
        ensures few { OnOk result (length self.new.stack.frames ≤ self.old.limits.blocks) }
        ensures deeper { OnOk result (depth ≤ length self.new.stack.frames) }
        ensures tests { OnOk result (Tested (length self.new.stack.frames - depth)
            (length self.new.stack.frames - depth + 2) line.old.tests line.new.tests) }
        ensures deep { IfErr result (λ fault. DeepIn fault self.old.limits.blocks
            (begun_by self.old.limits.rules (closed_to depth self.old.stack)
            (seen_view line.old.rest) self.old.owners) self.old.owners) }
        ensures limits { self.new.limits ≡ self.old.limits }
        ensures counted { self.new.tests ≡ self.old.tests }
        ensures fault { self.new.fault ≡ self.old.fault }
    {
        let innermost = self.stack.open_containers(
            self.alloc,
            self.limits.rules(),
            self.limits.blocks(),
            depth,
            line,
        )?;
        match innermost {
            Innermost::TooDeep => Err(BlockFault::BlocksTooDeep {
                line: self.owners.next_line(),
            }),
            Innermost::Blank => Ok(self.push_blank()?),
            Innermost::Leaf(start) => Ok(self.open_leaf(&start, line)?),
        }
    }

    /// Adds a line that stays in `depth` of the open containers to the open leaf, if it belongs to it.
    /// Returns whether it does.
    fn take_to_leaf(&mut self, depth: usize, line: &mut CountedLine<'_>) -> Result<bool, NoMemory>
        requires plain { self.old.stack.bare ≡ false }
        ensures taken { IfOk result (λ taken.
            TakenToLeaf taken depth self.old (seen_view line.old.rest) self.new) }
        ensures same { line.new.rest ≡ line.old.rest }
        ensures tests { Tested 0 4 line.old.tests line.new.tests }
        ensures leaves { IfOk result (λ taken. taken ≡ false → line.new.tests ≤ line.old.tests + 3) }
        ensures lazy { IfOk result (λ taken. taken ≡ false → line.old.rest.lazy ≡ true →
            line.new.tests ≤ line.old.tests + 1) }
        ensures unread { depth < length self.old.stack.frames → line.new.tests ≡ line.old.tests }
        ensures frames { self.new.stack.frames ≡ self.old.stack.frames }
        ensures limits { self.new.limits ≡ self.old.limits }
        ensures counted { self.new.tests ≡ self.old.tests }
        ensures fault { self.new.fault ≡ self.old.fault }
    {
        if depth < self.stack.depth() {
            return Ok(false);
        }
        match self.leaf.take_line(self.limits.rules(), line)? {
            LeafLine::Stays => {}
            LeafLine::Last(ending) => {
                self.leaf.close(
                    self.alloc,
                    ending,
                    &mut self.stack,
                    &mut self.owners,
                    &mut self.leaves,
                )?;
            }
            LeafLine::Leaves => return Ok(false),
        }
        Ok(true)
    }

    /// Whether an empty line stays in each open container, and belongs to no open leaf.
    #[inline(always)]
    fn stays_at_empty_line(&self) -> bool
        ensures quote { result ≡ true → quoted_by false self.now.stack.frames ≡ false }
        ensures bare { result ≡ true → self.now.stack.bare ≡ false }
        ensures leaf { result ≡ true → ends_at_blank (leaf_of self.now.leaf) ≡ true }
    {
        !self.stack.is_quoted()
            && !self.stack.is_bare()
            && matches!(self.leaf.kind, LeafKind::Nothing | LeafKind::Run)
    }

    /// Reads one more line.
    #[inline(always)]
    fn accept(&mut self, line: &mut CountedLine<'_>) -> Result<(), BlockFault>
        ensures pushed { OnOk result (stack_of self.new
            ≡ push_line self.old.limits.rules (stack_of self.old) (seen_view line.old.rest)) }
        ensures few { OnOk result (length self.old.stack.frames ≤ self.old.limits.blocks
            → length self.new.stack.frames ≤ self.old.limits.blocks) }
        ensures tests { OnOk result (length self.old.stack.frames ≤ self.old.limits.blocks →
            Tested (count_of (stack_of self.new) - count_of (stack_of self.old))
            (self.old.limits.blocks + 5) line.old.tests line.new.tests) }
        ensures deep { IfErr result (λ fault.
            Deep fault self.old.limits (stack_of self.old) (seen_view line.old.rest)) }
        ensures limits { self.new.limits ≡ self.old.limits }
        ensures counted { self.new.tests ≡ self.old.tests }
        ensures fault { self.new.fault ≡ self.old.fault }
    {
        if line.is_empty() && self.stays_at_empty_line() {
            self.close_leaf()?;
            return Ok(self.push_blank()?);
        }
        let depth = self
            .stack
            .matching(self.limits.rules(), line, self.leaf.is_run());
        self.stack.set_bare(false);
        if self.take_to_leaf(depth, line)? {
            return Ok(());
        }
        self.close_leaf()?;
        self.begin(depth, line)
    }

    /// Reads one more line. It isn't kept.
    ///
    /// # Errors
    ///
    /// `BlocksTooDeep` on the first line inside more quotes and items than the limit, `NoMemory` if a request
    /// for memory was refused; the same fault from then on.
    pub fn line(&mut self, line: &Line) -> Result<(), BlockFault>
        ensures stands { OnOk result ((lines : List LineView) → HasTaken self.old lines
            → HasTaken self.new (lines ++ seen_line line.now ∷ [])) }
        ensures told { IfErr result (λ fault. (lines : List LineView) → HasTaken self.old lines
            → TellsDepth fault self.old.limits (lines ++ seen_line line.now ∷ [])) }
        ensures answer { result ≡ answer_after self.new.fault }
        ensures failed { self.old.fault ≢ None → self.new ≡ self.old }
        ensures limits { self.new.limits ≡ self.old.limits }
    {
        self.line_view(&line.view())
    }

    /// Reads one more line through a view. It is neither copied nor kept.
    ///
    /// # Errors
    ///
    /// `BlocksTooDeep` on the first line inside more quotes and items than the limit, `NoMemory` if a request
    /// for memory was refused; the same fault from then on.
    #[inline(always)]
    pub fn line_view(&mut self, line: &View<'_>) -> Result<(), BlockFault>
        ensures stands { OnOk result ((lines : List LineView) → HasTaken self.old lines
            → HasTaken self.new (lines ++ seen_view line.now ∷ [])) }
        ensures told { IfErr result (λ fault. (lines : List LineView) → HasTaken self.old lines
            → TellsDepth fault self.old.limits (lines ++ seen_view line.now ∷ [])) }
        ensures answer { result ≡ answer_after self.new.fault }
        ensures failed { self.old.fault ≢ None → self.new ≡ self.old }
        ensures limits { self.new.limits ≡ self.old.limits }
    {
        if let Some(fault) = self.fault {
            return Err(fault);
        }
        // The range of the limit, which bounds how often the line is read.
        let _limit = self.limits.blocks();
        let mut line = CountedLine::new(*line);
        let result = self.accept(&mut line);
        self.tests = self.tests.saturating_add(u128::from(line.into_tests()));
        if let Err(fault) = result {
            self.fault = Some(fault);
        }
        result
    }

    /// Whether no container and no leaf is open.
    #[inline(always)]
    fn has_nothing_open(&self) -> bool
        ensures { result ≡ has_nothing_open self.now }
    {
        self.stack.depth() == 0 && matches!(self.leaf.kind, LeafKind::Nothing)
    }

    /// Whether `text_lines` reads lines of text, the first after this number of spaces: they continue an open
    /// run of text, whatever encloses it, or start one where nothing is open, unless they are indented code.
    #[inline(always)]
    pub fn takes_text(&self, spaces: usize) -> bool
        ensures { result ≡ takes_text self.now spaces }
    {
        self.fault.is_none() && (self.leaf.is_run() || spaces < 4 && self.has_nothing_open())
    }

    /// Opens a run of text, unless a leaf is open.
    #[inline(always)]
    fn open_run(&mut self) -> Result<(), NoMemory>
        ensures run { OnOk result ((self.new.stack.level, leaf_of self.new.leaf)
            ≡ with_run self.old.stack.level (leaf_of self.old.leaf)) }
        ensures bare { OnOk result (self.new.stack.bare ≡ false) }
        ensures frames { self.new.stack.frames ≡ self.old.stack.frames }
        ensures owners { self.new.owners ≡ self.old.owners }
        ensures limits { self.new.limits ≡ self.old.limits }
        ensures counted { self.new.tests ≡ self.old.tests }
        ensures fault { self.new.fault ≡ self.old.fault }
    {
        self.stack.set_bare(false);
        if let LeafKind::Nothing = self.leaf.kind {
            self.stack.open_block()?;
            self.leaf.kind = LeafKind::Run;
        }
        Ok(())
    }

    /// Adds lines of text to the open run, or to one that they start.
    #[inline(always)]
    fn add_text(&mut self, lines: &mut CountedLines<'_>) -> Result<(), NoMemory>
        requires run { is_open_text (with_run self.old.stack.level (leaf_of self.old.leaf)).1 ≡ true }
        requires counted { lines.old.tests ≡ lines.old.lines.count }
        ensures level { OnOk result (self.new.stack.level
            ≡ (with_run self.old.stack.level (leaf_of self.old.leaf)).0) }
        ensures text { OnOk result ((source : List ℕ)
            → (with_run self.old.stack.level (leaf_of self.old.leaf)).1 ≡ open_text source
            → leaf_of self.new.leaf
            ≡ open_text (add_lines source (plain_lines_of lines.old.lines.text.now))) }
        ensures bare { OnOk result (self.new.stack.bare ≡ false) }
        ensures frames { self.new.stack.frames ≡ self.old.stack.frames }
        ensures owners { self.new.owners ≡ self.old.owners }
        ensures limits { self.new.limits ≡ self.old.limits }
        ensures counted { self.new.tests ≡ self.old.tests }
        ensures fault { self.new.fault ≡ self.old.fault }
        ensures tests { OnOk result (lines.new.tests ≡ lines.old.tests + lines.old.lines.count) }
        ensures least { lines.old.tests ≤ lines.new.tests }
        ensures most { lines.new.tests ≤ lines.old.tests + lines.old.lines.count }
    {
        self.open_run()?;
        self.leaf.add_lines(lines)?;
        Ok(())
    }

    /// Reads lines of text, as `line_view` reads one after another. They aren't kept.
    ///
    /// # Errors
    ///
    /// `NoMemory` if a request for memory was refused; the same fault from then on.
    #[inline(always)]
    pub fn text_lines(&mut self, more: &TextLines<'_>) -> Result<(), BlockFault>
        requires { takes_text self.old more.now.spaces ≡ true }
        ensures stands { OnOk result ((lines : List LineView) → HasTaken self.old lines →
            HasTaken self.new (lines ++ plain_lines_of more.now.text.now)) }
        ensures memory { IfErr result (λ fault. fault ≡ block_faults.NoMemory) }
        ensures answer { result ≡ answer_after self.new.fault }
        ensures limits { self.new.limits ≡ self.old.limits }
        ensures tests { AllTested more.now.count (2 * more.now.count) self.old.tests self.new.tests }
    {
        // The range of the limit, which bounds how often a line is read.
        let _limit = self.limits.blocks();
        let mut lines = CountedLines::new(*more);
        let result = self.add_text(&mut lines);
        self.tests = self.tests.saturating_add(lines.into_tests());
        if let Err(refused) = result {
            let fault = BlockFault::from(refused);
            self.fault = Some(fault);
            return Err(fault);
        }
        Ok(())
    }

    /// Closes all that is open, unless a fault was met.
    fn close(&mut self) -> Result<(), BlockFault>
        ensures level { OnOk result (self.new.stack.level ≡ close_frames self.old.stack.frames
            (close_open self.old.stack.level (in_leaf (leaf_of self.old.leaf)))) }
        ensures owners { OnOk result (self.new.owners
            ≡ own_open (quoted_by false self.old.stack.frames) self.old.owners
            (in_leaf (leaf_of self.old.leaf))) }
        ensures frames { OnOk result (self.new.stack.frames ≡ []) }
        ensures tests { self.new.tests ≡ self.old.tests }
        ensures limits { self.new.limits ≡ self.old.limits }
        ensures failed { (fault : faults.BlockFault) → self.old.fault ≡ Some fault → result ≡ Err fault }
        ensures memory { self.old.fault ≡ None → IfErr result (λ fault. fault ≡ block_faults.NoMemory) }
    {
        if let Some(met) = self.fault {
            return Err(met);
        }
        self.close_leaf()?;
        Ok(self.stack.close_to(0)?)
    }

    /// The outline, if all is closed.
    fn into_outline(self) -> Result<Outline, NoMemory>
        requires { self.stack.frames ≡ [] }
        ensures blocks { IfOk result (λ outline. outline.blocks ≡ closed_blocks self.stack.level) }
        ensures owners { IfOk result (λ outline. outline.owners ≡ self.owners.owners) }
        ensures definitions { IfOk result (λ outline. outline.definitions ≡ self.owners.table) }
        ensures tests { IfOk result (λ outline. outline.tests ≡ self.tests) }
    {
        // These are all its fields: no line is kept.
        let BlockParser {
            alloc: _,
            limits: _,
            stack,
            leaf: _,
            owners,
            leaves,
            tests,
            fault: _,
        } = self;
        let (owners, definitions) = owners.into_parts(leaves);
        Ok(Outline {
            blocks: stack.into_tree()?,
            owners,
            definitions,
            tests,
        })
    }

    /// The outline of the lines so far.
    ///
    /// # Errors
    ///
    /// The fault that a line met, or `NoMemory` if a request for memory was refused.
    pub fn finish(mut self) -> Result<Outline, BlockFault>
        ensures outline { IfOk result (λ outline. (lines : List LineView) → HasTaken self lines
            → OutlineOf outline self.limits.rules lines) }
        ensures tests { IfOk result (λ outline. (lines : List LineView) → HasTaken self lines →
            TestsOf outline self.limits.blocks lines) }
        ensures failed { (fault : faults.BlockFault) → self.fault ≡ Some fault → result ≡ Err fault }
        ensures memory { self.fault ≡ None → IfErr result (λ fault. fault ≡ block_faults.NoMemory) }
    {
        self.close()?;
        // This number of lines, within this number of containers, is read less often than can be counted.
        let _bounds = (self.owners.len(), self.limits.blocks());
        Ok(self.into_outline()?)
    }
}
