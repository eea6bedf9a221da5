//! A document that is read in pieces.
//!
//! A long piece is read in slices of 8 KiB, so that what the parser holds doesn't grow with the piece.
ghost use Rattle.std.specs.Prelude.{◌≡◌, ◌≢◌, ◌+◌, ◌-◌, ◌≤◌, [], ◌++◌};
ghost use Rattle.std.specs.Prelude.{ℕ, List, length, IfOk, IfErr, OnOk, Some, None, Err, false, ⊤};
ghost use Rattle.cm_text.specs.Answers.{answer_after};
ghost use Rattle.cm_text.specs.Limits.{LimitsView};
ghost use Rattle.cm_text.specs.Lines.{LineView};
ghost use Rattle.cm_text.specs.Feed.{StandsFor as FeedStandsFor, with_ready, count};
ghost use Rattle.cm_scan.specs.laws.PartLaws.{AreLines};
ghost use Rattle.cm_block.specs.Parser.{HasTaken, TellsDepth};
ghost use Rattle.cm_block.specs.declared.fault.BlockFault.TheVariants as block_faults;
ghost use Rattle.cm_tool.specs.declared.fault.Fault as faults;
ghost use Rattle.cm_tool.specs.Faults.{fault_of, settled_fault_of};
ghost use Rattle.cm_tool.specs.Parsing.{Goes, HasTakenIn, Answers, TellsFault};
ghost use Rattle.cm_tool.specs.steps.ReadingSteps.{IsOutline};
ghost use Rattle.cm_tool.specs.steps.Handing.{Hands};
ghost use Rattle.cm_tool.specs.steps.Pushing.{Pushes, Counts};

use crate::fault::Fault;
use crate::reading::taking_in::TakesBytes;
use cm_block::{BlockFault, BlockParser, Outline};
use cm_text::{Limits, LineBuffer, TextFault};
use std::alloc::Global;
use std::marker::Model;

/// The number of bytes that are read at once.
pub(crate) const SLICE: usize = 8192;

/// Reads a document in pieces. Each line is read once, as soon as it has ended.
///
/// Pass the bytes to `feed`, in pieces of any length, then call `finish`. After a fault, each further call
/// returns that fault.
#[derive(Debug, Drop)]
pub struct Parser {
    pub(crate) alloc: Global,
    feed: LineBuffer,
    blocks: BlockParser,
    fault: Option<Fault>,
}

impl Model for Parser {
    ghost use Rattle.std.specs.Prelude.{◌≡◌, false};
    ghost use Rattle.cm_tool.specs.Parsing.{ParserView};
    ghost use Rattle.cm_tree.specs.contracts.tree.Block as block;
    ghost use Rattle.cm_block.specs.OwnedCode.{owned_code};
    ghost use Rattle.std.specs.Coded.{codes};

    ghost Value = { ParserView };

    ghost coded = { Prim.hlevel (codes, block.the_row.coded, owned_code) };

    ghost view = { λ p. record { feed = p.feed; blocks = p.blocks; fault = p.fault } };

    ghost invariant = { λ p. p.feed.ended ≡ false };
}

impl Parser {
    /// A parser of no bytes so far. It takes no memory.
    pub fn new(alloc: Global, limits: Limits) -> Parser
        ensures { HasTakenIn limits result [] }
    {
        Parser {
            alloc,
            feed: LineBuffer::new(alloc, limits),
            blocks: BlockParser::new(alloc, limits),
            fault: None,
        }
    }

    /// Reads one more piece, which may be empty and may end anywhere. A long piece needs no more memory for
    /// its lines than a short one.
    ///
    /// A fault is returned as soon as the bytes settle it, however they continue.
    pub fn feed(&mut self, piece: &[u8]) -> Result<(), Fault>
        // If it has read these bytes, it has then read them and the piece.
        ensures stands { OnOk result ((limits : LimitsView) (bytes : List ℕ)
            → HasTakenIn limits self.old bytes → HasTakenIn limits self.new (bytes ++ piece.now)) }
        // A fault is returned exactly where the bytes settle it.
        ensures settled { (limits : LimitsView) (bytes : List ℕ)
            → HasTakenIn limits self.old bytes
            → Answers result (settled_fault_of limits (bytes ++ piece.now)) }
        // From then on it is returned again.
        ensures answer { result ≡ answer_after self.new.fault }
        ensures failed { self.old.fault ≢ None → self.new ≡ self.old }
        ensures limit { self.new.feed.limit ≡ self.old.feed.limit }
        ensures count { OnOk result (count self.new.feed ≡ count self.old.feed + length piece.now) }
        ensures within { OnOk result (count self.new.feed ≤ self.new.feed.limit) }
    {
        if let Some(fault) = self.fault {
            return Err(fault);
        }
        let result = push(&mut self.feed, &mut self.blocks, piece);
        if let Err(fault) = result {
            self.fault = Some(fault);
        }
        result
    }

    /// The limits of its text.
    pub(crate) fn limits(&self) -> Limits
        ensures { result ≡ self.now.blocks.limits }
    {
        self.blocks.limits()
    }

    /// The outline of the document of the bytes so far.
    pub(crate) fn outline(self) -> Result<Outline, Fault>
        ensures outline { IfOk result (λ outline. (limits : LimitsView) (bytes : List ℕ)
            → HasTakenIn limits self bytes → IsOutline limits bytes outline) }
        ensures told { IfErr result (λ fault. (limits : LimitsView) (bytes : List ℕ)
            → HasTakenIn limits self bytes → TellsFault fault (fault_of limits bytes)) }
        ensures failed { (fault : faults.Fault) → self.fault ≡ Some fault → result ≡ Err fault }
    {
        let Parser {
            feed,
            blocks,
            fault,
            ..
        } = self;
        match fault {
            Some(fault) => Err(fault),
            None => end_outline(feed, blocks),
        }
    }
}

impl TakesBytes for Parser {
    ghost has_taken_in = { λ limits parser bytes. HasTakenIn limits parser bytes };

    ghost was_given = { λ _ _. ⊤ };

    ghost settled = { settled_fault_of };

    ghost left = { λ parser. parser.feed.limit - count parser.feed };

    fn take(&mut self, piece: &[u8]) -> Result<(), Fault> {
        self.feed(piece)
    }
}

/// Reads one more piece, slice by slice, up to a fault.
fn push(feed: &mut LineBuffer, blocks: &mut BlockParser, piece: &[u8]) -> Result<(), Fault>
    requires { feed.old.ended ≡ false }
    ensures pushes { Pushes result piece.now feed.old blocks.old feed.new blocks.new }
    ensures counts { Counts result piece.now feed.old feed.new }
{
    let mut rest = piece;
    while let Some((slice, beyond)) = rest.split_at_checked(SLICE) {
        push_slice(feed, blocks, slice)?;
        rest = beyond;
    }
    push_slice(feed, blocks, rest)
}

/// Reads one more slice of a piece, up to a fault. The lines that end before a fault of the text are read
/// first, because one that is too deep takes precedence.
fn push_slice(feed: &mut LineBuffer, blocks: &mut BlockParser, piece: &[u8]) -> Result<(), Fault>
    requires { feed.old.ended ≡ false }
    ensures pushes { Pushes result piece.now feed.old blocks.old feed.new blocks.new }
    ensures counts { Counts result piece.now feed.old feed.new }
{
    let pushed = feed.push(piece);
    if pushed == Err(TextFault::NoMemory) {
        return Err(Fault::NoMemory);
    }
    hand_over(feed, blocks)?;
    pushed?;
    Ok(())
}

/// Ends the text, and returns its outline.
fn end_outline(mut feed: LineBuffer, mut blocks: BlockParser) -> Result<Outline, Fault>
    requires { feed.ended ≡ false }
    ensures outline { IfOk result (λ outline. (limits : LimitsView) (bytes : List ℕ)
        → Goes limits feed blocks bytes → IsOutline limits bytes outline) }
    ensures told { IfErr result (λ fault. (limits : LimitsView) (bytes : List ℕ)
        → Goes limits feed blocks bytes → TellsFault fault (fault_of limits bytes)) }
{
    feed.end()?;
    hand_over(&mut feed, &mut blocks)?;
    let outline = blocks.finish()?;
    Ok(outline)
}

/// Lends the lines of text at the start to the blocks, if they continue a run of text there or start one.
#[inline(always)]
fn hand_over_text(feed: &mut LineBuffer, blocks: &mut BlockParser) -> Result<(), BlockFault>
    ensures ended { feed.new.ended ≡ feed.old.ended }
    ensures limit { feed.new.limit ≡ feed.old.limit }
    ensures limits { blocks.new.limits ≡ blocks.old.limits }
    ensures handed { OnOk result (Hands feed.old blocks.old feed.new blocks.new) }
    ensures memory { IfErr result (λ fault. fault ≡ block_faults.NoMemory) }
{
    if !blocks.takes_text(0) {
        return Ok(());
    }
    feed.look_for_text();
    let Some(lines) = feed.text_lines() else {
        return Ok(());
    };
    if !blocks.takes_text(lines.spaces) {
        return Ok(());
    }
    let count = lines.count;
    blocks.text_lines(&lines)?;
    feed.pass_lines(count);
    Ok(())
}

/// Lends the lines that have ended to the blocks, one after another. Lines of text are lent together, where
/// they continue a run or start one.
fn hand_over(feed: &mut LineBuffer, blocks: &mut BlockParser) -> Result<(), BlockFault>
    ensures ready { OnOk result (feed.new ≡ with_ready [] feed.old) }
    ensures ended { feed.new.ended ≡ feed.old.ended }
    ensures limit { feed.new.limit ≡ feed.old.limit }
    ensures limits { blocks.new.limits ≡ blocks.old.limits }
    ensures stands { OnOk result ((bytes : List ℕ) (taken : ℕ) → FeedStandsFor feed.old bytes taken
        → FeedStandsFor feed.new bytes (taken + length feed.old.cut.ended)) }
    ensures handed { OnOk result ((lines : List LineView) → HasTaken blocks.old lines
        → HasTaken blocks.new (lines ++ feed.old.cut.ended)) }
    ensures told { IfErr result (λ fault. (lines : List LineView) → HasTaken blocks.old lines
        → AreLines (lines ++ feed.old.cut.ended)
        → TellsDepth fault blocks.old.limits (lines ++ feed.old.cut.ended)) }
{
    loop {
        hand_over_text(feed, blocks)?;
        let Some(line) = feed.first_line() else {
            return Ok(());
        };
        blocks.line_view(&line)?;
        feed.pass_line();
    }
}
