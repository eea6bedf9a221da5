//! The leaf block that is open: what one more line does to it, and how it closes (chapter 4).
//!
//! Its texts are fields of their own, so its kind owns nothing and is copied. The next leaf reuses the memory
//! of a closed one, so most leaves allocate nothing.
ghost use Rattle.std.specs.Prelude.{◌≡◌, ◌&&◌, []};
ghost use Rattle.cm_block.specs.Prelude.{seen_view, is_blank, ends_at_blank_line, kind_of};
ghost use Rattle.cm_block.specs.declared.leaf_kind.LeafKind.TheVariants.{Nothing};
ghost use Rattle.cm_block.specs.steps.LineTests.{Tested};

use crate::closed_leaf::{put_fenced, put_html, put_indented, put_run};
use crate::counted_line::{CountedLine, CountedLines};
use crate::leaf_kind::LeafKind;
use crate::leaf_text::LeafText;
use crate::owners::Owners;
use crate::stack::Stack;
use crate::text_runs::next_line;
use cm_scan::HtmlKind;
use cm_text::{NoMemory, Rules};
use std::alloc::{AllocError, Global};

/// The leaf block that is open. Its lines are counted by the line feeds of its texts. If no leaf is open, it
/// keeps the memory of its text and blank lines for the next one.
#[derive(Debug, Drop)]
pub(crate) struct OpenLeaf {
    pub(crate) kind: LeafKind,
    pub(crate) text: LeafText,
    /// Of indented code: the blank lines that wait for a further line of code, each with a line feed.
    pub(crate) blank_lines: LeafText,
    /// Of fenced code: its info string.
    pub(crate) info: String,
    ghost empty: { kind ≡ Nothing → text ≡ [] },
}

/// What ends the open leaf.
#[derive(Clone, Copy)]
pub(crate) enum Ending {
    /// No line besides its content.
    Plain,
    /// An underline, which makes a run a heading of this level.
    Underline(u8),
    /// A closing fence.
    ClosingFence,
}

/// What a line is to the open leaf.
#[derive(Clone, Copy)]
pub(crate) enum LeafLine {
    /// It is one of its lines, and the leaf stays open.
    Stays,
    /// It is its last line: an underline, a closing fence, or the end of HTML.
    Last(Ending),
    /// It doesn't belong to the leaf.
    Leaves,
}

/// Whether a blank line ends an HTML block of this kind (4.6 HTML blocks).
pub(crate) fn ends_at_blank_line(kind: HtmlKind) -> bool
    ensures { result ≡ ends_at_blank_line (kind_of kind) }
{
    matches!(kind, HtmlKind::BlockTag | HtmlKind::AnyTag)
}

/// Whether the line doesn't belong to an HTML block of this kind: it is blank and ends that.
fn leaves_html(kind: HtmlKind, line: &mut CountedLine<'_>) -> bool
    ensures leaves { result ≡ (ends_at_blank_line (kind_of kind) && is_blank (seen_view line.old.rest)) }
    ensures same { line.new.rest ≡ line.old.rest }
    ensures tests { Tested 0 1 line.old.tests line.new.tests }
{
    ends_at_blank_line(kind) && line.is_blank()
}

impl OpenLeaf {
    ghost use Rattle.std.specs.Prelude.{ℕ, ◌+◌, ◌≤◌, List, true, IfOk, OnOk};
    ghost use Rattle.cm_block.specs.Prelude.{plain_lines_of};
    ghost use Rattle.cm_block.specs.OpenLeaf.{no_leaf, open_text, blank_lines_after};
    ghost use Rattle.cm_block.specs.OpenLeaf.{is_open_text, line_of_leaf};
    ghost use Rattle.cm_block.specs.steps.TextRuns.{add_lines};
    ghost use Rattle.cm_block.specs.LeafViews.{leaf_of};
    ghost use Rattle.cm_block.specs.Stack.{close_leaves, own_leaves};
    ghost use Rattle.cm_block.specs.steps.LeafSteps.{taken_of, Left, leaves_with};
    ghost use Rattle.cm_block.specs.declared.open_leaf.LeafLine.TheVariants.{Leaves};

    /// No leaf. It takes no memory.
    pub(crate) fn new(alloc: Global) -> OpenLeaf
        ensures { leaf_of result ≡ no_leaf }
    {
        OpenLeaf {
            kind: LeafKind::Nothing,
            text: LeafText::new(alloc),
            blank_lines: LeafText::new(alloc),
            info: String::new(alloc),
        }
    }

    /// Whether a lazy continuation line can follow.
    pub(crate) fn is_run(&self) -> bool
        ensures { result ≡ is_open_text (leaf_of self.now) }
    {
        matches!(self.kind, LeafKind::Run)
    }

    /// Appends lines of text, which continue a run.
    #[inline(always)]
    pub(crate) fn add_lines(&mut self, lines: &mut CountedLines<'_>) -> Result<(), AllocError>
        requires run { is_open_text (leaf_of self.old) ≡ true }
        requires counted { lines.old.tests ≡ lines.old.lines.count }
        ensures text { OnOk result ((source : List ℕ) → leaf_of self.old ≡ open_text source →
            leaf_of self.new ≡ open_text (add_lines source (plain_lines_of lines.old.lines.text.now))) }
        ensures tests { OnOk result (lines.new.tests ≡ lines.old.tests + lines.old.lines.count) }
        ensures least { lines.old.tests ≤ lines.new.tests }
        ensures most { lines.new.tests ≤ lines.old.tests + lines.old.lines.count }
    {
        if let LeafKind::Run = self.kind {
            lines.add_text(&mut self.text)?;
        }
        Ok(())
    }

    /// The number of blank lines after the leaf, if no further line of it follows.
    #[inline(always)]
    pub(crate) fn blank_lines(&self) -> usize
        ensures { result ≡ blank_lines_after (leaf_of self.now) }
    {
        match self.kind {
            LeafKind::Code => self.blank_lines.feeds(),
            _ => 0,
        }
    }

    /// Appends one more line, if it belongs to the leaf. The last one leaves the leaf open.
    pub(crate) fn take_line(
        &mut self,
        rules: Rules,
        line: &mut CountedLine<'_>,
    ) -> Result<LeafLine, AllocError>
        ensures line { IfOk result (λ taken. taken_of taken self.new
            ≡ line_of_leaf rules (leaf_of self.old) (seen_view line.old.rest)) }
        ensures left { IfOk result (λ taken. Left taken self.old self.new) }
        ensures same { line.new.rest ≡ line.old.rest }
        ensures tests { Tested 0 4 line.old.tests line.new.tests }
        ensures leaves { IfOk result (λ taken. taken ≡ Leaves → line.new.tests ≤ line.old.tests + 3) }
        ensures lazy { IfOk result (λ taken. taken ≡ Leaves → line.old.rest.lazy ≡ true →
            line.new.tests ≤ line.old.tests + 1) }
    {
        match self.kind {
            LeafKind::Nothing => Ok(LeafLine::Leaves),
            LeafKind::Run => {
                let next = next_line(rules, self.text.as_str(), line);
                if let LeafLine::Stays = next {
                    line.add_text(&mut self.text)?;
                }
                Ok(next)
            }
            LeafKind::Code => {
                if line.add_code(&mut self.text, &mut self.blank_lines)? {
                    return Ok(LeafLine::Stays);
                }
                Ok(LeafLine::Leaves)
            }
            LeafKind::Fence { kind, columns } => {
                if line.closes_fence(kind) {
                    return Ok(LeafLine::Last(Ending::ClosingFence));
                }
                line.add_fenced(columns, &mut self.text)?;
                Ok(LeafLine::Stays)
            }
            LeafKind::Html { kind } => {
                if leaves_html(kind, line) {
                    return Ok(LeafLine::Leaves);
                }
                let ends = line.ends_html(kind);
                line.add_html(&mut self.text)?;
                if ends {
                    return Ok(LeafLine::Last(Ending::Plain));
                }
                Ok(LeafLine::Stays)
            }
        }
    }

    /// Adds the leaf, with this ending, to the innermost level, and its lines to the owners.
    #[inline(always)]
    fn put(
        &mut self,
        alloc: Global,
        ending: Ending,
        stack: &mut Stack,
        owners: &mut Owners,
        leaves: &mut usize,
    ) -> Result<(), NoMemory>
        requires counted { leaves.old ≡ owners.old.leaves }
        ensures level { OnOk result (stack.new.level
            ≡ close_leaves stack.old.level (leaves_with ending self.old)) }
        ensures frames { stack.new.frames ≡ stack.old.frames }
        ensures bare { stack.new.bare ≡ stack.old.bare }
        ensures owners { OnOk result (owners.new
            ≡ own_leaves owners.old (leaves_with ending self.old)) }
        ensures counted { leaves.new ≡ owners.new.leaves }
    {
        match self.kind {
            LeafKind::Nothing => Ok(()),
            LeafKind::Run => put_run(alloc, &self.text, ending, stack, owners, leaves),
            LeafKind::Code => put_indented(&mut self.text, stack, owners, leaves),
            LeafKind::Fence { .. } => put_fenced(
                &self.info, &self.text, ending, stack, owners, leaves,
            ),
            LeafKind::Html { .. } => put_html(&mut self.text, stack, owners, leaves),
        }
    }

    /// Closes the leaf with this ending: adds it to the innermost level, and its lines to the owners. Its
    /// memory is kept for the next one.
    #[inline(always)]
    pub(crate) fn close(
        &mut self,
        alloc: Global,
        ending: Ending,
        stack: &mut Stack,
        owners: &mut Owners,
        leaves: &mut usize,
    ) -> Result<(), NoMemory>
        requires counted { leaves.old ≡ owners.old.leaves }
        ensures level { OnOk result (stack.new.level
            ≡ close_leaves stack.old.level (leaves_with ending self.old)) }
        ensures frames { stack.new.frames ≡ stack.old.frames }
        ensures bare { stack.new.bare ≡ stack.old.bare }
        ensures owners { OnOk result (owners.new
            ≡ own_leaves owners.old (leaves_with ending self.old)) }
        ensures leaf { OnOk result (leaf_of self.new ≡ no_leaf) }
        ensures counted { leaves.new ≡ owners.new.leaves }
    {
        self.put(alloc, ending, stack, owners, leaves)?;
        self.text.clear();
        self.kind = LeafKind::Nothing;
        Ok(())
    }
}
