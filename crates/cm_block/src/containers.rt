//! The quotes and items that a line starts.
ghost use Rattle.std.specs.Prelude.{◌≡◌, ◌-◌, ◌≤◌, false, suc, length, IfOk, OnOk};
ghost use Rattle.cm_block.specs.Prelude.{seen_view};
ghost use Rattle.cm_block.specs.steps.LineTests.{Tested};
ghost use Rattle.cm_block.specs.steps.FrameSteps.{closed_to};
ghost use Rattle.cm_block.specs.steps.FrameStarts.{Inside};

use crate::counted_line::{CountedLine, LeafStart};
use crate::line_tests::Begins;
use crate::stack::Stack;
use cm_text::Rules;
use std::alloc::{AllocError, Global};

/// What the innermost of the quotes and items that a line starts contains.
#[derive(Clone, Copy)]
pub(crate) enum Innermost<'a> {
    /// Unknown, because there is one quote or item too many.
    TooDeep,
    /// A blank line.
    Blank,
    /// The first line of a leaf block, which starts like this.
    Leaf(LeafStart<'a>),
}

impl Stack {
    /// Closes all containers but the first `depth`, in which the line stays, and opens the quotes and items
    /// that it starts there, up to the limit of open ones. No leaf is open.
    pub(crate) fn open_containers<'a>(
        &mut self,
        alloc: Global,
        rules: Rules,
        limit: usize,
        depth: usize,
        line: &mut CountedLine<'a>,
    ) -> Result<Innermost<'a>, AllocError>
        requires plain { self.old.bare ≡ false }
        requires within { depth ≤ length self.old.frames }
        ensures inside { IfOk result (λ innermost. Inside rules limit (closed_to depth self.old)
            (seen_view line.old.rest) self.new (seen_view line.new.rest) innermost) }
        ensures deeper { OnOk result (depth ≤ length self.new.frames) }
        ensures tests { OnOk result (Tested (length self.new.frames - depth)
            (suc (length self.new.frames - depth)) line.old.tests line.new.tests) }
    {
        let mut kept = depth;
        while kept <= limit {
            match line.begins(rules) {
                Begins::Nothing => {
                    self.close_to(kept)?;
                    return Ok(Innermost::Blank);
                }
                Begins::Quote => {
                    self.close_to(kept)?;
                    self.open_quote(alloc)?;
                }
                Begins::Item { kind, column, bare } => {
                    self.next_item(alloc, kept, kind, column)?;
                    self.set_bare(bare);
                }
                Begins::Leaf(start) => {
                    self.close_to(kept)?;
                    return Ok(Innermost::Leaf(start));
                }
            }
            kept = self.depth();
        }
        self.close_to(kept)?;
        Ok(Innermost::TooDeep)
    }
}
