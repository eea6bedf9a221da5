//! The first leaf of an outline that nests too deep, and its first line.
ghost use Rattle.std.specs.Prelude.{◌≡◌, IfErr, OnOk};
ghost use Rattle.cm_tool.specs.FaultPlaces.{first_line_of_leaf};
ghost use Rattle.cm_tool.specs.steps.LeafWalks.{all_left, leaf_depths, ArePlacedLeft, HasReadAll, TellsOf};

use crate::fault::Fault;
use crate::outlines::leaf_walk::LeafWalk;
use cm_tree::Owner;

impl LeafWalk {
    /// Reads all blocks that are left, each of which is freed at once.
    pub(crate) fn pass_all(&mut self) -> Result<(), Fault>
        requires { ArePlacedLeft self.old.unread }
        ensures passes { OnOk result (HasReadAll self.old self.new) }
        ensures told { IfErr result (λ fault. TellsOf self.old fault
            (leaf_depths (all_left self.old.unread))) }
    {
        while let Some(block) = self.next_block()? {
            self.reader.let_go(block);
        }
        Ok(())
    }
}

/// The first line of a leaf.
pub(crate) fn first_line_of_leaf(owners: &[Owner], leaf: usize) -> Option<usize>
    ensures { result ≡ first_line_of_leaf leaf owners.now }
{
    for (at, owner) in owners.iter().enumerate() {
        if *owner == Owner::Leaf(leaf) {
            return Some(at + 1);
        }
    }
    None
}
