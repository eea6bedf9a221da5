//! The listing of an outline's tree, which is never held whole: each block is freed once it is listed.
ghost use Rattle.std.specs.Prelude.{◌≡◌, ◌++◌, IfOk, IfErr, OnOk};
ghost use Rattle.cm_html.specs.Listing.{listed_blocks, listing_of};
ghost use Rattle.cm_tool.specs.steps.LeafWalks.{all_left, leaf_depths, ArePlacedLeft, HasReadAll, TellsOf};

use crate::fault::Fault;
use crate::outlines::leaf_walk::LeafWalk;
use cm_block::LineOwners;
use cm_html::{Pages, push_listed_block, push_listed_owners};

impl LeafWalk {
    /// Adds the listing of all blocks that are left.
    fn push_listing(&mut self, listing: &mut Pages) -> Result<(), Fault>
        requires { ArePlacedLeft self.old.unread }
        ensures pushed { OnOk result (listing.new ≡
            listing.old ++ listed_blocks 0 (all_left self.old.unread)) }
        ensures passes { OnOk result (HasReadAll self.old self.new) }
        ensures told { IfErr result (λ fault. TellsOf self.old fault
            (leaf_depths (all_left self.old.unread))) }
    {
        while let Some(block) = self.next_block()? {
            push_listed_block(listing, &block)?;
            self.reader.let_go(block);
        }
        Ok(())
    }

    /// The listing of all blocks that are left, and of the owners of the lines.
    pub(crate) fn listing(&mut self, owners: &LineOwners) -> Result<Pages, Fault>
        requires { ArePlacedLeft self.old.unread }
        ensures listing { IfOk result (λ pages. pages ≡
            listing_of (all_left self.old.unread) owners.now) }
        ensures passes { OnOk result (HasReadAll self.old self.new) }
        ensures told { IfErr result (λ fault. TellsOf self.old fault
            (leaf_depths (all_left self.old.unread))) }
    {
        let alloc = self.unread.alloc;
        let mut listing = Pages::new(alloc)?;
        self.push_listing(&mut listing)?;
        let owners = owners.to_items(alloc)?;
        push_listed_owners(&mut listing, owners.as_slice())?;
        Ok(listing)
    }
}
