//! The tree of an outline as JSON. The tree is never held whole: each block is freed once it is written.
ghost use Rattle.std.specs.Prelude.{◌≡◌, [], true, IfOk, IfErr, OnOk};
ghost use Rattle.cm_json.specs.Mdast.{json_of, value_of};
ghost use Rattle.cm_json.specs.SameDocuments.{are_in_range};
ghost use Rattle.cm_json.specs.Writer.{whole_with, IsWithin};
ghost use Rattle.cm_json.specs.Writing.{IsJson};
ghost use Rattle.cm_tool.specs.steps.LeafWalks.{all_left, leaf_depths, ArePlacedLeft, HasReadAll, TellsOf};

use crate::fault::Fault;
use crate::outlines::leaf_walk::LeafWalk;
use cm_block::LineOwners;
use cm_json::{JsonText, JsonWriter};
use cm_tree::Owner;

impl LeafWalk {
    /// Adds the JSON of all blocks that are left.
    fn push_json(&mut self, owners: &[Owner], json: &mut JsonWriter) -> Result<(), Fault>
        requires placed { ArePlacedLeft self.old.unread }
        requires within { IsWithin json.old owners.now }
        ensures whole { OnOk result (whole_with json.new owners.now []
            ≡ whole_with json.old owners.now (all_left self.old.unread)) }
        ensures in_range { OnOk result (are_in_range (all_left self.old.unread) ≡ true) }
        ensures passes { OnOk result (HasReadAll self.old self.new) }
        ensures told { IfErr result (λ fault. TellsOf self.old fault
            (leaf_depths (all_left self.old.unread))) }
    {
        while let Some(block) = self.next_block()? {
            json.push(owners, &block)?;
            self.reader.let_go(block);
        }
        Ok(())
    }

    /// The JSON of all blocks that are left, as those of a document whose lines have these owners.
    pub(crate) fn json(&mut self, owners: &LineOwners) -> Result<JsonText, Fault>
        requires { ArePlacedLeft self.old.unread }
        ensures json { IfOk result (λ json. json ≡ json_of (all_left self.old.unread) owners.now) }
        ensures is_json { OnOk result (IsJson (json_of (all_left self.old.unread) owners.now)
            (value_of (all_left self.old.unread) owners.now)) }
        ensures passes { OnOk result (HasReadAll self.old self.new) }
        ensures told { IfErr result (λ fault. TellsOf self.old fault
            (leaf_depths (all_left self.old.unread))) }
    {
        let alloc = self.unread.alloc;
        let owners = owners.to_items(alloc)?;
        let owners = owners.as_slice();
        let text = JsonText::new(alloc)?;
        let mut json = JsonWriter::new(text, owners)?;
        self.push_json(owners, &mut json)?;
        Ok(json.finish()?)
    }
}
