//! The JSON of a document whose blocks are written one after another.
ghost use Rattle.std.specs.Prelude.{◌≡◌, ◌<◌, ◌^◌, ◌++◌, List, [], ◌∷◌, true, length, IfOk, OnOk};
ghost use Rattle.cm_tree.specs.declared.tree.Block as trees;
ghost use Rattle.cm_tree.specs.declared.tree.Owner as lines;
ghost use Rattle.cm_json.specs.Mdast.{json_of};
ghost use Rattle.cm_json.specs.SameDocuments.{is_in_range};
ghost use Rattle.cm_json.specs.Writer.{whole_with, IsWithin};

use crate::blocks::{push_block, push_root_start};
use crate::json_text::JsonText;
use crate::members::push_comma;
use cm_tree::{Block, Owner};
use std::alloc::AllocError;

/// Writes the JSON of a document block by block, so that a tree needn't be held whole.
///
/// Pass each block of the top level once to `push`, in the order of the document and with the owners that
/// `new` was given; it can be freed then. `finish` returns the JSON, which is that of `json` for all of them.
#[derive(Drop)]
pub struct JsonWriter {
    json: JsonText,
    /// How many lines are passed.
    passed: usize,
    /// Whether a block has been written.
    has_blocks: bool,
}

impl JsonWriter {
    /// Adds the root of a document up to its blocks. `owners` has the owners of the document's lines.
    ///
    /// # Errors
    ///
    /// `AllocError` if a request for memory was refused. The same holds for all calls.
    pub fn new(json: JsonText, owners: &[Owner]) -> Result<JsonWriter, AllocError>
        ensures whole { IfOk result (λ writer. (blocks : List trees.Block)
            → whole_with writer owners.now blocks ≡ json ++ json_of blocks owners.now) }
        ensures within { IfOk result (λ writer. IsWithin writer owners.now) }
        ensures small { length owners.now < 2 ^ 63 }
    {
        let mut json = json;
        push_root_start(&mut json, owners)?;
        Ok(JsonWriter {
            json,
            passed: 0,
            has_blocks: false,
        })
    }

    /// Adds the next block of the top level, and turns the page.
    ///
    /// # Errors
    ///
    /// As `new`.
    pub fn push(&mut self, owners: &[Owner], block: &Block) -> Result<(), AllocError>
        requires { IsWithin self.old owners.now }
        ensures whole { OnOk result ((others : List trees.Block) → whole_with self.new owners.now others
            ≡ whole_with self.old owners.now (block.now ∷ others)) }
        ensures within { OnOk result (IsWithin self.new owners.now) }
        ensures in_range { OnOk result (is_in_range block.now ≡ true) }
    {
        push_comma(&mut self.json, self.has_blocks)?;
        self.passed = push_block(&mut self.json, owners, self.passed, block)?;
        self.has_blocks = true;
        self.json.turn()
    }

    /// The JSON, with the closing brackets.
    ///
    /// # Errors
    ///
    /// As `new`.
    pub fn finish(self) -> Result<JsonText, AllocError>
        ensures { IfOk result (λ json. (owners : List lines.Owner) → json ≡ whole_with self owners []) }
    {
        let mut json = self.json;
        json.push_str("]}")?;
        Ok(json)
    }
}
