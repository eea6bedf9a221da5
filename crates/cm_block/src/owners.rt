//! What is kept of the lines so far: the owner of each, and the definitions. The parser counts the leaves.
//!
//! A definition goes into the table when it goes into the tree, so finishing walks no tree.
ghost use Rattle.std.specs.Prelude.{◌≡◌, ◌≤◌, ◌^◌, ◌++◌, [], ◌∷◌, suc, length, OnOk};
ghost use Rattle.cm_block.specs.Stack.{own_lines, own_blanks, blank_owner};
ghost use Rattle.cm_block.specs.steps.LeafSteps.{own_plain_leaf, own_definition};

use crate::owner_runs::{LineOwners, OwnerRuns};
use cm_text::NoMemory;
use cm_tree::Definitions;
use std::alloc::{AllocError, Global};
use std::marker::Model;

/// The owners of the lines so far, and the definitions. The owners say how many leaves there are.
#[derive(Debug, Drop)]
pub(crate) struct Owners {
    runs: OwnerRuns,
    definitions: Definitions,
}

impl Model for Owners {
    ghost use Rattle.cm_block.specs.Stack.{Owned};
    ghost use Rattle.cm_block.specs.OwnedCode.{owned_code};

    ghost Value = { Owned };

    ghost coded = { owned_code };

    ghost view = { λ o. record { owners = o.runs.owners; leaves = o.runs.leaves; table = o.definitions } };
}

impl Owners {
    /// No lines so far. It takes no memory.
    pub(crate) fn new(alloc: Global) -> Owners
        ensures { result ≡ record { owners = []; leaves = 0; table = [] } }
    {
        Owners {
            runs: OwnerRuns::new(alloc),
            definitions: Definitions::new(alloc),
        }
    }

    /// The number of lines.
    pub(crate) fn len(&self) -> u128
        ensures len { result ≡ length self.now.owners }
        ensures bound { result ≤ 2 ^ 96 }
    {
        self.runs.len()
    }

    /// The number of the next line, counted from 1.
    pub(crate) fn next_line(&self) -> u128
        ensures { result ≡ suc (length self.now.owners) }
    {
        self.runs.len() + 1
    }

    /// Adds the lines of one more leaf, which is no definition, and counts it.
    pub(crate) fn leaf(&mut self, leaves: &mut usize, lines: usize) -> Result<(), AllocError>
        requires { leaves.old ≡ self.old.leaves }
        ensures owned { OnOk result (self.new ≡ own_plain_leaf self.old lines) }
        ensures counted { leaves.new ≡ self.new.leaves }
    {
        self.runs.push_leaf(leaves, lines)
    }

    /// Adds the lines of a definition, and counts it. The first of matching labels counts.
    pub(crate) fn definition(
        &mut self,
        leaves: &mut usize,
        label: &str,
        dest: &str,
        title: &str,
        lines: usize,
    ) -> Result<(), NoMemory>
        requires { leaves.old ≡ self.old.leaves }
        ensures owned { OnOk result (self.new
            ≡ own_definition self.old label.now (dest.now, title.now) lines) }
        ensures counted { leaves.new ≡ self.new.leaves }
    {
        self.leaf(leaves, lines)?;
        self.definitions.add(label, dest, title)
    }

    /// The owner of each line, where this number of leaves own lines, and the table of the definitions.
    pub(crate) fn into_parts(self, leaves: usize) -> (LineOwners, Definitions)
        requires { leaves ≡ self.leaves }
        ensures owners { result.0 ≡ self.owners }
        ensures definitions { result.1 ≡ self.table }
    {
        (LineOwners::new(self.runs, leaves), self.definitions)
    }

    /// Adds a blank line. `marked` says whether markers were taken from it.
    pub(crate) fn blank_line(&mut self, marked: bool) -> Result<(), AllocError>
        ensures owned { OnOk result (self.new ≡ own_lines self.old (blank_owner marked ∷ [])) }
        ensures leaves { self.new.leaves ≡ self.old.leaves }
    {
        self.runs.push_blank(marked, 1)
    }

    /// Adds `lines` blank lines, inside a quote or not.
    pub(crate) fn blank_lines(&mut self, in_a_quote: bool, lines: usize) -> Result<(), AllocError>
        ensures owned { OnOk result (self.new ≡ own_blanks in_a_quote lines self.old) }
        ensures leaves { self.new.leaves ≡ self.old.leaves }
    {
        self.runs.push_blank(in_a_quote, lines)
    }
}
