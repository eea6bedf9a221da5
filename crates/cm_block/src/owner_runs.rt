//! The owner of each line, kept in runs: consecutive lines with the same owner, and the blank lines after
//! them, are one run.
//!
//! A run takes 4 bytes, because it says whether it has one more leaf, the last one or none, and holds no
//! number. It has fewer than 2^16 lines and 2^8 blank ones after them, so 2^28 line feeds take 4,081 runs.
//! Each leaf starts a run, so neither the lines, counted in a `u128`, nor the leaves, counted in a `usize`,
//! can overflow.
//!
//! Runs are kept even if no caller asks for owners, so that each contract has one form. Without them an
//! unproved program took 0.5 to 1.5 percent fewer instructions.
ghost use Rattle.std.specs.Prelude.{◌≡◌, ◌≤◌, ◌<◌, ◌^◌, ◌++◌, ℕ, [], suc, length, replicate};
ghost use Rattle.std.specs.Prelude.{IfOk, OnOk, OnErr};
ghost use Rattle.cm_block.specs.OwnerRuns.{leaves_with, owner_of};
ghost use Rattle.cm_block.specs.Stack.{blank_owner};
ghost use Rattle.cm_tree.specs.declared.tree.Owner.TheVariants as owner;

use cm_text::NoMemory;
use cm_tree::{Items, Owner};
use std::alloc::{AllocError, Global};
use std::marker::Model;

/// The greatest number of lines with the owner of a run.
const MOST: usize = u16::MAX as usize;

/// The greatest number of blank lines after them.
const MOST_BLANK: usize = u8::MAX as usize;

/// Whose lines a run has. Leaves are counted in the order of the runs, so that no run holds a number.
#[derive(Clone, Copy, Debug, PartialEq, Eq)]
pub(crate) enum RunOwner {
    /// No leaf: the lines are blank.
    Blank,
    /// No leaf: markers were taken from the lines, and what was left of them is blank.
    Marker,
    /// One more leaf.
    NextLeaf,
    /// The last leaf, which has more lines than one run.
    SameLeaf,
}

/// Consecutive lines with the same owner, up to `MOST` of them, and blank lines after them from which no
/// marker was taken, up to `MOST_BLANK`.
#[derive(Clone, Copy, Debug)]
pub(crate) struct OwnerRun {
    pub(crate) owner: RunOwner,
    pub(crate) blanks: u8,
    pub(crate) lines: u16,
}

/// The owner of each line so far, which says how many leaves there are. Consecutive lines with the same
/// owner, and the blank lines after them, take the memory of one. Each leaf starts a run, so there are no
/// more leaves than runs.
#[derive(Debug, Drop)]
pub(crate) struct OwnerRuns {
    closed: Vec<OwnerRun>,
    last: OwnerRun,
    count: u128,
}

impl Model for OwnerRuns {
    ghost use Rattle.std.specs.Prelude.{◌≡◌, ◌<◌, ◌≤◌, ◌^◌, ◌*◌, ◌+◌, length};
    ghost use Rattle.cm_block.specs.OwnerRuns.{OwnedLines, leaves_with, leaves_in, owners_in};

    ghost Value = { OwnedLines };

    ghost view = { λ o. record {
      owners = owners_in o.closed.items o.last;
      leaves = leaves_with (leaves_in 0 o.closed.items) o.last.owner;
    } };

    ghost invariant = { λ o. (o.count ≡ length (owners_in o.closed.items o.last))
        × (o.count ≤ length o.closed.items * 2 ^ 17 + (o.last.lines + o.last.blanks))
        × (leaves_with (leaves_in 0 o.closed.items) o.last.owner ≤ length o.closed.items)
        × (o.last.lines < 2 ^ 16)
        × (o.last.blanks < 2 ^ 8) };
}

/// The number of leaves up to and including a run of this owner, after `leaves` leaves.
fn leaves_with(leaves: usize, owner: RunOwner) -> usize
    requires { leaves < 2 ^ 63 }
    ensures { result ≡ leaves_with leaves owner }
{
    match owner {
        RunOwner::NextLeaf => leaves + 1,
        RunOwner::Blank | RunOwner::Marker | RunOwner::SameLeaf => leaves,
    }
}

/// The owner of a run of blank lines. `marked` says whether markers were taken from them.
fn blank_run(marked: bool) -> RunOwner
    ensures owner { (leaves : ℕ) → owner_of leaves result ≡ blank_owner marked }
    ensures leaves { (leaves : ℕ) → leaves_with leaves result ≡ leaves }
{
    if marked {
        RunOwner::Marker
    } else {
        RunOwner::Blank
    }
}

/// The owner of a run's lines. There are `leaves` leaves up to the end of the run.
fn owner_of(leaves: usize, owner: RunOwner) -> Owner
    ensures { result ≡ owner_of leaves owner }
{
    match owner {
        RunOwner::Blank => Owner::Blank,
        RunOwner::Marker => Owner::Marker,
        RunOwner::NextLeaf | RunOwner::SameLeaf => Owner::Leaf(leaves),
    }
}

/// Appends an owner `lines` times.
fn push_owner(owners: &mut Vec<Owner>, owner: Owner, lines: u16) -> Result<(), AllocError>
    ensures { OnOk result (owners.new.items ≡ owners.old.items ++ replicate lines owner) }
{
    for _ in 0..lines {
        owners.push(owner)?;
    }
    Ok(())
}

/// Appends the owners of a run's lines. There are `leaves` leaves up to the end of the run.
fn push_run(owners: &mut Vec<Owner>, leaves: usize, run: OwnerRun) -> Result<(), AllocError>
    ensures { OnOk result (owners.new.items ≡ owners.old.items
        ++ (replicate run.lines (owner_of leaves run.owner) ++ replicate run.blanks owner.Blank)) }
{
    push_owner(owners, owner_of(leaves, run.owner), run.lines)?;
    push_owner(owners, Owner::Blank, u16::from(run.blanks))
}

impl OwnerRuns {
    /// No lines so far. It takes no memory.
    pub(crate) fn new(alloc: Global) -> OwnerRuns
        ensures { result ≡ record { owners = []; leaves = 0 } }
    {
        OwnerRuns {
            closed: Vec::new(alloc),
            last: OwnerRun {
                owner: RunOwner::Blank,
                blanks: 0,
                lines: 0,
            },
            count: 0,
        }
    }

    /// The number of lines.
    pub(crate) fn len(&self) -> u128
        ensures len { result ≡ length self.now.owners }
        ensures bound { result ≤ 2 ^ 96 }
    {
        // The number of runs bounds that of the lines.
        let _runs = self.closed.len();
        self.count
    }

    /// Starts a run of `lines` lines, up to `MOST`.
    fn begin(&mut self, owner: RunOwner, lines: usize) -> Result<(), AllocError>
        requires { lines < 2 ^ 16 }
        ensures pushed { OnOk result (self.new ≡ record {
          owners = self.old.owners ++ replicate lines (owner_of (leaves_with self.old.leaves owner) owner);
          leaves = leaves_with self.old.leaves owner;
        }) }
        ensures refused { OnErr result (self.new ≡ self.old) }
    {
        self.closed.push(self.last)?;
        // The number of runs bounds that of the lines.
        let _runs = self.closed.len();
        self.last.owner = owner;
        self.last.blanks = 0;
        self.last.lines = lines as u16;
        self.count += lines as u128;
        Ok(())
    }

    /// Adds runs with `times` lines in all, which have no leaf or the last one.
    fn push_times(&mut self, owner: RunOwner, times: usize) -> Result<(), AllocError>
        requires { leaves_with self.old.leaves owner ≡ self.old.leaves }
        ensures pushed { OnOk result (self.new ≡ record {
          owners = self.old.owners ++ replicate times (owner_of self.old.leaves owner);
          leaves = self.old.leaves;
        }) }
        ensures leaves { self.new.leaves ≡ self.old.leaves }
    {
        let mut left = times;
        while left > 0 {
            let lines = left.min(MOST);
            self.begin(owner, lines)?;
            left -= lines;
        }
        Ok(())
    }

    /// Adds `lines` blank lines. `marked` says whether markers were taken from them.
    #[inline(always)]
    pub(crate) fn push_blank(&mut self, marked: bool, lines: usize) -> Result<(), AllocError>
        ensures pushed { OnOk result (self.new ≡ record {
          owners = self.old.owners ++ replicate lines (blank_owner marked);
          leaves = self.old.leaves;
        }) }
        ensures leaves { self.new.leaves ≡ self.old.leaves }
    {
        let owner = blank_run(marked);
        // The number of runs bounds that of the lines.
        let _runs = self.closed.len();
        if owner == self.last.owner
            && self.last.blanks == 0
            && lines <= MOST - self.last.lines as usize
        {
            self.last.lines += lines as u16;
            self.count += lines as u128;
            return Ok(());
        }
        if !marked && lines <= MOST_BLANK - self.last.blanks as usize {
            self.last.blanks += lines as u8;
            self.count += lines as u128;
            return Ok(());
        }
        self.push_times(owner, lines)
    }

    /// Adds the lines of one more leaf, and counts it.
    pub(crate) fn push_leaf(&mut self, leaves: &mut usize, lines: usize) -> Result<(), AllocError>
        requires { leaves.old ≡ self.old.leaves }
        ensures pushed { OnOk result (self.new ≡ record {
          owners = self.old.owners ++ replicate lines (owner.Leaf (suc self.old.leaves));
          leaves = suc self.old.leaves;
        }) }
        ensures counted { leaves.new ≡ self.new.leaves }
    {
        let first = lines.min(MOST);
        self.begin(RunOwner::NextLeaf, first)?;
        // The number of runs bounds that of the leaves.
        let _runs = self.closed.len();
        *leaves += 1;
        self.push_times(RunOwner::SameLeaf, lines - first)
    }

    /// The owners one by one, where this number of leaves own lines.
    fn to_items(&self, alloc: Global, all_leaves: usize) -> Result<Items<Owner>, NoMemory>
        requires { all_leaves ≡ self.now.leaves }
        ensures { IfOk result (λ owners. owners ≡ self.now.owners) }
    {
        // A count that doesn't fit in a `usize` is requested as the greatest one, and refused.
        let count = usize::try_from(self.count).unwrap_or(usize::MAX);
        let mut owners = Vec::with_capacity(alloc, count)?;
        let mut leaves: usize = 0;
        for run in self.closed.iter() {
            leaves = leaves_with(leaves, run.owner);
            push_run(&mut owners, leaves, *run)?;
        }
        push_run(&mut owners, all_leaves, self.last)?;
        Ok(Items::from(owners))
    }
}

/// The owner of each line of a document. Consecutive lines with the same owner take the memory of one.
#[derive(Debug, Drop)]
pub struct LineOwners {
    runs: OwnerRuns,
    leaves: usize,
}

impl Model for LineOwners {
    ghost use Rattle.std.specs.Prelude.{◌≡◌, List};
    ghost use Rattle.cm_tree.specs.declared.tree.Owner.{Owner};

    ghost Value = { List Owner };

    ghost view = { λ o. o.runs.owners };

    ghost invariant = { λ o. o.leaves ≡ o.runs.leaves };
}

impl LineOwners {
    /// The owners of these lines, which have this number of leaves.
    pub(crate) fn new(runs: OwnerRuns, leaves: usize) -> LineOwners
        requires { leaves ≡ runs.leaves }
        ensures { result ≡ runs.owners }
    {
        LineOwners { runs, leaves }
    }

    /// The owners one by one.
    ///
    /// # Errors
    ///
    /// `NoMemory` if a request for memory was refused.
    pub fn to_items(&self, alloc: Global) -> Result<Items<Owner>, NoMemory>
        ensures { IfOk result (λ owners. owners ≡ self.now) }
    {
        self.runs.to_items(alloc, self.leaves)
    }
}
