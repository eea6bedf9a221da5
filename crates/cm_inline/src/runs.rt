//! The delimiter runs of a leaf, and the list of those before a closer that may open: entries linked both
//! ways by their numbers, from which any can be taken out. An entry is read only by a call that counts.
//!
//! The run at hand is the last entry while it pairs. So an entry is looked at in vain at most once for each
//! kind of closer, and once more if it is taken out between a pair. A pair takes one look, and at least a
//! character of each of its runs. For each character of the runs that makes at most two looks more than there
//! are kinds of closers (`looks_at_most`).
//!
//! A pair is written down at its two runs: an opener has the last pair that it opens, and each pair the one
//! that its opener opened before; a closer has the range of the pairs that it closes. So a run's tags are
//! read in the order in which they are written, and nothing moves.
ghost use Rattle.std.specs.Prelude.{◌≡◌, ◌≢◌, ◌+◌, ◌-◌, ◌<◌, ◌≤◌, ◌^◌, ◌++◌, [], ◌∷◌, suc};
ghost use Rattle.std.specs.Prelude.{List, length, Err, None, IfOk, OnOk, IfSome};
ghost use Rattle.cm_scan.specs.inlines.Pairing.{pair_all};
ghost use Rattle.cm_inline.specs.declared.fault.InlineFault.TheVariants.{InlinesTooDeep, SourceTooLong};
ghost use Rattle.cm_inline.specs.steps.pairing.Passes.{CanPass, WaitFrom, AllPaired};
ghost use Rattle.cm_inline.specs.steps.pairing.States.{AreChained, SameRuns, run_at, with_closed, with_left};
ghost use Rattle.cm_inline.specs.steps.pairing.Segments.{Segment, items_in};
ghost use Rattle.cm_inline.specs.steps.Depths.{items_depth};
ghost use Rattle.cm_inline.specs.steps.Entries.{Below, last_entry};
ghost use Rattle.cm_inline.specs.steps.Runs.{entry_of, runs_in, pairs_in};
ghost use Rattle.cm_inline.specs.steps.Slots.{upto, first_up, IsAt, removed, rewritten, with_after};

use crate::delimiter_runs::{DelimiterRun, KINDS};
use crate::fault::InlineFault;
use crate::pairing::{Pair, pass};
use std::alloc::{AllocError, Global};
use std::marker::Model;

/// The number of a run among those of its leaf: a later run has a greater one.
#[derive(Clone, Copy)]
pub(crate) struct RunNumber {
    number: u32,
}

impl Model for RunNumber {
    ghost use Rattle.std.specs.Prelude.{ℕ, ◌<◌, ◌^◌};

    ghost Value = { ℕ };

    ghost view = { λ n. n.number };

    ghost invariant = { λ n. n.number < 2 ^ 32 };

    ghost inverse = { λ n. record { number = n } };
}

/// The number of an entry, if there is one: it is counted from 1, and 0 is none.
#[derive(Clone, Copy)]
pub(crate) struct Link {
    up: u32,
}

impl Model for Link {
    ghost use Rattle.std.specs.Prelude.{ℕ, ◌<◌, ◌^◌};

    ghost Value = { ℕ };

    ghost view = { λ l. l.up };

    ghost invariant = { λ l. l.up < 2 ^ 32 };

    ghost inverse = { λ up. record { up = up } };
}

/// A run with its pairs: the last that it opens, counted from 1, and the range of those that it closes.
#[derive(Clone, Copy)]
pub(crate) struct Run {
    pub(crate) run: DelimiterRun,
    pub(crate) opened: u32,
    pub(crate) from: u32,
    pub(crate) to: u32,
}

/// A run, and its neighbours in the list.
#[derive(Clone, Copy)]
struct Slot {
    run: Run,
    before: Link,
    after: Link,
}

/// The runs, and the list of those that may open, which are its entries.
#[derive(Drop)]
pub(crate) struct DelimiterList {
    slots: Vec<Slot>,
    last: Link,
    looks: u128,
}

impl Model for DelimiterList {
    ghost use Rattle.cm_inline.specs.steps.Runs.{Listing};
    ghost use Rattle.cm_inline.specs.steps.Slots.{held_in, chain, AreLinked};
    ghost use Rattle.std.specs.Prelude.{length};

    ghost Value = { Listing };

    ghost view = { λ l. record {
      runs = held_in l.slots.items;
      entries = chain (length l.slots.items) l.slots.items l.last;
      looks = l.looks;
    } };

    ghost invariant = { λ l. AreLinked l.slots.items l.last };
}

impl RunNumber {
    /// The number of the first run.
    #[inline(always)]
    fn first() -> RunNumber
        ensures { result ≡ 0 }
    {
        RunNumber { number: 0 }
    }

    /// The number as a place among the runs.
    #[inline(always)]
    fn place(self) -> usize
        ensures { result ≡ self }
    {
        self.number as usize
    }

    /// The number as that of an entry.
    #[inline(always)]
    fn link(self) -> Link
        requires { self < 2 ^ 32 - 1 }
        ensures { result ≡ suc self }
    {
        Link {
            up: self.number + 1,
        }
    }
}

impl Link {
    /// No entry.
    #[inline(always)]
    fn none() -> Link
        ensures { result ≡ 0 }
    {
        Link { up: 0 }
    }

    /// The entry, if there is one from a bottom on. It isn't read.
    #[inline(always)]
    pub(crate) fn from(self, bottom: RunNumber) -> Option<RunNumber>
        ensures none { result ≡ None → self ≤ bottom }
        ensures some { IfSome result (λ number. (self ≡ suc number) × (bottom ≤ number)) }
    {
        if self.up > bottom.number {
            return Some(RunNumber {
                number: self.up - 1,
            });
        }
        None
    }

    /// The entry, if there is one.
    #[inline(always)]
    fn number(self) -> Option<RunNumber>
        ensures none { result ≡ None → self ≡ 0 }
        ensures some { IfSome result (λ number. self ≡ suc number) }
    {
        self.from(RunNumber::first())
    }
}

/// Has another entry follow the one of a link, if there is one.
#[inline(always)]
fn link_after(slots: &mut Vec<Slot>, earlier: Link, after: Link)
    requires { earlier ≤ length slots.old.items }
    ensures { slots.new.items ≡ with_after earlier after slots.old.items }
{
    if let Some(number) = earlier.number() {
        slots[number.place()].after = after;
    }
}

impl DelimiterList {
    /// No run, and no look.
    fn new(alloc: Global) -> DelimiterList
        ensures runs { result.runs ≡ [] }
        ensures entries { result.entries ≡ [] }
        ensures looks { result.looks ≡ 0 }
    {
        DelimiterList {
            slots: Vec::new(alloc),
            last: Link::none(),
            looks: 0,
        }
    }

    /// Discards all runs, and forgets how often one was read.
    fn restart(&mut self)
        ensures runs { self.new.runs ≡ [] }
        ensures entries { self.new.entries ≡ [] }
        ensures looks { self.new.looks ≡ 0 }
    {
        self.slots.clear();
        self.last = Link::none();
        self.looks = 0;
    }

    /// Takes all entries out. How often one was read stays.
    #[inline(always)]
    fn clear(&mut self)
        ensures entries { self.new.entries ≡ [] }
        ensures same { (self.new.runs ≡ self.old.runs) × (self.new.looks ≡ self.old.looks) }
    {
        self.last = Link::none();
    }

    /// Adds a run, which is no entry, and returns its number.
    #[inline(always)]
    fn push(&mut self, run: DelimiterRun) -> Result<RunNumber, AllocError>
        requires short { length self.old.runs < 2 ^ 32 - 1 }
        ensures number { IfOk result (λ number. number ≡ length self.old.runs) }
        ensures runs { OnOk result (self.new.runs ≡ self.old.runs
            ++ record { run = run; opened = 0; from = 0; to = 0 } ∷ []) }
        ensures same { (self.new.entries ≡ self.old.entries) × (self.new.looks ≡ self.old.looks) }
    {
        let number = RunNumber {
            number: self.slots.len() as u32,
        };
        self.slots.push(Slot {
            run: Run {
                run,
                opened: 0,
                from: 0,
                to: 0,
            },
            before: Link::none(),
            after: Link::none(),
        })?;
        Ok(number)
    }

    /// A run, which may be an entry: so no other module has this call.
    #[inline(always)]
    fn run(&self, number: RunNumber) -> Run
        requires { number < length self.now.runs }
        ensures { result ≡ run_at self.now.runs number }
    {
        self.slots[number.place()].run
    }

    /// Adds a run to the list, as its last entry.
    #[inline(always)]
    pub(crate) fn enter(&mut self, number: RunNumber)
        requires there { number < length self.old.runs }
        requires later { Below number self.old.entries }
        ensures entries { self.new.entries
            ≡ entry_of number (run_at self.old.runs number) ∷ self.old.entries }
        ensures same { (self.new.runs ≡ self.old.runs) × (self.new.looks ≡ self.old.looks) }
    {
        let last = self.last;
        let slot = &mut self.slots[number.place()];
        slot.before = last;
        slot.after = Link::none();
        link_after(&mut self.slots, last, number.link());
        self.last = number.link();
    }

    /// The entry before another one.
    #[inline(always)]
    pub(crate) fn before(&self, number: RunNumber) -> Link
        requires { IsAt (suc number) self.now.entries }
        ensures { result ≡ first_up (upto number self.now.entries) }
    {
        self.slots[number.place()].before
    }

    /// Reads an entry, and counts that.
    #[inline(always)]
    pub(crate) fn look(&mut self, number: RunNumber) -> Run
        requires there { IsAt (suc number) self.old.entries }
        requires few { self.old.looks < 2 ^ 127 }
        ensures read { result ≡ run_at self.old.runs number }
        ensures entry { upto (suc number) self.old.entries
            ≡ entry_of number result ∷ upto number self.old.entries }
        ensures same { (self.new.runs ≡ self.old.runs) × (self.new.entries ≡ self.old.entries) }
        ensures counted { self.new.looks ≡ self.old.looks + 1 }
    {
        self.looks += 1;
        self.slots[number.place()].run
    }

    /// Takes all entries between another one and the last out.
    #[inline(always)]
    pub(crate) fn remove_between(&mut self, number: RunNumber, last: RunNumber)
        requires there { IsAt (suc number) self.old.entries }
        requires last { first_up self.old.entries ≡ suc last }
        requires earlier { number < last }
        ensures entries { self.new.entries
            ≡ last_entry self.old.entries ++ upto (suc number) self.old.entries }
        ensures same { (self.new.runs ≡ self.old.runs) × (self.new.looks ≡ self.old.looks) }
    {
        let slot = &mut self.slots[number.place()];
        slot.after = last.link();
        self.slots[last.place()].before = number.link();
    }

    /// Takes an entry out.
    #[inline(always)]
    pub(crate) fn remove(&mut self, number: RunNumber)
        requires { IsAt (suc number) self.old.entries }
        ensures entries { self.new.entries ≡ removed number self.old.entries }
        ensures same { (self.new.runs ≡ self.old.runs) × (self.new.looks ≡ self.old.looks) }
    {
        let slot = &self.slots[number.place()];
        let before = slot.before;
        let after = slot.after;
        link_after(&mut self.slots, before, after);
        if let Some(later) = after.number() {
            self.slots[later.place()].before = before;
        } else {
            self.last = before;
        }
    }

    /// Leaves this many characters of a run, which opened this pair last.
    #[inline(always)]
    pub(crate) fn leave(&mut self, number: RunNumber, left: u32, opened: u32)
        requires { number < length self.old.runs }
        ensures runs { self.new.runs ≡ with_left number left opened self.old.runs }
        ensures entries { self.new.entries ≡ rewritten number (run_at self.new.runs number) self.old.entries }
        ensures looks { self.new.looks ≡ self.old.looks }
    {
        let run = &mut self.slots[number.place()].run;
        run.run.left = left;
        run.opened = opened;
    }

    /// Leaves this many characters of a run, which closed the pairs in this range.
    #[inline(always)]
    pub(crate) fn close(&mut self, number: RunNumber, left: u32, from: u32, to: u32)
        requires { number < length self.old.runs }
        ensures runs { self.new.runs ≡ with_closed number left from to self.old.runs }
        ensures entries { self.new.entries ≡ rewritten number (run_at self.new.runs number) self.old.entries }
        ensures looks { self.new.looks ≡ self.old.looks }
    {
        let run = &mut self.slots[number.place()].run;
        run.run.left = left;
        run.from = from;
        run.to = to;
    }
}

/// The runs of a leaf, those that wait to be paired, and the pairs.
#[derive(Drop)]
pub(crate) struct Runs {
    list: DelimiterList,
    /// The numbers of those that wait.
    pub(crate) waiting: Vec<RunNumber>,
    pub(crate) pairs: Vec<Pair>,
}

impl Runs {
    /// No run, and no look.
    pub(crate) fn new(alloc: Global) -> Runs
        ensures runs { result.list.runs ≡ [] }
        ensures waiting { result.waiting.items ≡ [] }
        ensures pairs { result.pairs.items ≡ [] }
        ensures looks { result.list.looks ≡ 0 }
    {
        Runs {
            list: DelimiterList::new(alloc),
            waiting: Vec::new(alloc),
            pairs: Vec::new(alloc),
        }
    }

    /// No run, and no look.
    pub(crate) fn restart(&mut self)
        ensures runs { self.new.list.runs ≡ [] }
        ensures waiting { self.new.waiting.items ≡ [] }
        ensures pairs { self.new.pairs.items ≡ [] }
        ensures looks { self.new.list.looks ≡ 0 }
    {
        self.list.restart();
        self.waiting.clear();
        self.pairs.clear();
    }

    /// How often an entry of the list was read.
    pub(crate) fn looks(&self) -> u128
        ensures { result ≡ self.now.list.looks }
    {
        self.list.looks
    }

    /// A run by its number.
    #[inline(always)]
    pub(crate) fn run(&self, number: u32) -> Run
        requires { number < length self.now.list.runs }
        ensures { result ≡ run_at self.now.list.runs number }
    {
        self.list.run(RunNumber { number })
    }

    /// Adds a run, which waits to be paired, and returns its number.
    #[inline(always)]
    pub(crate) fn push(&mut self, run: DelimiterRun) -> Result<u32, AllocError>
        requires short { length self.old.list.runs < 2 ^ 32 - 1 }
        ensures number { IfOk result (λ number. number ≡ length self.old.list.runs) }
        ensures runs { OnOk result (self.new.list.runs ≡ self.old.list.runs
            ++ record { run = run; opened = 0; from = 0; to = 0 } ∷ []) }
        ensures waiting { OnOk result
            (self.new.waiting.items ≡ self.old.waiting.items ++ length self.old.list.runs ∷ []) }
        ensures same { (self.new.pairs ≡ self.old.pairs) × (self.new.list.looks ≡ self.old.list.looks) }
    {
        let number = self.list.push(run)?;
        self.waiting.push(number)?;
        Ok(number.number)
    }

    /// The same where some run waits.
    fn pair_waiting(&mut self, from: usize, limit: usize) -> Result<(), InlineFault>
        requires some { from < length self.old.waiting.items }
        requires pass { CanPass from self.old }
        requires chained { AreChained (runs_in self.old.list.runs) (pairs_in self.old.pairs.items) }
        ensures passes { OnOk result ((front inside : List Segment) → WaitFrom from self.old front inside
            → AllPaired self.old self.new front inside) }
        ensures same { OnOk result (SameRuns self.old.list.runs self.new.list.runs) }
        ensures chained { OnOk result
            (AreChained (runs_in self.new.list.runs) (pairs_in self.new.pairs.items)) }
        ensures deep { result ≡ Err InlinesTooDeep → (front inside : List Segment)
            → WaitFrom from self.old front inside → limit < items_depth (pair_all (items_in inside)) }
        ensures short { result ≢ Err SourceTooLong }
    {
        self.list.clear();
        let mut bottoms = [RunNumber::first(); KINDS];
        for at in from..self.waiting.len() {
            let number = self.waiting[at];
            let run = self.list.run(number).run;
            pass(
                &mut self.list,
                &mut self.pairs,
                number,
                run,
                &mut bottoms,
                limit,
            )?;
        }
        self.waiting.truncate(from);
        Ok(())
    }

    /// Makes all pairs among the runs that wait from a place on. None of them waits then.
    ///
    /// # Errors
    ///
    /// `InlinesTooDeep` where the pairs of one run nest deeper than the limit, `NoMemory` if a request for
    /// memory was refused.
    #[inline(always)]
    pub(crate) fn pair_from(&mut self, from: usize, limit: usize) -> Result<(), InlineFault>
        requires pass { CanPass from self.old }
        requires chained { AreChained (runs_in self.old.list.runs) (pairs_in self.old.pairs.items) }
        ensures passes { OnOk result ((front inside : List Segment) → WaitFrom from self.old front inside
            → AllPaired self.old self.new front inside) }
        ensures same { OnOk result (SameRuns self.old.list.runs self.new.list.runs) }
        ensures chained { OnOk result
            (AreChained (runs_in self.new.list.runs) (pairs_in self.new.pairs.items)) }
        ensures deep { result ≡ Err InlinesTooDeep → (front inside : List Segment)
            → WaitFrom from self.old front inside → limit < items_depth (pair_all (items_in inside)) }
        ensures short { result ≢ Err SourceTooLong }
    {
        if from == self.waiting.len() {
            return Ok(());
        }
        self.pair_waiting(from, limit)
    }
}
