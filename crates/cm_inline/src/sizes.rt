//! How large the lists and the texts of a leaf's inlines become. They are counted before the inlines are
//! made, so that each gets its memory at once, and no more than it needs. Contracts don't see the counts: a
//! wrong one costs time or memory and changes no inline.
ghost use Rattle.std.specs.Prelude.{◌<◌, ◌≤◌, true, length};
ghost use Rattle.cm_tree.specs.Definitions.{Targets};
ghost use Rattle.cm_inline.specs.steps.pairing.States.{AreChained};
ghost use Rattle.cm_inline.specs.steps.Marks.{IsSettled};
ghost use Rattle.cm_inline.specs.steps.Runs.{runs_in, pairs_in};
ghost use Rattle.cm_inline.specs.steps.Writing.{ComeBefore, IsNumbered};

use crate::brackets::Reader;
use crate::marks::{Kind, Mark};
use crate::pairing::Pair;
use crate::runs::Runs;
use std::alloc::{AllocError, Global};

/// The sizes, in the order in which the lists and the texts start.
#[derive(Drop)]
pub(crate) struct Sizes {
    /// How many inlines each list has.
    lists: Vec<u32>,
    /// How many bytes each text has.
    texts: Vec<u32>,
    /// The lists around the innermost, from the outside in.
    outer: Vec<usize>,
    /// The innermost list.
    list: usize,
    /// Whether its last inline is a text.
    in_text: bool,
    /// How many lists and how many texts have been requested.
    asked_lists: usize,
    asked_texts: usize,
}

impl Sizes {
    /// Nothing was counted. It takes no memory.
    pub(crate) fn new(alloc: Global) -> Sizes {
        Sizes {
            lists: Vec::new(alloc),
            texts: Vec::new(alloc),
            outer: Vec::new(alloc),
            list: 0,
            in_text: false,
            asked_lists: 0,
            asked_texts: 0,
        }
    }

    /// How many inlines the next list has.
    #[inline(always)]
    pub(crate) fn next_list(&mut self) -> usize {
        let at = self.asked_lists;
        if at >= self.lists.len() {
            return 0;
        }
        self.asked_lists += 1;
        self.lists[at] as usize
    }

    /// How many bytes the next text has.
    #[inline(always)]
    pub(crate) fn next_text(&mut self) -> usize {
        let at = self.asked_texts;
        if at >= self.texts.len() {
            return 0;
        }
        self.asked_texts += 1;
        self.texts[at] as usize
    }

    /// Counts an inline.
    #[inline(always)]
    fn add(&mut self) {
        self.in_text = false;
        if self.list < self.lists.len() {
            self.lists[self.list] = self.lists[self.list].saturating_add(1);
        }
    }

    /// Counts a text.
    #[inline(always)]
    fn add_text(&mut self, size: u32) -> Result<(), AllocError> {
        if size == 0 {
            return Ok(());
        }
        if !self.in_text {
            self.add();
            self.in_text = true;
            self.texts.push(0)?;
        }
        let count = self.texts.len();
        if count > 0 {
            self.texts[count - 1] = self.texts[count - 1].saturating_add(size);
        }
        Ok(())
    }

    /// Starts the list of a node.
    #[inline(always)]
    fn begin(&mut self) -> Result<(), AllocError> {
        self.add();
        self.outer.push(self.list)?;
        self.list = self.lists.len();
        self.lists.push(0)?;
        Ok(())
    }

    /// Ends the innermost list.
    #[inline(always)]
    fn end(&mut self) {
        self.in_text = false;
        if let Some(outer) = self.outer.pop() {
            self.list = outer;
        }
    }

    /// Starts the pairs that a run opens, given the last of them.
    fn begin_pairs(&mut self, pairs: &[Pair], opened: u32) -> Result<(), AllocError>
        requires opened { opened ≤ length pairs.now }
        requires chained { ComeBefore (pairs_in pairs.now) }
    {
        let mut next = opened;
        while next != 0 {
            self.begin()?;
            next = pairs[next as usize - 1].before;
        }
        Ok(())
    }

    /// Counts what a run becomes.
    fn add_run(&mut self, runs: &Runs, number: u32) -> Result<(), AllocError>
        requires number { number < length runs.now.list.runs }
        requires chained { AreChained (runs_in runs.now.list.runs) (pairs_in runs.now.pairs.items) }
    {
        let run = runs.run(number);
        for _ in run.from..run.to {
            self.end();
        }
        self.add_text(run.run.left)?;
        self.begin_pairs(runs.pairs.as_slice(), run.opened)
    }

    /// Counts what a mark becomes.
    #[inline(always)]
    fn add_mark(&mut self, reader: &Reader, mark: Mark) -> Result<(), AllocError>
        requires number { IsNumbered reader.now.runs.list.runs mark.kind }
        requires chained { AreChained (runs_in reader.now.runs.list.runs)
            (pairs_in reader.now.runs.pairs.items) }
    {
        match mark.kind {
            Kind::Plain | Kind::Escaped => self.add_text(mark.end.saturating_sub(mark.at)),
            Kind::Nothing => Ok(()),
            Kind::Character(character) => self.add_text(character.len_utf8() as u32),
            Kind::Run { number } => self.add_run(&reader.runs, number),
            Kind::Start { .. } => self.begin(),
            Kind::End { .. } => {
                self.end();
                Ok(())
            }
            _ => {
                self.add();
                Ok(())
            }
        }
    }

    /// Starts over with the outermost list, which is empty.
    fn restart(&mut self) -> Result<(), AllocError> {
        self.lists.clear();
        self.texts.clear();
        self.outer.clear();
        self.list = 0;
        self.in_text = false;
        self.asked_lists = 0;
        self.asked_texts = 0;
        self.lists.push(0)?;
        Ok(())
    }

    /// Counts what the marks of a source become.
    pub(crate) fn count(&mut self, source: &str, reader: &Reader) -> Result<(), AllocError>
        requires { (targets : Targets) × IsSettled true source.now targets reader.now }
    {
        self.restart()?;
        let mut from: u32 = 0;
        for mark in reader.marks.as_slice() {
            self.add_text(mark.at.saturating_sub(from))?;
            self.add_mark(reader, *mark)?;
            from = mark.end;
        }
        self.add_text((source.len() as u32).saturating_sub(from))
    }
}
