//! Inlines as far as they are made.
ghost use Rattle.std.specs.Prelude.{◌≡◌, ◌<◌, ◌≤◌, [], length, replicate, IfOk, OnOk};
ghost use Rattle.cm_inline.specs.steps.pairing.Events.{ended, innermost, others, add_text, add_inline};
ghost use Rattle.cm_inline.specs.steps.pairing.Events.{build, made_of, nothing_built};
ghost use Rattle.cm_inline.specs.steps.pairing.Parts.{starts, ends_between, run_events};
ghost use Rattle.cm_inline.specs.steps.pairing.States.{AreChained, run_at};
ghost use Rattle.cm_inline.specs.steps.Building.{built_in, opened, closed};
ghost use Rattle.cm_inline.specs.steps.Writing.{ComeBefore};
ghost use Rattle.cm_inline.specs.steps.Runs.{byte_of, tag_in, runs_in, pairs_in, paired_run};

use crate::delimiter_runs::DelimiterRun;
use crate::pairing::{Emphasis, Pair};
use crate::runs::Runs;
use crate::spare::Spare;
use cm_tree::{Inline, Items, Text};
use std::alloc::AllocError;
use std::mem;

/// Inlines as far as they are made: those of the innermost node that is open, the text after them, and the
/// inlines of the nodes around it, the innermost last.
#[derive(Drop)]
pub(crate) struct Made {
    pub(crate) content: Items<Inline>,
    text: Text,
    outer: Vec<Items<Inline>>,
}

/// An empty list for the next inlines, in spare memory or with room for all of them.
fn next_list(spare: &mut Spare) -> Result<Items<Inline>, AllocError>
    ensures { IfOk result (λ list. list ≡ []) }
{
    let count = spare.sizes.next_list();
    match spare.list() {
        Some(list) => Ok(Items::from(list)),
        None => Ok(Items::from(Vec::with_capacity(spare.alloc(), count)?)),
    }
}

/// An empty text, likewise.
#[inline(always)]
fn next_text(spare: &mut Spare) -> Result<Text, AllocError>
    ensures { IfOk result (λ text. text ≡ []) }
{
    let size = spare.sizes.next_text();
    Ok(Text::from(spare.string_for(size)?))
}

/// What emphasis makes of a content.
fn emphasised(emphasis: Emphasis, content: Items<Inline>) -> Inline
    ensures { result ≡ made_of (tag_in emphasis) content }
{
    match emphasis {
        Emphasis::Emph => Inline::Emph(content),
        Emphasis::Strong => Inline::Strong(content),
        Emphasis::Strike => Inline::Strike(content),
    }
}

impl Made {
    /// No inline.
    pub(crate) fn new(spare: &mut Spare) -> Result<Made, AllocError>
        ensures { IfOk result (λ made. built_in made ≡ nothing_built) }
    {
        Ok(Made {
            content: next_list(spare)?,
            text: Text::new(spare.alloc()),
            outer: Vec::new(spare.alloc()),
        })
    }

    /// Ends the text: it is an inline, if there is any.
    #[inline(always)]
    pub(crate) fn end_text(&mut self, spare: &Spare) -> Result<(), AllocError>
        ensures content { OnOk result (self.new.content ≡ ended (built_in self.old)) }
        ensures text { OnOk result (self.new.text ≡ []) }
        ensures outer { self.new.outer ≡ self.old.outer }
    {
        if self.text.len() == 0 {
            return Ok(());
        }
        let text = mem::replace(&mut self.text, Text::new(spare.alloc()));
        self.content.push(Inline::Text(text))
    }

    /// Continues the text.
    #[inline(always)]
    pub(crate) fn add_text(&mut self, spare: &mut Spare, text: &str) -> Result<(), AllocError>
        ensures added { OnOk result (built_in self.new ≡ add_text (built_in self.old) text.now) }
    {
        if text.is_empty() {
            return Ok(());
        }
        if self.text.len() == 0 {
            self.text = next_text(spare)?;
        }
        self.text.push_str(text)
    }

    /// Adds an inline.
    #[inline(always)]
    pub(crate) fn push(&mut self, spare: &Spare, inline: Inline) -> Result<(), AllocError>
        ensures { OnOk result (built_in self.new ≡ add_inline (built_in self.old) inline) }
    {
        self.end_text(spare)?;
        self.content.push(inline)
    }

    /// Starts a node.
    pub(crate) fn open(&mut self, spare: &mut Spare) -> Result<(), AllocError>
        ensures { OnOk result (built_in self.new ≡ opened (built_in self.old)) }
    {
        self.end_text(spare)?;
        let next = next_list(spare)?;
        self.outer.push(mem::replace(&mut self.content, next))?;
        Ok(())
    }

    /// Ends the innermost node, and returns its inlines.
    pub(crate) fn take_content(&mut self, spare: &Spare) -> Result<Items<Inline>, AllocError>
        ensures content { IfOk result (λ content. content ≡ ended (built_in self.old)) }
        ensures left { OnOk result (built_in self.new ≡ record {
          content = innermost (built_in self.old).outer;
          text = [];
          outer = others (built_in self.old).outer;
        }) }
    {
        self.end_text(spare)?;
        let outer = match self.outer.pop() {
            Some(outer) => outer,
            None => Items::new(spare.alloc()),
        };
        Ok(mem::replace(&mut self.content, outer))
    }

    /// Ends the innermost node, which is emphasis.
    fn close_emphasis(&mut self, spare: &Spare, emphasis: Emphasis) -> Result<(), AllocError>
        ensures { OnOk result (built_in self.new
            ≡ closed (built_in self.old) (made_of (tag_in emphasis) (ended (built_in self.old)))) }
    {
        let content = self.take_content(spare)?;
        self.content.push(emphasised(emphasis, content))
    }

    /// Ends a range of pairs.
    fn close_pairs(
        &mut self,
        spare: &Spare,
        pairs: &[Pair],
        from: u32,
        to: u32,
    ) -> Result<(), AllocError>
        requires { to ≤ length pairs.now }
        ensures { OnOk result (built_in self.new
            ≡ build (built_in self.old) (ends_between (pairs_in pairs.now) from to)) }
    {
        for at in from..to {
            self.close_emphasis(spare, pairs[at as usize].emphasis)?;
        }
        Ok(())
    }

    /// Starts the pairs that a run opens, given the last of them.
    fn open_pairs(
        &mut self,
        spare: &mut Spare,
        pairs: &[Pair],
        opened: u32,
    ) -> Result<(), AllocError>
        requires opened { opened ≤ length pairs.now }
        requires chained { ComeBefore (pairs_in pairs.now) }
        ensures { OnOk result (built_in self.new
            ≡ build (built_in self.old) (starts (pairs_in pairs.now) opened)) }
    {
        let mut next = opened;
        while next != 0 {
            self.open(spare)?;
            next = pairs[next as usize - 1].before;
        }
        Ok(())
    }

    /// Continues the text with what is left of a run.
    fn add_left(&mut self, spare: &mut Spare, run: DelimiterRun) -> Result<(), AllocError>
        ensures { OnOk result (built_in self.new
            ≡ add_text (built_in self.old) (replicate run.left (byte_of run.marker))) }
    {
        for _ in 0..run.left {
            self.add_text(spare, run.marker.text())?;
        }
        Ok(())
    }

    /// Adds a run: the ends of pairs, what is left, and the starts of pairs.
    pub(crate) fn push_run(
        &mut self,
        spare: &mut Spare,
        runs: &Runs,
        number: u32,
    ) -> Result<(), AllocError>
        requires number { number < length runs.now.list.runs }
        requires chained { AreChained (runs_in runs.now.list.runs) (pairs_in runs.now.pairs.items) }
        ensures { OnOk result (built_in self.new ≡ build (built_in self.old)
            (run_events (pairs_in runs.now.pairs.items) number
            (paired_run (run_at runs.now.list.runs number)))) }
    {
        let run = runs.run(number);
        self.close_pairs(spare, runs.pairs.as_slice(), run.from, run.to)?;
        self.add_left(spare, run.run)?;
        self.open_pairs(spare, runs.pairs.as_slice(), run.opened)
    }
}
