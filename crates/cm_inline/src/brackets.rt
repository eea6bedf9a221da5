//! Links and images by their brackets (CommonMark 0.31.2, 6.3 Links, 6.4 Images).
ghost use Rattle.std.specs.Prelude.{◌≡◌, ◌≢◌, ◌+◌, ◌<◌, ◌^◌, ◌++◌, [], ◌∷◌, ◌||◌, if◌then◌else◌};
ghost use Rattle.std.specs.Prelude.{List, length, set, get_or, not, nat_lt, IfOk, OnOk, IfSome, Err};
ghost use Rattle.std.specs.Str.{byte};
ghost use Rattle.cm_scan.specs.inlines.Pairing.{pair_all};
ghost use Rattle.cm_inline.specs.declared.fault.InlineFault.TheVariants.{InlinesTooDeep, SourceTooLong};
ghost use Rattle.cm_inline.specs.declared.marks.Kind.TheVariants.{Plain, Start, End};
ghost use Rattle.cm_inline.specs.steps.pairing.Passes.{CanPass, WaitFrom, AllPaired};
ghost use Rattle.cm_inline.specs.steps.pairing.States.{AreChained, SameRuns};
ghost use Rattle.cm_inline.specs.steps.pairing.Segments.{Segment, items_in};
ghost use Rattle.cm_inline.specs.steps.Brackets.{end_for};
ghost use Rattle.cm_inline.specs.steps.Depths.{items_depth};
ghost use Rattle.cm_inline.specs.steps.Leaves.{defined_by, ReadingOf, IsTooDeep};
ghost use Rattle.cm_inline.specs.steps.Links.{ends_of, AreBrackets, IsPlaced};
ghost use Rattle.cm_inline.specs.steps.Marks.{mark_at};
ghost use Rattle.cm_inline.specs.steps.Missing.{Knows};
ghost use Rattle.cm_inline.specs.steps.Reads.{Stands};
ghost use Rattle.cm_inline.specs.steps.Runs.{runs_in, pairs_in};

use crate::fault::InlineFault;
use crate::leaf::Leaf;
use crate::links::{LinkEnd, Target, link_end};
use crate::marks::{Kind, Mark, mark_between};
use crate::missing_ends::MissingEnds;
use crate::runs::Runs;
use cm_text::{NoMemory, Rules};
use std::alloc::{AllocError, Global};

/// A `[` or `![` that nothing was made of yet: the number of its mark, the place after it, and how many runs
/// wait before it.
#[derive(Clone, Copy)]
pub(crate) struct Bracket {
    pub(crate) mark: usize,
    pub(crate) image: bool,
    pub(crate) end: usize,
    pub(crate) waiting: usize,
}

/// A link or an image.
#[derive(Clone, Copy)]
pub(crate) struct Link {
    pub(crate) image: bool,
    pub(crate) target: Target,
}

/// A leaf's source as far as it is read.
#[derive(Drop)]
pub(crate) struct Reader {
    pub(crate) marks: Vec<Mark>,
    pub(crate) runs: Runs,
    pub(crate) links: Vec<Link>,
    /// The brackets that nothing was made of yet.
    pub(crate) brackets: Vec<Bracket>,
    /// The number of marks up to the last one that ends a link. A `[` among them is inactive: it makes no
    /// link.
    pub(crate) links_end: usize,
    /// Whether a line feed with no space before it is wanted as a mark: HTML has it as it is.
    pub(crate) lines: bool,
    pub(crate) ends: MissingEnds,
}

impl Reader {
    /// Nothing was read yet. It takes no memory.
    pub(crate) fn new(alloc: Global) -> Reader {
        Reader {
            marks: Vec::new(alloc),
            runs: Runs::new(alloc),
            links: Vec::new(alloc),
            brackets: Vec::new(alloc),
            links_end: 0,
            lines: false,
            ends: MissingEnds::of(""),
        }
    }

    /// Discards what was read, and starts with another source in the same memory.
    pub(crate) fn restart(&mut self, source: &str, lines: bool)
        ensures marks { self.new.marks.items ≡ [] }
        ensures runs { self.new.runs.list.runs ≡ [] }
        ensures waiting { self.new.runs.waiting.items ≡ [] }
        ensures pairs { self.new.runs.pairs.items ≡ [] }
        ensures looks { self.new.runs.list.looks ≡ 0 }
        ensures links { self.new.links.items ≡ [] }
        ensures brackets { self.new.brackets.items ≡ [] }
        ensures links_end { self.new.links_end ≡ 0 }
        ensures lines { self.new.lines ≡ lines }
        ensures knows { Knows source.now self.new.ends }
    {
        self.marks.clear();
        self.runs.restart();
        self.links.clear();
        self.brackets.clear();
        self.links_end = 0;
        self.lines = lines;
        self.ends = MissingEnds::of(source);
    }

    /// Adds a mark between two places.
    #[inline(always)]
    pub(crate) fn add(&mut self, at: usize, end: usize, kind: Kind) -> Result<(), AllocError>
        requires at { at < 2 ^ 32 }
        requires end { end < 2 ^ 32 }
        ensures marks { OnOk result
            (self.new.marks.items ≡ self.old.marks.items ++ mark_at at end kind ∷ []) }
        ensures same { (self.new.runs ≡ self.old.runs) × (self.new.links ≡ self.old.links)
            × (self.new.brackets ≡ self.old.brackets) × (self.new.links_end ≡ self.old.links_end)
            × (self.new.lines ≡ self.old.lines) × (self.new.ends ≡ self.old.ends) }
    {
        Ok(self.marks.push(mark_between(at, end, kind))?)
    }

    /// Adds `[` or `![`.
    #[inline(always)]
    pub(crate) fn open(&mut self, image: bool, at: usize, end: usize) -> Result<(), AllocError>
        requires at { at < 2 ^ 32 }
        requires end { end < 2 ^ 32 }
        ensures marks { OnOk result
            (self.new.marks.items ≡ self.old.marks.items ++ mark_at at end Plain ∷ []) }
        ensures brackets { OnOk result (self.new.brackets.items ≡ self.old.brackets.items ++ record {
          mark = length self.old.marks.items;
          image = image;
          end = end;
          waiting = length self.old.runs.waiting.items;
        } ∷ []) }
        ensures same { (self.new.runs ≡ self.old.runs) × (self.new.links ≡ self.old.links)
            × (self.new.links_end ≡ self.old.links_end) × (self.new.lines ≡ self.old.lines)
            × (self.new.ends ≡ self.old.ends) }
    {
        self.brackets.push(Bracket {
            mark: self.marks.len(),
            image,
            end,
            waiting: self.runs.waiting.len(),
        })?;
        self.add(at, end, Kind::Plain)
    }

    /// Adds a link or an image.
    #[inline(always)]
    fn add_link(&mut self, link: Link) -> Result<(), AllocError>
        ensures links { OnOk result (self.new.links.items ≡ self.old.links.items ++ link ∷ []) }
        ensures same { (self.new.marks ≡ self.old.marks) × (self.new.runs ≡ self.old.runs)
            × (self.new.brackets ≡ self.old.brackets) × (self.new.links_end ≡ self.old.links_end)
            × (self.new.lines ≡ self.old.lines) × (self.new.ends ≡ self.old.ends) }
    {
        Ok(self.links.push(link)?)
    }

    /// What a `]` at a place makes, and where it ends.
    pub(crate) fn close(
        &mut self,
        rules: Rules,
        leaf: Leaf<'_>,
        at: usize,
    ) -> Result<usize, InlineFault>
        requires stands { Stands leaf.source.now at (byte "]") }
        requires reading { ReadingOf rules leaf at self.old }
        ensures reading { IfOk result (λ end. ReadingOf rules leaf.entry end self.new) }
        ensures lines { self.new.lines ≡ self.old.lines }
        ensures further { IfOk result (λ end. at < end) }
        ensures deep { result ≡ Err InlinesTooDeep → IsTooDeep rules leaf.entry }
        ensures short { result ≢ Err SourceTooLong }
    {
        let Some(bracket) = self.brackets.pop() else {
            return Ok(at + 1);
        };
        match self.end_after(rules, leaf, bracket, at)? {
            Some(link) => {
                self.make_link(leaf.limit, bracket, link, at)?;
                Ok(link.end)
            }
            None => Ok(at + 1),
        }
    }

    /// Whether a link follows a bracket, on its own or in an image.
    fn has_link_after(&self, bracket: Bracket) -> bool
        ensures { result ≡ nat_lt bracket.mark self.now.links_end }
    {
        bracket.mark < self.links_end
    }

    /// What follows the `]` at a place that makes a link or an image of its bracket. Links don't hold links.
    fn end_after(
        &self,
        rules: Rules,
        leaf: Leaf<'_>,
        bracket: Bracket,
        at: usize,
    ) -> Result<Option<LinkEnd>, NoMemory>
        requires { AreBrackets leaf.source.now bracket.end at }
        ensures ends { IfOk result (λ found. ends_of leaf.entry found ≡ end_for rules
            (defined_by leaf.entry) leaf.entry.source.now bracket self.now.links_end at) }
        ensures place { IfOk result (λ found. IfSome found (λ e. (at < e.end) × IsPlaced leaf.entry e)) }
    {
        if !bracket.image && self.has_link_after(bracket) {
            return Ok(None);
        }
        link_end(rules, leaf, bracket.end, at)
    }

    /// Makes the link or the image of a bracket, the last that was open, and of all that follows it up to the
    /// `]` at a place, given its target and where it ends.
    fn make_link(
        &mut self,
        limit: usize,
        bracket: Bracket,
        link: LinkEnd,
        at: usize,
    ) -> Result<(), InlineFault>
        requires pass { CanPass bracket.waiting self.old.runs }
        requires chained { AreChained (runs_in self.old.runs.list.runs)
            (pairs_in self.old.runs.pairs.items) }
        requires there { bracket.mark < length self.old.marks.items }
        requires few { length self.old.links.items < 2 ^ 32 }
        requires at { at < 2 ^ 32 }
        requires end { link.end < 2 ^ 32 }
        ensures marks { OnOk result (self.new.marks.items ≡ set self.old.marks.items bracket.mark
            (record (get_or self.old.marks.items bracket.mark (mark_at 0 0 Plain))
            { kind = Start (length self.old.links.items) })
            ++ mark_at at link.end (End (length self.old.links.items)) ∷ []) }
        ensures links { OnOk result (self.new.links.items ≡ self.old.links.items
            ++ record { image = bracket.image; target = link.target } ∷ []) }
        ensures links_end { OnOk result (self.new.links_end
            ≡ (if not bracket.image || nat_lt bracket.mark self.old.links_end
            then length self.old.marks.items + 1 else self.old.links_end)) }
        ensures same { (self.new.brackets ≡ self.old.brackets) × (self.new.lines ≡ self.old.lines)
            × (self.new.ends ≡ self.old.ends) }
        ensures passes { OnOk result ((front inside : List Segment)
            → WaitFrom bracket.waiting self.old.runs front inside
            → AllPaired self.old.runs self.new.runs front inside) }
        ensures runs { OnOk result (SameRuns self.old.runs.list.runs self.new.runs.list.runs) }
        ensures chained { OnOk result
            (AreChained (runs_in self.new.runs.list.runs) (pairs_in self.new.runs.pairs.items)) }
        ensures deep { result ≡ Err InlinesTooDeep → (front inside : List Segment)
            → WaitFrom bracket.waiting self.old.runs front inside
            → limit < items_depth (pair_all (items_in inside)) }
        ensures short { result ≢ Err SourceTooLong }
    {
        let holds_link = !bracket.image || self.has_link_after(bracket);
        self.runs.pair_from(bracket.waiting, limit)?;
        let number = self.links.len() as u32;
        self.add_link(Link {
            image: bracket.image,
            target: link.target,
        })?;
        self.marks[bracket.mark].kind = Kind::Start { number };
        self.add(at, link.end, Kind::End { number })?;
        if holds_link {
            self.links_end = self.marks.len();
        }
        Ok(())
    }
}
