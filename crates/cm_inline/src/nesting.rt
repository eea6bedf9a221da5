//! How deep the inlines of marks nest.
ghost use Rattle.std.specs.Prelude.{◌≡◌, ◌+◌, ◌-◌, ◌<◌, ◌≤◌, ◌^◌, ℕ, Bool, List, length, nat_lt};
ghost use Rattle.cm_tree.specs.Definitions.{Targets};
ghost use Rattle.cm_inline.specs.steps.pairing.Events.{Tag, Start, End};
ghost use Rattle.cm_inline.specs.steps.pairing.Parts.{starts, run_events};
ghost use Rattle.cm_inline.specs.steps.pairing.States.{AreChained, run_at};
ghost use Rattle.cm_inline.specs.steps.Nesting.{rise, rise_all, CanRiseAll, NestsTo};
ghost use Rattle.cm_inline.specs.steps.Runs.{runs_in, pairs_in, paired_run};
ghost use Rattle.cm_inline.specs.steps.Writing.{mark_events, ComeBefore, IsNumbered};

use crate::brackets::Reader;
use crate::marks::{Kind, Mark};
use crate::pairing::Pair;
use crate::runs::Runs;

/// How deep the current place nests, and the greatest depth so far.
#[derive(Clone, Copy)]
struct Level {
    now: usize,
    most: usize,
}

impl Level {
    /// After the start of a node.
    fn begin(self) -> Level
        requires { self.now + 1 < 2 ^ 64 }
        ensures { (tag : Tag) → result ≡ rise self (Start tag) }
    {
        let now = self.now + 1;
        Level {
            now,
            most: self.most.max(now),
        }
    }

    /// After the ends of the given number of nodes.
    fn end(self, count: usize) -> Level
        requires { count ≤ self.now }
        ensures { result ≡ record { now = self.now - count; most = self.most } }
    {
        Level {
            now: self.now - count,
            most: self.most,
        }
    }
}

/// The level after the starts of the pairs that a run opens, given the last of them.
fn after_starts(level: Level, pairs: &[Pair], opened: u32) -> Level
    requires opened { opened ≤ length pairs.now }
    requires chained { ComeBefore (pairs_in pairs.now) }
    requires rises { CanRiseAll (2 ^ 64) level (starts (pairs_in pairs.now) opened) }
    ensures { result ≡ rise_all level (starts (pairs_in pairs.now) opened) }
{
    let mut level = level;
    let mut next = opened;
    while next != 0 {
        level = level.begin();
        next = pairs[next as usize - 1].before;
    }
    level
}

/// The level after a run, with the ends and starts of its pairs.
fn after_run(level: Level, runs: &Runs, number: u32) -> Level
    requires number { number < length runs.now.list.runs }
    requires chained { AreChained (runs_in runs.now.list.runs) (pairs_in runs.now.pairs.items) }
    requires rises { CanRiseAll (2 ^ 64) level (run_events (pairs_in runs.now.pairs.items) number
        (paired_run (run_at runs.now.list.runs number))) }
    ensures { result ≡ rise_all level (run_events (pairs_in runs.now.pairs.items) number
        (paired_run (run_at runs.now.list.runs number))) }
{
    let run = runs.run(number);
    let level = level.end((run.to - run.from) as usize);
    after_starts(level, runs.pairs.as_slice(), run.opened)
}

/// The level after a mark.
fn after_mark(level: Level, reader: &Reader, mark: Mark) -> Level
    requires high { level.now ≤ level.most }
    requires number { IsNumbered reader.now.runs.list.runs mark.kind }
    requires chained { AreChained (runs_in reader.now.runs.list.runs)
        (pairs_in reader.now.runs.pairs.items) }
    requires rises { (source : List ℕ) × (targets : Targets)
        × CanRiseAll (2 ^ 64) level (mark_events source targets reader.now mark) }
    ensures { (source : List ℕ) (targets : Targets)
        → result ≡ rise_all level (mark_events source targets reader.now mark) }
{
    match mark.kind {
        Kind::Autolink { .. } => Level {
            now: level.now,
            most: level.most.max(level.now + 1),
        },
        Kind::Run { number } => after_run(level, &reader.runs, number),
        Kind::Start { .. } => level.begin(),
        Kind::End { .. } => level.end(1),
        _ => level,
    }
}

/// How deep the inlines of marks nest.
#[inline(never)]
fn deepest(reader: &Reader) -> usize
    requires { (lines : Bool) × (source : List ℕ) × (targets : Targets) × (depth : ℕ)
        × NestsTo lines source targets reader.now depth }
    ensures { (lines : Bool) (source : List ℕ) (targets : Targets) (depth : ℕ)
        → NestsTo lines source targets reader.now depth → result ≡ depth }
{
    let mut level = Level { now: 0, most: 0 };
    for mark in reader.marks.as_slice() {
        level = after_mark(level, reader, *mark);
    }
    level.most
}

/// Whether the inlines of marks nest deeper than a limit.
#[inline(always)]
pub(crate) fn nests_past(reader: &Reader, limit: usize) -> bool
    requires { (lines : Bool) × (source : List ℕ) × (targets : Targets) × (depth : ℕ)
        × NestsTo lines source targets reader.now depth }
    ensures { (lines : Bool) (source : List ℕ) (targets : Targets) (depth : ℕ)
        → NestsTo lines source targets reader.now depth → result ≡ nat_lt limit depth }
{
    // They nest one deeper than there are pairs and links, at most: an autolink has no start of its own.
    reader.runs.pairs.len() + reader.links.len() >= limit && deepest(reader) > limit
}
