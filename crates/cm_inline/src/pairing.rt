//! The pairs that are made of delimiter runs (CommonMark 0.31.2, 6.2 Emphasis and strong emphasis). Each kind
//! of closer has a bottom: no run below that number opens for such a closer.
//!
//! These functions have the list, and none of its fields: an entry is read only by `look`, which counts.
ghost use Rattle.std.specs.Prelude.{◌≡◌, ◌≢◌, ◌+◌, ◌-◌, ◌<◌, ◌≤◌, ◌^◌, ◌++◌, [], ◌∷◌, suc};
ghost use Rattle.std.specs.Prelude.{true, List, length, Err, Some, None, IfOk, OnOk, IfSome};
ghost use Rattle.cm_scan.specs.inlines.OnePass.{passed};
ghost use Rattle.cm_scan.specs.inlines.Pairing.{Item, Delimiters, used};
ghost use Rattle.cm_inline.specs.Closers.{all_kinds};
ghost use Rattle.cm_inline.specs.declared.fault.InlineFault.TheVariants.{InlinesTooDeep, SourceTooLong};
ghost use Rattle.cm_inline.specs.steps.pairing.Events.{tag_of};
ghost use Rattle.cm_inline.specs.steps.pairing.ClosingRuns.{RunComes, CloserDone, PassGoesOn, PartAdded};
ghost use Rattle.cm_inline.specs.steps.pairing.Parts.{Part, with_pair};
ghost use Rattle.cm_inline.specs.steps.pairing.States.{IsFresh, IsReady, RunSteps};
ghost use Rattle.cm_inline.specs.steps.pairing.States.{run_at, state_of, with_left, held, held_before};
ghost use Rattle.cm_inline.specs.steps.Depths.{items_depth};
ghost use Rattle.cm_inline.specs.steps.Entries.{AllOpen, Below, Falling, last_entry, before_last, leaving};
ghost use Rattle.cm_inline.specs.steps.Runs.{byte_of, entry_of, run_of, tag_in, runs_in, pairs_in};
ghost use Rattle.cm_inline.specs.steps.Searching.{find_opener, looks_for, from_found, spent};
ghost use Rattle.cm_inline.specs.steps.Slots.{first_up};

use crate::delimiter_runs::{DelimiterRun, KINDS, Marker, delimiters_match, kind, used};
use crate::fault::InlineFault;
use crate::runs::{DelimiterList, Run, RunNumber};
use std::alloc::AllocError;

/// What a pair makes of what is between its runs.
#[derive(Clone, Copy)]
pub(crate) enum Emphasis {
    Emph,
    Strong,
    Strike,
}

/// A pair: what it makes, and the pair that its opener opened before, counted from 1.
#[derive(Clone, Copy)]
pub(crate) struct Pair {
    pub(crate) emphasis: Emphasis,
    pub(crate) before: u32,
}

/// An entry of the list, as it was read.
#[derive(Clone, Copy)]
struct Opener {
    number: RunNumber,
    run: Run,
}

/// A number of 32 bits.
fn index(number: usize) -> Result<u32, AllocError>
    ensures { IfOk result (λ index. index ≡ number) }
{
    u32::try_from(number).map_err(|_| AllocError)
}

fn emphasis_of(marker: Marker, count: u32) -> Emphasis
    ensures { tag_in result ≡ tag_of (byte_of marker) count }
{
    match marker {
        Marker::Tilde => Emphasis::Strike,
        _ if count == 2 => Emphasis::Strong,
        _ => Emphasis::Emph,
    }
}

/// The nearest entry before the last that opens for a closer, if there is one from a bottom on. The entries
/// between them are taken out then.
#[inline(always)]
fn find(
    list: &mut DelimiterList,
    number: RunNumber,
    closer: DelimiterRun,
    bottom: RunNumber,
) -> Option<Opener>
    requires last { first_up list.old.entries ≡ suc number }
    requires earlier { Below number (before_last list.old.entries) }
    requires open { AllOpen (before_last list.old.entries) }
    requires few { list.old.looks + length (before_last list.old.entries) < 2 ^ 127 }
    ensures none { result ≡ None
        → (find_opener (run_of closer) bottom (before_last list.old.entries) ≡ None)
        × (list.new.entries ≡ list.old.entries) }
    ensures some { IfSome result (λ opener.
        (find_opener (run_of closer) bottom (before_last list.old.entries)
        ≡ Some (entry_of opener.number opener.run))
        × (list.new.entries ≡ last_entry list.old.entries
        ++ from_found (run_of closer) bottom (before_last list.old.entries))
        × (opener.run ≡ run_at list.old.runs opener.number) × (1 ≤ opener.run.run.left)) }
    ensures looks { list.new.looks
        ≡ list.old.looks + looks_for (run_of closer) bottom (before_last list.old.entries) }
    ensures runs { list.new.runs ≡ list.old.runs }
{
    let mut at = list.before(number);
    while let Some(place) = at.from(bottom) {
        let run = list.look(place);
        if delimiters_match(closer, run.run) {
            list.remove_between(place, number);
            return Some(Opener { number: place, run });
        }
        at = list.before(place);
    }
    None
}

/// Makes the pair of the entry before the last and a closer, and returns what is left of the closer.
#[inline(always)]
fn make_pair(
    list: &mut DelimiterList,
    pairs: &mut Vec<Pair>,
    opener: Opener,
    closer: DelimiterRun,
) -> Result<u32, AllocError>
    requires there { opener.number < length list.old.runs }
    requires opener { last_entry (before_last list.old.entries) ≡ entry_of opener.number opener.run ∷ [] }
    requires read { opener.run ≡ run_at list.old.runs opener.number }
    requires falling { Falling list.old.entries }
    requires some { (1 ≤ opener.run.run.left) × (1 ≤ closer.left) }
    ensures left { IfOk result
        (λ left. left + used (run_of opener.run.run) (run_of closer) ≡ closer.left) }
    ensures pairs { OnOk result (pairs_in pairs.new.items ≡ with_pair
        (tag_of (byte_of closer.marker) (used (run_of opener.run.run) (run_of closer))) opener.number
        (runs_in list.old.runs) (pairs_in pairs.old.items)) }
    ensures runs { OnOk result (list.new.runs ≡ with_left opener.number
        (opener.run.run.left - used (run_of opener.run.run) (run_of closer))
        (length pairs.old.items + 1) list.old.runs) }
    ensures entries { OnOk result (list.new.entries ≡ last_entry list.old.entries
        ++ leaving (opener.run.run.left - used (run_of opener.run.run) (run_of closer))
        (before_last list.old.entries)) }
    ensures looks { list.new.looks ≡ list.old.looks }
{
    let count = used(opener.run.run, closer);
    let left = opener.run.run.left - count;
    pairs.push(Pair {
        emphasis: emphasis_of(closer.marker, count),
        before: opener.run.opened,
    })?;
    let opened = index(pairs.len())?;
    list.leave(opener.number, left, opened);
    if left == 0 {
        list.remove(opener.number);
    }
    Ok(closer.left - count)
}

/// Makes all pairs in which the last entry closes, with openers before it, and returns what is left of it.
fn make_pairs(
    list: &mut DelimiterList,
    pairs: &mut Vec<Pair>,
    number: RunNumber,
    run: DelimiterRun,
    bottoms: &mut [RunNumber; KINDS],
    limit: usize,
) -> Result<u32, InlineFault>
    requires there { number < length list.old.runs }
    requires last { first_up list.old.entries ≡ suc number }
    requires closes { run.closes ≡ true }
    requires open { AllOpen (before_last list.old.entries) }
    requires ready { IsReady (state_of (held_before list.old pairs.old.items) bottoms.old number).list
        bottoms.old }
    requires few { spent all_kinds (state_of (held_before list.old pairs.old.items) bottoms.old number).list
        bottoms.old < 2 ^ 127 }
    ensures last { OnOk result (last_entry list.new.entries ≡ last_entry list.old.entries) }
    ensures own { OnOk result (run_at list.new.runs number ≡ run_at list.old.runs number) }
    ensures steps { OnOk result (RunSteps (held_before list.old pairs.old.items)
        (held_before list.new pairs.new.items) bottoms.old bottoms.new number number 0) }
    ensures fewer { IfOk result (λ left. left ≤ run.left) }
    ensures done { IfOk result (λ left. (parts : List Part) (had : List Item)
        → RunComes parts (state_of (held_before list.old pairs.old.items) bottoms.old number) (run_of run) had
        → CloserDone parts (state_of (held_before list.old pairs.old.items) bottoms.old number) (run_of run)
        had (state_of (held_before list.new pairs.new.items) bottoms.new number) left) }
    ensures deep { result ≡ Err InlinesTooDeep → (parts : List Part) (had : List Item)
        → RunComes parts (state_of (held_before list.old pairs.old.items) bottoms.old number) (run_of run) had
        → limit < items_depth (passed had (Delimiters (run_of run))) }
    ensures short { result ≢ Err SourceTooLong }
{
    let kind = kind(run);
    let first = pairs.len();
    let mut closer = run;
    while closer.left > 0 {
        let Some(opener) = find(list, number, closer, bottoms[kind]) else {
            bottoms[kind] = number;
            return Ok(closer.left);
        };
        closer.left = make_pair(list, pairs, opener, closer)?;
        if pairs.len() - first > limit {
            return Err(InlineFault::InlinesTooDeep);
        }
    }
    Ok(0)
}

/// Makes all pairs in which the last entry closes, and writes them down at it. Returns what is left of it.
fn close(
    list: &mut DelimiterList,
    pairs: &mut Vec<Pair>,
    number: RunNumber,
    run: DelimiterRun,
    bottoms: &mut [RunNumber; KINDS],
    limit: usize,
) -> Result<u32, InlineFault>
    requires there { number < length list.old.runs }
    requires last { first_up list.old.entries ≡ suc number }
    requires held { run ≡ (run_at list.old.runs number).run }
    requires closes { run.closes ≡ true }
    requires open { AllOpen (before_last list.old.entries) }
    requires ready { IsReady (state_of (held_before list.old pairs.old.items) bottoms.old number).list
        bottoms.old }
    requires few { spent all_kinds (state_of (held_before list.old pairs.old.items) bottoms.old number).list
        bottoms.old < 2 ^ 127 }
    ensures last { IfOk result (λ left. last_entry list.new.entries
        ≡ record { place = number; run = record (run_of run) { left = left } } ∷ []) }
    ensures steps { OnOk result (RunSteps (held_before list.old pairs.old.items)
        (held_before list.new pairs.new.items) bottoms.old bottoms.new number number 0) }
    ensures fewer { IfOk result (λ left. left ≤ run.left) }
    ensures put { IfOk result (λ left. (parts : List Part) (had : List Item)
        → RunComes parts (state_of (held_before list.old pairs.old.items) bottoms.old number) (run_of run) had
        → IsFresh list.old.runs number
        → PartAdded parts (state_of (held_before list.old pairs.old.items) bottoms.old number) (run_of run)
        had (state_of (held_before list.new pairs.new.items) bottoms.new number) number left) }
    ensures deep { result ≡ Err InlinesTooDeep → (parts : List Part) (had : List Item)
        → RunComes parts (state_of (held_before list.old pairs.old.items) bottoms.old number) (run_of run) had
        → limit < items_depth (passed had (Delimiters (run_of run))) }
    ensures short { result ≢ Err SourceTooLong }
{
    let from = index(pairs.len())?;
    let left = make_pairs(list, pairs, number, run, bottoms, limit)?;
    let to = index(pairs.len())?;
    list.close(number, left, from, to);
    Ok(left)
}

/// Makes all pairs in which a run closes. What is left of it stays as an entry, if it may open.
pub(crate) fn pass(
    list: &mut DelimiterList,
    pairs: &mut Vec<Pair>,
    number: RunNumber,
    run: DelimiterRun,
    bottoms: &mut [RunNumber; KINDS],
    limit: usize,
) -> Result<(), InlineFault>
    requires there { number < length list.old.runs }
    requires held { run ≡ (run_at list.old.runs number).run }
    requires some { 1 ≤ run.left }
    requires open { AllOpen list.old.entries }
    requires ready { IsReady (state_of (held list.old pairs.old.items) bottoms.old number).list bottoms.old }
    requires few { spent all_kinds (state_of (held list.old pairs.old.items) bottoms.old number).list
        bottoms.old < 2 ^ 127 }
    ensures steps { OnOk result (RunSteps (held list.old pairs.old.items) (held list.new pairs.new.items)
        bottoms.old bottoms.new number (number + 1) (all_kinds + 1 + run.left)) }
    ensures next { OnOk result ((parts : List Part) (had : List Item)
        → RunComes parts (state_of (held list.old pairs.old.items) bottoms.old number) (run_of run) had
        → IsFresh list.old.runs number
        → PassGoesOn parts (state_of (held list.old pairs.old.items) bottoms.old number) (run_of run) had
        (state_of (held list.new pairs.new.items) bottoms.new (number + 1)) number) }
    ensures deep { result ≡ Err InlinesTooDeep → (parts : List Part) (had : List Item)
        → RunComes parts (state_of (held list.old pairs.old.items) bottoms.old number) (run_of run) had
        → limit < items_depth (passed had (Delimiters (run_of run))) }
    ensures short { result ≢ Err SourceTooLong }
{
    if !run.closes {
        if run.opens {
            list.enter(number);
        }
        return Ok(());
    }
    list.enter(number);
    let left = close(list, pairs, number, run, bottoms, limit)?;
    if !run.opens || left == 0 {
        list.remove(number);
    }
    Ok(())
}
