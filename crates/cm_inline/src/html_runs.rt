//! The HTML of delimiter runs: the tags of their pairs, and the characters that are left.
ghost use Rattle.std.specs.Prelude.{◌≡◌, ◌++◌, ◌<◌, ◌≤◌, length, OnOk};
ghost use Rattle.cm_inline.specs.steps.pairing.Parts.{starts, ends_between, run_events};
ghost use Rattle.cm_inline.specs.steps.pairing.States.{AreChained, run_at};
ghost use Rattle.cm_inline.specs.steps.pairing.Readings.{Tags, start_html, end_html};
ghost use Rattle.cm_inline.specs.steps.Runs.{tag_in, runs_in, pairs_in, paired_run};
ghost use Rattle.cm_inline.specs.steps.Writing.{Adds, ComeBefore};

use crate::html_texts::push_left;
use crate::pairing::{Emphasis, Pair};
use crate::runs::Runs;
use cm_html::{Element, Pages};
use std::alloc::AllocError;

/// Adds the start tag of emphasis.
#[inline(always)]
fn push_emphasis_start(html: &mut Pages, emphasis: Emphasis) -> Result<(), AllocError>
    ensures { OnOk result (html.new ≡ html.old ++ start_html (tag_in emphasis)) }
{
    match emphasis {
        Emphasis::Emph => html.push_str(Element::Emph.start()),
        Emphasis::Strong => html.push_str(Element::Strong.start()),
        Emphasis::Strike => html.push_str(Element::Strike.start()),
    }
}

/// Adds the end tag of emphasis.
#[inline(always)]
fn push_emphasis_end(html: &mut Pages, emphasis: Emphasis) -> Result<(), AllocError>
    ensures { OnOk result (html.new ≡ html.old ++ end_html (tag_in emphasis)) }
{
    match emphasis {
        Emphasis::Emph => html.push_str(Element::Emph.end()),
        Emphasis::Strong => html.push_str(Element::Strong.end()),
        Emphasis::Strike => html.push_str(Element::Strike.end()),
    }
}

/// Adds the ends of a range of pairs.
#[inline(always)]
fn push_ends(html: &mut Pages, pairs: &[Pair], from: u32, to: u32) -> Result<(), AllocError>
    requires { to ≤ length pairs.now }
    ensures { OnOk result (Adds Tags html.old (ends_between (pairs_in pairs.now) from to) html.new) }
{
    for at in from..to {
        push_emphasis_end(html, pairs[at as usize].emphasis)?;
    }
    Ok(())
}

/// Adds the starts of the pairs that a run opens, given the last of them.
#[inline(always)]
fn push_starts(html: &mut Pages, pairs: &[Pair], opened: u32) -> Result<(), AllocError>
    requires opened { opened ≤ length pairs.now }
    requires chained { ComeBefore (pairs_in pairs.now) }
    ensures { OnOk result (Adds Tags html.old (starts (pairs_in pairs.now) opened) html.new) }
{
    let mut next = opened;
    while next != 0 {
        let pair = pairs[next as usize - 1];
        push_emphasis_start(html, pair.emphasis)?;
        next = pair.before;
    }
    Ok(())
}

/// Adds the HTML of a run: the ends of pairs, what is left, and the starts of pairs.
#[inline(always)]
pub(crate) fn push_run(html: &mut Pages, runs: &Runs, number: u32) -> Result<(), AllocError>
    requires number { number < length runs.now.list.runs }
    requires chained { AreChained (runs_in runs.now.list.runs) (pairs_in runs.now.pairs.items) }
    ensures { OnOk result (Adds Tags html.old (run_events (pairs_in runs.now.pairs.items) number
        (paired_run (run_at runs.now.list.runs number))) html.new) }
{
    let run = runs.run(number);
    push_ends(html, runs.pairs.as_slice(), run.from, run.to)?;
    push_left(html, run.run)?;
    push_starts(html, runs.pairs.as_slice(), run.opened)
}
