//! Which delimiter runs may open and may close emphasis (CommonMark 0.31.2,
//! 6.2 Emphasis and strong emphasis).
ghost use Rattle.std.specs.Prelude.{◌≡◌, ◌-◌, ◌<◌, ◌≤◌, ◌^◌, take, drop, reverse};
ghost use Rattle.std.specs.Str.{IsCharBoundary};
ghost use Rattle.cm_scan.specs.inlines.Delimiters.{neighbour, is_left_flanking, may_open};
ghost use Rattle.cm_scan.specs.inlines.Atoms.{run_between};
ghost use Rattle.cm_inline.specs.steps.Runs.{byte_of, run_of, neighbour_of};

use crate::delimiter_runs::{DelimiterRun, Marker};
use cm_scan::{first_character, last_character};
use cm_text::{Rules, is_punct_by, is_space};

/// The character next to a run, as it matters to the run.
#[derive(Clone, Copy)]
pub(crate) enum Neighbour {
    /// Unicode whitespace, or the start or the end of the leaf.
    Whitespace,
    Punctuation,
    Other,
}

impl Neighbour {
    /// The character next to a run, if there is one.
    #[tactic(auto, unfolding(cm_scan::specs::inlines::Delimiters::neighbour))]
    fn of(rules: Rules, beside: Option<char>) -> Neighbour
        ensures { neighbour_of result ≡ neighbour rules beside }
    {
        match beside {
            Some(c) if c.is_ascii_alphabetic() => Neighbour::Other,
            Some(c) if is_space(c) => Neighbour::Whitespace,
            Some(c) if is_punct_by(rules, c) => Neighbour::Punctuation,
            Some(_) => Neighbour::Other,
            None => Neighbour::Whitespace,
        }
    }
}

/// Whether a run between these is left-flanking.
fn is_left_flanking(before: Neighbour, after: Neighbour) -> bool
    ensures { result ≡ is_left_flanking (neighbour_of before) (neighbour_of after) }
{
    match after {
        Neighbour::Whitespace => false,
        Neighbour::Punctuation => !matches!(before, Neighbour::Other),
        Neighbour::Other => true,
    }
}

/// Whether a run between these may open emphasis. It may close it where its mirror image may open it.
fn may_open(marker: Marker, before: Neighbour, after: Neighbour) -> bool
    ensures { result ≡ may_open (byte_of marker) (neighbour_of before) (neighbour_of after) }
{
    is_left_flanking(before, after)
        && (!matches!(marker, Marker::Underscore)
            || !is_left_flanking(after, before)
            || matches!(before, Neighbour::Punctuation))
}

/// The delimiter run between two places.
#[tactic(auto, unfolding(cm_scan::specs::inlines::Atoms::run_between))]
#[inline(always)]
pub(crate) fn run_between(
    rules: Rules,
    source: &str,
    marker: Marker,
    at: usize,
    end: usize,
) -> DelimiterRun
    requires order { at ≤ end }
    requires short { end < 2 ^ 32 }
    requires start { IsCharBoundary source.now at }
    requires end { IsCharBoundary source.now end }
    ensures run { run_of result ≡ run_between rules (byte_of marker) (end - at)
        (reverse (take at source.now)) (drop end source.now) }
{
    let before = Neighbour::of(rules, last_character(&source[..at]));
    let after = Neighbour::of(rules, first_character(&source[end..]));
    DelimiterRun {
        marker,
        whole: (end - at) as u32,
        left: (end - at) as u32,
        opens: may_open(marker, before, after),
        closes: may_open(marker, after, before),
    }
}
