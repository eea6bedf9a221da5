//! Autolinks and code spans for callers that count no looks.
ghost use Rattle.std.specs.Prelude.{◌≡◌, ◌<◌, ◌≤◌, ◌-◌, false, length, drop, get_or, option_map, IfSome};
ghost use Rattle.cm_scan.specs.Scanned.{autolink_with, run_at};
ghost use Rattle.cm_scan.specs.spans.Autolinks.{followed_autolink};
ghost use Rattle.cm_scan.specs.spans.CodeSpans.{up_to_run};

use crate::{autolinks, code_spans};
use cm_text::{Looks, Rest, Rules};
use std::sync::ledger::{Blank, Ledger};

/// An autolink, and the bytes after it.
#[derive(Clone, Copy)]
pub(crate) struct PlainAutolink<'a> {
    /// what is between `<` and `>`.
    pub(crate) text: &'a [u8],
    /// Whether it is an e-mail address.
    pub(crate) is_address: bool,
    /// What is left.
    pub(crate) rest: &'a [u8],
}

/// The autolink at the start of a text, if the rules follow its address.
#[inline(always)]
pub(crate) fn autolink<'a, L: Ledger>(
    rules: Rules,
    text: &'a [u8],
    blank: Blank,
) -> Option<PlainAutolink<'a>>
    requires name { blank.name ≡ L.name }
    requires parts { blank.parts ≡ L.parts }
    requires some { 0 < blank.parts }
    ensures read { option_map (λ link. autolink_with link.is_address link.text.now link.rest.now) result
        ≡ followed_autolink rules text.now }
{
    let mut looks = Looks::<L>::start(blank);
    let link = autolinks::autolink_in(rules, &Rest::of(text), &mut looks)?;
    Some(PlainAutolink {
        text: link.text.lend(link.text.len(), &mut looks),
        is_address: link.is_address,
        rest: link.rest.lend(link.rest.len(), &mut looks),
    })
}

/// Where the next run of exactly `count` backticks starts and ends, from a place on.
#[inline(always)]
pub(crate) fn next_backticks<L: Ledger>(
    text: &[u8],
    from: usize,
    count: usize,
    blank: Blank,
) -> Option<(usize, usize)>
    requires within { from ≤ length text.now }
    requires name { blank.name ≡ L.name }
    requires parts { blank.parts ≡ L.parts }
    requires some { 0 < blank.parts }
    ensures read { run_at text.now from result ≡ up_to_run count false (drop from text.now) }
    ensures within { IfSome result (λ run. (from ≤ run.0) × (run.0 < run.1) × (run.1 ≤ length text.now)) }
    ensures backticks { IfSome result (λ run.
        (get_or text.now run.0 0 ≡ 96) × (get_or text.now (run.1 - 1) 0 ≡ 96)) }
{
    code_spans::next_backticks(&Rest::of(text), from, count, &mut Looks::<L>::start(blank))
}
