//! Runs of text: lines that may become definitions, a paragraph or a heading. The definitions are at the
//! start of a run's source.
ghost use Rattle.std.specs.Prelude.{◌≡◌, ◌+◌, ◌<◌, ◌≤◌, ◌^◌, not, true};
ghost use Rattle.cm_block.specs.Prelude.{seen_view, is_empty, definitions_of, line_feeds, rest_of, next_line};
ghost use Rattle.cm_block.specs.declared.open_leaf.LeafLine.TheVariants.{Leaves};
ghost use Rattle.cm_block.specs.steps.LineTests.{Tested, ReadOnce};
ghost use Rattle.cm_block.specs.steps.LeafSteps.{leaf_line, heading_level};

use crate::counted_line::CountedLine;
use crate::open_leaf::{Ending, LeafLine};
use cm_scan::{definition, trim_end};
use cm_text::Rules;
use memchr::memchr_iter;

/// The number of line feeds in a text.
pub(crate) fn line_feeds(text: &str) -> usize
    ensures count { result ≡ line_feeds text.now }
    ensures few { result < 2 ^ 63 }
{
    // The iterator's own count would look at each byte.
    let mut count = 0;
    for _ in memchr_iter(b'\n', text.as_bytes()) {
        count += 1;
    }
    count
}

/// The text after the definitions at its start (4.7 Link reference definitions).
fn after_definitions(text: &str) -> &str
    ensures { result.now ≡ (definitions_of text.now).left }
{
    let mut rest = text;
    while let Some((_, end)) = definition(rest, 0) {
        rest = &rest[end..];
    }
    rest
}

/// Whether a run with this source has more than the definitions at its start.
fn has_rest(source: &str) -> bool
    ensures { result ≡ not (is_empty (rest_of source.now)) }
{
    !after_definitions(trim_end(source)).is_empty()
}

/// The level of the heading that the line makes of a run with this source. There has to be something above
/// the line that is no definition (4.3 Setext headings).
fn heading_level(source: &str, line: &mut CountedLine<'_>) -> Option<u8>
    ensures level { result ≡ heading_level source.now (seen_view line.old.rest) }
    ensures read { ReadOnce line.old line.new }
{
    let level = line.underline()?;
    if !has_rest(source) {
        return None;
    }
    Some(level)
}

/// What the next line is to a run with this source. An underline takes precedence over a thematic break and
/// an item.
pub(crate) fn next_line(rules: Rules, source: &str, line: &mut CountedLine<'_>) -> LeafLine
    ensures next { result ≡ leaf_line (next_line rules source.now (seen_view line.old.rest)) }
    ensures same { line.new.rest ≡ line.old.rest }
    ensures tests { Tested 1 3 line.old.tests line.new.tests }
    ensures lazy { result ≡ Leaves → line.old.rest.lazy ≡ true → line.new.tests ≤ line.old.tests + 1 }
{
    if let Some(next) = line.look() {
        return next;
    }
    if let Some(level) = heading_level(source, line) {
        return LeafLine::Last(Ending::Underline(level));
    }
    if line.interrupts_paragraph(rules) {
        return LeafLine::Leaves;
    }
    LeafLine::Stays
}
