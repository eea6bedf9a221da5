//! Calls that append the rest of a line to a text.
ghost use Rattle.std.specs.Prelude.{◌≡◌, ◌++◌, ◌∷◌, suc, false, string_bytes, IfOk, OnOk};
ghost use Rattle.cm_text.specs.Rules as all;
ghost use Rattle.cm_block.specs.Prelude.{seen_view, given, with_ending, line_feeds, add_text};
ghost use Rattle.cm_block.specs.OpenLeaf.{stays_open, line_of_leaf};
ghost use Rattle.cm_block.specs.LeafViews.{code_of};

use crate::counted_line::continuations::is_blank;
use crate::counted_line::starts::{content, strip_four};
use crate::leaf_text::LeafText;
use cm_text::View;
use std::alloc::AllocError;

/// Appends a line to a text.
pub(crate) fn push_line(text: &mut LeafText, line: &View<'_>) -> Result<(), AllocError>
    ensures { OnOk result (text.new ≡ text.old ++ (seen_view line.now).text) }
{
    for _ in 0..line.spaces {
        text.push(" ")?;
    }
    text.push(line.rest)
}

/// Appends a line and its line feed to a text.
pub(crate) fn push_whole_line(text: &mut LeafText, line: &View<'_>) -> Result<(), AllocError>
    ensures text { OnOk result (text.new ≡ text.old ++ with_ending (seen_view line.now)) }
    ensures feeds { OnOk result (line_feeds text.new ≡ suc (line_feeds text.old)) }
{
    push_line(text, line)?;
    text.end_line()
}

/// Appends a line feed and a line to a text.
pub(crate) fn push_next_line(text: &mut LeafText, line: &View<'_>) -> Result<(), AllocError>
    ensures text { OnOk result (text.new ≡ text.old ++ 10 ∷ (seen_view line.now).text) }
    ensures feeds { OnOk result (line_feeds text.new ≡ suc (line_feeds text.old)) }
{
    text.end_line()?;
    push_line(text, line)
}

/// Appends a line to a run, without its leading spaces and tabs (4.8 Paragraphs).
pub(crate) fn add_text(source: &mut LeafText, line: &View<'_>) -> Result<(), AllocError>
    ensures { OnOk result (source.new ≡ add_text source.old (seen_view line.now)) }
{
    source.begin_line()?;
    source.push(content(line))
}

/// Appends a line that follows indented code if it belongs to the block. Returns whether it does. A blank
/// line waits for a further line of code (4.4 Indented code blocks).
pub(crate) fn take_code_line(
    text: &mut LeafText,
    blank_lines: &mut LeafText,
    line: &View<'_>,
) -> Result<bool, AllocError>
    ensures taken { (by : all.Rules) →
        IfOk result (λ taken. given taken (stays_open (code_of text.new blank_lines.new))
        ≡ line_of_leaf by (code_of text.old blank_lines.old) (seen_view line.now)) }
    ensures kept { IfOk result (λ taken. taken ≡ false → text.new ≡ text.old) }
    ensures waiting { IfOk result (λ taken. taken ≡ false → blank_lines.new ≡ blank_lines.old) }
{
    let inner = strip_four(line);
    if is_blank(&inner) {
        push_whole_line(blank_lines, &inner)?;
        return Ok(true);
    }
    if inner.column - line.column < 4 {
        return Ok(false);
    }
    text.end_line()?;
    text.push_text(blank_lines)?;
    push_line(text, &inner)?;
    blank_lines.clear();
    Ok(true)
}
