//! Inlines, spelled into a line.
ghost use Rattle.std.specs.Prelude.{◌≡◌, ◌++◌, false, ◌==◌, map, OnOk};
ghost use Rattle.std.specs.List.{list_any};
ghost use Rattle.cm_source.specs.Texts.{padding, spelled_text, spelled_code, spelled_target};
ghost use Rattle.cm_source.specs.Inlines.{spelled, spelled_inlines, is_line_end};
ghost use Rattle.cm_source.specs.steps.WrittenLines.{Lays};

use crate::source_lines::SourceLines;
use crate::texts::{is_padded, longest_run, push_target, push_text};
use cm_tree::Inline;
use std::alloc::AllocError;

/// Spells a text.
#[inline(always)]
pub(crate) fn spell_text(
    source: &mut SourceLines,
    text: &str,
    first: bool,
    last: bool,
) -> Result<(), AllocError>
    ensures { OnOk result (Lays source.old source.new (spelled_text first last text.now)) }
{
    push_text(&mut source.text, text, first, last)
}

/// The space, if there is one, that reading a code span of this text strips on each side.
fn padding(text: &str) -> &'static str
    ensures padding { result.now ≡ padding text.now }
    ensures one_line { list_any (λ b. b == 10) result.now ≡ false }
{
    if is_padded(text.as_bytes()) { " " } else { "" }
}

/// Spells a code span.
fn spell_code(source: &mut SourceLines, text: &str) -> Result<(), AllocError>
    ensures { OnOk result (Lays source.old source.new (spelled_code text.now)) }
{
    let marks = longest_run(text) + 1;
    let padding = padding(text);
    source.push_marks('`', marks)?;
    source.push(padding)?;
    source.push_lines(text)?;
    source.push(padding)?;
    source.push_marks('`', marks)
}

/// Spells what follows the content of a link or an image.
fn spell_target(source: &mut SourceLines, dest: &str, title: &str) -> Result<(), AllocError>
    ensures { OnOk result (Lays source.old source.new (spelled_target dest.now title.now)) }
{
    push_target(&mut source.text, dest, title)
}

/// Whether a line ends right before inlines. `last` says whether one ends after them.
fn is_line_end(last: bool, inlines: &[Inline]) -> bool
    ensures { result ≡ is_line_end last (map spelled inlines.now) }
{
    match inlines.first() {
        Some(next) => matches!(next, Inline::Soft),
        None => last,
    }
}

/// Whether a line starts right after an inline.
fn begins_line(inline: &Inline) -> bool
    ensures { result ≡ (spelled inline.now).begins_line }
{
    matches!(inline, Inline::Soft | Inline::Hard)
}

/// Spells inlines, which may start and end a line.
#[cycle(inlines)]
pub(crate) fn spell_inlines(
    source: &mut SourceLines,
    inlines: &[Inline],
    first: bool,
    last: bool,
) -> Result<(), AllocError>
    ensures { OnOk result (Lays source.old source.new (spelled_inlines first last inlines.now)) }
{
    let mut first = first;
    for (at, inline) in inlines.iter().enumerate() {
        spell_inline(source, inline, first, is_line_end(last, &inlines[at + 1..]))?;
        first = begins_line(inline);
    }
    Ok(())
}

/// Spells an inline.
#[cycle(inlines)]
fn spell_inline(
    source: &mut SourceLines,
    inline: &Inline,
    first: bool,
    last: bool,
) -> Result<(), AllocError>
    ensures { OnOk result (Lays source.old source.new ((spelled inline.now).spelling first last)) }
{
    match inline {
        Inline::Text(text) => spell_text(source, text.as_str(), first, last),
        Inline::Code(text) => spell_code(source, text.as_str()),
        Inline::Html(text) => source.push_lines(text.as_str()),
        Inline::Soft => source.break_line(),
        Inline::Hard => source.push_lines("\\\n"),
        Inline::Emph(content) => spell_between(source, "*", content.as_slice()),
        Inline::Strong(content) => spell_between(source, "**", content.as_slice()),
        Inline::Strike(content) => spell_between(source, "~~", content.as_slice()),
        Inline::Link {
            dest,
            title,
            content,
        } => spell_link(
            source,
            "[",
            content.as_slice(),
            dest.as_str(),
            title.as_str(),
        ),
        Inline::Image {
            dest,
            title,
            content,
        } => spell_link(
            source,
            "![",
            content.as_slice(),
            dest.as_str(),
            title.as_str(),
        ),
    }
}

/// Spells inlines between two marks.
#[cycle(inlines)]
fn spell_between(source: &mut SourceLines, mark: &str, content: &[Inline]) -> Result<(), AllocError>
    requires { list_any (λ b. b == 10) mark.now ≡ false }
    ensures { OnOk result (Lays source.old source.new
        (mark.now ++ spelled_inlines false false content.now ++ mark.now)) }
{
    source.push(mark)?;
    spell_inlines(source, content, false, false)?;
    source.push(mark)
}

/// Spells a link or an image, which starts with this mark.
#[cycle(inlines)]
fn spell_link(
    source: &mut SourceLines,
    mark: &str,
    content: &[Inline],
    dest: &str,
    title: &str,
) -> Result<(), AllocError>
    requires { list_any (λ b. b == 10) mark.now ≡ false }
    ensures { OnOk result (Lays source.old source.new
        (mark.now ++ spelled_inlines false false content.now ++ spelled_target dest.now title.now)) }
{
    source.push(mark)?;
    spell_inlines(source, content, false, false)?;
    spell_target(source, dest, title)
}
