//! The alternative text of images, as HTML has it. It is written from the source.
ghost use Rattle.std.specs.Prelude.{◌≡◌, ℕ, ◌<◌, false, IfOk, OnOk};
ghost use Rattle.cm_tree.specs.Definitions.{Targets};
ghost use Rattle.cm_inline.specs.steps.pairing.Readings.{Alternative, page};
ghost use Rattle.cm_inline.specs.steps.Writing.{is_end_of, mark_events, events_after};
ghost use Rattle.cm_inline.specs.steps.Writing.{Adds, GoesOn, IsMarkIn, IsImageAt};

use crate::brackets::Reader;
use crate::html_texts::{push_character, push_left, push_one_line};
use crate::marks::{Kind, Mark, Place, part};
use cm_html::Pages;
use std::alloc::AllocError;

/// Adds what a mark contributes.
fn push_mark(html: &mut Pages, source: &str, reader: &Reader, mark: Mark) -> Result<(), AllocError>
    requires { (targets : Targets) × IsMarkIn source.now targets reader.now mark }
    ensures pushed { OnOk result ((link : ℕ) (targets : Targets) → is_end_of link mark.kind ≡ false
        → IsMarkIn source.now targets reader.now mark
        → Adds (Alternative link) html.old (mark_events source.now targets reader.now mark) html.new) }
{
    match mark.kind {
        Kind::Plain => html.push_escaped(part(source, mark.at, mark.end)),
        Kind::Escaped => html.push_escaped(part(source, mark.at, mark.end)),
        Kind::Nothing => Ok(()),
        Kind::Character(character) => push_character(html, character),
        Kind::Code { from, to } => push_one_line(html, part(source, from, to)),
        Kind::Html => html.push_escaped(part(source, mark.at, mark.end)),
        Kind::Autolink { .. } => html.push_escaped(part(source, mark.at + 1, mark.end - 1)),
        Kind::Soft => html.push_str(" "),
        Kind::Hard => html.push_str(" "),
        Kind::Run { number } => push_left(html, reader.runs.run(number).run),
        Kind::Start { .. } => Ok(()),
        Kind::End { .. } => Ok(()),
    }
}

/// Whether a mark is the end of the link or image with this number.
fn is_end(mark: Mark, link: u32) -> bool
    ensures { result ≡ is_end_of link mark.kind }
{
    match mark.kind {
        Kind::End { number } => number == link,
        _ => false,
    }
}

/// Adds the alternative text of the image with this number, whose start is this mark. Returns the place of
/// its end.
pub(crate) fn push_alternative_text(
    html: &mut Pages,
    source: &str,
    reader: &Reader,
    start: usize,
    link: u32,
) -> Result<Place, AllocError>
    requires { (targets : Targets) × IsImageAt source.now targets reader.now html.old start link }
    ensures further { IfOk result (λ next. start < next.mark) }
    ensures html { IfOk result (λ next. (targets : Targets)
        → IsImageAt source.now targets reader.now html.old start link
        → GoesOn source.now targets reader.now (page html.old (Alternative link))
        (events_after source.now targets reader.now start) html.new next) }
{
    let marks = reader.marks.as_slice();
    let mut from = marks[start].end;
    for at in start + 1..marks.len() {
        let mark = marks[at];
        push_one_line(html, part(source, from, mark.at))?;
        if is_end(mark, link) {
            return Ok(Place {
                mark: at,
                from: mark.at as usize,
            });
        }
        push_mark(html, source, reader, mark)?;
        from = mark.end;
    }
    Ok(Place {
        mark: marks.len(),
        from: source.len(),
    })
}
