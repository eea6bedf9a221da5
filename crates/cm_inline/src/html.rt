//! The HTML of marks, once all pairs and links are made. It is written from the source, and no inline is made
//! for it.
ghost use Rattle.std.specs.Prelude.{◌≡◌, ◌++◌, ◌<◌, [], false, length, IfOk, OnOk, MatchOption};
ghost use Rattle.cm_inline.specs.steps.pairing.Readings.{Tags, Alternative, page, write_all};
ghost use Rattle.cm_inline.specs.steps.Marks.{events_in, IsSettled};
ghost use Rattle.cm_inline.specs.steps.Writing.{is_text, is_unpaired, IsNumbered, IsLinked, IsMarkIn};
ghost use Rattle.cm_inline.specs.steps.Writing.{mark_events, events_at, mode_after, GoesOn};

use crate::alternative_text::push_alternative_text;
use crate::brackets::Reader;
use crate::html_links::{push_autolink, push_end, push_start};
use crate::html_runs::push_run;
use crate::html_texts::{push_character, push_code, push_reference, push_text};
use crate::marks::{Kind, Mark, Place, part};
use crate::runs::Run;
use cm_html::Pages;
use cm_tree::Definitions;
use std::alloc::{AllocError, Global};

/// Whether nothing was made of a run.
#[inline(always)]
fn is_unpaired(run: Run) -> bool
    ensures { result ≡ is_unpaired run }
{
    run.run.left == run.run.whole && run.opened == 0 && run.from == run.to
}

/// Whether the HTML of a mark is the source itself.
#[inline(always)]
fn is_text(reader: &Reader, mark: Mark) -> bool
    requires { IsNumbered reader.now.runs.list.runs mark.kind }
    ensures { result ≡ is_text reader.now.runs.list.runs mark.kind }
{
    match mark.kind {
        Kind::Plain => true,
        Kind::Run { number } => is_unpaired(reader.runs.run(number)),
        _ => false,
    }
}

/// Adds the HTML of a mark. Of an image that is the part before its alternative text, or the part after it.
#[inline(always)]
fn push_one(
    alloc: Global,
    html: &mut Pages,
    source: &str,
    definitions: &Definitions,
    reader: &Reader,
    mark: Mark,
) -> Result<(), AllocError>
    requires { IsMarkIn source.now definitions.now reader.now mark }
    ensures pushed { OnOk result (write_all (page html.old Tags)
        (mark_events source.now definitions.now reader.now mark)
        ≡ page html.new (mode_after reader.now.links.items mark.kind)) }
{
    match mark.kind {
        Kind::Plain => html.push_str(part(source, mark.at, mark.end)),
        Kind::Escaped => push_reference(html, source.as_bytes()[mark.at as usize]),
        Kind::Nothing => Ok(()),
        Kind::Character(character) => push_character(html, character),
        Kind::Code { from, to } => push_code(html, source, from as usize, to as usize),
        Kind::Html => html.push_str(part(source, mark.at, mark.end)),
        Kind::Autolink { is_address } => {
            let text = part(source, mark.at + 1, mark.end - 1);
            push_autolink(alloc, html, is_address, text)
        }
        Kind::Soft => html.push_str("\n"),
        Kind::Hard => html.push_str("<br />\n"),
        Kind::Run { number } => push_run(html, &reader.runs, number),
        Kind::Start { number } => {
            let link = reader.links[number as usize];
            push_start(alloc, html, source, definitions, link)
        }
        Kind::End { number } => {
            let link = reader.links[number as usize];
            push_end(alloc, html, source, definitions, link)
        }
    }
}

/// The number of the image that a mark starts, if it starts one.
#[inline(always)]
fn image_at(reader: &Reader, mark: Mark) -> Option<u32>
    requires { IsLinked reader.now.links.items mark.kind }
    ensures { MatchOption result (mode_after reader.now.links.items mark.kind ≡ Tags)
        (λ number. mode_after reader.now.links.items mark.kind ≡ Alternative number) }
{
    match mark.kind {
        Kind::Start { number } => reader.links[number as usize].image.then_some(number),
        _ => None,
    }
}

/// Adds the HTML of a mark, with the alternative text of the image that it starts. Returns how far the output
/// has come.
#[inline(always)]
fn push_mark(
    alloc: Global,
    html: &mut Pages,
    source: &str,
    definitions: &Definitions,
    reader: &Reader,
    at: usize,
) -> Result<Place, AllocError>
    requires settled { IsSettled false source.now definitions.now reader.now }
    requires within { at < length reader.now.marks.items }
    requires ends { (write_all (page html.old Tags)
        (events_at source.now definitions.now reader.now at)).mode ≡ Tags }
    ensures further { IfOk result (λ next. at < next.mark) }
    ensures html { IfOk result (λ next. GoesOn source.now definitions.now reader.now (page html.old Tags)
        (events_at source.now definitions.now reader.now at) html.new next) }
{
    let mark = reader.marks[at];
    push_one(alloc, html, source, definitions, reader, mark)?;
    match image_at(reader, mark) {
        Some(number) => push_alternative_text(html, source, reader, at, number),
        None => Ok(Place {
            mark: at + 1,
            from: mark.end as usize,
        }),
    }
}

/// Adds the HTML of the inlines that the marks of a source become.
pub(crate) fn push_marks(
    alloc: Global,
    html: &mut Pages,
    source: &str,
    definitions: &Definitions,
    reader: &Reader,
) -> Result<(), AllocError>
    requires { IsSettled false source.now definitions.now reader.now }
    ensures pushed { OnOk result (html.new
        ≡ html.old ++ (write_all (page [] Tags) (events_in source.now definitions.now reader.now)).html) }
{
    let marks = reader.marks.as_slice();
    let mut next = Place { mark: 0, from: 0 };
    while next.mark < marks.len() {
        let mark = marks[next.mark];
        if is_text(reader, mark) {
            next.mark += 1;
            continue;
        }
        push_text(html, source, next.from, mark.at as usize)?;
        next = push_mark(alloc, html, source, definitions, reader, next.mark)?;
    }
    push_text(html, source, next.from, source.len())
}
