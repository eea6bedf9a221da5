//! Texts, as HTML has them.
ghost use Rattle.std.specs.Prelude.{◌≡◌, ◌++◌, [], ◌∷◌, true, encode_utf8, replicate, OnOk};
ghost use Rattle.std.specs.List.{slice_range};
ghost use Rattle.cm_html.specs.Escape.{escape};
ghost use Rattle.cm_html.specs.steps.HtmlParts.{code_span_html};
ghost use Rattle.cm_scan.specs.spans.CodeSpans.{one_line};
ghost use Rattle.cm_inline.specs.steps.Marks.{is_escaped};
ghost use Rattle.cm_inline.specs.steps.Runs.{byte_of};
ghost use Rattle.cm_inline.specs.steps.Standalone.{IsBetween};

use crate::code::next_changed;
use crate::delimiter_runs::DelimiterRun;
use cm_html::{Element, Pages};
use cm_text::cut_at;
use memchr::memchr;
use std::alloc::AllocError;

/// Adds a text of the source without bytes to escape.
#[inline(always)]
pub(crate) fn push_text(
    html: &mut Pages,
    source: &str,
    from: usize,
    to: usize,
) -> Result<(), AllocError>
    requires { IsBetween source.now from to }
    ensures pushed { OnOk result (html.new ≡ html.old ++ slice_range source.now from to) }
{
    if from == to {
        return Ok(());
    }
    html.push_str(&source[from..to])
}

/// Adds a byte as a reference.
#[inline(always)]
pub(crate) fn push_reference(html: &mut Pages, b: u8) -> Result<(), AllocError>
    requires { is_escaped b ≡ true }
    ensures { OnOk result (html.new ≡ html.old ++ escape (b ∷ [])) }
{
    match b {
        b'&' => html.push_str("&amp;"),
        b'<' => html.push_str("&lt;"),
        b'>' => html.push_str("&gt;"),
        _ => html.push_str("&quot;"),
    }
}

/// Adds the character of a reference.
#[inline(always)]
pub(crate) fn push_character(html: &mut Pages, character: char) -> Result<(), AllocError>
    ensures { OnOk result (html.new ≡ html.old ++ escape (encode_utf8 character)) }
{
    let mut bytes = [0; 4];
    html.push_escaped(character.encode_utf8(&mut bytes))
}

/// Adds a text, with spaces for its line feeds.
pub(crate) fn push_one_line(html: &mut Pages, text: &str) -> Result<(), AllocError>
    ensures pushed { OnOk result (html.new ≡ html.old ++ escape (one_line text.now)) }
{
    let mut rest = text;
    while let Some(at) = memchr(b'\n', rest.as_bytes()) {
        let (before, after) = cut_at(rest, at);
        html.push_escaped(before)?;
        html.push_str(" ")?;
        rest = after;
    }
    html.push_escaped(rest)
}

/// Adds a code span, with spaces for the line feeds in its text.
pub(crate) fn push_code_span(html: &mut Pages, text: &str) -> Result<(), AllocError>
    ensures pushed { OnOk result (html.new ≡ html.old ++ code_span_html (one_line text.now)) }
{
    html.push_str(Element::Code.start())?;
    push_one_line(html, text)?;
    html.push_str(Element::Code.end())
}

/// Adds the code span between two places of the source. Most have nothing that HTML escapes, as their bytes
/// show.
#[inline(always)]
pub(crate) fn push_code(
    html: &mut Pages,
    source: &str,
    from: usize,
    to: usize,
) -> Result<(), AllocError>
    requires { IsBetween source.now from to }
    ensures pushed { OnOk result (html.new
        ≡ html.old ++ code_span_html (one_line (slice_range source.now from to))) }
{
    let text = &source[from..to];
    if next_changed(source.as_bytes(), from) < to {
        return push_code_span(html, text);
    }
    html.push_str(Element::Code.start())?;
    html.push_str(text)?;
    html.push_str(Element::Code.end())
}

/// Adds what is left of a delimiter run. Its characters need no escape.
#[inline(always)]
pub(crate) fn push_left(html: &mut Pages, run: DelimiterRun) -> Result<(), AllocError>
    ensures { OnOk result (html.new ≡ html.old ++ replicate run.left (byte_of run.marker)) }
{
    for _ in 0..run.left {
        html.push_str(run.marker.text())?;
    }
    Ok(())
}
