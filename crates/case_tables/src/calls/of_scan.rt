//! Calls of `cm_scan`.
ghost use Rattle.std.specs.Prelude.{◌≤◌, length};
ghost use Rattle.std.specs.Str.{IsCharBoundary};

use crate::calls::answer::Answer;
use crate::dialects::rules_of;
use crate::trouble::{Trouble, wrong};
use crate::words::{Word, number};
use cm_scan::{
    Autolink, FenceKind, HtmlKind, atx, autolink, autolink_by, code_span, definition, destination,
    fence, fence_end, holds_from, html_end, html_start, html_start_by, is_blank_text, item_marker,
    label, quote_marker, raw_html, raw_html_by, thematic, title, trim_end, trim_end_spaces,
    underline,
};
use cm_tree::ListKind;

const KINDS: [(&str, HtmlKind); 7] = [
    ("raw_text", HtmlKind::RawText),
    ("comment", HtmlKind::Comment),
    ("instruction", HtmlKind::Instruction),
    ("declaration", HtmlKind::Declaration),
    ("character_data", HtmlKind::CharacterData),
    ("block_tag", HtmlKind::BlockTag),
    ("any_tag", HtmlKind::AnyTag),
];

/// An ATX heading: its level, its content, its end.
fn heading(answer: &mut Answer, text: &str, at: usize) -> Result<(), Trouble>
    requires { IsCharBoundary text.now at }
{
    match atx(text, at) {
        Some((heading, end)) => {
            answer.number(usize::from(heading.level))?;
            answer.slice(Some((heading.content, end)))
        }
        None => answer.word("none"),
    }
}

/// An opening fence: its character, how many, the info string, its end.
fn opening(answer: &mut Answer, text: &str, at: usize) -> Result<(), Trouble>
    requires { IsCharBoundary text.now at }
{
    match fence(text, at) {
        Some((open, end)) => {
            answer.word(if open.kind.marker == b'`' { "`" } else { "~" })?;
            answer.number(open.kind.count)?;
            answer.slice(Some((open.info, end)))
        }
        None => answer.word("none"),
    }
}

/// An item's marker: what marks the list, how many digits, its end.
fn marker(answer: &mut Answer, text: &str, at: usize) -> Result<(), Trouble>
    requires { at ≤ length text.now }
{
    let Some((marker, end)) = item_marker(text, at) else {
        return answer.word("none");
    };
    let (start, mark) = match marker.kind {
        ListKind::Dash => (None, "-"),
        ListKind::Plus => (None, "+"),
        ListKind::Star => (None, "*"),
        ListKind::Dot { start } => (Some(start), "."),
        ListKind::Paren { start } => (Some(start), ")"),
    };
    if let Some(start) = start {
        answer.number(start as usize)?;
    }
    answer.word(mark)?;
    answer.number(marker.digits)?;
    answer.number(end)
}

/// A definition: label, destination, title, its end.
fn link_definition(answer: &mut Answer, text: &str, at: usize) -> Result<(), Trouble>
    requires { IsCharBoundary text.now at }
{
    match definition(text, at) {
        Some((read, end)) => {
            answer.text(read.label)?;
            answer.text(read.dest)?;
            answer.slice(Some((read.title, end)))
        }
        None => answer.word("none"),
    }
}

/// The kind of an HTML block that starts.
fn html_kind(answer: &mut Answer, text: &str, at: usize) -> Result<(), Trouble>
    requires { at ≤ length text.now }
{
    let started = html_start(text, at);
    named(answer, started)
}

/// The name of this kind, or that there is none.
fn named(answer: &mut Answer, started: Option<HtmlKind>) -> Result<(), Trouble> {
    match KINDS.iter().find(|(_, kind)| Some(*kind) == started) {
        Some((name, _)) => answer.word(name),
        None => answer.word("none"),
    }
}

/// An autolink that was found: whether it is an e-mail address, its content, its end.
fn link(answer: &mut Answer, found: Option<(Autolink<'_>, usize)>) -> Result<(), Trouble> {
    match found {
        Some((link, end)) => {
            answer.truth(link.is_address)?;
            answer.slice(Some((link.text, end)))
        }
        None => answer.word("none"),
    }
}

/// An autolink by the rules of this name.
fn link_by(answer: &mut Answer, name: &str, text: &String, at: usize) -> Result<(), Trouble> {
    let rules = rules_of(answer.alloc, name)?;
    if !text.is_char_boundary(at) {
        return Err(wrong(answer.alloc, "the place is no boundary"));
    }
    link(answer, autolink_by(rules, text.as_str(), at))
}

/// Raw HTML by the rules of this name.
fn raw(answer: &mut Answer, name: &str, text: &String, at: usize) -> Result<(), Trouble> {
    let rules = rules_of(answer.alloc, name)?;
    if !text.is_char_boundary(at) {
        return Err(wrong(answer.alloc, "the place is no boundary"));
    }
    answer.slice(raw_html_by(rules, text.as_str(), at))
}

/// Whether the text contains the word from there on.
fn holds(answer: &mut Answer, text: &String, from: usize, word: &str) -> Result<bool, Trouble> {
    if text.len() < from {
        return Err(wrong(answer.alloc, "the place is past the text"));
    }
    answer.truth(holds_from(text.as_str(), from, word))?;
    Ok(true)
}

/// A setext heading's underline: the level, its end.
fn underlined(answer: &mut Answer, text: &str, at: usize) -> Result<(), Trouble>
    requires { at ≤ length text.now }
{
    match underline(text, at) {
        Some((level, end)) => {
            answer.number(usize::from(level))?;
            answer.number(end)
        }
        None => answer.word("none"),
    }
}

/// A scanner of what starts a line, if it is one.
fn starts(answer: &mut Answer, name: &str, text: &str, at: usize) -> Result<bool, Trouble>
    requires { IsCharBoundary text.now at }
{
    match name {
        "thematic" => answer.place(thematic(text, at))?,
        "quote_marker" => answer.place(quote_marker(text, at))?,
        "atx" => heading(answer, text, at)?,
        "fence" => opening(answer, text, at)?,
        "item_marker" => marker(answer, text, at)?,
        "html_start" => html_kind(answer, text, at)?,
        "underline" => underlined(answer, text, at)?,
        _ => return Ok(false),
    }
    Ok(true)
}

/// A scanner that returns a slice and its end, if it is one.
fn slices<'a>(name: &str, text: &'a str, at: usize) -> Option<Option<(&'a str, usize)>>
    requires { IsCharBoundary text.now at }
{
    Some(match name {
        "label" => label(text, at),
        "code_span" => code_span(text, at),
        "raw_html" => raw_html(text, at),
        "destination" => destination(text, at),
        "title" => title(text, at),
        _ => return None,
    })
}

/// A scanner at a boundary of characters.
fn scans(answer: &mut Answer, name: &str, text: &String, at: usize) -> Result<bool, Trouble> {
    if !text.is_char_boundary(at) {
        return Err(wrong(answer.alloc, "the place is no boundary"));
    }
    let text = text.as_str();
    if let Some(slice) = slices(name, text, at) {
        answer.slice(slice)?;
        return Ok(true);
    }
    match name {
        "autolink" => link(answer, autolink(text, at))?,
        "definition" => link_definition(answer, text, at)?,
        _ => return starts(answer, name, text, at),
    }
    Ok(true)
}

/// The end of a fence of this number of this marker.
fn closing(
    answer: &mut Answer,
    (marker, count): (&str, &str),
    text: &String,
    at: &str,
) -> Result<bool, Trouble> {
    let at = number(answer.alloc, at)?;
    let kind = FenceKind {
        marker: if marker == "`" { b'`' } else { b'~' },
        count: number(answer.alloc, count)?,
    };
    if text.len() < at {
        return Err(wrong(answer.alloc, "the place is past the text"));
    }
    answer.place(fence_end(kind, text.as_str(), at))?;
    Ok(true)
}

/// The end of an HTML block of the kind with this name.
fn html_ends(answer: &mut Answer, name: &str, text: &String, at: usize) -> Result<(), Trouble> {
    let kind = KINDS.iter().find(|(known, _)| *known == name);
    match kind {
        Some((_, kind)) if at <= text.len() => { answer.place(html_end(*kind, text.as_str(), at)) }
        _ => Err(wrong(answer.alloc, "the kind or the place is wrong")),
    }
}

/// The kind of the HTML block that starts there with the rules of this name.
fn html_starts(answer: &mut Answer, name: &str, text: &String, at: usize) -> Result<(), Trouble> {
    let rules = rules_of(answer.alloc, name)?;
    if text.len() < at {
        return Err(wrong(answer.alloc, "the place is past the text"));
    }
    let started = html_start_by(rules, text.as_str(), at);
    named(answer, started)
}

/// A call with a text alone, if it is one.
fn of_text(answer: &mut Answer, name: &str, text: &str) -> Result<bool, Trouble> {
    match name {
        "is_blank_text" => answer.truth(is_blank_text(text.as_bytes()))?,
        "trim_end" => answer.text(trim_end(text))?,
        "trim_end_spaces" => answer.text(trim_end_spaces(text))?,
        _ => return Ok(false),
    }
    Ok(true)
}

/// A call with the name of a kind or of rules, a text and a place, if it is one.
fn by_name(
    answer: &mut Answer,
    (name, kind): (&str, &str),
    text: &String,
    at: usize,
) -> Result<bool, Trouble> {
    match name {
        "html_end" => html_ends(answer, kind, text, at)?,
        "html_start_by" => html_starts(answer, kind, text, at)?,
        "autolink_by" => link_by(answer, kind, text, at)?,
        "raw_html_by" => raw(answer, kind, text, at)?,
        _ => return Ok(false),
    }
    Ok(true)
}

/// Runs the call, if it is one of `cm_scan`. Returns whether it is.
pub fn answers(answer: &mut Answer, name: &str, given: &[Word]) -> Result<bool, Trouble> {
    match given {
        [Word::Text(text)] => of_text(answer, name, text.as_str()),
        [Word::Text(text), Word::Plain(at)] => {
            let at = number(answer.alloc, at.as_str())?;
            scans(answer, name, text, at)
        }
        [Word::Plain(kind), Word::Text(text), Word::Plain(at)] => {
            let at = number(answer.alloc, at.as_str())?;
            by_name(answer, (name, kind.as_str()), text, at)
        }
        [Word::Text(text), Word::Plain(from), Word::Text(word)] if name == "holds_from" => {
            let from = number(answer.alloc, from.as_str())?;
            holds(answer, text, from, word.as_str())
        }
        [
            Word::Plain(marker),
            Word::Plain(count),
            Word::Text(text),
            Word::Plain(at),
        ] if name == "fence_end" => {
            closing(answer, (marker.as_str(), count.as_str()), text, at.as_str())
        }
        _ => Ok(false),
    }
}
