//! Calls of `cm_text`.
ghost use Rattle.std.specs.Prelude.{◌≡◌, false};

use crate::calls::answer::Answer;
use crate::dialects::rules_of;
use crate::lines::line_at;
use crate::trouble::{Trouble, wrong};
use crate::words::{Word, number};
use cm_text::{
    Limits, Line, LineFeed, Rules, View, begins_text, cut_at, fold_label, indent, is_ascii_punct,
    is_followed, is_punct, is_punct_by, is_space, label_number, leading_spaces, next_marked,
    next_markup, plain_label_number, reference_at, strip, unescape, unescape_or_lend,
};
use std::alloc::Global;

/// The calls with a line that starts at a column.
const LINES: [&str; 3] = ["indent", "strip", "taken"];

/// A kind of characters.
#[derive(Drop)]
enum Kind {
    AsciiPunctuation,
    Punctuation,
    PunctuationBy(Rules),
    Space,
    /// Only a paragraph starts with it.
    TextStart,
}

/// Adds to the answer the next line of a feed, if one has ended.
fn show_line(answer: &mut Answer, feed: &mut LineFeed) -> Result<(), Trouble>
    ensures { feed.new.ended ≡ feed.old.ended }
{
    if let Some(line) = feed.next_line() {
        answer.text(line.text.as_str())?;
    }
    Ok(())
}

/// Passes a piece to a feed, and adds to the answer the lines that have ended.
fn push(answer: &mut Answer, feed: &mut LineFeed, piece: &Word) -> Result<(), Trouble>
    requires { feed.old.ended ≡ false }
    ensures { feed.new.ended ≡ false }
{
    let Word::Text(piece) = piece else {
        return Err(wrong(answer.alloc, "a piece is no text"));
    };
    if feed.push(piece.as_bytes()).is_err() {
        return Err(Trouble::NoMemory);
    }
    for _ in 0..piece.len() {
        show_line(answer, feed)?;
    }
    Ok(())
}

/// Ends a feed, and adds to the answer the last line, if it had no ending, and whether the feed has ended.
fn end(answer: &mut Answer, feed: &mut LineFeed) -> Result<(), Trouble>
    requires { feed.old.ended ≡ false }
{
    if feed.end().is_err() {
        return Err(Trouble::NoMemory);
    }
    show_line(answer, feed)?;
    answer.truth(feed.ended())
}

/// Passes pieces to a feed and ends it, and adds to the answer the lines and whether the feed has ended.
fn show_lines(answer: &mut Answer, feed: &mut LineFeed, pieces: &[Word]) -> Result<(), Trouble>
    requires { feed.old.ended ≡ false }
{
    for piece in pieces {
        push(answer, feed, piece)?;
    }
    end(answer, feed)
}

/// The lines of a text that comes in these pieces.
fn lines(answer: &mut Answer, pieces: &[Word]) -> Result<bool, Trouble> {
    let mut feed = LineFeed::new(answer.alloc, Limits::standard());
    show_lines(answer, &mut feed, pieces)?;
    Ok(true)
}

/// A line seen without a copy: its column, its spaces, the rest, and its indentation.
fn seen(answer: &mut Answer, line: &View<'_>) -> Result<(), Trouble> {
    answer.number(line.column)?;
    answer.number(line.spaces)?;
    answer.text(line.rest)?;
    answer.number(line.indent())
}

/// What `strip` leaves of a line: its column and its text. The line seen without a copy is the same.
fn stripped(answer: &mut Answer, line: &Line, columns: usize) -> Result<(), Trouble> {
    let left = strip(answer.alloc, columns, line)?;
    answer.number(left.column)?;
    answer.text(left.text.as_str())?;
    seen(answer, &line.view().strip(columns))
}

/// A lazy line seen without a copy, from which these numbers of columns are removed one after another.
fn taken_in_parts(answer: &mut Answer, mut line: Line, parts: &[Word]) -> Result<(), Trouble> {
    line.lazy = true;
    let mut left = line.view();
    for columns in parts {
        let (Word::Text(columns) | Word::Plain(columns)) = columns;
        left = left.strip(number(answer.alloc, columns.as_str())?);
    }
    seen(answer, &left)?;
    answer.truth(left.lazy)
}

/// Whether a character is of this kind.
fn is_of_kind(kind: &Kind, c: char) -> bool {
    match kind {
        Kind::AsciiPunctuation => is_ascii_punct(c),
        Kind::Punctuation => is_punct(c),
        Kind::PunctuationBy(rules) => is_punct_by(*rules, c),
        Kind::Space => is_space(c),
        Kind::TextStart => !c.is_ascii() || begins_text(c as u8),
    }
}

/// The characters of the text that are of this kind.
fn characters(answer: &mut Answer, text: &str, kind: &Kind) -> Result<(), Trouble> {
    let mut found = String::new(answer.alloc);
    for c in text.chars() {
        if is_of_kind(kind, c) {
            found.push(c)?;
        }
    }
    answer.text(found.as_str())
}

/// The text before an ASCII character, and the text after it.
fn cut(answer: &mut Answer, text: &String, at: usize) -> Result<(), Trouble> {
    match text.as_bytes().get(at) {
        Some(b) if *b < 128 => {
            let (before, after) = cut_at(text.as_str(), at);
            answer.text(before)?;
            answer.text(after)
        }
        _ => Err(wrong(answer.alloc, "there is no ASCII character")),
    }
}

/// A reference: its characters, and its end.
fn reference(answer: &mut Answer, text: &String, at: usize) -> Result<(), Trouble> {
    if !text.is_char_boundary(at) {
        return Err(wrong(answer.alloc, "the place is no boundary"));
    }
    let Some((characters, end)) = reference_at(text.as_str(), at) else {
        return answer.word("none");
    };
    let mut read = String::new(answer.alloc);
    characters.push_to(&mut read)?;
    answer.slice(Some((read.as_str(), end)))
}

/// The limits of these numbers.
fn limits(answer: &mut Answer, bytes: &str, blocks: &str, inlines: &str) -> Result<bool, Trouble> {
    let bytes = number(answer.alloc, bytes)?;
    let blocks = number(answer.alloc, blocks)?;
    let inlines = number(answer.alloc, inlines)?;
    match Limits::new(bytes, blocks, inlines) {
        Some(limits) => {
            answer.number(limits.bytes())?;
            answer.number(limits.blocks())?;
            answer.number(limits.inlines())?;
        }
        None => answer.word("none")?,
    }
    Ok(true)
}

/// The marks of rules that limits have been given.
fn rules_given(answer: &mut Answer, name: &str) -> Result<bool, Trouble> {
    let limits = Limits::standard().with_rules(rules_of(answer.alloc, name)?);
    answer.truth(limits.rules().is_older())?;
    answer.truth(limits.rules().strike())?;
    answer.truth(limits.rules().raw_html())?;
    answer.truth(limits.rules().any_address())?;
    Ok(true)
}

/// Whether an address leads somewhere by the rules of this name.
fn followed(answer: &mut Answer, rules: &str, address: &str) -> Result<bool, Trouble> {
    let rules = rules_of(answer.alloc, rules)?;
    answer.truth(is_followed(rules, address))?;
    Ok(true)
}

/// A call with a text alone, if it is one.
fn of_one_text(answer: &mut Answer, name: &str, text: &str) -> Result<bool, Trouble> {
    let alloc = answer.alloc;
    match name {
        "fold_label" => answer.text(fold_label(alloc, text)?.as_str())?,
        "label_number" => answer.number(label_number(text) as usize)?,
        "plain_label_number" => answer.place(plain_label_number(text).map(|n| n as usize))?,
        "unescape" => answer.text(unescape(alloc, text)?.as_str())?,
        "unescape_or_lend" => answer.text(unescape_or_lend(alloc, text)?.as_str())?,
        "leading_spaces" => answer.number(leading_spaces(text))?,
        "begins_text" => characters(answer, text, &Kind::TextStart)?,
        "is_ascii_punct" => characters(answer, text, &Kind::AsciiPunctuation)?,
        "is_punct" => characters(answer, text, &Kind::Punctuation)?,
        "is_space" => characters(answer, text, &Kind::Space)?,
        _ => return Ok(false),
    }
    Ok(true)
}

/// A call with a text and a place, if it is one.
fn at_place(answer: &mut Answer, name: &str, text: &String, at: usize) -> Result<bool, Trouble> {
    match name {
        "cut_at" => cut(answer, text, at)?,
        "next_marked" => answer.number(next_marked(text.as_bytes(), at))?,
        "next_markup" => answer.number(next_markup(text.as_bytes(), at))?,
        "reference_at" => reference(answer, text, at)?,
        _ => return Ok(false),
    }
    Ok(true)
}

/// A call with a line that starts at a column, and how many columns are removed from it, if it is one.
fn of_line(answer: &mut Answer, name: &str, line: Line, columns: &[Word]) -> Result<bool, Trouble> {
    match (name, columns) {
        ("indent", []) => answer.number(indent(&line))?,
        ("strip", [Word::Plain(columns)]) => {
            let columns = number(answer.alloc, columns.as_str())?;
            stripped(answer, &line, columns)?;
        }
        ("taken", parts) => taken_in_parts(answer, line, parts)?,
        _ => return Ok(false),
    }
    Ok(true)
}

/// The characters of punctuation by the rules of this name.
fn punctuation(answer: &mut Answer, rules: &str, text: &str) -> Result<bool, Trouble> {
    let kind = Kind::PunctuationBy(rules_of(answer.alloc, rules)?);
    characters(answer, text, &kind)?;
    Ok(true)
}

/// Runs the call, if it is one of `cm_text`. Returns whether it is.
pub fn answers(answer: &mut Answer, name: &str, given: &[Word]) -> Result<bool, Trouble> {
    match given {
        pieces if name == "lines" => lines(answer, pieces),
        [Word::Text(text)] => of_one_text(answer, name, text.as_str()),
        [Word::Plain(rules)] if name == "rules" => rules_given(answer, rules.as_str()),
        [
            Word::Plain(bytes),
            Word::Plain(blocks),
            Word::Plain(inlines),
        ] if name == "limits" => {
            limits(answer, bytes.as_str(), blocks.as_str(), inlines.as_str())
        }
        [Word::Plain(rules), Word::Text(text)] if name == "is_punct_by" => {
            punctuation(answer, rules.as_str(), text.as_str())
        }
        [Word::Plain(rules), Word::Text(address)] if name == "is_followed" => {
            followed(answer, rules.as_str(), address.as_str())
        }
        [Word::Text(text), Word::Plain(at)] => {
            let at = number(answer.alloc, at.as_str())?;
            at_place(answer, name, text, at)
        }
        [Word::Plain(column), Word::Text(text), columns @ ..] if LINES.contains(&name) => {
            let column = number(answer.alloc, column.as_str())?;
            let line = line_at(answer.alloc, column, text.as_str())?;
            of_line(answer, name, line, columns)
        }
        _ => Ok(false),
    }
}
