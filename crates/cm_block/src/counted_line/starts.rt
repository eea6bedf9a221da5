//! What a line starts: a quote, an item, or a leaf block (CommonMark 0.31.2, chapters 4 and 5).
ghost use Rattle.std.specs.Prelude.{◌≡◌, ◌==◌, ◌&&◌, false, true, nat_le};
ghost use Rattle.std.specs.Str.{IsCharBoundary};
ghost use Rattle.cm_text.specs.TextLines.{is_text_after};
ghost use Rattle.cm_block.specs.Prelude.{indent_of, strip_columns, run_length};
ghost use Rattle.cm_block.specs.Prelude.{is_line, seen_view, is_at_letter, content_of, given};
ghost use Rattle.cm_block.specs.Prelude.{◌<|>◌, is_thematic_break, atx_heading, opening_fence};
ghost use Rattle.cm_block.specs.Prelude.{item_marker, html_start, HtmlStart, BreakLine};
ghost use Rattle.cm_block.specs.Prelude.{ItemStart, option_map, or_text, start_of_content, start_of};
ghost use Rattle.cm_scan.specs.blocks.Starts as forms;
ghost use Rattle.cm_block.specs.steps.ContinuationViews.{begins_plain};
ghost use Rattle.cm_block.specs.steps.StartViews.{seen, begins_break, begins_fence};

use cm_scan::{
    AtxHeading, HtmlKind, ItemMarker, OpeningFence, atx, fence, html_start_by, item_marker,
    thematic,
};
use cm_text::{Rules, View, begins_text};

/// What a line that is neither blank nor lazy starts (chapters 4 and 5).
#[derive(Clone, Copy)]
pub(crate) enum Start<'a> {
    IndentedCode,
    QuoteMarker,
    Atx(AtxHeading<'a>),
    Fence(OpeningFence<'a>),
    Html(HtmlKind),
    Break,
    Item(ItemMarker),
    TextLine,
}

/// Whether a line starts with an ASCII letter, without indentation, as most lines of text do. Then it begins
/// as text, and all of it is its content.
#[inline(always)]
pub(crate) fn begins_with_letter(line: &View<'_>) -> bool
    ensures letter { result ≡ ((line.now.spaces == 0) && is_at_letter line.now.rest.now) }
    ensures text { result ≡ true →
        ((line.now.spaces == 0) && is_text_after 0 line.now.rest.now) ≡ true }
{
    match line.rest.as_bytes() {
        [b, ..] => line.spaces == 0 && b.is_ascii_alphabetic(),
        [] => false,
    }
}

/// Whether a line begins as text, without indentation. It is text then, and underlines nothing.
#[inline(always)]
pub(crate) fn begins_as_text(line: &View<'_>) -> bool
    ensures { result ≡ ((line.now.spaces == 0) && is_text_after 0 line.now.rest.now) }
{
    match line.rest.as_bytes() {
        [b, ..] => line.spaces == 0 && begins_text(*b),
        [] => false,
    }
}

/// Whether a text starts with a byte that is neither a space nor a tab.
#[inline(always)]
pub(crate) fn begins_plain(text: &str) -> bool
    ensures { result ≡ begins_plain text.now }
{
    match text.as_bytes() {
        [b, ..] => *b != b' ' && *b != b'\t',
        [] => false,
    }
}

/// Whether a text starts with four spaces.
#[inline(always)]
pub(crate) fn begins_with_four_spaces(text: &str) -> bool
    ensures spaces { result ≡ nat_le 4 (run_length 32 text.now) }
    ensures boundary { result ≡ true → IsCharBoundary text.now 4 }
{
    match text.as_bytes() {
        [b' ', b' ', b' ', b' ', ..] => true,
        _ => false,
    }
}

/// The line without 4 columns of indentation, or without its indentation if that is less. Mostly four spaces
/// are there.
#[inline(always)]
pub(crate) fn strip_four<'a>(line: &View<'a>) -> View<'a>
    ensures { seen_view result ≡ strip_columns 4 (seen_view line.now) }
{
    if line.spaces == 0 && begins_with_four_spaces(line.rest) {
        return line.past(4);
    }
    line.strip(4)
}

/// The line after its indentation.
#[inline(always)]
pub(crate) fn content<'a>(line: &View<'a>) -> &'a str
    ensures content { result.now ≡ content_of (seen_view line.now) }
    ensures line { is_line result.now ≡ true }
{
    if begins_plain(line.rest) {
        return line.rest;
    }
    line.strip(line.indent()).rest
}

/// Whether a thematic break may start with a byte.
#[inline(always)]
fn begins_break(b: u8) -> bool
    ensures { result ≡ begins_break b }
{
    matches!(b, b'-' | b'_' | b'*' | b' ' | b'\t')
}

/// Whether a fence may start with a byte.
#[inline(always)]
fn begins_fence(b: u8) -> bool
    ensures { result ≡ begins_fence b }
{
    b == b'`' || b == b'~'
}

/// A heading, or text.
fn heading_or_text(text: &str) -> Start<'_>
    ensures { seen result ≡ or_text (option_map forms.AtxHeading (atx_heading text.now)) }
{
    match atx(text, 0) {
        Some((heading, _)) => Start::Atx(heading),
        None => Start::TextLine,
    }
}

/// The fence of a code block, or text.
fn fence_or_text(text: &str) -> Start<'_>
    ensures { seen result ≡ or_text (option_map forms.OpeningFence (opening_fence text.now)) }
{
    match fence(text, 0) {
        Some((fence, _)) => Start::Fence(fence),
        None => Start::TextLine,
    }
}

/// The start of an HTML block, or text.
fn html_or_text(rules: Rules, text: &str) -> Start<'_>
    ensures { seen result ≡ or_text (option_map HtmlStart (html_start rules text.now)) }
{
    match html_start_by(rules, text, 0) {
        Some(kind) => Start::Html(kind),
        None => Start::TextLine,
    }
}

/// The marker of an item, or text.
fn item_or_text(text: &str) -> Start<'_>
    ensures { seen result ≡ or_text (option_map ItemStart (item_marker text.now)) }
{
    match item_marker(text, 0) {
        Some((marker, _)) => Start::Item(marker),
        None => Start::TextLine,
    }
}

/// A thematic break, the marker of an item, or text.
fn break_or_item(text: &str) -> Start<'_>
    ensures { seen result
        ≡ or_text (given (is_thematic_break text.now) BreakLine
        <|> option_map ItemStart (item_marker text.now)) }
{
    if thematic(text, 0).is_some() {
        return Start::Break;
    }
    item_or_text(text)
}

/// The first start that matches with these rules, with up to 3 columns of indentation. The first byte
/// excludes most.
#[inline(never)]
fn start_of_content(rules: Rules, text: &str) -> Start<'_>
    ensures { seen result ≡ start_of_content rules text.now }
{
    let bytes = text.as_bytes();
    if bytes.is_empty() {
        return Start::TextLine;
    }
    let b = bytes[0];
    if begins_break(b) {
        return break_or_item(text);
    }
    if begins_fence(b) {
        return fence_or_text(text);
    }
    match b {
        b'>' => Start::QuoteMarker,
        b'#' => heading_or_text(text),
        b'<' => html_or_text(rules, text),
        _ => item_or_text(text),
    }
}

/// The columns of a line's indentation. Mostly they are spaces that were counted.
#[inline(always)]
pub(crate) fn indent_of(line: &View<'_>) -> usize
    ensures { result ≡ indent_of (seen_view line.now) }
{
    if begins_plain(line.rest) {
        return line.spaces;
    }
    line.indent()
}

/// What a line that isn't lazy starts: four columns of indentation make code.
#[inline(never)]
fn start_after_indentation<'a>(rules: Rules, line: &View<'a>) -> Start<'a>
    requires { line.now.lazy ≡ false }
    ensures { seen result ≡ start_of rules (seen_view line.now) }
{
    let indent = line.indent();
    if indent >= 4 {
        return Start::IndentedCode;
    }
    start_of_content(rules, line.strip(indent).rest)
}

/// What a line starts. A lazy continuation line is text.
#[inline(always)]
pub(crate) fn start_of<'a>(rules: Rules, line: &View<'a>) -> Start<'a>
    ensures { seen result ≡ start_of rules (seen_view line.now) }
{
    if line.lazy {
        return Start::TextLine;
    }
    if line.spaces <= 3 && begins_plain(line.rest) {
        return start_of_content(rules, line.rest);
    }
    start_after_indentation(rules, line)
}
