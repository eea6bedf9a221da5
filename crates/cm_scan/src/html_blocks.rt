//! HTML blocks: what starts one and what ends it (4.6 HTML blocks).
//!
//! `html_start` returns the kind alone. A line that meets a start condition belongs to the block as a whole,
//! so there is no end to return.
ghost use Rattle.std.specs.Prelude.{◌≡◌, ◌+◌, ◌<◌, ◌≤◌, ◌∷◌, ◌++◌};
ghost use Rattle.std.specs.Prelude.{false, length, drop, slice_index, codes, Some, option_map};
ghost use Rattle.std.specs.List.{list_any};
ghost use Rattle.std.specs.Char.{is_ascii_alphabetic};
ghost use Rattle.std.specs.Str.{str_to_ascii_lowercase, bytes_eq};
ghost use Rattle.cm_text.specs.Rules.{profile};
ghost use Rattle.cm_scan.specs.Words.{is_at_word, holds_word, after_word};
ghost use Rattle.cm_scan.specs.Words.{is_among, given, ◌<|>◌};
ghost use Rattle.cm_scan.specs.blocks.HtmlBlocks.{raw_text_names, common_block_names, block_name_by};
ghost use Rattle.cm_scan.specs.blocks.HtmlBlocks.{block_names, is_at_name_end, is_at_tag_end, is_named_start};
ghost use Rattle.cm_scan.specs.blocks.HtmlBlocks.{is_raw_text_start, is_declaration_start};
ghost use Rattle.cm_scan.specs.blocks.HtmlBlocks.{is_block_tag_start, is_any_tag_start};
ghost use Rattle.cm_scan.specs.blocks.HtmlBlocks.{html_start, is_html_end};
ghost use Rattle.cm_scan.specs.blocks.HtmlKinds.{kind_of};

use crate::plain_tags::{closing_tag, open_tag, tag_name};
use crate::tags::{first_of, is_letter};
use crate::words::{bytes_from, is_blank_text, is_space_or_tab};
use cm_text::Rules;
use memchr::memchr;
use std::marker::Brand;
use std::sync::ledger::Blank;

/// The kind of an HTML block, by the condition that starts it, in the standard's order (4.6 HTML blocks).
#[derive(Clone, Copy, Debug, PartialEq, Eq)]
pub enum HtmlKind {
    /// An element whose text is not markup: `pre`, `script`, `style` or `textarea`.
    RawText,
    /// A comment.
    Comment,
    /// A processing instruction.
    Instruction,
    /// A declaration.
    Declaration,
    /// A CDATA section.
    CharacterData,
    /// A tag with one of the names of blocks.
    BlockTag,
    /// A line with any other complete tag alone.
    AnyTag,
}

/// Whether a word comes next, in any case. The word is in lower case.
fn is_at_word(word: &[u8], bytes: &[u8]) -> bool
    ensures word { result ≡ is_at_word word.now (str_to_ascii_lowercase bytes.now) }
{
    for (i, w) in word.iter().enumerate() {
        if i >= bytes.len() || bytes[i].to_ascii_lowercase() != *w {
            return false;
        }
    }
    true
}

/// Whether a word is anywhere in the bytes, in any case. The word is in lower case and doesn't start with a
/// letter.
fn holds_word(word: &[u8], bytes: &[u8]) -> bool
    requires some { 0 < length word.now }
    requires no_letter { is_ascii_alphabetic (slice_index word.now 0) ≡ false }
    ensures held { result ≡ holds_word word.now (str_to_ascii_lowercase bytes.now) }
{
    let mut rest = bytes;
    while let Some(at) = memchr(word[0], rest) {
        if is_at_word(word, &rest[at..]) {
            return true;
        }
        rest = &rest[at + 1..];
    }
    false
}

/// The names of the elements whose text is not markup.
static RAW_TEXT_NAMES: [&str; 4] = ["pre", "script", "style", "textarea"];

/// The names of start condition 6 by all rules.
static COMMON_BLOCK_NAMES: [&str; 61] = [
    "address",
    "article",
    "aside",
    "base",
    "basefont",
    "blockquote",
    "body",
    "caption",
    "center",
    "col",
    "colgroup",
    "dd",
    "details",
    "dialog",
    "dir",
    "div",
    "dl",
    "dt",
    "fieldset",
    "figcaption",
    "figure",
    "footer",
    "form",
    "frame",
    "frameset",
    "h1",
    "h2",
    "h3",
    "h4",
    "h5",
    "h6",
    "head",
    "header",
    "hr",
    "html",
    "iframe",
    "legend",
    "li",
    "link",
    "main",
    "menu",
    "menuitem",
    "nav",
    "noframes",
    "ol",
    "optgroup",
    "option",
    "p",
    "param",
    "section",
    "summary",
    "table",
    "tbody",
    "td",
    "tfoot",
    "th",
    "thead",
    "title",
    "tr",
    "track",
    "ul",
];

/// Whether a name is this word, in any case. The word is in lower case.
#[inline(always)]
fn is_name(word: &str, name: &[u8]) -> bool
    ensures same { result ≡ bytes_eq word.now (str_to_ascii_lowercase name.now) }
{
    word.len() == name.len() && is_at_word(word.as_bytes(), name)
}

/// Whether a name is one of these words, in any case.
fn is_among(words: &[&str], name: &[u8]) -> bool
    ensures among { result
        ≡ list_any (λ word. bytes_eq word.now (str_to_ascii_lowercase name.now)) words.now }
{
    for word in words {
        if is_name(word, name) {
            return true;
        }
    }
    false
}

/// Whether a name is one of those whose elements' text is not markup.
fn is_raw_text_name(name: &[u8]) -> bool
    ensures among { result ≡ is_among raw_text_names (str_to_ascii_lowercase name.now) }
{
    is_among(&RAW_TEXT_NAMES, name)
}

/// The name of start condition 6 that depends on the rules.
fn block_name_by(rules: Rules) -> &'static str
    ensures { result.now ≡ block_name_by rules }
{
    if rules.is_older() { "source" } else { "search" }
}

/// Whether a name is one of start condition 6 by all rules.
fn is_common_block_name(name: &[u8]) -> bool
    ensures among { result ≡ is_among common_block_names (str_to_ascii_lowercase name.now) }
{
    is_among(&COMMON_BLOCK_NAMES, name)
}

/// Whether a name is one of start condition 6.
#[tactic(auto, unfolding(crate::specs::blocks::HtmlBlocks::block_names))]
fn is_block_name(rules: Rules, name: &[u8]) -> bool
    ensures among { result ≡ is_among (block_names rules) (str_to_ascii_lowercase name.now) }
{
    is_name(block_name_by(rules), name) || is_common_block_name(name)
}

/// Whether a space, a tab, the end of the line or `>` comes next.
fn is_at_name_end(bytes: &[u8]) -> bool
    ensures ends { result ≡ is_at_name_end bytes.now }
{
    let Some((b, _)) = first_of(bytes) else {
        return true;
    };
    is_space_or_tab(b) || b == b'>'
}

/// Whether the same comes next, or `/>`.
fn is_at_tag_end(bytes: &[u8]) -> bool
    ensures ends { result ≡ is_at_tag_end bytes.now }
{
    is_at_name_end(bytes) || bytes.starts_with(b"/>")
}

/// Whether a name and its end follow a `<`, in any case. The name is in lower case.
fn is_named_start(name: &str, beyond: &[u8]) -> bool
    ensures start { result ≡ is_named_start (str_to_ascii_lowercase (60 ∷ beyond.now)) name.now }
{
    if beyond.len() < name.len() || !is_at_word(name.as_bytes(), beyond) {
        return false;
    }
    is_at_name_end(&beyond[name.len()..])
}

/// Start condition 1, after the `<`.
#[tactic(auto, unfolding(crate::specs::blocks::HtmlBlocks::is_raw_text_start))]
fn is_raw_text_start(beyond: &[u8]) -> bool
    ensures start { result ≡ is_raw_text_start (60 ∷ beyond.now) }
{
    is_named_start("pre", beyond)
        || is_named_start("script", beyond)
        || is_named_start("style", beyond)
        || is_named_start("textarea", beyond)
}

/// Start condition 4, after the `<`.
#[tactic(auto, using(crate::proofs::lemmas::blocks::HtmlStarts::declarations))]
fn is_declaration_start(beyond: &[u8]) -> bool
    ensures start { result ≡ is_declaration_start (60 ∷ beyond.now) }
{
    let Some((b, rest)) = first_of(beyond) else {
        return false;
    };
    if b != b'!' {
        return false;
    }
    let Some((c, _)) = first_of(rest) else {
        return false;
    };
    is_letter(c)
}

/// What follows a `/`, or else the `<` itself.
#[tactic(auto, unfolding(crate::specs::Words::after_word))]
fn name_of_tag(beyond: &[u8]) -> &[u8]
    ensures name { Some result.now
        ≡ (after_word (codes "</") (60 ∷ beyond.now) <|> after_word (codes "<") (60 ∷ beyond.now)) }
{
    let Some((b, inside)) = first_of(beyond) else {
        return beyond;
    };
    if b != b'/' {
        return beyond;
    }
    inside
}

/// Start condition 6, after the `<`.
fn is_block_tag_start(rules: Rules, beyond: &[u8]) -> bool
    ensures start { result ≡ is_block_tag_start rules (60 ∷ beyond.now) }
{
    let Some(tag) = tag_name::<Brand>(name_of_tag(beyond), Blank::new(1)) else {
        return false;
    };
    is_at_tag_end(tag.rest) && is_block_name(rules, tag.name)
}

/// Start condition 7, after the `<`.
fn is_any_tag_start(beyond: &[u8]) -> bool
    ensures start { result ≡ is_any_tag_start (60 ∷ beyond.now) }
{
    let Some((b, inside)) = first_of(beyond) else {
        return false;
    };
    if b == b'/' {
        let Some(tag) = closing_tag::<Brand>(inside, Blank::new(1)) else {
            return false;
        };
        return is_blank_text(tag.rest);
    }
    let Some(tag) = open_tag::<Brand>(beyond, Blank::new(1)) else {
        return false;
    };
    is_blank_text(tag.rest) && !is_raw_text_name(tag.name)
}

/// The kind of the HTML block that starts at a place, by the first of the seven start conditions that is met
/// there (4.6 HTML blocks). The last kind can't interrupt a paragraph.
pub fn html_start(text: &str, at: usize) -> Option<HtmlKind>
    requires within { at ≤ length text.now }
    ensures start { option_map kind_of result ≡ html_start profile (drop at text.now) }
{
    html_start_by(Rules::profile(), text, at)
}

/// The same with these rules, which decide which names start condition 6 has, and whether any line starts an
/// HTML block.
#[tactic(auto, using(crate::proofs::lemmas::blocks::HtmlStarts::html_starts))]
pub fn html_start_by(rules: Rules, text: &str, at: usize) -> Option<HtmlKind>
    requires within { at ≤ length text.now }
    ensures start { option_map kind_of result ≡ html_start rules (drop at text.now) }
{
    let (b, beyond) = first_of(bytes_from(text, at))?;
    if b != b'<' {
        return None;
    }
    if !rules.raw_html() {
        return None;
    }
    if is_raw_text_start(beyond) {
        return Some(HtmlKind::RawText);
    }
    if beyond.starts_with(b"!--") {
        return Some(HtmlKind::Comment);
    }
    if beyond.starts_with(b"?") {
        return Some(HtmlKind::Instruction);
    }
    if is_declaration_start(beyond) {
        return Some(HtmlKind::Declaration);
    }
    if beyond.starts_with(b"![CDATA[") {
        return Some(HtmlKind::CharacterData);
    }
    if is_block_tag_start(rules, beyond) {
        return Some(HtmlKind::BlockTag);
    }
    if is_any_tag_start(beyond) {
        return Some(HtmlKind::AnyTag);
    }
    None
}

/// Whether the bytes contain the closing tag of an element whose text isn't markup.
fn holds_raw_text_end(bytes: &[u8]) -> bool
    ensures held { result ≡ list_any (λ name.
        holds_word (codes "</" ++ name ++ codes ">") (str_to_ascii_lowercase bytes.now)) raw_text_names }
{
    holds_word(b"</pre>", bytes)
        || holds_word(b"</script>", bytes)
        || holds_word(b"</style>", bytes)
        || holds_word(b"</textarea>", bytes)
}

/// Whether a line meets the end condition of a kind.
fn is_html_end(kind: HtmlKind, bytes: &[u8]) -> bool
    ensures ends { result ≡ is_html_end (kind_of kind) bytes.now }
{
    match kind {
        HtmlKind::RawText => holds_raw_text_end(bytes),
        HtmlKind::Comment => holds_word(b"-->", bytes),
        HtmlKind::Instruction => holds_word(b"?>", bytes),
        HtmlKind::Declaration => holds_word(b">", bytes),
        HtmlKind::CharacterData => holds_word(b"]]>", bytes),
        HtmlKind::BlockTag | HtmlKind::AnyTag => false,
    }
}

/// What ends an HTML block on this line, the first or a later one, from a place on (4.6 HTML blocks): where
/// it ends, which is the text's end. The last two kinds are ended by a blank line alone.
pub fn html_end(kind: HtmlKind, text: &str, at: usize) -> Option<usize>
    requires within { at ≤ length text.now }
    ensures end { result ≡ given (is_html_end (kind_of kind) (drop at text.now)) (length text.now) }
{
    if !is_html_end(kind, bytes_from(text, at)) {
        return None;
    }
    Some(text.len())
}
