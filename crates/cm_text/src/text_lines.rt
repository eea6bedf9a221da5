//! Lines of text, which continue an open paragraph, as the first byte of each shows.
//!
//! Most lines of text start, after any spaces, with a byte that no other block starts with. Such a line
//! continues the paragraph that is open, within the same quotes and items or as a lazy continuation line.
ghost use Rattle.std.specs.Prelude.{◌≡◌, ℕ, ◌<◌, true, length, get_or, drop, [], ◌∷◌, ◌++◌};
ghost use Rattle.cm_text.specs.TextLines.{begins_text, AreTextLines};
ghost use Rattle.cm_text.specs.steps.FirstLine.{IsFirstLine};
ghost use Rattle.cm_text.specs.steps.TextAhead.{IsAhead};

use crate::endings::line_len;
use crate::search::leading_spaces;

/// Consecutive lines of text, seen without a copy: each starts with a byte that only a paragraph starts with
/// (`begins_text`), the first perhaps after spaces. Such a line continues an open paragraph (CommonMark
/// 0.31.2, 4.8).
#[derive(Clone, Copy, Debug, PartialEq, Eq)]
pub struct TextLines<'a> {
    /// The lines, each with the line feed that ends it.
    pub text: &'a str,
    /// The number of spaces at the start of the first.
    pub spaces: usize,
    /// How many lines there are, at least one.
    pub count: usize,
    pub ghost lines: { AreTextLines text.now spaces count },
}

impl<'a> TextLines<'a> {
    /// The lines without the spaces before the first, and without the last line feed.
    #[inline(always)]
    pub fn content(&self) -> &'a str
        ensures { drop self.now.spaces self.now.text.now ≡ result.now ++ 10 ∷ [] }
    {
        // It is UTF-8.
        let _bytes = self.text.as_bytes();
        &self.text[self.spaces..self.text.len() - 1]
    }
}

/// The extent of the lines of text at the start of a text. If there are none, the other numbers mean nothing.
#[derive(Clone, Copy, Debug)]
pub(crate) struct TextAhead {
    /// The number of spaces at the start of the first.
    pub(crate) spaces: usize,
    /// How many lines there are.
    pub(crate) count: usize,
    /// How many bytes they have, with their line feeds.
    pub(crate) len: usize,
    /// The number of bytes of the line after them.
    pub(crate) line: usize,
}

impl TextAhead {
    /// No line of text.
    pub(crate) fn none() -> TextAhead
        ensures { result.count ≡ 0 }
    {
        TextAhead {
            spaces: 0,
            count: 0,
            len: 0,
            line: 0,
        }
    }
}

/// Whether only a paragraph starts with a byte, whatever follows: neither another block nor the underline of
/// a heading (CommonMark 0.31.2, chapters 4 and 5). Letters and bytes of characters beyond ASCII do.
#[inline(always)]
pub fn begins_text(b: u8) -> bool
    ensures { result ≡ begins_text b }
{
    // Mostly it is a letter, and that test takes the fewest steps.
    b.is_ascii_alphabetic()
        || !matches!(
            b,
            b'0'..=b'9'
                | b'<'
                | b'>'
                | b'#'
                | b'`'
                | b'~'
                | b'-'
                | b'_'
                | b'*'
                | b'+'
                | b'='
                | b' '
                | b'\t'
                | b'\n'
        )
}

/// Whether the text may start with a line of text, by its first byte. Mostly it doesn't, and no more is
/// examined then.
#[inline(always)]
pub(crate) fn may_begin_text(bytes: &[u8]) -> bool {
    match bytes {
        [b, ..] => *b == b' ' || begins_text(*b),
        [] => false,
    }
}

/// Whether a line ends with a line feed at `end`, and starts as text at `first`.
#[inline(always)]
fn is_text_line(bytes: &[u8], first: usize, end: usize) -> bool
    ensures first { result ≡ true → first < end }
    ensures end { result ≡ true → end < length bytes.now }
    ensures feed { result ≡ true → get_or bytes.now end 0 ≡ 10 }
    ensures begins { result ≡ true → begins_text (get_or bytes.now first 0) ≡ true }
{
    end < bytes.len() && first < end && bytes[end] == b'\n' && begins_text(bytes[first])
}

/// The extent of the lines of text at the start of a text, whose first line has `line` bytes and has ended.
/// It is a call of its own, made once for all of them. The spaces of a line that hasn't ended would be
/// counted again with each piece of it.
#[inline(never)]
pub(crate) fn text_ahead(text: &str, line: usize) -> TextAhead
    requires first { IsFirstLine line text.now }
    requires ended { line < length text.now }
    ensures ahead { IsAhead result text.now }
{
    let bytes = text.as_bytes();
    let spaces = leading_spaces(text);
    let mut ahead = TextAhead {
        spaces,
        count: 0,
        len: 0,
        line,
    };
    let mut first = spaces;
    while is_text_line(bytes, first, ahead.len + ahead.line) {
        let len = ahead.len + (ahead.line + 1);
        ahead = TextAhead {
            spaces,
            count: ahead.count + 1,
            len,
            line: line_len(&text[len..], 0),
        };
        first = len;
    }
    ahead
}
