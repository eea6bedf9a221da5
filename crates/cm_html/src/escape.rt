//! Texts and destinations as they are written in HTML.
ghost use Rattle.std.specs.Prelude.{◌≡◌, ◌+◌, ◌==◌, ◌||◌, ◌<◌, ◌++◌, ℕ, length};
ghost use Rattle.std.specs.Prelude.{take, drop, slice_index, position, IsTrue, IsUtf8, string_bytes, OnOk};
ghost use Rattle.cm_html.specs.Escape.{escape_byte, escape, destination_html, is_space_or_tab, class_word};
ghost use Rattle.cm_html.specs.steps.Bytes.{is_escaped};

use crate::search::{Escaped, is_unchanged};
use cm_text::{ByteKind, Replaced, cut_at, next_of, push_replaced};
use percent_encoding::{AsciiSet, NON_ALPHANUMERIC, ascii_set, utf8_percent_encode};
use std::alloc::AllocError;

impl Replaced for Escaped {
    ghost written = { escape_byte };

    fn push(out: &mut String, b: u8) -> Result<(), AllocError> {
        match b {
            b'&' => out.push_str("&amp;"),
            b'<' => out.push_str("&lt;"),
            b'>' => out.push_str("&gt;"),
            _ => out.push_str("&quot;"),
        }
    }

    #[inline(always)]
    fn find(bytes: &[u8]) -> Option<usize> {
        // Such bytes are often next to each other.
        if !bytes.is_empty() && Escaped::contains(bytes[0]) {
            return Some(0);
        }
        let at = next_of::<Escaped>(bytes, 0);
        (at < bytes.len()).then_some(at)
    }
}

/// Adds a text: `&`, `<`, `>` and `"` as references, each run of bytes between them as one slice.
///
/// # Errors
///
/// `AllocError` if a request for memory was refused; the string may then have a prefix of the result.
#[inline(always)]
pub(crate) fn push_escaped(out: &mut String, text: &str) -> Result<(), AllocError>
    ensures { OnOk result (string_bytes out.new ≡ string_bytes out.old ++ escape text.now) }
{
    match Escaped::find(text.as_bytes()) {
        Some(_) => push_with_references(out, text),
        None => out.push_str(text),
    }
}

/// The same for a text that has such bytes. It is a call of its own, because few texts have them.
#[inline(never)]
fn push_with_references(out: &mut String, text: &str) -> Result<(), AllocError>
    ensures { OnOk result (string_bytes out.new ≡ string_bytes out.old ++ escape text.now) }
{
    push_replaced::<Escaped>(out, text)
}

/// The ASCII bytes that a destination doesn't keep.
const NOT_KEPT: AsciiSet = ascii_set!(
    NON_ALPHANUMERIC
        .remove(b'-')
        .remove(b'_')
        .remove(b'.')
        .remove(b'+')
        .remove(b'!')
        .remove(b'*')
        .remove(b'\'')
        .remove(b'(')
        .remove(b')')
        .remove(b',')
        .remove(b'%')
        .remove(b'#')
        .remove(b'@')
        .remove(b'?')
        .remove(b'=')
        .remove(b';')
        .remove(b':')
        .remove(b'/')
        .remove(b'&')
        .remove(b'$')
        .remove(b'~')
);

/// Writes a destination as the value of an attribute. Takes no memory but the text's.
#[inline(always)]
pub(crate) fn push_destination(out: &mut String, destination: &str) -> Result<(), AllocError>
    ensures { OnOk result (string_bytes out.new ≡ string_bytes out.old ++ destination_html destination.now) }
{
    if is_unchanged(destination.as_bytes()) {
        return out.push_str(destination);
    }
    for piece in utf8_percent_encode(destination, NOT_KEPT) {
        push_escaped(out, piece)?;
    }
    Ok(())
}

/// Where the first space or tab is.
fn find_space_or_tab(bytes: &[u8]) -> Option<usize>
    ensures { result ≡ position is_space_or_tab bytes.now }
{
    bytes.iter().position(|b| *b == b' ' || *b == b'\t')
}

/// The class word of a code block with this info.
pub(crate) fn class_word(info: &str) -> &str
    ensures { result.now ≡ class_word info.now }
{
    match find_space_or_tab(info.as_bytes()) {
        Some(at) => cut_at(info, at).0,
        None => info,
    }
}
