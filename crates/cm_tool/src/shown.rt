//! Texts as they are written to a terminal.
ghost use Rattle.std.specs.Prelude.{◌≡◌, ◌++◌, map, string_bytes, IfOk, OnOk};
ghost use Rattle.std.specs.Str.{encode_utf8_all};
ghost use Rattle.cm_tool.specs.Shown.{is_nonprinting, shown, shown_char};

use std::alloc::{AllocError, Global};
use unicode::properties::GeneralCategory;

/// Whether a terminal acts on the character instead of printing it: a control or format character, or a
/// separator of lines or paragraphs.
fn is_nonprinting(c: char) -> bool
    ensures { result ≡ is_nonprinting c }
{
    c.is_control()
        || matches!(
            GeneralCategory::for_char(c),
            GeneralCategory::Format
                | GeneralCategory::LineSeparator
                | GeneralCategory::ParagraphSeparator
        )
}

/// Appends a character, or its escape if it is nonprinting.
fn push_shown_char(out: &mut String, c: char) -> Result<(), AllocError>
    ensures { OnOk result (string_bytes out.new ≡ string_bytes out.old ++ encode_utf8_all (shown_char c)) }
{
    if !is_nonprinting(c) {
        return out.push(c);
    }
    for part in c.escape_unicode() {
        out.push(part)?;
    }
    Ok(())
}

/// Appends a text, with `\u{..}` in place of each nonprinting character.
pub(crate) fn push_shown(out: &mut String, text: &str) -> Result<(), AllocError>
    ensures { OnOk result (string_bytes out.new ≡ string_bytes out.old ++ shown text.now) }
{
    for c in text.chars() {
        push_shown_char(out, c)?;
    }
    Ok(())
}

/// The words, with `\u{..}` in place of each nonprinting character: each is on one line of a text that quotes
/// it.
pub fn shown_words(alloc: Global, words: &[String]) -> Result<Vec<String>, AllocError>
    ensures { IfOk result (λ quoted. map string_bytes quoted.items ≡ map shown (map string_bytes words.now)) }
{
    let mut quoted = Vec::with_capacity(alloc, words.len())?;
    for word in words {
        let mut text = String::new(alloc);
        push_shown(&mut text, word)?;
        quoted.push(text)?;
    }
    Ok(quoted)
}
