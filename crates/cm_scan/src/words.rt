//! Parts of a text, without copying.
ghost use Rattle.std.specs.Prelude.{◌≡◌, ◌+◌, ◌<◌, ◌≤◌, length, drop};
ghost use Rattle.std.specs.List.{find};
ghost use Rattle.std.specs.Str.{IsCharBoundary};
ghost use Rattle.std.specs.Char.{is_ascii_digit};
ghost use Rattle.cm_scan.specs.Words.{is_space_or_tab, run_length, after_run};
ghost use Rattle.cm_scan.specs.Words.{trim_start, trim_end_by, trim_end};
ghost use Rattle.cm_scan.specs.Words.{trim_end_spaces, trim, is_blank_text, is_at_gap};
ghost use Rattle.cm_scan.specs.steps.LineSteps.{is_plain, is_trimmed};

/// Whether a byte is a space or a tab.
#[inline(always)]
pub(crate) fn is_space_or_tab(b: u8) -> bool
    ensures { result ≡ is_space_or_tab b }
{
    b == b' ' || b == b'\t'
}

/// Whether a byte is a decimal digit.
#[inline(always)]
pub(crate) fn is_digit(b: u8) -> bool
    ensures { result ≡ is_ascii_digit b }
{
    b.is_ascii_digit()
}

/// The bytes of a text from a place on.
#[inline(always)]
pub(crate) fn bytes_from(text: &str, at: usize) -> &[u8]
    requires { at ≤ length text.now }
    ensures rest { result.now ≡ drop at text.now }
{
    &text.as_bytes()[at..]
}

/// The place after the run of a byte at a place, however often the byte is repeated there, or not at all.
#[inline(always)]
pub fn after_run(marker: u8, text: &str, at: usize) -> usize
    requires { at ≤ length text.now }
    ensures end { result ≡ at + run_length marker (drop at text.now) }
    ensures within { result ≤ length text.now }
    ensures beyond { drop result text.now ≡ after_run marker (drop at text.now) }
    ensures boundary { marker < 128 → IsCharBoundary text.now at → IsCharBoundary text.now result }
{
    let bytes = text.as_bytes();
    let mut end = at;
    while end < bytes.len() && bytes[end] == marker {
        end += 1;
    }
    end
}

/// The first byte that is neither a space nor a tab.
pub(crate) fn first_plain(bytes: &[u8]) -> Option<u8>
    ensures found { result ≡ find is_plain bytes.now }
{
    bytes.iter().copied().find(|b| !is_space_or_tab(*b))
}

/// Whether there are only spaces and tabs, as in a blank line (2.1 Characters and lines).
pub fn is_blank_text(bytes: &[u8]) -> bool
    ensures blank { result ≡ is_blank_text bytes.now }
{
    bytes.iter().all(|b| is_space_or_tab(*b))
}

/// Whether a space, a tab or the end comes next.
#[inline(always)]
pub(crate) fn is_at_gap(bytes: &[u8]) -> bool
    ensures gap { result ≡ is_at_gap bytes.now }
{
    match bytes {
        [b, ..] => is_space_or_tab(*b),
        [] => true,
    }
}

/// The text without the spaces and tabs at its start.
pub(crate) fn trim_start(text: &str) -> &str
    ensures trimmed { result.now ≡ trim_start text.now }
{
    let bytes = text.as_bytes();
    let mut start = 0;
    while start < bytes.len() && is_space_or_tab(bytes[start]) {
        start += 1;
    }
    &text[start..]
}

/// Whether a byte is removed from the end of a text: a space, and a tab if tabs are removed too.
#[inline(always)]
fn is_trimmed(tabs: bool, b: u8) -> bool
    ensures { result ≡ is_trimmed tabs b }
{
    b == b' ' || tabs && b == b'\t'
}

/// The text without the spaces at its end, and without the tabs where these go too.
#[inline(always)]
fn trim_end_by(tabs: bool, text: &str) -> &str
    ensures trimmed { result.now ≡ trim_end_by (is_trimmed tabs) text.now }
{
    let bytes = text.as_bytes();
    let mut end = bytes.len();
    while end > 0 && is_trimmed(tabs, bytes[end - 1]) {
        end -= 1;
    }
    &text[..end]
}

/// The text without the spaces and tabs at its end, as in the last line of a paragraph (4.8 Paragraphs).
pub fn trim_end(text: &str) -> &str
    ensures trimmed { result.now ≡ trim_end text.now }
{
    trim_end_by(true, text)
}

/// The text without the spaces at its end, as before a soft line break (6.8 Soft line breaks).
pub fn trim_end_spaces(text: &str) -> &str
    ensures trimmed { result.now ≡ trim_end_spaces text.now }
{
    trim_end_by(false, text)
}

/// The text without the spaces and tabs at both ends.
pub(crate) fn trim(text: &str) -> &str
    ensures trimmed { result.now ≡ trim text.now }
{
    trim_end(trim_start(text))
}
