//! Spaces, tabs and line feeds between the parts of a construct.
ghost use Rattle.std.specs.Prelude.{◌≡◌, ◌≤◌, length, drop, option_map, IfSome, IsUtf8};
ghost use Rattle.std.specs.Str.{IsCharBoundary};
ghost use Rattle.cm_scan.specs.Words.{is_space_or_tab, trim_start};
ghost use Rattle.cm_scan.specs.spans.Tags.{is_blank_byte, is_blank_next, after_gap};
ghost use Rattle.cm_scan.specs.inlines.Links.{after_line};

use crate::words::is_space_or_tab;

/// Whether a byte is a space, a tab or a line feed.
#[inline(always)]
pub(crate) fn is_blank_byte(b: u8) -> bool
    ensures { result ≡ is_blank_byte b }
{
    is_space_or_tab(b) || b == b'\n'
}

/// Whether a space, a tab or a line feed is at a place.
#[inline(always)]
pub fn is_blank_next(text: &[u8], at: usize) -> bool
    ensures blank { result ≡ is_blank_next (drop at text.now) }
{
    at < text.len() && is_blank_byte(text[at])
}

/// The place after the spaces and tabs.
pub(crate) fn after_blanks(text: &[u8], at: usize) -> usize
    requires { at ≤ length text.now }
    ensures skipped { drop result text.now ≡ trim_start (drop at text.now) }
    ensures within { result ≤ length text.now }
    ensures boundary { IsUtf8 text.now → IsCharBoundary text.now at → IsCharBoundary text.now result }
{
    let mut end = at;
    while end < text.len() && is_space_or_tab(text[end]) {
        end += 1;
    }
    end
}

/// The place after spaces, tabs and up to one line feed.
pub fn after_gap(text: &[u8], at: usize) -> usize
    requires { at ≤ length text.now }
    ensures skipped { drop result text.now ≡ after_gap (drop at text.now) }
    ensures within { result ≤ length text.now }
    ensures boundary { IsUtf8 text.now → IsCharBoundary text.now at → IsCharBoundary text.now result }
{
    let end = after_blanks(text, at);
    if end < text.len() && text[end] == b'\n' {
        return after_blanks(text, end + 1);
    }
    end
}

/// The place after the end of the line, if only spaces and tabs are before it.
pub(crate) fn after_line(text: &[u8], at: usize) -> Option<usize>
    requires { at ≤ length text.now }
    ensures ended { option_map (λ end. drop end text.now) result ≡ after_line (drop at text.now) }
    ensures within { IfSome result (λ end. end ≤ length text.now) }
    ensures boundary { IfSome result (λ end.
        IsUtf8 text.now → IsCharBoundary text.now at → IsCharBoundary text.now end) }
{
    let end = after_blanks(text, at);
    if end == text.len() {
        return Some(end);
    }
    if text[end] == b'\n' {
        return Some(end + 1);
    }
    None
}
