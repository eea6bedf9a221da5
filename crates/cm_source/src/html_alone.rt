//! Whether a text, read alone, is one HTML block (CommonMark 0.31.2, 4.6 HTML blocks).
ghost use Rattle.std.specs.Prelude.{◌≡◌};
ghost use Rattle.cm_scan.specs.blocks.HtmlBlocks.{ends_at_blank_line};
ghost use Rattle.cm_scan.specs.blocks.HtmlKinds.{kind_of};
ghost use Rattle.cm_source.specs.Spelling.{ended_lines};
ghost use Rattle.cm_source.specs.Refusals.{first_line, is_html_block};
ghost use Rattle.cm_source.specs.steps.HtmlLines.{fits, all_fit};

use crate::search::find_byte;
use crate::texts::is_code_text;
use cm_scan::{HtmlKind, html_end, html_start_by, is_blank_text};
use cm_text::{Rules, cut_at};

/// Whether a blank line ends an HTML block of a kind.
fn ends_at_blank_line(kind: HtmlKind) -> bool
    ensures { result ≡ ends_at_blank_line (kind_of kind) }
{
    matches!(kind, HtmlKind::BlockTag | HtmlKind::AnyTag)
}

/// Whether a line can be in an HTML block of a kind, as its last line or before that: if a blank line would
/// end the block it isn't blank, otherwise it meets the end condition exactly if it is the last.
fn fits(kind: HtmlKind, line: &str, last: bool) -> bool
    ensures { result ≡ fits (kind_of kind) line.now last }
{
    if ends_at_blank_line(kind) {
        return !is_blank_text(line.as_bytes());
    }
    html_end(kind, line, 0).is_some() == last
}

/// Whether each line of a text fits, so that an HTML block of the kind has them all and ends with the last.
fn all_fit(kind: HtmlKind, text: &str) -> bool
    ensures { result ≡ all_fit (kind_of kind) (ended_lines text.now) }
{
    let mut rest = text;
    while let Some(at) = find_byte(b'\n', rest.as_bytes()) {
        let (line, beyond) = cut_at(rest, at);
        if !fits(kind, line, beyond.is_empty()) {
            return false;
        }
        rest = beyond;
    }
    rest.is_empty() || fits(kind, rest, true)
}

/// The first line of a text.
fn first_line(text: &str) -> &str
    ensures { result.now ≡ first_line (ended_lines text.now) }
{
    match find_byte(b'\n', text.as_bytes()) {
        Some(at) => cut_at(text, at).0,
        None => text,
    }
}

/// Whether a text, read alone, is one HTML block, which ends with its last line.
pub(crate) fn is_html_block(rules: Rules, text: &str) -> bool
    ensures { result ≡ is_html_block rules text.now }
{
    if !is_code_text(text) {
        return false;
    }
    match html_start_by(rules, first_line(text), 0) {
        Some(kind) => all_fit(kind, text),
        None => false,
    }
}
