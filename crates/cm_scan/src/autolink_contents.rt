//! What is between the angle brackets of an autolink (CommonMark 0.31.2, 6.5 Autolinks).
ghost use Rattle.std.specs.Prelude.{◌≡◌, ◌+◌, ◌*◌, ◌≤◌, List, ℕ, ◌||◌, ◌==◌, length, get_or, option_map};
ghost use Rattle.std.specs.List.{list_all};
ghost use Rattle.std.specs.Char.{is_ascii_alphabetic, is_ascii_alphanumeric};
ghost use Rattle.cm_scan.specs.Words.{begins_with, skip};
ghost use Rattle.cm_scan.specs.spans.Autolinks.{continues_scheme, is_absolute, stands_in_address};
ghost use Rattle.cm_scan.specs.spans.Autolinks.{is_host_label, is_address, as_autolink};
ghost use Rattle.cm_scan.specs.Scanned.{autolink_with};
ghost use Rattle.cm_scan.specs.steps.SpanSteps.{is_host_byte, labels};

use crate::tags::{is_letter, skip_passing};
use crate::words::is_digit;
use cm_text::{Looks, Rest};
use std::sync::ledger::Ledger;

/// An autolink (CommonMark 0.31.2, 6.5 Autolinks).
#[derive(Clone, Copy, Debug, PartialEq, Eq, Drop)]
pub struct Autolink<'a> {
    /// what is between `<` and `>`.
    pub text: &'a str,
    /// Whether it is an e-mail address, whose link is `mailto:` and the text. Any other links to the text.
    pub is_address: bool,
}

/// Whether the autolink that a text between `<` and `>` makes is an e-mail address, if it isn't an absolute
/// URI. None if it makes no autolink.
pub(crate) fn is_address_link<L: Ledger>(inside: &Rest<'_>, looks: &mut Looks<L>) -> Option<bool>
    ensures read { (rest : List ℕ) →
        option_map (λ is_address. autolink_with is_address inside.now rest) result
        ≡ as_autolink (record { text = inside.now; rest = rest }) }
    ensures looks { looks.new ≤ looks.old + 5 * length inside.now + 5 }
{
    if is_absolute(inside, looks) {
        return Some(false);
    }
    if !is_address(inside, looks) {
        return None;
    }
    Some(true)
}

/// Whether a byte is an ASCII letter or a digit.
#[inline(always)]
fn is_letter_or_digit(b: u8) -> bool
    ensures { result ≡ is_ascii_alphanumeric b }
{
    is_letter(b) || is_digit(b)
}

/// Whether a byte continues a scheme.
#[inline(always)]
fn continues_scheme(b: u8) -> bool
    ensures { result ≡ continues_scheme b }
{
    is_letter_or_digit(b) || b == b'+' || b == b'.' || b == b'-'
}

/// What is left after the bytes that continue a scheme.
fn skip_scheme<'a, L: Ledger>(bytes: &Rest<'a>, looks: &mut Looks<L>) -> Rest<'a>
    ensures skipped { result ≡ skip continues_scheme bytes.now }
    ensures shorter { length result ≤ length bytes.now }
    ensures looks { looks.new + length result ≡ looks.old + length bytes.now + 1 }
{
    skip_passing(bytes, continues_scheme, looks)
}

/// Whether this byte comes next.
#[inline(always)]
fn is_byte_next<L: Ledger>(b: u8, bytes: &Rest<'_>, looks: &mut Looks<L>) -> bool
    ensures next { result ≡ begins_with b bytes.now }
    ensures looks { looks.new ≡ looks.old + 1 }
{
    match bytes.first(looks) {
        Some((first, _)) => first == b,
        None => false,
    }
}

/// Whether an ASCII letter comes next.
#[inline(always)]
fn is_letter_next<L: Ledger>(bytes: &Rest<'_>, looks: &mut Looks<L>) -> bool
    ensures next { result ≡ is_ascii_alphabetic (get_or bytes.now 0 0) }
    ensures looks { looks.new ≡ looks.old + 1 }
{
    match bytes.first(looks) {
        Some((first, _)) => is_letter(first),
        None => false,
    }
}

/// Whether this is an absolute URI: a scheme of 2 to 32 characters, followed by a colon.
fn is_absolute<L: Ledger>(inside: &Rest<'_>, looks: &mut Looks<L>) -> bool
    ensures absolute { result ≡ is_absolute inside.now }
    ensures looks { looks.new ≤ looks.old + length inside.now + 3 }
{
    let rest = skip_scheme(inside, looks);
    let scheme = inside.len() - rest.len();
    if scheme < 2 || scheme > 32 {
        return false;
    }
    is_letter_next(inside, looks) && is_byte_next(b':', &rest, looks)
}

/// Whether a byte may be before the `@` of an e-mail address.
fn stands_in_address(b: u8) -> bool
    ensures { result ≡ stands_in_address b }
{
    is_letter_or_digit(b) || b".!#$%&'*+/=?^_`{|}~-".contains(&b)
}

/// What is left after the bytes that may be before the `@` of an e-mail address.
fn skip_address<'a, L: Ledger>(bytes: &Rest<'a>, looks: &mut Looks<L>) -> Rest<'a>
    ensures skipped { result ≡ skip stands_in_address bytes.now }
    ensures shorter { length result ≤ length bytes.now }
    ensures looks { looks.new + length result ≡ looks.old + length bytes.now + 1 }
{
    skip_passing(bytes, stands_in_address, looks)
}

/// Whether this is an e-mail address.
fn is_address<L: Ledger>(inside: &Rest<'_>, looks: &mut Looks<L>) -> bool
    ensures address { result ≡ is_address inside.now }
    ensures looks { looks.new ≤ looks.old + 4 * length inside.now + 2 }
{
    let rest = skip_address(inside, looks);
    if rest.len() == inside.len() {
        return false;
    }
    let Some((b, host)) = rest.first(looks) else {
        return false;
    };
    b == b'@' && are_host_labels(&host, looks)
}

/// Whether each part between the dots is a label of a host.
fn are_host_labels<L: Ledger>(host: &Rest<'_>, looks: &mut Looks<L>) -> bool
    ensures labels { result ≡ list_all is_host_label (labels host.now) }
    ensures looks { looks.new ≤ looks.old + 4 * length host.now + 3 }
{
    let mut rest = host.again();
    while let Some(dot) = rest.find_byte(b'.', looks) {
        if !is_host_label(&rest.front(dot), looks) {
            return false;
        }
        rest = rest.after(dot + 1);
    }
    is_host_label(&rest, looks)
}

/// Whether this is a label of a host: 1 to 63 letters, digits or hyphens, with no hyphen at an end.
fn is_host_label<L: Ledger>(label: &Rest<'_>, looks: &mut Looks<L>) -> bool
    ensures label { result ≡ is_host_label label.now }
    ensures looks { looks.new ≤ looks.old + length label.now + 3 }
{
    let len = label.len();
    if len < 1 || len > 63 {
        return false;
    }
    if is_byte_next(b'-', label, looks) || is_byte_next(b'-', &label.after(len - 1), looks) {
        return false;
    }
    has_host_bytes(label, looks)
}

/// Whether there are only letters, digits and hyphens.
fn has_host_bytes<L: Ledger>(label: &Rest<'_>, looks: &mut Looks<L>) -> bool
    ensures bytes { result ≡ list_all is_host_byte label.now }
    ensures looks { looks.new ≤ looks.old + length label.now + 1 }
{
    skip_passing(label, is_host_byte, looks).len() == 0
}

/// Whether a byte may be in a label of a host.
#[inline(always)]
fn is_host_byte(b: u8) -> bool
    ensures { result ≡ is_host_byte b }
{
    is_letter_or_digit(b) || b == b'-'
}
