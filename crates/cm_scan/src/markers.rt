//! The markers of list items (5.2 List items).
ghost use Rattle.std.specs.Prelude.{◌≡◌, ◌+◌, ◌-◌, ◌==◌, ◌<◌, ◌≤◌, [], if◌then◌else◌};
ghost use Rattle.std.specs.Prelude.{Some, None, length, drop, MatchOption, IfSome};
ghost use Rattle.std.specs.List.{fold};
ghost use Rattle.std.specs.Str.{IsCharBoundary};
ghost use Rattle.std.specs.Char.{is_ascii_digit};
ghost use Rattle.cm_scan.specs.Words.{front_of, skip};
ghost use Rattle.cm_scan.specs.blocks.LineForms.{item_marker, is_same_kind, bullet_kind};
ghost use Rattle.cm_scan.specs.blocks.LineForms.{ordered_kind, decimal_value, most_digits};
ghost use Rattle.cm_scan.specs.steps.LineSteps.{with_digit};

use crate::words::{bytes_from, is_at_gap, is_digit};
use cm_tree::ListKind;

/// The marker of a list item (5.2 List items).
#[derive(Clone, Copy, Debug, PartialEq, Eq)]
pub struct ItemMarker {
    /// The kind of the item's list, with the value of the number.
    pub kind: ListKind,
    /// How many digits the number has: none at a bullet.
    pub digits: usize,
}

/// The kind of the list of a bullet: `-`, `+` or `*` (5.2 List items).
pub fn bullet_kind(b: u8) -> Option<ListKind>
    ensures { result ≡ bullet_kind b }
{
    match b {
        b'-' => Some(ListKind::Dash),
        b'+' => Some(ListKind::Plus),
        b'*' => Some(ListKind::Star),
        _ => None,
    }
}

/// `.` or `)` after a number.
fn ordered_kind(number: u32, b: u8) -> Option<ListKind>
    ensures { result ≡ ordered_kind number b }
{
    match b {
        b'.' => Some(ListKind::Dot { start: number }),
        b')' => Some(ListKind::Paren { start: number }),
        _ => None,
    }
}

/// The kind that a byte makes after this number of digits.
fn kind_of(digits: usize, number: u32, b: u8) -> Option<ListKind>
    ensures { result ≡ (if digits == 0 then bullet_kind b else ordered_kind number b) }
{
    if digits == 0 {
        bullet_kind(b)
    } else {
        ordered_kind(number, b)
    }
}

/// The most digits that the number of a list has (5.2 List items). `u32` has room for every such number.
pub const MOST_DIGITS: u32 = 9;

/// The number at a place, of up to this number of digits, and the place after it: that place itself if no
/// digit is there.
fn number_at(text: &str, at: usize) -> (u32, usize)
    requires { at ≤ length text.now }
    ensures begin { at ≤ result.1 }
    ensures within { result.1 ≤ length text.now }
    ensures count { result.1 + length (front_of is_ascii_digit (drop result.1 text.now))
        ≡ at + length (front_of is_ascii_digit (drop at text.now)) }
    ensures value { fold with_digit result.0 (front_of is_ascii_digit (drop result.1 text.now))
        ≡ decimal_value (front_of is_ascii_digit (drop at text.now)) }
    ensures left { skip is_ascii_digit (drop result.1 text.now) ≡ skip is_ascii_digit (drop at text.now) }
    ensures few { result.1 - at ≤ most_digits }
    ensures whole { result.1 - at < most_digits → front_of is_ascii_digit (drop result.1 text.now) ≡ [] }
{
    let bytes = text.as_bytes();
    let mut number = 0;
    let mut end = at;
    while end < bytes.len() && end - at < MOST_DIGITS as usize && is_digit(bytes[end]) {
        number = number * 10 + u32::from(bytes[end] - b'0');
        end += 1;
    }
    (number, end)
}

/// The marker of a list item at a place (5.2 List items), and the place after it: a bullet, or one to nine
/// digits and `.` or `)`, if a space, a tab or the end of the text comes next.
pub fn item_marker(text: &str, at: usize) -> Option<(ItemMarker, usize)>
    requires within { at ≤ length text.now }
    ensures marker { MatchOption result (item_marker (drop at text.now) ≡ None)
        (λ r. item_marker (drop at text.now) ≡ Some (record { kind = r.0.kind; digits = r.0.digits })) }
    ensures end { IfSome result (λ r. r.1 ≡ at + r.0.digits + 1) }
    ensures boundary { IfSome result (λ r. IsCharBoundary text.now r.1) }
{
    let bytes = text.as_bytes();
    let (number, end) = number_at(text, at);
    if end == bytes.len() {
        return None;
    }
    let digits = end - at;
    let kind = kind_of(digits, number, bytes[end])?;
    let beyond = end + 1;
    if !is_at_gap(bytes_from(text, beyond)) {
        return None;
    }
    Some((ItemMarker { kind, digits }, beyond))
}

/// Whether items of the two kinds belong to one list (5.3 Lists).
pub fn is_same_kind(one: ListKind, other: ListKind) -> bool
    ensures { result ≡ is_same_kind one other }
{
    match (one, other) {
        (ListKind::Dash, ListKind::Dash) => true,
        (ListKind::Plus, ListKind::Plus) => true,
        (ListKind::Star, ListKind::Star) => true,
        (ListKind::Dot { .. }, ListKind::Dot { .. }) => true,
        (ListKind::Paren { .. }, ListKind::Paren { .. }) => true,
        _ => false,
    }
}
