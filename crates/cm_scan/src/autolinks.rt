//! Autolinks in a text (CommonMark 0.31.2, 6.5 Autolinks).
ghost use Rattle.std.specs.Prelude.{◌≡◌, ◌+◌, ◌*◌, ◌≤◌, ℕ, List, not, length, drop, option_map, IfSome};
ghost use Rattle.std.specs.Prelude.{IsUtf8};
ghost use Rattle.std.specs.Str.{IsCharBoundary};
ghost use Rattle.cm_text.specs.Addresses.{is_followed};
ghost use Rattle.cm_scan.specs.spans.Autolinks.{is_inside, in_angles, autolink, followed_autolink};
ghost use Rattle.cm_scan.specs.spans.Reach.{link_reach};
ghost use Rattle.cm_scan.specs.Scanned.{autolink_with};

use crate::autolink_contents::{Autolink, is_address_link};
use crate::plain_spans;
use crate::words::bytes_from;
use cm_text::{ByteKind, Looks, Rest, Rules, follows};
use std::marker::Brand;
use std::simd::prelude::*;
use std::sync::ledger::{Blank, Ledger};

/// The autolink at a place in a text, which is the boundary of a character, and the place after its `>`
/// (CommonMark 0.31.2, 6.5 Autolinks). None where there is none.
///
/// An absolute URI takes precedence over an e-mail address. Nothing is read after the first space, control
/// character or `<` inside.
pub fn autolink<'a>(text: &'a str, at: usize) -> Option<(Autolink<'a>, usize)>
    requires { IsCharBoundary text.now at }
    ensures read { option_map (λ r. autolink_with r.0.is_address r.0.text.now (drop r.1 text.now)) result
        ≡ autolink (drop at text.now) }
    ensures utf8 { IfSome result (λ r. IsUtf8 r.0.text.now) }
    ensures boundary { IfSome result (λ r. IsCharBoundary text.now r.1) }
{
    autolink_by(Rules::profile(), text, at)
}

/// The same with these rules: an autolink to an address that they don't follow is none.
#[inline(always)]
pub fn autolink_by<'a>(rules: Rules, text: &'a str, at: usize) -> Option<(Autolink<'a>, usize)>
    requires { IsCharBoundary text.now at }
    ensures read { option_map (λ r. autolink_with r.0.is_address r.0.text.now (drop r.1 text.now)) result
        ≡ followed_autolink rules (drop at text.now) }
    ensures utf8 { IfSome result (λ r. IsUtf8 r.0.text.now) }
    ensures boundary { IfSome result (λ r. IsCharBoundary text.now r.1) }
{
    let link = plain_spans::autolink::<Brand>(rules, bytes_from(text, at), Blank::new(1))?;
    let end = text.len() - link.rest.len();
    let text = &text[at + 1..end - 1];
    let is_address = link.is_address;
    Some((Autolink { text, is_address }, end))
}

/// An autolink, and what is left after it.
#[derive(Drop)]
pub struct AutolinkRead<'a> {
    /// what is between `<` and `>`.
    pub text: Rest<'a>,
    /// Whether it is an e-mail address.
    pub is_address: bool,
    /// What is left.
    pub rest: Rest<'a>,
}

/// The autolink at the start of a text, if the rules follow its address.
///
/// What it looks at is bounded by how far an autolink may reach.
#[inline(always)]
pub fn autolink_in<'a, L: Ledger>(
    rules: Rules,
    text: &Rest<'a>,
    looks: &mut Looks<L>,
) -> Option<AutolinkRead<'a>>
    ensures read { option_map (λ link. autolink_with link.is_address link.text link.rest) result
        ≡ followed_autolink rules text.now }
    ensures looks { looks.new ≤ looks.old + 7 * link_reach (drop 1 text.now) + 33 }
{
    let (inside, rest) = in_angles(text, looks)?;
    let is_address = is_address_link(&inside, looks)?;
    if !leads_on(rules, is_address, &inside, looks) {
        return None;
    }
    Some(AutolinkRead {
        text: inside,
        is_address,
        rest,
    })
}

/// Whether the rules follow the address of an autolink with this text. That of an e-mail
/// address they always follow.
fn leads_on<L: Ledger>(
    rules: Rules,
    is_address: bool,
    text: &Rest<'_>,
    looks: &mut Looks<L>,
) -> bool
    ensures followed { (rest : List ℕ) → result
        ≡ is_followed rules (autolink_with is_address text.now rest).destination }
    ensures looks { looks.new ≤ looks.old + length text.now + 17 }
{
    is_address || follows(rules, text, looks)
}

/// What is between `<` and `>`, and what is left after them.
fn in_angles<'a, L: Ledger>(text: &Rest<'a>, looks: &mut Looks<L>) -> Option<(Rest<'a>, Rest<'a>)>
    ensures read { option_map (λ r. record { text = r.0; rest = r.1 }) result ≡ in_angles text.now }
    ensures inside { IfSome result (λ r. length r.0 + 1 ≤ link_reach (drop 1 text.now)) }
    ensures looks { looks.new ≤ looks.old + link_reach (drop 1 text.now) + 17 }
{
    let (b, inside) = text.first(looks)?;
    if b != b'<' {
        return None;
    }
    let len = inside.next_of::<Outside, L>(looks);
    let (c, rest) = inside.after(len).first(looks)?;
    if c != b'>' {
        return None;
    }
    Some((inside.front(len), rest))
}

/// Bytes that an autolink doesn't have.
struct Outside;

impl ByteKind for Outside {
    ghost passes = { λ b. not (is_inside b) };

    #[inline(always)]
    fn contains(b: u8) -> bool {
        !is_inside(b)
    }

    #[inline(always)]
    fn lanes(lanes: u8x16) -> u64 {
        let brackets = lanes.simd_eq(u8x16::splat(b'<')) | lanes.simd_eq(u8x16::splat(b'>'));
        let others = lanes.simd_lt(u8x16::splat(b'!')) | lanes.simd_eq(u8x16::splat(127));
        (brackets | others).to_bitmask()
    }
}

/// Whether a byte may be in an autolink.
#[inline(always)]
fn is_inside(b: u8) -> bool
    ensures { result ≡ is_inside b }
{
    !(b.is_ascii_control() || b == b' ' || b == b'<' || b == b'>')
}
