//! References to characters.
ghost use Rattle.std.specs.Prelude.{◌≡◌, ◌∷◌, ◌++◌, ◌+◌, ◌*◌, ◌==◌, ◌<◌, ◌≤◌, ◌^◌, if◌then◌else◌};
ghost use Rattle.std.specs.Prelude.{IfSome, OnOk, ℕ, Bool, List, length, drop, take};
ghost use Rattle.std.specs.Prelude.{Option, Some, None, option_copied, string_bytes, encode_utf8_all};
ghost use Rattle.std.specs.Char.{is_ascii_digit, is_ascii_hexdigit, is_ascii_alphanumeric};
ghost use Rattle.std.specs.List.{prefix_len};
ghost use Rattle.std.specs.Str.{IsCharBoundary};
ghost use Rattle.std.specs.Str.Parse.{AllDigits, digits_value};
ghost use Rattle.cm_text.specs.References.{before_semicolon, chars_of, numbered_character, numbered, named};
ghost use Rattle.cm_text.specs.References.{begins_with, reference, reference_at, read_of};
ghost use Rattle.cm_text.specs.ReferenceReach.{reference_reach};

use crate::looks::{Looks, Rest};
use crate::names::look_up;
use crate::uncounted;
use std::alloc::AllocError;
use std::marker::Brand;
use std::sync::ledger::{Blank, Ledger};

/// The characters of a reference: one or two.
#[derive(Clone, Copy, Debug, PartialEq, Eq, Drop)]
pub struct Chars {
    /// The one character, or the first of two.
    pub first: char,
    /// The second of two.
    pub second: Option<char>,
}

impl Chars {
    /// Adds the characters to the end of a text.
    ///
    /// # Errors
    ///
    /// `AllocError` if a request for memory was refused.
    pub fn push_to(self, text: &mut String) -> Result<(), AllocError>
        ensures { OnOk result (string_bytes text.new
            ≡ string_bytes text.old ++ encode_utf8_all (chars_of self)) }
    {
        text.push(self.first)?;
        if let Some(second) = self.second {
            text.push(second)?;
        }
        Ok(())
    }
}

/// The reference at a place in a text, which is the boundary of a character: its characters, and the place
/// after its semicolon (CommonMark 0.31.2, 2.5 Entity and numeric character references).
///
/// U+0000 and what is no Unicode scalar value give U+FFFD.
pub fn reference_at(text: &str, place: usize) -> Option<(Chars, usize)>
    requires { IsCharBoundary text.now place }
    ensures read { read_of result ≡ reference_at text.now place }
    ensures boundary { IfSome result (λ read. IsCharBoundary text.now read.1) }
{
    let rest = &text.as_bytes()[place..];
    let (chars, len) = uncounted::reference::<Brand>(rest, Blank::new(1))?;
    Some((chars, place + len))
}

/// The reference at the start of a text, and the number of its bytes.
///
/// What it looks at is bounded by how far a reference may reach.
#[inline(always)]
pub fn reference<L: Ledger>(text: &Rest<'_>, looks: &mut Looks<L>) -> Option<(Chars, usize)>
    ensures read { read_of result ≡ reference text.now }
    ensures looks { looks.new ≤ looks.old + 2 * reference_reach (drop 1 text.now) + 2 }
{
    if !begins_with(text, b'&', looks) {
        return None;
    }
    after_ampersand(&text.after(1), looks)
}

#[inline(always)]
fn after_ampersand<L: Ledger>(text: &Rest<'_>, looks: &mut Looks<L>) -> Option<(Chars, usize)>
    ensures read { read_of result ≡ reference (38 ∷ text.now) }
    ensures looks { looks.new ≤ looks.old + 2 * reference_reach text.now + 1 }
{
    if !begins_with(text, b'#', looks) {
        return named(text, looks);
    }
    after_number_sign(&text.after(1), looks)
}

fn after_number_sign<L: Ledger>(text: &Rest<'_>, looks: &mut Looks<L>) -> Option<(Chars, usize)>
    ensures read { read_of result ≡ reference (38 ∷ 35 ∷ text.now) }
    ensures looks { looks.new ≤ looks.old + 2 * reference_reach text.now + 2 }
{
    if begins_with(text, b'x', looks) || begins_with(text, b'X', looks) {
        return hexadecimal(&text.after(1), looks);
    }
    decimal(text, looks)
}

#[inline(always)]
fn begins_with<L: Ledger>(text: &Rest<'_>, b: u8, looks: &mut Looks<L>) -> bool
    ensures begins { result ≡ begins_with b text.now }
    ensures looks { looks.new ≡ looks.old + 1 }
{
    match text.first(looks) {
        Some((first, _)) => first == b,
        None => false,
    }
}

fn decimal<L: Ledger>(text: &Rest<'_>, looks: &mut Looks<L>) -> Option<(Chars, usize)>
    ensures read { read_of result ≡ numbered 10 7 3 (before_semicolon is_ascii_digit text.now) }
    ensures looks { looks.new ≤ looks.old + 2 * reference_reach text.now }
{
    let count = count_while(text, is_decimal, looks);
    let digits = before_semicolon(text, count, looks)?;
    numbered(digits, 10, 7, 3)
}

fn hexadecimal<L: Ledger>(text: &Rest<'_>, looks: &mut Looks<L>) -> Option<(Chars, usize)>
    ensures read { read_of result ≡ numbered 16 6 4 (before_semicolon is_ascii_hexdigit text.now) }
    ensures looks { looks.new ≤ looks.old + 2 * reference_reach text.now }
{
    let count = count_while(text, is_hexadecimal, looks);
    let digits = before_semicolon(text, count, looks)?;
    numbered(digits, 16, 6, 4)
}

fn named<L: Ledger>(text: &Rest<'_>, looks: &mut Looks<L>) -> Option<(Chars, usize)>
    ensures read { read_of result ≡ named (before_semicolon is_ascii_alphanumeric text.now) }
    ensures looks { looks.new ≤ looks.old + 2 * reference_reach text.now }
{
    let count = count_while(text, is_alphanumeric, looks);
    let name = before_semicolon(text, count, looks)?;
    let chars = look_up(name)?;
    Some((chars, 2 + name.len()))
}

#[inline(always)]
fn is_decimal(b: u8) -> bool
    ensures { result ≡ is_ascii_digit b }
{
    b.is_ascii_digit()
}

#[inline(always)]
fn is_hexadecimal(b: u8) -> bool
    ensures { result ≡ is_ascii_hexdigit b }
{
    b.is_ascii_hexdigit()
}

#[inline(always)]
fn is_alphanumeric(b: u8) -> bool
    ensures { result ≡ is_ascii_alphanumeric b }
{
    b.is_ascii_alphanumeric()
}

/// How many of the first bytes pass a test.
#[inline(always)]
fn count_while<L: Ledger, F: Fn(u8) -> bool>(
    text: &Rest<'_>,
    test: F,
    looks: &mut Looks<L>,
) -> usize
    requires { F.IsAlwaysCallable test }
    ensures count { (passes : ℕ → Bool) →
        ((b : ℕ) (told : Bool) → b < 256 → F.post test b told → told ≡ passes b)
        → result ≡ prefix_len passes text.now }
    ensures within { result ≤ length text.now }
    ensures looks { looks.new ≡ looks.old + result + 1 }
{
    text.len() - text.skip(test, looks).len()
}

/// What is before a semicolon, if one is at this position.
#[inline(always)]
fn before_semicolon<'a, L: Ledger>(
    text: &Rest<'a>,
    len: usize,
    looks: &mut Looks<L>,
) -> Option<&'a [u8]>
    requires { len ≤ length text.now }
    ensures read { option_copied result
        ≡ (if begins_with 59 (drop len text.now) then Some (take len text.now) else None) }
    ensures looks { looks.new ≤ looks.old + len + 1 }
{
    if !begins_with(&text.after(len), b';', looks) {
        return None;
    }
    Some(text.lend(len, looks))
}

/// The character with a number of up to `most` digits, and the number of bytes of the reference, of which
/// `round` enclose the digits.
fn numbered(digits: &[u8], radix: u32, most: usize, round: usize) -> Option<(Chars, usize)>
    requires radix { (2 ≤ radix) × (radix ≤ 16) }
    requires most { (most ≤ 7) × (round ≤ 4) }
    requires digits { AllDigits radix digits.now }
    ensures read { read_of result ≡ numbered radix most round (Some digits.now) }
{
    if digits.is_empty() || digits.len() > most {
        return None;
    }
    let first = numbered_character(number(digits, radix));
    let chars = Chars {
        first,
        second: None,
    };
    Some((chars, round + digits.len()))
}

fn number(digits: &[u8], radix: u32) -> u32
    requires radix { (2 ≤ radix) × (radix ≤ 16) }
    requires digits { AllDigits radix digits.now }
    requires fits { digits_value radix digits.now < 2 ^ 32 }
    ensures value { result ≡ digits_value radix digits.now }
{
    let mut number = 0;
    for b in digits {
        number = number * radix + (*b as char).to_digit(radix).unwrap_or(0);
    }
    number
}

fn numbered_character(number: u32) -> char
    ensures { result ≡ numbered_character number }
{
    if number == 0 {
        return '\u{FFFD}';
    }
    char::from_u32(number).unwrap_or('\u{FFFD}')
}
