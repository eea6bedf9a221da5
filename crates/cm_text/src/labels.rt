//! Labels of links, in the form in which they are compared.
ghost use Rattle.std.specs.Prelude.{◌≡◌, ◌++◌, true, false, None, chars, string_bytes, encode_utf8};
ghost use Rattle.std.specs.Prelude.{IfOk, IfSome, OnOk};
ghost use Rattle.std.specs.List.{list_all};
ghost use Rattle.cm_text.specs.Labels.{case_fold, fold_label, is_gap, settle_gaps};
ghost use Rattle.cm_text.specs.LabelNumbers.{number_of, number_step};
ghost use Rattle.cm_text.specs.PlainLabels.{is_plain_byte, is_kept, is_own_fold, is_bare};
ghost use Rattle.cm_text.specs.steps.LabelSteps.{is_settled, put_after};

use crate::device::NoMemory;
use caseless::default_case_fold_str;
use std::alloc::{AllocError, Global};
use ucd_case::full_folding;

/// A label as it is compared: case folded in full (Unicode), without the spaces, tabs and line endings
/// at its ends, and with each run of them inside as one space. Two labels match where this is equal.
///
/// The label is that of a link or a definition, without its brackets. Backslashes and references in it are as
/// in the source.
///
/// # Errors
///
/// `NoMemory` if a request for memory was refused.
// It is a call of its own, so that a label which is its own folded form pays nothing for it.
#[inline(never)]
#[tactic(auto, unfolding(crate::specs::Labels::fold_label))]
pub fn fold_label(alloc: Global, label: &str) -> Result<String, NoMemory>
    ensures folded { IfOk result (λ folded. string_bytes folded ≡ fold_label label.now) }
{
    let folded = case_fold(alloc, label)?;
    if is_settled(folded.as_bytes()) {
        return Ok(folded);
    }
    Ok(settle_gaps(alloc, &folded)?)
}

/// One byte more of a label's number.
#[inline(always)]
fn number_step(number: u64, b: u8) -> u64
    ensures { result ≡ number_step number b }
{
    number
        .wrapping_add(u64::from(b))
        .wrapping_mul(0x517c_c1b7_2722_0a95)
}

/// The number of a label, by which a table finds it. It is that of the label as it is, so fold it first.
#[tactic(auto, unfolding(crate::specs::LabelNumbers::number_of))]
pub fn label_number(label: &str) -> u64
    ensures number { result ≡ number_of label.now }
{
    let mut number = 0;
    for b in label.as_bytes() {
        number = number_step(number, *b);
    }
    number
}

/// The number of a label that is its own folded form, as most labels are: characters that case folding keeps,
/// with single spaces between them. None for any other label, and for one with a bracket, a backslash or an
/// ASCII control character.
#[tactic(auto, unfolding(crate::specs::LabelNumbers::number_of))]
pub fn plain_label_number(label: &str) -> Option<u64>
    ensures number { IfSome result (λ number. number ≡ number_of label.now) }
    ensures folded { IfSome result (λ _. label.now ≡ fold_label label.now) }
    ensures bare { IfSome result (λ _. is_bare label.now ≡ true) }
    ensures none { result ≡ None → is_own_fold label.now ≡ false }
{
    let mut number = 0;
    let mut beyond_space = true;
    let mut ascii = true;
    for b in label.as_bytes() {
        if is_plain_byte(*b) {
            beyond_space = false;
        } else if *b == b' ' && !beyond_space {
            beyond_space = true;
        } else if *b >= 128 {
            beyond_space = false;
            ascii = false;
        } else {
            return None;
        }
        number = number_step(number, *b);
    }
    if beyond_space || !ascii && !keeps_case(label) {
        return None;
    }
    Some(number)
}

/// Whether case folding keeps each character of a text.
#[inline(never)]
fn keeps_case(text: &str) -> bool
    ensures kept { result ≡ list_all is_kept (chars text.now) }
{
    text.chars().all(is_kept)
}

/// Whether case folding keeps a character.
fn is_kept(c: char) -> bool
    ensures { result ≡ is_kept c }
{
    full_folding(c).is_empty()
}

/// For each byte 1, where it is a visible ASCII character that is no capital, bracket or backslash, or 0.
static PLAIN: [u8; 256] = *b"\
    00000000000000000000000000000000\
    01111111111111111111111111111111\
    10000000000000000000000000000011\
    11111111111111111111111111111110\
    00000000000000000000000000000000\
    00000000000000000000000000000000\
    00000000000000000000000000000000\
    00000000000000000000000000000000";

/// Whether a byte is a visible ASCII character that is no capital, bracket or backslash.
#[inline(always)]
fn is_plain_byte(b: u8) -> bool
    ensures { result ≡ is_plain_byte b }
{
    PLAIN[usize::from(b)] == b'1'
}

/// A text with its case folded in full. ASCII is folded without the table.
#[tactic(auto, unfolding(crate::specs::Labels::case_fold))]
fn case_fold(alloc: Global, text: &str) -> Result<String, AllocError>
    ensures folded { IfOk result (λ folded. string_bytes folded ≡ case_fold text.now) }
{
    if text.is_ascii() {
        return text.to_ascii_lowercase(alloc);
    }
    default_case_fold_str(alloc, text)
}

/// Whether a text that isn't empty has no gaps but single spaces inside.
fn is_settled(text: &[u8]) -> bool
    ensures settled { result ≡ is_settled true text.now }
{
    let mut beyond_gap = true;
    for b in text {
        if *b > b' ' {
            beyond_gap = false;
            continue;
        }
        let gap = is_gap(*b as char);
        if gap && (beyond_gap || *b != b' ') {
            return false;
        }
        beyond_gap = gap;
    }
    !beyond_gap
}

fn settle_gaps(alloc: Global, text: &str) -> Result<String, AllocError>
    ensures settled { IfOk result (λ settled. string_bytes settled ≡ settle_gaps text.now) }
{
    let mut settled = String::with_capacity(alloc, text.len())?;
    let mut after_gap = false;
    for c in text.chars() {
        if is_gap(c) {
            after_gap = true;
            continue;
        }
        put(&mut settled, after_gap, c)?;
        after_gap = false;
    }
    Ok(settled)
}

fn is_gap(c: char) -> bool
    ensures { result ≡ is_gap c }
{
    c == ' ' || c == '\t' || c == '\n' || c == '\r'
}

fn put(settled: &mut String, after_gap: bool, c: char) -> Result<(), AllocError>
    ensures { OnOk result (string_bytes settled.new
        ≡ string_bytes settled.old ++ put_after (string_bytes settled.old) after_gap (encode_utf8 c)) }
{
    if after_gap && !settled.is_empty() {
        settled.push(' ')?;
    }
    settled.push(c)?;
    Ok(())
}
