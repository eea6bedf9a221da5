//! The text of UTF-8 bytes, in which U+0000 becomes U+FFFD.
ghost use Rattle.std.specs.Prelude.{◌≡◌, IfOk, string_bytes};
ghost use Rattle.cm_text.specs.Lines.{text_of};

use crate::device::NoMemory;
use crate::parts::cut_at;
use memchr::memchr;
use std::alloc::Global;

/// The text of UTF-8 bytes, with U+FFFD in place of each U+0000 (CommonMark 0.31.2, 2.3 Insecure characters).
///
/// # Errors
///
/// `NoMemory` if a request for memory was refused.
pub fn text_of(alloc: Global, whole: &str) -> Result<String, NoMemory>
    ensures text { IfOk result (λ text. string_bytes text ≡ text_of whole.now) }
{
    let mut text = String::with_capacity(alloc, whole.len())?;
    let mut rest = whole;
    while let Some(at) = memchr(0, rest.as_bytes()) {
        let (before, beyond) = cut_at(rest, at);
        text.push_str(before)?;
        text.push_str("\u{FFFD}")?;
        rest = beyond;
    }
    text.push_str(rest)?;
    Ok(text)
}
