//! Texts in which some bytes are replaced.
ghost use Rattle.std.specs.Prelude.{◌≡◌, ◌<◌, ◌++◌, [], ◌∷◌};
ghost use Rattle.std.specs.Prelude.{ℕ, List, true, false, position, flat_map, string_bytes, IsTrue, OnOk};

use crate::parts::cut_at;
use crate::search::{ByteKind, next_of};
use std::alloc::AllocError;

/// A kind of bytes that are replaced when a text is written.
pub trait Replaced: ByteKind {
    /// What is written for a byte.
    ghost written: { ℕ → List ℕ };

    /// Adds what is written for a byte of the kind.
    fn push(out: &mut String, b: u8) -> Result<(), AllocError>
        requires { IsTrue (Self.passes b) }
        ensures { OnOk result (string_bytes out.new ≡ string_bytes out.old ++ written b) };

    /// The place of the first byte of the kind, if there is one.
    #[inline(always)]
    fn find(bytes: &[u8]) -> Option<usize>
        ensures { result ≡ position Self.passes bytes.now }
    {
        let at = next_of::<Self>(bytes, 0);
        (at < bytes.len()).then_some(at)
    }
}

/// Adds a text with each byte of the kind replaced: the bytes between them are added as one slice.
///
/// # Errors
///
/// `AllocError` if a request for memory was refused; the string may then have a prefix of the result.
pub fn push_replaced<K: Replaced>(out: &mut String, text: &str) -> Result<(), AllocError>
    requires ascii { (b : ℕ) → K.passes b ≡ true → b < 128 }
    requires others { (b : ℕ) → K.passes b ≡ false → K.written b ≡ b ∷ [] }
    ensures replaced { OnOk result
        (string_bytes out.new ≡ string_bytes out.old ++ flat_map K.written text.now) }
{
    let mut rest = text;
    while let Some(at) = K::find(rest.as_bytes()) {
        let (before, after) = cut_at(rest, at);
        if at > 0 {
            out.push_str(before)?;
        }
        K::push(out, rest.as_bytes()[at])?;
        rest = after;
    }
    if rest.is_empty() {
        return Ok(());
    }
    out.push_str(rest)
}
