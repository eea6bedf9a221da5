//! The search for one byte.
ghost use Rattle.std.specs.Prelude.{◌≡◌, ◌==◌};
ghost use Rattle.std.specs.List.{list_any, position};

use memchr::memchr;

/// Where a byte first occurs.
pub(crate) fn find_byte(b: u8, bytes: &[u8]) -> Option<usize>
    ensures { result ≡ position (λ c. c == b) bytes.now }
{
    memchr(b, bytes)
}

/// Whether a byte occurs in a text.
pub(crate) fn has_byte(b: u8, text: &str) -> bool
    ensures { result ≡ list_any (λ c. c == b) text.now }
{
    find_byte(b, text.as_bytes()).is_some()
}
