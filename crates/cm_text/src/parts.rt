//! A text cut in two, without a copy.
ghost use Rattle.std.specs.Prelude.{◌≡◌, ◌+◌, ◌<◌, length, take, drop, slice_index, IsUtf8};

/// What comes before an ASCII character of a text, and what comes after it.
pub fn cut_at(text: &str, at: usize) -> (&str, &str)
    requires within { at < length text.now }
    requires ascii { slice_index text.now at < 128 }
    ensures before { result.0.now ≡ take at text.now }
    ensures after { result.1.now ≡ drop (at + 1) text.now }
    ensures after_utf8 { IsUtf8 result.1.now }
{
    (&text[..at], &text[at + 1..])
}
