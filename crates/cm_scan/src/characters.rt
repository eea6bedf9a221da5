//! The first and the last character of a text.
ghost use Rattle.std.specs.Prelude.{◌≡◌, reverse};
ghost use Rattle.cm_scan.specs.inlines.Atoms.{first_character, last_character};

/// The first character of a text.
pub fn first_character(text: &str) -> Option<char>
    ensures character { result ≡ first_character text.now }
{
    text.chars().next()
}

/// The last character of a text.
pub fn last_character(text: &str) -> Option<char>
    ensures character { result ≡ last_character (reverse text.now) }
{
    text.chars().next_back()
}
