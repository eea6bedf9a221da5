//! Kinds of characters.
ghost use Rattle.std.specs.Prelude.{◌≡◌, ◌==◌, ◌||◌};
ghost use Rattle.cm_text.specs.Characters.{is_ascii_punct, is_punct_by, is_space};
ghost use Rattle.cm_text.specs.Rules.{profile};

use crate::rules::Rules;
use unicode::properties::{GeneralCategory, GeneralCategoryGroup};

/// Whether this is ASCII punctuation: U+0021 to U+002F, U+003A to U+0040, U+005B to U+0060 or U+007B to
/// U+007E (CommonMark 0.31.2, 2.1 Characters and lines).
pub fn is_ascii_punct(c: char) -> bool
    ensures { result ≡ is_ascii_punct c }
{
    matches!(c, '!'..='/' | ':'..='@' | '['..='`' | '{'..='~')
}

/// Whether this is Unicode punctuation: a character of a general category P (punctuation) or S (symbol)
/// (2.1 Characters and lines).
pub fn is_punct(c: char) -> bool
    ensures { result ≡ is_punct_by profile c }
{
    is_punct_by(Rules::profile(), c)
}

/// Whether this is Unicode punctuation with these rules: with the older ones a character of a general
/// category P or ASCII punctuation, otherwise one of a general category P or S (2.1 Characters and lines). An
/// ASCII character is judged without the table of categories.
#[inline(always)]
pub fn is_punct_by(rules: Rules, c: char) -> bool
    ensures { result ≡ is_punct_by rules c }
{
    if c.is_ascii() {
        return is_ascii_punct(c);
    }
    let category = GeneralCategory::for_char(c);
    GeneralCategoryGroup::Punctuation.contains(category)
        || !rules.is_older() && GeneralCategoryGroup::Symbol.contains(category)
}

/// Whether this is Unicode whitespace: a character of the general category Zs, a tab, a line feed, a form
/// feed or a carriage return (2.1 Characters and lines).
pub fn is_space(c: char) -> bool
    ensures { result ≡ is_space c }
{
    if c.is_ascii() {
        return is_ascii_space(c);
    }
    matches!(
        GeneralCategory::for_char(c),
        GeneralCategory::SpaceSeparator
    )
}

fn is_ascii_space(c: char) -> bool
    ensures { result ≡ (c == 32 || c == 9 || c == 10 || c == 12 || c == 13) }
{
    c == ' ' || c == '\t' || c == '\n' || c == '\x0C' || c == '\r'
}
