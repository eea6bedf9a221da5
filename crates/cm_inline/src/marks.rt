//! The marks of a leaf's source: what is there other than text. Text is what is between them, and is never
//! copied until the HTML or the inlines are made.
//!
//! A mark holds places in the source, not slices of it. To the checker a value with a reference is two
//! values, one at entry and one at exit, and every contract of a reader would mention both. A place has 32
//! bits, so that a mark takes 20 bytes.
ghost use Rattle.std.specs.Prelude.{◌≡◌, ◌<◌, ◌^◌, IfOk};
ghost use Rattle.std.specs.Cow.{cow_str_bytes};
ghost use Rattle.std.specs.List.{slice_range};
ghost use Rattle.cm_text.specs.Unescaping.{unescape};
ghost use Rattle.cm_inline.specs.steps.Marks.{mark_at};
ghost use Rattle.cm_inline.specs.steps.Marks.{mark_at};
ghost use Rattle.cm_inline.specs.steps.Standalone.{IsBetween};

use cm_text::unescape_or_lend;
use std::alloc::{AllocError, Global};
use std::borrow::CowStr;

/// What is between two places of the source.
#[derive(Clone, Copy)]
pub(crate) enum Kind {
    /// Text, as it is there: `[` or `![`.
    Plain,
    /// A character that HTML has as a reference, as text.
    Escaped,
    /// Nothing: the backslash before an escaped character.
    Nothing,
    /// A character that a reference represents. The second of two has a mark of its own.
    Character(char),
    /// A code span: what is between its backtick strings, without the spaces that are stripped.
    Code { from: u32, to: u32 },
    /// Raw HTML.
    Html,
    /// An autolink, and whether it is an e-mail address.
    Autolink { is_address: bool },
    /// A soft line break, with the spaces before it.
    Soft,
    /// A hard line break.
    Hard,
    /// A delimiter run, by its number.
    Run { number: u32 },
    /// The start of a link or an image, by its number.
    Start { number: u32 },
    /// Its end.
    End { number: u32 },
}

/// What is between two places of the source, other than text.
#[derive(Clone, Copy)]
pub(crate) struct Mark {
    pub(crate) at: u32,
    pub(crate) end: u32,
    pub(crate) kind: Kind,
}

/// How far the output has come: the next mark, and where the text before it starts that isn't written yet.
#[derive(Clone, Copy)]
pub(crate) struct Place {
    pub(crate) mark: usize,
    pub(crate) from: usize,
}

/// A mark between two places.
#[inline(always)]
pub(crate) fn mark_between(at: usize, end: usize, kind: Kind) -> Mark
    requires at { at < 2 ^ 32 }
    requires end { end < 2 ^ 32 }
    ensures { result ≡ mark_at at end kind }
{
    Mark {
        at: at as u32,
        end: end as u32,
        kind,
    }
}

/// The source between two places of 32 bits.
#[inline(always)]
pub(crate) fn part(source: &str, from: u32, to: u32) -> &str
    requires { IsBetween source.now from to }
    ensures part { result.now ≡ slice_range source.now from to }
{
    &source[from as usize..to as usize]
}

/// The source between two places, unescaped.
#[inline(always)]
pub(crate) fn unescaped_part(
    alloc: Global,
    source: &str,
    from: u32,
    to: u32,
) -> Result<CowStr<'_, Global>, AllocError>
    requires { IsBetween source.now from to }
    ensures part { IfOk result (λ text. cow_str_bytes text ≡ unescape (slice_range source.now from to)) }
{
    match unescape_or_lend(alloc, part(source, from, to)) {
        Ok(text) => Ok(text),
        Err(_) => Err(AllocError),
    }
}
