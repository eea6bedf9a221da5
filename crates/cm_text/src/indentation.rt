//! How far a line is indented.
ghost use Rattle.std.specs.Prelude.{◌≡◌, ℕ, ◌+◌, ◌-◌, ◌<◌, ◌≤◌, ◌++◌, drop, replicate, string_bytes, IfOk};
ghost use Rattle.std.specs.Str.{IsCharBoundary};
ghost use Rattle.cm_text.specs.Indentation.{indent_of, blank_width, strip_from, strip_columns};
ghost use Rattle.cm_text.specs.Lines.{seen_line};

use crate::columns::{indent_from, take_columns};
use crate::device::NoMemory;
use crate::lines::Line;
use std::alloc::Global;

/// The columns before the line's first character that is neither space nor tab (CommonMark 0.31.2, 2.2 Tabs).
pub fn indent(line: &Line) -> usize
    ensures { result ≡ indent_of (seen_line line.now) }
{
    indent_from(line.column, &line.text)
}

/// The line without `n` columns of indentation, or without its indentation where that is less.
///
/// The start column grows by what is removed. A tab of which some columns are removed leaves the others as
/// spaces before the text (2.2 Tabs). A blank line loses columns too, and the mark of a lazy line stays.
///
/// # Errors
///
/// `NoMemory` if a request for memory was refused.
pub fn strip(alloc: Global, n: usize, line: &Line) -> Result<Line, NoMemory>
    ensures { IfOk result (λ stripped. seen_line stripped ≡ strip_columns n (seen_line line.now)) }
{
    let (column, spaces, taken) = take_columns(n, line.column, &line.text);
    let mut text = String::from_str(alloc, &"   "[..spaces])?;
    text.push_str(&line.text[taken..])?;
    Ok(Line {
        column,
        text,
        lazy: line.lazy,
    })
}
