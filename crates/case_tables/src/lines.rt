//! The lines of a text.

use crate::trouble::{Trouble, wrong};
use cm_text::{Limits, Line, LineFeed, strip};
use std::alloc::Global;

/// A feed from which the lines of a text can be taken.
fn fed(alloc: Global, text: &str) -> Result<LineFeed, Trouble> {
    let mut feed = LineFeed::new(alloc, Limits::standard());
    if feed.push(text.as_bytes()).is_err() || feed.end().is_err() {
        return Err(Trouble::NoMemory);
    }
    Ok(feed)
}

/// The next line of a feed.
fn next(feed: &mut LineFeed) -> Option<Line> {
    feed.next_line()
}

/// Moves up to `most` lines of a feed to the end of `lines`.
fn take_lines(feed: &mut LineFeed, most: usize, lines: &mut Vec<Line>) -> Result<(), Trouble> {
    for _ in 0..most {
        if let Some(line) = next(feed) {
            lines.push(line)?;
        }
    }
    Ok(())
}

/// The lines of a text.
pub fn lines_of(alloc: Global, text: &str) -> Result<Vec<Line>, Trouble> {
    let mut feed = fed(alloc, text)?;
    let mut lines = Vec::new(alloc);
    take_lines(&mut feed, text.len(), &mut lines)?;
    Ok(lines)
}

/// The first line of a text.
fn first_line(alloc: Global, text: &str) -> Result<Line, Trouble> {
    let mut feed = fed(alloc, text)?;
    match next(&mut feed) {
        Some(line) => Ok(line),
        None => Err(wrong(alloc, "the text has no line")),
    }
}

/// A text after this number of spaces.
fn indented(alloc: Global, spaces: usize, text: &str) -> Result<String, Trouble> {
    let mut whole = " ".repeat(alloc, spaces)?;
    whole.push_str(text)?;
    Ok(whole)
}

/// A line that starts at this column.
pub fn line_at(alloc: Global, column: usize, text: &str) -> Result<Line, Trouble> {
    let whole = indented(alloc, column, text)?;
    let line = first_line(alloc, whole.as_str())?;
    Ok(strip(alloc, column, &line)?)
}
