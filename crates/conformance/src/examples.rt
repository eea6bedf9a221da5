//! Examples in the form of the CommonMark specification. An opening line of 32 backticks and `example` comes
//! first. Then come the text, a line with a point, its HTML, and a closing line of 32 backticks. → is a tab.
//! Lines outside of examples are skipped.

use crate::texts::{Outcome, Text, Tries};
use case_tables::trouble::{Trouble, wrong};
use cm_text::{Limits, Rules};
use std::alloc::{AllocError, Global};

/// The start of an opening line, and a closing line.
pub(crate) const FENCE: &str = "````````````````````````````````";

/// A text and its HTML.
#[derive(Drop)]
pub(crate) struct Example {
    alloc: Global,
    text: String,
    html: String,
}

impl Example {
    /// Checks that the text becomes the HTML with these rules.
    pub(crate) fn agrees(&self, rules: Rules, tries: Tries) -> Result<(), Trouble> {
        let html = Some(self.html.as_bytes());
        Text {
            alloc: self.alloc,
            input: self.text.as_bytes(),
            limits: Limits::standard().with_rules(rules),
            fails: false,
            reads: None,
            depth: None,
            outcome: Outcome::Document {
                html,
                listing: None,
            },
        }
        .agrees(tries)
    }
}

/// Where in an example a line is.
#[derive(Clone, Copy, PartialEq, Eq, Drop)]
enum Place {
    Outside,
    Text,
    Html,
}

/// The examples so far, and the one that is read.
#[derive(Drop)]
struct Reading {
    alloc: Global,
    examples: Vec<Example>,
    place: Place,
    open: Example,
}

fn empty(alloc: Global) -> Example {
    Example {
        alloc,
        text: String::new(alloc),
        html: String::new(alloc),
    }
}

/// Appends a line of an example to those before it.
fn push_line(lines: &mut String, line: &str) -> Result<(), AllocError> {
    for c in line.chars() {
        lines.push(if c == '→' { '\t' } else { c })?;
    }
    lines.push('\n')
}

impl Reading {
    fn line(&mut self, line: &str) -> Result<(), Trouble> {
        match self.place {
            Place::Outside if line.strip_prefix(FENCE) == Some(" example") => {
                self.place = Place::Text;
            }
            Place::Outside => {}
            Place::Text if line == "." => self.place = Place::Html,
            Place::Text => push_line(&mut self.open.text, line)?,
            Place::Html if line == FENCE => {
                let open = std::mem::replace(&mut self.open, empty(self.alloc));
                self.examples.push(open)?;
                self.place = Place::Outside;
            }
            Place::Html => push_line(&mut self.open.html, line)?,
        }
        Ok(())
    }
}

/// The examples of a file.
pub(crate) fn examples(alloc: Global, file: &str) -> Result<Vec<Example>, Trouble> {
    let mut reading = Reading {
        alloc,
        examples: Vec::new(alloc),
        place: Place::Outside,
        open: empty(alloc),
    };
    for line in file.lines() {
        reading.line(line)?;
    }
    match reading.place {
        Place::Outside => Ok(reading.examples),
        _ => Err(wrong(alloc, "the last example isn't closed")),
    }
}
