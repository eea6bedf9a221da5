//! Files of examples: their lines, the outputs of their sources, and the report.
ghost use Rattle.std.specs.Prelude.{◌≡◌, ◌≢◌, ◌∷◌, [], ◌++◌, ◌+◌, ◌-◌, ◌^◌, ◌<◌, ◌≤◌};
ghost use Rattle.std.specs.Prelude.{length, map, option_map, string_bytes, IfOk, IfErr, OnOk};
ghost use Rattle.std.specs.Prelude.{IfSome, IfNone, Ok};
ghost use Rattle.cm_text.specs.Lines.{lines_of};
ghost use Rattle.cm_tool.specs.ExampleFiles.{example_line, examples_of, put_example};
ghost use Rattle.cm_tool.specs.steps.ExampleSteps.{example_of, part_of, part_from, TellsUnclosed};
ghost use Rattle.cm_tool.specs.steps.ExampleSteps.{examples_left, examples_opened};

mod comparing;
mod reporting;

use crate::fault::Fault;
use cm_text::cut_at;
pub use comparing::{Difference, Report, examples, examples_by};
use memchr::memchr2;
pub(crate) use reporting::report;
use std::alloc::{AllocError, Global};

/// The line that opens an example.
pub(crate) const OPENING: &str = "```````````````````````````````` example";

/// The line that closes an example.
const CLOSING: &str = "````````````````````````````````";

/// A source, and the HTML that it should have.
#[derive(Drop)]
pub(crate) struct Example {
    pub(crate) source: String,
    pub(crate) html: String,
}

/// The lines of a text that are left, and the number of those taken.
#[derive(Clone, Copy)]
struct Lines<'a> {
    rest: &'a str,
    taken: usize,
    ghost few: { taken + length rest.now ≤ 2 ^ 63 },
}

/// The first line of a nonempty text, and the text after its line ending.
fn first_line(text: &str) -> (&str, &str)
    requires { text.now ≢ [] }
    ensures lines { lines_of text.now ≡ result.0.now ∷ lines_of result.1.now }
    ensures shorter { length result.1.now < length text.now }
{
    let bytes = text.as_bytes();
    let Some(at) = memchr2(b'\n', b'\r', bytes) else {
        return (text, "");
    };
    // A line feed after a carriage return belongs to the same line ending.
    let last = if bytes[at..].starts_with(b"\r\n") {
        at + 1
    } else {
        at
    };
    (cut_at(text, at).0, cut_at(text, last).1)
}

impl<'a> Lines<'a> {
    /// Takes the next line.
    fn next(&mut self) -> Option<&'a str>
        ensures line { IfSome result (λ line.
            lines_of self.old.rest.now ≡ line.now ∷ lines_of self.new.rest.now) }
        ensures taken { IfSome result (λ _. self.new.taken ≡ self.old.taken + 1) }
        ensures shorter { IfSome result (λ _. length self.new.rest.now < length self.old.rest.now) }
        ensures none { IfNone result (lines_of self.old.rest.now ≡ []) }
        ensures kept { IfNone result (self.new.rest ≡ self.old.rest) }
    {
        if self.rest.is_empty() {
            return None;
        }
        let (line, rest) = first_line(self.rest);
        self.rest = rest;
        self.taken += 1;
        Some(line)
    }

    /// Takes the lines up to the one that ends them, and that line, and returns their text. Returns None if
    /// they close the example before, or the file ends.
    fn take_part(&mut self, alloc: Global, end: &str) -> Result<Option<String>, AllocError>
        ensures part { IfOk result (λ part.
            option_map (λ text. part_of (string_bytes text) self.new.taken self.new.rest.now) part
            ≡ part_from end.now [] (self.old.taken + 1) (lines_of self.old.rest.now)) }
        ensures shorter { length self.new.rest.now ≤ length self.old.rest.now }
    {
        let mut part = String::new(alloc);
        while let Some(line) = self.next() {
            if line == end {
                return Ok(Some(part));
            }
            if line == CLOSING {
                return Ok(None);
            }
            push_line(&mut part, line)?;
        }
        Ok(None)
    }

    /// Takes the lines of an example, after its opening line.
    fn take_example(&mut self, alloc: Global) -> Result<Example, Fault>
        ensures example { IfOk result (λ example. examples_opened self.old.taken self.old.rest.now
            ≡ put_example (example_of example) (examples_left self.new.taken self.new.rest.now)) }
        ensures unclosed { IfErr result (λ fault.
            TellsUnclosed fault (examples_opened self.old.taken self.old.rest.now)) }
        ensures shorter { length self.new.rest.now ≤ length self.old.rest.now }
    {
        let unclosed = Fault::BadExampleFile { line: self.taken };
        let Some(source) = self.take_part(alloc, ".")? else {
            return Err(unclosed);
        };
        let Some(html) = self.take_part(alloc, CLOSING)? else {
            return Err(unclosed);
        };
        Ok(Example { source, html })
    }
}

/// Appends a line of an example, with a line feed. → is a tab.
fn push_line(part: &mut String, line: &str) -> Result<(), AllocError>
    ensures { OnOk result (string_bytes part.new ≡ string_bytes part.old ++ example_line line.now) }
{
    for c in line.chars() {
        part.push(if c == '→' { '\t' } else { c })?;
    }
    part.push_str("\n")
}

/// The examples of a text.
pub(crate) fn examples_in(alloc: Global, text: &str) -> Result<Vec<Example>, Fault>
    ensures examples { IfOk result (λ examples. examples_of text.now ≡ Ok (map example_of examples.items)) }
    ensures unclosed { IfErr result (λ fault. TellsUnclosed fault (examples_of text.now)) }
{
    let mut examples = Vec::new(alloc);
    let mut lines = Lines {
        rest: text,
        taken: 0,
    };
    while let Some(line) = lines.next() {
        if line == OPENING {
            let example = lines.take_example(alloc)?;
            examples.push(example).map_err(AllocError::from)?;
        }
    }
    Ok(examples)
}
