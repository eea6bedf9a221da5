//! The source that is spelled so far, line by line.
//!
//! Each line is written once, after what precedes it in its containers. That is a string to which a quote or
//! an item appends, and which is cut back at its end. It is ASCII, which a ghost field says, so it can be cut
//! anywhere.
ghost use Rattle.std.specs.Prelude.{◌≡◌, ◌≢◌, ◌==◌, ◌<◌, [], ◌∷◌, ◌+◌, ◌++◌};
ghost use Rattle.std.specs.Prelude.{false, length, replicate, codes, string_bytes, IfOk, OnOk};
ghost use Rattle.std.specs.List.{list_any};
ghost use Rattle.std.specs.Str.{IsAscii};
ghost use Rattle.cm_scan.specs.Words.{trim_end_spaces};
ghost use Rattle.cm_source.specs.Spelling.{ended_lines, marker};

use crate::search::find_byte;
use cm_scan::trim_end_spaces;
use cm_text::cut_at;
use cm_tree::ListKind;
use std::alloc::{AllocError, Global};

/// Writes a character `count` times.
fn push_repeated(out: &mut String, mark: char, count: usize) -> Result<(), AllocError>
    requires { mark < 128 }
    ensures written { OnOk result (string_bytes out.new ≡ string_bytes out.old ++ replicate count mark) }
    ensures ascii { IsAscii (string_bytes out.old) → IsAscii (string_bytes out.new) }
{
    for _ in 0..count {
        out.push(mark)?;
    }
    Ok(())
}

/// Writes the marker of an item and a space, and returns the number of their bytes.
fn push_marker(out: &mut String, kind: ListKind) -> Result<usize, AllocError>
    ensures written { OnOk result (string_bytes out.new ≡ string_bytes out.old ++ marker kind ++ codes " ") }
    ensures width { IfOk result (λ width. width ≡ length (marker kind) + 1) }
{
    let before = out.len();
    match kind {
        ListKind::Dash => out.push_str("- ")?,
        ListKind::Plus => out.push_str("+ ")?,
        ListKind::Star => out.push_str("* ")?,
        ListKind::Dot { start } => write!(out, "{start}. ")?,
        ListKind::Paren { start } => write!(out, "{start}) ")?,
    }
    Ok(out.len() - before)
}

/// Takes the spaces off the end of a text.
fn strip_end(text: &mut String)
    ensures { string_bytes text.new ≡ trim_end_spaces (string_bytes text.old) }
{
    let kept = trim_end_spaces(text).len();
    text.truncate(kept);
}

/// Lines of source, each after what precedes it in its containers.
#[derive(Drop)]
pub(crate) struct SourceLines {
    pub(crate) text: String,
    /// What precedes each further line: marks of quotes, and spaces.
    pub(crate) front: String,
    /// Whether the last line has begun.
    pub(crate) begun: bool,
    /// Where its content starts then.
    pub(crate) line: usize,
    pub(crate) ghost ascii: { IsAscii (string_bytes front) },
}

impl SourceLines {
    ghost use Rattle.cm_source.specs.steps.WrittenLines.{BeginsLine, Ends};
    ghost use Rattle.cm_source.specs.BetweenLines.{IsBetween};
    ghost use Rattle.cm_source.specs.steps.WrittenLines.{Lays, Writes, Enters, Leaves};

    /// No line.
    pub(crate) fn new(alloc: Global) -> SourceLines
        ensures { IsBetween result false [] [] [] }
    {
        SourceLines {
            text: String::new(alloc),
            front: String::new(alloc),
            begun: false,
            line: 0,
        }
    }

    /// Starts a line, unless one has started.
    #[inline(always)]
    pub(crate) fn begin_line(&mut self) -> Result<(), AllocError>
        ensures begins { OnOk result (BeginsLine self.old self.new) }
        ensures same { self.new.front ≡ self.old.front }
    {
        if !self.begun {
            if !self.front.is_empty() {
                self.text.push_str(&self.front)?;
            }
            self.begun = true;
            self.line = self.text.len();
        }
        Ok(())
    }

    /// Ends the line that has started. If it is empty, the spaces at its end are removed.
    #[inline(always)]
    pub(crate) fn end_line(&mut self) -> Result<(), AllocError>
        ensures { OnOk result (Ends self.old self.new) }
    {
        if self.line == self.text.len() {
            strip_end(&mut self.text);
        }
        self.text.push('\n')?;
        self.begun = false;
        Ok(())
    }

    /// Ends a line and starts the next one.
    #[inline(always)]
    pub(crate) fn break_line(&mut self) -> Result<(), AllocError>
        ensures { OnOk result (Lays self.old self.new (10 ∷ [])) }
    {
        self.end_line()?;
        self.begin_line()
    }

    /// Writes text within one line.
    pub(crate) fn push(&mut self, text: &str) -> Result<(), AllocError>
        requires { list_any (λ b. b == 10) text.now ≡ false }
        ensures { OnOk result (Lays self.old self.new text.now) }
    {
        self.text.push_str(text)
    }

    /// Writes text in one or more lines.
    pub(crate) fn push_lines(&mut self, text: &str) -> Result<(), AllocError>
        ensures { OnOk result (Lays self.old self.new text.now) }
    {
        let mut rest = text;
        while let Some(at) = find_byte(b'\n', rest.as_bytes()) {
            let (line, beyond) = cut_at(rest, at);
            self.push(line)?;
            self.break_line()?;
            rest = beyond;
        }
        self.push(rest)
    }

    /// Writes a character `count` times.
    pub(crate) fn push_marks(&mut self, mark: char, count: usize) -> Result<(), AllocError>
        requires ascii { mark < 128 }
        requires one_line { mark ≢ 10 }
        ensures { OnOk result (Lays self.old self.new (replicate count mark)) }
    {
        push_repeated(&mut self.text, mark, count)
    }

    /// Writes an empty line.
    pub(crate) fn empty_line(&mut self) -> Result<(), AllocError>
        ensures { OnOk result (Writes self.old self.new ([] ∷ [])) }
    {
        self.begin_line()?;
        self.end_line()
    }

    /// Writes the lines of a text that line feeds end.
    pub(crate) fn push_ended_lines(&mut self, text: &str) -> Result<(), AllocError>
        ensures { OnOk result (Writes self.old self.new (ended_lines text.now)) }
    {
        let mut rest = text;
        while let Some(at) = find_byte(b'\n', rest.as_bytes()) {
            let (line, beyond) = cut_at(rest, at);
            self.push_line(line)?;
            rest = beyond;
        }
        if rest.is_empty() {
            return Ok(());
        }
        self.push_line(rest)
    }

    /// Writes a line.
    pub(crate) fn push_line(&mut self, text: &str) -> Result<(), AllocError>
        requires { list_any (λ b. b == 10) text.now ≡ false }
        ensures { OnOk result (Writes self.old self.new (text.now ∷ [])) }
    {
        self.begin_line()?;
        self.push(text)?;
        self.end_line()
    }

    /// Enters a quote, and returns how many bytes preceded further lines before.
    pub(crate) fn enter_quote(&mut self) -> Result<usize, AllocError>
        ensures enters { OnOk result (Enters self.old self.new (codes "> ") (codes "> ")) }
        ensures front { IfOk result (λ front. front ≡ length (string_bytes self.old.front)) }
    {
        self.begin_line()?;
        self.text.push_str("> ")?;
        self.line = self.text.len();
        let front = self.front.len();
        self.front.push_str("> ")?;
        Ok(front)
    }

    /// Enters an item, and returns how many bytes preceded further lines before.
    pub(crate) fn enter_item(&mut self, kind: ListKind) -> Result<usize, AllocError>
        ensures enters { OnOk result (Enters self.old self.new
            (marker kind ++ codes " ") (replicate (length (marker kind) + 1) 32)) }
        ensures front { IfOk result (λ front. front ≡ length (string_bytes self.old.front)) }
    {
        self.begin_line()?;
        let width = push_marker(&mut self.text, kind)?;
        self.line = self.text.len();
        let front = self.front.len();
        push_repeated(&mut self.front, ' ', width)?;
        Ok(front)
    }

    /// Leaves a container. `front` is how many bytes preceded further lines before it.
    pub(crate) fn leave(&mut self, front: usize) -> Result<(), AllocError>
        ensures { OnOk result (Leaves self.old self.new front) }
    {
        if self.begun {
            self.end_line()?;
        }
        self.front.truncate(front);
        Ok(())
    }
}
