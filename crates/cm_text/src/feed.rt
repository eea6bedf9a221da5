//! The lines of a text that comes in pieces, as values of their own.
//!
//! A `LineBuffer` lends its lines instead. Both promise the same of what they hold, and their proofs share
//! lemmas.
ghost use Rattle.std.specs.Prelude.{◌≡◌, ◌≢◌, ◌+◌, ◌<◌, ◌≤◌, [], ◌∷◌, ◌++◌, if◌then◌else◌, ℕ, List, length};
ghost use Rattle.std.specs.Prelude.{map, OnOk, is_some, is_ok, IfOk, IfSome, IfNone, None, false, OnErr};
ghost use Rattle.cm_text.specs.Answers.{answer_after};
ghost use Rattle.cm_text.specs.Lines.{LineView, seen_line};
ghost use Rattle.cm_text.specs.Views.{seen_view};
ghost use Rattle.cm_text.specs.Faults.{settled_fault, text_fault};
ghost use Rattle.cm_text.specs.Feed.{StandsFor, Answers, with_ready, count};
ghost use Rattle.cm_text.specs.steps.FeedSteps.{Steps, Closes, Moves, LetsGo};

use crate::fault::TextFault;
use crate::limits::Limits;
use crate::line_buffer::LineBuffer;
use crate::lines::Line;
use crate::view::View;
use std::alloc::{AllocError, Global};
use std::collections::VecDeque;
use std::marker::Model;

/// The lines of a text that comes in pieces, each a value of its own.
///
/// Pass the bytes to `push`, in pieces of any length; take the lines that have ended with `next_line`, at any
/// time; and call `end` after the last piece. A line ends with a line feed, a carriage return, or both
/// (CommonMark 0.31.2, 2.1); U+0000 becomes U+FFFD (2.3). `LineBuffer` lends the lines instead of copying
/// them.
///
/// After a fault, each further `push` and `end` returns that fault, and the lines that ended before its place
/// can still be taken; after `TextFault::NoMemory`, the first of those that have ended.
#[derive(Debug, Drop)]
pub struct LineFeed {
    alloc: Global,
    limits: Limits,
    /// The lines that can be taken, and the text after them.
    ready: VecDeque<Line>,
    buffer: LineBuffer,
    fault: Option<TextFault>,
}

impl Model for LineFeed {
    ghost use Rattle.std.specs.Prelude.{◌≡◌, ◌≤◌, map, []};
    ghost use Rattle.cm_text.specs.Lines.{seen_line};
    ghost use Rattle.cm_text.specs.Feed.{Feed, count};
    ghost use Rattle.cm_text.specs.steps.FeedSteps.{after_ready};

    ghost Value = { Feed };

    ghost view = { λ f. after_ready (map seen_line f.ready.items) f.fault f.buffer };

    ghost invariant = { λ f. (f.buffer.cut.ended ≡ []) × (count f.buffer ≤ f.buffer.limit)
        × (f.buffer.limit ≡ f.limits.bytes) };
}

/// A copy of a line.
fn copied(alloc: Global, line: &View<'_>) -> Result<Line, AllocError>
    requires { line.now.spaces ≡ 0 }
    ensures { IfOk result (λ copy. seen_line copy ≡ seen_view line.now) }
{
    Ok(Line {
        column: line.column,
        text: String::from_str(alloc, line.rest)?,
        lazy: line.lazy,
    })
}

/// Copies the lines that have ended to those that are ready.
fn move_lines(
    alloc: Global,
    buffer: &mut LineBuffer,
    ready: &mut VecDeque<Line>,
) -> Result<(), AllocError>
    ensures moves { Moves (map seen_line ready.old.items) buffer.old
        (map seen_line ready.new.items) buffer.new }
    ensures all { OnOk result (buffer.new.cut.ended ≡ []) }
    ensures left { OnErr result (0 < length buffer.new.cut.ended) }
{
    while let Some(line) = buffer.first_line() {
        ready.push_back(copied(alloc, &line)?)?;
        buffer.pass_line();
    }
    Ok(())
}

/// Copies the lines that have ended. If memory is refused, those that haven't been copied are dropped.
fn copy_lines(
    alloc: Global,
    limits: Limits,
    buffer: &mut LineBuffer,
    ready: &mut VecDeque<Line>,
) -> Result<(), AllocError>
    requires { buffer.old.limit ≡ limits.bytes }
    ensures all { buffer.new.cut.ended ≡ [] }
    ensures limit { buffer.new.limit ≡ limits.bytes }
    ensures moves { OnOk result (Moves (map seen_line ready.old.items) buffer.old
        (map seen_line ready.new.items) buffer.new) }
    ensures refused { OnErr result (LetsGo (map seen_line ready.old.items) buffer.old
        (map seen_line ready.new.items) buffer.new) }
{
    let moved = move_lines(alloc, buffer, ready);
    if moved.is_err() {
        *buffer = LineBuffer::new(alloc, limits);
    }
    moved
}

impl LineFeed {
    /// A feed that has been given nothing. It takes no memory.
    pub fn new(alloc: Global, limits: Limits) -> LineFeed
        ensures limit { result.limit ≡ limits.bytes }
        ensures fault { result.fault ≡ None }
        ensures ended { result.ended ≡ false }
        ensures stands { StandsFor result [] 0 }
    {
        LineFeed {
            alloc,
            limits,
            ready: VecDeque::new(alloc),
            buffer: LineBuffer::new(alloc, limits),
            fault: None,
        }
    }

    /// Reads the next piece.
    fn accept(&mut self, piece: &[u8]) -> Result<(), TextFault>
        requires { self.old.ended ≡ false }
        ensures step { Steps result self.old piece.now self.new }
        ensures count { OnOk result (count self.new ≡ count self.old + length piece.now) }
        ensures within { count self.new ≤ self.new.limit }
    {
        let accepted = self.buffer.accept(piece);
        if let Err(_) = copy_lines(self.alloc, self.limits, &mut self.buffer, &mut self.ready) {
            return Err(TextFault::NoMemory);
        }
        accepted
    }

    /// The end of the text.
    fn close(&mut self) -> Result<(), TextFault>
        requires { self.old.ended ≡ false }
        ensures closes { Closes result self.old self.new }
        ensures ended { self.new.ended ≡ is_ok result }
    {
        let closed = self.buffer.close();
        if let Err(_) = copy_lines(self.alloc, self.limits, &mut self.buffer, &mut self.ready) {
            return Err(TextFault::NoMemory);
        }
        closed
    }

    /// Reads the next piece of the text, which may be empty and may end anywhere, also within a character or
    /// between a carriage return and its line feed.
    ///
    /// A fault is returned as soon as the bytes settle it, however they continue.
    pub fn push(&mut self, piece: &[u8]) -> Result<(), TextFault>
        requires { self.old.ended ≡ false }
        // If it has read these bytes, it has then read them and the piece.
        ensures stands { self.old.fault ≡ None → (bytes : List ℕ) (taken : ℕ) →
            StandsFor self.old bytes taken → StandsFor self.new (bytes ++ piece.now) taken }
        // A fault is returned exactly where the bytes settle it.
        ensures settled { self.old.fault ≡ None → (bytes : List ℕ) (taken : ℕ) →
            StandsFor self.old bytes taken →
            Answers result (settled_fault self.old.limit (bytes ++ piece.now)) }
        // From then on it is returned again.
        ensures answer { result ≡ answer_after self.new.fault }
        ensures failed { self.old.fault ≢ None → self.new ≡ self.old }
        ensures limit { self.new.limit ≡ self.old.limit }
        ensures ended { self.new.ended ≡ false }
        ensures count { OnOk result (count self.new ≡ count self.old + length piece.now) }
        ensures within { count self.new ≤ self.new.limit }
    {
        if let Some(fault) = self.fault {
            return Err(fault);
        }
        let result = self.accept(piece);
        if let Err(fault) = result {
            self.fault = Some(fault);
        }
        result
    }

    /// The next line that has ended, or, once the text has, the unended last one.
    pub fn next_line(&mut self) -> Option<Line>
        ensures line { IfSome result (λ line. self.old.cut.ended ≡ seen_line line ∷ self.new.cut.ended) }
        ensures none { IfNone result (self.old.cut.ended ≡ []) }
        ensures unchanged { IfNone result (self.new ≡ self.old) }
        ensures rest { self.new ≡ with_ready self.new.cut.ended self.old }
        ensures stands { (bytes : List ℕ) (taken : ℕ) → StandsFor self.old bytes taken →
            StandsFor self.new bytes (if is_some result then taken + 1 else taken) }
    {
        self.ready.pop_front()
    }

    /// Whether `end` has returned Ok.
    pub fn ended(&self) -> bool
        ensures { result ≡ self.now.ended }
    {
        self.buffer.ended()
    }

    /// Says that the text ends here. Its last line is ready then, if it has no ending and isn't empty.
    ///
    /// A character that is only cut short is `TextFault::NotUtf8`.
    pub fn end(&mut self) -> Result<(), TextFault>
        requires { self.old.ended ≡ false }
        ensures stands { self.old.fault ≡ None → (bytes : List ℕ) (taken : ℕ) →
            StandsFor self.old bytes taken → StandsFor self.new bytes taken }
        ensures told { self.old.fault ≡ None → (bytes : List ℕ) (taken : ℕ) →
            StandsFor self.old bytes taken → Answers result (text_fault self.old.limit bytes) }
        ensures answer { result ≡ answer_after self.new.fault }
        ensures failed { self.old.fault ≢ None → self.new ≡ self.old }
        ensures limit { self.new.limit ≡ self.old.limit }
        ensures ended { self.new.ended ≡ is_ok result }
    {
        if let Some(fault) = self.fault {
            return Err(fault);
        }
        let result = self.close();
        if let Err(fault) = result {
            self.fault = Some(fault);
        }
        result
    }
}
