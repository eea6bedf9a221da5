//! The lines of a text that comes in pieces, lent from where they are held.
//!
//! Contracts see a buffer as what it holds, so that none mentions a pointer or a capacity.
ghost use Rattle.std.specs.Prelude.{◌≡◌, ◌≢◌, ◌+◌, ◌<◌, ◌≤◌, [], ◌∷◌, ◌++◌};
ghost use Rattle.std.specs.Prelude.{ℕ, List, length, drop, OnOk, is_ok, IfSome, IfNone, None, false};
ghost use Rattle.cm_text.specs.Answers.{answer_after};
ghost use Rattle.cm_text.specs.Lines.{plain_lines_of};
ghost use Rattle.cm_text.specs.Views.{seen_view};
ghost use Rattle.cm_text.specs.Faults.{settled_fault, text_fault};
ghost use Rattle.cm_text.specs.Feed.{StandsFor, Answers, with_ready, count};
ghost use Rattle.cm_text.specs.steps.FeedSteps.{Steps, Closes};

use crate::fault::TextFault;
use crate::limits::Limits;
use crate::text_lines::TextLines;
use crate::unread::Unread;
use crate::view::View;
use std::alloc::Global;
use std::marker::Model;

/// The lines of a text that comes in pieces, which are lent and not copied.
///
/// Pass the bytes to `push`, in pieces of any length; see the first line that has ended with `first_line` and
/// skip it with `pass_line`, at any time; and call `end` after the last piece. A line ends with a line feed,
/// a carriage return, or both (CommonMark 0.31.2, 2.1); U+0000 becomes U+FFFD (2.3).
///
/// After a fault, each further `push` and `end` returns that fault, and the lines that ended before its place
/// can still be seen; after `TextFault::NoMemory`, the first of those that have ended.
#[derive(Debug, Drop)]
pub struct LineBuffer {
    limits: Limits,
    /// The number of bytes that have been read as text, and of those after them, which have no whole
    /// character yet.
    start: usize,
    pending: Vec<u8>,
    unread: Unread,
    ended: bool,
    fault: Option<TextFault>,
}

impl Model for LineBuffer {
    ghost use Rattle.std.specs.Prelude.{◌≡◌, ◌+◌, ◌*◌, ◌^◌, ◌≤◌, length, string_len, false};
    ghost use Rattle.cm_text.specs.Feed.{Feed};
    ghost use Rattle.cm_text.specs.Cut.{cut_of};

    ghost Value = { Feed };

    ghost view = { λ f. record {
      limit = f.limits.bytes;
      start = f.start;
      pending = f.pending.items;
      cut = cut_of f.unread;
      ended = f.ended;
      fault = f.fault;
    } };

    ghost invariant = { λ f. (f.start + length f.pending.items ≤ f.limits.bytes)
        × (string_len f.unread.text ≤ 3 * f.start + 1)
        × (f.ended ≡ false → string_len f.unread.text ≤ 3 * f.start) × (f.limits.bytes ≤ 2 ^ 30) };
}

impl LineBuffer {
    /// Takes the bytes of a piece up to the limit.
    pub(crate) fn accept(&mut self, piece: &[u8]) -> Result<(), TextFault>
        ensures step { Steps result self.old piece.now self.new }
        ensures count { OnOk result (count self.new ≡ count self.old + length piece.now) }
        ensures within { count self.new ≤ self.new.limit }
    {
        let limit = self.limits.bytes();
        let room = limit - (self.start + self.pending.len());
        let within = &piece[..piece.len().min(room)];
        let Ok((valid, broken)) = self.unread.take_more(&mut self.pending, within) else {
            // How far it came isn't known, and nothing more will be read.
            self.pending.clear();
            self.start = limit;
            return Err(TextFault::NoMemory);
        };
        self.start += valid;
        if broken {
            return Err(TextFault::NotUtf8 { at: self.start });
        }
        if within.len() < piece.len() {
            return Err(TextFault::TooLong { at: limit });
        }
        Ok(())
    }

    /// The end of the text.
    pub(crate) fn close(&mut self) -> Result<(), TextFault>
        requires { self.old.ended ≡ false }
        ensures closes { Closes result self.old self.new }
        ensures ended { self.new.ended ≡ is_ok result }
        ensures count { count self.new ≡ count self.old }
    {
        if !self.pending.is_empty() {
            return Err(TextFault::NotUtf8 { at: self.start });
        }
        if self.unread.end_text().is_err() {
            return Err(TextFault::NoMemory);
        }
        self.ended = true;
        Ok(())
    }

    /// A buffer that has been given nothing. It takes no memory.
    pub fn new(alloc: Global, limits: Limits) -> LineBuffer
        ensures limit { result.limit ≡ limits.bytes }
        ensures fault { result.fault ≡ None }
        ensures ended { result.ended ≡ false }
        ensures count { count result ≡ 0 }
        ensures lines { result.cut.ended ≡ [] }
        ensures stands { StandsFor result [] 0 }
    {
        // The range of the limit, which bounds what the feed counts.
        let _limit = limits.bytes();
        LineBuffer {
            limits,
            start: 0,
            pending: Vec::new(alloc),
            unread: Unread::new(alloc),
            ended: false,
            fault: None,
        }
    }

    /// Reads the next piece of the text, which may be empty and may end anywhere, also within a character or
    /// between a carriage return and its line feed.
    ///
    /// A fault is returned as soon as the bytes settle it, however they continue.
    pub fn push(&mut self, piece: &[u8]) -> Result<(), TextFault>
        requires { self.old.ended ≡ false }
        // If it has read these bytes, it has then read them and the piece.
        ensures stands { self.old.fault ≡ None → (bytes : List ℕ) (taken : ℕ) →
            StandsFor self.old bytes taken → StandsFor self.new (bytes ++ piece.now) taken }
        // A fault is returned exactly where the bytes settle it.
        ensures settled { self.old.fault ≡ None → (bytes : List ℕ) (taken : ℕ) →
            StandsFor self.old bytes taken →
            Answers result (settled_fault self.old.limit (bytes ++ piece.now)) }
        // From then on it is returned again.
        ensures answer { result ≡ answer_after self.new.fault }
        ensures failed { self.old.fault ≢ None → self.new ≡ self.old }
        ensures limit { self.new.limit ≡ self.old.limit }
        ensures ended { self.new.ended ≡ false }
        ensures count { OnOk result (count self.new ≡ count self.old + length piece.now) }
        ensures within { count self.new ≤ self.new.limit }
    {
        if let Some(fault) = self.fault {
            return Err(fault);
        }
        let result = self.accept(piece);
        if let Err(fault) = result {
            self.fault = Some(fault);
        }
        result
    }

    /// The first line that has ended, or, once the text has, the unended last one: as it is held, without a
    /// copy.
    pub fn first_line(&self) -> Option<View<'_>>
        ensures line { IfSome result (λ line.
            self.now.cut.ended ≡ seen_view line ∷ drop 1 self.now.cut.ended) }
        ensures bare { IfSome result (λ line. line.spaces ≡ 0) }
        ensures none { IfNone result (self.now.cut.ended ≡ []) }
    {
        self.unread.first_line()
    }

    /// Skips that line, if there is one. It takes no memory.
    pub fn pass_line(&mut self)
        ensures rest { self.new ≡ with_ready (drop 1 self.old.cut.ended) self.old }
        ensures stands { 0 < length self.old.cut.ended → (bytes : List ℕ) (taken : ℕ) →
            StandsFor self.old bytes taken → StandsFor self.new bytes (taken + 1) }
    {
        self.unread.pass_line();
    }

    /// Searches for lines of text at the start of those that have ended, each followed by just a line feed.
    /// It takes no memory.
    #[inline(always)]
    pub fn look_for_text(&mut self)
        ensures { self.new ≡ self.old }
    {
        self.unread.look_for_text();
    }

    /// The lines of text at the start that were searched for, as they are held, without a copy. There are
    /// none if they weren't searched for, and after each `push`, `pass_line` and `pass_lines`.
    #[inline(always)]
    pub fn text_lines(&self) -> Option<TextLines<'_>>
        ensures { IfSome result (λ found.
            self.now.cut.ended ≡ plain_lines_of found.text.now ++ drop found.count self.now.cut.ended) }
    {
        self.unread.text_lines()
    }

    /// Skips the given number of lines, or all that have ended if there are fewer. For the lines of text that
    /// were searched for it is one step. It takes no memory.
    #[inline(always)]
    pub fn pass_lines(&mut self, count: usize)
        ensures rest { self.new ≡ with_ready (drop count self.old.cut.ended) self.old }
        ensures stands { count ≤ length self.old.cut.ended → (bytes : List ℕ) (taken : ℕ) →
            StandsFor self.old bytes taken → StandsFor self.new bytes (taken + count) }
    {
        self.unread.pass_lines(count);
    }

    /// Whether `end` has returned Ok.
    pub fn ended(&self) -> bool
        ensures { result ≡ self.now.ended }
    {
        self.ended
    }

    /// Says that the text ends here. Its last line has ended then, if it has no ending and isn't empty.
    ///
    /// A character that is only cut short is `TextFault::NotUtf8`.
    pub fn end(&mut self) -> Result<(), TextFault>
        requires { self.old.ended ≡ false }
        ensures stands { self.old.fault ≡ None → (bytes : List ℕ) (taken : ℕ) →
            StandsFor self.old bytes taken → StandsFor self.new bytes taken }
        ensures told { self.old.fault ≡ None → (bytes : List ℕ) (taken : ℕ) →
            StandsFor self.old bytes taken → Answers result (text_fault self.old.limit bytes) }
        ensures answer { result ≡ answer_after self.new.fault }
        ensures failed { self.old.fault ≢ None → self.new ≡ self.old }
        ensures limit { self.new.limit ≡ self.old.limit }
        ensures ended { self.new.ended ≡ is_ok result }
    {
        if let Some(fault) = self.fault {
            return Err(fault);
        }
        let result = self.close();
        if let Err(fault) = result {
            self.fault = Some(fault);
        }
        result
    }
}
