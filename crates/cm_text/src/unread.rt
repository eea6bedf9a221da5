//! The text that has been read and of which no line has been taken yet.
ghost use Rattle.std.specs.Prelude.{◌≡◌, [], ◌∷◌, ◌++◌, ◌+◌, ◌*◌, ◌^◌, ◌<◌, ◌≤◌, map, length};
ghost use Rattle.std.specs.Prelude.{drop, OnOk, OnErr, IfSome, IfNone, string_bytes, string_len, true};
ghost use Rattle.std.specs.Str.{IsCharBoundary};
ghost use Rattle.cm_text.specs.steps.FirstLine.{IsFirstLine};
ghost use Rattle.cm_text.specs.steps.TextAhead.{IsAhead};

use crate::device::NoMemory;
use crate::endings::{ends_a_line, line_len, past_line_feed};
use crate::text_lines::{TextAhead, TextLines, may_begin_text, text_ahead};
use crate::texts::text_of;
use crate::view::View;
use memchr::memchr;
use std::alloc::Global;

/// The text that has been read and not taken yet.
#[derive(Debug, Drop)]
pub(crate) struct Unread {
    pub(crate) alloc: Global,
    /// The text. Its first `passed` bytes have been passed, and the next `line` bytes are the first line.
    pub(crate) text: String,
    pub(crate) passed: usize,
    pub(crate) line: usize,
    /// Whether the last byte was a carriage return, whose line feed may still come.
    pub(crate) after_return: bool,
    /// The lines of text that were searched for at the start, or none.
    pub(crate) text_ahead: TextAhead,
    pub(crate) ghost boundary: { IsCharBoundary (string_bytes text) passed },
    pub(crate) ghost first: { IsFirstLine line (drop passed (string_bytes text)) },
    pub(crate) ghost waits: { after_return ≡ true → passed ≡ length (string_bytes text) },
    pub(crate) ghost ahead: { 0 < text_ahead.count → IsAhead text_ahead (drop passed (string_bytes text)) },
}

impl Unread {
    ghost use Rattle.cm_text.specs.Lines.{text_of, plain_line, plain_lines_of, last_line};
    ghost use Rattle.cm_text.specs.Views.{seen_view};
    ghost use Rattle.cm_text.specs.Cut.{cut_of, cut_more, without, nothing_cut};

    pub(crate) fn new(alloc: Global) -> Unread
        ensures cut { cut_of result ≡ nothing_cut }
        ensures len { string_len result.text ≡ 0 }
    {
        Unread {
            alloc,
            text: String::new(alloc),
            passed: 0,
            line: 0,
            after_return: false,
            text_ahead: TextAhead::none(),
        }
    }

    /// What hasn't been passed.
    fn rest(&self) -> &str
        ensures { result.now ≡ drop self.now.passed (string_bytes self.now.text) }
    {
        &self.text[self.passed..]
    }

    /// The first line that has ended.
    pub(crate) fn first_line(&self) -> Option<View<'_>>
        requires { string_len self.now.text ≤ 2 ^ 61 }
        ensures line { IfSome result (λ line.
            (cut_of self.now).ended ≡ seen_view line ∷ drop 1 (cut_of self.now).ended) }
        ensures bare { IfSome result (λ line. line.spaces ≡ 0) }
        ensures none { IfNone result ((cut_of self.now).ended ≡ []) }
    {
        let rest = self.rest();
        if self.line == rest.len() {
            return None;
        }
        Some(View {
            column: 0,
            spaces: 0,
            rest: &rest[..self.line],
            lazy: false,
        })
    }

    /// Skips that line, if there is one.
    pub(crate) fn pass_line(&mut self)
        ensures cut { cut_of self.new ≡ without 1 (cut_of self.old) }
        ensures len { string_len self.new.text ≡ string_len self.old.text }
    {
        let rest = self.rest();
        if self.line == rest.len() {
            return;
        }
        let is_return = rest.as_bytes()[self.line] == b'\r';
        let beyond = self.passed + self.line + 1;
        let (passed, after_return) = past_line_feed(&self.text, beyond, is_return);
        self.text_ahead.count = 0;
        self.line = line_len(&self.text[passed..], 0);
        self.passed = passed;
        self.after_return = after_return;
    }

    /// Searches for lines of text at the start. A line that hasn't ended isn't looked at, however long it is.
    #[inline(always)]
    pub(crate) fn look_for_text(&mut self)
        ensures cut { cut_of self.new ≡ cut_of self.old }
        ensures len { string_len self.new.text ≡ string_len self.old.text }
    {
        let rest = self.rest();
        if self.line < rest.len() && may_begin_text(rest.as_bytes()) {
            self.text_ahead = text_ahead(rest, self.line);
        } else {
            self.text_ahead.count = 0;
        }
    }

    /// The lines of text that were found at the start.
    #[inline(always)]
    pub(crate) fn text_lines(&self) -> Option<TextLines<'_>>
        ensures { IfSome result (λ found. (cut_of self.now).ended
            ≡ plain_lines_of found.text.now ++ drop found.count (cut_of self.now).ended) }
    {
        let TextAhead {
            spaces,
            count,
            len,
            ..
        } = self.text_ahead;
        if count == 0 {
            return None;
        }
        Some(TextLines {
            text: &self.rest()[..len],
            spaces,
            count,
        })
    }

    /// Skips the lines of text that were found at the start.
    #[inline(always)]
    fn pass_text(&mut self)
        requires { 0 < self.old.text_ahead.count }
        ensures cut { cut_of self.new ≡ without self.old.text_ahead.count (cut_of self.old) }
        ensures len { string_len self.new.text ≡ string_len self.old.text }
    {
        let TextAhead { len, line, .. } = self.text_ahead;
        self.text_ahead.count = 0;
        self.line = line;
        self.passed += len;
    }

    /// Skips up to `count` lines. For the lines of text that were found it is one step.
    #[inline(always)]
    pub(crate) fn pass_lines(&mut self, count: usize)
        ensures cut { cut_of self.new ≡ without count (cut_of self.old) }
        ensures len { string_len self.new.text ≡ string_len self.old.text }
    {
        if count > 0 && count == self.text_ahead.count {
            return self.pass_text();
        }
        for _ in 0..count {
            self.pass_line();
        }
    }

    /// Moves what hasn't been passed to the start, if that is no more than what has.
    fn shrink(&mut self) -> Result<(), NoMemory>
        ensures cut { cut_of self.new ≡ cut_of self.old }
        ensures len { string_len self.new.text ≤ string_len self.old.text }
    {
        if self.passed > 0 && self.text.len() - self.passed <= self.passed {
            self.text.replace_range(..self.passed, "")?;
            self.passed = 0;
        }
        Ok(())
    }

    /// Appends a text that has no U+0000.
    fn go_on(&mut self, more: &str) -> Result<(), NoMemory>
        ensures len { string_len self.new.text ≤ string_len self.old.text + length more.now }
        ensures ok { OnOk result (cut_of self.new ≡ cut_more (cut_of self.old) more.now) }
        ensures err { OnErr result (cut_of self.new ≡ cut_of self.old) }
        ensures kept { OnErr result (string_len self.new.text ≤ string_len self.old.text) }
    {
        self.shrink()?;
        self.text_ahead.count = 0;
        let has_ended = self.passed + self.line < self.text.len();
        self.text.push_str(more)?;
        if !has_ended {
            let (passed, after_return) = past_line_feed(&self.text, self.passed, self.after_return);
            self.line = line_len(&self.text[passed..], self.line);
            self.passed = passed;
            self.after_return = after_return;
        }
        Ok(())
    }

    /// Appends a text. If memory is refused, nothing changes.
    pub(crate) fn take(&mut self, more: &str) -> Result<(), NoMemory>
        ensures len { string_len self.new.text ≤ string_len self.old.text + 3 * length more.now }
        ensures ok { OnOk result (cut_of self.new ≡ cut_more (cut_of self.old) (text_of more.now)) }
        ensures err { OnErr result (cut_of self.new ≡ cut_of self.old) }
    {
        match memchr(0, more.as_bytes()) {
            None => self.go_on(more),
            Some(_) => {
                let text = text_of(self.alloc, more)?;
                self.go_on(&text)
            }
        }
    }

    /// Ends the last line, unless it is empty.
    pub(crate) fn end_text(&mut self) -> Result<(), NoMemory>
        ensures len { string_len self.new.text ≤ string_len self.old.text + 1 }
        ensures ok { OnOk result ((cut_of self.new).ended
            ≡ (cut_of self.old).ended ++ map plain_line (last_line (cut_of self.old).partial)) }
        ensures err { OnErr result (cut_of self.new ≡ cut_of self.old) }
        ensures kept { OnErr result (string_len self.new.text ≤ string_len self.old.text) }
    {
        let rest = self.rest();
        if rest.is_empty() {
            return Ok(());
        }
        if ends_a_line(rest) {
            return Ok(());
        }
        self.go_on("\n")
    }
}
