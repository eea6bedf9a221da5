//! Tasks with devices that fail: a reader after any byte of the text, and a writer that takes only a part of
//! the output.

use crate::runs::{READ, SHORT, Space, ample, ran};
use case_tables::cuts::{Cut, pieces};
use case_tables::trouble::{Trouble, same, wrong};
use cm_tool::{Job, Task};
use std::alloc::Global;

/// A task, the text that it is done with, and its results if no read and no write fails.
#[derive(Drop)]
pub(crate) struct Done<'a> {
    pub(crate) alloc: Global,
    pub(crate) task: &'a Task,
    pub(crate) input: &'a [u8],
    pub(crate) output: &'a [u8],
    pub(crate) errors: &'a [u8],
    pub(crate) status: usize,
}

impl Done<'_> {
    /// Whether the bytes of the text settle no fault, so that they are read to their end: of a file of
    /// examples too deep lines are none.
    fn is_unsettled(&self) -> bool {
        let is_of_bytes = self.errors.starts_with(b"cmk: F1 ")
            || self.errors.starts_with(b"cmk: F2 ");
        let is_too_deep = self.errors.starts_with(b"cmk: F3 ") && self.task.job != Job::Examples;
        !is_of_bytes && !is_too_deep
    }

    /// Checks that the task, done with the whole text and this room, writes a prefix of its output, and that
    /// the text is read to its end.
    fn is_written(&self, space: Space) -> Result<(), Trouble> {
        let alloc = self.alloc;
        let given = (pieces(alloc, self.input, Cut::Nowhere)?, false);
        let ran = ran(alloc, self.task, given, (space, ample(self.errors.len())))?;
        let taken = space.taken(self.output.len());
        let front = self.output.get(..taken).unwrap_or(self.output);
        same(alloc, "output", front, ran.output.taken())?;
        let told = format!(in alloc; "cmk: F7 write failed after {taken} bytes\n")?;
        let (errors, status) = if taken < self.output.len() {
            (told.as_bytes(), 1)
        } else {
            (self.errors, self.status)
        };
        same(alloc, "errors", errors, ran.errors.taken())?;
        if status != usize::from(ran.status) {
            return Err(wrong(alloc, "the exit status is wrong"));
        }
        if ran.reads != (if self.input.is_empty() { 1 } else { 2 }) {
            return Err(wrong(alloc, "the number of reads is wrong"));
        }
        Ok(())
    }

    /// Checks that only a failed read is reported if the reader fails after this number of bytes, and that no
    /// read is made after it.
    fn is_failed(&self, place: usize) -> Result<(), Trouble> {
        let alloc = self.alloc;
        let front = self.input.get(..place).unwrap_or(self.input);
        let given = (pieces(alloc, front, Cut::AfterEachByte)?, true);
        let ran = ran(
            alloc,
            self.task,
            given,
            (ample(self.output.len()), ample(0)),
        )?;
        same(alloc, "output", b"", ran.output.taken())?;
        same(
            alloc,
            "errors",
            b"cmk: F6 read failed\n",
            ran.errors.taken(),
        )?;
        if ran.status != 1 {
            return Err(wrong(alloc, "the exit status is wrong"));
        }
        if ran.reads != place.saturating_add(1) {
            return Err(wrong(alloc, "the number of reads is wrong"));
        }
        Ok(())
    }

    /// Checks both after each byte of a short text or output.
    pub(crate) fn agrees(&self) -> Result<(), Trouble> {
        if !self.is_unsettled() || self.input.len() > READ {
            return Ok(());
        }
        for place in 0..self.input.len().saturating_add(1) {
            self.is_failed(place)?;
        }
        if self.output.len() > SHORT {
            return Ok(());
        }
        for capacity in 0..self.output.len().saturating_add(1) {
            for at_most in [0, 1, 3, SHORT] {
                self.is_written(Space { capacity, at_most })?;
            }
        }
        Ok(())
    }
}
