//! Which line of a text a fault is on.
//!
//! A text is read a second time for it, so that a reading without a fault keeps no byte and no line for this.
ghost use Rattle.std.specs.Prelude.{◌≡◌, ◌≢◌, ℕ, ◌-◌, ◌^◌, ◌<◌, List, length, IfOk, OnErr, OnOk};
ghost use Rattle.std.specs.Io.KnownBytes.{Consumes};
ghost use Rattle.cm_text.specs.Feed.{count};
ghost use Rattle.cm_text.specs.Lines.{lines_of};
ghost use Rattle.cm_text.specs.Rules.{Rules};
ghost use Rattle.cm_tool.specs.declared.fault.Fault.TheVariants as faults;
ghost use Rattle.cm_tool.specs.FaultPlaces.{FindsLine, line_of_byte, line_of_fault};
ghost use Rattle.cm_tool.specs.Faults.{settled_fault_of};
ghost use Rattle.cm_tool.specs.Parsing.{HasTakenIn};

use crate::fault::Fault;
use crate::outlines::line_in_outline;
use crate::reading::{Parser, TakesBytes, take_all};
use cm_command::{Job, Task};
use cm_text::{NoMemory, Source};
use std::alloc::Global;

/// A parser, and the bytes that it has been given.
#[derive(Drop)]
struct KeptBytes {
    parser: Parser,
    bytes: Vec<u8>,
}

impl TakesBytes for KeptBytes {
    ghost use Rattle.std.specs.Prelude.{◌≡◌};

    ghost has_taken_in = { λ limits kept bytes.
        HasTakenIn limits kept.parser bytes × (kept.bytes.items ≡ bytes) };

    ghost was_given = { λ kept bytes. kept.bytes.items ≡ bytes };

    ghost settled = { settled_fault_of };

    ghost left = { λ kept. kept.parser.feed.limit - count kept.parser.feed };

    fn take(&mut self, piece: &[u8]) -> Result<(), Fault> {
        self.bytes.extend_from_slice(piece)?;
        self.parser.feed(piece)
    }
}

/// How many lines these bytes have.
fn count_lines(bytes: &[u8]) -> usize
    ensures { result ≡ length (lines_of bytes.now) }
{
    let mut ended = 0;
    let mut is_begun = false;
    let mut after_return = false;
    for &b in bytes {
        if b == b'\n' && after_return {
            after_return = false;
        } else if b == b'\n' || b == b'\r' {
            ended += 1;
            is_begun = false;
            after_return = b == b'\r';
        } else {
            is_begun = true;
            after_return = false;
        }
    }
    ended + usize::from(is_begun)
}

/// The line of the byte at this place.
fn line_of_byte(bytes: &[u8], at: usize) -> usize
    ensures { result ≡ line_of_byte at bytes.now }
{
    let end = at.saturating_add(1).min(bytes.len());
    count_lines(&bytes[..end])
}

/// The line of a fault that is met before the outline is complete.
fn line_before_outline(bytes: &[u8], fault: Fault) -> Result<Option<usize>, NoMemory>
    ensures line { IfOk result (λ line. (rules : Rules) → line ≡ line_of_fault rules bytes.now fault) }
    ensures known { OnOk result (fault ≢ faults.NoMemory) }
    ensures memory { OnErr result (fault ≢ faults.ReadFailed) }
{
    match fault {
        Fault::NotUtf8 { at } | Fault::TooLong { at } => Ok(Some(line_of_byte(bytes, at))),
        Fault::BlocksTooDeep { .. } | Fault::ReadFailed => Ok(None),
        // No other fault is met there.
        _ => Err(NoMemory),
    }
}

/// Reads the text of a task, and returns the line of its fault: that of the byte of F1 or F2, and the first
/// one of the leaf of F4. Faults of any other kind have none, and so have those in a file of examples. A
/// source that the task has read has to be at its start again.
///
/// A fault that the bytes settle ends the reading: no read is made after it. So does a failed read.
///
/// # Errors
///
/// `NoMemory` if a request for memory was refused. The bytes up to a fault are held.
pub fn line_of_fault<R: Source>(
    alloc: Global,
    task: &Task,
    source: &mut R,
) -> Result<Option<usize>, NoMemory>
    requires { (R.seen source.old).failed < 2 ^ 64 - 1 }
    ensures { (bytes : List ℕ) × Consumes (R.seen source.old).remaining (R.seen source.new).remaining bytes
        × FindsLine result task.now.job task.now.limits bytes (R.seen source.old) (R.seen source.new) }
{
    if task.job == Job::Examples {
        return Ok(None);
    }
    let mut kept = KeptBytes {
        parser: Parser::new(alloc, task.limits),
        bytes: Vec::new(alloc),
    };
    if let Err(fault) = take_all(alloc, source, &mut kept) {
        return line_before_outline(&kept.bytes, fault);
    }
    let KeptBytes { parser, bytes } = kept;
    match parser.outline() {
        Ok(outline) => line_in_outline(alloc, task.limits, outline),
        Err(fault) => line_before_outline(&bytes, fault),
    }
}
