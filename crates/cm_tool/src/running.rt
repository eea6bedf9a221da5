//! Doing a task, and reporting faults.
ghost use Rattle.std.specs.Prelude.{◌≡◌, ℕ, ◌-◌, ◌^◌, ◌<◌, List, Result, map, IfOk, OnErr, OnOk};
ghost use Rattle.std.specs.Prelude.{string_bytes};
ghost use Rattle.std.specs.Io.KnownBytes.{Consumes};
ghost use Rattle.cm_text.specs.Writing.{IsUnwritten};
ghost use Rattle.cm_tool.specs.declared.fault.Fault as faults;
ghost use Rattle.cm_tool.specs.FaultPlaces.{place_line};
ghost use Rattle.cm_tool.specs.Running.{Does, Offered, OfferedLine, RunsTo, Tells, TellsIfNone};
ghost use Rattle.cm_tool.specs.Running.{TellsNoExample, TellsUnopened, no_example_line, unopened_lines};
ghost use Rattle.cm_tool.specs.steps.ExampleSteps.{example_of};

use crate::example_files::{Example, OPENING, examples_in, report};
use crate::fault::{Fault, LINE};
use crate::outputs::{convert, list, rewrite, write_json};
use crate::reading::read_text;
use crate::shown::push_shown;
use arrayvec::ArrayString;
use cm_command::{Job, Stop, Task};
use cm_text::{Limits, Sink, Source, WriteFailed, write_all};
use itoa::Buffer;
use std::alloc::{AllocError, Global};

/// Writes the text, and ignores a failure.
fn offer<E: Sink>(errors: &mut E, text: &[u8])
    requires { (E.seen errors.old).failed < 2 ^ 64 - 1 }
    ensures { Offered (E.seen errors.old) (E.seen errors.new)
        text.now }
{
    let _ = write_all(errors, text);
}

/// Writes the fault's line, and returns the exit status. It ignores a failure, and takes no memory.
fn tell_fault<E: Sink>(fault: Fault, errors: &mut E) -> u8
    requires { (E.seen errors.old).failed < 2 ^ 64 - 1 }
    ensures status { result ≡ 1 }
    ensures line { OfferedLine fault (E.seen errors.old) (E.seen errors.new) }
{
    offer(errors, fault.line().as_str().as_bytes());
    1
}

/// Does the job of the task.
fn work<R: Source, W: Sink>(
    alloc: Global,
    task: &Task,
    reader: &mut R,
    writer: &mut W,
) -> Result<usize, Fault>
    requires reads { (R.seen reader.old).failed < 2 ^ 64 - 1 }
    requires writes { (W.seen writer.old).failed < 2 ^ 64 - 1 }
    ensures { (bytes : List ℕ) × Consumes (R.seen reader.old).remaining (R.seen reader.new).remaining bytes
        × Does task.now.job result task.now.limits bytes (R.seen reader.old) (R.seen reader.new)
        (W.seen writer.old) (W.seen writer.new) }
{
    match task.job {
        Job::Render => convert(alloc, reader, writer, task.limits),
        Job::Tree => list(alloc, reader, writer, task.limits),
        Job::TreeJson => write_json(alloc, reader, writer, task.limits),
        Job::Rewrite => rewrite(alloc, reader, writer, task.limits),
        Job::Examples => report(alloc, reader, writer, task.limits),
    }
}

/// Does the task and returns the exit status: 0, or 1 after a fault, whose line is written to `errors`. A
/// failure of `errors` is ignored.
pub fn run<R: Source, W: Sink, E: Sink>(
    alloc: Global,
    task: &Task,
    reader: &mut R,
    writer: &mut W,
    errors: &mut E,
) -> u8
    requires reads { (R.seen reader.old).failed < 2 ^ 64 - 1 }
    requires writes { (W.seen writer.old).failed < 2 ^ 64 - 1 }
    requires tells { (E.seen errors.old).failed < 2 ^ 64 - 1 }
    ensures { (bytes : List ℕ) × Consumes (R.seen reader.old).remaining (R.seen reader.new).remaining bytes
        × (answer : Result ℕ faults.Fault) × RunsTo answer result task.now.job task.now.limits bytes
        (R.seen reader.old) (R.seen reader.new) (W.seen writer.old) (W.seen writer.new)
        (E.seen errors.old) (E.seen errors.new) }
{
    match work(alloc, task, reader, writer) {
        Ok(_) => 0,
        Err(fault) => tell_fault(fault, errors),
    }
}

/// Reports why there is no task, and returns the exit status: 0 for help, which is written to `writer`, 2 for
/// a wrong command line, and 1 for lack of memory or a failure of `writer`. A failure of `errors` is ignored.
pub fn tell<W: Sink, E: Sink>(stop: &Stop, writer: &mut W, errors: &mut E) -> u8
    requires writes { (W.seen writer.old).failed < 2 ^ 64 - 1 }
    requires tells { (E.seen errors.old).failed < 2 ^ 64 - 1 }
    ensures { Tells stop.now result (W.seen writer.old) (W.seen writer.new)
        (E.seen errors.old) (E.seen errors.new) }
{
    match stop {
        Stop::Help(text) => match write_all(writer, text.as_bytes()) {
            Ok(()) => 0,
            Err(WriteFailed { written }) => tell_fault(Fault::WriteFailed { written }, errors),
        },
        Stop::Wrong(text) => {
            offer(errors, text.as_bytes());
            2
        }
        Stop::NoMemory => tell_fault(Fault::NoMemory, errors),
    }
}

/// The line about a file without examples. It takes no memory.
fn no_example_line() -> ArrayString<LINE>
    ensures { result.bytes ≡ no_example_line }
{
    let mut line = ArrayString::new();
    line.push_str("cmk: no example found; an example starts with the line ");
    line.push_str(OPENING);
    line.push_str("\n");
    line
}

/// Writes that line, if these examples of a file are none.
fn tell_if_none<E: Sink>(examples: &[Example], errors: &mut E)
    requires { (E.seen errors.old).failed < 2 ^ 64 - 1 }
    ensures { TellsIfNone (map example_of examples.now) (E.seen errors.old) (E.seen errors.new) }
{
    match examples {
        [] => offer(errors, no_example_line().as_str().as_bytes()),
        [_, ..] => {}
    }
}

/// Reads a file of examples, and reports it if it has none. A failure of `errors` is ignored.
///
/// # Errors
///
/// The fault with which the job on the file would end before the first example is tried. Nothing was written
/// then.
pub fn tell_no_example<R: Source, E: Sink>(
    alloc: Global,
    limits: Limits,
    source: &mut R,
    errors: &mut E,
) -> Result<(), Fault>
    requires reads { (R.seen source.old).failed < 2 ^ 64 - 1 }
    requires tells { (E.seen errors.old).failed < 2 ^ 64 - 1 }
    ensures { (bytes : List ℕ) × Consumes (R.seen source.old).remaining (R.seen source.new).remaining bytes
        × TellsNoExample result limits bytes (R.seen source.old) (R.seen source.new)
        (E.seen errors.old) (E.seen errors.new) }
{
    let text = read_text(alloc, source, limits)?;
    let examples = examples_in(alloc, &text)?;
    tell_if_none(&examples, errors);
    Ok(())
}

/// The lines about a file that can't be opened.
fn unopened_lines(alloc: Global, name: &str, reason: &str) -> Result<String, AllocError>
    ensures { IfOk result (λ lines. string_bytes lines ≡ unopened_lines name.now reason.now) }
{
    let mut lines = String::from_str(alloc, Fault::ReadFailed.line().as_str())?;
    lines.push_str("cmk: cannot open ")?;
    push_shown(&mut lines, name)?;
    lines.push_str(": ")?;
    push_shown(&mut lines, reason)?;
    lines.push_str("\n")?;
    Ok(lines)
}

/// Reports that the file of this name can't be opened, with the reason, and returns the exit status 1.
/// Control and format characters of both are written as `\u{..}`, so they stay on one line. If memory runs
/// out, that is reported instead. A failure of `errors` is ignored.
pub fn tell_unopened<E: Sink>(alloc: Global, name: &str, reason: &str, errors: &mut E) -> u8
    requires { (E.seen errors.old).failed < 2 ^ 64 - 1 }
    ensures status { result ≡ 1 }
    ensures lines { TellsUnopened name.now reason.now
        (E.seen errors.old) (E.seen errors.new) }
{
    match unopened_lines(alloc, name, reason) {
        Ok(lines) => {
            offer(errors, lines.as_bytes());
            1
        }
        Err(_) => tell_fault(Fault::NoMemory, errors),
    }
}

/// The line with the name of a file, and the line in it, if there is one.
fn place_line(alloc: Global, name: &str, line: Option<usize>) -> Result<String, AllocError>
    ensures { IfOk result (λ text. string_bytes text ≡ place_line name.now line) }
{
    let mut text = String::from_str(alloc, "cmk: in ")?;
    push_shown(&mut text, name)?;
    if let Some(line) = line {
        text.push_str(", line ")?;
        text.push_str(Buffer::new().format(line))?;
    }
    text.push_str("\n")?;
    Ok(text)
}

/// Reports which file a fault is in, and on which line of it, if it is on one: the line after that of the
/// fault. Control and format characters of the name are written as `\u{..}`. A failure of `errors` is
/// ignored.
///
/// # Errors
///
/// `AllocError` if a request for memory was refused. Nothing was written then.
pub fn tell_place<E: Sink>(
    alloc: Global,
    name: &str,
    line: Option<usize>,
    errors: &mut E,
) -> Result<(), AllocError>
    requires { (E.seen errors.old).failed < 2 ^ 64 - 1 }
    ensures line { OnOk result (Offered (E.seen errors.old) (E.seen errors.new) (place_line name.now line)) }
    ensures memory { OnErr result (IsUnwritten (E.seen errors.old) (E.seen errors.new)) }
{
    let place = place_line(alloc, name, line)?;
    offer(errors, place.as_bytes());
    Ok(())
}
