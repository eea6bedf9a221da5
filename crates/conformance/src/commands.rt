//! Command lines, from their words to the exit status.

use crate::devices::Done;
use crate::runs::{Space, Written, in_memory, ran, told};
use crate::texts::Tries;
use case_tables::cases::Case;
use case_tables::trouble::{Trouble, same, wrong};
use case_tables::words::{Word, words};
use cm_tool::{Job, Task, task};
use std::alloc::Global;

/// More than any output.
const AMPLE: usize = 2_000_000;

const PARTS: [&str; 9] = [
    "words",
    "input",
    "room",
    "room_for_errors",
    "output",
    "output_holds",
    "errors",
    "errors_hold",
    "status",
];

/// The words of a command line.
fn words_of(alloc: Global, line: &str) -> Result<Vec<String>, Trouble> {
    let mut all = Vec::new(alloc);
    for word in words(alloc, line)? {
        match word {
            Word::Text(text) => all.push(text)?,
            Word::Plain(text) => all.push(text)?,
        }
    }
    Ok(all)
}

/// Checks that what was written is all that the case expects, or contains it, or is nothing.
fn is_written(
    alloc: Global,
    case: &Case,
    (whole, part): (&str, &str),
    got: &[u8],
) -> Result<(), Trouble> {
    if let Some(part) = case.rest(part) {
        let holds = got
            .windows(part.len().max(1))
            .any(|bytes| bytes == part.as_bytes());
        if holds && got.ends_with(b"\n") {
            return Ok(());
        }
        return same(alloc, whole, part.as_bytes(), got);
    }
    let wanted = case.bytes(whole)?.unwrap_or(Vec::new(alloc));
    same(alloc, whole, wanted.as_slice(), got)
}

/// The room that this part of a case gives.
fn space(case: &Case, part: &str) -> Result<Space, Trouble> {
    Ok(Space {
        capacity: case.number(part)?.unwrap_or(AMPLE),
        at_most: AMPLE,
    })
}

/// Checks that what was written, and the exit status, are those that the case expects.
fn is_done(alloc: Global, case: &Case, ran: &Written) -> Result<(), Trouble> {
    is_written(alloc, case, ("output", "output_holds"), ran.output.taken())?;
    is_written(alloc, case, ("errors", "errors_hold"), ran.errors.taken())?;
    if case.number("status")?.unwrap_or(0) != usize::from(ran.status) {
        return Err(wrong(alloc, "the exit status is wrong"));
    }
    Ok(())
}

/// Checks that plain source or JSON is made of a text in memory as the case expects, or that it is refused
/// with the expected reason.
fn is_in_memory(alloc: Global, case: &Case, task: &Task, input: &[u8]) -> Result<(), Trouble> {
    let is_made = matches!(task.job, Job::Rewrite | Job::TreeJson);
    if !is_made || case.has("room") || task.file.is_some() {
        return Ok(());
    }
    let (made, line) = match in_memory(alloc, task.job, input, task.limits) {
        Ok(made) => (made, String::new(alloc)),
        Err(fault) => (String::new(alloc), format!(in alloc; "cmk: {fault}\n")?),
    };
    is_written(alloc, case, ("output", "output_holds"), made.as_bytes())?;
    is_written(alloc, case, ("errors", "errors_hold"), line.as_bytes())
}

/// Checks a task, whose case has all that is written, with readers and writers that fail.
fn is_done_with_failures(
    alloc: Global,
    case: &Case,
    task: &Task,
    input: &[u8],
) -> Result<(), Trouble> {
    let parts = ["room", "room_for_errors", "output_holds", "errors_hold"];
    if parts.iter().any(|part| case.has(part)) {
        return Ok(());
    }
    let output = case.bytes("output")?.unwrap_or(Vec::new(alloc));
    let errors = case.bytes("errors")?.unwrap_or(Vec::new(alloc));
    Done {
        alloc,
        task,
        input,
        output: output.as_slice(),
        errors: errors.as_slice(),
        status: case.number("status")?.unwrap_or(0),
    }
    .agrees()
}

/// Checks that a command line does what its case expects.
pub(crate) fn agrees(alloc: Global, tries: Tries, case: &Case) -> Result<(), Trouble> {
    case.has_only(&PARTS)?;
    let all = words_of(alloc, case.rest("words").unwrap_or(""))?;
    let input = case.bytes("input")?.unwrap_or(Vec::new(alloc));
    let spaces = (space(case, "room")?, space(case, "room_for_errors")?);
    match task(alloc, &all) {
        Ok(task) => {
            let given = (vec![in alloc; input.clone()?]?, false);
            is_done(alloc, case, &ran(alloc, &task, given, spaces)?)?;
            is_in_memory(alloc, case, &task, input.as_slice())?;
            match tries {
                Tries::Once => Ok(()),
                Tries::InAllWays => is_done_with_failures(alloc, case, &task, input.as_slice()),
            }
        }
        Err(stop) => is_done(alloc, case, &told(alloc, &stop, spaces)?),
    }
}
