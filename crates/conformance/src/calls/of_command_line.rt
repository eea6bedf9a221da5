//! Calls of `cm_tool`: `task`, `tell`, `tell_unopened`, the lines of faults, and `examples`.

use crate::runs::{Space, told};
use case_tables::calls::Answer;
use case_tables::trouble::Trouble;
use case_tables::words::{Word, number};
use cm_text::Room;
use cm_tool::{Fault, Job, Report, Stop, Task, examples, task, tell_unopened};
use std::alloc::Global;

/// The job, the file, the limits and the marks of their rules.
fn task_of(answer: &mut Answer, task: &Task) -> Result<(), Trouble> {
    answer.word(match task.job {
        Job::Render => "render",
        Job::Tree => "tree",
        Job::TreeJson => "tree_json",
        Job::Rewrite => "rewrite",
        Job::Examples => "examples",
    })?;
    match &task.file {
        Some(file) => answer.text(file.as_str())?,
        None => answer.word("none")?,
    }
    answer.number(task.limits.bytes())?;
    answer.number(task.limits.blocks())?;
    answer.number(task.limits.inlines())?;
    answer.truth(task.limits.rules().is_older())?;
    answer.truth(task.limits.rules().strike())?;
    answer.truth(task.limits.rules().raw_html())?;
    answer.truth(task.limits.rules().any_address())
}

/// The task of a command line, or why there is none.
fn asked(answer: &mut Answer, given: &[Word]) -> Result<bool, Trouble> {
    let mut words = Vec::new(answer.alloc);
    for word in given {
        let (Word::Text(word) | Word::Plain(word)) = word;
        words.push(word.clone()?)?;
    }
    match task(answer.alloc, &words) {
        Ok(task) => task_of(answer, &task)?,
        Err(Stop::Help(_text)) => answer.word("help")?,
        Err(Stop::Wrong(_text)) => answer.word("wrong")?,
        Err(Stop::NoMemory) => return Err(Trouble::NoMemory),
    }
    Ok(true)
}

/// What is returned without a task, by its name.
fn stop(alloc: Global, name: &str, text: &str) -> Result<Stop, Trouble> {
    let text = String::from_str(alloc, text)?;
    Ok(match name {
        "help" => Stop::Help(text),
        "wrong" => Stop::Wrong(text),
        _ => Stop::NoMemory,
    })
}

/// The exit status, and what is written where the output has so much room, and then the errors.
fn told_of(answer: &mut Answer, stop: &Stop, capacity: usize) -> Result<bool, Trouble> {
    let at_most = 4;
    let errors = Space {
        capacity: 99,
        at_most,
    };
    let ran = told(answer.alloc, stop, (Space { capacity, at_most }, errors))?;
    answer.number(usize::from(ran.status))?;
    answer.bytes(ran.output.taken())?;
    answer.bytes(ran.errors.taken())?;
    Ok(true)
}

/// The exit status, and the errors, where the file of this name can't be opened for this reason.
fn unopened(answer: &mut Answer, file: &str, reason: &str) -> Result<bool, Trouble> {
    let mut errors = Room::new(answer.alloc, 999, 999)?;
    let status = tell_unopened(answer.alloc, file, reason, &mut errors);
    answer.number(usize::from(status))?;
    answer.bytes(errors.taken())?;
    Ok(true)
}

/// The line of the fault that a text is too long at this place.
fn too_long(answer: &mut Answer, at: usize) -> Result<bool, Trouble> {
    let line = format!(in answer.alloc; "{}", Fault::TooLong { at })?;
    answer.text(line.as_str())?;
    Ok(true)
}

/// The report of a file of examples.
fn report(alloc: Global, file: &str) -> Result<Report, Fault> {
    examples(alloc, file)
}

/// The report of a file of examples and its verdict, or its fault.
fn examined(answer: &mut Answer, file: &str) -> Result<bool, Trouble> {
    match report(answer.alloc, file) {
        Ok(report) => {
            answer.shown(&report)?;
            answer.shown(&report.verdict())?;
        }
        Err(fault) => answer.shown(&fault)?,
    }
    Ok(true)
}

/// Runs the call, if it is one of `cm_tool`. Returns whether it is.
pub(super) fn answers(answer: &mut Answer, name: &str, given: &[Word]) -> Result<bool, Trouble> {
    match given {
        words if name == "task" => asked(answer, words),
        [Word::Plain(kind), Word::Plain(room), Word::Text(text)] if name == "tell" => {
            let stop = stop(answer.alloc, kind.as_str(), text.as_str())?;
            let room = number(answer.alloc, room.as_str())?;
            told_of(answer, &stop, room)
        }
        [Word::Text(file), Word::Text(reason)] if name == "unopened" => {
            unopened(answer, file.as_str(), reason.as_str())
        }
        [Word::Plain(at)] if name == "too_long" => {
            let at = number(answer.alloc, at.as_str())?;
            too_long(answer, at)
        }
        [Word::Text(file)] if name == "examples" => examined(answer, file.as_str()),
        _ => Ok(false),
    }
}
