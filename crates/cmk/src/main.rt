//! The program `cmk`: converts CommonMark to HTML, to a listing of its tree, or to CommonMark source.
//!
//! `main` gets the task that the words name from `cm_tool`, and has it done. docs/cmk.md describes the
//! program.
#![tactic(auto)]

use cm_text::{FromRead, FromWrite};
use cm_tool::{
    Job, Stop, Task, line_of_fault, run, shown_words, task, tell, tell_no_example, tell_place,
    tell_unopened,
};
use std::alloc::Global;
use std::env::{self, Env};
use std::fs::File;
use std::io::{ErrorKind, Read, Seek};
use std::process::ExitCode;

/// The task that these words ask for. The text about wrong words quotes them, so it is made for the shown
/// ones: a line feed in a word can't end a line of it.
fn judged(alloc: Global, words: &[String]) -> Result<Task, Stop> {
    let answer = task(alloc, words);
    if !matches!(answer, Err(Stop::Wrong(_))) {
        return answer;
    }
    match task(alloc, &shown_words(alloc, words)?) {
        Err(stop) => Err(stop),
        Ok(_) => answer,
    }
}

/// The task that the program's words ask for.
fn asked<R: Env + AllocGlobal>(rt: &R) -> Result<Task, Stop> {
    match env::args(rt) {
        Ok(words) => {
            let words: Vec<String> = words.collect(rt.alloc())?;
            judged(rt.alloc(), &words)
        }
        Err(error) if error.kind() == ErrorKind::OutOfMemory => Err(Stop::NoMemory),
        Err(_) => {
            let text =
                "error: the command line is not UTF-8; read such a file as 'cmk render < FILE'\n";
            Err(Stop::Wrong(String::from_str(rt.alloc(), text)?))
        }
    }
}

/// Reports where the fault is with which the task on this file ended. The file is rewound and read again. It
/// isn't opened again, because opening a pipe would wait for a writer, and the name may be another file's by
/// then. A file that can't be rewound is only named.
fn tell_where<F: Read + Seek>(rt: &HostRuntime, task: &Task, name: &str, file: &mut F) {
    let alloc = rt.alloc();
    let line = match file.rewind() {
        Ok(()) => line_of_fault(alloc, task, &mut FromRead::new(file)).unwrap_or(None),
        Err(_) => None,
    };
    // The fault itself has been reported.
    let _ = tell_place(alloc, name, line, &mut FromWrite::new(rt.stderr()));
}

/// Reports a file of examples that has none. The file is rewound and read again, so one that can't be rewound
/// isn't reported.
fn tell_whether_none<F: Read + Seek>(rt: &HostRuntime, task: &Task, file: &mut F) {
    if task.job == Job::Examples && file.rewind().is_ok() {
        let (source, errors) = (&mut FromRead::new(file), &mut FromWrite::new(rt.stderr()));
        // The job itself is done.
        let _ = tell_no_example(rt.alloc(), task.limits, source, errors);
    }
}

/// Each read and write is one system call, so a count of bytes written is true.
fn main(rt: HostRuntime) -> ExitCode {
    let alloc = rt.alloc();
    let mut output = FromWrite::new(rt.stdout());
    let mut errors = FromWrite::new(rt.stderr());
    let task = match asked(&rt) {
        Ok(task) => task,
        Err(stop) => return ExitCode::from(tell(&stop, &mut output, &mut errors)),
    };
    let status = match &task.file {
        None => {
            let mut input = FromRead::new(rt.stdin());
            run(alloc, &task, &mut input, &mut output, &mut errors)
        }
        Some(name) => match File::open(&rt, name.as_str()) {
            Ok(mut file) => {
                let mut input = FromRead::new(&mut file);
                let status = run(alloc, &task, &mut input, &mut output, &mut errors);
                match status {
                    0 => tell_whether_none(&rt, &task, &mut file),
                    _ => tell_where(&rt, &task, name, &mut file),
                }
                status
            }
            Err(error) => match format!(in alloc; "{error}") {
                Ok(reason) => tell_unopened(alloc, name, &reason, &mut errors),
                Err(_) => tell(&Stop::NoMemory, &mut output, &mut errors),
            },
        },
    };
    ExitCode::from(status)
}
