//! What `cm_tool` writes to a writer that takes only a given number of bytes.
//!
//! Each call with a rich contract is in a function of its own without a contract. Otherwise the checker
//! carries what the contract says through every path after the call, and nothing there needs it.

use case_tables::cuts::Counted;
use cm_html::listing;
use cm_text::{Limits, NoMemory, Room, Sink};
use cm_tool::{
    Fault, Job, Stop, Task, convert, doc_of, html_of, json_of, listing_of, read_text, rewrite, run,
    source_of, tell, tell_no_example,
};
use std::alloc::Global;

/// Writers fail after each byte of an output that is no longer than this.
pub(crate) const SHORT: usize = 200;

/// Readers fail after each byte of a text that is no longer than this.
pub(crate) const READ: usize = 1_000;

/// Room for what is written: a number of bytes, in all and in each call.
#[derive(Clone, Copy)]
pub(crate) struct Space {
    pub(crate) capacity: usize,
    pub(crate) at_most: usize,
}

impl Space {
    /// How much of an output of this length it takes.
    pub(crate) fn taken(self, len: usize) -> usize {
        if self.at_most == 0 {
            0
        } else {
            self.capacity.min(len)
        }
    }
}

/// More than an output of this length needs.
pub(crate) fn ample(len: usize) -> Space {
    let capacity = len.saturating_add(1_000);
    Space {
        capacity,
        at_most: capacity,
    }
}

/// What was taken, the exit status, and how many reads were made.
#[derive(Drop)]
pub(crate) struct Written {
    pub(crate) output: Room,
    pub(crate) errors: Room,
    pub(crate) status: u8,
    pub(crate) reads: usize,
}

/// Does a task as the program does, with a text in these pieces, after which the reader may fail.
pub(crate) fn ran(
    alloc: Global,
    task: &Task,
    (pieces, fails): (Vec<Vec<u8>>, bool),
    (output, errors): (Space, Space),
) -> Result<Written, NoMemory> {
    let mut output = Room::new(alloc, output.capacity, output.at_most)?;
    let mut errors = Room::new(alloc, errors.capacity, errors.at_most)?;
    let again = pieces.clone()?;
    let mut source = Counted::new(pieces, fails);
    let status = run(alloc, task, &mut source, &mut output, &mut errors);
    let reads = source.reads();
    if status == 0 && task.job == Job::Examples {
        tell_whether_none(alloc, task.limits, (again, fails), &mut errors);
    }
    Ok(Written {
        output,
        errors,
        status,
        reads,
    })
}

/// Reports a file of examples that has none, as the program does after its task.
fn tell_whether_none(
    alloc: Global,
    limits: Limits,
    (pieces, fails): (Vec<Vec<u8>>, bool),
    errors: &mut Room,
) {
    let mut source = Counted::new(pieces, fails);
    if errors.failures() < u64::MAX {
        // The task itself is done.
        let _ = tell_no_example(alloc, limits, &mut source, errors);
    }
}

/// Reports why there is no task.
pub(crate) fn told(
    alloc: Global,
    stop: &Stop,
    (output, errors): (Space, Space),
) -> Result<Written, NoMemory> {
    let mut output = Room::new(alloc, output.capacity, output.at_most)?;
    let mut errors = Room::new(alloc, errors.capacity, errors.at_most)?;
    let status = tell(stop, &mut output, &mut errors);
    Ok(Written {
        output,
        errors,
        status,
        reads: 0,
    })
}

/// What was taken of the output, how many reads were made, and the result.
#[derive(Drop)]
pub(crate) struct Page {
    pub(crate) output: Room,
    pub(crate) reads: usize,
    pub(crate) answer: Result<usize, Fault>,
}

/// What `rewrite`, or for any other job `convert`, returns for a text in these pieces, after which the reader
/// may fail.
pub(crate) fn answered(
    alloc: Global,
    job: Job,
    limits: Limits,
    (pieces, fails): (Vec<Vec<u8>>, bool),
    space: Space,
) -> Result<Page, NoMemory> {
    let mut output = Room::new(alloc, space.capacity, space.at_most)?;
    let mut source = Counted::new(pieces, fails);
    let answer = match job {
        Job::Rewrite => rewrite(alloc, &mut source, &mut output, limits),
        _ => convert(alloc, &mut source, &mut output, limits),
    };
    let reads = source.reads();
    Ok(Page {
        output,
        reads,
        answer,
    })
}

/// What `read_text` returns for such a text, and how many reads were made.
pub(crate) fn text_read(
    alloc: Global,
    limits: Limits,
    (pieces, fails): (Vec<Vec<u8>>, bool),
) -> (Result<String, Fault>, usize) {
    let mut source = Counted::new(pieces, fails);
    let answer = read_text(alloc, &mut source, limits);
    (answer, source.reads())
}

/// The listing of a text that lies in memory, made without its document, and with it where that differs.
fn listed(alloc: Global, text: &[u8], limits: Limits) -> Result<String, Fault> {
    let mut listed = listing_of(alloc, text, limits)?.into_string()?;
    let of_document = listing(alloc, &doc_of(alloc, text, limits)?)?;
    if of_document != listed {
        listed.push_str("but its document is listed as\n")?;
        listed.push_str(of_document.as_str())?;
    }
    Ok(listed)
}

/// The HTML of a text that lies in memory, the listing of its tree, a line with its JSON, or its plain
/// source.
pub(crate) fn in_memory(
    alloc: Global,
    job: Job,
    text: &[u8],
    limits: Limits,
) -> Result<String, Fault> {
    match job {
        Job::Render => Ok(html_of(alloc, text, limits)?.into_string()?),
        Job::Rewrite => source_of(alloc, text, limits),
        Job::TreeJson => {
            let mut json = json_of(alloc, text, limits)?.into_string()?;
            json.push('\n')?;
            Ok(json)
        }
        _ => listed(alloc, text, limits),
    }
}
