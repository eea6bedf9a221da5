//! Calls on one line: the name of a function, its arguments, `=`, and its result. The start of `text.calls`
//! says how such a table is written.

mod of_command_line;

use case_tables::calls::{self, Answer};
use case_tables::trouble::{Trouble, wrong};
use case_tables::words::{Word, words};
use std::alloc::Global;

/// The result of a call.
fn called(alloc: Global, asked: &[Word]) -> Result<Answer, Trouble> {
    let Some((Word::Plain(name), given)) = asked.split_first() else {
        return Err(wrong(alloc, "a call has no name"));
    };
    let mut answer = Answer::new(alloc);
    let name = name.as_str();
    let is_known = calls::answers(&mut answer, name, given)?
        || of_command_line::answers(&mut answer, name, given)?;
    if is_known {
        return Ok(answer);
    }
    Err(wrong(alloc, "no call has this name and such words"))
}

/// Checks that the call of a line gives its result.
pub(crate) fn agrees(alloc: Global, line: &str) -> Result<(), Trouble> {
    let (mut asked, mut wanted) = (Vec::new(alloc), Vec::new(alloc));
    let mut is_answer = false;
    for word in words(alloc, line)? {
        if is_answer {
            wanted.push(word)?;
        } else if word.is("=") {
            is_answer = true;
        } else {
            asked.push(word)?;
        }
    }
    let got = called(alloc, asked.as_slice())?.words;
    if got == wanted {
        return Ok(());
    }
    Err(Trouble::Told(format!(in alloc; "{line}\nwanted: {wanted:?}\ngot: {got:?}\n")?))
}
