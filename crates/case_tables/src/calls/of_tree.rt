//! Calls of `cm_tree`.

use crate::calls::answer::Answer;
use crate::trouble::{Trouble, wrong};
use crate::words::Word;
use cm_tree::Definitions;
use std::alloc::Global;

/// Adds a definition, given by its label, its destination and its title, to the table.
fn add(alloc: Global, table: &mut Definitions, given: &[Word]) -> Result<(), Trouble> {
    let [Word::Text(label), Word::Text(dest), Word::Text(title)] = given else {
        return Err(wrong(alloc, "a definition isn't whole"));
    };
    Ok(table.add(label.as_str(), dest.as_str(), title.as_str())?)
}

/// Adds definitions, three words each, to the table.
fn add_all(alloc: Global, table: &mut Definitions, given: &[Word]) -> Result<(), Trouble> {
    for one in given.chunks(3) {
        add(alloc, table, one)?;
    }
    Ok(())
}

/// The table of definitions, each given by its label, its destination and its title.
fn table(alloc: Global, given: &[Word]) -> Result<Definitions, Trouble> {
    let mut table = Definitions::new(alloc);
    add_all(alloc, &mut table, given)?;
    Ok(table)
}

/// Adds to the answer what the table has under a label: as texts for the call `find`, else as it lends them.
fn show(answer: &mut Answer, table: &Definitions, call: &str, label: &str) -> Result<(), Trouble> {
    if call == "find" {
        answer.shown(&table.find(label)?)
    } else {
        answer.shown(&table.target(label)?)
    }
}

/// Looks up a label in the table of these definitions, and adds to the answer what is found.
fn look_up(answer: &mut Answer, call: &str, label: &str, given: &[Word]) -> Result<(), Trouble> {
    let table = table(answer.alloc, given)?;
    show(answer, &table, call, label)
}

/// Runs the call, if it is one of `cm_tree`: what a table has under a label, as texts or as they are lent.
/// Returns whether it is.
pub fn answers(answer: &mut Answer, name: &str, given: &[Word]) -> Result<bool, Trouble> {
    match (name, given) {
        ("find" | "target", [Word::Text(label), given @ ..]) => {
            look_up(answer, name, label.as_str(), given)?;
            Ok(true)
        }
        _ => Ok(false),
    }
}
