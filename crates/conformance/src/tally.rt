//! How many cases of a table come out.

use crate::examples::examples;
use crate::texts::Tries;
use crate::{calls, commands, texts};
use case_tables::cases::{Case, cases};
use case_tables::trees;
use case_tables::trouble::Trouble;
use cm_text::{NoMemory, Rules};
use std::alloc::Global;

/// The cases so far, and what is reported about those that differ.
#[derive(Drop)]
pub(crate) struct Tally {
    alloc: Global,
    tries: Tries,
    total: usize,
    differ: Vec<String>,
}

impl Tally {
    /// How many cases there are.
    pub(crate) fn total(&self) -> usize {
        self.total
    }

    /// How many of them come out.
    pub(crate) fn agree(&self) -> usize {
        self.total.saturating_sub(self.differ.len())
    }

    /// What is reported about the others.
    pub(crate) fn differ(&self) -> &[String] {
        self.differ.as_slice()
    }

    /// Counts a case, and keeps what is reported about it under its title.
    fn count(&mut self, title: &str, answer: Result<(), Trouble>) -> Result<(), NoMemory> {
        self.total = self.total.saturating_add(1);
        match answer {
            Ok(()) => Ok(()),
            Err(Trouble::NoMemory) => Err(NoMemory),
            Err(Trouble::Told(text)) => {
                let told = format!(in self.alloc; "{title}\n{text}")?;
                match self.differ.push(told) {
                    Ok(()) => Ok(()),
                    Err(_) => Err(NoMemory),
                }
            }
        }
    }

    /// Each example by itself, as a text is tried.
    fn examples(&mut self, rules: Rules, file: &str) -> Result<(), Trouble> {
        for example in &examples(self.alloc, file)? {
            let title = format!(in self.alloc; "example {}", self.total.saturating_add(1))?;
            self.count(title.as_str(), example.agrees(rules, self.tries))?;
        }
        Ok(())
    }

    fn cases(&mut self, table: &str) -> Result<(), Trouble> {
        let mut docs = Vec::new(self.alloc);
        for case in &cases(self.alloc, table)? {
            let answer = self.case(case, &mut docs);
            self.count(case.title(), answer)?;
        }
        if !docs.is_empty() {
            let answer = trees::are_distinct(self.alloc, docs.as_slice());
            self.count("trees that differ", answer)?;
        }
        Ok(())
    }

    /// Judges a case by the part that says what it is of.
    fn case(&self, case: &Case, docs: &mut Vec<cm_tree::Doc>) -> Result<(), Trouble> {
        if case.has("words") {
            return commands::agrees(self.alloc, self.tries, case);
        }
        if case.has("input") {
            return texts::agrees(self.alloc, self.tries, case);
        }
        Ok(docs.push(trees::agrees(self.alloc, case)?)?)
    }

    fn calls(&mut self, table: &str) -> Result<(), Trouble> {
        for line in table.lines() {
            if !line.is_empty() && !line.starts_with('#') {
                self.count("call", calls::agrees(self.alloc, line))?;
            }
        }
        Ok(())
    }
}

/// How many cases of the table with this name come out.
pub(crate) fn tally_of(
    alloc: Global,
    tries: Tries,
    name: &str,
    table: &str,
) -> Result<Tally, NoMemory> {
    let mut tally = Tally {
        alloc,
        tries,
        total: 0,
        differ: Vec::new(alloc),
    };
    let read = match name.rsplit_once('.') {
        Some((_, "cases")) => tally.cases(table),
        Some((_, "calls")) => tally.calls(table),
        Some(("older", _)) => tally.examples(Rules::older(), table),
        _ => tally.examples(Rules::profile(), table),
    };
    match read {
        Ok(()) => Ok(tally),
        answer => {
            tally.count(name, answer)?;
            Ok(tally)
        }
    }
}
