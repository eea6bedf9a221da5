//! Cases of several lines. `blocks.cases` describes the form.

use crate::escapes::unescaped;
use crate::trouble::{Trouble, wrong};
use crate::words::number;
use std::alloc::Global;

/// A line `@name rest`, and the lines below it.
#[derive(Drop)]
struct Part {
    name: String,
    rest: String,
    body: String,
}

/// A case: its title, and its parts.
#[derive(Drop)]
pub struct Case {
    alloc: Global,
    title: String,
    parts: Vec<Part>,
}

impl Case {
    pub fn title(&self) -> &str {
        self.title.as_str()
    }

    fn part(&self, name: &str) -> Option<&Part> {
        self.parts.iter().find(|part| part.name.as_str() == name)
    }

    pub fn has(&self, name: &str) -> bool {
        self.part(name).is_some()
    }

    /// Checks that it has no parts but those with these names, and none of them twice.
    pub fn has_only(&self, names: &[&str]) -> Result<(), Trouble> {
        for part in &self.parts {
            let name = part.name.as_str();
            let same = self
                .parts
                .iter()
                .filter(|other| other.name.as_str() == name);
            let is_known = names.iter().any(|known| *known == name);
            if !is_known || same.count() > 1 {
                return Err(wrong(self.alloc, "a part is unknown here, or stands twice"));
            }
        }
        Ok(())
    }

    /// The rest of the line of this part.
    pub fn rest(&self, name: &str) -> Option<&str> {
        Some(self.part(name)?.rest.as_str())
    }

    /// The number in the line of this part.
    pub fn number(&self, name: &str) -> Result<Option<usize>, Trouble> {
        match self.rest(name) {
            Some(rest) => Ok(Some(number(self.alloc, rest)?)),
            None => Ok(None),
        }
    }

    /// The lines of this part, unchanged.
    pub fn lines(&self, name: &str) -> Option<&str> {
        Some(self.part(name)?.body.as_str())
    }

    /// The bytes that the lines of this part represent.
    pub fn bytes(&self, name: &str) -> Result<Option<Vec<u8>>, Trouble> {
        match self.lines(name) {
            Some(lines) => Ok(Some(unescaped(self.alloc, lines)?)),
            None => Ok(None),
        }
    }
}

/// The cases so far, and the one that is read.
#[derive(Drop)]
struct Reading {
    alloc: Global,
    cases: Vec<Case>,
    open: Option<Case>,
}

impl Reading {
    fn begin(&mut self, title: &str) -> Result<(), Trouble> {
        if self.open.is_some() {
            return Err(wrong(self.alloc, "a case isn't ended"));
        }
        self.open = Some(Case {
            alloc: self.alloc,
            title: String::from_str(self.alloc, title)?,
            parts: Vec::new(self.alloc),
        });
        Ok(())
    }

    fn end(&mut self) -> Result<(), Trouble> {
        match self.open.take() {
            Some(case) => Ok(self.cases.push(case)?),
            None => Err(wrong(self.alloc, "no case is open")),
        }
    }

    /// A line that starts a part.
    fn part(&mut self, name: &str, rest: &str) -> Result<(), Trouble> {
        let Some(case) = &mut self.open else {
            return Err(wrong(self.alloc, "no case is open"));
        };
        Ok(
            case.parts.push(Part {
                name: String::from_str(self.alloc, name)?,
                rest: String::from_str(self.alloc, rest)?,
                body: String::new(self.alloc),
            })?,
        )
    }

    /// A line of a part, or one between cases.
    fn text(&mut self, line: &str) -> Result<(), Trouble> {
        match &mut self.open {
            Some(case) => match case.parts.last_mut() {
                Some(part) => {
                    part.body.push_str(line)?;
                    Ok(part.body.push('\n')?)
                }
                None => Err(wrong(self.alloc, "a case begins without a part")),
            },
            None if line.is_empty() || line.starts_with('#') => Ok(()),
            None => Err(wrong(self.alloc, "a line stands between cases")),
        }
    }

    fn line(&mut self, line: &str) -> Result<(), Trouble> {
        let Some(order) = line.strip_prefix('@') else {
            return self.text(line);
        };
        let (name, rest) = order.split_once(' ').unwrap_or((order, ""));
        match name {
            "case" => self.begin(rest),
            "end" => self.end(),
            _ => self.part(name, rest),
        }
    }
}

/// The cases of a table.
pub fn cases(alloc: Global, table: &str) -> Result<Vec<Case>, Trouble> {
    let mut reading = Reading {
        alloc,
        cases: Vec::new(alloc),
        open: None,
    };
    for line in table.lines() {
        reading.line(line)?;
    }
    match reading.open {
        Some(_) => Err(wrong(alloc, "the last case isn't ended")),
        None => Ok(reading.cases),
    }
}
