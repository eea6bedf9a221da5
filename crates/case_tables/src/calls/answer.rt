//! The result of a call, as the words that a table has for it.

use crate::trouble::{Trouble, shown};
use crate::words::Word;
use std::alloc::Global;
use std::fmt;

/// The words so far.
#[derive(Drop)]
pub struct Answer {
    pub alloc: Global,
    pub words: Vec<Word>,
}

impl Answer {
    pub fn new(alloc: Global) -> Answer {
        Answer {
            alloc,
            words: Vec::new(alloc),
        }
    }

    /// A text between quotation marks.
    pub fn text(&mut self, text: &str) -> Result<(), Trouble> {
        let text = String::from_str(self.alloc, text)?;
        Ok(self.words.push(Word::Text(text))?)
    }

    /// The text of these bytes.
    pub fn bytes(&mut self, bytes: &[u8]) -> Result<(), Trouble> {
        self.text(shown(bytes))
    }

    /// What a value is, as `{:?}` shows it, between quotation marks.
    pub fn shown<T: fmt::Debug>(&mut self, value: &T) -> Result<(), Trouble> {
        let text = format!(in self.alloc; "{value:?}")?;
        Ok(self.words.push(Word::Text(text))?)
    }

    /// A word, unchanged.
    pub fn word(&mut self, word: &str) -> Result<(), Trouble> {
        let word = String::from_str(self.alloc, word)?;
        Ok(self.words.push(Word::Plain(word))?)
    }

    pub fn number(&mut self, number: usize) -> Result<(), Trouble> {
        let word = format!(in self.alloc; "{number}")?;
        Ok(self.words.push(Word::Plain(word))?)
    }

    pub fn truth(&mut self, is_true: bool) -> Result<(), Trouble> {
        self.word(if is_true { "yes" } else { "no" })
    }

    /// A place, or that there is none.
    pub fn place(&mut self, place: Option<usize>) -> Result<(), Trouble> {
        match place {
            Some(place) => self.number(place),
            None => self.word("none"),
        }
    }

    /// A text and the place where it ends, or that there is none.
    pub fn slice(&mut self, slice: Option<(&str, usize)>) -> Result<(), Trouble> {
        match slice {
            Some((text, end)) => {
                self.text(text)?;
                self.number(end)
            }
            None => self.word("none"),
        }
    }
}
