//! The words of a line of a table.

use crate::escapes::unescaped_text;
use crate::trouble::{Trouble, wrong};
use std::alloc::Global;
use std::mem;

/// A word of a line: one between quotation marks, with its escapes resolved, or another, unchanged.
#[derive(Debug, PartialEq, Eq, Drop)]
pub enum Word {
    Text(String),
    Plain(String),
}

impl Word {
    /// Whether it is this word, without quotation marks.
    pub fn is(&self, word: &str) -> bool {
        match self {
            Word::Plain(plain) => plain.as_str() == word,
            Word::Text(_) => false,
        }
    }
}

/// The words so far, and the one that is read.
#[derive(Drop)]
struct Line {
    alloc: Global,
    words: Vec<Word>,
    word: String,
    is_quoted: bool,
    is_escaped: bool,
}

impl Line {
    /// Ends the word that is read.
    fn end_word(&mut self) -> Result<(), Trouble> {
        let word = mem::replace(&mut self.word, String::new(self.alloc));
        if self.is_quoted {
            let text = unescaped_text(self.alloc, word.as_str())?;
            self.words.push(Word::Text(text))?;
        } else if !word.is_empty() {
            self.words.push(Word::Plain(word))?;
        }
        self.is_quoted = false;
        Ok(())
    }

    fn take(&mut self, c: char) -> Result<(), Trouble> {
        match c {
            _ if self.is_escaped => self.is_escaped = false,
            '\\' if self.is_quoted => self.is_escaped = true,
            '"' if self.is_quoted => return self.end_word(),
            '"' => {
                self.end_word()?;
                self.is_quoted = true;
                return Ok(());
            }
            ' ' if !self.is_quoted => return self.end_word(),
            _ => {}
        }
        Ok(self.word.push(c)?)
    }
}

/// The words of a line, which spaces part.
pub fn words(alloc: Global, line: &str) -> Result<Vec<Word>, Trouble> {
    let mut reading = Line {
        alloc,
        words: Vec::new(alloc),
        word: String::new(alloc),
        is_quoted: false,
        is_escaped: false,
    };
    for c in line.chars() {
        reading.take(c)?;
    }
    if reading.is_quoted {
        return Err(wrong(alloc, "a quotation mark is missing"));
    }
    reading.end_word()?;
    Ok(reading.words)
}

/// The number that a word is.
pub fn number(alloc: Global, word: &str) -> Result<usize, Trouble> {
    match word.parse::<usize>() {
        Ok(number) => Ok(number),
        Err(_) => Err(wrong(alloc, "a number is missing")),
    }
}
