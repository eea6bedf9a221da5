//! Escapes in the tables: for bytes that are hard to read, and for long repetitions.

use crate::trouble::{Trouble, wrong};
use std::alloc::Global;

/// What the next character belongs to.
#[derive(Clone, Copy, Drop)]
enum Place {
    Plain,
    Escape,
    /// The first digit of `\x` is still to come, or has come.
    Byte,
    ByteWith(u32),
    /// Of `\u{..}`: the brace is still to come; the digits so far.
    Scalar,
    ScalarWith(u32),
    /// Of `\{..|`: the digits so far.
    Count(usize),
}

/// The bytes so far.
#[derive(Drop)]
struct Unescaping {
    alloc: Global,
    bytes: Vec<u8>,
    place: Place,
    /// In `\{N|..}`: N, and where in the bytes the repeated part starts.
    repeated: Option<(usize, usize)>,
}

impl Unescaping {
    fn bad(&self) -> Trouble {
        wrong(self.alloc, "an escape of the table can't be read")
    }

    fn put(&mut self, c: char) -> Result<(), Trouble> {
        let mut text = String::new(self.alloc);
        text.push(c)?;
        self.bytes.extend_from_slice(text.as_bytes())?;
        self.place = Place::Plain;
        Ok(())
    }

    /// Appends the repeated part, until it is there `count` times.
    fn repeat(&mut self, count: usize, from: usize) -> Result<(), Trouble> {
        let part = match self.bytes.get(from..) {
            Some(part) => Vec::from_slice(self.alloc, part)?,
            None => return Err(self.bad()),
        };
        if count == 0 {
            self.bytes.truncate(from);
        }
        for _ in 1..count {
            self.bytes.extend_from_slice(part.as_slice())?;
        }
        self.repeated = None;
        Ok(())
    }

    fn plain(&mut self, c: char) -> Result<(), Trouble> {
        match (c, self.repeated) {
            ('\\', _) => {
                self.place = Place::Escape;
                Ok(())
            }
            ('}', Some((count, from))) => self.repeat(count, from),
            _ => self.put(c),
        }
    }

    fn escape(&mut self, c: char) -> Result<(), Trouble> {
        match c {
            't' => return self.put('\t'),
            'n' => return self.put('\n'),
            'r' => return self.put('\r'),
            '\\' | '"' | '}' | '@' => return self.put(c),
            'x' => self.place = Place::Byte,
            'u' => self.place = Place::Scalar,
            '{' => self.place = Place::Count(0),
            '\n' => self.place = Place::Plain,
            _ => return Err(self.bad()),
        }
        Ok(())
    }

    fn digit(&self, c: char) -> Result<u32, Trouble> {
        c.to_digit(16).ok_or(self.bad())
    }

    /// A second digit of `\x`.
    fn byte(&mut self, high: u32, c: char) -> Result<(), Trouble> {
        let low = self.digit(c)?;
        let value = u8::try_from(high.wrapping_mul(16).wrapping_add(low));
        self.bytes.push(value.unwrap_or(0))?;
        self.place = Place::Plain;
        Ok(())
    }

    /// A digit of `\u{..}`, or its end.
    fn scalar(&mut self, value: u32, c: char) -> Result<(), Trouble> {
        if c == '}' {
            let c = char::from_u32(value).ok_or(self.bad())?;
            return self.put(c);
        }
        let digit = self.digit(c)?;
        self.place = Place::ScalarWith(value.wrapping_mul(16).wrapping_add(digit));
        Ok(())
    }

    /// A digit of `\{..|`, or its end.
    fn count(&mut self, count: usize, c: char) -> Result<(), Trouble> {
        if c == '|' {
            self.repeated = Some((count, self.bytes.len()));
            self.place = Place::Plain;
            return Ok(());
        }
        let digit = c.to_digit(10).ok_or(self.bad())?;
        let count = count.wrapping_mul(10).wrapping_add(digit as usize);
        self.place = Place::Count(count);
        Ok(())
    }

    fn take(&mut self, c: char) -> Result<(), Trouble> {
        match self.place {
            Place::Plain => return self.plain(c),
            Place::Escape => return self.escape(c),
            Place::Byte => self.place = Place::ByteWith(self.digit(c)?),
            Place::ByteWith(high) => return self.byte(high, c),
            Place::Scalar if c == '{' => self.place = Place::ScalarWith(0),
            Place::Scalar => return Err(self.bad()),
            Place::ScalarWith(value) => return self.scalar(value, c),
            Place::Count(count) => return self.count(count, c),
        }
        Ok(())
    }
}

/// The bytes that a text of a table represents. `\t`, `\n`, `\r`, `\\`, `\"` are as in Rust, `\}` and `\@`
/// are `}` and `@`, `\x80` is a byte, `\u{FFFD}` a character, and `\{100|ab}` a hundred times `ab`. A
/// backslash at the end of a line removes the line feed.
pub fn unescaped(alloc: Global, text: &str) -> Result<Vec<u8>, Trouble> {
    let mut reading = Unescaping {
        alloc,
        bytes: Vec::new(alloc),
        place: Place::Plain,
        repeated: None,
    };
    for c in text.chars() {
        reading.take(c)?;
    }
    match (reading.place, reading.repeated) {
        (Place::Plain, None) => Ok(reading.bytes),
        _ => Err(reading.bad()),
    }
}

/// The text that a text of a table represents.
pub fn unescaped_text(alloc: Global, text: &str) -> Result<String, Trouble> {
    match String::from_utf8(unescaped(alloc, text)?) {
        Ok(text) => Ok(text),
        Err(_) => Err(wrong(alloc, "a text of the table isn't UTF-8")),
    }
}
