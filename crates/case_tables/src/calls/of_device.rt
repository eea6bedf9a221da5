//! Calls of the devices of `cm_text`.

use crate::calls::answer::Answer;
use crate::trouble::Trouble;
use crate::words::{Word, number};
use cm_text::{FromRead, FromWrite, Pieces, Room, Sink, Source, write_all};
use std::alloc::Global;

/// More failures than any call makes.
const MANY: u64 = 1_000;

/// How many reads are made.
const READS: usize = 4;

/// What reads of two bytes return, and how many of them failed.
fn reads<R: Source>(answer: &mut Answer, source: &mut R) -> Result<(), Trouble> {
    for _ in 0..READS {
        let mut buf = [0; 2];
        if source.failures() < MANY {
            let read = source.read(&mut buf);
            answer.shown(&read)?;
            let front = buf.get(..read.unwrap_or(0)).unwrap_or(&buf);
            answer.bytes(front)?;
        }
    }
    answer.shown(&source.failures())
}

/// What writes of these texts return, and how many of them failed.
fn writes<W: Sink>(answer: &mut Answer, sink: &mut W, texts: &[Word]) -> Result<(), Trouble> {
    for text in texts {
        let (Word::Text(text) | Word::Plain(text)) = text;
        if sink.failures() < MANY {
            answer.shown(&sink.write(text.as_bytes()))?;
        }
    }
    answer.shown(&sink.failures())
}

/// These texts as the pieces of a source.
fn pieces(alloc: Global, texts: &[Word]) -> Result<Vec<Vec<u8>>, Trouble> {
    let mut pieces = Vec::new(alloc);
    for text in texts {
        let (Word::Text(text) | Word::Plain(text)) = text;
        pieces.push(Vec::from_slice(alloc, text.as_bytes())?)?;
    }
    Ok(pieces)
}

/// The reads of a source over a reader.
fn from_read(answer: &mut Answer, text: &str) -> Result<bool, Trouble> {
    reads(answer, &mut FromRead::new(text.as_bytes()))?;
    Ok(true)
}

/// The reads of a source of pieces, which fails after them or ends.
fn from_pieces(answer: &mut Answer, end: &str, texts: &[Word]) -> Result<bool, Trouble> {
    let pieces = pieces(answer.alloc, texts)?;
    reads(answer, &mut Pieces::new(pieces, end == "fails"))?;
    Ok(true)
}

/// The writes to a sink over a writer, and what was written.
fn from_write(answer: &mut Answer, texts: &[Word]) -> Result<bool, Trouble> {
    let mut bytes = Vec::new(answer.alloc);
    writes(answer, &mut FromWrite::new(&mut bytes), texts)?;
    answer.bytes(bytes.as_slice())?;
    Ok(true)
}

/// The writes to a room of this capacity, which takes a limited number of bytes in each call, and what was
/// written.
fn to_room(
    answer: &mut Answer,
    capacity: &str,
    at_most: &str,
    texts: &[Word],
) -> Result<bool, Trouble> {
    let capacity = number(answer.alloc, capacity)?;
    let at_most = number(answer.alloc, at_most)?;
    let mut room = Room::new(answer.alloc, capacity, at_most)?;
    writes(answer, &mut room, texts)?;
    answer.bytes(room.taken())?;
    Ok(true)
}

/// The write of a whole text to such a room, and what was written.
fn whole(answer: &mut Answer, capacity: &str, at_most: &str, text: &str) -> Result<bool, Trouble> {
    let capacity = number(answer.alloc, capacity)?;
    let at_most = number(answer.alloc, at_most)?;
    let mut room = Room::new(answer.alloc, capacity, at_most)?;
    answer.shown(&write_all(&mut room, text.as_bytes()))?;
    answer.bytes(room.taken())?;
    Ok(true)
}

/// A call with a room, given by its capacity and the most that it takes at once, if it is one.
fn of_room(answer: &mut Answer, name: &str, given: &[Word]) -> Result<bool, Trouble> {
    let [Word::Plain(capacity), Word::Plain(at_most), texts @ ..] = given else {
        return Ok(false);
    };
    match (name, texts) {
        ("room", texts) => to_room(answer, capacity.as_str(), at_most.as_str(), texts),
        ("write_all", [Word::Text(text)]) => {
            whole(answer, capacity.as_str(), at_most.as_str(), text.as_str())
        }
        _ => Ok(false),
    }
}

/// Runs the call, if it is one of a device. Returns whether it is.
pub fn answers(answer: &mut Answer, name: &str, given: &[Word]) -> Result<bool, Trouble> {
    match (name, given) {
        ("from_write", texts) => from_write(answer, texts),
        ("from_read", [Word::Text(text)]) => from_read(answer, text.as_str()),
        ("pieces", [Word::Plain(end), texts @ ..]) => from_pieces(answer, end.as_str(), texts),
        _ => of_room(answer, name, given),
    }
}
