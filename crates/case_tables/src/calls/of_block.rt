//! Calls of `cm_block`.

use crate::calls::answer::Answer;
use crate::lines::lines_of;
use crate::trouble::{Trouble, wrong};
use crate::words::{Word, number};
use cm_block::{BlockFault, BlockParser, Outline};
use cm_text::{Limits, Line};

/// The fault with which a parser refuses a line, if it does.
fn refusal(parser: &mut BlockParser, line: &Line) -> Option<BlockFault> {
    parser.line(line).err()
}

/// The outline of the lines so far, or the fault that was met.
fn finished(parser: BlockParser) -> Result<Outline, BlockFault> {
    parser.finish()
}

/// Adds the number of a line and the fault with which it is refused, if it is, to the answer.
fn tell(answer: &mut Answer, at: usize, refusal: Option<BlockFault>) -> Result<(), Trouble> {
    if let Some(fault) = refusal {
        answer.number(at)?;
        answer.shown(&fault)?;
    }
    Ok(())
}

/// Passes the lines of a text to a parser, and adds to the answer the number of each line that it refuses,
/// counted from 0, and the fault.
fn read(answer: &mut Answer, parser: &mut BlockParser, text: &str) -> Result<(), Trouble> {
    let lines = lines_of(answer.alloc, text)?;
    for (at, line) in lines.as_slice().iter().enumerate() {
        let refusal = refusal(parser, line);
        tell(answer, at, refusal)?;
    }
    Ok(())
}

/// The outline of a text, by the standard limits.
fn outline(answer: &mut Answer, text: &str) -> Result<Outline, Trouble> {
    let mut parser = BlockParser::new(answer.alloc, Limits::standard());
    read(answer, &mut parser, text)?;
    match finished(parser) {
        Ok(outline) => Ok(outline),
        Err(_) => Err(wrong(answer.alloc, "a line is refused")),
    }
}

/// Adds to the answer the owners of an outline's lines.
fn show_owners(answer: &mut Answer, outline: &Outline) -> Result<(), Trouble> {
    answer.shown(&outline.to_owners(answer.alloc)?)
}

/// Adds to the answer the top-level blocks of an outline, chunk by chunk, and the owners of its lines.
fn show_chunks(answer: &mut Answer, outline: &Outline) -> Result<(), Trouble> {
    for chunk in outline.blocks.chunks() {
        let (top, _inside) = chunk.contents();
        answer.shown(&top)?;
    }
    show_owners(answer, outline)
}

/// The blocks at the top level of a text, chunk by chunk, and the owners of its lines.
fn blocks(answer: &mut Answer, text: &str) -> Result<(), Trouble> {
    let outline = outline(answer, text)?;
    show_chunks(answer, &outline)
}

/// Adds to the answer the blocks of an outline as blocks of the tree, followed by the owners of its lines.
fn show_tree(answer: &mut Answer, outline: &Outline) -> Result<(), Trouble> {
    answer.shown(&outline.to_blocks(answer.alloc)?)?;
    show_owners(answer, outline)
}

/// The blocks of a text's outline as blocks of the tree, and the owners of its lines.
fn given(answer: &mut Answer, text: &str) -> Result<(), Trouble> {
    let outline = outline(answer, text)?;
    show_tree(answer, &outline)
}

/// Adds to the answer what an outline defines under a label, or that it defines nothing.
fn show_definition(answer: &mut Answer, label: &str, outline: &Outline) -> Result<bool, Trouble> {
    answer.shown(&outline.definitions.find(label)?)?;
    Ok(true)
}

/// What a text defines under a label.
fn defined(answer: &mut Answer, label: &str, text: &str) -> Result<bool, Trouble> {
    let outline = outline(answer, text)?;
    show_definition(answer, label, &outline)
}

/// Passes the lines of a text to a parser, and adds to the answer what the parser then holds.
fn show_held(answer: &mut Answer, parser: &mut BlockParser, text: &str) -> Result<(), Trouble> {
    read(answer, parser, text)?;
    answer.shown(parser)
}

/// What a parser with the standard limits holds after the lines of a text.
fn held(answer: &mut Answer, text: &str) -> Result<(), Trouble> {
    let mut parser = BlockParser::new(answer.alloc, Limits::standard());
    show_held(answer, &mut parser, text)
}

/// Passes the lines of a text to a parser, and adds to the answer the parser's limits.
fn show_limits(answer: &mut Answer, parser: &mut BlockParser, text: &str) -> Result<(), Trouble> {
    read(answer, parser, text)?;
    answer.shown(&parser.limits())
}

/// Adds to the answer the fault met at the end, or the word `none`.
fn show_fault(answer: &mut Answer, fault: Option<BlockFault>) -> Result<(), Trouble> {
    match fault {
        Some(fault) => answer.shown(&fault),
        None => answer.word("none"),
    }
}

/// Adds to the answer the faults of lines under these limits, the parser's limits, and the fault at the end.
fn refused_by(answer: &mut Answer, limits: Limits, text: &str) -> Result<(), Trouble> {
    let mut parser = BlockParser::new(answer.alloc, limits);
    show_limits(answer, &mut parser, text)?;
    show_fault(answer, finished(parser).err())
}

/// The limits of a parser, the faults of lines with this limit of quotes and items, and the fault at the end.
fn refused(answer: &mut Answer, limit: &str, text: &str) -> Result<bool, Trouble> {
    let Some(limits) = Limits::new(100, number(answer.alloc, limit)?, 1) else {
        return Err(wrong(answer.alloc, "the limits are out of range"));
    };
    refused_by(answer, limits, text)?;
    Ok(true)
}

/// Whether a text's lines are read at least `least` and at most `most` times.
fn tests(answer: &mut Answer, least: &str, most: &str, text: &str) -> Result<bool, Trouble> {
    let least = number(answer.alloc, least)? as u128;
    let most = number(answer.alloc, most)? as u128;
    let tests = outline(answer, text)?.tests;
    answer.truth(least <= tests && tests <= most)?;
    Ok(true)
}

/// A call with a text alone, if it is one.
fn of_text(answer: &mut Answer, name: &str, text: &str) -> Result<bool, Trouble> {
    match name {
        "blocks" => blocks(answer, text)?,
        "given" => given(answer, text)?,
        "held" => held(answer, text)?,
        _ => return Ok(false),
    }
    Ok(true)
}

/// Runs the call, if it is one of `cm_block`. Returns whether it is.
pub fn answers(answer: &mut Answer, name: &str, given: &[Word]) -> Result<bool, Trouble> {
    match given {
        [Word::Text(text)] => of_text(answer, name, text.as_str()),
        [Word::Text(label), Word::Text(text)] if name == "defined" => {
            defined(answer, label.as_str(), text.as_str())
        }
        [Word::Plain(limit), Word::Text(text)] if name == "refused" => {
            refused(answer, limit.as_str(), text.as_str())
        }
        [Word::Plain(least), Word::Plain(most), Word::Text(text)] if name == "tests" => {
            tests(answer, least.as_str(), most.as_str(), text.as_str())
        }
        _ => Ok(false),
    }
}
