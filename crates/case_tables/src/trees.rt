//! Trees, given by their listings: their HTML, their JSON, how deep they nest, and which of them are equal.

use crate::cases::Case;
use crate::listed::listed;
use crate::spelled;
use crate::trouble::{Trouble, same, wrong};
use cm_html::{HtmlFault, html, listing, write_html, write_listing};
use cm_json::{json, write_json};
use cm_text::Room;
use cm_tree::{Block, Doc, block_depth, inline_depth};
use std::alloc::Global;

/// Writers fail after each byte of an output that is no longer than this.
const SHORT: usize = 200;

const PARTS: [&str; 11] = [
    "tree",
    "html",
    "json",
    "depth",
    "depth_of_inlines",
    "rules",
    "spelled",
    "refused",
    "kept",
    "pushed",
    "reasons",
];

/// How deep the inlines of the first block nest.
fn depth_of_inlines(doc: &Doc) -> usize {
    match doc.blocks.first() {
        Some(Block::Paragraph(content)) => inline_depth(content.as_slice()),
        Some(Block::Heading { content, .. }) => inline_depth(content.as_slice()),
        _ => 0,
    }
}

/// What is written of a tree.
#[derive(Clone, Copy)]
enum Output {
    Html,
    Listing,
    Json,
}

/// Checks that a writer which takes a limited number of bytes, in all and in each call, is reported as it
/// should be.
fn is_written(
    alloc: Global,
    (doc, output, whole): (&Doc, Output, &[u8]),
    capacity: usize,
    at_most: usize,
) -> Result<(), Trouble> {
    let mut room = Room::new(alloc, capacity, at_most)?;
    let answer = match output {
        Output::Html => write_html(alloc, doc, &mut room),
        Output::Listing => write_listing(alloc, doc, &mut room),
        Output::Json => write_json(alloc, doc, &mut room),
    };
    let told = match answer {
        Ok(len) if len == whole.len() => len,
        Err(HtmlFault::WriteFailed { written }) if written < whole.len() => written,
        Err(HtmlFault::NoMemory) => return Err(Trouble::NoMemory),
        _ => return Err(wrong(alloc, "the length told is wrong")),
    };
    let taken = if at_most == 0 { 0 } else { capacity };
    let wanted = taken.min(whole.len());
    if told != wanted {
        return Err(wrong(alloc, "what went out is told wrong"));
    }
    let front = whole.get(..wanted).unwrap_or(whole);
    same(alloc, "output", front, room.taken())
}

/// Checks that the tree is written so, also where writes fail.
fn has_output(alloc: Global, doc: &Doc, output: Output, whole: &[u8]) -> Result<(), Trouble> {
    if whole.len() > SHORT {
        return is_written(alloc, (doc, output, whole), whole.len(), whole.len());
    }
    for capacity in 0..whole.len().saturating_add(1) {
        for at_most in [0, 1, SHORT] {
            is_written(alloc, (doc, output, whole), capacity, at_most)?;
        }
    }
    Ok(())
}

/// Checks that the tree is the JSON in this line, which has no escapes of the table.
fn has_json(alloc: Global, doc: &Doc, line: &str) -> Result<(), Trouble> {
    let whole = line.strip_suffix('\n').unwrap_or(line).as_bytes();
    same(alloc, "JSON", whole, json(alloc, doc)?.as_bytes())?;
    has_output(alloc, doc, Output::Json, whole)
}

/// The tree of a case, if it is as its case expects.
pub fn agrees(alloc: Global, case: &Case) -> Result<Doc, Trouble> {
    case.has_only(&PARTS)?;
    let text = case.lines("tree").unwrap_or("");
    let doc = listed(alloc, text)?;
    let got = listing(alloc, &doc)?;
    same(alloc, "listing", text.as_bytes(), got.as_bytes())?;
    has_output(alloc, &doc, Output::Listing, text.as_bytes())?;
    if let Some(whole) = case.bytes("html")? {
        same(
            alloc,
            "HTML",
            whole.as_slice(),
            html(alloc, &doc)?.as_bytes(),
        )?;
        has_output(alloc, &doc, Output::Html, whole.as_slice())?;
    }
    if let Some(line) = case.lines("json") {
        has_json(alloc, &doc, line)?;
    }
    let depth = block_depth(doc.blocks.as_slice());
    let of_inlines = depth_of_inlines(&doc);
    if depth != case.number("depth")?.unwrap_or(depth)
        || of_inlines != case.number("depth_of_inlines")?.unwrap_or(of_inlines)
    {
        return Err(wrong(alloc, "a depth is wrong"));
    }
    spelled::agrees(alloc, case, &doc.blocks)?;
    Ok(doc)
}

/// Reports that two documents are wrongly found different, or equal.
fn mistaken(alloc: Global, doc: &Doc, other: &Doc) -> Result<(), Trouble> {
    let text = listing(alloc, doc)?;
    let other = listing(alloc, other)?;
    Err(Trouble::Told(format!(in alloc; "equal or not:\n{text}and:\n{other}")?))
}

/// Checks that a copy of the document is equal to the one at its place, and to no other.
fn is_distinct(alloc: Global, docs: &[Doc], at: usize, doc: &Doc) -> Result<(), Trouble> {
    let copy = doc.clone()?;
    for (place, other) in docs.iter().enumerate() {
        if (*other == copy) != (place == at) {
            return mistaken(alloc, doc, other);
        }
    }
    Ok(())
}

/// Checks that each document is equal to its own copy, and to no other.
pub fn are_distinct(alloc: Global, docs: &[Doc]) -> Result<(), Trouble> {
    for (at, doc) in docs.iter().enumerate() {
        is_distinct(alloc, docs, at, doc)?;
    }
    Ok(())
}
