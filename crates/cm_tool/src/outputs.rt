//! What a text becomes: the calls that read a source to its end and return its document, or write one output
//! of it to a sink; and those for a text in memory, or in pieces.
//!
//! Nothing is written before the output is whole: the last leaf may nest too deep. Each output is written
//! with `cm_text::write_all`, and one definition, `Writes`, says what such a call returns.
ghost use Rattle.std.specs.Prelude.{◌≡◌, ℕ, ◌-◌, ◌^◌, ◌<◌, List};
ghost use Rattle.std.specs.Io.KnownBytes.{Consumes};
ghost use Rattle.cm_tool.specs.Reading.{Reads};
ghost use Rattle.cm_tool.specs.Rewriting.{Rewrites, WritesBack};
ghost use Rattle.cm_tool.specs.Writing.{Converts, Lists, WritesJson};

mod finishing;
mod in_memory;

use crate::fault::Fault;
use crate::outlines::{
    doc_of_outline, html_of_outline, json_of_outline, listing_of_outline, plain_source_of_outline,
};
use crate::reading::read_outline;
use cm_text::{Limits, Sink, Source, write_all};
use cm_tree::Doc;
pub use in_memory::{doc_of, html_of, json_of, listing_of, source_of};
use std::alloc::Global;

/// Reads a source to its end and returns the document.
///
/// A fault that the bytes settle ends the reading: no read is made after it. So does a failed read.
pub fn read<R: Source>(alloc: Global, source: &mut R, limits: Limits) -> Result<Doc, Fault>
    requires { (R.seen source.old).failed < 2 ^ 64 - 1 }
    ensures { (bytes : List ℕ) × Consumes (R.seen source.old).remaining (R.seen source.new).remaining bytes
        × Reads result limits bytes (R.seen source.old) (R.seen source.new) }
{
    let outline = read_outline(alloc, source, limits)?;
    doc_of_outline(alloc, limits, outline)
}

/// Writes the HTML of the source's text, and returns its length in bytes.
///
/// Nothing is written before the whole text has been read. A fault that the bytes settle ends the reading: no
/// read is made after it. On `Fault::WriteFailed` the first `written` bytes of the HTML were written, on
/// `Fault::NoMemory` a prefix of it, and on any other fault nothing.
pub fn convert<R: Source, W: Sink>(
    alloc: Global,
    source: &mut R,
    sink: &mut W,
    limits: Limits,
) -> Result<usize, Fault>
    requires reads { (R.seen source.old).failed < 2 ^ 64 - 1 }
    requires writes { (W.seen sink.old).failed < 2 ^ 64 - 1 }
    ensures { (bytes : List ℕ) × Consumes (R.seen source.old).remaining (R.seen source.new).remaining bytes
        × Converts result limits bytes (R.seen source.old) (R.seen source.new)
        (W.seen sink.old) (W.seen sink.new) }
{
    let outline = read_outline(alloc, source, limits)?;
    let html = html_of_outline(alloc, limits, outline, usize::MAX)?;
    Ok(html.write(sink)?)
}

/// Writes the listing of the source's tree and of the owners of its lines, and returns its length in bytes.
///
/// Nothing is written before the listing is complete. A fault that the bytes settle ends the reading: no read
/// is made after it. On `Fault::WriteFailed` the first `written` bytes of the listing were written, and on
/// any other fault nothing.
pub(crate) fn list<R: Source, W: Sink>(
    alloc: Global,
    source: &mut R,
    sink: &mut W,
    limits: Limits,
) -> Result<usize, Fault>
    requires reads { (R.seen source.old).failed < 2 ^ 64 - 1 }
    requires writes { (W.seen sink.old).failed < 2 ^ 64 - 1 }
    ensures { (bytes : List ℕ) × Consumes (R.seen source.old).remaining (R.seen source.new).remaining bytes
        × Lists result limits bytes (R.seen source.old) (R.seen source.new)
        (W.seen sink.old) (W.seen sink.new) }
{
    let outline = read_outline(alloc, source, limits)?;
    let listing = listing_of_outline(alloc, limits, outline)?;
    Ok(listing.write(sink)?)
}

/// Writes the source's tree as JSON, followed by a line feed, and returns its length in bytes.
///
/// Nothing is written before the JSON is complete. A fault that the bytes settle ends the reading: no
/// read is made after it. On `Fault::WriteFailed` the first `written` bytes of the line were written, and
/// on any other fault nothing.
pub(crate) fn write_json<R: Source, W: Sink>(
    alloc: Global,
    source: &mut R,
    sink: &mut W,
    limits: Limits,
) -> Result<usize, Fault>
    requires reads { (R.seen source.old).failed < 2 ^ 64 - 1 }
    requires writes { (W.seen sink.old).failed < 2 ^ 64 - 1 }
    ensures { (bytes : List ℕ) × Consumes (R.seen source.old).remaining (R.seen source.new).remaining bytes
        × WritesJson result limits bytes (R.seen source.old) (R.seen source.new)
        (W.seen sink.old) (W.seen sink.new) }
{
    let outline = read_outline(alloc, source, limits)?;
    let mut json = json_of_outline(alloc, limits, outline)?;
    json.push_line_feed()?;
    Ok(json.write(sink)?)
}

/// Writes plain source of the source's tree without its link reference definitions, and returns its length in
/// bytes.
///
/// Nothing is written before the whole source is spelled. A fault that the bytes settle ends the reading: no
/// read is made after it. On `Fault::WriteFailed` the first `written` bytes of the source were written, and
/// on any other fault nothing.
pub fn rewrite<R: Source, W: Sink>(
    alloc: Global,
    source: &mut R,
    sink: &mut W,
    limits: Limits,
) -> Result<usize, Fault>
    requires reads { (R.seen source.old).failed < 2 ^ 64 - 1 }
    requires writes { (W.seen sink.old).failed < 2 ^ 64 - 1 }
    ensures exact { (bytes : List ℕ)
        × Consumes (R.seen source.old).remaining (R.seen source.new).remaining bytes
        × Rewrites result limits bytes (R.seen source.old) (R.seen source.new)
        (W.seen sink.old) (W.seen sink.new) }
    // Which trees are spelled, and how, is in `exact` alone.
    ensures back { (bytes : List ℕ)
        × Consumes (R.seen source.old).remaining (R.seen source.new).remaining bytes
        × WritesBack result limits bytes (R.seen source.old) (R.seen source.new)
        (W.seen sink.old) (W.seen sink.new) }
{
    let outline = read_outline(alloc, source, limits)?;
    let text = plain_source_of_outline(alloc, limits, outline)??;
    write_all(sink, text.as_bytes())?;
    Ok(text.len())
}
