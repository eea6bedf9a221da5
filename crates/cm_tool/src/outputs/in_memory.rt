//! The document, the HTML, the listing, the JSON and the plain source of a text in memory, without a device.
ghost use Rattle.std.specs.Prelude.{◌≡◌, IfErr, IfOk};
ghost use Rattle.cm_tool.specs.Faults.{fault_of};
ghost use Rattle.cm_tool.specs.Parsing.{Finishes, Makes, TellsFault};
ghost use Rattle.cm_tool.specs.Rewriting.{MakesPlainSource};
ghost use Rattle.cm_tool.specs.Writing.{IsTreeInJson, converted, in_json, listed};
ghost use Rattle.cm_tool.specs.steps.ReadingSteps.{IsOutline};

use crate::fault::Fault;
use crate::outlines::{
    doc_of_outline, html_of_outline, json_of_outline, listing_of_outline, plain_source_of_outline,
};
use crate::reading::Parser;
use cm_block::Outline;
use cm_html::Pages;
use cm_json::JsonText;
use cm_text::Limits;
use cm_tree::Doc;
use std::alloc::Global;

/// The outline of these bytes.
fn outline_of_bytes(alloc: Global, bytes: &[u8], limits: Limits) -> Result<Outline, Fault>
    ensures outline { IfOk result (λ outline. IsOutline limits bytes.now outline) }
    ensures told { IfErr result (λ fault. TellsFault fault (fault_of limits bytes.now)) }
{
    let mut parser = Parser::new(alloc, limits);
    parser.feed(bytes)?;
    parser.outline()
}

/// The document of these bytes, as `read` returns it for a source that has them.
///
/// # Errors
///
/// The text's one fault, or `Fault::NoMemory` if a request for memory was refused.
pub fn doc_of(alloc: Global, bytes: &[u8], limits: Limits) -> Result<Doc, Fault>
    ensures { Finishes result limits bytes.now }
{
    doc_of_outline(alloc, limits, outline_of_bytes(alloc, bytes, limits)?)
}

/// The number of bytes that the HTML of a text of this length usually needs at most.
fn room_for_html(len: usize) -> usize {
    len.saturating_add(len / 2).saturating_add(64)
}

/// The HTML of these bytes, as `convert` writes it for a source that has them. Its pages can be written to a
/// sink, or joined to one string.
///
/// # Errors
///
/// As `doc_of`.
pub fn html_of(alloc: Global, bytes: &[u8], limits: Limits) -> Result<Pages, Fault>
    ensures { Makes (λ pages. pages ≡ converted limits.rules bytes.now) result limits bytes.now }
{
    let room = room_for_html(bytes.len());
    html_of_outline(alloc, limits, outline_of_bytes(alloc, bytes, limits)?, room)
}

/// The listing of these bytes' tree and of the owners of its lines, as the program writes it, in pages.
///
/// # Errors
///
/// As `doc_of`.
pub fn listing_of(alloc: Global, bytes: &[u8], limits: Limits) -> Result<Pages, Fault>
    ensures { Makes (λ pages. pages ≡ listed limits.rules bytes.now) result limits bytes.now }
{
    listing_of_outline(alloc, limits, outline_of_bytes(alloc, bytes, limits)?)
}

/// The JSON of these bytes' tree, as the program writes it, without a line feed at its end.
///
/// # Errors
///
/// As `doc_of`.
pub fn json_of(alloc: Global, bytes: &[u8], limits: Limits) -> Result<JsonText, Fault>
    ensures { Makes (λ json. (json ≡ in_json limits.rules bytes.now) × IsTreeInJson limits.rules bytes.now)
        result limits bytes.now }
{
    json_of_outline(alloc, limits, outline_of_bytes(alloc, bytes, limits)?)
}

/// Plain source of these bytes' tree without its link reference definitions, as `rewrite` writes it for a
/// source that has them.
///
/// # Errors
///
/// As `doc_of`, and `Fault::Unspellable` if the text has no fault and its tree can't be spelled.
pub fn source_of(alloc: Global, bytes: &[u8], limits: Limits) -> Result<String, Fault>
    ensures { MakesPlainSource result limits bytes.now }
{
    let outline = outline_of_bytes(alloc, bytes, limits)?;
    Ok(plain_source_of_outline(alloc, limits, outline)??)
}
