//! What an outline becomes: the document, its HTML, its listing, its JSON, its plain source; and the line of
//! its fault.
ghost use Rattle.std.specs.Prelude.{◌≡◌, ℕ, List, IfOk, option_and_then};
ghost use Rattle.cm_tool.specs.FaultPlaces.{line_of_fault};
ghost use Rattle.cm_tool.specs.Faults.{fault_of};
ghost use Rattle.cm_tool.specs.Parsing.{Finishes, Makes};
ghost use Rattle.cm_tool.specs.Rewriting.{kept_tree};
ghost use Rattle.cm_tool.specs.Writing.{converted, listed, in_json, IsTreeInJson};
ghost use Rattle.cm_tool.specs.steps.ReadingSteps.{IsOutline};
ghost use Rattle.cm_tool.specs.steps.PlainSources.{Spelled};

mod document;
mod faults;
mod html;
mod json;
mod leaf_walk;
mod listing;
mod plain_source;

use crate::fault::Fault;
use cm_block::Outline;
use cm_html::Pages;
use cm_json::JsonText;
use cm_source::Why;
use cm_text::{Limits, NoMemory};
use cm_tree::Doc;
use faults::first_line_of_leaf;
use leaf_walk::LeafWalk;
use std::alloc::Global;

/// The document of an outline.
///
/// # Errors
///
/// `InlinesTooDeep` with the first leaf whose inlines nest deeper than the limit, `NoMemory` if a request for
/// memory was refused.
pub(crate) fn doc_of_outline(alloc: Global, limits: Limits, outline: Outline) -> Result<Doc, Fault>
    ensures { (bytes : List ℕ) → IsOutline limits bytes outline → Finishes result limits bytes }
{
    let blocks = LeafWalk::new(alloc, limits, outline.definitions, outline.blocks).all_blocks()?;
    let owners = outline.owners.to_items(alloc)?;
    Ok(Doc { blocks, owners })
}

/// The HTML of an outline's document in pages. The first page has room for this number of bytes, up to a
/// whole page.
///
/// # Errors
///
/// As `doc_of_outline`.
pub(crate) fn html_of_outline(
    alloc: Global,
    limits: Limits,
    outline: Outline,
    room: usize,
) -> Result<Pages, Fault>
    ensures { (bytes : List ℕ) → IsOutline limits bytes outline
        → Makes (λ pages. pages ≡ converted limits.rules bytes) result limits bytes }
{
    // The HTML is written to the memory of the owners, which it doesn't show.
    drop(outline.owners);
    LeafWalk::new(alloc, limits, outline.definitions, outline.blocks).html(room)
}

/// The listing of an outline's document, in pages.
///
/// # Errors
///
/// As `doc_of_outline`.
pub(crate) fn listing_of_outline(
    alloc: Global,
    limits: Limits,
    outline: Outline,
) -> Result<Pages, Fault>
    ensures { (bytes : List ℕ) → IsOutline limits bytes outline
        → Makes (λ pages. pages ≡ listed limits.rules bytes) result limits bytes }
{
    LeafWalk::new(alloc, limits, outline.definitions, outline.blocks).listing(&outline.owners)
}

/// The JSON of an outline's document.
///
/// # Errors
///
/// As `doc_of_outline`.
pub(crate) fn json_of_outline(
    alloc: Global,
    limits: Limits,
    outline: Outline,
) -> Result<JsonText, Fault>
    ensures { (bytes : List ℕ) → IsOutline limits bytes outline
        → Makes (λ json. (json ≡ in_json limits.rules bytes) × IsTreeInJson limits.rules bytes)
        result limits bytes }
{
    LeafWalk::new(alloc, limits, outline.definitions, outline.blocks).json(&outline.owners)
}

/// The plain source of an outline's document without its definitions, or why it can't be spelled.
///
/// # Errors
///
/// As `doc_of_outline`.
pub(crate) fn plain_source_of_outline(
    alloc: Global,
    limits: Limits,
    outline: Outline,
) -> Result<Result<String, Why>, Fault>
    ensures { (bytes : List ℕ) → IsOutline limits bytes outline
        → Makes (Spelled limits.rules (kept_tree limits.rules bytes)) result limits bytes }
{
    drop(outline.owners);
    LeafWalk::new(alloc, limits, outline.definitions, outline.blocks).plain_source(limits.rules())
}

/// The line of an outline's first leaf whose inlines nest deeper than the limit.
pub(crate) fn line_in_outline(
    alloc: Global,
    limits: Limits,
    outline: Outline,
) -> Result<Option<usize>, NoMemory>
    ensures { (bytes : List ℕ) → IsOutline limits bytes outline → IfOk result (λ line.
        line ≡ option_and_then (line_of_fault limits.rules bytes) (fault_of limits bytes)) }
{
    match LeafWalk::new(alloc, limits, outline.definitions, outline.blocks).pass_all() {
        Ok(()) => Ok(None),
        Err(Fault::InlinesTooDeep { leaf }) => {
            Ok(first_line_of_leaf(outline.owners.to_items(alloc)?.as_slice(), leaf))
        }
        Err(_) => Err(NoMemory),
    }
}
