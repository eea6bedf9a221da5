//! The HTML and the listing of a document, as strings and into sinks.
ghost use Rattle.std.specs.Prelude.{◌≡◌, ℕ, ◌-◌, ◌^◌, ◌<◌, ◌++◌, IfOk, OnOk, string_bytes};
ghost use Rattle.cm_html.specs.Html.{html_of};
ghost use Rattle.cm_html.specs.Listing.{listing_of};
ghost use Rattle.cm_html.specs.Writing.{WritesText};

use crate::blocks::push_block;
use crate::fault::HtmlFault;
use crate::listings::push_document;
use crate::pages::Pages;
use cm_text::{NoMemory, Sink};
use cm_tree::{Block, Doc};
use std::alloc::{AllocError, Global};

/// The HTML of a document. Memory may run out.
pub fn html(alloc: Global, doc: &Doc) -> Result<String, NoMemory>
    ensures { IfOk result (λ html. string_bytes html ≡ html_of doc.now.blocks) }
{
    let mut out = Pages::unparted(alloc);
    push_parted(&mut out, doc.blocks.as_slice())?;
    Ok(out.into_string()?)
}

/// Adds the HTML of the blocks of the top level, and turns the page between them.
fn push_parted(out: &mut Pages, blocks: &[Block]) -> Result<(), AllocError>
    ensures { OnOk result (out.new ≡ out.old ++ html_of blocks.now) }
{
    for block in blocks {
        push_block(out, block)?;
        out.turn()?;
    }
    Ok(())
}

/// The HTML of a document, in pages.
fn html_pages(alloc: Global, doc: &Doc) -> Result<Pages, NoMemory>
    ensures { IfOk result (λ html. html ≡ html_of doc.now.blocks) }
{
    let mut out = Pages::new(alloc)?;
    push_parted(&mut out, doc.blocks.as_slice())?;
    Ok(out)
}

/// The listing of a document, in pages.
fn listing_pages(alloc: Global, doc: &Doc) -> Result<Pages, NoMemory>
    ensures { IfOk result (λ listing. listing ≡ listing_of doc.now.blocks doc.now.owners) }
{
    let mut out = Pages::new(alloc)?;
    push_document(&mut out, doc)?;
    Ok(out)
}

/// Writes the HTML of a document, and returns its length in bytes.
///
/// On `HtmlFault::WriteFailed` the first `written` bytes of the HTML were written, and on
/// `HtmlFault::NoMemory` nothing.
pub fn write_html<W: Sink>(alloc: Global, doc: &Doc, sink: &mut W) -> Result<usize, HtmlFault>
    requires { (W.seen sink.old).failed < 2 ^ 64 - 1 }
    ensures { WritesText result (html_of doc.now.blocks) (W.seen sink.old) (W.seen sink.new) }
{
    html_pages(alloc, doc)?.write(sink)
}

/// Writes the listing of a document, and returns its length in bytes.
///
/// On `HtmlFault::WriteFailed` the first `written` bytes of the listing were written, and on
/// `HtmlFault::NoMemory` nothing.
pub fn write_listing<W: Sink>(alloc: Global, doc: &Doc, sink: &mut W) -> Result<usize, HtmlFault>
    requires { (W.seen sink.old).failed < 2 ^ 64 - 1 }
    ensures { WritesText result (listing_of doc.now.blocks doc.now.owners)
        (W.seen sink.old) (W.seen sink.new) }
{
    listing_pages(alloc, doc)?.write(sink)
}
