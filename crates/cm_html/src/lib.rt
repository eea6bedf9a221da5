//! The tree of a document as HTML and as a listing.
//!
//! Start with [`html`], or with [`write_html`] if the HTML goes to a sink. [`listing`] and [`write_listing`]
//! give the listing. [`Pages`], and the calls that add a part of the HTML to them, are what the crates above
//! use.
//!
//! ```
//! use cm_html::html;
//! use cm_text::NoMemory;
//! use cm_tree::{Doc, has_raw_html};
//! use std::alloc::Global;
//!
//! // The HTML of a document that strangers wrote, or None if it has raw HTML.
//! fn shown(alloc: Global, doc: &Doc) -> Result<Option<String>, NoMemory> {
//!     if has_raw_html(&doc.blocks) {
//!         return Ok(None);
//!     }
//!     Ok(Some(html(alloc, doc)?))
//! }
//! ```
#![tactic(auto)]

mod blocks;
mod elements;
mod escape;
mod fault;
mod forms;
mod inlines;
mod json_strings;
pub mod laws;
mod listings;
mod outgoing;
mod page;
mod pages;
mod phrases;
mod quoting;
mod rendering;
mod search;
mod writing;

pub use blocks::{
    push_block, push_break, push_code, push_heading_end, push_heading_start, push_list_end,
    push_list_start,
};
pub use elements::Element;
pub use fault::HtmlFault;
pub use forms::Form;
pub use inlines::{push_image_end, push_image_start, push_link_start};
pub use listings::{listing, push_listed_block, push_listed_owners};
pub use pages::Pages;
pub use phrases::Phrases;
pub use rendering::{html, write_html, write_listing};
