//! The inlines of a leaf (CommonMark 0.31.2, chapter 6).
//!
//! Start with [`inlines`], or [`inlines_by`] for other rules. [`InlineReader::inlines`] reads one leaf after
//! another in the same memory. The rest is what the crates above use.
//!
//! ```
//! use cm_inline::{InlineFault, inlines};
//! use cm_tree::{Definitions, Inline, Items};
//! use std::alloc::Global;
//!
//! // The inlines of a paragraph's source, in which `[home]` links to `/`.
//! fn read(alloc: Global, source: &str) -> Result<Items<Inline>, InlineFault> {
//!     let mut definitions = Definitions::new(alloc);
//!     definitions.add("home", "/", "")?;
//!     let (content, _steps) = inlines(alloc, source, &definitions, 100)?;
//!     Ok(content)
//! }
//! ```
#![tactic(auto)]

mod alternative_text;
mod atoms;
mod brackets;
mod code;
mod delimiter_runs;
mod fault;
mod flanking;
mod html;
mod html_links;
mod html_runs;
mod html_texts;
mod inlines_of_marks;
pub mod laws;
mod leaf;
mod links;
mod made;
mod marks;
mod missing_ends;
mod nesting;
mod pairing;
mod reading;
mod runs;
mod sizes;
mod spare;

pub use fault::InlineFault;
pub use reading::{InlineReader, Steps, inlines, inlines_by, is_one_text};
