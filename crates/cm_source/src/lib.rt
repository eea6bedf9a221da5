//! Plain CommonMark source, spelled so that it reads back as the tree (CommonMark 0.31.2).
//!
//! Start with [`spell`], or [`spell_by`] for other rules. [`spellable`] and [`spellable_by`] say whether a
//! tree can be spelled, without taking memory. A [`Speller`] spells one block after another, so the whole
//! tree needn't be held. [`without_definitions`] removes the link reference definitions, which can't be
//! spelled, from a tree; [`block_without_definitions`] removes them from one block.
//!
//! ```
//! use cm_source::{SourceFault, spell, without_definitions};
//! use cm_tree::Doc;
//! use std::alloc::Global;
//!
//! // The plain source of a document without its link reference definitions.
//! fn source(alloc: Global, doc: Doc) -> Result<String, SourceFault> {
//!     spell(alloc, &without_definitions(alloc, doc.blocks))
//! }
//! ```
#![tactic(auto)]

mod blocks;
mod definitions;
mod fault;
mod html_alone;
mod inline_refusals;
mod inlines;
pub mod laws;
pub mod reading_laws;
mod refusals;
mod search;
mod source_lines;
mod speller;
mod texts;
mod why;

pub use definitions::{block_without_definitions, without_definitions};
pub use fault::SourceFault;
pub use refusals::{spellable, spellable_by};
pub use speller::{Speller, spell, spell_by};
pub use why::Why;
