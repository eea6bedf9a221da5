//! From the bytes of a CommonMark text, in pieces of any length, to its document, its HTML and its plain
//! source; and what the program `cmk` does.
//!
//! Start with [`html_of`], [`doc_of`], [`listing_of`], [`json_of`] or [`source_of`] for a text in memory.
//!
//! - From a source to a sink: [`convert`], [`read`], [`rewrite`] and [`read_text`].
//! - For input in pieces: [`Parser`].
//! - For files of examples: [`examples`] and [`examples_by`], which return a [`Report`].
//! - [`Fault`] has each fault, with the line that the program prints.
//!
//! The program consists of [`task`], [`run`], and what reports more: [`tell`], [`tell_unopened`],
//! [`line_of_fault`], [`tell_place`] and [`tell_no_example`]. `cm_command` reads the command line, so no
//! other crate is checked together with `clap`.
//!
//! ```
//! use cm_text::Limits;
//! use cm_tool::{Fault, doc_of, html_of};
//! use cm_tree::has_raw_html;
//! use std::alloc::Global;
//!
//! // The HTML of a text.
//! fn html(alloc: Global, text: &[u8]) -> Result<String, Fault> {
//!     Ok(html_of(alloc, text, Limits::standard())?.into_string()?)
//! }
//!
//! // Whether a text has raw HTML.
//! fn is_raw(alloc: Global, text: &[u8]) -> Result<bool, Fault> {
//!     let doc = doc_of(alloc, text, Limits::standard())?;
//!     Ok(has_raw_html(&doc.blocks))
//! }
//! ```
#![tactic(auto)]

mod example_files;
mod fault;
mod fault_places;
pub mod laws;
mod outlines;
mod outputs;
mod reading;
mod running;
mod shown;

pub use cm_command::{Job, Stop, Task, task};
pub use example_files::{Difference, Report, examples, examples_by};
pub use fault::Fault;
pub use fault_places::line_of_fault;
pub use outputs::{convert, doc_of, html_of, json_of, listing_of, read, rewrite, source_of};
pub use reading::{Parser, read_text};
pub use running::{run, tell, tell_no_example, tell_place, tell_unopened};
pub use shown::shown_words;
