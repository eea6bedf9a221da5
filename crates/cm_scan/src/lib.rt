//! The definitions of CommonMark's block structure and inlines (`specs/`), and the scanners of their forms.
//! Each scanner takes a text and a place in it. It returns what it read there and where that ends, or None.
//! Only line feeds end lines in such a text: a carriage return is a control character like any other.
//!
//! Start with the scanner of the form that you need.
//!
//! - Lines: [`thematic`], [`atx`], [`underline`], [`fence`], [`fence_end`], [`html_start`],
//!   [`html_end`], [`quote_marker`] and [`item_marker`].
//! - Link reference definitions: [`label`], [`destination`], [`title`] and [`definition`].
//! - Inlines: [`autolink`], [`raw_html`] and [`code_span`].
//!
//! [`autolink_by`], [`html_start_by`] and [`raw_html_by`] are the same by any rules. The
//! rest is what the crates above use.
//!
//! ```
//! use cm_scan::{atx, autolink};
//!
//! // The content of the heading on this line.
//! fn heading(line: &str) -> Option<&str> {
//!     let (heading, _end) = atx(line, 0)?;
//!     Some(heading.content)
//! }
//!
//! // Whether the whole text is an autolink.
//! fn is_autolink(text: &str) -> bool {
//!     match autolink(text, 0) {
//!         Some((_link, end)) => end == text.len(),
//!         None => false,
//!     }
//! }
//! ```
#![tactic(auto)]

mod autolink_contents;
mod autolinks;
pub mod block_laws;
mod characters;
mod code_spans;
pub mod cut_laws;
mod gaps;
mod html_blocks;
mod inline_html;
pub mod inline_laws;
pub mod laws;
mod line_forms;
mod links;
mod markers;
mod plain_spans;
mod plain_tags;
pub mod rule_laws;
pub mod span_laws;
mod tags;
mod words;

pub use autolink_contents::Autolink;
pub use autolinks::{AutolinkRead, autolink, autolink_by, autolink_in};
pub use characters::{first_character, last_character};
pub use code_spans::{after_backticks, code_span, next_backticks};
pub use gaps::{after_gap, is_blank_next};
pub use html_blocks::{HtmlKind, html_end, html_start, html_start_by};
pub use inline_html::{after_raw_html, holds_from, raw_html, raw_html_by};
pub use line_forms::{
    AtxHeading, FenceKind, OpeningFence, atx, fence, fence_end, quote_marker, thematic, underline,
};
pub use links::{LinkDefinition, definition, destination, is_next, label, title};
pub use markers::{ItemMarker, MOST_DIGITS, bullet_kind, is_same_kind, item_marker};
pub use words::{after_run, is_blank_text, trim_end, trim_end_spaces};
