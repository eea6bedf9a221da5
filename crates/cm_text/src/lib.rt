//! The text of a document: its limits, its lines in whatever pieces it comes, its characters, escapes and
//! references, and the devices that bytes come from and go to. It knows nothing of blocks and inlines.
//!
//! Start with [`Limits`] and [`Rules`], which each reading takes, and with [`LineFeed`] for the lines of a
//! text.
//!
//! - Devices: [`Source`], [`Sink`], [`FromRead`], [`FromWrite`], and in memory [`Pieces`] and [`Room`].
//! - Lines: [`LineFeed`], [`Line`], [`View`], [`indent`] and [`strip`].
//! - What is read in a text: [`reference_at`], [`unescape`], [`fold_label`], [`next_markup`],
//!   [`is_ascii_punct`], [`is_punct`] and [`is_space`]; and which addresses are followed: [`is_followed`].
//! - Faults: [`TextFault`], [`WriteFailed`], [`DeviceFailed`] and [`NoMemory`].
//!
//! The rest is what the crates above use.
//!
//! ```
//! use cm_text::{Limits, Line, LineFeed, Rules, TextFault};
//! use std::alloc::Global;
//!
//! // The standard limits, with strikethrough.
//! fn with_strikethrough() -> Limits {
//!     Limits::standard().with_rules(Rules::profile().with_strike(true))
//! }
//!
//! // The first line of a text that comes in two pieces.
//! fn first_line(alloc: Global, front: &[u8], rest: &[u8]) -> Result<Option<Line>, TextFault> {
//!     let mut feed = LineFeed::new(alloc, with_strikethrough());
//!     feed.push(front)?;
//!     feed.push(rest)?;
//!     feed.end()?;
//!     Ok(feed.next_line())
//! }
//! ```
#![tactic(auto)]

mod addresses;
mod characters;
mod columns;
mod device;
mod endings;
mod fault;
mod feed;
mod indentation;
mod labels;
pub mod laws;
mod limits;
mod line_buffer;
mod lines;
mod looks;
mod names;
mod parts;
mod references;
mod replaced;
mod rules;
mod search;
mod text_lines;
mod texts;
mod uncounted;
mod unescaping;
mod unread;
mod utf8;
mod view;
mod writing;

pub use addresses::{follows, is_followed};
pub use characters::{is_ascii_punct, is_punct, is_punct_by, is_space};
pub use device::{DeviceFailed, FromRead, FromWrite, NoMemory, Pieces, Room, Sink, Source};
pub use fault::TextFault;
pub use feed::LineFeed;
pub use indentation::{indent, strip};
pub use labels::{fold_label, label_number, plain_label_number};
pub use limits::Limits;
pub use line_buffer::LineBuffer;
pub use lines::Line;
pub use looks::{Looks, Rest};
pub use parts::cut_at;
pub use references::{Chars, reference, reference_at};
pub use replaced::{Replaced, push_replaced};
pub use rules::Rules;
pub use search::{ByteKind, leading_spaces, next_marked, next_markup, next_of};
pub use text_lines::{TextLines, begins_text};
pub use texts::text_of;
pub use unescaping::{unescape, unescape_or_lend};
pub use view::View;
pub use writing::{WriteFailed, write_all};
