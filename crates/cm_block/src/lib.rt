//! One pass over the lines of a document, with a stack of open blocks. It makes the blocks, the owner of each
//! line and the definitions, and reads no inlines.
//!
//! Start with [`BlockParser`]: pass it each line, then call `finish`. `to_blocks` and `to_owners` of
//! [`Outline`] return values of the tree. The crates above use its fields.
//!
//! ```
//! use cm_block::{BlockFault, BlockParser};
//! use cm_text::{Limits, Line};
//! use cm_tree::{Block, Items};
//! use std::alloc::Global;
//!
//! // The blocks of these lines. Each paragraph and heading has its source as its one inline.
//! fn blocks(alloc: Global, lines: &[Line]) -> Result<Items<Block>, BlockFault> {
//!     let mut parser = BlockParser::new(alloc, Limits::standard());
//!     for line in lines {
//!         parser.line(line)?;
//!     }
//!     Ok(parser.finish()?.to_blocks(alloc)?)
//! }
//! ```
#![tactic(auto)]

mod closed_leaf;
mod containers;
mod counted_line;
mod fault;
mod infos;
pub mod laws;
mod leaf_block;
mod leaf_kind;
mod leaf_text;
mod level;
mod line_tests;
mod open_leaf;
mod outline;
mod owner_runs;
mod owners;
mod parser;
mod room;
mod stack;
mod text_runs;

pub use fault::BlockFault;
pub use owner_runs::LineOwners;
pub use parser::{BlockParser, Outline};
