#![tactic(auto)]
//! The tree of a document, how deep it nests, blocks whose inlines haven't
//! been read, and the table of its definitions.
//!
//! Start with [`Doc`]: its blocks are the tree, its owners say what each line belongs to. The nodes are
//! [`Block`] and [`Inline`]. [`block_depth`], [`inline_depth`] and [`has_raw_html`] examine a tree, and
//! [`Definitions`] is the table of link reference definitions. [`RawTree`] with what it is made of is
//! what the crates above use.
//!
//! A tree is made of plain enums over [`Items`], [`Text`] and [`BoxedText`]. Contracts
//! see the first, a `Vec`, as a list. They see the others, a `String` and a text on the
//! heap, as bytes. So two trees are equal exactly where they look alike, and a clone is
//! equal to its original. A clause can write a tree out, as that of `title` here.
//!
//! ```
//! ghost use Rattle.std.specs.Prelude.{◌≡◌, [], ◌∷◌, IfOk};
//! ghost use Rattle.cm_tree.specs.declared.tree.Block.TheVariants as block;
//! ghost use Rattle.cm_tree.specs.declared.tree.Inline.TheVariants as inline;
//!
//! use cm_tree::{Block, Inline, Items, Text};
//! use std::alloc::{AllocError, Global};
//!
//! // A heading of the first level.
//! fn title(alloc: Global, text: &str) -> Result<Block, AllocError>
//!     ensures { IfOk result (λ made. made ≡ block.Heading 1 (inline.Text text.now ∷ [])) }
//! {
//!     let text = Text::from_str(alloc, text)?;
//!     Ok(Block::Heading {
//!         level: 1,
//!         content: Items::from(vec![in alloc; Inline::Text(text)]?),
//!     })
//! }
//!
//! // Whether a heading of the first level is among the blocks, or in quotes.
//! #[cycle(has_title)]
//! fn has_title(blocks: &Items<Block>) -> bool {
//!     for block in blocks {
//!         if is_title(block) {
//!             return true;
//!         }
//!     }
//!     false
//! }
//!
//! #[cycle(has_title)]
//! fn is_title(block: &Block) -> bool {
//!     match block {
//!         Block::Heading { level, .. } => *level == 1,
//!         Block::Quote(blocks) => has_title(blocks),
//!         _ => false,
//!     }
//! }
//! ```
//!
//! A walk over a tree is two functions that call each other: one over a list of nodes, with a `for`, and one
//! over a node, with a `match` that passes its children on. (With a closure in their place, as in
//! `blocks.iter().any(..)`, one would have to prove by hand that the walk ends.)

mod boxed_text;
mod clones;
mod definitions;
mod depth;
mod entries;
mod items;
mod kept_texts;
mod label_index;
pub mod laws;
mod leaf_blocks;
mod link_target;
mod raw_blocks;
mod raw_html;
mod raw_tree;
mod text;
mod tree;

pub use boxed_text::BoxedText;
pub use definitions::Definitions;
pub use depth::{block_depth, inline_depth};
pub use items::Items;
pub use link_target::LinkTarget;
pub use raw_blocks::{RawBlock, RawBlocks, RawItem};
pub use raw_html::has_raw_html;
pub use raw_tree::{RawChunk, RawTree};
pub use text::Text;
pub use tree::{Block, Doc, Inline, ListKind, Owner};
