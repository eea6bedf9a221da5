//! What is read: the source of a leaf, and what its inlines depend on besides.
ghost use Rattle.std.specs.Prelude.{◌<◌, ◌^◌, length};

use cm_tree::Definitions;
use std::alloc::Global;

/// A leaf's source, whose places have 32 bits, with the document's definitions, and the greatest depth that
/// the inlines may have.
#[derive(Clone, Copy)]
pub(crate) struct Leaf<'a> {
    pub(crate) source: &'a str,
    pub(crate) definitions: &'a Definitions,
    pub(crate) limit: usize,
    pub(crate) alloc: Global,
    pub(crate) ghost short: { length source.now < 2 ^ 32 },
}
