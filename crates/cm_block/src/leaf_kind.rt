//! The kinds of leaf blocks that lines continue (CommonMark 0.31.2, chapter 4).

use cm_scan::{FenceKind, HtmlKind};

/// Which leaf block is open. Its texts are stored separately.
#[derive(Clone, Copy, Debug)]
pub(crate) enum LeafKind {
    /// No leaf is open.
    Nothing,
    /// A run of text: definitions, and then a paragraph or a heading. Its text is its source.
    Run,
    /// Indented code. Its text is its lines, separated by line feeds.
    Code,
    /// Fenced code: what closes it, and the columns that each line loses. Its text is its lines, each with a
    /// line feed.
    Fence { kind: FenceKind, columns: usize },
    /// HTML. Its text is its lines, separated by line feeds.
    Html { kind: HtmlKind },
}
