//! The tree of a document (CommonMark 0.31.2).
use crate::boxed_text::BoxedText;
use crate::items::Items;
use crate::text::Text;

/// An inline (chapter 6). In each text, destination and title, references and backslash escapes are resolved;
/// a title that is absent is empty.
#[derive(Debug, Drop, PartialEq, Eq)]
pub enum Inline {
    /// Text as it is read (6.9 Textual content).
    Text(Text),
    /// A code span, without its backticks (6.1 Code spans).
    Code(Text),
    /// Raw HTML, an open or closing tag, a comment, an instruction, a declaration or CDATA, as in the source
    /// (6.6 Raw HTML).
    Html(Text),
    /// A line ending that is shown as one or as a space (6.8 Soft line breaks).
    Soft,
    /// A line ending that breaks the line (6.7 Hard line breaks).
    Hard,
    /// Emphasis (6.2 Emphasis and strong emphasis).
    Emph(Items<Inline>),
    /// Strong emphasis (6.2 Emphasis and strong emphasis).
    Strong(Items<Inline>),
    /// Text that is struck through, which is this project's own extension.
    Strike(Items<Inline>),
    /// A link or an autolink (6.3 Links, 6.5 Autolinks).
    Link {
        /// Its destination.
        dest: BoxedText,
        /// Its title, or nothing.
        title: BoxedText,
        /// Its text.
        content: Items<Inline>,
    },
    /// An image (6.4 Images).
    Image {
        /// Its address.
        dest: BoxedText,
        /// Its title, or nothing.
        title: BoxedText,
        /// Its description.
        content: Items<Inline>,
    },
}

/// What marks the items of a list (5.2 List items). Items with another mark start another list.
#[derive(Clone, Copy, Debug, PartialEq, Eq)]
pub enum ListKind {
    /// A bullet list of `-`.
    Dash,
    /// A bullet list of `+`.
    Plus,
    /// A bullet list of `*`.
    Star,
    /// An ordered list with `.` after its numbers.
    Dot {
        /// The number of the first item.
        start: u32,
    },
    /// An ordered list with `)` after its numbers.
    Paren {
        /// The number of the first item.
        start: u32,
    },
}

/// A block (chapters 4 and 5). Its information, destination and title are resolved: references and backslash
/// escapes became their characters. A label is as in the source.
#[derive(Debug, Drop, PartialEq, Eq)]
pub enum Block {
    /// A paragraph (4.8 Paragraphs).
    Paragraph(Items<Inline>),
    /// An ATX or setext heading (4.2 ATX headings, 4.3 Setext headings).
    Heading {
        /// From 1 to 6.
        level: u8,
        /// What it says.
        content: Items<Inline>,
    },
    /// An indented or fenced code block (4.4 Indented code blocks, 4.5 Fenced code blocks).
    Code {
        /// The info string of a fence, or nothing.
        info: Text,
        /// Its lines, each with a line feed.
        text: Text,
    },
    /// An HTML block (4.6 HTML blocks).
    Html {
        /// Its lines, each with a line feed, as in the source.
        text: Text,
    },
    /// A thematic break (4.1 Thematic breaks).
    Break,
    /// A link reference definition (4.7 Link reference definitions).
    Definition {
        /// Its label without the brackets, as in the source.
        label: Text,
        /// Where links by it lead to.
        dest: Text,
        /// Their title, or nothing.
        title: Text,
    },
    /// A block quote (5.1 Block quotes).
    Quote(Items<Block>),
    /// A list (5.3 Lists).
    List {
        /// What marks its items.
        kind: ListKind,
        /// Whether paragraphs in its items are shown without paragraph tags.
        tight: bool,
        /// The blocks of each item (5.2 List items).
        items: Items<Items<Block>>,
    },
}

/// What a line of a document belongs to.
#[derive(Clone, Copy, Debug, PartialEq, Eq)]
pub enum Owner {
    /// The leaf block with this number. Leaves count from 1 in the order of the document.
    Leaf(usize),
    /// No leaf: a container's marker was taken from the line, and what was left of it is blank.
    Marker,
    /// No leaf: the line is blank.
    Blank,
}

/// A document.
#[derive(Debug, Drop, PartialEq, Eq)]
pub struct Doc {
    /// Its blocks at the top level.
    pub blocks: Items<Block>,
    /// What each of its lines belongs to.
    pub owners: Items<Owner>,
}
