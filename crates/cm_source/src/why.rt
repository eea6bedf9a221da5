//! Why a tree can't be spelled.
//!
//! The texts of the reasons are hand-written, because no contract says what a derived `Display` writes.
ghost use Rattle.std.specs.Prelude.{◌≡◌, ◌≤◌, [], ◌∷◌, Some, length};
ghost use Rattle.cm_source.specs.Answers.{ok_unless};
ghost use Rattle.cm_source.specs.InlineRefusals.{refused};
ghost use Rattle.cm_source.specs.Reasons.{reason_text};

use std::error::Error;
use std::fmt;

/// Why a tree can't be spelled: what is wrong with the first node, in the order of the document, that no
/// source gives or that its own source wouldn't read back as.
#[derive(Clone, Copy, Debug, PartialEq, Eq, Drop)]
pub enum Why {
    /// A link reference definition.
    Definition,
    /// U+0000 in a string.
    Nul,
    /// A heading's level that isn't from 1 to 6, a list without items, an ordered list that starts with a
    /// number of more than nine digits, a paragraph without inlines.
    Shape,
    /// An empty text, or a text right after a text.
    Text,
    /// Emphasis, strong emphasis or strikethrough that holds another at any depth.
    EmphasisNested,
    /// Emphasis, strong emphasis or strikethrough right after another.
    EmphasisTouching,
    /// Emphasis without content, or with an edge where its delimiter run wouldn't open or close.
    EmphasisEdge,
    /// A code span that is empty, has a line ending, is right after another, or would end a label.
    CodeSpan,
    /// Raw HTML that isn't one line of one tag, starts a paragraph, is right after a line break, or would end
    /// a label.
    RawHtml,
    /// A link that holds a link at any depth.
    LinkInLink,
    /// A line break in a heading, at an end of its inlines, or right after another.
    LineBreak,
    /// The text of a code block that doesn't end in a line feed, or has a carriage return.
    CodeText,
    /// An HTML block that isn't read back as itself.
    HtmlBlock,
    /// A list right after a list of its kind.
    AdjacentLists,
    /// A list with an item that starts with a list.
    ItemBeginsWithList,
    /// A list that would be tight if it is loose, or loose if it is tight.
    Looseness,
    /// Strikethrough where the rules have it off.
    StrikeOff,
    /// A link or an image to an address that the rules don't follow.
    AddressOff,
    /// The info of a code block that isn't one line, where the rules have no raw HTML.
    InfoOff,
}

impl Why {
    /// Its text in the line of a fault.
    pub fn text(&self) -> &'static str
        ensures text { result.now ≡ reason_text self.now }
        ensures short { length result.now ≤ 46 }
    {
        match self {
            Why::Definition => "a definition",
            Why::Nul => "U+0000",
            Why::Shape => "a malformed node",
            Why::Text => "an empty or divided text",
            Why::EmphasisNested => "emphasis in emphasis",
            Why::EmphasisTouching => "emphasis beside emphasis",
            Why::EmphasisEdge => "an edge of emphasis",
            Why::CodeSpan => "a code span",
            Why::RawHtml => "raw HTML",
            Why::LinkInLink => "a link in a link",
            Why::LineBreak => "a line break",
            Why::CodeText => "the text of a code block",
            Why::HtmlBlock => "an HTML block",
            Why::AdjacentLists => "two lists of one type side by side",
            Why::ItemBeginsWithList => "an item that begins with a list",
            Why::Looseness => "a loose or tight list",
            Why::StrikeOff => "strikethrough while it is off",
            Why::AddressOff => "an address that isn't followed",
            Why::InfoOff => "an info of several lines while raw HTML is off",
        }
    }
}

impl fmt::Display for Why {
    ghost output = { λ why. Some (reason_text why) };

    fn fmt<W: fmt::Write>(&self, f: &mut fmt::Formatter<W>) -> fmt::Result {
        f.write_str(self.text())
    }
}

impl Error for Why {}

/// Refuses for a reason where it holds.
pub(crate) fn refuse_if(holds: bool, why: Why) -> Result<(), Why>
    ensures { result ≡ ok_unless (refused ((holds, why) ∷ [])) }
{
    if holds { Err(why) } else { Ok(()) }
}
