//! The tags of elements without attributes.
ghost use Rattle.std.specs.Prelude.{◌≡◌};
ghost use Rattle.cm_html.specs.Elements.{start_tag, end_tag};

/// An element without attributes that contains others or text.
#[derive(Clone, Copy, Debug)]
pub enum Element {
    /// A paragraph.
    Paragraph,
    /// A block quote.
    Quote,
    /// A list item.
    Item,
    /// A code span.
    Code,
    /// Emphasis.
    Emph,
    /// Strong emphasis.
    Strong,
    /// Strikethrough.
    Strike,
}

impl Element {
    /// Its start tag. That of a block quote is followed by a line feed.
    #[inline(always)]
    pub fn start(self) -> &'static str
        ensures { result.now ≡ start_tag self }
    {
        match self {
            Element::Paragraph => "<p>",
            Element::Quote => "<blockquote>\n",
            Element::Item => "<li>",
            Element::Code => "<code>",
            Element::Emph => "<em>",
            Element::Strong => "<strong>",
            Element::Strike => "<del>",
        }
    }

    /// Its end tag. That of a block is followed by a line feed.
    #[inline(always)]
    pub fn end(self) -> &'static str
        ensures { result.now ≡ end_tag self }
    {
        match self {
            Element::Paragraph => "</p>\n",
            Element::Quote => "</blockquote>\n",
            Element::Item => "</li>\n",
            Element::Code => "</code>",
            Element::Emph => "</em>",
            Element::Strong => "</strong>",
            Element::Strike => "</del>",
        }
    }
}
