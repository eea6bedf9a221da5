//! What neighbouring inlines see of an inline, and where an inline is.
ghost use Rattle.std.specs.Prelude.{◌≡◌, not, ◌&&◌, ◌||◌, map};
ghost use Rattle.cm_text.specs.Rules as text_rules;
ghost use Rattle.cm_source.specs.InlineRefusals.{is_emphasis, is_whitespace, is_plain, first_of, last_of};
ghost use Rattle.cm_source.specs.InlineRefusals.{further_in, inside_link, judged, first_face, last_face};
ghost use Rattle.cm_source.specs.steps.InlineFaces.{shown, seen, place_of};

use cm_scan::{first_character, last_character};
use cm_text::{Rules, is_punct_by, is_space};
use cm_tree::Inline;

/// What neighbouring inlines see of an inline.
#[derive(Clone, Copy)]
pub(crate) enum Face<'a> {
    /// A text.
    Text(&'a str),
    Code,
    Break,
    /// Emphasis, strong emphasis or strikethrough.
    Emphasis,
    Other,
}

/// The position of an inline.
#[derive(Clone, Copy)]
pub(crate) struct Place {
    /// In a heading.
    pub(crate) heading: bool,
    /// As the first inline of a paragraph.
    pub(crate) opens_paragraph: bool,
    /// In a link that is the first inline of a paragraph.
    pub(crate) in_opening_link: bool,
}

impl Place {
    /// The position after the first inline of a paragraph, or inside it.
    pub(crate) fn further(self) -> Place
        ensures { place_of result ≡ further_in (place_of self) }
    {
        Place {
            opens_paragraph: false,
            ..self
        }
    }

    /// The place inside of a link.
    pub(crate) fn inside_link(self) -> Place
        ensures { place_of result ≡ inside_link (place_of self) }
    {
        Place {
            opens_paragraph: false,
            in_opening_link: self.in_opening_link || self.opens_paragraph,
            ..self
        }
    }
}

/// Whether this is Unicode whitespace.
pub(crate) fn is_whitespace(c: Option<char>) -> bool
    ensures { result ≡ is_whitespace c }
{
    match c {
        Some(c) => is_space(c),
        None => false,
    }
}

/// Whether this is a plain character.
pub(crate) fn is_plain(rules: Rules, c: Option<char>) -> bool
    ensures { result ≡ is_plain rules c }
{
    match c {
        Some(c) => !is_space(c) && !c.is_ascii_control() && !is_punct_by(rules, c),
        None => false,
    }
}

/// What neighbouring inlines see of an inline.
pub(crate) fn face_of(inline: &Inline) -> Face<'_>
    ensures { (rules : text_rules.Rules) → shown result ≡ (judged rules inline.now).face }
{
    match inline {
        Inline::Text(text) => Face::Text(text.as_str()),
        Inline::Code(_) => Face::Code,
        Inline::Soft => Face::Break,
        Inline::Hard => Face::Break,
        Inline::Emph(_) => Face::Emphasis,
        Inline::Strong(_) => Face::Emphasis,
        Inline::Strike(_) => Face::Emphasis,
        _ => Face::Other,
    }
}

/// The face of the first inline, if there is one.
pub(crate) fn first_face(inlines: &[Inline]) -> Option<Face<'_>>
    ensures { (rules : text_rules.Rules) → seen result ≡ first_face (map (judged rules) inlines.now) }
{
    match inlines.first() {
        Some(first) => Some(face_of(first)),
        None => None,
    }
}

/// The face of the last inline, if there is one.
pub(crate) fn last_face(inlines: &[Inline]) -> Option<Face<'_>>
    ensures { (rules : text_rules.Rules) → seen result ≡ last_face (map (judged rules) inlines.now) }
{
    match inlines.last() {
        Some(last) => Some(face_of(last)),
        None => None,
    }
}

/// The first character of a neighbour, if it is a text.
pub(crate) fn first_of(beside: Option<Face<'_>>) -> Option<char>
    ensures { result ≡ first_of (seen beside.entry) }
{
    match beside {
        Some(Face::Text(text)) => first_character(text),
        _ => None,
    }
}

/// The last character of a neighbour, if it is a text.
pub(crate) fn last_of(beside: Option<Face<'_>>) -> Option<char>
    ensures { result ≡ last_of (seen beside.entry) }
{
    match beside {
        Some(Face::Text(text)) => last_character(text),
        _ => None,
    }
}

/// Whether this is emphasis, strong emphasis or strikethrough.
pub(crate) fn is_emphasis(beside: Option<Face<'_>>) -> bool
    ensures { result ≡ is_emphasis (seen beside.entry) }
{
    matches!(beside, Some(Face::Emphasis))
}
