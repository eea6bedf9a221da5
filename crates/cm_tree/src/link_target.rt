//! The destination and title of a link, borrowed.
ghost use Rattle.std.specs.Prelude.{◌≡◌};
ghost use Rattle.cm_tree.specs.LinkTargets.{led_to};

use crate::boxed_text::BoxedText;

/// The destination of a link, and its title: as plain texts, or as texts that a definition shares with its
/// references.
#[derive(Clone, Copy, Debug)]
pub enum LinkTarget<'a> {
    /// Plain texts.
    Plain {
        /// The destination.
        dest: &'a str,
        /// Its title.
        title: &'a str,
    },
    /// Texts that are shared.
    Shared {
        /// The destination.
        dest: &'a BoxedText,
        /// Its title.
        title: &'a BoxedText,
    },
}

impl<'a> LinkTarget<'a> {
    /// The target of a link that holds these texts: shared if another link may hold one of them.
    pub fn new(dest: &'a BoxedText, title: &'a BoxedText) -> LinkTarget<'a>
        ensures { led_to result ≡ (dest.now, title.now) }
    {
        if dest.is_shared() || title.is_shared() {
            return LinkTarget::Shared { dest, title };
        }
        LinkTarget::Plain {
            dest: dest.as_str(),
            title: title.as_str(),
        }
    }

    /// The destination.
    pub fn dest(self) -> &'a str
        ensures { result.now ≡ (led_to self.entry).0 }
    {
        match self {
            LinkTarget::Plain { dest, .. } => dest,
            LinkTarget::Shared { dest, .. } => dest.as_str(),
        }
    }

    /// The title.
    pub fn title(self) -> &'a str
        ensures { result.now ≡ (led_to self.entry).1 }
    {
        match self {
            LinkTarget::Plain { title, .. } => title,
            LinkTarget::Shared { title, .. } => title.as_str(),
        }
    }
}
