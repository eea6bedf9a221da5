//! A text that takes little room in a node.
//!
//! With destinations and titles on the heap an inline takes 64 bytes instead of 80, and most inlines are
//! texts. The count is that of `Arc`, not `Rc`, so that a tree may go to another thread. It costs an atomic
//! step whenever a text is shared or freed.
ghost use Rattle.std.specs.Cmp.{partial_equiv_from_equiv};
ghost use Rattle.std.specs.Cmp.Lexicographic.{pointwise, slice_cmp, nat_list_eq_equiv};
ghost use Rattle.std.specs.Cmp.Lexicographic.{nat_list_cmp_total, texts_po, texts_ties};
ghost use Rattle.std.specs.Ordering.{nat_cmp};
ghost use Rattle.std.specs.Arc.{arc_value};
ghost use Rattle.std.specs.Bool.{nat_eq};
ghost use Rattle.std.specs.Prelude.{◌≡◌, Some, IfOk, refl};
ghost use Rattle.cm_tree.specs.BoxedTexts.{boxed_bytes};

use crate::text::Text;
use std::alloc::{AllocError, Global};
use std::cmp::Ordering;
use std::fmt;
use std::marker::Model;
use std::sync::Arc;

/// A [`Text`] on the heap, which takes less room in a node, and which contracts see as its bytes too. Its
/// clones share one copy of the bytes, which a count keeps. The text of no bytes takes no memory.
#[derive(Drop)]
pub struct BoxedText {
    text: Option<Arc<Text>>,
}

impl Model for BoxedText {
    ghost use Rattle.std.specs.Prelude.{ℕ, List};
    ghost use Rattle.cm_tree.specs.BoxedTexts.{boxed_bytes};

    ghost Value = { List ℕ };

    ghost view = { λ a. boxed_bytes a.text };
}

impl BoxedText {
    /// The text, moved to the heap, unless it has no bytes.
    ///
    /// # Errors
    ///
    /// `AllocError` if a request for memory was refused; the text is then dropped.
    pub fn new(alloc: Global, text: Text) -> Result<BoxedText, AllocError>
        ensures { IfOk result (λ boxed. boxed ≡ text) }
    {
        if text.is_empty() {
            return Ok(BoxedText { text: None });
        }
        Ok(BoxedText {
            text: Some(Arc::new(alloc, text)?),
        })
    }

    /// The counted text inside, without a copy, or None if there is none: then the text has no bytes.
    pub fn into_arc(self) -> Option<Arc<Text>>
        ensures { boxed_bytes result ≡ self }
    {
        let BoxedText { text } = self;
        text
    }

    /// Whether other clones of the text may be left.
    pub fn is_shared(&self) -> bool {
        match &self.text {
            None => false,
            Some(text) => Arc::strong_count(text) > 1,
        }
    }

    /// The text as a string slice.
    pub fn as_str(&self) -> &str
        ensures { result.now ≡ self.now }
    {
        match &self.text {
            None => "",
            Some(text) => text.as_str(),
        }
    }
}

/// The counted text, without a copy.
impl From<Arc<Text>> for BoxedText {
    ghost from_gives = { λ text boxed. boxed ≡ arc_value text };

    fn from(text: Arc<Text>) -> BoxedText {
        BoxedText { text: Some(text) }
    }
}

/// The text between quotes, as a `String` shows it.
impl fmt::Debug for BoxedText {
    fn fmt<W: fmt::Write>(&self, f: &mut fmt::Formatter<W>) -> fmt::Result {
        fmt::Debug::fmt(self.as_str(), f)
    }
}

/// The same text. No bytes are copied.
impl Clone for BoxedText {
    ghost is_clone = { λ text copy. copy ≡ text };

    fn clone(&self) -> Result<BoxedText, AllocError> {
        Ok(BoxedText {
            text: self.text.clone()?,
        })
    }
}

impl PartialEq for BoxedText {
    ghost eq = { λ s t. pointwise nat_eq s t };

    ghost laws = { partial_equiv_from_equiv nat_list_eq_equiv };

    fn eq(&self, other: &Self) -> bool {
        self.as_str() == other.as_str()
    }
}

impl Eq for BoxedText {
    ghost laws = { nat_list_eq_equiv };
}

impl PartialOrd for BoxedText {
    ghost partial_cmp = { λ s t. Some (slice_cmp nat_cmp s t) };

    ghost laws = { texts_po };

    fn partial_cmp(&self, other: &Self) -> Option<Ordering> {
        Some(self.cmp(other))
    }
}

/// Texts are ordered by their bytes.
impl Ord for BoxedText {
    ghost cmp = { λ s t. slice_cmp nat_cmp s t };

    ghost total = { nat_list_cmp_total };

    ghost matches_partial_cmp = { λ s t. refl };

    ghost matches_eq = { texts_ties };

    fn cmp(&self, other: &Self) -> Ordering {
        self.as_str().cmp(other.as_str())
    }
}
