//! The texts of a definition, as the table of definitions keeps them.
//!
//! Short ones follow one another in a text that holds those of all definitions, so a definition takes 32
//! bytes and its texts. A long destination is on the heap instead, where its references share it.
ghost use Rattle.std.specs.Prelude.{◌≡◌, ◌<◌, ℕ, List, IfOk, string_bytes, length};
ghost use Rattle.cm_tree.specs.LinkTargets.{led_to};
ghost use Rattle.cm_tree.specs.steps.KeptTexts.{kept_label, kept_target, IsKept, Keeps, GoesOn};

use crate::boxed_text::BoxedText;
use crate::link_target::LinkTarget;
use crate::text::Text;
use std::alloc::{AllocError, Global};

/// Texts of at least this number of bytes aren't short. A shorter one is copied for each of its references,
/// since that costs less than a count.
const SHARED: usize = 64;

/// The folded label, the destination and the title of a definition.
#[derive(Debug, Drop)]
pub(crate) enum KeptTexts {
    /// One after another in a text that holds many: where they start, and how many bytes each has.
    Placed {
        from: usize,
        label: u8,
        dest: u8,
        title: u8,
    },
    /// On the heap.
    Shared(Box<SharedTexts>),
}

/// Texts on the heap. References share the destination and the title.
#[derive(Debug, Drop)]
pub(crate) struct SharedTexts {
    pub(crate) label: BoxedText,
    pub(crate) dest: BoxedText,
    pub(crate) title: BoxedText,
}

impl KeptTexts {
    /// Keeps copies: appended to a text if all are short, or else on the heap.
    ///
    /// # Errors
    ///
    /// `AllocError` if a request for memory was refused; some of them may have been appended then.
    pub(crate) fn copy(
        alloc: Global,
        texts: &mut String,
        label: &str,
        dest: &str,
        title: &str,
    ) -> Result<KeptTexts, AllocError>
        ensures kept { IfOk result
            (λ kept. Keeps (string_bytes texts.new) kept label.now (dest.now, title.now)) }
        ensures goes_on { GoesOn (string_bytes texts.old) (string_bytes texts.new) }
    {
        if label.len() < SHARED && dest.len() < SHARED && title.len() < SHARED {
            return KeptTexts::place(texts, label, dest, title);
        }
        KeptTexts::share(alloc, label, dest, title)
    }

    /// Appends copies of short texts to a text.
    fn place(
        texts: &mut String,
        label: &str,
        dest: &str,
        title: &str,
    ) -> Result<KeptTexts, AllocError>
        requires label { length label.now < 64 }
        requires dest { length dest.now < 64 }
        requires title { length title.now < 64 }
        ensures kept { IfOk result
            (λ kept. Keeps (string_bytes texts.new) kept label.now (dest.now, title.now)) }
        ensures goes_on { GoesOn (string_bytes texts.old) (string_bytes texts.new) }
    {
        let from = texts.len();
        texts.push_str(label)?;
        texts.push_str(dest)?;
        texts.push_str(title)?;
        Ok(KeptTexts::Placed {
            from,
            label: label.len() as u8,
            dest: dest.len() as u8,
            title: title.len() as u8,
        })
    }

    /// Copies texts to the heap.
    fn share(alloc: Global, label: &str, dest: &str, title: &str) -> Result<KeptTexts, AllocError>
        ensures { IfOk result (λ kept. (text : List ℕ) → Keeps text kept label.now (dest.now, title.now)) }
    {
        let shared = SharedTexts {
            label: BoxedText::new(alloc, Text::from_str(alloc, label)?)?,
            dest: BoxedText::new(alloc, Text::from_str(alloc, dest)?)?,
            title: BoxedText::new(alloc, Text::from_str(alloc, title)?)?,
        };
        Ok(KeptTexts::Shared(Box::new(alloc, shared)?))
    }

    /// The label, given the text that holds many.
    #[inline(always)]
    pub(crate) fn label<'a>(&'a self, texts: &'a str) -> &'a str
        requires { IsKept texts.now self.now }
        ensures { result.now ≡ kept_label texts.now self.now }
    {
        match self {
            KeptTexts::Placed { from, label, .. } => &texts[*from..*from + *label as usize],
            KeptTexts::Shared(shared) => shared.label.as_str(),
        }
    }

    /// The destination and the title, given the text that holds many.
    #[inline(always)]
    pub(crate) fn target<'a>(&'a self, texts: &'a str) -> LinkTarget<'a>
        requires { IsKept texts.now self.now }
        ensures { led_to result ≡ kept_target texts.now self.now }
    {
        match self {
            KeptTexts::Placed {
                from,
                label,
                dest,
                title,
            } => {
                let start = *from + *label as usize;
                let between = start + *dest as usize;
                LinkTarget::Plain {
                    dest: &texts[start..between],
                    title: &texts[between..between + *title as usize],
                }
            }
            KeptTexts::Shared(shared) => LinkTarget::Shared {
                dest: &shared.dest,
                title: &shared.title,
            },
        }
    }
}
