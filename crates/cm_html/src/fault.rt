//! Why HTML or a listing isn't written whole.
ghost use Rattle.std.specs.Prelude.{◌≡◌};

use cm_text::NoMemory;
use thiserror::Error;

/// Why HTML or a listing isn't written whole.
#[derive(Clone, Copy, Debug, PartialEq, Eq, Drop, Error)]
pub enum HtmlFault {
    /// A request for memory was refused.
    #[error("out of memory")]
    NoMemory,
    /// The writer failed, or accepted no byte of a nonempty piece, after it had accepted `written` bytes.
    #[error("write failed after {written} bytes")]
    WriteFailed { written: usize },
}

impl From<NoMemory> for HtmlFault {
    ghost use Rattle.std.specs.Prelude.{◌≡◌};
    ghost use Rattle.cm_html.specs.declared.fault.HtmlFault.TheVariants.{NoMemory};

    ghost from_gives = { λ _ e. e ≡ NoMemory };

    fn from(_: NoMemory) -> HtmlFault {
        HtmlFault::NoMemory
    }
}
