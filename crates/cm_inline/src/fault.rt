//! Why the inlines of a leaf are refused.
ghost use Rattle.std.specs.Prelude.{◌≡◌};

use cm_text::NoMemory;
use std::alloc::AllocError;
use thiserror::Error;

/// Why the inlines of a leaf are refused.
#[derive(Clone, Copy, Debug, PartialEq, Eq, Drop, Error)]
pub enum InlineFault {
    /// Emphasis, strong emphasis, strikethrough, links and images nest deeper than the limit.
    #[error("inlines too deep")]
    InlinesTooDeep,
    /// A request for memory was refused.
    #[error("out of memory")]
    NoMemory,
    /// The source has 2^32 bytes or more. No text within the limits has such a leaf.
    #[error("source too long")]
    SourceTooLong,
}

impl From<AllocError> for InlineFault {
    ghost use Rattle.std.specs.Prelude.{◌≡◌};
    ghost use Rattle.cm_inline.specs.declared.fault.InlineFault.TheVariants.{NoMemory};

    ghost from_gives = { λ _ e. e ≡ NoMemory };

    fn from(_: AllocError) -> InlineFault {
        InlineFault::NoMemory
    }
}

impl From<NoMemory> for InlineFault {
    ghost use Rattle.std.specs.Prelude.{◌≡◌};
    ghost use Rattle.cm_inline.specs.declared.fault.InlineFault.TheVariants.{NoMemory};

    ghost from_gives = { λ _ e. e ≡ NoMemory };

    fn from(_: NoMemory) -> InlineFault {
        InlineFault::NoMemory
    }
}
