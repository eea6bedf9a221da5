//! Why no source is spelled.
use crate::why::Why;
use cm_text::NoMemory;
use thiserror::Error;

/// Why a tree isn't spelled.
#[derive(Clone, Copy, Debug, PartialEq, Eq, Drop, Error)]
pub enum SourceFault {
    /// A request for memory was refused.
    #[error("out of memory")]
    NoMemory,
    /// The tree can't be spelled.
    #[error("cannot be spelled: {why}")]
    Unspellable {
        /// Its first node, in the order of the document, that can't be.
        why: Why,
    },
}

impl From<NoMemory> for SourceFault {
    ghost use Rattle.std.specs.Prelude.{◌≡◌};
    ghost use Rattle.cm_source.specs.declared.fault.SourceFault.TheVariants as faults;

    ghost from_gives = { λ _ e. e ≡ faults.NoMemory };

    fn from(_: NoMemory) -> SourceFault {
        SourceFault::NoMemory
    }
}

impl From<Why> for SourceFault {
    ghost use Rattle.std.specs.Prelude.{◌≡◌};
    ghost use Rattle.cm_source.specs.declared.fault.SourceFault.TheVariants as faults;

    ghost from_gives = { λ why e. e ≡ faults.Unspellable why };

    fn from(why: Why) -> SourceFault {
        SourceFault::Unspellable { why }
    }
}
