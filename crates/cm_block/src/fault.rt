//! Why the lines of a document are refused.
ghost use Rattle.std.specs.Prelude.{◌≡◌};

use cm_text::NoMemory;
use std::alloc::AllocError;
use thiserror::Error;

/// Why lines are refused. Lines count from 1.
#[derive(Clone, Copy, Debug, PartialEq, Eq, Drop, Error)]
pub enum BlockFault {
    /// This line is the first inside more quotes and items than the limit.
    #[error("blocks too deep on line {line}")]
    BlocksTooDeep { line: u128 },
    /// A request for memory was refused.
    #[error("out of memory")]
    NoMemory,
}

impl From<AllocError> for BlockFault {
    ghost use Rattle.std.specs.Prelude.{◌≡◌};
    ghost use Rattle.cm_block.specs.declared.fault.BlockFault.TheVariants.{NoMemory};

    ghost from_gives = { λ _ e. e ≡ NoMemory };

    fn from(_: AllocError) -> BlockFault {
        BlockFault::NoMemory
    }
}

impl From<NoMemory> for BlockFault {
    ghost use Rattle.std.specs.Prelude.{◌≡◌};
    ghost use Rattle.cm_block.specs.declared.fault.BlockFault.TheVariants.{NoMemory};

    ghost from_gives = { λ _ e. e ≡ NoMemory };

    fn from(_: NoMemory) -> BlockFault {
        BlockFault::NoMemory
    }
}
