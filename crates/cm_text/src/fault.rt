//! Why a text is refused.
//!
//! Each crate writes the texts and conversions of its own faults, because `rt verdict` refuses an `impl` that
//! a macro of the repository wrote.

use thiserror::Error;

/// Why a text is refused. Bytes count from 0.
#[derive(Clone, Copy, Debug, PartialEq, Eq, Drop, Error)]
pub enum TextFault {
    /// The bytes aren't UTF-8: `at` is the length of their longest well-formed prefix.
    #[error("not UTF-8 at byte {at}")]
    NotUtf8 { at: usize },
    /// There is a byte past the limit, which is `at`.
    #[error("input too long at byte {at}")]
    TooLong { at: usize },
    /// A request for memory was refused.
    #[error("out of memory")]
    NoMemory,
}
