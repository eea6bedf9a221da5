//! Why a case doesn't come out as its table says.

use cm_text::NoMemory;
use std::alloc::{AllocError, AllocFailed, Global};
use std::str;

/// Why a case doesn't come out.
#[derive(Debug, Drop)]
pub enum Trouble {
    /// What was expected and what was found, or what can't be read in the table.
    Told(String),
    /// A request for memory was refused.
    NoMemory,
}

impl From<AllocError> for Trouble {
    fn from(_: AllocError) -> Trouble {
        Trouble::NoMemory
    }
}

impl<T: Drop> From<AllocFailed<T>> for Trouble {
    fn from(_: AllocFailed<T>) -> Trouble {
        Trouble::NoMemory
    }
}

impl From<NoMemory> for Trouble {
    fn from(_: NoMemory) -> Trouble {
        Trouble::NoMemory
    }
}

/// The trouble with this text.
pub fn wrong(alloc: Global, text: &str) -> Trouble {
    match String::from_str(alloc, text) {
        Ok(text) => Trouble::Told(text),
        Err(_) => Trouble::NoMemory,
    }
}

/// Bytes as they are reported.
pub fn shown(bytes: &[u8]) -> &str {
    str::from_utf8(bytes).unwrap_or("(no UTF-8)")
}

/// Checks that these bytes are the expected ones; otherwise reports both, under the name of what they are.
pub fn same(alloc: Global, what: &str, wanted: &[u8], got: &[u8]) -> Result<(), Trouble> {
    if wanted == got {
        return Ok(());
    }
    let (wanted, got) = (shown(wanted), shown(got));
    Err(Trouble::Told(format!(in alloc; "{what} wanted:\n{wanted}\n{what} got:\n{got}\n")?))
}
