//! Writing all of some bytes to a sink.
ghost use Rattle.std.specs.Prelude.{◌≡◌, ℕ, ◌+◌, ◌-◌, ◌^◌, ◌<◌, MatchResult, IfOk};
ghost use Rattle.cm_text.specs.Writing.{Wrote, WroteFront};

use crate::device::Sink;
use thiserror::Error;

/// A sink failed, or accepted no byte of a nonempty piece, after it had accepted `written` bytes.
#[derive(Clone, Copy, Debug, PartialEq, Eq, Drop, Error)]
#[error("write failed after {written} bytes")]
pub struct WriteFailed {
    pub written: usize,
}

/// Writes all the bytes. It takes no memory.
///
/// # Errors
///
/// `WriteFailed` if a write failed: then exactly the first `written` bytes were written.
pub fn write_all<W: Sink>(sink: &mut W, bytes: &[u8]) -> Result<(), WriteFailed>
    requires { (W.seen sink.old).failed < 2 ^ 64 - 1 }
    ensures wrote { MatchResult result
        (λ _. Wrote (W.seen sink.old) (W.seen sink.new) bytes.now 0)
        (λ e. WroteFront (W.seen sink.old) (W.seen sink.new) bytes.now e.written) }
{
    let mut written = 0;
    while written < bytes.len() {
        match sink.write(&bytes[written..]) {
            Ok(n) => written += n,
            Err(_) => return Err(WriteFailed { written }),
        }
    }
    Ok(())
}
