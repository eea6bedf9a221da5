//! A writer of std as a sink.
ghost use Rattle.std.specs.Prelude.{◌≡◌};

use crate::device::{DeviceFailed, Sink};
use std::io::Write;

/// A writer of std as a sink: every error of the writer is a failure, and so is a write that accepts no byte
/// of a nonempty piece. The bytes accepted are those that the writer reports; a file or a terminal leaves
/// them open.
#[derive(Debug, Drop)]
pub struct FromWrite<W> {
    writer: W,
    failures: u64,
}

impl<W: Write> FromWrite<W> {
    /// A sink over the writer, without failures so far.
    pub fn new(writer: W) -> Self
        ensures failed { (⟦<FromWrite<W> as Sink>⟧.seen result).failed ≡ 0 }
        ensures taken { (⟦<FromWrite<W> as Sink>⟧.seen result).taken ≡ W.contents writer }
    {
        FromWrite {
            writer,
            failures: 0,
        }
    }
}

/// The bytes taken are those of the writer. A file or a terminal leaves them open.
impl<W: Write> Sink for FromWrite<W> {
    ghost seen = { λ s. record { taken = W.contents s.writer; failed = s.failures } };

    fn write(&mut self, bytes: &[u8]) -> Result<usize, DeviceFailed> {
        match self.writer.write(bytes) {
            Ok(n) if n > 0 || bytes.is_empty() => Ok(n),
            _ => {
                self.failures += 1;
                Err(DeviceFailed)
            }
        }
    }

    fn failures(&self) -> u64 {
        self.failures
    }
}
