//! A reader of std as a source.
ghost use Rattle.std.specs.Prelude.{◌≡◌};

use crate::device::{DeviceFailed, Source};
use std::io::Read;

/// A reader of std as a source: every error of the reader is a failure. The bytes still to come are those
/// that the reader reports; a file or a terminal leaves them open.
#[derive(Debug, Drop)]
pub struct FromRead<R> {
    reader: R,
    failures: u64,
}

impl<R: Read> FromRead<R> {
    /// A source over the reader, without failures so far.
    pub fn new(reader: R) -> Self
        ensures failed { (⟦<FromRead<R> as Source>⟧.seen result).failed ≡ 0 }
        ensures remaining { (⟦<FromRead<R> as Source>⟧.seen result).remaining ≡ R.remaining reader }
    {
        FromRead {
            reader,
            failures: 0,
        }
    }
}

/// The bytes still to come are those of the reader. A file or a terminal leaves them open.
impl<R: Read> Source for FromRead<R> {
    ghost seen = { λ s. record { remaining = R.remaining s.reader; failed = s.failures } };

    fn read(&mut self, buf: &mut [u8]) -> Result<usize, DeviceFailed> {
        match self.reader.read(buf) {
            Ok(n) => Ok(n),
            Err(_) => {
                self.failures += 1;
                Err(DeviceFailed)
            }
        }
    }

    fn failures(&self) -> u64 {
        self.failures
    }
}
