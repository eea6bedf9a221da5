//! A source in memory.
ghost use Rattle.std.specs.Prelude.{◌≡◌, ◌+◌, ◌-◌, ◌^◌, ◌<◌, [], if◌then◌else◌};
ghost use Rattle.std.specs.Prelude.{length, take, drop, Some, OnErr, IsErr, is_ok, true, min, IfOk};
ghost use Rattle.std.specs.Io.{ReadsAtMost};
ghost use Rattle.std.specs.Io.KnownBytes.{ReadConsumes};
ghost use Rattle.std.specs.List.{flat_map};

use crate::device::{DeviceFailed, Source};

/// A source in memory, for tests: pieces, and then the end or a failure. Empty pieces are skipped. No read
/// returns bytes of two pieces.
#[derive(Debug, Drop)]
pub struct Pieces {
    pieces: Vec<Vec<u8>>,
    /// The piece that is read, and how much of it has been read.
    index: usize,
    start: usize,
    fails: bool,
    failures: u64,
}

impl Pieces {
    ghost use Rattle.cm_text.specs.Devices.{fails_of};

    /// A source of the pieces in order, which then ends, or fails at each further read if `fails`.
    pub fn new(pieces: Vec<Vec<u8>>, fails: bool) -> Self
        ensures failed { (⟦<Pieces as Source>⟧.seen result).failed ≡ 0 }
        ensures remaining { (⟦<Pieces as Source>⟧.seen result).remaining
            ≡ Some (flat_map (λ piece. piece.items) pieces.items) }
        ensures fails { fails_of result ≡ fails }
    {
        Pieces {
            pieces,
            index: 0,
            start: 0,
            fails,
            failures: 0,
        }
    }
}

/// Copies as many of the bytes as the buffer holds.
fn give(bytes: &[u8], buf: &mut [u8]) -> usize
    ensures count { result ≡ min (length bytes.now) (length buf.old) }
    ensures given { take result buf.new ≡ take result bytes.now }
{
    let count = bytes.len().min(buf.len());
    buf[..count].copy_from_slice(&bytes[..count]);
    count
}

/// A read returns as many bytes of the next piece as the buffer holds, and no bytes of two pieces.
impl Source for Pieces {
    ghost use Rattle.cm_text.specs.Devices.{fails_of, next_piece};

    ghost seen = { λ s. record {
      remaining = Some (drop s.start (flat_map (λ piece. piece.items) (drop s.index s.pieces.items)));
      failed = s.failures;
    } };

    fn read(&mut self, buf: &mut [u8]) -> Result<usize, DeviceFailed>
        requires { (⟦<Pieces as Source>⟧.seen self.old).failed < 2 ^ 64 - 1 }
        ensures bound { ReadsAtMost result buf.new }
        ensures bytes { ReadConsumes (⟦<Pieces as Source>⟧.seen self.old).remaining
            (⟦<Pieces as Source>⟧.seen self.new).remaining result buf.new }
        ensures failures { (⟦<Pieces as Source>⟧.seen self.new).failed
            ≡ (if is_ok result then (⟦<Pieces as Source>⟧.seen self.old).failed
            else (⟦<Pieces as Source>⟧.seen self.old).failed + 1) }
        // It returns as much of the next piece as the buffer holds, and nothing of the one after it.
        ensures piece { IfOk result (λ n. n ≡ min (length (next_piece self.old)) (length buf.old)) }
        // It fails exactly where the pieces are used up and it was made to.
        ensures fails { OnErr result (((⟦<Pieces as Source>⟧.seen self.old).remaining ≡ Some [])
            × (fails_of self.old ≡ true)) }
        ensures ends { fails_of self.old ≡ true
            → (⟦<Pieces as Source>⟧.seen self.old).remaining ≡ Some [] → IsErr result }
        ensures kept { fails_of self.new ≡ fails_of self.old }
    {
        while self.index < self.pieces.len() {
            let piece = self.pieces[self.index].as_slice();
            if self.start < piece.len() {
                let given = give(&piece[self.start..], buf);
                self.start += given;
                return Ok(given);
            }
            self.start -= piece.len();
            self.index += 1;
        }
        if self.fails {
            self.failures += 1;
            return Err(DeviceFailed);
        }
        Ok(0)
    }

    fn failures(&self) -> u64 {
        self.failures
    }
}
