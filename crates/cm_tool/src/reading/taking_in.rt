//! Reads a source to its end, and passes its bytes on in pieces.
ghost use Rattle.std.specs.Prelude.{◌≡◌, ℕ, ◌+◌, ◌-◌, ◌^◌, ◌<◌, ◌≤◌, List, [], ◌++◌, Option, None, length};
ghost use Rattle.std.specs.Prelude.{IfOk, IfErr, OnOk};
ghost use Rattle.std.specs.Io.KnownBytes.{Consumes};
ghost use Rattle.cm_text.specs.Limits.{LimitsView};
ghost use Rattle.cm_tool.specs.declared.fault.Fault as faults;
ghost use Rattle.cm_tool.specs.Parsing.{Answers};
ghost use Rattle.cm_tool.specs.steps.ReadingSteps.{IsInText, TakesIn};

use crate::fault::Fault;
use crate::reading::parser::SLICE;
use cm_text::Source;
use std::alloc::{AllocError, Global};

/// What reads bytes, piece by piece.
pub(crate) trait TakesBytes {
    // It has read these bytes, which settle no fault.
    ghost has_taken_in: { LimitsView → Self → List ℕ → Type 0 };

    // It was given these bytes, some of which it refused.
    ghost was_given: { Self → List ℕ → Type 0 };

    // The fault that bytes settle.
    ghost settled: { LimitsView → List ℕ → Option faults.Fault };

    // How many bytes it can still read.
    ghost left: { Self → ℕ };

    /// Reads one more piece. A fault is returned as soon as the bytes settle it.
    fn take(&mut self, piece: &[u8]) -> Result<(), Fault>
        ensures stands { OnOk result ((limits : LimitsView) (bytes : List ℕ)
            → has_taken_in limits self.old bytes → has_taken_in limits self.new (bytes ++ piece.now)) }
        ensures settled { (limits : LimitsView) (bytes : List ℕ)
            → has_taken_in limits self.old bytes → Answers result (settled limits (bytes ++ piece.now)) }
        ensures given { IfErr result (λ fault. (limits : LimitsView) (bytes : List ℕ)
            → has_taken_in limits self.old bytes → IsInText fault → was_given self.new (bytes ++ piece.now)) }
        ensures left { OnOk result (left self.new + length piece.now ≡ left self.old) };
}

/// How many bytes are read at once from a source that has filled the first buffer. Short texts do without the
/// memory of a longer one.
const LONG_READ: usize = 32_768;

fn zeros(alloc: Global, count: usize) -> Result<Vec<u8>, AllocError>
    ensures { IfOk result (λ zeros. length zeros.items ≡ count) }
{
    vec![in alloc; 0; count]
}

/// The buffer for the next read, after one of `n` bytes: a longer one, where they have filled the first.
fn widened(alloc: Global, buffer: Vec<u8>, n: usize) -> Result<Vec<u8>, AllocError>
    ensures { IfOk result (λ longer. length buffer.items ≤ length longer.items) }
{
    if n == SLICE && buffer.len() == SLICE {
        return zeros(alloc, LONG_READ);
    }
    Ok(buffer)
}

/// Passes a source to a taker, in pieces of at most 8 KiB until one is full, then of at most 32 KiB. A fault
/// that the bytes settle ends the reading: no read is made after it. So does a failed read.
pub(crate) fn take_all<R: Source, T: TakesBytes>(
    alloc: Global,
    source: &mut R,
    taker: &mut T,
) -> Result<(), Fault>
    requires { (R.seen source.old).failed < 2 ^ 64 - 1 }
    ensures { (bytes : List ℕ) × Consumes (R.seen source.old).remaining (R.seen source.new).remaining bytes
        × ((limits : LimitsView) → T.has_taken_in limits taker.old [] → T.settled limits [] ≡ None
        → TakesIn (T.has_taken_in limits taker.new) (T.settled limits) result bytes
        (R.seen source.old) (R.seen source.new))
        × ((limits : LimitsView) → T.has_taken_in limits taker.old [] → T.settled limits [] ≡ None
        → IfErr result (λ fault. IsInText fault → T.was_given taker.new bytes)) }
{
    let mut buffer = zeros(alloc, SLICE)?;
    loop {
        let room = buffer.as_mut_slice();
        let Ok(n) = source.read(room) else {
            return Err(Fault::ReadFailed);
        };
        if n == 0 {
            return Ok(());
        }
        taker.take(&room[..n])?;
        buffer = widened(alloc, buffer, n)?;
    }
}
