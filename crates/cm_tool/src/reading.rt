//! Reading: from bytes, in pieces or from a source, to the outline of their document.
ghost use Rattle.std.specs.Prelude.{ℕ, ◌-◌, ◌^◌, ◌<◌, List};
ghost use Rattle.std.specs.Io.KnownBytes.{Consumes};
ghost use Rattle.cm_tool.specs.steps.ReadingSteps.{ReadsOutline};

mod parser;
mod taking_in;
mod texts;

use crate::fault::Fault;
use cm_block::Outline;
use cm_text::{Limits, Source};
pub use parser::Parser;
use std::alloc::Global;
pub(crate) use taking_in::{TakesBytes, take_all};
pub use texts::read_text;

/// Reads a source to its end and returns the outline of its document.
pub(crate) fn read_outline<R: Source>(
    alloc: Global,
    source: &mut R,
    limits: Limits,
) -> Result<Outline, Fault>
    requires { (R.seen source.old).failed < 2 ^ 64 - 1 }
    ensures { (bytes : List ℕ) × Consumes (R.seen source.old).remaining (R.seen source.new).remaining bytes
        × ReadsOutline result limits bytes (R.seen source.old) (R.seen source.new) }
{
    let mut parser = Parser::new(alloc, limits);
    take_all(alloc, source, &mut parser)?;
    parser.outline()
}
